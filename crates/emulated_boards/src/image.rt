//! Images: what a board may run.
ghost use Rattle.std.specs.Prelude.{◌≡◌, length, if◌then◌else◌, Some, None};
ghost use Rattle.std.specs.List.{list_all};
ghost use Rattle.std.specs.Char.{is_digit};
ghost use Rattle.std.specs.Str.Parse.{digits_value};
ghost use Rattle.emulated_boards.specs.Images.{image_of, payload_image, raw_version};

use block_pool::Payload;
use fw_base::Digest;
use sha2::{Digest as _, Sha256};

/// How many bytes at an image's start say whether it is good, and its version.
pub const IMAGE_HEAD_BYTES: usize = 14;

/// What is kept of an image.
#[derive(Clone, Copy, Debug, PartialEq, Eq)]
pub struct Image {
    /// The raw version of a good image; none of a bad one.
    pub raw: Option<u32>,
    /// How many bytes the image has.
    pub len: u64,
    /// The SHA-256 of the image.
    pub digest: Digest,
}

impl Image {
    /// What is kept of an image of these bytes.
    pub fn of_bytes(bytes: &[u8]) -> Image
        ensures { result ≡ image_of bytes.now }
    {
        let digest = Sha256::digest(bytes);
        Image {
            raw: image_raw(bytes),
            len: bytes.len() as u64,
            digest,
        }
    }

    /// What is kept of a payload.
    pub fn of_payload(payload: &Payload) -> Image
        ensures { result ≡ payload_image payload.now }
    {
        let (head, known) = payload.head();
        let digest = payload.digest();
        Image {
            raw: image_raw(&head[..known]),
            len: u64::from(payload.len()),
            digest,
        }
    }
}

/// The raw version of a good image that begins with these bytes; nothing of a bad one.
///
/// An image is good where it begins with `EMU1 `, eight hex digits of either case, which are its
/// version, and a newline. So its first 14 bytes decide.
pub fn image_raw(bytes: &[u8]) -> Option<u32>
    ensures { result ≡ raw_version bytes.now }
{
    if bytes.len() < IMAGE_HEAD_BYTES {
        return None;
    }
    if !bytes.starts_with(b"EMU1 ") {
        return None;
    }
    if bytes[13] != b'\n' {
        return None;
    }
    read_hex(&bytes[5..13])
}

/// The number that eight hex digits write.
fn read_hex(digits: &[u8]) -> Option<u32>
    requires { length digits.now ≡ 8 }
    ensures { result ≡ (if list_all (λ c. is_digit c 16) digits.now then Some (digits_value 16 digits.now) else None) }
{
    let mut value = 0;
    'digits: for byte in digits {
        let digit = char::from(*byte).to_digit(16)?;
        value = value * 16 + digit;
    }
    Some(value)
}
