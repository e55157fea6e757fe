//! Digests of payloads, and their text.
ghost use Rattle.std.specs.Prelude.{◌≡◌, ◌*◌, ◌↔◌, length, IsSome};
ghost use Rattle.std.specs.List.{AllPass, list_all};
ghost use Rattle.fw_base.specs.Digests.{digest_read, is_lower_digit};

use hex::FromHex;

/// A SHA-256 digest, 32 bytes (FIPS 180-4).
pub type Digest = [u8; 32];

/// Reads a digest: 64 hex digits, the letters in lower case. All else gives nothing.
pub fn read_digest(bytes: &[u8]) -> Option<Digest>
    ensures value { result ≡ digest_read bytes.now }
    ensures found { IsSome result ↔ ((length bytes.now ≡ 64) × AllPass is_lower_digit bytes.now) }
{
    if all_lower_digits(bytes) {
        <[u8; 32] as FromHex>::from_hex(bytes).ok()
    } else {
        None
    }
}

fn all_lower_digits(bytes: &[u8]) -> bool
    ensures { result ≡ list_all is_lower_digit bytes.now }
{
    bytes.iter().all(|b| (b'0' <= *b && *b <= b'9') || (b'a' <= *b && *b <= b'f'))
}
