//! GUIDs: their text, and the GUID of an instance ID.
ghost use Rattle.std.specs.Prelude.{◌≡◌, ◌==◌, ◌&&◌, ◌+◌, ◌≤◌, ◌++◌, ℕ, List, length};
ghost use Rattle.arrayvec.specs.ArrayVec.{array_vec_len};
ghost use Rattle.hex.specs.Hex.{encode_lower, IsBytes};
ghost use Rattle.guid_ids.specs.Identifiers.{guid, guid_text, named_guid, grouped, ungrouped, has_hyphens};

use arrayvec::ArrayVec;
use std::marker::Model;
use uuid::Uuid;

/// The bytes of a GUID's text.
pub const GUID_TEXT_LEN: usize = 36;

/// A GUID (RFC 9562): 16 bytes, seen as their list. Its order is that of its bytes, and its default
/// is the nil UUID.
#[derive(Clone, Copy, Debug, Default, PartialEq, Eq, PartialOrd, Ord, Hash)]
pub struct Guid {
    bytes: [u8; 16],
}

impl Model for Guid {
    ghost Value = { List ℕ };

    ghost view = { λ g. g.bytes };

    ghost inverse = { λ xs. record { bytes = xs } };
}

impl Guid {
    /// The GUID that 36 bytes in the form 8-4-4-4-12 of hex digits name, in either case.
    pub fn read(bytes: &[u8]) -> Option<Guid>
        ensures { result ≡ named_guid bytes.now }
    {
        if bytes.len() != GUID_TEXT_LEN || !has_hyphens(bytes) {
            return None;
        }
        let digits = between_hyphens(bytes);
        let mut sixteen = [0; 16];
        hex::decode_to_slice(digits.as_slice(), &mut sixteen).ok()?;
        Some(Guid { bytes: sixteen })
    }

    /// The text in the form 8-4-4-4-12, in lower case.
    pub fn text(&self) -> [u8; 36]
        ensures text { result ≡ guid_text self.now }
        ensures reads_back { named_guid result ≡ Some self.now }
    {
        in_groups(&hex_digits(&self.bytes))
    }

    /// The GUID with these bytes.
    pub fn from_bytes(bytes: [u8; 16]) -> Guid
        ensures { result ≡ bytes }
    {
        Guid { bytes }
    }

    /// The 16 bytes.
    pub fn bytes(&self) -> &[u8; 16]
        ensures { result.now ≡ self.now }
    {
        &self.bytes
    }
}

/// The GUID of an instance ID: the one that it names, as `Guid::read`, or else its version 5 UUID in
/// the DNS namespace (RFC 9562).
pub fn guid_of(bytes: &[u8]) -> Guid
    ensures { result ≡ guid bytes.now }
{
    match Guid::read(bytes) {
        Some(named) => named,
        None => Guid::from_bytes(*Uuid::new_v5(&Uuid::NAMESPACE_DNS, bytes).as_bytes()),
    }
}

/// Whether a text of 36 bytes has its hyphens in their places.
fn has_hyphens(text: &[u8]) -> bool
    requires { length text.now ≡ 36 }
    ensures { result ≡ has_hyphens text.now }
{
    text[8] == b'-' && text[13] == b'-' && text[18] == b'-' && text[23] == b'-'
}

/// The bytes between the hyphens of a text of 36 bytes.
fn between_hyphens(text: &[u8]) -> ArrayVec<u8, 32>
    requires { length text.now ≡ 36 }
    ensures { result.items ≡ ungrouped text.now }
{
    let mut digits = ArrayVec::new();
    append(&mut digits, &text[0..8]);
    append(&mut digits, &text[9..13]);
    append(&mut digits, &text[14..18]);
    append(&mut digits, &text[19..23]);
    append(&mut digits, &text[24..36]);
    digits
}

/// The bytes as lower-case hex digits.
fn hex_digits(bytes: &[u8; 16]) -> [u8; 32]
    ensures digits { result ≡ encode_lower bytes.now }
    ensures in_range { IsBytes bytes.now }
{
    let mut digits = [0; 32];
    let _ = hex::encode_to_slice(bytes.as_slice(), &mut digits);
    digits
}

/// The digits in groups of 8, 4, 4, 4 and 12, with hyphens between them.
fn in_groups(digits: &[u8; 32]) -> [u8; 36]
    ensures { result ≡ grouped digits.now }
{
    let mut text = ArrayVec::new();
    append(&mut text, &digits[0..8]);
    text.push(b'-');
    append(&mut text, &digits[8..12]);
    text.push(b'-');
    append(&mut text, &digits[12..16]);
    text.push(b'-');
    append(&mut text, &digits[16..20]);
    text.push(b'-');
    append(&mut text, &digits[20..32]);
    text.into_inner().unwrap_or([0; 36])
}

/// Appends a part for which there is room.
fn append<const N: usize>(text: &mut ArrayVec<u8, N>, part: &[u8])
    requires { array_vec_len text.old + length part.now ≤ N }
    ensures items { text.new.items ≡ text.old.items ++ part.now }
    ensures len { array_vec_len text.new ≡ array_vec_len text.old + length part.now }
{
    let _ = text.try_extend_from_slice(part);
}
