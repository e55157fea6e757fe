//! Hardware IDs: GUIDs that say on which machine the daemon runs.
ghost use Rattle.std.specs.Prelude.{◌≡◌, ◌<◌, ◌≤◌, ◌+◌, ◌++◌, ◌==◌, ◌∷◌, length, map, List, ℕ};
ghost use Rattle.std.specs.List.{join_with_byte, list_any};
ghost use Rattle.sha1.specs.Sha1.{Holds};
ghost use Rattle.guid_ids.specs.Identifiers.{hardware_id, hardware_ids, hardware_namespace, name_based, utf16_le, ampersand};

use crate::{Guid, SmbiosText};
use arrayvec::ArrayVec;
use sha1::Sha1;
use std::marker::Model;
use uuid::Builder;

/// 70ffd812-4c7f-4c7d-0000-000000000000, the namespace of hardware IDs.
const HARDWARE_NAMESPACE: [u8; 16] = [
    0x70, 0xff, 0xd8, 0x12, 0x4c, 0x7f, 0x4c, 0x7d, 0, 0, 0, 0, 0, 0, 0, 0,
];

/// What a machine's firmware says of the machine. A text that is missing is empty.
#[derive(Clone, Copy, Debug, PartialEq, Eq)]
pub struct SmbiosFields {
    /// Who made the machine.
    pub manufacturer: SmbiosText,
    /// The family of products.
    pub family: SmbiosText,
    /// The product.
    pub product: SmbiosText,
    /// The stock keeping unit.
    pub sku: SmbiosText,
}

/// Up to six hardware IDs, kept inline. Contracts see their list.
#[derive(Drop)]
pub struct HardwareIds {
    guids: ArrayVec<Guid, 6>,
}

impl Model for HardwareIds {
    ghost use Rattle.std.specs.Prelude.{List, ℕ};

    ghost Value = { List (List ℕ) };

    ghost view = { λ h. h.guids.items };
}

impl HardwareIds {
    /// The IDs, in the order of their numbers.
    pub fn guids(&self) -> &[Guid]
        ensures { result.now ≡ self.now }
    {
        self.guids.as_slice()
    }

    /// Adds the ID of a first field and others, where none of them is empty.
    fn add(&mut self, first: &[u8], others: &[&[u8]])
        requires { length self.old < 6 }
        ensures added { self.new ≡ self.old ++ hardware_id (first.now ∷ map (λ other. other.now) others.now) }
        ensures at_most_one { length self.new ≤ length self.old + 1 }
    {
        if !any_empty(first, others) {
            self.guids.push(hardware_id(first, others));
        }
    }
}

/// The hardware IDs of a machine. Each is given only where none of its fields is empty.
pub fn hardware_ids(fields: &SmbiosFields) -> HardwareIds
    ensures { result ≡ hardware_ids fields.now.manufacturer fields.now.family fields.now.product fields.now.sku }
{
    let manufacturer = fields.manufacturer.bytes();
    let family = fields.family.bytes();
    let product = fields.product.bytes();
    let sku = fields.sku.bytes();
    let mut ids = HardwareIds {
        guids: ArrayVec::new(),
    };
    ids.add(manufacturer, &[family, product, sku]);
    ids.add(manufacturer, &[family, product]);
    ids.add(manufacturer, &[sku]);
    ids.add(manufacturer, &[product]);
    ids.add(manufacturer, &[family]);
    ids.add(manufacturer, &[]);
    ids
}

fn any_empty(first: &[u8], others: &[&[u8]]) -> bool
    ensures { result ≡ list_any (λ field. length field == 0) (first.now ∷ map (λ other. other.now) others.now) }
{
    first.is_empty() || other_empty(others)
}

fn other_empty(others: &[&[u8]]) -> bool
    ensures { result ≡ list_any (λ other. length other.now == 0) others.now }
{
    others.iter().any(|other| other.is_empty())
}

/// The version 5 UUID (RFC 9562) of the fields, joined by `&`, in UTF-16 with the low bytes first.
fn hardware_id(first: &[u8], others: &[&[u8]]) -> Guid
    ensures { result ≡ name_based hardware_namespace (utf16_le (join_with_byte ampersand (first.now ∷ map (λ other. other.now) others.now))) }
{
    let mut name = Sha1::new();
    name.update(&HARDWARE_NAMESPACE);
    take_in(&mut name, first);
    for other in others {
        take_in(&mut name, b"&");
        take_in(&mut name, other);
    }
    named_by(name)
}

/// Takes an ASCII text into a hash as UTF-16, the low byte of each unit first.
fn take_in(hash: &mut Sha1, text: &[u8])
    ensures { (taken : List ℕ) → Holds hash.old taken → Holds hash.new (taken ++ utf16_le text.now) }
{
    for byte in text {
        hash.update(&[*byte, 0]);
    }
}

/// The version 5 UUID of what the hash took in after the namespace.
fn named_by(hash: Sha1) -> Guid
    ensures { (name : List ℕ) → Holds hash (hardware_namespace ++ name) → result ≡ name_based hardware_namespace name }
{
    let digest = hash.finalize();
    let mut bytes = [0; 16];
    bytes.copy_from_slice(&digest[..16]);
    Guid::from_bytes(*Builder::from_sha1_bytes(bytes).as_uuid().as_bytes())
}
