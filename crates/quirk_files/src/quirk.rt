//! Quirks.
use crate::key::Key;
use fw_base::Listed;
use guid_ids::Guid;

/// What a line of a quirk file says: for devices that have the GUID of its group, the key has the
/// value, which is kept as it stands in the file, without blanks round it.
#[derive(Drop)]
pub struct Quirk {
    pub group: Guid,
    pub key: Key,
    pub value: Listed<u8>,
}
