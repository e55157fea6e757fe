//! Identifiers: GUIDs, device IDs and hardware IDs.
//!
//! Each one is exactly its definition in `specs/Identifiers.antt`, which hashes whole lists of bytes
//! by the public standards (RFC 9562 and FIPS 180-4). Nothing here takes memory.
#![tactic(auto)]

pub mod device;
pub mod guid;
pub mod hardware;
pub mod smbios;

pub use device::{DeviceId, device_id};
pub use guid::{Guid, guid_of};
pub use hardware::{HardwareIds, SmbiosFields, hardware_ids};
pub use smbios::SmbiosText;
