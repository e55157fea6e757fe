//! Device IDs.
ghost use Rattle.std.specs.Prelude.{◌≡◌, ◌==◌, if◌then◌else◌, None, ℕ, List, length};
ghost use Rattle.std.specs.Option.{option_copied};
ghost use Rattle.hex.specs.Hex.{encode_lower, IsBytes};
ghost use Rattle.guid_ids.specs.Identifiers.{device_id, named_device};

use hex::FromHex;
use sha1::Sha1;
use std::marker::Model;

/// The ID of a device: a SHA-1 digest (FIPS 180-4), seen as the list of its 20 bytes.
#[derive(Clone, Copy, Debug, PartialEq, Eq, PartialOrd, Ord, Hash)]
pub struct DeviceId {
    bytes: [u8; 20],
}

impl Model for DeviceId {
    ghost Value = { List ℕ };

    ghost view = { λ d. d.bytes };

    ghost inverse = { λ xs. record { bytes = xs } };
}

impl DeviceId {
    /// The device ID that 40 hex digits name, in either case. All else gives nothing.
    pub fn read(bytes: &[u8]) -> Option<DeviceId>
        ensures { result ≡ named_device bytes.now }
    {
        match <[u8; 20] as FromHex>::from_hex(bytes) {
            Ok(bytes) => Some(DeviceId { bytes }),
            Err(_) => None,
        }
    }

    /// The ID with these bytes.
    pub fn from_bytes(bytes: [u8; 20]) -> DeviceId
        ensures { result ≡ bytes }
    {
        DeviceId { bytes }
    }

    /// The 20 bytes.
    pub fn bytes(&self) -> &[u8; 20]
        ensures { result.now ≡ self.now }
    {
        &self.bytes
    }

    /// The text: 40 hex digits in lower case.
    pub fn text(&self) -> [u8; 40]
        ensures text { result ≡ encode_lower self.now }
        ensures reads_back { named_device result ≡ Some self.now }
    {
        hex_digits(&self.bytes)
    }
}

/// The device ID of a physical ID, with a logical ID where the device has one.
pub fn device_id(physical: &[u8], logical: Option<&[u8]>) -> DeviceId
    ensures { result ≡ device_id physical.now (option_copied logical.entry) }
{
    match logical {
        None => DeviceId {
            bytes: Sha1::digest(physical),
        },
        Some(logical) => {
            let mut name = Sha1::new();
            name.update(physical);
            name.update(b":");
            name.update(logical);
            DeviceId {
                bytes: name.finalize(),
            }
        }
    }
}

/// The bytes as lower-case hex digits.
fn hex_digits(bytes: &[u8; 20]) -> [u8; 40]
    ensures digits { result ≡ encode_lower bytes.now }
    ensures in_range { IsBytes bytes.now }
{
    let mut digits = [0; 40];
    let _ = hex::encode_to_slice(bytes.as_slice(), &mut digits);
    digits
}
