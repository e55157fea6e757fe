//! Versions as texts.
ghost use Rattle.std.specs.Prelude.{◌≡◌, ◌≤◌, length, position, Ok};
ghost use Rattle.version_formats.specs.Versions.{version_read, is_no_version_byte};

use std::marker::Model;
use thiserror::Error;

/// The most bytes of a version.
pub const VERSION_MAX: usize = 64;

/// 1 to 64 bytes, each 0x21 to 0x7E, kept inline. Contracts see the list of its bytes. `==` compares
/// the texts; `compare` compares the versions, and may find two different texts equal.
#[derive(Clone, Copy, Debug)]
pub struct Version {
    bytes: [u8; 64],
    len: u8,
}

impl Model for Version {
    ghost use Rattle.std.specs.Prelude.{List, ℕ, length, take};
    ghost use Rattle.fw_base.specs.Padded.{Keeps, padded};
    ghost use Rattle.fw_base.specs.Padded.{kept_again};
    ghost use Rattle.version_formats.specs.Versions.{version_read};

    ghost Value = { List ℕ };

    ghost view = { λ s. take s.len s.bytes };

    ghost invariant = { λ s. Keeps version_read 64 s.bytes s.len };

    ghost inverse = { λ xs. record { bytes = padded 64 xs; len = length xs } };

    ghost use Rattle.version_formats.specs.declared.version.Version.TheInside.{Inside};

    ghost inverse_ok = { λ a h. kept_again {X = Inside} (λ b n. record { bytes = b; len = n }) 64 a.bytes a.len h.padded };
}

impl PartialEq for Version {
    ghost use Rattle.std.specs.Str.{bytes_eq};
    ghost use Rattle.std.proofs.Common.{rules};
    ghost use Rattle.std.specs.Cmp.Rules.{comparing};

    ghost eq = { bytes_eq };

    ghost laws = { Prim.search (comparing, rules) };

    fn eq(&self, other: &Version) -> bool {
        self.bytes() == other.bytes()
    }
}

impl Eq for Version {
    ghost use Rattle.std.proofs.Common.{rules};
    ghost use Rattle.std.specs.Cmp.Rules.{comparing};

    ghost laws = { Prim.search (comparing, rules) };
}

/// Why bytes are no version.
#[derive(Debug, Drop, Error, PartialEq, Eq)]
pub enum VersionFault {
    #[error("a version has at least one byte")]
    Empty,
    #[error("a version has at most 64 bytes, and this has {len}")]
    TooLong { len: usize },
    #[error("byte {at} of the version is a blank or no printable ASCII")]
    BadByte { at: usize },
}

impl Version {
    /// Reads a version. The faults stand in their order: the first that holds is answered.
    pub fn read(bytes: &[u8]) -> Result<Version, VersionFault>
        ensures { result ≡ version_read bytes.now }
    {
        if bytes.is_empty() {
            return Err(VersionFault::Empty);
        }
        if bytes.len() > VERSION_MAX {
            return Err(VersionFault::TooLong { len: bytes.len() });
        }
        match first_bad(bytes) {
            Some(at) => Err(VersionFault::BadByte { at }),
            None => Ok(Version::keep(bytes)),
        }
    }

    /// Keeps bytes that are known to be a version's.
    pub(crate) fn keep(bytes: &[u8]) -> Version
        requires short { length bytes.now ≤ 64 }
        requires accepted { version_read bytes.now ≡ Ok bytes.now }
        ensures { result ≡ bytes.now }
    {
        let mut kept = [0; 64];
        kept[..bytes.len()].copy_from_slice(bytes);
        Version {
            bytes: kept,
            len: bytes.len() as u8,
        }
    }

    /// The bytes of the version.
    pub fn bytes(&self) -> &[u8]
        ensures { result.now ≡ self.now }
    {
        &self.bytes[..self.len as usize]
    }

    /// A law: its reader takes the bytes of a version, and gives them back.
    pub fn reads_back(&self)
        ensures { version_read self.now ≡ Ok self.now }
    {
        let _ = &self.bytes;
    }
}

fn first_bad(bytes: &[u8]) -> Option<usize>
    ensures { result ≡ position is_no_version_byte bytes.now }
{
    bytes.iter().position(|b| *b < 0x21 || *b > 0x7e)
}
