//! Names: tags, ports, plugins, protocols and other words without blanks.
ghost use Rattle.std.specs.Prelude.{◌≡◌, ◌≤◌, length, position, Ok};
ghost use Rattle.fw_base.specs.Names.{name_read, is_no_name_byte};

use std::marker::Model;
use thiserror::Error;

/// The most bytes of a name.
pub const NAME_MAX: usize = 64;

/// 1 to 64 bytes, each 0x21 to 0x7E, kept inline. Contracts see the list of its bytes.
#[derive(Clone, Copy, Debug)]
pub struct Name {
    bytes: [u8; 64],
    len: u8,
}

impl Model for Name {
    ghost use Rattle.std.specs.Prelude.{List, ℕ, length, take};
    ghost use Rattle.fw_base.specs.Padded.{Keeps, padded};
    ghost use Rattle.fw_base.specs.Padded.{kept_again};
    ghost use Rattle.fw_base.specs.Names.{name_read};

    ghost Value = { List ℕ };

    ghost view = { λ s. take s.len s.bytes };

    ghost invariant = { λ s. Keeps name_read 64 s.bytes s.len };

    ghost inverse = { λ xs. record { bytes = padded 64 xs; len = length xs } };

    ghost use Rattle.fw_base.specs.declared.name.Name.TheInside.{Inside};

    ghost inverse_ok = { λ a h. kept_again {X = Inside} (λ b n. record { bytes = b; len = n }) 64 a.bytes a.len h.padded };
}

impl PartialEq for Name {
    ghost use Rattle.std.specs.Str.{bytes_eq};
    ghost use Rattle.std.proofs.Common.{rules};
    ghost use Rattle.std.specs.Cmp.Rules.{comparing};

    ghost eq = { bytes_eq };

    ghost laws = { Prim.search (comparing, rules) };

    fn eq(&self, other: &Name) -> bool {
        self.bytes() == other.bytes()
    }
}

impl Eq for Name {
    ghost use Rattle.std.proofs.Common.{rules};
    ghost use Rattle.std.specs.Cmp.Rules.{comparing};

    ghost laws = { Prim.search (comparing, rules) };
}

/// Why bytes are no name.
#[derive(Debug, Drop, Error, PartialEq, Eq)]
pub enum NameFault {
    #[error("a name has at least one byte")]
    Empty,
    #[error("a name has at most 64 bytes, and this has {len}")]
    TooLong { len: usize },
    #[error("byte {at} of the name is a blank or no printable ASCII")]
    BadByte { at: usize },
}

impl Name {
    /// Reads a name. The faults stand in their order: the first that holds is answered.
    pub fn read(bytes: &[u8]) -> Result<Name, NameFault>
        ensures { result ≡ name_read bytes.now }
    {
        if bytes.is_empty() {
            return Err(NameFault::Empty);
        }
        if bytes.len() > NAME_MAX {
            return Err(NameFault::TooLong { len: bytes.len() });
        }
        match first_bad(bytes) {
            Some(at) => Err(NameFault::BadByte { at }),
            None => Ok(Name::keep(bytes)),
        }
    }

    fn keep(bytes: &[u8]) -> Name
        requires short { length bytes.now ≤ 64 }
        requires accepted { name_read bytes.now ≡ Ok bytes.now }
        ensures { result ≡ bytes.now }
    {
        let mut kept = [0; 64];
        kept[..bytes.len()].copy_from_slice(bytes);
        Name {
            bytes: kept,
            len: bytes.len() as u8,
        }
    }

    /// The bytes of the name.
    pub fn bytes(&self) -> &[u8]
        ensures { result.now ≡ self.now }
    {
        &self.bytes[..self.len as usize]
    }

    /// A law: its reader takes the bytes of a name, and gives them back.
    pub fn reads_back(&self)
        ensures { name_read self.now ≡ Ok self.now }
    {
        let _ = &self.bytes;
    }
}

fn first_bad(bytes: &[u8]) -> Option<usize>
    ensures { result ≡ position is_no_name_byte bytes.now }
{
    bytes.iter().position(|b| *b < 0x21 || *b > 0x7e)
}
