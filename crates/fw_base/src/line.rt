//! Lines: what people call a device or a vendor, blanks and letters past ASCII included.
ghost use Rattle.std.specs.Prelude.{◌≡◌, ◌≤◌, [], length, position, Ok};
ghost use Rattle.fw_base.specs.Lines.{line_read, is_no_line_byte};

use std::marker::Model;
use thiserror::Error;

/// The most bytes of a line.
pub const LINE_MAX: usize = 255;

/// 0 to 255 bytes, none below 0x20 and none 0x7F, kept inline. Contracts see the list of its bytes.
#[derive(Clone, Copy, Debug)]
pub struct Line {
    bytes: [u8; 255],
    len: u8,
}

impl Model for Line {
    ghost use Rattle.std.specs.Prelude.{List, ℕ, length, take};
    ghost use Rattle.fw_base.specs.Padded.{Keeps, padded};
    ghost use Rattle.fw_base.specs.Padded.{kept_again};
    ghost use Rattle.fw_base.specs.Lines.{line_read};

    ghost Value = { List ℕ };

    ghost view = { λ s. take s.len s.bytes };

    ghost invariant = { λ s. Keeps line_read 255 s.bytes s.len };

    ghost inverse = { λ xs. record { bytes = padded 255 xs; len = length xs } };

    ghost use Rattle.fw_base.specs.declared.line.Line.TheInside.{Inside};

    ghost inverse_ok = { λ a h. kept_again {X = Inside} (λ b n. record { bytes = b; len = n }) 255 a.bytes a.len h.padded };
}

impl PartialEq for Line {
    ghost use Rattle.std.specs.Str.{bytes_eq};
    ghost use Rattle.std.proofs.Common.{rules};
    ghost use Rattle.std.specs.Cmp.Rules.{comparing};

    ghost eq = { bytes_eq };

    ghost laws = { Prim.search (comparing, rules) };

    fn eq(&self, other: &Line) -> bool {
        self.bytes() == other.bytes()
    }
}

impl Eq for Line {
    ghost use Rattle.std.proofs.Common.{rules};
    ghost use Rattle.std.specs.Cmp.Rules.{comparing};

    ghost laws = { Prim.search (comparing, rules) };
}

/// Why bytes are no line.
#[derive(Debug, Drop, Error, PartialEq, Eq)]
pub enum LineFault {
    #[error("a line has at most 255 bytes, and this has {len}")]
    TooLong { len: usize },
    #[error("byte {at} of the line is a control byte")]
    BadByte { at: usize },
}

impl Line {
    /// Reads a line. The faults stand in their order: the first that holds is answered.
    pub fn read(bytes: &[u8]) -> Result<Line, LineFault>
        ensures { result ≡ line_read bytes.now }
    {
        if bytes.len() > LINE_MAX {
            return Err(LineFault::TooLong { len: bytes.len() });
        }
        match first_bad(bytes) {
            Some(at) => Err(LineFault::BadByte { at }),
            None => Ok(Line::keep(bytes)),
        }
    }

    fn keep(bytes: &[u8]) -> Line
        requires short { length bytes.now ≤ 255 }
        requires accepted { line_read bytes.now ≡ Ok bytes.now }
        ensures { result ≡ bytes.now }
    {
        let mut kept = [0; 255];
        kept[..bytes.len()].copy_from_slice(bytes);
        Line {
            bytes: kept,
            len: bytes.len() as u8,
        }
    }

    /// The line without a byte.
    pub fn empty() -> Line
        ensures { result ≡ [] }
    {
        Line {
            bytes: [0; 255],
            len: 0,
        }
    }

    /// The bytes of the line.
    pub fn bytes(&self) -> &[u8]
        ensures { result.now ≡ self.now }
    {
        &self.bytes[..self.len as usize]
    }

    /// A law: its reader takes the bytes of a line, and gives them back.
    pub fn reads_back(&self)
        ensures { line_read self.now ≡ Ok self.now }
    {
        let _ = &self.bytes;
    }
}

fn first_bad(bytes: &[u8]) -> Option<usize>
    ensures { result ≡ position is_no_line_byte bytes.now }
{
    bytes.iter().position(|b| *b < 0x20 || *b == 0x7f)
}
