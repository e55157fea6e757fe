//! Why a quirk file is not read.
ghost use Rattle.std.specs.Prelude.{◌≡◌};
ghost use Rattle.quirk_files.specs.declared.fault.QuirkFault.TheVariants as refusals;

use fw_base::NoMemory;
use thiserror::Error;

/// Why a quirk file was not read. Lines are counted from 1, and the first faulty line is named; in
/// one line `NotText` comes before the others.
#[derive(Clone, Copy, Debug, Drop, Error, PartialEq, Eq)]
pub enum QuirkFault {
    /// A line with a key stands before the first group.
    #[error("line {line}: no group stands before it")]
    NoGroup { line: u32 },
    /// A group line has no `]` at its end, or no name of 1 to 255 bytes without brackets.
    #[error("line {line}: this is no group")]
    BadGroup { line: u32 },
    /// A line in a group has no `=`.
    #[error("line {line}: there is no `=`")]
    NoEquals { line: u32 },
    /// A line has a control byte other than a tab, or is not UTF-8.
    #[error("line {line}: this is no text")]
    NotText { line: u32 },
    /// The file has more than 1,048,576 bytes. This comes before the others.
    #[error("a quirk file has at most 1048576 bytes, and this has {len}")]
    TooLarge { len: usize },
    #[error("no memory")]
    NoMemory,
}

impl From<NoMemory> for QuirkFault {
    ghost from_gives = { λ _ fault. fault ≡ refusals.NoMemory };

    fn from(_refused: NoMemory) -> QuirkFault {
        QuirkFault::NoMemory
    }
}
