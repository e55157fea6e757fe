//! The marks of a board's journal.
use fw_base::Digest;

/// What a board writes into its journal.
#[derive(Clone, Copy, Debug, PartialEq, Eq)]
pub enum Mark {
    /// The boot loader was entered.
    Entered,
    /// A write for this entry began.
    Began { entry: u32 },
    /// The write ended, with a payload of this SHA-256 digest.
    Ended { entry: u32, digest: Digest },
    /// The boot loader was left.
    Left,
}
