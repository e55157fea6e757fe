//! The syntax of patterns, as their relation is stated.
use fw_base::Listed;

/// The bytes from the first to the last, both among them.
#[derive(Clone, Copy, Debug, PartialEq, Eq)]
pub struct ByteRange {
    /// The first byte.
    pub low: u8,
    /// The last byte.
    pub high: u8,
}

/// What stands for one byte.
#[derive(Debug, Drop)]
pub enum Atom {
    /// Any of the 256 bytes.
    Any,
    /// This byte.
    Byte(u8),
    /// The bytes of some range, or where it is negated the bytes of none.
    Class {
        /// Whether the class begins with `^`.
        negated: bool,
        /// Its members.
        ranges: Listed<ByteRange>,
    },
}

/// How often an atom may stand, one behind the other.
#[derive(Clone, Copy, Debug, PartialEq, Eq)]
pub enum Repeat {
    /// Once.
    Once,
    /// `*`: any number of times.
    AnyTimes,
    /// `+`: once or more.
    SomeTimes,
    /// `?`: once or not at all.
    AtMostOnce,
}

/// An atom and how often it may stand.
#[derive(Debug, Drop)]
pub struct Piece {
    /// The atom.
    pub atom: Atom,
    /// How often it may stand.
    pub repeat: Repeat,
}

/// Pieces that follow each other, and whether they are tied to the text's start and end.
#[derive(Debug, Drop)]
pub struct Branch {
    /// Whether the branch begins with `^`.
    pub from_start: bool,
    /// Whether the branch ends with `$`.
    pub to_end: bool,
    /// The pieces, in order.
    pub pieces: Listed<Piece>,
}
