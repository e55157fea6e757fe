//! Reasons why a document is refused.
use thiserror::Error;

/// What is wrong at a place of a document.
#[derive(Clone, Copy, Debug, Error, PartialEq, Eq)]
pub enum Reason {
    /// The bytes are no JSON text.
    #[error("not-json")]
    NotJson,
    /// The value is of another kind, a number out of its range, or a text that isn't of its list.
    #[error("wrong-kind")]
    WrongKind,
    /// A member that must be there is missing.
    #[error("missing")]
    Missing,
    #[error("bad-guid")]
    BadGuid,
    #[error("bad-version")]
    BadVersion,
    #[error("bad-digest")]
    BadDigest,
    /// A pattern is refused at this byte.
    #[error("bad-pattern {at}")]
    BadPattern { at: usize },
    /// No such comparison.
    #[error("bad-compare")]
    BadCompare,
    /// A list is too long.
    #[error("too-many")]
    TooMany,
    /// A name or a number stands twice where it may stand once.
    #[error("repeated")]
    Repeated,
    /// A quirk file has this fault in this line, from 1; line 0 where the file is too long.
    #[error("bad-quirk {fault} {line}")]
    BadQuirk { fault: u8, line: u32 },
    /// A name that should stand elsewhere in the document doesn't.
    #[error("bad-reference")]
    BadReference,
}
