//! Why a text is no pattern.
use fw_base::NoMemory;
use std::alloc::{AllocError, AllocFailed};
use thiserror::Error;

/// The first fault of a pattern in reading order. A place counts bytes from 0.
#[derive(Clone, Copy, Debug, Error, PartialEq, Eq)]
pub enum PatternFault {
    /// A byte or a form that patterns do not have, at its place.
    #[error("byte {at} of the pattern has no meaning there")]
    OutOfProfile { at: usize },
    /// A class or a backslash that nothing ends, at the place of its `[` or `\`.
    #[error("what begins at byte {at} of the pattern has no end")]
    Unclosed { at: usize },
    /// A range whose first byte is above its last, at the place of the first.
    #[error("the range at byte {at} of the pattern ends below its start")]
    BadRange { at: usize },
    /// More than 255 bytes. It is tested first.
    #[error("a pattern has at most 255 bytes, and this has {len}")]
    TooLong { len: usize },
    /// No memory was to be had.
    #[error("no memory")]
    NoMemory,
}

impl From<NoMemory> for PatternFault {
    ghost use Rattle.std.specs.Prelude.{◌≡◌};
    ghost use Rattle.fw_patterns.specs.declared.fault.PatternFault.TheVariants.{NoMemory as OutOfMemory};

    ghost from_gives = { λ _ fault. fault ≡ OutOfMemory };

    fn from(_refused: NoMemory) -> PatternFault {
        PatternFault::NoMemory
    }
}

impl From<AllocError> for PatternFault {
    ghost use Rattle.std.specs.Prelude.{◌≡◌};
    ghost use Rattle.fw_patterns.specs.declared.fault.PatternFault.TheVariants.{NoMemory as OutOfMemory};

    ghost from_gives = { λ _ fault. fault ≡ OutOfMemory };

    fn from(_refused: AllocError) -> PatternFault {
        PatternFault::NoMemory
    }
}

impl<T: Drop> From<AllocFailed<T>> for PatternFault {
    ghost use Rattle.std.specs.Prelude.{◌≡◌};
    ghost use Rattle.fw_patterns.specs.declared.fault.PatternFault.TheVariants.{NoMemory as OutOfMemory};

    ghost from_gives = { λ _ fault. fault ≡ OutOfMemory };

    fn from(_refused: AllocFailed<T>) -> PatternFault {
        PatternFault::NoMemory
    }
}
