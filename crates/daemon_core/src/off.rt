//! Why a call that takes no memory put no event of its own behind the log.
use thiserror::Error;

/// The boot is off: its power was cut, in this turn or before, or the history couldn't be read or written.
#[derive(Clone, Copy, Debug, Error, PartialEq, Eq)]
#[error("the boot is off")]
pub struct Off;
