//! The fault of a call to the outside.

use thiserror::Error;

/// The call failed. The object's count of faults rose.
#[derive(Clone, Copy, Debug, PartialEq, Eq, Error)]
#[error("the call failed")]
pub struct Failed;
