//! The verdict on a request: what the log's verdict is, decided over a case.
//!
//! A [`Case`] is all that a decision reads: the facts, the devices, the rows, what is held and live, and
//! the request with its stage. [`decided`] finds its target and answers the first refusal in order, or what
//! is accepted. `specs/Cases.antt` ties the parts of a case to the log's own verdict (`update_log`).
#![tactic(auto)]

mod decide;
mod refusing;
mod retrying;
mod row_lookup;
mod target;

pub use decide::{Case, blocks_of, decided, free_blocks};
pub use target::{Target, provides, target_at};
