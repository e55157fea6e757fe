//! Logs that are made event by event, and a plain program for the verdict over them.
//!
//! The plain program (`plain`) scans the rows, the devices and the log, and its contract is the
//! definition of the verdict itself. A story (`story`) is a log that grows by legal events. Tests ask
//! the verdict and the plain program of the same stories.
#![tactic(auto)]

mod lookups;
pub mod plain;
mod refusing;
mod retrying;
mod scans;
pub mod story;
mod target;

pub use plain::plain_verdict;
pub use story::{Story, StoryParts};
