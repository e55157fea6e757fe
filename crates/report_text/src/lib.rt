//! The report: a campaign's log as lines of text.
//!
//! The bytes are those of the definition in `specs/`, which is written from the format. What could
//! not be written is a front of them.
#![tactic(auto)]

pub mod answers;
mod boots;
mod ends;
mod lines;
mod lookup;
mod parts;
mod report;
mod stop;
mod words;

pub use lines::put_lines;
pub use report::{write_report, write_report_in_place};
pub use stop::ReportStop;
