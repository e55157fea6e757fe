//! The report queue: a line of JSON for each row that is judged, given to the output at most once.
//!
//! A keeper of marks tells which entries were reported. Each row is marked before its line is written, so that a report
//! may be lost by a stop in between, and none is sent twice. What a call leaves is `Leaves` (`specs/Calls.antt`), and
//! that no line comes twice over any list of calls is a law of it (`laws`).
#![tactic(auto)]

pub mod due;
pub mod json_text;
pub mod laws;
pub mod line;
pub mod mark_keeper;
pub mod memory_marks;
pub mod reporting;
pub mod sending;
pub mod stop;

pub use line::line_of;
pub use mark_keeper::MarkKeeper;
pub use memory_marks::{DoubtfulMark, MemoryMarks};
pub use reporting::{ReportEnd, Reported, report_history};
pub use sending::send_reports;
pub use stop::SendStop;
