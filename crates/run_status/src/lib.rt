//! How a run of the program ends: its statuses, the exit status of each, the text of each, and what a terminal is
//! shown behind that text: the commands, or what a fault of the document means.
//!
//! Which help belongs to which status is a definition (`specs/Helps.antt`); its texts stand in `help` and `meaning`
//! alone. Whoever reads the line by a program, from a pipe or a file, gets no help: that is for `main` to see.
#![tactic(auto)]

pub mod help;
mod meaning;
pub mod status;

pub use help::{Help, help_for};
pub use status::Status;
