//! The marks of reported entries in a table of a SQLite database.
//!
//! Two statements write and read the table, each by itself outside any transaction, so that it commits by itself. The
//! database gives each mark its place. Any tool that reads SQLite's files reads the table.
#![tactic(auto)]

pub mod file_marks;
pub mod finding;
pub mod lasting;
pub mod sql_marks;
pub mod statements;
pub mod tables;

pub use file_marks::FileMarks;
pub use lasting::Lasting;
pub use sql_marks::SqlMarks;
