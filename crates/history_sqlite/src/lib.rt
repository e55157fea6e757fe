//! The rows of the history in a table of a SQLite database.
//!
//! Three statements write and read the table, each by itself outside any transaction, so that it
//! commits by itself. Any tool that reads SQLite's files reads the table.
#![tactic(auto)]

pub mod columns;
pub mod database_files;
pub mod file_keeper;
pub mod finding;
pub mod in_turn;
pub mod lasting;
pub mod laws;
pub mod refusal;
pub mod row_table;
pub mod sql_keeper;
pub mod statements;
pub mod tables;
pub mod taking_over;

pub use columns::read_row;
pub use file_keeper::{FileKeeper, StoredKeeper};
pub use lasting::Lasting;
pub use sql_keeper::SqlKeeper;
