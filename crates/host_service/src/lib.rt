//! The top call over what the program brings to it.
//!
//! `run_over_folder` makes a shelf over one folder for each client and calls `run_campaign`. Its contract is that of the
//! top call over sixteen shelves and four plugins (`specs/Brought.antt`). The program's `main` hands in the plugins, its
//! streams, its words and the keepers.
#![tactic(auto)]

mod brought;
pub mod over;
pub mod running;

pub use over::{FileHistory, run_over_file};
pub use running::run_over_folder;
