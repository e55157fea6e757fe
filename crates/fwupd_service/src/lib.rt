//! The top call: all that the program does.
//!
//! Its contract says of every run when each status comes, what is true of the log that is returned, and what was
//! written (`specs/`: Worlds, Telling, Begins, Campaigns, Ends, Tops, Makes, Loads, Updates, Reported, Commands). Laws
//! say that nothing but named causes keeps a command from doing its whole work (`specs/Complete.antt`). The program's
//! `main` makes the real input, output, shelves, keepers and plugins, and calls it.
#![tactic(auto)]

mod keeping;
pub mod laws;
pub mod loading;
mod make;
mod others;
mod own_keeper;
mod planning;
mod playing;
pub mod ran;
mod report;
pub mod reporting;
mod run;
mod telling;
pub mod top;
mod update;

pub use keeping::{Kept, kept_by};
pub use ran::Ran;
pub use run_status::Status;
pub use top::run_campaign;
