//! What the commands print that run no campaign of a user: `check`, `remotes`, `ids`, `explain` and `make`.
//!
//! What each prints is a definition of bytes: `specs/Printed.antt`; of `explain` over the facts and a log, by
//! the daemon's own verdict and the requirements' own causes, `specs/Explained.antt`; of `make` over the log of
//! its campaign, `specs/Summed.antt`. A writer gives them to a sink: whole, or a front of them where the sink
//! failed, and nothing where there was no memory.
#![tactic(auto)]

pub mod check;
pub mod counting;
pub mod explain;
mod explained_lines;
pub mod ids;
mod line;
pub mod remotes;
mod requirements_met;
pub mod stop;
pub mod summary;

pub use check::{Sections, write_check};
pub use explain::write_explain;
pub use ids::write_ids;
pub use remotes::write_remotes;
pub use stop::OutputStop;
pub use summary::write_summary;
