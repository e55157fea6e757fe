//! The commands that read a document and run no campaign: `check`, `remotes` and `explain`.
//!
//! The input is read whole, and its site is read; for `explain` the plugins are arranged and the campaign
//! is made. How that ended, and what was printed, is told by cases (`specs/Ends.antt` for `check`
//! and `remotes`, `specs/Explains.antt` for `explain`), each with what came from the source.
#![tactic(auto)]

pub mod checked;
pub mod ended;
pub mod explained;
pub mod told_remotes;

pub use checked::check;
pub use ended::Ended;
pub use explained::explain;
pub use told_remotes::remotes;
