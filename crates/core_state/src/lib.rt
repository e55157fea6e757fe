//! The state that decides: what is kept of a log, so that no decision reads the log.
//!
//! A `CoreState` holds the rows, the views, the live entries and their traces. [`verdict`] decides on it
//! what the log's own verdict decides on the events before, and [`step`] appends an event to it where it
//! may come next. `specs/Core.antt` says when a state stands for a log, `specs/CoreAfter.antt` what an
//! event makes of it; the other files say it of each part of the state.
#![tactic(auto)]

mod arranging;
mod asking;
mod changing;
mod clock;
mod copying;
mod deciding;
mod finding;
mod holding;
mod row_changes;
mod showing;
pub mod state;
mod stepping;
mod taking;
mod telling;
mod tracing;

pub use clock::meets_fault;
pub use deciding::verdict;
pub use state::CoreState;
pub use stepping::step;
