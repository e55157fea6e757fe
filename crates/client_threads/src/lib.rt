//! The boots of a campaign, whose clients run on threads.
//!
//! `specs/Planned.antt` says when the boots of a log are those of the plans, `specs/Runs.antt` what a campaign
//! did to its house, `specs/Promises.antt` the same in the words of the log alone. In each boot the daemon first
//! does its tasks (`daemon_tasks`). Then the house lies behind the daemon's lock, each client
//! plays its script on a thread of its own (`script_runs`), with a pass and a shelf of its own, and the daemon
//! closes. What is then true of the whole log follows from what each pass tells of its own events.
#![tactic(auto)]

mod boot;
mod campaign;
mod clients;
mod dealing;
pub mod ending;
mod running;
mod stage;
pub mod starting;
mod tasks;

pub use campaign::run_on_threads;
pub use ending::{Ending, Ran};
