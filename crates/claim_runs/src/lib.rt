//! The run of one claim over the daemon behind its lock, from its first step to its finish.
//!
//! Each step is started in a turn of the client's pass, held up at a gate, made by the plugin outside of
//! any turn, and ended in a turn with what the board shows; then the entry is finished. Where the boot
//! goes off, the entry is given back. What the run put behind the log is told of the pass's own entries
//! (`specs/Ran.antt`); what others put there meanwhile leaves what is known of the claim
//! (`specs/Known.antt`).
#![tactic(auto)]

mod outcome;
mod runner;
mod running;
mod steps;
mod turns;

pub use outcome::Outcome;
pub use runner::Runner;
