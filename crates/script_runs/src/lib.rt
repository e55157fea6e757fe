//! The script of a client, played item by item over the daemon behind its lock.
//!
//! A client has a pass of the daemon and a shelf of its own; the plugins and the gate are everybody's. What
//! it did is told by its pass alone (`specs/Passes.antt`): its own events of the boot are the plays of its
//! items (`client_plays`), whatever others put between them. The daemon itself is a client with pass 0: what
//! it resumes is run by `run_taken` as well.
#![tactic(auto)]

mod installing;
mod playing;
mod scripting;

pub use installing::{run_taken, stopped_by};
pub use scripting::{play_script, told};
