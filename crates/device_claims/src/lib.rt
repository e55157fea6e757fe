//! The states of a claim, whose order is in their types.
//!
//! A claim owns the board and the payload of an entry. Each step spends it and gives the next state, so
//! no step can be made twice or out of its turn, and no claim can be lost. It is seen with its trace:
//! the steps that ended so far, from which the next one follows. The daemon takes a claim through its
//! states, outside the turns of its lock.
#![tactic(auto)]

pub mod claim;
pub mod state;
pub mod steps;

pub use claim::{Claim, Parts};
pub use state::{Begun, Closed, Flashed, Joined, Loose, Ready, Reloaded, State};
