//! A ticket lock round one value that keeps its history as a list of entries.
//! Clients on threads share the value: each has a pass, enters, adds at most one entry and leaves.
//! The one statement that is used above: there is one list, each pass has seen a beginning of it,
//! and its own entries are those of the list that hold its number, in order (`specs/Rule.antt`).
//! The daemon's state stands behind it.
#![tactic(auto)]

mod boxed;
mod chronicle;
mod closing;
mod lock;
mod opening;
mod pass;
mod rule;
mod steps;
mod turn;
mod view;
mod waiting;

pub use chronicle::Chronicle;
pub use lock::TurnLock;
pub use opening::Refused;
pub use pass::Pass;
pub use turn::Turn;

#[cfg(test)]
mod tests;
