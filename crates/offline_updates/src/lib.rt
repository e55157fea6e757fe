//! What a boot finds to do: the installs that were put off to it, and the rows that it is to judge.
//!
//! Both are lists of entries, by the state of the rows alone (`specs/Waiting.antt`).
#![tactic(auto)]

mod entries;

pub use entries::{pending, to_judge};
