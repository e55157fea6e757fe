//! Tests of the log by its public calls, and of the verdict beside its plain program.
//!
//! They stand in a crate of their own, since a crate that has tests is proved a second time with them.
#![tactic(auto)]

#[cfg(test)]
mod first_steps;
#[cfg(test)]
mod retries;
#[cfg(test)]
mod scenes;
#[cfg(test)]
mod values;
#[cfg(test)]
mod verdicts;
