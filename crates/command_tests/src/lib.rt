//! Tests of the commands that run no campaign, by their public calls, and of the statuses of a run.
//!
//! They stand in a crate of their own, since a crate that has tests is proved a second time with them.
#![tactic(auto)]

#[cfg(test)]
mod checked;
#[cfg(test)]
mod documents;
#[cfg(test)]
mod explained;
#[cfg(test)]
mod help;
#[cfg(test)]
mod identifiers;
#[cfg(test)]
mod outputs;
#[cfg(test)]
mod remotes;
#[cfg(test)]
mod statuses;
#[cfg(test)]
mod words;
