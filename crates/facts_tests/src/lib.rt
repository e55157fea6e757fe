//! Tests of what decides on facts alone, by its public calls.
//!
//! They stand in a crate of their own, since a crate that has tests is proved a second time with them.
#![tactic(auto)]

#[cfg(test)]
mod boards;
#[cfg(test)]
mod catalogues;
#[cfg(test)]
mod conditions;
#[cfg(test)]
mod devices;
#[cfg(test)]
mod facts;
#[cfg(test)]
mod keepers;
#[cfg(test)]
mod orders;
#[cfg(test)]
mod quirks;
#[cfg(test)]
mod waiting;
