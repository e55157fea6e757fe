//! Tests of campaigns with one client on one house.
//!
//! A short driver (`driver`) runs the boots of a campaign on a new house; each test says what the client asks for
//! in each boot, what the log says that it was answered, and what is left of the house. They stand in a crate of
//! their own, since a crate that has tests is proved a second time with them.
#![tactic(auto)]

#[cfg(test)]
mod cuts;
#[cfg(test)]
mod days;
#[cfg(test)]
mod devices;
#[cfg(test)]
mod driver;
#[cfg(test)]
mod faults;
#[cfg(test)]
mod installs;
#[cfg(test)]
mod left;
#[cfg(test)]
mod offline;
#[cfg(test)]
mod requests;
#[cfg(test)]
mod retries;
#[cfg(test)]
mod scenes;
#[cfg(test)]
mod told;
