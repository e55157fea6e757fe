//! Tests of whole campaigns by the top call, over a history in memory and over one in a database: clients on
//! threads that are held up on purpose, keepers and shelves that fail, histories that are full or wrong, plugins
//! with rules, cuts at every event, campaigns made at random.
//!
//! Campaigns in which nothing of the outside fails stand as folders under `examples/`. These here stand in a
//! crate of their own, since a crate that has tests is proved a second time with them.
#![tactic(auto)]

#[cfg(test)]
mod base;
#[cfg(test)]
mod crowds;
#[cfg(test)]
mod cuts;
#[cfg(test)]
mod databases;
#[cfg(test)]
mod dice;
#[cfg(test)]
mod faults;
#[cfg(test)]
mod histories;
#[cfg(test)]
mod meeting;
#[cfg(test)]
mod meetings;
#[cfg(test)]
mod named;
#[cfg(test)]
mod pasts;
#[cfg(test)]
mod plugins;
#[cfg(test)]
mod random;
#[cfg(test)]
mod retries;
