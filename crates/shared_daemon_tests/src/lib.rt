//! Tests of the daemon behind its lock by its public calls, used from one thread: two clients, and the daemon's
//! own turns.
//!
//! They stand in a crate of their own, since a crate that has tests is proved a second time with them.
#![tactic(auto)]

#[cfg(test)]
mod clients;
#[cfg(test)]
mod days;
#[cfg(test)]
mod noted;
#[cfg(test)]
mod own_day;
#[cfg(test)]
mod own_turns;
#[cfg(test)]
mod put_off;
#[cfg(test)]
mod scenes;
#[cfg(test)]
mod two_clients;
