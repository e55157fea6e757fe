//! Tests of plugins, of claims and of fetches, by their public calls.
//!
//! They stand in a crate of their own, since a crate that has tests is proved a second time with them.
#![tactic(auto)]

#[cfg(test)]
mod claims;
#[cfg(test)]
mod fetches;
#[cfg(test)]
mod four_plugins;
#[cfg(test)]
mod own_plugin;
#[cfg(test)]
mod payloads;
