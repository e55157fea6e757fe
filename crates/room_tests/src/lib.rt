//! Tests of what is outside and of room by their public calls.
//!
//! They stand in a crate of their own, since a crate that has tests is proved a second time with them.
#![tactic(auto)]

#[cfg(test)]
mod outside;
#[cfg(test)]
mod pools;
