//! Tests of the document's reader and of settled sites, by their public calls.
//!
//! They stand in a crate of their own, since a crate that has tests is proved a second time with them.
#![tactic(auto)]

#[cfg(test)]
mod documents;
#[cfg(test)]
mod parts;
#[cfg(test)]
mod scripts;
#[cfg(test)]
mod settling;
