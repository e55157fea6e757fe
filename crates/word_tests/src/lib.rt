//! Tests of the words by their public calls: names, numbers, identifiers, versions, patterns, JSON.
//!
//! They stand in a crate of their own, since a crate that has tests is proved a second time with them.
#![tactic(auto)]

#[cfg(test)]
mod basics;
#[cfg(test)]
mod identifiers;
#[cfg(test)]
mod json_texts;
#[cfg(test)]
mod patterns;
#[cfg(test)]
mod versions;
