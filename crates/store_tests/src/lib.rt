//! Tests of whole campaigns over a history that fails: each of its two files in turn is stopped after so many calls, and
//! what each kind of crash leaves of them is opened again for the same campaign; a change in doubt is kept in a real
//! file; and each call of a keeper in memory fails. Files of schema 1 are stopped in the same way while their rows are
//! taken over.
//!
//! They stand in a crate of their own, since the types of such a store are large: what they cost is paid once,
//! and not by each campaign of `campaign_tests`.
#![tactic(auto)]

#[cfg(test)]
mod campaigns;
#[cfg(test)]
mod files;
#[cfg(test)]
mod memory;
#[cfg(test)]
mod older_files;
#[cfg(test)]
mod real_files;
#[cfg(test)]
mod stopping;
#[cfg(test)]
mod stops;
