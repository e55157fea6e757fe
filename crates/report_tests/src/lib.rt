//! Tests of replies and of the report, by their public calls.
//!
//! The lines of each event stand here as a text; replies and whole reports are asked of a story: a log
//! that grows by legal events.
#![tactic(auto)]

#[cfg(test)]
mod differences;
#[cfg(test)]
mod events;
#[cfg(test)]
mod refusals;
#[cfg(test)]
mod replies;
#[cfg(test)]
mod scenes;
#[cfg(test)]
mod stops;
