//! The section `remotes` of the document, and what comes of merging them.
//!
//! The section `components` is the remote `local`, of order 0, enabled and first; the section `remotes`
//! stands behind it. What is read is `specs/Remotes.antt`, and what a site has of it `specs/Told.antt`.
#![tactic(auto)]

pub mod gathering;
pub mod reading;
pub mod told;

pub use gathering::{Gathered, gather};
pub use reading::{local, remotes_or_local};
pub use told::SiteRemote;
