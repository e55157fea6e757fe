//! Sites that are made, and what is made of a site.
//!
//! `make_site` gives the generated site (`specs/Made.antt`): many boards of one kind, and clients that
//! share none. `settle_site` makes the campaign of a site once its plugins are arranged
//! (`specs/Settled.antt`, `specs/Priorities.antt`). The top call makes each of its campaigns so.
#![tactic(auto)]

mod boards;
mod making;
mod priorities;
mod scripts;
mod settling;
mod sheets;
mod words;

pub use making::make_site;
pub use settling::settle_site;
