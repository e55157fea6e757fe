//! The document: the site that it states, or its first fault with its place and reason.
//!
//! What a document states is a function of its bytes (`specs/Sites.antt`): one line for each field, in
//! the order in which faults are looked for. `read_site` answers exactly that. The sections `clients`
//! and `boots` are read by `site_scripts`, the components by `release_catalogue`.
#![tactic(auto)]

pub mod board;
pub mod boards;
pub mod document;
pub mod fault;
pub mod flags;
pub mod instances;
pub mod machine;
pub mod planned;
pub mod quirks;
pub mod text;

pub use document::read_site;
pub use fault::SiteFault;
