//! Versions: the texts that the formats write for raw numbers, and the order of versions.
//!
//! A version's text and its order are the definitions of `specs/Formats.antt` and
//! `specs/VersionOrder.antt`. Digit runs are compared in place: no number is made of them. Nothing
//! here takes memory.
#![tactic(auto)]

pub mod comparing;
pub mod format;
pub mod laws;
pub mod rendering;
pub mod version;

pub use comparing::compare;
pub use format::Format;
pub use rendering::render;
pub use version::{Version, VersionFault};
