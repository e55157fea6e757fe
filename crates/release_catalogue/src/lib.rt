//! The catalogue of components: read from a JSON value with the first fault and its place, and searched for
//! the releases that fit a device.
//!
//! The readers of single fields (`kinds`, `defaults`, `entries`) and the places and reasons of faults serve
//! the reader of the whole document too.
#![tactic(auto)]

pub mod catalogue;
pub mod comparison;
pub mod component;
pub mod defaults;
pub mod entries;
pub mod fault;
mod guid_index;
pub mod kinds;
mod lookup;
pub mod members;
pub mod pattern;
pub mod place;
pub mod reason;
pub mod reference;
pub mod release;
pub mod requirement;
pub mod spot;
pub mod subject;
pub mod word;

pub use catalogue::Catalogue;
pub use fault::CatalogueFault;
pub use place::Place;
pub use reason::Reason;
pub use reference::ReleaseRef;
pub use spot::{Fault, Level, ReadStop, Spot};
pub use word::Word;
