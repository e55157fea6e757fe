//! Requirements of a release, after the metadata guide of the LVFS: whether each of a component's
//! requirements holds of a device, and which is the first that doesn't, and why.
//!
//! When a requirement holds is `specs/Requirements.antt`. It is decided on facts alone: the machine, the
//! client's features, and the devices as they are shown at that moment.
#![tactic(auto)]

mod causes;
mod finding;
mod first;
pub mod laws;
mod passing;
pub mod unmet;

pub use first::first_unmet;
pub use unmet::{Unmet, UnmetCause};
