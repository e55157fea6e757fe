//! Devices, and how a client names one.
//!
//! A list of devices is searched by ID, by GUID and by port; the first that fits is found.
#![tactic(auto)]

pub mod devices;
pub mod fault;
mod guid_index;
pub mod selector;

pub use devices::{DEVICES_MAX, Devices};
pub use fault::ListFault;
pub use selector::Selector;
