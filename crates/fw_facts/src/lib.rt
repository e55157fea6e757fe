//! What is known of the machine, its devices, and the releases for them, as plain values.
//!
//! A view's version, GUIDs and flags are functions of its sheet and of what is seen (`specs/Views.antt`).
//! Whoever decides about an update decides on these values alone.
#![tactic(auto)]

pub mod flags;
pub mod machine;
pub mod problem;
pub mod release;
pub mod requirement;
pub mod seen;
pub mod sheet;
pub mod view;

pub use flags::{DeviceFlag, DeviceFlags, FLAG_COUNT};
pub use machine::{MachineFacts, MachineTest, VetoRule};
pub use problem::Problem;
pub use release::{Component, Release};
pub use requirement::{Requirement, Test, VendorTest};
pub use seen::{Mode, Seen};
pub use sheet::Sheet;
pub use view::DeviceView;
