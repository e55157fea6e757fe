//! The log of a first boot, of boards as they are made.
//!
//! Which boot that is, is one definition over its plan and the boards (`specs/FirstBoot.antt`). The state
//! stands for the log of it alone, over the rows before.
#![tactic(auto)]

pub mod first_boot;

pub use first_boot::{state_at_first_boot, state_before};
