//! The plan of a document's first boot: over which log it is made, what is printed of it, and the campaign
//! that plays it.
//!
//! `specs/FirstPlans.antt` says which installs are planned, `specs/Printed.antt` what `plan` prints of them,
//! and `specs/Updating.antt` what `update` plays.
#![tactic(auto)]

pub mod first_plan;
pub mod printing;
pub mod updating;

pub use first_plan::{FirstPlan, plan_checked, plan_first};
pub use printing::write_plan;
pub use updating::updated;
