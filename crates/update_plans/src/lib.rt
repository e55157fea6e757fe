//! Update plans: which releases bring every device as far as it can come, and in which order.
//!
//! A plan is a list of installs. `specs/` says which raw number a version stands for, in which order
//! devices are visited, what a log becomes by the installs of a plan, and which plan is made. Nothing
//! here writes anything: a plan is made, and checked, over a log as it stands.
#![tactic(auto)]

mod course;
pub mod laws;
mod making;
mod numbers;
mod packing;
pub mod plan;
mod planner;
pub mod raw;
pub mod releases;
pub mod requests;
pub mod tops;
pub mod walk;

pub use plan::{Plan, PlanStep, PlanStop, STEPS_MAX, TAG_MAX};
pub use raw::raw_of;
pub use releases::version_at;
pub use requests::request_of;
pub use tops::{check_plan, make_plan};
pub use walk::order;
