//! The rows of the history, the changes that are made to it, and who keeps it.
//!
//! A keeper that failed to commit leaves one change in doubt until it is reopened.
#![tactic(auto)]

pub mod change;
pub mod history;
pub mod keeper;
pub mod memory_keeper;
mod memory_rows;
pub mod plan;
pub mod refusal;
pub mod row;
pub mod stated;

pub use change::Change;
pub use history::{first_faulty, is_failed};
pub use keeper::Keeper;
pub use memory_keeper::MemoryKeeper;
pub use plan::{Doubt, KeeperPlan};
pub use refusal::KeeperRefusal;
pub use row::{Row, RowState};
