//! What a campaign begins with.
use client_scripts::Item;
use emulated_boards::Board;
use fw_base::Listed;
use update_log::{BootPlan, Facts};

/// A site once its quirks are applied and its plugins are known: the facts, the boards in the order of
/// the facts' sheets, and what happens.
#[derive(Drop)]
pub struct Campaign {
    pub facts: Facts,
    pub boards: Vec<Board>,
    pub boots: Listed<BootPlan>,
    /// What is done, by boot, client (client 1 first) and item.
    pub scripts: Listed<Listed<Listed<Item>>>,
}
