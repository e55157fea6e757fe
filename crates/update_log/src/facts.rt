//! What is fixed in a campaign.
use fw_base::{Listed, Name};
use fw_facts::{MachineFacts, Sheet, VetoRule};
use release_catalogue::Catalogue;

/// The veto rules of one plugin.
#[derive(Drop)]
pub struct PluginVetoes {
    pub plugin: Name,
    pub rules: Listed<VetoRule>,
}

/// All that a campaign's decisions rest on beside its log: the machine, the catalogue, the features
/// of each client (client 1 first), the veto rules of each enabled plugin in their order, the sheet
/// of each board in the document's order, and how many blocks the pool has.
#[derive(Drop)]
pub struct Facts {
    pub machine: MachineFacts,
    pub catalogue: Catalogue,
    pub features: Listed<Listed<Name>>,
    pub vetoes: Listed<PluginVetoes>,
    pub sheets: Listed<Sheet>,
    pub pool: u32,
}

/// What is planned for a boot: its time in seconds, after how many counted events the power is cut,
/// and the boards that are absent, by their places in the document.
#[derive(Drop)]
pub struct BootPlan {
    pub time: u64,
    pub limit: Option<u32>,
    pub absent: Listed<u32>,
}
