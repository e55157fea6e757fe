//! What a document states.
use client_scripts::Item;
use emulated_boards::PlannedFault;
use fw_base::{Listed, Name};
use fw_facts::{MachineFacts, Sheet};
use quirk_files::QuirkBook;
use release_catalogue::Catalogue;
use site_remotes::SiteRemote;
use update_log::BootPlan;

/// A board as the document states it.
#[derive(Drop)]
pub struct SiteBoard {
    /// What is fixed of it, before quirks. Its priority is at most 1,000.
    pub sheet: Sheet,
    /// The bytes of the image that it runs at first.
    pub image: Listed<u8>,
    /// The calls that fail, in rising order, each once.
    pub faults: Listed<PlannedFault>,
}

/// All that a document states.
#[derive(Drop)]
pub struct Site {
    pub machine: MachineFacts,
    /// How many blocks the pool has.
    pub pool: u32,
    /// The quirks of all files, in reading order.
    pub quirks: QuirkBook,
    /// What the remotes have, merged.
    pub catalogue: Catalogue,
    /// The remotes, in the order of the document: the section `components` is the first.
    pub remotes: Listed<SiteRemote>,
    pub boards: Listed<SiteBoard>,
    /// The features of each client, client 1 first.
    pub features: Listed<Listed<Name>>,
    pub boots: Listed<BootPlan>,
    /// What is done, by boot, client (client 1 first) and item. A boot may have fewer scripts than
    /// there are clients; those that are left do nothing.
    pub scripts: Listed<Listed<Listed<Item>>>,
}
