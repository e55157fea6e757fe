//! What a site tells of a remote.
use fw_base::Name;

/// A remote as the document states it, and how many of its releases stay once all are merged.
#[derive(Clone, Copy, Debug)]
pub struct SiteRemote {
    pub name: Name,
    pub order: u32,
    pub enabled: bool,
    /// How many components it has.
    pub components: u32,
    /// How many releases they have.
    pub releases: u32,
    /// How many of those are in the merged catalogue: none of a remote that isn't enabled.
    pub kept: u32,
}
