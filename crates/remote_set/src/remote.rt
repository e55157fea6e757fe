//! Remotes.
use fw_base::Name;
use release_catalogue::Catalogue;

/// A named source of releases.
#[derive(Drop)]
pub struct Remote {
    pub name: Name,
    /// Remotes of a lower order come first, and those of one order by their places.
    pub order: u32,
    /// What a remote that isn't enabled offers is neither merged nor hides anything.
    pub enabled: bool,
    pub catalogue: Catalogue,
}
