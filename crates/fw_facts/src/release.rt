//! Releases, and the components that they belong to.
use crate::requirement::Requirement;
use fw_base::{Digest, Line, Listed, Name};
use guid_ids::Guid;
use version_formats::Version;

/// One firmware that may be put on a device.
#[derive(Clone, Copy, Debug)]
pub struct Release {
    pub version: Version,
    /// How much it matters, by a word of the LVFS.
    pub urgency: Name,
    /// The SHA-256 digest of its payload.
    pub digest: Digest,
    /// The payload's size, in bytes.
    pub size: u32,
}

/// The releases for the devices that show one of the provided GUIDs, and what each of them requires.
#[derive(Drop)]
pub struct Component {
    /// Its AppStream ID.
    pub id: Name,
    pub name: Line,
    pub provides: Listed<Guid>,
    pub requirements: Listed<Requirement>,
    /// The version format that its metadata states. It is shown, and decides nothing.
    pub format: Option<Name>,
    /// The update protocol that its metadata states. It is shown, and decides nothing.
    pub protocol: Option<Name>,
    pub releases: Listed<Release>,
}
