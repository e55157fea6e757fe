//! Rows.
use fw_base::{Digest, Name};
use guid_ids::DeviceId;
use version_formats::Version;

/// How far a row's update has come. The numbers are those of fwupd's update states, and 100 is a
/// write that was begun and not judged yet.
#[derive(Clone, Copy, Debug, PartialEq, Eq)]
pub enum RowState {
    Pending = 1,
    Success = 2,
    Failed = 3,
    NeedsReboot = 4,
    Begun = 100,
}

/// An accepted request, and what became of it.
#[derive(Clone, Copy, Debug)]
pub struct Row {
    /// The row's number, from 1.
    pub entry: u32,
    /// The request's tag; no two rows have one tag.
    pub tag: Name,
    /// The client that asked, from 1.
    pub client: u32,
    pub device: DeviceId,
    /// The component of the release.
    pub component: Name,
    /// The version that the device showed.
    pub version_old: Version,
    /// The version of the release.
    pub version_new: Version,
    /// The SHA-256 digest of the release's payload.
    pub digest: Digest,
    /// The sum of the numbers of the request's flags: offline 1, allow-reinstall 2, allow-older 4.
    pub flags: u8,
    pub state: RowState,
    /// The number of the refusal that ended an offline request, else 0.
    pub reason: u8,
    /// The time of the boot that added the row.
    pub time_added: u64,
    /// The time of the boot that last changed it.
    pub time_changed: u64,
    /// How long an install takes by the device's sheet, in seconds. 0 where the sheet doesn't say.
    pub duration: u32,
    /// The protocol by which the device is updated, where its sheet names one.
    pub protocol: Option<Name>,
    /// The entry of the failed row whose install this one tries again, where it tries one again.
    pub retry_of: Option<u32>,
}
