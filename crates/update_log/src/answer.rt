//! What clients are answered.
use crate::refusal::Refusal;
use fw_facts::Seen;
use history_keeper::RowState;
use release_catalogue::ReleaseRef;

/// The answer to an ask.
#[derive(Clone, Copy, Debug)]
pub enum AskAnswer {
    /// These many blocks are held for the payload of this release.
    Hold { blocks: u32, release: ReleaseRef },
    /// The tag was taken before, by this entry.
    Kept { entry: u32, state: RowState },
    Refused(Refusal),
}

/// The answer to a claim, or to a request that is put off to the next boot.
#[derive(Clone, Copy, Debug)]
pub enum ClaimAnswer {
    /// The request is accepted, and this is its entry.
    Entry(u32),
    /// The tag was taken before, by this entry.
    Kept { entry: u32, state: RowState },
    Refused(Refusal),
}

/// The answer to the resumption of a request that was put off.
#[derive(Clone, Copy, Debug)]
pub enum ResumeAnswer {
    Begun,
    Refused(Refusal),
}

/// The answer to a plug or an unplug.
#[derive(Clone, Copy, Debug, PartialEq, Eq)]
pub enum PlugAnswer {
    /// Done, and this is what the port shows now.
    Done { seen: Seen },
    NoDevice,
    /// The device is being updated by this entry.
    Busy { entry: u32 },
    NotThere,
    AlreadyThere,
}
