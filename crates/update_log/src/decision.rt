//! What is decided of a request.
use crate::refusal::Refusal;
use history_keeper::RowState;
use release_catalogue::ReleaseRef;

/// At which point a request is decided on. A release is the one that the ask found.
#[derive(Clone, Copy, Debug, PartialEq, Eq)]
pub enum Stage {
    /// A client asks.
    Ask,
    /// A request that was put off is asked for; `entry` is its row.
    AskPending { entry: u32 },
    /// The payload was fetched.
    Claim { release: ReleaseRef },
    /// The request is to be put off.
    Schedule,
    /// The payload of a request that was put off was fetched.
    Resume { entry: u32, release: ReleaseRef },
}

/// What is decided of a request.
#[derive(Clone, Copy, Debug)]
pub enum Decision {
    /// It is accepted: for the device at this place of the list of devices, with this release, whose
    /// payload takes so many blocks.
    Accept {
        device: u32,
        release: ReleaseRef,
        blocks: u32,
    },
    /// Its tag was taken before, by this entry.
    Kept {
        entry: u32,
        state: RowState,
    },
    Refused(Refusal),
}
