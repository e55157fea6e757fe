//! What a client holds between its ask and its claim.
use block_pool::Blocks;
use fw_base::Digest;
use history_keeper::RowState;
use release_catalogue::ReleaseRef;
use update_log::{Refusal, Request};

/// The right to claim what was asked for. It must be spent: claimed with, or given back. Only an ask
/// makes one.
pub struct Ticket {
    /// Whose it is.
    pub(crate) client: u32,
    /// What was asked for.
    pub(crate) request: Request,
    /// The release that was found.
    pub(crate) release: ReleaseRef,
    /// The entry of the row that was put off, where one made the request.
    pub(crate) pending: Option<u32>,
}

/// Blocks that are held for a payload, with the digest and the size in bytes that it must have. It must be
/// spent.
pub struct Hold {
    pub ticket: Ticket,
    pub blocks: Blocks,
    pub digest: Digest,
    pub size: u32,
}

/// What a client that asks for an install is answered.
pub enum Asked {
    /// The payload may be fetched.
    Held(Hold),
    /// The tag was taken before, by this entry.
    Kept { entry: u32, state: RowState },
    Refused(Refusal),
}
