//! What a claim answers.
use crate::fetched::Fetched;
use crate::hold::Ticket;
use crate::stop::Stop;
use block_pool::Payload;
use emulated_boards::Board;
use history_keeper::RowState;
use update_log::{Refusal, Trace};

/// An entry that was taken, with its board and its payload. It must be spent.
pub struct Taken {
    pub entry: u32,
    /// The place of the device's plugin among the enabled ones.
    pub plugin: u32,
    pub board: Board,
    pub payload: Payload,
    pub trace: Trace,
}

/// What a client that claims what it asked for is answered. It must be spent.
pub enum Claimed {
    /// The entry may be installed now.
    Taken(Taken),
    /// The tag was taken before, by this entry.
    Kept { entry: u32, state: RowState },
    Refused(Refusal),
}

/// The claim was stopped: the ticket and what was fetched come back. It must be spent.
pub struct ClaimStop {
    pub stop: Stop,
    pub ticket: Ticket,
    pub fetched: Fetched,
}
