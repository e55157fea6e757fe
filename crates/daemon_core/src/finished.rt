//! What the finish of a live entry answers.
use block_pool::Payload;
use emulated_boards::Board;
use history_keeper::RowState;
use update_log::Stored;

/// A live entry is done: in which state its row is, and what became of the change.
#[derive(Clone, Copy, Debug)]
pub struct Finished {
    pub state: RowState,
    pub stored: Stored,
}

/// The boot is off: the board and the payload come back. It must be spent.
pub struct FinishStop {
    pub board: Board,
    pub payload: Payload,
}
