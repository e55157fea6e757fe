//! What the seats of the table know. These values stand in proofs alone: the program makes none.
use std::collections::LinkedList;

/// What a pass knows.
pub(crate) struct Knowledge<E> {
    /// The number that the entries of this pass hold.
    pub number: u32,
    /// How long the list was when the lock was made.
    pub base: u64,
    /// The list as the pass saw it last.
    pub seen: LinkedList<E>,
    /// The pass's own entries since the lock was made.
    pub mine: LinkedList<E>,
}

/// What a seat knows, by what it is doing.
pub(crate) enum SeatView<E> {
    /// It makes the passes: how many it has made, and the list that they start with.
    Opening(u64, LinkedList<E>),
    /// It is a pass's, which has no ticket.
    Idle(Knowledge<E>),
    /// The pass drew this ticket, and waits for its turn.
    Waiting(u64, Knowledge<E>),
    /// The turn of this ticket has come, and the value is out with the seat.
    Inside(u64, Knowledge<E>),
    /// It closes the lock: the passes that joined it, with its own.
    Closing(LinkedList<Knowledge<E>>),
    /// It joined another seat.
    Spent,
}
