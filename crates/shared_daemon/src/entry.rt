//! What the daemon's log is made of, for its lock.
use update_log::Event;

/// An event, and the number of the client that made it. These values stand in proofs alone: the program
/// makes none.
#[derive(Drop)]
pub struct Entry {
    pub event: Event,
    pub maker: u32,
}
