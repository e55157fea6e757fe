//! A place where a claim may be held up before each step, so that tests can order the clients.

/// Is told of each step before it is taken, and may wait there. Nothing else is known of it.
pub trait Gate {
    /// The client is about to take that step of its entry.
    fn at(&self, client: u32, entry: u32, op: u8);
}

/// Lets every step through at once.
#[derive(Clone, Copy, Debug)]
pub struct NoGate;

impl Gate for NoGate {
    fn at(&self, _client: u32, _entry: u32, _op: u8) {}
}
