//! Who runs claims.
use history_keeper::Keeper;
use shared_daemon::{Daemon, Naming};

/// What the turns of a client are made with: what it waits by, the daemon, and the gate that holds its steps
/// up.
#[derive(Drop)]
pub struct Runner<'a, R, K: Keeper, N: Naming, G> {
    pub rt: &'a R,
    pub daemon: &'a Daemon<K, N>,
    pub gate: &'a G,
}
