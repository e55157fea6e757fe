//! Which calls of a keeper in memory fail.
use crate::change::Change;

/// A call that fails: its number, from 1 and counted over all three calls of a keeper. Where it is a
/// commit, `keep` tells whether its change is there after the next reopening.
#[derive(Clone, Copy, Debug)]
pub struct KeeperPlan {
    pub call: u32,
    pub keep: bool,
}

/// A change that a commit failed to make, and whether it is there after the next reopening.
#[derive(Clone, Copy, Debug)]
pub struct Doubt {
    pub change: Change,
    pub keep: bool,
}
