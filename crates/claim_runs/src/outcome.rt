//! How the run of a claim ended.
use daemon_core::Finished;

/// How the run of a claim ended.
#[derive(Clone, Copy, Debug)]
pub enum Outcome {
    /// The entry was finished.
    Finished(Finished),
    /// The boot is off: the board and the payload have gone back.
    Off,
}
