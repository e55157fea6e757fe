//! How a campaign ends.

/// How the boots of a campaign ended.
#[derive(Clone, Copy, Debug, PartialEq, Eq)]
pub enum Ending {
    /// Each boot was run.
    Whole,
    /// A boot read a history that is another one from this row on. `entry` is the row's place, counted
    /// from 1.
    BadHistory { entry: u32 },
    /// Memory was wanting for a boot.
    NoMemory,
}

/// How a campaign ran.
#[derive(Clone, Copy, Debug, PartialEq, Eq)]
pub struct Ran {
    pub ending: Ending,
    /// Memory was wanting for an item, which was left.
    pub wanting: bool,
}
