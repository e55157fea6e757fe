//! Changes.
use crate::row::{Row, RowState};

/// A change of the rows.
#[derive(Clone, Copy, Debug)]
pub enum Change {
    /// One more row.
    Add(Row),
    /// Another state of a row, with its reason and the time of the change.
    Advance {
        entry: u32,
        state: RowState,
        reason: u8,
        time: u64,
    },
}
