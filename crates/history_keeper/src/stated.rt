//! Another state of a row.
ghost use Rattle.std.specs.Prelude.{◌≡◌, ◌⊎◌, ◌+◌, ◌<◌, map, length, IfSome, IfNone};
ghost use Rattle.history_keeper.specs.Changes.{with_state};
ghost use Rattle.history_keeper.specs.Numbers.{IsNumbered};

use crate::row::{Row, RowState};

/// The row with that entry gets another state, in a list that may be any.
pub fn state_each(rows: &mut [Row], entry: u32, state: RowState, reason: u8, time: u64)
    ensures { rows.new ≡ map (with_state entry state reason time) rows.old }
{
    for row in rows.iter_mut() {
        *row = stated(*row, entry, state, reason, time);
    }
}

/// The row with that entry gets another state, in a list whose entries are 1, 2, 3 and so on.
pub(crate) fn state_numbered(rows: &mut [Row], entry: u32, state: RowState, reason: u8, time: u64)
    requires { IsNumbered rows.old }
    ensures { rows.new ≡ map (with_state entry state reason time) rows.old }
{
    match place_of_entry(rows, entry) {
        Some(at) => state_at(rows, at, entry, state, reason, time),
        None => {}
    }
}

fn state_at(rows: &mut [Row], at: usize, entry: u32, state: RowState, reason: u8, time: u64)
    requires numbered { IsNumbered rows.old }
    requires within { at < length rows.old }
    requires there { entry ≡ at + 1 }
    ensures { rows.new ≡ map (with_state entry state reason time) rows.old }
{
    rows[at] = stated(rows[at], entry, state, reason, time);
}

/// The place of an entry, in a list whose entries are 1, 2, 3 and so on.
pub fn place_of_entry(rows: &[Row], entry: u32) -> Option<usize>
    ensures found { IfSome result (λ at. (at < length rows.now) × (entry ≡ at + 1)) }
    ensures past { IfNone result ((entry ≡ 0) ⊎ (length rows.now < entry)) }
{
    if entry == 0 || entry as usize > rows.len() {
        return None;
    }
    Some(entry as usize - 1)
}

/// The row, with another state where it has that entry.
pub fn stated(row: Row, entry: u32, state: RowState, reason: u8, time: u64) -> Row
    ensures { result ≡ with_state entry state reason time row }
{
    if row.entry != entry {
        return row;
    }
    Row {
        state,
        reason,
        time_changed: time,
        ..row
    }
}
