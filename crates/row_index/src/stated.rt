//! Another state of a row.
ghost use Rattle.std.specs.Prelude.{◌≡◌, ◌⊎◌, ◌+◌, ◌<◌, map, length, IfSome, IfNone};
ghost use Rattle.std.specs.Bool.{OnFalse};
ghost use Rattle.history_keeper.specs.Changes.{with_state};
ghost use Rattle.history_keeper.specs.Histories.{is_unsettled};
ghost use Rattle.history_keeper.specs.Numbers.{IsNumbered};
ghost use Rattle.row_index.specs.Indexes.{WaitsFromBefore};

use history_keeper::stated::{place_of_entry, stated};
use history_keeper::{Row, RowState};

/// The row with that entry gets another state, in a list whose entries are 1, 2, 3 and so on. Tells
/// whether a settled row waits again.
pub fn state_numbered(rows: &mut [Row], entry: u32, state: RowState, reason: u8, time: u64) -> bool
    requires { IsNumbered rows.old }
    ensures stated { rows.new ≡ map (with_state entry state reason time) rows.old }
    ensures settled { OnFalse result (WaitsFromBefore (with_state entry state reason time) rows.old) }
{
    match place_of_entry(rows, entry) {
        Some(at) => state_at(rows, at, entry, state, reason, time),
        None => false,
    }
}

fn state_at(rows: &mut [Row], at: usize, entry: u32, state: RowState, reason: u8, time: u64) -> bool
    requires numbered { IsNumbered rows.old }
    requires within { at < length rows.old }
    requires there { entry ≡ at + 1 }
    ensures stated { rows.new ≡ map (with_state entry state reason time) rows.old }
    ensures settled { OnFalse result (WaitsFromBefore (with_state entry state reason time) rows.old) }
{
    let before = rows[at].state;
    rows[at] = stated(rows[at], entry, state, reason, time);
    is_unsettled(state) && !is_unsettled(before)
}

/// The row of this state waits for its end.
pub fn is_unsettled(state: RowState) -> bool
    ensures { result ≡ is_unsettled state }
{
    match state {
        RowState::Pending | RowState::NeedsReboot | RowState::Begun => true,
        RowState::Success | RowState::Failed => false,
    }
}
