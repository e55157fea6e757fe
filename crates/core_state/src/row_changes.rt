//! What a change makes of the rows.
ghost use Rattle.std.specs.Prelude.{◌≡◌, ◌+◌, ◌≤◌, length};
ghost use Rattle.history_keeper.specs.Changes.{changed};
ghost use Rattle.core_state.specs.CoreFolds.{rows_added};

use history_keeper::Change;
use row_index::IndexedRows;

/// Makes the change, for which there is room.
pub fn change_rows(rows: &mut IndexedRows, change: &Change)
    requires { rows_added change.now ≤ rows.old.room }
    ensures rows { rows.new.rows ≡ changed change.now rows.old.rows }
    ensures room { rows.new.room + length rows.new.rows ≡ rows.old.room + length rows.old.rows }
{
    match change {
        Change::Add(row) => rows.push(*row),
        Change::Advance {
            entry,
            state,
            reason,
            time,
        } => rows.advance(*entry, *state, *reason, *time),
    }
}
