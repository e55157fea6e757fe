//! One more event.
ghost use Rattle.std.specs.Prelude.{◌≡◌, ◌<◌, ◌≤◌, ◌+◌, ◌∷◌, ◌++◌, [], List, length};
ghost use Rattle.history_keeper.specs.declared.row.Row.{Row};
ghost use Rattle.core_state.specs.Core.{Stands};
ghost use Rattle.update_log.specs.Legal.{IsNext};
ghost use Rattle.update_log.specs.Known.{basis_of, rows};
ghost use Rattle.update_log.specs.Pasts.{past_of};

use crate::state::CoreState;
use update_log::{Event, Facts};

/// Puts an event behind the log, and the state stands for that log then. The facts are those that the
/// state was made with, and the log with the event must be legal, or would be if its boots had no limit.
/// It takes no memory: there must be room for one event, and for a row where the event adds one
/// (`CoreState::reserve`).
pub fn step(facts: &Facts, state: &mut CoreState, event: Event)
    ghost opening: { List Row }
    requires stands { Stands (basis_of facts.now opening) state.old }
    requires legal { IsNext (basis_of facts.now opening) (past_of state.old.log) event }
    requires room { 0 < state.old.room }
    requires row { length (rows (basis_of facts.now opening) (event ∷ past_of state.old.log)) ≤ length state.old.rows + state.old.row_room }
    ensures log { state.new.log ≡ state.old.log ++ event ∷ [] }
    ensures stands { Stands (basis_of facts.now opening) state.new }
    ensures room { state.old.room ≤ state.new.room + 1 }
    ensures row_room { state.new.row_room + length state.new.rows ≡ state.old.row_room + length state.old.rows }
{
    state.take(facts, event);
}
