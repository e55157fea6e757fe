//! How a lock ends: one seat takes in all passes.
ghost use Rattle.std.specs.Prelude.{◌≡◌, ◌<◌, All, length, map};
ghost use Rattle.turn_lock.specs.Shown.{IsReady};
ghost use Rattle.turn_lock.specs.Views.{CanTakeIn, accounts_of, knowledge_of};
ghost use Rattle.turn_lock.specs.Steps.{IsLaid};

use crate::chronicle::Chronicle;
use crate::pass::Pass;
use crate::steps::{LockSeat, LockTable, take_in};

/// The seat of the last pass takes in the others.
pub(crate) fn gather<V: Chronicle>(
    table: &LockTable<V>,
    mut passes: Vec<Pass<V::Entry>>,
) -> LockSeat<V>
    requires table { IsLaid table.now.table_id }
    requires some { 0 < length passes.items }
    requires ready { All (IsReady table.now.table_id) passes.items }
    ensures seat { result.table_id ≡ table.now.table_id }
    ensures closer { CanTakeIn result.me.0 }
    ensures accounts { accounts_of result.me.0 ≡ map knowledge_of passes.items }
{
    let Some(mut last) = passes.pop() else {
        unreachable!()
    };
    let mut closer: LockSeat<V> = last.lend();
    while let Some(pass) = passes.pop() {
        take_in(table, &mut closer, pass);
    }
    closer
}
