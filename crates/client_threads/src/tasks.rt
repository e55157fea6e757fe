//! The daemon's own tasks, with the shelf that it shares with the first client.
ghost use Rattle.std.specs.Prelude.{◌≡◌, ◌≤◌, ◌<◌, length};
ghost use Rattle.history_keeper.specs.Signs.{signs_of};
ghost use Rattle.plugin_trait.specs.Steps.{steps_at};
ghost use Rattle.update_log.specs.Pasts.{boots};
ghost use Rattle.daemon_core.specs.Housed.{basis_in, past};
ghost use Rattle.client_plays.specs.Endings.{HouseWent, IsCounted, IsFresh, IsIdle, ReadLast};
ghost use Rattle.client_plays.specs.Faults.{ShelvesCount};
ghost use Rattle.client_plays.specs.Has.{shelves_told};
ghost use Rattle.client_plays.specs.Moments.{began};
ghost use Rattle.client_plays.specs.Plays.{TaskPlays};
ghost use Rattle.client_plays.specs.Scripts.{tasks};
ghost use Rattle.client_plays.specs.Shelves.{means_for};
ghost use Rattle.client_plays.specs.Tools.{ShelvesStay};

use crate::stage::Stage;
use daemon_core::House;
use daemon_tasks::do_tasks;
use history_keeper::Keeper;
use outer_traits::Shelf;
use std::sync::Wait;

impl<'a, R: Wait, G> Stage<'a, R, G> {
    /// Does the tasks of a boot that has just begun, with the first of these shelves. Says whether memory was
    /// wanting.
    pub(crate) fn do_tasks_first<K: Keeper, P: Shelf>(
        &self,
        house: House<K>,
        shelves: &mut Vec<P>,
    ) -> (House<K>, bool)
        requires booted { 0 < boots (past house) }
        requires idle { IsIdle (past house) }
        requires fresh { IsFresh (past house) }
        requires counted { IsCounted (signs_of K.tells K.doubt K.faults) house }
        requires read { ReadLast house }
        requires shelf { 0 < length shelves.old.items }
        requires served { length house.house_log.facts.vetoes ≤ length self.now.plugins.now }
        ensures went { HouseWent (signs_of K.tells K.doubt K.faults) result.1 0 (TaskPlays (basis_in house.house_log) (means_for (steps_at (λ p. steps p) self.now.plugins.now) (shelves_told P.files P.faults shelves.old.items) 0)) (tasks (basis_in house.house_log) (began (past house))) house result.0 }
        ensures kept { ShelvesStay (shelves_told P.files P.faults shelves.old.items) (shelves_told P.files P.faults shelves.new.items) }
        ensures told { ShelvesCount (past house) (past result.0) (shelves_told P.files P.faults shelves.old.items) (shelves_told P.files P.faults shelves.new.items) }
    {
        do_tasks(self.rt, self.alloc, house, &mut shelves[0], self.plugins)
    }
}
