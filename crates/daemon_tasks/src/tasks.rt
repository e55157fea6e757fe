//! What the daemon does by itself as a boot begins.
ghost use Rattle.std.specs.Prelude.{◌≡◌, ◌≤◌, ◌<◌, ◌||◌, length};
ghost use Rattle.history_keeper.specs.Signs.{signs_of};
ghost use Rattle.plugin_trait.specs.Steps.{steps_at};
ghost use Rattle.update_log.specs.Pasts.{boots};
ghost use Rattle.daemon_core.specs.Housed.{basis_in, past};
ghost use Rattle.client_plays.specs.Endings.{HouseWent, IsCounted, IsFresh, IsIdle, ReadLast};
ghost use Rattle.client_plays.specs.Faults.{FaultsTold};
ghost use Rattle.client_plays.specs.Moments.{began, mine};
ghost use Rattle.client_plays.specs.Plays.{TaskPlays};
ghost use Rattle.client_plays.specs.Scripts.{tasks};
ghost use Rattle.client_plays.specs.Tools.{means_of};
ghost use Rattle.offline_updates.specs.Waiting.{entries_where, is_pending, is_to_judge};

use crate::behind::resume_waiting;
use crate::judging::{Went, judge_all};
use daemon_core::House;
use history_keeper::Keeper;
use offline_updates::{pending, to_judge};
use outer_traits::Shelf;
use plugin_trait::Plugin;
use std::alloc::Global;
use std::sync::Wait;

/// One of both.
pub fn either(one: bool, other: bool) -> bool
    ensures { result ≡ (one || other) }
{
    one || other
}

// Judges each of the first entries whose row can be judged, and resumes the others. Says whether memory was
// wanting.
fn go_through<R: Wait, K: Keeper, P: Shelf>(
    rt: &R,
    alloc: Global,
    house: House<K>,
    shelf: &mut P,
    judged: &[u32],
    waiting: &[u32],
    plugins: &[Box<dyn Plugin>],
) -> (House<K>, bool)
    requires booted { 0 < boots (past house) }
    requires idle { IsIdle (past house) }
    requires fresh { IsFresh (past house) }
    requires counted { IsCounted (signs_of K.tells K.doubt K.faults) house }
    requires read { ReadLast house }
    requires judged { judged.now ≡ entries_where is_to_judge house.house_log.core.rows }
    requires waiting { waiting.now ≡ entries_where is_pending house.house_log.core.rows }
    requires served { length house.house_log.facts.vetoes ≤ length plugins.now }
    ensures went { HouseWent (signs_of K.tells K.doubt K.faults) result.1 0 (TaskPlays (basis_in house.house_log) (means_of (P.files shelf.old) (steps_at (λ p. steps p) plugins.now))) (tasks (basis_in house.house_log) (began (past house))) house result.0 }
    ensures files { P.files shelf.new ≡ P.files shelf.old }
    ensures counts { P.faults shelf.old ≤ P.faults shelf.new }
    ensures told { FaultsTold (mine 0 (past house)) (mine 0 (past result.0)) (P.faults shelf.old) (P.faults shelf.new) }
{
    let mut house = house;
    house.known();
    match judge_all(&mut house, judged) {
        Went::Through { wanting } => {
            let (house, now) = resume_waiting(rt, alloc, house, shelf, waiting, plugins);
            (house, either(wanting, now))
        }
        Went::Off { wanting } => (house, wanting),
    }
}

/// Does the tasks of a boot that has just begun, with the daemon's shelf. Says whether memory was wanting. The
/// rows are those that the boot began with; all that is done is done before any client starts.
pub fn do_tasks<R: Wait, K: Keeper, P: Shelf>(
    rt: &R,
    alloc: Global,
    house: House<K>,
    shelf: &mut P,
    plugins: &[Box<dyn Plugin>],
) -> (House<K>, bool)
    requires booted { 0 < boots (past house) }
    requires idle { IsIdle (past house) }
    requires fresh { IsFresh (past house) }
    requires counted { IsCounted (signs_of K.tells K.doubt K.faults) house }
    requires read { ReadLast house }
    requires served { length house.house_log.facts.vetoes ≤ length plugins.now }
    ensures went { HouseWent (signs_of K.tells K.doubt K.faults) result.1 0 (TaskPlays (basis_in house.house_log) (means_of (P.files shelf.old) (steps_at (λ p. steps p) plugins.now))) (tasks (basis_in house.house_log) (began (past house))) house result.0 }
    ensures files { P.files shelf.new ≡ P.files shelf.old }
    ensures counts { P.faults shelf.old ≤ P.faults shelf.new }
    ensures told { FaultsTold (mine 0 (past house)) (mine 0 (past result.0)) (P.faults shelf.old) (P.faults shelf.new) }
{
    let Ok(judged) = to_judge(alloc, house.rows()) else {
        return (house, true);
    };
    let Ok(waiting) = pending(alloc, house.rows()) else {
        return (house, true);
    };
    go_through(rt, alloc, house, shelf, &judged, &waiting, plugins)
}
