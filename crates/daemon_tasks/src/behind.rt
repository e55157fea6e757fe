//! The house behind a lock that has the daemon's own pass alone, while it resumes what was put off.
ghost use Rattle.std.specs.Prelude.{◌≡◌, ◌∷◌, ◌≤◌, ◌<◌, [], All, length, map, vec_capacity};
ghost use Rattle.std.specs.List.{range_with_len};
ghost use Rattle.history_keeper.specs.Signs.{signs_of};
ghost use Rattle.plugin_trait.specs.Steps.{steps_at};
ghost use Rattle.update_log.specs.Pasts.{boots};
ghost use Rattle.daemon_core.specs.HouseLog.{IsHouseLog};
ghost use Rattle.daemon_core.specs.Housed.{basis_in, past};
ghost use Rattle.turn_lock.specs.Shown.{IsFresh};
ghost use Rattle.shared_daemon.specs.Entries.{chronicle, past_seen};
ghost use Rattle.shared_daemon.specs.Names.{HasNothing, IsLogOf, IsPass, KeepsName};
ghost use Rattle.client_plays.specs.Endings.{HouseWent, IsCounted, IsIdle, ReadLast, WentThrough};
ghost use Rattle.client_plays.specs.Faults.{FaultsTold};
ghost use Rattle.client_plays.specs.Moments.{mine};
ghost use Rattle.client_plays.specs.Plays.{TaskPlays, ToResume};
ghost use Rattle.client_plays.specs.Tools.{means_of};
ghost use Rattle.daemon_tasks.specs.Begins.{CanBegin, IsNameOf};
ghost use Rattle.daemon_tasks.specs.Stays.{rows_at};
ghost use Rattle.daemon_tasks.specs.Waits.{AllWait, AreApart, rows_seen};

use crate::resuming::resume_all;
use claim_runs::Runner;
use daemon_core::House;
use history_keeper::Keeper;
use outer_traits::{NoGate, Shelf};
use plugin_trait::Plugin;
use shared_daemon::{Daemon, Naming, Pass};
use std::alloc::Global;
use std::marker::Brand;
use std::sync::Wait;
use turn_lock::Refused;

// Takes the only pass.
fn take_own(passes: &mut Vec<Pass>) -> Pass
    requires { map (λ p. p.number) passes.old.items ≡ range_with_len 0 1 }
    ensures own { passes.old.items ≡ result ∷ [] }
    ensures none { passes.new.items ≡ [] }
    ensures number { result.number ≡ 0 }
    ensures room { vec_capacity passes.new ≡ vec_capacity passes.old }
{
    let Some(own) = passes.pop() else {
        unreachable!()
    };
    own
}

// Lets the daemon resume these entries, and closes it. Says whether memory was wanting.
fn resume_behind<R: Wait, K: Keeper, N: Naming, P: Shelf>(
    rt: &R,
    daemon: Daemon<K, N>,
    passes: Vec<Pass>,
    shelf: &mut P,
    entries: &[u32],
    plugins: &[Box<dyn Plugin>],
) -> (House<K>, bool)
    requires seats { daemon.seats ≡ 1 }
    requires numbers { map (λ p. p.number) passes.items ≡ range_with_len 0 1 }
    requires passes { All (IsPass daemon.id N.name) passes.items }
    requires fresh { All (IsFresh N.name.start) passes.items }
    requires nothing { HasNothing N.name.start }
    requires waits { AllWait (rows_seen N.name N.name.start) entries.now }
    requires apart { AreApart entries.now }
    requires served { length N.name.basis.facts.vetoes ≤ length plugins.now }
    ensures name { KeepsName (signs_of K.tells K.doubt K.faults) N.name result.0 }
    ensures nothing { HasNothing (chronicle result.0) }
    ensures house_log { IsHouseLog result.0.house_log }
    ensures went { WentThrough result.1 0 (TaskPlays N.name.basis (means_of (P.files shelf.old) (steps_at (λ p. steps p) plugins.now))) (map ToResume entries.now) (past_seen N.name.start) (past_seen (chronicle result.0)) }
    ensures files { P.files shelf.new ≡ P.files shelf.old }
    ensures counts { P.faults shelf.old ≤ P.faults shelf.new }
    ensures told { FaultsTold (mine 0 (past_seen N.name.start)) (mine 0 (past_seen (chronicle result.0))) (P.faults shelf.old) (P.faults shelf.new) }
{
    let mut passes = passes;
    let mut own = take_own(&mut passes);
    let runner = Runner {
        rt,
        daemon: &daemon,
        gate: &NoGate,
    };
    let wanting = resume_all(&runner, &mut own, shelf, entries, plugins);
    passes.push_reserved(own);
    let house = daemon.close(passes);
    house.known();
    (house, wanting)
}

// Puts the house behind the lock of a daemon that has no clients, and lets it resume these entries. Where there is
// no memory for that, they are left, and it says so.
fn resume_named<R: Wait, K: Keeper, N: Naming, P: Shelf>(
    rt: &R,
    alloc: Global,
    house: House<K>,
    shelf: &mut P,
    entries: &[u32],
    plugins: &[Box<dyn Plugin>],
) -> (House<K>, bool)
    requires name { IsNameOf (signs_of K.tells K.doubt K.faults) N.name house }
    requires begins { CanBegin (signs_of K.tells K.doubt K.faults) house }
    requires waits { AllWait (rows_at house.house_log) entries.now }
    requires apart { AreApart entries.now }
    requires served { length house.house_log.facts.vetoes ≤ length plugins.now }
    ensures went { HouseWent (signs_of K.tells K.doubt K.faults) result.1 0 (TaskPlays (basis_in house.house_log) (means_of (P.files shelf.old) (steps_at (λ p. steps p) plugins.now))) (map ToResume entries.now) house result.0 }
    ensures files { P.files shelf.new ≡ P.files shelf.old }
    ensures counts { P.faults shelf.old ≤ P.faults shelf.new }
    ensures told { FaultsTold (mine 0 (past house)) (mine 0 (past result.0)) (P.faults shelf.old) (P.faults shelf.new) }
{
    house.known();
    match Daemon::<K, N>::begin(alloc, house, 0, 1) {
        Ok((daemon, passes)) => resume_behind(rt, daemon, passes, shelf, entries, plugins),
        Err(refused) => {
            let Refused { value } = refused;
            (value, true)
        }
    }
}

/// Resumes these entries, which were put off. In a boot that is off nothing is done. Says whether memory was
/// wanting, for which something was left.
pub(crate) fn resume_waiting<R: Wait, K: Keeper, P: Shelf>(
    rt: &R,
    alloc: Global,
    house: House<K>,
    shelf: &mut P,
    entries: &[u32],
    plugins: &[Box<dyn Plugin>],
) -> (House<K>, bool)
    requires booted { 0 < boots (past house) }
    requires idle { IsIdle (past house) }
    requires counted { IsCounted (signs_of K.tells K.doubt K.faults) house }
    requires read { ReadLast house }
    requires waits { AllWait (rows_at house.house_log) entries.now }
    requires apart { AreApart entries.now }
    requires served { length house.house_log.facts.vetoes ≤ length plugins.now }
    ensures went { HouseWent (signs_of K.tells K.doubt K.faults) result.1 0 (TaskPlays (basis_in house.house_log) (means_of (P.files shelf.old) (steps_at (λ p. steps p) plugins.now))) (map ToResume entries.now) house result.0 }
    ensures files { P.files shelf.new ≡ P.files shelf.old }
    ensures counts { P.faults shelf.old ≤ P.faults shelf.new }
    ensures told { FaultsTold (mine 0 (past house)) (mine 0 (past result.0)) (P.faults shelf.old) (P.faults shelf.new) }
{
    if entries.is_empty() {
        return (house, false);
    }
    if house.is_off() {
        return (house, false);
    }
    house.known();
    resume_named::<R, K, Brand, P>(rt, alloc, house, shelf, entries, plugins)
}
