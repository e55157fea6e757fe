//! The daemon: a turn lock round a house that has a name.
ghost use Rattle.std.specs.Prelude.{◌≡◌, ◌++◌, ◌+◌, ◌<◌, ◌≤◌, [], All, IfErr, IfOk, length, map};
ghost use Rattle.std.specs.List.{range_with_len};
ghost use Rattle.history_keeper.specs.Signs.{signs_of};
ghost use Rattle.daemon_core.specs.Parts.{AllHome};
ghost use Rattle.turn_lock.specs.Lists.{AddsAtMostOne, BeginsWith, beyond};
ghost use Rattle.turn_lock.specs.Shown.{HasItsEntries, IsFresh, IsTurnOf, PassView};
ghost use Rattle.shared_daemon.specs.declared.entry.Entry.{Entry};
ghost use Rattle.shared_daemon.specs.Calls.{Begins};
ghost use Rattle.shared_daemon.specs.Entries.{chronicle, maker_of};
ghost use Rattle.shared_daemon.specs.Names.{HasNothing, IsPass, KeepsName, IsLogOf};
ghost use Rattle.shared_daemon.specs.Closings.{IsFreePass};

use crate::entry::Entry;
use crate::named::Named;
use crate::naming::Naming;
use daemon_core::House;
use history_keeper::Keeper;
use std::alloc::Global;
use std::marker::Model;
use std::sync::Wait;
use turn_lock::{Refused, Turn, TurnLock};

/// The right of a client to call the daemon.
pub type Pass = turn_lock::Pass<Entry>;

/// A turn lock round a house. It can't be dropped: `close` ends it.
/// Contracts see which lock it is, how many passes it has, and the log as it began.
pub struct Daemon<K: Keeper, N: Naming> {
    lock: TurnLock<Named<K, N>>,
}

impl<K: Keeper, N: Naming> Model for Daemon<K, N> {
    ghost use Rattle.turn_lock.specs.Shown.{LockView};
    ghost use Rattle.shared_daemon.specs.declared.entry.Entry.{Entry};
    ghost use Rattle.shared_daemon.specs.Names.{IsDaemon};

    ghost Value = { LockView Entry };

    ghost view = { λ d. d.lock };

    ghost invariant = { λ d. IsDaemon N.name d.lock };
}

impl<K: Keeper, N: Naming> Daemon<K, N> {
    /// A daemon round a house, with a pass for the daemon itself, which is pass 0, and one for each of so
    /// many clients. The house was booted, and no client has anything out. `Refused` is want of memory,
    /// and hands the house back. No more clients in line are awake than there are processors.
    pub fn begin(
        alloc: Global,
        house: House<K>,
        clients: u32,
        processors: u32,
    ) -> Result<(Daemon<K, N>, Vec<Pass>), Refused<House<K>>>
        requires few { clients ≤ 16 }
        requires name { KeepsName (signs_of K.tells K.doubt K.faults) N.name house }
        requires start { chronicle house ≡ N.name.start }
        requires nothing { HasNothing (chronicle house) }

        ensures seats { IfOk result (λ begun. begun.0.seats ≡ clients + 1) }
        ensures numbers { IfOk result (λ begun. map (λ p. p.number) begun.1.items ≡ range_with_len 0 (clients + 1)) }
        ensures passes { IfOk result (λ begun. All (IsPass begun.0.id N.name) begun.1.items) }
        ensures fresh { IfOk result (λ begun. All (IsFresh N.name.start) begun.1.items) }

        ensures refused { IfErr result (λ refused. refused.value ≡ house) }
    {
        house.known();
        match TurnLock::new(alloc, Named::of(house), clients + 1, processors) {
            Ok((lock, passes)) => Ok((Daemon { lock }, passes)),
            Err(refused) => {
                let Refused { value } = refused;
                Err(Refused {
                    value: value.into_house(),
                })
            }
        }
    }

    /// Ends the daemon, and gives the house back. The passes are all, in the order of their numbers, and
    /// none has anything out. Nobody else put anything behind the log since the daemon began. All boards are
    /// at home then, with the faults planned that they had as it began, and all blocks are free.
    pub fn close(self, passes: Vec<Pass>) -> House<K>
        requires numbers { map (λ p. p.number) passes.items ≡ range_with_len 0 self.seats }
        requires passes { All (IsPass self.id N.name) passes.items }
        requires free { All IsFreePass passes.items }

        ensures name { KeepsName (signs_of K.tells K.doubt K.faults) N.name result }
        ensures log { IsLogOf N.name (chronicle result) }
        ensures seen { All (λ p. BeginsWith (chronicle result) p.seen) passes.items }
        ensures mine { All (HasItsEntries maker_of N.name.start (chronicle result)) passes.items }
        ensures makers { All (λ entry. maker_of entry < self.seats) (beyond N.name.start (chronicle result)) }
        ensures nothing { HasNothing (chronicle result) }
        ensures home { AllHome result.places }
        ensures blocks { result.pool.free ≡ result.house_log.facts.pool }
    {
        let Daemon { lock } = self;
        let named = lock.close(passes);
        named.known();
        named.into_house()
    }

    // Begins a turn of a pass.
    pub(crate) fn enter<R: Wait>(&self, rt: &R, pass: &mut Pass) -> Turn<Named<K, N>>
        requires { IsPass self.now.id N.name pass.old }
        ensures same { pass.new.number ≡ pass.old.number }
        ensures turn { IsTurnOf self.now.id pass.new result }
        ensures list { result.seen ≡ chronicle result.value }
        ensures begins { Begins N.name pass.old result }
    {
        let mut turn = self.lock.enter(rt, pass);
        turn.state().known();
        turn
    }

    // Ends a turn of a pass.
    pub(crate) fn leave(&self, turn: Turn<Named<K, N>>, pass: &mut Pass)
        requires turn { IsTurnOf self.now.id pass.old turn }
        requires begun { (before : PassView Entry) × Begins N.name before turn }
        requires adds { AddsAtMostOne maker_of turn.number turn.seen (chronicle turn.value) }
        ensures pass { IsPass self.now.id N.name pass.new }
        ensures same { pass.new.number ≡ pass.old.number }
        ensures seen { pass.new.seen ≡ chronicle turn.value }
        ensures mine { pass.new.mine ≡ turn.mine ++ beyond turn.seen (chronicle turn.value) }
    {
        let mut turn = turn;
        turn.state().known();
        self.lock.leave(turn, pass);
    }
}
