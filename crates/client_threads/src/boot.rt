//! A boot: the daemon's tasks, and then the clients behind the daemon's lock.
ghost use Rattle.std.specs.Prelude.{◌≡◌, ◌+◌, ◌≤◌, ◌<◌, [], false, All, length, map, vec_capacity};
ghost use Rattle.std.specs.List.{range_with_len};
ghost use Rattle.history_keeper.specs.Signs.{signs_of};
ghost use Rattle.plugin_trait.specs.Steps.{steps_at};
ghost use Rattle.update_log.specs.Pasts.{boots};
ghost use Rattle.daemon_core.specs.HouseLog.{IsHouseLog};
ghost use Rattle.daemon_core.specs.Housed.{past};
ghost use Rattle.turn_lock.specs.Shown.{IsFresh as IsNewPass};
ghost use Rattle.shared_daemon.specs.Entries.{chronicle, past_seen};
ghost use Rattle.shared_daemon.specs.Names.{HasNothing, IsLogOf, IsPass, KeepsName};
ghost use Rattle.client_plays.specs.Endings.{HouseBootPlayed, IsCounted, IsFresh, IsIdle, IsScriptItem, ReadLast};
ghost use Rattle.client_plays.specs.Faults.{ShelvesCount};
ghost use Rattle.client_plays.specs.Has.{shelves_told, tools_of};
ghost use Rattle.client_plays.specs.Moments.{NoClients};
ghost use Rattle.client_plays.specs.Shelves.{means_for};
ghost use Rattle.client_plays.specs.Tools.{Serves, ShelvesStay};
ghost use Rattle.daemon_tasks.specs.Begins.{CanBegin, IsNameOf};
ghost use Rattle.client_threads.specs.Clients.{ClientsPlayed, PlayedBehind};

use crate::clients::Client;
use crate::dealing::{deal_out, take_back};
use crate::stage::Stage;
use daemon_core::House;
use daemon_tasks::either;
use history_keeper::Keeper;
use outer_traits::{Gate, Shelf};
use shared_daemon::{Daemon, Naming, Pass};
use std::marker::Brand;
use std::sync::Wait;
use std::thread;
use std::thread::Threads;
use turn_lock::Refused;

// How many of so many clients can run at once: one at least. For one client the system isn't asked, since it waits for
// nobody.
fn at_once<R: Threads>(rt: &R, clients: usize) -> u32 {
    if clients < 2 {
        return 1;
    }
    match thread::available_parallelism(rt) {
        Ok(count) => u32::try_from(count.get()).unwrap_or(u32::MAX),
        Err(_) => 1,
    }
}

impl<'a, R: Threads + Wait + Sync, G: Gate + Sync> Stage<'a, R, G> {
    // Lets the clients play, and closes the daemon. There is room for the clients, and a shelf for each. Says
    // whether memory was wanting for one of them.
    fn play_behind<K: Keeper + Send, N: Naming + Send + Sync, P: Shelf + Send>(
        &self,
        daemon: Daemon<K, N>,
        passes: Vec<Pass>,
        clients: Vec<Client<P>>,
        shelves: &mut Vec<P>,
    ) -> (House<K>, bool)
        requires some { 0 < length self.now.of_boot.now }
        requires seats { daemon.seats ≡ length self.now.of_boot.now + 1 }
        requires numbers { map (λ p. p.number) passes.items ≡ range_with_len 0 (length self.now.of_boot.now + 1) }
        requires passes { All (IsPass daemon.id N.name) passes.items }
        requires fresh { All (IsNewPass N.name.start) passes.items }
        requires nothing { HasNothing N.name.start }
        requires none { clients.items ≡ [] }
        requires room { length self.now.of_boot.now ≤ vec_capacity clients }
        requires shelves { length self.now.of_boot.now ≤ length shelves.old.items }
        requires proper { All (All IsScriptItem) self.now.of_boot.now }
        requires served { length N.name.basis.facts.vetoes ≤ length self.now.plugins.now }
        ensures start { IsLogOf N.name N.name.start }
        ensures name { KeepsName (signs_of K.tells K.doubt K.faults) N.name result.0 }
        ensures log { IsLogOf N.name (chronicle result.0) }
        ensures nothing { HasNothing (chronicle result.0) }
        ensures house_log { IsHouseLog result.0.house_log }
        ensures played { PlayedBehind result.1 N.name (means_for (steps_at (λ p. steps p) self.now.plugins.now) (shelves_told P.files P.faults shelves.old.items)) self.now.of_boot.now (chronicle result.0) }
        ensures kept { ShelvesStay (shelves_told P.files P.faults shelves.old.items) (shelves_told P.files P.faults shelves.new.items) }
        ensures told { ShelvesCount (past_seen N.name.start) (past_seen (chronicle result.0)) (shelves_told P.files P.faults shelves.old.items) (shelves_told P.files P.faults shelves.new.items) }
    {
        let mut passes = passes;
        let mut clients = clients;
        let own = deal_out(&mut passes, shelves, &mut clients);
        self.play_all(&daemon, &mut clients);
        let wanting = take_back(own, clients, &mut passes, shelves);
        let house = daemon.close(passes);
        house.known();
        (house, wanting)
    }

    // Puts the house behind the lock of a daemon, with a pass for each client, and lets the clients play. Where
    // there is no memory for that, they are left, and it says so.
    fn play_named<K: Keeper + Send, N: Naming + Send + Sync, P: Shelf + Send>(
        &self,
        house: House<K>,
        shelves: &mut Vec<P>,
    ) -> (House<K>, bool)
        requires name { IsNameOf (signs_of K.tells K.doubt K.faults) N.name house }
        requires begins { CanBegin (signs_of K.tells K.doubt K.faults) house }
        requires none { NoClients (past house) }
        requires some { 0 < length self.now.of_boot.now }
        requires few { length self.now.of_boot.now ≤ 16 }
        requires proper { All (All IsScriptItem) self.now.of_boot.now }
        requires shelves { length self.now.of_boot.now ≤ length shelves.old.items }
        requires served { length house.house_log.facts.vetoes ≤ length self.now.plugins.now }
        ensures played { ClientsPlayed (signs_of K.tells K.doubt K.faults) result.1 (means_for (steps_at (λ p. steps p) self.now.plugins.now) (shelves_told P.files P.faults shelves.old.items)) self.now.of_boot.now house result.0 }
        ensures kept { ShelvesStay (shelves_told P.files P.faults shelves.old.items) (shelves_told P.files P.faults shelves.new.items) }
        ensures told { ShelvesCount (past house) (past result.0) (shelves_told P.files P.faults shelves.old.items) (shelves_told P.files P.faults shelves.new.items) }
    {
        house.known();
        let Ok(clients) = Vec::with_capacity(self.alloc, self.of_boot.len()) else {
            return (house, true);
        };
        match Daemon::<K, N>::begin(
            self.alloc,
            house,
            self.of_boot.len() as u32,
            at_once(self.rt, self.of_boot.len()),
        ) {
            Ok((daemon, passes)) => self.play_behind(daemon, passes, clients, shelves),
            Err(refused) => {
                clients.destroy_empty();
                let Refused { value } = refused;
                (value, true)
            }
        }
    }

    // Lets the clients of a boot play, each with a shelf of its own, once the daemon did its tasks. In a boot
    // that is off they do nothing. Says whether memory was wanting, for which something was left.
    fn play_clients<K: Keeper + Send, P: Shelf + Send>(
        &self,
        house: House<K>,
        shelves: &mut Vec<P>,
    ) -> (House<K>, bool)
        requires booted { 0 < boots (past house) }
        requires idle { IsIdle (past house) }
        requires counted { IsCounted (signs_of K.tells K.doubt K.faults) house }
        requires read { ReadLast house }
        requires none { NoClients (past house) }
        requires few { length self.now.of_boot.now ≤ 16 }
        requires proper { All (All IsScriptItem) self.now.of_boot.now }
        requires shelves { length self.now.of_boot.now ≤ length shelves.old.items }
        requires served { length house.house_log.facts.vetoes ≤ length self.now.plugins.now }
        ensures played { ClientsPlayed (signs_of K.tells K.doubt K.faults) result.1 (means_for (steps_at (λ p. steps p) self.now.plugins.now) (shelves_told P.files P.faults shelves.old.items)) self.now.of_boot.now house result.0 }
        ensures kept { ShelvesStay (shelves_told P.files P.faults shelves.old.items) (shelves_told P.files P.faults shelves.new.items) }
        ensures told { ShelvesCount (past house) (past result.0) (shelves_told P.files P.faults shelves.old.items) (shelves_told P.files P.faults shelves.new.items) }
    {
        if self.of_boot.is_empty() {
            return (house, false);
        }
        if house.is_off() {
            return (house, false);
        }
        house.known();
        self.play_named::<K, Brand, P>(house, shelves)
    }

    /// Plays a boot that has just begun: the daemon does its tasks, and then each client plays its script, on a
    /// thread of its own. In a boot that is off from the first, as one that couldn't read the history, nothing is
    /// done. Says whether memory was wanting, for which something was left.
    pub(crate) fn play_boot<K: Keeper + Send, P: Shelf + Send>(
        &self,
        house: House<K>,
        shelves: &mut Vec<P>,
    ) -> (House<K>, bool)
        requires booted { 0 < boots (past house) }
        requires idle { IsIdle (past house) }
        requires fresh { IsFresh (past house) }
        requires counted { IsCounted (signs_of K.tells K.doubt K.faults) house }
        requires read { ReadLast house }
        requires proper { All (All IsScriptItem) self.now.of_boot.now }
        requires few { length self.now.of_boot.now ≤ 16 }
        requires serves { Serves (tools_of P.files P.faults (length self.now.plugins.now) shelves.old.items) house.house_log.facts (length self.now.of_boot.now) }
        ensures unread { house.house_log.loaded ≡ false → result.0 ≡ house }
        ensures played { HouseBootPlayed (signs_of K.tells K.doubt K.faults) result.1 (means_for (steps_at (λ p. steps p) self.now.plugins.now) (shelves_told P.files P.faults shelves.old.items)) self.now.of_boot.now house result.0 }
        ensures kept { ShelvesStay (shelves_told P.files P.faults shelves.old.items) (shelves_told P.files P.faults shelves.new.items) }
        ensures told { ShelvesCount (past house) (past result.0) (shelves_told P.files P.faults shelves.old.items) (shelves_told P.files P.faults shelves.new.items) }
    {
        let is_off = house.is_off();
        if is_off {
            return (house, false);
        }
        house.known();
        let (house, now) = self.do_tasks_first(house, shelves);
        let (house, wanting) = self.play_clients(house, shelves);
        house.known();
        (house, either(now, wanting))
    }
}
