//! The clients of a boot, each on a thread.
ghost use Rattle.std.specs.Prelude.{◌≡◌, ◌+◌, ◌≤◌, ◌<◌, ℕ, List, All, length, slice_index_or};
ghost use Rattle.client_scripts.specs.declared.item.Item.{Item};
ghost use denote.Param.Send.{IsSend, IsSync};
ghost use Rattle.shared_daemon.specs.contracts.daemon.Daemon.{the_row as daemon_row};
ghost use Rattle.shared_daemon.specs.contracts.named.Named.{the_row as named_row};
ghost use Rattle.plugin_trait.specs.Steps.{PluginSteps, steps_at};
ghost use Rattle.client_plays.specs.Endings.{IsScriptItem};
ghost use Rattle.client_plays.specs.Scripts.{items_of};
ghost use Rattle.client_threads.specs.declared.clients.Client.{Client};
ghost use Rattle.client_threads.specs.Clients.{MayPlay, PlayedScript};

use crate::stage::Stage;
use claim_runs::Runner;
use client_scripts::Item;
use daemon_core::House;
use fw_base::Listed;
use history_keeper::Keeper;
use outer_traits::{Gate, Shelf};
use script_runs::play_script;
use shared_daemon::{Daemon, Named, Naming, Pass};
use std::sync::Wait;
use std::thread;
use std::thread::Threads;

/// A client in a boot: its pass, its shelf, and whether memory was wanting as it played.
pub(crate) struct Client<P> {
    pub pass: Pass,
    pub shelf: P,
    pub wanting: bool,
}

/// Plays the scripts of a boot, whichever client asks.
trait Player<K: Keeper, N: Naming, P: Shelf> {
    /// The scripts, that of client 1 first.
    ghost all: { Self → List (List Item) };

    /// How many plugins there are.
    ghost plugins: { Self → ℕ };

    /// What the steps of the plugin at each place give.
    ghost work: { Self → ℕ → PluginSteps };

    /// The client plays its script.
    fn play(&self, daemon: &Daemon<K, N>, client: &mut Client<P>)
        requires may { MayPlay daemon.now.id N.name client.old }
        requires proper { All (All IsScriptItem) (all self.now) }
        requires served { length N.name.basis.facts.vetoes ≤ plugins self.now }
        ensures played { PlayedScript P.files (work self.now) P.faults daemon.now.id N.name (all self.now) client.old client.new };
}

// The script of a client: client 1 has the first.
fn script_of(of_boot: &[Listed<Item>], place: usize) -> &[Item]
    ensures { result.now ≡ items_of of_boot.now (place + 1) }
{
    match of_boot.get(place) {
        Some(script) => script.items(),
        None => &[],
    }
}

impl<'a, R: Wait, K: Keeper, N: Naming, P: Shelf, G: Gate> Player<K, N, P> for Stage<'a, R, G> {
    ghost all = { λ s. s.of_boot.now };

    ghost plugins = { λ s. length s.plugins.now };

    ghost work = { λ s. steps_at (λ p. (Plugin-box p).steps p.value) s.plugins.now };

    fn play(&self, daemon: &Daemon<K, N>, client: &mut Client<P>)
        requires may { MayPlay daemon.now.id N.name client.old }
        requires proper { All (All IsScriptItem) self.now.of_boot.now }
        requires served { length N.name.basis.facts.vetoes ≤ length self.now.plugins.now }
        ensures played { PlayedScript P.files (steps_at (λ p. steps p) self.now.plugins.now) P.faults daemon.now.id N.name self.now.of_boot.now client.old client.new }
    {
        let runner = Runner {
            rt: self.rt,
            daemon,
            gate: self.gate,
        };
        let items = script_of(self.of_boot, client.pass.number() as usize - 1);
        client.wanting = play_script(
            &runner,
            &mut client.pass,
            &mut client.shelf,
            items,
            self.plugins,
        );
    }
}

// All of them play, each on a thread. Threads may share the daemon.
fn play_each<
    R: Threads + Sync,
    K: Keeper + Send,
    N: Naming + Send + Sync,
    P: Shelf + Send,
    S: Player<K, N, P> + Sync,
>(rt: &R, daemon: &Daemon<K, N>, clients: &mut [Client<P>], player: &S)
    requires shares { IsSync (daemon_row K.row N.row K.Keeper N.Naming) }
    requires some { 0 < length clients.old }
    requires may { All (MayPlay daemon.now.id N.name) clients.old }
    requires proper { All (All IsScriptItem) (S.all player.now) }
    requires served { length N.name.basis.facts.vetoes ≤ S.plugins player.now }
    ensures played { (i : ℕ) (d : Client P) → i < length clients.old → PlayedScript P.files (S.work player.now) P.faults daemon.now.id N.name (S.all player.now) (slice_index_or clients.old i d) (slice_index_or clients.new i d) }
{
    let threads = clients.len();
    thread::for_each_mut(
        rt,
        clients,
        threads,
        &|_, client: &mut Client<P>|
            requires { MayPlay daemon.now.id N.name client.now × All (All IsScriptItem) (S.all player.now) × (length N.name.basis.facts.vetoes ≤ S.plugins player.now) }
            ensures { PlayedScript P.files (S.work player.entry.now) P.faults daemon.entry.now.id N.name (S.all player.entry.now) client.entry.now client.exit.now }
        { player.play(daemon, client) },
    );
}

// A value of this type may go to another thread. A large type is told of one part after the other.
fn crosses<T: Send>()
    ensures { IsSend T.row }
{}

// Threads may share a value of this type.
fn shares<T: Sync>()
    ensures { IsSync T.row }
{}

impl<'a, R: Threads + Wait + Sync, G: Gate + Sync> Stage<'a, R, G> {
    // The same, where the house under its name may go from thread to thread.
    fn play_shared<K: Keeper + Send, N: Naming + Send + Sync, P: Shelf + Send>(
        &self,
        daemon: &Daemon<K, N>,
        clients: &mut [Client<P>],
    )
        requires crosses { IsSend (named_row K.row N.row K.Keeper N.Naming) }
        requires some { 0 < length clients.old }
        requires may { All (MayPlay daemon.now.id N.name) clients.old }
        requires proper { All (All IsScriptItem) self.now.of_boot.now }
        requires served { length N.name.basis.facts.vetoes ≤ length self.now.plugins.now }
        ensures played { (i : ℕ) (d : Client P) → i < length clients.old → PlayedScript P.files (steps_at (λ p. steps p) self.now.plugins.now) P.faults daemon.now.id N.name self.now.of_boot.now (slice_index_or clients.old i d) (slice_index_or clients.new i d) }
    {
        shares::<Daemon<K, N>>();
        play_each(self.rt, daemon, clients, self);
    }

    /// The clients play their scripts, each on a thread.
    pub(crate) fn play_all<K: Keeper + Send, N: Naming + Send + Sync, P: Shelf + Send>(
        &self,
        daemon: &Daemon<K, N>,
        clients: &mut Vec<Client<P>>,
    )
        requires some { 0 < length clients.old.items }
        requires may { All (MayPlay daemon.now.id N.name) clients.old.items }
        requires proper { All (All IsScriptItem) self.now.of_boot.now }
        requires served { length N.name.basis.facts.vetoes ≤ length self.now.plugins.now }
        ensures count { length clients.new.items ≡ length clients.old.items }
        ensures played { (i : ℕ) (d : Client P) → i < length clients.old.items → PlayedScript P.files (steps_at (λ p. steps p) self.now.plugins.now) P.faults daemon.now.id N.name self.now.of_boot.now (slice_index_or clients.old.items i d) (slice_index_or clients.new.items i d) }
    {
        crosses::<House<K>>();
        crosses::<Named<K, N>>();
        self.play_shared(daemon, clients.as_mut_slice());
    }
}
