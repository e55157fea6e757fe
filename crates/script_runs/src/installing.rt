//! An install: the ask, the fetch, the claim, and the run of the claim.
ghost use Rattle.std.specs.Prelude.{◌≡◌, ◌≢◌, ◌≤◌, ◌<◌, ◌+◌, [], None, Some, Err, length, true, false};
ghost use Rattle.plugin_trait.specs.Steps.{steps_at};
ghost use Rattle.update_log.specs.Holding.{hold};
ghost use Rattle.update_log.specs.Pasts.{off};
ghost use Rattle.daemon_core.specs.declared.stop.Stop.{Stop};
ghost use Rattle.daemon_core.specs.Fetches.{IsFetchOf, block_count, note_of};
ghost use Rattle.daemon_core.specs.Holds.{IsHoldFor, held_by};
ghost use Rattle.install_engine.specs.Runs.{parts_taken};
ghost use Rattle.client_scripts.specs.declared.item.Item.{Item};
ghost use Rattle.client_plays.specs.declared.played.Played.{Played};
ghost use Rattle.client_plays.specs.Endings.{played_of};
ghost use Rattle.client_plays.specs.Faults.{FaultsTold, faults_in, faults_noted};
ghost use Rattle.client_plays.specs.Plays.{ClaimPlays, IsOwnPlugin, Plays, UpdatePlays};
ghost use Rattle.client_plays.specs.Shelves.{IsFetched};
ghost use Rattle.client_plays.specs.Tools.{Files, files_alone, means_of};
ghost use Rattle.shared_daemon.specs.Closings.{IsFreePass};
ghost use Rattle.shared_daemon.specs.Entries.{past_seen};
ghost use Rattle.shared_daemon.specs.Names.{IsPass};
ghost use Rattle.claim_runs.specs.Known.{RunsSeen};
ghost use Rattle.script_runs.specs.Passes.{Ended, own};

use claim_runs::{Outcome, Runner};
use client_plays::Played;
use daemon_core::{Asked, ClaimStop, Claimed, Fetched, Hold, Stop, Taken, Ticket};
use history_keeper::Keeper;
use install_engine::fetch;
use outer_traits::{Gate, Shelf};
use plugin_trait::Plugin;
use shared_daemon::{Naming, Pass};
use std::sync::Wait;
use update_log::Request;

/// How a play ended that was stopped.
pub fn stopped_by(stop: Stop) -> Played
    ensures { result ≡ played_of {A = Unit {0}} (Err stop) }
{
    match stop {
        Stop::Off => Played::Off,
        Stop::NoMemory => Played::NoMemory,
    }
}

// Gives the hold of a claim back that was stopped.
fn give_back<R: Wait, K: Keeper, N: Naming, G: Gate>(
    runner: &Runner<R, K, N, G>,
    pass: &mut Pass,
    stopped: ClaimStop,
) -> Played
    requires pass { IsPass runner.now.daemon.now.id N.name pass.old }
    requires held { hold (past_seen pass.old.seen) pass.old.number ≡ Some (held_by stopped.ticket (block_count stopped.fetched)) }
    requires halted { stopped.stop ≡ Stop.Off → off (past_seen pass.old.seen) ≡ true }
    ensures pass { IsPass runner.now.daemon.now.id N.name pass.new }
    ensures ended { (files : Files) → IsFetched N.name.basis.facts files stopped.ticket.release (note_of stopped.fetched) → Ended result (ClaimPlays N.name.basis (files_alone files) pass.old.number stopped.ticket.request stopped.ticket.release) pass.old pass.new }
    ensures told { faults_in (own pass.new) ≡ faults_in (own pass.old) }
{
    let ClaimStop {
        stop,
        ticket,
        fetched,
    } = stopped;
    runner.daemon.give_up(runner.rt, pass, ticket, fetched);
    stopped_by(stop)
}

/// Runs an entry that was taken. The entry is the live one of the pass's client with no step yet, with the board,
/// payload and trace that its taking gave, and the plugin of its board stands at the place that was taken.
pub fn run_taken<R: Wait, K: Keeper, N: Naming, G: Gate>(
    runner: &Runner<R, K, N, G>,
    pass: &mut Pass,
    taken: Taken,
    plugins: &[Box<dyn Plugin>],
) -> Played
    requires pass { IsPass runner.now.daemon.now.id N.name pass.old }
    requires runs { RunsSeen N.name pass.old.number (parts_taken taken) None pass.old.seen }
    requires no_steps { taken.trace.steps ≡ [] }
    requires marks { 8 ≤ taken.board.room }
    requires served { taken.plugin < length plugins.now }
    requires own { IsOwnPlugin N.name.basis (past_seen pass.old.seen) taken.entry taken.plugin }
    ensures pass { IsPass runner.now.daemon.now.id N.name pass.new }
    ensures ended { Ended result (UpdatePlays N.name.basis (steps_at (λ p. steps p) plugins.now) pass.old.number taken.entry (past_seen pass.old.seen)) pass.old pass.new }
    ensures room { result ≢ Played.NoMemory }
{
    match runner.run_claim(pass, taken, plugins) {
        Outcome::Finished(_) => Played::Done,
        Outcome::Off => Played::Off,
    }
}

// Claims what was asked for and fetched, and runs the entry that is taken.
fn claim_fetched<R: Wait, K: Keeper, N: Naming, G: Gate>(
    runner: &Runner<R, K, N, G>,
    pass: &mut Pass,
    ticket: Ticket,
    fetched: Fetched,
    plugins: &[Box<dyn Plugin>],
) -> Played
    requires pass { IsPass runner.now.daemon.now.id N.name pass.old }
    requires held { hold (past_seen pass.old.seen) pass.old.number ≡ Some (held_by ticket (block_count fetched)) }
    requires asked { ticket.pending ≡ None }
    requires whole { IsFetchOf N.name.basis.facts ticket.release fetched }
    requires served { length N.name.basis.facts.vetoes ≤ length plugins.now }
    ensures pass { IsPass runner.now.daemon.now.id N.name pass.new }
    ensures ended { (files : Files) → IsFetched N.name.basis.facts files ticket.release (note_of fetched) → Ended result (ClaimPlays N.name.basis (means_of files (steps_at (λ p. steps p) plugins.now)) pass.old.number ticket.request ticket.release) pass.old pass.new }
    ensures told { faults_in (own pass.new) ≤ faults_in (own pass.old) + faults_noted (Some (note_of fetched)) }
{
    match runner.daemon.claim(runner.rt, pass, ticket, fetched) {
        Ok(Claimed::Taken(taken)) => run_taken(runner, pass, taken, plugins),
        Ok(Claimed::Kept { entry: _, state: _ }) => Played::Done,
        Ok(Claimed::Refused(_)) => Played::Done,
        Err(stopped) => give_back(runner, pass, stopped),
    }
}

// Goes on with a hold: its payload is fetched from the client's shelf, and claimed.
fn install_held<R: Wait, K: Keeper, N: Naming, P: Shelf, G: Gate>(
    runner: &Runner<R, K, N, G>,
    pass: &mut Pass,
    shelf: &mut P,
    given: Hold,
    plugins: &[Box<dyn Plugin>],
) -> Played
    requires pass { IsPass runner.now.daemon.now.id N.name pass.old }
    requires held { hold (past_seen pass.old.seen) pass.old.number ≡ Some (held_by given.ticket given.blocks.count) }
    requires hold { IsHoldFor N.name.basis.facts pass.old.number given.ticket.request None given }
    requires served { length N.name.basis.facts.vetoes ≤ length plugins.now }
    ensures pass { IsPass runner.now.daemon.now.id N.name pass.new }
    ensures ended { Ended result (ClaimPlays N.name.basis (means_of (P.files shelf.old) (steps_at (λ p. steps p) plugins.now)) pass.old.number given.ticket.request given.ticket.release) pass.old pass.new }
    ensures files { P.files shelf.new ≡ P.files shelf.old }
    ensures counts { P.faults shelf.old ≤ P.faults shelf.new }
    ensures told { FaultsTold (own pass.old) (own pass.new) (P.faults shelf.old) (P.faults shelf.new) }
{
    let (ticket, fetched) = fetch(shelf, given);
    claim_fetched(runner, pass, ticket, fetched, plugins)
}

/// Installs what a client asks for: it asks, fetches the payload from its shelf, claims, and runs the
/// entry that it took. Whatever was out has come back.
pub(crate) fn play_install<R: Wait, K: Keeper, N: Naming, P: Shelf, G: Gate>(
    runner: &Runner<R, K, N, G>,
    pass: &mut Pass,
    shelf: &mut P,
    request: &Request,
    plugins: &[Box<dyn Plugin>],
) -> Played
    requires pass { IsPass runner.now.daemon.now.id N.name pass.old }
    requires free { IsFreePass pass.old }
    requires online { request.now.flags.offline ≡ false }
    requires served { length N.name.basis.facts.vetoes ≤ length plugins.now }
    ensures pass { IsPass runner.now.daemon.now.id N.name pass.new }
    ensures ended { Ended result (Plays N.name.basis (means_of (P.files shelf.old) (steps_at (λ p. steps p) plugins.now)) pass.old.number (Item.Install request.now)) pass.old pass.new }
    ensures files { P.files shelf.new ≡ P.files shelf.old }
    ensures counts { P.faults shelf.old ≤ P.faults shelf.new }
    ensures told { FaultsTold (own pass.old) (own pass.new) (P.faults shelf.old) (P.faults shelf.new) }
{
    match runner.daemon.ask(runner.rt, pass, request) {
        Ok(Asked::Held(given)) => install_held(runner, pass, shelf, given, plugins),
        Ok(Asked::Kept { entry: _, state: _ }) => Played::Done,
        Ok(Asked::Refused(_)) => Played::Done,
        Err(stop) => stopped_by(stop),
    }
}
