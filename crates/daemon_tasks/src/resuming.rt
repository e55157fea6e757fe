//! The entries that were put off: each is asked for, fetched, resumed and run, by the daemon's own pass.
ghost use Rattle.std.specs.Prelude.{◌≡◌, ◌≤◌, ◌+◌, Err, Some, length, map, true};
ghost use Rattle.plugin_trait.specs.Steps.{steps_at};
ghost use Rattle.update_log.specs.declared.answer.AskAnswer.{AskAnswer};
ghost use Rattle.update_log.specs.declared.request.Request.{Request};
ghost use Rattle.update_log.specs.Holding.{hold};
ghost use Rattle.daemon_core.specs.Fetches.{block_count};
ghost use Rattle.daemon_core.specs.Holds.{IsHoldFor, held_by};
ghost use Rattle.daemon_core.specs.Resumes.{note_in};
ghost use Rattle.client_plays.specs.Endings.{played_of};
ghost use Rattle.client_plays.specs.Faults.{FaultsTold, faults_in, faults_noted};
ghost use Rattle.client_plays.specs.Plays.{ResumeFetches, ResumePlays, TaskPlays, ToResume};
ghost use Rattle.client_plays.specs.Tools.{Files, means_of};
ghost use Rattle.turn_lock.specs.Shown.{IsFresh};
ghost use Rattle.shared_daemon.specs.Closings.{IsFreePass};
ghost use Rattle.shared_daemon.specs.Entries.{past_seen};
ghost use Rattle.shared_daemon.specs.Names.{IsPass};
ghost use Rattle.shared_daemon.specs.Resumed.{MayResumeRow};
ghost use Rattle.script_runs.specs.Passes.{Ended, PassWent, own};
ghost use Rattle.daemon_tasks.specs.Resumed.{IsOut, WasGivenUp};
ghost use Rattle.daemon_tasks.specs.Waits.{AllWait, AreApart, WaitsIn, rows_seen};

use claim_runs::Runner;
use client_plays::Played;
use daemon_core::{Asked, Claimed, Fetched, Hold, ResumeStop, Ticket};
use history_keeper::Keeper;
use install_engine::fetch;
use outer_traits::{NoGate, Shelf};
use plugin_trait::Plugin;
use script_runs::{run_taken, stopped_by, told};
use shared_daemon::{Naming, Pass};
use std::sync::Wait;

// Gives the hold of a resumption back that was stopped, where it had one.
fn give_up<R: Wait, K: Keeper, N: Naming>(
    runner: &Runner<R, K, N, NoGate>,
    pass: &mut Pass,
    stopped: ResumeStop,
) -> Played
    requires pass { IsPass runner.now.daemon.now.id N.name pass.old }
    requires out { IsOut stopped.held pass.old }
    ensures pass { IsPass runner.now.daemon.now.id N.name pass.new }
    ensures told { result ≡ played_of {A = Unit {0}} (Err stopped.stop) }
    ensures given { WasGivenUp N.name stopped.held pass.old pass.new }
{
    let ResumeStop { stop, held } = stopped;
    match held {
        Some((ticket, fetched)) => runner.daemon.give_up(runner.rt, pass, ticket, fetched),
        None => {}
    }
    stopped_by(stop)
}

// Resumes an entry with what the ask for it left, and runs it where it begins. Whichever ask and shelf it came
// from, that ask is gone on with.
fn resume_with<R: Wait, K: Keeper, N: Naming>(
    runner: &Runner<R, K, N, NoGate>,
    pass: &mut Pass,
    entry: u32,
    held: Option<(Ticket, Fetched)>,
    plugins: &[Box<dyn Plugin>],
) -> Played
    requires pass { IsPass runner.now.daemon.now.id N.name pass.old }
    requires own { pass.old.number ≡ 0 }
    requires may { MayResumeRow N.name entry held pass.old.seen }
    requires served { length N.name.basis.facts.vetoes ≤ length plugins.now }
    ensures pass { IsPass runner.now.daemon.now.id N.name pass.new }
    ensures ended { (files : Files) (asked : AskAnswer) → ResumeFetches N.name.basis.facts files asked (note_in held) → Ended result (ResumePlays N.name.basis (means_of files (steps_at (λ p. steps p) plugins.now)) entry asked) pass.old pass.new }
    ensures told { faults_in (own pass.new) ≤ faults_in (own pass.old) + faults_noted (note_in held) }
{
    match runner.daemon.resume(runner.rt, pass, entry, held) {
        Ok(Claimed::Taken(taken)) => run_taken(runner, pass, taken, plugins),
        Ok(Claimed::Kept { entry: _, state: _ }) => unreachable!(),
        Ok(Claimed::Refused(_)) => Played::Done,
        Err(stopped) => give_up(runner, pass, stopped),
    }
}

// Goes on with the hold of an entry: its payload is fetched from the daemon's shelf.
fn resume_held<R: Wait, K: Keeper, N: Naming, P: Shelf>(
    runner: &Runner<R, K, N, NoGate>,
    pass: &mut Pass,
    shelf: &mut P,
    entry: u32,
    given: Hold,
    plugins: &[Box<dyn Plugin>],
) -> Played
    requires pass { IsPass runner.now.daemon.now.id N.name pass.old }
    requires own { pass.old.number ≡ 0 }
    requires waits { WaitsIn (rows_seen N.name pass.old.seen) entry }
    requires held { hold (past_seen pass.old.seen) 0 ≡ Some (held_by given.ticket given.blocks.count) }
    requires hold { (request : Request) × IsHoldFor N.name.basis.facts 0 request (Some entry) given }
    requires served { length N.name.basis.facts.vetoes ≤ length plugins.now }
    ensures pass { IsPass runner.now.daemon.now.id N.name pass.new }
    ensures ended { Ended result (ResumePlays N.name.basis (means_of (P.files shelf.old) (steps_at (λ p. steps p) plugins.now)) entry (AskAnswer.Hold given.blocks.count given.ticket.release)) pass.old pass.new }
    ensures files { P.files shelf.new ≡ P.files shelf.old }
    ensures counts { P.faults shelf.old ≤ P.faults shelf.new }
    ensures told { FaultsTold (own pass.old) (own pass.new) (P.faults shelf.old) (P.faults shelf.new) }
{
    let (ticket, fetched) = fetch(shelf, given);
    resume_with(runner, pass, entry, Some((ticket, fetched)), plugins)
}

// Resumes an entry that was put off. The daemon has nothing out before, nor afterwards.
fn resume_entry<R: Wait, K: Keeper, N: Naming, P: Shelf>(
    runner: &Runner<R, K, N, NoGate>,
    pass: &mut Pass,
    shelf: &mut P,
    entry: u32,
    plugins: &[Box<dyn Plugin>],
) -> Played
    requires pass { IsPass runner.now.daemon.now.id N.name pass.old }
    requires own { pass.old.number ≡ 0 }
    requires free { IsFreePass pass.old }
    requires waits { WaitsIn (rows_seen N.name pass.old.seen) entry }
    requires served { length N.name.basis.facts.vetoes ≤ length plugins.now }
    ensures pass { IsPass runner.now.daemon.now.id N.name pass.new }
    ensures ended { Ended result (TaskPlays N.name.basis (means_of (P.files shelf.old) (steps_at (λ p. steps p) plugins.now)) (ToResume entry)) pass.old pass.new }
    ensures files { P.files shelf.new ≡ P.files shelf.old }
    ensures counts { P.faults shelf.old ≤ P.faults shelf.new }
    ensures told { FaultsTold (own pass.old) (own pass.new) (P.faults shelf.old) (P.faults shelf.new) }
{
    match runner.daemon.ask_pending(runner.rt, pass, entry) {
        Ok(Asked::Held(given)) => resume_held(runner, pass, shelf, entry, given, plugins),
        Ok(Asked::Refused(_)) => resume_with(runner, pass, entry, None, plugins),
        Ok(Asked::Kept { entry: _, state: _ }) => unreachable!(),
        Err(stop) => stopped_by(stop),
    }
}

/// Resumes entries that were put off as the daemon began, one after the other, until the boot is off. Says whether
/// memory was wanting, for which one was left.
pub(crate) fn resume_all<R: Wait, K: Keeper, N: Naming, P: Shelf>(
    runner: &Runner<R, K, N, NoGate>,
    pass: &mut Pass,
    shelf: &mut P,
    entries: &[u32],
    plugins: &[Box<dyn Plugin>],
) -> bool
    requires pass { IsPass runner.now.daemon.now.id N.name pass.old }
    requires own { pass.old.number ≡ 0 }
    requires fresh { IsFresh N.name.start pass.old }
    requires free { IsFreePass pass.old }
    requires waits { AllWait (rows_seen N.name N.name.start) entries.now }
    requires apart { AreApart entries.now }
    requires served { length N.name.basis.facts.vetoes ≤ length plugins.now }
    ensures pass { IsPass runner.now.daemon.now.id N.name pass.new }
    ensures went { PassWent result (TaskPlays N.name.basis (means_of (P.files shelf.old) (steps_at (λ p. steps p) plugins.now))) (map ToResume entries.now) pass.old pass.new }
    ensures files { P.files shelf.new ≡ P.files shelf.old }
    ensures counts { P.faults shelf.old ≤ P.faults shelf.new }
    ensures told { FaultsTold (own pass.old) (own pass.new) (P.faults shelf.old) (P.faults shelf.new) }
{
    let mut wanting = false;
    for entry in entries {
        match told(resume_entry(runner, pass, shelf, *entry, plugins), wanting) {
            Some(now) => wanting = now,
            None => return wanting,
        }
    }
    wanting
}
