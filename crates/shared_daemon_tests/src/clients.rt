//! What a client does in its turns. An answer that wasn't meant ends the test.
ghost use Rattle.std.specs.Prelude.{◌≡◌, ◌≤◌, [], None, Some};
ghost use Rattle.update_log.specs.Holding.{hold};
ghost use Rattle.daemon_core.specs.Holds.{IsHoldFor, held_by};
ghost use Rattle.install_engine.specs.Runs.{parts_taken};
ghost use Rattle.shared_daemon.specs.Closings.{IsFreePass};
ghost use Rattle.shared_daemon.specs.Entries.{past_seen};
ghost use Rattle.shared_daemon.specs.Names.{IsPass};
ghost use Rattle.claim_runs.specs.Known.{RunsSeen};

use claim_runs::{Outcome, Runner};
use daemon_core::{Asked, Claimed, Fetched, Finished, Hold, Taken};
use history_keeper::Keeper;
use install_engine::fetch;
use outer_traits::{Gate, Shelf};
use plugin_trait::Plugin;
use shared_daemon::{Daemon, Naming, Pass};
use std::process::Abort;
use std::sync::Wait;
use update_log::{Refusal, Request};

/// A client asks, and is refused.
pub fn ask_refused<R: Abort + Wait, K: Keeper, N: Naming>(
    rt: &R,
    daemon: &Daemon<K, N>,
    pass: &mut Pass,
    request: &Request,
) -> Refusal
    requires pass { IsPass daemon.now.id N.name pass.old }
    requires free { IsFreePass pass.old }
    ensures pass { IsPass daemon.now.id N.name pass.new }
    ensures same { pass.new.number ≡ pass.old.number }
    ensures free { IsFreePass pass.new }
{
    match daemon.ask(rt, pass, request) {
        Ok(Asked::Refused(refusal)) => refusal,
        Ok(Asked::Held(_hold)) => panic!(rt; "a hold"),
        Ok(Asked::Kept { entry: _, state: _ }) => panic!(rt; "an entry of this tag"),
        Err(_) => panic!(rt; "off, or no memory"),
    }
}

/// A client asks, and blocks are held for it.
pub fn ask_held<R: Abort + Wait, K: Keeper, N: Naming>(
    rt: &R,
    daemon: &Daemon<K, N>,
    pass: &mut Pass,
    request: &Request,
) -> Hold
    requires pass { IsPass daemon.now.id N.name pass.old }
    requires free { IsFreePass pass.old }
    ensures pass { IsPass daemon.now.id N.name pass.new }
    ensures same { pass.new.number ≡ pass.old.number }
    ensures held { hold (past_seen pass.new.seen) pass.new.number ≡ Some (held_by result.ticket result.blocks.count) }
    ensures hold { IsHoldFor N.name.basis.facts pass.old.number request.now None result }
{
    match daemon.ask(rt, pass, request) {
        Ok(Asked::Held(hold)) => hold,
        Ok(Asked::Refused(_refusal)) => panic!(rt; "refused"),
        Ok(Asked::Kept { entry: _, state: _ }) => panic!(rt; "an entry of this tag"),
        Err(_) => panic!(rt; "off, or no memory"),
    }
}

/// A client gives its hold up.
pub fn give_up<R: Wait, K: Keeper, N: Naming>(
    rt: &R,
    daemon: &Daemon<K, N>,
    pass: &mut Pass,
    given: Hold,
)
    requires pass { IsPass daemon.now.id N.name pass.old }
    requires held { hold (past_seen pass.old.seen) pass.old.number ≡ Some (held_by given.ticket given.blocks.count) }
    ensures pass { IsPass daemon.now.id N.name pass.new }
    ensures same { pass.new.number ≡ pass.old.number }
    ensures free { IsFreePass pass.new }
{
    let Hold {
        ticket,
        blocks,
        digest: _,
        size: _,
    } = given;
    daemon.give_up(rt, pass, ticket, Fetched::Missing(blocks));
}

/// A client fetches the payload of its hold, and takes the entry.
pub fn claim_taken<R: Abort + Wait, K: Keeper, N: Naming, P: Shelf>(
    rt: &R,
    daemon: &Daemon<K, N>,
    pass: &mut Pass,
    request: &Request,
    shelf: &mut P,
    given: Hold,
) -> Taken
    requires pass { IsPass daemon.now.id N.name pass.old }
    requires held { hold (past_seen pass.old.seen) pass.old.number ≡ Some (held_by given.ticket given.blocks.count) }
    requires hold { IsHoldFor N.name.basis.facts pass.old.number request.now None given }
    ensures pass { IsPass daemon.now.id N.name pass.new }
    ensures same { pass.new.number ≡ pass.old.number }
    ensures runs { RunsSeen N.name pass.new.number (parts_taken result) None pass.new.seen }
    ensures no_steps { result.trace.steps ≡ [] }
    ensures marks { 8 ≤ result.board.room }
{
    let (ticket, fetched) = fetch(shelf, given);
    match daemon.claim(rt, pass, ticket, fetched) {
        Ok(Claimed::Taken(taken)) => taken,
        Ok(Claimed::Kept { entry: _, state: _ }) => panic!(rt; "an entry of this tag"),
        Ok(Claimed::Refused(_refusal)) => panic!(rt; "refused"),
        Err(_stopped) => panic!(rt; "off, or no memory"),
    }
}

/// A client runs the claim that it took, and the entry is finished.
pub fn run<R: Abort + Wait, K: Keeper, N: Naming, G: Gate>(
    rt: &R,
    daemon: &Daemon<K, N>,
    pass: &mut Pass,
    taken: Taken,
    plugins: &[Box<dyn Plugin>],
    gate: &G,
) -> Finished
    requires pass { IsPass daemon.now.id N.name pass.old }
    requires runs { RunsSeen N.name pass.old.number (parts_taken taken) None pass.old.seen }
    requires no_steps { taken.trace.steps ≡ [] }
    requires marks { 8 ≤ taken.board.room }
    ensures pass { IsPass daemon.now.id N.name pass.new }
    ensures same { pass.new.number ≡ pass.old.number }
    ensures free { IsFreePass pass.new }
{
    assert!(rt; (taken.plugin as usize) < plugins.len());
    let runner = Runner { rt, daemon, gate };
    match runner.run_claim(pass, taken, plugins) {
        Outcome::Finished(finished) => finished,
        Outcome::Off => panic!(rt; "off"),
    }
}
