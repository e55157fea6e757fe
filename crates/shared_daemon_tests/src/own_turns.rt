//! What the daemon does in its own turns, by pass 0. An answer that wasn't meant ends the test.
ghost use Rattle.std.specs.Prelude.{◌≡◌, ◌≤◌, [], None, Some};
ghost use Rattle.update_log.specs.declared.request.Request.{Request};
ghost use Rattle.update_log.specs.Holding.{hold};
ghost use Rattle.daemon_core.specs.Holds.{IsHoldFor, held_by};
ghost use Rattle.install_engine.specs.Runs.{parts_taken};
ghost use Rattle.shared_daemon.specs.Closings.{IsFreePass};
ghost use Rattle.shared_daemon.specs.Entries.{past_seen};
ghost use Rattle.shared_daemon.specs.Names.{IsPass};
ghost use Rattle.claim_runs.specs.Known.{RunsSeen};
ghost use Rattle.shared_daemon_tests.specs.Waits.{HasRow, IsPutOff};

use daemon_core::{Asked, Claimed, Hold, Judged, Taken};
use history_keeper::Keeper;
use install_engine::fetch;
use outer_traits::Shelf;
use shared_daemon::{Daemon, Naming, Pass};
use std::process::Abort;
use std::sync::Wait;

/// The daemon asks for the install of a row that was put off, and blocks are held for it.
pub fn ask_pending_held<R: Abort + Wait, K: Keeper, N: Naming>(
    rt: &R,
    daemon: &Daemon<K, N>,
    pass: &mut Pass,
    entry: u32,
) -> Hold
    requires pass { IsPass daemon.now.id N.name pass.old }
    requires own { pass.old.number ≡ 0 }
    requires free { IsFreePass pass.old }
    requires waits { IsPutOff N.name entry pass.old.seen }
    ensures pass { IsPass daemon.now.id N.name pass.new }
    ensures same { pass.new.number ≡ pass.old.number }
    ensures waits { IsPutOff N.name entry pass.new.seen }
    ensures held { hold (past_seen pass.new.seen) 0 ≡ Some (held_by result.ticket result.blocks.count) }
    ensures hold { (request : Request) × IsHoldFor N.name.basis.facts 0 request (Some entry) result }
{
    match daemon.ask_pending(rt, pass, entry) {
        Ok(Asked::Held(hold)) => hold,
        Ok(Asked::Refused(_refusal)) => panic!(rt; "refused"),
        Ok(Asked::Kept { entry: _, state: _ }) => panic!(rt; "an entry of this tag"),
        Err(_) => panic!(rt; "off, or no memory"),
    }
}

/// The daemon fetches the payload of that hold, and the row is begun.
pub fn resume_taken<R: Abort + Wait, K: Keeper, N: Naming, P: Shelf>(
    rt: &R,
    daemon: &Daemon<K, N>,
    pass: &mut Pass,
    entry: u32,
    shelf: &mut P,
    given: Hold,
) -> Taken
    requires pass { IsPass daemon.now.id N.name pass.old }
    requires own { pass.old.number ≡ 0 }
    requires waits { IsPutOff N.name entry pass.old.seen }
    requires held { hold (past_seen pass.old.seen) 0 ≡ Some (held_by given.ticket given.blocks.count) }
    requires hold { (request : Request) × IsHoldFor N.name.basis.facts 0 request (Some entry) given }
    ensures pass { IsPass daemon.now.id N.name pass.new }
    ensures same { pass.new.number ≡ pass.old.number }
    ensures runs { RunsSeen N.name pass.new.number (parts_taken result) None pass.new.seen }
    ensures no_steps { result.trace.steps ≡ [] }
    ensures marks { 8 ≤ result.board.room }
{
    let (ticket, fetched) = fetch(shelf, given);
    match daemon.resume(rt, pass, entry, Some((ticket, fetched))) {
        Ok(Claimed::Taken(taken)) => taken,
        Ok(Claimed::Kept { entry: _, state: _ }) => panic!(rt; "an entry of this tag"),
        Ok(Claimed::Refused(_refusal)) => panic!(rt; "refused"),
        Err(_stopped) => panic!(rt; "off, or no memory"),
    }
}

/// The daemon judges a row that was there as it began.
pub fn judge<R: Abort + Wait, K: Keeper, N: Naming>(
    rt: &R,
    daemon: &Daemon<K, N>,
    pass: &mut Pass,
    entry: u32,
) -> Judged
    requires pass { IsPass daemon.now.id N.name pass.old }
    requires free { IsFreePass pass.old }
    requires row { HasRow N.name entry N.name.start }
    ensures pass { IsPass daemon.now.id N.name pass.new }
    ensures same { pass.new.number ≡ pass.old.number }
    ensures free { IsFreePass pass.new }
{
    match daemon.judge(rt, pass, entry) {
        Ok(judged) => judged,
        Err(_) => panic!(rt; "off, or no memory"),
    }
}
