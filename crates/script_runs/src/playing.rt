//! The items that are one turn each.
ghost use Rattle.std.specs.Prelude.{◌≡◌, true};
ghost use Rattle.client_scripts.specs.declared.item.Item.{Item};
ghost use Rattle.client_plays.specs.Endings.{IsQuestion, played_of};
ghost use Rattle.client_plays.specs.Plays.{Plays};
ghost use Rattle.client_plays.specs.Tools.{Files, files_alone};
ghost use Rattle.shared_daemon.specs.Closings.{IsFreePass};
ghost use Rattle.shared_daemon.specs.Names.{IsPass};
ghost use Rattle.script_runs.specs.Passes.{Ended};

use claim_runs::Runner;
use client_plays::Played;
use daemon_core::Stop;
use device_list::Selector;
use history_keeper::Keeper;
use outer_traits::Gate;
use shared_daemon::{Naming, Pass};
use std::sync::Wait;
use update_log::{Query, Request};

// How a play of one turn ended.
fn played<T: Drop>(outcome: Result<T, Stop>) -> Played
    ensures { result ≡ played_of outcome }
{
    match outcome {
        Ok(_) => Played::Done,
        Err(Stop::Off) => Played::Off,
        Err(Stop::NoMemory) => Played::NoMemory,
    }
}

/// Asks a question.
pub(crate) fn play_question<R: Wait, K: Keeper, N: Naming, G: Gate>(
    runner: &Runner<R, K, N, G>,
    pass: &mut Pass,
    query: &Query,
) -> Played
    requires pass { IsPass runner.now.daemon.now.id N.name pass.old }
    requires free { IsFreePass pass.old }
    requires question { IsQuestion query.now }
    ensures pass { IsPass runner.now.daemon.now.id N.name pass.new }
    ensures ended { (files : Files) → Ended result (Plays N.name.basis (files_alone files) pass.old.number (Item.Ask query.now)) pass.old pass.new }
{
    let outcome = runner.daemon.query(runner.rt, pass, query);
    played(outcome)
}

/// Puts an install off to the next boot.
pub(crate) fn play_schedule<R: Wait, K: Keeper, N: Naming, G: Gate>(
    runner: &Runner<R, K, N, G>,
    pass: &mut Pass,
    request: &Request,
) -> Played
    requires pass { IsPass runner.now.daemon.now.id N.name pass.old }
    requires free { IsFreePass pass.old }
    requires offline { request.now.flags.offline ≡ true }
    ensures pass { IsPass runner.now.daemon.now.id N.name pass.new }
    ensures ended { (files : Files) → Ended result (Plays N.name.basis (files_alone files) pass.old.number (Item.Install request.now)) pass.old pass.new }
{
    let outcome = runner.daemon.schedule(runner.rt, pass, request);
    played(outcome)
}

/// Has the open row of a device judged.
pub(crate) fn play_settle<R: Wait, K: Keeper, N: Naming, G: Gate>(
    runner: &Runner<R, K, N, G>,
    pass: &mut Pass,
    device: &Selector,
) -> Played
    requires pass { IsPass runner.now.daemon.now.id N.name pass.old }
    requires free { IsFreePass pass.old }
    ensures pass { IsPass runner.now.daemon.now.id N.name pass.new }
    ensures ended { (files : Files) → Ended result (Plays N.name.basis (files_alone files) pass.old.number (Item.Settle device.now)) pass.old pass.new }
{
    let outcome = runner.daemon.settle(runner.rt, pass, device);
    played(outcome)
}

/// Takes a device out of its port.
pub(crate) fn play_unplug<R: Wait, K: Keeper, N: Naming, G: Gate>(
    runner: &Runner<R, K, N, G>,
    pass: &mut Pass,
    device: &Selector,
) -> Played
    requires pass { IsPass runner.now.daemon.now.id N.name pass.old }
    requires free { IsFreePass pass.old }
    ensures pass { IsPass runner.now.daemon.now.id N.name pass.new }
    ensures ended { (files : Files) → Ended result (Plays N.name.basis (files_alone files) pass.old.number (Item.Unplug device.now)) pass.old pass.new }
{
    let outcome = runner.daemon.unplug(runner.rt, pass, device);
    played(outcome)
}

/// Puts a device back into its port.
pub(crate) fn play_plug<R: Wait, K: Keeper, N: Naming, G: Gate>(
    runner: &Runner<R, K, N, G>,
    pass: &mut Pass,
    device: &Selector,
) -> Played
    requires pass { IsPass runner.now.daemon.now.id N.name pass.old }
    requires free { IsFreePass pass.old }
    ensures pass { IsPass runner.now.daemon.now.id N.name pass.new }
    ensures ended { (files : Files) → Ended result (Plays N.name.basis (files_alone files) pass.old.number (Item.Plug device.now)) pass.old pass.new }
{
    let outcome = runner.daemon.plug(runner.rt, pass, device);
    played(outcome)
}
