//! The items of a client, one after the other.
ghost use Rattle.std.specs.Prelude.{◌≡◌, ◌≤◌, All, length};
ghost use Rattle.client_plays.specs.Endings.{IsScriptItem};
ghost use Rattle.client_plays.specs.Faults.{FaultsTold};
ghost use Rattle.client_plays.specs.Plays.{Plays};
ghost use Rattle.client_plays.specs.Tools.{means_of};
ghost use Rattle.plugin_trait.specs.Steps.{steps_at};
ghost use Rattle.shared_daemon.specs.Closings.{IsFreePass};
ghost use Rattle.shared_daemon.specs.Names.{IsPass};
ghost use Rattle.script_runs.specs.Passes.{Ended, PassWent, own, told_of};

use crate::installing::play_install;
use crate::playing::{play_plug, play_question, play_schedule, play_settle, play_unplug};
use claim_runs::Runner;
use client_plays::Played;
use client_scripts::Item;
use history_keeper::Keeper;
use outer_traits::{Gate, Shelf};
use plugin_trait::Plugin;
use shared_daemon::{Naming, Pass};
use std::sync::Wait;

// Plays an item of a client. It has nothing out before, nor afterwards.
fn play_item<R: Wait, K: Keeper, N: Naming, P: Shelf, G: Gate>(
    runner: &Runner<R, K, N, G>,
    pass: &mut Pass,
    shelf: &mut P,
    item: &Item,
    plugins: &[Box<dyn Plugin>],
) -> Played
    requires pass { IsPass runner.now.daemon.now.id N.name pass.old }
    requires free { IsFreePass pass.old }
    requires proper { IsScriptItem item.now }
    requires served { length N.name.basis.facts.vetoes ≤ length plugins.now }
    ensures pass { IsPass runner.now.daemon.now.id N.name pass.new }
    ensures ended { Ended result (Plays N.name.basis (means_of (P.files shelf.old) (steps_at (λ p. steps p) plugins.now)) pass.old.number item.now) pass.old pass.new }
    ensures files { P.files shelf.new ≡ P.files shelf.old }
    ensures counts { P.faults shelf.old ≤ P.faults shelf.new }
    ensures told { FaultsTold (own pass.old) (own pass.new) (P.faults shelf.old) (P.faults shelf.new) }
{
    match item {
        Item::Ask(query) => play_question(runner, pass, query),
        Item::Install(request) => {
            if request.flags.offline {
                play_schedule(runner, pass, request)
            } else {
                play_install(runner, pass, shelf, request, plugins)
            }
        }
        Item::Settle(device) => play_settle(runner, pass, device),
        Item::Unplug(device) => play_unplug(runner, pass, device),
        Item::Plug(device) => play_plug(runner, pass, device),
    }
}

/// What is told of a play: whether memory was wanting so far, or nothing where the boot is off.
pub fn told(played: Played, wanting: bool) -> Option<bool>
    ensures { result ≡ told_of played wanting }
{
    match played {
        Played::Done => Some(wanting),
        Played::NoMemory => Some(true),
        Played::Off => None,
    }
}

/// Plays the items of a client, one after the other, until the boot is off. Says whether memory was wanting,
/// for which an item was left. The client has nothing out before, nor afterwards.
pub fn play_script<R: Wait, K: Keeper, N: Naming, P: Shelf, G: Gate>(
    runner: &Runner<R, K, N, G>,
    pass: &mut Pass,
    shelf: &mut P,
    items: &[Item],
    plugins: &[Box<dyn Plugin>],
) -> bool
    requires pass { IsPass runner.now.daemon.now.id N.name pass.old }
    requires free { IsFreePass pass.old }
    requires proper { All IsScriptItem items.now }
    requires served { length N.name.basis.facts.vetoes ≤ length plugins.now }
    ensures pass { IsPass runner.now.daemon.now.id N.name pass.new }
    ensures went { PassWent result (Plays N.name.basis (means_of (P.files shelf.old) (steps_at (λ p. steps p) plugins.now)) pass.old.number) items.now pass.old pass.new }
    ensures files { P.files shelf.new ≡ P.files shelf.old }
    ensures counts { P.faults shelf.old ≤ P.faults shelf.new }
    ensures told { FaultsTold (own pass.old) (own pass.new) (P.faults shelf.old) (P.faults shelf.new) }
{
    let mut wanting = false;
    for item in items {
        match told(play_item(runner, pass, shelf, item, plugins), wanting) {
            Some(now) => wanting = now,
            None => return wanting,
        }
    }
    wanting
}
