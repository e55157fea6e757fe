//! A campaign by a worker whose clients run on threads.
ghost use Rattle.std.specs.Prelude.{◌≡◌, ◌≤◌, ◌<◌, ◌-◌, ◌^◌, [], false, All, length};
ghost use Rattle.history_keeper.specs.Signs.{signs_of};
ghost use Rattle.plugin_trait.specs.Steps.{steps_at};
ghost use Rattle.update_log.specs.Legal.{IsLegal};
ghost use Rattle.update_log.specs.Shows.{campaign_on};
ghost use Rattle.daemon_core.specs.Housed.{basis_in, past};
ghost use Rattle.client_plays.specs.Endings.{IsScriptItem};
ghost use Rattle.client_plays.specs.Faults.{ShelvesCount};
ghost use Rattle.client_plays.specs.Shelves.{means_for};
ghost use Rattle.client_plays.specs.Tools.{Serves, ShelvesStay};
ghost use Rattle.client_threads.specs.Runs.{CampaignRan};
ghost use Rattle.client_plays.specs.Has.{shelves_told, tools_of};

use crate::ending::Ran;
use crate::running::run_boots;
use client_scripts::Item;
use daemon_core::House;
use fw_base::Listed;
use history_keeper::Keeper;
use outer_traits::{Gate, Shelf};
use plugin_trait::Plugin;
use std::alloc::Global;
use std::sync::Wait;
use std::thread::Threads;
use update_log::BootPlan;

/// Runs a campaign on a new house: its boots one after the other, and in each the clients on threads, each
/// with a shelf of these. The plugins are the enabled ones, in the order of the facts: the one at the place of
/// a board's own makes the steps of its entries. The gate is told of each step of a client before. The house
/// and the shelves come back.
pub fn run_on_threads<R: Threads + Wait + Sync, K: Keeper + Send, P: Shelf + Send, G: Gate + Sync>(
    rt: &R,
    alloc: Global,
    house: House<K>,
    shelves: Vec<P>,
    plugins: Vec<Box<dyn Plugin>>,
    gate: &G,
    plans: &[BootPlan],
    scripts: &[Listed<Listed<Item>>],
) -> (House<K>, Ran, Vec<P>)
    requires new { house.house_log.core.log ≡ [] }
    requires unread { house.house_log.loaded ≡ false }
    requires blank { house.house_log.opening ≡ [] }
    requires serves { Serves (tools_of P.files P.faults (length plugins.items) shelves.items) house.house_log.facts 0 }
    requires few { length plans.now < 2 ^ 32 - 1 }
    requires timely { All (λ plan. plan.time ≤ 2 ^ 63 - 1) plans.now }
    requires proper { All (All (All IsScriptItem)) scripts.now }
    requires clients { All (λ of_boot. length of_boot ≤ 16) scripts.now }
    requires shelves { All (λ of_boot. length of_boot ≤ length (shelves_told P.files P.faults shelves.items)) scripts.now }
    ensures ran { CampaignRan (signs_of K.tells K.doubt K.faults) result.1.ending result.1.wanting (means_for (steps_at (λ p. steps p) plugins.items) (shelves_told P.files P.faults shelves.items)) plans.now scripts.now house result.0 }
    ensures legal { IsLegal (campaign_on (basis_in result.0.house_log) result.0.house_log.first plans.now) (past result.0) }
    ensures kept { ShelvesStay (shelves_told P.files P.faults shelves.items) (shelves_told P.files P.faults result.2.items) }
    ensures told { ShelvesCount (past house) (past result.0) (shelves_told P.files P.faults shelves.items) (shelves_told P.files P.faults result.2.items) }
{
    let mut shelves = shelves;
    let (house, ran) = run_boots(
        rt,
        alloc,
        house,
        &mut shelves,
        &plugins,
        gate,
        plans,
        scripts,
    );
    house.known();
    (house, ran, shelves)
}
