//! The boots of a campaign, one after the other.
ghost use Rattle.std.specs.Prelude.{◌≡◌, ◌≤◌, ◌<◌, ◌+◌, ◌-◌, ◌^◌, [], false, All, length};
ghost use Rattle.history_keeper.specs.Signs.{signs_of};
ghost use Rattle.plugin_trait.specs.Steps.{steps_at};
ghost use Rattle.update_log.specs.Pasts.{boots};
ghost use Rattle.daemon_core.specs.Housed.{past};
ghost use Rattle.client_plays.specs.Endings.{IsCounted, IsFresh, IsIdle, IsScriptItem, ReadLast};
ghost use Rattle.client_plays.specs.Faults.{ShelvesCount};
ghost use Rattle.client_plays.specs.Has.{shelves_told, tools_of};
ghost use Rattle.client_plays.specs.Scripts.{scripts_in};
ghost use Rattle.client_plays.specs.Shelves.{means_for};
ghost use Rattle.client_plays.specs.Tools.{Serves, ShelvesStay};
ghost use Rattle.client_threads.specs.Runs.{CampaignRan};

use crate::ending::{Ending, Ran};
use crate::stage::Stage;
use crate::starting::start_boot;
use client_scripts::Item;
use daemon_core::House;
use daemon_tasks::either;
use fw_base::Listed;
use history_keeper::Keeper;
use outer_traits::{Gate, Shelf};
use plugin_trait::Plugin;
use std::alloc::Global;
use std::sync::Wait;
use std::thread::Threads;
use update_log::BootPlan;

// The scripts of a boot.
fn scripts_of(scripts: &[Listed<Listed<Item>>], number: usize) -> &[Listed<Item>]
    ensures { result.now ≡ scripts_in scripts.now (number + 1) }
{
    match scripts.get(number) {
        Some(of_boot) => of_boot.items(),
        None => &[],
    }
}

/// Runs the boots of a campaign on a new house: each is started by its plan and played. It ends early
/// where a boot reads a history that can't be the log's, and where memory is wanting for a boot. There is a
/// plugin for each of those that the facts name, and a shelf for each client, and at least one.
pub(crate) fn run_boots<
    R: Threads + Wait + Sync,
    K: Keeper + Send,
    P: Shelf + Send,
    G: Gate + Sync,
>(
    rt: &R,
    alloc: Global,
    mut house: House<K>,
    shelves: &mut Vec<P>,
    plugins: &[Box<dyn Plugin>],
    gate: &G,
    plans: &[BootPlan],
    scripts: &[Listed<Listed<Item>>],
) -> (House<K>, Ran)
    requires new { house.house_log.core.log ≡ [] }
    requires unread { house.house_log.loaded ≡ false }
    requires blank { house.house_log.opening ≡ [] }
    requires few { length plans.now < 2 ^ 32 - 1 }
    requires timely { All (λ plan. plan.time ≤ 2 ^ 63 - 1) plans.now }
    requires proper { All (All (All IsScriptItem)) scripts.now }
    requires clients { All (λ of_boot. length of_boot ≤ 16) scripts.now }
    requires serves { Serves (tools_of P.files P.faults (length plugins.now) shelves.old.items) house.house_log.facts 0 }
    requires shelves { All (λ of_boot. length of_boot ≤ length (shelves_told P.files P.faults shelves.old.items)) scripts.now }
    ensures ran { CampaignRan (signs_of K.tells K.doubt K.faults) result.1.ending result.1.wanting (means_for (steps_at (λ p. steps p) plugins.now) (shelves_told P.files P.faults shelves.old.items)) plans.now scripts.now house result.0 }
    ensures kept { ShelvesStay (shelves_told P.files P.faults shelves.old.items) (shelves_told P.files P.faults shelves.new.items) }
    ensures told { ShelvesCount (past house) (past result.0) (shelves_told P.files P.faults shelves.old.items) (shelves_told P.files P.faults shelves.new.items) }
{
    house.known();
    let mut wanting = false;
    for (number, plan) in plans.iter().enumerate() {
        match start_boot(alloc, &mut house, plan) {
            Some(ending) => return (house, Ran { ending, wanting }),
            None => {
                let of_boot = scripts_of(scripts, number);
                let stage = Stage {
                    rt,
                    alloc,
                    of_boot,
                    plugins,
                    gate,
                };
                let (played, now) = stage.play_boot(house, shelves);
                house = played;
                wanting = either(wanting, now);
            }
        }
    }
    (
        house,
        Ran {
            ending: Ending::Whole,
            wanting,
        },
    )
}
