//! A campaign is played on a new house, by clients on threads.
ghost use Rattle.std.specs.Prelude.{◌≡◌, ◌≤◌, ◌<◌, ◌-◌, ◌^◌, ℕ, [], false, None, Some, All, length, map, slice_get, IfOk, IfErr};
ghost use Rattle.emulated_boards.specs.Boards.{BoardState};
ghost use Rattle.history_keeper.specs.Signs.{signs_of};
ghost use Rattle.daemon_core.specs.House.{IsNewBoard};
ghost use Rattle.daemon_core.specs.Planned.{plans_in};
ghost use Rattle.client_plays.specs.Endings.{IsScriptItem};
ghost use Rattle.client_plays.specs.Shelves.{means_for};
ghost use Rattle.plugin_trait.specs.Steps.{steps_at};
ghost use Rattle.client_plays.specs.Tools.{Serves};
ghost use Rattle.client_plays.specs.Has.{shelves_told, tools_of};
ghost use Rattle.fwupd_service.specs.Begins.{CanBePlayed, IsBegun, IsReadyFor};
ghost use Rattle.fwupd_service.specs.Campaigns.{ShelvesStand, WasPlayed, campaign_over};
ghost use Rattle.update_log.specs.Known.{basis_of};
ghost use Rattle.update_log.specs.Shows.{campaign_on};

use block_pool::Pool;
use client_scripts::Item;
use client_threads::{Ran, run_on_threads};
use daemon_core::{HomeBoards, House, HouseParts, RefusedHouse};
use emulated_boards::Board;
use fw_base::Listed;
use history_keeper::{Keeper, Row};
use outer_traits::{Gate, Shelf};
use plugin_trait::Plugin;
use site_types::Campaign;
use std::alloc::Global;
use std::sync::Wait;
use std::thread::Threads;
use update_log::laws::{history_stays, legal_once, taken_once};
use update_log::{BootPlan, Facts, Log};

/// What a campaign leaves that was played, beside its shelves.
pub(crate) struct Played<K> {
    pub ran: Ran,
    pub facts: Facts,
    pub log: Log,
    pub boards: HomeBoards,
    pub keeper: K,
    pub opening: Listed<Row>,
}

/// Plays a campaign on a new house: its boots one after the other, each with all scripts, of which each is
/// played on a thread of its own.
fn play_house<R: Threads + Wait + Sync, P: Shelf + Send, K: Keeper + Send, G: Gate + Sync>(
    rt: &R,
    alloc: Global,
    house: House<K>,
    shelves: Vec<P>,
    plugins: Vec<Box<dyn Plugin>>,
    gate: &G,
    plans: &[BootPlan],
    scripts: &[Listed<Listed<Item>>],
) -> (Played<K>, Vec<P>)
    requires new { house.house_log.core.log ≡ [] }
    requires unread { house.house_log.loaded ≡ false }
    requires blank { house.house_log.opening ≡ [] }
    requires serves { Serves (tools_of P.files P.faults (length plugins.items) shelves.items) house.house_log.facts 0 }
    requires few { length plans.now < 2 ^ 32 - 1 }
    requires timely { All (λ plan. plan.time ≤ 2 ^ 63 - 1) plans.now }
    requires proper { All (All (All IsScriptItem)) scripts.now }
    requires clients { All (λ of_boot. length of_boot ≤ 16) scripts.now }
    requires shelves { All (λ of_boot. length of_boot ≤ length (shelves_told P.files P.faults shelves.items)) scripts.now }
    ensures played { WasPlayed (signs_of K.tells K.doubt K.faults) (means_for (steps_at (λ p. steps p) plugins.items) (shelves_told P.files P.faults shelves.items)) result.0.ran (campaign_on (basis_of house.house_log.facts result.0.opening) house.house_log.first plans.now)
        scripts.now result.0.log result.0.boards house.keeper result.0.keeper }
    ensures plans { map (λ b. b.plan) result.0.boards ≡ plans_in house.places }
    ensures facts { result.0.facts ≡ house.house_log.facts }
    ensures few { length result.0.facts.sheets ≤ 256 }
    ensures stand { ShelvesStand result.0.log (shelves_told P.files P.faults shelves.items) (shelves_told P.files P.faults result.1.items) }
{
    house.known();
    legal_once();
    taken_once();
    history_stays();
    let (house, ran, shelves) = run_on_threads(
        rt, alloc, house, shelves, plugins, gate, plans, scripts,
    );
    house.known();
    let HouseParts {
        facts,
        log,
        boards,
        keeper,
        opening,
    } = house.into_parts();
    let played = Played {
        ran,
        facts,
        log,
        boards,
        keeper,
        opening,
    };
    (played, shelves)
}

/// The house of a campaign before its first boot. Only memory may be wanting; then the keeper is handed back.
fn new_house<K: Keeper>(
    alloc: Global,
    facts: Facts,
    boards: Vec<Board>,
    keeper: K,
) -> Result<House<K>, K>
    requires few { length facts.sheets ≤ 256 }
    requires count { length boards.items ≡ length facts.sheets }
    requires fresh { (number : ℕ) (b : BoardState) → slice_get boards.items number ≡ Some b → IsNewBoard b }
    requires no_doubt { K.doubt keeper ≡ None }
    requires pool { facts.pool ≤ 16384 }
    ensures begun { IfOk result (λ house. IsBegun facts boards.items keeper house) }
    ensures refused { IfErr result (λ refused. refused ≡ keeper) }
{
    let Ok(pool) = Pool::new(alloc, facts.pool) else {
        return Err(keeper);
    };
    match House::new(alloc, facts, boards, pool, keeper) {
        Ok(house) => Ok(house),
        Err(RefusedHouse { boards: _, keeper }) => Err(keeper),
    }
}

/// Plays a campaign with these shelves and this keeper, by clients on threads. Where memory is wanting for the
/// house, no campaign begins.
pub(crate) fn play<R: Threads + Wait + Sync, P: Shelf + Send, K: Keeper + Send, G: Gate + Sync>(
    rt: &R,
    alloc: Global,
    campaign: Campaign,
    plugins: Vec<Box<dyn Plugin>>,
    shelves: Vec<P>,
    keeper: K,
    gate: &G,
) -> (Result<Played<K>, K>, Vec<P>)
    requires ready { CanBePlayed campaign }
    requires shelves { IsReadyFor (length shelves.items) (length plugins.items) campaign }
    requires no_doubt { K.doubt keeper ≡ None }
    ensures played { IfOk result.0 (λ played. WasPlayed (signs_of K.tells K.doubt K.faults) (means_for (steps_at (λ p. steps p) plugins.items) (shelves_told P.files P.faults shelves.items)) played.ran
        (campaign_over campaign played.opening)
        campaign.scripts played.log played.boards keeper played.keeper) }
    ensures plans { IfOk result.0 (λ played. map (λ b. b.plan) played.boards ≡ map (λ b. b.plan) campaign.boards.items) }
    ensures facts { IfOk result.0 (λ played. played.facts ≡ campaign.facts) }
    ensures few { IfOk result.0 (λ played. length played.facts.sheets ≤ 256) }
    ensures refused { IfErr result.0 (λ refused. refused ≡ keeper) }
    ensures unused { IfErr result.0 (λ refused. result.1.items ≡ shelves.items) }
    ensures stand { IfOk result.0 (λ played. ShelvesStand played.log (shelves_told P.files P.faults shelves.items) (shelves_told P.files P.faults result.1.items)) }
{
    let Campaign {
        facts,
        boards,
        boots,
        scripts,
    } = campaign;
    let house = match new_house(alloc, facts, boards, keeper) {
        Ok(house) => house,
        Err(keeper) => return (Err(keeper), shelves),
    };
    let (played, shelves) = play_house(
        rt,
        alloc,
        house,
        shelves,
        plugins,
        gate,
        boots.items(),
        scripts.items(),
    );
    (Ok(played), shelves)
}
