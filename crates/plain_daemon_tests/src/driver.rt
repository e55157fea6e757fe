//! Runs a campaign with one client on a new house, as the service does.
ghost use Rattle.std.specs.Prelude.{◌≡◌, ◌≤◌, ◌<◌, ◌-◌, ◌^◌, [], false, All, IfOk, length};
ghost use Rattle.client_plays.specs.Endings.{IsScriptItem};
ghost use Rattle.daemon_core.specs.Housed.{past};
ghost use Rattle.update_log.specs.Holding.{live};

use crate::left::{Left, close};
use crate::scenes::{Scene, house, plugins, shelves};
use client_scripts::Item;
use client_threads::{Ending, run_on_threads};
use daemon_core::House;
use device_list::Selector;
use fw_base::Listed;
use history_keeper::{MemoryKeeper, Row};
use outer_traits::{MemoryShelf, NoGate};
use plugin_trait::Plugin;
use std::alloc::Global;
use std::process::Abort;
use std::sync::Wait;
use std::test::Fail;
use std::thread::Threads;
use update_log::{BootPlan, Log, Query, Request};

/// How a boot begins.
#[derive(Clone, Copy)]
pub struct Morning {
    pub time: u32,
    /// After how many events the power is cut.
    pub limit: Option<u32>,
    /// The board that is absent, by its place.
    pub absent: Option<u32>,
}

/// What the client does next.
#[derive(Clone, Copy)]
pub enum Deed {
    Install(Request),
    Settle(Selector),
    Plug(Selector),
}

/// The install of a request.
pub fn install(request: &Request) -> Deed {
    Deed::Install(*request)
}

/// A boot: how it begins, and what the client does in it.
pub type Day<'a> = (Morning, &'a [Deed]);

/// The boots of a campaign, and the client's script in each.
#[derive(Drop)]
struct Campaign {
    plans: Vec<BootPlan>,
    scripts: Vec<Listed<Listed<Item>>>,
}

fn plan(alloc: Global, morning: &Morning) -> Result<BootPlan, Fail>
    ensures { IfOk result (λ plan. plan.time ≤ 2 ^ 63 - 1) }
{
    let mut absent = Vec::new(alloc);
    if let Some(board) = morning.absent {
        absent.push(board)?;
    }
    Ok(BootPlan {
        time: u64::from(morning.time),
        limit: morning.limit,
        absent: Listed::of(absent),
    })
}

fn item(deed: &Deed) -> Item
    ensures { IsScriptItem result }
{
    match deed {
        Deed::Install(request) => Item::Install(*request),
        Deed::Settle(device) => Item::Settle(*device),
        Deed::Plug(device) => Item::Plug(*device),
    }
}

fn items(alloc: Global, deeds: &[Deed]) -> Result<Vec<Item>, Fail>
    ensures { IfOk result (λ items. All IsScriptItem items.items) }
{
    // The checker of borrows wants the types of an item's parts among the locals.
    let _device: Option<Selector> = None;
    let _query: Option<Query> = None;
    let _request: Option<Request> = None;
    let _retry_of: Option<u32> = None;
    let mut items = Vec::new(alloc);
    for deed in deeds {
        items.push(item(deed))?;
    }
    Ok(items)
}

// The scripts of a boot, of which there is one.
fn script(alloc: Global, deeds: &[Deed]) -> Result<Listed<Listed<Item>>, Fail>
    ensures proper { IfOk result (All (All IsScriptItem)) }
    ensures one { IfOk result (λ of_boot. length of_boot ≡ 1) }
{
    let items = items(alloc, deeds)?;
    let mut of_boot = Vec::new(alloc);
    of_boot.push(Listed::of(items))?;
    Ok(Listed::of(of_boot))
}

fn campaign_of(alloc: Global, days: &[Day]) -> Result<Campaign, Fail>
    ensures timely { IfOk result (λ c. All (λ plan. plan.time ≤ 2 ^ 63 - 1) c.plans.items) }
    ensures proper { IfOk result (λ c. All (All (All IsScriptItem)) c.scripts.items) }
    ensures one { IfOk result (λ c. All (λ of_boot. length of_boot ≡ 1) c.scripts.items) }
{
    let mut plans = Vec::new(alloc);
    let mut scripts = Vec::new(alloc);
    for (morning, deeds) in days {
        plans.push(plan(alloc, morning)?)?;
        scripts.push(script(alloc, deeds)?)?;
    }
    Ok(Campaign { plans, scripts })
}

// Runs a campaign on a new house. Each boot begins, and memory isn't wanting.
fn run<R: Abort + Threads + Wait + Sync>(
    rt: &R,
    alloc: Global,
    house: House<MemoryKeeper>,
    shelves: Vec<MemoryShelf>,
    plugins: Vec<Box<dyn Plugin>>,
    campaign: &Campaign,
) -> House<MemoryKeeper>
    requires new { house.house_log.core.log ≡ [] }
    requires unread { house.house_log.loaded ≡ false }
    requires blank { house.house_log.opening ≡ [] }
    requires shelf { length shelves.items ≡ 1 }
    requires timely { All (λ plan. plan.time ≤ 2 ^ 63 - 1) campaign.now.plans.items }
    requires proper { All (All (All IsScriptItem)) campaign.now.scripts.items }
    requires one { All (λ of_boot. length of_boot ≡ 1) campaign.now.scripts.items }
    ensures { live (past result) ≡ [] }
{
    assert!(rt; house.facts().vetoes.items().len() <= plugins.len());
    assert!(rt; campaign.plans.len() < 100);
    let (house, ran, _shelves) = run_on_threads(
        rt,
        alloc,
        house,
        shelves,
        plugins,
        &NoGate,
        &campaign.plans,
        &campaign.scripts,
    );
    assert_eq!(rt; (ran.ending, ran.wanting), (Ending::Whole, false));
    house
}

/// Plays these days over a new house of the scene, after these rows, where these calls of the keeper fail, each with
/// whether its change is made after all. Gives the log, and what is left.
pub fn play<R: Abort + Threads + Wait + Sync>(
    rt: &R,
    alloc: Global,
    scene: &Scene,
    rows: Vec<Row>,
    failing: &[(u32, bool)],
    days: &[Day],
) -> Result<(Log, Left), Fail>
    requires { scene.now.pool ≤ 16384 }
{
    let campaign = campaign_of(alloc, days)?;
    let plugins = plugins(alloc, scene.kind)?;
    let shelves = shelves(alloc)?;
    let house = house(rt, alloc, scene, rows, failing)?;
    Ok(close(run(rt, alloc, house, shelves, plugins, &campaign)))
}
