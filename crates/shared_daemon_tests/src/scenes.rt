//! What these tests play on: two boards in a house that was booted, the shelf with their payload, and the
//! plugin.
ghost use Rattle.std.specs.Prelude.{◌≡◌, ◌≤◌, [], ℕ, None, Some, IfOk, length, slice_get};
ghost use Rattle.emulated_boards.specs.Boards.{BoardState};
ghost use Rattle.history_keeper.specs.Signs.{signs_of};
ghost use Rattle.daemon_core.specs.House.{IsNewBoard};
ghost use Rattle.daemon_tasks.specs.Begins.{CanBegin};

use crate::days::{Asks, Plan, day};
use block_pool::Pool;
use board_plugins::Flash;
use daemon_core::House;
use device_list::Selector;
use emulated_boards::Board;
use fw_base::{Line, Listed, Name};
use fw_facts::{Component, DeviceFlag, DeviceFlags, MachineFacts, Release, Requirement, Sheet};
use guid_ids::{Guid, device_id, guid_of};
use history_keeper::{Keeper, MemoryKeeper};
use outer_traits::{Gate, MemoryShelf};
use plugin_trait::Plugin;
use release_catalogue::Catalogue;
use sha2::{Digest as _, Sha256};
use std::alloc::Global;
use std::marker::Brand;
use std::process::Abort;
use std::sync::Wait;
use std::test::Fail;
use update_log::{BootPlan, Facts, InstallFlags, PluginVetoes, Refusal, Request};
use version_formats::{Format, Version};

const OLD: &[u8] = b"EMU1 01000000\n";

/// The payload of version 1.1.0.
pub const NEW: &[u8] = b"EMU1 01010000\n";

/// What a test is about.
#[derive(Clone, Copy)]
pub struct Scene {
    pub plan: Plan,
    /// Whether the second board's firmware wants its parent, which is the first board.
    pub wants_parent: bool,
    /// How many blocks the pool has.
    pub pool: u32,
    /// The port for which the second client asks.
    pub second: &'static str,
}

/// The names on a sheet.
#[derive(Clone, Copy)]
struct Names {
    port: Name,
    plugin: Name,
    parent: Option<Name>,
}

fn read_names(port: &str, parent: Option<&str>) -> Result<Names, Fail> {
    let parent = match parent {
        Some(parent) => Some(Name::read(parent.as_bytes())?),
        None => None,
    };
    Ok(Names {
        port: Name::read(port.as_bytes())?,
        plugin: Name::read(b"flash")?,
        parent,
    })
}

fn one_guid(alloc: Global, port: &str) -> Result<Listed<Guid>, Fail> {
    let mut guids = Vec::new(alloc);
    guids.push(guid_of(port.as_bytes()))?;
    Ok(Listed::of(guids))
}

fn sheet(alloc: Global, port: &str, parent: Option<&str>) -> Result<Sheet, Fail> {
    let names = read_names(port, parent)?;
    let runtime_guids = one_guid(alloc, port)?;
    Ok(Sheet {
        port: names.port,
        device: device_id(port.as_bytes(), None),
        priority: 0,
        plugin: names.plugin,
        name: Line::empty(),
        vendor: Line::empty(),
        vendor_ids: Listed::of(Vec::new(alloc)),
        runtime_guids,
        loader_guids: Listed::of(Vec::new(alloc)),
        counterparts: Listed::of(Vec::new(alloc)),
        flags: DeviceFlags::empty().with(DeviceFlag::Updatable),
        format: Format::Triplet,
        protocol: None,
        bootloader: None,
        size_min: 0,
        size_max: 4_194_304,
        duration: 0,
        parent: names.parent,
        unreachable: false,
        power_low: false,
        lid: false,
    })
}

fn sheets(alloc: Global) -> Result<Vec<Sheet>, Fail>
    ensures { IfOk result (λ sheets. length sheets.items ≡ 2) }
{
    let mut sheets = Vec::new(alloc);
    sheets.push(sheet(alloc, "usb1", None)?)?;
    sheets.push(sheet(alloc, "usb2", Some("usb1"))?)?;
    Ok(sheets)
}

fn releases(alloc: Global) -> Result<Vec<Release>, Fail>
    ensures { IfOk result (λ releases. length releases.items ≡ 1) }
{
    let version = Version::read(b"1.1.0")?;
    let urgency = Name::read(b"unknown")?;
    let mut releases = Vec::new(alloc);
    releases.push(Release {
        version,
        urgency,
        digest: Sha256::digest(NEW),
        size: 14,
    })?;
    Ok(releases)
}

fn component(alloc: Global, port: &str, requirements: Vec<Requirement>) -> Result<Component, Fail>
    ensures releases { IfOk result (λ c. length c.releases ≡ 1) }
    ensures requirements { IfOk result (λ c. c.requirements ≡ requirements.items) }
{
    let id = Name::read(port.as_bytes())?;
    let provides = one_guid(alloc, port)?;
    let releases = releases(alloc)?;
    Ok(Component {
        id,
        name: Line::empty(),
        provides,
        requirements: Listed::of(requirements),
        format: None,
        protocol: None,
        releases: Listed::of(releases),
    })
}

fn requirements(alloc: Global, wants_parent: bool) -> Result<Vec<Requirement>, Fail>
    ensures { IfOk result (λ all. length all.items ≤ 1) }
{
    let mut all = Vec::new(alloc);
    if wants_parent {
        all.push(Requirement::Ancestor {
            depth: 1,
            guid: guid_of(b"usb1"),
            test: None,
        })?;
    }
    Ok(all)
}

fn catalogue(alloc: Global, wants_parent: bool) -> Result<Catalogue, Fail> {
    let first = component(alloc, "usb1", Vec::new(alloc))?;
    let second = component(alloc, "usb2", requirements(alloc, wants_parent)?)?;
    let mut components = Vec::new(alloc);
    components.push(first)?;
    components.push(second)?;
    Ok(Catalogue::of(alloc, components)?)
}

/// The plugin of the boards, without a rule.
fn vetoes(alloc: Global) -> Result<Listed<PluginVetoes>, Fail> {
    let plugin = Name::read(b"flash")?;
    let mut vetoes = Vec::new(alloc);
    vetoes.push(PluginVetoes {
        plugin,
        rules: Listed::of(Vec::new(alloc)),
    })?;
    Ok(Listed::of(vetoes))
}

/// The facts of a machine with these two boards, and of a pool of so many blocks.
pub fn facts(alloc: Global, wants_parent: bool, pool: u32) -> Result<Facts, Fail>
    ensures sheets { IfOk result (λ facts. length facts.sheets ≡ 2) }
    ensures pool { IfOk result (λ facts. facts.pool ≡ pool) }
{
    let vetoes = vetoes(alloc)?;
    let catalogue = catalogue(alloc, wants_parent)?;
    let sheets = sheets(alloc)?;
    Ok(Facts {
        machine: MachineFacts {
            ids: Listed::of(Vec::new(alloc)),
            hardware: Listed::of(Vec::new(alloc)),
            on_ac: true,
            power_low: false,
            lid_closed: false,
        },
        catalogue,
        features: Listed::of(Vec::new(alloc)),
        vetoes,
        sheets: Listed::of(sheets),
        pool,
    })
}

fn new_board(alloc: Global) -> Board
    ensures { IsNewBoard result }
{
    Board::new(alloc, OLD, Vec::new(alloc))
}

/// The two boards, as they are made.
pub fn boards(alloc: Global) -> Result<Vec<Board>, Fail>
    ensures count { IfOk result (λ boards. length boards.items ≡ 2) }
    ensures fresh { IfOk result (λ boards. (number : ℕ) (b : BoardState) → slice_get boards.items number ≡ Some b → IsNewBoard b) }
{
    let mut boards = Vec::new(alloc);
    boards.push(new_board(alloc))?;
    boards.push(new_board(alloc))?;
    Ok(boards)
}

/// A house of these facts and boards, booted once.
pub fn booted<R: Abort, K: Keeper>(
    rt: &R,
    alloc: Global,
    facts: Facts,
    boards: Vec<Board>,
    keeper: K,
) -> House<K>
    requires few { length facts.sheets ≤ 256 }
    requires count { length boards.items ≡ length facts.sheets }
    requires fresh { (number : ℕ) (b : BoardState) → slice_get boards.items number ≡ Some b → IsNewBoard b }
    requires no_doubt { K.doubt keeper ≡ None }
    requires pool { facts.pool ≤ 16384 }
    ensures { CanBegin (signs_of K.tells K.doubt K.faults) result }
{
    let Ok(pool) = Pool::new(alloc, facts.pool) else {
        panic!(rt; "no memory")
    };
    let mut house = match House::new(alloc, facts, boards, pool, keeper) {
        Ok(house) => house,
        Err(_refused) => panic!(rt; "no memory"),
    };
    let plan = BootPlan {
        time: 1000,
        limit: None,
        absent: Listed::of(Vec::new(alloc)),
    };
    match house.boot(alloc, &plan) {
        Ok(()) => house,
        Err(_) => panic!(rt; "the boot failed"),
    }
}

/// A day of a daemon round a house that was booted.
fn named_day<R: Abort + Wait, K: Keeper + Drop, G: Gate>(
    rt: &R,
    alloc: Global,
    house: House<K>,
    shelf: &mut MemoryShelf,
    asks: &Asks<G>,
) -> Refusal
    requires { CanBegin (signs_of K.tells K.doubt K.faults) house }
{
    house.known();
    day::<R, K, Brand, G>(rt, alloc, house, shelf, asks)
}

fn request(tag: &[u8], port: &str) -> Result<Request, Fail> {
    let tag = Name::read(tag)?;
    let port = Name::read(port.as_bytes())?;
    let version = Version::read(b"1.1.0")?;
    Ok(Request {
        tag,
        device: Selector::Port(port),
        version,
        flags: InstallFlags {
            offline: false,
            allow_reinstall: false,
            allow_older: false,
        },
        retry_of: None,
    })
}

/// A shelf with the payload of version 1.1.0.
pub fn shelf(alloc: Global) -> Result<MemoryShelf, Fail> {
    let mut files = Vec::new(alloc);
    let bytes = Vec::from_slice(alloc, NEW)?;
    files.push((Sha256::digest(NEW), bytes))?;
    Ok(MemoryShelf::new(files, Vec::new(alloc)))
}

/// The plugin of both boards.
pub fn plugins(alloc: Global) -> Result<Vec<Box<dyn Plugin>>, Fail> {
    let mut plugins: Vec<Box<dyn Plugin>> = Vec::new(alloc);
    plugins.push(Box::new(alloc, Flash::new(alloc)?)?)?;
    Ok(plugins)
}

/// Plays a scene with what its clients ask, and tells why the second one was refused.
fn refused_of<R: Abort + Wait, G: Gate>(
    rt: &R,
    alloc: Global,
    scene: &Scene,
    asks: &Asks<G>,
) -> Result<Refusal, Fail>
    requires { scene.now.pool ≤ 16384 }
{
    let facts = facts(alloc, scene.wants_parent, scene.pool)?;
    let boards = boards(alloc)?;
    let mut shelf = shelf(alloc)?;
    let keeper = MemoryKeeper::new(Vec::new(alloc), Vec::new(alloc));
    let house = booted(rt, alloc, facts, boards, keeper);
    Ok(named_day(rt, alloc, house, &mut shelf, asks))
}

/// Plays a scene, and tells why the second client was refused.
pub fn refused<R: Abort + Wait, G: Gate>(
    rt: &R,
    alloc: Global,
    scene: &Scene,
    gate: &G,
) -> Result<Refusal, Fail>
    requires { scene.now.pool ≤ 16384 }
{
    let first = request(b"t1", "usb1")?;
    let second = request(b"t2", scene.second)?;
    let plugins = plugins(alloc)?;
    let asks = Asks {
        plan: scene.plan,
        first: &first,
        second: &second,
        plugins: plugins.as_slice(),
        gate,
    };
    refused_of(rt, alloc, scene, &asks)
}
