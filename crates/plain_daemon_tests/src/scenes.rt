//! What these tests play on: a house of two boards, the shelf with their payloads, and the plugin.
ghost use Rattle.std.specs.Prelude.{◌≡◌, ◌≤◌, [], ℕ, false, None, Some, IfOk, length, slice_get};
ghost use Rattle.emulated_boards.specs.Boards.{BoardState};
ghost use Rattle.daemon_core.specs.House.{IsNewBoard};

use block_pool::Pool;
use board_plugins::{Capsule, Flash, Loader};
use daemon_core::House;
use emulated_boards::{Board, BoardFault, PlannedFault};
use fw_base::{Line, Listed, Name};
use fw_facts::{Component, DeviceFlag, DeviceFlags, MachineFacts, Release, Requirement, Sheet};
use guid_ids::{Guid, device_id, guid_of};
use history_keeper::{KeeperPlan, MemoryKeeper, Row};
use outer_traits::MemoryShelf;
use plugin_trait::Plugin;
use release_catalogue::Catalogue;
use sha2::{Digest as _, Sha256};
use std::alloc::Global;
use std::process::Abort;
use std::test::Fail;
use update_log::{Facts, PluginVetoes};
use version_formats::{Format, Version};

const OLD: &[u8] = b"EMU1 01000000\n";

const NEW: &[u8] = b"EMU1 01010000\n";

/// The plugin of both boards.
#[derive(Clone, Copy)]
pub enum Kind {
    Flash,
    Loader,
    Capsule,
}

/// What the firmware of a board wants.
#[derive(Clone, Copy)]
pub enum Wants {
    Nothing,
    /// The first board's wants the second one there.
    SecondThere,
}

/// What a test is about.
#[derive(Clone, Copy)]
pub struct Scene {
    pub kind: Kind,
    /// A flag that the boards have beside `updatable`.
    pub flag: Option<DeviceFlag>,
    /// The fault of the first board's first call.
    pub fault: Option<BoardFault>,
    pub wants: Wants,
    /// How many blocks the pool has.
    pub pool: u32,
    /// How many bytes the catalogue says of the payload of version 1.1.0.
    pub size: u32,
}

/// Two boards of the plugin `flash`, of which nothing is wanted and which meet no fault.
pub const PLAIN: Scene = Scene {
    kind: Kind::Flash,
    flag: None,
    fault: None,
    wants: Wants::Nothing,
    pool: 16,
    size: 14,
};

fn plugin_name(kind: Kind) -> &'static str {
    match kind {
        Kind::Flash => "flash",
        Kind::Loader => "loader",
        Kind::Capsule => "capsule",
    }
}

fn flags(flag: Option<DeviceFlag>) -> DeviceFlags {
    let updatable = DeviceFlags::empty().with(DeviceFlag::Updatable);
    match flag {
        Some(flag) => updatable.with(flag),
        None => updatable,
    }
}

/// The names on a sheet.
#[derive(Clone, Copy)]
struct Names {
    port: Name,
    plugin: Name,
    parent: Option<Name>,
}

fn read_names(kind: Kind, port: &str, parent: Option<&str>) -> Result<Names, Fail> {
    let parent = match parent {
        Some(parent) => Some(Name::read(parent.as_bytes())?),
        None => None,
    };
    Ok(Names {
        port: Name::read(port.as_bytes())?,
        plugin: Name::read(plugin_name(kind).as_bytes())?,
        parent,
    })
}

fn one_guid(alloc: Global, port: &str) -> Result<Listed<Guid>, Fail> {
    let mut guids = Vec::new(alloc);
    guids.push(guid_of(port.as_bytes()))?;
    Ok(Listed::of(guids))
}

fn sheet(alloc: Global, scene: &Scene, port: &str, parent: Option<&str>) -> Result<Sheet, Fail> {
    let names = read_names(scene.kind, port, parent)?;
    let runtime_guids = one_guid(alloc, port)?;
    Ok(Sheet {
        port: names.port,
        device: device_id(port.as_bytes(), None),
        priority: 0,
        plugin: names.plugin,
        name: Line::empty(),
        vendor: Line::empty(),
        vendor_ids: Listed::of(Vec::new(alloc)),
        runtime_guids,
        loader_guids: Listed::of(Vec::new(alloc)),
        counterparts: Listed::of(Vec::new(alloc)),
        flags: flags(scene.flag),
        format: Format::Triplet,
        protocol: None,
        bootloader: None,
        size_min: 0,
        size_max: 4_194_304,
        duration: 0,
        parent: names.parent,
        unreachable: false,
        power_low: false,
        lid: false,
    })
}

fn sheets(alloc: Global, scene: &Scene) -> Result<Vec<Sheet>, Fail>
    ensures { IfOk result (λ sheets. length sheets.items ≡ 2) }
{
    let mut sheets = Vec::new(alloc);
    sheets.push(sheet(alloc, scene, "usb1", None)?)?;
    sheets.push(sheet(alloc, scene, "usb2", Some("usb1"))?)?;
    Ok(sheets)
}

fn release(version: &[u8], payload: &[u8], size: u32) -> Result<Release, Fail> {
    Ok(Release {
        version: Version::read(version)?,
        urgency: Name::read(b"unknown")?,
        digest: Sha256::digest(payload),
        size,
    })
}

fn releases(alloc: Global, size: u32) -> Result<Vec<Release>, Fail>
    ensures { IfOk result (λ releases. length releases.items ≡ 2) }
{
    let mut releases = Vec::new(alloc);
    releases.push(release(b"1.1.0", NEW, size)?)?;
    releases.push(release(b"1.0.0", OLD, 14)?)?;
    Ok(releases)
}

fn component(
    alloc: Global,
    port: &str,
    size: u32,
    requirements: Vec<Requirement>,
) -> Result<Component, Fail>
    ensures releases { IfOk result (λ c. length c.releases ≡ 2) }
    ensures requirements { IfOk result (λ c. c.requirements ≡ requirements.items) }
{
    let id = Name::read(port.as_bytes())?;
    let provides = one_guid(alloc, port)?;
    let releases = releases(alloc, size)?;
    Ok(Component {
        id,
        name: Line::empty(),
        provides,
        requirements: Listed::of(requirements),
        format: None,
        protocol: None,
        releases: Listed::of(releases),
    })
}

fn wanted_of_first(alloc: Global, wants: Wants) -> Result<Vec<Requirement>, Fail>
    ensures { IfOk result (λ all. length all.items ≤ 1) }
{
    let mut all = Vec::new(alloc);
    if let Wants::SecondThere = wants {
        all.push(Requirement::Device {
            guid: guid_of(b"usb2"),
            test: None,
        })?;
    }
    Ok(all)
}

fn catalogue(alloc: Global, scene: &Scene) -> Result<Catalogue, Fail> {
    let wanted = wanted_of_first(alloc, scene.wants)?;
    let first = component(alloc, "usb1", scene.size, wanted)?;
    let second = component(alloc, "usb2", scene.size, Vec::new(alloc))?;
    let mut components = Vec::new(alloc);
    components.push(first)?;
    components.push(second)?;
    Ok(Catalogue::of(alloc, components)?)
}

/// The plugin of the boards, without a rule.
fn vetoes(alloc: Global, kind: Kind) -> Result<Listed<PluginVetoes>, Fail> {
    let plugin = Name::read(plugin_name(kind).as_bytes())?;
    let mut vetoes = Vec::new(alloc);
    vetoes.push(PluginVetoes {
        plugin,
        rules: Listed::of(Vec::new(alloc)),
    })?;
    Ok(Listed::of(vetoes))
}

fn facts(alloc: Global, scene: &Scene) -> Result<Facts, Fail>
    ensures sheets { IfOk result (λ facts. length facts.sheets ≡ 2) }
    ensures pool { IfOk result (λ facts. facts.pool ≡ scene.now.pool) }
{
    let vetoes = vetoes(alloc, scene.kind)?;
    let catalogue = catalogue(alloc, scene)?;
    let sheets = sheets(alloc, scene)?;
    Ok(Facts {
        machine: MachineFacts {
            ids: Listed::of(Vec::new(alloc)),
            hardware: Listed::of(Vec::new(alloc)),
            on_ac: true,
            power_low: false,
            lid_closed: false,
        },
        catalogue,
        features: Listed::of(Vec::new(alloc)),
        vetoes,
        sheets: Listed::of(sheets),
        pool: scene.pool,
    })
}

// A board whose first call has this fault.
fn faulty_board(alloc: Global, fault: BoardFault) -> Result<Board, Fail>
    ensures { IfOk result IsNewBoard }
{
    let mut planned = Vec::new(alloc);
    planned.push(PlannedFault { call: 1, fault })?;
    Ok(Board::new(alloc, OLD, planned))
}

fn new_board(alloc: Global) -> Board
    ensures { IsNewBoard result }
{
    Board::new(alloc, OLD, Vec::new(alloc))
}

fn first_board(alloc: Global, fault: Option<BoardFault>) -> Result<Board, Fail>
    ensures { IfOk result IsNewBoard }
{
    match fault {
        Some(fault) => faulty_board(alloc, fault),
        None => Ok(new_board(alloc)),
    }
}

fn boards(alloc: Global, fault: Option<BoardFault>) -> Result<Vec<Board>, Fail>
    ensures count { IfOk result (λ boards. length boards.items ≡ 2) }
    ensures fresh { IfOk result (λ boards. (number : ℕ) (b : BoardState) → slice_get boards.items number ≡ Some b → IsNewBoard b) }
{
    let first = first_board(alloc, fault)?;
    let mut boards = Vec::new(alloc);
    boards.push(first)?;
    boards.push(new_board(alloc))?;
    Ok(boards)
}

/// The plugin of a scene's boards.
pub fn plugins(alloc: Global, kind: Kind) -> Result<Vec<Box<dyn Plugin>>, Fail> {
    let mut plugins: Vec<Box<dyn Plugin>> = Vec::new(alloc);
    match kind {
        Kind::Flash => plugins.push(Box::new(alloc, Flash::new(alloc)?)?)?,
        Kind::Loader => plugins.push(Box::new(alloc, Loader::new(alloc)?)?)?,
        Kind::Capsule => plugins.push(Box::new(alloc, Capsule::new(alloc)?)?)?,
    }
    Ok(plugins)
}

// A shelf with the payloads of both versions.
fn shelf(alloc: Global) -> Result<MemoryShelf, Fail> {
    let mut files = Vec::new(alloc);
    files.push((Sha256::digest(OLD), Vec::from_slice(alloc, OLD)?))?;
    files.push((Sha256::digest(NEW), Vec::from_slice(alloc, NEW)?))?;
    Ok(MemoryShelf::new(files, Vec::new(alloc)))
}

/// The client's shelf.
pub fn shelves(alloc: Global) -> Result<Vec<MemoryShelf>, Fail>
    ensures { IfOk result (λ shelves. length shelves.items ≡ 1) }
{
    let mut shelves = Vec::new(alloc);
    shelves.push(shelf(alloc)?)?;
    Ok(shelves)
}

// The calls that fail, each with whether its change is kept.
fn planned(alloc: Global, failing: &[(u32, bool)]) -> Result<Vec<KeeperPlan>, Fail> {
    let mut planned = Vec::new(alloc);
    for (call, keep) in failing {
        planned.push(KeeperPlan {
            call: *call,
            keep: *keep,
        })?;
    }
    Ok(planned)
}

/// The house of a scene, before its first boot, over a keeper of these rows whose planned calls fail.
pub fn house<R: Abort>(
    rt: &R,
    alloc: Global,
    scene: &Scene,
    rows: Vec<Row>,
    failing: &[(u32, bool)],
) -> Result<House<MemoryKeeper>, Fail>
    requires { scene.now.pool ≤ 16384 }
    ensures new { IfOk result (λ house. house.house_log.core.log ≡ []) }
    ensures unread { IfOk result (λ house. house.house_log.loaded ≡ false) }
    ensures blank { IfOk result (λ house. house.house_log.opening ≡ []) }
{
    let facts = facts(alloc, scene)?;
    let boards = boards(alloc, scene.fault)?;
    let failing = planned(alloc, failing)?;
    let pool = Pool::new(alloc, facts.pool)?;
    let keeper = MemoryKeeper::new(rows, failing);
    match House::new(alloc, facts, boards, pool, keeper) {
        Ok(house) => Ok(house),
        Err(_refused) => panic!(rt; "no memory"),
    }
}
