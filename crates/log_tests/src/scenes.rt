//! What the tests ask of: two boards of one kind, and a request that something may hinder.
ghost use Rattle.std.specs.Prelude.{◌≡◌, IfOk, OnOk, length};
ghost use Rattle.history_keeper.specs.Histories.{IsHistory};

use device_list::Selector;
use fw_base::{Line, Listed, Name};
use fw_facts::{DeviceFlag, DeviceFlags, MachineFacts, MachineTest, Sheet, VetoRule};
use guid_ids::{Guid, device_id, guid_of};
use history_keeper::{Row, RowState, first_faulty};
use json_values::Scratch;
use log_stories::Story;
use release_catalogue::{Catalogue, ReleaseRef};
use std::alloc::Global;
use std::slice;
use std::test::Fail;
use update_log::{Facts, InstallFlags, PluginVetoes, Request};
use version_formats::{Format, Version};

/// A hub whose releases want a client with a feature. Each takes two blocks.
const COMPONENTS: &str = r#"[{"id":"com.example.hub",
"provides":["2082b5e0-7a64-478a-b1b2-e3404fab6dad"],
"requires":[{"tag":"client","text":"detach-action"}],
"releases":[
{"version":"1.2.0","sha256":"0a0a0a0a0a0a0a0a0a0a0a0a0a0a0a0a0a0a0a0a0a0a0a0a0a0a0a0a0a0a0a0a","size":8192},
{"version":"1.1.0","sha256":"0b0b0b0b0b0b0b0b0b0b0b0b0b0b0b0b0b0b0b0b0b0b0b0b0b0b0b0b0b0b0b0b","size":8192},
{"version":"1.0.0","sha256":"0c0c0c0c0c0c0c0c0c0c0c0c0c0c0c0c0c0c0c0c0c0c0c0c0c0c0c0c0c0c0c0c","size":8192}]}]"#;

/// What both boards show: 1.1.0.
pub const SHOWN: u32 = 0x0101_0000;

/// What hinders a request: all that has this number or a greater one, in the order of the refusals.
/// The tag that was taken has number 0, and from 14 on nothing hinders.
#[derive(Clone, Copy)]
pub struct Level(pub u32);

impl Level {
    /// Whether the condition with this number hinders.
    pub fn has(self, number: u32) -> bool {
        self.0 <= number
    }
}

fn hub_guid() -> Guid {
    guid_of(b"2082b5e0-7a64-478a-b1b2-e3404fab6dad")
}

fn flags_at(level: Level) -> DeviceFlags {
    let mut flags = DeviceFlags::empty();
    if !level.has(5) {
        flags = flags.with(DeviceFlag::Updatable);
    }
    if level.has(6) {
        flags = flags.with(DeviceFlag::Locked);
    }
    flags
}

fn sheet(alloc: Global, port: &str, level: Level) -> Result<Sheet, Fail> {
    let name = Name::read(port.as_bytes())?;
    let plugin = Name::read(b"flash")?;
    let guids = Vec::from_slice(alloc, &[hub_guid()])?;
    Ok(Sheet {
        port: name,
        device: device_id(port.as_bytes(), None),
        priority: 0,
        plugin,
        name: Line::empty(),
        vendor: Line::empty(),
        vendor_ids: Listed::of(Vec::new(alloc)),
        runtime_guids: Listed::of(guids),
        loader_guids: Listed::of(Vec::new(alloc)),
        counterparts: Listed::of(Vec::new(alloc)),
        flags: flags_at(level),
        format: Format::Triplet,
        protocol: None,
        bootloader: None,
        size_min: 0,
        size_max: if level.has(12) { 8191 } else { 8192 },
        duration: 0,
        parent: None,
        unreachable: level.has(7),
        power_low: false,
        lid: false,
    })
}

fn sheets(alloc: Global, level: Level) -> Result<Vec<Sheet>, Fail>
    ensures { IfOk result (λ sheets. length sheets.items ≡ 2) }
{
    let mut sheets = Vec::new(alloc);
    sheets.push(sheet(alloc, "usb1", level)?)?;
    sheets.push(sheet(alloc, "usb2", level)?)?;
    Ok(sheets)
}

fn catalogue(alloc: Global) -> Result<Catalogue, Fail> {
    let mut scratch = Scratch::new(alloc);
    let value = json_values::read(alloc, COMPONENTS.as_bytes(), &mut scratch)?;
    Ok(Catalogue::from_value(alloc, &value)?)
}

/// A rule that forbids each update, where it hinders.
fn rules(alloc: Global, level: Level) -> Result<Vec<VetoRule>, Fail> {
    let mut rules = Vec::new(alloc);
    if level.has(11) {
        rules.push(VetoRule {
            when: MachineTest::Always,
            flags: DeviceFlags::empty(),
        })?;
    }
    Ok(rules)
}

fn vetoes(alloc: Global, level: Level) -> Result<Vec<PluginVetoes>, Fail> {
    let plugin = Name::read(b"flash")?;
    let rules = rules(alloc, level)?;
    let mut vetoes = Vec::new(alloc);
    vetoes.push(PluginVetoes {
        plugin,
        rules: Listed::of(rules),
    })?;
    Ok(vetoes)
}

/// The features of a client that has the one that is wanted.
fn wanted(alloc: Global) -> Result<Listed<Name>, Fail> {
    let feature = Name::read(b"detach-action")?;
    Ok(Listed::of(Vec::from_slice(alloc, &[feature])?))
}

/// Client 1 has no feature, clients 2 and 3 have the one that is wanted.
fn features(alloc: Global) -> Result<Vec<Listed<Name>>, Fail> {
    let mut features = Vec::new(alloc);
    features.push(Listed::of(Vec::new(alloc)))?;
    features.push(wanted(alloc)?)?;
    features.push(wanted(alloc)?)?;
    Ok(features)
}

fn machine(alloc: Global) -> MachineFacts {
    MachineFacts {
        ids: Listed::of(Vec::new(alloc)),
        hardware: Listed::of(Vec::new(alloc)),
        on_ac: true,
        power_low: false,
        lid_closed: false,
    }
}

/// The facts of the machine, whose pool has so many blocks.
fn facts(alloc: Global, level: Level, pool: u32) -> Result<Facts, Fail>
    ensures { IfOk result (λ facts. length facts.sheets ≡ 2) }
{
    let catalogue = catalogue(alloc)?;
    let features = features(alloc)?;
    let vetoes = vetoes(alloc, level)?;
    let sheets = sheets(alloc, level)?;
    Ok(Facts {
        machine: machine(alloc),
        catalogue,
        features: Listed::of(features),
        vetoes: Listed::of(vetoes),
        sheets: Listed::of(sheets),
        pool,
    })
}

/// A row of the first board's device, that a client asked for.
pub fn row(
    entry: u32,
    tag: &str,
    client: u32,
    state: RowState,
    digest: [u8; 32],
) -> Result<Row, Fail> {
    let tag = Name::read(tag.as_bytes())?;
    let component = Name::read(b"com.example.hub")?;
    let version_old = Version::read(b"1.1.0")?;
    let version_new = Version::read(b"1.2.0")?;
    Ok(Row {
        entry,
        tag,
        client,
        device: device_id(b"usb1", None),
        component,
        version_old,
        version_new,
        digest,
        flags: 1,
        state,
        reason: 0,
        time_added: 7,
        time_changed: 7,
        duration: 0,
        protocol: None,
        retry_of: None,
    })
}

/// Puts such a row behind the others.
pub fn put(
    rows: &mut Vec<Row>,
    entry: u32,
    tag: &str,
    client: u32,
    state: RowState,
    digest: [u8; 32],
) -> Result<(), Fail> {
    let row = row(entry, tag, client, state, digest)?;
    rows.extend_from_slice(slice::from_ref(&row))?;
    Ok(())
}

/// The rows that hinder a request.
fn rows_at(alloc: Global, level: Level) -> Result<Vec<Row>, Fail> {
    let mut rows = Vec::new(alloc);
    if level.has(4) {
        let tag = if level.has(0) { "t1" } else { "earlier" };
        put(&mut rows, 1, tag, 2, RowState::Begun, [10; 32])?;
    }
    Ok(rows)
}

/// Fails where the rows are no history.
fn told_valid(alloc: Global, rows: &[Row]) -> Result<(), Fail>
    ensures { OnOk result (IsHistory rows.now) }
{
    match first_faulty(alloc, rows)? {
        None => Ok(()),
        Some(_) => Ok(Err("the rows are no history")?),
    }
}

/// The machine is booted over these rows.
pub fn story_over(alloc: Global, level: Level, pool: u32, rows: Vec<Row>) -> Result<Story, Fail> {
    told_valid(alloc, &rows)?;
    let facts = facts(alloc, level, pool)?;
    Ok(Story::booted(alloc, facts, rows, &[SHOWN, SHOWN])?)
}

/// How many blocks the pool has. A release takes two.
pub fn pool_at(level: Level) -> u32 {
    if level.has(13) { 1 } else { 2 }
}

/// The machine is booted, where that much hinders a request.
pub fn story_at(alloc: Global, level: Level) -> Result<Story, Fail> {
    story_over(alloc, level, pool_at(level), rows_at(alloc, level)?)
}

/// A request for a version on the board in a port.
pub fn request(tag: &str, port: &str, version: &str) -> Result<Request, Fail> {
    let tag = Name::read(tag.as_bytes())?;
    let device = Selector::Port(Name::read(port.as_bytes())?);
    let version = Version::read(version.as_bytes())?;
    Ok(Request {
        tag,
        device,
        version,
        flags: InstallFlags {
            offline: false,
            allow_reinstall: false,
            allow_older: false,
        },
        retry_of: None,
    })
}

/// The request that so much hinders.
pub fn request_at(level: Level) -> Result<Request, Fail> {
    let port = if level.has(1) { "usb3" } else { "usb1" };
    request("t1", port, version_at(level))
}

fn version_at(level: Level) -> &'static str {
    if level.has(2) {
        "9.9.9"
    } else if level.has(8) {
        "1.1.0"
    } else if level.has(9) {
        "1.0.0"
    } else {
        "1.2.0"
    }
}

/// The release of the version that is asked for, where there is one.
pub fn release_at(level: Level) -> ReleaseRef {
    let release = if level.has(8) {
        1
    } else if level.has(9) {
        2
    } else {
        0
    };
    ReleaseRef {
        component: 0,
        release,
    }
}

/// The client whose request so much hinders.
pub fn client_at(level: Level) -> u32 {
    if level.has(10) { 1 } else { 2 }
}
