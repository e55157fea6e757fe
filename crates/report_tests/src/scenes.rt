//! What the tests ask of: a machine with hubs, their releases, and the rows of earlier runs.
ghost use Rattle.std.specs.Prelude.{◌≡◌, ◌≤◌, OnOk, length};
ghost use Rattle.history_keeper.specs.Histories.{IsHistory};

use device_list::Selector;
use fw_base::{Line, Listed, Name};
use fw_facts::{DeviceFlag, DeviceFlags, MachineFacts, Sheet};
use guid_ids::{Guid, device_id, guid_of};
use history_keeper::{Row, RowState, first_faulty};
use json_values::Scratch;
use log_stories::Story;
use release_catalogue::Catalogue;
use std::alloc::Global;
use std::slice;
use std::test::Fail;
use update_log::{Facts, InstallFlags, PluginVetoes, Query, Request};
use version_formats::{Format, Version};

/// A question. Those that name a device name it by a port.
#[derive(Clone, Copy)]
pub enum Ask {
    Devices,
    Releases(&'static str),
    Upgrades(&'static str),
    History,
    Results(&'static str),
    Settle(&'static str),
}

/// The device in a port.
pub fn device_in(port: &str) -> Result<Selector, Fail> {
    Ok(Selector::Port(Name::read(port.as_bytes())?))
}

/// The question itself.
pub fn query(ask: Ask) -> Result<Query, Fail> {
    match ask {
        Ask::Devices => Ok(Query::Devices),
        Ask::Releases(port) => Ok(Query::Releases(device_in(port)?)),
        Ask::Upgrades(port) => Ok(Query::Upgrades(device_in(port)?)),
        Ask::History => Ok(Query::History),
        Ask::Results(port) => Ok(Query::Results(device_in(port)?)),
        Ask::Settle(port) => Ok(Query::Settle(device_in(port)?)),
    }
}

/// How a hub is described: in full, with nothing in any list, or so that everything hinders it.
#[derive(Clone, Copy)]
pub enum Hub {
    Full,
    Bare,
    Hindered(&'static str),
}

fn flags_of(hub: Hub) -> DeviceFlags {
    match hub {
        Hub::Full => DeviceFlags::empty().with(DeviceFlag::Updatable),
        Hub::Bare => DeviceFlags::empty(),
        Hub::Hindered(_) => DeviceFlags::empty()
            .with(DeviceFlag::NeedsReboot)
            .with(DeviceFlag::RequireAc),
    }
}

fn guids_of(alloc: Global, hub: Hub) -> Result<Vec<Guid>, Fail> {
    let mut guids = Vec::new(alloc);
    match hub {
        Hub::Full | Hub::Hindered(_) => {
            guids.push(guid_of(b"2082b5e0-7a64-478a-b1b2-e3404fab6dad"))?
        }
        Hub::Bare => {}
    }
    Ok(guids)
}

fn name_of(hub: Hub) -> &'static str {
    match hub {
        Hub::Full | Hub::Bare => "",
        Hub::Hindered(name) => name,
    }
}

fn is_hindered(hub: Hub) -> bool {
    match hub {
        Hub::Full | Hub::Bare => false,
        Hub::Hindered(_) => true,
    }
}

fn sheet(alloc: Global, port: &str, hub: Hub) -> Result<Sheet, Fail> {
    let name = Name::read(port.as_bytes())?;
    let plugin = Name::read(b"flash")?;
    let line = Line::read(name_of(hub).as_bytes())?;
    let guids = guids_of(alloc, hub)?;
    Ok(Sheet {
        port: name,
        device: device_id(port.as_bytes(), None),
        priority: 0,
        plugin,
        name: line,
        vendor: Line::empty(),
        vendor_ids: Listed::of(Vec::new(alloc)),
        runtime_guids: Listed::of(guids),
        loader_guids: Listed::of(Vec::new(alloc)),
        counterparts: Listed::of(Vec::new(alloc)),
        flags: flags_of(hub),
        format: Format::Triplet,
        protocol: None,
        bootloader: None,
        size_min: 0,
        size_max: 4_194_304,
        duration: 0,
        parent: None,
        unreachable: is_hindered(hub),
        power_low: is_hindered(hub),
        lid: is_hindered(hub),
    })
}

fn sheets(alloc: Global, hubs: &[(&str, Hub)]) -> Result<Vec<Sheet>, Fail> {
    let mut sheets = Vec::new(alloc);
    for (port, hub) in hubs {
        sheets.push(sheet(alloc, port, *hub)?)?;
    }
    Ok(sheets)
}

/// The hubs' plugin, which forbids nothing.
fn plugins(alloc: Global) -> Result<Vec<PluginVetoes>, Fail> {
    let plugin = Name::read(b"flash")?;
    let mut plugins = Vec::new(alloc);
    plugins.push(PluginVetoes {
        plugin,
        rules: Listed::of(Vec::new(alloc)),
    })?;
    Ok(plugins)
}

/// A release of that version, as a catalogue has it.
fn release(alloc: Global, version: &str) -> Result<String, Fail> {
    let half = "07070707070707070707070707070707";
    Ok(format!(in alloc; "{{\"version\":\"{version}\",\"sha256\":\"{half}{half}\",\"size\":14}}")?)
}

fn put_release(alloc: Global, text: &mut String, version: &str) -> Result<(), Fail> {
    let release = release(alloc, version)?;
    text.push_str(&release)?;
    Ok(())
}

/// So many newer releases, then the one that the hub runs and an older one.
fn releases(alloc: Global, newer: u32) -> Result<String, Fail> {
    let mut text = String::new(alloc);
    for _ in 0..newer {
        put_release(alloc, &mut text, "1.2.0")?;
        text.push_str(",")?;
    }
    put_release(alloc, &mut text, "1.1.0")?;
    text.push_str(",")?;
    put_release(alloc, &mut text, "1.0.0")?;
    Ok(text)
}

/// The text of the hub's catalogue, with these members beside.
fn catalogue_text(alloc: Global, beside: &str, newer: u32) -> Result<String, Fail> {
    let releases = releases(alloc, newer)?;
    Ok(format!(in alloc;
        "[{{\"id\":\"com.example.hub\",{beside}\"provides\":[\"2082b5e0-7a64-478a-b1b2-e3404fab6dad\"],\"releases\":[{releases}]}}]"
    )?)
}

/// A catalogue of the hub with these members beside: so many newer releases, then the one that it runs
/// and an older one.
fn catalogue(alloc: Global, beside: &str, newer: u32) -> Result<Catalogue, Fail> {
    let text = catalogue_text(alloc, beside, newer)?;
    let mut scratch = Scratch::new(alloc);
    let value = json_values::read(alloc, text.as_bytes(), &mut scratch)?;
    Ok(Catalogue::from_value(alloc, &value)?)
}

/// The facts of a machine with these hubs, of which all is well or nothing is.
fn facts(
    alloc: Global,
    well: bool,
    catalogue: Catalogue,
    hubs: &[(&str, Hub)],
) -> Result<Facts, Fail> {
    let vetoes = plugins(alloc)?;
    let sheets = sheets(alloc, hubs)?;
    Ok(Facts {
        machine: MachineFacts {
            ids: Listed::of(Vec::new(alloc)),
            hardware: Listed::of(Vec::new(alloc)),
            on_ac: well,
            power_low: !well,
            lid_closed: !well,
        },
        catalogue,
        features: Listed::of(Vec::new(alloc)),
        vetoes: Listed::of(vetoes),
        sheets: Listed::of(sheets),
        pool: 16,
    })
}

/// The tag of the row with that entry.
fn tag_of(alloc: Global, entry: u32) -> Result<Name, Fail> {
    let tag = format!(in alloc; "t{entry}")?;
    Ok(Name::read(tag.as_bytes())?)
}

/// A row of the board in a port, from 1.0.0 to 1.1.0.
fn row(alloc: Global, entry: u32, port: &str, state: RowState, reason: u8) -> Result<Row, Fail> {
    let tag = tag_of(alloc, entry)?;
    let component = Name::read(b"com.example.hub")?;
    let version_old = Version::read(b"1.0.0")?;
    let version_new = Version::read(b"1.1.0")?;
    Ok(Row {
        entry,
        tag,
        client: 1,
        device: device_id(port.as_bytes(), None),
        component,
        version_old,
        version_new,
        digest: [7; 32],
        flags: 1,
        state,
        reason,
        time_added: 1000,
        time_changed: 1000,
        duration: 0,
        protocol: None,
        retry_of: None,
    })
}

/// Puts such a row behind the others.
fn put(
    alloc: Global,
    rows: &mut Vec<Row>,
    entry: u32,
    port: &str,
    state: RowState,
    reason: u8,
) -> Result<(), Fail> {
    let row = row(alloc, entry, port, state, reason)?;
    rows.extend_from_slice(slice::from_ref(&row))?;
    Ok(())
}

/// So many rows of installs that went well.
fn rows(alloc: Global, count: u32) -> Result<Vec<Row>, Fail> {
    let mut rows = Vec::new(alloc);
    for before in 0..count {
        let entry = before.saturating_add(1);
        put(alloc, &mut rows, entry, "usb1", RowState::Success, 0)?;
    }
    Ok(rows)
}

/// Fails where the rows are no history.
fn told_valid(alloc: Global, rows: &[Row]) -> Result<(), Fail>
    ensures { OnOk result (IsHistory rows.now) }
{
    match first_faulty(alloc, rows)? {
        None => Ok(()),
        Some(_) => Ok(Err("the rows are no history")?),
    }
}

/// Fails where a board has no raw version, or there are too many boards.
fn told_each(facts: &Facts, raws: &[u32]) -> Result<(), Fail>
    ensures each { OnOk result (length facts.now.sheets ≡ length raws.now) }
    ensures few { OnOk result (length raws.now ≤ 256) }
{
    if facts.sheets.items().len() != raws.len() {
        return Ok(Err("each board has a version")?);
    }
    if raws.len() > 256 {
        return Ok(Err("there are too many boards")?);
    }
    Ok(())
}

/// The machine is booted over these rows, and its boards have these raw versions.
fn booted(alloc: Global, facts: Facts, rows: Vec<Row>, raws: &[u32]) -> Result<Story, Fail> {
    told_valid(alloc, &rows)?;
    told_each(&facts, raws)?;
    Ok(Story::booted(alloc, facts, rows, raws)?)
}

/// A machine with one hub, which runs 1.1.0, and so many rows of it. So many releases are newer.
pub fn one_hub(alloc: Global, hub: Hub, count: u32, newer: u32) -> Result<Story, Fail> {
    let catalogue = catalogue(alloc, "", newer)?;
    let facts = facts(alloc, true, catalogue, &[("usb1", hub)])?;
    let rows = rows(alloc, count)?;
    booted(alloc, facts, rows, &[0x0101_0000])
}

/// A machine without a board.
pub fn no_hub(alloc: Global) -> Result<Story, Fail> {
    let catalogue = catalogue(alloc, "", 0)?;
    let facts = facts(alloc, true, catalogue, &[])?;
    booted(alloc, facts, Vec::new(alloc), &[])
}

const WORDS: &str =
    r#""custom":{"LVFS::VersionFormat":"triplet","LVFS::UpdateProtocol":"com.example.hub"},"#;

/// A row that was put off, which tries the first one again.
fn retried_row(alloc: Global) -> Result<Row, Fail> {
    let protocol = Name::read(b"org.usb.dfu")?;
    let mut row = row(alloc, 2, "usb1", RowState::Pending, 0)?;
    row.duration = 30;
    row.protocol = Some(protocol);
    row.retry_of = Some(1);
    Ok(row)
}

fn put_retried(alloc: Global, rows: &mut Vec<Row>) -> Result<(), Fail> {
    let row = retried_row(alloc)?;
    rows.extend_from_slice(slice::from_ref(&row))?;
    Ok(())
}

/// Rows of boards that the machine hasn't any more.
const STRAYS: [(u32, &str, RowState); 2] = [
    (3, "gone", RowState::Begun),
    (4, "away", RowState::NeedsReboot),
];

fn hindered_rows(alloc: Global) -> Result<Vec<Row>, Fail> {
    let mut rows = Vec::new(alloc);
    put(alloc, &mut rows, 1, "usb1", RowState::Failed, 4)?;
    put_retried(alloc, &mut rows)?;
    for (entry, port, state) in &STRAYS {
        put(alloc, &mut rows, *entry, port, *state, 0)?;
    }
    Ok(rows)
}

const HINDERED_HUBS: [(&str, Hub); 2] = [
    ("usb1", Hub::Hindered("Hub of ports")),
    ("usb2", Hub::Hindered("")),
];

/// A machine of which nothing is well, with two hubs: one runs 1.1.0, and one has no good image.
pub fn hindered(alloc: Global) -> Result<Story, Fail> {
    let catalogue = catalogue(alloc, WORDS, 1)?;
    let facts = facts(alloc, false, catalogue, &HINDERED_HUBS)?;
    let rows = hindered_rows(alloc)?;
    booted(alloc, facts, rows, &[0x0101_0000, 0])
}

/// A request for 1.2.0 on the hub.
pub fn request() -> Result<Request, Fail> {
    let tag = Name::read(b"t9")?;
    let device = device_in("usb1")?;
    let version = Version::read(b"1.2.0")?;
    Ok(Request {
        tag,
        device,
        version,
        flags: InstallFlags {
            offline: false,
            allow_reinstall: false,
            allow_older: false,
        },
        retry_of: None,
    })
}
