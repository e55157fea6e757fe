//! Where the lines of events are not the text that was meant, over boards that have these sheets.
use fw_base::{Line, Listed, Name};
use fw_facts::{DeviceFlags, Sheet};
use guid_ids::device_id;
use report_text::put_lines;
use std::alloc::Global;
use std::test::Fail;
use update_log::Event;
use version_formats::Format;

fn sheet(alloc: Global, port: &str) -> Result<Sheet, Fail> {
    let name = Name::read(port.as_bytes())?;
    let plugin = Name::read(b"flash")?;
    Ok(Sheet {
        port: name,
        device: device_id(port.as_bytes(), None),
        priority: 0,
        plugin,
        name: Line::empty(),
        vendor: Line::empty(),
        vendor_ids: Listed::of(Vec::new(alloc)),
        runtime_guids: Listed::of(Vec::new(alloc)),
        loader_guids: Listed::of(Vec::new(alloc)),
        counterparts: Listed::of(Vec::new(alloc)),
        flags: DeviceFlags::empty(),
        format: Format::Triplet,
        protocol: None,
        bootloader: None,
        size_min: 0,
        size_max: 4_194_304,
        duration: 0,
        parent: None,
        unreachable: false,
        power_low: false,
        lid: false,
    })
}

/// The ports of the boards.
const PORTS: [&str; 5] = ["usb1", "usb2", "usb3", "usb4", "usb5"];

/// The sheets of the boards.
fn sheets(alloc: Global) -> Result<Vec<Sheet>, Fail> {
    let mut sheets = Vec::new(alloc);
    for port in &PORTS {
        sheets.push(sheet(alloc, port)?)?;
    }
    Ok(sheets)
}

/// The place of the first byte that isn't the one that was meant.
pub fn differs_at(told: &[u8], meant: &[u8]) -> Option<usize> {
    for (at, (byte, wanted)) in told.iter().zip(meant).enumerate() {
        if *byte != *wanted {
            return Some(at);
        }
    }
    if told.len() == meant.len() {
        None
    } else {
        Some(told.len())
    }
}

/// Puts the lines of events behind a text. Each step that ends is on the first board.
fn put_each(told: &mut Vec<u8>, sheets: &[Sheet], log: &[Event]) -> Result<(), Fail> {
    for event in log {
        put_lines(told, sheets, sheets.first(), event)?;
    }
    Ok(())
}

/// Where the lines of events aren't the text that was meant.
pub fn lines_differ_at(alloc: Global, log: &[Event], meant: &str) -> Result<Option<usize>, Fail> {
    let sheets = sheets(alloc)?;
    let mut told = Vec::new(alloc);
    put_each(&mut told, &sheets, log)?;
    Ok(differs_at(&told, meant.as_bytes()))
}
