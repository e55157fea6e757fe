//! What no clause says: that calls succeed, and that the first present device is the one that was
//! meant.
ghost use Rattle.std.specs.Prelude.{◌≡◌, length, IfOk};

use device_list::{DEVICES_MAX, Devices, ListFault, Selector};
use fw_base::{Line, Listed, Name};
use fw_facts::{DeviceFlags, DeviceView, Mode, Seen, Sheet};
use guid_ids::{DeviceId, Guid, guid_of};
use std::alloc::Global;
use std::test::Fail;
use version_formats::Format;

const RUNTIME: Seen = Seen::Home {
    raw: 7,
    mode: Mode::Runtime,
};

const BOOTLOADER: Seen = Seen::Home {
    raw: 7,
    mode: Mode::Bootloader,
};

fn listed(alloc: Global, guids: &[Guid]) -> Result<Listed<Guid>, Fail> {
    Ok(Listed::of(guids.to_vec(alloc)?))
}

fn id(number: usize) -> DeviceId {
    let mut bytes = [0; 20];
    bytes[0] = (number % 256) as u8;
    bytes[1] = (number / 256 % 256) as u8;
    DeviceId::from_bytes(bytes)
}

// A board in port usb1. Look-ups read its device ID and its GUIDs alone.
fn sheet(alloc: Global, number: usize, runtime: &[Guid], loader: &[Guid]) -> Result<Sheet, Fail> {
    Ok(Sheet {
        port: Name::read(b"usb1")?,
        device: id(number),
        priority: 0,
        plugin: Name::read(b"flash")?,
        name: Line::read(b"")?,
        vendor: Line::read(b"")?,
        vendor_ids: Listed::of(Vec::new(alloc)),
        runtime_guids: listed(alloc, runtime)?,
        loader_guids: listed(alloc, loader)?,
        counterparts: listed(alloc, &[])?,
        flags: DeviceFlags::empty(),
        format: Format::Triplet,
        protocol: None,
        bootloader: None,
        size_min: 0,
        size_max: 4_194_304,
        duration: 0,
        parent: None,
        unreachable: false,
        power_low: false,
        lid: false,
    })
}

fn view(alloc: Global, number: usize, seen: Seen) -> Result<DeviceView, Fail> {
    Ok(DeviceView {
        sheet: sheet(
            alloc,
            number,
            &[guid_of(b"firmware")],
            &[guid_of(b"loader")],
        )?,
        seen,
        claim: None,
    })
}

/// Five devices in one port, of which the last two are in runtime mode.
fn five_devices(alloc: Global) -> Result<Devices, Fail> {
    let mut devices = Devices::new(alloc);
    for (number, seen) in [Seen::Gone, Seen::Stranger, BOOTLOADER, RUNTIME, RUNTIME]
        .into_iter()
        .enumerate()
    {
        devices.add(view(alloc, number, seen)?)?;
    }
    Ok(devices)
}

#[test]
fn the_first_present_device_is_found(rt: HostRuntime) -> Result<(), Fail> {
    let devices = five_devices(rt.alloc())?;
    let found = [
        devices.by_guid(&guid_of(b"firmware")),
        devices.by_guid(&guid_of(b"loader")),
        devices.by_guid(&guid_of(b"other")),
        devices.by_id(&id(4)),
        devices.by_id(&id(5)),
    ];
    assert_eq!(rt; found, [Some(3), Some(2), None, Some(4), None]);
    Ok(())
}

#[test]
fn a_selector_names_the_first_device(rt: HostRuntime) -> Result<(), Fail> {
    let devices = five_devices(rt.alloc())?;
    let ports = [Name::read(b"usb1")?, Name::read(b"usb2")?];
    let named = [
        devices.resolve(&Selector::Id(id(0))),
        devices.resolve(&Selector::Guid(guid_of(b"firmware"))),
        devices.resolve(&Selector::Port(ports[0])),
        devices.resolve(&Selector::Port(ports[1])),
    ];
    assert_eq!(rt; named, [Some(0), Some(3), Some(0), None]);
    Ok(())
}

fn one_device(alloc: Global) -> Result<Devices, Fail>
    ensures { IfOk result (λ devices. length devices ≡ 1) }
{
    let mut devices = Devices::new(alloc);
    devices.add(view(alloc, 0, RUNTIME)?)?;
    Ok(devices)
}

#[test]
fn a_device_changes_in_its_place(rt: HostRuntime) -> Result<(), Fail> {
    let alloc = rt.alloc();
    let mut devices = one_device(alloc)?;
    devices.set_claim(0, Some(3));
    assert_eq!(rt; devices.views().len(), 1);
    assert_eq!(rt; devices.views()[0].claim, Some(3));
    let mut others = one_device(alloc)?;
    others.set_seen(0, BOOTLOADER);
    assert_eq!(rt; others.by_guid(&guid_of(b"firmware")), None);
    assert_eq!(rt; others.by_guid(&guid_of(b"loader")), Some(0));
    Ok(())
}

#[test]
fn no_id_twice_and_at_most_256(rt: HostRuntime) -> Result<(), Fail> {
    let alloc = rt.alloc();
    let mut devices = Devices::new(alloc);
    for number in 0..DEVICES_MAX {
        devices.add(view(alloc, number, RUNTIME)?)?;
    }
    let twice = devices.add(view(alloc, 255, Seen::Gone)?);
    assert_eq!(rt; twice, Err(ListFault::Duplicate { device: id(255) }));
    let more = devices.add(view(alloc, 256, RUNTIME)?);
    assert_eq!(rt; more, Err(ListFault::Full));
    assert_eq!(rt; devices.views().len(), DEVICES_MAX);
    Ok(())
}

// Up to three GUIDs out of eleven, so that many devices share one.
fn some_guids(alloc: Global, from: usize, count: usize) -> Result<Vec<Guid>, Fail> {
    let mut guids = Vec::new(alloc);
    for i in 0..count % 4 {
        guids.push(numbered(from % 5 + i * 2))?;
    }
    Ok(guids)
}

fn numbered(number: usize) -> Guid {
    let mut bytes = [0; 16];
    bytes[0] = (number % 256) as u8;
    Guid::from_bytes(bytes)
}

fn seen(number: usize) -> Seen {
    match number % 4 {
        0 => Seen::Gone,
        1 => RUNTIME,
        2 => BOOTLOADER,
        _ => Seen::Stranger,
    }
}

// A list of that many devices, whose boards have GUIDs in common.
fn mixed(alloc: Global, count: usize) -> Result<Devices, Fail> {
    let mut devices = Devices::new(alloc);
    for number in 0..count {
        let runtime = some_guids(alloc, number, number % 7)?;
        let loader = some_guids(alloc, number / 3, count)?;
        devices.add(DeviceView {
            sheet: sheet(alloc, number, &runtime, &loader)?,
            seen: seen(number / 2),
            claim: None,
        })?;
    }
    Ok(devices)
}

fn scanned(views: &[DeviceView], guid: &Guid) -> Option<usize> {
    views
        .iter()
        .position(|view| view.guids().iter().any(|shown| shown == guid))
}

fn agrees_with_a_scan(devices: &Devices) -> bool {
    (0..12).all(|number| {
        let guid = numbered(number);
        devices.by_guid(&guid) == scanned(devices.views(), &guid)
    })
}

#[test]
fn by_guid_is_a_plain_scan(rt: HostRuntime) -> Result<(), Fail> {
    for count in 0..32usize {
        assert!(rt; agrees_with_a_scan(&mixed(rt.alloc(), count)?));
    }
    Ok(())
}

#[test]
fn a_guid_of_both_modes_is_found_in_each(rt: HostRuntime) -> Result<(), Fail> {
    let alloc = rt.alloc();
    let both = guid_of(b"both");
    let mut devices = Devices::new(alloc);
    for (number, seen) in [Seen::Gone, BOOTLOADER, RUNTIME].into_iter().enumerate() {
        devices.add(DeviceView {
            sheet: sheet(alloc, number, &[both, both], &[both])?,
            seen,
            claim: None,
        })?;
    }
    assert_eq!(rt; devices.by_guid(&both), Some(1));
    Ok(())
}
