//! What no clause says: that calls succeed, and that the words of the definitions are those that were
//! meant.
use fw_base::{Line, Listed, Name};
use fw_facts::{
    DeviceFlag, DeviceFlags, DeviceView, MachineFacts, MachineTest, Mode, Problem, Seen, Sheet,
    VetoRule,
};
use guid_ids::{DeviceId, Guid, guid_of};
use std::alloc::{AllocGlobal, Global};
use std::process::Abort;
use std::test::Fail;
use version_formats::{Format, Version};

const RUNTIME: Seen = Seen::Home {
    raw: 0x0102_0003,
    mode: Mode::Runtime,
};

const BOOTLOADER: Seen = Seen::Home {
    raw: 0x0102_0004,
    mode: Mode::Bootloader,
};

fn one_guid(alloc: Global, text: &[u8]) -> Result<Listed<Guid>, Fail> {
    let mut guids = Vec::new(alloc);
    guids.push(guid_of(text))?;
    Ok(Listed::of(guids))
}

/// The words of the board's sheet.
#[derive(Clone, Copy)]
struct Words {
    port: Name,
    parent: Name,
    plugin: Name,
    name: Line,
    vendor: Line,
    bootloader: Version,
}

fn read_words() -> Result<Words, Fail> {
    Ok(Words {
        port: Name::read(b"usb1")?,
        parent: Name::read(b"usb0")?,
        plugin: Name::read(b"flash")?,
        name: Line::read(b"Hub")?,
        vendor: Line::read(b"Example")?,
        bootloader: Version::read(b"2.0")?,
    })
}

fn vendor_ids(alloc: Global) -> Result<Listed<Name>, Fail> {
    let mut ids = Vec::new(alloc);
    ids.push(Name::read(b"USB:0x0A5C")?)?;
    Ok(Listed::of(ids))
}

fn sheet(alloc: Global, flags: DeviceFlags) -> Result<Sheet, Fail> {
    let words = read_words()?;
    Ok(Sheet {
        port: words.port,
        device: DeviceId::from_bytes([7; 20]),
        priority: 1,
        plugin: words.plugin,
        name: words.name,
        vendor: words.vendor,
        vendor_ids: vendor_ids(alloc)?,
        runtime_guids: one_guid(alloc, b"firmware")?,
        loader_guids: one_guid(alloc, b"loader")?,
        counterparts: one_guid(alloc, b"counterpart")?,
        flags,
        format: Format::Triplet,
        protocol: None,
        bootloader: Some(words.bootloader),
        size_min: 2,
        size_max: 4_194_304,
        duration: 3,
        parent: Some(words.parent),
        unreachable: false,
        power_low: false,
        lid: false,
    })
}

fn view(alloc: Global, flags: DeviceFlags, seen: Seen) -> Result<DeviceView, Fail> {
    Ok(DeviceView {
        sheet: sheet(alloc, flags)?,
        seen,
        claim: None,
    })
}

// A machine on external power, with a full battery and an open lid.
fn machine(alloc: Global) -> MachineFacts {
    MachineFacts {
        ids: Listed::of(Vec::new(alloc)),
        hardware: Listed::of(Vec::new(alloc)),
        on_ac: true,
        power_low: false,
        lid_closed: false,
    }
}

#[test]
fn a_set_has_the_flags_that_were_put_in(rt: HostRuntime) -> Result<(), Fail> {
    let empty = DeviceFlags::empty();
    for flag in DeviceFlag::ALL {
        let one = empty.with(flag);
        assert!(rt; !empty.has(flag) && !empty.has_all(one), "{flag:?}");
        assert!(rt; one.has_all(empty) && one.has_all(one), "{flag:?}");
        for other in DeviceFlag::ALL {
            assert_eq!(rt; one.has(other), other == flag, "{flag:?} {other:?}");
        }
        assert_eq!(rt; one.without(flag), empty, "{flag:?}");
    }
    Ok(())
}

#[test]
fn a_set_lacks_the_flags_that_were_taken_out(rt: HostRuntime) -> Result<(), Fail> {
    let mut all = DeviceFlags::empty();
    for flag in DeviceFlag::ALL {
        all = all.with(flag);
    }
    for flag in DeviceFlag::ALL {
        let others = all.without(flag);
        assert!(rt; all.has(flag) && !others.has(flag), "{flag:?}");
        for other in DeviceFlag::ALL {
            assert_eq!(rt; others.has(other), other != flag, "{flag:?} {other:?}");
        }
        assert_eq!(rt; others.with(flag), all, "{flag:?}");
    }
    Ok(())
}

/// What a view shows, whatever its flags say of its mode: the mode alone tells whether a device is in bootloader mode.
fn shows(
    rt: &(impl Abort + AllocGlobal),
    seen: Seen,
    version: Option<Version>,
    guid: Option<Guid>,
    flags: DeviceFlags,
) -> Result<(), Fail> {
    for own in [stated(), in_loader()] {
        let view = view(rt.alloc(), own, seen)?;
        assert_eq!(rt; view.version(), version, "{seen:?}");
        assert_eq!(rt; view.guids().first().copied(), guid, "{seen:?}");
        assert!(rt; view.guids().len() <= 1, "{seen:?}");
        assert_eq!(rt; view.flags(), flags, "{seen:?}");
    }
    Ok(())
}

fn stated() -> DeviceFlags {
    DeviceFlags::empty().with(DeviceFlag::Updatable)
}

fn in_loader() -> DeviceFlags {
    stated().with(DeviceFlag::IsBootloader)
}

#[test]
fn a_view_shows_its_side(rt: HostRuntime) -> Result<(), Fail> {
    let old = Some(Version::read(b"1.2.3")?);
    let new = Some(Version::read(b"1.2.4")?);
    shows(&rt, RUNTIME, old, Some(guid_of(b"firmware")), stated())?;
    shows(&rt, BOOTLOADER, new, Some(guid_of(b"loader")), in_loader())?;
    shows(&rt, Seen::Gone, None, None, stated())?;
    shows(&rt, Seen::Stranger, None, None, stated())
}

fn give_problem(problem: Problem, machine: &mut MachineFacts, view: &mut DeviceView) {
    match problem {
        Problem::SystemPowerTooLow => machine.power_low = true,
        Problem::Unreachable => view.sheet.unreachable = true,
        Problem::PowerTooLow => view.sheet.power_low = true,
        Problem::UpdatePending => {}
        Problem::RequireAcPower => {
            view.sheet.flags = view.sheet.flags.with(DeviceFlag::RequireAc);
            machine.on_ac = false;
        }
        Problem::LidIsClosed => {
            view.sheet.lid = true;
            machine.lid_closed = true;
        }
        Problem::UpdateInProgress => view.claim = Some(4),
    }
}

#[test]
fn each_problem_stands_alone(rt: HostRuntime) -> Result<(), Fail> {
    let alloc = rt.alloc();
    for given in Problem::ALL {
        let mut machine = machine(alloc);
        let mut view = view(alloc, DeviceFlags::empty(), RUNTIME)?;
        let pending = if given == Problem::UpdatePending {
            Some(9)
        } else {
            None
        };
        give_problem(given, &mut machine, &mut view);
        for problem in Problem::ALL {
            let holds = problem.holds(&machine, &view, pending);
            assert_eq!(rt; holds, problem == given, "{given:?} {problem:?}");
        }
    }
    Ok(())
}

#[test]
fn one_half_of_a_problem_is_none(rt: HostRuntime) -> Result<(), Fail> {
    let alloc = rt.alloc();
    let mut on_battery = machine(alloc);
    on_battery.on_ac = false;
    on_battery.lid_closed = true;
    let plain = view(alloc, DeviceFlags::empty(), RUNTIME)?;
    let mut asking = view(
        alloc,
        DeviceFlags::empty().with(DeviceFlag::RequireAc),
        RUNTIME,
    )?;
    asking.sheet.lid = true;
    assert_eq!(rt; Problem::first_refusing(&on_battery, &plain), None);
    assert_eq!(rt; Problem::first_refusing(&machine(alloc), &asking), None);
    Ok(())
}

#[test]
fn the_first_problem_of_the_table_refuses(rt: HostRuntime) -> Result<(), Fail> {
    let alloc = rt.alloc();
    let mut machine = machine(alloc);
    let mut view = view(alloc, DeviceFlags::empty(), RUNTIME)?;
    give_problem(Problem::UpdateInProgress, &mut machine, &mut view);
    assert_eq!(rt; Problem::first_refusing(&machine, &view), None);
    for problem in [
        Problem::LidIsClosed,
        Problem::RequireAcPower,
        Problem::PowerTooLow,
        Problem::Unreachable,
        Problem::SystemPowerTooLow,
    ] {
        give_problem(problem, &mut machine, &mut view);
        assert_eq!(rt; Problem::first_refusing(&machine, &view), Some(problem));
    }
    Ok(())
}

// The machine that passes one test, and no other that asks for something.
fn machine_with(alloc: Global, test: MachineTest) -> MachineFacts {
    let mut machine = machine(alloc);
    match test {
        MachineTest::Always => {}
        MachineTest::OnBattery => machine.on_ac = false,
        MachineTest::PowerLow => machine.power_low = true,
        MachineTest::LidClosed => machine.lid_closed = true,
    }
    machine
}

const TESTS: [MachineTest; 4] = [
    MachineTest::Always,
    MachineTest::OnBattery,
    MachineTest::PowerLow,
    MachineTest::LidClosed,
];

#[test]
fn a_rule_wants_its_test(rt: HostRuntime) -> Result<(), Fail> {
    for state in TESTS {
        let machine = machine_with(rt.alloc(), state);
        for when in TESTS {
            let passes = when == MachineTest::Always || when == state;
            assert_eq!(rt; when.holds(&machine), passes, "{state:?} {when:?}");
        }
    }
    Ok(())
}

// Whether the rule holds for a board with one flag of its own.
fn rule_holds(
    alloc: Global,
    when: MachineTest,
    flags: DeviceFlags,
    seen: Seen,
    state: MachineTest,
) -> Result<bool, Fail> {
    let own = DeviceFlags::empty().with(DeviceFlag::Internal);
    let view = view(alloc, own, seen)?;
    let rule = VetoRule { when, flags };
    Ok(rule.holds(&machine_with(alloc, state), &view))
}

#[test]
fn a_rule_wants_all_of_its_flags(rt: HostRuntime) -> Result<(), Fail> {
    let alloc = rt.alloc();
    let one = DeviceFlags::empty().with(DeviceFlag::Internal);
    let both = one.with(DeviceFlag::IsBootloader);
    for when in TESTS {
        assert!(rt; rule_holds(alloc, when, DeviceFlags::empty(), RUNTIME, when)?);
        assert!(rt; rule_holds(alloc, when, one, RUNTIME, when)?);
        assert!(rt; !rule_holds(alloc, when, both, RUNTIME, when)?);
        assert!(rt; rule_holds(alloc, when, both, BOOTLOADER, when)?);
        let other = rule_holds(alloc, when, one, RUNTIME, MachineTest::Always)?;
        assert_eq!(rt; other, when == MachineTest::Always);
    }
    Ok(())
}

#[test]
fn a_sheet_is_copied(rt: HostRuntime) -> Result<(), Fail> {
    let alloc = rt.alloc();
    let copy = sheet(alloc, DeviceFlags::empty())?.copy(alloc)?;
    assert_eq!(rt;
        copy.vendor_ids.items().first().copied(),
        Some(Name::read(b"USB:0x0A5C")?)
    );
    assert_eq!(rt;
        copy.counterparts.items().first().copied(),
        Some(guid_of(b"counterpart"))
    );
    assert_eq!(rt; copy.parent, Some(Name::read(b"usb0")?));
    Ok(())
}
