//! Requirements of each kind, of the machine and the devices below.
use fw_base::{Line, Listed, Name};
use fw_facts::{
    DeviceFlags, DeviceView, MachineFacts, Mode, Requirement, Seen, Sheet, Test, VendorTest,
};
use fw_patterns::Pattern;
use guid_ids::{DeviceId, Guid, guid_of};
use requirements::{Unmet, UnmetCause, first_unmet};
use std::alloc::{AllocGlobal, Global};
use std::process::Abort;
use std::test::Fail;
use version_formats::{Format, Version};

/// A device: its port, the text of its GUID, its parent's port, its raw version where it is present,
/// and the entry that has a claim on it.
type Row = (
    &'static [u8],
    &'static [u8],
    Option<&'static [u8]>,
    Option<u32>,
    Option<u32>,
);

const HUB: usize = 0;

const DOCK: usize = 1;

const ROOT: usize = 2;

const STRAY: usize = 7;

const BUSY_CHILD: usize = 8;

const ROWS: [Row; 9] = [
    (b"hub", b"hub", Some(b"dock"), Some(0x010a_0000), None),
    (b"dock", b"dock", Some(b"root"), None, None),
    (b"root", b"root", None, Some(0x0200_0000), None),
    (b"busy", b"busy", None, Some(0x0100_0000), Some(5)),
    (b"busy2", b"busy", None, Some(0x0100_0000), None),
    (b"twin1", b"twin", None, Some(0x0100_0000), None),
    (b"twin2", b"twin", None, Some(0x0300_0000), Some(7)),
    (
        b"stray",
        b"stray",
        Some(b"nowhere"),
        Some(0x0100_0000),
        None,
    ),
    (b"child", b"child", Some(b"busy"), Some(0x0100_0000), None),
];

const PAIR: [Row; 2] = [
    (b"hub", b"hub", None, Some(0x010a_0000), None),
    (b"busy", b"busy", None, Some(0x0100_0000), Some(4)),
];

fn name(text: &[u8]) -> Result<Name, Fail> {
    Ok(Name::read(text)?)
}

fn version(text: &[u8]) -> Result<Version, Fail> {
    Ok(Version::read(text)?)
}

fn at_least(text: &[u8]) -> Result<Test, Fail> {
    Ok(Test::Ge(Version::read(text)?))
}

fn guids(alloc: Global, texts: &[&[u8]]) -> Result<Listed<Guid>, Fail> {
    let mut guids = Vec::new(alloc);
    for text in texts {
        guids.push(guid_of(text))?;
    }
    Ok(Listed::of(guids))
}

fn names(alloc: Global, texts: &[&[u8]]) -> Result<Listed<Name>, Fail> {
    let mut names = Vec::new(alloc);
    for text in texts {
        names.push(Name::read(text)?)?;
    }
    Ok(Listed::of(names))
}

const VENDOR_IDS: [&[u8]; 2] = [b"USB:0x0A5C", b"PCI:0x1"];

fn name_or_none(text: Option<&[u8]>) -> Result<Option<Name>, Fail> {
    match text {
        Some(text) => Ok(Some(Name::read(text)?)),
        None => Ok(None),
    }
}

// A board with one GUID, in that port below that parent.
fn board(alloc: Global, port: Name, parent: Option<Name>, guid: &[u8]) -> Result<Sheet, Fail> {
    let plugin = Name::read(b"flash")?;
    Ok(Sheet {
        port,
        device: DeviceId::from_bytes([0; 20]),
        priority: 0,
        plugin,
        name: Line::empty(),
        vendor: Line::empty(),
        vendor_ids: Listed::of(Vec::new(alloc)),
        runtime_guids: guids(alloc, &[guid])?,
        loader_guids: Listed::of(Vec::new(alloc)),
        counterparts: Listed::of(Vec::new(alloc)),
        flags: DeviceFlags::empty(),
        format: Format::Triplet,
        protocol: None,
        bootloader: None,
        size_min: 0,
        size_max: 0,
        duration: 0,
        parent,
        unreachable: false,
        power_low: false,
        lid: false,
    })
}

fn seen(raw: Option<u32>) -> Seen {
    match raw {
        Some(raw) => Seen::Home {
            raw,
            mode: Mode::Runtime,
        },
        None => Seen::Gone,
    }
}

fn view(alloc: Global, row: &Row) -> Result<DeviceView, Fail> {
    let (port, guid, parent, raw, claim) = *row;
    let sheet = board(alloc, name(port)?, name_or_none(parent)?, guid)?;
    let seen = seen(raw);
    Ok(DeviceView { sheet, seen, claim })
}

// The hub alone has vendor IDs, and a boot loader that states its version.
fn hub(alloc: Global, row: &Row) -> Result<DeviceView, Fail> {
    let loader = version(b"2.0")?;
    let vendor_ids = names(alloc, &VENDOR_IDS)?;
    let mut view = view(alloc, row)?;
    view.sheet.vendor_ids = vendor_ids;
    view.sheet.bootloader = Some(loader);
    Ok(view)
}

fn view_of(alloc: Global, row: &Row) -> Result<DeviceView, Fail> {
    if row.0 == b"hub".as_slice() {
        hub(alloc, row)
    } else {
        view(alloc, row)
    }
}

const MACHINE_IDS: [(&[u8], &[u8]); 3] = [
    (b"org.freedesktop.fwupd", b"1.9.5"),
    (b"com.example.twice", b"1.0"),
    (b"com.example.twice", b"3.0"),
];

fn ids(alloc: Global) -> Result<Listed<(Name, Version)>, Fail> {
    let mut ids = Vec::new(alloc);
    for (id, number) in &MACHINE_IDS {
        ids.push((name(id)?, version(number)?))?;
    }
    Ok(Listed::of(ids))
}

fn machine(alloc: Global) -> Result<MachineFacts, Fail> {
    let ids = ids(alloc)?;
    let hardware = guids(alloc, &[b"board", b"family"])?;
    Ok(MachineFacts {
        ids,
        hardware,
        on_ac: true,
        power_low: false,
        lid_closed: false,
    })
}

/// What a request is judged by.
#[derive(Drop)]
struct Scene {
    machine: MachineFacts,
    features: Listed<Name>,
    views: Vec<DeviceView>,
}

impl Scene {
    fn of(alloc: Global, rows: &[Row]) -> Result<Scene, Fail> {
        let mut views = Vec::new(alloc);
        for row in rows {
            views.push(view_of(alloc, row)?)?;
        }
        Ok(Scene {
            machine: machine(alloc)?,
            features: names(alloc, &[b"detach-action", b"show-image"])?,
            views,
        })
    }

    // The answer, where the device is present.
    fn first_unmet(&self, device: usize, list: &[Requirement]) -> Option<Option<Unmet>> {
        if list.len() > u32::MAX as usize {
            return None;
        }
        match self.views.get(device)?.seen {
            Seen::Home { .. } => Some(first_unmet(
                &self.machine,
                self.features.items(),
                self.views.as_slice(),
                device,
                list,
            )),
            Seen::Gone | Seen::Stranger => None,
        }
    }
}

/// Looks at each requirement alone.
fn look(rt: &(impl Abort + AllocGlobal), device: usize, rows: Vec<Expected>) -> Result<(), Fail> {
    let alloc = rt.alloc();
    let scene = Scene::of(alloc, &ROWS)?;
    for (number, (requirement, cause)) in rows.into_iter().enumerate() {
        let list = vec![in alloc; requirement]?;
        let unmet = cause.map(|cause| Unmet { index: 0, cause });
        assert_eq!(rt;
            scene.first_unmet(device, list.as_slice()),
            Some(unmet),
            "row {number}"
        );
    }
    Ok(())
}

type Expected = (Requirement, Option<UnmetCause>);

const COMPARE: Option<UnmetCause> = Some(UnmetCause::VersionCompare);

const MISMATCH: Option<UnmetCause> = Some(UnmetCause::VendorMismatch);

const BUSY: Option<UnmetCause> = Some(UnmetCause::DeviceInUse { entry: 5 });

fn glob(alloc: Global, text: &[u8]) -> Result<Pattern, Fail> {
    Ok(Pattern::glob(alloc, text)?)
}

fn regex(alloc: Global, text: &[u8]) -> Result<Pattern, Fail> {
    Ok(Pattern::regex(alloc, text)?)
}

// The six comparisons with a version.
fn comparisons(other: Version) -> [Test; 6] {
    [
        Test::Eq(other),
        Test::Ne(other),
        Test::Lt(other),
        Test::Le(other),
        Test::Gt(other),
        Test::Ge(other),
    ]
}

const BELOW: [bool; 6] = [false, true, true, true, false, false];

const EQUAL: [bool; 6] = [true, false, false, true, false, true];

const ABOVE: [bool; 6] = [false, true, false, false, true, true];

// The hub shows the version 1.10.0.
const OTHERS: [(&[u8], [bool; 6]); 6] = [
    (b"1.9.0", ABOVE),
    (b"1.10", ABOVE),
    (b"1.10.0", EQUAL),
    (b"01.10.00", EQUAL),
    (b"1.10.0.0", BELOW),
    (b"2.0.0", BELOW),
];

fn compare_unless(passes: bool) -> Option<UnmetCause> {
    if passes { None } else { COMPARE }
}

fn put_comparisons(rows: &mut Vec<Expected>, text: &[u8], passing: &[bool; 6]) -> Result<(), Fail> {
    let other = version(text)?;
    for (test, passes) in comparisons(other).into_iter().zip(passing) {
        rows.push((Requirement::Firmware { test }, compare_unless(*passes)))?;
    }
    Ok(())
}

#[test]
fn a_version_stands_on_the_left(rt: HostRuntime) -> Result<(), Fail> {
    let mut rows = Vec::new(rt.alloc());
    for (other, passing) in &OTHERS {
        put_comparisons(&mut rows, other, passing)?;
    }
    look(&rt, HUB, rows)
}

/// A pattern, and whether the hub's version is in it as a glob and as a regular expression. Two of the
/// globs are no regular expressions.
const PATTERNS: [(&[u8], bool, bool); 6] = [
    (b"1.*", true, true),
    (b"1.10.0", true, true),
    (b"10", false, true),
    (b"^1.10", false, true),
    (b"*.1", false, false),
    (b"?.??.?", true, false),
];

#[test]
fn a_version_is_in_a_glob(rt: HostRuntime) -> Result<(), Fail> {
    let mut rows = Vec::new(rt.alloc());
    for (text, in_glob, _) in &PATTERNS {
        let test = Test::Glob(glob(rt.alloc(), text)?);
        rows.push((Requirement::Firmware { test }, compare_unless(*in_glob)))?;
    }
    look(&rt, HUB, rows)
}

#[test]
fn a_version_is_in_a_regular_expression(rt: HostRuntime) -> Result<(), Fail> {
    let mut rows = Vec::new(rt.alloc());
    for (text, _, in_regex) in &PATTERNS {
        if let Ok(pattern) = Pattern::regex(rt.alloc(), text) {
            let test = Test::Regex(pattern);
            rows.push((Requirement::Firmware { test }, compare_unless(*in_regex)))?;
        }
    }
    look(&rt, HUB, rows)
}

fn at_least_or_none(text: Option<&[u8]>) -> Result<Option<Test>, Fail> {
    match text {
        Some(text) => Ok(Some(at_least(text)?)),
        None => Ok(None),
    }
}

const NO_ID: Option<UnmetCause> = Some(UnmetCause::IdMissing);

const IDS: [(&[u8], &[u8], Option<UnmetCause>); 6] = [
    (b"org.freedesktop.fwupd", b"1.8.0", None),
    (b"org.freedesktop.fwupd", b"1.10.0", COMPARE),
    (b"com.example.twice", b"1.0", None),
    (b"com.example.twice", b"3.0", COMPARE),
    (b"com.example.none", b"1.0", NO_ID),
    (b"org.freedesktop", b"1.0", NO_ID),
];

#[test]
fn the_first_id_of_a_name_counts(rt: HostRuntime) -> Result<(), Fail> {
    let mut rows = Vec::new(rt.alloc());
    for (text, least, cause) in &IDS {
        let name = name(text)?;
        let test = at_least(least)?;
        rows.push((Requirement::Id { name, test }, *cause))?;
    }
    look(&rt, HUB, rows)
}

// The hub states the version 2.0 of its boot loader, and the root states none.
const LOADERS: [(usize, &[u8], Option<UnmetCause>); 3] = [
    (HUB, b"2.0", None),
    (HUB, b"2.1", COMPARE),
    (ROOT, b"0", Some(UnmetCause::NoBootloaderVersion)),
];

#[test]
fn the_boot_loader_states_its_version(rt: HostRuntime) -> Result<(), Fail> {
    for (device, least, cause) in &LOADERS {
        let mut rows = Vec::new(rt.alloc());
        let test = at_least(least)?;
        rows.push((Requirement::Bootloader { test }, *cause))?;
        look(&rt, *device, rows)?;
    }
    Ok(())
}

// A vendor ID, and what is told of it as itself and as a glob. The root has none.
const VENDORS: [(usize, &[u8], Option<UnmetCause>, Option<UnmetCause>); 6] = [
    (HUB, b"PCI:0x1", None, None),
    (HUB, b"PCI:0x", MISMATCH, MISMATCH),
    (HUB, b"USB:0x0a5c", MISMATCH, MISMATCH),
    (HUB, b"PCI:*", MISMATCH, None),
    (HUB, b"*A5?", MISMATCH, None),
    (ROOT, b"*", MISMATCH, MISMATCH),
];

#[test]
fn one_vendor_id_passes(rt: HostRuntime) -> Result<(), Fail> {
    for (device, text, same, _) in &VENDORS {
        let mut rows = Vec::new(rt.alloc());
        let test = VendorTest::Same(name(text)?);
        rows.push((Requirement::VendorId { test }, *same))?;
        look(&rt, *device, rows)?;
    }
    Ok(())
}

#[test]
fn one_vendor_id_is_in_a_glob(rt: HostRuntime) -> Result<(), Fail> {
    for (device, text, _, in_glob) in &VENDORS {
        let mut rows = Vec::new(rt.alloc());
        let test = VendorTest::Glob(glob(rt.alloc(), text)?);
        rows.push((Requirement::VendorId { test }, *in_glob))?;
        look(&rt, *device, rows)?;
    }
    Ok(())
}

const VENDOR_EXPRESSIONS: [(&[u8], Option<UnmetCause>); 3] = [
    (b"USB:0x0A5C|USB:0x17EF", None),
    (b"0x1", None),
    (b"^0x", MISMATCH),
];

#[test]
fn a_vendor_id_is_in_a_regular_expression(rt: HostRuntime) -> Result<(), Fail> {
    let mut rows = Vec::new(rt.alloc());
    for (text, cause) in &VENDOR_EXPRESSIONS {
        let test = VendorTest::Regex(regex(rt.alloc(), text)?);
        rows.push((Requirement::VendorId { test }, *cause))?;
    }
    look(&rt, HUB, rows)
}

const ABSENT: Option<UnmetCause> = Some(UnmetCause::NoSuchDevice);

// A device that isn't there, one that is being updated before one that isn't, and the other way round.
const DEVICES: [(&[u8], Option<&[u8]>, Option<UnmetCause>); 9] = [
    (b"hub", None, None),
    (b"root", Some(b"2.0.0"), None),
    (b"root", Some(b"2.0.1"), COMPARE),
    (b"none", None, ABSENT),
    (b"dock", None, ABSENT),
    (b"busy", None, BUSY),
    (b"busy", Some(b"9.0"), BUSY),
    (b"twin", Some(b"1.0.0"), None),
    (b"twin", Some(b"3.0.0"), COMPARE),
];

#[test]
fn the_first_device_with_a_guid_counts(rt: HostRuntime) -> Result<(), Fail> {
    let mut rows = Vec::new(rt.alloc());
    for (text, least, cause) in &DEVICES {
        let guid = guid_of(text);
        let test = at_least_or_none(*least)?;
        rows.push((Requirement::Device { guid, test }, *cause))?;
    }
    look(&rt, HUB, rows)
}

#[test]
fn the_second_of_two_devices_is_being_updated(rt: HostRuntime) -> Result<(), Fail> {
    let alloc = rt.alloc();
    let scene = Scene::of(alloc, &PAIR)?;
    let guid = guid_of(b"busy");
    let list = vec![in alloc; Requirement::Device { guid, test: None }]?;
    let unmet = Unmet {
        index: 0,
        cause: UnmetCause::DeviceInUse { entry: 4 },
    };
    assert_eq!(rt; scene.first_unmet(HUB, list.as_slice()), Some(Some(unmet)));
    Ok(())
}

const NO_ANCESTOR: Option<UnmetCause> = Some(UnmetCause::NoSuchAncestor);

/// A device, how many steps up is looked, a GUID, the least version, and what is told.
type Ancestor = (
    usize,
    u8,
    &'static [u8],
    Option<&'static [u8]>,
    Option<UnmetCause>,
);

// The hub's parent is absent, and its parent's parent is there. The stray's parent is in no port, and
// the last device's is being updated.
const ANCESTORS: [Ancestor; 14] = [
    (HUB, 0, b"hub", None, None),
    (HUB, 1, b"dock", None, NO_ANCESTOR),
    (HUB, 1, b"hub", None, NO_ANCESTOR),
    (HUB, 1, b"root", None, NO_ANCESTOR),
    (HUB, 2, b"root", None, None),
    (HUB, 2, b"root", Some(b"2.0.0"), None),
    (HUB, 2, b"root", Some(b"2.0.1"), COMPARE),
    (HUB, 2, b"busy", None, NO_ANCESTOR),
    (HUB, 3, b"root", None, NO_ANCESTOR),
    (HUB, 255, b"root", None, NO_ANCESTOR),
    (STRAY, 0, b"stray", None, None),
    (STRAY, 1, b"stray", None, NO_ANCESTOR),
    (BUSY_CHILD, 1, b"busy", None, BUSY),
    (BUSY_CHILD, 1, b"busy", Some(b"9.0"), BUSY),
];

fn ancestor(row: &Ancestor) -> Result<Expected, Fail> {
    let (_, depth, text, least, cause) = *row;
    let guid = guid_of(text);
    let test = at_least_or_none(least)?;
    Ok((Requirement::Ancestor { depth, guid, test }, cause))
}

#[test]
fn the_walk_goes_on_through_an_absent_parent(rt: HostRuntime) -> Result<(), Fail> {
    for row in &ANCESTORS {
        let mut rows = Vec::new(rt.alloc());
        rows.push(ancestor(row)?)?;
        look(&rt, row.0, rows)?;
    }
    Ok(())
}

/// The texts of the GUIDs, and whether the machine has one of them.
const HARDWARE: [(&[&[u8]], bool); 5] = [
    (&[], false),
    (&[b"other"], false),
    (&[b"board"], true),
    (&[b"other", b"family"], true),
    (&[b"family", b"other"], true),
];

#[test]
fn hardware_is_wanted(rt: HostRuntime) -> Result<(), Fail> {
    let missing = Some(UnmetCause::HardwareMissing);
    let mut rows = Vec::new(rt.alloc());
    for (texts, is_there) in &HARDWARE {
        let any = guids(rt.alloc(), texts)?;
        rows.push((
            Requirement::Hardware { any },
            if *is_there { None } else { missing },
        ))?;
    }
    look(&rt, HUB, rows)
}

#[test]
fn hardware_is_ruled_out(rt: HostRuntime) -> Result<(), Fail> {
    let forbidden = Some(UnmetCause::HardwareForbidden);
    let mut rows = Vec::new(rt.alloc());
    for (texts, is_there) in &HARDWARE {
        let any = guids(rt.alloc(), texts)?;
        rows.push((
            Requirement::NotHardware { any },
            if *is_there { forbidden } else { None },
        ))?;
    }
    look(&rt, HUB, rows)
}

const FEATURES: [(&[u8], Option<UnmetCause>); 3] = [
    (b"detach-action", None),
    (b"show-image", None),
    (b"show", Some(UnmetCause::ClientFeatureMissing)),
];

#[test]
fn the_client_has_its_features(rt: HostRuntime) -> Result<(), Fail> {
    let mut rows = Vec::new(rt.alloc());
    for (text, cause) in &FEATURES {
        let feature = name(text)?;
        rows.push((Requirement::Client { feature }, *cause))?;
    }
    look(&rt, HUB, rows)
}

// Devices that are wanted, by their GUIDs: where each is there, where the third isn't, and none at all.
const THIRD: Unmet = Unmet {
    index: 2,
    cause: UnmetCause::NoSuchDevice,
};

const WANTED: [(usize, &[&[u8]], Option<Option<Unmet>>); 4] = [
    (
        HUB,
        &[b"hub", b"root", b"dock", b"busy", b"twin"],
        Some(Some(THIRD)),
    ),
    (HUB, &[b"hub", b"root", b"twin"], Some(None)),
    (HUB, &[], Some(None)),
    (DOCK, &[b"hub"], None),
];

fn devices_wanted(alloc: Global, texts: &[&[u8]]) -> Result<Vec<Requirement>, Fail> {
    let mut list = Vec::new(alloc);
    for text in texts {
        let guid = guid_of(text);
        list.push(Requirement::Device { guid, test: None })?;
    }
    Ok(list)
}

#[test]
fn the_least_index_is_named(rt: HostRuntime) -> Result<(), Fail> {
    let scene = Scene::of(rt.alloc(), &ROWS)?;
    for (device, texts, expected) in &WANTED {
        let list = devices_wanted(rt.alloc(), texts)?;
        assert_eq!(rt; scene.first_unmet(*device, list.as_slice()), *expected);
    }
    Ok(())
}
