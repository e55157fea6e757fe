//! What no clause says: that calls succeed, and that the words and numbers are the ones that were
//! meant.
use fw_base::{Line, Listed, Name};
use fw_facts::{DeviceFlag, DeviceFlags, Sheet};
use guid_ids::{DeviceId, Guid, guid_of};
use quirk_files::{QuirkBook, QuirkFault};
use std::alloc::Global;
use std::test::Fail;
use version_formats::Format;

/// The group of each row: a GUID of the sheet in runtime mode.
const GROUP: &str = "[2082b5e0-7a64-478a-b1b2-e3404fab6dad]\n";

/// The sheet without a quirk.
const BEFORE: &str = "flash|||triplet|-|0..4194304|0|0100000000|USB:0x0A5C,|2082,|";

/// What stands in a file under the group, and the sheet after it.
const ROWS: [(&str, &str); 19] = [
    ("", BEFORE),
    (
        "Plugin = dfu\nName=A hub\nVendor =\t Acme  \nVersionFormat=quad\nProtocol=org.usb.dfu\nFirmwareSizeMin=0x10\nFirmwareSizeMax=4096\nInstallDuration=0xffffffff",
        "dfu|A hub|Acme|quad|org.usb.dfu|16..4096|4294967295|0100000000|USB:0x0A5C,|2082,|",
    ),
    // The last that can be read.
    (
        "Plugin=a\nPlugin=b\nPlugin=c d\nVersionFormat=tripple\nProtocol=\nProtocol=p\nProtocol=",
        "b|||triplet|p|0..4194304|0|0100000000|USB:0x0A5C,|2082,|",
    ),
    (
        "Name=x\nVendor=y\nName =\nVendor=a\tb",
        "flash||y|triplet|-|0..4194304|0|0100000000|USB:0x0A5C,|2082,|",
    ),
    (
        "FirmwareSizeMax=007\nFirmwareSizeMin=0x\nInstallDuration=0x123456789",
        BEFORE,
    ),
    (
        "FirmwareSizeMax=4194305\nFirmwareSizeMin=4194304",
        "flash|||triplet|-|4194304..4194304|0|0100000000|USB:0x0A5C,|2082,|",
    ),
    (
        "InstallDuration=0xFf\nInstallDuration=0Xff\nInstallDuration=4294967296\nInstallDuration=0xg",
        "flash|||triplet|-|0..4194304|255|0100000000|USB:0x0A5C,|2082,|",
    ),
    (
        "Flags = ~updatable, require-ac ,,nonsense,~ locked,is-bootloader,~is-bootloader",
        "flash|||triplet|-|0..4194304|0|0010000000|USB:0x0A5C,|2082,|",
    ),
    (
        "Flags=locked,~locked,emulated\nFlags=~emulated,internal",
        "flash|||triplet|-|0..4194304|0|1100000000|USB:0x0A5C,|2082,|",
    ),
    (
        "VendorId = USB:0x17EF,USB:0x0A5C,USB:0x17EF, a b\nVendorId=USB:0x17EF",
        "flash|||triplet|-|0..4194304|0|0100000000|USB:0x0A5C,USB:0x17EF,|2082,|",
    ),
    (
        "Guid = 2082B5E0-7A64-478A-B1B2-E3404FAB6DAD,python.org,886313e1-3b8a-5372-9b90-0c9aee199e5d,a\tb",
        "flash|||triplet|-|0..4194304|0|0100000000|USB:0x0A5C,|2082,8863,|",
    ),
    (
        "CounterpartGuid=python.org",
        "flash|||triplet|-|0..4194304|0|0100000000|USB:0x0A5C,|2082,|8863,",
    ),
    ("Unknown = 1\n = x\nplugin=z\nPlugin\t=", BEFORE),
    (
        "# Plugin=x\r\n\r\n  \t\r\n Plugin = y\r",
        "y|||triplet|-|0..4194304|0|0100000000|USB:0x0A5C,|2082,|",
    ),
    (
        "Plugin=a=b",
        "a=b|||triplet|-|0..4194304|0|0100000000|USB:0x0A5C,|2082,|",
    ),
    ("[other]\nPlugin=x\n[ python.org]\nPlugin=x", BEFORE),
    // The loader side has the GUID of this instance ID.
    (
        "[python.org]\nPlugin=l",
        "l|||triplet|-|0..4194304|0|0100000000|USB:0x0A5C,|2082,|",
    ),
    // Lines count in their order, and not in that of their groups.
    (
        "[python.org]\nPlugin=one\n[2082B5E0-7a64-478a-b1b2-e3404fab6dad]\nPlugin=two\nName=n\n[886313e1-3b8a-5372-9b90-0c9aee199e5d]\nPlugin=three",
        "three|n||triplet|-|0..4194304|0|0100000000|USB:0x0A5C,|2082,|",
    ),
    // A GUID that is added makes no group match.
    (
        "Guid=python.org\nGuid=other.org\n[other.org]\nPlugin=x",
        "flash|||triplet|-|0..4194304|0|0100000000|USB:0x0A5C,|2082,8863,76d8,|",
    ),
];

/// Files, and their first faults.
const FAULTS: [(&[u8], QuirkFault); 16] = [
    (b"Flags = locked", QuirkFault::NoGroup { line: 1 }),
    (b"x", QuirkFault::NoGroup { line: 1 }),
    (b"\n# c\n[a]\nx\n", QuirkFault::NoEquals { line: 4 }),
    (b"[a", QuirkFault::BadGroup { line: 1 }),
    (b"[", QuirkFault::BadGroup { line: 1 }),
    (b"[]", QuirkFault::BadGroup { line: 1 }),
    (b"[a] x", QuirkFault::BadGroup { line: 1 }),
    (b"[a[]", QuirkFault::BadGroup { line: 1 }),
    (b"[a]]", QuirkFault::BadGroup { line: 1 }),
    (b"[a]\nb=c\r\r\n", QuirkFault::NotText { line: 2 }),
    (b"[a]\rb=c\n", QuirkFault::NotText { line: 1 }),
    (b"[a]\nb\n\x01", QuirkFault::NoEquals { line: 2 }),
    (b"[a]\nb=c\n# \x7f", QuirkFault::NotText { line: 3 }),
    (b"# \xc3\xa9\n\xff", QuirkFault::NotText { line: 2 }),
    (b"[a]\nb=\xc3\n", QuirkFault::NotText { line: 2 }),
    (b"\0", QuirkFault::NotText { line: 1 }),
];

fn one_guid(alloc: Global, text: &[u8]) -> Result<Listed<Guid>, Fail> {
    Ok(Listed::of(Vec::from_slice(alloc, &[guid_of(text)])?))
}

fn one_name(alloc: Global, text: &[u8]) -> Result<Listed<Name>, Fail> {
    Ok(Listed::of(Vec::from_slice(alloc, &[Name::read(text)?])?))
}

fn sheet(alloc: Global) -> Result<Sheet, Fail> {
    let port = Name::read(b"usb1")?;
    let plugin = Name::read(b"flash")?;
    Ok(Sheet {
        port,
        device: DeviceId::from_bytes([0; 20]),
        priority: 0,
        plugin,
        name: Line::empty(),
        vendor: Line::empty(),
        vendor_ids: one_name(alloc, b"USB:0x0A5C")?,
        runtime_guids: one_guid(alloc, b"2082b5e0-7a64-478a-b1b2-e3404fab6dad")?,
        loader_guids: one_guid(alloc, b"python.org")?,
        counterparts: Listed::of(Vec::new(alloc)),
        flags: DeviceFlags::empty().with(DeviceFlag::Updatable),
        format: Format::Triplet,
        protocol: None,
        bootloader: None,
        size_min: 0,
        size_max: 4_194_304,
        duration: 0,
        parent: None,
        unreachable: false,
        power_low: false,
        lid: false,
    })
}

fn text(bytes: &[u8]) -> &str {
    str::from_utf8(bytes).unwrap_or("?")
}

fn tell_guids(told: &mut String, guids: &[Guid]) -> Result<(), Fail> {
    for guid in guids {
        told.push_str(text(&guid.text()[..4]))?;
        told.push(',')?;
    }
    Ok(())
}

fn tell_flags(told: &mut String, flags: DeviceFlags) -> Result<(), Fail> {
    for flag in DeviceFlag::ALL {
        told.push(if flags.has(flag) { '1' } else { '0' })?;
    }
    Ok(())
}

fn tell_names(told: &mut String, names: &[Name]) -> Result<(), Fail> {
    for name in names {
        told.push_str(text(name.bytes()))?;
        told.push(',')?;
    }
    Ok(())
}

fn words_told(alloc: Global, sheet: &Sheet) -> Result<String, Fail> {
    Ok(format!(in alloc;
        "{}|{}|{}|{}|",
        text(sheet.plugin.bytes()),
        text(sheet.name.bytes()),
        text(sheet.vendor.bytes()),
        text(sheet.format.word())
    )?)
}

fn numbers_told(alloc: Global, sheet: &Sheet) -> Result<String, Fail> {
    let protocol = match &sheet.protocol {
        Some(protocol) => text(protocol.bytes()),
        None => "-",
    };
    Ok(format!(in alloc;
        "{protocol}|{}..{}|{}|",
        sheet.size_min, sheet.size_max, sheet.duration
    )?)
}

fn tell_lists(told: &mut String, sheet: &Sheet) -> Result<(), Fail> {
    tell_names(told, sheet.vendor_ids.items())?;
    told.push('|')?;
    tell_guids(told, sheet.runtime_guids.items())?;
    told.push('|')?;
    tell_guids(told, sheet.counterparts.items())
}

/// What quirks can change of a sheet, as one line.
fn told(alloc: Global, sheet: &Sheet) -> Result<String, Fail> {
    let mut told = words_told(alloc, sheet)?;
    told.push_str(&numbers_told(alloc, sheet)?)?;
    tell_flags(&mut told, sheet.flags)?;
    told.push('|')?;
    tell_lists(&mut told, sheet)?;
    Ok(told)
}

fn applied(alloc: Global, book: &QuirkBook) -> Result<String, Fail> {
    let mut sheet = sheet(alloc)?;
    book.apply(alloc, &mut sheet)?;
    told(alloc, &sheet)
}

#[test]
fn what_a_file_does_to_a_sheet(rt: HostRuntime) -> Result<(), Fail> {
    let alloc = rt.alloc();
    for (file, after) in ROWS {
        let mut book = QuirkBook::new(alloc);
        book.read_file(alloc, format!(in alloc; "{GROUP}{file}")?.as_bytes())?;
        assert_eq!(rt; applied(alloc, &book)?.as_str(), after, "{file}");
    }
    Ok(())
}

#[test]
fn the_first_faulty_line_is_named(rt: HostRuntime) -> Result<(), Fail> {
    let alloc = rt.alloc();
    let mut book = QuirkBook::new(alloc);
    for (file, fault) in FAULTS {
        assert!(rt; book.read_file(alloc, file) == Err(fault));
    }
    Ok(())
}

#[test]
fn a_refused_file_changes_nothing(rt: HostRuntime) -> Result<(), Fail> {
    let alloc = rt.alloc();
    let mut book = QuirkBook::new(alloc);
    book.read_file(alloc, format!(in alloc; "{GROUP}Plugin=a\n")?.as_bytes())?;
    let bad = format!(in alloc; "{GROUP}Plugin=b\nx\n")?;
    assert!(rt; book.read_file(alloc, bad.as_bytes()) == Err(QuirkFault::NoEquals { line: 3 }));
    book.read_file(alloc, format!(in alloc; "{GROUP}Name=n\n")?.as_bytes())?;
    assert_eq!(rt;
        applied(alloc, &book)?.as_str(),
        "a|n||triplet|-|0..4194304|0|0100000000|USB:0x0A5C,|2082,|"
    );
    Ok(())
}

#[test]
fn names_of_groups_and_files_up_to_their_limits(rt: HostRuntime) -> Result<(), Fail> {
    let alloc = rt.alloc();
    let mut book = QuirkBook::new(alloc);
    let mut group = [b'g'; 258];
    group[0] = b'[';
    group[256] = b']';
    assert!(rt; book.read_file(alloc, &group[..257]) == Ok(()));
    group[256] = b'g';
    group[257] = b']';
    assert!(rt; book.read_file(alloc, &group) == Err(QuirkFault::BadGroup { line: 1 }));
    let lines = vec![in alloc; b'\n'; 1_048_577]?;
    assert!(rt; book.read_file(alloc, &lines) == Err(QuirkFault::TooLarge { len: 1_048_577 }));
    assert!(rt; book.read_file(alloc, &lines[1..]) == Ok(()));
    assert_eq!(rt; applied(alloc, &book)?.as_str(), BEFORE);
    Ok(())
}

#[test]
fn lists_grow_past_64(rt: HostRuntime) -> Result<(), Fail> {
    let alloc = rt.alloc();
    let mut file = format!(in alloc; "{GROUP}VendorId=")?;
    for number in 0..200 {
        file.push_str(&format!(in alloc; "v{},", number % 100)?)?;
    }
    let mut book = QuirkBook::new(alloc);
    book.read_file(alloc, file.as_bytes())?;
    let mut sheet = sheet(alloc)?;
    book.apply(alloc, &mut sheet)?;
    assert_eq!(rt; sheet.vendor_ids.items().len(), 101);
    Ok(())
}
