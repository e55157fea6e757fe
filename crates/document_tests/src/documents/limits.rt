//! How long lists and texts may be.
use super::{BOARD, Frame, MACHINE, SECTION, framed, note, told};
use std::alloc::Global;
use std::test::Fail;

/// A list or a text, by what stands round its parts: the most of them, and what is told of one more.
#[derive(Clone, Copy)]
struct Limit {
    front: &'static str,
    part: &'static str,
    between: &'static str,
    back: &'static str,
    most: u32,
    fault: &'static str,
}

/// A list of texts, which has up to 64.
fn list(front: &'static str, fault: &'static str) -> Limit {
    Limit {
        front,
        part: "\"2082b5e0-7a64-478a-b1b2-e3404fab6dad\"",
        between: ",",
        back: "]",
        most: 64,
        fault,
    }
}

/// A text of so many bytes.
fn text(front: &'static str, most: u32, fault: &'static str) -> Limit {
    Limit {
        front,
        part: "0",
        between: "",
        back: "\"",
        most,
        fault,
    }
}

/// So many parts, and what stands round them.
fn parts(alloc: Global, limit: Limit, count: u32) -> Result<String, Fail> {
    let mut all = String::from_str(alloc, limit.front)?;
    for i in 0..count {
        if 0 < i {
            all.push_str(limit.between)?;
        }
        all.push_str(limit.part)?;
    }
    all.push_str(limit.back)?;
    Ok(all)
}

/// Notes what is told of so many parts, where it isn't what was wanted.
fn note_parts(
    alloc: Global,
    wrong: &mut String,
    frame: Frame,
    limit: Limit,
    count: u32,
    want: &str,
) -> Result<(), Fail> {
    let parts = parts(alloc, limit, count)?;
    let text = framed(alloc, frame, parts.as_str())?;
    note(alloc, wrong, text.as_str(), limit.front, want)
}

/// Notes what is told of the most parts and of one more, where it isn't what was wanted.
fn note_limit(alloc: Global, wrong: &mut String, frame: Frame, limit: Limit) -> Result<(), Fail> {
    note_parts(alloc, wrong, frame, limit, limit.most, "read")?;
    let more = limit.most.saturating_add(1);
    note_parts(alloc, wrong, frame, limit, more, limit.fault)
}

/// Lists whose limit doesn't hold.
fn wrong_lists(
    alloc: Global,
    frame: Frame,
    lists: &[(&'static str, &'static str)],
) -> Result<String, Fail> {
    let mut wrong = String::new(alloc);
    for (front, fault) in lists {
        note_limit(alloc, &mut wrong, frame, list(front, fault))?;
    }
    Ok(wrong)
}

/// Texts whose limit doesn't hold.
fn wrong_texts(
    alloc: Global,
    frame: Frame,
    texts: &[(&'static str, u32, &'static str)],
) -> Result<String, Fail> {
    let mut wrong = String::new(alloc);
    for (front, most, fault) in texts {
        note_limit(alloc, &mut wrong, frame, text(front, *most, fault))?;
    }
    Ok(wrong)
}

const MACHINE_LISTS: &[(&str, &str)] = &[("\"hardware\":[", "machine 0 0 0 hardware: too-many")];

#[test]
fn the_list_of_the_machine(rt: HostRuntime) -> Result<(), Fail> {
    let wrong = wrong_lists(rt.alloc(), MACHINE, MACHINE_LISTS)?;
    assert_eq!(rt; wrong.as_str(), "");
    Ok(())
}

const DAEMON: &[(&str, u32, &str)] = &[("\"daemon\":\"", 64, "machine 0 0 0 daemon: bad-version")];

#[test]
fn the_version_of_the_daemon(rt: HostRuntime) -> Result<(), Fail> {
    let wrong = wrong_texts(rt.alloc(), MACHINE, DAEMON)?;
    assert_eq!(rt; wrong.as_str(), "");
    Ok(())
}

const SKU: Frame = Frame {
    old: "\"pool\":16",
    front: "\"pool\":16,\"smbios\":{",
    back: "}",
};

const SKU_TEXT: &[(&str, u32, &str)] = &[("\"sku\":\"", 255, "machine 0 0 0 smbios: wrong-kind")];

#[test]
fn texts_of_the_firmware(rt: HostRuntime) -> Result<(), Fail> {
    let wrong = wrong_texts(rt.alloc(), SKU, SKU_TEXT)?;
    assert_eq!(rt; wrong.as_str(), "");
    Ok(())
}

const BOARD_LISTS: &[(&str, &str)] = &[
    ("\"vendor-ids\":[", "boards 0 0 0 vendor-ids: too-many"),
    ("\"instance-ids\":[", "boards 0 0 0 instance-ids: too-many"),
    (
        "\"loader-instance-ids\":[",
        "boards 0 0 0 loader-instance-ids: too-many",
    ),
    ("\"counterparts\":[", "boards 0 0 0 counterparts: too-many"),
];

#[test]
fn lists_of_a_board(rt: HostRuntime) -> Result<(), Fail> {
    let wrong = wrong_lists(rt.alloc(), BOARD, BOARD_LISTS)?;
    assert_eq!(rt; wrong.as_str(), "");
    Ok(())
}

const BOARD_TEXTS: &[(&str, u32, &str)] = &[
    ("\"port\":\"", 64, "boards 0 0 0 port: wrong-kind"),
    ("\"physical\":\"", 255, "boards 0 0 0 physical: wrong-kind"),
    ("\"logical\":\"", 255, "boards 0 0 0 logical: wrong-kind"),
    ("\"plugin\":\"", 64, "boards 0 0 0 plugin: wrong-kind"),
    ("\"name\":\"", 255, "boards 0 0 0 name: wrong-kind"),
    ("\"vendor\":\"", 255, "boards 0 0 0 vendor: wrong-kind"),
    ("\"protocol\":\"", 64, "boards 0 0 0 protocol: wrong-kind"),
    (
        "\"bootloader-version\":\"",
        64,
        "boards 0 0 0 bootloader-version: bad-version",
    ),
    ("\"image\":\"", 255, "boards 0 0 0 image: wrong-kind"),
];

#[test]
fn texts_of_a_board(rt: HostRuntime) -> Result<(), Fail> {
    let wrong = wrong_texts(rt.alloc(), BOARD, BOARD_TEXTS)?;
    assert_eq!(rt; wrong.as_str(), "");
    Ok(())
}

/// Sections of faulty entries, with one entry more than they may have.
const SECTIONS: &[(&str, u32, &str)] = &[
    ("\"quirks\":[", 65, "document 0 0 0 quirks: too-many"),
    (
        "\"components\":[",
        4097,
        "document 0 0 0 components: too-many",
    ),
    ("\"boards\":[", 257, "document 0 0 0 boards: too-many"),
    ("\"clients\":[", 17, "document 0 0 0 clients: too-many"),
    ("\"boots\":[", 33, "document 0 0 0 boots: too-many"),
];

/// A section of so many faulty entries.
fn section_of(front: &'static str, count: u32, fault: &'static str) -> Limit {
    Limit {
        front,
        part: "3",
        between: ",",
        back: "]",
        most: count,
        fault,
    }
}

#[test]
fn the_count_stands_before_the_entries(rt: HostRuntime) -> Result<(), Fail> {
    let mut wrong = String::new(rt.alloc());
    for (front, count, fault) in SECTIONS {
        let section = section_of(front, *count, fault);
        note_parts(rt.alloc(), &mut wrong, SECTION, section, *count, fault)?;
    }
    assert_eq!(rt; wrong.as_str(), "");
    Ok(())
}

/// A quirk file of nothing but blanks.
const FILE: Limit = Limit {
    front: "\"quirks\":[\"",
    part: "    ",
    between: "",
    back: "\"]",
    most: 262_144,
    fault: "quirks 0 0 0 entry: bad-quirk 5 0",
};

#[test]
fn the_largest_quirk_file(rt: HostRuntime) -> Result<(), Fail> {
    let alloc = rt.alloc();
    let mut wrong = String::new(alloc);
    note_limit(alloc, &mut wrong, SECTION, FILE)?;
    assert_eq!(rt; wrong.as_str(), "");
    Ok(())
}

/// A member of the machine's software, or a planned fault, of that number.
fn numbered(alloc: Global, planned: bool, number: u32) -> Result<String, Fail> {
    if planned {
        Ok(format!(in alloc; r#"{{"call":{number},"fault":"gone"}}"#)?)
    } else {
        Ok(format!(in alloc; r#""{number}":"1""#)?)
    }
}

/// So many of them, between commas.
fn all_numbered(alloc: Global, planned: bool, count: u32) -> Result<String, Fail> {
    let mut all = String::new(alloc);
    for i in 0..count {
        if 0 < i {
            all.push_str(",")?;
        }
        all.push_str(numbered(alloc, planned, i.saturating_add(1))?.as_str())?;
    }
    Ok(all)
}

const IDS: Frame = Frame {
    old: "\"pool\":16",
    front: "\"pool\":16,\"ids\":{",
    back: "}",
};

const PLAN: Frame = Frame {
    old: "\"plugin\":\"flash\"",
    front: "\"plugin\":\"flash\",\"faults\":[",
    back: "]",
};

/// A frame, whether planned faults stand in it, how many entries there are, and what is told.
type EntryLimit = (Frame, bool, u32, &'static str);

const ENTRIES: [EntryLimit; 4] = [
    (IDS, false, 64, "read"),
    (IDS, false, 65, "machine 0 0 0 ids: too-many"),
    (PLAN, true, 64, "read"),
    (PLAN, true, 65, "boards 0 0 0 faults: too-many"),
];

/// Whether that is told of so many entries.
fn is_told_of_numbers(alloc: Global, row: &EntryLimit) -> Result<bool, Fail> {
    let (frame, planned, count, want) = *row;
    let parts = all_numbered(alloc, planned, count)?;
    let text = framed(alloc, frame, parts.as_str())?;
    let told = told(alloc, text.as_bytes())?;
    Ok(told.as_str() == want)
}

#[test]
fn limits_of_entries_that_differ(rt: HostRuntime) -> Result<(), Fail> {
    for row in &ENTRIES {
        let count = row.2;
        assert!(rt; is_told_of_numbers(rt.alloc(), row)?, "{count} entries");
    }
    Ok(())
}

/// How many lists stand in one another, and what is told. The whole object is the first level, and 127
/// levels are read.
const DEPTHS: [(u32, &str); 3] = [
    (126, "read"),
    (127, "document 0 0 0 text: not-json"),
    (128, "document 0 0 0 text: not-json"),
];

/// What is told of so many lists in one another.
fn told_of_nested(alloc: Global, depth: u32) -> Result<String, Fail> {
    let nested = nested(alloc, depth)?;
    let text = framed(alloc, SECTION, nested.as_str())?;
    told(alloc, text.as_bytes())
}

#[test]
fn nested_lists(rt: HostRuntime) -> Result<(), Fail> {
    for (depth, want) in &DEPTHS {
        let told = told_of_nested(rt.alloc(), *depth)?;
        assert_eq!(rt; told.as_str(), *want, "{depth} lists");
    }
    Ok(())
}

/// A member that nobody knows, with so many lists in one another.
fn nested(alloc: Global, depth: u32) -> Result<String, Fail> {
    let mut text = String::from_str(alloc, "\"x\":")?;
    for _ in 0..depth {
        text.push_str("[")?;
    }
    for _ in 0..depth {
        text.push_str("]")?;
    }
    Ok(text)
}
