//! What no clause says: that calls succeed, and that the faults are the ones that were meant.
//!
//! A row is a text, an arrow, and what is told of the base document with that text in it: the first
//! fault with its place and reason, or `read`.
use site_files::{SiteFault, read_site};
use site_types::{Site, SiteBoard};
use std::alloc::Global;
use std::test::Fail;

mod boards;
mod components;
mod limits;
mod machine;
mod order;
mod remotes;
mod whole;

/// The base document.
const BASE: &str = r#"{"format":1,"machine":{"daemon":"1.9.5","pool":16},
"components":[{"id":"com.example.hub","name":"Hub",
"provides":["2082b5e0-7a64-478a-b1b2-e3404fab6dad"],
"requires":[
{"tag":"id","text":"org.freedesktop.fwupd","compare":"ge","version":"1.8.0"},
{"tag":"firmware","text":"vendor-id","compare":"regex","version":"USB:0x0A5C|USB:0x17EF"},
{"tag":"firmware","compare":"ge","version":"1.0.0"}],
"releases":[{"version":"1.1.0","sha256":"b3f5d0e3a9f4f0f4b3f5d0e3a9f4f0f4b3f5d0e3a9f4f0f4b3f5d0e3a9f4f0f4","size":14},
{"version":"1.0.0","sha256":"a3f5d0e3a9f4f0f4b3f5d0e3a9f4f0f4b3f5d0e3a9f4f0f4b3f5d0e3a9f4f0f4","size":14}]}],
"boards":[{"port":"usb1","physical":"usb-1","plugin":"flash","vendor-ids":["USB:0x0A5C"],
"instance-ids":["2082b5e0-7a64-478a-b1b2-e3404fab6dad"],"flags":["updatable"],
"version-format":"triplet","image":"EMU1 01000000\n"}],
"clients":[{}],
"boots":[{"time":1000,"scripts":[[
{"do":"install","tag":"t1","device":"usb1","version":"1.1.0"}]]}]}"#;

/// Where the text of a row stands: between two others, in the place of a text of the base document.
#[derive(Clone, Copy)]
struct Frame {
    old: &'static str,
    front: &'static str,
    back: &'static str,
}

/// Members of the machine, behind those that are there. Of two with one name the last is read.
const MACHINE: Frame = Frame {
    old: r#""pool":16"#,
    front: r#""pool":16,"#,
    back: "",
};

/// Members of the only board, behind those that are there.
const BOARD: Frame = Frame {
    old: r#""image":"EMU1 01000000\n""#,
    front: r#""image":"EMU1 01000000\n","#,
    back: "",
};

/// Sections behind those that are there.
const SECTION: Frame = Frame {
    old: "}]]}]}",
    front: "}]]}],",
    back: "}",
};

/// What is told of a document: its first fault, or `read`.
fn told(alloc: Global, bytes: &[u8]) -> Result<String, Fail> {
    match read_site(alloc, bytes) {
        Ok(site) => told_of_site(alloc, site),
        Err(fault) => told_of_fault(alloc, fault),
    }
}

fn told_of_site(alloc: Global, _site: Site) -> Result<String, Fail> {
    Ok(String::from_str(alloc, "read")?)
}

fn told_of_fault(alloc: Global, fault: SiteFault) -> Result<String, Fail> {
    Ok(format!(in alloc; "{fault}")?)
}

/// The base document with a text in the frame.
fn framed(alloc: Global, frame: Frame, new: &str) -> Result<String, Fail> {
    let (before, behind) = BASE.split_once(frame.old).unwrap_or(("no such text", ""));
    let mut text = String::from_str(alloc, before)?;
    text.push_str(frame.front)?;
    text.push_str(new)?;
    text.push_str(frame.back)?;
    text.push_str(behind)?;
    Ok(text)
}

fn put_note(wrong: &mut String, new: &str, answer: &str) -> Result<(), Fail> {
    wrong.push_str(new)?;
    wrong.push_str(": ")?;
    wrong.push_str(answer)?;
    wrong.push_str("\n")?;
    Ok(())
}

/// Notes what is told of a document, where it isn't what was wanted.
fn note(alloc: Global, wrong: &mut String, text: &str, new: &str, want: &str) -> Result<(), Fail> {
    let answer = told(alloc, text.as_bytes())?;
    if answer.as_str() == want {
        Ok(())
    } else {
        put_note(wrong, new, answer.as_str())
    }
}

/// The rows of which something else is told.
fn wrong_rows(alloc: Global, frame: Frame, rows: &[&str]) -> Result<String, Fail> {
    let mut wrong = String::new(alloc);
    for row in rows {
        let (new, want) = row.split_once(" => ").unwrap_or((row, ""));
        let text = framed(alloc, frame, new)?;
        note(alloc, &mut wrong, text.as_str(), new, want)?;
    }
    Ok(wrong)
}

#[test]
fn the_base_document_is_read(rt: HostRuntime) -> Result<(), Fail> {
    let answer = told(rt.alloc(), BASE.as_bytes())?;
    assert_eq!(rt; answer.as_str(), "read");
    Ok(())
}

/// The board of the base document, with the defaults of what it doesn't state.
fn is_base_board(board: &SiteBoard) -> bool {
    let sheet = &board.sheet;
    sheet.priority == 0
        && sheet.size_min == 0
        && sheet.size_max == 4_194_304
        && sheet.duration == 0
        && sheet.protocol.is_none()
        && sheet.parent.is_none()
        && sheet.loader_guids.items().len() == 1
        && board.image.items() == b"EMU1 01000000\n".as_slice()
}

/// The base document, with the defaults of what it doesn't state.
fn is_base(site: &Site) -> bool {
    let machine = &site.machine;
    let has_board = match site.boards.items().first() {
        None => false,
        Some(board) => is_base_board(board),
    };
    has_board
        && site.pool == 16
        && machine.ids.items().len() == 1
        && machine.hardware.items().is_empty()
        && machine.on_ac
        && !machine.power_low
        && !machine.lid_closed
        && site.features.items().len() == 1
        && site.boots.items().len() == 1
        && site.scripts.items().len() == 1
}

#[test]
fn the_base_document_is_kept_as_stated(rt: HostRuntime) -> Result<(), Fail> {
    let site = read_site(rt.alloc(), BASE.as_bytes())?;
    assert!(rt; is_base(&site));
    Ok(())
}
