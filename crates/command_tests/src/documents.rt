//! The base document, and how the end of a command is told.
use document_commands::Ended;
use outer_traits::{MemorySink, MemorySource};
use std::alloc::{AllocError, Global};
use std::test::Fail;

/// The base document: one board, whose firmware of version 1.0.0 may be updated to 1.1.0.
pub const BASE: &str = r#"{"format":1,"machine":{"daemon":"1.9.5","pool":16},
"components":[{"id":"com.example.hub","name":"Hub",
"provides":["2082b5e0-7a64-478a-b1b2-e3404fab6dad"],
"requires":[
{"tag":"id","text":"org.freedesktop.fwupd","compare":"ge","version":"1.8.0"},
{"tag":"firmware","text":"vendor-id","compare":"regex","version":"USB:0x0A5C|USB:0x17EF"},
{"tag":"firmware","compare":"ge","version":"1.0.0"}],
"releases":[{"version":"1.1.0","sha256":"9770ab3285028befb05af65f2ad3bd2d36afb87626032bc8a9ac195219be71d7","size":14},
{"version":"1.0.0","sha256":"c9a69fece8c4c54b1942720921d0cc74b307337503b677c013941c03278e2c46","size":14}]}],
"boards":[{"port":"usb1","physical":"usb-1","plugin":"flash","vendor-ids":["USB:0x0A5C"],
"instance-ids":["2082b5e0-7a64-478a-b1b2-e3404fab6dad"],"flags":["updatable"],
"version-format":"triplet","image":"EMU1 01000000\n"}],
"clients":[{}],
"boots":[{"time":1000,"scripts":[[
{"do":"install","tag":"t1","device":"usb1","version":"1.1.0"}]]}]}"#;

/// The base document with another text in the place of one of its texts.
pub fn changed(alloc: Global, old: &str, new: &str) -> Result<String, Fail> {
    let (before, behind) = BASE.split_once(old).unwrap_or(("no such text", ""));
    let mut text = String::from_str(alloc, before)?;
    text.push_str(new)?;
    text.push_str(behind)?;
    Ok(text)
}

/// A source of a document, which gives 100 bytes at a time and fails at that call.
pub fn source_of(alloc: Global, document: &str, failing: u32) -> Result<MemorySource, Fail> {
    let bytes = document.as_bytes().to_vec(alloc)?;
    let calls = [failing].to_vec(alloc)?;
    Ok(MemorySource::new(bytes, 100, calls))
}

/// A sink of so much room.
pub fn sink_of(alloc: Global, room: usize) -> Result<MemorySink, Fail> {
    Ok(MemorySink::new(alloc, room, Vec::new(alloc))?)
}

/// What went wrong, where something did.
fn told_end(alloc: Global, ended: &Ended) -> Result<String, AllocError> {
    match ended {
        Ended::Done => String::from_str(alloc, ""),
        Ended::SourceFault => String::from_str(alloc, "no reading: "),
        Ended::TooLong => String::from_str(alloc, "too long: "),
        Ended::Document { place, reason } => format!(in alloc; "{place}: {reason}: "),
        Ended::Plugins(_) => String::from_str(alloc, "no arrangement: "),
        Ended::SinkFault => String::from_str(alloc, "no writing: "),
        Ended::NoMemory => String::from_str(alloc, "no memory: "),
    }
}

/// What is told of the end of a command: what was printed, where it went well; else what went wrong, and
/// what was printed before.
pub fn told(alloc: Global, ended: &Ended, printed: &[u8]) -> Result<String, Fail> {
    let mut text = told_end(alloc, ended)?;
    text.push_str(std::str::from_utf8(printed).unwrap_or("no text"))?;
    Ok(text)
}
