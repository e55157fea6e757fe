//! What `check` says of documents.
use crate::documents::{BASE, changed, sink_of, source_of, told};
use document_commands::check;
use outer_traits::{MemorySink, MemorySource};
use std::alloc::Global;
use std::test::Fail;

/// What is told of the check of a source into a sink.
fn checked_into(
    alloc: Global,
    source: &mut MemorySource,
    sink: &mut MemorySink,
) -> Result<String, Fail> {
    let ended = check(alloc, source, sink);
    told(alloc, &ended, sink.bytes())
}

/// What is told of the check of a document, whose source fails at a call, into a sink of some room.
fn checked(alloc: Global, document: &str, failing: u32, room: usize) -> Result<String, Fail> {
    let mut source = source_of(alloc, document, failing)?;
    let mut sink = sink_of(alloc, room)?;
    checked_into(alloc, &mut source, &mut sink)
}

const EMPTY: &str =
    r#"{"format":1,"machine":{"daemon":"1.9.5","pool":1},"components":[],"boards":[],"clients":[],"boots":[{"time":0}]}"#;

/// Documents, and what is told of them.
const DOCUMENTS: [(&str, &str); 3] = [
    (BASE, "ok boards 1 components 1 clients 1 boots 1\n"),
    (EMPTY, "ok boards 0 components 0 clients 0 boots 1\n"),
    (r#"{"format":1,"mach"#, "document 0 0 0 text: not-json: "),
];

#[test]
fn documents_are_checked(rt: HostRuntime) -> Result<(), Fail> {
    for (document, wanted) in &DOCUMENTS {
        assert_eq!(rt; checked(rt.alloc(), document, 0, 100)?.as_str(), *wanted);
    }
    Ok(())
}

#[test]
fn a_fault_is_told_at_its_place(rt: HostRuntime) -> Result<(), Fail> {
    let tripple = changed(rt.alloc(), "triplet", "tripple")?;
    assert_eq!(rt;
        checked(rt.alloc(), tripple.as_str(), 0, 100)?.as_str(),
        "boards 0 0 0 version-format: wrong-kind: "
    );
    Ok(())
}

#[test]
fn faults_have_causes(rt: HostRuntime) -> Result<(), Fail> {
    let alloc = rt.alloc();
    assert_eq!(rt; checked(alloc, BASE, 3, 100)?.as_str(), "no reading: ");
    assert_eq!(rt;
        checked(alloc, BASE, 0, 9)?.as_str(),
        "no writing: ok boards"
    );
    Ok(())
}
