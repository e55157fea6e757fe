//! What `explain` says of installs.
use crate::documents::{BASE, changed, sink_of, source_of, told};
use board_plugins::{Capsule, Flash, Loader, Power};
use document_commands::{Ended, explain};
use fw_base::Name;
use outer_traits::{MemorySink, MemorySource};
use plugin_trait::Plugin;
use std::alloc::Global;
use std::test::Fail;
use version_formats::Version;

/// An install of a version at a port is explained, with the plugins that there are.
fn explain_into(
    alloc: Global,
    source: &mut MemorySource,
    port: Name,
    version: Version,
    sink: &mut MemorySink,
) -> Result<Ended, Fail> {
    let mut plugins: Vec<Box<dyn Plugin>> = Vec::new(alloc);
    plugins.push(Box::new(alloc, Flash::new(alloc)?)?)?;
    plugins.push(Box::new(alloc, Loader::new(alloc)?)?)?;
    plugins.push(Box::new(alloc, Capsule::new(alloc)?)?)?;
    plugins.push(Box::new(alloc, Power::new(alloc)?)?)?;
    Ok(explain(alloc, source, port, version, plugins, sink))
}

/// What is told of it.
fn explained_into(
    alloc: Global,
    source: &mut MemorySource,
    port: &[u8],
    version: &[u8],
    sink: &mut MemorySink,
) -> Result<String, Fail> {
    let port = Name::read(port)?;
    let version = Version::read(version)?;
    let ended = explain_into(alloc, source, port, version, sink)?;
    told(alloc, &ended, sink.bytes())
}

/// What is told of an install of a version at a port, over a document.
fn explained(alloc: Global, document: &str, port: &[u8], version: &[u8]) -> Result<String, Fail> {
    let mut source = source_of(alloc, document, 0)?;
    let mut sink = sink_of(alloc, 1000)?;
    explained_into(alloc, &mut source, port, version, &mut sink)
}

/// A text of the base document, another in its place, and what is told of 1.1.0 at its port then.
type Change = (&'static str, &'static str, &'static str);

/// What is told of 1.1.0 at the port of the document that is changed so.
fn explained_of(alloc: Global, change: &Change) -> Result<String, Fail> {
    let (old, new, _) = *change;
    let document = changed(alloc, old, new)?;
    explained(alloc, document.as_str(), b"usb1", b"1.1.0")
}

const UNMET: Change = (
    r#"{"tag":"firmware","text":"vendor-id","compare":"regex","version":"USB:0x0A5C|USB:0x17EF"},
{"tag":"firmware","compare":"ge","version":"1.0.0"}"#,
    r#"{"tag":"id","text":"org.freedesktop.fwupd","compare":"ge","version":"99"},
{"tag":"firmware","compare":"ge","version":"5"}"#,
    "explain usb1 1.1.0\n  0 holds\n  1 unmet 2 version-compare\n  2 unmet 2 version-compare\nverdict refused 10 unmet 1 2 version-compare\n",
);

#[test]
fn requirements_that_are_unmet_are_told(rt: HostRuntime) -> Result<(), Fail> {
    let told = explained_of(rt.alloc(), &UNMET)?;
    assert_eq!(rt; told.as_str(), UNMET.2);
    Ok(())
}

/// A port, a version, and what is told of it over the base document.
type Row = (&'static [u8], &'static [u8], &'static str);

const ROWS: [Row; 5] = [
    (
        b"usb1",
        b"1.1.0",
        "explain usb1 1.1.0\n  0 holds\n  1 holds\n  2 holds\nverdict accept\n",
    ),
    (
        b"usb1",
        b"9.9",
        "explain usb1 9.9\nverdict refused 2 no-release\n",
    ),
    (
        b"usb2",
        b"1.1.0",
        "explain usb2 1.1.0\nverdict refused 1 no-device\n",
    ),
    (
        b"2082b5e0-7a64-478a-b1b2-e3404fab6dad",
        b"1.1.0",
        "explain 2082b5e0-7a64-478a-b1b2-e3404fab6dad 1.1.0\nverdict refused 1 no-device\n",
    ),
    (
        b"usb1",
        b"1.0.0",
        "explain usb1 1.0.0\n  0 holds\n  1 holds\n  2 holds\nverdict refused 8 same-version\n",
    ),
];

#[test]
fn verdicts_are_told(rt: HostRuntime) -> Result<(), Fail> {
    for (port, version, wanted) in &ROWS {
        let told = explained(rt.alloc(), BASE, port, version)?;
        assert_eq!(rt; told.as_str(), *wanted);
    }
    Ok(())
}

/// What is told behind the requirements, which hold.
const CHANGES: [Change; 3] = [
    (r#""pool":16"#, r#""pool":0"#, "13 no-room 1 0\n"),
    (
        r#""pool":16},"#,
        r#""pool":16,"on-ac":false,"x":0},"quirks":["[2082b5e0-7a64-478a-b1b2-e3404fab6dad]\nFlags = internal"],"#,
        "11 veto power\n",
    ),
    (
        r#""version-format":"#,
        r#""size-max":13,"version-format":"#,
        "12 size 14 0 13\n",
    ),
];

const REFUSED: &str = "explain usb1 1.1.0\n  0 holds\n  1 holds\n  2 holds\nverdict refused ";

#[test]
fn machine_and_plugins_count(rt: HostRuntime) -> Result<(), Fail> {
    for change in &CHANGES {
        let told = explained_of(rt.alloc(), change)?;
        assert_eq!(rt; told.as_str().strip_prefix(REFUSED), Some(change.2));
    }
    Ok(())
}
