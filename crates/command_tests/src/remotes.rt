//! What `remotes` says of documents.
use crate::documents::{BASE, changed, sink_of, source_of, told};
use document_commands::remotes;
use outer_traits::{MemorySink, MemorySource};
use std::alloc::Global;
use std::test::Fail;

/// A remote by its own members, and the versions of each of its components, which have the ID of the base document's.
type Row = (&'static str, &'static [&'static [&'static str]]);

const TESTING: &str = r#""name":"testing","order":5"#;

const DISABLED: &str = r#""name":"testing","order":5,"enabled":false"#;

const DIGEST: &str = "9770ab3285028befb05af65f2ad3bd2d36afb87626032bc8a9ac195219be71d7";

/// Remotes behind the base document's components, and what is told of them behind the line of these.
const ROWS: &[(&[Row], &str)] = &[
    (&[], "releases 2\n"),
    // The release that the document's own components have too is hidden.
    (
        &[(TESTING, &[&["1.1.0", "1.2.0"]])],
        "remote testing order 5 enabled components 1 releases 2 kept 1\nreleases 3\n",
    ),
    (
        &[(DISABLED, &[&["1.1.0", "1.2.0"]])],
        "remote testing order 5 disabled components 1 releases 2 kept 0\nreleases 2\n",
    ),
    // So is one whose version is equal and of another text.
    (
        &[(TESTING, &[&["01.1.0", "1.01.00", "1.1"]])],
        "remote testing order 5 enabled components 1 releases 3 kept 1\nreleases 3\n",
    ),
    // Two components of one ID in one remote leave each other alone.
    (
        &[(TESTING, &[&["1.2.0"], &["1.2.0"], &[]])],
        "remote testing order 5 enabled components 3 releases 2 kept 2\nreleases 4\n",
    ),
    // Of two remotes the one of the lower order comes first, and of one order the one that stands first.
    (
        &[
            (r#""name":"b","order":2"#, &[&["2"]]),
            (r#""name":"a","order":1"#, &[&["2", "3"]]),
        ],
        "remote b order 2 enabled components 1 releases 1 kept 0\nremote a order 1 enabled components 1 releases 2 kept 2\nreleases 4\n",
    ),
    (
        &[
            (r#""name":"b""#, &[&["2"]]),
            (r#""name":"a""#, &[&["2", "3"]]),
        ],
        "remote b order 0 enabled components 1 releases 1 kept 1\nremote a order 0 enabled components 1 releases 2 kept 1\nreleases 4\n",
    ),
];

const LOCAL: &str = "remote local order 0 enabled components 1 releases 2 kept 2\n";

fn put_releases(alloc: Global, text: &mut String, versions: &[&str]) -> Result<(), Fail> {
    for (i, version) in versions.iter().enumerate() {
        let between = if i == 0 { "" } else { "," };
        let release = format!(in alloc;
            "{between}{{\"version\":\"{version}\",\"sha256\":\"{DIGEST}\",\"size\":14}}"
        )?;
        text.push_str(&release)?;
    }
    Ok(())
}

fn put_component(alloc: Global, text: &mut String, versions: &[&str]) -> Result<(), Fail> {
    text.push_str("{\"id\":\"com.example.hub\",\"provides\":[],\"releases\":[")?;
    put_releases(alloc, text, versions)?;
    text.push_str("]}")?;
    Ok(())
}

fn put_components(alloc: Global, text: &mut String, components: &[&[&str]]) -> Result<(), Fail> {
    for (i, versions) in components.iter().enumerate() {
        text.push_str(if i == 0 { "" } else { "," })?;
        put_component(alloc, text, versions)?;
    }
    Ok(())
}

fn put_remote(alloc: Global, text: &mut String, row: &Row) -> Result<(), Fail> {
    let (members, components) = *row;
    text.push_str("{")?;
    text.push_str(members)?;
    text.push_str(",\"components\":[")?;
    put_components(alloc, text, components)?;
    text.push_str("]}")?;
    Ok(())
}

/// The base document with these remotes.
fn with_remotes(alloc: Global, rows: &[Row]) -> Result<String, Fail> {
    let mut text = String::from_str(alloc, "\"remotes\":[")?;
    for (i, row) in rows.iter().enumerate() {
        text.push_str(if i == 0 { "" } else { "," })?;
        put_remote(alloc, &mut text, row)?;
    }
    text.push_str("],\"boards\":")?;
    changed(alloc, "\"boards\":", text.as_str())
}

/// What is told of the remotes of a source into a sink.
fn remotes_into(
    alloc: Global,
    source: &mut MemorySource,
    sink: &mut MemorySink,
) -> Result<String, Fail> {
    let ended = remotes(alloc, source, sink);
    told(alloc, &ended, sink.bytes())
}

/// What is told of the remotes of a document, whose source fails at a call, into a sink of some room.
fn remotes_of(alloc: Global, document: &str, failing: u32, room: usize) -> Result<String, Fail> {
    let mut source = source_of(alloc, document, failing)?;
    let mut sink = sink_of(alloc, room)?;
    remotes_into(alloc, &mut source, &mut sink)
}

/// What is told of a document with these remotes.
fn remotes_told(alloc: Global, rows: &[Row]) -> Result<String, Fail> {
    let document = with_remotes(alloc, rows)?;
    remotes_of(alloc, document.as_str(), 0, 1000)
}

/// What is told of the first row that is told otherwise.
fn wrong_row(alloc: Global) -> Result<String, Fail> {
    for (rows, more) in ROWS {
        let told = remotes_told(alloc, rows)?;
        if told.as_str().strip_prefix(LOCAL) != Some(*more) {
            return Ok(told);
        }
    }
    Ok(String::new(alloc))
}

#[test]
fn remotes_are_told(rt: HostRuntime) -> Result<(), Fail> {
    let wrong = wrong_row(rt.alloc())?;
    assert_eq!(rt; wrong.as_str(), "");
    Ok(())
}

#[test]
fn without_the_section_there_is_one(rt: HostRuntime) -> Result<(), Fail> {
    let alloc = rt.alloc();
    let told = remotes_of(alloc, BASE, 0, 1000)?;
    assert_eq!(rt; told.as_str().strip_prefix(LOCAL), Some("releases 2\n"));
    Ok(())
}

#[test]
fn faults_have_causes(rt: HostRuntime) -> Result<(), Fail> {
    let alloc = rt.alloc();
    assert_eq!(rt; remotes_of(alloc, BASE, 3, 1000)?.as_str(), "no reading: ");
    assert_eq!(rt;
        remotes_of(alloc, BASE, 0, 6)?.as_str(),
        "no writing: remote"
    );
    Ok(())
}
