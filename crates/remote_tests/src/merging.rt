//! What no clause says: that calls succeed, and that the merged catalogue is the one that was meant.
use fw_base::Name;
use fw_facts::Component;
use json_values::Scratch;
use release_catalogue::Catalogue;
use remote_set::{MergeFault, Merged, Remote, merge};
use std::alloc::Global;
use std::test::Fail;

/// A component by its ID and the versions of its releases.
type Stated = (&'static str, &'static [&'static str]);

/// A remote by its name, its order, whether it is enabled, and its components.
type Row = (&'static str, u32, bool, &'static [Stated]);

const DIGEST: &str = "9770ab3285028befb05af65f2ad3bd2d36afb87626032bc8a9ac195219be71d7";

fn releases(alloc: Global, versions: &[&str]) -> Result<String, Fail> {
    let mut text = String::new(alloc);
    for version in versions {
        if !text.is_empty() {
            text.push_str(",")?;
        }
        let one = format!(in alloc;
            "{{\"version\":\"{version}\",\"sha256\":\"{DIGEST}\",\"size\":14}}"
        )?;
        text.push_str(&one)?;
    }
    Ok(text)
}

fn catalogue(alloc: Global, components: &[Stated]) -> Result<Catalogue, Fail> {
    let mut text = String::new(alloc);
    text.push_str("[")?;
    for (id, versions) in components {
        if text.len() > 1 {
            text.push_str(",")?;
        }
        let releases = releases(alloc, versions)?;
        let one = format!(in alloc;
            "{{\"id\":\"{id}\",\"provides\":[],\"releases\":[{releases}]}}"
        )?;
        text.push_str(&one)?;
    }
    text.push_str("]")?;
    let mut scratch = Scratch::new(alloc);
    let value = json_values::read(alloc, text.as_bytes(), &mut scratch)?;
    Ok(Catalogue::from_value(alloc, &value)?)
}

fn remote(alloc: Global, row: &Row) -> Result<Remote, Fail> {
    let (name, order, enabled, components) = *row;
    Ok(Remote {
        name: Name::read(name.as_bytes())?,
        order,
        enabled,
        catalogue: catalogue(alloc, components)?,
    })
}

fn put_bytes(text: &mut String, bytes: &[u8]) -> Result<(), Fail> {
    text.push_str(std::str::from_utf8(bytes).unwrap_or("?"))?;
    Ok(())
}

/// The components, each with its ID and the versions of its releases.
fn put_components(text: &mut String, components: &[Component]) -> Result<(), Fail> {
    for component in components {
        put_bytes(text, component.id.bytes())?;
        for release in component.releases.items() {
            text.push_str(" ")?;
            put_bytes(text, release.version.bytes())?;
        }
        text.push_str("; ")?;
    }
    Ok(())
}

fn remotes_of(alloc: Global, rows: &[Row]) -> Result<Vec<Remote>, Fail> {
    let mut remotes = Vec::new(alloc);
    for row in rows {
        remotes.push(remote(alloc, row)?)?;
    }
    Ok(remotes)
}

/// The components, and how many releases of each remote stay.
fn put_merged(alloc: Global, text: &mut String, merged: &Merged) -> Result<(), Fail> {
    put_components(text, merged.catalogue.components())?;
    text.push_str("kept")?;
    for kept in &merged.kept {
        let one = format!(in alloc; " {kept}")?;
        text.push_str(&one)?;
    }
    Ok(())
}

fn put_fault(text: &mut String, fault: &MergeFault) -> Result<(), Fail> {
    match fault {
        MergeFault::Duplicate { name } => {
            text.push_str("duplicate ")?;
            put_bytes(text, name.bytes())?;
        }
        MergeFault::TooMany { .. } => text.push_str("too many")?,
        MergeFault::NoMemory => text.push_str("no memory")?,
    }
    Ok(())
}

/// What is told of merging some remotes.
fn told(alloc: Global, rows: &[Row]) -> Result<String, Fail> {
    let mut text = String::new(alloc);
    let remotes = remotes_of(alloc, rows)?;
    if remotes.len() > 17 {
        return Ok(text);
    }
    match merge(alloc, remotes) {
        Ok(merged) => put_merged(alloc, &mut text, &merged)?,
        Err(fault) => put_fault(&mut text, &fault)?,
    }
    Ok(text)
}

const HUB: &str = "hub";

/// What is merged, and what is told of it.
const ROWS: &[(&[Row], &str)] = &[
    (&[], "kept"),
    (&[("a", 0, true, &[])], "kept 0"),
    // The earlier remote's release hides the later one's.
    (
        &[
            ("local", 0, true, &[(HUB, &["1.1.0", "1.0.0"])]),
            ("testing", 5, true, &[(HUB, &["1.1.0", "1.2.0"])]),
        ],
        "hub 1.1.0 1.0.0; hub 1.2.0; kept 2 1",
    ),
    // A remote that isn't enabled offers nothing, and hides nothing.
    (
        &[
            ("local", 0, true, &[(HUB, &["1.1.0", "1.0.0"])]),
            ("testing", 5, false, &[(HUB, &["1.1.0", "1.2.0"])]),
        ],
        "hub 1.1.0 1.0.0; kept 2 0",
    ),
    (
        &[
            ("a", 0, false, &[(HUB, &["1"])]),
            ("b", 1, true, &[(HUB, &["1"])]),
        ],
        "hub 1; kept 0 1",
    ),
    // The lower order comes first, whatever the place or the name.
    (
        &[
            ("a", 2, true, &[(HUB, &["1", "2"])]),
            ("b", 1, true, &[(HUB, &["2", "3"])]),
        ],
        "hub 2 3; hub 1; kept 1 2",
    ),
    (
        &[
            ("b", 1, true, &[(HUB, &["1", "2"])]),
            ("a", 1, true, &[(HUB, &["2", "3"])]),
        ],
        "hub 1 2; hub 3; kept 2 1",
    ),
    // Equal versions of another text hide, and other versions don't.
    (
        &[
            ("a", 0, true, &[(HUB, &["01.0"])]),
            ("b", 1, true, &[(HUB, &["1.0", "1.0.0", "1.00", "1"])]),
        ],
        "hub 01.0; hub 1.0.0 1; kept 1 2",
    ),
    // Two components of one ID in one remote don't hide each other, nor do two releases of one component.
    (
        &[("a", 0, true, &[(HUB, &["1", "1"]), (HUB, &["1", "2"])])],
        "hub 1 1; hub 1 2; kept 4",
    ),
    // Another component's release hides nothing, and a component that is left with none stays.
    (
        &[
            ("a", 0, true, &[("dock", &["1"]), (HUB, &["2"])]),
            ("b", 1, true, &[(HUB, &["2"]), (HUB, &["1"])]),
        ],
        "dock 1; hub 2; hub; hub 1; kept 2 1",
    ),
    // A release that is hidden hides those of later remotes all the same.
    (
        &[
            ("a", 0, true, &[(HUB, &["1"])]),
            ("b", 1, true, &[(HUB, &["1"])]),
            ("c", 2, true, &[(HUB, &["1", "3"])]),
        ],
        "hub 1; hub; hub 3; kept 1 0 1",
    ),
    (
        &[
            ("a", 0, true, &[]),
            ("b", 0, true, &[]),
            ("b", 0, false, &[]),
            ("a", 0, true, &[]),
        ],
        "duplicate b",
    ),
];

/// The first row that is told otherwise, with what was told.
fn wrong_row(alloc: Global) -> Result<String, Fail> {
    for (rows, wanted) in ROWS {
        let told = told(alloc, rows)?;
        if told.as_str() != *wanted {
            return Ok(told);
        }
    }
    Ok(String::new(alloc))
}

#[test]
fn remotes_are_merged(rt: HostRuntime) -> Result<(), Fail> {
    let wrong = wrong_row(rt.alloc())?;
    assert_eq!(rt; wrong.as_str(), "");
    Ok(())
}
