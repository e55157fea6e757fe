//! How long lists may be.
use super::{Section, joined, told_of_boots, told_of_clients};
use std::alloc::Global;
use std::test::Fail;

/// So many equal entries.
fn list_of(alloc: Global, entry: &str, count: u32) -> Result<String, Fail> {
    let mut list = String::new(alloc);
    for i in 0..count {
        if 0 < i {
            list.push_str(",")?;
        }
        list.push_str(entry)?;
    }
    Ok(list)
}

/// What is told of a list of so many equal entries, between two texts.
fn told_of(
    alloc: Global,
    section: Section,
    between: (&str, &str),
    entry: &str,
    count: u32,
) -> Result<String, Fail> {
    let list = list_of(alloc, entry, count)?;
    let text = joined(alloc, &[between.0, list.as_str(), between.1])?;
    match section {
        Section::Clients => told_of_clients(alloc, text.as_str()),
        Section::Boots => told_of_boots(alloc, text.as_str()),
    }
}

/// What is told of a list that has just so many entries as it may, and of one with one more.
fn told_of_both(
    alloc: Global,
    section: Section,
    between: (&str, &str),
    entry: &str,
    most: u32,
) -> Result<String, Fail> {
    let full = told_of(alloc, section, between, entry, most)?;
    let over = told_of(alloc, section, between, entry, most.saturating_add(1))?;
    joined(alloc, &[full.as_str(), "; ", over.as_str()])
}

#[test]
fn lists_of_clients(rt: HostRuntime) -> Result<(), Fail> {
    let alloc = rt.alloc();
    let clients = told_of_both(alloc, Section::Clients, ("[", "]"), "{}", 16)?;
    assert_eq!(rt; clients.as_str(), "read; document 0 0 0 clients: too-many");
    Ok(())
}

#[test]
fn lists_of_features(rt: HostRuntime) -> Result<(), Fail> {
    let alloc = rt.alloc();
    let between = (r#"[{"features":["#, "]}]");
    let features = told_of_both(alloc, Section::Clients, between, r#""a""#, 64)?;
    assert_eq!(rt; features.as_str(), "read; clients 0 0 0 features: too-many");
    Ok(())
}

#[test]
fn lists_of_boots(rt: HostRuntime) -> Result<(), Fail> {
    let alloc = rt.alloc();
    let boots = told_of_both(alloc, Section::Boots, ("[", "]"), r#"{"time":0}"#, 32)?;
    assert_eq!(rt; boots.as_str(), "read; document 0 0 0 boots: too-many");
    // the count stands before the entries
    let faulty = told_of(alloc, Section::Boots, ("[", "]"), "3", 33)?;
    assert_eq!(rt; faulty.as_str(), "document 0 0 0 boots: too-many");
    Ok(())
}

const ASK: &str = r#"{"do":"get-devices"}"#;

#[test]
fn items_of_a_boot(rt: HostRuntime) -> Result<(), Fail> {
    let between = (r#"[{"time":0,"scripts":[["#, "]]}]");
    let told = told_of_both(rt.alloc(), Section::Boots, between, ASK, 8192)?;
    assert_eq!(rt; told.as_str(), "read; boots 0 0 8192 do: too-many");
    Ok(())
}

/// Two items stand in the first boot.
#[test]
fn items_of_all_boots(rt: HostRuntime) -> Result<(), Fail> {
    let front =
        r#"[{"time":0,"scripts":[[{"do":"get-devices"},{"do":"get-history"}]]},{"time":0,"scripts":[["#;
    let told = told_of_both(rt.alloc(), Section::Boots, (front, "]]}]"), ASK, 8190)?;
    assert_eq!(rt; told.as_str(), "read; boots 1 0 8190 do: too-many");
    Ok(())
}

/// What stands behind 8192 items, and what is told.
const LAST: [(&str, &str); 2] = [
    (r#",{}]]}]"#, "boots 0 0 8192 do: too-many"),
    (r#",3]]}]"#, "boots 0 0 8192 entry: wrong-kind"),
];

/// The item that is one too many is told before what is wrong with its `do`, but not before it is
/// known to be an object.
#[test]
fn the_item_that_is_one_too_many(rt: HostRuntime) -> Result<(), Fail> {
    for (last, want) in &LAST {
        let between = (r#"[{"time":0,"scripts":[["#, *last);
        let told = told_of(rt.alloc(), Section::Boots, between, ASK, 8192)?;
        assert_eq!(rt; told.as_str(), *want);
    }
    Ok(())
}
