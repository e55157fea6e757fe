//! What no clause says: that the sections are read, and that the faults are the ones that were meant.
//!
//! A row is a text, an arrow, and what is told of it: the first fault with its place and reason, or
//! `read`. The document has the boards `usb1` and `usb2`, and one client.
use client_scripts::Item;
use device_list::Selector;
use fw_base::Listed;
use json_values::Scratch;
use release_catalogue::{ReadStop, Word};
use site_scripts::{Boot, Ports, part, read_boots, read_clients, whole_spot};
use std::alloc::Global;
use std::test::Fail;
use update_log::{BootPlan, Query};

mod limits;

/// These texts behind one another.
fn joined(alloc: Global, parts: &[&str]) -> Result<String, Fail> {
    let mut text = String::new(alloc);
    for part in parts {
        text.push_str(part)?;
    }
    Ok(text)
}

/// The first fault, as a text.
fn told_stop(alloc: Global, stop: ReadStop) -> Result<String, Fail> {
    match stop {
        ReadStop::At(fault) => {
            let place = fault.spot.place();
            Ok(format!(in alloc; "{place}: {}", fault.reason)?)
        }
        ReadStop::NoMemory => Ok(String::from_str(alloc, "no memory")?),
    }
}

/// What is told of a section `clients`.
fn told_of_clients(alloc: Global, text: &str) -> Result<String, Fail> {
    let mut scratch = Scratch::new(alloc);
    let value = json_values::read(alloc, text.as_bytes(), &mut scratch)?;
    match read_clients(alloc, &value, whole_spot().field(Word::Clients)) {
        Ok(_) => Ok(String::from_str(alloc, "read")?),
        Err(stop) => told_stop(alloc, stop),
    }
}

/// The boots of a section `boots`.
fn boots_of(alloc: Global, text: &str) -> Result<Result<Vec<Boot>, ReadStop>, Fail> {
    let mut scratch = Scratch::new(alloc);
    let value = json_values::read(alloc, text.as_bytes(), &mut scratch)?;
    let mut ports = Ports::new(alloc);
    ports.add(b"usb1")?;
    ports.add(b"usb2")?;
    let spot = whole_spot().field(Word::Boots);
    Ok(read_boots(alloc, &ports, 1, &value, spot))
}

/// What is told of a section `boots`.
fn told_of_boots(alloc: Global, text: &str) -> Result<String, Fail> {
    match boots_of(alloc, text)? {
        Ok(_) => Ok(String::from_str(alloc, "read")?),
        Err(stop) => told_stop(alloc, stop),
    }
}

/// The sections that rows are put into.
#[derive(Clone, Copy)]
enum Section {
    Clients,
    Boots,
}

/// What is told of a text between two others.
fn told_between(
    alloc: Global,
    section: Section,
    between: (&str, &str),
    part: &str,
) -> Result<String, Fail> {
    let (front, back) = between;
    let text = joined(alloc, &[front, part, back])?;
    match section {
        Section::Clients => told_of_clients(alloc, text.as_str()),
        Section::Boots => told_of_boots(alloc, text.as_str()),
    }
}

/// The first row of which something else is told than it says, with what is told; empty where there
/// is none. A row's text stands between two others.
fn wrong(
    alloc: Global,
    section: Section,
    between: (&str, &str),
    rows: &[&str],
) -> Result<String, Fail> {
    for row in rows {
        let (part, want) = row.split_once(" => ").unwrap_or((row, ""));
        let told = told_between(alloc, section, between, part)?;
        if told.as_str() != want {
            return joined(alloc, &[row, " but ", told.as_str()]);
        }
    }
    Ok(String::new(alloc))
}

const CLIENTS: &[&str] = &[
    "{} => document 0 0 0 clients: wrong-kind",
    "null => document 0 0 0 clients: wrong-kind",
    "[] => read",
    "[{},{}] => read",
    "[{},3] => clients 1 0 0 entry: wrong-kind",
    r#"[{"features":[]}] => read"#,
    r#"[{"features":["show-problems"],"x":null},{}] => read"#,
    r#"[{"features":3}] => clients 0 0 0 features: wrong-kind"#,
    r#"[{"features":["a b"]}] => clients 0 0 0 features: wrong-kind"#,
    r#"[{},{"features":[3]}] => clients 1 0 0 features: wrong-kind"#,
];

#[test]
fn fields_of_a_client(rt: HostRuntime) -> Result<(), Fail> {
    let wrong = wrong(rt.alloc(), Section::Clients, ("", ""), CLIENTS)?;
    assert_eq!(rt; wrong.as_str(), "");
    Ok(())
}

const BOOT: &[&str] = &[
    "3 => boots 0 0 0 entry: wrong-kind",
    "{} => boots 0 0 0 time: missing",
    r#"{"time":0} => read"#,
    r#"{"time":9223372036854775807} => read"#,
    r#"{"time":9223372036854775808} => boots 0 0 0 time: wrong-kind"#,
    r#"{"time":18446744073709551616} => boots 0 0 0 time: wrong-kind"#,
    r#"{"time":-0} => boots 0 0 0 time: wrong-kind"#,
    r#"{"time":1.0} => boots 0 0 0 time: wrong-kind"#,
    r#"{"time":1e2} => boots 0 0 0 time: wrong-kind"#,
    r#"{"time":"","time":0} => read"#,
    r#"{"time":0,"cut-after":0} => read"#,
    r#"{"time":0,"cut-after":1000000} => read"#,
    r#"{"time":0,"cut-after":1000001} => boots 0 0 0 cut-after: wrong-kind"#,
    r#"{"time":0,"cut-after":1.0} => boots 0 0 0 cut-after: wrong-kind"#,
    r#"{"time":0,"cut-after":null} => boots 0 0 0 cut-after: wrong-kind"#,
];

#[test]
fn numbers_of_a_boot(rt: HostRuntime) -> Result<(), Fail> {
    let wrong = wrong(rt.alloc(), Section::Boots, ("[", "]"), BOOT)?;
    assert_eq!(rt; wrong.as_str(), "");
    Ok(())
}

/// Members of the second boot.
const LISTS: &[&str] = &[
    r#""absent":[] => read"#,
    r#""absent":["usb2","usb1","usb2"] => read"#,
    r#""absent":["usb3"] => boots 1 0 0 absent: bad-reference"#,
    r#""absent":["usb1",""] => boots 1 0 0 absent: bad-reference"#,
    r#""absent":[1] => boots 1 0 0 absent: wrong-kind"#,
    r#""absent":"usb1" => boots 1 0 0 absent: wrong-kind"#,
    r#""scripts":[] => read"#,
    r#""scripts":[[]] => read"#,
    r#""scripts":3 => boots 1 0 0 scripts: wrong-kind"#,
    r#""scripts":[3] => boots 1 0 0 entry: wrong-kind"#,
    r#""scripts":[3,3] => boots 1 0 0 scripts: too-many"#,
    r#""scripts":[[{"do":"get-devices"},3]] => boots 1 0 1 entry: wrong-kind"#,
    r#""scripts":3,"absent":3,"cut-after":"","time":"" => boots 1 0 0 time: wrong-kind"#,
    r#""scripts":3,"absent":3,"cut-after":"" => boots 1 0 0 cut-after: wrong-kind"#,
    r#""scripts":3,"absent":3 => boots 1 0 0 absent: wrong-kind"#,
];

#[test]
fn lists_of_a_boot(rt: HostRuntime) -> Result<(), Fail> {
    let between = (r#"[{"time":0},{"time":0,"#, "}]");
    let wrong = wrong(rt.alloc(), Section::Boots, between, LISTS)?;
    assert_eq!(rt; wrong.as_str(), "");
    Ok(())
}

const ITEMS: &[&str] = &[
    "{} => boots 0 0 0 do: missing",
    r#"{"do":3} => boots 0 0 0 do: wrong-kind"#,
    r#"{"do":"get"} => boots 0 0 0 do: wrong-kind"#,
    r#"{"do":"get-devices","device":3} => read"#,
    r#"{"do":"get-history","device":3} => read"#,
    r#"{"do":"get-releases"} => boots 0 0 0 device: missing"#,
    r#"{"do":"get-upgrades","device":""} => boots 0 0 0 device: wrong-kind"#,
    r#"{"do":"get-results","device":"nowhere"} => read"#,
    r#"{"do":"settle","device":3} => boots 0 0 0 device: wrong-kind"#,
    r#"{"do":"plug","device":"usb1","tag":3},{"do":"unplug"} => boots 0 0 1 device: missing"#,
];

#[test]
fn fields_of_an_item(rt: HostRuntime) -> Result<(), Fail> {
    let between = (r#"[{"time":0,"scripts":[["#, "]]}]");
    let wrong = wrong(rt.alloc(), Section::Boots, between, ITEMS)?;
    assert_eq!(rt; wrong.as_str(), "");
    Ok(())
}

/// Members of an install.
const INSTALL: &[&str] = &[
    r#""x":0 => boots 0 0 0 device: missing"#,
    r#""device":"usb1" => boots 0 0 0 tag: missing"#,
    r#""device":"usb1","tag":"" => boots 0 0 0 tag: wrong-kind"#,
    r#""device":"usb1","tag":"t" => boots 0 0 0 version: missing"#,
    r#""device":"usb1","tag":"t","version":"" => boots 0 0 0 version: bad-version"#,
    r#""device":"usb1","tag":"t","version":1 => boots 0 0 0 version: wrong-kind"#,
    r#""device":"usb1","tag":"t","version":"1","flags":["offline","allow-older","allow-reinstall"] => read"#,
    r#""device":"usb1","tag":"t","version":"1","flags":["now"] => boots 0 0 0 flags: wrong-kind"#,
    r#""device":"usb1","tag":"t","version":"1","flags":"offline" => boots 0 0 0 flags: wrong-kind"#,
    r#""flags":3,"version":3,"tag":3,"device":3 => boots 0 0 0 device: wrong-kind"#,
    r#""flags":3,"version":3,"tag":3,"device":"d" => boots 0 0 0 tag: wrong-kind"#,
    r#""flags":3,"version":3,"tag":"t","device":"d" => boots 0 0 0 version: wrong-kind"#,
];

#[test]
fn fields_of_an_install(rt: HostRuntime) -> Result<(), Fail> {
    let between = (r#"[{"time":0,"scripts":[[{"do":"install","#, "}]]}]");
    let wrong = wrong(rt.alloc(), Section::Boots, between, INSTALL)?;
    assert_eq!(rt; wrong.as_str(), "");
    Ok(())
}

/// What an item is, as a word.
fn word_of(item: &Item) -> &'static str {
    match item {
        Item::Ask(Query::Results(Selector::Id(_))) => "id",
        Item::Ask(Query::Results(Selector::Guid(_))) => "guid",
        Item::Ask(Query::Results(Selector::Port(_))) => "port",
        Item::Ask(_) => "other question",
        Item::Install(_) => "install",
        Item::Settle(_) => "settle",
        Item::Unplug(_) => "unplug",
        Item::Plug(_) => "plug",
    }
}

/// What the items of some boots are, as words.
fn words_of(alloc: Global, boots: &[Listed<Listed<Item>>]) -> Result<String, Fail> {
    let mut words = String::new(alloc);
    for scripts in boots {
        for script in scripts.items() {
            for item in script.items() {
                words.push_str(word_of(item))?;
                words.push_str(" ")?;
            }
        }
    }
    Ok(words)
}

const RESULTS: &str = r#"[{"time":0,"scripts":[[
{"do":"get-results","device":"0123456789ABCDEF0123456789abcdef01234567"},
{"do":"get-results","device":"2082B5E0-7a64-478a-b1b2-e3404fab6dad"},
{"do":"get-results","device":"usb1"},
{"do":"settle","device":"usb1"},{"do":"unplug","device":"usb1"},{"do":"plug","device":"usb1"},
{"do":"install","device":"usb1","tag":"t","version":"1"}]]}]"#;

fn words_of_boots(alloc: Global, boots: Vec<Boot>) -> Result<String, Fail> {
    let parts = part(alloc, boots)?;
    words_of(alloc, parts.scripts.items())
}

#[test]
fn a_name_is_a_device_or_a_guid_or_a_port(rt: HostRuntime) -> Result<(), Fail> {
    let words = match boots_of(rt.alloc(), RESULTS)? {
        Ok(boots) => words_of_boots(rt.alloc(), boots)?,
        Err(stop) => told_stop(rt.alloc(), stop)?,
    };
    assert_eq!(rt; words.as_str(), "id guid port settle unplug plug install ");
    Ok(())
}

fn put_number(alloc: Global, text: &mut String, number: u64) -> Result<(), Fail> {
    let written = format!(in alloc; " {number}")?;
    text.push_str(written.as_str())?;
    Ok(())
}

fn put_plan(alloc: Global, text: &mut String, plan: &BootPlan) -> Result<(), Fail> {
    put_number(alloc, text, plan.time)?;
    put_number(alloc, text, u64::from(plan.limit.unwrap_or(0)))?;
    for at in plan.absent.items() {
        put_number(alloc, text, u64::from(*at))?;
    }
    text.push_str(";")?;
    Ok(())
}

/// What is planned of some boots, as a text.
fn plans_of(alloc: Global, plans: &[BootPlan]) -> Result<String, Fail> {
    let mut text = String::new(alloc);
    for plan in plans {
        put_plan(alloc, &mut text, plan)?;
    }
    Ok(text)
}

const PLANS: &str =
    r#"[{"time":7},{"time":5,"cut-after":3,"absent":["usb2","usb1","usb2"],"scripts":[]}]"#;

fn plans_of_boots(alloc: Global, boots: Vec<Boot>) -> Result<String, Fail> {
    let parts = part(alloc, boots)?;
    plans_of(alloc, parts.plans.items())
}

#[test]
fn a_boot_is_kept_as_stated(rt: HostRuntime) -> Result<(), Fail> {
    let text = match boots_of(rt.alloc(), PLANS)? {
        Ok(boots) => plans_of_boots(rt.alloc(), boots)?,
        Err(stop) => told_stop(rt.alloc(), stop)?,
    };
    assert_eq!(rt; text.as_str(), " 7 0; 5 3 1 0 1;");
    Ok(())
}
