//! What no clause says: that calls succeed, and that the faults are the ones that were meant.
use fw_base::{Line, Name};
use guid_ids::Guid;
use json_values::{Scratch, Value};
use release_catalogue::defaults::{
    boolean_or, line_or_empty, line_or_none, name_or_none, number_or, version_or_none,
};
use release_catalogue::entries::{list_needed, list_or_empty};
use release_catalogue::kinds::{
    boolean, digest, guid, line, name, name_among, number, object, text, version,
};
use release_catalogue::{Catalogue, CatalogueFault, ReadStop, Reason, Spot, Word};
use std::alloc::Global;
use std::test::Fail;
use version_formats::Version;

/// The components of the base document.
const BASE: &str = r#"[{"id":"com.example.hub","name":"Hub",
"provides":["2082b5e0-7a64-478a-b1b2-e3404fab6dad"],
"requires":[
{"tag":"id","text":"org.freedesktop.fwupd","compare":"ge","version":"1.8.0"},
{"tag":"firmware","text":"vendor-id","compare":"regex","version":"USB:0x0A5C|USB:0x17EF"},
{"tag":"firmware","compare":"ge","version":"1.0.0"}],
"releases":[{"version":"1.1.0","sha256":"b3f5d0e3a9f4f0f4b3f5d0e3a9f4f0f4b3f5d0e3a9f4f0f4b3f5d0e3a9f4f0f4","size":14},
{"version":"1.0.0","sha256":"a3f5d0e3a9f4f0f4b3f5d0e3a9f4f0f4b3f5d0e3a9f4f0f4b3f5d0e3a9f4f0f4","size":14}]}]"#;

const HUB: &[u8] = b"2082b5e0-7a64-478a-b1b2-e3404fab6dad";

const OTHER: &[u8] = b"2082B5E0-7A64-478A-B1B2-E3404FAB6DAE";

fn catalogue(alloc: Global, json: &str) -> Result<Catalogue, Fail> {
    let mut scratch = Scratch::new(alloc);
    let value = json_values::read(alloc, json.as_bytes(), &mut scratch)?;
    Ok(Catalogue::from_value(alloc, &value)?)
}

/// The first fault of a list of components, or `read`.
fn told(alloc: Global, json: &str) -> Result<String, Fail> {
    let mut scratch = Scratch::new(alloc);
    let value = json_values::read(alloc, json.as_bytes(), &mut scratch)?;
    match Catalogue::from_value(alloc, &value) {
        Ok(_) => Ok(String::from_str(alloc, "read")?),
        Err(fault) => Ok(format!(in alloc; "{fault}")?),
    }
}

fn guid_named(text: &[u8]) -> Result<Guid, Fail> {
    match Guid::read(text) {
        Some(guid) => Ok(guid),
        None => Err(Name::read(b"").unwrap_err().into()),
    }
}

/// The GUIDs and the version that are looked for, and the release of the base document that is found.
const SOUGHT: [([&[u8]; 2], &str, Option<u32>); 5] = [
    ([HUB, HUB], "1.1.0", Some(0)),
    ([OTHER, HUB], "1.0.0", Some(1)),
    ([OTHER, HUB], "01.0.0", Some(1)),
    ([HUB, OTHER], "1.0", None),
    ([OTHER, OTHER], "1.1.0", None),
];

fn found(catalogue: &Catalogue, texts: &[&[u8]; 2], version: &str) -> Result<Option<u32>, Fail> {
    let guids = [guid_named(texts[0])?, guid_named(texts[1])?];
    let version = Version::read(version.as_bytes())?;
    Ok(catalogue.find(&guids, &version).map(|found| found.release))
}

#[test]
fn releases_are_found_by_version(rt: HostRuntime) -> Result<(), Fail> {
    let catalogue = catalogue(rt.alloc(), BASE)?;
    assert_eq!(rt; catalogue.components().len(), 1);
    for (texts, version, want) in &SOUGHT {
        assert_eq!(rt; found(&catalogue, texts, version)?, *want);
    }
    Ok(())
}

fn count(alloc: Global, catalogue: &Catalogue, guids: &[Guid]) -> Result<usize, Fail> {
    Ok(catalogue.releases_for(alloc, guids)?.len())
}

#[test]
fn releases_are_listed(rt: HostRuntime) -> Result<(), Fail> {
    let guids = [guid_named(OTHER)?, guid_named(HUB)?];
    let catalogue = catalogue(rt.alloc(), BASE)?;
    assert_eq!(rt; count(rt.alloc(), &catalogue, &guids)?, 2);
    assert_eq!(rt; count(rt.alloc(), &catalogue, &guids[..1])?, 0);
    Ok(())
}

#[test]
fn a_component_is_kept_as_stated(rt: HostRuntime) -> Result<(), Fail> {
    let alloc = rt.alloc();
    let catalogue = catalogue(alloc, BASE)?;
    if catalogue.components().len() == 1 {
        let hub = catalogue.component(0);
        assert!(rt; hub.id == Name::read(b"com.example.hub")?);
        assert!(rt; hub.name == Line::read(b"Hub")?);
        assert_eq!(rt; hub.requirements.items().len(), 3);
        assert!(rt; hub.format.is_none() && hub.protocol.is_none());
        for release in hub.releases.items() {
            assert!(rt; release.urgency == Name::read(b"unknown")?);
            assert_eq!(rt; release.size, 14);
        }
    }
    Ok(())
}

/// What stands before and behind a row's text, and before its fault.
#[derive(Clone, Copy)]
struct Frame {
    front: &'static str,
    back: &'static str,
    place: &'static str,
}

/// A text with a digest for each `H` and a GUID for each `G`.
fn filled(alloc: Global, text: &str) -> Result<String, Fail> {
    let mut all = String::new(alloc);
    for c in text.chars() {
        match c {
            'H' => all.push_str(
                "b3f5d0e3a9f4f0f4b3f5d0e3a9f4f0f4b3f5d0e3a9f4f0f4b3f5d0e3a9f4f0f4",
            )?,
            'G' => all.push_str("2082b5e0-7a64-478a-b1b2-e3404fab6dad")?,
            c => all.push(c)?,
        }
    }
    Ok(all)
}

/// What should be told of a row.
fn wanted(alloc: Global, place: &str, fault: &str) -> Result<String, Fail> {
    if fault == "read" {
        Ok(String::from_str(alloc, fault)?)
    } else {
        Ok(format!(in alloc; "{place}{fault}")?)
    }
}

fn told_in_frame(alloc: Global, frame: Frame, row: &str) -> Result<String, Fail> {
    let json = format!(in alloc; "{}{row}{}", frame.front, frame.back)?;
    let json = filled(alloc, json.as_str())?;
    told(alloc, json.as_str())
}

/// The rows whose fault isn't the one that should be told.
fn wrong(alloc: Global, frame: Frame, rows: &[(&str, &str)]) -> Result<usize, Fail> {
    let mut wrong = 0usize;
    for (row, fault) in rows {
        let told = told_in_frame(alloc, frame, row)?;
        let wanted = wanted(alloc, frame.place, fault)?;
        if told.as_str() != wanted.as_str() {
            wrong = wrong.saturating_add(1);
        }
    }
    Ok(wrong)
}

const COMPONENT: Frame = Frame {
    front: "",
    back: "",
    place: "",
};

const COMPONENTS: [(&str, &str); 19] = [
    ("{}", "document 0 0 0 components: wrong-kind"),
    ("[]", "read"),
    ("[3]", "components 0 0 0 entry: wrong-kind"),
    ("[{}]", "components 0 0 0 id: missing"),
    (r#"[{"id":"a b"}]"#, "components 0 0 0 id: wrong-kind"),
    (
        r#"[{"id":"a","name":"\u007f"}]"#,
        "components 0 0 0 name: wrong-kind",
    ),
    (r#"[{"id":"a"}]"#, "components 0 0 0 provides: missing"),
    (
        r#"[{"id":"a","provides":null}]"#,
        "components 0 0 0 provides: wrong-kind",
    ),
    (
        r#"[{"id":"a","provides":["a"]}]"#,
        "components 0 0 0 provides: bad-guid",
    ),
    (
        r#"[{"id":"a","provides":[3]}]"#,
        "components 0 0 0 provides: wrong-kind",
    ),
    (
        r#"[{"id":"a","provides":[],"requires":3}]"#,
        "components 0 0 0 requires: wrong-kind",
    ),
    (
        r#"[{"id":"a","provides":[],"custom":[]}]"#,
        "components 0 0 0 custom: wrong-kind",
    ),
    (
        r#"[{"id":"a","provides":[],"custom":{"LVFS::UpdateProtocol":""}}]"#,
        "components 0 0 0 custom: wrong-kind",
    ),
    (
        r#"[{"id":"a","provides":[],"custom":{"LVFS::VersionFormat":"a b"}}]"#,
        "components 0 0 0 custom: wrong-kind",
    ),
    (
        r#"[{"id":"a","provides":[],"requires":[{"tag":"client","text":"a"},{"tag":"client","text":"b"},{"tag":"parent"}]}]"#,
        "components 0 2 0 tag: wrong-kind",
    ),
    (
        r#"[{"id":"a","provides":[],"custom":{"x":""}}]"#,
        "components 0 0 0 releases: missing",
    ),
    (
        r#"[{"id":"a","provides":[],"releases":[]},{"id":""}]"#,
        "components 1 0 0 id: wrong-kind",
    ),
    (
        r#"[{"id":"a","provides":[],"releases":{}},{"id":""}]"#,
        "components 0 0 0 releases: wrong-kind",
    ),
    (
        r#"[{"x":[1e2],"id":"a","provides":[],"releases":[],"parent":null}]"#,
        "read",
    ),
];

#[test]
fn faults_of_components(rt: HostRuntime) -> Result<(), Fail> {
    assert_eq!(rt; wrong(rt.alloc(), COMPONENT, &COMPONENTS)?, 0);
    Ok(())
}

const RELEASE: Frame = Frame {
    front: r#"[{"id":"a","provides":[],"releases":[{"version":"1","sha256":"H","size":0},"#,
    back: "]}]",
    place: "components 0 1 0 ",
};

const RELEASES: [(&str, &str); 19] = [
    (r#"3"#, "entry: wrong-kind"),
    (r#"{}"#, "version: missing"),
    (r#"{"version":1}"#, "version: wrong-kind"),
    (r#"{"version":"1 2"}"#, "version: bad-version"),
    (r#"{"version":"1","urgency":"soon"}"#, "urgency: wrong-kind"),
    (r#"{"version":"1","urgency":null}"#, "urgency: wrong-kind"),
    (r#"{"version":"1","urgency":"high"}"#, "sha256: missing"),
    (r#"{"version":"1","sha256":"AB"}"#, "sha256: bad-digest"),
    (r#"{"version":"1","sha256":3}"#, "sha256: wrong-kind"),
    (r#"{"version":"1","sha256":"H"}"#, "size: missing"),
    (r#"{"version":"1","sha256":"H","size":4194304}"#, "read"),
    (
        r#"{"version":"1","sha256":"H","size":4194305}"#,
        "size: wrong-kind",
    ),
    (
        r#"{"version":"1","sha256":"H","size":1.0}"#,
        "size: wrong-kind",
    ),
    (
        r#"{"version":"1","sha256":"H","size":1e2}"#,
        "size: wrong-kind",
    ),
    (
        r#"{"version":"1","sha256":"H","size":-0}"#,
        "size: wrong-kind",
    ),
    (
        r#"{"version":"1","sha256":"H","size":-1}"#,
        "size: wrong-kind",
    ),
    (
        r#"{"version":"1","sha256":"H","size":18446744073709551616}"#,
        "size: wrong-kind",
    ),
    (
        r#"{"version":"1","sha256":"H","size":"1"}"#,
        "size: wrong-kind",
    ),
    (
        r#"{"size":1,"sha256":"H","version":"1","size":2,"x":{"version":3}}"#,
        "read",
    ),
];

#[test]
fn faults_of_releases(rt: HostRuntime) -> Result<(), Fail> {
    assert_eq!(rt; wrong(rt.alloc(), RELEASE, &RELEASES)?, 0);
    Ok(())
}

const REQUIREMENT: Frame = Frame {
    front: r#"[{"id":"a","provides":[],"releases":[],"requires":[{"tag":"client","text":"a"},"#,
    back: "]}]",
    place: "components 0 1 0 ",
};

// Seven GUIDs are 252 bytes, and a pattern has up to 255.
const REQUIREMENTS: [(&str, &str); 29] = [
    ("3", "entry: wrong-kind"),
    ("{}", "tag: missing"),
    (r#"{"tag":1}"#, "tag: wrong-kind"),
    (r#"{"tag":"or"}"#, "tag: wrong-kind"),
    (r#"{"tag":"id"}"#, "text: wrong-kind"),
    (r#"{"tag":"id","text":3}"#, "text: wrong-kind"),
    (
        r#"{"tag":"id","text":"a","version":"1 2"}"#,
        "compare: missing",
    ),
    (
        r#"{"tag":"id","text":"a","compare":"eq"}"#,
        "version: missing",
    ),
    (
        r#"{"tag":"id","text":"a","compare":"is"}"#,
        "compare: bad-compare",
    ),
    (
        r#"{"tag":"id","text":"a","compare":3,"version":"1"}"#,
        "compare: wrong-kind",
    ),
    (
        r#"{"tag":"id","text":"a","compare":"lt","version":""}"#,
        "version: bad-version",
    ),
    (
        r#"{"tag":"id","text":"a","compare":"regex","version":"a("}"#,
        "version: bad-pattern 1",
    ),
    (
        r#"{"tag":"id","text":"a","compare":"glob","version":"[a"}"#,
        "version: bad-pattern 0",
    ),
    (
        r#"{"tag":"id","text":"a","compare":"regex","version":"a[b-a]"}"#,
        "version: bad-pattern 2",
    ),
    (
        r#"{"tag":"id","text":"a","compare":"glob","version":"*.2"}"#,
        "read",
    ),
    (
        r#"{"tag":"id","text":"a","compare":"glob","version":"GGGGGGGaaa"}"#,
        "read",
    ),
    (
        r#"{"tag":"id","text":"a","compare":"glob","version":"GGGGGGGaaaa"}"#,
        "version: wrong-kind",
    ),
    (
        r#"{"tag":"id","text":"a","compare":"regex","version":"GGGGGGGaaa"}"#,
        "read",
    ),
    (
        r#"{"tag":"id","text":"a","compare":"regex","version":"GGGGGGGaaaa"}"#,
        "version: wrong-kind",
    ),
    (r#"{"tag":"firmware"}"#, "compare: missing"),
    (
        r#"{"tag":"firmware","text":"","compare":"ne","version":"1"}"#,
        "read",
    ),
    (
        r#"{"tag":"firmware","text":"bootloader"}"#,
        "compare: missing",
    ),
    (
        r#"{"tag":"firmware","text":"Bootloader"}"#,
        "text: bad-guid",
    ),
    (r#"{"tag":"firmware","depth":1}"#, "depth: wrong-kind"),
    (
        r#"{"tag":"firmware","text":"vendor-id","compare":"ne","version":"a"}"#,
        "compare: bad-compare",
    ),
    (
        r#"{"tag":"firmware","text":"vendor-id","compare":"eq","version":"a b"}"#,
        "version: wrong-kind",
    ),
    (
        r#"{"tag":"firmware","text":"vendor-id","compare":"eq","version":"USB:1"}"#,
        "read",
    ),
    (
        r#"{"x":{"tag":"or"},"tag":"client","text":"a","value":[1e2],"Depth":9}"#,
        "read",
    ),
    (
        r#"{"x":null,"tag":"id","text":"a","Compare":"eq","version":"1"}"#,
        "compare: missing",
    ),
];

#[test]
fn faults_of_requirements(rt: HostRuntime) -> Result<(), Fail> {
    assert_eq!(rt; wrong(rt.alloc(), REQUIREMENT, &REQUIREMENTS)?, 0);
    Ok(())
}

const WITH_GUIDS: [(&str, &str); 16] = [
    (r#"{"tag":"firmware","text":"G"}"#, "read"),
    (
        r#"{"tag":"firmware","text":"G","depth":8,"compare":"eq","version":"1"}"#,
        "read",
    ),
    (
        r#"{"tag":"firmware","text":"G","depth":9}"#,
        "depth: wrong-kind",
    ),
    (
        r#"{"tag":"firmware","text":"G","depth":0}"#,
        "depth: wrong-kind",
    ),
    (
        r#"{"tag":"firmware","text":"G","depth":1.0}"#,
        "depth: wrong-kind",
    ),
    (
        r#"{"tag":"firmware","text":"G","version":"1"}"#,
        "compare: missing",
    ),
    (
        r#"{"tag":"firmware","text":"G","compare":"eq"}"#,
        "version: missing",
    ),
    (r#"{"tag":"hardware","text":"G","compare":3}"#, "read"),
    (r#"{"tag":"hardware","text":"G|"}"#, "text: bad-guid"),
    (r#"{"tag":"not_hardware","text":"G|a"}"#, "text: bad-guid"),
    (r#"{"tag":"hardware","text":"G","depth":1}"#, "read"),
    (
        r#"{"tag":"hardware","text":"G|G","depth":1}"#,
        "depth: wrong-kind",
    ),
    (
        r#"{"tag":"client","text":"G","depth":2,"version":7}"#,
        "read",
    ),
    (r#"{"tag":"client","text":"a b"}"#, "text: wrong-kind"),
    (
        r#"{"tag":"hardware","text":"||||||||||||||||||||||||||||||||||||||||||||||||||||||||||||||||"}"#,
        "text: too-many",
    ),
    (
        r#"{"tag":"hardware","text":"|||||||||||||||||||||||||||||||||||||||||||||||||||||||||||||||"}"#,
        "text: bad-guid",
    ),
];

#[test]
fn faults_of_requirements_with_guids(rt: HostRuntime) -> Result<(), Fail> {
    assert_eq!(rt; wrong(rt.alloc(), REQUIREMENT, &WITH_GUIDS)?, 0);
    Ok(())
}

/// A part several times, with commas between.
fn repeated(alloc: Global, part: &str, times: usize) -> Result<String, Fail> {
    let mut all = String::new(alloc);
    for i in 0..times {
        if i > 0 {
            all.push(',')?;
        }
        all.push_str(part)?;
    }
    Ok(all)
}

/// What is told where a part stands so often in its frame.
fn told_of_many(alloc: Global, frame: Frame, part: &str, times: usize) -> Result<String, Fail> {
    let all = repeated(alloc, part, times)?;
    told_in_frame(alloc, frame, all.as_str())
}

const PROVIDED: Frame = Frame {
    front: r#"[{"id":"a","provides":["#,
    back: r#"],"releases":[]}]"#,
    place: "",
};

const REQUIRED: Frame = Frame {
    front: r#"[{"id":"a","provides":[],"requires":["#,
    back: r#"],"releases":[]}]"#,
    place: "",
};

const LISTED: Frame = Frame {
    front: "[",
    back: "]",
    place: "",
};

const LIMITS: [(Frame, &str, usize, &str); 6] = [
    (PROVIDED, r#""G""#, 64, "read"),
    (
        PROVIDED,
        r#""G""#,
        65,
        "components 0 0 0 provides: too-many",
    ),
    (REQUIRED, r#"{"tag":"client","text":"a"}"#, 64, "read"),
    (
        REQUIRED,
        r#"{"tag":"client","text":"a"}"#,
        65,
        "components 0 0 0 requires: too-many",
    ),
    (
        LISTED,
        r#"{"id":"a","provides":[],"releases":[]}"#,
        4096,
        "read",
    ),
    (
        LISTED,
        r#"{"id":"a","provides":[],"releases":[]}"#,
        4097,
        "document 0 0 0 components: too-many",
    ),
];

#[test]
fn limits(rt: HostRuntime) -> Result<(), Fail> {
    for (frame, part, times, want) in LIMITS.iter() {
        let told = told_of_many(rt.alloc(), *frame, part, *times)?;
        assert_eq!(rt; told.as_str(), *want);
    }
    Ok(())
}

const ONE_RELEASE: &str =
    r#"{"version":"1","sha256":"b3f5d0e3a9f4f0f4b3f5d0e3a9f4f0f4b3f5d0e3a9f4f0f4b3f5d0e3a9f4f0f4","size":0}"#;

/// What is told of 12,000 releases, and 7,999 and some more in another component.
fn told_of_releases(alloc: Global, more: &str) -> Result<String, Fail> {
    let first = repeated(alloc, ONE_RELEASE, 12_000)?;
    let second = repeated(alloc, ONE_RELEASE, 7_999)?;
    let json = format!(in alloc;
        "[{{\"id\":\"a\",\"provides\":[],\"releases\":[{first}]}},{{\"id\":\"b\",\"provides\":[],\"releases\":[{second},{more}]}}]"
    )?;
    told(alloc, json.as_str())
}

#[test]
fn releases_are_counted_over_all_components(rt: HostRuntime) -> Result<(), Fail> {
    for (more, want) in [
        (ONE_RELEASE, "read"),
        ("3", "components 1 7999 0 entry: wrong-kind"),
        ("3,3", "components 1 0 0 releases: too-many"),
    ] {
        let told = told_of_releases(rt.alloc(), more)?;
        assert_eq!(rt; told.as_str(), want);
    }
    Ok(())
}

fn here() -> Spot {
    Spot {
        section: Word::Machine,
        index: [1, 2, 3],
        field: Word::Entry,
    }
}

fn reason<T: Drop>(read: Result<T, ReadStop>) -> Option<Reason> {
    match read {
        Ok(_) => None,
        Err(ReadStop::At(fault)) => Some(fault.reason),
        Err(ReadStop::NoMemory) => Some(Reason::NotJson),
    }
}

const FIELDS: &str = r#"{"pool":7,"on-ac":true,"name":"a b","ids":["a","b"]}"#;

#[test]
fn single_fields(rt: HostRuntime) -> Result<(), Fail> {
    let mut scratch = Scratch::new(rt.alloc());
    let value = json_values::read(rt.alloc(), FIELDS.as_bytes(), &mut scratch)?;
    let found = [
        reason(object(&value, here())),
        reason(text(&value, here())),
        reason(number_or(&value, here(), Word::Pool, 7, 0)),
        reason(number_or(&value, here(), Word::Pool, 6, 0)),
        reason(boolean_or(&value, here(), Word::OnAc, false)),
        reason(boolean_or(&value, here(), Word::Pool, false)),
        reason(line_or_none(&value, here(), Word::Pool)),
        reason(line_or_empty(&value, here(), Word::Vendor)),
        reason(name_or_none(&value, here(), Word::Name)),
        reason(version_or_none(&value, here(), Word::Name)),
    ];
    let kind = Some(Reason::WrongKind);
    let want = [
        None,
        kind,
        None,
        kind,
        None,
        kind,
        kind,
        None,
        kind,
        Some(Reason::BadVersion),
    ];
    assert_eq!(rt; found, want);
    Ok(())
}

fn reason_of_names(alloc: Global, value: &Value, most: usize) -> Option<Reason> {
    if most > 100 {
        return None;
    }
    let names: Result<Vec<Name>, ReadStop> = list_needed(alloc, value, here(), Word::Ids, most);
    let lines: Result<Vec<Line>, ReadStop> = list_or_empty(alloc, value, here(), Word::Ids, most);
    reason(names).or(reason(lines))
}

#[test]
fn single_lists(rt: HostRuntime) -> Result<(), Fail> {
    let mut scratch = Scratch::new(rt.alloc());
    let value = json_values::read(rt.alloc(), FIELDS.as_bytes(), &mut scratch)?;
    assert_eq!(rt; reason_of_names(rt.alloc(), &value, 2), None);
    assert_eq!(rt;
        reason_of_names(rt.alloc(), &value, 1),
        Some(Reason::TooMany)
    );
    Ok(())
}

/// Which kinds a value is of: number 7, truth, name, line, one of two names, version, digest, GUID.
fn kinds(alloc: Global, json: &str) -> Result<[bool; 8], Fail> {
    let json = filled(alloc, json)?;
    let mut scratch = Scratch::new(alloc);
    let value = json_values::read(alloc, json.as_bytes(), &mut scratch)?;
    Ok([
        number(&value, here(), 7, 7).is_ok(),
        boolean(&value, here()).is_ok(),
        name(&value, here()).is_ok(),
        line(&value, here()).is_ok(),
        name_among(&value, here(), &["c", "a"]).is_ok(),
        version(&value, here()).is_ok(),
        digest(&value, here()).is_ok(),
        guid(&value, here()).is_ok(),
    ])
}

const KINDS: [(&str, [bool; 8]); 8] = [
    ("7", [true, false, false, false, false, false, false, false]),
    (
        "true",
        [false, true, false, false, false, false, false, false],
    ),
    (
        "\"a\"",
        [false, false, true, true, true, true, false, false],
    ),
    (
        "\"b\"",
        [false, false, true, true, false, true, false, false],
    ),
    (
        "\"a b\"",
        [false, false, false, true, false, false, false, false],
    ),
    (
        "\"H\"",
        [false, false, true, true, false, true, true, false],
    ),
    (
        "\"G\"",
        [false, false, true, true, false, true, false, true],
    ),
    (
        "[]",
        [false, false, false, false, false, false, false, false],
    ),
];

#[test]
fn single_values(rt: HostRuntime) -> Result<(), Fail> {
    for (json, want) in KINDS.iter() {
        assert_eq!(rt; kinds(rt.alloc(), json)?, *want);
    }
    Ok(())
}
