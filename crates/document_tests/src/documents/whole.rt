//! Whole texts, sections, and members that are missing.
use super::{BASE, Frame, SECTION, note, told, wrong_rows};
use std::test::Fail;

/// Texts that are the whole document.
const TEXTS: &[&str] = &[
    " => document 0 0 0 text: not-json",
    "{ => document 0 0 0 text: not-json",
    "[] => document 0 0 0 text: wrong-kind",
    "3 => document 0 0 0 text: wrong-kind",
    "null => document 0 0 0 text: wrong-kind",
    "{} => format 0 0 0 format: missing",
    r#"{"format":1} => document 0 0 0 machine: missing"#,
    r#"{"format":1}} => document 0 0 0 text: not-json"#,
    r#"{"format":1,"x":1e400} => document 0 0 0 text: not-json"#,
    r#"{"format":1,"x":1e300} => document 0 0 0 machine: missing"#,
    r#"{"format":1,"x":"\ud800"} => document 0 0 0 text: not-json"#,
    "{\"format\":1,\"x\":\"\t\"} => document 0 0 0 text: not-json",
    "\u{feff}{\"format\":1} => document 0 0 0 text: not-json",
];

#[test]
fn whole_texts(rt: HostRuntime) -> Result<(), Fail> {
    let mut wrong = String::new(rt.alloc());
    for row in TEXTS {
        let (text, want) = row.split_once(" => ").unwrap_or((row, ""));
        note(rt.alloc(), &mut wrong, text, text, want)?;
    }
    assert_eq!(rt; wrong.as_str(), "");
    Ok(())
}

#[test]
fn bytes_that_are_no_text(rt: HostRuntime) -> Result<(), Fail> {
    let answer = told(rt.alloc(), b"{\"format\":1,\"x\":\"\xff\"}")?;
    assert_eq!(rt; answer.as_str(), "document 0 0 0 text: not-json");
    Ok(())
}

const NOT_JSON: &str = "document 0 0 0 text: not-json";

#[test]
fn each_front_of_a_document_is_no_json(rt: HostRuntime) -> Result<(), Fail> {
    let mut wrong = String::new(rt.alloc());
    for (end, _) in BASE.char_indices() {
        let (front, _) = BASE.split_at_checked(end).unwrap_or(("{}", ""));
        note(rt.alloc(), &mut wrong, front, front, NOT_JSON)?;
    }
    assert_eq!(rt; wrong.as_str(), "");
    Ok(())
}

const SECTIONS: &[&str] = &[
    r#""x":{"format":3} => read"#,
    r#""format":1.0 => format 0 0 0 format: wrong-kind"#,
    r#""format":0 => format 0 0 0 format: wrong-kind"#,
    r#""format":2 => format 0 0 0 format: wrong-kind"#,
    r#""format":"1" => format 0 0 0 format: wrong-kind"#,
    r#""format":true => format 0 0 0 format: wrong-kind"#,
    r#""format":null => format 0 0 0 format: wrong-kind"#,
    r#""format":2,"format":1 => read"#,
    r#""machine":3 => document 0 0 0 machine: wrong-kind"#,
    r#""machine":null => document 0 0 0 machine: wrong-kind"#,
    r#""machine":[] => document 0 0 0 machine: wrong-kind"#,
    r#""quirks":[] => read"#,
    r#""quirks":{} => document 0 0 0 quirks: wrong-kind"#,
    r#""quirks":null => document 0 0 0 quirks: wrong-kind"#,
    r#""components":[] => read"#,
    r#""components":{} => document 0 0 0 components: wrong-kind"#,
    r#""boards":[] => read"#,
    r#""boards":null => document 0 0 0 boards: wrong-kind"#,
    r#""clients":{} => document 0 0 0 clients: wrong-kind"#,
    r#""boots":[] => read"#,
    r#""boots":3 => document 0 0 0 boots: wrong-kind"#,
];

#[test]
fn kinds_of_sections(rt: HostRuntime) -> Result<(), Fail> {
    let wrong = wrong_rows(rt.alloc(), SECTION, SECTIONS)?;
    assert_eq!(rt; wrong.as_str(), "");
    Ok(())
}

/// Needed members, which are missing where another name stands for theirs.
const NEEDED: &[&str] = &[
    "\"format\" => format 0 0 0 format: missing",
    "\"machine\" => document 0 0 0 machine: missing",
    "\"daemon\" => machine 0 0 0 daemon: missing",
    "\"pool\" => machine 0 0 0 pool: missing",
    "\"components\" => document 0 0 0 components: missing",
    "\"id\" => components 0 0 0 id: missing",
    "\"provides\" => components 0 0 0 provides: missing",
    "\"tag\" => components 0 0 0 tag: missing",
    "\"compare\" => components 0 0 0 compare: missing",
    "\"releases\" => components 0 0 0 releases: missing",
    "\"sha256\" => components 0 0 0 sha256: missing",
    "\"size\" => components 0 0 0 size: missing",
    "\"boards\" => document 0 0 0 boards: missing",
    "\"port\" => boards 0 0 0 port: missing",
    "\"physical\" => boards 0 0 0 physical: missing",
    "\"plugin\" => boards 0 0 0 plugin: missing",
    "\"instance-ids\" => boards 0 0 0 instance-ids: missing",
    "\"version-format\" => boards 0 0 0 version-format: missing",
    "\"image\" => boards 0 0 0 image: missing",
    "\"clients\" => document 0 0 0 clients: missing",
    "\"boots\" => document 0 0 0 boots: missing",
    "\"time\" => boots 0 0 0 time: missing",
    "\"do\" => boots 0 0 0 do: missing",
    "\"device\" => boots 0 0 0 device: missing",
    // and members that may be missing
    "\"name\" => read",
    "\"requires\" => read",
    "\"vendor-ids\" => read",
    "\"flags\" => read",
    "\"scripts\" => read",
];

#[test]
fn missing_members(rt: HostRuntime) -> Result<(), Fail> {
    let alloc = rt.alloc();
    let mut wrong = String::new(alloc);
    for row in NEEDED {
        let (old, want) = row.split_once(" => ").unwrap_or((row, ""));
        let named = Frame {
            old,
            front: "",
            back: "",
        };
        let text = super::framed(alloc, named, "\"x\"")?;
        note(alloc, &mut wrong, text.as_str(), old, want)?;
    }
    assert_eq!(rt; wrong.as_str(), "");
    Ok(())
}
