//! Histories that are full, or that are none.
use crate::base::{HISTORIES, History, Outside, WELL, document, run};
use crate::pasts::Past;
use std::alloc::Global;
use std::sync::Wait;
use std::test::Fail;
use std::thread::Threads;

/// A second board of the same kind, and an install of it.
const TWO_BOARDS: [(&str, &str); 2] = [
    (
        r#""boards":["#,
        r#""boards":[{"port":"usb2","physical":"usb-2","plugin":"flash","vendor-ids":["USB:0x0A5C"],"instance-ids":["2082b5e0-7a64-478a-b1b2-e3404fab6dad"],"flags":["updatable"],"version-format":"triplet","image":"EMU1 01000000\n"},"#,
    ),
    (
        r#""version":"1.1.0"}]]}]"#,
        r#""version":"1.1.0"},{"do":"install","tag":"t2","device":"usb2","version":"1.1.0"}]]}]"#,
    ),
];

const FULL: &str = "fwupdemu report 1
boot 1 time 1000
  board usb2 1.0.0 runtime
  board usb1 1.0.0 runtime
client 1 ask t1 usb1 1.1.0 hold 1
client 1 claim t1 entry 65536
client 1 entry 65536 start prepare
client 1 entry 65536 end prepare ok 1.0.0 runtime
client 1 entry 65536 start write
client 1 entry 65536 end write ok 1.1.0 runtime began ended
client 1 entry 65536 start reload
client 1 entry 65536 end reload ok 1.1.0 runtime
client 1 entry 65536 start cleanup
client 1 entry 65536 end cleanup ok 1.1.0 runtime
client 1 entry 65536 finish success
client 1 ask t2 usb2 1.1.0 hold 1
client 1 claim t2 refused 15 rows-full
end 14
";

/// So many entries, each with its own tag.
fn numbered(alloc: Global, count: u32) -> Result<Vec<Past>, Fail> {
    let mut past = Vec::new(alloc);
    for entry in 1..=count {
        past.push((entry, entry))?;
    }
    Ok(past)
}

/// What a run over a history with these rows tells otherwise.
fn unlike<R: Threads + Wait + Sync>(
    rt: &R,
    alloc: Global,
    history: History,
    past: &[Past],
    text: &str,
    status: &str,
    report: &str,
) -> Result<String, Fail> {
    let outside = Outside { past, ..WELL };
    run(rt, alloc, history, text, &outside)?.unlike(alloc, status, &[report])
}

/// The history takes one row more, and then no other.
#[test]
fn a_history_is_full(rt: HostRuntime) -> Result<(), Fail> {
    let alloc = rt.alloc();
    let text = document(alloc, &TWO_BOARDS)?;
    let past = numbered(alloc, 65_535)?;
    for history in HISTORIES {
        let told = unlike(&rt, alloc, history, &past, &text, "done", FULL)?;
        assert_eq!(rt; told.as_str(), "", "over {history:?}");
    }
    Ok(())
}

/// The report where there is no campaign.
const NOTHING: &str = "fwupdemu report 1\nend 0\n";

/// The second row repeats a tag: there is no campaign over such rows. A database takes no such row.
#[test]
fn a_tag_stands_twice(rt: HostRuntime) -> Result<(), Fail> {
    let alloc = rt.alloc();
    let text = document(alloc, &[])?;
    let past = [(1, 1), (2, 1)];
    let told = unlike(
        &rt,
        alloc,
        History::Memory,
        &past,
        &text,
        "history row 2",
        NOTHING,
    )?;
    assert_eq!(rt; told.as_str(), "");
    Ok(())
}

/// The second row has the third entry: there is no campaign over such rows.
#[test]
fn an_entry_is_missing(rt: HostRuntime) -> Result<(), Fail> {
    let alloc = rt.alloc();
    let text = document(alloc, &[])?;
    let past = [(1, 1), (3, 3)];
    for history in HISTORIES {
        let told = unlike(&rt, alloc, history, &past, &text, "history row 2", NOTHING)?;
        assert_eq!(rt; told.as_str(), "", "over {history:?}");
    }
    Ok(())
}
