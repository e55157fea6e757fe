//! Cuts at every event of an install.
use crate::base::{HISTORIES, History, Left, WELL, document, run};
use std::alloc::Global;
use std::sync::Wait;
use std::test::Fail;
use std::thread::Threads;

const BEGIN: &str = "fwupdemu report 1\nboot 1 time 1000\n  board usb1 1.0.0 runtime\n";

/// The events of an install, in their order.
const EVENTS: [&str; 11] = [
    "client 1 ask t1 usb1 1.1.0 hold 1\n",
    "client 1 claim t1 entry 1\n",
    "client 1 entry 1 start prepare\n",
    "client 1 entry 1 end prepare ok 1.0.0 runtime\n",
    "client 1 entry 1 start write\n",
    "client 1 entry 1 end write ok 1.1.0 runtime began ended\n",
    "client 1 entry 1 start reload\n",
    "client 1 entry 1 end reload ok 1.1.0 runtime\n",
    "client 1 entry 1 start cleanup\n",
    "client 1 entry 1 end cleanup ok 1.1.0 runtime\n",
    "client 1 entry 1 finish success\n",
];

/// The entry is given back.
const GIVEN: &str = "cut\nclient 1 gave-back entry 1\nboot 2 time 2000\n";

/// The version is that of before, or the new one.
const FAILED: &str = "  board usb1 1.0.0 runtime\nclient 0 judge 1 1.0.0 failed\n";

const DONE: &str = "  board usb1 1.1.0 runtime\nclient 0 judge 1 1.1.0 success\n";

/// After how many counted events the power is cut, what the report says behind so many of them, and how often a write
/// began.
const CUTS: [(&str, usize, &[&str], usize); 13] = [
    (
        "0",
        0,
        &["cut\nboot 2 time 2000\n  board usb1 1.0.0 runtime\nend 3\n"],
        0,
    ),
    (
        "1",
        1,
        &["cut\nclient 1 gave-back t1\nboot 2 time 2000\n  board usb1 1.0.0 runtime\nend 5\n"],
        0,
    ),
    ("2", 2, &[GIVEN, FAILED, "end 7\n"], 0),
    ("3", 3, &[GIVEN, FAILED, "end 8\n"], 0),
    ("4", 4, &[GIVEN, FAILED, "end 9\n"], 0),
    (
        "5",
        5,
        &[GIVEN, "  told usb1 began ended\n", DONE, "end 10\n"],
        1,
    ),
    ("6", 6, &[GIVEN, DONE, "end 11\n"], 1),
    ("7", 7, &[GIVEN, DONE, "end 12\n"], 1),
    ("8", 8, &[GIVEN, DONE, "end 13\n"], 1),
    ("9", 9, &[GIVEN, DONE, "end 14\n"], 1),
    ("10", 10, &[GIVEN, DONE, "end 15\n"], 1),
    (
        "11",
        11,
        &["boot 2 time 2000\n  board usb1 1.1.0 runtime\nend 13\n"],
        1,
    ),
    (
        "12",
        11,
        &["boot 2 time 2000\n  board usb1 1.1.0 runtime\nend 13\n"],
        1,
    ),
];

/// The report of an install that is cut behind so many events.
fn cut_report(alloc: Global, events: usize, rest: &[&str]) -> Result<String, Fail> {
    let mut report = format!(in alloc; "{BEGIN}")?;
    for event in EVENTS.iter().take(events) {
        report.push_str(event)?;
    }
    for piece in rest {
        report.push_str(piece)?;
    }
    Ok(report)
}

/// What a run left otherwise than this report and so many writes that began.
fn left_unlike(alloc: Global, left: &Left, report: &str, begun: usize) -> Result<String, Fail> {
    let writes = left.begun.len();
    if writes != begun {
        return Ok(format!(in alloc; "writes {writes}\n{}", left.text())?);
    }
    left.unlike(alloc, "done", &[report])
}

/// What an install with a cut, and a second boot, tells otherwise.
fn unlike<R: Threads + Wait + Sync>(
    rt: &R,
    alloc: Global,
    history: History,
    limit: &str,
    report: &str,
    begun: usize,
) -> Result<String, Fail> {
    let time = format!(in alloc; "\"time\":1000,\"cut-after\":{limit},")?;
    let changes = [
        (r#""time":1000,"#, time.as_str()),
        (r#"]]}]"#, r#"]]},{"time":2000}]"#),
    ];
    let text = document(alloc, &changes)?;
    let left = run(rt, alloc, history, &text, &WELL)?;
    left_unlike(alloc, &left, report, begun)
}

/// The power is cut at each event of an install in turn: the write began at most once, and the next boot judges by the
/// version alone.
#[test]
fn a_cut_at_each_event(rt: HostRuntime) -> Result<(), Fail> {
    let alloc = rt.alloc();
    for history in HISTORIES {
        for (limit, events, rest, begun) in CUTS {
            let report = cut_report(alloc, events, rest)?;
            let told = unlike(&rt, alloc, history, limit, &report, begun)?;
            assert_eq!(rt; told.as_str(), "", "over {history:?}");
        }
    }
    Ok(())
}
