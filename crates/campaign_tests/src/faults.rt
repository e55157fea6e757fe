//! Calls of the keeper and of the shelf that fail.
use crate::base::{Change, HISTORIES, History, Outside, WELL, document, joined, run};
use std::alloc::Global;
use std::sync::Wait;
use std::test::Fail;
use std::thread::Threads;

pub(crate) const BEGIN: &str = "fwupdemu report 1\n";

pub(crate) const BOOT: &str = "boot 1 time 1000\n";

/// The board as a boot shows it before the install.
pub(crate) const OLD: &str = "  board usb1 1.0.0 runtime\n";

/// The board after the install.
const NEW: &str = "  board usb1 1.1.0 runtime\n";

const ASKED: &str = "client 1 ask t1 usb1 1.1.0 hold 1\n";

/// The claim and its steps.
const STEPS: &str = "client 1 claim t1 entry 1
client 1 entry 1 start prepare
client 1 entry 1 end prepare ok 1.0.0 runtime
client 1 entry 1 start write
client 1 entry 1 end write ok 1.1.0 runtime began ended
client 1 entry 1 start reload
client 1 entry 1 end reload ok 1.1.0 runtime
client 1 entry 1 start cleanup
client 1 entry 1 end cleanup ok 1.1.0 runtime
";

const FINISHED: &str = "client 1 entry 1 finish success\n";

/// The finish couldn't be stored.
const IN_DOUBT: &str = "client 1 entry 1 finish success keeper-fault\n";

/// The claim couldn't be stored.
const UNSTORED: &str = "client 1 claim t1 refused 16 keeper-fault\n";

const BOOT_FAULT: &str = "boot 2 time 2000 keeper-fault\n";

const KEPT: &str = "boot 2 time 2000 doubt kept\n";

const LOST: &str = "boot 2 time 2000 doubt lost\n";

/// The install is asked for again.
pub(crate) const AGAIN: &str = "client 1 ask t1 usb1 1.1.0 kept 1 success\n";

/// One install, and what comes before it in a report.
pub(crate) const INSTALL: [&str; 7] = [BEGIN, BOOT, OLD, ASKED, STEPS, FINISHED, "end 12\n"];

/// The install stands in a second boot too.
const TWICE: (&str, &str) = (
    r#"{"do":"install","tag":"t1","device":"usb1","version":"1.1.0"}]]}"#,
    r#"{"do":"install","tag":"t1","device":"usb1","version":"1.1.0"}]]},{"time":2000,"scripts":[[{"do":"install","tag":"t1","device":"usb1","version":"1.1.0"}]]}"#,
);

/// A planned failure: the number of a call, and whether the change of a commit is made after all.
type Plan = &'static [(u32, bool)];

/// Plans that leave the same, the status, and the report behind its first line. Over two boots with one install each,
/// the calls are the load of the first boot, the commits of the claim and of the finish, and the reopening and the
/// load of the second boot. Where the first claim isn't stored, calls 3 and 4 are those of the second boot, and 5 is
/// the commit of its judgement or of its claim.
const KEEPER: [(&[Plan], &str, &[&str]); 10] = [
    (
        &[&[], &[(6, true)]],
        "done",
        &[
            BEGIN,
            BOOT,
            OLD,
            ASKED,
            STEPS,
            FINISHED,
            "boot 2 time 2000\n",
            NEW,
            AGAIN,
            "end 14\n",
        ],
    ),
    (
        &[&[(1, false)], &[(1, true)]],
        "history failed",
        &[
            BEGIN,
            "boot 1 time 1000 keeper-fault\n",
            OLD,
            "boot 2 time 2000\n",
            OLD,
            ASKED,
            STEPS,
            FINISHED,
            "end 13\n",
        ],
    ),
    (
        &[&[(2, false)]],
        "history failed",
        &[
            BEGIN, BOOT, OLD, ASKED, UNSTORED, LOST, OLD, ASKED, STEPS, FINISHED, "end 15\n",
        ],
    ),
    (
        &[&[(2, true)]],
        "history failed",
        &[
            BEGIN,
            BOOT,
            OLD,
            ASKED,
            UNSTORED,
            KEPT,
            OLD,
            "client 0 judge 1 1.0.0 failed\n",
            "client 1 ask t1 usb1 1.1.0 kept 1 failed\n",
            "end 6\n",
        ],
    ),
    (
        &[&[(3, false)]],
        "history failed",
        &[
            BEGIN,
            BOOT,
            OLD,
            ASKED,
            STEPS,
            IN_DOUBT,
            LOST,
            NEW,
            "client 0 judge 1 1.1.0 success\n",
            AGAIN,
            "end 15\n",
        ],
    ),
    (
        &[&[(3, true)]],
        "history failed",
        &[
            BEGIN, BOOT, OLD, ASKED, STEPS, IN_DOUBT, KEPT, NEW, AGAIN, "end 14\n",
        ],
    ),
    (
        &[&[(4, false)], &[(4, true)], &[(5, false)], &[(5, true)]],
        "history failed",
        &[
            BEGIN, BOOT, OLD, ASKED, STEPS, FINISHED, BOOT_FAULT, NEW, "end 13\n",
        ],
    ),
    (
        &[&[(2, true), (3, true)], &[(2, false), (4, true)]],
        "history failed",
        &[
            BEGIN, BOOT, OLD, ASKED, UNSTORED, BOOT_FAULT, OLD, "end 4\n",
        ],
    ),
    (
        &[&[(2, true), (5, true)]],
        "history failed",
        &[
            BEGIN,
            BOOT,
            OLD,
            ASKED,
            UNSTORED,
            KEPT,
            OLD,
            "client 0 judge 1 1.0.0 failed keeper-fault\n",
            "end 5\n",
        ],
    ),
    (
        &[&[(2, false), (5, false)]],
        "history failed",
        &[
            BEGIN, BOOT, OLD, ASKED, UNSTORED, LOST, OLD, ASKED, UNSTORED, "end 6\n",
        ],
    ),
];

/// Which calls of the shelf fail, and the report. A fetch asks for the length, and reads once.
const SHELF: [(&[u32], &[&str]); 3] = [
    (&[1], &[BEGIN, BOOT, OLD, ASKED, NO_PAYLOAD, "end 3\n"]),
    (&[2], &[BEGIN, BOOT, OLD, ASKED, NO_PAYLOAD, "end 3\n"]),
    (&[3], &INSTALL),
];

const NO_PAYLOAD: &str = "client 1 claim t1 refused 14 payload shelf-fault\n";

/// What a run over a keeper that fails so tells otherwise.
fn keeper_unlike<R: Threads + Wait + Sync>(
    rt: &R,
    alloc: Global,
    history: History,
    failing: &[(u32, bool)],
    status: &str,
    report: &[&str],
) -> Result<String, Fail> {
    let text = document(alloc, &[TWICE])?;
    let outside = Outside {
        keeper: failing,
        ..WELL
    };
    run(rt, alloc, history, &text, &outside)?.unlike(alloc, status, report)
}

/// The first campaign that is told otherwise.
fn first_keeper_unlike<R: Threads + Wait + Sync>(
    rt: &R,
    alloc: Global,
    history: History,
) -> Result<String, Fail> {
    for (plans, status, report) in KEEPER {
        for failing in plans {
            let told = keeper_unlike(rt, alloc, history, failing, status, report)?;
            if !told.is_empty() {
                return Ok(told);
            }
        }
    }
    Ok(String::new(alloc))
}

/// Each call of the keeper fails in turn; a change whose commit failed is kept or lost.
#[test]
fn each_call_of_the_keeper_fails(rt: HostRuntime) -> Result<(), Fail> {
    for history in HISTORIES {
        let told = first_keeper_unlike(&rt, rt.alloc(), history)?;
        assert_eq!(rt; told.as_str(), "", "over {history:?}");
    }
    Ok(())
}

/// What a run over a shelf that fails so tells otherwise.
fn shelf_unlike<R: Threads + Wait + Sync>(
    rt: &R,
    alloc: Global,
    history: History,
    failing: &[u32],
    report: &[&str],
) -> Result<String, Fail> {
    let text = document(alloc, &[])?;
    let outside = Outside {
        shelf: failing,
        ..WELL
    };
    run(rt, alloc, history, &text, &outside)?.unlike(alloc, "done", report)
}

#[test]
fn each_call_of_the_shelf_fails(rt: HostRuntime) -> Result<(), Fail> {
    for history in HISTORIES {
        for (failing, report) in SHELF {
            let told = shelf_unlike(&rt, rt.alloc(), history, failing, report)?;
            assert_eq!(rt; told.as_str(), "", "over {history:?}");
        }
    }
    Ok(())
}

/// Pieces of the document that are changed, how many shelves there are, which calls of the source fail, and the status
/// of a run in which no campaign begins.
const NOTHING: [(&[Change], u32, &[u32], &str); 5] = [
    (&[], 1, &[1], "reading failed"),
    (&[], 0, &[], "clients 1 shelves 0"),
    (
        &[(r#""clients":[{}]"#, r#""clients":[{},{},{}]"#)],
        0,
        &[],
        "clients 3 shelves 0",
    ),
    (
        &[(r#""machine""#, r#""mach"#)],
        1,
        &[],
        "document: document 0 0 0 text: not-json",
    ),
    (
        &[("triplet", "tripple")],
        1,
        &[],
        "document: boards 0 0 0 version-format: wrong-kind",
    ),
];

/// No campaign begins, and nothing is written.
#[test]
fn no_campaign_begins(rt: HostRuntime) -> Result<(), Fail> {
    let alloc = rt.alloc();
    for history in HISTORIES {
        for (changes, shelves, source, status) in NOTHING {
            let told = nothing_unlike(&rt, alloc, history, changes, shelves, source, status)?;
            assert_eq!(rt; told.as_str(), "", "over {history:?}");
        }
    }
    Ok(())
}

/// What a run in which no campaign begins tells otherwise.
fn nothing_unlike<R: Threads + Wait + Sync>(
    rt: &R,
    alloc: Global,
    history: History,
    changes: &[Change],
    shelves: u32,
    source: &[u32],
    status: &str,
) -> Result<String, Fail> {
    let text = document(alloc, changes)?;
    let outside = Outside {
        shelves,
        source,
        ..WELL
    };
    let left = run(rt, alloc, history, &text, &outside)?;
    if left.events != 0 {
        return Ok(format!(in alloc; "events {}", left.events)?);
    }
    left.unlike(alloc, status, &[])
}

/// What the first campaign whose report stops, at one call after the other, tells otherwise. The last one is told whole.
fn first_stop_unlike<R: Threads + Wait + Sync>(
    rt: &R,
    alloc: Global,
    history: History,
) -> Result<String, Fail> {
    let text = document(alloc, &[])?;
    let whole = joined(alloc, &INSTALL)?;
    for call in 1..1000 {
        let failing = [call];
        let outside = Outside {
            sink: &failing,
            ..WELL
        };
        let left = run(rt, alloc, history, &text, &outside)?;
        if left.status.as_str() != "writing failed" || !whole.starts_with(left.text()) {
            return if call == 1 {
                Ok(format!(in alloc; "{}\n{}", left.status, left.text())?)
            } else {
                left.unlike(alloc, "done", &INSTALL)
            };
        }
    }
    Ok(format!(in alloc; "each call fails")?)
}

/// Each call of the sink fails in turn: what it took is a front of the report.
#[test]
fn each_call_of_the_sink_fails(rt: HostRuntime) -> Result<(), Fail> {
    for history in HISTORIES {
        let told = first_stop_unlike(&rt, rt.alloc(), history)?;
        assert_eq!(rt; told.as_str(), "", "over {history:?}");
    }
    Ok(())
}
