//! Two clients that try the same failed install again at once.
use crate::base::{HISTORIES, History, Outside, WELL, changed, document, run};
use std::alloc::Global;
use std::sync::Wait;
use std::test::Fail;
use std::thread::Threads;

/// How many rounds a campaign has. A round is two boots: in the first an install fails, in the second both clients try
/// it again.
const ROUNDS: u32 = 16;

/// How many campaigns are run over each history: 1,024 rounds over both.
const CAMPAIGNS: u32 = 32;

/// The version that is asked for in a round, and the flags that this takes: the new one and the old one by turns.
fn wish(round: u32) -> (&'static str, &'static str) {
    if round.is_multiple_of(2) {
        ("1.1.0", "")
    } else {
        ("1.0.0", r#""allow-older""#)
    }
}

const ITEM: &str =
    r#"[{"do":"install","tag":"TAG","device":"usb1","version":"VERSION","flags":[FLAGS]MORE}]"#;

/// An install of the round's version.
fn item(alloc: Global, round: u32, tag: &str, more: &str) -> Result<String, Fail> {
    let (version, flags) = wish(round);
    let changes = [
        ("TAG", tag),
        ("VERSION", version),
        ("FLAGS", flags),
        ("MORE", more),
    ];
    changed(alloc, ITEM, &changes)
}

/// The boot in which client 1's install fails.
fn failing(alloc: Global, round: u32) -> Result<String, Fail> {
    let tag = format!(in alloc; "r{round}")?;
    let item = item(alloc, round, &tag, "")?;
    Ok(format!(in alloc; "{{\"time\":{round},\"scripts\":[{item}]}}")?)
}

/// The boot in which both clients try it again. Each round before it added two rows, and the failed install is the next
/// one.
fn racing(alloc: Global, round: u32) -> Result<String, Fail> {
    let entry = round.saturating_mul(2).saturating_add(1);
    let more = format!(in alloc; ",\"retry-of\":{entry}")?;
    let first = item(alloc, round, &format!(in alloc; "r{round}a")?, &more)?;
    let second = item(alloc, round, &format!(in alloc; "r{round}b")?, &more)?;
    Ok(format!(in alloc; "{{\"time\":{round},\"scripts\":[{first},{second}]}}")?)
}

fn boots(alloc: Global) -> Result<String, Fail> {
    let mut boots = String::new(alloc);
    for round in 0..ROUNDS {
        if round > 0 {
            boots.push_str(",")?;
        }
        boots.push_str(&failing(alloc, round)?)?;
        boots.push_str(",")?;
        boots.push_str(&racing(alloc, round)?)?;
    }
    Ok(boots)
}

/// The board's faults: an install takes two of its calls, and of each round the first one fails.
fn faults(alloc: Global) -> Result<String, Fail> {
    let mut faults = String::new(alloc);
    for round in 0..ROUNDS {
        if round > 0 {
            faults.push_str(",")?;
        }
        let call = round.saturating_mul(4).saturating_add(1);
        faults.push_str(&format!(in alloc; "{{\"call\":{call},\"fault\":\"failed\"}}")?)?;
    }
    Ok(format!(in alloc; "\"image\":\"EMU1 01000000\\n\",\"faults\":[{faults}]")?)
}

fn site(alloc: Global) -> Result<String, Fail> {
    let boots = boots(alloc)?;
    let faults = faults(alloc)?;
    let changes = [
        (r#""clients":[{}]"#, r#""clients":[{},{}]"#),
        (r#""image":"EMU1 01000000\n""#, faults.as_str()),
        (
            r#"{"time":1000,"scripts":[[{"do":"install","tag":"t1","device":"usb1","version":"1.1.0"}]]}"#,
            boots.as_str(),
        ),
    ];
    document(alloc, &changes)
}

/// How many requests of a boot were refused as the second of two retries may be.
fn refused(boot: &str) -> usize {
    let mut count: usize = 0;
    for answer in [
        " refused 3 busy ",
        " refused 4 unsettled ",
        " refused 17 retry retried ",
    ] {
        count = count.saturating_add(boot.matches(answer).count());
    }
    count
}

/// How many lines of a boot end so. The last one of a boot may stand without its end of line.
fn lines_with(boot: &str, end: &str) -> usize {
    let mut count: usize = 0;
    for line in boot.lines() {
        if line.ends_with(end) {
            count = count.saturating_add(1);
        }
    }
    count
}

/// Whether the install of this boot failed, or one client's retry went well and the other's was refused.
fn is_boot(boot: &str, races: bool) -> bool {
    let writes = lines_with(boot, " start write");
    if races {
        writes == 1 && lines_with(boot, " finish success") == 1 && refused(boot) == 1
    } else {
        writes == 1 && lines_with(boot, " finish failed") == 1
    }
}

/// Whether all boots of the report are so, by turns. What stands before the first boot is none.
fn are_boots(report: &str) -> bool {
    let mut count: u32 = 0;
    for boot in report.split("\nboot ").skip(1) {
        if !is_boot(boot, !count.is_multiple_of(2)) {
            return false;
        }
        count = count.saturating_add(1);
    }
    count == ROUNDS.saturating_mul(2)
}

/// How a campaign ended and what it reported, where a round is otherwise.
fn unlike<R: Threads + Wait + Sync>(
    rt: &R,
    alloc: Global,
    history: History,
    text: &str,
) -> Result<String, Fail> {
    let outside = Outside { shelves: 2, ..WELL };
    let left = run(rt, alloc, history, text, &outside)?;
    let writes = left.begun.len();
    if left.status.as_str() == "done"
        && are_boots(left.text())
        && !left.wrote_twice()
        && writes == ROUNDS as usize
    {
        return Ok(String::new(alloc));
    }
    Ok(format!(in alloc; "{} writes {writes}\n{}", left.status, left.text())?)
}

/// In each round one write, and for the other client a refusal.
#[test]
fn one_of_two_retries_writes(rt: HostRuntime) -> Result<(), Fail> {
    let alloc = rt.alloc();
    let text = site(alloc)?;
    for history in HISTORIES {
        for _ in 0..CAMPAIGNS {
            let told = unlike(&rt, alloc, history, &text)?;
            assert_eq!(rt; told.as_str(), "", "over {history:?}");
        }
    }
    Ok(())
}
