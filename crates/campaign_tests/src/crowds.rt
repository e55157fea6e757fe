//! Sixteen clients that ask for one device at once.
use crate::base::{HISTORIES, History, Outside, WELL, changed, document, run, with};
use std::alloc::Global;
use std::sync::Wait;
use std::test::Fail;
use std::thread::Threads;

const CLIENTS: u32 = 16;

/// How many rounds a campaign has: a boot is a round.
const ROUNDS: u32 = 32;

/// How many campaigns are run over each history: 1,024 rounds in all.
const CAMPAIGNS: u32 = 32;

/// The version that is asked for in a round, and the flags that this takes: the old one and the new one by turns.
fn wish(round: u32) -> (&'static str, &'static str) {
    if round.is_multiple_of(2) {
        ("1.1.0", "")
    } else {
        ("1.0.0", r#""allow-older""#)
    }
}

/// The scripts of all clients: the same request, and each tag stands with two clients.
fn scripts(alloc: Global, round: u32) -> Result<String, Fail> {
    let (version, flags) = wish(round);
    let mut scripts = String::new(alloc);
    for client in 0..CLIENTS {
        if client > 0 {
            scripts.push_str(",")?;
        }
        let tag = format!(in alloc; "r{round}t{}", client / 2)?;
        let item = changed(alloc, ITEM, &[("VERSION", version), ("FLAGS", flags)])?;
        scripts.push_str(&with(alloc, &item, "TAG", &tag)?)?;
    }
    Ok(scripts)
}

const ITEM: &str =
    r#"[{"do":"install","tag":"TAG","device":"usb1","version":"VERSION","flags":[FLAGS]}]"#;

fn boots(alloc: Global) -> Result<String, Fail> {
    let mut boots = String::new(alloc);
    for round in 0..ROUNDS {
        if round > 0 {
            boots.push_str(",")?;
        }
        let scripts = scripts(alloc, round)?;
        boots.push_str(&format!(in alloc; "{{\"time\":{round},\"scripts\":[{scripts}]}}")?)?;
    }
    Ok(boots)
}

fn site(alloc: Global) -> Result<String, Fail> {
    let boots = boots(alloc)?;
    let changes = [
        (
            r#""clients":[{}]"#,
            r#""clients":[{},{},{},{},{},{},{},{},{},{},{},{},{},{},{},{}]"#,
        ),
        (
            r#"{"time":1000,"scripts":[[{"do":"install","tag":"t1","device":"usb1","version":"1.1.0"}]]}"#,
            boots.as_str(),
        ),
    ];
    document(alloc, &changes)
}

/// How many requests of a round caused no write, by what they were answered.
fn answered(round: &str) -> usize {
    let mut count: usize = 0;
    for answer in [
        " refused 3 busy ",
        " refused 4 unsettled ",
        " refused 8 same-version",
        " kept ",
    ] {
        count = count.saturating_add(round.matches(answer).count());
    }
    count
}

/// Whether one client wrote in this round, and all others were answered.
fn is_round(round: &str) -> bool {
    round.matches(" start write\n").count() == 1 && answered(round) == 15
}

/// Whether all rounds of the report are so. What stands before the first boot is none.
fn are_rounds(report: &str) -> bool {
    let mut count: u32 = 0;
    for round in report.split("\nboot ").skip(1) {
        if !is_round(round) {
            return false;
        }
        count = count.saturating_add(1);
    }
    count == ROUNDS
}

/// How a campaign ended and what it reported, where a round is otherwise.
fn unlike<R: Threads + Wait + Sync>(
    rt: &R,
    alloc: Global,
    history: History,
    text: &str,
) -> Result<String, Fail> {
    let outside = Outside {
        shelves: CLIENTS,
        ..WELL
    };
    let left = run(rt, alloc, history, text, &outside)?;
    let writes = left.begun.len();
    if left.status.as_str() == "done"
        && are_rounds(left.text())
        && !left.wrote_twice()
        && writes == ROUNDS as usize
    {
        return Ok(String::new(alloc));
    }
    Ok(format!(in alloc; "{} writes {writes}\n{}", left.status, left.text())?)
}

/// In each round one write, and for all others an answer.
#[test]
fn one_of_sixteen_writes(rt: HostRuntime) -> Result<(), Fail> {
    let alloc = rt.alloc();
    let text = site(alloc)?;
    for history in HISTORIES {
        for _ in 0..CAMPAIGNS {
            let told = unlike(&rt, alloc, history, &text)?;
            assert_eq!(rt; told.as_str(), "", "over {history:?}");
        }
    }
    Ok(())
}
