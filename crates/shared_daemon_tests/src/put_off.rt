//! The daemon's own turns over a history with a row that was put off and one that was begun.
use crate::noted::{Noted, RowEnd, Verdict, noted_log, row_ends};
use crate::own_day::{Evening, Tasks, own_day};
use crate::scenes::{NEW, boards, booted, facts, plugins, shelf};
use fw_base::Name;
use fw_facts::{Mode, Seen};
use guid_ids::device_id;
use history_keeper::{MemoryKeeper, Row, RowState};
use outer_traits::NoGate;
use sha2::{Digest as _, Sha256};
use std::alloc::Global;
use std::process::Abort;
use std::slice;
use std::sync::Wait;
use std::test::Fail;
use update_log::{Found, Op, Stored};
use version_formats::Version;

const OLD_SEEN: Seen = Seen::Home {
    raw: 0x0100_0000,
    mode: Mode::Runtime,
};

const NEW_SEEN: Seen = Seen::Home {
    raw: 0x0101_0000,
    mode: Mode::Runtime,
};

/// The steps of an install by this plugin, and what the port shows behind each.
const STEPS: [(Op, Seen); 4] = [
    (Op::Prepare, OLD_SEEN),
    (Op::Write, NEW_SEEN),
    (Op::Reload, NEW_SEEN),
    (Op::Cleanup, NEW_SEEN),
];

/// The row of an install of a version on the board in a port.
fn row(entry: u32, port: &str, version: &str, flags: u8, state: RowState) -> Result<Row, Fail> {
    let name = Name::read(port.as_bytes())?;
    let version_old = Version::read(b"0.9.0")?;
    let version_new = Version::read(version.as_bytes())?;
    Ok(Row {
        entry,
        tag: name,
        client: 1,
        device: device_id(port.as_bytes(), None),
        component: name,
        version_old,
        version_new,
        digest: Sha256::digest(NEW),
        flags,
        state,
        reason: 0,
        time_added: 500,
        time_changed: 600,
        duration: 0,
        protocol: None,
        retry_of: None,
    })
}

/// Puts the row of the first board's install, which was put off.
fn put_first(rows: &mut Vec<Row>) -> Result<(), Fail> {
    let row = row(1, "usb1", "1.1.0", 1, RowState::Pending)?;
    rows.extend_from_slice(slice::from_ref(&row))?;
    Ok(())
}

/// Puts the row of the second board's install, which was begun, of that version.
fn put_second(rows: &mut Vec<Row>, begun: &str) -> Result<(), Fail> {
    let row = row(2, "usb2", begun, 0, RowState::Begun)?;
    rows.extend_from_slice(slice::from_ref(&row))?;
    Ok(())
}

/// Both rows.
fn rows(alloc: Global, begun: &str) -> Result<Vec<Row>, Fail> {
    let mut rows = Vec::new(alloc);
    put_first(&mut rows)?;
    put_second(&mut rows, begun)?;
    Ok(rows)
}

/// What these tasks come to over these rows.
fn evening_of<R: Abort + Wait>(
    rt: &R,
    alloc: Global,
    begun: &str,
    tasks: &Tasks<NoGate>,
) -> Result<Evening<MemoryKeeper>, Fail> {
    let facts = facts(alloc, false, 1)?;
    let boards = boards(alloc)?;
    let mut shelf = shelf(alloc)?;
    let rows = rows(alloc, begun)?;
    let keeper = MemoryKeeper::new(rows, Vec::new(alloc));
    let house = booted(rt, alloc, facts, boards, keeper);
    Ok(own_day(rt, alloc, house, &mut shelf, tasks))
}

/// A day over these rows.
fn evening<R: Abort + Wait>(
    rt: &R,
    alloc: Global,
    begun: &str,
) -> Result<Evening<MemoryKeeper>, Fail> {
    let plugins = plugins(alloc)?;
    let tasks = Tasks {
        put_off: 1,
        begun: 2,
        plugins: plugins.as_slice(),
        gate: &NoGate,
    };
    evening_of(rt, alloc, begun, &tasks)
}

/// The events of the boot, and of the first board's install until its steps.
const BEFORE_STEPS: [Noted; 3] = [
    Noted::Boot {
        boot: 1,
        found: Found::Plain,
    },
    Noted::Held {
        entry: 1,
        blocks: 1,
    },
    Noted::Begun {
        entry: 1,
        len: 14,
        raw: 0x0101_0000,
        stored: Stored::Yes,
    },
];

const FINISHED: Noted = Noted::Finished {
    entry: 1,
    state: RowState::Success,
    stored: Stored::Yes,
};

/// The events of one step.
fn push_step(all: &mut Vec<Noted>, op: Op, seen: Seen) -> Result<(), Fail> {
    all.push(Noted::Started { entry: 1, op })?;
    all.push(Noted::Ended {
        entry: 1,
        op,
        outcome: Ok(()),
        seen,
    })?;
    Ok(())
}

/// How the second board's row is judged.
fn judged_second(judged: RowState) -> Result<Noted, Fail> {
    Ok(Noted::Judged {
        entry: 2,
        version: Version::read(b"1.0.0")?,
        state: judged,
        stored: Stored::Yes,
    })
}

/// What the log of such a day tells, where the second board's row ends in that state.
fn events(alloc: Global, judged: RowState) -> Result<Vec<Noted>, Fail> {
    let mut all = Vec::from_slice(alloc, &BEFORE_STEPS)?;
    for (op, seen) in &STEPS {
        push_step(&mut all, *op, *seen)?;
    }
    all.push(FINISHED)?;
    all.push(judged_second(judged)?)?;
    Ok(all)
}

/// How a row of such a day ends, as it is stored.
fn ended(entry: u32, state: RowState) -> RowEnd {
    RowEnd {
        entry,
        state,
        reason: 0,
        time_added: 500,
        time_changed: 1000,
    }
}

/// Whether the day tells these verdicts: the first install went well, the second row was judged so, and the row that
/// was finished needs no judgement.
fn has_verdicts(evening: &Evening<MemoryKeeper>, state: RowState) -> bool {
    let judged = Verdict::Done {
        state,
        stored: Stored::Yes,
    };
    evening.answers.finished.state == RowState::Success
        && Verdict::of(&evening.answers.judged) == judged
        && Verdict::of(&evening.answers.again) == Verdict::Settled
}

/// Whether the log and the rows of the day are those in which the second row ended so.
fn has_told(alloc: Global, evening: &Evening<MemoryKeeper>, state: RowState) -> Result<bool, Fail> {
    let log = noted_log(alloc, evening.log.items())?;
    let events = events(alloc, state)?;
    let ends = row_ends(alloc, evening.keeper.rows())?;
    let wanted = [ended(1, RowState::Success), ended(2, state)];
    Ok(log.as_slice() == events.as_slice() && ends.as_slice() == wanted.as_slice())
}

/// The daemon asks for the install that was put off, fetches, resumes and runs it, and judges the row that
/// was begun by the version that its device shows.
#[test]
fn an_install_put_off_is_resumed_and_one_begun_is_judged(rt: HostRuntime) -> Result<(), Fail> {
    let evening = evening(&rt, rt.alloc(), "1.0.0")?;
    assert!(rt; has_verdicts(&evening, RowState::Success));
    assert!(rt; has_told(rt.alloc(), &evening, RowState::Success)?);
    Ok(())
}

/// A row of another version than its device shows has failed.
#[test]
fn an_install_begun_of_another_version_has_failed(rt: HostRuntime) -> Result<(), Fail> {
    let evening = evening(&rt, rt.alloc(), "1.1.0")?;
    assert!(rt; has_verdicts(&evening, RowState::Failed));
    assert!(rt; has_told(rt.alloc(), &evening, RowState::Failed)?);
    Ok(())
}
