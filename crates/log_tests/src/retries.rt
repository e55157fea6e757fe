//! What is decided of a request that tries a row again: both programs decide the same, and what was meant.
use crate::scenes::{Level, pool_at, request, row, story_over};
use crate::verdicts::{decided, fault};
use core_state::verdict;
use device_list::Selector;
use guid_ids::device_id;
use history_keeper::{Row, RowState};
use log_stories::Story;
use release_catalogue::ReleaseRef;
use std::alloc::Global;
use std::test::Fail;
use update_log::{Decision, Request, RetryFault, Stage};
use version_formats::Version;

/// The rows that a request finds, of which the first is the one that it may name.
#[derive(Clone, Copy)]
enum Past {
    /// An install of 1.2.0 on the device, which failed.
    Failed,
    OfAnotherDevice,
    InState(RowState),
    OfAnotherPayload,
    /// A second row tries it again, and is settled.
    TriedAgain,
    /// A second row that was put off tries it again.
    PutOff,
}

fn first_row(past: Past) -> Result<Row, Fail> {
    let failed = row(1, "t0", 2, RowState::Failed, [10; 32])?;
    Ok(match past {
        Past::Failed | Past::TriedAgain | Past::PutOff => failed,
        Past::OfAnotherDevice => Row {
            device: device_id(b"usb2", None),
            ..failed
        },
        Past::InState(state) => Row { state, ..failed },
        Past::OfAnotherPayload => Row {
            digest: [11; 32],
            ..failed
        },
    })
}

/// A row that tries the first one again.
fn second_row(state: RowState) -> Result<Row, Fail> {
    let row = row(2, "t1", 2, state, [10; 32])?;
    Ok(Row {
        retry_of: Some(1),
        ..row
    })
}

/// The first row, and one that tries it again.
fn two_rows(alloc: Global, first: Row, state: RowState) -> Result<Vec<Row>, Fail> {
    let second = second_row(state)?;
    Ok(Vec::from_slice(alloc, &[first, second])?)
}

fn rows_of(alloc: Global, past: Past) -> Result<Vec<Row>, Fail> {
    let first = first_row(past)?;
    match past {
        Past::TriedAgain => two_rows(alloc, first, RowState::Success),
        Past::PutOff => two_rows(alloc, first, RowState::Pending),
        Past::Failed | Past::OfAnotherDevice | Past::InState(_) | Past::OfAnotherPayload => Ok(
            Vec::from_slice(alloc, &[first])?,
        ),
    }
}

/// An install of 1.2.0 on the device that tries the row of that entry again.
fn retry(entry: u32) -> Result<Request, Fail> {
    let request = request("t2", "usb1", "1.2.0")?;
    Ok(Request {
        retry_of: Some(entry),
        ..request
    })
}

/// Why the row can't be tried again, where that is decided.
fn fault_told(story: &Story, request: &Request, stage: Stage) -> Option<RetryFault> {
    match verdict(story.facts(), story.state(), 2, request, stage) {
        Decision::Refused(refusal) => fault(&refusal),
        Decision::Accept { .. } | Decision::Kept { .. } => None,
    }
}

/// The release of 1.2.0.
const CLAIM: Stage = Stage::Claim {
    release: ReleaseRef {
        component: 0,
        release: 0,
    },
};

const ASKED: Stage = Stage::AskPending { entry: 2 };

const RESUMED: Stage = Stage::Resume {
    entry: 2,
    release: ReleaseRef {
        component: 0,
        release: 0,
    },
};

const NOT_FAILED: RetryFault = RetryFault::NotFailed {
    state: RowState::Success,
};

const RETRIED: RetryFault = RetryFault::Retried { entry: 2 };

/// What else hinders, the rows, the entry that is named, the stage, the number of what is decided, and the
/// cause where the number is 17.
type Case = (u32, Past, u32, Stage, u32, Option<RetryFault>);

const CASES: [Case; 22] = [
    (14, Past::Failed, 1, Stage::Ask, 0, None),
    (14, Past::Failed, 1, CLAIM, 0, None),
    (14, Past::Failed, 1, Stage::Schedule, 0, None),
    (14, Past::Failed, 2, Stage::Ask, 17, Some(RetryFault::NoRow)),
    (14, Past::Failed, 2, CLAIM, 17, Some(RetryFault::NoRow)),
    (
        14,
        Past::Failed,
        65_536,
        Stage::Schedule,
        17,
        Some(RetryFault::NoRow),
    ),
    (
        14,
        Past::OfAnotherDevice,
        1,
        Stage::Ask,
        17,
        Some(RetryFault::OtherDevice),
    ),
    (
        14,
        Past::InState(RowState::Success),
        1,
        Stage::Ask,
        17,
        Some(NOT_FAILED),
    ),
    (
        14,
        Past::InState(RowState::Success),
        1,
        CLAIM,
        17,
        Some(NOT_FAILED),
    ),
    (14, Past::TriedAgain, 1, Stage::Ask, 17, Some(RETRIED)),
    (14, Past::TriedAgain, 1, CLAIM, 17, Some(RETRIED)),
    (14, Past::TriedAgain, 1, Stage::Schedule, 17, Some(RETRIED)),
    (14, Past::TriedAgain, 2, Stage::Ask, 17, Some(NOT_FAILED)),
    (
        14,
        Past::OfAnotherPayload,
        1,
        Stage::Ask,
        17,
        Some(RetryFault::OtherRelease),
    ),
    // Before 17 come 1 to 4, behind it the others.
    (2, Past::Failed, 2, Stage::Ask, 2, None),
    (14, Past::InState(RowState::Begun), 1, Stage::Ask, 4, None),
    (14, Past::InState(RowState::NeedsReboot), 2, CLAIM, 4, None),
    (5, Past::Failed, 2, Stage::Ask, 17, Some(RetryFault::NoRow)),
    (5, Past::Failed, 1, Stage::Schedule, 5, None),
    // The row that makes the request doesn't hinder it, and is the one that hinders others.
    (14, Past::PutOff, 1, ASKED, 0, None),
    (14, Past::PutOff, 1, RESUMED, 0, None),
    (14, Past::PutOff, 1, Stage::Ask, 4, None),
];

/// The same request, where the version asked for is one that no release has.
fn request_of(level: Level, entry: u32) -> Result<Request, Fail> {
    let request = retry(entry)?;
    if !level.has(2) {
        return Ok(request);
    }
    let missing = Version::read(b"9.9.9")?;
    Ok(Request {
        version: missing,
        ..request
    })
}

fn is_decided(alloc: Global, case: &Case) -> Result<bool, Fail> {
    let _named: Option<Selector> = None;
    let (level, past, entry, stage, number, cause) = *case;
    let rows = rows_of(alloc, past)?;
    let story = story_over(alloc, Level(level), pool_at(Level(level)), rows)?;
    let request = request_of(Level(level), entry)?;
    Ok(
        decided(&story, 2, &request, stage) == number
            && fault_told(&story, &request, stage) == cause,
    )
}

/// How many cases stand before the first in which something else is decided.
fn cases_decided(alloc: Global) -> Result<usize, Fail> {
    for (at, case) in CASES.iter().enumerate() {
        if !is_decided(alloc, case)? {
            return Ok(at);
        }
    }
    Ok(CASES.len())
}

#[test]
fn each_cause_and_its_turn(rt: HostRuntime) -> Result<(), Fail> {
    assert_eq!(rt; cases_decided(rt.alloc())?, 22);
    Ok(())
}
