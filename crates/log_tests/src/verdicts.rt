//! The verdict and the plain program decide the same, and what was meant.
use crate::scenes::{
    Level, client_at, pool_at, put, release_at, request, request_at, story_at, story_over,
};
use core_state::verdict;
use device_list::Selector;
use fw_base::Name;
use fw_facts::Problem;
use guid_ids::device_id;
use history_keeper::{Row, RowState};
use log_stories::{Story, plain_verdict};
use release_catalogue::ReleaseRef;
use requirements::Unmet;
use std::alloc::Global;
use std::test::Fail;
use update_log::{Decision, FetchNote, InstallFlags, Refusal, Request, RetryFault, Stage};
use version_formats::Version;

/// The number of a decision: that of its refusal, 0 where it is accepted, and 100 where it is kept.
fn number(decision: &Decision) -> u32 {
    match decision {
        Decision::Accept { .. } => 0,
        Decision::Kept { .. } => 100,
        Decision::Refused(refusal) => u32::from(refusal.number()),
    }
}

/// What the plain program decides, over the devices of a machine, which are few.
fn plainly(story: &Story, client: u32, request: &Request, stage: Stage) -> Option<Decision> {
    let state = story.state();
    if state.views().len() > 256 {
        return None;
    }
    Some(plain_verdict(story.facts(), state, client, request, stage))
}

/// The numbers that a refusal holds, where it holds numbers alone.
fn numbers(refusal: &Refusal) -> [u32; 3] {
    match refusal {
        Refusal::Busy { entry } | Refusal::Unsettled { entry } => [*entry, 0, 0],
        Refusal::Size { len, min, max } => [*len, *min, *max],
        Refusal::NoRoom { need, free } => [*need, *free, 0],
        _ => [0, 0, 0],
    }
}

fn unmet(refusal: &Refusal) -> Option<Unmet> {
    match refusal {
        Refusal::Unmet(unmet) => Some(*unmet),
        _ => None,
    }
}

fn problem(refusal: &Refusal) -> Option<Problem> {
    match refusal {
        Refusal::Problem(problem) => Some(*problem),
        _ => None,
    }
}

/// Why a row can't be tried again, where that refuses it.
pub fn fault(refusal: &Refusal) -> Option<RetryFault> {
    match refusal {
        Refusal::Retry(fault) => Some(*fault),
        _ => None,
    }
}

fn plugin(refusal: &Refusal) -> Option<Name> {
    match refusal {
        Refusal::Veto { plugin } => Some(*plugin),
        _ => None,
    }
}

/// Whether both are the same. The payload is no part of a verdict.
fn is_same_refusal(one: &Refusal, other: &Refusal) -> bool {
    one.number() == other.number()
        && numbers(one) == numbers(other)
        && unmet(one) == unmet(other)
        && problem(one) == problem(other)
        && plugin(one) == plugin(other)
        && fault(one) == fault(other)
}

/// The place of the device that is accepted, the release and the blocks.
fn accepted(decision: &Decision) -> Option<(u32, ReleaseRef, u32)> {
    match decision {
        Decision::Accept {
            device,
            release,
            blocks,
        } => Some((*device, *release, *blocks)),
        Decision::Kept { .. } | Decision::Refused(_) => None,
    }
}

/// The entry that took the tag before, and its state.
fn kept(decision: &Decision) -> Option<(u32, RowState)> {
    match decision {
        Decision::Kept { entry, state } => Some((*entry, *state)),
        Decision::Accept { .. } | Decision::Refused(_) => None,
    }
}

/// Whether both are the same.
fn is_same(one: &Decision, other: &Decision) -> bool {
    match one {
        Decision::Accept { .. } => accepted(one) == accepted(other),
        Decision::Kept { .. } => kept(one) == kept(other),
        Decision::Refused(refusal) => match other {
            Decision::Accept { .. } | Decision::Kept { .. } => false,
            Decision::Refused(again) => is_same_refusal(refusal, again),
        },
    }
}

/// The number of the decision that both programs give, and 99 where they give two.
pub fn decided(story: &Story, client: u32, request: &Request, stage: Stage) -> u32 {
    let one = verdict(story.facts(), story.state(), client, request, stage);
    match plainly(story, client, request, stage) {
        Some(other) => {
            if is_same(&one, &other) {
                number(&one)
            } else {
                99
            }
        }
        None => 99,
    }
}

/// What is decided of the request that so much hinders: at the ask, at the claim of the release that was
/// found then, and where it is put off.
fn decided_in(story: &Story, level: Level) -> Result<[u32; 3], Fail> {
    // The check has to be shown each type that a request holds.
    let _named: Option<Selector> = None;
    let request = request_at(level)?;
    let client = client_at(level);
    let claim = Stage::Claim {
        release: release_at(level),
    };
    Ok([
        decided(story, client, &request, Stage::Ask),
        decided(story, client, &request, claim),
        decided(story, client, &request, Stage::Schedule),
    ])
}

/// The same over the machine of that level.
fn decided_at(alloc: Global, level: Level) -> Result<[u32; 3], Fail> {
    let story = story_at(alloc, level)?;
    decided_in(&story, level)
}

/// What is decided where that much hinders a request: only an ask wants room. A busy device, one that is
/// out of its port, and a full history are met below; a payload that isn't whole and a fault of the keeper
/// are no part of a verdict.
const LEVELS: [(u32, [u32; 3]); 14] = [
    (0, [100, 100, 100]),
    (1, [1, 1, 1]),
    (2, [2, 2, 2]),
    (4, [4, 4, 4]),
    (5, [5, 5, 5]),
    (6, [6, 6, 6]),
    (7, [7, 7, 7]),
    (8, [8, 8, 8]),
    (9, [9, 9, 9]),
    (10, [10, 10, 10]),
    (11, [11, 11, 11]),
    (12, [12, 12, 12]),
    (13, [13, 0, 0]),
    (14, [0, 0, 0]),
];

/// How many levels stand before the first at which something else is decided.
fn levels_decided(alloc: Global) -> Result<usize, Fail> {
    for (at, (level, want)) in LEVELS.iter().enumerate() {
        if decided_at(alloc, Level(*level))? != *want {
            return Ok(at);
        }
    }
    Ok(LEVELS.len())
}

#[test]
fn each_refusal_as_the_first(rt: HostRuntime) -> Result<(), Fail> {
    assert_eq!(rt; levels_decided(rt.alloc())?, 14);
    Ok(())
}

const FOUND: ReleaseRef = ReleaseRef {
    component: 0,
    release: 0,
};

const OTHER: ReleaseRef = ReleaseRef {
    component: 0,
    release: 1,
};

/// At each stage, where nothing hinders but that the pool is too small.
const STAGES: [(Stage, u32); 5] = [
    (Stage::Ask, 13),
    (Stage::AskPending { entry: 9 }, 13),
    (Stage::Claim { release: FOUND }, 0),
    (Stage::Claim { release: OTHER }, 2),
    (Stage::Schedule, 0),
];

/// How many rows stand before the first stage at which something else is decided.
fn stages_decided(story: &Story, request: &Request, rows: &[(Stage, u32)]) -> usize {
    for (at, (stage, want)) in rows.iter().enumerate() {
        if decided(story, 2, request, *stage) != *want {
            return at;
        }
    }
    rows.len()
}

/// The same of the request that so much hinders.
fn stages_decided_at(story: &Story, level: Level, rows: &[(Stage, u32)]) -> Result<usize, Fail> {
    let _named: Option<Selector> = None;
    let request = request_at(level)?;
    Ok(stages_decided(story, &request, rows))
}

fn all_stages_decided(alloc: Global) -> Result<usize, Fail> {
    let story = story_at(alloc, Level(13))?;
    stages_decided_at(&story, Level(13), &STAGES)
}

#[test]
fn at_each_stage(rt: HostRuntime) -> Result<(), Fail> {
    assert_eq!(rt; all_stages_decided(rt.alloc())?, 5);
    Ok(())
}

/// The first board is taken out of its port.
fn unplug(story: &mut Story) -> Result<(), Fail> {
    let device = Selector::Port(Name::read(b"usb1")?);
    story.unplug(2, &device)?;
    Ok(())
}

/// At each stage, where the device is one of the machine's, but out of its port.
const ABSENT: [(Stage, u32); 3] = [
    (Stage::Ask, 1),
    (Stage::Claim { release: FOUND }, 1),
    (Stage::Schedule, 1),
];

/// How many stages stand before the first at which something else is decided, once the board is out.
fn absent_decided_in(story: &mut Story) -> Result<usize, Fail> {
    unplug(story)?;
    stages_decided_at(story, Level(14), &ABSENT)
}

/// The same where nothing else hinders.
fn absent_decided(alloc: Global) -> Result<usize, Fail> {
    let mut story = story_at(alloc, Level(14))?;
    absent_decided_in(&mut story)
}

/// A device that is out of its port is refused as one that isn't there.
#[test]
fn a_device_out_of_its_port(rt: HostRuntime) -> Result<(), Fail> {
    assert_eq!(rt; absent_decided(rt.alloc())?, 3);
    Ok(())
}

/// The machine of that level, over one row that was put off by a client.
fn put_off(alloc: Global, level: Level, client: u32, digest: [u8; 32]) -> Result<Story, Fail> {
    let mut rows = Vec::new(alloc);
    put(&mut rows, 1, "t1", client, RowState::Pending, digest)?;
    story_over(alloc, level, pool_at(level), rows)
}

/// The request of that row.
fn request_of_row() -> Result<Request, Fail> {
    let tag = Name::read(b"t1")?;
    let version = Version::read(b"1.2.0")?;
    Ok(Request {
        tag,
        device: Selector::Id(device_id(b"usb1", None)),
        version,
        flags: InstallFlags {
            offline: true,
            allow_reinstall: false,
            allow_older: false,
        },
        retry_of: None,
    })
}

/// What is decided of the row's request at a stage.
fn decided_of_request(story: &Story, stage: Stage) -> Result<u32, Fail> {
    let _named: Option<Selector> = None;
    let request = request_of_row()?;
    Ok(decided(story, 0, &request, stage))
}

/// The same where that much hinders: from level 1 down the board is out of its port.
fn decided_hindered(story: &mut Story, level: Level, stage: Stage) -> Result<u32, Fail> {
    if level.has(1) {
        unplug(story)?;
    }
    decided_of_request(story, stage)
}

/// A row that was put off: what hinders its request, its client, the bytes of its digest, the stage, and
/// what is decided.
type PutOff = (u32, u32, u8, Stage, u32);

/// The same of a row of that client and digest.
fn decided_of_row(alloc: Global, row: &PutOff) -> Result<u32, Fail> {
    let (level, client, byte, stage, _) = *row;
    let mut story = put_off(alloc, Level(level), client, [byte; 32])?;
    decided_hindered(&mut story, Level(level), stage)
}

const ASKED: Stage = Stage::AskPending { entry: 1 };

const RESUMED: Stage = Stage::Resume {
    entry: 1,
    release: FOUND,
};

const RESUMED_OTHER: Stage = Stage::Resume {
    entry: 1,
    release: OTHER,
};

/// Its own row doesn't hinder it, nor does its tag; its client's features count, and its digest. That the
/// pool is too small hinders the ask alone.
const PUT_OFF: [PutOff; 21] = [
    (14, 2, 10, Stage::Ask, 100),
    (14, 2, 10, ASKED, 0),
    (14, 2, 10, RESUMED, 0),
    (14, 2, 10, RESUMED_OTHER, 2),
    (14, 2, 11, ASKED, 2),
    (14, 2, 11, RESUMED, 2),
    (14, 1, 10, ASKED, 10),
    (14, 1, 10, RESUMED, 10),
    (14, 2, 10, Stage::AskPending { entry: 2 }, 4),
    (1, 2, 10, ASKED, 1),
    (1, 2, 10, RESUMED, 1),
    (5, 2, 10, ASKED, 5),
    (5, 2, 10, RESUMED, 5),
    (6, 2, 10, ASKED, 6),
    (7, 2, 10, RESUMED, 7),
    (11, 2, 10, ASKED, 11),
    (11, 2, 10, RESUMED, 11),
    (12, 2, 10, ASKED, 12),
    (12, 2, 10, RESUMED, 12),
    (13, 2, 10, ASKED, 13),
    (13, 2, 10, RESUMED, 0),
];

/// How many rows stand before the first of which something else is decided.
fn rows_decided(alloc: Global) -> Result<usize, Fail> {
    for (at, row) in PUT_OFF.iter().enumerate() {
        if decided_of_row(alloc, row)? != row.4 {
            return Ok(at);
        }
    }
    Ok(PUT_OFF.len())
}

#[test]
fn a_row_that_was_put_off(rt: HostRuntime) -> Result<(), Fail> {
    assert_eq!(rt; rows_decided(rt.alloc())?, 21);
    Ok(())
}

/// What is decided of an ask of client 3.
fn asked(story: &Story, tag: &str, port: &str) -> Result<u32, Fail> {
    let _named: Option<Selector> = None;
    let request = request(tag, port, "1.2.0")?;
    Ok(decided(story, 3, &request, Stage::Ask))
}

/// What is decided of its asks for both boards, and of an ask that repeats the first tag.
fn asked_of(story: &Story) -> Result<[u32; 3], Fail> {
    let first = asked(story, "t2", "usb1")?;
    let second = asked(story, "t2", "usb2")?;
    let again = asked(story, "t1", "usb2")?;
    Ok([first, second, again])
}

/// Client 2 asks, and holds two blocks where it can.
fn hold(story: &mut Story) -> Result<bool, Fail> {
    let _named: Option<Selector> = None;
    let request = request("t1", "usb1", "1.2.0")?;
    Ok(story.ask(2, &request)?)
}

const FETCHED: FetchNote = FetchNote::Whole {
    digest: [10; 32],
    len: 8192,
    raw: 0x0102_0000,
};

/// What is decided while client 2 has a hold, and then while its entry is live.
const OTHERS: [(u32, [u32; 3], [u32; 3]); 2] = [
    (3, [13, 13, 13], [3, 13, 100]),
    (4, [0, 0, 0], [3, 0, 100]),
];

fn is_decided_held(story: &mut Story, want: [u32; 3]) -> Result<bool, Fail> {
    if hold(story)? {
        Ok(asked_of(story)? == want)
    } else {
        Ok(false)
    }
}

fn is_decided_live(story: &mut Story, want: [u32; 3]) -> Result<bool, Fail> {
    if story.claim(2, &FETCHED)? {
        Ok(asked_of(story)? == want)
    } else {
        Ok(false)
    }
}

fn are_both_decided(story: &mut Story, held: [u32; 3], live: [u32; 3]) -> Result<bool, Fail> {
    if is_decided_held(story, held)? {
        is_decided_live(story, live)
    } else {
        Ok(false)
    }
}

/// The same over a pool of so many blocks.
fn is_decided_over(alloc: Global, pool: u32, held: [u32; 3], live: [u32; 3]) -> Result<bool, Fail> {
    let mut story = story_over(alloc, Level(14), pool, Vec::new(alloc))?;
    are_both_decided(&mut story, held, live)
}

/// How many pools stand before the first over which something else is decided.
fn pools_decided(alloc: Global) -> Result<usize, Fail> {
    for (at, (pool, held, live)) in OTHERS.iter().enumerate() {
        if !is_decided_over(alloc, *pool, *held, *live)? {
            return Ok(at);
        }
    }
    Ok(OTHERS.len())
}

#[test]
fn room_over_holds_and_live_entries(rt: HostRuntime) -> Result<(), Fail> {
    assert_eq!(rt; pools_decided(rt.alloc())?, 2);
    Ok(())
}

/// What is decided of a request of client 1 for the board that is being updated. Its version is an older one, and a
/// requirement doesn't hold for this client either.
fn decided_busy(story: &Story, stage: Stage) -> Result<u32, Fail> {
    let _named: Option<Selector> = None;
    let request = request("t2", "usb1", "1.0.0")?;
    Ok(decided(story, 1, &request, stage))
}

/// The release of that version.
const OLDER: Stage = Stage::Claim {
    release: ReleaseRef {
        component: 0,
        release: 2,
    },
};

/// What is decided of it at an ask, at a claim, and where it is put off.
fn decided_at_each_stage(story: &Story) -> Result<[u32; 3], Fail> {
    let ask = decided_busy(story, Stage::Ask)?;
    let claim = decided_busy(story, OLDER)?;
    let schedule = decided_busy(story, Stage::Schedule)?;
    Ok([ask, claim, schedule])
}

/// Whether client 2 can claim the board, and it is refused at each stage since the board is in use.
fn is_busy_first(story: &mut Story) -> Result<bool, Fail> {
    if hold(story)? && story.claim(2, &FETCHED)? {
        Ok(decided_at_each_stage(story)? == [3, 3, 3])
    } else {
        Ok(false)
    }
}

/// Whether it is refused for its version, and while client 2 has claimed the board, for that at each stage.
fn busy_is_first(alloc: Global) -> Result<bool, Fail> {
    let mut story = story_over(alloc, Level(14), 4, Vec::new(alloc))?;
    if decided_at_each_stage(&story)? != [9, 9, 9] {
        return Ok(false);
    }
    is_busy_first(&mut story)
}

#[test]
fn a_device_in_use_hinders_first(rt: HostRuntime) -> Result<(), Fail> {
    assert!(rt; busy_is_first(rt.alloc())?);
    Ok(())
}

/// Puts a row that is settled, with a tag of its own.
fn put_settled(alloc: Global, rows: &mut Vec<Row>, entry: u32) -> Result<(), Fail> {
    let tag = format!(in alloc; "r{entry}")?;
    put(rows, entry, tag.as_str(), 2, RowState::Success, [10; 32])
}

/// A history that is full of rows of one device. All are settled but perhaps the last, which has that tag.
fn full(alloc: Global, tag: &str, last: RowState) -> Result<Vec<Row>, Fail> {
    let mut rows = Vec::new(alloc);
    for entry in 1..65_536 {
        put_settled(alloc, &mut rows, entry)?;
    }
    put(&mut rows, 65_536, tag, 2, last, [10; 32])?;
    Ok(rows)
}

const FULL: [(Stage, u32); 3] = [
    (Stage::Ask, 0),
    (Stage::Schedule, 15),
    (Stage::Claim { release: FOUND }, 15),
];

fn decided_over_full(alloc: Global) -> Result<usize, Fail> {
    let story = story_over(alloc, Level(14), 2, full(alloc, "last", RowState::Success)?)?;
    stages_decided_at(&story, Level(14), &FULL)
}

#[test]
fn a_full_history(rt: HostRuntime) -> Result<(), Fail> {
    assert_eq!(rt; decided_over_full(rt.alloc())?, 3);
    Ok(())
}

/// What is decided of the last row of a full history at a stage.
fn decided_of_last(alloc: Global, stage: Stage) -> Result<u32, Fail> {
    let story = story_over(alloc, Level(14), 2, full(alloc, "t1", RowState::Pending)?)?;
    decided_of_request(&story, stage)
}

/// A row that was put off stands in the history already, so that it may be full.
#[test]
fn the_last_row_of_a_full_history(rt: HostRuntime) -> Result<(), Fail> {
    let resumed = Stage::Resume {
        entry: 65_536,
        release: FOUND,
    };
    assert_eq!(rt; decided_of_last(rt.alloc(), resumed)?, 0);
    Ok(())
}
