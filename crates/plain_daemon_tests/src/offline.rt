//! Calls of the keeper that fail over an install that is put off: its schedule and its resumption are kept or lost.
use crate::days::{ThreeDays, three_days};
use crate::left::Left;
use crate::requests::Wish;
use crate::told::{Start, Told, Why};
use fw_facts::{Mode, Seen};
use history_keeper::RowState;
use std::alloc::Global;
use std::process::Abort;
use std::sync::Wait;
use std::test::Fail;
use std::thread::Threads;

/// A plan of the calls that fail, and of those whose change is there after the next reopening; what the install is
/// answered in each of three boots; and what is left.
type Case = (&'static [(u32, bool)], [Told; 3], Left);

/// What the cases of a table have in common.
#[derive(Clone, Copy)]
struct Course {
    starts: [Start; 3],
    /// The board that is absent in the second boot.
    absent: Option<u32>,
    wish: Wish,
}

const WELL: Course = Course {
    starts: [Start::Well; 3],
    absent: None,
    wish: Wish::Newer,
};

const NOT_SECOND: Course = Course {
    starts: [Start::Well, Start::KeeperFault, Start::Well],
    ..WELL
};

const NOT_THIRD: Course = Course {
    starts: [Start::Well, Start::Well, Start::KeeperFault],
    ..WELL
};

const REINSTALL: Course = Course {
    wish: Wish::Same {
        allow_reinstall: true,
    },
    ..WELL
};

const AWAY: Course = Course {
    absent: Some(0),
    ..WELL
};

const PUT_OFF: Told = Told::PutOff { entry: 1 };

const FAULT: Told = Told::Refused(Why::KeeperFault);

const OFF: Told = Told::Off;

const SUCCESS: Told = Told::Kept {
    entry: 1,
    state: RowState::Success,
};

const FAILED: Told = Told::Kept {
    entry: 1,
    state: RowState::Failed,
};

const OLD: Seen = Seen::Home {
    raw: 0x0100_0000,
    mode: Mode::Runtime,
};

const NEW: Seen = Seen::Home {
    raw: 0x0101_0000,
    mode: Mode::Runtime,
};

/// The row is put off.
const WAITS: Left = Left {
    rows: 1,
    last: Some((RowState::Pending, 0)),
    seen: [OLD, OLD],
    began: 0,
    ended: 0,
};

/// It is begun, and nothing is written.
const BEGUN: Left = Left {
    last: Some((RowState::Begun, 0)),
    ..WAITS
};

/// It was begun and has failed, and nothing is written.
const UNDONE: Left = Left {
    last: Some((RowState::Failed, 0)),
    ..WAITS
};

/// It has failed since its device was absent.
const REFUSED: Left = Left {
    last: Some((RowState::Failed, 1)),
    ..WAITS
};

/// It has succeeded, and nothing is written.
const UNTOUCHED: Left = Left {
    last: Some((RowState::Success, 0)),
    ..WAITS
};

/// It has succeeded, and was written once.
const REDONE: Left = Left {
    began: 1,
    ended: 1,
    ..UNTOUCHED
};

/// The same of another version.
const DONE: Left = Left {
    seen: [NEW, OLD],
    ..REDONE
};

/// The calls of the keeper are the load of the first boot and the commit of the schedule, the reopening and the load
/// of the second boot, and there the commits of the resumption and of the finish. Where the first schedule was lost,
/// call 5 is the commit of the second one.
const SCHEDULES: [Case; 5] = [
    (&[], [PUT_OFF, SUCCESS, SUCCESS], DONE),
    (&[(2, false)], [FAULT, PUT_OFF, SUCCESS], DONE),
    (&[(2, true)], [FAULT, SUCCESS, SUCCESS], DONE),
    (&[(2, false), (5, false)], [FAULT, FAULT, PUT_OFF], WAITS),
    (&[(2, false), (5, true)], [FAULT, FAULT, SUCCESS], DONE),
];

/// The second boot can't be read, and so the third one finds what became of the schedule.
const SCHEDULES_UNREAD: [Case; 4] = [
    (&[(2, false), (3, false)], [FAULT, OFF, PUT_OFF], WAITS),
    (&[(2, true), (3, false)], [FAULT, OFF, SUCCESS], DONE),
    (&[(2, false), (4, false)], [FAULT, OFF, PUT_OFF], WAITS),
    (&[(2, true), (4, false)], [FAULT, OFF, SUCCESS], DONE),
];

/// Where the resumption is in doubt, calls 6 and 7 are the reopening and the load of the third boot, and 8 is the commit
/// of its resumption or of its judgement. So it is where the first schedule was lost and the second one made.
const RESUMPTIONS: [Case; 8] = [
    (&[(5, false)], [PUT_OFF, OFF, SUCCESS], DONE),
    (&[(5, true)], [PUT_OFF, OFF, FAILED], UNDONE),
    (&[(2, true), (5, false)], [FAULT, OFF, SUCCESS], DONE),
    (&[(2, true), (5, true)], [FAULT, OFF, FAILED], UNDONE),
    (&[(5, false), (8, false)], [PUT_OFF, OFF, OFF], WAITS),
    (&[(5, true), (8, false)], [PUT_OFF, OFF, OFF], BEGUN),
    (&[(2, false), (8, false)], [FAULT, PUT_OFF, OFF], WAITS),
    (&[(2, false), (8, true)], [FAULT, PUT_OFF, OFF], WAITS),
];

/// The third boot can't be read. A kept resumption is made by the reopening, and so it is there only where that went
/// well.
const RESUMPTIONS_UNREAD: [Case; 4] = [
    (&[(5, false), (6, false)], [PUT_OFF, OFF, OFF], WAITS),
    (&[(5, true), (6, false)], [PUT_OFF, OFF, OFF], WAITS),
    (&[(5, false), (7, false)], [PUT_OFF, OFF, OFF], WAITS),
    (&[(5, true), (7, false)], [PUT_OFF, OFF, OFF], BEGUN),
];

/// A reinstall is judged by the version alone: where its resumption was kept, it succeeded, and nothing was written.
const REINSTALLS: [Case; 3] = [
    (&[], [PUT_OFF, SUCCESS, SUCCESS], REDONE),
    (&[(5, false)], [PUT_OFF, OFF, SUCCESS], REDONE),
    (&[(5, true)], [PUT_OFF, OFF, SUCCESS], UNTOUCHED),
];

/// The device is absent in the second boot, and call 5 is the commit of the refusal. Where that was lost, the row is
/// still put off as the device is back.
const REFUSALS: [Case; 3] = [
    (&[], [PUT_OFF, FAILED, FAILED], REFUSED),
    (&[(5, false)], [PUT_OFF, OFF, SUCCESS], DONE),
    (&[(5, true)], [PUT_OFF, OFF, FAILED], REFUSED),
];

fn play<R: Abort + Threads + Wait + Sync>(
    rt: &R,
    alloc: Global,
    course: &Course,
    cases: &[Case],
) -> Result<(), Fail> {
    for (failing, told, left) in cases {
        let days = three_days(rt, alloc, failing, course.absent, course.wish)?;
        let wanted = ThreeDays {
            starts: course.starts,
            told: *told,
            left: *left,
        };
        assert_eq!(rt; days, wanted, "{failing:?}");
    }
    Ok(())
}

/// The commit of a schedule fails. A lost one leaves no row, and the request is new in the next boot; a kept one leaves
/// a row that the next boot resumes.
#[test]
fn a_doubtful_schedule_is_kept_or_lost(rt: HostRuntime) -> Result<(), Fail> {
    let alloc = rt.alloc();
    play(&rt, alloc, &WELL, &SCHEDULES)?;
    play(&rt, alloc, &NOT_SECOND, &SCHEDULES_UNREAD)
}

/// The commit of a resumption fails. A lost one leaves its row put off, and the next boot resumes it; a kept one leaves
/// it begun with nothing written, and the next boot judges it. So does the commit of a resumption that is refused.
#[test]
fn a_doubtful_resumption_is_kept_or_lost(rt: HostRuntime) -> Result<(), Fail> {
    let alloc = rt.alloc();
    play(&rt, alloc, &WELL, &RESUMPTIONS)?;
    play(&rt, alloc, &NOT_THIRD, &RESUMPTIONS_UNREAD)?;
    play(&rt, alloc, &REINSTALL, &REINSTALLS)?;
    play(&rt, alloc, &AWAY, &REFUSALS)
}
