//! The lines of each event, with each word that may stand in them.
use crate::differences::lines_differ_at;
use device_list::Selector;
use emulated_boards::{BoardFault, Mark};
use fw_base::{Listed, Name};
use fw_facts::{Mode, Seen};
use guid_ids::{device_id, guid_of};
use history_keeper::RowState;
use release_catalogue::ReleaseRef;
use std::alloc::Global;
use std::test::Fail;
use update_log::{
    AskAnswer, Back, BoardSeen, ClaimAnswer, Event, FetchNote, Found, InstallFlags, Op, PlugAnswer,
    Query, Refusal, Request, ResumeAnswer, RetryFault, Stored, Told,
};
use version_formats::Version;

/// The lines of a log with each event. A log like it is not legal, but each line is that of its event.
///
/// Each step that ends is on the first board.
///
/// The last questions name a device by its identifier, the SHA-1 of `gone` as `sha1sum` prints it, and
/// by a GUID.
const LINES: &str = "boot 2 time 7
boot 2 time 7 doubt kept
boot 2 time 7 doubt lost
boot 2 time 7 keeper-fault
boot 2 time 7 doubt kept
  told usb1 began ended
  told usb2 entered
  told usb4 left
  board usb1 1.1.0 runtime
  board usb2 1.1.0 bootloader
  board usb3 gone
  board usb4 stranger
  board usb5 0.0.0 bootloader
client 1 ask t1 usb1 01.1.0 hold 2
client 1 ask t1 usb1 01.1.0 kept 4 success
client 1 ask t1 usb1 01.1.0 refused 6 locked
client 1 ask entry 4 hold 0
client 1 claim t1 entry 4
client 1 claim t1 kept 4 begun
client 1 claim t1 refused 15 rows-full
client 1 schedule t1 usb1 01.1.0 entry 4
client 1 schedule t1 usb1 01.1.0 kept 4 begun
client 1 schedule t1 usb1 01.1.0 refused 15 rows-full
client 1 ask t1 usb1 01.1.0 retry-of 2 refused 17 retry retried 3
client 1 ask entry 4 hold 0
client 1 schedule t1 usb1 01.1.0 retry-of 65536 entry 4
client 0 resume 4 begun
client 0 resume 4 refused 9 older
client 0 resume 4 refused 9 older keeper-fault
client 0 resume 4 refused 16 keeper-fault
client 1 entry 4 start prepare
client 1 entry 4 start detach
client 1 entry 4 start write
client 1 entry 4 start attach
client 1 entry 4 start reload
client 1 entry 4 start cleanup
client 1 entry 4 end write ok 1.1.0 runtime began ended
client 1 entry 4 end write fault-failed 1.1.0 bootloader
client 1 entry 4 end write fault-torn 0.0.0 bootloader began
client 1 entry 4 end write fault-gone gone
client 1 entry 4 end write fault-stranger stranger
client 1 entry 4 end prepare ok 1.1.0 runtime
client 1 entry 4 end detach ok 1.1.0 bootloader entered
client 1 entry 4 end attach ok 1.1.0 runtime left
client 1 entry 4 end reload fault-failed 1.1.0 runtime
client 1 entry 4 end cleanup ok 1.1.0 runtime
client 1 entry 4 finish success
client 1 entry 4 finish needs-reboot
client 1 entry 4 finish failed keeper-fault
client 1 entry 4 finish begun no-memory
client 1 entry 4 finish begun
client 0 judge 4 1.1.0 success
client 0 judge 4 1.1.0 failed keeper-fault
client 1 unplug usb1 done
client 1 unplug usb1 no-device
client 1 unplug usb1 busy 4
client 1 unplug usb1 not-there
client 1 unplug usb1 already-there
client 1 plug usb1 done
client 1 plug usb1 no-device
client 1 plug usb1 busy 4
client 1 plug usb1 not-there
client 1 plug usb1 already-there
client 2 gave-back t1
client 2 gave-back pending 4
client 2 gave-back entry 5
client 1 get-devices
client 1 get-releases usb1
client 1 get-upgrades usb1
client 1 get-history
client 1 get-results usb1
client 1 settle usb1
client 1 get-results a6dfdeaa3a44a4c52d44284847d7160892b4017e
client 1 get-results 2082b5e0-7a64-478a-b1b2-e3404fab6dad
cut
";

const HOME: Seen = Seen::Home {
    raw: 0x0101_0000,
    mode: Mode::Runtime,
};

const LOADER: Seen = Seen::Home {
    raw: 0x0101_0000,
    mode: Mode::Bootloader,
};

const BROKEN: Seen = Seen::Home {
    raw: 0,
    mode: Mode::Bootloader,
};

const BEGAN: Mark = Mark::Began { entry: 4 };

const ENDED: Mark = Mark::Ended {
    entry: 4,
    digest: [10; 32],
};

fn boot(found: Found, boards: Vec<BoardSeen>) -> Event {
    Event::Boot {
        boot: 2,
        time: 7,
        limit: Some(3),
        found,
        boards: Listed::of(boards),
    }
}

/// The marks that are told.
#[derive(Clone, Copy)]
enum Marks {
    Nothing,
    One(Mark),
    Two(Mark, Mark),
}

fn told_of(marks: Marks) -> Told {
    match marks {
        Marks::Nothing => Told::none(),
        Marks::One(mark) => Told::one(mark),
        Marks::Two(first, second) => Told::two(first, second),
    }
}

/// What a boot shows of the five boards, and what was untold of three of them.
const SEEN_BOARDS: [(u32, Seen, Marks); 5] = [
    (0, HOME, Marks::Two(BEGAN, ENDED)),
    (1, LOADER, Marks::One(Mark::Entered)),
    (2, Seen::Gone, Marks::Nothing),
    (3, Seen::Stranger, Marks::One(Mark::Left)),
    (4, BROKEN, Marks::Nothing),
];

fn boards(alloc: Global) -> Result<Vec<BoardSeen>, Fail> {
    let mut boards = Vec::new(alloc);
    for (board, seen, marks) in &SEEN_BOARDS {
        boards.push(BoardSeen {
            board: *board,
            seen: *seen,
            untold: told_of(*marks),
        })?;
    }
    Ok(boards)
}

const BOOTS: [Found; 4] = [Found::Plain, Found::Kept, Found::Lost, Found::Fault];

fn put_boots(alloc: Global, log: &mut Vec<Event>) -> Result<(), Fail> {
    for found in &BOOTS {
        log.push(boot(*found, Vec::new(alloc)))?;
    }
    let boards = boards(alloc)?;
    log.push(boot(Found::Kept, boards))?;
    Ok(())
}

fn request() -> Result<Request, Fail> {
    let tag = Name::read(b"t1")?;
    let device = Selector::Port(Name::read(b"usb1")?);
    let version = Version::read(b"01.1.0")?;
    Ok(Request {
        tag,
        device,
        version,
        flags: InstallFlags {
            offline: true,
            allow_reinstall: false,
            allow_older: true,
        },
        retry_of: None,
    })
}

const RELEASE: ReleaseRef = ReleaseRef {
    component: 3,
    release: 5,
};

const ASKED: [(Option<u32>, AskAnswer); 4] = [
    (
        None,
        AskAnswer::Hold {
            blocks: 2,
            release: RELEASE,
        },
    ),
    (
        None,
        AskAnswer::Kept {
            entry: 4,
            state: RowState::Success,
        },
    ),
    (None, AskAnswer::Refused(Refusal::Locked)),
    (
        Some(4),
        AskAnswer::Hold {
            blocks: 0,
            release: RELEASE,
        },
    ),
];

fn put_asks(log: &mut Vec<Event>) -> Result<(), Fail> {
    for (pending, answer) in &ASKED {
        let request = request()?;
        log.push(Event::Ask {
            client: 1,
            request,
            pending: *pending,
            answer: *answer,
        })?;
    }
    Ok(())
}

const TAKEN: [ClaimAnswer; 3] = [
    ClaimAnswer::Entry(4),
    ClaimAnswer::Kept {
        entry: 4,
        state: RowState::Begun,
    },
    ClaimAnswer::Refused(Refusal::RowsFull),
];

fn put_claims(log: &mut Vec<Event>) -> Result<(), Fail> {
    for answer in &TAKEN {
        let request = request()?;
        log.push(Event::Claim {
            client: 1,
            request,
            fetched: FetchNote::Missing,
            answer: *answer,
        })?;
    }
    Ok(())
}

fn put_schedules(log: &mut Vec<Event>) -> Result<(), Fail> {
    for answer in &TAKEN {
        let request = request()?;
        log.push(Event::Schedule {
            client: 1,
            request,
            answer: *answer,
        })?;
    }
    Ok(())
}

/// The same request, which tries the row of that entry again.
fn retry(entry: u32) -> Result<Request, Fail> {
    let request = request()?;
    Ok(Request {
        retry_of: Some(entry),
        ..request
    })
}

const TRIED_BEFORE: AskAnswer = AskAnswer::Refused(Refusal::Retry(RetryFault::Retried {
    entry: 3,
}));

const NO_BLOCKS: AskAnswer = AskAnswer::Hold {
    blocks: 0,
    release: RELEASE,
};

/// Asks that name a row. That of a row that was put off doesn't tell it.
const RETRIES: [(Option<u32>, AskAnswer); 2] = [(None, TRIED_BEFORE), (Some(4), NO_BLOCKS)];

/// These asks, and a schedule that names a row.
fn put_retries(log: &mut Vec<Event>) -> Result<(), Fail> {
    for (pending, answer) in &RETRIES {
        let request = retry(2)?;
        log.push(Event::Ask {
            client: 1,
            request,
            pending: *pending,
            answer: *answer,
        })?;
    }
    let request = retry(65_536)?;
    log.push(Event::Schedule {
        client: 1,
        request,
        answer: ClaimAnswer::Entry(4),
    })?;
    Ok(())
}

const RESUMED: [(ResumeAnswer, Stored); 4] = [
    (ResumeAnswer::Begun, Stored::Yes),
    (ResumeAnswer::Refused(Refusal::Older), Stored::Yes),
    (ResumeAnswer::Refused(Refusal::Older), Stored::Fault),
    (ResumeAnswer::Refused(Refusal::KeeperFault), Stored::Fault),
];

fn put_resumptions(log: &mut Vec<Event>) -> Result<(), Fail> {
    for (answer, stored) in &RESUMED {
        log.push(Event::Resume {
            client: 0,
            entry: 4,
            fetched: Some(FetchNote::Missing),
            answer: *answer,
            stored: *stored,
        })?;
    }
    Ok(())
}

const STEPS: [Op; 6] = [
    Op::Prepare,
    Op::Detach,
    Op::Write,
    Op::Attach,
    Op::Reload,
    Op::Cleanup,
];

fn put_starts(log: &mut Vec<Event>) -> Result<(), Fail> {
    for op in &STEPS {
        log.push(Event::Start {
            client: 1,
            entry: 4,
            op: *op,
        })?;
    }
    Ok(())
}

/// A step that ended, its outcome, what is told, and what is seen of the board then.
type StepEnd = (Op, Result<(), BoardFault>, Marks, Seen);

const ENDS: [StepEnd; 10] = [
    (Op::Write, Ok(()), Marks::Two(BEGAN, ENDED), HOME),
    (Op::Write, Err(BoardFault::Failed), Marks::Nothing, LOADER),
    (Op::Write, Err(BoardFault::Torn), Marks::One(BEGAN), BROKEN),
    (Op::Write, Err(BoardFault::Gone), Marks::Nothing, Seen::Gone),
    (
        Op::Write,
        Err(BoardFault::Stranger),
        Marks::Nothing,
        Seen::Stranger,
    ),
    (Op::Prepare, Ok(()), Marks::Nothing, HOME),
    (Op::Detach, Ok(()), Marks::One(Mark::Entered), LOADER),
    (Op::Attach, Ok(()), Marks::One(Mark::Left), HOME),
    (Op::Reload, Err(BoardFault::Failed), Marks::Nothing, HOME),
    (Op::Cleanup, Ok(()), Marks::Nothing, HOME),
];

fn put_ends(log: &mut Vec<Event>) -> Result<(), Fail> {
    for (op, outcome, marks, seen) in &ENDS {
        log.push(Event::End {
            client: 1,
            entry: 4,
            op: *op,
            outcome: *outcome,
            told: told_of(*marks),
            seen: *seen,
        })?;
    }
    Ok(())
}

const FINISHED: [(RowState, Stored); 5] = [
    (RowState::Success, Stored::Yes),
    (RowState::NeedsReboot, Stored::Yes),
    (RowState::Failed, Stored::Fault),
    (RowState::Begun, Stored::NoMemory),
    (RowState::Begun, Stored::Unchanged),
];

fn put_finishes(log: &mut Vec<Event>) -> Result<(), Fail> {
    for (state, stored) in &FINISHED {
        log.push(Event::Finish {
            client: 1,
            entry: 4,
            state: *state,
            stored: *stored,
        })?;
    }
    Ok(())
}

const JUDGED: [(RowState, Stored); 2] = [
    (RowState::Success, Stored::Yes),
    (RowState::Failed, Stored::Fault),
];

fn put_judgements(log: &mut Vec<Event>) -> Result<(), Fail> {
    for (state, stored) in &JUDGED {
        let version = Version::read(b"1.1.0")?;
        log.push(Event::Judge {
            client: 0,
            entry: 4,
            version,
            state: *state,
            stored: *stored,
        })?;
    }
    Ok(())
}

const PLUGS: [PlugAnswer; 5] = [
    PlugAnswer::Done { seen: HOME },
    PlugAnswer::NoDevice,
    PlugAnswer::Busy { entry: 4 },
    PlugAnswer::NotThere,
    PlugAnswer::AlreadyThere,
];

fn put_unplugs(log: &mut Vec<Event>) -> Result<(), Fail> {
    for answer in &PLUGS {
        let device = Selector::Port(Name::read(b"usb1")?);
        log.push(Event::Unplug {
            client: 1,
            device,
            answer: *answer,
        })?;
    }
    Ok(())
}

fn put_plugs(log: &mut Vec<Event>) -> Result<(), Fail> {
    for answer in &PLUGS {
        let device = Selector::Port(Name::read(b"usb1")?);
        log.push(Event::Plug {
            client: 1,
            device,
            answer: *answer,
        })?;
    }
    Ok(())
}

fn put_given_back(log: &mut Vec<Event>) -> Result<(), Fail> {
    let tag = Name::read(b"t1")?;
    let tag = Back::Tag(tag);
    let pending = Back::Pending(4);
    let entry = Back::Entry(5);
    log.push(Event::GiveBack {
        client: 2,
        what: tag,
    })?;
    log.push(Event::GiveBack {
        client: 2,
        what: pending,
    })?;
    log.push(Event::GiveBack {
        client: 2,
        what: entry,
    })?;
    Ok(())
}

fn put_question(log: &mut Vec<Event>, query: Query) -> Result<(), Fail> {
    log.push(Event::Query { client: 1, query })?;
    Ok(())
}

/// The questions, of a device in a port.
fn put_questions(log: &mut Vec<Event>) -> Result<(), Fail> {
    let device = Selector::Port(Name::read(b"usb1")?);
    put_question(log, Query::Devices)?;
    put_question(log, Query::Releases(device))?;
    put_question(log, Query::Upgrades(device))?;
    put_question(log, Query::History)?;
    put_question(log, Query::Results(device))?;
    put_question(log, Query::Settle(device))
}

/// Questions of a device that is named otherwise.
fn put_questions_of_others(log: &mut Vec<Event>) -> Result<(), Fail> {
    let by_id = Selector::Id(device_id(b"gone", None));
    let by_guid = Selector::Guid(guid_of(b"2082B5E0-7A64-478A-B1B2-E3404FAB6DAD"));
    put_question(log, Query::Results(by_id))?;
    put_question(log, Query::Results(by_guid))
}

/// What a client does, in the order of the report.
fn put_of_clients(log: &mut Vec<Event>) -> Result<(), Fail> {
    put_asks(log)?;
    put_claims(log)?;
    put_schedules(log)?;
    put_retries(log)?;
    put_resumptions(log)
}

/// What becomes of an entry.
fn put_of_entries(log: &mut Vec<Event>) -> Result<(), Fail> {
    put_starts(log)?;
    put_ends(log)?;
    put_finishes(log)?;
    put_judgements(log)
}

/// All else.
fn put_others(log: &mut Vec<Event>) -> Result<(), Fail> {
    put_unplugs(log)?;
    put_plugs(log)?;
    put_given_back(log)?;
    put_questions(log)?;
    put_questions_of_others(log)
}

fn put_events(alloc: Global, log: &mut Vec<Event>) -> Result<(), Fail> {
    put_boots(alloc, log)?;
    put_of_clients(log)?;
    put_of_entries(log)?;
    put_others(log)?;
    log.push(Event::Cut)?;
    Ok(())
}

fn events_differ_at(alloc: Global) -> Result<Option<usize>, Fail> {
    let mut log = Vec::new(alloc);
    put_events(alloc, &mut log)?;
    lines_differ_at(alloc, &log, LINES)
}

#[test]
fn each_event_is_told(rt: HostRuntime) -> Result<(), Fail> {
    assert_eq!(rt; events_differ_at(rt.alloc())?, None);
    Ok(())
}
