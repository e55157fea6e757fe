//! Installs that are cut, and what the next boot makes of them.
use crate::days::{TwoDays, two_days};
use crate::left::Left;
use crate::requests::Wish;
use crate::scenes::{PLAIN, Scene};
use crate::told::{Start, Told, Why, done, finished, kept};
use emulated_boards::BoardFault;
use fw_facts::{Mode, Seen};
use history_keeper::RowState;
use std::test::Fail;

const OLD: Seen = Seen::Home {
    raw: 0x0100_0000,
    mode: Mode::Runtime,
};

const NEW: Seen = Seen::Home {
    raw: 0x0101_0000,
    mode: Mode::Runtime,
};

/// No image that is any good.
const TORN: Seen = Seen::Home {
    raw: 0,
    mode: Mode::Bootloader,
};

/// How many events a whole install has: the ask, the claim, four steps and the finish.
const WHOLE: u32 = 11;

/// What an install that is cut after so many events leaves: an ask alone is forgotten, what wasn't written has
/// failed, and what was written has succeeded.
fn cut_after(limit: u32) -> TwoDays {
    let (again, state, seen, writes) = match limit {
        1 => (done(1), RowState::Success, NEW, 1),
        2..=4 => (kept(1, RowState::Failed), RowState::Failed, OLD, 0),
        _ => (kept(1, RowState::Success), RowState::Success, NEW, 1),
    };
    TwoDays {
        starts: [Start::Well; 2],
        told: [if limit < WHOLE { Told::Off } else { done(1) }, again],
        left: Left {
            rows: 1,
            last: Some((state, 0)),
            seen: [seen, OLD],
            began: writes,
            ended: writes,
        },
    }
}

/// An install is cut at every event, and asked for again in the next boot, which judges what was begun: no
/// board is written twice.
#[test]
fn a_cut_at_every_event_of_a_whole_install(rt: HostRuntime) -> Result<(), Fail> {
    for limit in 1..=WHOLE {
        let days = two_days(&rt, rt.alloc(), &PLAIN, &[], Some(limit), Wish::Newer)?;
        assert_eq!(rt; days, cut_after(limit), "after {limit} events");
    }
    Ok(())
}

const AT_TORN_WRITE: Scene = Scene {
    fault: Some(BoardFault::Torn),
    ..PLAIN
};

const HALF_WRITTEN: Left = Left {
    rows: 1,
    last: Some((RowState::Failed, 0)),
    seen: [TORN, OLD],
    began: 1,
    ended: 0,
};

/// The power goes in the midst of a write, with the boot or without it: the row has failed, and the board
/// isn't written again.
#[test]
fn a_torn_write(rt: HostRuntime) -> Result<(), Fail> {
    let cut = two_days(&rt, rt.alloc(), &AT_TORN_WRITE, &[], Some(5), Wish::Newer)?;
    assert_eq!(rt; cut.told, [Told::Off, kept(1, RowState::Failed)]);
    assert_eq!(rt; cut.left, HALF_WRITTEN);
    let whole = two_days(&rt, rt.alloc(), &AT_TORN_WRITE, &[], None, Wish::Newer)?;
    assert_eq!(rt;
        whole.told,
        [finished(1, RowState::Failed), kept(1, RowState::Failed)]
    );
    assert_eq!(rt; whole.left, HALF_WRITTEN);
    Ok(())
}

const NOT_WRITTEN: Left = Left {
    rows: 1,
    last: Some((RowState::Success, 0)),
    seen: [OLD, OLD],
    began: 0,
    ended: 0,
};

/// A reinstall that is cut between its claim and its write is judged by the version alone: it succeeded, and
/// nothing was written.
#[test]
fn a_reinstall_cut_before_its_write(rt: HostRuntime) -> Result<(), Fail> {
    let wish = Wish::Same {
        allow_reinstall: true,
    };
    let days = two_days(&rt, rt.alloc(), &PLAIN, &[], Some(2), wish)?;
    assert_eq!(rt; days.told, [Told::Off, kept(1, RowState::Success)]);
    assert_eq!(rt; days.left, NOT_WRITTEN);
    Ok(())
}

/// A reinstall without its flag is refused.
#[test]
fn a_reinstall_that_is_not_allowed(rt: HostRuntime) -> Result<(), Fail> {
    let wish = Wish::Same {
        allow_reinstall: false,
    };
    let days = two_days(&rt, rt.alloc(), &PLAIN, &[], None, wish)?;
    assert_eq!(rt; days.told, [Told::Refused(Why::SameVersion); 2]);
    Ok(())
}
