//! Installs that are tried again: in the same boot, at the next one, and after a commit that was in doubt.
use crate::days::{FIRST, SECOND};
use crate::driver::{Day, Deed, install, play};
use crate::left::Left;
use crate::requests::{offline, request, retry};
use crate::scenes::{PLAIN, Scene};
use crate::told::{Told, Why, told_in};
use emulated_boards::BoardFault;
use fw_facts::{Mode, Seen};
use history_keeper::RowState;
use std::alloc::Global;
use std::process::Abort;
use std::sync::Wait;
use std::test::Fail;
use std::thread::Threads;
use update_log::{Request, RetryFault, Stored};

const OLD: Seen = Seen::Home {
    raw: 0x0100_0000,
    mode: Mode::Runtime,
};

const NEW: Seen = Seen::Home {
    raw: 0x0101_0000,
    mode: Mode::Runtime,
};

/// The first write on the first board fails.
const FAILING: Scene = Scene {
    fault: Some(BoardFault::Failed),
    ..PLAIN
};

/// The first install failed.
const FAILED: Told = Told::Finished {
    entry: 1,
    state: RowState::Failed,
    stored: Stored::Yes,
};

/// The second row's install succeeded.
const DONE: Told = Told::Finished {
    entry: 2,
    state: RowState::Success,
    stored: Stored::Yes,
};

/// Another row tries the failed one again.
const RETRIED: Told = Told::Refused(Why::Retry(RetryFault::Retried { entry: 2 }));

/// What two installs in a first boot, and two in a second one, come to over a new house, where these calls of the keeper
/// fail.
fn told_of<R: Abort + Threads + Wait + Sync>(
    rt: &R,
    alloc: Global,
    failing: &[(u32, bool)],
    requests: [Request; 4],
) -> Result<([Told; 4], Left), Fail> {
    let [first, second, third, fourth] = requests;
    let one = [Deed::Install(first), Deed::Install(second)];
    let two = [Deed::Install(third), Deed::Install(fourth)];
    let days: [Day; 2] = [(FIRST, &one), (SECOND, &two)];
    let (log, left) = play(rt, alloc, &FAILING, Vec::new(alloc), failing, &days)?;
    let log = log.items();
    let told = [
        told_in(log, 1, 0),
        told_in(log, 1, 1),
        told_in(log, 2, 0),
        told_in(log, 2, 1),
    ];
    Ok((told, left))
}

const TRIED_ONCE: [Told; 4] = [
    FAILED,
    DONE,
    RETRIED,
    Told::Refused(Why::Retry(RetryFault::NotFailed {
        state: RowState::Success,
    })),
];

/// The first board was updated by the second row.
const FIRST_UPDATED: Left = Left {
    rows: 2,
    last: Some((RowState::Success, 0)),
    seen: [NEW, OLD],
    began: 1,
    ended: 1,
};

/// An install that failed is tried again, once: the second request that names its row is refused, in the same boot and
/// in the next one.
#[test]
fn a_failed_install_is_tried_again_once(rt: HostRuntime) -> Result<(), Fail> {
    let first = request("t1", "usb1")?;
    let second = retry("t2", "usb1", 1)?;
    let third = retry("t3", "usb1", 1)?;
    let fourth = retry("t4", "usb1", 2)?;
    let requests = [first, second, third, fourth];
    let (told, left) = told_of(&rt, rt.alloc(), &[], requests)?;
    assert_eq!(rt; told, TRIED_ONCE);
    assert_eq!(rt; left, FIRST_UPDATED);
    Ok(())
}

const NAMED_WRONGLY: [Told; 4] = [
    FAILED,
    Told::Refused(Why::Retry(RetryFault::OtherDevice)),
    Told::Refused(Why::Retry(RetryFault::NoRow)),
    DONE,
];

/// The second board was updated by the second row.
const SECOND_UPDATED: Left = Left {
    rows: 2,
    last: Some((RowState::Success, 0)),
    seen: [OLD, NEW],
    began: 1,
    ended: 1,
};

/// The row of one device is not one that another device's install can name, and a row that isn't there neither.
#[test]
fn another_device_and_a_row_that_is_not_there(rt: HostRuntime) -> Result<(), Fail> {
    let first = request("t1", "usb1")?;
    let second = retry("t2", "usb2", 1)?;
    let third = retry("t2", "usb1", 2)?;
    let fourth = request("t2", "usb2")?;
    let requests = [first, second, third, fourth];
    let (told, left) = told_of(&rt, rt.alloc(), &[], requests)?;
    assert_eq!(rt; told, NAMED_WRONGLY);
    assert_eq!(rt; left, SECOND_UPDATED);
    Ok(())
}

/// An install fails, a retry of it is put off, and another one is asked for before and after the boot that does it.
fn put_off_told<R: Abort + Threads + Wait + Sync>(
    rt: &R,
    alloc: Global,
    first: &Request,
    later: &Request,
    other: &Request,
) -> Result<([Told; 5], Left), Fail> {
    let one = [install(first), install(later), install(other)];
    let two = [install(later), install(other)];
    let days: [Day; 2] = [(FIRST, &one), (SECOND, &two)];
    let (log, left) = play(rt, alloc, &FAILING, Vec::new(alloc), &[], &days)?;
    let log = log.items();
    let told = [
        told_in(log, 1, 0),
        told_in(log, 1, 1),
        told_in(log, 1, 2),
        told_in(log, 2, 0),
        told_in(log, 2, 1),
    ];
    Ok((told, left))
}

const DONE_LATER: [Told; 5] = [
    FAILED,
    Told::PutOff { entry: 2 },
    Told::Refused(Why::Unsettled { entry: 2 }),
    Told::Kept {
        entry: 2,
        state: RowState::Success,
    },
    RETRIED,
];

/// A retry that is put off is done as the next boot begins. Until then its row hinders others, and from then on it is
/// the one that tries the failed row again.
#[test]
fn a_retry_that_is_put_off(rt: HostRuntime) -> Result<(), Fail> {
    let first = request("t1", "usb1")?;
    let later = Request {
        retry_of: Some(1),
        ..offline("t2", "usb1")?
    };
    let other = retry("t3", "usb1", 1)?;
    let (told, left) = put_off_told(&rt, rt.alloc(), &first, &later, &other)?;
    assert_eq!(rt; told, DONE_LATER);
    assert_eq!(rt; left, FIRST_UPDATED);
    Ok(())
}

/// The commit of the retry's claim is call 4 of the keeper. Where it was kept, the row is judged, tries the first one
/// again, and can be tried again itself.
const KEPT: [Told; 4] = [
    FAILED,
    Told::Refused(Why::KeeperFault),
    Told::Kept {
        entry: 2,
        state: RowState::Failed,
    },
    RETRIED,
];

/// Where it was lost, the retry is done anew.
const LOST: [Told; 4] = [FAILED, Told::Refused(Why::KeeperFault), DONE, RETRIED];

/// What becomes of a retry whose claim is in doubt, and how many rows there are then.
fn doubted<R: Abort + Threads + Wait + Sync>(
    rt: &R,
    alloc: Global,
    kept: bool,
) -> Result<([Told; 4], usize), Fail> {
    let first = request("t1", "usb1")?;
    let second = retry("t2", "usb1", 1)?;
    let again = retry("t2", "usb1", 1)?;
    let third = retry("t3", "usb1", 1)?;
    let requests = [first, second, again, third];
    let (told, left) = told_of(rt, alloc, &[(4, kept)], requests)?;
    Ok((told, left.rows))
}

#[test]
fn a_retry_in_doubt_is_kept_or_lost(rt: HostRuntime) -> Result<(), Fail> {
    let kept = doubted(&rt, rt.alloc(), true)?;
    assert!(rt; kept == (KEPT, 2));
    let lost = doubted(&rt, rt.alloc(), false)?;
    assert!(rt; lost == (LOST, 2));
    Ok(())
}
