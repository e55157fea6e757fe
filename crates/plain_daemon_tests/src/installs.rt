//! Installs that go well, are repeated, are put off, or find the history or the pool full.
ghost use Rattle.std.specs.Prelude.{◌≤◌};

use crate::days::{FIRST, SECOND, two_days};
use crate::driver::{Day, Deed, Morning, play};
use crate::left::Left;
use crate::requests::{Wish, offline, request};
use crate::scenes::{Kind, PLAIN, Scene, Wants};
use crate::told::{Told, Why, done, finished, kept, told_in};
use fw_base::Name;
use fw_facts::{DeviceFlag, Mode, Seen};
use guid_ids::device_id;
use history_keeper::{Row, RowState};
use std::alloc::Global;
use std::process::Abort;
use std::slice;
use std::sync::Wait;
use std::test::Fail;
use std::thread::Threads;
use update_log::Request;
use version_formats::Version;

const OLD: Seen = Seen::Home {
    raw: 0x0100_0000,
    mode: Mode::Runtime,
};

const NEW: Seen = Seen::Home {
    raw: 0x0101_0000,
    mode: Mode::Runtime,
};

/// What two requests in the first boot, and a third in the second one, come to over a new house of this scene, after
/// these rows.
fn told_of<R: Abort + Threads + Wait + Sync>(
    rt: &R,
    alloc: Global,
    scene: &Scene,
    rows: Vec<Row>,
    requests: [Request; 3],
) -> Result<([Told; 3], Left), Fail>
    requires { scene.now.pool ≤ 16384 }
{
    let [first, second, third] = requests;
    let one = [Deed::Install(first), Deed::Install(second)];
    let two = [Deed::Install(third)];
    let days: [Day; 2] = [(FIRST, &one), (SECOND, &two)];
    let (log, left) = play(rt, alloc, scene, rows, &[], &days)?;
    let log = log.items();
    Ok((
        [told_in(log, 1, 0), told_in(log, 1, 1), told_in(log, 2, 0)],
        left,
    ))
}

/// The first board was updated by the only row.
const FIRST_UPDATED: Left = Left {
    rows: 1,
    last: Some((RowState::Success, 0)),
    seen: [NEW, OLD],
    began: 1,
    ended: 1,
};

/// A request that repeats a tag is answered with what became of the first, in the same boot and in the next one.
#[test]
fn a_repeated_request(rt: HostRuntime) -> Result<(), Fail> {
    let alloc = rt.alloc();
    let first = request("t1", "usb1")?;
    let second = request("t1", "usb1")?;
    let third = request("t1", "usb1")?;
    let requests = [first, second, third];
    let (told, left) = told_of(&rt, alloc, &PLAIN, Vec::new(alloc), requests)?;
    let again = kept(1, RowState::Success);
    assert_eq!(rt; told, [done(1), again, again]);
    assert_eq!(rt; left, FIRST_UPDATED);
    Ok(())
}

const AT_REBOOT: Scene = Scene {
    kind: Kind::Capsule,
    flag: Some(DeviceFlag::NeedsReboot),
    ..PLAIN
};

/// An install that needs a reboot: the device takes no other one until a boot has judged it.
#[test]
fn a_needs_reboot_install(rt: HostRuntime) -> Result<(), Fail> {
    let alloc = rt.alloc();
    let first = request("t1", "usb1")?;
    let second = request("t2", "usb1")?;
    let third = request("t1", "usb1")?;
    let requests = [first, second, third];
    let (told, left) = told_of(&rt, alloc, &AT_REBOOT, Vec::new(alloc), requests)?;
    let waiting = finished(1, RowState::NeedsReboot);
    let refused = Told::Refused(Why::Unsettled { entry: 1 });
    assert_eq!(rt; told, [waiting, refused, kept(1, RowState::Success)]);
    assert_eq!(rt; left, FIRST_UPDATED);
    Ok(())
}

/// An install that is put off in the first boot, and done as the second one begins, in which a board may be absent.
/// The first board's firmware wants the second one there.
fn offline_days<R: Abort + Threads + Wait + Sync>(
    rt: &R,
    alloc: Global,
    absent: Option<u32>,
) -> Result<([Told; 2], Left), Fail> {
    let scene = Scene {
        wants: Wants::SecondThere,
        ..PLAIN
    };
    let install = [Deed::Install(offline("t1", "usb1")?)];
    let morning = Morning { absent, ..SECOND };
    let days: [Day; 2] = [(FIRST, &install), (morning, &install)];
    let (log, left) = play(rt, alloc, &scene, Vec::new(alloc), &[], &days)?;
    let log = log.items();
    Ok(([told_in(log, 1, 0), told_in(log, 2, 0)], left))
}

/// A board that is absent as the second boot begins, how the row of the install ends then, and what is left.
struct Ending {
    absent: Option<u32>,
    state: RowState,
    left: Left,
}

const ENDINGS: [Ending; 3] = [
    Ending {
        absent: None,
        state: RowState::Success,
        left: FIRST_UPDATED,
    },
    Ending {
        absent: Some(0),
        state: RowState::Failed,
        left: Left {
            rows: 1,
            last: Some((RowState::Failed, 1)),
            seen: [Seen::Gone, OLD],
            began: 0,
            ended: 0,
        },
    },
    Ending {
        absent: Some(1),
        state: RowState::Failed,
        left: Left {
            rows: 1,
            last: Some((RowState::Failed, 10)),
            seen: [OLD, Seen::Gone],
            began: 0,
            ended: 0,
        },
    },
];

/// An offline install is done by the daemon as the next boot begins. Where its device is absent, or another one that
/// it requires, it has failed, for the reason of the refusal, and nothing is written.
#[test]
fn an_offline_install_with_its_device_absent_and_present(rt: HostRuntime) -> Result<(), Fail> {
    for ending in &ENDINGS {
        let absent = ending.absent;
        let (told, left) = offline_days(&rt, rt.alloc(), absent)?;
        let later = kept(1, ending.state);
        assert_eq!(rt;
            told,
            [Told::PutOff { entry: 1 }, later],
            "absent {absent:?}"
        );
        assert_eq!(rt; left, ending.left, "absent {absent:?}");
    }
    Ok(())
}

/// The texts of a row but for its tag.
#[derive(Clone, Copy)]
struct Texts {
    component: Name,
    version_old: Version,
    version_new: Version,
}

fn read_texts() -> Result<Texts, Fail> {
    Ok(Texts {
        component: Name::read(b"com.example.hub")?,
        version_old: Version::read(b"1.0.0")?,
        version_new: Version::read(b"1.1.0")?,
    })
}

/// A row of a device that no board has.
fn row(alloc: Global, entry: u32) -> Result<Row, Fail> {
    let text = format!(in alloc; "old{entry}")?;
    let tag = Name::read(text.as_bytes())?;
    let texts = read_texts()?;
    Ok(Row {
        entry,
        tag,
        client: 1,
        device: device_id(b"elsewhere", None),
        component: texts.component,
        version_old: texts.version_old,
        version_new: texts.version_new,
        digest: [0; 32],
        flags: 0,
        state: RowState::Success,
        reason: 0,
        time_added: 10,
        time_changed: 20,
        duration: 0,
        protocol: None,
        retry_of: None,
    })
}

/// Puts the row of an entry behind the others.
fn put(alloc: Global, rows: &mut Vec<Row>, entry: u32) -> Result<(), Fail> {
    let row = row(alloc, entry)?;
    rows.extend_from_slice(slice::from_ref(&row))?;
    Ok(())
}

fn rows(alloc: Global, count: u32) -> Result<Vec<Row>, Fail> {
    let mut rows = Vec::new(alloc);
    for entry in 1..=count {
        put(alloc, &mut rows, entry)?;
    }
    Ok(rows)
}

/// A history of 65,535 rows takes one install more, and refuses the next one.
#[test]
fn a_history_of_65535_rows_and_two_installs(rt: HostRuntime) -> Result<(), Fail> {
    let alloc = rt.alloc();
    let first = request("t1", "usb1")?;
    let second = request("t2", "usb2")?;
    let third = request("t1", "usb1")?;
    let requests = [first, second, third];
    let before = rows(alloc, 65_535)?;
    let (told, left) = told_of(&rt, alloc, &PLAIN, before, requests)?;
    let refused = Told::Refused(Why::RowsFull);
    assert_eq!(rt;
        told,
        [done(65_536), refused, kept(65_536, RowState::Success)]
    );
    let updated = Left {
        rows: 65_536,
        ..FIRST_UPDATED
    };
    assert_eq!(rt; left, updated);
    Ok(())
}

/// A payload of two blocks has no room at all in a pool of one.
#[test]
fn a_payload_of_two_blocks(rt: HostRuntime) -> Result<(), Fail> {
    let large = Scene {
        pool: 1,
        size: 4097,
        ..PLAIN
    };
    let days = two_days(&rt, rt.alloc(), &large, &[], None, Wish::Newer)?;
    let refused = Told::Refused(Why::NoRoom { need: 2, free: 1 });
    assert_eq!(rt; days.told, [refused; 2]);
    Ok(())
}
