//! What no clause says: that calls succeed, and that the rules are the ones that were meant.
ghost use Rattle.std.specs.Prelude.{◌≡◌, IfOk, None};
ghost use Rattle.history_keeper.specs.Memories.{doubtful};

use fw_base::Name;
use guid_ids::device_id;
use history_keeper::{
    Change, Keeper, KeeperPlan, KeeperRefusal, MemoryKeeper, Row, RowState, first_faulty,
};
use std::alloc::Global;
use std::slice;
use std::test::Fail;
use version_formats::Version;

fn row(entry: u32, tag: &[u8], device: &[u8], state: RowState) -> Result<Row, Fail> {
    Ok(Row {
        entry,
        tag: Name::read(tag)?,
        client: 1,
        device: device_id(device, None),
        component: Name::read(b"org.example.board")?,
        version_old: Version::read(b"1.0.0")?,
        version_new: Version::read(b"1.1.0")?,
        digest: [7; 32],
        flags: 0,
        state,
        reason: 0,
        time_added: 1000,
        time_changed: 1000,
        duration: 0,
        protocol: None,
        retry_of: None,
    })
}

/// Puts a row behind the others.
fn put(rows: &mut Vec<Row>, row: &Row) -> Result<(), Fail> {
    rows.extend_from_slice(slice::from_ref(row))?;
    Ok(())
}

fn keeper(alloc: Global, call: u32, keep: bool) -> Result<MemoryKeeper, Fail>
    ensures { IfOk result (λ keeper. doubtful keeper ≡ None) }
{
    let mut rows = Vec::new(alloc);
    put(&mut rows, &row(1, b"t1", b"usb1", RowState::Begun)?)?;
    let mut plan = Vec::new(alloc);
    plan.push(KeeperPlan { call, keep })?;
    Ok(MemoryKeeper::new(rows, plan))
}

#[test]
fn the_first_row_that_breaks_a_rule(rt: HostRuntime) -> Result<(), Fail> {
    let cases = [
        ([1, 2, 3], ["a", "b", "c"], ["x", "y", "z"], None),
        ([0, 1, 2], ["a", "b", "c"], ["x", "y", "z"], Some(0)),
        ([1, 2, 4], ["a", "b", "c"], ["x", "y", "z"], Some(2)),
        ([1, 2, 3], ["a", "a", "c"], ["x", "y", "z"], Some(1)),
        ([1, 2, 3], ["a", "b", "a"], ["x", "y", "z"], Some(2)),
        ([1, 2, 3], ["a", "b", "c"], ["x", "y", "x"], Some(2)),
        ([1, 3, 3], ["a", "b", "a"], ["x", "x", "x"], Some(1)),
    ];
    for (entries, tags, devices, want) in cases {
        let rows = [
            row(
                entries[0],
                tags[0].as_bytes(),
                devices[0].as_bytes(),
                RowState::Begun,
            )?,
            row(
                entries[1],
                tags[1].as_bytes(),
                devices[1].as_bytes(),
                RowState::Pending,
            )?,
            row(
                entries[2],
                tags[2].as_bytes(),
                devices[2].as_bytes(),
                RowState::NeedsReboot,
            )?,
        ];
        assert_eq!(rt; first_faulty(rt.alloc(), &rows)?, want);
    }
    Ok(())
}

#[test]
fn settled_rows_of_one_device_are_many(rt: HostRuntime) -> Result<(), Fail> {
    let rows = [
        row(1, b"a", b"x", RowState::Success)?,
        row(2, b"b", b"x", RowState::Begun)?,
        row(3, b"c", b"x", RowState::Failed)?,
    ];
    assert_eq!(rt; first_faulty(rt.alloc(), &rows)?, None);
    assert_eq!(rt; first_faulty(rt.alloc(), &[])?, None);
    Ok(())
}

/// A row that tries the row of an entry again.
fn retry(entry: u32, tag: &[u8], device: &[u8], state: RowState, tried: u32) -> Result<Row, Fail> {
    let row = row(entry, tag, device, state)?;
    Ok(Row {
        retry_of: Some(tried),
        ..row
    })
}

/// What a second and a third row try again behind a failed one of the device `x`, their devices, and the place of the first
/// row that breaks a rule: the second one succeeded, and the third one is begun.
const LINKS: [(u32, &[u8], u32, &[u8], Option<usize>); 8] = [
    (1, b"x", 9, b"", None),
    (2, b"x", 9, b"", Some(1)),
    (3, b"x", 9, b"", Some(1)),
    (0, b"x", 9, b"", Some(1)),
    (1, b"y", 9, b"", Some(1)),
    (1, b"x", 1, b"x", Some(2)),
    (1, b"x", 2, b"x", Some(2)),
    (1, b"x", 3, b"x", Some(2)),
];

/// Puts a row behind the others that tries the row of an entry again.
fn put_retry(
    rows: &mut Vec<Row>,
    entry: u32,
    tag: &[u8],
    device: &[u8],
    state: RowState,
    tried: u32,
) -> Result<(), Fail> {
    let row = retry(entry, tag, device, state, tried)?;
    rows.extend_from_slice(slice::from_ref(&row))?;
    Ok(())
}

/// Puts a failed row of the device `x`.
fn put_failed(rows: &mut Vec<Row>) -> Result<(), Fail> {
    let row = row(1, b"a", b"x", RowState::Failed)?;
    rows.extend_from_slice(slice::from_ref(&row))?;
    Ok(())
}

/// The rows of one line of `LINKS`. Where 9 stands there is no third row.
fn linked(alloc: Global, second: (u32, &[u8]), third: (u32, &[u8])) -> Result<Vec<Row>, Fail> {
    let mut rows = Vec::new(alloc);
    put_failed(&mut rows)?;
    put_retry(&mut rows, 2, b"b", second.1, RowState::Success, second.0)?;
    if third.0 != 9 {
        put_retry(&mut rows, 3, b"c", third.1, RowState::Begun, third.0)?;
    }
    Ok(rows)
}

/// A row may try an earlier failed one of its device again, and no two the same one.
#[test]
fn rows_that_try_others_again(rt: HostRuntime) -> Result<(), Fail> {
    for (second, its, third, other, want) in LINKS {
        let rows = linked(rt.alloc(), (second, its), (third, other))?;
        assert_eq!(rt; first_faulty(rt.alloc(), &rows)?, want);
    }
    Ok(())
}

#[test]
fn each_row_tries_the_one_before_again(rt: HostRuntime) -> Result<(), Fail> {
    let chain = [
        row(1, b"a", b"x", RowState::Failed)?,
        retry(2, b"b", b"x", RowState::Failed, 1)?,
        retry(3, b"c", b"x", RowState::Pending, 2)?,
    ];
    assert_eq!(rt; first_faulty(rt.alloc(), &chain)?, None);
    Ok(())
}

#[test]
fn a_failed_commit_is_kept_or_lost(rt: HostRuntime) -> Result<(), Fail> {
    let alloc = rt.alloc();
    for (keep, count) in [(false, 1), (true, 2)] {
        let mut keeper = keeper(alloc, 2, keep)?;
        let loaded = keeper.load(alloc)?;
        assert_eq!(rt; loaded.len(), 1);
        let stored = keeper.commit(&Change::Add(row(2, b"t2", b"usb2", RowState::Begun)?));
        assert!(rt; stored == Err(KeeperRefusal::Fault));
        assert_eq!(rt; keeper.rows().len(), 1);
        keeper.reopen()?;
        let again = keeper.load(alloc)?;
        assert_eq!(rt; again.len(), count);
        assert_eq!(rt; keeper.calls(), 4);
    }
    Ok(())
}

#[test]
fn a_failed_load_or_reopening_changes_nothing(rt: HostRuntime) -> Result<(), Fail> {
    let alloc = rt.alloc();
    let mut first = keeper(alloc, 1, false)?;
    assert!(rt; first.load(alloc).err() == Some(KeeperRefusal::Fault));
    let mut second = keeper(alloc, 1, true)?;
    assert!(rt; second.reopen() == Err(KeeperRefusal::Fault));
    second.reopen()?;
    let loaded = second.load(alloc)?;
    assert_eq!(rt; loaded.len(), 1);
    Ok(())
}

#[test]
fn an_advance_changes_one_row(rt: HostRuntime) -> Result<(), Fail> {
    let alloc = rt.alloc();
    let mut keeper = keeper(alloc, 9, false)?;
    keeper.commit(&Change::Add(row(2, b"t2", b"usb2", RowState::Begun)?))?;
    keeper.commit(&Change::Advance {
        entry: 2,
        state: RowState::Failed,
        reason: 10,
        time: 2000,
    })?;
    let rows = keeper.rows();
    assert_eq!(rt; rows.len(), 2);
    assert_eq!(rt; rows[0].state, RowState::Begun);
    assert_eq!(rt; rows[0].time_changed, 1000);
    assert_eq!(rt; rows[1].state, RowState::Failed);
    assert_eq!(rt; rows[1].reason, 10);
    assert_eq!(rt; rows[1].time_added, 1000);
    assert_eq!(rt; rows[1].time_changed, 2000);
    Ok(())
}

#[test]
fn as_many_rows_as_a_history_has(rt: HostRuntime) -> Result<(), Fail> {
    let alloc = rt.alloc();
    let mut rows = Vec::new(alloc);
    for number in 0..65_536u32 {
        let tag = [
            b'a' + (number % 16) as u8,
            b'a' + (number / 16 % 16) as u8,
            b'a' + (number / 256 % 16) as u8,
            b'a' + (number / 4096 % 16) as u8,
        ];
        put(&mut rows, &row(number + 1, &tag, &tag, RowState::Begun)?)?;
    }
    assert_eq!(rt; first_faulty(alloc, &rows)?, None);
    put(
        &mut rows,
        &row(65_537, b"pppp", b"usb1", RowState::Success)?,
    )?;
    assert_eq!(rt; first_faulty(alloc, &rows)?, Some(65_536));
    Ok(())
}
