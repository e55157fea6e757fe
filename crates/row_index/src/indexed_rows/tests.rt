//! What no clause says: that calls succeed, and that the index is made and kept.
ghost use Rattle.std.specs.Prelude.{◌≤◌, OnOk};

use super::*;
use guid_ids::device_id;
use std::slice;
use std::test::Fail;
use version_formats::Version;

fn row(entry: u32, tag: &[u8], device: &[u8], state: RowState) -> Result<Row, Fail> {
    Ok(Row {
        entry,
        tag: Name::read(tag)?,
        client: 1,
        device: device_id(device, None),
        component: Name::read(b"org.example.board")?,
        version_old: Version::read(b"1.0.0")?,
        version_new: Version::read(b"1.1.0")?,
        digest: [7; 32],
        flags: 0,
        state,
        reason: 0,
        time_added: 1000,
        time_changed: 1000,
        duration: 0,
        protocol: None,
        retry_of: None,
    })
}

/// Puts such a row behind the others.
fn put(
    rows: &mut Vec<Row>,
    entry: u32,
    tag: &[u8],
    device: &[u8],
    state: RowState,
) -> Result<(), Fail> {
    let row = row(entry, tag, device, state)?;
    rows.extend_from_slice(slice::from_ref(&row))?;
    Ok(())
}

fn history(alloc: Global) -> Result<IndexedRows, Fail> {
    let mut list = Vec::new(alloc);
    put(&mut list, 1, b"t1", b"usb1", RowState::Success)?;
    put(&mut list, 2, b"t2", b"usb2", RowState::NeedsReboot)?;
    put(&mut list, 3, b"t3", b"usb1", RowState::Pending)?;
    let mut rows = IndexedRows::new(alloc);
    rows.put(list);
    Ok(rows)
}

fn number(found: Option<&Row>) -> u32 {
    match found {
        Some(row) => row.entry,
        None => 0,
    }
}

fn tagged(rows: &IndexedRows, tag: &[u8]) -> Result<u32, Fail> {
    Ok(number(rows.with_tag(&Name::read(tag)?)))
}

fn waiting(rows: &IndexedRows, device: &[u8]) -> u32 {
    number(rows.unsettled_of(&device_id(device, None)))
}

#[test]
fn rows_are_found_before_and_after_the_index(rt: HostRuntime) -> Result<(), Fail> {
    let mut rows = history(rt.alloc())?;
    for round in 0..2 {
        assert_eq!(rt; rows.index.is_some(), round == 1);
        assert_eq!(rt; number(rows.row_of(3)), 3);
        assert_eq!(rt; number(rows.row_of(4)), 0);
        assert_eq!(rt; tagged(&rows, b"t2")?, 2);
        assert_eq!(rt; tagged(&rows, b"t4")?, 0);
        assert_eq!(rt; waiting(&rows, b"usb1"), 3);
        assert_eq!(rt; waiting(&rows, b"usb3"), 0);
        rows.reserve(1)?;
    }
    Ok(())
}

#[test]
fn a_history_keeps_its_index(rt: HostRuntime) -> Result<(), Fail> {
    let mut rows = history(rt.alloc())?;
    rows.reserve(1)?;
    rows.push(row(4, b"t4", b"usb3", RowState::Begun)?);
    rows.advance(4, RowState::Failed, 0, 2000);
    rows.advance(3, RowState::Begun, 0, 2000);
    assert!(rt; rows.index.is_some());
    assert_eq!(rt; tagged(&rows, b"t4")?, 4);
    assert_eq!(rt; waiting(&rows, b"usb1"), 3);
    assert_eq!(rt; waiting(&rows, b"usb3"), 0);
    assert_eq!(rt; rows.near(&device_id(b"usb1", None)).len(), 1);
    Ok(())
}

#[test]
fn rows_that_are_no_history_are_read(rt: HostRuntime) -> Result<(), Fail> {
    let mut rows = history(rt.alloc())?;
    rows.reserve(1)?;
    rows.advance(1, RowState::Begun, 0, 2000);
    assert!(rt; rows.index.is_none());
    rows.reserve(1)?;
    assert!(rt; rows.index.is_none());
    assert_eq!(rt; waiting(&rows, b"usb1"), 1);
    Ok(())
}
