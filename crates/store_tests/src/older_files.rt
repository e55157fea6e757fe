//! The stop at each call of a file of schema 1 whose rows are taken over. What each crash left is one of schema 1 with
//! the same rows, or one of this schema, which has them with the values for what schema 1 doesn't tell.
use crate::files::{
    CRASHES, Crashed, Halted, Stop, after, first, go_on, halt, opened, rows_of, stopping,
    stopping_again,
};
use crate::stopping::Stopping;
use fw_base::Name;
use guid_ids::DeviceId;
use history_keeper::{Row, RowState};
use history_sqlite::finding::{Found, find_tables};
use sqlite::Files;
use std::alloc::Global;
use std::test::Fail;
use version_formats::Version;

/// The tables of schema 1, with its number.
const TABLES: &str = "CREATE TABLE schema (number INTEGER NOT NULL) STRICT;
CREATE TABLE history (entry INTEGER PRIMARY KEY, tag TEXT NOT NULL UNIQUE, client INTEGER NOT NULL, device BLOB NOT NULL, component TEXT NOT NULL, version_old TEXT NOT NULL, version_new TEXT NOT NULL, digest BLOB NOT NULL, flags INTEGER NOT NULL, state INTEGER NOT NULL, reason INTEGER NOT NULL, time_added INTEGER NOT NULL, time_changed INTEGER NOT NULL) STRICT;
INSERT INTO schema VALUES (1);";

/// The insert of rows into them, up to the first row.
const INSERT: &str =
    "INSERT INTO history (entry, tag, state, reason, client, device, component, version_old, version_new, digest, flags, time_added, time_changed) VALUES ";

/// What all rows have behind their entry, their tag, their state and their reason.
const VALUES: &str =
    "3, x'0202020202020202020202020202020202020202', 'org.example.board', '1.0.0', '1.1.0', x'0707070707070707070707070707070707070707070707070707070707070707', 5, 1000, 1001";

/// So many rows, which take more than one page of the file.
const ROWS: u32 = 40;

/// Stops counted up to here are enough.
const MOST: u64 = 1000;

/// Every second row was begun, and the others failed.
fn reached(entry: u32) -> (RowState, u8) {
    if entry % 2 == 0 {
        (RowState::Begun, 0)
    } else {
        (RowState::Failed, 10)
    }
}

/// The texts of a row but for its tag.
#[derive(Clone, Copy)]
struct Texts {
    component: Name,
    version_old: Version,
    version_new: Version,
}

fn read_texts() -> Result<Texts, Fail> {
    Ok(Texts {
        component: Name::read(b"org.example.board")?,
        version_old: Version::read(b"1.0.0")?,
        version_new: Version::read(b"1.1.0")?,
    })
}

/// The row of this entry, as it is taken over.
fn row(alloc: Global, entry: u32) -> Result<Row, Fail> {
    let text = format!(in alloc; "t{entry}")?;
    let tag = Name::read(text.as_bytes())?;
    let texts = read_texts()?;
    let (state, reason) = reached(entry);
    Ok(Row {
        entry,
        tag,
        client: 3,
        device: DeviceId::from_bytes([2; 20]),
        component: texts.component,
        version_old: texts.version_old,
        version_new: texts.version_new,
        digest: [7; 32],
        flags: 5,
        state,
        reason,
        time_added: 1000,
        time_changed: 1001,
        duration: 0,
        protocol: None,
        retry_of: None,
    })
}

/// The values of the row of this entry, in the order of the insert.
fn values(alloc: Global, entry: u32) -> Result<String, Fail> {
    let (state, reason) = reached(entry);
    let state = match state {
        RowState::Begun => 100,
        _ => 3,
    };
    Ok(format!(in alloc; "({entry}, 't{entry}', {state}, {reason}, {VALUES})")?)
}

/// The insert of all rows into the table of schema 1.
fn insert(alloc: Global) -> Result<String, Fail> {
    let first = values(alloc, 1)?;
    let mut text = format!(in alloc; "{INSERT}{first}")?;
    for at in 1..ROWS {
        text.push_str(", ")?;
        text.push_str(values(alloc, at + 1)?.as_str())?;
    }
    Ok(text)
}

/// Files of schema 1 with the rows.
fn older_files(alloc: Global) -> Result<Halted, Fail> {
    let mut connection = opened(alloc, stopping(alloc, Stop::Log, u64::MAX))?;
    connection.execute_batch(TABLES)?;
    connection.execute_batch(insert(alloc)?.as_str())?;
    halt(alloc, connection.into_store().close())
}

fn is_same(a: &Row, b: &Row) -> bool {
    a.entry == b.entry
        && a.tag == b.tag
        && a.client == b.client
        && a.device == b.device
        && a.component == b.component
        && a.version_old == b.version_old
        && a.version_new == b.version_new
        && a.digest == b.digest
        && a.flags == b.flags
        && a.state == b.state
        && a.reason == b.reason
        && a.time_added == b.time_added
        && a.time_changed == b.time_changed
        && a.duration == b.duration
        && a.protocol == b.protocol
        && a.retry_of == b.retry_of
}

/// Whether these are the rows, as they are taken over.
fn are_the_rows(alloc: Global, rows: &[Row]) -> Result<bool, Fail> {
    let mut entry = 0u32;
    for found in rows {
        entry = entry.saturating_add(1);
        let wanted = row(alloc, entry)?;
        if !is_same(found, &wanted) {
            return Ok(false);
        }
    }
    Ok(entry == ROWS)
}

/// What these files have of the tables.
fn tables_of(alloc: Global, files: Files<Stopping>) -> Result<Found, Fail> {
    let mut connection = opened(alloc, files)?;
    Ok(find_tables(&mut connection)?)
}

/// What the crash left of the tables, where a keeper then has the rows.
fn kept_by(alloc: Global, left: &Halted, crashed: Crashed) -> Result<Option<Found>, Fail> {
    let found = tables_of(alloc, after(alloc, left, crashed)?)?;
    let rows = rows_of(alloc, after(alloc, left, crashed)?)?;
    if are_the_rows(alloc, &rows)? {
        Ok(Some(found))
    } else {
        Ok(None)
    }
}

/// What an opening came to.
#[derive(Clone, Copy, Debug, PartialEq, Eq)]
enum Told {
    /// It met a stop, and each crash left all rows in one of the schemas.
    Stopped,
    /// It met no stop, and each crash left all rows in this schema.
    Whole,
    /// The files weren't given back.
    Gone,
    /// Something else after such a crash.
    Wrong(Crashed),
}

/// Whether a crash may leave this: what is taken over, and after a stop the older rows too.
fn may_stand(found: Found, whole: bool) -> bool {
    match found {
        Found::Ours => true,
        Found::Older => !whole,
        Found::Empty | Found::Other => false,
    }
}

/// The first crash that leaves something else than the rows, in a schema that may stand.
fn first_wrong(alloc: Global, left: &Halted, whole: bool) -> Result<Option<Crashed>, Fail> {
    for crashed in CRASHES {
        match kept_by(alloc, left, crashed)? {
            Some(found) if may_stand(found, whole) => {}
            _ => return Ok(Some(crashed)),
        }
    }
    Ok(None)
}

/// The files that an opening left, of which one stops after so many calls.
fn opened_until(
    alloc: Global,
    older: &Halted,
    stop: Stop,
    calls: u64,
) -> Result<Option<Files<Stopping>>, Fail> {
    let (keeper, files) = first(alloc, stopping_again(alloc, older, stop, calls)?, &[])?;
    match keeper {
        Some(keeper) => Ok(Some(keeper.into_files())),
        None => Ok(files),
    }
}

/// Opens the older files, of which one stops after so many calls, and looks what each crash left.
fn opening(alloc: Global, older: &Halted, stop: Stop, calls: u64) -> Result<Told, Fail> {
    let mut files = match opened_until(alloc, older, stop, calls)? {
        Some(files) => files,
        None => return Ok(Told::Gone),
    };
    let whole = go_on(&mut files);
    let left = halt(alloc, files)?;
    match first_wrong(alloc, &left, whole)? {
        Some(crashed) => Ok(Told::Wrong(crashed)),
        None if whole => Ok(Told::Whole),
        None => Ok(Told::Stopped),
    }
}

/// The number of calls after which a stop comes to something else, or at which no stop comes at all.
fn first_otherwise(alloc: Global, older: &Halted, stop: Stop) -> Result<(u64, Told), Fail> {
    for calls in 0..MOST {
        match opening(alloc, older, stop, calls)? {
            Told::Stopped => {}
            told => return Ok((calls, told)),
        }
    }
    Ok((MOST, Told::Stopped))
}

#[test]
fn older_rows_are_kept_until_they_are_taken_over(rt: HostRuntime) -> Result<(), Fail> {
    let older = older_files(rt.alloc())?;
    let kept = kept_by(rt.alloc(), &older, Crashed::Lost)?;
    assert_eq!(rt; kept, Some(Found::Older));
    Ok(())
}

/// Whether some stop of the file comes to something, and each to all rows or none.
fn is_whole_or_older(alloc: Global, older: &Halted, stop: Stop) -> Result<bool, Fail> {
    let (calls, told) = first_otherwise(alloc, older, stop)?;
    Ok(calls > 0 && told == Told::Whole)
}

#[test]
fn older_rows_are_taken_over_whole_or_not_at_all(rt: HostRuntime) -> Result<(), Fail> {
    let older = older_files(rt.alloc())?;
    assert!(rt; is_whole_or_older(rt.alloc(), &older, Stop::Log)?);
    assert!(rt; is_whole_or_older(rt.alloc(), &older, Stop::Database)?);
    Ok(())
}
