//! Histories as they stand before a campaign.
ghost use Rattle.std.specs.Prelude.{◌≡◌, None, IfOk};
ghost use Rattle.history_sqlite.specs.Keeping.{doubtful};

use fw_base::Name;
use guid_ids::device_id;
use history_keeper::{KeeperPlan, Row, RowState};
use history_sqlite::SqlKeeper;
use history_sqlite::statements::insert;
use history_sqlite::tables::open_tables;
use sqlite::{Connection, MemStore};
use std::alloc::Global;
use std::slice;
use std::test::Fail;
use version_formats::Version;

/// An entry, and the number in its tag.
pub(crate) type Past = (u32, u32);

/// The texts of a row but for its tag.
#[derive(Clone, Copy)]
struct Texts {
    component: Name,
    version_old: Version,
    version_new: Version,
}

fn read_texts() -> Result<Texts, Fail> {
    Ok(Texts {
        component: Name::read(b"com.example.hub")?,
        version_old: Version::read(b"1.0.0")?,
        version_new: Version::read(b"1.1.0")?,
    })
}

/// A row of a device that no board has.
fn row(alloc: Global, entry: u32, tag: u32) -> Result<Row, Fail>
    ensures added { IfOk result (λ row. row.time_added ≡ 10) }
    ensures changed { IfOk result (λ row. row.time_changed ≡ 20) }
{
    let text = format!(in alloc; "old{tag}")?;
    let tag = Name::read(text.as_bytes())?;
    let texts = read_texts()?;
    Ok(Row {
        entry,
        tag,
        client: 1,
        device: device_id(b"elsewhere", None),
        component: texts.component,
        version_old: texts.version_old,
        version_new: texts.version_new,
        digest: [0; 32],
        flags: 0,
        state: RowState::Success,
        reason: 0,
        time_added: 10,
        time_changed: 20,
        duration: 0,
        protocol: None,
        retry_of: None,
    })
}

/// Puts the row of an entry behind the others.
fn put(alloc: Global, rows: &mut Vec<Row>, entry: u32, tag: u32) -> Result<(), Fail> {
    let row = row(alloc, entry, tag)?;
    rows.extend_from_slice(slice::from_ref(&row))?;
    Ok(())
}

/// The rows of these entries.
pub(crate) fn rows(alloc: Global, past: &[Past]) -> Result<Vec<Row>, Fail> {
    let mut rows = Vec::new(alloc);
    for (entry, tag) in past {
        put(alloc, &mut rows, *entry, *tag)?;
    }
    Ok(rows)
}

/// Which calls of a keeper fail, and whether the change of each is made after all.
pub(crate) fn plan(alloc: Global, failing: &[(u32, bool)]) -> Result<Vec<KeeperPlan>, Fail> {
    let mut plan = Vec::new(alloc);
    for (call, keep) in failing {
        plan.push(KeeperPlan {
            call: *call,
            keep: *keep,
        })?;
    }
    Ok(plan)
}

/// Adds a row to the table.
fn add(
    alloc: Global,
    connection: &mut Connection<MemStore>,
    entry: u32,
    tag: u32,
) -> Result<(), Fail> {
    let rows = [row(alloc, entry, tag)?];
    insert(connection, &rows[0])?;
    Ok(())
}

/// A database with the rows of these entries.
fn filled(alloc: Global, past: &[Past]) -> Result<Connection<MemStore>, Fail> {
    let mut connection = Connection::open_in_memory(alloc)?;
    open_tables(&mut connection)?;
    for (entry, tag) in past {
        add(alloc, &mut connection, *entry, *tag)?;
    }
    Ok(connection)
}

/// A keeper over a database without rows, of which such calls fail.
fn unfilled(alloc: Global, failing: &[(u32, bool)]) -> Result<SqlKeeper<MemStore>, Fail>
    ensures { IfOk result (λ keeper. doubtful keeper ≡ None) }
{
    Ok(SqlKeeper::planned(alloc, plan(alloc, failing)?)?)
}

/// A keeper over a database with the rows of these entries.
fn adopted(alloc: Global, past: &[Past]) -> Result<SqlKeeper<MemStore>, Fail>
    ensures { IfOk result (λ keeper. doubtful keeper ≡ None) }
{
    let connection = filled(alloc, past)?;
    Ok(SqlKeeper::adopt(alloc, connection)?)
}

/// A keeper over a database with the rows of these entries. Where there are none, such calls fail; else none does.
pub(crate) fn database(
    alloc: Global,
    past: &[Past],
    failing: &[(u32, bool)],
) -> Result<SqlKeeper<MemStore>, Fail>
    ensures { IfOk result (λ keeper. doubtful keeper ≡ None) }
{
    if past.is_empty() {
        unfilled(alloc, failing)
    } else {
        adopted(alloc, past)
    }
}
