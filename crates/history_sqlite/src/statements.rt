//! The three statements on the table. Each is one call, outside any transaction.
ghost use Rattle.std.specs.Prelude.{pos, ◌≡◌, ◌≢◌, ◌≤◌, ◌^◌, ◌-◌, ◌++◌, ◌∷◌, None, [], IsTrue, map, Any, IfOk, IfErr, OnOk, OnErr};
ghost use Rattle.sqlite.specs.Held.{state};
ghost use Rattle.sqlite.specs.State.{HasCleanDisk, Shown};
ghost use Rattle.sqlite.specs.declared.types.Value.TheVariants.{Int, Text};
ghost use Rattle.sqlite.specs.Values.{bound, bound_value, or_null};
ghost use Rattle.sqlite_value.specs.Value.{owned};
ghost use Rattle.history_sqlite.specs.Causes.{insert_text, update_text, select_text, IsRefused, IsUnanswered, IsRead, FailsToLoad, FailsToMake};
ghost use Rattle.history_sqlite.specs.Columns.{columns_of, row_read, values_of};
ghost use Rattle.history_sqlite.specs.Tables.{Adds, Advances, Makes, Keeps, Gives, Loads};
ghost use Rattle.history_keeper.specs.Changes.{IsTimely};

use crate::columns::{number_of, read_row};
use crate::in_turn::{SELECT_ROWS, put_row, read_in_turn};
use crate::refusal::refusal_of_error;
use history_keeper::{Change, KeeperRefusal, Row, RowState};
use sqlite::types::ValueRef;
use sqlite::{Alter, Connection};
use std::alloc::Global;

/// Makes the change. Where it is told `Ok` and the change suits the rows, it is made. A refusal
/// leaves the rows. Both hold while the disk returns what was written.
pub fn make<D: Alter>(connection: &mut Connection<D>, change: &Change) -> Result<(), KeeperRefusal>
    requires { IsTimely change.now }
    ensures makes { HasCleanDisk (state D.Store connection.new) → OnOk result (Makes (state D.Store connection.old) (state D.Store connection.new) change.now) }
    ensures refused { HasCleanDisk (state D.Store connection.new) → IsTrue (state D.Store connection.new).is_open → OnErr result (Keeps (state D.Store connection.old) (state D.Store connection.new)) }
    ensures cause { HasCleanDisk (state D.Store connection.new) → IfErr result (λ why. FailsToMake why change.now (state D.Store connection.old) (state D.Store connection.new)) }
    ensures clean { HasCleanDisk (state D.Store connection.new) → HasCleanDisk (state D.Store connection.old) }
    ensures was_open { HasCleanDisk (state D.Store connection.new) → IsTrue (state D.Store connection.new).is_open → IsTrue (state D.Store connection.old).is_open }
{
    match change {
        Change::Add(row) => insert(connection, row),
        Change::Advance {
            entry,
            state,
            reason,
            time,
        } => update(connection, *entry, *state, *reason, *time),
    }
}

/// Adds the row to the table. Where it is told `Ok` and the row has the next entry, the table has the
/// row behind the others. A refusal leaves the rows. Both hold while the disk returns what was
/// written.
pub fn insert<D: Alter>(connection: &mut Connection<D>, row: &Row) -> Result<(), KeeperRefusal>
    requires added { row.now.time_added ≤ 2 ^ 63 - 1 }
    requires changed { row.now.time_changed ≤ 2 ^ 63 - 1 }
    ensures adds { HasCleanDisk (state D.Store connection.new) → OnOk result (Adds (state D.Store connection.old) (state D.Store connection.new) row.now) }
    ensures refused { HasCleanDisk (state D.Store connection.new) → IsTrue (state D.Store connection.new).is_open → OnErr result (Keeps (state D.Store connection.old) (state D.Store connection.new)) }
    ensures cause { HasCleanDisk (state D.Store connection.new) → IfErr result (λ why. IsRefused why insert_text (columns_of row.now) (state D.Store connection.old) (state D.Store connection.new)) }
    ensures clean { HasCleanDisk (state D.Store connection.new) → HasCleanDisk (state D.Store connection.old) }
    ensures was_open { HasCleanDisk (state D.Store connection.new) → IsTrue (state D.Store connection.new).is_open → IsTrue (state D.Store connection.old).is_open }
{
    let columns = columns_of_row(row);
    match connection.execute(
        "INSERT INTO history2 VALUES (?1, ?2, ?3, ?4, ?5, ?6, ?7, ?8, ?9, ?10, ?11, ?12, ?13, ?14, ?15, ?16)",
        &columns,
    ) {
        Ok(_) => Ok(()),
        Err(error) => Err(refusal_of_error(error)),
    }
}

/// The columns of a row, in the order of the table.
pub fn columns_of_row(row: &Row) -> [ValueRef<'_>; 16]
    requires added { row.now.time_added ≤ 2 ^ 63 - 1 }
    requires changed { row.now.time_changed ≤ 2 ^ 63 - 1 }
    ensures { bound result ≡ columns_of row.now }
{
    [
        ValueRef::Int(row.entry as i64),
        ValueRef::Text(row.tag.bytes()),
        ValueRef::Int(row.client as i64),
        ValueRef::Blob(row.device.bytes()),
        ValueRef::Text(row.component.bytes()),
        ValueRef::Text(row.version_old.bytes()),
        ValueRef::Text(row.version_new.bytes()),
        ValueRef::Blob(&row.digest),
        ValueRef::Int(row.flags as i64),
        ValueRef::Int(number_of(row.state)),
        ValueRef::Int(row.reason as i64),
        ValueRef::Int(row.time_added as i64),
        ValueRef::Int(row.time_changed as i64),
        ValueRef::Int(row.duration as i64),
        protocol_of(row),
        link_of(row),
    ]
}

// The protocol of a row, and NULL where it has none.
fn protocol_of(row: &Row) -> ValueRef<'_>
    ensures { bound_value (owned result) ≡ or_null Text row.now.protocol }
{
    match &row.protocol {
        Some(protocol) => ValueRef::Text(protocol.bytes()),
        None => ValueRef::Null,
    }
}

// The entry that a row tries again, and NULL where it tries none.
fn link_of(row: &Row) -> ValueRef<'_>
    ensures { bound_value (owned result) ≡ or_null (λ entry. Int (pos entry)) row.now.retry_of }
{
    match row.retry_of {
        Some(entry) => ValueRef::Int(entry as i64),
        None => ValueRef::Null,
    }
}

/// Gives the row with that entry another state. Where it is told `Ok`, that row alone is changed. A
/// refusal leaves the rows. Both hold while the disk returns what was written.
pub fn update<D: Alter>(
    connection: &mut Connection<D>,
    entry: u32,
    reached: RowState,
    reason: u8,
    time: u64,
) -> Result<(), KeeperRefusal>
    requires { time ≤ 2 ^ 63 - 1 }
    ensures advances { HasCleanDisk (state D.Store connection.new) → OnOk result (Advances (state D.Store connection.old) (state D.Store connection.new) entry reached reason time) }
    ensures refused { HasCleanDisk (state D.Store connection.new) → IsTrue (state D.Store connection.new).is_open → OnErr result (Keeps (state D.Store connection.old) (state D.Store connection.new)) }
    ensures cause { HasCleanDisk (state D.Store connection.new) → IfErr result (λ why. IsRefused why update_text (values_of entry reached reason time) (state D.Store connection.old) (state D.Store connection.new)) }
    ensures clean { HasCleanDisk (state D.Store connection.new) → HasCleanDisk (state D.Store connection.old) }
    ensures was_open { HasCleanDisk (state D.Store connection.new) → IsTrue (state D.Store connection.new).is_open → IsTrue (state D.Store connection.old).is_open }
{
    let values = values_of_state(entry, reached, reason, time);
    match connection.execute(
        "UPDATE history2 SET state = ?2, reason = ?3, time_changed = ?4 WHERE entry = ?1",
        &values,
    ) {
        Ok(_) => Ok(()),
        Err(error) => Err(refusal_of_error(error)),
    }
}

/// What the update is given: the entry of a row, and what it gets.
pub fn values_of_state(
    entry: u32,
    reached: RowState,
    reason: u8,
    time: u64,
) -> [ValueRef<'static>; 4]
    requires { time ≤ 2 ^ 63 - 1 }
    ensures { bound result ≡ values_of entry reached reason time }
{
    [
        ValueRef::Int(entry as i64),
        ValueRef::Int(number_of(reached)),
        ValueRef::Int(reason as i64),
        ValueRef::Int(time as i64),
    ]
}

/// The columns of all rows, by their entries. The rows stay, whatever it answers. Both hold while the
/// disk returns what was written.
pub fn select<D: Alter>(connection: &mut Connection<D>) -> Result<Vec<sqlite::Row>, KeeperRefusal>
    ensures gives { HasCleanDisk (state D.Store connection.new) → IfOk result (λ shown. Gives (state D.Store connection.old) (state D.Store connection.new) shown.items) }
    ensures refused { HasCleanDisk (state D.Store connection.new) → IsTrue (state D.Store connection.new).is_open → OnErr result (Keeps (state D.Store connection.old) (state D.Store connection.new)) }
    ensures cause { HasCleanDisk (state D.Store connection.new) → IfErr result (λ why. IsUnanswered why select_text (state D.Store connection.old) (state D.Store connection.new)) }
    ensures shown { HasCleanDisk (state D.Store connection.new) → IfOk result (λ shown. Shown select_text [] (state D.Store connection.old) (state D.Store connection.new) shown.items) }
    ensures clean { HasCleanDisk (state D.Store connection.new) → HasCleanDisk (state D.Store connection.old) }
    ensures was_open { HasCleanDisk (state D.Store connection.new) → IsTrue (state D.Store connection.new).is_open → IsTrue (state D.Store connection.old).is_open }
{
    match connection.query_all(SELECT_ROWS, &[]) {
        Ok(rows) => Ok(rows),
        Err(error) => Err(refusal_of_error(error)),
    }
}

/// All rows, by their entries. It is a fault where a row of the table stands for none. The rows stay,
/// whatever it answers. Both hold while the disk returns what was written. The rows are read one at a time,
/// so the columns of all of them aren't held beside them. Where one stands for no row, or memory is wanting
/// for one, the select is asked once more for its whole answer, which tells the refusal.
pub fn load_rows<D: Alter>(
    connection: &mut Connection<D>,
    alloc: Global,
) -> Result<Vec<Row>, KeeperRefusal>
    ensures loads { HasCleanDisk (state D.Store connection.new) → IfOk result (λ loaded. Loads (state D.Store connection.old) (state D.Store connection.new) loaded.items) }
    ensures read { HasCleanDisk (state D.Store connection.new) → IfOk result (λ loaded. IsRead (state D.Store connection.old) (state D.Store connection.new) loaded.items) }
    ensures refused { HasCleanDisk (state D.Store connection.new) → IsTrue (state D.Store connection.new).is_open → OnErr result (Keeps (state D.Store connection.old) (state D.Store connection.new)) }
    ensures cause { HasCleanDisk (state D.Store connection.new) → IfErr result (λ why. FailsToLoad why (state D.Store connection.old) (state D.Store connection.new)) }
    ensures clean { HasCleanDisk (state D.Store connection.new) → HasCleanDisk (state D.Store connection.old) }
    ensures was_open { HasCleanDisk (state D.Store connection.new) → IsTrue (state D.Store connection.new).is_open → IsTrue (state D.Store connection.old).is_open }
{
    match read_in_turn(connection, alloc) {
        Ok(Some(rows)) => Ok(rows),
        Ok(None) => load_at_once(connection, alloc),
        Err(error) => Err(refusal_of_error(error)),
    }
}

// All rows, as `load_rows` gives them, while the columns of all are held.
fn load_at_once<D: Alter>(
    connection: &mut Connection<D>,
    alloc: Global,
) -> Result<Vec<Row>, KeeperRefusal>
    ensures loads { HasCleanDisk (state D.Store connection.new) → IfOk result (λ loaded. Loads (state D.Store connection.old) (state D.Store connection.new) loaded.items) }
    ensures read { HasCleanDisk (state D.Store connection.new) → IfOk result (λ loaded. IsRead (state D.Store connection.old) (state D.Store connection.new) loaded.items) }
    ensures refused { HasCleanDisk (state D.Store connection.new) → IsTrue (state D.Store connection.new).is_open → OnErr result (Keeps (state D.Store connection.old) (state D.Store connection.new)) }
    ensures cause { HasCleanDisk (state D.Store connection.new) → IfErr result (λ why. FailsToLoad why (state D.Store connection.old) (state D.Store connection.new)) }
    ensures clean { HasCleanDisk (state D.Store connection.new) → HasCleanDisk (state D.Store connection.old) }
    ensures was_open { HasCleanDisk (state D.Store connection.new) → IsTrue (state D.Store connection.new).is_open → IsTrue (state D.Store connection.old).is_open }
{
    let table = select(connection)?;
    read_rows(alloc, &table)
}

// Reads each row.
fn read_rows(alloc: Global, table: &[sqlite::Row]) -> Result<Vec<Row>, KeeperRefusal>
    ensures read { IfOk result (λ rows. map Some rows.items ≡ map row_read table.now) }
    ensures cause { result ≡ Err KeeperRefusal.Fault → Any (λ columns. row_read columns ≡ None) table.now }
{
    let mut rows = Vec::new(alloc);
    for columns in table {
        match read_row(columns) {
            Some(row) => put_row(&mut rows, &row)?,
            None => return Err(KeeperRefusal::Fault),
        }
    }
    Ok(rows)
}
