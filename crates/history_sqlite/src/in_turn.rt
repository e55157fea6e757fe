//! The rows of the table, read one after the other.
ghost use Rattle.std.specs.Prelude.{◌≡◌, ◌≢◌, ◌++◌, ◌∷◌, [], map, Some, IsTrue, IfOk, IfErr, IfSome, OnOk, OnErr};
ghost use Rattle.sqlite.specs.Given.{FailsToAdvance};
ghost use Rattle.sqlite.specs.Held.{state};
ghost use Rattle.sqlite.specs.State.{FailsToQuery, HasCleanDisk, IsUnchanged, Survives};
ghost use Rattle.history_sqlite.specs.Causes.{IsRead, select_text};
ghost use Rattle.history_sqlite.specs.Columns.{row_read};
ghost use Rattle.history_sqlite.specs.InTurn.{FailsOn, IsBegun, ReadsAll, ReadsAlone, Turned};

use crate::columns::read_row;
use history_keeper::{KeeperRefusal, Row};
use sqlite::{Alter, Connection, Error, Rows};
use std::alloc::Global;
use std::slice;

/// The statement that shows all rows, by their entries.
pub const SELECT_ROWS: &str =
    "SELECT entry, tag, client, device, component, version_old, version_new, digest, flags, state, reason, time_added, time_changed, duration, protocol, retry_of FROM history2 ORDER BY entry";

/// What one turn did: it read a row, there was none left, or the row is none or memory was wanting for it.
#[derive(Clone, Copy, Debug)]
pub enum Turn {
    Read,
    End,
    Stuck,
}

/// All rows that the select shows, read one at a time: the columns of a row are held no longer than it is read.
/// `None` where one of them stands for none, or memory is wanting for one. Then nothing is known of the others.
pub fn read_in_turn<D: Alter>(
    connection: &mut Connection<D>,
    alloc: Global,
) -> Result<Option<Vec<Row>>, Error>
    ensures read { HasCleanDisk (state D.Store connection.new) → IfOk result (λ found. IfSome found (λ read. IsRead (state D.Store connection.old) (state D.Store connection.new) read.items)) }
    ensures same { HasCleanDisk (state D.Store connection.new) → OnOk result (IsUnchanged (state D.Store connection.old) (state D.Store connection.new)) }
    ensures failed { HasCleanDisk (state D.Store connection.new) → IfErr result (FailsToQuery select_text [] (state D.Store connection.old) (state D.Store connection.new)) }
    ensures survives { Survives (state D.Store connection.old) (state D.Store connection.new) (λ _. ⊥) }
{
    let mut shown = connection.query(SELECT_ROWS, &[])?;
    read_on(&mut shown, alloc)
}

// The rows that are still to come.
fn read_on<D: Alter>(shown: &mut Rows<'_, D>, alloc: Global) -> Result<Option<Vec<Row>>, Error>
    ensures same_reference { shown.new.conn.ghost_name ≡ shown.old.conn.ghost_name }
    ensures read { HasCleanDisk (state D.Store shown.new.conn.now) → IfOk result (λ found. IfSome found (λ read. ReadsAll D.Store shown.old.conn.now shown.new.conn.now read.items)) }
    ensures same { HasCleanDisk (state D.Store shown.new.conn.now) → OnOk result (ReadsAlone D.Store shown.old.conn.now shown.new.conn.now) }
    ensures failed { HasCleanDisk (state D.Store shown.new.conn.now) → IfErr result (FailsOn D.Store shown.old.conn.now shown.new.conn.now) }
    ensures survives { Survives (state D.Store shown.old.conn.now) (state D.Store shown.new.conn.now) (λ _. ⊥) }
{
    let mut read = Vec::new(alloc);
    'turns: for _ in 0..u64::MAX {
        match read_next(shown, &mut read)? {
            Turn::Read => {}
            Turn::End => return Ok(Some(read)),
            Turn::Stuck => return Ok(None),
        }
    }
    Ok(None)
}

// The next of them is put behind those that were read.
fn read_next<D: Alter>(shown: &mut Rows<'_, D>, read: &mut Vec<Row>) -> Result<Turn, Error>
    ensures same_reference { shown.new.conn.ghost_name ≡ shown.old.conn.ghost_name }
    ensures turned { HasCleanDisk (state D.Store shown.new.conn.now) → IfOk result (λ turn. Turned D.Store turn shown.old.conn.now shown.new.conn.now read.old.items read.new.items) }
    ensures same { HasCleanDisk (state D.Store shown.new.conn.now) → OnOk result (IsUnchanged (state D.Store shown.old.conn.now) (state D.Store shown.new.conn.now)) }
    ensures failed { HasCleanDisk (state D.Store shown.new.conn.now) → IfErr result (FailsToAdvance D.Store shown.old.conn.now shown.new.conn.now) }
    ensures survives { Survives (state D.Store shown.old.conn.now) (state D.Store shown.new.conn.now) (λ _. ⊥) }
{
    shown.advance()?;
    match shown.get() {
        Some(columns) => Ok(turn_of(columns, read)),
        None => Ok(Turn::End),
    }
}

// The row that has these columns is put behind the others.
fn turn_of(columns: &sqlite::Row, read: &mut Vec<Row>) -> Turn
    ensures read { result ≡ Turn.Read → map Some read.new.items ≡ map Some read.old.items ++ row_read columns.now ∷ [] }
    ensures goes_on { result ≢ Turn.End }
{
    match read_row(columns) {
        Some(row) => match put_row(read, &row) {
            Ok(()) => Turn::Read,
            Err(_) => Turn::Stuck,
        },
        None => Turn::Stuck,
    }
}

/// Puts a row behind the others.
pub fn put_row(rows: &mut Vec<Row>, row: &Row) -> Result<(), KeeperRefusal>
    ensures put { OnOk result (rows.new.items ≡ rows.old.items ++ row.now ∷ []) }
    ensures wants { result ≢ Err KeeperRefusal.Fault }
{
    match rows.extend_from_slice(slice::from_ref(row)) {
        Ok(()) => Ok(()),
        Err(_) => Err(KeeperRefusal::NoMemory),
    }
}
