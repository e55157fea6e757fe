//! The two statements on the table. Each is one call, outside any transaction.
ghost use Rattle.std.specs.Prelude.{◌≡◌, None, Some, [], IsTrue, map, Any, IfOk, IfErr, OnOk, OnErr};
ghost use Rattle.sqlite.specs.Held.{state};
ghost use Rattle.sqlite.specs.State.{HasCleanDisk, Shown};
ghost use Rattle.sqlite.specs.Values.{bound};
ghost use Rattle.history_sqlite.specs.Causes.{IsUnanswered};
ghost use Rattle.marks_sqlite.specs.Causes.{entry_read, select_text, FailsToLoad, FailsToMark};
ghost use Rattle.marks_sqlite.specs.Tables.{shown_of, Adds, Gives, Keeps, Loads};

use history_keeper::KeeperRefusal;
use history_sqlite::columns::integer_at;
use history_sqlite::refusal::refusal_of_error;
use sqlite::types::ValueRef;
use sqlite::{Alter, Connection};
use std::alloc::Global;

/// Marks the entry. Where it is told `Ok`, the table has it behind the others. A refusal leaves the marks. Both hold
/// while the disk returns what was written.
pub fn insert<D: Alter>(connection: &mut Connection<D>, entry: u32) -> Result<(), KeeperRefusal>
    ensures adds { HasCleanDisk (state D.Store connection.new) → OnOk result (Adds (state D.Store connection.old) (state D.Store connection.new) entry) }
    ensures refused { HasCleanDisk (state D.Store connection.new) → IsTrue (state D.Store connection.new).is_open → OnErr result (Keeps (state D.Store connection.old) (state D.Store connection.new)) }
    ensures cause { HasCleanDisk (state D.Store connection.new) → IfErr result (λ why. FailsToMark why entry (state D.Store connection.old) (state D.Store connection.new)) }
    ensures clean { HasCleanDisk (state D.Store connection.new) → HasCleanDisk (state D.Store connection.old) }
    ensures was_open { HasCleanDisk (state D.Store connection.new) → IsTrue (state D.Store connection.new).is_open → IsTrue (state D.Store connection.old).is_open }
{
    let values = values_of_entry(entry);
    match connection.execute("INSERT INTO reported (entry) VALUES (?1)", &values) {
        Ok(_) => Ok(()),
        Err(error) => Err(refusal_of_error(error)),
    }
}

/// What the insert is given.
pub fn values_of_entry(entry: u32) -> [ValueRef<'static>; 1]
    ensures { bound result ≡ shown_of entry }
{
    [ValueRef::Int(entry as i64)]
}

/// The column of all marks, by their places. The marks stay, whatever it answers. Both hold while the disk returns what
/// was written.
pub fn select<D: Alter>(connection: &mut Connection<D>) -> Result<Vec<sqlite::Row>, KeeperRefusal>
    ensures gives { HasCleanDisk (state D.Store connection.new) → IfOk result (λ shown. Gives (state D.Store connection.old) (state D.Store connection.new) shown.items) }
    ensures refused { HasCleanDisk (state D.Store connection.new) → IsTrue (state D.Store connection.new).is_open → OnErr result (Keeps (state D.Store connection.old) (state D.Store connection.new)) }
    ensures cause { HasCleanDisk (state D.Store connection.new) → IfErr result (λ why. IsUnanswered why select_text (state D.Store connection.old) (state D.Store connection.new)) }
    ensures shown { HasCleanDisk (state D.Store connection.new) → IfOk result (λ shown. Shown select_text [] (state D.Store connection.old) (state D.Store connection.new) shown.items) }
    ensures clean { HasCleanDisk (state D.Store connection.new) → HasCleanDisk (state D.Store connection.old) }
    ensures was_open { HasCleanDisk (state D.Store connection.new) → IsTrue (state D.Store connection.new).is_open → IsTrue (state D.Store connection.old).is_open }
{
    match connection.query_all("SELECT entry FROM reported ORDER BY place", &[]) {
        Ok(rows) => Ok(rows),
        Err(error) => Err(refusal_of_error(error)),
    }
}

/// All marks, by their places. It is a fault where a number of the table is no entry. The marks stay, whatever it
/// answers. Both hold while the disk returns what was written.
pub fn load_marks<D: Alter>(
    connection: &mut Connection<D>,
    alloc: Global,
) -> Result<Vec<u32>, KeeperRefusal>
    ensures loads { HasCleanDisk (state D.Store connection.new) → IfOk result (λ loaded. Loads (state D.Store connection.old) (state D.Store connection.new) loaded.items) }
    ensures refused { HasCleanDisk (state D.Store connection.new) → IsTrue (state D.Store connection.new).is_open → OnErr result (Keeps (state D.Store connection.old) (state D.Store connection.new)) }
    ensures cause { HasCleanDisk (state D.Store connection.new) → IfErr result (λ why. FailsToLoad why (state D.Store connection.old) (state D.Store connection.new)) }
    ensures clean { HasCleanDisk (state D.Store connection.new) → HasCleanDisk (state D.Store connection.old) }
    ensures was_open { HasCleanDisk (state D.Store connection.new) → IsTrue (state D.Store connection.new).is_open → IsTrue (state D.Store connection.old).is_open }
{
    let table = select(connection)?;
    read_entries(alloc, &table)
}

// Reads each entry.
fn read_entries(alloc: Global, table: &[sqlite::Row]) -> Result<Vec<u32>, KeeperRefusal>
    ensures read { IfOk result (λ entries. map Some entries.items ≡ map entry_read table.now) }
    ensures cause { result ≡ Err KeeperRefusal.Fault → Any (λ columns. entry_read columns ≡ None) table.now }
{
    let mut entries = Vec::new(alloc);
    for columns in table {
        match read_entry(columns) {
            Some(entry) => match entries.push(entry) {
                Ok(()) => {}
                Err(_) => return Err(KeeperRefusal::NoMemory),
            },
            None => return Err(KeeperRefusal::Fault),
        }
    }
    Ok(entries)
}

// The entry that the select showed, where it is one.
fn read_entry(columns: &sqlite::Row) -> Option<u32>
    ensures { result ≡ entry_read columns.now }
{
    let number = integer_at(columns, 0)?;
    if number < 1 << 32 {
        Some(number as u32)
    } else {
        None
    }
}
