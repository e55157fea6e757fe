//! How the rows of schema 1 are taken over into the table of the rows.
ghost use Rattle.std.specs.Prelude.{◌≡◌, ◌≤◌, ◌-◌, ◌^◌, ◌∷◌, [], pos, IsTrue, IsSome, All, Any, None, IfOk, IfErr, OnOk, OnErr};
ghost use Rattle.sqlite.specs.declared.types.Value.TheVariants.{Int};
ghost use Rattle.sqlite.specs.Held.{state};
ghost use Rattle.sqlite.specs.State.{HasCleanDisk, KeepsCommit, Shown, Survives};
ghost use Rattle.sqlite.specs.Values.{bound};
ghost use Rattle.history_sqlite.specs.Causes.{older_select_text, OlderStand, OlderStood, FailsToLoadOlder, FailsToTakeOver, IsNotCopied, IsNotWritten, IsUnanswered};
ghost use Rattle.history_sqlite.specs.Columns.{older_row_read};
ghost use Rattle.history_sqlite.specs.Tables.{CountsOlder, GivesOlder, KeepsOlder, TakesAll, TakesOver};
ghost use Rattle.history_sqlite.specs.Taking.{Copies, CopiesAll, CopiesOver, MayWriteOver, WritesOver};

use crate::columns::read_older_row;
use crate::refusal::refusal_of_error;
use history_keeper::KeeperRefusal;
use sqlite::types::ValueRef;
use sqlite::{Alter, Connection, Error, ErrorCode, Transaction};

/// Takes over the rows of schema 1: makes the table of the rows, copies them to it, with the values for
/// what schema 1 doesn't tell, and sets the number, in one transaction. The older table stays. It is a fault
/// where a row of that table stands for none, and then nothing is written. Where it is refused, the database
/// is one of schema 1 as before. A crash leaves what it could leave before, or the number and all rows. All
/// this holds while the disk returns what was written.
pub fn take_over<D: Alter>(connection: &mut Connection<D>) -> Result<(), KeeperRefusal>
    ensures takes { HasCleanDisk (state D.Store connection.new) → OnOk result (TakesOver (state D.Store connection.old) (state D.Store connection.new)) }
    ensures stand { HasCleanDisk (state D.Store connection.new) → OnOk result (OlderStood D.Store connection.old) }
    ensures refused { HasCleanDisk (state D.Store connection.new) → IsTrue (state D.Store connection.new).is_open → OnErr result (KeepsOlder (state D.Store connection.old) (state D.Store connection.new)) }
    ensures whole { Survives (state D.Store connection.old) (state D.Store connection.new) (TakesAll (state D.Store connection.old)) }
    ensures cause { HasCleanDisk (state D.Store connection.new) → IfErr result (λ why. FailsToTakeOver D.Store why connection.old) }
{
    let count = count_older_rows(connection)?;
    match copy_over(connection, count) {
        Ok(()) => Ok(()),
        Err(error) => Err(refusal_of_error(error)),
    }
}

// How many rows schema 1 has. It is a fault where one of them stands for none. They stay, whatever it answers.
fn count_older_rows<D: Alter>(connection: &mut Connection<D>) -> Result<usize, KeeperRefusal>
    ensures counts { HasCleanDisk (state D.Store connection.new) → IfOk result (λ count. CountsOlder (state D.Store connection.old) (state D.Store connection.new) count) }
    ensures small { IfOk result (λ count. count ≤ 2 ^ 63 - 1) }
    ensures stand { HasCleanDisk (state D.Store connection.new) → OnOk result (OlderStand (state D.Store connection.old) (state D.Store connection.new)) }
    ensures refused { HasCleanDisk (state D.Store connection.new) → IsTrue (state D.Store connection.new).is_open → OnErr result (KeepsOlder (state D.Store connection.old) (state D.Store connection.new)) }
    ensures cause { HasCleanDisk (state D.Store connection.new) → IfErr result (λ why. FailsToLoadOlder why (state D.Store connection.old) (state D.Store connection.new)) }
    ensures survives { Survives (state D.Store connection.old) (state D.Store connection.new) (TakesAll (state D.Store connection.old)) }
{
    let table = select_older(connection)?;
    test_older_rows(&table)?;
    Ok(table.len())
}

// The columns of all rows of schema 1, by their entries.
fn select_older<D: Alter>(connection: &mut Connection<D>) -> Result<Vec<sqlite::Row>, KeeperRefusal>
    ensures gives { HasCleanDisk (state D.Store connection.new) → IfOk result (λ shown. GivesOlder (state D.Store connection.old) (state D.Store connection.new) shown.items) }
    ensures refused { HasCleanDisk (state D.Store connection.new) → IsTrue (state D.Store connection.new).is_open → OnErr result (KeepsOlder (state D.Store connection.old) (state D.Store connection.new)) }
    ensures cause { HasCleanDisk (state D.Store connection.new) → IfErr result (λ why. IsUnanswered why older_select_text (state D.Store connection.old) (state D.Store connection.new)) }
    ensures shown { HasCleanDisk (state D.Store connection.new) → IfOk result (λ shown. Shown older_select_text [] (state D.Store connection.old) (state D.Store connection.new) shown.items) }
    ensures survives { Survives (state D.Store connection.old) (state D.Store connection.new) (TakesAll (state D.Store connection.old)) }
{
    match connection.query_all(
        "SELECT entry, tag, client, device, component, version_old, version_new, digest, flags, state, reason, time_added, time_changed FROM history ORDER BY entry",
        &[],
    ) {
        Ok(rows) => Ok(rows),
        Err(error) => Err(refusal_of_error(error)),
    }
}

// Whether each of them stands for a row.
fn test_older_rows(table: &[sqlite::Row]) -> Result<(), KeeperRefusal>
    ensures stand { OnOk result (All (λ columns. IsSome (older_row_read columns)) table.now) }
    ensures cause { IfErr result (λ why. (why ≡ KeeperRefusal.Fault) × Any (λ columns. older_row_read columns ≡ None) table.now) }
{
    for columns in table {
        if read_older_row(columns).is_none() {
            return Err(KeeperRefusal::Fault);
        }
    }
    Ok(())
}

// Makes the table of the rows, copies so many rows to it, and sets the number, in one transaction.
fn copy_over<D: Alter>(connection: &mut Connection<D>, count: usize) -> Result<(), Error>
    requires { count ≤ 2 ^ 63 - 1 }
    ensures writes { HasCleanDisk (state D.Store connection.new) → OnOk result (WritesOver (state D.Store connection.old) (state D.Store connection.new) count) }
    ensures refused { HasCleanDisk (state D.Store connection.new) → IsTrue (state D.Store connection.new).is_open → OnErr result (KeepsOlder (state D.Store connection.old) (state D.Store connection.new)) }
    ensures whole { Survives (state D.Store connection.old) (state D.Store connection.new) (MayWriteOver (state D.Store connection.old) count) }
    ensures cause { HasCleanDisk (state D.Store connection.new) → IfErr result (IsNotCopied D.Store connection.old) }
{
    if !connection.is_autocommit() {
        return Err(Error::SqliteFailure(ErrorCode::TransactionState));
    }
    let mut transaction = connection.transaction();
    write_over(&mut transaction, count)?;
    transaction.commit()?;
    Ok(())
}

// The statements of the transaction.
fn write_over<D: Alter>(transaction: &mut Transaction<'_, D>, count: usize) -> Result<(), Error>
    requires { count ≤ 2 ^ 63 - 1 }
    ensures same_reference { transaction.new.conn.ghost_name ≡ transaction.old.conn.ghost_name }
    ensures copies { HasCleanDisk (state D.Store transaction.new.conn.now) → OnOk result (CopiesOver (state D.Store transaction.old.conn.now) (state D.Store transaction.new.conn.now) count) }
    ensures cause { HasCleanDisk (state D.Store transaction.new.conn.now) → IsTrue transaction.old.conn.now.in_transaction → IfErr result (IsNotWritten D.Store) }
    ensures inside { HasCleanDisk (state D.Store transaction.new.conn.now) → IsTrue transaction.old.conn.now.in_transaction → OnOk result (IsTrue transaction.new.conn.now.in_transaction) }
    ensures kept { HasCleanDisk (state D.Store transaction.new.conn.now) → IsTrue transaction.old.conn.now.in_transaction → KeepsCommit (state D.Store transaction.old.conn.now) (state D.Store transaction.new.conn.now) }
    ensures survives { Survives (state D.Store transaction.old.conn.now) (state D.Store transaction.new.conn.now) (λ _. ⊥) }
{
    transaction.execute(
        "CREATE TABLE history2 (entry INTEGER PRIMARY KEY, tag TEXT NOT NULL UNIQUE, client INTEGER NOT NULL, device BLOB NOT NULL, component TEXT NOT NULL, version_old TEXT NOT NULL, version_new TEXT NOT NULL, digest BLOB NOT NULL, flags INTEGER NOT NULL, state INTEGER NOT NULL, reason INTEGER NOT NULL, time_added INTEGER NOT NULL, time_changed INTEGER NOT NULL, duration INTEGER NOT NULL, protocol TEXT, retry_of INTEGER) STRICT",
        &[],
    )?;
    insert_each(transaction, count)?;
    transaction.execute("UPDATE schema SET number = 2", &[])?;
    Ok(())
}

// Copies so many rows to the table of the rows, a block of them by one insert in each turn.
fn insert_each<D: Alter>(transaction: &mut Transaction<'_, D>, count: usize) -> Result<(), Error>
    requires { count ≤ 2 ^ 63 - 1 }
    ensures same_reference { transaction.new.conn.ghost_name ≡ transaction.old.conn.ghost_name }
    ensures copies { HasCleanDisk (state D.Store transaction.new.conn.now) → OnOk result (CopiesAll (state D.Store transaction.old.conn.now) (state D.Store transaction.new.conn.now) count) }
    ensures inside { HasCleanDisk (state D.Store transaction.new.conn.now) → IsTrue transaction.old.conn.now.in_transaction → OnOk result (IsTrue transaction.new.conn.now.in_transaction) }
    ensures cause { HasCleanDisk (state D.Store transaction.new.conn.now) → IsTrue transaction.old.conn.now.in_transaction → IfErr result (IsNotWritten D.Store) }
    ensures kept { HasCleanDisk (state D.Store transaction.new.conn.now) → IsTrue transaction.old.conn.now.in_transaction → KeepsCommit (state D.Store transaction.old.conn.now) (state D.Store transaction.new.conn.now) }
    ensures survives { Survives (state D.Store transaction.old.conn.now) (state D.Store transaction.new.conn.now) (λ _. ⊥) }
{
    for turn in 0..count / 256 + 1 {
        insert_block(transaction, turn * 256)?;
    }
    Ok(())
}

// Puts a block of rows behind those of the table, where so many were copied.
fn insert_block<D: Alter>(transaction: &mut Transaction<'_, D>, from: usize) -> Result<(), Error>
    requires { from ≤ 2 ^ 63 - 1 }
    ensures same_reference { transaction.new.conn.ghost_name ≡ transaction.old.conn.ghost_name }
    ensures copies { HasCleanDisk (state D.Store transaction.new.conn.now) → OnOk result (Copies (state D.Store transaction.old.conn.now) (state D.Store transaction.new.conn.now) from) }
    ensures inside { HasCleanDisk (state D.Store transaction.new.conn.now) → IsTrue transaction.old.conn.now.in_transaction → OnOk result (IsTrue transaction.new.conn.now.in_transaction) }
    ensures cause { HasCleanDisk (state D.Store transaction.new.conn.now) → IsTrue transaction.old.conn.now.in_transaction → IfErr result (IsNotWritten D.Store) }
    ensures kept { HasCleanDisk (state D.Store transaction.new.conn.now) → IsTrue transaction.old.conn.now.in_transaction → KeepsCommit (state D.Store transaction.old.conn.now) (state D.Store transaction.new.conn.now) }
    ensures survives { Survives (state D.Store transaction.old.conn.now) (state D.Store transaction.new.conn.now) (λ _. ⊥) }
{
    let values = values_after(from);
    transaction.execute(
        "INSERT INTO history2 SELECT entry, tag, client, device, component, version_old, version_new, digest, flags, state, reason, time_added, time_changed, 0, NULL, NULL FROM history WHERE entry > ?1 ORDER BY entry LIMIT 256",
        &values,
    )?;
    Ok(())
}

// What the insert of a block is given: the entry after which it begins.
fn values_after(entry: usize) -> [ValueRef<'static>; 1]
    requires { entry ≤ 2 ^ 63 - 1 }
    ensures { bound result ≡ Int (pos entry) ∷ [] }
{
    [ValueRef::Int(entry as i64)]
}
