//! The history's tables: how they are made, and where they are taken as they are or taken over.
ghost use Rattle.std.specs.Prelude.{◌≡◌, ◌⊎◌, [], IsTrue, OnOk, OnErr, IfErr};
ghost use Rattle.sqlite.specs.Held.{state};
ghost use Rattle.sqlite.specs.State.{HasCleanDisk, Survives};
ghost use Rattle.history_sqlite.specs.Causes.{FailsToOpen};
ghost use Rattle.history_sqlite.specs.Finding.{IsAdopted, IsNotMade};
ghost use Rattle.history_sqlite.specs.Tables.{LeavesTables, Opens, MakesBoth};

use crate::finding::{Found, find_tables};
use crate::refusal::refusal_of_error;
use crate::taking_over::take_over;
use history_keeper::KeeperRefusal;
use sqlite::{Alter, Connection, Error, ErrorCode};

/// Makes both tables where the history has none, and takes over the rows of schema 1. Else the tables have
/// to be ours, and it is a fault where they aren't. The connection must be in no transaction. Where it is
/// told `Ok`, the rows are left, those of schema 1 are taken over, and an empty database has the tables,
/// their number and no rows. Where it is refused, the rows are left, in their schema, and an empty database
/// is left empty. All this holds while the disk returns what was written.
pub fn open_tables<D: Alter>(connection: &mut Connection<D>) -> Result<(), KeeperRefusal>
    ensures opens { HasCleanDisk (state D.Store connection.new) → OnOk result (Opens (state D.Store connection.old) (state D.Store connection.new)) }
    ensures adopted { HasCleanDisk (state D.Store connection.new) → OnOk result (IsAdopted D.Store connection.old) }
    ensures refused { HasCleanDisk (state D.Store connection.new) → IsTrue (state D.Store connection.new).is_open → OnErr result (LeavesTables (state D.Store connection.old) (state D.Store connection.new)) }
    ensures cause { HasCleanDisk (state D.Store connection.new) → IfErr result (λ why. FailsToOpen D.Store why connection.old connection.new) }
    ensures clean { HasCleanDisk (state D.Store connection.new) → HasCleanDisk (state D.Store connection.old) }
{
    if !connection.is_autocommit() {
        return Err(KeeperRefusal::Fault);
    }
    match find_tables(connection)? {
        Found::Empty => match make_tables(connection) {
            Ok(()) => Ok(()),
            Err(error) => Err(refusal_of_error(error)),
        },
        Found::Ours => Ok(()),
        Found::Older => take_over(connection),
        Found::Other => Err(KeeperRefusal::Fault),
    }
}

/// Makes both tables and writes the number, in one transaction. Where it is told `Ok`, an empty database
/// has the tables, their number and no rows. Where it is refused, the rows are left, and an empty database
/// is left empty. A crash leaves what it could leave before, or both tables with the number. All this holds
/// while the disk returns what was written.
pub fn make_tables<D: Alter>(connection: &mut Connection<D>) -> Result<(), Error>
    ensures opens { HasCleanDisk (state D.Store connection.new) → OnOk result (Opens (state D.Store connection.old) (state D.Store connection.new)) }
    ensures refused { HasCleanDisk (state D.Store connection.new) → IsTrue (state D.Store connection.new).is_open → OnErr result (LeavesTables (state D.Store connection.old) (state D.Store connection.new)) }
    ensures whole { Survives (state D.Store connection.old) (state D.Store connection.new) (MakesBoth (state D.Store connection.old)) }
    ensures cause { HasCleanDisk (state D.Store connection.new) → IfErr result (IsNotMade D.Store connection.old) }
    ensures clean { HasCleanDisk (state D.Store connection.new) → HasCleanDisk (state D.Store connection.old) }
{
    if !connection.is_autocommit() {
        return Err(Error::SqliteFailure(ErrorCode::TransactionState));
    }
    let mut transaction = connection.transaction();
    transaction.execute("CREATE TABLE schema (number INTEGER NOT NULL) STRICT", &[])?;
    transaction.execute(
        "CREATE TABLE history2 (entry INTEGER PRIMARY KEY, tag TEXT NOT NULL UNIQUE, client INTEGER NOT NULL, device BLOB NOT NULL, component TEXT NOT NULL, version_old TEXT NOT NULL, version_new TEXT NOT NULL, digest BLOB NOT NULL, flags INTEGER NOT NULL, state INTEGER NOT NULL, reason INTEGER NOT NULL, time_added INTEGER NOT NULL, time_changed INTEGER NOT NULL, duration INTEGER NOT NULL, protocol TEXT, retry_of INTEGER) STRICT",
        &[],
    )?;
    transaction.execute("INSERT INTO schema VALUES (2)", &[])?;
    transaction.commit()?;
    Ok(())
}
