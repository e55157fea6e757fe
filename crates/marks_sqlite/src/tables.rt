//! The table of marks: how it is made, and where it is taken as it is.
ghost use Rattle.std.specs.Prelude.{◌≡◌, ◌⊎◌, IsTrue, OnOk, OnErr, IfErr, []};
ghost use Rattle.sqlite.specs.Held.{state};
ghost use Rattle.sqlite.specs.State.{HasCleanDisk, Survives, Executes};
ghost use Rattle.marks_sqlite.specs.Causes.{FailsToOpen};
ghost use Rattle.marks_sqlite.specs.Finding.{HasNone, HasTable};
ghost use Rattle.marks_sqlite.specs.Tables.{create_text, LeavesTable, MakesTable, Opens};

use crate::finding::{Found, find_table};
use history_keeper::KeeperRefusal;
use history_sqlite::refusal::refusal_of_error;
use sqlite::{Alter, Connection, Error, ErrorCode};

/// Makes the table where there is none. Else it has to be ours, and it is a fault where it isn't. The connection must be
/// in no transaction. Where it is told `Ok`, the marks are left, and an empty database has the table and no marks. Where
/// it is refused, the marks are left, and an empty database is left empty. All this holds while the disk returns what
/// was written.
pub fn open_table<D: Alter>(connection: &mut Connection<D>) -> Result<(), KeeperRefusal>
    ensures opens { HasCleanDisk (state D.Store connection.new) → OnOk result (Opens (state D.Store connection.old) (state D.Store connection.new)) }
    ensures adopted { OnOk result (HasNone connection.old.schema ⊎ HasTable connection.old.schema) }
    ensures refused { HasCleanDisk (state D.Store connection.new) → IsTrue (state D.Store connection.new).is_open → OnErr result (LeavesTable (state D.Store connection.old) (state D.Store connection.new)) }
    ensures cause { HasCleanDisk (state D.Store connection.new) → IfErr result (λ why. FailsToOpen D.Store why connection.old connection.new) }
    ensures clean { HasCleanDisk (state D.Store connection.new) → HasCleanDisk (state D.Store connection.old) }
{
    if !connection.is_autocommit() {
        return Err(KeeperRefusal::Fault);
    }
    match find_table(connection.schema()) {
        Found::Empty => match make_table(connection) {
            Ok(()) => Ok(()),
            Err(error) => Err(refusal_of_error(error)),
        },
        Found::Ours => Ok(()),
        Found::Other => Err(KeeperRefusal::Fault),
    }
}

/// Makes the table. The statement commits by itself, so the connection must be in no transaction. Where it is told
/// `Ok`, an empty database has the table and no marks. Where it is refused, the marks are left, and an empty database is
/// left empty. A crash leaves what it could leave before, or the table without a mark. All this holds while the disk
/// returns what was written.
pub fn make_table<D: Alter>(connection: &mut Connection<D>) -> Result<(), Error>
    ensures opens { HasCleanDisk (state D.Store connection.new) → OnOk result (Opens (state D.Store connection.old) (state D.Store connection.new)) }
    ensures refused { HasCleanDisk (state D.Store connection.new) → IsTrue (state D.Store connection.new).is_open → OnErr result (LeavesTable (state D.Store connection.old) (state D.Store connection.new)) }
    ensures whole { Survives (state D.Store connection.old) (state D.Store connection.new) (MakesTable (state D.Store connection.old)) }
    ensures cause { HasCleanDisk (state D.Store connection.new) → IfErr result (λ e. IsTrue connection.old.in_transaction ⊎ Executes create_text [] (state D.Store connection.old) (state D.Store connection.new) (Err e)) }
    ensures clean { HasCleanDisk (state D.Store connection.new) → HasCleanDisk (state D.Store connection.old) }
{
    if !connection.is_autocommit() {
        return Err(Error::SqliteFailure(ErrorCode::TransactionState));
    }
    match connection.execute(
        "CREATE TABLE reported (place INTEGER PRIMARY KEY, entry INTEGER NOT NULL UNIQUE) STRICT",
        &[],
    ) {
        Ok(_) => Ok(()),
        Err(error) => Err(error),
    }
}
