//! The keeper that the program runs over: the history in its file.
//!
//! `HistoryFile` is `SqlKeeper` over a file that may have held anything. It has a name of its own, since the type of the
//! store is large: a caller that is generic in its keeper then proves nothing of the store.
#![tactic(auto)]

ghost use Rattle.std.specs.Prelude.{◌≡◌, ◌≤◌, ◌≢◌, ◌⊎◌, List, None, IfOk, OnOk, OnErr};
ghost use denote.Param.Send.{IsSend};
ghost use Rattle.sqlite.specs.Files.{over_files};
ghost use Rattle.sqlite.specs.State.{HasCleanDisk};
ghost use Rattle.history_keeper.specs.declared.row.Row.{Row};
ghost use Rattle.history_sqlite.specs.Opened.{StartHolds};
ghost use Rattle.history_sqlite.specs.Telling.{database, TellsHeld};
ghost use Rattle.history_file.specs.contracts.HistoryFile.{the_row};

pub mod on_heap;

use history_keeper::{Change, Keeper, KeeperRefusal, Row};
use history_sqlite::SqlKeeper;
pub use on_heap::OnHeap;
use sqlite::{File, FileStore, Start, Unknown};
use std::alloc::Global;
use std::rt::HostRuntime;

/// The history in a file.
pub struct HistoryFile {
    /// The keeper over the file's store.
    pub keeper: SqlKeeper<FileStore<File>>,
}

// It is written out, so that a caller does not prove again how each part is dropped.
impl Drop for HistoryFile {
    fn drop(self) {
        let HistoryFile { keeper: _ } = self;
    }
}

impl HistoryFile {
    /// Opens the file at the path, as `SqlKeeper::file` does: a database that is empty gets the table of the rows, and
    /// one of schema 1 is taken over. `Fault` comes where it can't be opened or has other tables, and `NoMemory` where
    /// there was none for it.
    pub fn open(rt: &HostRuntime, path: &str) -> Result<HistoryFile, KeeperRefusal>
        ensures no_doubt { IfOk result (λ new. (⟦<SqlKeeper<FileStore<File>> as Keeper>⟧).doubt new.keeper ≡ None) }
        ensures tells { IfOk result (λ new. (rows : List Row) → StartHolds (⟦<Unknown as Start>⟧) rows → HasCleanDisk (database over_files new.keeper) → TellsHeld (⟦<Unknown as Start>⟧) over_files new.keeper rows) }
    {
        let keeper = SqlKeeper::file(rt, path, Unknown)?;
        Ok(HistoryFile { keeper })
    }

    /// It may go to another thread. A caller is told so, since it can't see it in one step.
    pub fn crosses()
        ensures { IsSend the_row }
    {
        part_crosses::<SqlKeeper<FileStore<File>>>();
        part_crosses::<HistoryFile>();
    }
}

// A value of this type may go to another thread. A large type is told of one part after the other.
fn part_crosses<T: Send>()
    ensures { IsSend T.row }
{}

impl Keeper for HistoryFile {
    ghost tells = { λ s. (⟦<SqlKeeper<FileStore<File>> as Keeper>⟧).tells s.keeper };

    ghost doubt = { λ s. (⟦<SqlKeeper<FileStore<File>> as Keeper>⟧).doubt s.keeper };

    ghost faults = { λ s. (⟦<SqlKeeper<FileStore<File>> as Keeper>⟧).faults s.keeper };

    // Each statement may want for memory.
    ghost takes_none = { (⟦<SqlKeeper<FileStore<File>> as Keeper>⟧).takes_none };

    ghost settled = { λ first s. (⟦<SqlKeeper<FileStore<File>> as Keeper>⟧).settled first.keeper s.keeper };

    fn load(&mut self, alloc: Global) -> Result<Vec<Row>, KeeperRefusal> {
        self.keeper.load(alloc)
    }

    fn commit(&mut self, change: &Change) -> Result<(), KeeperRefusal> {
        self.keeper.commit(change)
    }

    fn reopen(&mut self) -> Result<(), KeeperRefusal> {
        self.keeper.reopen()
    }
}
