//! A keeper of marks over a file.
ghost use Rattle.std.specs.Prelude.{◌≡◌, ◌≢◌, ◌≤◌, ◌⊎◌, ℕ, List, Some, None, [], true, false, IsTrue, IsSome, IfSome, IfOk, IfErr, OnOk, OnErr};
ghost use denote.Param.Send.{IsSend};
ghost use Rattle.sqlite.specs.Files.{over_files};
ghost use Rattle.sqlite.specs.State.{HasCleanDisk};
ghost use Rattle.outer_traits.specs.Faults.{Rose};
ghost use Rattle.outer_traits.specs.Plans.{one_more};
ghost use Rattle.sqlite_wal.specs.Files.{image_at};
ghost use Rattle.report_queue.specs.Marking.{Marked, MarksStay, Reopened};
ghost use Rattle.marks_sqlite.specs.Causes.{FailsToLoad, FailsToMark, FailsToSettle};
ghost use Rattle.marks_sqlite.specs.Keeping.{planned, doubtful, after_fault};
ghost use Rattle.marks_sqlite.specs.Opened.{IsAdoptable, StartHolds};
ghost use Rattle.marks_sqlite.specs.Tables.{Adds, Keeps, Loads};
ghost use Rattle.marks_sqlite.specs.Telling.{database, IsUnused, Settles, TellsHeld};
ghost use Rattle.marks_sqlite.specs.contracts.file_marks.FileMarks.{the_row};

use crate::sql_marks::SqlMarks;
use history_keeper::KeeperRefusal;
use report_queue::MarkKeeper;
use sqlite::{File, FileStore, Start, Unknown};
use std::alloc::Global;
use std::rt::HostRuntime;

/// A keeper whose marks stand in a file. It has a name of its own, since the type of its store is large: a caller that
/// is generic in its keeper then proves nothing of the store.
pub struct FileMarks {
    /// The keeper over the file's store.
    pub keeper: SqlMarks<FileStore<File>>,
}

// It is written out, so that a caller does not prove again how each part is dropped.
impl Drop for FileMarks {
    fn drop(self) {
        let FileMarks { keeper: _ } = self;
    }
}

impl FileMarks {
    /// A keeper over the file at the path, as `SqlMarks::file` makes it. Where the file held a table of marks, it tells
    /// these marks, and none where it held no table, while the disk returns what was written.
    pub fn open(rt: &HostRuntime, path: &str) -> Result<FileMarks, KeeperRefusal>
        ensures unused { IfOk result (λ new. IsUnused true [] new.keeper) }
        ensures tells { IfOk result (λ new. (marks : List ℕ) → StartHolds (⟦<Unknown as Start>⟧) marks → HasCleanDisk (database over_files new.keeper) → TellsHeld (⟦<Unknown as Start>⟧) over_files new.keeper marks) }
        ensures adopted { IfOk result (λ new. HasCleanDisk (database over_files new.keeper) → IsAdoptable (image_at (⟦<Unknown as Start>⟧))) }
    {
        let keeper = SqlMarks::file(rt, path, Unknown)?;
        Ok(FileMarks { keeper })
    }

    /// It may go to another thread. A caller is told so, since it can't see it in one step.
    pub fn crosses()
        ensures { IsSend the_row }
    {
        part_crosses::<SqlMarks<FileStore<File>>>();
        part_crosses::<FileMarks>();
    }
}

// A value of this type may go to another thread. A large type is told of one part after the other.
fn part_crosses<T: Send>()
    ensures { IsSend T.row }
{}

impl MarkKeeper for FileMarks {
    ghost use Rattle.sqlite.specs.Files.{over_files};
    ghost use Rattle.marks_sqlite.specs.Keeping.{doubtful};
    ghost use Rattle.marks_sqlite.specs.Telling.{TellsHeld};
    ghost use Rattle.marks_sqlite.specs.OneList.{told_once};

    ghost tells = { λ s. TellsHeld (⟦<Unknown as Start>⟧) over_files s.keeper };

    ghost one_list = { λ s one other told also. told_once told also };

    ghost doubt = { λ s. doubtful s.keeper };

    ghost faults = { λ s. s.keeper.faults };

    fn load(&mut self, alloc: Global) -> Result<Vec<u32>, KeeperRefusal>
        requires { doubtful self.old.keeper ≡ None }
        ensures loads { HasCleanDisk (database over_files self.new.keeper) → IfOk result (λ loaded. Loads (database over_files self.old.keeper) (database over_files self.new.keeper) loaded.items) }
        ensures refused { HasCleanDisk (database over_files self.new.keeper) → IsTrue (database over_files self.new.keeper).is_open → OnErr result (Keeps (database over_files self.old.keeper) (database over_files self.new.keeper)) }
        ensures failed { HasCleanDisk (database over_files self.new.keeper) → IfErr result (λ why. IsSome (planned self.old.keeper) ⊎ FailsToLoad why (database over_files self.old.keeper) (database over_files self.new.keeper)) }
        ensures planned { IsSome (planned self.old.keeper) → result ≡ Err KeeperRefusal.Fault }
        ensures idle { IsSome (planned self.old.keeper) → self.new.keeper ≡ after_fault self.old.keeper }
        ensures numbered { result ≢ Err KeeperRefusal.NoMemory → self.new.keeper.calls ≡ one_more self.old.keeper.calls }
        ensures uncounted { result ≡ Err KeeperRefusal.NoMemory → self.new.keeper.calls ≡ self.old.keeper.calls }
        ensures plan { self.new.keeper.plan ≡ self.old.keeper.plan }
        ensures may { self.new.keeper.tells ≡ self.old.keeper.tells }
        ensures answer { IfOk result (λ loaded. (all : List ℕ) → TellsHeld (⟦<Unknown as Start>⟧) over_files self.new.keeper all → loaded.items ≡ all) }
        ensures unchanged { MarksStay (TellsHeld (⟦<Unknown as Start>⟧) over_files self.old.keeper) (TellsHeld (⟦<Unknown as Start>⟧) over_files self.new.keeper) }
        ensures no_doubt { doubtful self.new.keeper ≡ None }
        ensures cause { result ≡ Err KeeperRefusal.Fault → Rose self.old.keeper.faults self.new.keeper.faults }
        ensures quiet { (result ≡ Err KeeperRefusal.Fault) ⊎ (self.new.keeper.faults ≡ self.old.keeper.faults) }
        ensures counts { self.old.keeper.faults ≤ self.new.keeper.faults }
    {
        self.keeper.load(alloc)
    }

    fn mark(&mut self, entry: u32) -> Result<(), KeeperRefusal>
        requires { doubtful self.old.keeper ≡ None }
        ensures adds { HasCleanDisk (database over_files self.new.keeper) → OnOk result (Adds (database over_files self.old.keeper) (database over_files self.new.keeper) entry) }
        ensures refused { HasCleanDisk (database over_files self.new.keeper) → IsTrue (database over_files self.new.keeper).is_open → OnErr result (Keeps (database over_files self.old.keeper) (database over_files self.new.keeper)) }
        ensures failed { HasCleanDisk (database over_files self.new.keeper) → IfErr result (λ why. IsSome (planned self.old.keeper) ⊎ FailsToMark why entry (database over_files self.old.keeper) (database over_files self.new.keeper)) }
        ensures planned { IsSome (planned self.old.keeper) → result ≡ Err KeeperRefusal.Fault }
        ensures idle { IfSome (planned self.old.keeper) (λ plan. self.new.keeper ≡ record (after_fault self.old.keeper) { doubt = Some (record { entry = entry; keep = plan.keep }) }) }
        ensures unplanned { result ≡ Err KeeperRefusal.Fault → planned self.old.keeper ≡ None → self.new.keeper.doubt ≡ Some (record { entry = entry; keep = false }) }
        ensures numbered { result ≢ Err KeeperRefusal.NoMemory → self.new.keeper.calls ≡ one_more self.old.keeper.calls }
        ensures uncounted { result ≡ Err KeeperRefusal.NoMemory → self.new.keeper.calls ≡ self.old.keeper.calls }
        ensures plan { self.new.keeper.plan ≡ self.old.keeper.plan }
        ensures may { self.new.keeper.tells ≡ self.old.keeper.tells }
        ensures marked { Marked entry result (TellsHeld (⟦<Unknown as Start>⟧) over_files self.old.keeper) (TellsHeld (⟦<Unknown as Start>⟧) over_files self.new.keeper) (doubtful self.new.keeper) }
        ensures cause { result ≡ Err KeeperRefusal.Fault → Rose self.old.keeper.faults self.new.keeper.faults }
        ensures quiet { (result ≡ Err KeeperRefusal.Fault) ⊎ (self.new.keeper.faults ≡ self.old.keeper.faults) }
        ensures counts { self.old.keeper.faults ≤ self.new.keeper.faults }
    {
        self.keeper.mark(entry)
    }

    fn reopen(&mut self) -> Result<(), KeeperRefusal>
        ensures settles { HasCleanDisk (database over_files self.new.keeper) → OnOk result (Settles (database over_files self.old.keeper) (database over_files self.new.keeper) self.old.keeper.doubt) }
        ensures refused { HasCleanDisk (database over_files self.new.keeper) → IsTrue (database over_files self.new.keeper).is_open → OnErr result (Keeps (database over_files self.old.keeper) (database over_files self.new.keeper)) }
        ensures failed { HasCleanDisk (database over_files self.new.keeper) → IfErr result (λ why. IsSome (planned self.old.keeper) ⊎ FailsToSettle over_files why self.old.keeper.connection self.new.keeper.connection self.old.keeper.doubt) }
        ensures planned { IsSome (planned self.old.keeper) → result ≡ Err KeeperRefusal.Fault }
        ensures idle { IsSome (planned self.old.keeper) → self.new.keeper ≡ after_fault self.old.keeper }
        ensures numbered { result ≢ Err KeeperRefusal.NoMemory → self.new.keeper.calls ≡ one_more self.old.keeper.calls }
        ensures uncounted { result ≡ Err KeeperRefusal.NoMemory → self.new.keeper.calls ≡ self.old.keeper.calls }
        ensures plan { self.new.keeper.plan ≡ self.old.keeper.plan }
        ensures may { self.new.keeper.tells ≡ self.old.keeper.tells }
        ensures reopened { Reopened result (TellsHeld (⟦<Unknown as Start>⟧) over_files self.old.keeper) (doubtful self.old.keeper) (TellsHeld (⟦<Unknown as Start>⟧) over_files self.new.keeper) (doubtful self.new.keeper) }
        ensures cause { result ≡ Err KeeperRefusal.Fault → Rose self.old.keeper.faults self.new.keeper.faults }
        ensures quiet { (result ≡ Err KeeperRefusal.Fault) ⊎ (self.new.keeper.faults ≡ self.old.keeper.faults) }
        ensures counts { self.old.keeper.faults ≤ self.new.keeper.faults }
    {
        self.keeper.reopen()
    }
}
