//! A keeper over a file.
ghost use Rattle.std.specs.Prelude.{◌≡◌, ◌≢◌, ◌≤◌, ◌⊎◌, List, Some, None, [], true, false, IsTrue, IsSome, IfSome, IfOk, IfErr, OnOk, OnErr};
ghost use denote.Param.Send.{IsSend};
ghost use Rattle.sqlite.specs.Files.{over_files};
ghost use Rattle.sqlite.specs.State.{HasCleanDisk};
ghost use Rattle.history_keeper.specs.declared.row.Row.{Row};
ghost use Rattle.history_keeper.specs.Changes.{IsTimely, Suits};
ghost use Rattle.history_keeper.specs.Keepers.{Committed, Reopened, StillSettled, StillTold};
ghost use Rattle.outer_traits.specs.Faults.{Rose};
ghost use Rattle.outer_traits.specs.Plans.{one_more};
ghost use Rattle.history_sqlite.specs.Causes.{IsRead, IsReadAgain, FailsToLoad, FailsToMake, FailsToSettle};
ghost use Rattle.history_sqlite.specs.Keeping.{planned, doubtful, after_fault};
ghost use Rattle.history_sqlite.specs.Opened.{StartHolds};
ghost use Rattle.history_sqlite.specs.Tables.{Keeps, Loads, Makes};
ghost use Rattle.history_sqlite.specs.Telling.{database, IsSettled, IsUnused, Settles, TellsHeld, TellsRows};
ghost use Rattle.history_sqlite.specs.contracts.file_keeper.StoredKeeper.{the_row};

use crate::lasting::Lasting;
use crate::sql_keeper::SqlKeeper;
use history_keeper::{Change, Keeper, KeeperRefusal, Row};
use sqlite::{FileFrom, FileStore, Start};
use std::alloc::Global;
use std::rt::HostRuntime;

/// A keeper over a table, in a plain struct: a caller that is generic in its keeper then proves nothing of the
/// store, whose type is large.
pub struct StoredKeeper<D: Lasting> {
    /// The keeper over the store.
    pub keeper: SqlKeeper<D>,
}

/// A keeper whose rows stand in a file. `S` stands for what the file and its log held as they were opened, which
/// no code can read.
pub type FileKeeper<S> = StoredKeeper<FileStore<FileFrom<S>>>;

// It is written out, so that a caller does not prove again how each part is dropped.
impl<D: Lasting + Drop> Drop for StoredKeeper<D> {
    fn drop(self) {
        let StoredKeeper { keeper: _ } = self;
    }
}

impl<S: Start> StoredKeeper<FileStore<FileFrom<S>>> {
    /// A keeper over the file at the path, as `SqlKeeper::file` makes it. Where the file held the rows of a
    /// history, it tells these rows, while the disk returns what was written.
    pub fn open(rt: &HostRuntime, path: &str, start: S) -> Result<FileKeeper<S>, KeeperRefusal>
        ensures unused { IfOk result (λ new. IsUnused true [] new.keeper) }
        ensures tells { IfOk result (λ new. (rows : List Row) → StartHolds S.Start rows → HasCleanDisk (database over_files new.keeper) → TellsHeld S.Start over_files new.keeper rows) }
    {
        let keeper = SqlKeeper::file(rt, path, start)?;
        Ok(StoredKeeper { keeper })
    }
}

impl<D: Lasting + Send> StoredKeeper<D> {
    /// It may go to another thread. A caller is told so, since it can't see it in one step.
    pub fn crosses()
        ensures { IsSend (the_row D.row (record { supposed = D.Lasting.supposed }) D.Store) }
    {
        part_crosses::<SqlKeeper<D>>();
        part_crosses::<StoredKeeper<D>>();
    }
}

// A value of this type may go to another thread. A large type is told of one part after the other.
fn part_crosses<T: Send>()
    ensures { IsSend T.row }
{}

impl<D: Lasting> Keeper for StoredKeeper<D> {
    ghost use Rattle.history_sqlite.specs.Keeping.{doubtful};
    ghost use Rattle.history_sqlite.specs.Telling.{IsSettled, TellsRows};

    ghost tells = { λ s. TellsRows D.Store D.Lasting.supposed s.keeper };

    ghost doubt = { λ s. doubtful s.keeper };

    ghost faults = { λ s. s.keeper.faults };

    // Each statement may want for memory.
    ghost takes_none = { λ _. ⊥ };

    ghost settled = { λ first s. IsSettled D.Store first.keeper s.keeper };

    fn load(&mut self, alloc: Global) -> Result<Vec<Row>, KeeperRefusal>
        requires { doubtful self.old.keeper ≡ None }
        ensures loads { HasCleanDisk (database D.Store self.new.keeper) → IfOk result (λ loaded. Loads (database D.Store self.old.keeper) (database D.Store self.new.keeper) loaded.items) }
        ensures read { HasCleanDisk (database D.Store self.new.keeper) → IfOk result (λ loaded. IsRead (database D.Store self.old.keeper) (database D.Store self.new.keeper) loaded.items) }
        ensures refused { HasCleanDisk (database D.Store self.new.keeper) → IsTrue (database D.Store self.new.keeper).is_open → OnErr result (Keeps (database D.Store self.old.keeper) (database D.Store self.new.keeper)) }
        ensures failed { HasCleanDisk (database D.Store self.new.keeper) → IfErr result (λ why. IsSome (planned self.old.keeper) ⊎ FailsToLoad why (database D.Store self.old.keeper) (database D.Store self.new.keeper)) }
        ensures planned { IsSome (planned self.old.keeper) → result ≡ Err KeeperRefusal.Fault }
        ensures idle { IsSome (planned self.old.keeper) → self.new.keeper ≡ after_fault self.old.keeper }
        ensures numbered { result ≢ Err KeeperRefusal.NoMemory → self.new.keeper.calls ≡ one_more self.old.keeper.calls }
        ensures uncounted { result ≡ Err KeeperRefusal.NoMemory → self.new.keeper.calls ≡ self.old.keeper.calls }
        ensures plan { self.new.keeper.plan ≡ self.old.keeper.plan }
        ensures clean { HasCleanDisk (database D.Store self.new.keeper) → HasCleanDisk (database D.Store self.old.keeper) }
        ensures answer { IfOk result (λ loaded. (all : List Row) → TellsRows D.Store D.Lasting.supposed self.new.keeper all → loaded.items ≡ all) }
        ensures unchanged { StillTold (TellsRows D.Store D.Lasting.supposed self.old.keeper) (TellsRows D.Store D.Lasting.supposed self.new.keeper) }
        ensures no_doubt { doubtful self.new.keeper ≡ None }
        ensures settled { StillSettled (λ first s. IsSettled D.Store first.keeper s.keeper) self.old self.new }
        ensures cause { result ≡ Err KeeperRefusal.Fault → Rose self.old.keeper.faults self.new.keeper.faults }
        ensures quiet { (result ≡ Err KeeperRefusal.Fault) ⊎ (self.new.keeper.faults ≡ self.old.keeper.faults) }
        ensures counts { self.old.keeper.faults ≤ self.new.keeper.faults }
    {
        self.keeper.load(alloc)
    }

    fn commit(&mut self, change: &Change) -> Result<(), KeeperRefusal>
        requires no_doubt { doubtful self.old.keeper ≡ None }
        requires suits { (all : List Row) → TellsRows D.Store D.Lasting.supposed self.old.keeper all → Suits change.now all }
        requires timely { IsTimely change.now }
        ensures makes { HasCleanDisk (database D.Store self.new.keeper) → OnOk result (Makes (database D.Store self.old.keeper) (database D.Store self.new.keeper) change.now) }
        ensures refused { HasCleanDisk (database D.Store self.new.keeper) → IsTrue (database D.Store self.new.keeper).is_open → OnErr result (Keeps (database D.Store self.old.keeper) (database D.Store self.new.keeper)) }
        ensures failed { HasCleanDisk (database D.Store self.new.keeper) → IfErr result (λ why. IsSome (planned self.old.keeper) ⊎ FailsToMake why change.now (database D.Store self.old.keeper) (database D.Store self.new.keeper)) }
        ensures planned { IsSome (planned self.old.keeper) → result ≡ Err KeeperRefusal.Fault }
        ensures idle { IfSome (planned self.old.keeper) (λ plan. self.new.keeper ≡ record (after_fault self.old.keeper) { doubt = Some (record { change = change.now; keep = plan.keep }) }) }
        ensures unplanned { result ≡ Err KeeperRefusal.Fault → planned self.old.keeper ≡ None → self.new.keeper.doubt ≡ Some (record { change = change.now; keep = false }) }
        ensures numbered { result ≢ Err KeeperRefusal.NoMemory → self.new.keeper.calls ≡ one_more self.old.keeper.calls }
        ensures uncounted { result ≡ Err KeeperRefusal.NoMemory → self.new.keeper.calls ≡ self.old.keeper.calls }
        ensures plan { self.new.keeper.plan ≡ self.old.keeper.plan }
        ensures clean { HasCleanDisk (database D.Store self.new.keeper) → HasCleanDisk (database D.Store self.old.keeper) }
        ensures committed { Committed change.now result (TellsRows D.Store D.Lasting.supposed self.old.keeper) (TellsRows D.Store D.Lasting.supposed self.new.keeper) (doubtful self.new.keeper) }
        ensures cause { result ≡ Err KeeperRefusal.Fault → Rose self.old.keeper.faults self.new.keeper.faults }
        ensures quiet { (result ≡ Err KeeperRefusal.Fault) ⊎ (self.new.keeper.faults ≡ self.old.keeper.faults) }
        ensures counts { self.old.keeper.faults ≤ self.new.keeper.faults }
    {
        self.keeper.commit(change)
    }

    fn reopen(&mut self) -> Result<(), KeeperRefusal>
        ensures settles { HasCleanDisk (database D.Store self.new.keeper) → OnOk result (Settles (database D.Store self.old.keeper) (database D.Store self.new.keeper) self.old.keeper.doubt) }
        ensures reads { HasCleanDisk (database D.Store self.new.keeper) → OnOk result (IsReadAgain D.Store self.old.keeper.connection) }
        ensures refused { HasCleanDisk (database D.Store self.new.keeper) → IsTrue (database D.Store self.new.keeper).is_open → OnErr result (Keeps (database D.Store self.old.keeper) (database D.Store self.new.keeper)) }
        ensures failed { HasCleanDisk (database D.Store self.new.keeper) → IfErr result (λ why. IsSome (planned self.old.keeper) ⊎ FailsToSettle D.Store why self.old.keeper.connection self.new.keeper.connection self.old.keeper.doubt) }
        ensures planned { IsSome (planned self.old.keeper) → result ≡ Err KeeperRefusal.Fault }
        ensures idle { IsSome (planned self.old.keeper) → self.new.keeper ≡ after_fault self.old.keeper }
        ensures numbered { result ≢ Err KeeperRefusal.NoMemory → self.new.keeper.calls ≡ one_more self.old.keeper.calls }
        ensures uncounted { result ≡ Err KeeperRefusal.NoMemory → self.new.keeper.calls ≡ self.old.keeper.calls }
        ensures plan { self.new.keeper.plan ≡ self.old.keeper.plan }
        ensures clean { HasCleanDisk (database D.Store self.new.keeper) → HasCleanDisk (database D.Store self.old.keeper) }
        ensures reopened { Reopened result (TellsRows D.Store D.Lasting.supposed self.old.keeper) (doubtful self.old.keeper) (TellsRows D.Store D.Lasting.supposed self.new.keeper) (doubtful self.new.keeper) }
        ensures settled { OnOk result (IsSettled D.Store self.old.keeper self.new.keeper) }
        ensures still { OnErr result (StillSettled (λ first s. IsSettled D.Store first.keeper s.keeper) self.old self.new) }
        ensures cause { result ≡ Err KeeperRefusal.Fault → Rose self.old.keeper.faults self.new.keeper.faults }
        ensures quiet { (result ≡ Err KeeperRefusal.Fault) ⊎ (self.new.keeper.faults ≡ self.old.keeper.faults) }
        ensures counts { self.old.keeper.faults ≤ self.new.keeper.faults }
    {
        self.keeper.reopen()
    }
}
