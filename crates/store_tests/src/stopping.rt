//! A keeper over files that stop.
ghost use Rattle.std.specs.Prelude.{◌≡◌, None, [], IfOk};
ghost use denote.Param.Send.{IsSend};
ghost use Rattle.history_sqlite.specs.Keeping.{doubtful};
ghost use Rattle.store_tests.specs.contracts.stopping.StoppingKeeper.{the_row};

use history_keeper::{Change, Keeper, KeeperRefusal, Row};
use history_sqlite::SqlKeeper;
use sqlite::{FileStore, Files};
use sqlite_disk::{Fuse, Memory};
use std::alloc::Global;

/// A file in memory that stops after so many calls.
pub(crate) type Stopping = Fuse<Memory>;

/// A keeper over such files. It has a name of its own, since the type of its store is large.
pub(crate) struct StoppingKeeper {
    pub(crate) keeper: SqlKeeper<FileStore<Stopping>>,
}

// It is written out, so that a caller does not prove again how each part is dropped.
impl Drop for StoppingKeeper {
    fn drop(self) {
        let StoppingKeeper { keeper: _ } = self;
    }
}

impl StoppingKeeper {
    /// It may go to another thread.
    pub(crate) fn crosses()
        ensures { IsSend the_row }
    {
        part_crosses::<SqlKeeper<FileStore<Stopping>>>();
        part_crosses::<StoppingKeeper>();
    }

    /// Ends the keeper and gives its files back.
    pub(crate) fn into_files(self) -> Files<Stopping> {
        let StoppingKeeper { keeper } = self;
        keeper.into_connection().into_store().close()
    }
}

// A value of this type may go to another thread. A large type is told of one part after the other.
fn part_crosses<T: Send>()
    ensures { IsSend T.row }
{}

impl Keeper for StoppingKeeper {
    ghost use Rattle.sqlite.specs.Files.{over_files};
    ghost use Rattle.history_sqlite.specs.Keeping.{doubtful};
    ghost use Rattle.history_sqlite.specs.Telling.{IsSettled, TellsRows};

    // Nothing is known of what such files held as they were opened.
    ghost tells = { λ s. TellsRows over_files ⊥ s.keeper };

    ghost doubt = { λ s. doubtful s.keeper };

    ghost faults = { λ s. s.keeper.faults };

    ghost takes_none = { λ _. ⊥ };

    ghost settled = { λ first s. IsSettled over_files first.keeper s.keeper };

    fn load(&mut self, alloc: Global) -> Result<Vec<Row>, KeeperRefusal> {
        self.keeper.load(alloc)
    }

    fn commit(&mut self, change: &Change) -> Result<(), KeeperRefusal> {
        self.keeper.commit(change)
    }

    fn reopen(&mut self) -> Result<(), KeeperRefusal> {
        self.keeper.reopen()
    }
}
