//! A keeper over a table.
ghost use Rattle.std.specs.Prelude.{◌≡◌, ◌≢◌, ◌≤◌, ◌==◌, ◌⊎◌, List, Some, None, [], true, false, IsTrue, IsSome, IfSome, IfOk, IfErr, OnOk, OnErr, find};
ghost use Rattle.std.specs.Option.{option_copied};
ghost use Rattle.sqlite.specs.Held.{state};
ghost use Rattle.sqlite.specs.State.{HasCleanDisk};
ghost use Rattle.sqlite.specs.Files.{over_files};
ghost use Rattle.sqlite.specs.Steps.{over_memory};
ghost use Rattle.history_keeper.specs.declared.row.Row.{Row};
ghost use Rattle.history_keeper.specs.Changes.{IsTimely, Suits};
ghost use Rattle.history_keeper.specs.Keepers.{Committed, Reopened, StillSettled, StillTold, ToldWith};
ghost use Rattle.outer_traits.specs.Faults.{Rose};
ghost use Rattle.outer_traits.specs.Plans.{one_more};
ghost use Rattle.history_sqlite.specs.Causes.{AreAtHand, IsRead, IsReadAgain, FailsToLoad, FailsToMake, FailsToSettle, IsUnadopted};
ghost use Rattle.history_sqlite.specs.Finding.{IsAdopted};
ghost use Rattle.history_sqlite.specs.Keeping.{planned, doubtful, after_fault};
ghost use Rattle.history_sqlite.specs.Opened.{StartHolds};
ghost use Rattle.history_sqlite.specs.Tables.{HasAny, Keeps, Loads, Makes, Opens};
ghost use Rattle.history_sqlite.specs.Telling.{database, IsSettled, IsUnused, Settles, TellsHeld, TellsRows};

use crate::database_files::open_path;
use crate::lasting::Lasting;
use crate::refusal::refusal_of_error;
use crate::row_table::RowTable;
use crate::statements::load_rows;
use crate::tables::{make_tables, open_tables};
use history_keeper::{Change, Doubt, Keeper, KeeperPlan, KeeperRefusal, Row};
use sqlite::{Connection, FileFrom, FileStore, MemStore, Start};
use std::alloc::Global;
use std::marker::Model;
use std::rt::HostRuntime;

/// A keeper whose rows stand in a table of a database. `D` is the store of its connection.
#[derive(Drop)]
pub struct SqlKeeper<D: Lasting> {
    connection: RowTable<D>,
    doubt: Option<Doubt>,
    plan: Vec<KeeperPlan>,
    calls: u64,
    faults: u64,
    tells: bool,
    alloc: Global,
}

impl<D: Lasting> Model for SqlKeeper<D> {
    ghost use Rattle.sqlite.specs.Held.{state};
    ghost use Rattle.history_sqlite.specs.Keeping.{Keeping, keeping_code, IsTimelyDoubt};
    ghost use Rattle.history_sqlite.specs.Telling.{Knows};

    ghost Value = { Keeping D };

    ghost coded = { keeping_code D.code };

    ghost view = { λ s. record { connection = s.connection; doubt = s.doubt; plan = s.plan.items; calls = s.calls; faults = s.faults; tells = s.tells } };

    ghost invariant = { λ s. IsTimelyDoubt s.doubt × Knows s.tells D.Lasting.supposed (state D.Store s.connection) s.doubt };
}

impl SqlKeeper<MemStore> {
    /// A keeper without rows, over a database in memory. It tells its rows.
    pub fn memory(alloc: Global) -> Result<SqlKeeper<MemStore>, KeeperRefusal>
        ensures unused { IfOk result (λ keeper. IsUnused true [] keeper) }
        ensures tells { IfOk result (λ keeper. TellsRows over_memory (Unit {0}) keeper []) }
        ensures no_others { IfOk result (λ keeper. (all : List Row) → TellsRows over_memory (Unit {0}) keeper all → all ≡ []) }
    {
        SqlKeeper::planned(alloc, Vec::new(alloc))
    }

    /// The same, and the planned calls fail. Of two plans for one call the first counts. A planned
    /// commit whose change is to be kept makes it at the next reopening that isn't planned.
    pub fn planned(
        alloc: Global,
        plan: Vec<KeeperPlan>,
    ) -> Result<SqlKeeper<MemStore>, KeeperRefusal>
        ensures unused { IfOk result (λ keeper. IsUnused true plan.items keeper) }
        ensures tells { IfOk result (λ keeper. TellsRows over_memory (Unit {0}) keeper []) }
        ensures no_others { IfOk result (λ keeper. (all : List Row) → TellsRows over_memory (Unit {0}) keeper all → all ≡ []) }
    {
        let mut connection = match Connection::open_in_memory(alloc) {
            Ok(connection) => connection,
            Err(_) => return Err(KeeperRefusal::NoMemory),
        };
        match make_tables(&mut connection) {
            Ok(()) => Ok(SqlKeeper {
                connection: RowTable::of(connection),
                doubt: None,
                plan,
                calls: 0,
                faults: 0,
                tells: true,
                alloc,
            }),
            Err(error) => Err(refusal_of_error(error)),
        }
    }

    /// Whether it tells its rows. One that does tells some at each moment: its connection is never shut.
    pub fn is_telling(&self) -> bool
        ensures may { result ≡ self.now.tells }
        ensures known { IsTrue result → (all : List Row) × TellsRows over_memory (Unit {0}) self.now all }
    {
        self.tells
    }
}

impl<S: Start> SqlKeeper<FileStore<FileFrom<S>>> {
    /// A keeper over the file at the path, which is made where it isn't there. A file of schema 1 is taken
    /// over, as `adopt` says. It is a fault where the file can't be opened, is no database, has another
    /// schema number, or has a row that stands for none. Such a file is left as it was.
    ///
    /// `S` stands for what the file and its log held, which no code can read. Where they held the rows of a
    /// history, the keeper tells these rows, while the disk returns what was written.
    pub fn file(
        rt: &HostRuntime,
        path: &str,
        start: S,
    ) -> Result<SqlKeeper<FileStore<FileFrom<S>>>, KeeperRefusal>
        ensures unused { IfOk result (λ keeper. IsUnused true [] keeper) }
        ensures tells { IfOk result (λ keeper. (rows : List Row) → StartHolds S.Start rows → HasCleanDisk (database over_files keeper) → TellsHeld S.Start over_files keeper rows) }
    {
        let connection = open_path(rt, path, start)?;
        SqlKeeper::adopt_so(rt.alloc(), connection, Vec::new(rt.alloc()), true)
    }
}

impl<D: Lasting + Drop> SqlKeeper<D> {
    /// A keeper over an open connection, whose database is empty, or has the tables and the number of this
    /// schema or of schema 1. It tells no rows. The rows are left. Those of schema 1 are taken over into the
    /// table of this schema, in one transaction, with duration 0, no protocol and no row that is tried again.
    /// An empty database has the tables, their number and no rows. All this holds while the disk returns what
    /// was written. It is a fault where a transaction is open, the tables are other ones, a row stands for
    /// none, or the database refuses a statement. A refusal lets go of the connection, and leaves a database
    /// of schema 1 as it was.
    pub fn adopt(alloc: Global, connection: Connection<D>) -> Result<SqlKeeper<D>, KeeperRefusal>
        ensures unused { IfOk result (λ keeper. IsUnused false [] keeper) }
        ensures opens { IfOk result (λ keeper. HasCleanDisk (database D.Store keeper) → Opens (state D.Store connection) (database D.Store keeper)) }
        ensures adopted { IfOk result (λ keeper. HasCleanDisk (database D.Store keeper) → IsAdopted D.Store (record connection { step_limit = None })) }
        ensures cause { IfErr result (λ why. IsUnadopted D.Store why (record connection { step_limit = None })) }
    {
        SqlKeeper::adopt_planned(alloc, connection, Vec::new(alloc))
    }

    /// The same, and the planned calls fail, as those of `planned`.
    pub fn adopt_planned(
        alloc: Global,
        connection: Connection<D>,
        plan: Vec<KeeperPlan>,
    ) -> Result<SqlKeeper<D>, KeeperRefusal>
        ensures unused { IfOk result (λ keeper. IsUnused false plan.items keeper) }
        ensures opens { IfOk result (λ keeper. HasCleanDisk (database D.Store keeper) → Opens (state D.Store connection) (database D.Store keeper)) }
        ensures adopted { IfOk result (λ keeper. HasCleanDisk (database D.Store keeper) → IsAdopted D.Store (record connection { step_limit = None })) }
        ensures cause { IfErr result (λ why. IsUnadopted D.Store why (record connection { step_limit = None })) }
    {
        SqlKeeper::adopt_so(alloc, connection, plan, false)
    }

    // The same, and the keeper may tell its rows. Then what is supposed of its store says that the database
    // has a history, or no table.
    fn adopt_so(
        alloc: Global,
        connection: Connection<D>,
        plan: Vec<KeeperPlan>,
        tells: bool,
    ) -> Result<SqlKeeper<D>, KeeperRefusal>
        requires { tells ≡ true → D.Lasting.supposed → HasCleanDisk (state D.Store connection) → HasAny (state D.Store (record connection { step_limit = None })) }
        ensures unused { IfOk result (λ keeper. IsUnused tells plan.items keeper) }
        ensures opens { IfOk result (λ keeper. HasCleanDisk (database D.Store keeper) → Opens (state D.Store connection) (database D.Store keeper)) }
        ensures clean { IfOk result (λ keeper. HasCleanDisk (database D.Store keeper) → HasCleanDisk (state D.Store connection)) }
        ensures adopted { IfOk result (λ keeper. HasCleanDisk (database D.Store keeper) → IsAdopted D.Store (record connection { step_limit = None })) }
        ensures cause { IfErr result (λ why. IsUnadopted D.Store why (record connection { step_limit = None })) }
    {
        let mut connection = connection;
        connection.set_step_limit(None);
        open_tables(&mut connection)?;
        let rows = load_rows(&mut connection, alloc)?;
        Ok(SqlKeeper {
            connection: RowTable::with_rows(connection, rows),
            doubt: None,
            plan,
            calls: 0,
            faults: 0,
            tells,
            alloc,
        })
    }

    /// Gives the connection back, and ends the keeper.
    pub fn into_connection(self) -> Connection<D>
        ensures { result ≡ self.connection }
    {
        let SqlKeeper {
            connection,
            doubt: _,
            plan: _,
            calls: _,
            faults: _,
            tells: _,
            alloc: _,
        } = self;
        connection.into_connection()
    }
}

impl<D: Lasting> SqlKeeper<D> {
    /// How many calls there were that did not want for memory.
    pub fn calls(&self) -> u64
        ensures { result ≡ self.now.calls }
    {
        self.calls
    }

    // What is planned for the next call.
    fn next_plan(&self) -> Option<KeeperPlan>
        ensures { result ≡ planned self.now }
    {
        plan_of(&self.plan, self.calls.saturating_add(1))
    }

    fn count_call(&mut self)
        ensures { self.new ≡ record self.old { calls = one_more self.old.calls } }
    {
        self.calls = self.calls.saturating_add(1);
    }

    fn count_fault(&mut self)
        ensures counted { self.new ≡ after_fault self.old }
        ensures no_fall { self.old.faults ≤ self.new.faults }
    {
        self.calls = self.calls.saturating_add(1);
        self.faults = self.faults.saturating_add(1);
    }

    // Counts a refusal that is a fault.
    fn count_refusal(&mut self, refusal: KeeperRefusal)
        ensures same { self.new ≡ record self.old { calls = self.new.calls; faults = self.new.faults } }
        ensures rose { refusal ≡ KeeperRefusal.Fault → Rose self.old.faults self.new.faults }
        ensures quiet { (refusal ≡ KeeperRefusal.Fault) ⊎ (self.new ≡ self.old) }
        ensures numbered { refusal ≢ KeeperRefusal.NoMemory → self.new.calls ≡ one_more self.old.calls }
        ensures no_fall { self.old.faults ≤ self.new.faults }
    {
        match refusal {
            KeeperRefusal::Fault => self.count_fault(),
            KeeperRefusal::NoMemory => {}
        }
    }
}

impl<D: Lasting> SqlKeeper<D> {
    // Reads the rows.
    fn read(&mut self, alloc: Global) -> Result<Vec<Row>, KeeperRefusal>
        ensures same { self.new ≡ record self.old { connection = self.new.connection } }
        ensures answer { IfOk result (λ loaded. (all : List Row) → TellsRows D.Store D.Lasting.supposed self.new all → loaded.items ≡ all) }
        ensures unchanged { StillTold (TellsRows D.Store D.Lasting.supposed self.old) (TellsRows D.Store D.Lasting.supposed self.new) }
        ensures settled { StillSettled (IsSettled D.Store) self.old self.new }
        ensures loads { HasCleanDisk (database D.Store self.new) → IfOk result (λ loaded. Loads (database D.Store self.old) (database D.Store self.new) loaded.items) }
        ensures refused { HasCleanDisk (database D.Store self.new) → IsTrue (database D.Store self.new).is_open → OnErr result (Keeps (database D.Store self.old) (database D.Store self.new)) }
        ensures read { HasCleanDisk (database D.Store self.new) → IfOk result (λ loaded. IsRead (database D.Store self.old) (database D.Store self.new) loaded.items) }
        ensures failed { HasCleanDisk (database D.Store self.new) → IfErr result (λ why. FailsToLoad why (database D.Store self.old) (database D.Store self.new)) }
        ensures clean { HasCleanDisk (database D.Store self.new) → HasCleanDisk (database D.Store self.old) }
        ensures was_open { HasCleanDisk (database D.Store self.new) → IsTrue (database D.Store self.new).is_open → IsTrue (database D.Store self.old).is_open }
    {
        self.connection.load(alloc)
    }

    // Makes the change. Where it was made there is no doubt left.
    fn write(&mut self, change: &Change) -> Result<(), KeeperRefusal>
        requires suits { (all : List Row) → TellsRows D.Store D.Lasting.supposed self.old all → Suits change.now all }
        requires timely { IsTimely change.now }
        ensures made { OnOk result (ToldWith change.now (TellsRows D.Store D.Lasting.supposed self.old) (TellsRows D.Store D.Lasting.supposed self.new)) }
        ensures no_doubt { OnOk result (self.new ≡ record self.old { connection = self.new.connection; doubt = None }) }
        ensures unchanged { OnErr result (StillTold (TellsRows D.Store D.Lasting.supposed self.old) (TellsRows D.Store D.Lasting.supposed self.new)) }
        ensures same { OnErr result (self.new ≡ record self.old { connection = self.new.connection }) }
        ensures makes { HasCleanDisk (database D.Store self.new) → OnOk result (Makes (database D.Store self.old) (database D.Store self.new) change.now) }
        ensures refused { HasCleanDisk (database D.Store self.new) → IsTrue (database D.Store self.new).is_open → OnErr result (Keeps (database D.Store self.old) (database D.Store self.new)) }
        ensures failed { HasCleanDisk (database D.Store self.new) → IfErr result (λ why. FailsToMake why change.now (database D.Store self.old) (database D.Store self.new)) }
        ensures clean { HasCleanDisk (database D.Store self.new) → HasCleanDisk (database D.Store self.old) }
        ensures was_open { HasCleanDisk (database D.Store self.new) → IsTrue (database D.Store self.new).is_open → IsTrue (database D.Store self.old).is_open }
    {
        match self.connection.make(change) {
            Ok(()) => {
                self.doubt = None;
                Ok(())
            }
            Err(refusal) => Err(refusal),
        }
    }

    // Keeps rows at hand that were just read, for the load behind it.
    fn keep_at_hand(&mut self, rows: Vec<Row>)
        requires { AreAtHand (database D.Store self.old) rows.items }
        ensures { self.new ≡ self.old }
    {
        self.connection.keep(rows);
    }

    // Reads the rows once more, and then makes the doubtful change where it is to be kept.
    fn settle(&mut self) -> Result<(), KeeperRefusal>
        ensures reopened { Reopened result (TellsRows D.Store D.Lasting.supposed self.old) (doubtful self.old) (TellsRows D.Store D.Lasting.supposed self.new) (doubtful self.new) }
        ensures clear { OnOk result (self.new.doubt ≡ None) }
        ensures still { OnErr result (StillSettled (IsSettled D.Store) self.old self.new) }
        ensures same { self.new ≡ record self.old { connection = self.new.connection; doubt = self.new.doubt } }
        ensures settles { HasCleanDisk (database D.Store self.new) → OnOk result (Settles (database D.Store self.old) (database D.Store self.new) self.old.doubt) }
        ensures reads { HasCleanDisk (database D.Store self.new) → OnOk result (IsReadAgain D.Store self.old.connection) }
        ensures refused { HasCleanDisk (database D.Store self.new) → IsTrue (database D.Store self.new).is_open → OnErr result (Keeps (database D.Store self.old) (database D.Store self.new)) }
        ensures failed { HasCleanDisk (database D.Store self.new) → IfErr result (λ why. FailsToSettle D.Store why self.old.connection self.new.connection self.old.doubt) }
        ensures clean { HasCleanDisk (database D.Store self.new) → HasCleanDisk (database D.Store self.old) }
        ensures was_open { HasCleanDisk (database D.Store self.new) → IsTrue (database D.Store self.new).is_open → IsTrue (database D.Store self.old).is_open }
    {
        let alloc = self.alloc;
        let rows = self.read(alloc)?;
        self.keep_at_hand(rows);
        match self.doubt {
            Some(doubt) if doubt.keep => self.write(&doubt.change),
            _ => {
                self.doubt = None;
                Ok(())
            }
        }
    }
}

impl<D: Lasting> Keeper for SqlKeeper<D> {
    ghost use Rattle.history_sqlite.specs.Keeping.{doubtful};
    ghost use Rattle.history_sqlite.specs.Telling.{IsSettled, TellsRows};

    ghost tells = { TellsRows D.Store D.Lasting.supposed };

    ghost doubt = { doubtful };

    ghost faults = { λ s. s.faults };

    // Each statement may want for memory.
    ghost takes_none = { λ _. ⊥ };

    ghost settled = { IsSettled D.Store };

    fn load(&mut self, alloc: Global) -> Result<Vec<Row>, KeeperRefusal>
        requires { doubtful self.old ≡ None }
        ensures loads { HasCleanDisk (database D.Store self.new) → IfOk result (λ loaded. Loads (database D.Store self.old) (database D.Store self.new) loaded.items) }
        ensures read { HasCleanDisk (database D.Store self.new) → IfOk result (λ loaded. IsRead (database D.Store self.old) (database D.Store self.new) loaded.items) }
        ensures refused { HasCleanDisk (database D.Store self.new) → IsTrue (database D.Store self.new).is_open → OnErr result (Keeps (database D.Store self.old) (database D.Store self.new)) }
        ensures failed { HasCleanDisk (database D.Store self.new) → IfErr result (λ why. IsSome (planned self.old) ⊎ FailsToLoad why (database D.Store self.old) (database D.Store self.new)) }
        ensures planned { IsSome (planned self.old) → result ≡ Err KeeperRefusal.Fault }
        ensures idle { IsSome (planned self.old) → self.new ≡ after_fault self.old }
        ensures numbered { result ≢ Err KeeperRefusal.NoMemory → self.new.calls ≡ one_more self.old.calls }
        ensures uncounted { result ≡ Err KeeperRefusal.NoMemory → self.new.calls ≡ self.old.calls }
        ensures plan { self.new.plan ≡ self.old.plan }
        ensures may { self.new.tells ≡ self.old.tells }
        ensures clean { HasCleanDisk (database D.Store self.new) → HasCleanDisk (database D.Store self.old) }

        ensures answer { IfOk result (λ loaded. (all : List Row) → TellsRows D.Store D.Lasting.supposed self.new all → loaded.items ≡ all) }
        ensures unchanged { StillTold (TellsRows D.Store D.Lasting.supposed self.old) (TellsRows D.Store D.Lasting.supposed self.new) }
        ensures no_doubt { doubtful self.new ≡ None }
        ensures settled { StillSettled (IsSettled D.Store) self.old self.new }
        ensures cause { result ≡ Err KeeperRefusal.Fault → Rose self.old.faults self.new.faults }
        ensures quiet { (result ≡ Err KeeperRefusal.Fault) ⊎ (self.new.faults ≡ self.old.faults) }
        ensures counts { self.old.faults ≤ self.new.faults }
    {
        if self.next_plan().is_some() {
            self.count_fault();
            return Err(KeeperRefusal::Fault);
        }
        match self.read(alloc) {
            Ok(rows) => {
                self.count_call();
                Ok(rows)
            }
            Err(refusal) => {
                self.count_refusal(refusal);
                Err(refusal)
            }
        }
    }

    fn commit(&mut self, change: &Change) -> Result<(), KeeperRefusal>
        requires no_doubt { doubtful self.old ≡ None }
        requires suits { (all : List Row) → TellsRows D.Store D.Lasting.supposed self.old all → Suits change.now all }
        requires timely { IsTimely change.now }
        ensures makes { HasCleanDisk (database D.Store self.new) → OnOk result (Makes (database D.Store self.old) (database D.Store self.new) change.now) }
        ensures refused { HasCleanDisk (database D.Store self.new) → IsTrue (database D.Store self.new).is_open → OnErr result (Keeps (database D.Store self.old) (database D.Store self.new)) }
        ensures failed { HasCleanDisk (database D.Store self.new) → IfErr result (λ why. IsSome (planned self.old) ⊎ FailsToMake why change.now (database D.Store self.old) (database D.Store self.new)) }
        ensures planned { IsSome (planned self.old) → result ≡ Err KeeperRefusal.Fault }
        ensures idle { IfSome (planned self.old) (λ plan. self.new ≡ record (after_fault self.old) { doubt = Some (record { change = change.now; keep = plan.keep }) }) }
        ensures unplanned { result ≡ Err KeeperRefusal.Fault → planned self.old ≡ None → self.new.doubt ≡ Some (record { change = change.now; keep = false }) }
        ensures numbered { result ≢ Err KeeperRefusal.NoMemory → self.new.calls ≡ one_more self.old.calls }
        ensures uncounted { result ≡ Err KeeperRefusal.NoMemory → self.new.calls ≡ self.old.calls }
        ensures plan { self.new.plan ≡ self.old.plan }
        ensures may { self.new.tells ≡ self.old.tells }
        ensures clean { HasCleanDisk (database D.Store self.new) → HasCleanDisk (database D.Store self.old) }

        ensures committed { Committed change.now result (TellsRows D.Store D.Lasting.supposed self.old) (TellsRows D.Store D.Lasting.supposed self.new) (doubtful self.new) }
        ensures cause { result ≡ Err KeeperRefusal.Fault → Rose self.old.faults self.new.faults }
        ensures quiet { (result ≡ Err KeeperRefusal.Fault) ⊎ (self.new.faults ≡ self.old.faults) }
        ensures counts { self.old.faults ≤ self.new.faults }
    {
        if let Some(plan) = self.next_plan() {
            self.count_fault();
            self.doubt = Some(Doubt {
                change: *change,
                keep: plan.keep,
            });
            return Err(KeeperRefusal::Fault);
        }
        match self.write(change) {
            Ok(()) => {
                self.count_call();
                Ok(())
            }
            Err(KeeperRefusal::Fault) => {
                self.count_fault();
                self.doubt = Some(Doubt {
                    change: *change,
                    keep: false,
                });
                Err(KeeperRefusal::Fault)
            }
            Err(KeeperRefusal::NoMemory) => Err(KeeperRefusal::NoMemory),
        }
    }

    fn reopen(&mut self) -> Result<(), KeeperRefusal>
        ensures settles { HasCleanDisk (database D.Store self.new) → OnOk result (Settles (database D.Store self.old) (database D.Store self.new) self.old.doubt) }
        ensures reads { HasCleanDisk (database D.Store self.new) → OnOk result (IsReadAgain D.Store self.old.connection) }
        ensures refused { HasCleanDisk (database D.Store self.new) → IsTrue (database D.Store self.new).is_open → OnErr result (Keeps (database D.Store self.old) (database D.Store self.new)) }
        ensures failed { HasCleanDisk (database D.Store self.new) → IfErr result (λ why. IsSome (planned self.old) ⊎ FailsToSettle D.Store why self.old.connection self.new.connection self.old.doubt) }
        ensures planned { IsSome (planned self.old) → result ≡ Err KeeperRefusal.Fault }
        ensures idle { IsSome (planned self.old) → self.new ≡ after_fault self.old }
        ensures numbered { result ≢ Err KeeperRefusal.NoMemory → self.new.calls ≡ one_more self.old.calls }
        ensures uncounted { result ≡ Err KeeperRefusal.NoMemory → self.new.calls ≡ self.old.calls }
        ensures plan { self.new.plan ≡ self.old.plan }
        ensures may { self.new.tells ≡ self.old.tells }
        ensures clean { HasCleanDisk (database D.Store self.new) → HasCleanDisk (database D.Store self.old) }

        ensures reopened { Reopened result (TellsRows D.Store D.Lasting.supposed self.old) (doubtful self.old) (TellsRows D.Store D.Lasting.supposed self.new) (doubtful self.new) }
        ensures settled { OnOk result (IsSettled D.Store self.old self.new) }
        ensures still { OnErr result (StillSettled (IsSettled D.Store) self.old self.new) }
        ensures cause { result ≡ Err KeeperRefusal.Fault → Rose self.old.faults self.new.faults }
        ensures quiet { (result ≡ Err KeeperRefusal.Fault) ⊎ (self.new.faults ≡ self.old.faults) }
        ensures counts { self.old.faults ≤ self.new.faults }
    {
        if self.next_plan().is_some() {
            self.count_fault();
            return Err(KeeperRefusal::Fault);
        }
        match self.settle() {
            Ok(()) => {
                self.count_call();
                Ok(())
            }
            Err(refusal) => {
                self.count_refusal(refusal);
                Err(refusal)
            }
        }
    }
}

// The first plan for the call of that number.
fn plan_of(plan: &[KeeperPlan], number: u64) -> Option<KeeperPlan>
    ensures { result ≡ find (λ plan. plan.call == number) plan.now }
{
    match first_of(plan, number) {
        Some(plan) => Some(*plan),
        None => None,
    }
}

fn first_of(plan: &[KeeperPlan], number: u64) -> Option<&KeeperPlan>
    ensures { option_copied result ≡ find (λ plan. plan.call == number) plan.now }
{
    plan.iter().find(|plan| plan.call as u64 == number)
}
