//! A keeper of marks over a table.
ghost use Rattle.std.specs.Prelude.{◌≡◌, ◌≢◌, ◌≤◌, ◌==◌, ◌⊎◌, ℕ, List, Some, None, [], true, false, IsTrue, IsSome, IfSome, IfOk, IfErr, OnOk, OnErr, find};
ghost use Rattle.std.specs.Option.{option_copied};
ghost use Rattle.sqlite.specs.Held.{state};
ghost use Rattle.sqlite.specs.State.{HasCleanDisk};
ghost use Rattle.sqlite.specs.Files.{over_files};
ghost use Rattle.sqlite.specs.Steps.{over_memory};
ghost use Rattle.outer_traits.specs.Faults.{Rose};
ghost use Rattle.outer_traits.specs.Plans.{one_more};
ghost use Rattle.sqlite_wal.specs.Files.{image_at};
ghost use Rattle.report_queue.specs.Marking.{Marked, MarksStay, MarksWith, Reopened};
ghost use Rattle.marks_sqlite.specs.Causes.{FailsToLoad, FailsToMark, FailsToSettle, IsUnadopted};
ghost use Rattle.marks_sqlite.specs.Finding.{HasNone, HasTable};
ghost use Rattle.marks_sqlite.specs.Keeping.{planned, doubtful, after_fault};
ghost use Rattle.marks_sqlite.specs.Opened.{IsAdoptable, StartHolds};
ghost use Rattle.marks_sqlite.specs.Tables.{Adds, HasAny, Keeps, Loads, Opens};
ghost use Rattle.marks_sqlite.specs.Telling.{database, IsUnused, Settles, TellsHeld, TellsMarks};

use crate::lasting::Lasting;
use crate::statements::{insert, load_marks};
use crate::tables::{make_table, open_table};
use history_keeper::{KeeperPlan, KeeperRefusal};
use history_sqlite::database_files::open_path;
use history_sqlite::refusal::refusal_of_error;
use report_queue::{DoubtfulMark, MarkKeeper};
use sqlite::{Connection, FileFrom, FileStore, MemStore, Start};
use std::alloc::Global;
use std::marker::Model;
use std::rt::HostRuntime;

/// A keeper whose marks stand in a table of a database. `D` is the store of its connection.
#[derive(Drop)]
pub struct SqlMarks<D: Lasting> {
    connection: Connection<D>,
    doubt: Option<DoubtfulMark>,
    plan: Vec<KeeperPlan>,
    calls: u64,
    faults: u64,
    tells: bool,
    alloc: Global,
}

impl<D: Lasting> Model for SqlMarks<D> {
    ghost use Rattle.sqlite.specs.Held.{state};
    ghost use Rattle.marks_sqlite.specs.Keeping.{Keeping, keeping_code};
    ghost use Rattle.marks_sqlite.specs.Telling.{Knows};

    ghost Value = { Keeping D };

    ghost coded = { keeping_code D.code };

    ghost view = { λ s. record { connection = s.connection; doubt = s.doubt; plan = s.plan.items; calls = s.calls; faults = s.faults; tells = s.tells } };

    ghost invariant = { λ s. Knows s.tells D.Lasting.supposed (state D.Store s.connection) };
}

impl SqlMarks<MemStore> {
    /// A keeper without marks, over a database in memory. It tells its marks.
    pub fn memory(alloc: Global) -> Result<SqlMarks<MemStore>, KeeperRefusal>
        ensures unused { IfOk result (λ keeper. IsUnused true [] keeper) }
        ensures tells { IfOk result (λ keeper. TellsMarks over_memory (Unit {0}) keeper []) }
    {
        SqlMarks::planned(alloc, Vec::new(alloc))
    }

    /// The same, and the planned calls fail. Of two plans for one call the first counts. A planned mark that is to be
    /// kept is made at the next reopening that isn't planned.
    pub fn planned(
        alloc: Global,
        plan: Vec<KeeperPlan>,
    ) -> Result<SqlMarks<MemStore>, KeeperRefusal>
        ensures unused { IfOk result (λ keeper. IsUnused true plan.items keeper) }
        ensures tells { IfOk result (λ keeper. TellsMarks over_memory (Unit {0}) keeper []) }
    {
        let mut connection = match Connection::open_in_memory(alloc) {
            Ok(connection) => connection,
            Err(_) => return Err(KeeperRefusal::NoMemory),
        };
        match make_table(&mut connection) {
            Ok(()) => Ok(SqlMarks {
                connection,
                doubt: None,
                plan,
                calls: 0,
                faults: 0,
                tells: true,
                alloc,
            }),
            Err(error) => Err(refusal_of_error(error)),
        }
    }

    /// Whether it tells its marks. One that does tells some at each moment: its connection is never shut.
    pub fn is_telling(&self) -> bool
        ensures may { result ≡ self.now.tells }
        ensures known { IsTrue result → (all : List ℕ) × TellsMarks over_memory (Unit {0}) self.now all }
    {
        self.tells
    }
}

impl<S: Start> SqlMarks<FileStore<FileFrom<S>>> {
    /// A keeper over the file at the path, which is made where it isn't there. It is a fault where the file can't be
    /// opened, is no database, has another table of that name, or has a number that is no entry. Such a file is left as
    /// it was.
    ///
    /// `S` stands for what the file and its log held, which no code can read. Where they held a table of marks, the
    /// keeper tells these marks, and none where they held no table, while the disk returns what was written.
    pub fn file(
        rt: &HostRuntime,
        path: &str,
        start: S,
    ) -> Result<SqlMarks<FileStore<FileFrom<S>>>, KeeperRefusal>
        ensures unused { IfOk result (λ keeper. IsUnused true [] keeper) }
        ensures tells { IfOk result (λ keeper. (marks : List ℕ) → StartHolds S.Start marks → HasCleanDisk (database over_files keeper) → TellsHeld S.Start over_files keeper marks) }
        ensures adopted { IfOk result (λ keeper. HasCleanDisk (database over_files keeper) → IsAdoptable (image_at S.Start)) }
    {
        let connection = open_path(rt, path, start)?;
        SqlMarks::adopt_so(rt.alloc(), connection, Vec::new(rt.alloc()), true)
    }
}

impl<D: Lasting + Drop> SqlMarks<D> {
    /// A keeper over an open connection, whose database is empty or has the table. It tells no marks. The marks are
    /// left, and an empty database has the table without a mark, while the disk returns what was written. It is a fault
    /// where a transaction is open, the table is another one, a number is no entry, or the database refuses a statement.
    /// A refusal lets go of the connection.
    pub fn adopt(alloc: Global, connection: Connection<D>) -> Result<SqlMarks<D>, KeeperRefusal>
        ensures unused { IfOk result (λ keeper. IsUnused false [] keeper) }
        ensures opens { IfOk result (λ keeper. HasCleanDisk (database D.Store keeper) → Opens (state D.Store connection) (database D.Store keeper)) }
        ensures adopted { OnOk result (HasNone connection.schema ⊎ HasTable connection.schema) }
        ensures cause { IfErr result (λ why. IsUnadopted D.Store why (record connection { step_limit = None })) }
    {
        SqlMarks::adopt_planned(alloc, connection, Vec::new(alloc))
    }

    /// The same, and the planned calls fail, as those of `planned`.
    pub fn adopt_planned(
        alloc: Global,
        connection: Connection<D>,
        plan: Vec<KeeperPlan>,
    ) -> Result<SqlMarks<D>, KeeperRefusal>
        ensures unused { IfOk result (λ keeper. IsUnused false plan.items keeper) }
        ensures opens { IfOk result (λ keeper. HasCleanDisk (database D.Store keeper) → Opens (state D.Store connection) (database D.Store keeper)) }
        ensures adopted { OnOk result (HasNone connection.schema ⊎ HasTable connection.schema) }
        ensures cause { IfErr result (λ why. IsUnadopted D.Store why (record connection { step_limit = None })) }
    {
        SqlMarks::adopt_so(alloc, connection, plan, false)
    }

    // The same, and the keeper may tell its marks. Then what is supposed of its store says that the database has marks,
    // or no table.
    fn adopt_so(
        alloc: Global,
        connection: Connection<D>,
        plan: Vec<KeeperPlan>,
        tells: bool,
    ) -> Result<SqlMarks<D>, KeeperRefusal>
        requires { tells ≡ true → D.Lasting.supposed → HasCleanDisk (state D.Store connection) → HasAny (state D.Store (record connection { step_limit = None })) }
        ensures unused { IfOk result (λ keeper. IsUnused tells plan.items keeper) }
        ensures opens { IfOk result (λ keeper. HasCleanDisk (database D.Store keeper) → Opens (state D.Store connection) (database D.Store keeper)) }
        ensures clean { IfOk result (λ keeper. HasCleanDisk (database D.Store keeper) → HasCleanDisk (state D.Store connection)) }
        ensures adopted { OnOk result (HasNone connection.schema ⊎ HasTable connection.schema) }
        ensures cause { IfErr result (λ why. IsUnadopted D.Store why (record connection { step_limit = None })) }
    {
        let mut connection = connection;
        connection.set_step_limit(None);
        open_table(&mut connection)?;
        let _marks = load_marks(&mut connection, alloc)?;
        Ok(SqlMarks {
            connection,
            doubt: None,
            plan,
            calls: 0,
            faults: 0,
            tells,
            alloc,
        })
    }

    /// Gives the connection back, and ends the keeper.
    pub fn into_connection(self) -> Connection<D>
        ensures { result ≡ self.connection }
    {
        let SqlMarks {
            connection,
            doubt: _,
            plan: _,
            calls: _,
            faults: _,
            tells: _,
            alloc: _,
        } = self;
        connection
    }
}

impl<D: Lasting> SqlMarks<D> {
    /// How many calls there were that did not want for memory.
    pub fn calls(&self) -> u64
        ensures { result ≡ self.now.calls }
    {
        self.calls
    }

    // What is planned for the next call.
    fn next_plan(&self) -> Option<KeeperPlan>
        ensures { result ≡ planned self.now }
    {
        plan_of(&self.plan, self.calls.saturating_add(1))
    }

    fn count_call(&mut self)
        ensures { self.new ≡ record self.old { calls = one_more self.old.calls } }
    {
        self.calls = self.calls.saturating_add(1);
    }

    fn count_fault(&mut self)
        ensures counted { self.new ≡ after_fault self.old }
        ensures no_fall { self.old.faults ≤ self.new.faults }
    {
        self.calls = self.calls.saturating_add(1);
        self.faults = self.faults.saturating_add(1);
    }

    // Counts a refusal that is a fault.
    fn count_refusal(&mut self, refusal: KeeperRefusal)
        ensures same { self.new ≡ record self.old { calls = self.new.calls; faults = self.new.faults } }
        ensures rose { refusal ≡ KeeperRefusal.Fault → Rose self.old.faults self.new.faults }
        ensures quiet { (refusal ≡ KeeperRefusal.Fault) ⊎ (self.new ≡ self.old) }
        ensures numbered { refusal ≢ KeeperRefusal.NoMemory → self.new.calls ≡ one_more self.old.calls }
        ensures no_fall { self.old.faults ≤ self.new.faults }
    {
        match refusal {
            KeeperRefusal::Fault => self.count_fault(),
            KeeperRefusal::NoMemory => {}
        }
    }
}

impl<D: Lasting> SqlMarks<D> {
    // Reads the marks.
    fn read(&mut self, alloc: Global) -> Result<Vec<u32>, KeeperRefusal>
        ensures same { self.new ≡ record self.old { connection = self.new.connection } }
        ensures answer { IfOk result (λ loaded. (all : List ℕ) → TellsMarks D.Store D.Lasting.supposed self.new all → loaded.items ≡ all) }
        ensures unchanged { MarksStay (TellsMarks D.Store D.Lasting.supposed self.old) (TellsMarks D.Store D.Lasting.supposed self.new) }
        ensures loads { HasCleanDisk (database D.Store self.new) → IfOk result (λ loaded. Loads (database D.Store self.old) (database D.Store self.new) loaded.items) }
        ensures refused { HasCleanDisk (database D.Store self.new) → IsTrue (database D.Store self.new).is_open → OnErr result (Keeps (database D.Store self.old) (database D.Store self.new)) }
        ensures failed { HasCleanDisk (database D.Store self.new) → IfErr result (λ why. FailsToLoad why (database D.Store self.old) (database D.Store self.new)) }
        ensures clean { HasCleanDisk (database D.Store self.new) → HasCleanDisk (database D.Store self.old) }
        ensures was_open { HasCleanDisk (database D.Store self.new) → IsTrue (database D.Store self.new).is_open → IsTrue (database D.Store self.old).is_open }
    {
        load_marks(&mut self.connection, alloc)
    }

    // Marks the entry. Where it was marked there is no doubt left.
    fn write(&mut self, entry: u32) -> Result<(), KeeperRefusal>
        ensures made { OnOk result (MarksWith entry (TellsMarks D.Store D.Lasting.supposed self.old) (TellsMarks D.Store D.Lasting.supposed self.new)) }
        ensures no_doubt { OnOk result (self.new ≡ record self.old { connection = self.new.connection; doubt = None }) }
        ensures unchanged { OnErr result (MarksStay (TellsMarks D.Store D.Lasting.supposed self.old) (TellsMarks D.Store D.Lasting.supposed self.new)) }
        ensures same { OnErr result (self.new ≡ record self.old { connection = self.new.connection }) }
        ensures adds { HasCleanDisk (database D.Store self.new) → OnOk result (Adds (database D.Store self.old) (database D.Store self.new) entry) }
        ensures refused { HasCleanDisk (database D.Store self.new) → IsTrue (database D.Store self.new).is_open → OnErr result (Keeps (database D.Store self.old) (database D.Store self.new)) }
        ensures failed { HasCleanDisk (database D.Store self.new) → IfErr result (λ why. FailsToMark why entry (database D.Store self.old) (database D.Store self.new)) }
        ensures clean { HasCleanDisk (database D.Store self.new) → HasCleanDisk (database D.Store self.old) }
        ensures was_open { HasCleanDisk (database D.Store self.new) → IsTrue (database D.Store self.new).is_open → IsTrue (database D.Store self.old).is_open }
    {
        match insert(&mut self.connection, entry) {
            Ok(()) => {
                self.doubt = None;
                Ok(())
            }
            Err(refusal) => Err(refusal),
        }
    }

    // Reads the marks once more, and then makes the doubtful one where it is to be kept.
    fn settle(&mut self) -> Result<(), KeeperRefusal>
        ensures reopened { Reopened result (TellsMarks D.Store D.Lasting.supposed self.old) (doubtful self.old) (TellsMarks D.Store D.Lasting.supposed self.new) (doubtful self.new) }
        ensures same { self.new ≡ record self.old { connection = self.new.connection; doubt = self.new.doubt } }
        ensures settles { HasCleanDisk (database D.Store self.new) → OnOk result (Settles (database D.Store self.old) (database D.Store self.new) self.old.doubt) }
        ensures refused { HasCleanDisk (database D.Store self.new) → IsTrue (database D.Store self.new).is_open → OnErr result (Keeps (database D.Store self.old) (database D.Store self.new)) }
        ensures failed { HasCleanDisk (database D.Store self.new) → IfErr result (λ why. FailsToSettle D.Store why self.old.connection self.new.connection self.old.doubt) }
    {
        let alloc = self.alloc;
        let _marks = self.read(alloc)?;
        match self.doubt {
            Some(doubt) if doubt.keep => self.write(doubt.entry),
            _ => {
                self.doubt = None;
                Ok(())
            }
        }
    }
}

impl<D: Lasting> MarkKeeper for SqlMarks<D> {
    ghost use Rattle.marks_sqlite.specs.Keeping.{doubtful};
    ghost use Rattle.marks_sqlite.specs.Telling.{TellsMarks};
    ghost use Rattle.marks_sqlite.specs.OneList.{told_once};

    ghost tells = { TellsMarks D.Store D.Lasting.supposed };

    ghost one_list = { λ s one other told also. told_once told also };

    ghost doubt = { doubtful };

    ghost faults = { λ s. s.faults };

    fn load(&mut self, alloc: Global) -> Result<Vec<u32>, KeeperRefusal>
        requires { doubtful self.old ≡ None }
        ensures loads { HasCleanDisk (database D.Store self.new) → IfOk result (λ loaded. Loads (database D.Store self.old) (database D.Store self.new) loaded.items) }
        ensures refused { HasCleanDisk (database D.Store self.new) → IsTrue (database D.Store self.new).is_open → OnErr result (Keeps (database D.Store self.old) (database D.Store self.new)) }
        ensures failed { HasCleanDisk (database D.Store self.new) → IfErr result (λ why. IsSome (planned self.old) ⊎ FailsToLoad why (database D.Store self.old) (database D.Store self.new)) }
        ensures planned { IsSome (planned self.old) → result ≡ Err KeeperRefusal.Fault }
        ensures idle { IsSome (planned self.old) → self.new ≡ after_fault self.old }
        ensures numbered { result ≢ Err KeeperRefusal.NoMemory → self.new.calls ≡ one_more self.old.calls }
        ensures uncounted { result ≡ Err KeeperRefusal.NoMemory → self.new.calls ≡ self.old.calls }
        ensures plan { self.new.plan ≡ self.old.plan }
        ensures may { self.new.tells ≡ self.old.tells }

        ensures answer { IfOk result (λ loaded. (all : List ℕ) → TellsMarks D.Store D.Lasting.supposed self.new all → loaded.items ≡ all) }
        ensures unchanged { MarksStay (TellsMarks D.Store D.Lasting.supposed self.old) (TellsMarks D.Store D.Lasting.supposed self.new) }
        ensures no_doubt { doubtful self.new ≡ None }
        ensures cause { result ≡ Err KeeperRefusal.Fault → Rose self.old.faults self.new.faults }
        ensures quiet { (result ≡ Err KeeperRefusal.Fault) ⊎ (self.new.faults ≡ self.old.faults) }
        ensures counts { self.old.faults ≤ self.new.faults }
    {
        if self.next_plan().is_some() {
            self.count_fault();
            return Err(KeeperRefusal::Fault);
        }
        match self.read(alloc) {
            Ok(marks) => {
                self.count_call();
                Ok(marks)
            }
            Err(refusal) => {
                self.count_refusal(refusal);
                Err(refusal)
            }
        }
    }

    fn mark(&mut self, entry: u32) -> Result<(), KeeperRefusal>
        requires { doubtful self.old ≡ None }
        ensures adds { HasCleanDisk (database D.Store self.new) → OnOk result (Adds (database D.Store self.old) (database D.Store self.new) entry) }
        ensures refused { HasCleanDisk (database D.Store self.new) → IsTrue (database D.Store self.new).is_open → OnErr result (Keeps (database D.Store self.old) (database D.Store self.new)) }
        ensures failed { HasCleanDisk (database D.Store self.new) → IfErr result (λ why. IsSome (planned self.old) ⊎ FailsToMark why entry (database D.Store self.old) (database D.Store self.new)) }
        ensures planned { IsSome (planned self.old) → result ≡ Err KeeperRefusal.Fault }
        ensures idle { IfSome (planned self.old) (λ plan. self.new ≡ record (after_fault self.old) { doubt = Some (record { entry = entry; keep = plan.keep }) }) }
        ensures unplanned { result ≡ Err KeeperRefusal.Fault → planned self.old ≡ None → self.new.doubt ≡ Some (record { entry = entry; keep = false }) }
        ensures numbered { result ≢ Err KeeperRefusal.NoMemory → self.new.calls ≡ one_more self.old.calls }
        ensures uncounted { result ≡ Err KeeperRefusal.NoMemory → self.new.calls ≡ self.old.calls }
        ensures plan { self.new.plan ≡ self.old.plan }
        ensures may { self.new.tells ≡ self.old.tells }

        ensures marked { Marked entry result (TellsMarks D.Store D.Lasting.supposed self.old) (TellsMarks D.Store D.Lasting.supposed self.new) (doubtful self.new) }
        ensures cause { result ≡ Err KeeperRefusal.Fault → Rose self.old.faults self.new.faults }
        ensures quiet { (result ≡ Err KeeperRefusal.Fault) ⊎ (self.new.faults ≡ self.old.faults) }
        ensures counts { self.old.faults ≤ self.new.faults }
    {
        if let Some(plan) = self.next_plan() {
            self.count_fault();
            self.doubt = Some(DoubtfulMark {
                entry,
                keep: plan.keep,
            });
            return Err(KeeperRefusal::Fault);
        }
        match self.write(entry) {
            Ok(()) => {
                self.count_call();
                Ok(())
            }
            Err(KeeperRefusal::Fault) => {
                self.count_fault();
                self.doubt = Some(DoubtfulMark { entry, keep: false });
                Err(KeeperRefusal::Fault)
            }
            Err(KeeperRefusal::NoMemory) => Err(KeeperRefusal::NoMemory),
        }
    }

    fn reopen(&mut self) -> Result<(), KeeperRefusal>
        ensures settles { HasCleanDisk (database D.Store self.new) → OnOk result (Settles (database D.Store self.old) (database D.Store self.new) self.old.doubt) }
        ensures refused { HasCleanDisk (database D.Store self.new) → IsTrue (database D.Store self.new).is_open → OnErr result (Keeps (database D.Store self.old) (database D.Store self.new)) }
        ensures failed { HasCleanDisk (database D.Store self.new) → IfErr result (λ why. IsSome (planned self.old) ⊎ FailsToSettle D.Store why self.old.connection self.new.connection self.old.doubt) }
        ensures planned { IsSome (planned self.old) → result ≡ Err KeeperRefusal.Fault }
        ensures idle { IsSome (planned self.old) → self.new ≡ after_fault self.old }
        ensures numbered { result ≢ Err KeeperRefusal.NoMemory → self.new.calls ≡ one_more self.old.calls }
        ensures uncounted { result ≡ Err KeeperRefusal.NoMemory → self.new.calls ≡ self.old.calls }
        ensures plan { self.new.plan ≡ self.old.plan }
        ensures may { self.new.tells ≡ self.old.tells }

        ensures reopened { Reopened result (TellsMarks D.Store D.Lasting.supposed self.old) (doubtful self.old) (TellsMarks D.Store D.Lasting.supposed self.new) (doubtful self.new) }
        ensures cause { result ≡ Err KeeperRefusal.Fault → Rose self.old.faults self.new.faults }
        ensures quiet { (result ≡ Err KeeperRefusal.Fault) ⊎ (self.new.faults ≡ self.old.faults) }
        ensures counts { self.old.faults ≤ self.new.faults }
    {
        if self.next_plan().is_some() {
            self.count_fault();
            return Err(KeeperRefusal::Fault);
        }
        match self.settle() {
            Ok(()) => {
                self.count_call();
                Ok(())
            }
            Err(refusal) => {
                self.count_refusal(refusal);
                Err(refusal)
            }
        }
    }
}

// The first plan for the call of that number.
fn plan_of(plan: &[KeeperPlan], number: u64) -> Option<KeeperPlan>
    ensures { result ≡ find (λ plan. plan.call == number) plan.now }
{
    match first_of(plan, number) {
        Some(plan) => Some(*plan),
        None => None,
    }
}

fn first_of(plan: &[KeeperPlan], number: u64) -> Option<&KeeperPlan>
    ensures { option_copied result ≡ find (λ plan. plan.call == number) plan.now }
{
    plan.iter().find(|plan| plan.call as u64 == number)
}
