//! What no clause says of marks in a table: that calls succeed, and that the table is the one that was meant.
ghost use Rattle.std.specs.Prelude.{◌≡◌, IfOk, None};
ghost use Rattle.marks_sqlite.specs.Keeping.{doubtful};

use history_keeper::{KeeperPlan, KeeperRefusal};
use marks_sqlite::{FileMarks, SqlMarks};
use report_queue::MarkKeeper;
use sqlite::{Connection, MemStore};
use std::alloc::Global;
use std::fs;
use std::rt::HostRuntime;
use std::test::Fail;

#[test]
fn marks_come_back_in_their_order(rt: HostRuntime) -> Result<(), Fail> {
    let alloc = rt.alloc();
    let mut keeper = SqlMarks::memory(alloc)?;
    keeper.mark(3)?;
    keeper.mark(1)?;
    keeper.reopen()?;
    let marks = keeper.load(alloc)?;
    assert_eq!(rt; marks.as_slice(), [3, 1].as_slice());
    assert_eq!(rt; keeper.calls(), 4);
    Ok(())
}

#[test]
fn an_entry_is_marked_once(rt: HostRuntime) -> Result<(), Fail> {
    let alloc = rt.alloc();
    let mut keeper = SqlMarks::memory(alloc)?;
    keeper.mark(4294967295)?;
    assert!(rt; keeper.mark(4294967295) == Err(KeeperRefusal::Fault));
    keeper.reopen()?;
    let marks = keeper.load(alloc)?;
    assert_eq!(rt; marks.as_slice(), [4294967295].as_slice());
    Ok(())
}

// A keeper over memory that fails at its first call.
fn failing(alloc: Global, keep: bool) -> Result<SqlMarks<MemStore>, Fail>
    ensures { IfOk result (λ keeper. doubtful keeper ≡ None) }
{
    let mut plan = Vec::new(alloc);
    plan.push(KeeperPlan { call: 1, keep })?;
    Ok(SqlMarks::planned(alloc, plan)?)
}

// Whether a mark whose call fails is refused, and how many marks are found later.
fn planned_mark(alloc: Global, keep: bool) -> Result<(bool, usize), Fail> {
    let mut keeper = failing(alloc, keep)?;
    let refused = keeper.mark(7) == Err(KeeperRefusal::Fault);
    keeper.reopen()?;
    let marks = keeper.load(alloc)?;
    Ok((refused, marks.len()))
}

#[test]
fn a_planned_mark_is_kept_or_lost(rt: HostRuntime) -> Result<(), Fail> {
    assert!(rt; planned_mark(rt.alloc(), false)? == (true, 0));
    assert!(rt; planned_mark(rt.alloc(), true)? == (true, 1));
    Ok(())
}

// How many marks a keeper over this database finds.
fn found(alloc: Global, tables: &str) -> Result<usize, KeeperRefusal> {
    let mut connection = match Connection::open_in_memory(alloc) {
        Ok(connection) => connection,
        Err(_) => return Err(KeeperRefusal::NoMemory),
    };
    if connection.execute_batch(tables).is_err() {
        return Err(KeeperRefusal::NoMemory);
    }
    let mut keeper = SqlMarks::adopt(alloc, connection)?;
    let marks = keeper.load(alloc)?;
    Ok(marks.len())
}

const OWN_TABLE: &str =
    "CREATE TABLE reported (place INTEGER PRIMARY KEY, entry INTEGER NOT NULL UNIQUE) STRICT; INSERT INTO reported (entry) VALUES (5), (2);";

const OTHER_TABLES: [&str; 4] = [
    "CREATE TABLE reported (place INTEGER PRIMARY KEY, entry INTEGER NOT NULL) STRICT;",
    "CREATE TABLE reported (entry INTEGER NOT NULL UNIQUE) STRICT;",
    "CREATE TABLE reported (place INTEGER PRIMARY KEY, entry INTEGER NOT NULL UNIQUE) STRICT; INSERT INTO reported (entry) VALUES (4294967296);",
    "CREATE TABLE reported (place INTEGER PRIMARY KEY, entry INTEGER NOT NULL UNIQUE) STRICT; INSERT INTO reported (entry) VALUES (-1);",
];

#[test]
fn another_table_is_a_fault(rt: HostRuntime) -> Result<(), Fail> {
    let alloc = rt.alloc();
    assert!(rt; found(alloc, "") == Ok(0));
    assert!(rt; found(alloc, OWN_TABLE) == Ok(2));
    for tables in &OTHER_TABLES {
        let refused = found(alloc, *tables) == Err(KeeperRefusal::Fault);
        assert!(rt; refused, "{tables}");
    }
    Ok(())
}

// Opens the marks of a file, and marks one entry more.
fn mark_one(rt: &HostRuntime, path: &str, entry: u32) -> Result<(), Fail> {
    let mut keeper = FileMarks::open(rt, path)?;
    keeper.mark(entry)?;
    Ok(())
}

#[test]
fn a_file_keeps_its_marks(rt: HostRuntime) -> Result<(), Fail> {
    let _ = fs::remove_dir_all(&rt, "history_tests_marks");
    fs::create_dir(&rt, "history_tests_marks")?;
    for entry in 1..4 {
        mark_one(&rt, "history_tests_marks/reports.db", entry)?;
    }
    let mut keeper = FileMarks::open(&rt, "history_tests_marks/reports.db")?;
    let marks = keeper.load(rt.alloc())?;
    assert_eq!(rt; marks.as_slice(), [1, 2, 3].as_slice());
    fs::remove_dir_all(&rt, "history_tests_marks")?;
    Ok(())
}
