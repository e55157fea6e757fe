//! What no clause says: that calls succeed, and that the tables are the ones that were meant.
ghost use Rattle.std.specs.Prelude.{◌≡◌, ◌≤◌, IfOk, List, None, [], false};
ghost use Rattle.sqlite.specs.Steps.{over_memory};
ghost use Rattle.history_keeper.specs.declared.row.Row.{Row};
ghost use Rattle.history_sqlite.specs.Keeping.{doubtful};
ghost use Rattle.history_sqlite.specs.Telling.{TellsRows};

use fw_base::Name;
use guid_ids::{DeviceId, device_id};
use history_keeper::{Change, Keeper, KeeperPlan, KeeperRefusal, Row, RowState};
use history_sqlite::database_files::open_path;
use history_sqlite::{FileKeeper, SqlKeeper};
use sqlite::{Connection, MemStore, Unknown};
use std::alloc::Global;
use std::fs;
use std::rt::HostRuntime;
use std::test::Fail;
use version_formats::Version;

// The texts of a row, which are the same in each.
#[derive(Clone, Copy)]
struct Texts {
    component: Name,
    version_old: Version,
    version_new: Version,
    protocol: Name,
}

fn read_texts() -> Result<Texts, Fail> {
    Ok(Texts {
        component: Name::read(b"org.example.board")?,
        version_old: Version::read(b"1.0.0")?,
        version_new: Version::read(b"1.1.0")?,
        protocol: Name::read(b"org.usb.dfu")?,
    })
}

fn row(entry: u32, tag: &[u8], device: &[u8], state: RowState) -> Result<Row, Fail>
    ensures entry { IfOk result (λ row. row.entry ≡ entry) }
    ensures added { IfOk result (λ row. row.time_added ≡ 1000) }
    ensures changed { IfOk result (λ row. row.time_changed ≡ 1001) }
{
    let texts = read_texts()?;
    Ok(Row {
        entry,
        tag: Name::read(tag)?,
        client: 3,
        device: device_id(device, None),
        component: texts.component,
        version_old: texts.version_old,
        version_new: texts.version_new,
        digest: [7; 32],
        flags: 5,
        state,
        reason: 0,
        time_added: 1000,
        time_changed: 1001,
        duration: 30,
        protocol: Some(texts.protocol),
        retry_of: Some(9),
    })
}

// The row as schema 1 tells it.
fn older(row: Row) -> Row {
    Row {
        duration: 0,
        protocol: None,
        retry_of: None,
        ..row
    }
}

// Each field by itself, as numbers and bytes.
fn is_same(a: &Row, b: &Row) -> bool {
    a.entry == b.entry
        && a.tag == b.tag
        && a.client == b.client
        && a.device == b.device
        && a.component == b.component
        && a.version_old == b.version_old
        && a.version_new == b.version_new
        && a.digest == b.digest
        && a.flags == b.flags
        && a.state == b.state
        && a.reason == b.reason
        && a.time_added == b.time_added
        && a.time_changed == b.time_changed
        && a.duration == b.duration
        && a.protocol == b.protocol
        && a.retry_of == b.retry_of
}

// A keeper over memory that tells no rows.
fn silent(alloc: Global) -> Result<SqlKeeper<MemStore>, Fail>
    ensures silent { IfOk result (λ keeper. keeper.tells ≡ false) }
    ensures no_doubt { IfOk result (λ keeper. doubtful keeper ≡ None) }
{
    let connection = Connection::open_in_memory(alloc)?;
    Ok(SqlKeeper::adopt(alloc, connection)?)
}

// A keeper over memory that tells its rows, and fails at one call.
fn failing(alloc: Global, call: u32, keep: bool) -> Result<SqlKeeper<MemStore>, Fail>
    ensures rows { IfOk result (λ keeper. (all : List Row) → TellsRows over_memory (Unit {0}) keeper all → all ≡ []) }
    ensures no_doubt { IfOk result (λ keeper. doubtful keeper ≡ None) }
{
    let mut plan = Vec::new(alloc);
    plan.push(KeeperPlan { call, keep })?;
    Ok(SqlKeeper::planned(alloc, plan)?)
}

// Whether these are the two rows, in this order, and no other.
fn are_these(rows: &[Row], first: &Row, second: &Row) -> bool {
    rows.len() == 2 && is_same(&rows[0], first) && is_same(&rows[1], second)
}

// A row that was begun, and one that was pending and has failed.
fn make_two(keeper: &mut SqlKeeper<MemStore>) -> Result<(), Fail>
    requires silent { keeper.old.tells ≡ false }
    requires no_doubt { doubtful keeper.old ≡ None }
{
    let first = row(1, b"t1", b"usb1", RowState::Begun)?;
    let second = row(2, b"t2", b"usb2", RowState::Pending)?;
    keeper.commit(&Change::Add(first))?;
    keeper.commit(&Change::Add(second))?;
    keeper.commit(&Change::Advance {
        entry: 2,
        state: RowState::Failed,
        reason: 10,
        time: 2000,
    })?;
    Ok(())
}

// Whether these are the rows that `make_two` makes.
fn are_the_two(rows: &[Row]) -> Result<bool, Fail> {
    let first = row(1, b"t1", b"usb1", RowState::Begun)?;
    let mut second = row(2, b"t2", b"usb2", RowState::Failed)?;
    second.reason = 10;
    second.time_changed = 2000;
    Ok(are_these(rows, &first, &second))
}

#[test]
fn rows_come_back(rt: HostRuntime) -> Result<(), Fail> {
    let alloc = rt.alloc();
    let mut keeper = silent(alloc)?;
    make_two(&mut keeper)?;
    keeper.reopen()?;
    let rows = keeper.load(alloc)?;
    assert!(rt; are_the_two(&rows)?);
    assert_eq!(rt; keeper.calls(), 5);
    Ok(())
}

#[test]
fn a_told_row_comes_back(rt: HostRuntime) -> Result<(), Fail> {
    let alloc = rt.alloc();
    let mut keeper = SqlKeeper::memory(alloc)?;
    keeper.commit(&Change::Add(row(1, b"t1", b"usb1", RowState::NeedsReboot)?))?;
    keeper.reopen()?;
    let rows = keeper.load(alloc)?;
    let first = row(1, b"t1", b"usb1", RowState::NeedsReboot)?;
    assert_eq!(rt; rows.len(), 1);
    assert!(rt; is_same(&rows[0], &first));
    Ok(())
}

#[test]
fn a_tag_comes_once(rt: HostRuntime) -> Result<(), Fail> {
    let alloc = rt.alloc();
    let mut keeper = silent(alloc)?;
    keeper.commit(&Change::Add(row(1, b"t1", b"usb1", RowState::Begun)?))?;
    let again = keeper.commit(&Change::Add(row(2, b"t1", b"usb2", RowState::Begun)?));
    assert!(rt; again == Err(KeeperRefusal::Fault));
    keeper.reopen()?;
    let rows = keeper.load(alloc)?;
    assert_eq!(rt; rows.len(), 1);
    Ok(())
}

// Whether a commit whose call fails is refused, how many rows are found later, and how many calls were made.
fn planned_commit(alloc: Global, keep: bool) -> Result<(bool, usize, u64), Fail> {
    let mut keeper = failing(alloc, 1, keep)?;
    let begun = row(1, b"t1", b"usb1", RowState::Begun)?;
    let stored = keeper.commit(&Change::Add(begun));
    keeper.reopen()?;
    let count = keeper.load(alloc)?.len();
    Ok((stored == Err(KeeperRefusal::Fault), count, keeper.calls()))
}

#[test]
fn a_planned_commit_is_kept_or_lost(rt: HostRuntime) -> Result<(), Fail> {
    let alloc = rt.alloc();
    assert!(rt; planned_commit(alloc, false)? == (true, 0, 3));
    assert!(rt; planned_commit(alloc, true)? == (true, 1, 3));
    Ok(())
}

#[test]
fn planned_loads_and_reopenings_fail(rt: HostRuntime) -> Result<(), Fail> {
    let alloc = rt.alloc();
    let mut first = failing(alloc, 1, false)?;
    assert!(rt; first.load(alloc).err() == Some(KeeperRefusal::Fault));
    let mut second = failing(alloc, 1, true)?;
    assert!(rt; second.reopen() == Err(KeeperRefusal::Fault));
    second.reopen()?;
    Ok(())
}

const SCHEMA: &str = "CREATE TABLE schema (number INTEGER NOT NULL) STRICT;";

const HISTORY: &str = "CREATE TABLE history2 (
  entry INTEGER PRIMARY KEY,
  tag TEXT NOT NULL UNIQUE,
  client INTEGER NOT NULL,
  device BLOB NOT NULL,
  component TEXT NOT NULL,
  version_old TEXT NOT NULL,
  version_new TEXT NOT NULL,
  digest BLOB NOT NULL,
  flags INTEGER NOT NULL,
  state INTEGER NOT NULL,
  reason INTEGER NOT NULL,
  time_added INTEGER NOT NULL,
  time_changed INTEGER NOT NULL,
  duration INTEGER NOT NULL,
  protocol TEXT,
  retry_of INTEGER
) STRICT;";

const OLDER_HISTORY: &str = "CREATE TABLE history (
  entry INTEGER PRIMARY KEY,
  tag TEXT NOT NULL UNIQUE,
  client INTEGER NOT NULL,
  device BLOB NOT NULL,
  component TEXT NOT NULL,
  version_old TEXT NOT NULL,
  version_new TEXT NOT NULL,
  digest BLOB NOT NULL,
  flags INTEGER NOT NULL,
  state INTEGER NOT NULL,
  reason INTEGER NOT NULL,
  time_added INTEGER NOT NULL,
  time_changed INTEGER NOT NULL
) STRICT;";

const FIRST: &str = "INSERT INTO schema (number) VALUES (1);";

const SECOND: &str = "INSERT INTO schema (number) VALUES (2);";

// Columns and rules of the tables that are other ones than a keeper makes.
const OTHER_COLUMNS: [(&str, &str); 7] = [
    (
        "  retry_of INTEGER\n",
        "  retry_of INTEGER,\n  more INTEGER\n",
    ),
    ("  protocol TEXT,\n", "  protocol TEXT NOT NULL,\n"),
    (
        "  flags INTEGER NOT NULL,\n  state INTEGER NOT NULL,\n",
        "  state INTEGER NOT NULL,\n  flags INTEGER NOT NULL,\n",
    ),
    ("  reason INTEGER NOT NULL,\n", "  reason TEXT NOT NULL,\n"),
    ("tag TEXT NOT NULL UNIQUE", "tag TEXT NOT NULL"),
    (
        "  flags INTEGER NOT NULL,\n",
        "  flags INTEGER NOT NULL CHECK (flags < 4),\n",
    ),
    (
        "(number INTEGER NOT NULL)",
        "(number INTEGER NOT NULL, more INTEGER)",
    ),
];

// How many rows a keeper over this database finds.
fn found(alloc: Global, tables: &str, rows: &str) -> Result<usize, KeeperRefusal> {
    let mut connection = match Connection::open_in_memory(alloc) {
        Ok(connection) => connection,
        Err(_) => return Err(KeeperRefusal::NoMemory),
    };
    if connection.execute_batch(tables).is_err() || connection.execute_batch(rows).is_err() {
        return Err(KeeperRefusal::NoMemory);
    }
    let mut keeper = SqlKeeper::adopt(alloc, connection)?;
    let rows = keeper.load(alloc)?;
    Ok(rows.len())
}

#[test]
fn tables_of_its_own_are_found_empty(rt: HostRuntime) -> Result<(), Fail> {
    let alloc = rt.alloc();
    let tables = format!(in alloc; "{SCHEMA}{HISTORY}")?;
    assert!(rt; found(alloc, "", "") == Ok(0));
    assert!(rt; found(alloc, tables.as_str(), SECOND) == Ok(0));
    assert!(rt; found(alloc, "CREATE TABLE other (a INTEGER) STRICT;", "") == Ok(0));
    Ok(())
}

#[test]
fn one_table_of_two_is_a_fault(rt: HostRuntime) -> Result<(), Fail> {
    let alloc = rt.alloc();
    assert!(rt; found(alloc, SCHEMA, SECOND) == Err(KeeperRefusal::Fault));
    assert!(rt; found(alloc, HISTORY, "") == Err(KeeperRefusal::Fault));
    Ok(())
}

#[test]
fn other_columns_are_a_fault(rt: HostRuntime) -> Result<(), Fail> {
    let alloc = rt.alloc();
    let tables = format!(in alloc; "{SCHEMA}{HISTORY}")?;
    for (old, new) in &OTHER_COLUMNS {
        let other = tables.replace(alloc, *old, *new)?;
        let refused = found(alloc, other.as_str(), SECOND) == Err(KeeperRefusal::Fault);
        assert!(rt; refused, "{new}");
    }
    Ok(())
}

// Numbers in the table `schema` that no keeper writes.
const NUMBERS: [&str; 4] = [
    "INSERT INTO schema VALUES (2), (2);",
    "INSERT INTO schema VALUES (1);",
    "INSERT INTO schema VALUES (3);",
    "",
];

#[test]
fn other_numbers_of_a_schema_are_a_fault(rt: HostRuntime) -> Result<(), Fail> {
    let alloc = rt.alloc();
    let tables = format!(in alloc; "{SCHEMA}{HISTORY}")?;
    for number in &NUMBERS {
        let count = found(alloc, tables.as_str(), *number).ok();
        assert!(rt; count == None, "{number}");
    }
    Ok(())
}

// Values of one row, and how many rows are found then, if it is no fault.
const ONE_ROW: [(&str, Option<usize>); 15] = [
    (
        "(1, 't', 1, x'0000000000000000000000000000000000000000', 'c', '1', '2', x'0000000000000000000000000000000000000000000000000000000000000000', 0, 100, 0, 5, 5, 0, NULL, NULL)",
        Some(1),
    ),
    (
        "(1, 't', 1, x'00000000000000000000000000000000000000', 'c', '1', '2', x'0000000000000000000000000000000000000000000000000000000000000000', 0, 100, 0, 5, 5, 0, NULL, NULL)",
        None,
    ),
    (
        "(1, 't', 1, x'0000000000000000000000000000000000000000', 'c', '1', '2', x'00000000000000000000000000000000000000000000000000000000000000', 0, 100, 0, 5, 5, 0, NULL, NULL)",
        None,
    ),
    (
        "(1, 't', 1, x'0000000000000000000000000000000000000000', 'c', '1', '2', x'0000000000000000000000000000000000000000000000000000000000000000', 0, 5, 0, 5, 5, 0, NULL, NULL)",
        None,
    ),
    (
        "(1, 't', -1, x'0000000000000000000000000000000000000000', 'c', '1', '2', x'0000000000000000000000000000000000000000000000000000000000000000', 0, 4, 0, 5, 5, 0, NULL, NULL)",
        None,
    ),
    (
        "(4294967296, 't', 1, x'0000000000000000000000000000000000000000', 'c', '1', '2', x'0000000000000000000000000000000000000000000000000000000000000000', 0, 3, 0, 5, 5, 0, NULL, NULL)",
        None,
    ),
    (
        "(1, 't u', 1, x'0000000000000000000000000000000000000000', 'c', '1', '2', x'0000000000000000000000000000000000000000000000000000000000000000', 0, 2, 0, 5, 5, 0, NULL, NULL)",
        None,
    ),
    (
        "(1, 't', 1, x'0000000000000000000000000000000000000000', 'c', '', '2', x'0000000000000000000000000000000000000000000000000000000000000000', 0, 1, 0, 5, 5, 0, NULL, NULL)",
        None,
    ),
    (
        "(1, 't', 1, x'0000000000000000000000000000000000000000', 'c', '1', '2', x'0000000000000000000000000000000000000000000000000000000000000000', 256, 1, 0, 5, 5, 0, NULL, NULL)",
        None,
    ),
    (
        "(1, 't', 1, x'0000000000000000000000000000000000000000', 'c', '1', '2', x'0000000000000000000000000000000000000000000000000000000000000000', 0, 100, 0, 5, 5, 4294967295, 'org.usb.dfu', 4294967295)",
        Some(1),
    ),
    (
        "(1, 't', 1, x'0000000000000000000000000000000000000000', 'c', '1', '2', x'0000000000000000000000000000000000000000000000000000000000000000', 0, 100, 0, 5, 5, 4294967296, NULL, NULL)",
        None,
    ),
    (
        "(1, 't', 1, x'0000000000000000000000000000000000000000', 'c', '1', '2', x'0000000000000000000000000000000000000000000000000000000000000000', 0, 100, 0, 5, 5, -1, NULL, NULL)",
        None,
    ),
    (
        "(1, 't', 1, x'0000000000000000000000000000000000000000', 'c', '1', '2', x'0000000000000000000000000000000000000000000000000000000000000000', 0, 100, 0, 5, 5, 0, 't u', NULL)",
        None,
    ),
    (
        "(1, 't', 1, x'0000000000000000000000000000000000000000', 'c', '1', '2', x'0000000000000000000000000000000000000000000000000000000000000000', 0, 100, 0, 5, 5, 0, NULL, -1)",
        None,
    ),
    (
        "(1, 't', 1, x'0000000000000000000000000000000000000000', 'c', '1', '2', x'0000000000000000000000000000000000000000000000000000000000000000', 0, 100, 0, 5, 5, 0, NULL, 4294967296)",
        None,
    ),
];

#[test]
fn a_row_out_of_range_is_a_fault(rt: HostRuntime) -> Result<(), Fail> {
    let alloc = rt.alloc();
    let tables = format!(in alloc; "{SCHEMA}{HISTORY}")?;
    for (values, want) in &ONE_ROW {
        let rows = format!(in alloc; "{SECOND} INSERT INTO history2 VALUES {values};")?;
        let count = found(alloc, tables.as_str(), rows.as_str()).ok();
        assert!(rt; count == *want, "{rows}");
    }
    Ok(())
}

// Two rows of schema 1, as this tool or another wrote them.
const OLDER_ROWS: &str = "INSERT INTO schema VALUES (1);
INSERT INTO history VALUES
  (2, 't2', 3, x'0202020202020202020202020202020202020202', 'org.example.board', '1.0.0', '1.1.0', x'0707070707070707070707070707070707070707070707070707070707070707', 5, 100, 0, 1000, 1001),
  (1, 't1', 3, x'0101010101010101010101010101010101010101', 'org.example.board', '1.0.0', '1.1.0', x'0707070707070707070707070707070707070707070707070707070707070707', 5, 3, 10, 1000, 1001);";

// The rows that a keeper over this database finds, which are left in it as they were where it is no keeper's.
fn taken_over(alloc: Global, tables: &str, rows: &str) -> Result<Vec<Row>, KeeperRefusal> {
    let mut connection = match Connection::open_in_memory(alloc) {
        Ok(connection) => connection,
        Err(_) => return Err(KeeperRefusal::NoMemory),
    };
    if connection.execute_batch(tables).is_err() || connection.execute_batch(rows).is_err() {
        return Err(KeeperRefusal::NoMemory);
    }
    let keeper = SqlKeeper::adopt(alloc, connection)?;
    // Another keeper over the same database finds what the first one left.
    let mut again = SqlKeeper::adopt(alloc, keeper.into_connection())?;
    again.load(alloc)
}

// Whether these are the rows of `OLDER_ROWS`.
fn are_the_older_two(rows: &[Row]) -> Result<bool, Fail> {
    let mut first = older(row(1, b"t1", b"usb1", RowState::Failed)?);
    first.device = DeviceId::from_bytes([1; 20]);
    first.reason = 10;
    let mut second = older(row(2, b"t2", b"usb2", RowState::Begun)?);
    second.device = DeviceId::from_bytes([2; 20]);
    Ok(are_these(rows, &first, &second))
}

#[test]
fn older_rows_are_taken_over(rt: HostRuntime) -> Result<(), Fail> {
    let alloc = rt.alloc();
    let tables = format!(in alloc; "{SCHEMA}{OLDER_HISTORY}")?;
    let rows = taken_over(alloc, tables.as_str(), OLDER_ROWS)?;
    assert!(rt; are_the_older_two(&rows)?);
    Ok(())
}

#[test]
fn older_tables_are_taken_over_by_their_number(rt: HostRuntime) -> Result<(), Fail> {
    let alloc = rt.alloc();
    let older = format!(in alloc; "{SCHEMA}{OLDER_HISTORY}")?;
    assert!(rt; found(alloc, older.as_str(), FIRST) == Ok(0));
    assert!(rt; found(alloc, older.as_str(), SECOND) == Err(KeeperRefusal::Fault));
    assert!(rt; found(alloc, older.as_str(), "") == Err(KeeperRefusal::Fault));
    assert!(rt; found(alloc, OLDER_HISTORY, "") == Err(KeeperRefusal::Fault));
    Ok(())
}

#[test]
fn tables_of_both_schemas_are_not_taken_over(rt: HostRuntime) -> Result<(), Fail> {
    let alloc = rt.alloc();
    let all = format!(in alloc; "{SCHEMA}{HISTORY}{OLDER_HISTORY}")?;
    assert!(rt; found(alloc, all.as_str(), FIRST) == Err(KeeperRefusal::Fault));
    assert!(rt; found(alloc, all.as_str(), SECOND) == Ok(0));
    Ok(())
}

#[test]
fn older_tables_with_a_column_more_are_not_taken_over(rt: HostRuntime) -> Result<(), Fail> {
    let alloc = rt.alloc();
    let older = format!(in alloc; "{SCHEMA}{OLDER_HISTORY}")?;
    let more = older.replace(
        alloc,
        "  time_changed INTEGER NOT NULL\n",
        "  time_changed INTEGER NOT NULL,\n  more INTEGER\n",
    )?;
    assert!(rt; found(alloc, more.as_str(), FIRST) == Err(KeeperRefusal::Fault));
    Ok(())
}

// The row of an entry up to 25, whose tag and device are of the entry.
fn numbered(entry: u32) -> Result<Row, Fail>
    requires small { entry ≤ 25 }
    ensures entry { IfOk result (λ row. row.entry ≡ entry) }
    ensures added { IfOk result (λ row. row.time_added ≡ 1000) }
    ensures changed { IfOk result (λ row. row.time_changed ≡ 1001) }
{
    let tag = [b'a' + entry as u8];
    row(entry, &tag, &tag, RowState::Success)
}

// Opens the keeper of a file, which tells no rows, loads, and adds one row more.
fn one_more(rt: &HostRuntime, path: &str) -> Result<usize, Fail> {
    let connection = open_path(rt, path, Unknown)?;
    let mut keeper = FileKeeper {
        keeper: SqlKeeper::adopt(rt.alloc(), connection)?,
    };
    let count = keeper.load(rt.alloc())?.len();
    let added = numbered((count % 25) as u32 + 1)?;
    keeper.commit(&Change::Add(added))?;
    Ok(count)
}

#[test]
fn a_file_keeps_its_rows(rt: HostRuntime) -> Result<(), Fail> {
    make_folder(&rt, "history_tests_kept")?;
    for count in 0..3 {
        let found = one_more(&rt, "history_tests_kept/history.db")?;
        assert_eq!(rt; found, count);
    }
    let mut keeper = FileKeeper::open(&rt, "history_tests_kept/history.db", Unknown)?;
    let rows = keeper.load(rt.alloc())?;
    assert_eq!(rt; rows.len(), 3);
    fs::remove_dir_all(&rt, "history_tests_kept")?;
    Ok(())
}

// Makes a file of a database.
fn make_file(rt: &HostRuntime, path: &str, tables: &str, rows: &str) -> Result<(), Fail> {
    let mut connection = Connection::open(rt, path)?;
    connection.execute_batch(tables)?;
    connection.execute_batch(rows)?;
    Ok(())
}

// Whether a keeper of the file is a fault that leaves the file as it was.
fn is_left(rt: &HostRuntime, path: &str) -> Result<bool, Fail> {
    let before = fs::read(rt, path)?;
    let refusal = SqlKeeper::file(rt, path, Unknown).err();
    let after = fs::read(rt, path)?;
    Ok(refusal == Some(KeeperRefusal::Fault) && before.as_slice() == after.as_slice())
}

// Whether a file of this database is left as it was.
fn is_database_left(rt: &HostRuntime, path: &str, tables: &str, rows: &str) -> Result<bool, Fail> {
    make_file(rt, path, tables, rows)?;
    is_left(rt, path)
}

// Whether a file of these bytes is left as it was.
fn are_bytes_left(rt: &HostRuntime, path: &str, bytes: &[u8]) -> Result<bool, Fail> {
    fs::write(rt, path, bytes)?;
    is_left(rt, path)
}

// A folder with nothing in it.
fn make_folder(rt: &HostRuntime, path: &str) -> Result<(), Fail> {
    let _ = fs::remove_dir_all(rt, path);
    fs::create_dir(rt, path)?;
    Ok(())
}

const STRANGE_ROW: &str =
    "INSERT INTO schema VALUES (2); INSERT INTO history2 VALUES (1, 't', 1, x'00', 'c', '1', '2', x'00', 0, 100, 0, 5, 5, 0, NULL, NULL);";

const OLDER_STRANGE_ROW: &str =
    "INSERT INTO schema VALUES (1); INSERT INTO history VALUES (1, 't', 1, x'00', 'c', '1', '2', x'00', 0, 100, 0, 5, 5);";

#[test]
fn another_schema_is_left_as_it_was(rt: HostRuntime) -> Result<(), Fail> {
    make_folder(&rt, "history_tests_schema")?;
    let tables = format!(in rt.alloc(); "{SCHEMA}{HISTORY}")?;
    let number = "INSERT INTO schema VALUES (3);";
    let path = "history_tests_schema/number.db";
    assert!(rt; is_database_left(&rt, path, tables.as_str(), number)?);
    let path = "history_tests_schema/table.db";
    assert!(rt; is_database_left(&rt, path, SCHEMA, SECOND)?);
    fs::remove_dir_all(&rt, "history_tests_schema")?;
    Ok(())
}

#[test]
fn strange_rows_are_left_as_they_were(rt: HostRuntime) -> Result<(), Fail> {
    make_folder(&rt, "history_tests_rows")?;
    let tables = format!(in rt.alloc(); "{SCHEMA}{HISTORY}")?;
    let path = "history_tests_rows/row.db";
    assert!(rt; is_database_left(&rt, path, tables.as_str(), STRANGE_ROW)?);
    let older = format!(in rt.alloc(); "{SCHEMA}{OLDER_HISTORY}")?;
    let path = "history_tests_rows/older.db";
    assert!(rt; is_database_left(&rt, path, older.as_str(), OLDER_STRANGE_ROW)?);
    fs::remove_dir_all(&rt, "history_tests_rows")?;
    Ok(())
}

#[test]
fn no_database_is_left_as_it_was(rt: HostRuntime) -> Result<(), Fail> {
    make_folder(&rt, "history_tests_left")?;
    let text = b"no database at all, but a text of some length";
    assert!(rt; are_bytes_left(&rt, "history_tests_left/no.db", text)?);
    assert!(rt; are_bytes_left(&rt, "history_tests_left/byte.db", b"x")?);
    let refusal = SqlKeeper::file(&rt, "history_tests_left/none/no.db", Unknown).err();
    assert!(rt; refusal == Some(KeeperRefusal::Fault));
    fs::remove_dir_all(&rt, "history_tests_left")?;
    Ok(())
}
