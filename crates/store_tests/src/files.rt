//! Files that stop, what a crash leaves of them, and keepers over them.
ghost use Rattle.std.specs.Prelude.{◌≡◌, None, IfOk, IfSome};
ghost use Rattle.history_sqlite.specs.Keeping.{doubtful};

use crate::stopping::{Stopping, StoppingKeeper};
use history_keeper::{Keeper, KeeperPlan, Row};
use history_sqlite::SqlKeeper;
use history_sqlite::database_files::{LEAST_CACHED_PAGES, connect};
use history_sqlite::statements::load_rows;
use history_sqlite::tables::open_tables;
use sqlite::{Connection, FileStore, Files, Options};
use sqlite_disk::{Crash, Disk, Fuse, Memory};
use std::alloc::Global;
use std::test::Fail;

/// Which calls of a keeper fail, and whether the change of each is made after all.
pub(crate) type Failing = &'static [(u32, bool)];

/// Which of the two files stops.
#[derive(Clone, Copy, Debug)]
pub(crate) enum Stop {
    Log,
    Database,
}

/// Bytes of a sector, which a crash leaves as a whole.
const SECTOR: usize = 512;

/// What a crash leaves of what wasn't synced.
#[derive(Clone, Copy, Debug, PartialEq, Eq)]
pub(crate) enum Crashed {
    /// Nothing.
    Lost,
    /// All of it, as where the process alone ends.
    Kept,
    /// The first sector, the third, and so on.
    Even,
    /// The second sector, the fourth, and so on.
    Odd,
}

pub(crate) const CRASHES: [Crashed; 4] = [
    Crashed::Lost,
    Crashed::Kept,
    Crashed::Even,
    Crashed::Odd,
];

// How many calls the log passes on, and how many the database.
fn calls_of(stop: Stop, calls: u64) -> (u64, u64) {
    match stop {
        Stop::Log => (calls, u64::MAX),
        Stop::Database => (u64::MAX, calls),
    }
}

/// Empty files, of which one stops after so many calls.
pub(crate) fn stopping(alloc: Global, stop: Stop, calls: u64) -> Files<Stopping> {
    let (log_calls, db_calls) = calls_of(stop, calls);
    Files {
        log: Fuse::new(Memory::new(alloc), log_calls),
        db: Fuse::new(Memory::new(alloc), db_calls),
    }
}

/// The plan of the calls that fail.
pub(crate) fn plan(alloc: Global, failing: Failing) -> Result<Vec<KeeperPlan>, Fail> {
    let mut plan = Vec::new(alloc);
    for (call, keep) in failing {
        plan.push(KeeperPlan {
            call: *call,
            keep: *keep,
        })?;
    }
    Ok(plan)
}

/// Opens such files. Such calls of the keeper fail. There is a keeper; or the files, where a stop came before it was
/// made; or neither, where only the rows couldn't be read once more.
pub(crate) fn first(
    alloc: Global,
    files: Files<Stopping>,
    failing: Failing,
) -> Result<(Option<StoppingKeeper>, Option<Files<Stopping>>), Fail>
    ensures { IfOk result (λ it. IfSome it.0 (λ keeper. doubtful keeper.keeper ≡ None)) }
{
    if !files.may_be_used() {
        return Err(std::io::Error::other("a file may not be used").into());
    }
    let mut options = Options::new(7);
    options.cache_pages = LEAST_CACHED_PAGES;
    match Connection::open_files(alloc, files, options) {
        Err((_, left)) => Ok((None, Some(left.into_files()))),
        Ok(connection) => adopted(alloc, connection, plan(alloc, failing)?),
    }
}

// Adopts the connection. Its tables are made before, since a refusal to adopt it hands no files back.
fn adopted(
    alloc: Global,
    connection: Connection<FileStore<Stopping>>,
    plan: Vec<KeeperPlan>,
) -> Result<(Option<StoppingKeeper>, Option<Files<Stopping>>), Fail>
    ensures { IfOk result (λ it. IfSome it.0 (λ keeper. doubtful keeper.keeper ≡ None)) }
{
    let mut connection = connection;
    if open_tables(&mut connection).is_err() || load_rows(&mut connection, alloc).is_err() {
        return Ok((None, Some(connection.into_store().close())));
    }
    match SqlKeeper::adopt_planned(alloc, connection, plan) {
        Ok(keeper) => Ok((Some(StoppingKeeper { keeper }), None)),
        Err(_) => Ok((None, None)),
    }
}

/// Whether the files have come to no stop.
pub(crate) fn go_on(files: &mut Files<Stopping>) -> bool {
    files.may_be_used() && files.log.len().is_ok() && files.db.len().is_ok()
}

/// The bytes of a file that stopped: those that were synced, and those that were written.
#[derive(Drop)]
struct Bytes {
    synced: Vec<u8>,
    written: Vec<u8>,
}

fn bytes_of(alloc: Global, file: Stopping) -> Result<Bytes, Fail> {
    let mut file = file;
    let written = file.inner().bytes().to_vec(alloc)?;
    file.crash();
    let synced = file.inner().bytes().to_vec(alloc)?;
    Ok(Bytes { synced, written })
}

/// The bytes of two files that stopped.
#[derive(Drop)]
pub(crate) struct Halted {
    log: Bytes,
    db: Bytes,
}

/// The bytes of the files.
pub(crate) fn halt(alloc: Global, files: Files<Stopping>) -> Result<Halted, Fail> {
    let Files { log, db } = files;
    Ok(Halted {
        log: bytes_of(alloc, log)?,
        db: bytes_of(alloc, db)?,
    })
}

// The written bytes in each sector of this parity, and the synced ones in the others.
fn mixed(alloc: Global, bytes: &Bytes, parity: usize) -> Result<Vec<u8>, Fail> {
    let mut left = Vec::new(alloc);
    for at in 0..bytes.synced.len().max(bytes.written.len()) {
        let found = if at / SECTOR % 2 == parity {
            bytes.written.get(at)
        } else {
            bytes.synced.get(at)
        };
        left.push(found.copied().unwrap_or(0))?;
    }
    Ok(left)
}

// A file that holds these bytes, and stops after so many calls.
fn file_of(alloc: Global, bytes: &[u8], calls: u64) -> Result<Stopping, Fail> {
    let mut file = Memory::new(alloc);
    file.write_at(0, bytes)?;
    file.sync()?;
    Ok(Fuse::new(file, calls))
}

/// The files as they were synced, of which one stops after so many calls.
pub(crate) fn stopping_again(
    alloc: Global,
    halted: &Halted,
    stop: Stop,
    calls: u64,
) -> Result<Files<Stopping>, Fail> {
    let (log_calls, db_calls) = calls_of(stop, calls);
    Ok(Files {
        log: file_of(alloc, &halted.log.synced, log_calls)?,
        db: file_of(alloc, &halted.db.synced, db_calls)?,
    })
}

// A file that holds what the crash left of these bytes, and doesn't stop.
fn left_of(alloc: Global, bytes: &Bytes, crashed: Crashed) -> Result<Stopping, Fail> {
    let left = match crashed {
        Crashed::Lost => bytes.synced.clone()?,
        Crashed::Kept => bytes.written.clone()?,
        Crashed::Even => mixed(alloc, bytes, 0)?,
        Crashed::Odd => mixed(alloc, bytes, 1)?,
    };
    file_of(alloc, &left, u64::MAX)
}

/// What such a crash leaves of the files. They don't stop.
pub(crate) fn after(
    alloc: Global,
    halted: &Halted,
    crashed: Crashed,
) -> Result<Files<Stopping>, Fail> {
    Ok(Files {
        log: left_of(alloc, &halted.log, crashed)?,
        db: left_of(alloc, &halted.db, crashed)?,
    })
}

/// A connection to files.
pub(crate) fn opened(
    alloc: Global,
    files: Files<Stopping>,
) -> Result<Connection<FileStore<Stopping>>, Fail> {
    if !files.may_be_used() {
        return Err(std::io::Error::other("a file may not be used").into());
    }
    Ok(connect(alloc, files, 7)?)
}

/// A keeper over files that are opened again.
pub(crate) fn again(alloc: Global, files: Files<Stopping>) -> Result<StoppingKeeper, Fail>
    ensures { IfOk result (λ it. doubtful it.keeper ≡ None) }
{
    let connection = opened(alloc, files)?;
    let keeper = SqlKeeper::adopt(alloc, connection)?;
    Ok(StoppingKeeper { keeper })
}

/// The rows of these files.
pub(crate) fn rows_of(alloc: Global, files: Files<Stopping>) -> Result<Vec<Row>, Fail> {
    let mut it = again(alloc, files)?;
    Ok(it.keeper.load(alloc)?)
}

// How many of these rows have the tag of this one.
fn rows_with_tag(rows: &[Row], row: &Row) -> usize {
    let mut same = 0usize;
    for other in rows {
        if other.tag == row.tag {
            same = same.saturating_add(1);
        }
    }
    same
}

/// Whether a tag has two rows in these files, or there is no row.
pub(crate) fn has_wrong_tags(alloc: Global, files: Files<Stopping>) -> Result<bool, Fail> {
    let rows = rows_of(alloc, files)?;
    for row in &rows {
        if rows_with_tag(&rows, row) != 1 {
            return Ok(true);
        }
    }
    Ok(rows.is_empty())
}
