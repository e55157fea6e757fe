//! How files become a connection.
ghost use Rattle.std.specs.Prelude.{◌≡◌, ◌↔◌, IsTrue, IfErr, IfOk};
ghost use Rattle.sqlite.specs.Files.{file_state, IsOpened, Finds};
ghost use Rattle.sqlite.specs.Held.{IsNew};
ghost use Rattle.sqlite.specs.Start.{FindsIn};
ghost use Rattle.sqlite.specs.State.{HasCleanDisk};
ghost use Rattle.sqlite_wal.specs.Files.{image_at};
ghost use Rattle.history_sqlite.specs.Opened.{IsLoneByte};
ghost use Rattle.history_sqlite.specs.Refusals.{refusal_of};

use crate::refusal::refusal_of_error;
use history_keeper::KeeperRefusal;
use sqlite::{Connection, FileFrom, FileStore, Files, Options, Start};
use sqlite_disk::Disk;
use sqlite_std_file::OpenError;
use std::alloc::Global;
use std::hash::{BuildHasher, RandomState};
use std::io;
use std::rt::HostRuntime;

/// The fewest pages of a file that are kept in memory. All are taken and cleared as the file is opened, so for a small
/// file they are few: a commit goes down two trees of at most four levels.
pub const LEAST_CACHED_PAGES: usize = 12;

/// The most of them. A load goes through each page of a large file once, and through those above it many times.
const MOST_CACHED_PAGES: usize = 64;

/// How many bytes a page has in a file that is made here.
const PAGE_BYTES: usize = 4096;

/// Opens the file at the path and its log, or makes them. It is a fault where they can't be opened, where
/// another process has them, or where the file is no database. Such a file is left as it was. `S` stands for
/// what the two held: where it is told `Ok`, that is what was found, while the disk returns what was written.
pub fn open_path<S: Start>(
    rt: &HostRuntime,
    path: &str,
    start: S,
) -> Result<Connection<FileStore<FileFrom<S>>>, KeeperRefusal>
    ensures opened { IfOk result (λ connection. HasCleanDisk (file_state connection) → IsOpened connection) }
    ensures found { IfOk result (λ connection. HasCleanDisk (file_state connection) → FindsIn (image_at S.Start) (file_state connection)) }
    ensures fresh { IfOk result IsNew }
{
    if path == ":memory:" || path.starts_with("file:") {
        return Err(KeeperRefusal::Fault);
    }
    let files = match sqlite_std_file::open(rt, path, start) {
        Ok(files) => files,
        Err(error) => return Err(refusal_of_open(error)),
    };
    let seed = match RandomState::new(rt) {
        Ok(state) => state.hash_one(&0u8),
        Err(_) => return Err(KeeperRefusal::Fault),
    };
    connect(rt.alloc(), files, seed)
}

// Want of memory is told as that. All else is a fault.
fn refusal_of_open(error: OpenError) -> KeeperRefusal {
    match error {
        OpenError::OutOfMemory => KeeperRefusal::NoMemory,
        OpenError::Io(error) if error.kind() == io::ErrorKind::OutOfMemory => {
            KeeperRefusal::NoMemory
        }
        _ => KeeperRefusal::Fault,
    }
}

/// Opens these files as a database, which is made where there is none yet. A file of one byte is none, and
/// isn't written over, but where the byte is zero: a crash while a database is made may leave that one.
/// Where it is told `Ok`, the database is the one that the files held, while the disk returns what was
/// written.
pub fn connect<D: Disk + Drop>(
    alloc: Global,
    files: Files<D>,
    seed: u64,
) -> Result<Connection<FileStore<D>>, KeeperRefusal>
    requires log { IsTrue (D.Disk.is_usable files.log) }
    requires db { IsTrue (D.Disk.is_usable files.db) }
    ensures opened { IfOk result (λ connection. HasCleanDisk (file_state connection) → IsOpened connection) }
    ensures found { IfOk result (λ connection. HasCleanDisk (file_state connection) → Finds files connection) }
    ensures fresh { IfOk result IsNew }
    ensures left { IfOk result (λ connection. HasCleanDisk (file_state connection) → ¬ IsLoneByte (D.Disk.seen files.db)) }
{
    let mut files = files;
    let Ok(measured) = measure(&mut files.db) else {
        return Err(KeeperRefusal::Fault);
    };
    if measured.is_lone_byte {
        return Err(KeeperRefusal::Fault);
    }
    match Connection::open_files(alloc, files, options(seed, measured.len)) {
        Ok(connection) => Ok(connection),
        Err((error, _)) => Err(refusal_of_error(error)),
    }
}

// The options of a connection whose cache fits a file of so many bytes.
fn options(seed: u64, len: usize) -> Options {
    let mut options = Options::new(seed);
    options.cache_pages = (len / PAGE_BYTES)
        .max(LEAST_CACHED_PAGES)
        .min(MOST_CACHED_PAGES);
    options
}

// How many bytes a file has, and whether it is one byte that isn't zero.
#[derive(Clone, Copy)]
struct Measured {
    len: usize,
    is_lone_byte: bool,
}

fn measure<D: Disk>(db: &mut D) -> io::Result<Measured>
    requires { IsTrue (D.Disk.is_usable db.old) }
    ensures ok { IfOk result (λ measured. IsTrue (D.Disk.is_clean db.new) → (IsTrue measured.is_lone_byte ↔ IsLoneByte (D.Disk.seen db.old))) }
    ensures seen { D.Disk.seen db.new ≡ D.Disk.seen db.old }
    ensures usable { IsTrue (D.Disk.is_usable db.new) }
    ensures clean { IsTrue (D.Disk.is_clean db.new) → IsTrue (D.Disk.is_clean db.old) }
{
    let len = db.len()?;
    if len != 1 {
        return Ok(Measured {
            len,
            is_lone_byte: false,
        });
    }
    let mut byte = [0];
    db.read_at(0, &mut byte)?;
    Ok(Measured {
        len,
        is_lone_byte: byte[0] != 0,
    })
}
