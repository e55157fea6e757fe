//! What may be supposed of a store.
ghost use Rattle.marks_sqlite.specs.Telling.{HeldSome};

use sqlite::{Alter, FileFrom, FileStore, MemStore, Start};
use sqlite_disk::{Disk, Fuse, Memory};

/// A disk of which it may be supposed what its files held as they were opened.
pub trait Origin: Disk {
    /// What is supposed. A disk that says nothing has files of which nothing is known.
    ghost supposed: { Type 0 } = { ⊥ };
}

/// The files held marks, or no table, as `S` stands for what they held.
impl<S: Start> Origin for FileFrom<S> {
    ghost supposed = { HeldSome S.Start };
}

impl Origin for Memory {}

impl<D: Disk> Origin for Fuse<D> {}

/// A store with what is supposed of it by who trusts a keeper to tell its marks.
pub trait Lasting: Alter {
    /// What is supposed: nothing of memory, and of files what they held as they were opened.
    ghost supposed: { Type 0 };
}

impl Lasting for MemStore {
    ghost supposed = { Unit {0} };
}

impl<D: Origin> Lasting for FileStore<D> {
    ghost supposed = { D.Origin.supposed };
}
