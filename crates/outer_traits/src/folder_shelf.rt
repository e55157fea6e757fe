//! A folder of files as a shelf.
ghost use Rattle.std.specs.Prelude.{◌≡◌, ◌≤◌, ◌++◌, length, codes, IfOk, string_bytes};
ghost use Rattle.hex.specs.Hex.{encode_lower};

use crate::failed::Failed;
use crate::shelf::Shelf;
use fw_base::Digest;
use std::alloc::AllocError;
use std::io::{ErrorKind, Read, Seek, SeekFrom};
use std::marker::Model;
use std::rt::Files;
use std::{fs, io};

/// Looks files up in a folder, each under the 64 lower-case hex digits of its digest, and tells
/// nothing of what is there. Contracts see its count of faults; want of memory is one.
#[derive(Drop)]
pub struct FolderShelf<R> {
    rt: R,
    folder: String,
    faults: u64,
}

impl<R> Model for FolderShelf<R> {
    ghost use Rattle.std.specs.Prelude.{ℕ};

    ghost Value = { ℕ };

    ghost view = { λ s. s.faults };
}

impl<R> FolderShelf<R> {
    /// A shelf over a folder, without a fault so far. It keeps the runtime that it is made with.
    pub fn new(rt: R, folder: String) -> FolderShelf<R>
        ensures { result ≡ 0 }
    {
        FolderShelf {
            rt,
            folder,
            faults: 0,
        }
    }
}

// The path of a file: the folder, a slash and the digits.
fn path_of(folder: &String, name: &Digest) -> Result<String, AllocError>
    ensures { IfOk result (λ path. string_bytes path ≡ string_bytes folder.now ++ codes "/" ++ encode_lower name.now) }
{
    let mut path = folder.clone()?;
    path.push_str("/")?;
    let digits = hex::encode(*folder.allocator(), name)?;
    path.push_str(&digits)?;
    Ok(path)
}

// How long a file is, if it is there. A folder or a pipe under its name can't be read: that is a fault.
fn length_at(rt: &impl Files, path: &str) -> io::Result<Option<u64>> {
    match fs::metadata(rt, path) {
        Ok(facts) if facts.is_file() => Ok(Some(facts.len())),
        Ok(_) => Err(io::Error::from(ErrorKind::InvalidInput)),
        Err(fault) if fault.kind() == ErrorKind::NotFound => Ok(None),
        Err(fault) => Err(fault),
    }
}

// The bytes of a file from a place on.
fn read_at(rt: &impl Files, path: &str, at: u64, into: &mut [u8]) -> io::Result<usize>
    ensures { IfOk result (λ n. n ≤ length into.new) }
{
    let mut file = fs::open(rt, path)?;
    file.seek(SeekFrom::Start(at))?;
    file.read(into)
}

impl<R: Files> Shelf for FolderShelf<R> {
    ghost use Rattle.std.specs.Prelude.{None};

    ghost files = { λ _. None };

    ghost faults = { λ s. s };

    fn length(&mut self, name: &Digest) -> Result<Option<u64>, Failed> {
        match self.try_length(name) {
            Ok(answer) => Ok(answer),
            Err(_) => {
                self.faults = self.faults.saturating_add(1);
                Err(Failed)
            }
        }
    }

    fn read(&mut self, name: &Digest, at: u64, into: &mut [u8]) -> Result<usize, Failed> {
        match self.try_read(name, at, into) {
            Ok(count) => Ok(count),
            Err(_) => {
                self.faults = self.faults.saturating_add(1);
                Err(Failed)
            }
        }
    }
}

impl<R: Files> FolderShelf<R> {
    fn try_length(&self, name: &Digest) -> io::Result<Option<u64>> {
        let path = path_of(&self.folder, name)?;
        length_at(&self.rt, &path)
    }

    fn try_read(&self, name: &Digest, at: u64, into: &mut [u8]) -> io::Result<usize>
        ensures { IfOk result (λ n. n ≤ length into.new) }
    {
        let path = path_of(&self.folder, name)?;
        read_at(&self.rt, &path, at, into)
    }
}
