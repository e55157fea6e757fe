//! A shelf in memory.
ghost use Rattle.std.specs.Prelude.{◌≡◌, ◌≤◌, ◌<◌, ◌-◌, ◌↔◌, find, map, min, length, take, drop, option_map, option_copied, OnOk, OnErr, IfOk, IsErr};
ghost use Rattle.std.specs.Str.{bytes_eq};
ghost use Rattle.outer_traits.specs.Plans.{fresh, FailsNext, after_call, after_fault};
ghost use Rattle.outer_traits.specs.Shelves.{file_of, bytes_of, StandsAt};

use crate::copying::copy_front;
use crate::failed::Failed;
use crate::plan::Plan;
use crate::shelf::Shelf;
use fw_base::Digest;
use std::marker::Model;

/// Files in memory, of which the first of a name counts. It fails at the calls whose numbers it was
/// given.
#[derive(Drop)]
pub struct MemoryShelf {
    files: Vec<(Digest, Vec<u8>)>,
    plan: Plan,
}

impl Model for MemoryShelf {
    ghost use Rattle.std.specs.Prelude.{map};
    ghost use Rattle.outer_traits.specs.Plans.{MemoryFiles};

    ghost Value = { MemoryFiles };

    ghost view = { λ s. record { files = map (λ file. (file.0, file.1.items)) s.files.items; plan = s.plan } };
}

impl MemoryShelf {
    /// A shelf of these files, whose calls with the numbers in `failing` fail, counted from 1.
    pub fn new(files: Vec<(Digest, Vec<u8>)>, failing: Vec<u32>) -> MemoryShelf
        ensures { result ≡ record { files = map (λ file. (file.0, file.1.items)) files.items; plan = fresh failing.items } }
    {
        MemoryShelf {
            files,
            plan: Plan::new(failing),
        }
    }

    /// How many calls of `length` and `read` there were.
    pub fn calls(&self) -> u64
        ensures { result ≡ self.now.plan.calls }
    {
        self.plan.calls()
    }

    /// The bytes of the first file of that name.
    fn find(&self, name: &Digest) -> Option<&[u8]>
        ensures { option_copied result ≡ file_of self.now.files name.now }
    {
        let file = first_named(&self.files, name)?;
        Some(file.1.as_slice())
    }
}

impl Shelf for MemoryShelf {
    ghost use Rattle.std.specs.Prelude.{Some};

    ghost files = { λ s. Some s.files };

    ghost faults = { λ s. s.plan.faults };

    fn length(&mut self, name: &Digest) -> Result<Option<u64>, Failed>
        ensures planned { IsErr result ↔ FailsNext self.old.plan }
        ensures only_counts { OnErr result (self.new ≡ record self.old { plan = after_fault self.old.plan }) }
        ensures counted { OnOk result (self.new ≡ record self.old { plan = after_call self.old.plan }) }

        ensures answer { IfOk result (λ answer. answer ≡ option_map length (file_of self.old.files name.now)) }
        ensures unchanged { self.new.files ≡ self.old.files }
        ensures quiet { OnOk result (self.new.plan.faults ≡ self.old.plan.faults) }
        ensures counts { self.old.plan.faults ≤ self.new.plan.faults }
    {
        if self.plan.fails_next() {
            self.plan.count_fault();
            return Err(Failed);
        }
        self.plan.count_call();
        Ok(self.find(name).map(|bytes| bytes.len() as u64))
    }

    fn read(&mut self, name: &Digest, at: u64, into: &mut [u8]) -> Result<usize, Failed>
        ensures planned { IsErr result ↔ FailsNext self.old.plan }
        ensures only_counts { OnErr result (self.new ≡ record self.old { plan = after_fault self.old.plan }) }
        ensures counted { OnOk result (self.new ≡ record self.old { plan = after_call self.old.plan }) }
        ensures count { IfOk result (λ n. n ≡ min (length into.new) (length (bytes_of self.old.files name.now) - at)) }

        ensures bytes { IfOk result (λ n. StandsAt (bytes_of self.old.files name.now) at (take n into.new)) }
        ensures unchanged { self.new.files ≡ self.old.files }
        ensures quiet { OnOk result (self.new.plan.faults ≡ self.old.plan.faults) }
        ensures counts { self.old.plan.faults ≤ self.new.plan.faults }
    {
        if self.plan.fails_next() {
            self.plan.count_fault();
            return Err(Failed);
        }
        self.plan.count_call();
        let bytes = self.find(name).unwrap_or(&[]);
        Ok(copy_from(bytes, at, into))
    }
}

// The first file of that name.
fn first_named<'a>(files: &'a [(Digest, Vec<u8>)], name: &Digest) -> Option<&'a (Digest, Vec<u8>)>
    ensures { option_copied result ≡ find (λ file. bytes_eq file.0 name.now) files.now }
{
    files.iter().find(|file| file.0 == *name)
}

// Copies the bytes from that place on to the front of `into`, and says how many.
fn copy_from(bytes: &[u8], at: u64, into: &mut [u8]) -> usize
    ensures count { result ≡ min (length into.old) (length bytes.now - at) }
    ensures bytes { take result into.new ≡ take result (drop at bytes.now) }
{
    let start = (bytes.len() as u64).min(at) as usize;
    let (_, rest) = bytes.split_at(start);
    copy_front(rest, into.len(), into)
}
