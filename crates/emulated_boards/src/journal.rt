//! The journal of a board.
ghost use Rattle.std.specs.Prelude.{◌≡◌, ◌+◌, ◌<◌, ◌≤◌, [], ◌∷◌, ◌++◌, IsOk, OnOk, OnErr};
ghost use Rattle.emulated_boards.specs.declared.mark.Mark.TheVariants.{Began, Ended};

use crate::mark::Mark;
use fw_base::{Digest, NoMemory};
use std::alloc::Global;
use std::marker::Model;

/// The marks of a board, and the room that is kept for more. Contracts see both.
#[derive(Drop)]
pub(crate) struct Journal {
    marks: Vec<Mark>,
}

impl Model for Journal {
    ghost use Rattle.std.specs.Prelude.{◌-◌, vec_capacity, vec_len};
    ghost use Rattle.emulated_boards.specs.Journals.{MarksAndRoom};

    ghost Value = { MarksAndRoom };

    ghost view = { λ a. record { marks = a.marks.items; room = vec_capacity a.marks - vec_len a.marks } };
}

impl Journal {
    /// No mark.
    pub(crate) fn new(alloc: Global) -> Journal
        ensures { result.marks ≡ [] }
    {
        Journal {
            marks: Vec::new(alloc),
        }
    }

    /// Makes room for this many marks.
    pub(crate) fn reserve(&mut self, room: usize) -> Result<(), NoMemory>
        ensures marks { self.new.marks ≡ self.old.marks }
        ensures reserved { OnOk result (room ≤ self.new.room) }
        ensures never_less { self.old.room ≤ self.new.room }
        ensures unchanged { OnErr result (self.new ≡ self.old) }
        ensures there_already { room ≤ self.old.room → IsOk result }
    {
        self.marks.reserve(room)?;
        Ok(())
    }

    /// Adds a mark, for which there is room.
    pub(crate) fn note(&mut self, mark: Mark)
        requires { 0 < self.old.room }
        ensures marks { self.new.marks ≡ self.old.marks ++ mark ∷ [] }
        ensures room { self.old.room ≤ self.new.room + 1 }
    {
        if self.marks.push(mark).is_err() {
            unreachable!();
        }
    }

    /// Adds the two marks of a whole write.
    pub(crate) fn note_write(&mut self, entry: u32, digest: Digest)
        requires { 2 ≤ self.old.room }
        ensures marks { self.new.marks ≡ self.old.marks ++ Began entry ∷ Ended entry digest ∷ [] }
        ensures room { self.old.room ≤ self.new.room + 2 }
    {
        self.note(Mark::Began { entry });
        self.note(Mark::Ended { entry, digest });
    }

    /// The marks, the oldest first.
    pub(crate) fn marks(&self) -> &[Mark]
        ensures { result.now ≡ self.now.marks }
    {
        self.marks.as_slice()
    }
}
