//! Branches: what stands between the bars of a regular expression.
ghost use Rattle.std.specs.Prelude.{◌≡◌, [], IfOk, OnOk};
ghost use Rattle.fw_patterns.specs.Reading.{branches, repeat_or_once, with_mark};

use crate::marks::{Mark, Placed};
use crate::{Branch, Piece, Repeat};
use fw_base::{Listed, NoMemory};
use std::alloc::Global;
use std::mem;

/// Branches that are read from their end: each list holds its last item first.
#[derive(Debug, Drop)]
struct Draft {
    from_start: bool,
    to_end: bool,
    pieces: Vec<Piece>,
    done: Vec<Branch>,
    /// The repeat that stands directly behind what is read next.
    repeat: Repeat,
}

impl Draft {
    ghost use Rattle.fw_patterns.specs.Drafts.{drafted};

    fn new(alloc: Global) -> Draft
        ensures branches { drafted result ≡ branches [] }
        ensures repeat { result.repeat ≡ Repeat.Once }
    {
        Draft {
            from_start: false,
            to_end: false,
            pieces: Vec::new(alloc),
            done: Vec::new(alloc),
            repeat: Repeat::Once,
        }
    }

    /// Reads the mark in front of those that are read.
    fn take(&mut self, alloc: Global, mark: Mark) -> Result<(), NoMemory>
        ensures branches { OnOk result (drafted self.new ≡ with_mark mark self.old.repeat (drafted self.old)) }
        ensures repeat { OnOk result (self.new.repeat ≡ repeat_or_once mark) }
    {
        let behind = mem::replace(&mut self.repeat, Repeat::Once);
        match mark {
            Mark::AtomMark(atom) => self.pieces.push(Piece {
                atom,
                repeat: behind,
            })?,
            Mark::RepeatMark(repeat) => self.repeat = repeat,
            Mark::StartMark => self.from_start = true,
            Mark::EndMark => self.to_end = true,
            Mark::BarMark => self.close(alloc)?,
            Mark::StrayMark => {}
        }
        Ok(())
    }

    /// Closes the branch that is read, and begins the one in front of it.
    fn close(&mut self, alloc: Global) -> Result<(), NoMemory>
        ensures branches { OnOk result (drafted self.new ≡ with_mark Mark.BarMark Repeat.Once (drafted self.old)) }
        ensures repeat { self.new.repeat ≡ self.old.repeat }
    {
        let mut pieces = mem::replace(&mut self.pieces, Vec::new(alloc));
        pieces.reverse();
        self.done.push(Branch {
            from_start: mem::replace(&mut self.from_start, false),
            to_end: mem::replace(&mut self.to_end, false),
            pieces: Listed::of(pieces),
        })?;
        Ok(())
    }

    /// The branches that are read.
    fn finish(mut self, alloc: Global) -> Result<Vec<Branch>, NoMemory>
        ensures { IfOk result (λ read. read.items ≡ drafted self) }
    {
        self.close(alloc)?;
        self.done.reverse();
        Ok(self.done)
    }
}

/// The branches between the bars, each with its atoms as pieces.
pub fn branches_of(alloc: Global, marks: Vec<Placed>) -> Result<Vec<Branch>, NoMemory>
    ensures { IfOk result (λ read. read.items ≡ branches marks.items) }
{
    let mut draft = Draft::new(alloc);
    let mut left = marks;
    while let Some(placed) = left.pop() {
        draft.take(alloc, placed.mark)?;
    }
    draft.finish(alloc)
}
