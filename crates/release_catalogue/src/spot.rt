//! Places in the document while it is read, and what is wrong there.
ghost use Rattle.std.specs.Prelude.{◌≡◌};
ghost use Rattle.release_catalogue.specs.Reading.{entry_spot, field_of};
ghost use Rattle.release_catalogue.specs.Components.{below};
ghost use Rattle.release_catalogue.specs.Faults.{told_place};
ghost use Rattle.release_catalogue.specs.declared.spot.ReadStop.TheVariants.{NoMemory as OutOfMemory};

use crate::place::Place;
use crate::reason::Reason;
use crate::word::Word;
use fw_base::NoMemory;
use std::alloc::{AllocError, AllocFailed};

/// A place in the document, by its words: a section, up to three indexes in it, and a field.
#[derive(Clone, Copy, Debug, PartialEq, Eq)]
pub struct Spot {
    pub section: Word,
    pub index: [u32; 3],
    pub field: Word,
}

/// Which index the entries of a list have: none of their own, or the first, second or third.
#[derive(Clone, Copy, Debug, PartialEq, Eq)]
pub enum Level {
    Whole,
    First,
    Second,
    Third,
}

impl Level {
    /// The index behind this one.
    pub fn below(self) -> Level
        ensures { result ≡ below self }
    {
        match self {
            Level::Whole => Level::Whole,
            Level::First => Level::Second,
            Level::Second | Level::Third => Level::Third,
        }
    }
}

/// What is wrong at a place.
#[derive(Clone, Copy, Debug, PartialEq, Eq)]
pub struct Fault {
    pub spot: Spot,
    pub reason: Reason,
}

/// Why reading stopped.
#[derive(Clone, Copy, Debug, PartialEq, Eq)]
pub enum ReadStop {
    /// The first fault.
    At(Fault),
    NoMemory,
}

impl Spot {
    /// A field of the entry at this place.
    pub fn field(self, word: Word) -> Spot
        ensures { result ≡ field_of self word }
    {
        let index = self.index;
        Spot {
            section: self.section,
            index,
            field: word,
        }
    }

    /// The place of an entry of the list that stands here.
    pub fn entry(self, level: Level, at: u32) -> Spot
        ensures { result ≡ entry_spot self level at }
    {
        let mut index = self.index;
        match level {
            Level::Whole => {}
            Level::First => index[0] = at,
            Level::Second => index[1] = at,
            Level::Third => index[2] = at,
        }
        Spot {
            section: self.section,
            index,
            field: self.field,
        }
    }

    /// The place with its words spelled out.
    pub fn place(self) -> Place
        ensures { result ≡ told_place self }
    {
        let index = self.index;
        Place {
            section: self.section.name(),
            index,
            field: self.field.name(),
        }
    }
}

/// A fault at a place.
pub fn fault_at(spot: Spot, reason: Reason) -> ReadStop
    ensures { result ≡ ReadStop.At (record { spot = spot; reason = reason }) }
{
    ReadStop::At(Fault { spot, reason })
}

impl From<NoMemory> for ReadStop {
    ghost from_gives = { λ _ stop. stop ≡ OutOfMemory };

    fn from(_refused: NoMemory) -> ReadStop {
        ReadStop::NoMemory
    }
}

impl From<AllocError> for ReadStop {
    ghost from_gives = { λ _ stop. stop ≡ OutOfMemory };

    fn from(_refused: AllocError) -> ReadStop {
        ReadStop::NoMemory
    }
}

impl<T: Drop> From<AllocFailed<T>> for ReadStop {
    ghost from_gives = { λ _ stop. stop ≡ OutOfMemory };

    fn from(_refused: AllocFailed<T>) -> ReadStop {
        ReadStop::NoMemory
    }
}
