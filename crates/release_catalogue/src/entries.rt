//! Lists.
ghost use Rattle.std.specs.Prelude.{◌≡◌, ◌≤◌, ◌<◌, ◌^◌, ℕ, [], IfOk, List, Result, length, map};
ghost use Rattle.serde_json.specs.Data.{Data};
ghost use Rattle.json_values.specs.Trees.{view, items_view};
ghost use Rattle.release_catalogue.specs.declared.spot.Spot.{Spot};
ghost use Rattle.release_catalogue.specs.declared.spot.Fault.{Fault};
ghost use Rattle.release_catalogue.specs.declared.spot.Level.TheVariants.{Whole};
ghost use Rattle.release_catalogue.specs.Reading.{Gives, each, entry_spot, optional, the};
ghost use Rattle.release_catalogue.specs.Kinds.{list_at, items_len};

use crate::kinds::{guid, items, line, name};
use crate::members::{member, needed};
use crate::reason::Reason;
use crate::spot::{Level, ReadStop, Spot, fault_at};
use crate::word::Word;
use fw_base::{Line, Name};
use guid_ids::Guid;
use json_values::Value;
use std::alloc::Global;

/// What the entries of a list are read as. The entries before it in its list are at hand.
pub trait Entry: Sized + Drop {
    ghost Seen: { Type 0 };

    ghost seen: { Self → Seen };

    ghost reading: { List Seen → Spot → Data → Result Seen Fault };

    /// The entry at a place.
    fn read(alloc: Global, earlier: &[Self], value: &Value, spot: Spot) -> Result<Self, ReadStop>
        ensures { Gives seen result (reading (map seen earlier.now) spot (view value.now)) };
}

/// The entries of a list, whose places begin from `base`.
pub fn entries<E: Entry>(
    alloc: Global,
    values: &[Value],
    base: Spot,
    level: Level,
) -> Result<Vec<E>, ReadStop>
    requires few { length values.now < 2 ^ 32 }
    ensures read { Gives (λ v. map E.seen v.items) result (each E.reading (entry_spot base level) [] (items_view values.now)) }
    ensures as_many { IfOk result (λ v. length v.items ≡ length values.now) }
{
    let mut read: Vec<E> = Vec::new(alloc);
    for (i, value) in values.iter().enumerate() {
        let entry = E::read(alloc, read.as_slice(), value, base.entry(level, i as u32))?;
        read.push(entry)?;
    }
    Ok(read)
}

/// How many entries a list has.
#[tactic(auto, using(crate::proofs::Loop::items_len_of))]
pub fn count(values: &[Value]) -> usize
    ensures items { result ≡ items_len (items_view values.now) }
    ensures len { result ≡ length values.now }
{
    values.len()
}

/// A list of up to `most` entries, whose places begin from `base`.
pub fn list<E: Entry>(
    alloc: Global,
    value: &Value,
    spot: Spot,
    base: Spot,
    level: Level,
    most: usize,
) -> Result<Vec<E>, ReadStop>
    requires { most < 2 ^ 32 }
    ensures read { Gives (λ v. map E.seen v.items) result (list_at most E.reading spot base level (view value.now)) }
    ensures few { IfOk result (λ v. length v.items ≤ most) }
{
    let values = items(value, spot)?;
    if most < count(values) {
        return Err(fault_at(spot, Reason::TooMany));
    }
    entries(alloc, values, base, level)
}

/// A list of up to `most` entries that have no index of their own, or the empty one where it is
/// missing.
pub fn list_or_empty<E: Entry>(
    alloc: Global,
    value: &Value,
    spot: Spot,
    word: Word,
    most: usize,
) -> Result<Vec<E>, ReadStop>
    requires { most < 2 ^ 32 }
    ensures { Gives (λ v. map E.seen v.items) result (optional spot word (λ at. list_at most E.reading at at Whole) [] (view value.now)) }
{
    match member(value, word) {
        None => Ok(Vec::new(alloc)),
        Some(found) => {
            let here = spot.field(word);
            list(alloc, found, here, here, Level::Whole, most)
        }
    }
}

/// A list of up to `most` entries that have no index of their own, which must be there.
pub fn list_needed<E: Entry>(
    alloc: Global,
    value: &Value,
    spot: Spot,
    word: Word,
    most: usize,
) -> Result<Vec<E>, ReadStop>
    requires { most < 2 ^ 32 }
    ensures { Gives (λ v. map E.seen v.items) result (the spot word (λ at. list_at most E.reading at at Whole) (view value.now)) }
{
    let found = needed(value, spot, word)?;
    let here = spot.field(word);
    list(alloc, found, here, here, Level::Whole, most)
}

impl Entry for Guid {
    ghost use Rattle.std.specs.Prelude.{List, ℕ};
    ghost use Rattle.release_catalogue.specs.Kinds.{guid_at};

    ghost Seen = { List ℕ };

    ghost seen = { λ guid. guid };

    ghost reading = { λ _. guid_at };

    fn read(
        _alloc: Global,
        _earlier: &[Guid],
        value: &Value,
        spot: Spot,
    ) -> Result<Guid, ReadStop> {
        guid(value, spot)
    }
}

impl Entry for Name {
    ghost use Rattle.std.specs.Prelude.{List, ℕ};
    ghost use Rattle.release_catalogue.specs.Kinds.{name_at};

    ghost Seen = { List ℕ };

    ghost seen = { λ name. name };

    ghost reading = { λ _. name_at };

    fn read(
        _alloc: Global,
        _earlier: &[Name],
        value: &Value,
        spot: Spot,
    ) -> Result<Name, ReadStop> {
        name(value, spot)
    }
}

impl Entry for Line {
    ghost use Rattle.std.specs.Prelude.{List, ℕ};
    ghost use Rattle.release_catalogue.specs.Kinds.{line_at};

    ghost Seen = { List ℕ };

    ghost seen = { λ line. line };

    ghost reading = { λ _. line_at };

    fn read(
        _alloc: Global,
        _earlier: &[Line],
        value: &Value,
        spot: Spot,
    ) -> Result<Line, ReadStop> {
        line(value, spot)
    }
}
