//! The quirks of one file, found by their groups.
ghost use Rattle.std.specs.Prelude.{◌≡◌, ◌≤◌, ◌<◌, ◌++◌, ◌∷◌, [], ℕ, List, length, get_or, Some, None, if◌then◌else◌, filter, map, reverse, IfOk, OnOk};
ghost use Rattle.std.specs.Str.{bytes_eq};
ghost use Rattle.indexmap.specs.IndexMap.{get};
ghost use Rattle.quirk_files.specs.Places.{IsIndexed, HeadsAre, later, latest, moved};
ghost use Rattle.quirk_files.specs.Sheets.{is_for};

use crate::quirk::Quirk;
use fw_base::NoMemory;
use guid_ids::Guid;
use indexmap::IndexMap;
use std::alloc::Global;
use std::marker::Model;

/// The quirks of a file with an index by group. Contracts see their list.
#[derive(Drop)]
pub struct Indexed {
    quirks: Vec<Quirk>,
    // The last place of each group.
    last: IndexMap<Guid, usize>,
    // For each place, the place before it of the same group.
    before: Vec<Option<usize>>,
}

impl Model for Indexed {
    ghost use Rattle.std.specs.Prelude.{List, map};
    ghost use Rattle.std.specs.Str.{bytes_eq};
    ghost use Rattle.indexmap.specs.IndexMap.{get};
    ghost use Rattle.quirk_files.specs.declared.quirk.Quirk.{Quirk};
    ghost use Rattle.quirk_files.specs.Places.{IsIndexed};

    ghost Value = { List Quirk };

    ghost view = { λ s. s.quirks.items };

    ghost invariant = { λ s. IsIndexed (map (λ quirk. quirk.group) s.quirks.items) (get bytes_eq s.last) s.before.items };
}

impl Indexed {
    /// The quirks, with their index.
    pub fn of(alloc: Global, quirks: Vec<Quirk>) -> Result<Indexed, NoMemory>
        ensures { IfOk result (λ indexed. indexed ≡ quirks.items) }
    {
        let mut last = IndexMap::new(alloc);
        let mut before = Vec::new(alloc);
        note_all(&quirks, &mut last, &mut before)?;
        Ok(Indexed {
            quirks,
            last,
            before,
        })
    }

    /// Puts the quirks for these GUIDs behind others, in their order. It looks at no other quirk.
    pub fn push_for<'a>(
        &'a self,
        alloc: Global,
        guids: &[Guid],
        quirks: &mut Vec<&'a Quirk>,
    ) -> Result<(), NoMemory>
        ensures { OnOk result (map (λ quirk. quirk.now) quirks.new.items ≡ map (λ quirk. quirk.now) quirks.old.items ++ filter (is_for guids.now) self.now) }
    {
        let mut found = found(alloc, guids, &self.quirks, &self.last, &self.before)?;
        found.reverse();
        quirks.extend_from_slice(&found)?;
        Ok(())
    }
}

fn note_all(
    quirks: &[Quirk],
    last: &mut IndexMap<Guid, usize>,
    before: &mut Vec<Option<usize>>,
) -> Result<(), NoMemory>
    requires no_place { (q : _) → get bytes_eq last.old q ≡ None }
    requires nothing { before.old.items ≡ [] }
    ensures { OnOk result (IsIndexed (map (λ quirk. quirk.group) quirks.now) (get bytes_eq last.new) before.new.items) }
{
    for (at, quirk) in quirks.iter().enumerate() {
        note(last, before, quirk.group, at)?;
    }
    Ok(())
}

// Notes that the group stands at the place.
fn note(
    last: &mut IndexMap<Guid, usize>,
    before: &mut Vec<Option<usize>>,
    group: Guid,
    at: usize,
) -> Result<(), NoMemory>
    ensures last { OnOk result ((q : _) → get bytes_eq last.new q ≡ (if bytes_eq group q then Some at else get bytes_eq last.old q)) }
    ensures before { OnOk result (before.new.items ≡ before.old.items ++ get bytes_eq last.old group ∷ []) }
{
    let old = last.insert(group, at)?;
    before.push(old)?;
    Ok(())
}

// The quirks for these GUIDs, the last first.
fn found<'a>(
    alloc: Global,
    guids: &[Guid],
    quirks: &'a [Quirk],
    last: &IndexMap<Guid, usize>,
    before: &[Option<usize>],
) -> Result<Vec<&'a Quirk>, NoMemory>
    requires { IsIndexed (map (λ quirk. quirk.group) quirks.now) (get bytes_eq last.now) before.now }
    ensures { IfOk result (λ found. map (λ quirk. quirk.now) (reverse found.items) ≡ filter (is_for guids.now) quirks.now) }
{
    let mut heads = heads(alloc, guids, last)?;
    let mut found = Vec::new(alloc);
    let mut at = quirks.len();
    while let Some(place) = latest(&heads) {
        found.push(quirk_at(quirks, place))?;
        heads = moved_heads(alloc, &heads, place, before_at(before, place))?;
        at = place;
    }
    let _end = at;
    Ok(found)
}

fn quirk_at(quirks: &[Quirk], place: usize) -> &Quirk
    requires { place < length quirks.now }
    ensures { result.now ≡ get_or quirks.now place result.now }
{
    &quirks[place]
}

fn before_at(before: &[Option<usize>], place: usize) -> Option<usize>
    requires { place < length before.now }
    ensures { result ≡ get_or before.now place None }
{
    before[place]
}

fn heads(
    alloc: Global,
    guids: &[Guid],
    last: &IndexMap<Guid, usize>,
) -> Result<Vec<Option<usize>>, NoMemory>
    ensures { IfOk result (λ heads. heads.items ≡ map (get bytes_eq last.now) guids.now) }
{
    let mut heads = Vec::new(alloc);
    for guid in guids {
        heads.push(last.get(guid).copied())?;
    }
    Ok(heads)
}

fn latest(heads: &[Option<usize>]) -> Option<usize>
    ensures { result ≡ latest heads.now }
{
    let mut found = None;
    for head in heads {
        found = later(found, *head);
    }
    found
}

fn later(one: Option<usize>, other: Option<usize>) -> Option<usize>
    ensures { result ≡ later one other }
{
    match (one, other) {
        (None, other) => other,
        (Some(one), None) => Some(one),
        (Some(one), Some(other)) => Some(one.max(other)),
    }
}

fn moved_heads(
    alloc: Global,
    heads: &[Option<usize>],
    place: usize,
    before: Option<usize>,
) -> Result<Vec<Option<usize>>, NoMemory>
    ensures { IfOk result (λ heads_after. heads_after.items ≡ map (moved place before) heads.now) }
{
    let mut after = Vec::new(alloc);
    for head in heads {
        after.push(moved(place, before, *head))?;
    }
    Ok(after)
}

fn moved(place: usize, before: Option<usize>, head: Option<usize>) -> Option<usize>
    ensures { result ≡ moved place before head }
{
    match head {
        Some(head) if head < place => Some(head),
        Some(_) => before,
        None => None,
    }
}
