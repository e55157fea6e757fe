//! Which components provide a GUID.
ghost use Rattle.std.specs.Prelude.{◌≡◌, ◌<◌, ◌≤◌, ◌||◌, ◌&&◌, ◌==◌, ℕ, List, [], ◌∷◌, true, false, length, IfOk, OnOk, slice_index_or};
ghost use Rattle.std.specs.List.{list_any};
ghost use Rattle.std.specs.Str.{bytes_eq};
ghost use Rattle.release_catalogue.specs.Lookup.{provides};
ghost use Rattle.release_catalogue.specs.Places.{is_listed, listed, IsIndexOf};

use crate::component::COMPONENTS_MAX;
use fw_base::NoMemory;
use fw_facts::Component;
use guid_ids::Guid;
use indexmap::IndexMap;
use std::alloc::Global;

/// The places of the components that provide each GUID, in rising order.
pub type GuidIndex = IndexMap<Guid, Vec<u32>>;

/// The index of some components.
pub fn index_of(alloc: Global, components: &[Component]) -> Result<GuidIndex, NoMemory>
    requires { length components.now ≤ 4096 }
    ensures { IfOk result (λ index. IsIndexOf index.entries components.now) }
{
    let mut index = IndexMap::new(alloc);
    for (at, component) in components.iter().enumerate() {
        note_all(alloc, &mut index, component.provides.items(), at as u32)?;
    }
    Ok(index)
}

/// Notes that the component at a place provides the GUIDs.
fn note_all(alloc: Global, index: &mut GuidIndex, guids: &[Guid], at: u32) -> Result<(), NoMemory>
    ensures { OnOk result ((guid : List ℕ) (place : ℕ) → is_listed guid place index.new.entries ≡ (is_listed guid place index.old.entries || ((at == place) && list_any (λ own. bytes_eq own guid || false) guids.now))) }
{
    for guid in guids {
        note(alloc, index, *guid, at)?;
    }
    Ok(())
}

/// Notes that the component at a place provides the GUID.
fn note(alloc: Global, index: &mut GuidIndex, own: Guid, at: u32) -> Result<(), NoMemory>
    ensures { OnOk result ((guid : List ℕ) (place : ℕ) → is_listed guid place index.new.entries ≡ (is_listed guid place index.old.entries || ((at == place) && bytes_eq own guid))) }
{
    let mut places = take_places(alloc, index, own);
    places.push(at)?;
    index.insert(own, places)?;
    Ok(())
}

/// Takes the places of a GUID out of the index.
fn take_places(alloc: Global, index: &mut GuidIndex, own: Guid) -> Vec<u32>
    ensures places { result.items ≡ listed own index.old.entries }
    ensures others { (guid : List ℕ) → bytes_eq own guid ≡ false → listed guid index.new.entries ≡ listed guid index.old.entries }
{
    match index.swap_remove(&own) {
        Some(places) => places,
        None => Vec::new(alloc),
    }
}

/// Which components provide one of the GUIDs.
pub fn marks_of(index: &GuidIndex, guids: &[Guid]) -> [bool; COMPONENTS_MAX]
    requires { (guid : List ℕ) (place : ℕ) → is_listed guid place index.now.entries ≡ true → place < 4096 }
    ensures { (place : ℕ) → slice_index_or result place false ≡ list_any (λ guid. is_listed guid place index.now.entries) guids.now }
{
    let mut marks = no_marks();
    for guid in guids {
        mark_guid(index, guid, &mut marks);
    }
    marks
}

fn no_marks() -> [bool; COMPONENTS_MAX]
    ensures { (place : ℕ) → slice_index_or result place false ≡ false }
{
    [false; COMPONENTS_MAX]
}

/// Marks the components that provide the GUID.
fn mark_guid(index: &GuidIndex, guid: &Guid, marks: &mut [bool])
    requires { (place : ℕ) → is_listed guid.now place index.now.entries ≡ true → place < length marks.old }
    ensures { (place : ℕ) → slice_index_or marks.new place false ≡ (slice_index_or marks.old place false || is_listed guid.now place index.now.entries) }
{
    if let Some(places) = index.get(guid) {
        mark(places, marks);
    }
}

/// Marks these places.
fn mark(places: &[u32], marks: &mut [bool])
    requires { (place : ℕ) → list_any (λ at. at == place) places.now ≡ true → place < length marks.old }
    ensures { (place : ℕ) → slice_index_or marks.new place false ≡ (slice_index_or marks.old place false || list_any (λ at. at == place) places.now) }
{
    for at in places {
        marks[*at as usize] = true;
    }
}
