//! The places of the devices that have a GUID.
ghost use Rattle.std.specs.Prelude.{◌≡◌, ℕ, ◌<◌, ◌⊎◌, true, List, [], All, OnOk, IfErr, vec_len, vec_capacity};
ghost use Rattle.std.specs.List.{list_any, find};
ghost use Rattle.std.specs.Str.{bytes_eq};
ghost use Rattle.device_list.specs.Lists.{shows};
ghost use Rattle.device_list.specs.Guids.{ends_in, has, listed, shows_at, with_last, HasRoom, IsReady, IsReadyFor};

use fw_base::NoMemory;
use fw_facts::{DeviceView, Sheet};
use guid_ids::Guid;
use indexmap::IndexMap;

/// For each GUID the places of the devices whose boards have it in either mode, in rising order.
pub type GuidIndex = IndexMap<Guid, Vec<usize>>;

/// The places that are noted under a GUID.
pub fn listed<'a>(index: &'a GuidIndex, guid: &Guid) -> &'a [usize]
    ensures { result.now ≡ listed index.now guid.now }
{
    match index.get(guid) {
        Some(places) => places.as_slice(),
        None => &[],
    }
}

/// The first of the places whose device shows the GUID.
pub fn first_showing(views: &[DeviceView], places: &[usize], guid: &Guid) -> Option<usize>
    ensures { result ≡ find (shows_at guid.now views.now) places.now }
{
    places
        .iter()
        .copied()
        .find(|at| is_shown_at(views, *at, guid))
}

fn is_shown_at(views: &[DeviceView], at: usize, guid: &Guid) -> bool
    ensures { result ≡ shows_at guid.now views.now at }
{
    match views.get(at) {
        Some(view) => is_shown(view, guid),
        None => false,
    }
}

fn is_shown(view: &DeviceView, guid: &Guid) -> bool
    ensures { result ≡ shows guid.now view.now }
{
    view.guids().iter().any(|shown| guid == shown)
}

/// Makes room for a place under each GUID of a board. What is noted stays as it was.
pub fn reserve_board(index: &mut GuidIndex, sheet: &Sheet) -> Result<(), NoMemory>
    ensures same { (guid : List ℕ) → listed index.new guid ≡ listed index.old guid }
    ensures runtime { OnOk result (All (HasRoom index.new) sheet.now.runtime_guids) }
    ensures loader { OnOk result (All (HasRoom index.new) sheet.now.loader_guids) }
{
    reserve_each(index, sheet.runtime_guids.items())?;
    reserve_each(index, sheet.loader_guids.items())?;
    Ok(())
}

// Makes room for a place under each of the GUIDs. What is noted stays as it was.
fn reserve_each(index: &mut GuidIndex, guids: &[Guid]) -> Result<(), NoMemory>
    ensures same { (guid : List ℕ) → listed index.new guid ≡ listed index.old guid }
    ensures room { OnOk result (All (HasRoom index.new) guids.now) }
    ensures kept { (guid : List ℕ) → HasRoom index.old guid → HasRoom index.new guid }
{
    for guid in guids {
        reserve(index, *guid)?;
    }
    Ok(())
}

// Room for a place under the GUID.
fn reserve(index: &mut GuidIndex, guid: Guid) -> Result<(), NoMemory>
    ensures same { (other : List ℕ) → listed index.new other ≡ listed index.old other }
    ensures room { OnOk result (HasRoom index.new guid) }
    ensures kept { (other : List ℕ) → HasRoom index.old other → HasRoom index.new other }
{
    match index.get_mut(&guid) {
        Some(places) => grow(places),
        None => start(index, guid),
    }
}

fn grow(places: &mut Vec<usize>) -> Result<(), NoMemory>
    ensures same { places.new.items ≡ places.old.items }
    ensures room { OnOk result (vec_len places.new < vec_capacity places.new) }
    ensures kept { vec_len places.old < vec_capacity places.old → vec_len places.new < vec_capacity places.new }
{
    places.reserve(1)?;
    Ok(())
}

// An empty list for a GUID that has none.
fn start(index: &mut GuidIndex, guid: Guid) -> Result<(), NoMemory>
    requires { listed index.old guid ≡ [] }
    ensures same { (other : List ℕ) → listed index.new other ≡ listed index.old other }
    ensures room { OnOk result (HasRoom index.new guid) }
    ensures kept { (other : List ℕ) → HasRoom index.old other → HasRoom index.new other }
{
    let places = Vec::with_capacity(*index.allocator(), 1)?;
    index.insert(guid, places)?;
    Ok(())
}

/// Notes the place of a board under each of its GUIDs, once where both modes have it.
pub fn note_board(index: &mut GuidIndex, sheet: &Sheet, at: usize)
    requires runtime { All (HasRoom index.old) sheet.now.runtime_guids }
    requires loader { All (HasRoom index.old) sheet.now.loader_guids }
    ensures { (guid : List ℕ) → listed index.new guid ≡ with_last (has guid sheet.now) at (listed index.old guid) }
{
    note_each(index, sheet.runtime_guids.items(), at);
    note_each(index, sheet.loader_guids.items(), at);
}

// Notes a place under each of the GUIDs, once where a GUID repeats.
fn note_each(index: &mut GuidIndex, guids: &[Guid], at: usize)
    requires { All (IsReady at index.old) guids.now }
    ensures noted { (guid : List ℕ) → listed index.new guid ≡ with_last (list_any (bytes_eq guid) guids.now) at (listed index.old guid) }
    ensures kept { (guid : List ℕ) → IsReady at index.old guid → IsReady at index.new guid }
{
    for guid in guids {
        note(index, guid, at);
    }
}

// Notes a place under the GUID.
fn note(index: &mut GuidIndex, guid: &Guid, at: usize)
    requires { IsReady at index.old guid.now }
    ensures noted { (other : List ℕ) → listed index.new other ≡ with_last (bytes_eq other guid.now) at (listed index.old other) }
    ensures kept { (other : List ℕ) → IsReady at index.old other → IsReady at index.new other }
{
    if let Some(places) = index.get_mut(guid) {
        push_once(places, at);
    }
}

fn push_once(places: &mut Vec<usize>, at: usize)
    requires { IsReadyFor at places.old }
    ensures noted { places.new.items ≡ with_last true at places.old.items }
    ensures ready { IsReadyFor at places.new }
{
    if !ends_in(places, at) {
        places.push_reserved(at);
    }
}

fn ends_in(places: &[usize], at: usize) -> bool
    ensures { result ≡ ends_in at places.now }
{
    match places.last() {
        Some(last) => *last == at,
        None => false,
    }
}
