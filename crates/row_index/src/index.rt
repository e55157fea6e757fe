//! Where rows stand.
ghost use Rattle.std.specs.Prelude.{◌≡◌, ◌+◌, ◌≤◌, ◌&&◌, ℕ, List, [], ◌∷◌, ◌++◌, Some, if◌then◌else◌, OnOk};
ghost use Rattle.std.specs.Bool.{OnTrue};
ghost use Rattle.std.specs.List.{list_any};
ghost use Rattle.std.specs.Str.{bytes_eq};
ghost use Rattle.indexmap.specs.IndexMap.{get, spare};
ghost use Rattle.history_keeper.specs.declared.row.Row.{Row};
ghost use Rattle.history_keeper.specs.Histories.{is_unsettled};
ghost use Rattle.row_index.specs.Rows.{waits_on};
ghost use Rattle.row_index.specs.Indexes.{HasRoom, IsIndexOf, or_noted, row_at};

use crate::stated::is_unsettled;
use crate::tag_key::TagKey;
use fw_base::{Name, NoMemory};
use guid_ids::DeviceId;
use history_keeper::Row;
use indexmap::IndexMap;
use std::alloc::Global;
use std::slice;

type TagIndex = IndexMap<TagKey, usize>;

type DeviceIndex = IndexMap<DeviceId, usize>;

/// Of each tag the place of its row, and of each device a place: that of the row that waits on it,
/// where one does.
#[derive(Drop)]
pub struct Index {
    pub tags: TagIndex,
    pub waiting: DeviceIndex,
}

impl Index {
    /// The index of no rows.
    pub fn new(alloc: Global) -> Index
        ensures { IsIndexOf [] result.tags result.waiting }
    {
        Index {
            tags: TagIndex::new(alloc),
            waiting: DeviceIndex::new(alloc),
        }
    }

    /// Makes room for so many rows more.
    pub fn reserve(&mut self, more: usize) -> Result<(), NoMemory>
        ensures room { OnOk result (HasRoom more self.new.tags self.new.waiting) }
        ensures same { (rows : List Row) → IsIndexOf rows self.old.tags self.old.waiting → IsIndexOf rows self.new.tags self.new.waiting }
    {
        self.tags.reserve(more)?;
        self.waiting.reserve(more)?;
        Ok(())
    }

    /// The place of a tag.
    pub fn place_of_tag(&self, tag: &Name) -> Option<usize>
        ensures { result ≡ get bytes_eq self.now.tags tag.now }
    {
        self.tags.get(&TagKey::of(*tag)).copied()
    }

    /// The place of a device.
    pub fn place_of_device(&self, device: &DeviceId) -> Option<usize>
        ensures { result ≡ get bytes_eq self.now.waiting device.now }
    {
        self.waiting.get(device).copied()
    }

    /// Notes a row that comes behind the others. It can't where the row hasn't the next entry, or where
    /// it waits on a device on which another row waits already.
    pub fn note(&mut self, rows: &[Row], row: &Row) -> bool
        requires index { IsIndexOf rows.now self.old.tags self.old.waiting }
        requires room { HasRoom 1 self.old.tags self.old.waiting }
        ensures noted { OnTrue result (IsIndexOf (rows.now ++ row.now ∷ []) self.new.tags self.new.waiting) }
        ensures room { (more : ℕ) → HasRoom (more + 1) self.old.tags self.old.waiting → HasRoom more self.new.tags self.new.waiting }
    {
        if row.entry as usize != rows.len() + 1 {
            return false;
        }
        if is_in_conflict(&self.waiting, rows, row) {
            return false;
        }
        note_tag(&mut self.tags, row.tag, rows.len());
        note_waiting(&mut self.waiting, row, rows.len());
        true
    }
}

// The row waits on a device on which one of these rows waits.
fn is_in_conflict(waiting: &DeviceIndex, rows: &[Row], row: &Row) -> bool
    ensures { result ≡ (is_unsettled row.now.state && list_any (waits_on row.now.device) (row_at rows.now (get bytes_eq waiting.now row.now.device))) }
{
    is_unsettled(row.state)
        && any_waits(
            at_place(rows, waiting.get(&row.device).copied()),
            &row.device,
        )
}

fn any_waits(rows: &[Row], device: &DeviceId) -> bool
    ensures { result ≡ list_any (waits_on device.now) rows.now }
{
    rows.iter().any(|row| waits_on(row, device))
}

/// The row is of the device, and waits for its end.
pub fn waits_on(row: &Row, device: &DeviceId) -> bool
    ensures { result ≡ waits_on device.now row.now }
{
    row.device == *device && is_unsettled(row.state)
}

/// The row at a place, and no row where no place is told.
pub fn at_place(rows: &[Row], at: Option<usize>) -> &[Row]
    ensures { result.now ≡ row_at rows.now at }
{
    match at {
        Some(at) => one_at(rows, at),
        None => &[],
    }
}

fn one_at(rows: &[Row], at: usize) -> &[Row]
    ensures { result.now ≡ row_at rows.now (Some at) }
{
    match rows.get(at) {
        Some(row) => slice::from_ref(row),
        None => &[],
    }
}

// Notes the place of a tag, unless it has one.
fn note_tag(tags: &mut TagIndex, tag: Name, at: usize)
    requires { 1 ≤ spare tags.old }
    ensures noted { (other : List ℕ) → get bytes_eq tags.new other ≡ or_noted (get bytes_eq tags.old other) (bytes_eq other tag) at }
    ensures room { spare tags.old ≤ spare tags.new + 1 }
{
    if tags.get(&TagKey::of(tag)).is_none() {
        let _ = tags.insert(TagKey::of(tag), at);
    }
}

// Notes the place of a row's device, where the row waits.
fn note_waiting(waiting: &mut DeviceIndex, row: &Row, at: usize)
    requires { 1 ≤ spare waiting.old }
    ensures noted { (device : List ℕ) → get bytes_eq waiting.new device ≡ (if is_unsettled row.now.state && bytes_eq device row.now.device then Some at else get bytes_eq waiting.old device) }
    ensures room { spare waiting.old ≤ spare waiting.new + 1 }
{
    if is_unsettled(row.state) {
        let _ = waiting.insert(row.device, at);
    }
}
