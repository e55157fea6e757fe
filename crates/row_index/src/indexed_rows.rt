//! Rows with their index.
ghost use Rattle.std.specs.Prelude.{◌≡◌, ◌≤◌, ◌+◌, ◌-◌, ℕ, ◌∷◌, ◌++◌, [], Bool, true, map, find, option_copied, slice_get, OnOk, IfOk, IfSome, vec_len, vec_capacity};
ghost use Rattle.history_keeper.specs.declared.row.Row.{Row};
ghost use Rattle.history_keeper.specs.Changes.{with_state};
ghost use Rattle.row_index.specs.Rows.{has_entry, has_tag, waits_on};
ghost use Rattle.history_keeper.specs.Numbers.{IsNumbered};
ghost use Rattle.row_index.specs.Indexes.{HasRoom, IsIndexOf};

use crate::index::{Index, at_place, waits_on};
use crate::stated::state_numbered;
use fw_base::{Name, NoMemory};
use guid_ids::DeviceId;
use history_keeper::stated::{place_of_entry, state_each};
use history_keeper::{Row, RowState};
use std::alloc::Global;
use std::marker::Model;

#[cfg(test)]
mod tests;

/// Rows in the order of their entries. Contracts see the list of the rows, and for how many more there
/// is room.
#[derive(Drop)]
pub struct IndexedRows {
    rows: Vec<Row>,
    index: Option<Index>,
}

impl Model for IndexedRows {
    ghost use Rattle.std.specs.Prelude.{◌-◌, vec_len, vec_capacity};
    ghost use Rattle.std.specs.Option.{ForSome};
    ghost use Rattle.row_index.specs.Rows.{Rows};
    ghost use Rattle.row_index.specs.Indexes.{IsKept};

    ghost Value = { Rows };

    ghost view = { λ s. record { rows = s.rows.items; room = vec_capacity s.rows - vec_len s.rows } };

    ghost invariant = { λ s. ForSome s.index (λ i. IsKept s.rows i.tags i.waiting) };
}

impl IndexedRows {
    /// No rows.
    pub fn new(alloc: Global) -> IndexedRows
        ensures { result.rows ≡ [] }
    {
        IndexedRows {
            rows: Vec::new(alloc),
            index: None,
        }
    }

    /// These rows in place of all. Their index is made by the next `reserve`.
    pub fn put(&mut self, rows: Vec<Row>)
        ensures { self.new ≡ record { rows = rows.items; room = vec_capacity rows - vec_len rows } }
    {
        self.index = None;
        self.rows = rows;
    }

    /// Makes room for so many rows more, and the index where it is wanting.
    pub fn reserve(&mut self, more: usize) -> Result<(), NoMemory>
        ensures room { OnOk result (more ≤ self.new.room) }
        ensures no_less { self.old.room ≤ self.new.room }
        ensures same { self.new.rows ≡ self.old.rows }
    {
        let kept = self.index.take();
        self.rows.reserve(more)?;
        let room = self.rows.capacity() - self.rows.len();
        self.index = with_room(*self.rows.allocator(), kept, &self.rows, room)?;
        Ok(())
    }

    /// The rows.
    pub fn rows(&self) -> &[Row]
        ensures { result.now ≡ self.now.rows }
    {
        &self.rows
    }

    /// The rows, without their index. It takes no memory.
    pub fn into_rows(self) -> Vec<Row>
        ensures { result.items ≡ self.rows }
    {
        let IndexedRows { rows, index: _ } = self;
        rows
    }

    /// The row of an entry.
    pub fn row_of(&self, entry: u32) -> Option<&Row>
        ensures { option_copied result ≡ find (has_entry entry) self.now.rows }
    {
        match &self.index {
            Some(_) => row_numbered(&self.rows, entry),
            None => row_with_entry(&self.rows, entry),
        }
    }

    /// The row of a tag.
    pub fn with_tag(&self, tag: &Name) -> Option<&Row>
        ensures { option_copied result ≡ find (has_tag tag.now) self.now.rows }
    {
        match &self.index {
            Some(index) => row_with_tag(at_place(&self.rows, index.place_of_tag(tag)), tag),
            None => row_with_tag(&self.rows, tag),
        }
    }

    /// Rows among which each row stands that waits on the device: one at most, where the index tells it.
    pub fn near(&self, device: &DeviceId) -> &[Row]
        ensures { (test : Row → Bool) → ((row : Row) → test row ≡ true → waits_on device.now row ≡ true) → find test result.now ≡ find test self.now.rows }
    {
        match &self.index {
            Some(index) => at_place(&self.rows, index.place_of_device(device)),
            None => &self.rows,
        }
    }

    /// The row that waits on the device.
    pub fn unsettled_of(&self, device: &DeviceId) -> Option<&Row>
        ensures { option_copied result ≡ find (waits_on device.now) self.now.rows }
    {
        first_waiting(self.near(device), device)
    }

    /// One more row, into room that was made.
    pub fn push(&mut self, row: Row)
        requires { 1 ≤ self.old.room }
        ensures { self.new ≡ record { rows = self.old.rows ++ row ∷ []; room = self.old.room - 1 } }
    {
        let index = self.index.take();
        self.index = noted(index, &self.rows, &row);
        self.rows.push_reserved(row);
    }

    /// Another state of the row with that entry.
    pub fn advance(&mut self, entry: u32, state: RowState, reason: u8, time: u64)
        ensures { self.new ≡ record self.old { rows = map (with_state entry state reason time) self.old.rows } }
    {
        let index = self.index.take();
        self.index = advanced(&mut self.rows, index, entry, state, reason, time);
    }
}

fn row_numbered(rows: &[Row], entry: u32) -> Option<&Row>
    requires { IsNumbered rows.now }
    ensures { option_copied result ≡ find (has_entry entry) rows.now }
{
    let at = place_of_entry(rows, entry)?;
    get(rows, at)
}

fn get(rows: &[Row], at: usize) -> Option<&Row>
    ensures { option_copied result ≡ slice_get rows.now at }
{
    rows.get(at)
}

fn row_with_entry(rows: &[Row], entry: u32) -> Option<&Row>
    ensures { option_copied result ≡ find (has_entry entry) rows.now }
{
    rows.iter().find(|row| row.entry == entry)
}

fn row_with_tag<'a>(rows: &'a [Row], tag: &Name) -> Option<&'a Row>
    ensures { option_copied result ≡ find (has_tag tag.now) rows.now }
{
    rows.iter().find(|row| *tag == row.tag)
}

fn first_waiting<'a>(rows: &'a [Row], device: &DeviceId) -> Option<&'a Row>
    ensures { option_copied result ≡ find (waits_on device.now) rows.now }
{
    rows.iter().find(|row| waits_on(row, device))
}

// The index with one more row, where the row lets it stand.
fn noted(index: Option<Index>, rows: &[Row], row: &Row) -> Option<Index>
    requires index { IfSome index (λ i. IsIndexOf rows.now i.tags i.waiting) }
    requires room { IfSome index (λ i. HasRoom 1 i.tags i.waiting) }
    ensures noted { IfSome result (λ i. IsIndexOf (rows.now ++ row.now ∷ []) i.tags i.waiting) }
    ensures room { IfSome result (λ i. (more : ℕ) → IfSome index (λ j. HasRoom (more + 1) j.tags j.waiting) → HasRoom more i.tags i.waiting) }
{
    let mut index = index?;
    if index.note(rows, row) {
        Some(index)
    } else {
        None
    }
}

// The rows with another state of one of them, and the index, where that lets it stand.
fn advanced(
    rows: &mut [Row],
    index: Option<Index>,
    entry: u32,
    state: RowState,
    reason: u8,
    time: u64,
) -> Option<Index>
    requires { IfSome index (λ i. IsIndexOf rows.old i.tags i.waiting) }
    ensures stated { rows.new ≡ map (with_state entry state reason time) rows.old }
    ensures index { IfSome result (λ i. IsIndexOf rows.new i.tags i.waiting) }
    ensures room { IfSome result (λ i. (more : ℕ) → IfSome index (λ j. HasRoom more j.tags j.waiting) → HasRoom more i.tags i.waiting) }
{
    match index {
        Some(index) => {
            if state_numbered(rows, entry, state, reason, time) {
                None
            } else {
                Some(index)
            }
        }
        None => {
            state_each(rows, entry, state, reason, time);
            None
        }
    }
}

// The index of the rows, with room for so many more; it is made where there was none.
fn with_room(
    alloc: Global,
    kept: Option<Index>,
    rows: &[Row],
    room: usize,
) -> Result<Option<Index>, NoMemory>
    requires { IfSome kept (λ i. IsIndexOf rows.now i.tags i.waiting) }
    ensures index { IfOk result (λ index. IfSome index (λ i. IsIndexOf rows.now i.tags i.waiting)) }
    ensures room { IfOk result (λ index. IfSome index (λ i. HasRoom room i.tags i.waiting)) }
{
    match kept {
        Some(index) => wider(index, rows, room),
        None => match index_of(alloc, rows)? {
            Some(index) => wider(index, rows, room),
            None => Ok(None),
        },
    }
}

fn wider(mut index: Index, rows: &[Row], room: usize) -> Result<Option<Index>, NoMemory>
    requires { IsIndexOf rows.now index.tags index.waiting }
    ensures index { IfOk result (λ index. IfSome index (λ i. IsIndexOf rows.now i.tags i.waiting)) }
    ensures room { IfOk result (λ index. IfSome index (λ i. HasRoom room i.tags i.waiting)) }
{
    index.reserve(room)?;
    Ok(Some(index))
}

// The index of the rows, where they are a valid history.
fn index_of(alloc: Global, rows: &[Row]) -> Result<Option<Index>, NoMemory>
    ensures { IfOk result (λ index. IfSome index (λ i. IsIndexOf rows.now i.tags i.waiting)) }
{
    let mut index = Index::new(alloc);
    for (at, row) in rows.iter().enumerate() {
        index.reserve(1)?;
        if !index.note(&rows[..at], row) {
            return Ok(None);
        }
    }
    Ok(Some(index))
}
