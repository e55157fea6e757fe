//! Rows in memory.
ghost use Rattle.std.specs.Prelude.{◌≡◌, ◌⊎◌, ◌+◌, ◌<◌, ◌++◌, ◌∷◌, [], true, map, length, IfSome, IfNone, OnOk, OnErr};
ghost use Rattle.history_keeper.specs.Changes.{with_state};
ghost use Rattle.history_keeper.specs.Numbers.{IsNumbered};

use crate::row::{Row, RowState};
use crate::stated::{state_each, state_numbered};
use fw_base::NoMemory;
use std::marker::Model;
use std::slice;

/// A list of rows. Where the entries are 1, 2, 3 and so on, a row is found by its place, and no other is
/// looked at; that they are is noted beside the rows, and stands in no clause.
#[derive(Drop)]
pub(crate) struct MemoryRows {
    rows: Vec<Row>,
    numbered: bool,
}

impl Model for MemoryRows {
    ghost use Rattle.std.specs.Prelude.{◌≡◌, List, true};
    ghost use Rattle.history_keeper.specs.declared.row.Row.{Row};
    ghost use Rattle.history_keeper.specs.Numbers.{IsNumbered};

    ghost Value = { List Row };

    ghost view = { λ s. s.rows.items };

    ghost invariant = { λ s. s.numbered ≡ true → IsNumbered s.rows.items };
}

impl MemoryRows {
    /// A list of these rows, which may have any entries.
    pub(crate) fn new(rows: Vec<Row>) -> MemoryRows
        ensures { result ≡ rows.items }
    {
        let numbered = are_numbered(&rows);
        MemoryRows { rows, numbered }
    }

    /// The rows.
    pub(crate) fn items(&self) -> &[Row]
        ensures { result.now ≡ self.now }
    {
        &self.rows
    }

    /// One row more, behind the others.
    pub(crate) fn push(&mut self, row: &Row) -> Result<(), NoMemory>
        ensures added { OnOk result (self.new ≡ self.old ++ row.now ∷ []) }
        ensures unchanged { OnErr result (self.new ≡ self.old) }
    {
        let is_next = row.entry as usize == self.rows.len() + 1;
        self.rows.extend_from_slice(slice::from_ref(row))?;
        self.numbered = self.numbered && is_next;
        Ok(())
    }

    /// Another state of the row with that entry.
    pub(crate) fn advance(&mut self, entry: u32, state: RowState, reason: u8, time: u64)
        ensures { self.new ≡ map (with_state entry state reason time) self.old }
    {
        if self.numbered {
            advance_numbered(&mut self.rows, entry, state, reason, time);
        } else {
            state_each(&mut self.rows, entry, state, reason, time);
        }
    }
}

// The same of rows whose entries are 1, 2, 3 and so on, and stay so.
fn advance_numbered(rows: &mut Vec<Row>, entry: u32, state: RowState, reason: u8, time: u64)
    requires { IsNumbered rows.old.items }
    ensures stated { rows.new.items ≡ map (with_state entry state reason time) rows.old.items }
    ensures numbered { IsNumbered rows.new.items }
{
    advance_at_place(rows, entry, state, reason, time);
}

fn advance_at_place(rows: &mut Vec<Row>, entry: u32, state: RowState, reason: u8, time: u64)
    requires { IsNumbered rows.old.items }
    ensures { rows.new.items ≡ map (with_state entry state reason time) rows.old.items }
{
    state_numbered(rows, entry, state, reason, time);
}

// Whether the entries are 1, 2, 3 and so on.
fn are_numbered(rows: &[Row]) -> bool
    ensures { result ≡ true → IsNumbered rows.now }
{
    for at in 0..rows.len() {
        if rows[at].entry as usize != at + 1 {
            return false;
        }
    }
    true
}
