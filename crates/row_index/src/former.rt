//! Rows as they were before they were changed.
ghost use Rattle.std.specs.Prelude.{◌≡◌, ◌≤◌, length, map, option_map, slice_get, IfOk};
ghost use Rattle.row_index.specs.Formers.{as_before, as_were, former_of};

use fw_base::NoMemory;
use history_keeper::{Row, RowState};
use std::alloc::Global;

/// What a change can change of a row, as it was at some moment: its state, the reason, and when the row was
/// last changed.
#[derive(Clone, Copy, Debug)]
pub struct Former {
    pub state: RowState,
    pub reason: u8,
    pub time_changed: u64,
}

fn former_of(row: &Row) -> Former
    ensures { result ≡ former_of row.now }
{
    Former {
        state: row.state,
        reason: row.reason,
        time_changed: row.time_changed,
    }
}

/// What a change can change of each row, as it is now. Only memory may be wanting.
pub fn formers_of(alloc: Global, rows: &[Row]) -> Result<Vec<Former>, NoMemory>
    ensures { IfOk result (λ formers. formers.items ≡ map former_of rows.now) }
{
    Ok(rows.iter().map(|row| former_of(row)).collect(alloc)?)
}

/// The first rows, one for each former state, as they were then. Rows behind them are let go. It takes no memory.
pub fn as_were(mut rows: Vec<Row>, formers: &[Former]) -> Vec<Row>
    ensures { result.items ≡ as_were formers.now rows.items }
{
    rows.truncate(formers.len());
    put_all_back(&mut rows, formers);
    rows
}

/// The row at a place, as it was then.
pub fn row_as_it_was(rows: &[Row], formers: &[Former], at: usize) -> Option<Row>
    ensures { result ≡ slice_get (as_were formers.now rows.now) at }
{
    match former_at(formers, at) {
        Some(former) => row_before(row_at(rows, at), &former),
        None => None,
    }
}

fn row_before(row: Option<Row>, former: &Former) -> Option<Row>
    ensures { result ≡ option_map (as_before former.now) row }
{
    match row {
        Some(row) => Some(as_before(row, former)),
        None => None,
    }
}

fn former_at(formers: &[Former], at: usize) -> Option<Former>
    ensures { result ≡ slice_get formers.now at }
{
    formers.get(at).copied()
}

fn row_at(rows: &[Row], at: usize) -> Option<Row>
    ensures { result ≡ slice_get rows.now at }
{
    rows.get(at).copied()
}

fn put_all_back(rows: &mut Vec<Row>, formers: &[Former])
    requires { length rows.old.items ≤ length formers.now }
    ensures { rows.new.items ≡ as_were formers.now rows.old.items }
{
    put_back(rows, formers);
}

// Each row becomes what it was.
fn put_back(rows: &mut [Row], formers: &[Former])
    requires { length rows.old ≤ length formers.now }
    ensures { rows.new ≡ as_were formers.now rows.old }
{
    for at in 0..rows.len() {
        rows[at] = as_before(rows[at], &formers[at]);
    }
}

fn as_before(row: Row, former: &Former) -> Row
    ensures { result ≡ as_before former.now row }
{
    Row {
        state: former.state,
        reason: former.reason,
        time_changed: former.time_changed,
        ..row
    }
}
