//! Logs, rows and what is kept of the live entries, once more.
ghost use Rattle.std.specs.Prelude.{◌≡◌, IfOk};

use device_list::Devices;
use fw_base::NoMemory;
use row_index::IndexedRows;
use std::alloc::Global;
use update_log::{Event, Held, LiveEntry, OpenStep, Traced};

/// An equal log.
fn copied_log(alloc: Global, log: &[Event]) -> Result<Vec<Event>, NoMemory>
    ensures { IfOk result (λ copy. copy.items ≡ log.now) }
{
    let mut copy = Vec::with_capacity(alloc, log.len())?;
    for event in log {
        copy.push(event.copy(alloc)?)?;
    }
    Ok(copy)
}

/// The same rows, with an index.
fn copied_rows(alloc: Global, rows: &IndexedRows) -> Result<IndexedRows, NoMemory>
    ensures { IfOk result (λ copy. copy.rows ≡ rows.now.rows) }
{
    let mut copy = IndexedRows::new(alloc);
    copy.put(Vec::from_slice(alloc, rows.rows())?);
    copy.reserve(1)?;
    Ok(copy)
}

/// What is kept of the live entries and the holds once more.
pub fn copied_live(
    alloc: Global,
    live: &[LiveEntry],
    traces: &[Traced],
    holds: &[Held],
    steps: &[OpenStep],
) -> Result<(Vec<LiveEntry>, Vec<Traced>, Vec<Held>, Vec<OpenStep>), NoMemory>
    ensures live { IfOk result (λ copy. copy.0.items ≡ live.now) }
    ensures traces { IfOk result (λ copy. copy.1.items ≡ traces.now) }
    ensures holds { IfOk result (λ copy. copy.2.items ≡ holds.now) }
    ensures steps { IfOk result (λ copy. copy.3.items ≡ steps.now) }
{
    let (live, traces) = copied_pair(alloc, live, traces)?;
    let (holds, steps) = copied_pair(alloc, holds, steps)?;
    Ok((live, traces, holds, steps))
}

/// Two lists once more.
pub fn copied_pair<A: Copy, B: Copy>(
    alloc: Global,
    first: &[A],
    second: &[B],
) -> Result<(Vec<A>, Vec<B>), NoMemory>
    ensures first { IfOk result (λ copy. copy.0.items ≡ first.now) }
    ensures second { IfOk result (λ copy. copy.1.items ≡ second.now) }
{
    let first_copy = Vec::from_slice(alloc, first)?;
    let second_copy = Vec::from_slice(alloc, second)?;
    Ok((first_copy, second_copy))
}

/// A log, the devices and the rows once more.
pub fn copied_past(
    alloc: Global,
    log: &[Event],
    devices: &Devices,
    rows: &IndexedRows,
) -> Result<(Vec<Event>, Devices, IndexedRows), NoMemory>
    ensures log { IfOk result (λ copy. copy.0.items ≡ log.now) }
    ensures devices { IfOk result (λ copy. copy.1 ≡ devices.now) }
    ensures rows { IfOk result (λ copy. copy.2.rows ≡ rows.now.rows) }
{
    let log_copy = copied_log(alloc, log)?;
    let devices_copy = devices.copy(alloc)?;
    let rows_copy = copied_rows(alloc, rows)?;
    Ok((log_copy, devices_copy, rows_copy))
}
