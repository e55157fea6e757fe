//! Rows that were loaded, and those of the log.
ghost use Rattle.std.specs.Prelude.{◌≡◌, ◌==◌, ◌++◌, ◌∷◌, [], IfOk, MatchOption, map};
ghost use Rattle.history_keeper.specs.Changes.{changed, with_state};
ghost use Rattle.daemon_core.specs.Comparing.{DifferFirstAt, number_of, same_optional, same_request, same_row, same_state, same_terms};
ghost use Rattle.std.specs.Str.{bytes_eq};

use fw_base::{Name, NoMemory};
use history_keeper::{Change, Row, RowState};
use std::alloc::Global;
use std::slice;

/// The first place where two lists of rows differ, and none where they are the same.
pub(crate) fn first_difference(left: &[Row], right: &[Row]) -> Option<usize>
    ensures { MatchOption result (left.now ≡ right.now) (λ at. DifferFirstAt left.now right.now at) }
{
    let mut at = 0;
    for row in left {
        if at == right.len() || !same_row(row, &right[at]) {
            return Some(at);
        }
        at += 1;
    }
    if at == right.len() { None } else { Some(at) }
}

/// The rows with a change.
pub(crate) fn with_change(
    alloc: Global,
    rows: &[Row],
    change: &Change,
) -> Result<Vec<Row>, NoMemory>
    ensures { IfOk result (λ all. all.items ≡ changed change.now rows.now) }
{
    match change {
        Change::Add(row) => with_row(alloc, rows, row),
        Change::Advance {
            entry,
            state,
            reason,
            time,
        } => advanced(alloc, rows, *entry, *state, *reason, *time),
    }
}

fn with_row(alloc: Global, rows: &[Row], row: &Row) -> Result<Vec<Row>, NoMemory>
    ensures { IfOk result (λ all. all.items ≡ rows.now ++ row.now ∷ []) }
{
    let mut all = Vec::from_slice(alloc, rows)?;
    all.extend_from_slice(slice::from_ref(row))?;
    Ok(all)
}

fn advanced(
    alloc: Global,
    rows: &[Row],
    entry: u32,
    state: RowState,
    reason: u8,
    time: u64,
) -> Result<Vec<Row>, NoMemory>
    ensures { IfOk result (λ all. all.items ≡ map (with_state entry state reason time) rows.now) }
{
    let all = rows
        .iter()
        .map(|row| stated(*row, entry, state, reason, time))
        .collect(alloc)?;
    Ok(all)
}

// The row, with another state where it has that entry.
fn stated(row: Row, entry: u32, state: RowState, reason: u8, time: u64) -> Row
    ensures { result ≡ with_state entry state reason time row }
{
    if row.entry != entry {
        return row;
    }
    Row {
        state,
        reason,
        time_changed: time,
        ..row
    }
}

fn same_row(left: &Row, right: &Row) -> bool
    ensures { result ≡ same_row left.now right.now }
{
    same_request(left, right) && same_terms(left, right) && same_state(left, right)
}

fn same_request(left: &Row, right: &Row) -> bool
    ensures { result ≡ same_request left.now right.now }
{
    left.entry == right.entry
        && same_bytes(left.tag.bytes(), right.tag.bytes())
        && left.client == right.client
        && same_bytes(left.device.bytes(), right.device.bytes())
        && same_bytes(left.component.bytes(), right.component.bytes())
        && same_bytes(left.version_old.bytes(), right.version_old.bytes())
        && same_bytes(left.version_new.bytes(), right.version_new.bytes())
        && same_bytes(&left.digest, &right.digest)
        && left.flags == right.flags
}

fn same_terms(left: &Row, right: &Row) -> bool
    ensures { result ≡ same_terms left.now right.now }
{
    left.duration == right.duration
        && same_protocol(&left.protocol, &right.protocol)
        && same_link(left.retry_of, right.retry_of)
}

fn same_protocol(left: &Option<Name>, right: &Option<Name>) -> bool
    ensures { result ≡ same_optional bytes_eq left.now right.now }
{
    match (left, right) {
        (Some(left), Some(right)) => same_bytes(left.bytes(), right.bytes()),
        (None, None) => true,
        (Some(_), None) | (None, Some(_)) => false,
    }
}

fn same_link(left: Option<u32>, right: Option<u32>) -> bool
    ensures { result ≡ same_optional (λ a b. a == b) left right }
{
    match (left, right) {
        (Some(left), Some(right)) => left == right,
        (None, None) => true,
        (Some(_), None) | (None, Some(_)) => false,
    }
}

fn same_bytes(left: &[u8], right: &[u8]) -> bool
    ensures { result ≡ bytes_eq left.now right.now }
{
    left == right
}

fn same_state(left: &Row, right: &Row) -> bool
    ensures { result ≡ same_state left.now right.now }
{
    number_of(left.state) == number_of(right.state)
        && left.reason == right.reason
        && left.time_added == right.time_added
        && left.time_changed == right.time_changed
}

fn number_of(state: RowState) -> u8
    ensures { result ≡ number_of state }
{
    match state {
        RowState::Pending => 1,
        RowState::Success => 2,
        RowState::Failed => 3,
        RowState::NeedsReboot => 4,
        RowState::Begun => 100,
    }
}
