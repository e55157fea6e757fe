//! Valid histories.
ghost use Rattle.std.specs.Prelude.{◌≡◌, ◌+◌, ◌++◌, ◌∷◌, [], ◌&&◌, not, map, length, if◌then◌else◌, Any, IfOk, OnOk, MatchOption, MatchBool};
ghost use Rattle.std.specs.Bool.{OnTrue};
ghost use Rattle.std.specs.List.{list_any};
ghost use Rattle.std.specs.Option.{option_to_list};
ghost use Rattle.std.specs.Str.{bytes_eq};
ghost use Rattle.history_keeper.specs.Histories.{is_failed, is_unsettled, is_untried, IsHistory, IsFailure, IsFirstFaulty, IsLinked, Follows, GoesOn, Links};
ghost use Rattle.history_keeper.specs.Numbers.{IsNumbered};

use crate::row::{Row, RowState};
use crate::stated::place_of_entry;
use fw_base::NoMemory;
use guid_ids::DeviceId;
use indexmap::IndexSet;
use std::alloc::Global;

/// The place, from 0, of the first row that breaks a rule of a valid history: the entries are 1, 2,
/// 3 and so on, no two rows have one tag, no device has two rows of state pending, begun or
/// needs-reboot, and a row that tries another one again names an earlier failed one of its device,
/// which no other row names. A row breaks a rule together with the rows before it. `None` comes
/// exactly where the rows are a valid history. Each row is looked at once.
pub fn first_faulty(alloc: Global, rows: &[Row]) -> Result<Option<usize>, NoMemory>
    ensures found { IfOk result (λ found. MatchOption found (IsHistory rows.now) (λ at. IsFirstFaulty rows.now at)) }
    ensures valid { IsHistory rows.now → IfOk result (λ found. found ≡ None) }
{
    let mut tags = IndexSet::new(alloc);
    let mut waiting = IndexSet::new(alloc);
    let mut retried = IndexSet::new(alloc);
    for (at, row) in rows.iter().enumerate() {
        if !goes_on(&mut tags, &mut waiting, &mut retried, &rows[..at], row)? {
            return Ok(Some(at));
        }
    }
    Ok(None)
}

// Whether the row goes on with the rows before it; if so, its tag is noted, its device where it waits,
// and the entry that it tries again.
fn goes_on<'a>(
    tags: &mut IndexSet<&'a [u8]>,
    waiting: &mut IndexSet<DeviceId>,
    retried: &mut IndexSet<u32>,
    before: &[Row],
    row: &'a Row,
) -> Result<bool, NoMemory>
    requires { IsNumbered before.now }
    ensures yes { IfOk result (λ yes. MatchBool yes (GoesOn before.now (map (λ tag. tag.now) tags.old.keys) waiting.old.keys retried.old.keys row.now) (GoesOn before.now (map (λ tag. tag.now) tags.old.keys) waiting.old.keys retried.old.keys row.now → ⊥)) }
    ensures tags { IfOk result (λ yes. OnTrue yes (map (λ tag. tag.now) tags.new.keys ≡ map (λ tag. tag.now) tags.old.keys ++ row.now.tag ∷ [])) }
    ensures waiting { IfOk result (λ yes. OnTrue yes (waiting.new.keys ≡ (if is_unsettled row.now.state then waiting.old.keys ++ row.now.device ∷ [] else waiting.old.keys))) }
    ensures retried { IfOk result (λ yes. OnTrue yes (retried.new.keys ≡ retried.old.keys ++ option_to_list row.now.retry_of)) }
{
    if !follows(tags, waiting, before.len() + 1, row)? {
        return Ok(false);
    }
    links(retried, before, row)
}

// Whether the row goes on with a history; if so, its tag is noted, and its device where it waits.
fn follows<'a>(
    tags: &mut IndexSet<&'a [u8]>,
    waiting: &mut IndexSet<DeviceId>,
    next: usize,
    row: &'a Row,
) -> Result<bool, NoMemory>
    ensures yes { IfOk result (λ yes. MatchBool yes (Follows (map (λ tag. tag.now) tags.old.keys) waiting.old.keys next row.now) (Follows (map (λ tag. tag.now) tags.old.keys) waiting.old.keys next row.now → ⊥)) }
    ensures tags { IfOk result (λ yes. OnTrue yes (map (λ tag. tag.now) tags.new.keys ≡ map (λ tag. tag.now) tags.old.keys ++ row.now.tag ∷ [])) }
    ensures waiting { IfOk result (λ yes. OnTrue yes (waiting.new.keys ≡ (if is_unsettled row.now.state then waiting.old.keys ++ row.now.device ∷ [] else waiting.old.keys))) }
{
    if row.entry as usize != next {
        return Ok(false);
    }
    if !is_new_tag(tags, row.tag.bytes())? {
        return Ok(false);
    }
    is_new_device(waiting, row.device, is_unsettled(row.state))
}

// Notes a tag, and tells whether it was new.
fn is_new_tag<'a>(tags: &mut IndexSet<&'a [u8]>, tag: &'a [u8]) -> Result<bool, NoMemory>
    ensures fresh { IfOk result (λ fresh. fresh ≡ not (list_any (bytes_eq tag.now) (map (λ tag. tag.now) tags.old.keys))) }
    ensures noted { IfOk result (λ fresh. OnTrue fresh (map (λ tag. tag.now) tags.new.keys ≡ map (λ tag. tag.now) tags.old.keys ++ tag.now ∷ [])) }
{
    let fresh = tags.insert(tag)?;
    Ok(fresh)
}

// Notes the device of a row that waits, and tells whether it was new.
fn is_new_device(
    waiting: &mut IndexSet<DeviceId>,
    device: DeviceId,
    waits: bool,
) -> Result<bool, NoMemory>
    ensures fresh { IfOk result (λ fresh. fresh ≡ not (waits && list_any (bytes_eq device) waiting.old.keys)) }
    ensures noted { IfOk result (λ fresh. OnTrue fresh (waiting.new.keys ≡ (if waits then waiting.old.keys ++ device ∷ [] else waiting.old.keys))) }
{
    if !waits {
        return Ok(true);
    }
    let fresh = waiting.insert(device)?;
    Ok(fresh)
}

// Whether the row tries none again, or one that can be; if so, its entry is noted.
fn links(retried: &mut IndexSet<u32>, before: &[Row], row: &Row) -> Result<bool, NoMemory>
    requires { IsNumbered before.now }
    ensures yes { IfOk result (λ yes. MatchBool yes (Links before.now retried.old.keys row.now) (Links before.now retried.old.keys row.now → ⊥)) }
    ensures noted { IfOk result (λ yes. OnTrue yes (retried.new.keys ≡ retried.old.keys ++ option_to_list row.now.retry_of)) }
{
    if !is_linked(before, row) {
        return Ok(false);
    }
    is_new_retry(retried, row.retry_of)
}

// Whether the row that this one tries again, if it does, is a failed one of its device among those
// before it, whose entries are 1, 2, 3 and so on.
fn is_linked(before: &[Row], row: &Row) -> bool
    requires { IsNumbered before.now }
    ensures { MatchBool result (IsLinked before.now row.now) (IsLinked before.now row.now → ⊥) }
{
    match row.retry_of {
        Some(entry) => has_failure(before, entry, &row.device),
        None => true,
    }
}

fn has_failure(rows: &[Row], entry: u32, device: &DeviceId) -> bool
    requires { IsNumbered rows.now }
    ensures { MatchBool result (Any (IsFailure entry device.now) rows.now) (Any (IsFailure entry device.now) rows.now → ⊥) }
{
    match place_of_entry(rows, entry) {
        Some(at) => is_failure(&rows[at], device),
        None => false,
    }
}

fn is_failure(row: &Row, device: &DeviceId) -> bool
    ensures { result ≡ (bytes_eq row.now.device device.now && is_failed row.now.state) }
{
    row.device == *device && is_failed(row.state)
}

// Notes the entry that is tried again, where one is, and tells whether it was new.
fn is_new_retry(retried: &mut IndexSet<u32>, retry_of: Option<u32>) -> Result<bool, NoMemory>
    ensures fresh { IfOk result (λ fresh. fresh ≡ is_untried retried.old.keys retry_of) }
    ensures noted { IfOk result (λ fresh. OnTrue fresh (retried.new.keys ≡ retried.old.keys ++ option_to_list retry_of)) }
{
    match retry_of {
        Some(entry) => is_new_entry(retried, entry),
        None => Ok(true),
    }
}

fn is_new_entry(retried: &mut IndexSet<u32>, entry: u32) -> Result<bool, NoMemory>
    ensures fresh { IfOk result (λ fresh. fresh ≡ is_untried retried.old.keys (Some entry)) }
    ensures noted { IfOk result (λ fresh. OnTrue fresh (retried.new.keys ≡ retried.old.keys ++ entry ∷ [])) }
{
    let fresh = retried.insert(entry)?;
    Ok(fresh)
}

/// Whether a row of this state has failed.
pub fn is_failed(state: RowState) -> bool
    ensures { result ≡ is_failed state }
{
    match state {
        RowState::Failed => true,
        RowState::Pending | RowState::Success | RowState::NeedsReboot | RowState::Begun => false,
    }
}

fn is_unsettled(state: RowState) -> bool
    ensures { result ≡ is_unsettled state }
{
    match state {
        RowState::Pending | RowState::NeedsReboot | RowState::Begun => true,
        RowState::Success | RowState::Failed => false,
    }
}
