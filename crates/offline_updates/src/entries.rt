//! The entries of rows in certain states.
ghost use Rattle.std.specs.Prelude.{◌≡◌, ◌++◌, ◌∷◌, [], IfOk, OnOk, if◌then◌else◌};
ghost use Rattle.history_keeper.specs.Histories.{IsHistory};
ghost use Rattle.offline_updates.specs.Waiting.{Rising, entries_where, is_pending, is_to_judge};

use fw_base::NoMemory;
use history_keeper::{Row, RowState};
use std::alloc::Global;

/// The entries of the rows whose install was put off to the next boot, in the order of the rows: in a
/// valid history they rise.
pub fn pending(alloc: Global, rows: &[Row]) -> Result<Vec<u32>, NoMemory>
    ensures entries { IfOk result (λ entries. entries.items ≡ entries_where is_pending rows.now) }
    ensures rising { IsHistory rows.now → IfOk result (λ entries. Rising entries.items) }
{
    let mut entries = Vec::new(alloc);
    for row in rows {
        note_if(&mut entries, row.entry, is_pending(row.state))?;
    }
    Ok(entries)
}

/// The entries of the rows that a boot is to judge, those begun and those that need a reboot, in the
/// order of the rows: in a valid history they rise.
pub fn to_judge(alloc: Global, rows: &[Row]) -> Result<Vec<u32>, NoMemory>
    ensures entries { IfOk result (λ entries. entries.items ≡ entries_where is_to_judge rows.now) }
    ensures rising { IsHistory rows.now → IfOk result (λ entries. Rising entries.items) }
{
    let mut entries = Vec::new(alloc);
    for row in rows {
        note_if(&mut entries, row.entry, is_to_judge(row.state))?;
    }
    Ok(entries)
}

fn note_if(entries: &mut Vec<u32>, entry: u32, fits: bool) -> Result<(), NoMemory>
    ensures { OnOk result (entries.new.items ≡ (if fits then entries.old.items ++ entry ∷ [] else entries.old.items)) }
{
    if fits {
        entries.push(entry)?;
    }
    Ok(())
}

fn is_pending(state: RowState) -> bool
    ensures { result ≡ is_pending state }
{
    match state {
        RowState::Pending => true,
        RowState::Success | RowState::Failed | RowState::NeedsReboot | RowState::Begun => false,
    }
}

fn is_to_judge(state: RowState) -> bool
    ensures { result ≡ is_to_judge state }
{
    match state {
        RowState::NeedsReboot | RowState::Begun => true,
        RowState::Pending | RowState::Success | RowState::Failed => false,
    }
}
