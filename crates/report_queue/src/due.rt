//! Which rows are to be reported.
ghost use Rattle.std.specs.Prelude.{◌≡◌, ◌&&◌, ◌++◌, ◌∷◌, [], ℕ, filter, if◌then◌else◌, map, nat_eq, not, take, IfOk, OnOk};
ghost use Rattle.indexmap.specs.IndexSet.{contains};
ghost use Rattle.report_queue.specs.Sending.{due, is_judged, is_marked};

use fw_base::NoMemory;
use history_keeper::{Row, RowState};
use indexmap::IndexSet;
use std::alloc::Global;

/// The first rows, at most `max`, that are judged and not marked, in the order of the rows. Each row and each mark is
/// looked at once at most.
pub fn due_rows<'a>(
    alloc: Global,
    rows: &'a [Row],
    marks: &[u32],
    max: u32,
) -> Result<Vec<&'a Row>, NoMemory>
    ensures { IfOk result (λ found. map (λ row. row.now) found.items ≡ take max (due marks.now rows.now)) }
{
    let marked = marked_set(alloc, marks)?;
    unmarked_rows(alloc, rows, &marked, max)
}

// The same, by a look-up of the marks.
fn unmarked_rows<'a>(
    alloc: Global,
    rows: &'a [Row],
    marked: &IndexSet<u32>,
    max: u32,
) -> Result<Vec<&'a Row>, NoMemory>
    ensures { IfOk result (λ found. map (λ row. row.now) found.items ≡ take max (filter (λ row. is_judged row.state && not (contains nat_eq marked.now row.entry)) rows.now)) }
{
    let mut found = Vec::new(alloc);
    for row in rows {
        if found.len() == max as usize {
            return Ok(found);
        }
        push_if(&mut found, row, is_due(marked, row))?;
    }
    Ok(found)
}

fn push_if<'a>(found: &mut Vec<&'a Row>, row: &'a Row, fits: bool) -> Result<(), NoMemory>
    ensures { OnOk result (map (λ row. row.now) found.new.items ≡ (if fits then map (λ row. row.now) found.old.items ++ row.now ∷ [] else map (λ row. row.now) found.old.items)) }
{
    if fits {
        found.push(row)?;
    }
    Ok(())
}

// The marked entries, to be looked up.
fn marked_set(alloc: Global, marks: &[u32]) -> Result<IndexSet<u32>, NoMemory>
    ensures { IfOk result (λ set. (entry : ℕ) → contains nat_eq set entry ≡ is_marked marks.now entry) }
{
    let mut set = IndexSet::new(alloc);
    for mark in marks {
        set.insert(*mark)?;
    }
    Ok(set)
}

fn is_due(marked: &IndexSet<u32>, row: &Row) -> bool
    ensures { result ≡ (is_judged row.now.state && not (contains nat_eq marked.now row.now.entry)) }
{
    is_judged(row.state) && !marked.contains(&row.entry)
}

fn is_judged(state: RowState) -> bool
    ensures { result ≡ is_judged state }
{
    match state {
        RowState::Success | RowState::Failed => true,
        RowState::Pending | RowState::NeedsReboot | RowState::Begun => false,
    }
}
