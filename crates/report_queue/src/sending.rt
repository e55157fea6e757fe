//! The sending of reports.
ghost use Rattle.std.specs.Prelude.{◌≡◌, ◌≤◌, ◌<◌, ◌⊎◌, ℕ, List, None, All, AllPairs, Contains, map, IsErrOf, OnOk};
ghost use Rattle.outer_traits.specs.Faults.{Rose};
ghost use Rattle.history_keeper.specs.Histories.{IsHistory};
ghost use Rattle.report_queue.specs.Answers.{Sends};
ghost use Rattle.report_queue.specs.Marking.{OverTold};
ghost use Rattle.report_queue.specs.Stops.{SendsEach, SendsRow};

use crate::due::due_rows;
use crate::line::line_of;
use crate::mark_keeper::MarkKeeper;
use crate::stop::SendStop;
use history_keeper::Row;
use outer_traits::{Sink, write_whole};
use std::alloc::Global;

/// Writes the line of each row that is judged and not marked, in the order of the rows, at most `max` of them, and says
/// how many. It reopens the keeper of marks and loads the marks. Then each row is marked before its line is written, so
/// that none is sent twice, wherever the call stops.
///
/// It is `SinkFault` or `KeeperFault` where the output or the keeper of marks failed in this call, and only there. What
/// was marked until then was written, but perhaps for a part of the last line behind a fault of the output.
pub fn send_reports<M: MarkKeeper, T: Sink>(
    alloc: Global,
    rows: &[Row],
    marks: &mut M,
    max: u32,
    out: &mut T,
) -> Result<u32, SendStop>
    requires { IsHistory rows.now }
    ensures sends { OverTold (M.tells marks.old) (M.tells marks.new) (λ before after. Sends rows.now max result (record { marks = before; doubt = M.doubt marks.old; taken = T.taken out.old }) (record { marks = after; doubt = M.doubt marks.new; taken = T.taken out.new })) }
    ensures keeper_fault { IsErrOf result SendStop.KeeperFault → Rose (M.faults marks.old) (M.faults marks.new) }
    ensures marks_quiet { IsErrOf result SendStop.KeeperFault ⊎ (M.faults marks.new ≡ M.faults marks.old) }
    ensures sink_fault { IsErrOf result SendStop.SinkFault → Rose (T.faults out.old) (T.faults out.new) }
    ensures quiet { OnOk result (T.faults out.new ≡ T.faults out.old) }
    ensures quiet_keeper { IsErrOf result SendStop.KeeperFault → T.faults out.new ≡ T.faults out.old }
    ensures quiet_no_memory { IsErrOf result SendStop.NoMemory → T.faults out.new ≡ T.faults out.old }
    ensures counts_marks { M.faults marks.old ≤ M.faults marks.new }
    ensures counts_out { T.faults out.old ≤ T.faults out.new }
{
    marks.reopen()?;
    let loaded = marks.load(alloc)?;
    let due = due_rows(alloc, rows, &loaded, max)?;
    send_each(alloc, &due, marks, out)?;
    Ok(due.len() as u32)
}

// Sends each of the rows, none of which is marked.
fn send_each<M: MarkKeeper, T: Sink>(
    alloc: Global,
    rows: &[&Row],
    marks: &mut M,
    out: &mut T,
) -> Result<(), SendStop>
    requires no_doubt { M.doubt marks.old ≡ None }
    requires unmarked { (all : List ℕ) → M.tells marks.old all → All (λ row. Contains all row.now.entry → ⊥) rows.now }
    requires rising { AllPairs (λ one other. one.now.entry < other.now.entry) rows.now }
    ensures sends { OverTold (M.tells marks.old) (M.tells marks.new) (λ before after. SendsEach (map (λ row. row.now) rows.now) result (record { marks = before; doubt = M.doubt marks.old; taken = T.taken out.old }) (record { marks = after; doubt = M.doubt marks.new; taken = T.taken out.new })) }
    ensures keeper_fault { IsErrOf result SendStop.KeeperFault → Rose (M.faults marks.old) (M.faults marks.new) }
    ensures marks_quiet { IsErrOf result SendStop.KeeperFault ⊎ (M.faults marks.new ≡ M.faults marks.old) }
    ensures sink_fault { IsErrOf result SendStop.SinkFault → Rose (T.faults out.old) (T.faults out.new) }
    ensures quiet { OnOk result (T.faults out.new ≡ T.faults out.old) }
    ensures quiet_keeper { IsErrOf result SendStop.KeeperFault → T.faults out.new ≡ T.faults out.old }
    ensures quiet_no_memory { IsErrOf result SendStop.NoMemory → T.faults out.new ≡ T.faults out.old }
    ensures counts_marks { M.faults marks.old ≤ M.faults marks.new }
    ensures counts_out { T.faults out.old ≤ T.faults out.new }
{
    for row in rows {
        send_row(alloc, row, marks, out)?;
    }
    Ok(())
}

// Makes the line of the row, marks it and writes the line, in this order.
fn send_row<M: MarkKeeper, T: Sink>(
    alloc: Global,
    row: &Row,
    marks: &mut M,
    out: &mut T,
) -> Result<(), SendStop>
    requires no_doubt { M.doubt marks.old ≡ None }
    requires unmarked { (all : List ℕ) → M.tells marks.old all → Contains all row.now.entry → ⊥ }
    ensures sends { OverTold (M.tells marks.old) (M.tells marks.new) (λ before after. SendsRow row.now result (record { marks = before; doubt = M.doubt marks.old; taken = T.taken out.old }) (record { marks = after; doubt = M.doubt marks.new; taken = T.taken out.new })) }
    ensures keeper_fault { IsErrOf result SendStop.KeeperFault → Rose (M.faults marks.old) (M.faults marks.new) }
    ensures marks_quiet { IsErrOf result SendStop.KeeperFault ⊎ (M.faults marks.new ≡ M.faults marks.old) }
    ensures sink_fault { IsErrOf result SendStop.SinkFault → Rose (T.faults out.old) (T.faults out.new) }
    ensures quiet { OnOk result (T.faults out.new ≡ T.faults out.old) }
    ensures quiet_keeper { IsErrOf result SendStop.KeeperFault → T.faults out.new ≡ T.faults out.old }
    ensures quiet_no_memory { IsErrOf result SendStop.NoMemory → T.faults out.new ≡ T.faults out.old }
    ensures counts_marks { M.faults marks.old ≤ M.faults marks.new }
    ensures counts_out { T.faults out.old ≤ T.faults out.new }
{
    let line = line_of(alloc, row)?;
    marks.mark(row.entry)?;
    write_whole(out, &line)?;
    Ok(())
}
