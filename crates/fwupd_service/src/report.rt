//! The command `report`.
ghost use Rattle.std.specs.Prelude.{◌≡◌, ◌≤◌, ◌⊎◌, [], None, Some};
ghost use Rattle.outer_traits.specs.Faults.{Rose};
ghost use Rattle.history_keeper.specs.Keepers.{StillTold};
ghost use Rattle.command_words.specs.declared.command.Command.TheVariants as commands;
ghost use Rattle.report_queue.specs.Marking.{OverTold};
ghost use Rattle.fwupd_service.specs.Reported.{report_status, FaultTold, ReportTold};

use crate::loading::place_told;
use crate::ran::Ran;
use fw_base::Listed;
use history_keeper::Keeper;
use outer_traits::{Shelf, Sink};
use report_queue::{MarkKeeper, ReportEnd, report_history};
use run_status::Status;
use std::alloc::Global;

/// How a status tells the end of a report.
fn report_status(end: ReportEnd) -> Status
    ensures { result ≡ report_status end }
{
    match end {
        ReportEnd::Done { .. } => Status::Done,
        ReportEnd::BadHistory { at } => Status::BadHistory {
            entry: place_told(at),
        },
        ReportEnd::HistoryFault | ReportEnd::MarkFault => Status::KeeperFault,
        ReportEnd::SinkFault => Status::SinkFault,
        ReportEnd::NoMemory => Status::NoMemory,
    }
}

/// Writes a line for each of the first judged rows that aren't marked, at most `max`, and marks each before its line is
/// written. Where the history couldn't be read or is no valid one, nothing is written and the marks are as they came.
pub(crate) fn report<P: Shelf, K: Keeper, M: MarkKeeper, T: Sink>(
    alloc: Global,
    max: u32,
    shelves: Vec<P>,
    keeper: K,
    marks: M,
    out: &mut T,
) -> Ran<P, K, M>
    requires no_doubt { K.doubt keeper ≡ None }
    ensures told { OverTold (M.tells marks) (M.tells result.marks) (λ before after. ReportTold K.tells max result.status keeper
        (record { log = result.log; opening = result.opening; boards = result.boards; keeper = result.keeper })
        (record { marks = before; doubt = M.doubt marks; taken = T.taken out.old })
        (record { marks = after; doubt = M.doubt result.marks; taken = T.taken out.new })) }
    ensures log { result.log ≡ [] }
    ensures boards { result.boards ≡ None }
    ensures rows_stay { StillTold (K.tells keeper) (K.tells result.keeper) }
    ensures fault_told { FaultTold (Some (commands.Report max)) result.status (record { history = K.faults keeper; marks = M.faults marks }) (record { history = K.faults result.keeper; marks = M.faults result.marks }) }
    ensures no_source { result.status ≡ Status.SourceFault → ⊥ }
    ensures sink_fault { result.status ≡ Status.SinkFault → Rose (T.faults out.old) (T.faults out.new) }
    ensures sink_quiet { (result.status ≡ Status.SinkFault) ⊎ (T.faults out.new ≡ T.faults out.old) }
    ensures marks_counts { M.faults marks ≤ M.faults result.marks }
    ensures sink_counts { T.faults out.old ≤ T.faults out.new }
    ensures shelves { result.shelves.items ≡ shelves.items }
{
    let mut keeper = keeper;
    let mut marks = marks;
    let reported = report_history(alloc, &mut keeper, &mut marks, max, out);
    Ran {
        status: report_status(reported.end),
        log: Listed::of(Vec::new(alloc)),
        opening: reported.opening,
        boards: None,
        keeper,
        marks,
        shelves,
    }
}
