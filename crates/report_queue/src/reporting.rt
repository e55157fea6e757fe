//! The report of the whole history.
ghost use Rattle.std.specs.Prelude.{◌≡◌, ◌≤◌, ◌⊎◌, [], None};
ghost use Rattle.outer_traits.specs.Faults.{Rose};
ghost use Rattle.history_keeper.specs.Keepers.{StillTold};
ghost use Rattle.report_queue.specs.Marking.{OverTold};
ghost use Rattle.report_queue.specs.Reports.{end_of, IsBeforeMarks, IsRead, Reports};

use crate::mark_keeper::MarkKeeper;
use crate::sending::send_reports;
use crate::stop::SendStop;
use fw_base::Listed;
use history_keeper::{Keeper, KeeperRefusal, Row, first_faulty};
use outer_traits::Sink;
use std::alloc::Global;

/// How a report of the history ended.
#[derive(Clone, Copy, Debug, PartialEq, Eq)]
pub enum ReportEnd {
    /// All that was to be sent was sent: so many lines.
    Done { count: u32 },
    /// The row at this place, from 0, makes the history no valid one. Nothing was marked or written.
    BadHistory { at: usize },
    /// The keeper of the history failed, and its count of faults rose. Nothing was marked or written.
    HistoryFault,
    /// The keeper of marks failed, and its count of faults rose.
    MarkFault,
    /// The output failed, and its count of faults rose.
    SinkFault,
    /// Want of memory.
    NoMemory,
}

/// What a report of the history leaves: how it ended, and the rows that were read.
#[derive(Drop)]
pub struct Reported {
    pub end: ReportEnd,
    pub opening: Listed<Row>,
}

/// Loads the history, which has to be a valid one, and writes the lines of its rows, as `send_reports` does. What the
/// keeper tells it told before. Where the load is refused, no rows were read. Each fault that a keeper or the output
/// counts is told as one.
#[tactic(auto, using(crate::proofs::Loaded::rows_read))]
pub fn report_history<K: Keeper, M: MarkKeeper, T: Sink>(
    alloc: Global,
    keeper: &mut K,
    marks: &mut M,
    max: u32,
    out: &mut T,
) -> Reported
    requires { K.doubt keeper.old ≡ None }
    ensures reports { OverTold (M.tells marks.old) (M.tells marks.new) (λ before after. Reports result.opening max result.end (record { marks = before; doubt = M.doubt marks.old; taken = T.taken out.old }) (record { marks = after; doubt = M.doubt marks.new; taken = T.taken out.new })) }
    ensures read { IsRead result.end (K.tells keeper.old) (K.tells keeper.new) result.opening }
    ensures rows_stay { StillTold (K.tells keeper.old) (K.tells keeper.new) }
    ensures no_doubt { K.doubt keeper.new ≡ None }
    ensures marks_stay { IsBeforeMarks result.end → marks.new ≡ marks.old }
    ensures out_stays { IsBeforeMarks result.end → out.new ≡ out.old }
    ensures history_fault { result.end ≡ ReportEnd.HistoryFault → Rose (K.faults keeper.old) (K.faults keeper.new) }
    ensures history_quiet { (result.end ≡ ReportEnd.HistoryFault) ⊎ (K.faults keeper.new ≡ K.faults keeper.old) }
    ensures mark_fault { result.end ≡ ReportEnd.MarkFault → Rose (M.faults marks.old) (M.faults marks.new) }
    ensures mark_quiet { (result.end ≡ ReportEnd.MarkFault) ⊎ (M.faults marks.new ≡ M.faults marks.old) }
    ensures sink_fault { result.end ≡ ReportEnd.SinkFault → Rose (T.faults out.old) (T.faults out.new) }
    ensures sink_quiet { (result.end ≡ ReportEnd.SinkFault) ⊎ (T.faults out.new ≡ T.faults out.old) }
    ensures counts_rows { K.faults keeper.old ≤ K.faults keeper.new }
    ensures counts_marks { M.faults marks.old ≤ M.faults marks.new }
    ensures counts_out { T.faults out.old ≤ T.faults out.new }
{
    let rows = match keeper.load(alloc) {
        Ok(rows) => rows,
        Err(KeeperRefusal::Fault) => return Reported::nothing(alloc, ReportEnd::HistoryFault),
        Err(KeeperRefusal::NoMemory) => return Reported::nothing(alloc, ReportEnd::NoMemory),
    };
    let end = report_rows(alloc, &rows, marks, max, out);
    Reported {
        end,
        opening: Listed::of(rows),
    }
}

impl Reported {
    // No rows were read.
    fn nothing(alloc: Global, end: ReportEnd) -> Reported
        ensures end { result.end ≡ end }
        ensures opening { result.opening ≡ [] }
    {
        Reported {
            end,
            opening: Listed::of(Vec::new(alloc)),
        }
    }
}

// The report of these rows.
fn report_rows<M: MarkKeeper, T: Sink>(
    alloc: Global,
    rows: &[Row],
    marks: &mut M,
    max: u32,
    out: &mut T,
) -> ReportEnd
    ensures reports { OverTold (M.tells marks.old) (M.tells marks.new) (λ before after. Reports rows.now max result (record { marks = before; doubt = M.doubt marks.old; taken = T.taken out.old }) (record { marks = after; doubt = M.doubt marks.new; taken = T.taken out.new })) }
    ensures no_history_fault { result ≡ ReportEnd.HistoryFault → ⊥ }
    ensures marks_stay { IsBeforeMarks result → marks.new ≡ marks.old }
    ensures out_stays { IsBeforeMarks result → out.new ≡ out.old }
    ensures mark_fault { result ≡ ReportEnd.MarkFault → Rose (M.faults marks.old) (M.faults marks.new) }
    ensures mark_quiet { (result ≡ ReportEnd.MarkFault) ⊎ (M.faults marks.new ≡ M.faults marks.old) }
    ensures sink_fault { result ≡ ReportEnd.SinkFault → Rose (T.faults out.old) (T.faults out.new) }
    ensures sink_quiet { (result ≡ ReportEnd.SinkFault) ⊎ (T.faults out.new ≡ T.faults out.old) }
    ensures counts_marks { M.faults marks.old ≤ M.faults marks.new }
    ensures counts_out { T.faults out.old ≤ T.faults out.new }
{
    match first_faulty(alloc, rows) {
        Ok(None) => end_of(send_reports(alloc, rows, marks, max, out)),
        Ok(Some(at)) => ReportEnd::BadHistory { at },
        Err(_) => ReportEnd::NoMemory,
    }
}

fn end_of(answer: Result<u32, SendStop>) -> ReportEnd
    ensures { result ≡ end_of answer }
{
    match answer {
        Ok(count) => ReportEnd::Done { count },
        Err(SendStop::SinkFault) => ReportEnd::SinkFault,
        Err(SendStop::KeeperFault) => ReportEnd::MarkFault,
        Err(SendStop::NoMemory) => ReportEnd::NoMemory,
    }
}
