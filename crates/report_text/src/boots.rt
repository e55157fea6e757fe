//! The lines of a log of boots that couldn't read the history: they rest on the sheets alone.
ghost use Rattle.std.specs.Prelude.{◌≡◌, ◌≤◌, [], None, OnOk, OnErr, IsErrOf};
ghost use Rattle.std.specs.List.{list_all};
ghost use Rattle.outer_traits.specs.Faults.{Rose};
ghost use Rattle.outer_traits.specs.Sinks.{Took, TookFront};
ghost use Rattle.update_log.specs.Pasts.{is_fault_boot, is_found_fault};
ghost use Rattle.report_text.specs.Lines.{lines_of};
ghost use Rattle.report_text.specs.Report.{in_turn, lines_alone};

use crate::lines::put_lines;
use crate::stop::ReportStop;
use fw_facts::Sheet;
use outer_traits::{Sink, write_whole};
use std::alloc::Global;
use update_log::{Event, Found};

/// Whether each event is a boot that couldn't read the history.
pub fn are_fault_boots(log: &[Event]) -> bool
    ensures { result ≡ list_all is_fault_boot log.now }
{
    log.iter().all(|event| is_fault_boot(event))
}

fn is_fault_boot(event: &Event) -> bool
    ensures { result ≡ is_fault_boot event.now }
{
    match event {
        Event::Boot { found, .. } => is_found_fault(*found),
        Event::Query { .. }
        | Event::Ask { .. }
        | Event::Claim { .. }
        | Event::Schedule { .. }
        | Event::Resume { .. }
        | Event::Start { .. }
        | Event::End { .. }
        | Event::Finish { .. }
        | Event::Judge { .. }
        | Event::Unplug { .. }
        | Event::Plug { .. }
        | Event::GiveBack { .. }
        | Event::Cut => false,
    }
}

fn is_found_fault(found: Found) -> bool
    ensures { result ≡ is_found_fault found }
{
    match found {
        Found::Fault => true,
        Found::Plain | Found::Kept | Found::Lost => false,
    }
}

/// Writes the lines of an event that ends no step.
fn write_event<T: Sink>(
    buffer: &mut Vec<u8>,
    sheets: &[Sheet],
    event: &Event,
    out: &mut T,
) -> Result<(), ReportStop>
    ensures whole { OnOk result (Took (lines_of sheets.now None event.now) (T.taken out.old) (T.taken out.new)) }
    ensures front { OnErr result (TookFront (lines_of sheets.now None event.now) (T.taken out.old) (T.taken out.new)) }
    ensures cause { IsErrOf result ReportStop.SinkFault → Rose (T.faults out.old) (T.faults out.new) }
    ensures quiet { OnOk result (T.faults out.new ≡ T.faults out.old) }
    ensures quiet_no_memory { IsErrOf result ReportStop.NoMemory → T.faults out.new ≡ T.faults out.old }
    ensures counts { T.faults out.old ≤ T.faults out.new }
{
    buffer.clear();
    put_lines(buffer, sheets, None, event)?;
    write_whole(out, buffer)?;
    Ok(())
}

/// Writes the lines of events that end no step, one event after the other.
pub fn write_alone<T: Sink>(
    alloc: Global,
    sheets: &[Sheet],
    log: &[Event],
    out: &mut T,
) -> Result<(), ReportStop>
    ensures whole { OnOk result (Took (in_turn (lines_alone sheets.now) [] log.now) (T.taken out.old) (T.taken out.new)) }
    ensures front { OnErr result (TookFront (in_turn (lines_alone sheets.now) [] log.now) (T.taken out.old) (T.taken out.new)) }
    ensures cause { IsErrOf result ReportStop.SinkFault → Rose (T.faults out.old) (T.faults out.new) }
    ensures quiet { OnOk result (T.faults out.new ≡ T.faults out.old) }
    ensures quiet_no_memory { IsErrOf result ReportStop.NoMemory → T.faults out.new ≡ T.faults out.old }
    ensures counts { T.faults out.old ≤ T.faults out.new }
{
    let mut buffer = Vec::new(alloc);
    for event in log {
        write_event(&mut buffer, sheets, event, out)?;
    }
    Ok(())
}
