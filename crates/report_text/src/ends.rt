//! The first line and the last.
ghost use Rattle.std.specs.Prelude.{◌≡◌, ◌≤◌, OnOk, OnErr, IsErrOf};
ghost use Rattle.outer_traits.specs.Faults.{Rose};
ghost use Rattle.outer_traits.specs.Sinks.{Took, TookFront};
ghost use Rattle.report_text.specs.Report.{first_line, last_line};

use crate::stop::ReportStop;
use client_scripts::parts::put_number;
use outer_traits::{Sink, write_whole};
use std::alloc::Global;

/// Writes the first line.
#[tactic(auto, unfolding(crate::specs::Report::first_line))]
pub fn write_first<T: Sink>(out: &mut T) -> Result<(), ReportStop>
    ensures whole { OnOk result (Took first_line (T.taken out.old) (T.taken out.new)) }
    ensures front { OnErr result (TookFront first_line (T.taken out.old) (T.taken out.new)) }
    ensures cause { IsErrOf result ReportStop.SinkFault → Rose (T.faults out.old) (T.faults out.new) }
    ensures quiet { OnOk result (T.faults out.new ≡ T.faults out.old) }
    ensures quiet_no_memory { IsErrOf result ReportStop.NoMemory → T.faults out.new ≡ T.faults out.old }
    ensures counts { T.faults out.old ≤ T.faults out.new }
{
    write_whole(out, b"fwupdemu report 1\n")?;
    Ok(())
}

#[tactic(auto, unfolding(crate::specs::Report::last_line))]
fn put_last(buffer: &mut Vec<u8>, events: u64) -> Result<(), ReportStop>
    ensures line { OnOk result (buffer.new.items ≡ last_line events) }
    ensures cause { IsErrOf result ReportStop.SinkFault → ⊥ }
{
    buffer.clear();
    buffer.extend_from_slice(b"end ")?;
    put_number(buffer, events)?;
    buffer.extend_from_slice(b"\n")?;
    Ok(())
}

/// Writes the last line.
pub fn write_last<T: Sink>(alloc: Global, events: u64, out: &mut T) -> Result<(), ReportStop>
    ensures whole { OnOk result (Took (last_line events) (T.taken out.old) (T.taken out.new)) }
    ensures front { OnErr result (TookFront (last_line events) (T.taken out.old) (T.taken out.new)) }
    ensures cause { IsErrOf result ReportStop.SinkFault → Rose (T.faults out.old) (T.faults out.new) }
    ensures quiet { OnOk result (T.faults out.new ≡ T.faults out.old) }
    ensures quiet_no_memory { IsErrOf result ReportStop.NoMemory → T.faults out.new ≡ T.faults out.old }
    ensures counts { T.faults out.old ≤ T.faults out.new }
{
    let mut buffer = Vec::new(alloc);
    put_last(&mut buffer, events)?;
    write_whole(out, &buffer)?;
    Ok(())
}
