//! A report is read, and its page written.
ghost use Rattle.std.specs.Prelude.{◌≡◌, IfOk, OnOk, OnErr, IsErrOf};
ghost use Rattle.outer_traits.specs.Faults.{Rose};
ghost use Rattle.outer_traits.specs.Sinks.{Took, TookFront};
ghost use Rattle.report_view.specs.Pages.{drawn_of, page};
ghost use Rattle.report_view.specs.Views.{Shown, ShownFront};

use crate::drawn::{Drawn, ViewStop};
use crate::page::put_page;
use outer_traits::{Sink, Source, read_whole, write_whole};
use std::alloc::Global;

/// The most bytes of a report: a gibibyte.
const LIMIT: usize = 1_073_741_824;

/// Reads a report, or the front of one, and writes its page: the mark of each event once, in the order of the
/// report, with its number.
///
/// What could not be written of the page is its end. `SinkFault` and `SourceFault` come only where the sink or the
/// source failed.
pub fn write_page<S: Source, T: Sink>(
    alloc: Global,
    source: &mut S,
    sink: &mut T,
) -> Result<Drawn, ViewStop>
    ensures shown { IfOk result (λ drawn. Shown drawn (S.left source.old) (S.left source.new) (T.taken sink.old) (T.taken sink.new)) }
    ensures front { OnErr result (ShownFront (S.left source.old) (S.left source.new) (T.taken sink.old) (T.taken sink.new)) }
    ensures source_fault { IsErrOf result ViewStop.SourceFault → Rose (S.faults source.old) (S.faults source.new) }
    ensures sink_fault { IsErrOf result ViewStop.SinkFault → Rose (T.faults sink.old) (T.faults sink.new) }
{
    let text = read_whole(alloc, source, LIMIT)?;
    write_text(alloc, &text, sink)
}

/// Writes the page of a text.
fn write_text<T: Sink>(alloc: Global, text: &[u8], sink: &mut T) -> Result<Drawn, ViewStop>
    ensures whole { OnOk result (Took (page text.now) (T.taken sink.old) (T.taken sink.new)) }
    ensures drawn { IfOk result (λ drawn. drawn ≡ drawn_of text.now) }
    ensures front { OnErr result (TookFront (page text.now) (T.taken sink.old) (T.taken sink.new)) }
    ensures source_fault { IsErrOf result ViewStop.SourceFault → ⊥ }
    ensures sink_fault { IsErrOf result ViewStop.SinkFault → Rose (T.faults sink.old) (T.faults sink.new) }
{
    let mut page = Vec::new(alloc);
    let drawn = put_page(alloc, &mut page, text)?;
    write_whole(sink, &page)?;
    Ok(drawn)
}
