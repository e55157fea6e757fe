//! The command `check`.
ghost use Rattle.std.specs.Prelude.{◌≡◌, ◌⊎◌, ◌≤◌};
ghost use Rattle.command_outputs.specs.Printed.{check_output};
ghost use Rattle.outer_traits.specs.Faults.{Rose};
ghost use Rattle.document_commands.specs.Ends.{CheckEnds, PrintedOr, own_components, sections_of};
ghost use Rattle.document_commands.specs.Stops.{told_input};

use crate::ended::Ended;
use campaign_inputs::{InputStop, read_input};
use command_outputs::{OutputStop, Sections, write_check};
use outer_traits::{Sink, Source};
use site_remotes::SiteRemote;
use site_types::Site;
use std::alloc::Global;

/// Reads the document, and prints how many entries its sections have.
pub fn check<S: Source, T: Sink>(alloc: Global, source: &mut S, out: &mut T) -> Ended
    ensures ends { CheckEnds result (S.left source.old) (S.left source.new) (T.taken out.old) (T.taken out.new) }
    ensures source_fault { result ≡ Ended.SourceFault → Rose (S.faults source.old) (S.faults source.new) }
    ensures source_quiet { (result ≡ Ended.SourceFault) ⊎ (S.faults source.new ≡ S.faults source.old) }
    ensures sink_fault { result ≡ Ended.SinkFault → Rose (T.faults out.old) (T.faults out.new) }
    ensures sink_quiet { (result ≡ Ended.SinkFault) ⊎ (T.faults out.new ≡ T.faults out.old) }
    ensures source_counts { S.faults source.old ≤ S.faults source.new }
    ensures sink_counts { T.faults out.old ≤ T.faults out.new }
{
    match read_input(alloc, source) {
        Ok(site) => print(alloc, sections(&site), out),
        Err(stop) => told_input(stop),
    }
}

/// Why there is no site, as an end.
pub(crate) fn told_input(stop: InputStop) -> Ended
    ensures { result ≡ told_input stop }
{
    match stop {
        InputStop::SourceFault => Ended::SourceFault,
        InputStop::TooLong => Ended::TooLong,
        InputStop::Document { place, reason } => Ended::Document { place, reason },
        InputStop::NoMemory => Ended::NoMemory,
    }
}

/// How many entries the sections of a site have.
fn sections(site: &Site) -> Sections
    ensures { result ≡ sections_of site.now }
{
    Sections {
        boards: site.boards.items().len(),
        components: own_components(site.remotes.items()),
        clients: site.features.items().len(),
        boots: site.boots.items().len(),
    }
}

/// How many components the first remote has, which is the section `components`.
fn own_components(remotes: &[SiteRemote]) -> usize
    ensures { result ≡ own_components remotes.now }
{
    match remotes {
        [] => 0,
        [own, ..] => own.components as usize,
    }
}

/// Prints the line.
fn print<T: Sink>(alloc: Global, sections: Sections, out: &mut T) -> Ended
    ensures printed { PrintedOr (check_output sections) result (T.taken out.old) (T.taken out.new) }
    ensures sink_fault { result ≡ Ended.SinkFault → Rose (T.faults out.old) (T.faults out.new) }
    ensures sink_quiet { (result ≡ Ended.SinkFault) ⊎ (T.faults out.new ≡ T.faults out.old) }
    ensures sink_counts { T.faults out.old ≤ T.faults out.new }
{
    match write_check(alloc, sections, out) {
        Ok(()) => Ended::Done,
        Err(OutputStop::SinkFault) => Ended::SinkFault,
        Err(OutputStop::NoMemory) => Ended::NoMemory,
    }
}
