//! The command `remotes`.
ghost use Rattle.std.specs.Prelude.{◌≡◌, ◌⊎◌, ◌≤◌};
ghost use Rattle.command_outputs.specs.Printed.{remotes_output};
ghost use Rattle.outer_traits.specs.Faults.{Rose};
ghost use Rattle.release_catalogue.specs.Components.{releases_in};
ghost use Rattle.document_commands.specs.Ends.{PrintedOr, RemotesEnds, remotes_told};

use crate::checked::told_input;
use crate::ended::Ended;
use campaign_inputs::read_input;
use command_outputs::{OutputStop, write_remotes};
use outer_traits::{Sink, Source};
use release_catalogue::Catalogue;
use remote_set::count_releases;
use site_types::Site;
use std::alloc::Global;

/// Reads the document, and prints what its remotes have and how much of it is merged.
pub fn remotes<S: Source, T: Sink>(alloc: Global, source: &mut S, out: &mut T) -> Ended
    ensures ends { RemotesEnds result (S.left source.old) (S.left source.new) (T.taken out.old) (T.taken out.new) }
    ensures source_fault { result ≡ Ended.SourceFault → Rose (S.faults source.old) (S.faults source.new) }
    ensures source_quiet { (result ≡ Ended.SourceFault) ⊎ (S.faults source.new ≡ S.faults source.old) }
    ensures sink_fault { result ≡ Ended.SinkFault → Rose (T.faults out.old) (T.faults out.new) }
    ensures sink_quiet { (result ≡ Ended.SinkFault) ⊎ (T.faults out.new ≡ T.faults out.old) }
    ensures source_counts { S.faults source.old ≤ S.faults source.new }
    ensures sink_counts { T.faults out.old ≤ T.faults out.new }
{
    match read_input(alloc, source) {
        Ok(site) => print(alloc, &site, out),
        Err(stop) => told_input(stop),
    }
}

/// Prints the lines of a site.
fn print<T: Sink>(alloc: Global, site: &Site, out: &mut T) -> Ended
    ensures printed { PrintedOr (remotes_told site.now) result (T.taken out.old) (T.taken out.new) }
    ensures sink_fault { result ≡ Ended.SinkFault → Rose (T.faults out.old) (T.faults out.new) }
    ensures sink_quiet { (result ≡ Ended.SinkFault) ⊎ (T.faults out.new ≡ T.faults out.old) }
    ensures sink_counts { T.faults out.old ≤ T.faults out.new }
{
    let releases = releases_of(&site.catalogue);
    match write_remotes(alloc, site.remotes.items(), releases, out) {
        Ok(()) => Ended::Done,
        Err(OutputStop::SinkFault) => Ended::SinkFault,
        Err(OutputStop::NoMemory) => Ended::NoMemory,
    }
}

fn releases_of(catalogue: &Catalogue) -> usize
    ensures { result ≡ releases_in catalogue.now }
{
    catalogue.within_limits();
    count_releases(catalogue.components()) as usize
}
