//! The commands that play no campaign.
ghost use Rattle.std.specs.Prelude.{◌≡◌, ◌⊎◌, ◌≤◌, length, map};
ghost use Rattle.site_making.specs.Settled.{vetoes_of};
ghost use Rattle.outer_traits.specs.Faults.{Rose};
ghost use Rattle.client_plays.specs.Has.{shelves_told};
ghost use Rattle.fwupd_service.specs.Commands.{Checked, Explained, NothingHappened, RemotesTold, Written, ended_status};
ghost use Rattle.command_outputs.specs.Printed.{ids_output};

use crate::ran::RunLeft;
use command_outputs::{OutputStop, write_ids};
use command_words::Text;
use document_commands::{Ended, check, explain, remotes};
use fw_base::Name;
use history_keeper::Keeper;
use outer_traits::{Shelf, Sink, Source};
use plugin_trait::Plugin;
use run_status::Status;
use std::alloc::Global;
use version_formats::Version;

/// How a status tells the end of a command over a document.
fn ended_status(ended: Ended) -> Status
    ensures { result ≡ ended_status ended }
{
    match ended {
        Ended::Done => Status::Done,
        Ended::SourceFault => Status::SourceFault,
        Ended::TooLong => Status::TooLong,
        Ended::Document { place, reason } => Status::Document { place, reason },
        Ended::Plugins(fault) => Status::Plugins(fault),
        Ended::SinkFault => Status::SinkFault,
        Ended::NoMemory => Status::NoMemory,
    }
}

/// The command `check`.
pub(crate) fn run_check<S: Source, P: Shelf, K: Keeper, T: Sink>(
    alloc: Global,
    source: &mut S,
    shelves: Vec<P>,
    keeper: K,
    out: &mut T,
) -> RunLeft<P, K>
    ensures ends { Checked result.status keeper
        (record { log = result.log; opening = result.opening; boards = result.boards; keeper = result.keeper })
        (record { shelves = shelves_told P.files P.faults shelves.items; unread = S.left source.old; written = T.taken out.old })
        (record { shelves = shelves_told P.files P.faults result.shelves.items; unread = S.left source.new; written = T.taken out.new }) }
    ensures source_fault { result.status ≡ Status.SourceFault → Rose (S.faults source.old) (S.faults source.new) }
    ensures source_quiet { (result.status ≡ Status.SourceFault) ⊎ (S.faults source.new ≡ S.faults source.old) }
    ensures sink_fault { result.status ≡ Status.SinkFault → Rose (T.faults out.old) (T.faults out.new) }
    ensures sink_quiet { (result.status ≡ Status.SinkFault) ⊎ (T.faults out.new ≡ T.faults out.old) }
    ensures source_counts { S.faults source.old ≤ S.faults source.new }
    ensures sink_counts { T.faults out.old ≤ T.faults out.new }
    ensures shelves { result.shelves.items ≡ shelves.items }
{
    let ended = check(alloc, source, out);
    RunLeft::nothing(alloc, ended_status(ended), shelves, keeper)
}

/// The command `remotes`.
pub(crate) fn run_remotes<S: Source, P: Shelf, K: Keeper, T: Sink>(
    alloc: Global,
    source: &mut S,
    shelves: Vec<P>,
    keeper: K,
    out: &mut T,
) -> RunLeft<P, K>
    ensures ends { RemotesTold result.status keeper
        (record { log = result.log; opening = result.opening; boards = result.boards; keeper = result.keeper })
        (record { shelves = shelves_told P.files P.faults shelves.items; unread = S.left source.old; written = T.taken out.old })
        (record { shelves = shelves_told P.files P.faults result.shelves.items; unread = S.left source.new; written = T.taken out.new }) }
    ensures source_fault { result.status ≡ Status.SourceFault → Rose (S.faults source.old) (S.faults source.new) }
    ensures source_quiet { (result.status ≡ Status.SourceFault) ⊎ (S.faults source.new ≡ S.faults source.old) }
    ensures sink_fault { result.status ≡ Status.SinkFault → Rose (T.faults out.old) (T.faults out.new) }
    ensures sink_quiet { (result.status ≡ Status.SinkFault) ⊎ (T.faults out.new ≡ T.faults out.old) }
    ensures source_counts { S.faults source.old ≤ S.faults source.new }
    ensures sink_counts { T.faults out.old ≤ T.faults out.new }
    ensures shelves { result.shelves.items ≡ shelves.items }
{
    let ended = remotes(alloc, source, out);
    RunLeft::nothing(alloc, ended_status(ended), shelves, keeper)
}

/// The command `explain`.
pub(crate) fn run_explain<S: Source, P: Shelf, K: Keeper, T: Sink>(
    alloc: Global,
    source: &mut S,
    port: Name,
    version: Version,
    shelves: Vec<P>,
    keeper: K,
    plugins: Vec<Box<dyn Plugin>>,
    out: &mut T,
) -> RunLeft<P, K>
    requires few_plugins { length plugins.items ≤ 64 }
    ensures ends { Explained (map (λ p. own_sheet p) plugins.items)
        (λ machine. map (λ p. vetoes_of (own_sheet p) (vetoes_on p machine)) plugins.items)
        port version result.status keeper
        (record { log = result.log; opening = result.opening; boards = result.boards; keeper = result.keeper })
        (record { shelves = shelves_told P.files P.faults shelves.items; unread = S.left source.old; written = T.taken out.old })
        (record { shelves = shelves_told P.files P.faults result.shelves.items; unread = S.left source.new; written = T.taken out.new }) }
    ensures source_fault { result.status ≡ Status.SourceFault → Rose (S.faults source.old) (S.faults source.new) }
    ensures source_quiet { (result.status ≡ Status.SourceFault) ⊎ (S.faults source.new ≡ S.faults source.old) }
    ensures sink_fault { result.status ≡ Status.SinkFault → Rose (T.faults out.old) (T.faults out.new) }
    ensures sink_quiet { (result.status ≡ Status.SinkFault) ⊎ (T.faults out.new ≡ T.faults out.old) }
    ensures source_counts { S.faults source.old ≤ S.faults source.new }
    ensures sink_counts { T.faults out.old ≤ T.faults out.new }
    ensures shelves { result.shelves.items ≡ shelves.items }
{
    let ended = explain(alloc, source, port, version, plugins, out);
    RunLeft::nothing(alloc, ended_status(ended), shelves, keeper)
}

/// The command `ids`.
pub(crate) fn run_ids<P: Shelf, K: Keeper, T: Sink>(
    alloc: Global,
    texts: &[Text],
    shelves: Vec<P>,
    keeper: K,
    out: &mut T,
) -> RunLeft<P, K>
    ensures written { Written (ids_output texts.now) result.status (T.taken out.old) (T.taken out.new) }
    ensures nothing { NothingHappened keeper (record { log = result.log; opening = result.opening; boards = result.boards; keeper = result.keeper }) }
    ensures sink_fault { result.status ≡ Status.SinkFault → Rose (T.faults out.old) (T.faults out.new) }
    ensures sink_quiet { (result.status ≡ Status.SinkFault) ⊎ (T.faults out.new ≡ T.faults out.old) }
    ensures sink_counts { T.faults out.old ≤ T.faults out.new }
    ensures shelves { result.shelves.items ≡ shelves.items }
{
    let status = match write_ids(alloc, texts, out) {
        Ok(()) => Status::Done,
        Err(OutputStop::SinkFault) => Status::SinkFault,
        Err(OutputStop::NoMemory) => Status::NoMemory,
    };
    RunLeft::nothing(alloc, status, shelves, keeper)
}
