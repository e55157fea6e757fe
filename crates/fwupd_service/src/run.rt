//! The command `run`: the campaign of a document.
ghost use Rattle.std.specs.Prelude.{◌≡◌, ◌⊎◌, ◌≤◌, length, None, Some};
ghost use Rattle.outer_traits.specs.Faults.{Rose};
ghost use Rattle.history_keeper.specs.Signs.{signs_of};
ghost use Rattle.client_plays.specs.Tools.{ShelvesStay};
ghost use Rattle.client_plays.specs.Has.{shelves_told};
ghost use Rattle.report_text.specs.Report.{report};
ghost use Rattle.fwupd_service.specs.Begins.{CanBePlayed, IsReadyFor};
ghost use Rattle.fwupd_service.specs.Plugged.{plugins_of};
ghost use Rattle.fwupd_service.specs.Tops.{CampaignWent, RunEnds, stop_status};
ghost use Rattle.plugin_trait.specs.Steps.{steps_at};
ghost use Rattle.update_log.specs.Known.{basis_of};

use crate::playing::play;
use crate::ran::RunLeft;
use crate::reporting::reported;
use campaign_inputs::{ClientLimit, OpenStop, open_campaign};
use history_keeper::Keeper;
use outer_traits::{Gate, Shelf, Sink, Source};
use plugin_trait::Plugin;
use run_status::Status;
use site_types::Campaign;
use std::alloc::Global;
use std::sync::Wait;
use std::thread::Threads;

/// Reads the document, plays its campaign, and reports it.
pub(crate) fn run<
    R: Threads + Wait + Sync,
    S: Source,
    P: Shelf + Send,
    K: Keeper + Send,
    T: Sink,
    G: Gate + Sync,
>(
    rt: &R,
    alloc: Global,
    source: &mut S,
    shelves: Vec<P>,
    keeper: K,
    plugins: Vec<Box<dyn Plugin>>,
    gate: &G,
    out: &mut T,
) -> RunLeft<P, K>
    requires few_plugins { length plugins.items ≤ 64 }
    requires no_doubt { K.doubt keeper ≡ None }
    ensures ends { RunEnds (signs_of K.tells K.doubt K.faults)
        (plugins_of (λ p. own_sheet p) (λ p. vetoes_on p) (λ p. own_vetoes p) (λ p. steps p) plugins.items) result.status keeper
        (record { log = result.log; opening = result.opening; boards = result.boards; keeper = result.keeper })
        (record { shelves = shelves_told P.files P.faults shelves.items; unread = S.left source.old; written = T.taken out.old })
        (record { shelves = shelves_told P.files P.faults result.shelves.items; unread = S.left source.new; written = T.taken out.new }) }
    ensures source_fault { result.status ≡ Status.SourceFault → Rose (S.faults source.old) (S.faults source.new) }
    ensures source_quiet { (result.status ≡ Status.SourceFault) ⊎ (S.faults source.new ≡ S.faults source.old) }
    ensures sink_fault { result.status ≡ Status.SinkFault → Rose (T.faults out.old) (T.faults out.new) }
    ensures sink_quiet { (result.status ≡ Status.SinkFault) ⊎ (T.faults out.new ≡ T.faults out.old) }
    ensures source_counts { S.faults source.old ≤ S.faults source.new }
    ensures sink_counts { T.faults out.old ≤ T.faults out.new }
    ensures shelves { ShelvesStay (shelves_told P.files P.faults shelves.items) (shelves_told P.files P.faults result.shelves.items) }
{
    let limit = ClientLimit::Shelves(shelves.len());
    match open_campaign(alloc, source, limit, plugins) {
        Ok(ready) => run_ready(
            rt,
            alloc,
            ready.campaign,
            ready.plugins,
            shelves,
            keeper,
            gate,
            out,
        ),
        Err(stop) => RunLeft::nothing(alloc, stop_status(stop), shelves, keeper),
    }
}

/// How a status tells that there is no campaign.
pub(crate) fn stop_status(stop: OpenStop) -> Status
    ensures { result ≡ stop_status stop }
{
    match stop {
        OpenStop::SourceFault => Status::SourceFault,
        OpenStop::TooLong => Status::TooLong,
        OpenStop::Document { place, reason } => Status::Document { place, reason },
        OpenStop::TooManyClients { asked, shelves } => Status::TooManyClients { asked, shelves },
        OpenStop::Plugins(fault) => Status::Plugins(fault),
        OpenStop::NoMemory => Status::NoMemory,
    }
}

/// Plays a campaign, and reports it.
pub(crate) fn run_ready<
    R: Threads + Wait + Sync,
    P: Shelf + Send,
    K: Keeper + Send,
    T: Sink,
    G: Gate + Sync,
>(
    rt: &R,
    alloc: Global,
    campaign: Campaign,
    plugins: Vec<Box<dyn Plugin>>,
    shelves: Vec<P>,
    keeper: K,
    gate: &G,
    out: &mut T,
) -> RunLeft<P, K>
    requires ready { CanBePlayed campaign }
    requires shelves { IsReadyFor (length shelves.items) (length plugins.items) campaign }
    requires no_doubt { K.doubt keeper ≡ None }
    ensures went { CampaignWent (signs_of K.tells K.doubt K.faults) (steps_at (λ p. steps p) plugins.items) result.status campaign keeper
        (record { log = result.log; opening = result.opening; boards = result.boards; keeper = result.keeper })
        (report (basis_of campaign.facts result.opening) result.log)
        (record { shelves = shelves_told P.files P.faults shelves.items; written = T.taken out.old })
        (record { shelves = shelves_told P.files P.faults result.shelves.items; written = T.taken out.new }) }
    ensures sink_fault { result.status ≡ Status.SinkFault → Rose (T.faults out.old) (T.faults out.new) }
    ensures sink_quiet { (result.status ≡ Status.SinkFault) ⊎ (T.faults out.new ≡ T.faults out.old) }
    ensures sink_counts { T.faults out.old ≤ T.faults out.new }
    ensures shelves { ShelvesStay (shelves_told P.files P.faults shelves.items) (shelves_told P.files P.faults result.shelves.items) }
{
    let (outcome, shelves) = play(rt, alloc, campaign, plugins, shelves, keeper, gate);
    match outcome {
        Ok(played) => reported(alloc, played, shelves, out),
        Err(keeper) => RunLeft::nothing(alloc, Status::NoMemory, shelves, keeper),
    }
}
