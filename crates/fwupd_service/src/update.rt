//! The command `update`: the planned installs, made in the document's first boot.
ghost use Rattle.std.specs.Prelude.{◌≡◌, ◌⊎◌, ◌≤◌, length, None};
ghost use Rattle.outer_traits.specs.Faults.{Rose};
ghost use Rattle.history_keeper.specs.Signs.{signs_of};
ghost use Rattle.client_plays.specs.Tools.{ShelvesStay};
ghost use Rattle.client_plays.specs.Has.{shelves_told};
ghost use Rattle.campaign_inputs.specs.Begin.{CanBegin};
ghost use Rattle.update_plans.specs.Tags.{IsTag};
ghost use Rattle.fwupd_service.specs.Begins.{CanBePlayed, IsReadyFor};
ghost use Rattle.fwupd_service.specs.Plugged.{plugins_of};
ghost use Rattle.fwupd_service.specs.Updates.{UpdateEnds, UpdateGoes};
ghost use Rattle.plugin_trait.specs.Steps.{steps_at};

use crate::loading::{Loaded, load, load_status};
use crate::ran::RunLeft;
use crate::run::{run_ready, stop_status};
use campaign_inputs::{ClientLimit, open_campaign};
use campaign_plans::updated;
use fw_base::{Name, NoMemory};
use history_keeper::Keeper;
use outer_traits::{Gate, Shelf, Sink, Source};
use plugin_trait::Plugin;
use run_status::Status;
use site_types::Campaign;
use std::alloc::Global;
use std::sync::Wait;
use std::thread::Threads;

/// Reads the document, loads the history, plans the installs of the document's first boot, plays that boot
/// with them as the one script, and reports it.
pub(crate) fn update<
    R: Threads + Wait + Sync,
    S: Source,
    P: Shelf + Send,
    K: Keeper + Send,
    T: Sink,
    G: Gate + Sync,
>(
    rt: &R,
    alloc: Global,
    source: &mut S,
    tag: Name,
    shelves: Vec<P>,
    keeper: K,
    plugins: Vec<Box<dyn Plugin>>,
    gate: &G,
    out: &mut T,
) -> RunLeft<P, K>
    requires few_plugins { length plugins.items ≤ 64 }
    requires no_doubt { K.doubt keeper ≡ None }
    requires tag { IsTag tag }
    ensures ends { UpdateEnds (signs_of K.tells K.doubt K.faults)
        (plugins_of (λ p. own_sheet p) (λ p. vetoes_on p) (λ p. own_vetoes p) (λ p. steps p) plugins.items) tag result.status keeper
        (record { log = result.log; opening = result.opening; boards = result.boards; keeper = result.keeper })
        (record { shelves = shelves_told P.files P.faults shelves.items; unread = S.left source.old; written = T.taken out.old })
        (record { shelves = shelves_told P.files P.faults result.shelves.items; unread = S.left source.new; written = T.taken out.new }) }
    ensures source_fault { result.status ≡ Status.SourceFault → Rose (S.faults source.old) (S.faults source.new) }
    ensures source_quiet { (result.status ≡ Status.SourceFault) ⊎ (S.faults source.new ≡ S.faults source.old) }
    ensures sink_fault { result.status ≡ Status.SinkFault → Rose (T.faults out.old) (T.faults out.new) }
    ensures sink_quiet { (result.status ≡ Status.SinkFault) ⊎ (T.faults out.new ≡ T.faults out.old) }
    ensures source_counts { S.faults source.old ≤ S.faults source.new }
    ensures sink_counts { T.faults out.old ≤ T.faults out.new }
    ensures shelves { ShelvesStay (shelves_told P.files P.faults shelves.items) (shelves_told P.files P.faults result.shelves.items) }
{
    let limit = ClientLimit::Shelves(shelves.len());
    match open_campaign(alloc, source, limit, plugins) {
        Ok(ready) => update_campaign(
            rt,
            alloc,
            ready.campaign,
            ready.plugins,
            tag,
            shelves,
            keeper,
            gate,
            out,
        ),
        Err(stop) => RunLeft::nothing(alloc, stop_status(stop), shelves, keeper),
    }
}

/// Loads the history, and plays the plan of a campaign's first boot over it.
fn update_campaign<
    R: Threads + Wait + Sync,
    P: Shelf + Send,
    K: Keeper + Send,
    T: Sink,
    G: Gate + Sync,
>(
    rt: &R,
    alloc: Global,
    campaign: Campaign,
    plugins: Vec<Box<dyn Plugin>>,
    tag: Name,
    shelves: Vec<P>,
    keeper: K,
    gate: &G,
    out: &mut T,
) -> RunLeft<P, K>
    requires begins { CanBegin campaign }
    requires ready { CanBePlayed campaign }
    requires shelves { IsReadyFor (length shelves.items) (length plugins.items) campaign }
    requires no_doubt { K.doubt keeper ≡ None }
    requires tag { IsTag tag }
    ensures goes { UpdateGoes (signs_of K.tells K.doubt K.faults) (steps_at (λ p. steps p) plugins.items) tag campaign result.status keeper
        (record { log = result.log; opening = result.opening; boards = result.boards; keeper = result.keeper })
        (record { shelves = shelves_told P.files P.faults shelves.items; written = T.taken out.old })
        (record { shelves = shelves_told P.files P.faults result.shelves.items; written = T.taken out.new }) }
    ensures sink_fault { result.status ≡ Status.SinkFault → Rose (T.faults out.old) (T.faults out.new) }
    ensures sink_quiet { (result.status ≡ Status.SinkFault) ⊎ (T.faults out.new ≡ T.faults out.old) }
    ensures sink_counts { T.faults out.old ≤ T.faults out.new }
    ensures shelves { ShelvesStay (shelves_told P.files P.faults shelves.items) (shelves_told P.files P.faults result.shelves.items) }
{
    let mut keeper = keeper;
    let Loaded { rows, stop } = load(alloc, &mut keeper);
    match stop {
        Some(stop) => RunLeft::loaded(alloc, load_status(stop), rows, shelves, keeper),
        None => match updated(alloc, campaign, &rows, &tag) {
            Ok(made) => run_ready(rt, alloc, made, plugins, shelves, keeper, gate, out),
            Err(NoMemory) => RunLeft::loaded(alloc, Status::NoMemory, rows, shelves, keeper),
        },
    }
}
