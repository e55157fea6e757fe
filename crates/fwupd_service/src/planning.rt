//! The command `plan`: which installs bring each device of a document as far as it can come.
ghost use Rattle.std.specs.Prelude.{◌≡◌, ◌⊎◌, ◌≤◌, length, map, None};
ghost use Rattle.outer_traits.specs.Faults.{Rose};
ghost use Rattle.client_plays.specs.Has.{shelves_told};
ghost use Rattle.history_keeper.specs.Histories.{IsHistory};
ghost use Rattle.history_keeper.specs.Signs.{signs_of};
ghost use Rattle.site_making.specs.Settled.{vetoes_of};
ghost use Rattle.campaign_inputs.specs.Begin.{CanBegin};
ghost use Rattle.update_plans.specs.Tags.{IsTag};
ghost use Rattle.campaign_plans.specs.Printed.{plan_text};
ghost use Rattle.fwupd_service.specs.Updates.{PlanEnds, PlanGoes, WasPrinted, printed_plan};

use crate::loading::{Loaded, load, load_status};
use crate::ran::RunLeft;
use crate::run::stop_status;
use campaign_inputs::{ClientLimit, open_campaign};
use campaign_plans::{FirstPlan, plan_first, write_plan};
use command_outputs::OutputStop;
use fw_base::{Name, NoMemory};
use history_keeper::{Keeper, Row};
use outer_traits::{Shelf, Sink, Source};
use plugin_trait::Plugin;
use run_status::Status;
use site_types::Campaign;
use std::alloc::Global;

/// Reads the document, loads the history, and prints the plan of the document's first boot.
pub(crate) fn plan<S: Source, P: Shelf, K: Keeper, T: Sink>(
    alloc: Global,
    source: &mut S,
    tag: Name,
    shelves: Vec<P>,
    keeper: K,
    plugins: Vec<Box<dyn Plugin>>,
    out: &mut T,
) -> RunLeft<P, K>
    requires few_plugins { length plugins.items ≤ 64 }
    requires no_doubt { K.doubt keeper ≡ None }
    requires tag { IsTag tag }
    ensures ends { PlanEnds (signs_of K.tells K.doubt K.faults) (map (λ p. own_sheet p) plugins.items)
        (λ machine. map (λ p. vetoes_of (own_sheet p) (vetoes_on p machine)) plugins.items) tag result.status keeper
        (record { log = result.log; opening = result.opening; boards = result.boards; keeper = result.keeper })
        (record { shelves = shelves_told P.files P.faults shelves.items; unread = S.left source.old; written = T.taken out.old })
        (record { shelves = shelves_told P.files P.faults result.shelves.items; unread = S.left source.new; written = T.taken out.new }) }
    ensures source_fault { result.status ≡ Status.SourceFault → Rose (S.faults source.old) (S.faults source.new) }
    ensures source_quiet { (result.status ≡ Status.SourceFault) ⊎ (S.faults source.new ≡ S.faults source.old) }
    ensures sink_fault { result.status ≡ Status.SinkFault → Rose (T.faults out.old) (T.faults out.new) }
    ensures sink_quiet { (result.status ≡ Status.SinkFault) ⊎ (T.faults out.new ≡ T.faults out.old) }
    ensures source_counts { S.faults source.old ≤ S.faults source.new }
    ensures sink_counts { T.faults out.old ≤ T.faults out.new }
    ensures shelves { result.shelves.items ≡ shelves.items }
{
    let limit = ClientLimit::Shelves(shelves.len());
    match open_campaign(alloc, source, limit, plugins) {
        Ok(ready) => plan_campaign(alloc, &ready.campaign, tag, shelves, keeper, out),
        Err(stop) => RunLeft::nothing(alloc, stop_status(stop), shelves, keeper),
    }
}

/// Loads the history, and prints the plan of a campaign's first boot over it.
fn plan_campaign<P, K: Keeper, T: Sink>(
    alloc: Global,
    campaign: &Campaign,
    tag: Name,
    shelves: Vec<P>,
    keeper: K,
    out: &mut T,
) -> RunLeft<P, K>
    requires begins { CanBegin campaign.now }
    requires no_doubt { K.doubt keeper ≡ None }
    requires tag { IsTag tag }
    ensures goes { PlanGoes (signs_of K.tells K.doubt K.faults) tag campaign.now result.status keeper
        (record { log = result.log; opening = result.opening; boards = result.boards; keeper = result.keeper })
        (T.taken out.old) (T.taken out.new) }
    ensures sink_fault { result.status ≡ Status.SinkFault → Rose (T.faults out.old) (T.faults out.new) }
    ensures sink_quiet { (result.status ≡ Status.SinkFault) ⊎ (T.faults out.new ≡ T.faults out.old) }
    ensures sink_counts { T.faults out.old ≤ T.faults out.new }
    ensures shelves { result.shelves.items ≡ shelves.items }
{
    let mut keeper = keeper;
    let Loaded { rows, stop } = load(alloc, &mut keeper);
    match stop {
        None => {
            let status = print(alloc, campaign, &rows, &tag, out);
            RunLeft::loaded(alloc, status, rows, shelves, keeper)
        }
        Some(stop) => RunLeft::loaded(alloc, load_status(stop), rows, shelves, keeper),
    }
}

/// Prints the plan over those rows, a valid history.
fn print<T: Sink>(
    alloc: Global,
    campaign: &Campaign,
    rows: &[Row],
    tag: &Name,
    out: &mut T,
) -> Status
    requires begins { CanBegin campaign.now }
    requires history { IsHistory rows.now }
    requires tag { IsTag tag.now }
    ensures printed { WasPrinted (printed_plan campaign.now rows.now tag.now) result (T.taken out.old) (T.taken out.new) }
    ensures sink_fault { result ≡ Status.SinkFault → Rose (T.faults out.old) (T.faults out.new) }
    ensures sink_quiet { (result ≡ Status.SinkFault) ⊎ (T.faults out.new ≡ T.faults out.old) }
    ensures sink_counts { T.faults out.old ≤ T.faults out.new }
{
    match plan_first(alloc, campaign, rows, tag) {
        Ok(first) => print_first(alloc, campaign, &first, out),
        Err(NoMemory) => Status::NoMemory,
    }
}

// Prints a plan that was made.
fn print_first<T: Sink>(
    alloc: Global,
    campaign: &Campaign,
    first: &FirstPlan,
    out: &mut T,
) -> Status
    ensures printed { WasPrinted (plan_text campaign.now.facts first.now.state.views first.now.plan.steps) result (T.taken out.old) (T.taken out.new) }
    ensures sink_fault { result ≡ Status.SinkFault → Rose (T.faults out.old) (T.faults out.new) }
    ensures sink_quiet { (result ≡ Status.SinkFault) ⊎ (T.faults out.new ≡ T.faults out.old) }
    ensures sink_counts { T.faults out.old ≤ T.faults out.new }
{
    let views = first.state.views();
    match write_plan(alloc, &campaign.facts, views, first.plan.steps.items(), out) {
        Ok(()) => Status::Done,
        Err(OutputStop::SinkFault) => Status::SinkFault,
        Err(OutputStop::NoMemory) => Status::NoMemory,
    }
}
