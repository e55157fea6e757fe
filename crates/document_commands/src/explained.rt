//! The command `explain`.
ghost use Rattle.std.specs.Prelude.{◌≡◌, ◌⊎◌, ◌≤◌, length, map};
ghost use Rattle.outer_traits.specs.Faults.{Rose};
ghost use Rattle.site_making.specs.Settled.{vetoes_of};
ghost use Rattle.first_boots.specs.FirstBoot.{shown_by};
ghost use Rattle.campaign_inputs.specs.Begin.{CanBegin};
ghost use Rattle.document_commands.specs.Explains.{ExplainEnds, TextPrinted, printed_of, undisturbed};
ghost use Rattle.document_commands.specs.Stops.{IsOfAny, told_stop};

use crate::ended::Ended;
use campaign_inputs::{ClientLimit, OpenStop, open_campaign};
use command_outputs::{OutputStop, write_explain};
use first_boots::state_at_first_boot;
use fw_base::{Listed, Name, NoMemory};
use outer_traits::{Sink, Source};
use plugin_trait::Plugin;
use site_types::Campaign;
use std::alloc::Global;
use update_log::BootPlan;
use version_formats::Version;

/// Reads the document, arranges the plugins, of which there are at most 64, and prints whether an install of
/// that version at that port would be accepted: an ask of client 1, without flags, after one boot with no
/// board absent and no rows.
pub fn explain<S: Source, T: Sink>(
    alloc: Global,
    source: &mut S,
    port: Name,
    version: Version,
    plugins: Vec<Box<dyn Plugin>>,
    out: &mut T,
) -> Ended
    requires few { length plugins.items ≤ 64 }
    ensures ends { ExplainEnds (map (λ p. own_sheet p) plugins.items)
        (λ machine. map (λ p. vetoes_of (own_sheet p) (vetoes_on p machine)) plugins.items)
        port version result (S.left source.old) (S.left source.new) (T.taken out.old) (T.taken out.new) }
    ensures source_fault { result ≡ Ended.SourceFault → Rose (S.faults source.old) (S.faults source.new) }
    ensures source_quiet { (result ≡ Ended.SourceFault) ⊎ (S.faults source.new ≡ S.faults source.old) }
    ensures sink_fault { result ≡ Ended.SinkFault → Rose (T.faults out.old) (T.faults out.new) }
    ensures sink_quiet { (result ≡ Ended.SinkFault) ⊎ (T.faults out.new ≡ T.faults out.old) }
    ensures source_counts { S.faults source.old ≤ S.faults source.new }
    ensures sink_counts { T.faults out.old ≤ T.faults out.new }
{
    match open_campaign(alloc, source, ClientLimit::Any, plugins) {
        Ok(ready) => print(alloc, &ready.campaign, port, version, out),
        Err(stop) => told_stop(stop),
    }
}

/// A stop, where no limit of clients was passed.
fn told_stop(stop: OpenStop) -> Ended
    requires { IsOfAny stop }
    ensures { result ≡ told_stop stop }
{
    match stop {
        OpenStop::SourceFault => Ended::SourceFault,
        OpenStop::TooLong => Ended::TooLong,
        OpenStop::Document { place, reason } => Ended::Document { place, reason },
        OpenStop::TooManyClients { .. } => unreachable!(),
        OpenStop::Plugins(fault) => Ended::Plugins(fault),
        OpenStop::NoMemory => Ended::NoMemory,
    }
}

/// The boot over which an install is explained: at time 0, without a limit, and with no board absent.
fn undisturbed(alloc: Global) -> BootPlan
    ensures { result ≡ undisturbed }
{
    BootPlan {
        time: 0,
        limit: None,
        absent: Listed::of(Vec::new(alloc)),
    }
}

/// Prints what is explained of a campaign.
fn print<T: Sink>(
    alloc: Global,
    campaign: &Campaign,
    port: Name,
    version: Version,
    out: &mut T,
) -> Ended
    requires begins { CanBegin campaign.now }
    ensures printed { TextPrinted (printed_of campaign.now.facts (map shown_by campaign.now.boards.items) port version) result (T.taken out.old) (T.taken out.new) }
    ensures sink_fault { result ≡ Ended.SinkFault → Rose (T.faults out.old) (T.faults out.new) }
    ensures sink_quiet { (result ≡ Ended.SinkFault) ⊎ (T.faults out.new ≡ T.faults out.old) }
    ensures sink_counts { T.faults out.old ≤ T.faults out.new }
{
    let boot = undisturbed(alloc);
    match state_at_first_boot(alloc, &campaign.facts, &campaign.boards, &[], &boot) {
        Ok(state) => match write_explain(alloc, &campaign.facts, &state, port, version, out) {
            Ok(()) => Ended::Done,
            Err(OutputStop::SinkFault) => Ended::SinkFault,
            Err(OutputStop::NoMemory) => Ended::NoMemory,
        },
        Err(NoMemory) => Ended::NoMemory,
    }
}
