//! Makes the generated campaign.
ghost use Rattle.std.specs.Prelude.{◌≡◌, ◌≤◌, length, map, IfOk, IfErr, OnOk};
ghost use Rattle.plugin_order.specs.Arranged.{HasCause};
ghost use Rattle.site_making.specs.Made.{made_site};
ghost use Rattle.site_making.specs.Settled.{vetoes_of};
ghost use Rattle.campaign_inputs.specs.Begin.{CanBegin};
ghost use Rattle.campaign_inputs.specs.Limits.{CanBeRun};
ghost use Rattle.campaign_inputs.specs.Settled.{AreRunning, IsCampaignOf};

use crate::settling::{Ready, settle};
use fw_base::NoMemory;
use plugin_order::OrderFault;
use plugin_trait::Plugin;
use site_making::make_site;
use site_types::Site;
use std::alloc::Global;

/// The campaign of the generated site of 1 to 256 boards and 1 to 16 clients, with the plugins that stay
/// enabled of at most 64. The faults are those of `arrange`.
pub fn make_campaign(
    alloc: Global,
    boards: u32,
    clients: u32,
    plugins: Vec<Box<dyn Plugin>>,
) -> Result<Ready, OrderFault>
    requires some_boards { 1 ≤ boards }
    requires few_boards { boards ≤ 256 }
    requires some_clients { 1 ≤ clients }
    requires few_clients { clients ≤ 16 }
    requires few { length plugins.items ≤ 64 }
    ensures settled { IfOk result (λ ready. IsCampaignOf (made_site boards clients) (map (λ p. own_sheet p) plugins.items)
        (map (λ p. vetoes_of (own_sheet p) (vetoes_on p (made_site boards clients).machine)) plugins.items) ready.campaign) }
    ensures plugins { IfOk result (λ ready. ready.campaign.facts.vetoes ≡ map (λ p. vetoes_of (own_sheet p) (own_vetoes p)) ready.plugins.items) }
    ensures running { IfOk result (λ ready. AreRunning (map (λ p. own_sheet p) plugins.items) (map (λ p. own_sheet p) ready.plugins.items)) }
    ensures begins { IfOk result (λ ready. CanBegin ready.campaign) }
    ensures can_run { OnOk result (CanBeRun (made_site boards clients)) }
    ensures refused { IfErr result (HasCause (map (λ p. own_sheet p) plugins.items)) }
{
    let site = made(alloc, boards, clients)?;
    settle(alloc, site, plugins)
}

/// The generated site.
fn made(alloc: Global, boards: u32, clients: u32) -> Result<Site, NoMemory>
    requires some_boards { 1 ≤ boards }
    requires few_boards { boards ≤ 256 }
    requires some_clients { 1 ≤ clients }
    requires few_clients { clients ≤ 16 }
    ensures made { IfOk result (λ site. site ≡ made_site boards clients) }
    ensures can_run { OnOk result (CanBeRun (made_site boards clients)) }
{
    make_site(alloc, boards, clients)
}
