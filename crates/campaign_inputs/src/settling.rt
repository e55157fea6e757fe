//! Makes the campaign of a site, with the plugins that run.
ghost use Rattle.std.specs.Prelude.{◌≡◌, ◌≤◌, length, map, IfOk, IfErr};
ghost use Rattle.plugin_order.specs.Arranged.{HasCause};
ghost use Rattle.site_types.specs.Limits.{CanBeSettled};
ghost use Rattle.site_making.specs.Settled.{vetoes_of};
ghost use Rattle.campaign_inputs.specs.Begin.{CanBegin};
ghost use Rattle.campaign_inputs.specs.Settled.{AreRunning, IsCampaignOf};

use crate::starting::{Started, start_plugins};
use plugin_order::OrderFault;
use plugin_trait::Plugin;
use site_making::settle_site;
use site_types::{Campaign, Site};
use std::alloc::Global;

/// A campaign that can begin.
#[derive(Drop)]
pub struct Ready {
    pub campaign: Campaign,
    /// The plugins that run, each started on the site's machine. They stand in the order of the vetoes of
    /// the campaign's facts.
    pub plugins: Vec<Box<dyn Plugin>>,
}

/// Arranges at most 64 plugins, starts those that stay enabled, and makes the campaign of the site. The
/// other plugins are dropped. The faults are those of `arrange`.
pub fn settle(alloc: Global, site: Site, plugins: Vec<Box<dyn Plugin>>) -> Result<Ready, OrderFault>
    requires few { length plugins.items ≤ 64 }
    requires site { CanBeSettled site.boards }
    ensures settled { IfOk result (λ ready. IsCampaignOf site (map (λ p. own_sheet p) plugins.items)
        (map (λ p. vetoes_of (own_sheet p) (vetoes_on p site.machine)) plugins.items) ready.campaign) }
    ensures plugins { IfOk result (λ ready. ready.campaign.facts.vetoes ≡ map (λ p. vetoes_of (own_sheet p) (own_vetoes p)) ready.plugins.items) }
    ensures running { IfOk result (λ ready. AreRunning (map (λ p. own_sheet p) plugins.items) (map (λ p. own_sheet p) ready.plugins.items)) }
    ensures begins { IfOk result (λ ready. length site.boards ≤ 256 → CanBegin ready.campaign) }
    ensures refused { IfErr result (HasCause (map (λ p. own_sheet p) plugins.items)) }
{
    let started = start_plugins(alloc, plugins, &site.machine)?;
    let campaign = settle_site(alloc, site, &started.arrangement, &started.plugins)?;
    let Started { plugins, .. } = started;
    Ok(Ready { campaign, plugins })
}
