//! Opens a campaign from a source.
ghost use Rattle.std.specs.Prelude.{◌≡◌, ◌⊎◌, ◌≤◌, length, map, IfOk, IfErr, IsErrOf, MatchOption, OnOk};
ghost use Rattle.outer_traits.specs.Faults.{Rose};
ghost use Rattle.site_making.specs.Settled.{vetoes_of};
ghost use Rattle.campaign_inputs.specs.Begin.{CanBegin};
ghost use Rattle.campaign_inputs.specs.Limits.{CanBeRun};
ghost use Rattle.campaign_inputs.specs.Opened.{Allows, HasStopped, IsOpened, IsPassed, StopsWith, asked_for, of_input, of_order};
ghost use Rattle.campaign_inputs.specs.Settled.{AreRunning, IsCampaignOf};

use crate::input::{InputStop, read_input};
use crate::settling::{Ready, settle};
use outer_traits::Source;
use plugin_order::OrderFault;
use plugin_trait::Plugin;
use release_catalogue::{Place, Reason};
use site_types::Site;
use std::alloc::Global;

/// How many clients a site may have.
#[derive(Clone, Copy, Debug)]
pub enum ClientLimit {
    /// Any number.
    Any,
    /// One for each of so many shelves; a site without clients needs one, too.
    Shelves(usize),
}

/// Why there is no campaign.
#[derive(Debug, Drop)]
pub enum OpenStop {
    /// The input couldn't be read.
    SourceFault,
    /// The input is longer than a document may be.
    TooLong,
    /// The input is no document: what is wrong with it first, and where.
    Document { place: Place, reason: Reason },
    /// There are more clients than shelves.
    TooManyClients { asked: u32, shelves: u32 },
    /// The plugins can't be arranged. Want of memory is none of these faults.
    Plugins(OrderFault),
    /// There was no memory.
    NoMemory,
}

/// Reads the whole input, settles its site with the plugins that stay enabled, and starts these. There are
/// at most 64 plugins. The causes are looked at in the order in which the stops stand.
pub fn open_campaign<S: Source>(
    alloc: Global,
    source: &mut S,
    limit: ClientLimit,
    plugins: Vec<Box<dyn Plugin>>,
) -> Result<Ready, OpenStop>
    requires few { length plugins.items ≤ 64 }
    ensures opened { IfOk result (λ ready. IsOpened limit (map (λ p. own_sheet p) plugins.items)
        (λ machine. map (λ p. vetoes_of (own_sheet p) (vetoes_on p machine)) plugins.items)
        (S.left source.old) (S.left source.new) ready.campaign) }
    ensures plugins { IfOk result (λ ready. ready.campaign.facts.vetoes ≡ map (λ p. vetoes_of (own_sheet p) (own_vetoes p)) ready.plugins.items) }
    ensures running { IfOk result (λ ready. AreRunning (map (λ p. own_sheet p) plugins.items) (map (λ p. own_sheet p) ready.plugins.items)) }
    ensures begins { IfOk result (λ ready. CanBegin ready.campaign) }
    ensures stopped { IfErr result (λ stop. HasStopped limit (map (λ p. own_sheet p) plugins.items) stop (S.left source.old) (S.left source.new)) }
    ensures fault { IsErrOf result OpenStop.SourceFault → Rose (S.faults source.old) (S.faults source.new) }
    ensures quiet { IsErrOf result OpenStop.SourceFault ⊎ (S.faults source.new ≡ S.faults source.old) }
    ensures counts { S.faults source.old ≤ S.faults source.new }
{
    match read_input(alloc, source) {
        Ok(site) => settle_within(alloc, limit, site, plugins),
        Err(stop) => Err(OpenStop::of_input(stop)),
    }
}

impl OpenStop {
    fn of_input(stop: InputStop) -> OpenStop
        ensures { result ≡ of_input stop }
    {
        match stop {
            InputStop::SourceFault => OpenStop::SourceFault,
            InputStop::TooLong => OpenStop::TooLong,
            InputStop::Document { place, reason } => OpenStop::Document { place, reason },
            InputStop::NoMemory => OpenStop::NoMemory,
        }
    }

    fn of_order(fault: OrderFault) -> OpenStop
        ensures { result ≡ of_order fault }
    {
        match fault {
            OrderFault::DuplicateName { name } => {
                OpenStop::Plugins(OrderFault::DuplicateName { name })
            }
            OrderFault::Cycle { names } => OpenStop::Plugins(OrderFault::Cycle { names }),
            OrderFault::NoMemory => OpenStop::NoMemory,
        }
    }
}

/// Settles a site, unless it has more clients than are allowed.
fn settle_within(
    alloc: Global,
    limit: ClientLimit,
    site: Site,
    plugins: Vec<Box<dyn Plugin>>,
) -> Result<Ready, OpenStop>
    requires few { length plugins.items ≤ 64 }
    requires site { CanBeRun site }
    ensures allowed { OnOk result (Allows limit (asked_for site)) }
    ensures settled { IfOk result (λ ready. IsCampaignOf site (map (λ p. own_sheet p) plugins.items)
        (map (λ p. vetoes_of (own_sheet p) (vetoes_on p site.machine)) plugins.items) ready.campaign) }
    ensures plugins { IfOk result (λ ready. ready.campaign.facts.vetoes ≡ map (λ p. vetoes_of (own_sheet p) (own_vetoes p)) ready.plugins.items) }
    ensures running { IfOk result (λ ready. AreRunning (map (λ p. own_sheet p) plugins.items) (map (λ p. own_sheet p) ready.plugins.items)) }
    ensures begins { IfOk result (λ ready. CanBegin ready.campaign) }
    ensures stopped { IfErr result (λ stop. StopsWith limit site (map (λ p. own_sheet p) plugins.items) stop) }
{
    let asked = asked_for(&site);
    match shelves_wanting(limit, asked) {
        Some(shelves) => Err(OpenStop::TooManyClients { asked, shelves }),
        None => match settle(alloc, site, plugins) {
            Ok(ready) => Ok(ready),
            Err(fault) => Err(OpenStop::of_order(fault)),
        },
    }
}

/// How many shelves a site asks for.
fn asked_for(site: &Site) -> u32
    requires { length site.now.features ≤ 16 }
    ensures { result ≡ asked_for site.now }
{
    site.features.items().len().max(1) as u32
}

/// The shelves, where they are fewer than are asked for.
fn shelves_wanting(limit: ClientLimit, asked: u32) -> Option<u32>
    ensures { MatchOption result (Allows limit asked) (IsPassed limit asked) }
{
    match limit {
        ClientLimit::Any => None,
        ClientLimit::Shelves(shelves) => {
            if shelves < asked as usize {
                Some(shelves as u32)
            } else {
                None
            }
        }
    }
}
