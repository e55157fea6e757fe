//! All at once: sheets, arrangement, the plugins that run, and their start.
ghost use Rattle.std.specs.Prelude.{◌≤◌, length, map, IfOk, IfErr};
ghost use Rattle.plugin_order.specs.Arranged.{HasCause};
ghost use Rattle.campaign_inputs.specs.Chosen.{AreAt};
ghost use Rattle.site_making.specs.Priorities.{AreEnabledOf, running};

use crate::choosing::{chosen, running};
use crate::sheets::sheets_of;
use fw_facts::MachineFacts;
use plugin_order::{Arrangement, OrderFault, arrange};
use plugin_trait::{Plugin, start_all};
use std::alloc::Global;

/// How all plugins are arranged, and those that run.
#[derive(Drop)]
pub struct Started {
    pub arrangement: Arrangement,
    /// The enabled plugins, in the order of the arrangement. Each was started.
    pub plugins: Vec<Box<dyn Plugin>>,
}

/// Arranges at most 64 plugins by their sheets, and starts those that stay enabled, in their order. The
/// others are dropped.
///
/// The faults are those of `arrange`.
pub fn start_plugins(
    alloc: Global,
    plugins: Vec<Box<dyn Plugin>>,
    machine: &MachineFacts,
) -> Result<Started, OrderFault>
    requires { length plugins.items ≤ 64 }
    ensures enabled { IfOk result (λ started. AreEnabledOf (map (λ p. own_sheet p) plugins.items) started.arrangement (map (λ p. (own_sheet p).name) started.plugins.items)) }
    ensures sheets { IfOk result (λ started. AreAt (map (λ p. own_sheet p) plugins.items) (running started.arrangement) (map (λ p. own_sheet p) started.plugins.items)) }
    ensures vetoes { IfOk result (λ started. AreAt (map (λ p. vetoes_on p machine.now) plugins.items) (running started.arrangement) (map (λ p. own_vetoes p) started.plugins.items)) }
    ensures refused { IfErr result (HasCause (map (λ p. own_sheet p) plugins.items)) }
{
    let sheets = sheets_of(alloc, &plugins)?;
    let arrangement = arrange(alloc, &sheets)?;
    let places = running(alloc, &arrangement)?;
    let mut plugins = chosen(alloc, plugins, &places)?;
    start_all(&mut plugins, machine);
    Ok(Started {
        arrangement,
        plugins,
    })
}
