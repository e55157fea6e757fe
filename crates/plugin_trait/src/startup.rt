//! Plugins are started in their order.
ghost use Rattle.std.specs.Prelude.{◌≡◌, map};

use crate::plugin::Plugin;
use fw_facts::MachineFacts;

/// Starts a plugin.
fn start(plugin: &mut Box<dyn Plugin>, machine: &MachineFacts)
    ensures vetoes { own_vetoes plugin.new ≡ vetoes_on plugin.old machine.now }
    ensures sheet { own_sheet plugin.new ≡ own_sheet plugin.old }
{
    plugin.startup(machine);
}

/// Starts each plugin, in order. Each then has the vetoes that it told of this machine beforehand.
pub fn start_all(plugins: &mut Vec<Box<dyn Plugin>>, machine: &MachineFacts)
    ensures vetoes { map (λ p. own_vetoes p) plugins.new.items ≡ map (λ p. vetoes_on p machine.now) plugins.old.items }
    ensures sheets { map (λ p. own_sheet p) plugins.new.items ≡ map (λ p. own_sheet p) plugins.old.items }
{
    for plugin in plugins.iter_mut() {
        start(plugin, machine);
    }
}
