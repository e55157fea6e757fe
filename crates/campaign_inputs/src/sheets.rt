//! Copies of the plugins' sheets.
ghost use Rattle.std.specs.Prelude.{◌≡◌, map, IfOk};

use fw_base::NoMemory;
use plugin_order::PluginSheet;
use plugin_trait::Plugin;
use std::alloc::Global;

/// The sheet of each plugin.
pub(crate) fn sheets_of(
    alloc: Global,
    plugins: &[Box<dyn Plugin>],
) -> Result<Vec<PluginSheet>, NoMemory>
    ensures { IfOk result (λ sheets. sheets.items ≡ map (λ p. own_sheet p) plugins.now) }
{
    let mut sheets = Vec::new(alloc);
    for plugin in plugins {
        sheets.push(sheet_of(alloc, plugin)?)?;
    }
    Ok(sheets)
}

fn sheet_of(alloc: Global, plugin: &Box<dyn Plugin>) -> Result<PluginSheet, NoMemory>
    ensures { IfOk result (λ sheet. sheet ≡ own_sheet plugin.now) }
{
    plugin.sheet().copy(alloc)
}
