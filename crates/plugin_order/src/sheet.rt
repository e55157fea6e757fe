//! What a plugin says of itself and of others.
ghost use Rattle.std.specs.Prelude.{◌≡◌, IfOk};

use fw_base::{Listed, Name, NoMemory};
use std::alloc::Global;

/// A plugin's name, and its rules. A rule that names a plugin which is not there says nothing.
#[derive(Debug, Drop)]
pub struct PluginSheet {
    pub name: Name,
    /// The plugins that it disables, where it is enabled at its turn.
    pub conflicts: Listed<Name>,
    /// The plugins that run before it.
    pub after: Listed<Name>,
    /// The plugins that run after it.
    pub before: Listed<Name>,
    /// The plugins that it is better than.
    pub better_than: Listed<Name>,
}

impl PluginSheet {
    /// An equal sheet.
    pub fn copy(&self, alloc: Global) -> Result<PluginSheet, NoMemory>
        ensures { IfOk result (λ copy. copy ≡ self.now) }
    {
        Ok(PluginSheet {
            name: self.name,
            conflicts: copied(alloc, &self.conflicts)?,
            after: copied(alloc, &self.after)?,
            before: copied(alloc, &self.before)?,
            better_than: copied(alloc, &self.better_than)?,
        })
    }
}

fn copied(alloc: Global, names: &Listed<Name>) -> Result<Listed<Name>, NoMemory>
    ensures { IfOk result (λ copy. copy ≡ names.now) }
{
    Ok(Listed::of(Vec::from_slice(alloc, names.items())?))
}
