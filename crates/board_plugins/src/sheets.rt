//! Sheets, made of words.
ghost use Rattle.std.specs.Prelude.{◌≡◌, [], map, IfOk, IsOk, length, All, ℕ, List};
ghost use Rattle.fw_base.specs.Names.{name_read};
ghost use Rattle.board_plugins.specs.Sheets.{sheet_without_rules};

use fw_base::{Listed, Name, NoMemory};
use plugin_order::PluginSheet;
use std::alloc::Global;

/// The name that is written so.
pub(crate) fn name(word: &[u8]) -> Name
    requires { IsOk (name_read word.now) }
    ensures { result ≡ word.now }
{
    match Name::read(word) {
        Ok(name) => name,
        Err(_) => unreachable!(),
    }
}

/// The sheet of a plugin with this name, and no rule. Takes no memory.
pub(crate) fn sheet_without_rules(alloc: Global, name: Name) -> PluginSheet
    ensures { result ≡ sheet_without_rules name }
{
    PluginSheet {
        name,
        conflicts: Listed::of(Vec::new(alloc)),
        after: Listed::of(Vec::new(alloc)),
        before: Listed::of(Vec::new(alloc)),
        better_than: Listed::of(Vec::new(alloc)),
    }
}

/// These names as a list.
pub(crate) fn listed(alloc: Global, names: &[Name]) -> Result<Listed<Name>, NoMemory>
    ensures { IfOk result (λ list. list ≡ names.now) }
{
    Ok(Listed::of(Vec::from_slice(alloc, names)?))
}
