//! The rules among the sheets, as a table.
ghost use Rattle.std.specs.Prelude.{◌≡◌, ℕ, ◌<◌, ◌≤◌, length};
ghost use Rattle.plugin_order.specs.Sheets.{names, rule_of, between, name_at};

use crate::sheet::PluginSheet;
use fw_base::{Listed, Name};

/// The most plugins that are arranged.
pub const PLUGINS_MAX: usize = 64;

/// The two kinds of rules that have no cycle.
#[derive(Clone, Copy, Debug, PartialEq, Eq)]
pub enum Kind {
    RunsAfter,
    IsBetter,
}

/// A row of 64 for each plugin: which plugins its rules lead to.
#[derive(Drop)]
pub struct Rules {
    pub count: usize,
    pub table: [bool; 4096],
    ghost few: { count ≤ 64 },
}

impl Rules {
    ghost use Rattle.plugin_order.specs.Table.{holds};

    /// The rules of a kind among the sheets.
    pub fn of(kind: Kind, sheets: &[PluginSheet]) -> Rules
        requires { length sheets.now ≤ 64 }
        ensures count { result.count ≡ length sheets.now }
        ensures rules { (p q : ℕ) → holds result p q ≡ between (rule_of kind) sheets.now p q }
    {
        let mut table = [false; 4096];
        for p in 0..sheets.len() {
            for q in 0..sheets.len() {
                table[p * 64 + q] = rule_at(kind, sheets, p, q);
            }
        }
        Rules {
            count: sheets.len(),
            table,
        }
    }

    /// Whether a rule leads from the one to the other.
    pub fn holds(&self, p: usize, q: usize) -> bool
        requires from { p < self.now.count }
        requires to { q < self.now.count }
        ensures { result ≡ holds self.now p q }
    {
        self.table[p * 64 + q]
    }
}

/// Whether the sheet at p has the rule with the one at q.
fn rule_at(kind: Kind, sheets: &[PluginSheet], p: usize, q: usize) -> bool
    requires from { p < length sheets.now }
    requires to { q < length sheets.now }
    ensures { result ≡ between (rule_of kind) sheets.now p q }
{
    is_rule(kind, &sheets[p], &sheets[q])
}

fn is_rule(kind: Kind, sheet: &PluginSheet, other: &PluginSheet) -> bool
    ensures { result ≡ rule_of kind sheet.now other.now }
{
    match kind {
        Kind::RunsAfter => {
            has_name(&sheet.after, &other.name) || has_name(&other.before, &sheet.name)
        }
        Kind::IsBetter => has_name(&sheet.better_than, &other.name),
    }
}

/// The name of the plugin at a place.
pub fn name_at(sheets: &[PluginSheet], p: usize) -> &Name
    requires { p < length sheets.now }
    ensures { result.now ≡ name_at sheets.now p }
{
    &sheets[p].name
}

/// Whether the list has the name.
pub fn has_name(list: &Listed<Name>, name: &Name) -> bool
    ensures { result ≡ names list.now name.now }
{
    list.items().contains(name)
}
