//! A cycle is shown by names, from the least of them on.
ghost use Rattle.std.specs.Prelude.{◌≡◌, ℕ, ◌<◌, ◌++◌, Bool, true, false, length, map, drop, take, slice_index, IfOk, List};
ghost use Rattle.std.specs.Ordering.{nat_cmp, is_lt};
ghost use Rattle.std.specs.Cmp.Lexicographic.{slice_cmp};
ghost use Rattle.plugin_order.specs.Sheets.{name_at};
ghost use Rattle.plugin_order.specs.Chains.{IsCycle, IsApart};
ghost use Rattle.plugin_order.specs.Arranged.{ShowsCycle};

use crate::rules::name_at;
use crate::sheet::PluginSheet;
use fw_base::{Name, NoMemory};
use std::alloc::Global;
use std::cmp::Ordering;

/// The names of a cycle of plugins that differ. It begins with the least.
pub fn named(alloc: Global, sheets: &[PluginSheet], cycle: &[usize]) -> Result<Vec<Name>, NoMemory>
    requires some { 0 < length cycle.now }
    requires inside { (k : ℕ) → k < length cycle.now → slice_index cycle.now k < length sheets.now }
    requires apart { IsApart cycle.now }
    ensures { IfOk result (λ shown. (rule : ℕ → ℕ → Bool) → IsCycle rule cycle.now → ShowsCycle rule sheets.now shown.items) }
{
    let (before, from_least) = cycle.split_at(least_at(sheets, cycle));
    let mut shown = Vec::new(alloc);
    push_names(&mut shown, sheets, from_least)?;
    push_names(&mut shown, sheets, before)?;
    Ok(shown)
}

/// The place of the least name.
fn least_at(sheets: &[PluginSheet], cycle: &[usize]) -> usize
    requires some { 0 < length cycle.now }
    requires inside { (k : ℕ) → k < length cycle.now → slice_index cycle.now k < length sheets.now }
    ensures within { result < length cycle.now }
    ensures least { (k : ℕ) → k < length cycle.now →
        is_lt (slice_cmp nat_cmp (name_at sheets.now (slice_index cycle.now k)) (name_at sheets.now (slice_index cycle.now result))) ≡ false }
{
    let mut at = 0;
    for i in 0..cycle.len() {
        if is_less(name_at(sheets, cycle[i]), name_at(sheets, cycle[at])) {
            at = i;
        }
    }
    at
}

fn is_less(name: &Name, other: &Name) -> bool
    ensures { result ≡ is_lt (slice_cmp nat_cmp name.now other.now) }
{
    name.bytes().cmp(other.bytes()) == Ordering::Less
}

fn push_names(
    shown: &mut Vec<Name>,
    sheets: &[PluginSheet],
    plugins: &[usize],
) -> Result<(), NoMemory>
    requires { (k : ℕ) → k < length plugins.now → slice_index plugins.now k < length sheets.now }
    ensures { IfOk result (λ _. shown.new.items ≡ shown.old.items ++ map (name_at sheets.now) plugins.now) }
{
    for p in plugins {
        shown.push(*name_at(sheets, *p))?;
    }
    Ok(())
}
