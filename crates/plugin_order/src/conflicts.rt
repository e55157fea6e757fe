//! The walk of conflicts.
ghost use Rattle.std.specs.Prelude.{◌≡◌, ℕ, ◌<◌, ◌≤◌, ◌&&◌, not, false, length, slice_index_or, All, IfOk, List, []};
ghost use Rattle.plugin_order.specs.Sheets.{names, name_at, conflicts_at};
ghost use Rattle.plugin_order.specs.Arranged.{enabled, disabled, off_after, IsOff};

use crate::rules::{has_name, name_at};
use crate::sheet::PluginSheet;
use fw_base::{Listed, Name, NoMemory};
use std::alloc::Global;

/// Whether each plugin is enabled once all had their turn.
pub fn left_enabled(
    alloc: Global,
    sheets: &[PluginSheet],
    order: &[u32],
) -> Result<Vec<bool>, NoMemory>
    requires { All (λ p. p < length sheets.now) order.now }
    ensures len { IfOk result (λ on. length on.items ≡ length sheets.now) }
    ensures each { IfOk result (λ on. (p : ℕ) → p < length sheets.now → slice_index_or on.items p false ≡ enabled sheets.now order.now p) }
{
    let mut on = vec![in alloc; true; sheets.len()]?;
    take_turns(sheets, &mut on, order);
    Ok(on)
}

/// The turns of the plugins, in order.
fn take_turns(sheets: &[PluginSheet], on: &mut [bool], order: &[u32])
    requires inside { All (λ p. p < length sheets.now) order.now }
    requires len { length on.old ≡ length sheets.now }
    requires none { IsOff sheets.now [] on.old }
    ensures { IsOff sheets.now (disabled sheets.now [] order.now) on.new }
{
    for p in order {
        turn(sheets, on, *p as usize);
    }
}

/// The turn of a plugin: it turns off all that it conflicts with, unless it is off itself.
fn turn(sheets: &[PluginSheet], on: &mut [bool], p: usize)
    requires len { length on.old ≡ length sheets.now }
    requires at { p < length sheets.now }
    ensures { (off : List (List ℕ)) → IsOff sheets.now off on.old → IsOff sheets.now (off_after sheets.now off p) on.new }
{
    if is_on(on, p) {
        disable(sheets, conflicts_at(sheets, p), on);
    }
}

fn conflicts_at(sheets: &[PluginSheet], p: usize) -> &Listed<Name>
    requires { p < length sheets.now }
    ensures { result.now ≡ conflicts_at sheets.now p }
{
    &sheets[p].conflicts
}

fn is_on(on: &[bool], p: usize) -> bool
    requires { p < length on.now }
    ensures { result ≡ slice_index_or on.now p false }
{
    on[p]
}

/// Turns each plugin off that the list names.
fn disable(sheets: &[PluginSheet], list: &Listed<Name>, on: &mut [bool])
    requires { length on.old ≡ length sheets.now }
    ensures { (p : ℕ) → p < length sheets.now
        → slice_index_or on.new p false ≡ (slice_index_or on.old p false && not (names list.now (name_at sheets.now p))) }
{
    for p in 0..sheets.len() {
        if has_name(list, name_at(sheets, p)) {
            on[p] = false;
        }
    }
}
