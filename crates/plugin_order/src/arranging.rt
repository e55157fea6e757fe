//! Plugins are arranged.
ghost use Rattle.std.specs.Prelude.{◌≡◌, ℕ, ◌<◌, ◌≤◌, ◌↔◌, Bool, IsTrue, length, slice_index, IfOk, OnOk, IfErr, IfSome, IfNone};
ghost use Rattle.plugin_order.specs.Arranged.{IsArrangement, CanBeArranged, HasCause, HasNoCycle, HasNoRepeat, IsPlace, IsPriority, IsRepeat};
ghost use Rattle.plugin_order.specs.Sheets.{is_better, runs_before};

use crate::arrangement::{Arrangement, OrderFault};
use crate::conflicts::left_enabled;
use crate::cycles::named;
use crate::levels::{Levels, find_levels};
use crate::rules::{Kind, Rules, name_at};
use crate::seats::in_order;
use crate::sheet::PluginSheet;
use fw_base::Listed;
use std::alloc::Global;

/// Arranges at most 64 plugins: the order in which they run, which stay enabled, and the priorities.
///
/// `DuplicateName` comes exactly where two sheets have one name, and `Cycle` exactly where the names
/// differ and order rules or better-than rules form a cycle. A cycle of order rules is shown before
/// one of better-than rules.
pub fn arrange(alloc: Global, sheets: &[PluginSheet]) -> Result<Arrangement, OrderFault>
    requires { length sheets.now ≤ 64 }
    ensures arranged { IfOk result (IsArrangement sheets.now) }
    ensures accepted { OnOk result (CanBeArranged sheets.now) }
    ensures refused { IfErr result (HasCause sheets.now) }
{
    if let Some(p) = first_repeat(sheets) {
        return Err(OrderFault::DuplicateName {
            name: *name_at(sheets, p),
        });
    }
    let places = places(alloc, sheets)?;
    let priority = priorities(alloc, sheets)?;
    let order = in_order(alloc, sheets, &places)?;
    let enabled = left_enabled(alloc, sheets, &order)?;
    Ok(Arrangement {
        order: Listed::of(order),
        enabled: Listed::of(enabled),
        priority: Listed::of(priority),
    })
}

/// The place of each plugin, or a cycle of order rules.
fn places(alloc: Global, sheets: &[PluginSheet]) -> Result<Vec<u32>, OrderFault>
    requires few { length sheets.now ≤ 64 }
    requires names { HasNoRepeat sheets.now }
    ensures len { IfOk result (λ places. length places.items ≡ length sheets.now) }
    ensures each { IfOk result (λ places. (p : ℕ) → p < length sheets.now → IsPlace sheets.now p (slice_index places.items p)) }
    ensures accepted { OnOk result (HasNoCycle (runs_before sheets.now)) }
    ensures refused { IfErr result (HasCause sheets.now) }
{
    match find_levels(alloc, &Rules::of(Kind::RunsAfter, sheets))? {
        Levels::Heights(places) => Ok(places),
        Levels::Cycle(mut cycle) => {
            cycle.reverse();
            Err(OrderFault::Cycle {
                names: Listed::of(named(alloc, sheets, &cycle)?),
            })
        }
    }
}

/// The priority of each plugin, or a cycle of better-than rules.
fn priorities(alloc: Global, sheets: &[PluginSheet]) -> Result<Vec<u32>, OrderFault>
    requires few { length sheets.now ≤ 64 }
    requires names { HasNoRepeat sheets.now }
    requires order { HasNoCycle (runs_before sheets.now) }
    ensures len { IfOk result (λ priorities. length priorities.items ≡ length sheets.now) }
    ensures each { IfOk result (λ priorities. (p : ℕ) → p < length sheets.now → IsPriority sheets.now p (slice_index priorities.items p)) }
    ensures accepted { OnOk result (HasNoCycle (is_better sheets.now)) }
    ensures refused { IfErr result (HasCause sheets.now) }
{
    match find_levels(alloc, &Rules::of(Kind::IsBetter, sheets))? {
        Levels::Heights(priorities) => Ok(priorities),
        Levels::Cycle(cycle) => Err(OrderFault::Cycle {
            names: Listed::of(named(alloc, sheets, &cycle)?),
        }),
    }
}

/// The first sheet whose name an earlier one has.
fn first_repeat(sheets: &[PluginSheet]) -> Option<usize>
    ensures some { IfSome result (λ p. (p < length sheets.now) × IsRepeat sheets.now p × ((q : ℕ) → q < p → IsRepeat sheets.now q → ⊥)) }
    ensures none { IfNone result (HasNoRepeat sheets.now) }
{
    for p in 0..sheets.len() {
        if is_repeat(sheets, p) {
            return Some(p);
        }
    }
    None
}

fn is_repeat(sheets: &[PluginSheet], p: usize) -> bool
    requires { p < length sheets.now }
    ensures { IsTrue result ↔ IsRepeat sheets.now p }
{
    for q in 0..p {
        if name_at(sheets, q) == name_at(sheets, p) {
            return true;
        }
    }
    false
}
