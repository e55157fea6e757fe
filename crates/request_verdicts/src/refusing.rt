//! Why a request is refused whose device is present and has the release: each refusal for itself.
ghost use Rattle.std.specs.Prelude.{◌≡◌, ◌&&◌, ◌||◌, ◌<◌, ◌^◌, not, nat_lt, nat_le, find, option_map, option_copied, length};
ghost use Rattle.std.specs.List.{list_any};
ghost use Rattle.std.specs.Ordering.{is_lt};
ghost use Rattle.version_formats.specs.VersionOrder.{same_version, version_cmp};
ghost use Rattle.fw_facts.specs.Flags.{has_flag};
ghost use Rattle.fw_facts.specs.Views.{flags_of, version_of};
ghost use Rattle.fw_facts.specs.Problems.{hindrance};
ghost use Rattle.fw_facts.specs.Machines.{rule_holds};
ghost use Rattle.update_log.specs.Verdicts.{where_so, rows_max};

use fw_facts::{DeviceFlag, DeviceView, MachineFacts, Problem};
use std::cmp::Ordering;
use update_log::{PluginVetoes, Refusal, same_version};
use version_formats::{Version, compare};

// A refusal, where a test passes.
fn where_so(test: bool, refusal: Refusal) -> Option<Refusal>
    ensures { result ≡ where_so test refusal }
{
    if test { Some(refusal) } else { None }
}

/// The device is being updated.
pub fn busy(view: &DeviceView) -> Option<Refusal>
    ensures { result ≡ option_map (λ entry. Refusal.Busy entry) view.now.claim }
{
    match view.claim {
        Some(entry) => Some(Refusal::Busy { entry }),
        None => None,
    }
}

/// The device takes no updates.
pub fn not_updatable(view: &DeviceView) -> Option<Refusal>
    ensures { result ≡ where_so (not (has_flag DeviceFlag.Updatable (flags_of view.now))) Refusal.NotUpdatable }
{
    where_so(
        !view.flags().has(DeviceFlag::Updatable),
        Refusal::NotUpdatable,
    )
}

/// The device is locked.
pub fn locked(view: &DeviceView) -> Option<Refusal>
    ensures { result ≡ where_so (has_flag DeviceFlag.Locked (flags_of view.now)) Refusal.Locked }
{
    where_so(view.flags().has(DeviceFlag::Locked), Refusal::Locked)
}

/// The device has a problem.
pub fn hindered(machine: &MachineFacts, view: &DeviceView) -> Option<Refusal>
    ensures { result ≡ option_map (λ problem. Refusal.Problem problem) (hindrance machine.now view.now) }
{
    match Problem::first_refusing(machine, view) {
        Some(problem) => Some(Refusal::Problem(problem)),
        None => None,
    }
}

/// The device shows that version, and a reinstall isn't allowed.
pub fn installed(release: &Version, shown: &Version, allowed: bool) -> Option<Refusal>
    ensures { result ≡ where_so (same_version release.now shown.now && not allowed) Refusal.SameVersion }
{
    where_so(
        same_version(release, shown) && !allowed,
        Refusal::SameVersion,
    )
}

/// The device shows a newer version, and an older one isn't allowed.
pub fn older(release: &Version, shown: &Version, allowed: bool) -> Option<Refusal>
    ensures { result ≡ where_so (is_lt (version_cmp release.now shown.now) && not allowed) Refusal.Older }
{
    where_so(is_lower(release, shown) && !allowed, Refusal::Older)
}

fn is_lower(left: &Version, right: &Version) -> bool
    ensures { result ≡ is_lt (version_cmp left.now right.now) }
{
    match compare(left, right) {
        Ordering::Less => true,
        Ordering::Equal | Ordering::Greater => false,
    }
}

/// The first plugin in order with a rule that holds forbids it.
pub fn vetoed(machine: &MachineFacts, view: &DeviceView, vetoes: &[PluginVetoes]) -> Option<Refusal>
    ensures { result ≡ option_map (λ v. Refusal.Veto v.plugin) (find (λ v. list_any (rule_holds machine.now view.now) v.rules) vetoes.now) }
{
    match first_forbidding(machine, view, vetoes) {
        Some(found) => Some(Refusal::Veto {
            plugin: found.plugin,
        }),
        None => None,
    }
}

fn first_forbidding<'a>(
    machine: &MachineFacts,
    view: &DeviceView,
    vetoes: &'a [PluginVetoes],
) -> Option<&'a PluginVetoes>
    ensures { option_copied result ≡ find (λ v. list_any (rule_holds machine.now view.now) v.rules) vetoes.now }
{
    vetoes.iter().find(|v| forbids(machine, view, v))
}

fn forbids(machine: &MachineFacts, view: &DeviceView, vetoes: &PluginVetoes) -> bool
    ensures { result ≡ list_any (rule_holds machine.now view.now) vetoes.now.rules }
{
    vetoes
        .rules
        .items()
        .iter()
        .any(|rule| rule.holds(machine, view))
}

/// The payload's size, in bytes, is outside what the board takes.
pub fn out_of_size(len: u32, min: u32, max: u32) -> Option<Refusal>
    ensures { result ≡ where_so (nat_lt len min || nat_lt max len) (Refusal.Size len min max) }
{
    where_so(len < min || max < len, Refusal::Size { len, min, max })
}

/// Blocks are to be held, and too few are free.
pub fn no_room(wanted: bool, need: u32, free: u32) -> Option<Refusal>
    ensures { result ≡ where_so (wanted && nat_lt free need) (Refusal.NoRoom need free) }
{
    where_so(wanted && free < need, Refusal::NoRoom { need, free })
}

/// The most rows of a history.
pub const ROWS_MAX: usize = 65_536;

/// A row is to be added, and the history is full.
pub fn rows_full(wanted: bool, rows: usize) -> Option<Refusal>
    ensures { result ≡ where_so (wanted && nat_le rows_max rows) Refusal.RowsFull }
{
    where_so(wanted && ROWS_MAX <= rows, Refusal::RowsFull)
}
