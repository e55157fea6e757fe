//! Plugins are taken out of the others, by their places.
ghost use Rattle.std.specs.Prelude.{◌≡◌, ◌<◌, nat_eq, map, length, slice_get, slice_index_or, slice_set, false, All, IfOk};
ghost use Rattle.std.specs.List.{IsDistinct};
ghost use Rattle.campaign_inputs.specs.Chosen.{AreAt, IsFull};
ghost use Rattle.site_making.specs.Priorities.{running};

use fw_base::NoMemory;
use plugin_order::Arrangement;
use plugin_trait::Plugin;
use std::alloc::Global;

/// The place of each plugin that runs, in their order.
pub(crate) fn running(alloc: Global, arrangement: &Arrangement) -> Result<Vec<u32>, NoMemory>
    ensures { IfOk result (λ places. places.items ≡ running arrangement.now) }
{
    Ok(
        arrangement
            .order
            .items()
            .iter()
            .filter(|plugin| is_enabled(arrangement, **plugin))
            .copied()
            .collect(alloc)?,
    )
}

fn is_enabled(arrangement: &Arrangement, plugin: u32) -> bool
    ensures { result ≡ slice_index_or arrangement.now.enabled plugin false }
{
    arrangement
        .enabled
        .items()
        .get(plugin as usize)
        .copied()
        .unwrap_or(false)
}

/// The plugins at these places, which differ. The others are dropped.
pub(crate) fn chosen(
    alloc: Global,
    plugins: Vec<Box<dyn Plugin>>,
    places: &[u32],
) -> Result<Vec<Box<dyn Plugin>>, NoMemory>
    requires apart { IsDistinct nat_eq places.now }
    requires within { All (λ at. at < length plugins.items) places.now }
    ensures { IfOk result (λ chosen. AreAt plugins.items places.now chosen.items) }
{
    let slots = slots_of(alloc, plugins)?;
    taken(alloc, slots, places)
}

/// Each plugin in a slot of its own.
fn slots_of(
    alloc: Global,
    plugins: Vec<Box<dyn Plugin>>,
) -> Result<Vec<Option<Box<dyn Plugin>>>, NoMemory>
    ensures { IfOk result (λ slots. slots.items ≡ map Some plugins.items) }
{
    let mut slots = Vec::new(alloc);
    for plugin in plugins {
        slots.push(Some(plugin))?;
    }
    Ok(slots)
}

/// What is in the slots at these places, which differ.
fn taken(
    alloc: Global,
    mut slots: Vec<Option<Box<dyn Plugin>>>,
    places: &[u32],
) -> Result<Vec<Box<dyn Plugin>>, NoMemory>
    requires apart { IsDistinct nat_eq places.now }
    requires full { All (IsFull slots.items) places.now }
    ensures { IfOk result (λ taken. map Some (map Some taken.items) ≡ map (slice_get slots.items) places.now) }
{
    let mut taken = Vec::new(alloc);
    for at in places {
        taken.push(take_at(&mut slots, *at as usize))?;
    }
    Ok(taken)
}

/// Takes what is in a slot.
fn take_at(slots: &mut Vec<Option<Box<dyn Plugin>>>, at: usize) -> Box<dyn Plugin>
    requires { IsFull slots.old.items at }
    ensures was { slice_get slots.old.items at ≡ Some (Some result) }
    ensures left { slots.new.items ≡ slice_set slots.old.items at None }
{
    match slots[at].take() {
        Some(plugin) => plugin,
        None => unreachable!(),
    }
}
