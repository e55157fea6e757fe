//! What plugins add to the priority of their boards.
ghost use Rattle.std.specs.Prelude.{◌≡◌, ◌≤◌, All, bytes_eq, map, position, slice_index, slice_index_or, false, IfOk};
ghost use Rattle.site_making.specs.Priorities.{AreEnabled, priorities_of, priority_of};

use fw_base::{Name, NoMemory};
use plugin_order::Arrangement;
use plugin_trait::Plugin;
use std::alloc::Global;

/// The plugins that run, in their order: the name of each, and its priority.
#[derive(Drop)]
pub(crate) struct Running {
    names: Vec<Name>,
    priorities: Vec<u32>,
    ghost small: { All (λ priority. priority ≤ 64) priorities.items },
}

impl Running {
    /// The plugins of an arrangement that are handed in.
    pub(crate) fn of(
        alloc: Global,
        arrangement: &Arrangement,
        plugins: &[Box<dyn Plugin>],
    ) -> Result<Running, NoMemory>
        requires { AreEnabled arrangement.now (map (λ plugin. (own_sheet plugin).name) plugins.now) }
        ensures names { IfOk result (λ running. running.names.items ≡ map (λ plugin. (own_sheet plugin).name) plugins.now) }
        ensures priorities { IfOk result (λ running. running.priorities.items ≡ priorities_of arrangement.now) }
    {
        Ok(Running {
            names: names_of(alloc, plugins)?,
            priorities: priorities_of(alloc, arrangement)?,
        })
    }

    /// What the plugin with this name adds to the priority of its boards: nothing where it doesn't run.
    pub(crate) fn priority_of(&self, name: &Name) -> u32
        ensures value { result ≡ priority_of self.now.names.items self.now.priorities.items name.now }
        ensures small { result ≤ 64 }
    {
        match place_of(&self.names, name) {
            Some(at) => number_at(&self.priorities, at),
            None => 0,
        }
    }
}

/// The first place of a name.
fn place_of(names: &[Name], name: &Name) -> Option<usize>
    ensures { result ≡ position (λ other. bytes_eq other name.now) names.now }
{
    names.iter().position(|other| *other == *name)
}

fn names_of(alloc: Global, plugins: &[Box<dyn Plugin>]) -> Result<Vec<Name>, NoMemory>
    ensures { IfOk result (λ names. names.items ≡ map (λ plugin. (own_sheet plugin).name) plugins.now) }
{
    let mut names = Vec::new(alloc);
    for plugin in plugins {
        names.push(name_of(plugin))?;
    }
    Ok(names)
}

fn name_of(plugin: &Box<dyn Plugin>) -> Name
    ensures { result ≡ (own_sheet plugin.now).name }
{
    plugin.sheet().name
}

/// The priorities of the plugins that run, in their order.
fn priorities_of(alloc: Global, arrangement: &Arrangement) -> Result<Vec<u32>, NoMemory>
    ensures { IfOk result (λ priorities. priorities.items ≡ priorities_of arrangement.now) }
{
    let priorities = arrangement.priority.items();
    Ok(
        arrangement
            .order
            .items()
            .iter()
            .filter(|plugin| is_enabled(arrangement, **plugin))
            .map(|plugin| number_at(priorities, *plugin as usize))
            .collect(alloc)?,
    )
}

fn is_enabled(arrangement: &Arrangement, plugin: u32) -> bool
    ensures { result ≡ slice_index_or arrangement.now.enabled plugin false }
{
    arrangement
        .enabled
        .items()
        .get(plugin as usize)
        .copied()
        .unwrap_or(false)
}

/// The number at a place, 0 where there is none.
fn number_at(numbers: &[u32], at: usize) -> u32
    ensures { result ≡ slice_index numbers.now at }
{
    numbers.get(at).copied().unwrap_or(0)
}
