//! Components in the document.
ghost use Rattle.std.specs.Prelude.{◌≡◌, ◌+◌, ◌<◌, ◌≤◌, ◌^◌, [], All, IfOk, length, map, nat_lt};
ghost use Rattle.json_values.specs.Trees.{view, items_view};
ghost use Rattle.release_catalogue.specs.Reading.{Gives, each, entry_spot, optional, the};
ghost use Rattle.release_catalogue.specs.Kinds.{guid_at, list_at, plain_list_at};
ghost use Rattle.release_catalogue.specs.Requirements.{requirement_at};
ghost use Rattle.release_catalogue.specs.Components.{below, component_at, components_at, components_behind, component_spot, custom_at, no_custom, none_taken, releases_at, releases_in, section_spot};

use crate::defaults::{line_or_empty, name_or_none_here};
use crate::entries::{count, list, list_needed};
use crate::kinds::{items, name, object};
use crate::members::{member, needed};
use crate::reason::Reason;
use crate::release::{RELEASES_MAX, releases};
use crate::spot::{Level, ReadStop, Spot, fault_at};
use crate::subject::GUIDS_MAX;
use crate::word::Word;
use fw_base::{Listed, Name};
use fw_facts::{Component, Release, Requirement};
use guid_ids::Guid;
use json_values::Value;
use std::alloc::Global;

/// The most components of a catalogue.
pub const COMPONENTS_MAX: usize = 4_096;

/// The most requirements of a component.
pub const REQUIREMENTS_MAX: usize = 64;

/// What is kept of the custom values of a component.
#[derive(Clone, Copy)]
pub struct Custom {
    pub format: Option<Name>,
    pub protocol: Option<Name>,
}

/// A component, where `taken` releases were taken before. Its requirements and its releases have an index of
/// this level.
#[tactic(auto, unfolding(crate::specs::Components::component_at))]
pub fn component(
    alloc: Global,
    level: Level,
    taken: usize,
    value: &Value,
    spot: Spot,
) -> Result<Component, ReadStop>
    requires { taken ≤ 20000 }
    ensures read { Gives (λ c. c) result (component_at level taken spot (view value.now)) }
    ensures within { IfOk result (λ c. taken + length c.releases ≤ 20000) }
    ensures few { IfOk result (λ c. length c.requirements ≤ 64) }
{
    object(value, spot)?;
    let id = name(needed(value, spot, Word::Id)?, spot.field(Word::Id))?;
    let name = line_or_empty(value, spot, Word::Name)?;
    let provides = provides(alloc, value, spot)?;
    let requirements = requirements(alloc, level, value, spot)?;
    let custom = custom_or_none(value, spot)?;
    let releases = releases_of(alloc, level, taken, value, spot)?;
    Ok(Component {
        id,
        name,
        provides,
        requirements,
        format: custom.format,
        protocol: custom.protocol,
        releases,
    })
}

fn provides(alloc: Global, value: &Value, spot: Spot) -> Result<Listed<Guid>, ReadStop>
    ensures { Gives (λ l. l) result (the spot Word.Provides (plain_list_at 64 guid_at) (view value.now)) }
{
    let guids = list_needed(alloc, value, spot, Word::Provides, GUIDS_MAX)?;
    Ok(Listed::of(guids))
}

fn requirements(
    alloc: Global,
    level: Level,
    value: &Value,
    spot: Spot,
) -> Result<Listed<Requirement>, ReadStop>
    ensures read { Gives (λ l. l) result (optional spot Word.Requires (λ at. list_at 64 (λ _. requirement_at) at spot level) [] (view value.now)) }
    ensures few { IfOk result (λ l. length l ≤ 64) }
{
    match member(value, Word::Requires) {
        None => Ok(Listed::of(Vec::new(alloc))),
        Some(found) => {
            let here = spot.field(Word::Requires);
            let read = list(alloc, found, here, spot, level, REQUIREMENTS_MAX)?;
            Ok(Listed::of(read))
        }
    }
}

fn custom_or_none(value: &Value, spot: Spot) -> Result<Custom, ReadStop>
    ensures { Gives (λ c. c) result (optional spot Word.Custom custom_at no_custom (view value.now)) }
{
    match member(value, Word::Custom) {
        None => Ok(Custom {
            format: None,
            protocol: None,
        }),
        Some(found) => read_custom(found, spot.field(Word::Custom)),
    }
}

#[tactic(auto, unfolding(crate::specs::Components::custom_at))]
fn read_custom(value: &Value, spot: Spot) -> Result<Custom, ReadStop>
    ensures { Gives (λ c. c) result (custom_at spot (view value.now)) }
{
    object(value, spot)?;
    let format = name_or_none_here(value, spot, Word::VersionFormatKey)?;
    let protocol = name_or_none_here(value, spot, Word::UpdateProtocolKey)?;
    Ok(Custom { format, protocol })
}

fn releases_of(
    alloc: Global,
    level: Level,
    taken: usize,
    value: &Value,
    spot: Spot,
) -> Result<Listed<Release>, ReadStop>
    requires { taken ≤ 20000 }
    ensures read { Gives (λ l. l) result (the spot Word.Releases (releases_at level taken spot) (view value.now)) }
    ensures within { IfOk result (λ l. taken + length l ≤ 20000) }
{
    let found = needed(value, spot, Word::Releases)?;
    let read = releases(alloc, found, taken, level, spot, spot.field(Word::Releases))?;
    Ok(Listed::of(read))
}

/// How many components and releases the document has before some.
#[derive(Clone, Copy, Debug)]
pub struct Taken {
    pub components: usize,
    pub releases: usize,
}

impl Taken {
    /// None.
    pub fn none() -> Taken
        ensures { result ≡ none_taken }
    {
        Taken {
            components: 0,
            releases: 0,
        }
    }
}

/// The components of the section: a list of up to 4,096, with at most 20,000 releases in all.
pub fn components(alloc: Global, value: &Value) -> Result<Vec<Component>, ReadStop>
    ensures read { Gives (λ v. v.items) result (components_at (view value.now)) }
    ensures few { IfOk result (λ v. length v.items ≤ 4096) }
    ensures few_releases { IfOk result (λ v. releases_in v.items ≤ 20000) }
    ensures few_requirements { IfOk result (λ v. All (λ c. length c.requirements ≤ 64) v.items) }
{
    components_behind(
        alloc,
        Taken::none(),
        Level::First,
        value,
        section_spot(),
        component_spot(),
    )
}

/// The components of a list that have an index of this level, where some were taken before: with those at
/// most 4,096, with at most 20,000 releases in all.
pub fn components_behind(
    alloc: Global,
    taken: Taken,
    level: Level,
    value: &Value,
    spot: Spot,
    base: Spot,
) -> Result<Vec<Component>, ReadStop>
    requires few_before { taken.components ≤ 4096 }
    requires few_releases_before { taken.releases ≤ 20000 }
    ensures read { Gives (λ v. v.items) result (components_behind taken level spot base (view value.now)) }
    ensures few { IfOk result (λ v. taken.components + length v.items ≤ 4096) }
    ensures few_releases { IfOk result (λ v. taken.releases + releases_in v.items ≤ 20000) }
    ensures few_requirements { IfOk result (λ v. All (λ c. length c.requirements ≤ 64) v.items) }
{
    let values = items(value, spot)?;
    if COMPONENTS_MAX - taken.components < count(values) {
        return Err(fault_at(spot, Reason::TooMany));
    }
    each_component(alloc, taken.releases, level, values, base)
}

/// The place of the section `components`.
pub fn section_spot() -> Spot
    ensures { result ≡ section_spot }
{
    let index = [0, 0, 0];
    Spot {
        section: Word::Document,
        index,
        field: Word::Components,
    }
}

/// Whether components have more than 20,000 releases in all.
pub fn has_too_many_releases(components: &[Component]) -> bool
    ensures { result ≡ nat_lt 20000 (releases_in components.now) }
{
    let mut left = RELEASES_MAX;
    for component in components {
        let count = component.releases.items().len();
        if left < count {
            return true;
        }
        left -= count;
    }
    false
}

fn component_spot() -> Spot
    ensures { result ≡ component_spot }
{
    let index = [0, 0, 0];
    Spot {
        section: Word::Components,
        index,
        field: Word::Entry,
    }
}

fn each_component(
    alloc: Global,
    taken: usize,
    level: Level,
    values: &[Value],
    base: Spot,
) -> Result<Vec<Component>, ReadStop>
    requires few { length values.now < 2 ^ 32 }
    requires few_before { taken ≤ 20000 }
    ensures read { Gives (λ v. v.items) result (each (λ earlier. component_at (below level) (taken + releases_in earlier)) (entry_spot base level) [] (items_view values.now)) }
    ensures as_many { IfOk result (λ v. length v.items ≡ length values.now) }
    ensures few_releases { IfOk result (λ v. taken + releases_in v.items ≤ 20000) }
    ensures few_requirements { IfOk result (λ v. All (λ c. length c.requirements ≤ 64) v.items) }
{
    let mut read = Vec::new(alloc);
    let mut so_far = taken;
    for (i, value) in values.iter().enumerate() {
        let spot = base.entry(level, i as u32);
        let component = component(alloc, level.below(), so_far, value, spot)?;
        so_far += component.releases.items().len();
        read.push(component)?;
    }
    Ok(read)
}
