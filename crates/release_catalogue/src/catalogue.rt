//! The catalogue.
ghost use Rattle.std.specs.Prelude.{◌≡◌, ◌+◌, ◌≤◌, ◌<◌, All, IfOk, Some, length, slice_get};
ghost use Rattle.json_values.specs.Trees.{view};
ghost use Rattle.release_catalogue.specs.Reading.{Gives};
ghost use Rattle.release_catalogue.specs.Faults.{Tells};
ghost use Rattle.release_catalogue.specs.Components.{components_at, components_behind, releases_in, within_limits};
ghost use Rattle.release_catalogue.specs.Places.{chosen_place, matching_places};

use crate::component::{
    COMPONENTS_MAX, Taken, components, components_behind, has_too_many_releases, section_spot,
};
use crate::fault::CatalogueFault;
use crate::guid_index::{GuidIndex, index_of};
use crate::lookup::{find_in, releases_in_for};
use crate::reason::Reason;
use crate::reference::ReleaseRef;
use crate::spot::{Level, ReadStop, Spot, fault_at};
use fw_base::{Listed, NoMemory};
use fw_facts::Component;
use guid_ids::Guid;
use json_values::Value;
use std::alloc::Global;
use std::marker::Model;
use version_formats::Version;

/// A list of components, in the order of the document: at most 4,096, with at most 20,000 releases in
/// all.
#[derive(Drop)]
pub struct Catalogue {
    components: Listed<Component>,
    index: GuidIndex,
}

impl Model for Catalogue {
    ghost use Rattle.std.specs.Prelude.{List};
    ghost use Rattle.fw_facts.specs.declared.release.Component.{Component};

    ghost Value = { List Component };

    ghost use Rattle.release_catalogue.specs.Places.{IsKept};

    ghost view = { λ catalogue. catalogue.components };

    ghost invariant = { λ catalogue. IsKept catalogue.components catalogue.index.entries };
}

impl Catalogue {
    /// The catalogue that a JSON value states: the list of its components. The fault is the first in
    /// the order of the document's tables, at its place.
    pub fn from_value(alloc: Global, value: &Value) -> Result<Catalogue, CatalogueFault>
        ensures { Tells (λ catalogue. catalogue) result (components_at (view value.now)) }
    {
        match Catalogue::read(alloc, value) {
            Ok(catalogue) => Ok(catalogue),
            Err(stop) => Err(CatalogueFault::from_stop(stop)),
        }
    }

    /// The same, with the fault as the readers of fields keep it: its spot in the value, from which the place is
    /// told.
    pub fn read(alloc: Global, value: &Value) -> Result<Catalogue, ReadStop>
        ensures { Gives (λ catalogue. catalogue) result (components_at (view value.now)) }
    {
        let components = components(alloc, value)?;
        Ok(Catalogue::of(alloc, components)?)
    }

    /// The catalogue of a list of components that have an index of this level, where some were taken before.
    pub fn read_behind(
        alloc: Global,
        taken: Taken,
        level: Level,
        value: &Value,
        spot: Spot,
        base: Spot,
    ) -> Result<Catalogue, ReadStop>
        requires few_before { taken.components ≤ 4096 }
        requires few_releases_before { taken.releases ≤ 20000 }
        ensures read { Gives (λ catalogue. catalogue) result (components_behind taken level spot base (view value.now)) }
        ensures few { IfOk result (λ catalogue. taken.components + length catalogue ≤ 4096) }
        ensures few_releases { IfOk result (λ catalogue. taken.releases + releases_in catalogue ≤ 20000) }
    {
        let components = components_behind(alloc, taken, level, value, spot, base)?;
        Ok(Catalogue::of(alloc, components)?)
    }

    /// The catalogue of a list of components: at most 4,096, with at most 20,000 releases in all, and at
    /// most 64 requirements in each.
    pub fn of(alloc: Global, components: Vec<Component>) -> Result<Catalogue, NoMemory>
        requires few { length components.items ≤ 4096 }
        requires few_releases { releases_in components.items ≤ 20000 }
        requires few_requirements { All (λ c. length c.requirements ≤ 64) components.items }
        ensures { IfOk result (λ catalogue. catalogue ≡ components.items) }
    {
        let index = index_of(alloc, components.as_slice())?;
        Ok(Catalogue {
            components: Listed::of(components),
            index,
        })
    }

    /// The catalogue of a list of components, of which each has at most 64 requirements. Past the limits on
    /// components and releases the fault is that of a section with too many.
    pub fn from_components(
        alloc: Global,
        components: Vec<Component>,
    ) -> Result<Catalogue, CatalogueFault>
        requires { All (λ c. length c.requirements ≤ 64) components.items }
        ensures { Tells (λ catalogue. catalogue) result (within_limits components.items) }
    {
        if COMPONENTS_MAX < components.len() || has_too_many_releases(components.as_slice()) {
            let stop = fault_at(section_spot(), Reason::TooMany);
            return Err(CatalogueFault::from_stop(stop));
        }
        match Catalogue::of(alloc, components) {
            Ok(made) => Ok(made),
            Err(NoMemory) => Err(CatalogueFault::NoMemory),
        }
    }

    /// The components, in order. Takes no memory.
    pub fn into_components(self) -> Vec<Component>
        ensures { result.items ≡ self }
    {
        let Catalogue { components, index } = self;
        drop(index);
        components.into_items()
    }

    /// The limits that every catalogue keeps. Does nothing.
    pub fn within_limits(&self)
        ensures few { length self.now ≤ 4096 }
        ensures few_releases { releases_in self.now ≤ 20000 }
        ensures few_requirements { All (λ c. length c.requirements ≤ 64) self.now }
    {
        let _ = &self.components;
    }

    /// The components, in order.
    pub fn components(&self) -> &[Component]
        ensures { result.now ≡ self.now }
    {
        self.components.items()
    }

    /// The component at a place, which must be there.
    pub fn component(&self, at: u32) -> &Component
        requires { at < length self.now }
        ensures { slice_get self.now at ≡ Some result.now }
    {
        &self.components.items()[at as usize]
    }

    /// The first release in catalogue order whose component provides one of the GUIDs and whose version
    /// is equal.
    pub fn find(&self, guids: &[Guid], version: &Version) -> Option<ReleaseRef>
        ensures { result ≡ chosen_place self.now guids.now version.now }
    {
        find_in(self.components.items(), &self.index, guids, version)
    }

    /// All releases whose component provides one of the GUIDs, in catalogue order.
    pub fn releases_for(&self, alloc: Global, guids: &[Guid]) -> Result<Vec<ReleaseRef>, NoMemory>
        ensures { IfOk result (λ places. places.items ≡ matching_places self.now guids.now) }
    {
        releases_in_for(alloc, self.components.items(), &self.index, guids)
    }
}
