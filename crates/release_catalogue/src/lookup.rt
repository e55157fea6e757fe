//! Looking up releases.
ghost use Rattle.std.specs.Prelude.{◌≡◌, ◌≤◌, ◌<◌, ◌^◌, ◌++◌, IfOk, IfSome, OnOk, length, map, true, false, slice_index_or, ℕ};
ghost use Rattle.std.specs.List.{enumerate_from};
ghost use Rattle.version_formats.specs.VersionOrder.{same_version};
ghost use Rattle.release_catalogue.specs.Components.{releases_in};
ghost use Rattle.release_catalogue.specs.Places.{IsIndexOf, chosen_place, first_equal, matching_places, provides_at};

use crate::component::COMPONENTS_MAX;
use crate::guid_index::{GuidIndex, marks_of};
use crate::reference::ReleaseRef;
use fw_base::NoMemory;
use fw_facts::{Component, Release};
use guid_ids::Guid;
use std::alloc::Global;
use std::cmp::Ordering;
use version_formats::{Version, compare};

/// The first release whose component provides one of the GUIDs and whose version is equal.
pub fn find_in(
    components: &[Component],
    index: &GuidIndex,
    guids: &[Guid],
    version: &Version,
) -> Option<ReleaseRef>
    requires few { length components.now ≤ 4096 }
    requires few_releases { releases_in components.now ≤ 20000 }
    requires index { IsIndexOf index.now.entries components.now }
    ensures { result ≡ chosen_place components.now guids.now version.now }
{
    let marks = providers(components, index, guids);
    for (at, component) in components.iter().enumerate() {
        if marks[at] {
            match first_equal(component.releases.items(), version) {
                Some(release) => {
                    return Some(ReleaseRef {
                        component: at as u32,
                        release: release as u32,
                    });
                }
                None => {}
            }
        }
    }
    None
}

/// All releases whose component provides one of the GUIDs.
pub fn releases_in_for(
    alloc: Global,
    components: &[Component],
    index: &GuidIndex,
    guids: &[Guid],
) -> Result<Vec<ReleaseRef>, NoMemory>
    requires few { length components.now ≤ 4096 }
    requires few_releases { releases_in components.now ≤ 20000 }
    requires index { IsIndexOf index.now.entries components.now }
    ensures { IfOk result (λ places. places.items ≡ matching_places components.now guids.now) }
{
    let marks = providers(components, index, guids);
    let mut places = Vec::new(alloc);
    for (at, component) in components.iter().enumerate() {
        if marks[at] {
            push_all(&mut places, at as u32, component.releases.items())?;
        }
    }
    Ok(places)
}

/// Which components provide one of the GUIDs.
fn providers(components: &[Component], index: &GuidIndex, guids: &[Guid]) -> [bool; COMPONENTS_MAX]
    requires few { length components.now ≤ 4096 }
    requires index { IsIndexOf index.now.entries components.now }
    ensures { (place : ℕ) → slice_index_or result place false ≡ provides_at guids.now place components.now }
{
    marks_of(index, guids)
}

/// The place of the first release whose version is equal.
fn first_equal(releases: &[Release], version: &Version) -> Option<usize>
    ensures first { result ≡ first_equal version.now 0 releases.now }
    ensures within { IfSome result (λ place. place < length releases.now) }
{
    for (place, release) in releases.iter().enumerate() {
        if is_equal(&release.version, version) {
            return Some(place);
        }
    }
    None
}

fn is_equal(left: &Version, right: &Version) -> bool
    ensures { result ≡ same_version left.now right.now }
{
    match compare(left, right) {
        Ordering::Equal => true,
        Ordering::Less | Ordering::Greater => false,
    }
}

/// Appends the places of a component's releases.
fn push_all(
    places: &mut Vec<ReleaseRef>,
    component: u32,
    releases: &[Release],
) -> Result<(), NoMemory>
    requires { length releases.now ≤ 20000 }
    ensures { OnOk result (places.new.items ≡ places.old.items ++ map (λ entry. record { component = component; release = entry.0 }) (enumerate_from 0 releases.now)) }
{
    for (release, _) in releases.iter().enumerate() {
        places.push(ReleaseRef {
            component,
            release: release as u32,
        })?;
    }
    Ok(())
}
