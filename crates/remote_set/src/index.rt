//! Which remote is the first that offers a release.
ghost use Rattle.std.specs.Prelude.{◌≡◌, ◌≤◌, ◌||◌, ◌&&◌, ℕ, List, false, length, IfOk, OnOk};
ghost use Rattle.std.specs.BTreeMap.{is_at};
ghost use Rattle.std.specs.List.{list_any};
ghost use Rattle.std.specs.Map.{lookup};
ghost use Rattle.std.specs.Option.{option_map_or};
ghost use Rattle.std.specs.Str.{bytes_eq};
ghost use Rattle.version_formats.specs.VersionOrder.{same_version};
ghost use Rattle.remote_set.specs.declared.rank.Rank.{Rank};
ghost use Rattle.remote_set.specs.Indexes.{is_offered_before};
ghost use Rattle.remote_set.specs.Keys.{key_cmp};
ghost use Rattle.remote_set.specs.Merged.{comes_before, is_hidden, offers};

use crate::key::ReleaseKey;
use crate::rank::Rank;
use crate::remote::Remote;
use fw_base::{Name, NoMemory};
use fw_facts::{Component, Release};
use std::alloc::Global;
use std::collections::BTreeMap;
use version_formats::Version;

/// The rank of the first enabled remote that offers a release.
pub type Index = BTreeMap<ReleaseKey, Rank>;

/// The index of what the enabled remotes offer.
pub fn index_of(alloc: Global, remotes: &[Remote]) -> Result<Index, NoMemory>
    requires { length remotes.now ≤ 17 }
    ensures { IfOk result (λ index. (rank : Rank) (id version : List ℕ) → is_offered_before index.entries rank id version ≡ is_hidden remotes.now rank id version) }
{
    let mut index = BTreeMap::new(alloc);
    for (place, remote) in remotes.iter().enumerate() {
        note_remote(&mut index, remote, place as u32)?;
    }
    Ok(index)
}

/// Notes what the remote at a place offers, where it is enabled.
fn note_remote(index: &mut Index, remote: &Remote, place: u32) -> Result<(), NoMemory>
    ensures { OnOk result ((rank : Rank) (id version : List ℕ) → is_offered_before index.new.entries rank id version
        ≡ (is_offered_before index.old.entries rank id version
        || (remote.now.enabled && (comes_before (record { order = remote.now.order; place = place }) rank && offers id version remote.now.catalogue)))) }
{
    if !remote.enabled {
        return Ok(());
    }
    let own = Rank {
        order: remote.order,
        place,
    };
    note_components(index, remote.catalogue.components(), own)?;
    Ok(())
}

/// Notes that a remote of this rank offers the releases of some components.
fn note_components(index: &mut Index, components: &[Component], own: Rank) -> Result<(), NoMemory>
    ensures { OnOk result ((rank : Rank) (id version : List ℕ) → is_offered_before index.new.entries rank id version
        ≡ (is_offered_before index.old.entries rank id version || (comes_before own rank && offers id version components.now))) }
{
    for component in components {
        note_releases(index, &component.id, component.releases.items(), own)?;
    }
    Ok(())
}

/// Notes the same of the releases of a component.
fn note_releases(
    index: &mut Index,
    of: &Name,
    releases: &[Release],
    own: Rank,
) -> Result<(), NoMemory>
    ensures { OnOk result ((rank : Rank) (id version : List ℕ) → is_offered_before index.new.entries rank id version
        ≡ (is_offered_before index.old.entries rank id version
        || (comes_before own rank && (bytes_eq of.now id && list_any (λ release. same_version release.version version) releases.now)))) }
{
    for release in releases {
        note(index, of, &release.version, own)?;
    }
    Ok(())
}

/// Notes the same of one release.
fn note(index: &mut Index, of: &Name, shown: &Version, own: Rank) -> Result<(), NoMemory>
    ensures { OnOk result ((rank : Rank) (id version : List ℕ) → is_offered_before index.new.entries rank id version
        ≡ (is_offered_before index.old.entries rank id version
        || (comes_before own rank && (bytes_eq of.now id && same_version shown.now version)))) }
{
    let key = ReleaseKey {
        id: *of,
        version: *shown,
    };
    let first = first_of(index, &key, own);
    index.insert(key, first)?;
    Ok(())
}

/// The rank that comes first of this one and the one that stands under the release.
fn first_of(index: &Index, key: &ReleaseKey, own: Rank) -> Rank
    ensures { (rank : Rank) → comes_before result rank
        ≡ (option_map_or (λ first. comes_before first rank) (lookup (is_at (key_cmp key.now)) index.now.entries) false || comes_before own rank) }
{
    match index.get(key) {
        Some(other) => other.first(own),
        None => own,
    }
}

/// Whether a remote that comes before this rank offers the release too.
pub fn is_offered_before(index: &Index, rank: Rank, id: &Name, version: &Version) -> bool
    ensures { result ≡ is_offered_before index.now.entries rank id.now version.now }
{
    let key = ReleaseKey {
        id: *id,
        version: *version,
    };
    match index.get(&key) {
        Some(first) => first.comes_before(rank),
        None => false,
    }
}
