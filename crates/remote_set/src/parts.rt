//! What is left of each remote.
ghost use Rattle.std.specs.Prelude.{◌≡◌, ◌≤◌, ◌<◌, ◌^◌, ℕ, List, All, IfOk, filter, if◌then◌else◌, length, map, not};
ghost use Rattle.release_catalogue.specs.Components.{releases_in};
ghost use Rattle.remote_set.specs.declared.rank.Rank.{Rank};
ghost use Rattle.remote_set.specs.Indexes.{is_offered_before};
ghost use Rattle.remote_set.specs.Merged.{is_hidden, kept, placed_from, without};
ghost use Rattle.remote_set.specs.Pieces.{piece_by, piece_of};

use crate::index::{Index, is_offered_before};
use crate::part::Part;
use crate::rank::Rank;
use crate::remote::Remote;
use fw_base::{Listed, Name, NoMemory};
use fw_facts::{Component, Release};
use std::alloc::Global;

/// What is left of some remotes, in the order handed in.
#[derive(Drop)]
pub struct Parts {
    pub parts: Vec<Part>,
    /// How many releases stay of each: none of one that isn't enabled.
    pub kept: Vec<u32>,
}

/// What is left of some remotes, by the index of what they offer.
#[tactic(auto, unfolding(crate::specs::Merged::kept))]
pub fn parts_of(alloc: Global, index: &Index, remotes: Vec<Remote>) -> Result<Parts, NoMemory>
    requires few { length remotes.items ≤ 17 }
    requires index { (rank : Rank) (id version : List ℕ) → is_offered_before index.now.entries rank id version ≡ is_hidden remotes.items rank id version }
    ensures parts { IfOk result (λ all. all.parts.items ≡ map (piece_of remotes.items) (placed_from 0 remotes.items)) }
    ensures kept { IfOk result (λ all. all.kept.items ≡ kept remotes.items) }
    ensures as_many { IfOk result (λ all. length all.parts.items ≡ length remotes.items) }
{
    let mut parts = Vec::new(alloc);
    let mut kept = Vec::new(alloc);
    for remote in remotes {
        let part = part_of(alloc, index, remote, parts.len() as u32)?;
        kept.push(kept_of(&part))?;
        parts.push(part)?;
    }
    Ok(Parts { parts, kept })
}

fn part_of(alloc: Global, index: &Index, remote: Remote, place: u32) -> Result<Part, NoMemory>
    ensures { IfOk result (λ part. part ≡ piece_by index.now.entries (record { place = place; remote = remote })) }
{
    let rank = Rank {
        order: remote.order,
        place,
    };
    let Remote {
        name: _,
        order: _,
        enabled,
        catalogue,
    } = remote;
    catalogue.within_limits();
    let components = left_of(alloc, index, rank, catalogue.into_components())?;
    Ok(Part::of(rank.order, enabled, components))
}

/// The components, each with the releases that stay.
fn left_of(
    alloc: Global,
    index: &Index,
    rank: Rank,
    components: Vec<Component>,
) -> Result<Vec<Component>, NoMemory>
    ensures { IfOk result (λ left. left.items ≡ map (without (is_offered_before index.now.entries rank)) components.items) }
{
    let mut left = Vec::new(alloc);
    for component in components {
        left.push(without_hidden(index, rank, component))?;
    }
    Ok(left)
}

fn without_hidden(index: &Index, rank: Rank, component: Component) -> Component
    ensures { result ≡ without (is_offered_before index.now.entries rank) component }
{
    let Component {
        id,
        name,
        provides,
        requirements,
        format,
        protocol,
        releases,
    } = component;
    let staying = staying(index, rank, &id, releases.into_items());
    Component {
        id,
        name,
        provides,
        requirements,
        format,
        protocol,
        releases: Listed::of(staying),
    }
}

fn staying(index: &Index, rank: Rank, id: &Name, releases: Vec<Release>) -> Vec<Release>
    ensures { result.items ≡ filter (λ release. not (is_offered_before index.now.entries rank id.now release.version)) releases.items }
{
    let mut releases = releases;
    releases.retain(|release| !is_offered_before(index, rank, id, &release.version));
    releases
}

fn kept_of(part: &Part) -> u32
    ensures { result ≡ (if part.now.enabled then releases_in part.now.components else 0) }
{
    if part.is_enabled() {
        count_releases(part.components())
    } else {
        0
    }
}

/// How many releases some components have.
pub fn count_releases(components: &[Component]) -> u32
    requires { releases_in components.now < 2 ^ 32 }
    ensures { result ≡ releases_in components.now }
{
    let mut count = 0;
    for component in components {
        count += component.releases.items().len() as u32;
    }
    count
}
