//! Merging.
ghost use Rattle.std.specs.Prelude.{◌≡◌, ◌≤◌, All, None, length};
ghost use Rattle.std.specs.List.{list_any};
ghost use Rattle.std.specs.Str.{bytes_eq};
ghost use Rattle.release_catalogue.specs.Components.{releases_in};
ghost use Rattle.remote_set.specs.Answers.{Answers, IsCatalogueOf};
ghost use Rattle.remote_set.specs.Merged.{first_repeated};

use crate::arranged::{arranged, joined};
use crate::index::index_of;
use crate::parts::{count_releases, parts_of};
use crate::remote::Remote;
use fw_base::{Name, NoMemory};
use fw_facts::Component;
use release_catalogue::{Catalogue, CatalogueFault};
use std::alloc::Global;
use thiserror::Error;

/// What comes of merging.
#[derive(Drop)]
pub struct Merged {
    pub catalogue: Catalogue,
    /// How many releases of each remote stay, in the order handed in.
    pub kept: Vec<u32>,
}

/// Why remotes can't be merged.
#[derive(Clone, Copy, Debug, Error)]
pub enum MergeFault {
    /// The first name that a remote before it has too.
    #[error("two remotes have one name")]
    Duplicate { name: Name },
    /// What would be merged is past the limits of a catalogue.
    #[error("{components} components with {releases} releases are too many")]
    TooMany { components: u32, releases: u32 },
    /// No memory was to be had.
    #[error("no memory")]
    NoMemory,
}

impl From<NoMemory> for MergeFault {
    ghost use Rattle.std.specs.Prelude.{◌≡◌};
    ghost use Rattle.remote_set.specs.declared.merging.MergeFault.TheVariants.{NoMemory as OutOfMemory};

    ghost from_gives = { λ _ fault. fault ≡ OutOfMemory };

    fn from(_refused: NoMemory) -> MergeFault {
        MergeFault::NoMemory
    }
}

/// Merges remotes into one catalogue, which has the components of the enabled ones by order and then by
/// place. A release stays unless a component of the same ID, in an enabled remote that comes before, has a
/// release of an equal version. The faults stand in their order: the first that holds is answered.
pub fn merge(alloc: Global, remotes: Vec<Remote>) -> Result<Merged, MergeFault>
    requires { length remotes.items ≤ 17 }
    ensures { Answers result remotes.items }
{
    match first_repeated(remotes.as_slice()) {
        Some(name) => Err(MergeFault::Duplicate { name }),
        None => merge_named(alloc, remotes),
    }
}

/// Merges remotes of different names.
fn merge_named(alloc: Global, remotes: Vec<Remote>) -> Result<Merged, MergeFault>
    requires few { length remotes.items ≤ 17 }
    requires named { first_repeated remotes.items ≡ None }
    ensures { Answers result remotes.items }
{
    let index = index_of(alloc, remotes.as_slice())?;
    let left = parts_of(alloc, &index, remotes)?;
    let components = joined(alloc, arranged(alloc, left.parts)?)?;
    let catalogue = catalogue_of(alloc, components)?;
    Ok(Merged {
        catalogue,
        kept: left.kept,
    })
}

/// The catalogue of what was merged, or that it is past the limits.
fn catalogue_of(alloc: Global, components: Vec<Component>) -> Result<Catalogue, MergeFault>
    requires few { length components.items ≤ 69632 }
    requires few_releases { releases_in components.items ≤ 340000 }
    requires few_requirements { All (λ c. length c.requirements ≤ 64) components.items }
    ensures { IsCatalogueOf result components.items }
{
    let found = components.len() as u32;
    let releases = count_releases(components.as_slice());
    match Catalogue::from_components(alloc, components) {
        Ok(catalogue) => Ok(catalogue),
        Err(CatalogueFault::At { .. }) => Err(MergeFault::TooMany {
            components: found,
            releases,
        }),
        Err(CatalogueFault::NoMemory) => Err(MergeFault::NoMemory),
    }
}

/// The name of the first remote that has the name of one before it.
fn first_repeated(remotes: &[Remote]) -> Option<Name>
    ensures { result ≡ first_repeated remotes.now }
{
    for (at, remote) in remotes.iter().enumerate() {
        if has_name(&remotes[..at], &remote.name) {
            return Some(remote.name);
        }
    }
    None
}

fn has_name(remotes: &[Remote], name: &Name) -> bool
    ensures { result ≡ list_any (λ remote. bytes_eq remote.name name.now) remotes.now }
{
    remotes.iter().any(|remote| remote.name == *name)
}
