//! What a site has of its remotes.
ghost use Rattle.std.specs.Prelude.{◌≡◌, ◌≤◌, ◌<◌, ◌^◌, IfOk, None, length, map};
ghost use Rattle.remote_set.specs.Merged.{first_repeated, kept, merged};
ghost use Rattle.site_remotes.specs.Remotes.{IsWithin};
ghost use Rattle.site_remotes.specs.Told.{site_remotes, stated, with_kept};

use crate::told::SiteRemote;
use fw_base::{Listed, NoMemory};
use release_catalogue::Catalogue;
use remote_set::{MergeFault, Merged, Remote, count_releases, merge};
use std::alloc::Global;

/// What a site has of its remotes.
#[derive(Drop)]
pub struct Gathered {
    /// The merged catalogue.
    pub catalogue: Catalogue,
    /// The remotes, in the order of the document.
    pub remotes: Listed<SiteRemote>,
}

/// Merges the remotes of a document, and tells how many releases of each stay.
pub fn gather(alloc: Global, remotes: Vec<Remote>) -> Result<Gathered, NoMemory>
    requires few { length remotes.items ≤ 17 }
    requires within { IsWithin remotes.items }
    requires named { first_repeated remotes.items ≡ None }
    ensures catalogue { IfOk result (λ gathered. gathered.catalogue ≡ merged remotes.items) }
    ensures remotes { IfOk result (λ gathered. gathered.remotes ≡ site_remotes remotes.items) }
{
    let stated = stated(alloc, remotes.as_slice())?;
    let merged = merged(alloc, remotes)?;
    let told = with_kept(alloc, stated.as_slice(), merged.kept.as_slice())?;
    Ok(Gathered {
        catalogue: merged.catalogue,
        remotes: Listed::of(told),
    })
}

/// Merges remotes, of which no two have one name, and which have no more than a document may.
fn merged(alloc: Global, remotes: Vec<Remote>) -> Result<Merged, NoMemory>
    requires few { length remotes.items ≤ 17 }
    requires within { IsWithin remotes.items }
    requires named { first_repeated remotes.items ≡ None }
    ensures catalogue { IfOk result (λ all. all.catalogue ≡ merged remotes.items) }
    ensures kept { IfOk result (λ all. all.kept.items ≡ kept remotes.items) }
{
    match merge(alloc, remotes) {
        Ok(all) => Ok(all),
        Err(MergeFault::NoMemory) => Err(NoMemory),
        Err(MergeFault::Duplicate { .. }) => unreachable!(),
        Err(MergeFault::TooMany { .. }) => unreachable!(),
    }
}

/// The remotes as they are stated, of which no release stays yet.
fn stated(alloc: Global, remotes: &[Remote]) -> Result<Vec<SiteRemote>, NoMemory>
    ensures { IfOk result (λ v. v.items ≡ map (stated 0) remotes.now) }
{
    let mut stated = Vec::new(alloc);
    for remote in remotes {
        stated.push(as_stated(remote))?;
    }
    Ok(stated)
}

fn as_stated(remote: &Remote) -> SiteRemote
    ensures { result ≡ stated 0 remote.now }
{
    remote.catalogue.within_limits();
    SiteRemote {
        name: remote.name,
        order: remote.order,
        enabled: remote.enabled,
        components: remote.catalogue.components().len() as u32,
        releases: count_releases(remote.catalogue.components()),
        kept: 0,
    }
}

/// The same with the numbers of releases that stay.
fn with_kept(
    alloc: Global,
    stated: &[SiteRemote],
    kept: &[u32],
) -> Result<Vec<SiteRemote>, NoMemory>
    requires { length kept.now ≡ length stated.now }
    ensures { IfOk result (λ v. v.items ≡ with_kept stated.now kept.now) }
{
    let mut told = Vec::new(alloc);
    for (i, remote) in stated.iter().enumerate() {
        told.push(SiteRemote {
            kept: kept[i],
            ..*remote
        })?;
    }
    Ok(told)
}
