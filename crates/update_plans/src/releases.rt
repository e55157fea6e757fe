//! The releases of the catalogue by their places.
ghost use Rattle.std.specs.Prelude.{◌≡◌, find, option_map, option_and_then, option_copied, slice_get};
ghost use Rattle.release_catalogue.specs.Lookup.{all_releases};
ghost use Rattle.update_log.specs.Verdicts.{is_release};

use fw_facts::{Component, Release};
use release_catalogue::ReleaseRef;
use update_log::Facts;
use version_formats::Version;

/// The version of the release at a place of the catalogue.
pub fn version_at(facts: &Facts, at: ReleaseRef) -> Option<&Version>
    ensures { option_copied result ≡ option_map (λ chosen. chosen.release.version) (find (λ chosen. is_release chosen.at at) (all_releases facts.now.catalogue)) }
{
    match release_at(facts, at) {
        Some(release) => Some(&release.version),
        None => None,
    }
}

/// The component of a release, where it is in the catalogue.
pub fn component_of(facts: &Facts, at: ReleaseRef) -> Option<&Component>
    ensures { option_copied result ≡ slice_get facts.now.catalogue at.component }
{
    facts.catalogue.components().get(at.component as usize)
}

pub fn release_of(component: &Component, at: ReleaseRef) -> Option<&Release>
    ensures { option_copied result ≡ slice_get component.now.releases at.release }
{
    component.releases.items().get(at.release as usize)
}

/// The release at a place of the catalogue.
pub fn release_at(facts: &Facts, at: ReleaseRef) -> Option<&Release>
    ensures { option_copied result ≡ option_and_then (λ component. slice_get component.releases at.release) (slice_get facts.now.catalogue at.component) }
{
    release_of(component_of(facts, at)?, at)
}
