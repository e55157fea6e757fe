//! The device of a request, and the release chosen for it.
ghost use Rattle.std.specs.Prelude.{◌≡◌, ◌<◌, Some, IfSome, length, slice_get, option_map};
ghost use Rattle.std.specs.List.{list_any};
ghost use Rattle.std.specs.Str.{bytes_eq};
ghost use Rattle.release_catalogue.specs.Lookup.{provides};
ghost use Rattle.update_log.specs.Known.{target_at};
ghost use Rattle.request_verdicts.specs.Cases.{target_with};

use fw_facts::{Component, DeviceView, Release};
use guid_ids::Guid;
use release_catalogue::ReleaseRef;
use update_log::Facts;
use version_formats::Version;

/// The device of a request by its place in the list of devices, and the release chosen for it, with
/// its component.
#[derive(Drop)]
pub struct Target<'a> {
    pub place: usize,
    pub view: &'a DeviceView,
    pub at: ReleaseRef,
    pub component: &'a Component,
    pub release: &'a Release,
}

/// The target of a request of that version, for the device at a place.
pub fn target_at<'a>(
    facts: &'a Facts,
    views: &'a [DeviceView],
    version: &Version,
    place: usize,
) -> Option<Target<'a>>
    requires place { place < length views.now }
    ensures exact { option_map (λ t. target_with t.place t.view.now t.at t.component.now t.release.now) result ≡ target_at facts.now views.now version.now place }
    ensures place { IfSome result (λ t. (t.place ≡ place) × (slice_get views.now place ≡ Some t.view.now)) }
    ensures component { IfSome result (λ t. slice_get facts.now.catalogue t.at.component ≡ Some t.component.now) }
{
    let view = &views[place];
    match facts.catalogue.find(view.guids(), version) {
        None => None,
        Some(at) => {
            let component = facts.catalogue.component(at.component);
            let release = &component.releases.items()[at.release as usize];
            Some(Target {
                place,
                view,
                at,
                component,
                release,
            })
        }
    }
}

/// Whether the component provides one of the GUIDs.
pub fn provides(guids: &[Guid], component: &Component) -> bool
    ensures { result ≡ provides guids.now component.now }
{
    component
        .provides
        .items()
        .iter()
        .any(|own| has_guid(guids, own))
}

fn has_guid(guids: &[Guid], own: &Guid) -> bool
    ensures { result ≡ list_any (λ guid. bytes_eq own.now guid) guids.now }
{
    guids.iter().any(|guid| own == guid)
}
