//! The requirements of the component that is found for a device, a line each.
ghost use Rattle.std.specs.Prelude.{◌≡◌, ◌++◌, [], ◌∷◌, Some, OnOk, IsTrue, length, option_map, slice_get};
ghost use Rattle.std.specs.Option.{option_copied};
ghost use Rattle.fw_facts.specs.Views.{is_home};
ghost use Rattle.fw_facts.specs.declared.requirement.Requirement.{Requirement as Stated};
ghost use Rattle.release_catalogue.specs.Lookup.{chosen};
ghost use Rattle.requirements.specs.Requirements.{cause};
ghost use Rattle.update_log.specs.Verdicts.{features_for};
ghost use Rattle.command_outputs.specs.Explained.{lines_at, lines_for, requirement_lines};

use crate::explained_lines::put_requirement;
use core_state::CoreState;
use fw_base::Name;
use fw_facts::{Component, DeviceView, Requirement};
use guid_ids::Guid;
use release_catalogue::Catalogue;
use requirements::{UnmetCause, first_unmet};
use std::alloc::AllocError;
use update_log::{Facts, Request, is_home};
use version_formats::Version;

/// The lines for the device of a request.
pub fn put_lines(
    out: &mut Vec<u8>,
    facts: &Facts,
    state: &CoreState,
    request: &Request,
) -> Result<(), AllocError>
    ensures { OnOk result (out.new.items ≡ out.old.items ++ lines_for facts.now state.now.views request.now) }
{
    match state.resolve(&request.device) {
        Some(place) => match state.views().get(place) {
            Some(view) => put_lines_at(out, facts, state.views(), &request.version, place, view),
            None => Ok(()),
        },
        None => Ok(()),
    }
}

/// The lines for a device at a place of the list.
fn put_lines_at(
    out: &mut Vec<u8>,
    facts: &Facts,
    views: &[DeviceView],
    version: &Version,
    place: usize,
    view: &DeviceView,
) -> Result<(), AllocError>
    requires there { slice_get views.now place ≡ Some view.now }
    ensures { OnOk result (out.new.items ≡ out.old.items ++ lines_at facts.now views.now version.now view.now) }
{
    if !is_home(view.seen) {
        return Ok(());
    }
    match component_of(&facts.catalogue, view.guids(), version) {
        Some(component) => put_requirements(
            out,
            facts,
            views,
            place,
            view,
            component.requirements.items(),
        ),
        None => Ok(()),
    }
}

/// The component of the release of that version that is found for GUIDs.
fn component_of<'a>(
    catalogue: &'a Catalogue,
    guids: &[Guid],
    version: &Version,
) -> Option<&'a Component>
    ensures { option_copied result ≡ option_map (λ found. found.component) (chosen catalogue.now guids.now version.now) }
{
    match catalogue.find(guids, version) {
        Some(at) => Some(catalogue.component(at.component)),
        None => None,
    }
}

/// A line for each requirement of a list.
fn put_requirements(
    out: &mut Vec<u8>,
    facts: &Facts,
    views: &[DeviceView],
    place: usize,
    view: &DeviceView,
    requirements: &[Requirement],
) -> Result<(), AllocError>
    requires there { slice_get views.now place ≡ Some view.now }
    requires home { IsTrue (is_home view.now.seen) }
    ensures { OnOk result (out.new.items ≡ out.old.items ++ requirement_lines (cause facts.now.machine (features_for facts.now 1) views.now view.now) 0 requirements.now) }
{
    let features = features(facts);
    for index in 0..requirements.len() {
        let (_, rest) = requirements.split_at(index);
        let (one, _) = rest.split_at(1);
        let unmet = cause_of_one(facts, features, views, place, view, one);
        put_requirement(out, index, unmet)?;
    }
    Ok(())
}

/// Why the one requirement of a list doesn't hold.
fn cause_of_one(
    facts: &Facts,
    features: &[Name],
    views: &[DeviceView],
    place: usize,
    view: &DeviceView,
    one: &[Requirement],
) -> Option<UnmetCause>
    requires there { slice_get views.now place ≡ Some view.now }
    requires home { IsTrue (is_home view.now.seen) }
    requires one { length one.now ≡ 1 }
    ensures { (requirement : Stated) → one.now ≡ requirement ∷ [] → result ≡ cause facts.now.machine features.now views.now view.now requirement }
{
    match first_unmet(&facts.machine, features, views, place, one) {
        Some(unmet) => Some(unmet.cause),
        None => None,
    }
}

/// The features of client 1.
fn features(facts: &Facts) -> &[Name]
    ensures { result.now ≡ features_for facts.now 1 }
{
    match facts.features.items().get(0) {
        Some(features) => features.items(),
        None => &[],
    }
}
