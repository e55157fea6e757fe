//! The first requirement that doesn't hold.
ghost use Rattle.std.specs.Prelude.{◌≡◌, ◌<◌, ◌^◌, IfSome, IsTrue, is_some, length, position, slice_get};
ghost use Rattle.std.specs.Option.{ForSome};
ghost use Rattle.fw_facts.specs.Views.{is_home};
ghost use Rattle.requirements.specs.Requirements.{cause, first_unmet, first_unmet_of};

use crate::causes::cause;
use crate::unmet::Unmet;
use fw_base::Name;
use fw_facts::{DeviceView, MachineFacts, Requirement};

/// The first requirement of a release that doesn't hold of the device at that place of the devices'
/// list, after the metadata guide of the LVFS; none where all hold. The features are those of the
/// client that asks.
///
/// The device is present. Of other devices a requirement knows what their views show: one that isn't
/// present has no GUIDs, and one with a claim is being updated.
pub fn first_unmet(
    machine: &MachineFacts,
    features: &[Name],
    views: &[DeviceView],
    device: usize,
    list: &[Requirement],
) -> Option<Unmet>
    requires in_list { device < length views.now }
    requires present { ForSome (slice_get views.now device) (λ view. IsTrue (is_home view.seen)) }
    requires few { length list.now < 2 ^ 32 }
    ensures { result ≡ first_unmet machine.now features.now views.now device list.now }
{
    first_unmet_of(machine, features, views, &views[device], list)
}

fn first_unmet_of(
    machine: &MachineFacts,
    features: &[Name],
    views: &[DeviceView],
    view: &DeviceView,
    list: &[Requirement],
) -> Option<Unmet>
    requires few { length list.now < 2 ^ 32 }
    ensures { result ≡ first_unmet_of machine.now features.now views.now view.now list.now }
{
    let at = place_of_unmet(machine, features, views, view, list)?;
    let cause = cause(machine, features, views, view, &list[at])?;
    Some(Unmet {
        index: at as u32,
        cause,
    })
}

fn place_of_unmet(
    machine: &MachineFacts,
    features: &[Name],
    views: &[DeviceView],
    view: &DeviceView,
    list: &[Requirement],
) -> Option<usize>
    ensures first { result ≡ position
        (λ requirement. is_some (cause machine.now features.now views.now view.now requirement)) list.now }
    ensures within { IfSome result (λ at. at < length list.now) }
{
    list.iter().position(|requirement| cause(machine, features, views, view, requirement).is_some())
}
