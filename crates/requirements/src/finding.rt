//! What requirements look for: IDs and hardware of the machine, features, devices and ancestors.
ghost use Rattle.std.specs.Prelude.{◌≡◌, find, option_map};
ghost use Rattle.std.specs.List.{list_any};
ghost use Rattle.std.specs.Option.{option_copied};
ghost use Rattle.std.specs.Str.{bytes_eq};
ghost use Rattle.requirements.specs.Requirements.{ancestor, has_guid, has_hardware, parent, version_with_id, with_guid};

use fw_base::Name;
use fw_facts::{DeviceView, MachineFacts};
use guid_ids::Guid;
use version_formats::Version;

/// The version of the first ID of that name.
pub fn version_with_id(name: &Name, machine: &MachineFacts) -> Option<Version>
    ensures { result ≡ version_with_id name.now machine.now }
{
    machine
        .ids
        .items()
        .iter()
        .find(|id| *name == id.0)
        .map(|id| id.1)
}

/// Whether one of these hardware IDs is the machine's.
pub fn has_hardware(machine: &MachineFacts, any: &[Guid]) -> bool
    ensures { result ≡ has_hardware machine.now any.now }
{
    any.iter().any(|id| has_id(machine.hardware.items(), id))
}

fn has_id(ids: &[Guid], id: &Guid) -> bool
    ensures { result ≡ list_any (λ own. bytes_eq id.now own) ids.now }
{
    ids.iter().any(|own| id == own)
}

/// Whether the feature is among those of a client.
pub fn has_feature(features: &[Name], feature: &Name) -> bool
    ensures { result ≡ list_any (λ own. bytes_eq feature.now own) features.now }
{
    features.iter().any(|own| feature == own)
}

/// The first device that shows the GUID.
pub fn device_with<'a>(views: &'a [DeviceView], guid: &Guid) -> Option<&'a DeviceView>
    ensures { option_copied result ≡ find (has_guid guid.now) views.now }
{
    views.iter().find(|view| has_guid(guid, view))
}

fn has_guid(guid: &Guid, view: &DeviceView) -> bool
    ensures { result ≡ has_guid guid.now view.now }
{
    has_id(view.guids(), guid)
}

/// The ancestor at a depth, from the device itself at 0, where it shows the GUID.
pub fn ancestor_with<'a>(
    views: &'a [DeviceView],
    depth: u8,
    guid: &Guid,
    view: &'a DeviceView,
) -> Option<&'a DeviceView>
    ensures { option_copied result ≡ with_guid guid.now (ancestor views.now depth view.now) }
{
    let found = ancestor(views, depth, view)?;
    if has_guid(guid, found) {
        Some(found)
    } else {
        None
    }
}

fn ancestor<'a>(views: &'a [DeviceView], depth: u8, view: &'a DeviceView) -> Option<&'a DeviceView>
    ensures { option_copied result ≡ ancestor views.now depth view.now }
{
    let mut found = view;
    for _ in 0..depth {
        found = parent(views, found)?;
    }
    Some(found)
}

// Its parent, whether or not that one is present.
fn parent<'a>(views: &'a [DeviceView], view: &DeviceView) -> Option<&'a DeviceView>
    ensures { option_copied result ≡ parent views.now view.now }
{
    let port = view.sheet.parent?;
    device_in(views, &port)
}

fn device_in<'a>(views: &'a [DeviceView], port: &Name) -> Option<&'a DeviceView>
    ensures { option_copied result ≡ find (λ other. bytes_eq port.now other.sheet.port) views.now }
{
    views.iter().find(|other| *port == other.sheet.port)
}
