//! Devices by what a client or a row calls them, and rows by their device.
ghost use Rattle.std.specs.Prelude.{◌≡◌, find};
ghost use Rattle.std.specs.Option.{option_copied};
ghost use Rattle.std.specs.Str.{bytes_eq};
ghost use Rattle.device_list.specs.Lists.{names, shows};
ghost use Rattle.client_scripts.specs.Replies.{device_named, newest_of};

use device_list::Selector;
use fw_facts::DeviceView;
use guid_ids::{DeviceId, Guid};
use history_keeper::Row;

/// The first device that a selector names.
pub fn device_named<'a>(views: &'a [DeviceView], selector: &Selector) -> Option<&'a DeviceView>
    ensures { option_copied result ≡ device_named views.now selector.now }
{
    views.iter().find(|view| names(selector, view))
}

fn names(selector: &Selector, view: &DeviceView) -> bool
    ensures { result ≡ names selector.now view.now }
{
    match selector {
        Selector::Id(device) => *device == view.sheet.device,
        Selector::Guid(guid) => shows(guid, view),
        Selector::Port(port) => *port == view.sheet.port,
    }
}

fn shows(guid: &Guid, view: &DeviceView) -> bool
    ensures { result ≡ shows guid.now view.now }
{
    view.guids().iter().any(|shown| guid == shown)
}

/// The device with that ID.
pub fn device_with<'a>(views: &'a [DeviceView], device: &DeviceId) -> Option<&'a DeviceView>
    ensures { option_copied result ≡ find (λ view. bytes_eq device.now view.sheet.device) views.now }
{
    views.iter().find(|view| *device == view.sheet.device)
}

/// The newest row of a device.
pub fn newest_of<'a>(rows: &'a [Row], device: &DeviceId) -> Option<&'a Row>
    ensures { option_copied result ≡ newest_of rows.now device.now }
{
    rows.iter().rev().find(|row| *device == row.device)
}
