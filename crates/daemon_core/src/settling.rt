//! What is found of a device that a client settles.
ghost use Rattle.std.specs.Prelude.{◌≡◌, Some, option_copied};
ghost use Rattle.fw_facts.specs.Views.{is_home};
ghost use Rattle.update_log.specs.Legal.{found_view};
ghost use Rattle.daemon_core.specs.Settling.{device_row, row_on};

use crate::judged::DeviceRow;
use core_state::CoreState;
use device_list::Selector;
use fw_facts::DeviceView;
use update_log::is_home;

/// What is found of the device of a selector.
pub fn device_row(core: &CoreState, device: &Selector) -> DeviceRow
    ensures { result ≡ device_row core.now.views core.now.rows device.now }
{
    match found_view(core, device) {
        Some(view) => row_on(core, view),
        None => DeviceRow::NoDevice,
    }
}

pub(crate) fn found_view<'a>(core: &'a CoreState, device: &Selector) -> Option<&'a DeviceView>
    ensures { option_copied result ≡ found_view core.now.views device.now }
{
    match core.resolve(device) {
        Some(place) => core.views().get(place),
        None => None,
    }
}

fn row_on(core: &CoreState, view: &DeviceView) -> DeviceRow
    ensures { result ≡ row_on core.now.rows (Some view.now) }
{
    if !is_home(view.seen) {
        return DeviceRow::NoDevice;
    }
    match core.unsettled_row(&view.sheet.device) {
        Some(row) => DeviceRow::Waiting { entry: row.entry },
        None => DeviceRow::Nothing,
    }
}
