//! What rows and devices say, by scans of them.
ghost use Rattle.std.specs.Prelude.{◌≡◌, ◌<◌, ◌==◌, ◌&&◌, not, find, option_map, option_copied, unwrap_or, false, length, IfSome};
ghost use Rattle.std.specs.List.{list_any};
ghost use Rattle.std.specs.Str.{bytes_eq};
ghost use Rattle.fw_facts.specs.Views.{is_home};
ghost use Rattle.device_list.specs.Lists.{names, place, shows};
ghost use Rattle.history_keeper.specs.Histories.{is_unsettled};
ghost use Rattle.update_log.specs.Holding.{is_live, live};
ghost use Rattle.update_log.specs.Known.{row_of, row_with_tag};
ghost use Rattle.update_log.specs.Pasts.{past_of};

use crate::scans::is_live;
use device_list::Selector;
use fw_base::Name;
use fw_facts::{DeviceView, Seen};
use guid_ids::{DeviceId, Guid};
use history_keeper::{Row, RowState};
use update_log::Event;

/// The row of an entry.
pub fn row_of(rows: &[Row], entry: u32) -> Option<&Row>
    ensures { option_copied result ≡ row_of rows.now entry }
{
    rows.iter().find(|row| row.entry == entry)
}

/// The row of a tag.
pub fn row_with_tag<'a>(rows: &'a [Row], tag: &Name) -> Option<&'a Row>
    ensures { option_copied result ≡ row_with_tag rows.now tag.now }
{
    rows.iter().find(|row| *tag == row.tag)
}

fn shows(guid: &Guid, view: &DeviceView) -> bool
    ensures { result ≡ shows guid.now view.now }
{
    has_guid(view.guids(), guid)
}

fn has_guid(guids: &[Guid], guid: &Guid) -> bool
    ensures { result ≡ list_any (bytes_eq guid.now) guids.now }
{
    guids.iter().any(|shown| guid == shown)
}

fn names(selector: &Selector, view: &DeviceView) -> bool
    ensures { result ≡ names selector.now view.now }
{
    match selector {
        Selector::Id(device) => *device == view.sheet.device,
        Selector::Guid(guid) => shows(guid, view),
        Selector::Port(port) => *port == view.sheet.port,
    }
}

/// The place of the first device that a selector names.
pub fn place(views: &[DeviceView], selector: &Selector) -> Option<usize>
    ensures { result ≡ place selector.now views.now }
{
    views.iter().position(|view| names(selector, view))
}

/// Whether the board is there.
pub fn is_home(seen: Seen) -> bool
    ensures { result ≡ is_home seen }
{
    match seen {
        Seen::Home { .. } => true,
        Seen::Gone | Seen::Stranger => false,
    }
}

/// The first row of the device that waits for its end, isn't live and isn't the request's own.
pub fn in_the_way<'a>(
    rows: &'a [Row],
    log: &[Event],
    device: &DeviceId,
    own: Option<u32>,
) -> Option<&'a Row>
    ensures { option_copied result ≡ find (λ r. bytes_eq r.device device.now && is_unsettled r.state && not (is_live (live (past_of log.now)) r.entry) && not (unwrap_or (option_map (λ entry. entry == r.entry) own) false)) rows.now }
{
    rows.iter().find(|row| is_in_the_way(row, log, device, own))
}

fn is_in_the_way(row: &Row, log: &[Event], device: &DeviceId, own: Option<u32>) -> bool
    ensures { result ≡ (bytes_eq row.now.device device.now && is_unsettled row.now.state && not (is_live (live (past_of log.now)) row.now.entry) && not (unwrap_or (option_map (λ entry. entry == row.now.entry) own) false)) }
{
    row.device == *device
        && is_unsettled(row.state)
        && !is_live(log, row.entry)
        && !is_own(own, row.entry)
}

/// Whether the row of that number is the request's own.
pub fn is_own(own: Option<u32>, number: u32) -> bool
    ensures { result ≡ unwrap_or (option_map (λ entry. entry == number) own) false }
{
    match own {
        Some(entry) => entry == number,
        None => false,
    }
}

fn is_unsettled(state: RowState) -> bool
    ensures { result ≡ is_unsettled state }
{
    match state {
        RowState::Pending | RowState::NeedsReboot | RowState::Begun => true,
        RowState::Success | RowState::Failed => false,
    }
}
