//! Rows looked up.
ghost use Rattle.std.specs.Prelude.{◌≡◌, ◌==◌, ◌&&◌, not, find, option_map, option_copied, unwrap_or, false};
ghost use Rattle.std.specs.List.{list_any};
ghost use Rattle.std.specs.Str.{bytes_eq};
ghost use Rattle.history_keeper.specs.Histories.{is_unsettled};
ghost use Rattle.update_log.specs.Holding.{is_live};

use guid_ids::DeviceId;
use history_keeper::{Row, RowState};
use row_index::IndexedRows;
use update_log::LiveEntry;

/// The first row of the device that waits for its end, isn't live and isn't the request's own.
pub fn in_the_way<'a>(
    rows: &'a IndexedRows,
    live: &[LiveEntry],
    device: &DeviceId,
    own: Option<u32>,
) -> Option<&'a Row>
    ensures { option_copied result ≡ find (λ r. bytes_eq r.device device.now && is_unsettled r.state && not (is_live live.now r.entry) && not (unwrap_or (option_map (λ entry. entry == r.entry) own) false)) rows.now.rows }
{
    first_in_the_way(rows.near(device), live, device, own)
}

fn first_in_the_way<'a>(
    rows: &'a [Row],
    live: &[LiveEntry],
    device: &DeviceId,
    own: Option<u32>,
) -> Option<&'a Row>
    ensures { option_copied result ≡ find (λ r. bytes_eq r.device device.now && is_unsettled r.state && not (is_live live.now r.entry) && not (unwrap_or (option_map (λ entry. entry == r.entry) own) false)) rows.now }
{
    rows.iter()
        .find(|row| is_in_the_way(row, live, device, own))
}

fn is_in_the_way(row: &Row, live: &[LiveEntry], device: &DeviceId, own: Option<u32>) -> bool
    ensures { result ≡ (bytes_eq row.now.device device.now && is_unsettled row.now.state && not (is_live live.now row.now.entry) && not (unwrap_or (option_map (λ entry. entry == row.now.entry) own) false)) }
{
    row.device == *device
        && is_unsettled(row.state)
        && !is_live(live, row.entry)
        && !is_own(own, row.entry)
}

/// Whether the row of that number is the request's own.
pub fn is_own(own: Option<u32>, number: u32) -> bool
    ensures { result ≡ unwrap_or (option_map (λ entry. entry == number) own) false }
{
    match own {
        Some(entry) => entry == number,
        None => false,
    }
}

fn is_unsettled(state: RowState) -> bool
    ensures { result ≡ is_unsettled state }
{
    match state {
        RowState::Pending | RowState::NeedsReboot | RowState::Begun => true,
        RowState::Success | RowState::Failed => false,
    }
}

/// Whether the entry is live.
pub fn is_live(live: &[LiveEntry], entry: u32) -> bool
    ensures { result ≡ is_live live.now entry }
{
    live.iter().any(|l| l.entry == entry)
}
