//! Why a row can't be tried again: each cause for itself.
ghost use Rattle.std.specs.Prelude.{◌≡◌, ◌&&◌, ◌==◌, not, find, option_map, option_copied, unwrap_or, false};
ghost use Rattle.std.specs.Str.{bytes_eq};
ghost use Rattle.history_keeper.specs.Histories.{is_failed, tries};
ghost use Rattle.update_log.specs.Verdicts.{fault_where};

use crate::row_lookup::is_own;
use fw_base::Digest;
use guid_ids::DeviceId;
use history_keeper::{Row, is_failed};
use update_log::RetryFault;

// A cause, where a test passes.
fn fault_where(test: bool, fault: RetryFault) -> Option<RetryFault>
    ensures { result ≡ fault_where test fault }
{
    if test { Some(fault) } else { None }
}

/// The row is of another device than this one.
pub fn of_other_device(row: &Row, device: &DeviceId) -> Option<RetryFault>
    ensures { result ≡ fault_where (not (bytes_eq row.now.device device.now)) RetryFault.OtherDevice }
{
    fault_where(row.device != *device, RetryFault::OtherDevice)
}

/// The row hasn't failed.
pub fn not_failed(row: &Row) -> Option<RetryFault>
    ensures { result ≡ fault_where (not (is_failed row.now.state)) (RetryFault.NotFailed row.now.state) }
{
    let fault = RetryFault::NotFailed { state: row.state };
    fault_where(!is_failed(row.state), fault)
}

/// A row tries the entry again that isn't the request's own. All rows are looked at.
pub fn retried(rows: &[Row], entry: u32, own: Option<u32>) -> Option<RetryFault>
    ensures { result ≡ option_map (λ r. RetryFault.Retried r.entry) (find (λ r. tries entry r && not (unwrap_or (option_map (λ own_entry. own_entry == r.entry) own) false)) rows.now) }
{
    match first_retry(rows, entry, own) {
        Some(row) => Some(RetryFault::Retried { entry: row.entry }),
        None => None,
    }
}

fn first_retry(rows: &[Row], entry: u32, own: Option<u32>) -> Option<&Row>
    ensures { option_copied result ≡ find (λ r. tries entry r && not (unwrap_or (option_map (λ own_entry. own_entry == r.entry) own) false)) rows.now }
{
    rows.iter().find(|row| is_retry(row, entry, own))
}

fn is_retry(row: &Row, entry: u32, own: Option<u32>) -> bool
    ensures { result ≡ (tries entry row.now && not (unwrap_or (option_map (λ own_entry. own_entry == row.now.entry) own) false)) }
{
    tries(row, entry) && !is_own(own, row.entry)
}

fn tries(row: &Row, entry: u32) -> bool
    ensures { result ≡ tries entry row.now }
{
    match row.retry_of {
        Some(tried) => tried == entry,
        None => false,
    }
}

/// The release has another payload, by its digest, than the row's had.
pub fn of_other_release(row: &Row, digest: &Digest) -> Option<RetryFault>
    ensures { result ≡ fault_where (not (bytes_eq row.now.digest digest.now)) RetryFault.OtherRelease }
{
    fault_where(row.digest != *digest, RetryFault::OtherRelease)
}
