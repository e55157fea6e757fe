//! A row as the columns of the table, and back.
ghost use Rattle.std.specs.Prelude.{◌≡◌, ◌+◌, ◌-◌, ◌^◌, ◌≤◌, pos, IsTrue, IfSome, ◌↔◌};
ghost use Rattle.std.specs.Option.{option_copied};
ghost use Rattle.sqlite.specs.declared.types.Value.TheVariants.{Int, Null};
ghost use Rattle.sqlite.specs.Order.{column};
ghost use Rattle.history_sqlite.specs.Columns.{state_number, number_in, integer_in, text_in, blob_in, bytes_in, name_in, version_in, state_in, state_numbered, optional, older_row_read, row_read};

use fw_base::{Digest, Name};
use guid_ids::DeviceId;
use history_keeper::{Row, RowState};
use sqlite::types::ValueRef;
use version_formats::Version;

/// The row that has these columns, in the order of the table. `None` where no row has them.
pub fn read_row(columns: &sqlite::Row) -> Option<Row>
    ensures { result ≡ row_read columns.now }
{
    let row = read_older_row(columns)?;
    let duration = number_at(columns, 13, u32::MAX as u64)? as u32;
    let protocol = protocol_at(columns, 14)?;
    let retry_of = link_at(columns, 15)?;
    Some(Row {
        duration,
        protocol,
        retry_of,
        ..row
    })
}

/// The row that has these columns of a table of schema 1, which tells no duration, no protocol and no
/// row that was tried again. `None` where no row has them.
pub fn read_older_row(columns: &sqlite::Row) -> Option<Row>
    ensures read { result ≡ older_row_read columns.now }
    ensures added { IfSome result (λ row. row.time_added ≤ 2 ^ 63 - 1) }
    ensures changed { IfSome result (λ row. row.time_changed ≤ 2 ^ 63 - 1) }
{
    let entry = number_at(columns, 0, u32::MAX as u64)? as u32;
    let tag = name_at(columns, 1)?;
    let client = number_at(columns, 2, u32::MAX as u64)? as u32;
    let device = device_at(columns, 3)?;
    let component = name_at(columns, 4)?;
    let version_old = version_at(columns, 5)?;
    let version_new = version_at(columns, 6)?;
    let digest = digest_at(columns, 7)?;
    let flags = number_at(columns, 8, u8::MAX as u64)? as u8;
    let state = state_at(columns, 9)?;
    let reason = number_at(columns, 10, u8::MAX as u64)? as u8;
    let time_added = number_at(columns, 11, u64::MAX)?;
    let time_changed = number_at(columns, 12, u64::MAX)?;
    Some(Row {
        entry,
        tag,
        client,
        device,
        component,
        version_old,
        version_new,
        digest,
        flags,
        state,
        reason,
        time_added,
        time_changed,
        duration: 0,
        protocol: None,
        retry_of: None,
    })
}

/// The number of a state, as the table has it.
pub fn number_of(state: RowState) -> i64
    ensures { result ≡ pos (state_number state) }
{
    match state {
        RowState::Pending => 1,
        RowState::Success => 2,
        RowState::Failed => 3,
        RowState::NeedsReboot => 4,
        RowState::Begun => 100,
    }
}

/// The integer in a column, where it has one from 0 on.
pub fn integer_at(columns: &sqlite::Row, at: usize) -> Option<u64>
    ensures read { result ≡ integer_in (column columns.now at) }
    ensures signed { IfSome result (λ number. number ≤ 2 ^ 63 - 1) }
{
    match columns.get_ref(at) {
        Ok(ValueRef::Int(number)) => natural(number),
        Ok(ValueRef::Null | ValueRef::Real(_) | ValueRef::Text(_) | ValueRef::Blob(_)) => None,
        Err(_) => None,
    }
}

fn natural(number: i64) -> Option<u64>
    ensures read { result ≡ integer_in (Int number) }
    ensures signed { IfSome result (λ number. number ≤ 2 ^ 63 - 1) }
{
    if number < 0 {
        None
    } else {
        Some(number as u64)
    }
}

// The integer in a column, where it has one from 0 to the most.
fn number_at(columns: &sqlite::Row, at: usize, most: u64) -> Option<u64>
    ensures read { result ≡ number_in (most + 1) (column columns.now at) }
    ensures signed { IfSome result (λ number. number ≤ 2 ^ 63 - 1) }
{
    let number = integer_at(columns, at)?;
    if number <= most { Some(number) } else { None }
}

fn text_at<'a>(columns: &'a sqlite::Row, at: usize) -> Option<&'a [u8]>
    ensures { option_copied result ≡ text_in (column columns.now at) }
{
    match columns.get_ref(at) {
        Ok(ValueRef::Text(text)) => Some(text),
        Ok(ValueRef::Null | ValueRef::Int(_) | ValueRef::Real(_) | ValueRef::Blob(_)) => None,
        Err(_) => None,
    }
}

fn blob_at<'a>(columns: &'a sqlite::Row, at: usize) -> Option<&'a [u8]>
    ensures { option_copied result ≡ blob_in (column columns.now at) }
{
    match columns.get_ref(at) {
        Ok(ValueRef::Blob(bytes)) => Some(bytes),
        Ok(ValueRef::Null | ValueRef::Int(_) | ValueRef::Real(_) | ValueRef::Text(_)) => None,
        Err(_) => None,
    }
}

fn name_at(columns: &sqlite::Row, at: usize) -> Option<Name>
    ensures { result ≡ name_in (column columns.now at) }
{
    match text_at(columns, at) {
        Some(text) => Name::read(text).ok(),
        None => None,
    }
}

// The name in a column that may be NULL.
fn protocol_at(columns: &sqlite::Row, at: usize) -> Option<Option<Name>>
    ensures { result ≡ optional name_in (column columns.now at) }
{
    if is_null_at(columns, at) {
        return Some(None);
    }
    let protocol = name_at(columns, at)?;
    Some(Some(protocol))
}

// The entry in a column that may be NULL.
fn link_at(columns: &sqlite::Row, at: usize) -> Option<Option<u32>>
    ensures { result ≡ optional (number_in (2 ^ 32)) (column columns.now at) }
{
    if is_null_at(columns, at) {
        return Some(None);
    }
    let entry = number_at(columns, at, u32::MAX as u64)? as u32;
    Some(Some(entry))
}

fn is_null_at(columns: &sqlite::Row, at: usize) -> bool
    ensures { IsTrue result ↔ (column columns.now at ≡ Null) }
{
    match columns.get_ref(at) {
        Ok(ValueRef::Null) => true,
        Ok(ValueRef::Int(_) | ValueRef::Real(_) | ValueRef::Text(_) | ValueRef::Blob(_)) => false,
        Err(_) => true,
    }
}

fn version_at(columns: &sqlite::Row, at: usize) -> Option<Version>
    ensures { result ≡ version_in (column columns.now at) }
{
    match text_at(columns, at) {
        Some(text) => Version::read(text).ok(),
        None => None,
    }
}

fn device_at(columns: &sqlite::Row, at: usize) -> Option<DeviceId>
    ensures { result ≡ bytes_in 20 (column columns.now at) }
{
    let bytes = match blob_at(columns, at) {
        Some(bytes) => bytes,
        None => return None,
    };
    if bytes.len() != 20 {
        return None;
    }
    let mut kept = [0; 20];
    kept.copy_from_slice(bytes);
    Some(DeviceId::from_bytes(kept))
}

fn digest_at(columns: &sqlite::Row, at: usize) -> Option<Digest>
    ensures { result ≡ bytes_in 32 (column columns.now at) }
{
    let bytes = match blob_at(columns, at) {
        Some(bytes) => bytes,
        None => return None,
    };
    if bytes.len() != 32 {
        return None;
    }
    let mut kept = [0; 32];
    kept.copy_from_slice(bytes);
    Some(kept)
}

fn state_at(columns: &sqlite::Row, at: usize) -> Option<RowState>
    ensures { result ≡ state_in (column columns.now at) }
{
    match integer_at(columns, at) {
        Some(number) => numbered(number),
        None => None,
    }
}

fn numbered(number: u64) -> Option<RowState>
    ensures { result ≡ state_numbered number }
{
    match number {
        1 => Some(RowState::Pending),
        2 => Some(RowState::Success),
        3 => Some(RowState::Failed),
        4 => Some(RowState::NeedsReboot),
        100 => Some(RowState::Begun),
        _ => None,
    }
}
