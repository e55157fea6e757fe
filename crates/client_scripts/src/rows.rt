//! Rows, as a client is told of them.
ghost use Rattle.std.specs.Prelude.{◌≡◌, ◌++◌, ◌≤◌, flat_map, length, take, reverse, Some, OnOk};
ghost use Rattle.std.specs.Option.{option_copied};
ghost use Rattle.client_scripts.specs.Replies.{asked_text, history_reply, port_or_id, protocol_text, results_reply, row_line, row_text, row_or_none, settle_reply, terms_text, waits_or_nothing};

use crate::lines::{LINES_MAX, put_left_out, put_no_device, put_none};
use crate::named::{device_with, newest_of};
use crate::parts::{put_number, put_retry};
use crate::words::state_word;
use core_state::CoreState;
use fw_base::Name;
use fw_facts::{DeviceView, Seen};
use guid_ids::DeviceId;
use history_keeper::Row;
use std::alloc::AllocError;

/// Puts the lines of the newest rows behind the text.
pub fn put_history(out: &mut Vec<u8>, views: &[DeviceView], rows: &[Row]) -> Result<(), AllocError>
    ensures { OnOk result (out.new.items ≡ out.old.items ++ history_reply views.now rows.now) }
{
    if rows.is_empty() {
        return put_none(out);
    }
    let listed = rows.len().min(LINES_MAX);
    put_newest(out, views, rows, listed)?;
    put_left_out(out, rows.len() - listed)?;
    Ok(())
}

// The lines of so many rows, the newest first.
fn put_newest(
    out: &mut Vec<u8>,
    views: &[DeviceView],
    rows: &[Row],
    listed: usize,
) -> Result<(), AllocError>
    requires { listed ≤ length rows.now }
    ensures { OnOk result (out.new.items ≡ out.old.items ++ flat_map (row_line views.now) (take listed (reverse rows.now))) }
{
    for at in 0..listed {
        put_row(out, views, &rows[rows.len() - 1 - at])?;
    }
    Ok(())
}

/// Puts the line of the device's newest row behind the text.
pub fn put_results(
    out: &mut Vec<u8>,
    views: &[DeviceView],
    rows: &[Row],
    view: Option<&DeviceView>,
) -> Result<(), AllocError>
    ensures { OnOk result (out.new.items ≡ out.old.items ++ results_reply views.now rows.now (option_copied view.entry)) }
{
    match view {
        None => put_no_device(out),
        Some(view) => put_row_or_none(out, views, newest_of(rows, &view.sheet.device)),
    }
}

fn put_row_or_none(
    out: &mut Vec<u8>,
    views: &[DeviceView],
    row: Option<&Row>,
) -> Result<(), AllocError>
    ensures { OnOk result (out.new.items ≡ out.old.items ++ row_or_none views.now (option_copied row.entry)) }
{
    match row {
        None => put_none(out),
        Some(row) => put_row(out, views, row),
    }
}

fn put_row(out: &mut Vec<u8>, views: &[DeviceView], row: &Row) -> Result<(), AllocError>
    ensures { OnOk result (out.new.items ≡ out.old.items ++ row_line views.now row.now) }
{
    out.extend_from_slice(b"  ")?;
    put_row_text(out, views, row)?;
    out.extend_from_slice(b"\n")
}

#[tactic(auto, unfolding(crate::specs::Replies::row_text))]
fn put_row_text(out: &mut Vec<u8>, views: &[DeviceView], row: &Row) -> Result<(), AllocError>
    ensures { OnOk result (out.new.items ≡ out.old.items ++ row_text views.now row.now) }
{
    put_asked(out, views, row)?;
    out.extend_from_slice(b" ")?;
    out.extend_from_slice(row.version_new.bytes())?;
    out.extend_from_slice(b" ")?;
    out.extend_from_slice(state_word(row.state).as_bytes())?;
    out.extend_from_slice(b" ")?;
    put_number(out, u64::from(row.reason))?;
    put_terms(out, row)
}

// The end of a row's line.
#[tactic(auto, unfolding(crate::specs::Replies::terms_text))]
fn put_terms(out: &mut Vec<u8>, row: &Row) -> Result<(), AllocError>
    ensures { OnOk result (out.new.items ≡ out.old.items ++ terms_text row.now) }
{
    out.extend_from_slice(b" ")?;
    put_number(out, u64::from(row.duration))?;
    out.extend_from_slice(b" ")?;
    put_protocol(out, &row.protocol)?;
    put_retry(out, row.retry_of)
}

fn put_protocol(out: &mut Vec<u8>, protocol: &Option<Name>) -> Result<(), AllocError>
    ensures { OnOk result (out.new.items ≡ out.old.items ++ protocol_text protocol.now) }
{
    match protocol {
        None => out.extend_from_slice(b"-"),
        Some(protocol) => out.extend_from_slice(protocol.bytes()),
    }
}

// The front of a row's line.
#[tactic(auto, unfolding(crate::specs::Replies::asked_text))]
fn put_asked(out: &mut Vec<u8>, views: &[DeviceView], row: &Row) -> Result<(), AllocError>
    ensures { OnOk result (out.new.items ≡ out.old.items ++ asked_text views.now row.now) }
{
    put_number(out, u64::from(row.entry))?;
    out.extend_from_slice(b" ")?;
    out.extend_from_slice(row.tag.bytes())?;
    out.extend_from_slice(b" ")?;
    put_port_or_id(out, &row.device, device_with(views, &row.device))?;
    out.extend_from_slice(b" ")?;
    out.extend_from_slice(row.version_old.bytes())
}

fn put_port_or_id(
    out: &mut Vec<u8>,
    device: &DeviceId,
    view: Option<&DeviceView>,
) -> Result<(), AllocError>
    ensures { OnOk result (out.new.items ≡ out.old.items ++ port_or_id device.now (option_copied view.entry)) }
{
    match view {
        None => out.extend_from_slice(&device.text()),
        Some(view) => out.extend_from_slice(view.sheet.port.bytes()),
    }
}

/// Puts the line behind the text that a client is told where there is no row to judge.
pub fn put_settle(
    out: &mut Vec<u8>,
    state: &CoreState,
    view: Option<&DeviceView>,
) -> Result<(), AllocError>
    ensures { OnOk result (out.new.items ≡ out.old.items ++ settle_reply state.now.rows (option_copied view.entry)) }
{
    match view {
        None => put_no_device(out),
        Some(view) => put_settle_of(out, state, view),
    }
}

fn put_settle_of(out: &mut Vec<u8>, state: &CoreState, view: &DeviceView) -> Result<(), AllocError>
    ensures { OnOk result (out.new.items ≡ out.old.items ++ settle_reply state.now.rows (Some view.now)) }
{
    match view.seen {
        Seen::Home { .. } => put_waits(out, state.unsettled_row(&view.sheet.device)),
        Seen::Gone | Seen::Stranger => put_no_device(out),
    }
}

fn put_waits(out: &mut Vec<u8>, row: Option<&Row>) -> Result<(), AllocError>
    ensures { OnOk result (out.new.items ≡ out.old.items ++ waits_or_nothing (option_copied row.entry)) }
{
    match row {
        None => out.extend_from_slice(b"  nothing\n"),
        Some(row) => {
            out.extend_from_slice(b"  waits ")?;
            put_number(out, u64::from(row.entry))?;
            out.extend_from_slice(b"\n")
        }
    }
}
