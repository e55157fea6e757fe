//! The lanes' labels, their places, and what runs along them: entries from their begin to their end, and writes.
ghost use Rattle.std.specs.Prelude.{◌≡◌, ◌++◌, OnOk, map};
ghost use Rattle.std.specs.List.{flat_map};
ghost use Rattle.report_view.specs.Spans.{board_label, client_label, client_rule, end_of, entry_rule, entry_rule_of, root_rule, run_of, run_text, span, span_of, standing_word, write_of, write_word};

use crate::html::{
    BOARD_LABEL, CLIENT_LABEL, CLIENT_NAME, CLOSE_ENTRY, CLOSE_HEAD, CLOSE_LANE, CLOSE_WRITE,
    OPEN_ENTRY, OPEN_WRITE, RUN_LENGTH, RUN_PLACE,
};
use crate::lanes::{device_of, name_place, rank};
use crate::pieces::{put_escaped, put_number};
use crate::row::{Row, Standing};
use std::alloc::AllocError;

/// The word of a standing.
pub fn standing_word(standing: Standing) -> &'static str
    ensures { result.now ≡ standing_word standing }
{
    match standing {
        Standing::Held => "held",
        Standing::GivenBack => "given-back",
        Standing::Refused => "refused",
        Standing::Kept => "kept",
        Standing::Pending => "pending",
        Standing::Begun => "begun",
        Standing::Success => "success",
        Standing::Failed => "failed",
        Standing::NeedsReboot => "needs-reboot",
    }
}

fn write_word(torn: bool, ended: Option<u64>) -> &'static str
    ensures { result.now ≡ write_word torn ended }
{
    match ended {
        Some(_) => { if torn { "torn" } else { "good" } }
        None => "running",
    }
}

/// Where something that began ends: at that event, or behind the last where it didn't end.
fn end_of(ended: Option<u64>, total: u64) -> u64
    ensures { result ≡ end_of ended total }
{
    match ended {
        Some(end) => end,
        None => total,
    }
}

/// Puts the place and the length of what runs from one event to another behind the page.
#[tactic(auto, unfolding(crate::specs::Spans::run_text))]
fn put_run(out: &mut Vec<u8>, from: u64, to: u64) -> Result<(), AllocError>
    ensures { OnOk result (out.new.items ≡ out.old.items ++ run_text from to) }
{
    out.extend_from_slice(RUN_PLACE)?;
    put_number(out, from)?;
    out.extend_from_slice(RUN_LENGTH)?;
    put_number(out, to.saturating_sub(from))?;
    out.extend_from_slice(CLOSE_HEAD)
}

fn put_run_of(
    out: &mut Vec<u8>,
    entry: u64,
    claimed: Option<u64>,
    closed: Option<u64>,
    standing: Standing,
    total: u64,
) -> Result<(), AllocError>
    ensures { OnOk result (out.new.items ≡ out.old.items ++ run_of entry claimed closed standing total) }
{
    match claimed {
        Some(from) => {
            out.extend_from_slice(OPEN_ENTRY)?;
            put_number(out, entry)?;
            out.extend_from_slice(b" ")?;
            out.extend_from_slice(standing_word(standing).as_bytes())?;
            put_run(out, from, end_of(closed, total))?;
            out.extend_from_slice(CLOSE_ENTRY)
        }
        None => Ok(()),
    }
}

fn put_write_of(
    out: &mut Vec<u8>,
    entry: u64,
    began: Option<u64>,
    ended: Option<u64>,
    torn: bool,
    total: u64,
) -> Result<(), AllocError>
    ensures { OnOk result (out.new.items ≡ out.old.items ++ write_of entry began ended torn total) }
{
    match began {
        Some(from) => {
            out.extend_from_slice(OPEN_WRITE)?;
            put_number(out, entry)?;
            out.extend_from_slice(b" ")?;
            out.extend_from_slice(write_word(torn, ended).as_bytes())?;
            put_run(out, from, end_of(ended, total))?;
            out.extend_from_slice(CLOSE_WRITE)
        }
        None => Ok(()),
    }
}

fn put_span_of(out: &mut Vec<u8>, entry: u64, row: Row, total: u64) -> Result<(), AllocError>
    ensures { OnOk result (out.new.items ≡ out.old.items ++ span_of entry row total) }
{
    put_run_of(out, entry, row.claimed, row.closed, row.standing, total)?;
    put_write_of(out, entry, row.began, row.ended, row.torn, total)
}

/// Puts how long an entry and its write ran behind the page.
fn put_span(out: &mut Vec<u8>, row: Row, total: u64) -> Result<(), AllocError>
    ensures { OnOk result (out.new.items ≡ out.old.items ++ span total row) }
{
    match row.entry {
        Some(entry) => put_span_of(out, entry, row, total),
        None => Ok(()),
    }
}

/// Puts how long each entry and its write ran behind the page.
pub fn put_spans(out: &mut Vec<u8>, rows: &[Row], total: u64) -> Result<(), AllocError>
    ensures { OnOk result (out.new.items ≡ out.old.items ++ flat_map (span total) rows.now) }
{
    for row in rows {
        put_span(out, *row, total)?;
    }
    Ok(())
}

#[tactic(auto, unfolding(crate::specs::Spans::client_label))]
fn put_client_label(out: &mut Vec<u8>, client: u64) -> Result<(), AllocError>
    ensures { OnOk result (out.new.items ≡ out.old.items ++ client_label client) }
{
    out.extend_from_slice(CLIENT_LABEL)?;
    put_number(out, client)?;
    out.extend_from_slice(CLIENT_NAME)?;
    put_number(out, client)?;
    out.extend_from_slice(CLOSE_LANE)
}

/// Puts the label of each client's lane behind the page.
pub fn put_client_labels(out: &mut Vec<u8>, clients: &[u64]) -> Result<(), AllocError>
    ensures { OnOk result (out.new.items ≡ out.old.items ++ flat_map client_label clients.now) }
{
    for client in clients {
        put_client_label(out, *client)?;
    }
    Ok(())
}

fn put_board_label(out: &mut Vec<u8>, name: &[u8]) -> Result<(), AllocError>
    ensures { OnOk result (out.new.items ≡ out.old.items ++ board_label name.now) }
{
    out.extend_from_slice(BOARD_LABEL)?;
    put_escaped(out, name)?;
    out.extend_from_slice(CLOSE_LANE)
}

/// Puts the label of each board's lane behind the page.
pub fn put_board_labels(out: &mut Vec<u8>, names: &[&[u8]]) -> Result<(), AllocError>
    ensures { OnOk result (out.new.items ≡ out.old.items ++ flat_map board_label (map (λ name. name.now) names.now)) }
{
    for name in names {
        put_board_label(out, name)?;
    }
    Ok(())
}

fn put_client_rule(out: &mut Vec<u8>, clients: &[u64], client: u64) -> Result<(), AllocError>
    ensures { OnOk result (out.new.items ≡ out.old.items ++ client_rule clients.now client) }
{
    out.extend_from_slice(b".c")?;
    put_number(out, client)?;
    out.extend_from_slice(b"{--y:")?;
    put_number(out, rank(client, clients) as u64)?;
    out.extend_from_slice(b"}\n")
}

/// Puts the place of each client's lane behind the page.
pub fn put_client_rules(out: &mut Vec<u8>, clients: &[u64]) -> Result<(), AllocError>
    ensures { OnOk result (out.new.items ≡ out.old.items ++ flat_map (client_rule clients.now) clients.now) }
{
    for client in clients {
        put_client_rule(out, clients, *client)?;
    }
    Ok(())
}

fn put_entry_rule_of(
    out: &mut Vec<u8>,
    entry: u64,
    before: usize,
    place: usize,
) -> Result<(), AllocError>
    ensures { OnOk result (out.new.items ≡ out.old.items ++ entry_rule_of entry before place) }
{
    out.extend_from_slice(b".n")?;
    put_number(out, entry)?;
    out.extend_from_slice(b"{--y:calc(")?;
    put_number(out, before as u64)?;
    out.extend_from_slice(b" + ")?;
    put_number(out, place as u64)?;
    out.extend_from_slice(b")}\n")
}

fn put_entry_rule(
    out: &mut Vec<u8>,
    lines: &[&[u8]],
    names: &[&[u8]],
    before: usize,
    row: Row,
) -> Result<(), AllocError>
    ensures { OnOk result (out.new.items ≡ out.old.items ++ entry_rule (map (λ line. line.now) lines.now) (map (λ name. name.now) names.now) before row) }
{
    match row.entry {
        Some(entry) => put_entry_rule_of(
            out,
            entry,
            before,
            name_place(device_of(lines, row), names),
        ),
        None => Ok(()),
    }
}

/// Puts the place of the lane of each entry's board behind the page.
pub fn put_entry_rules(
    out: &mut Vec<u8>,
    lines: &[&[u8]],
    names: &[&[u8]],
    before: usize,
    rows: &[Row],
) -> Result<(), AllocError>
    ensures { OnOk result (out.new.items ≡ out.old.items ++ flat_map (entry_rule (map (λ line. line.now) lines.now) (map (λ name. name.now) names.now) before) rows.now) }
{
    for row in rows {
        put_entry_rule(out, lines, names, before, *row)?;
    }
    Ok(())
}

/// Puts how wide and how high the drawing is behind the page.
pub fn put_root_rule(
    out: &mut Vec<u8>,
    total: u64,
    clients: usize,
    names: usize,
) -> Result<(), AllocError>
    ensures { OnOk result (out.new.items ≡ out.old.items ++ root_rule total clients names) }
{
    out.extend_from_slice(b":root{--n:")?;
    put_number(out, total)?;
    out.extend_from_slice(b";--c:")?;
    put_number(out, clients as u64)?;
    out.extend_from_slice(b";--b:")?;
    put_number(out, names as u64)?;
    out.extend_from_slice(b"}\n")
}
