//! The page of a text.
ghost use Rattle.std.specs.Prelude.{◌≡◌, ◌++◌, IfOk, OnOk, count_by, is_some, map};
ghost use Rattle.std.specs.List.{flat_map};
ghost use Rattle.report_view.specs.Events.{all_but_last, last_piece, pieces_of, events as events_of, strays as strays_of};
ghost use Rattle.report_view.specs.Reading.{line_read};
ghost use Rattle.report_view.specs.Rows.{rows_of};
ghost use Rattle.report_view.specs.Lanes.{clients_of, names_of};
ghost use Rattle.report_view.specs.Pages.{after_marks, agrees, before_marks, counts, drawn_by, drawn_item, drawn_of, is_boot, is_cut, is_refused, is_title, item, lanes_part, last_told, notes_part, page, page_of, rest_item, rules_part, stray_item, table_part, tally, titled, told_by, told_item, unread_item};

use crate::drawn::Drawn;
use crate::entries::rows;
use crate::event::{Event, events, line_at, strays};
use crate::frame::{CHART, FOOT, HEAD, LANES, NOTES, RULES, TABLE};
use crate::html::{
    CUT_OFF_ITEM, DRAWN_ITEM, ITEM_END, REST_ITEM, STRAY_END, STRAY_ITEM, STRAY_TEXT, TOLD_ITEM,
    TOLD_NUMBER, UNREAD_ITEM,
};
use crate::lanes::{clients, names};
use crate::line::{Kind, Line};
use crate::marks::put_marks;
use crate::pieces::{put_escaped, put_number};
use crate::reading::read_line;
use crate::row::{Row, Standing};
use crate::spans::{
    put_board_labels, put_client_labels, put_client_rules, put_entry_rules, put_root_rule,
    put_spans,
};
use crate::table::put_rows;
use fw_base::NoMemory;
use std::alloc::{AllocError, Global};

/// The pieces of a text between its newlines.
#[tactic(auto, unfolding(crate::specs::Events::pieces_of))]
fn pieces(alloc: Global, text: &[u8]) -> Result<Vec<&[u8]>, NoMemory>
    ensures { IfOk result (λ pieces. map (λ piece. piece.now) pieces.items ≡ pieces_of text.now) }
{
    let pieces = text.split(|b| *b == b'\n').collect(alloc)?;
    Ok(pieces)
}

/// The lines of a text, each up to its newline, without the last piece.
fn whole_lines<'a>(pieces: &'a [&'a [u8]]) -> &'a [&'a [u8]]
    ensures { map (λ line. line.now) result.now ≡ all_but_last (map (λ piece. piece.now) pieces.now) }
{
    let (lines, _) = pieces.split_at(pieces.len().saturating_sub(1));
    lines
}

/// What stands behind the last newline.
fn rest<'a>(pieces: &[&'a [u8]]) -> &'a [u8]
    ensures { result.now ≡ last_piece (map (λ piece. piece.now) pieces.now) }
{
    line_at(pieces, pieces.len().saturating_sub(1))
}

fn is_boot(event: Event) -> bool
    ensures { result ≡ is_boot event.kind }
{
    match event.kind {
        Kind::Boot { .. } => true,
        _ => false,
    }
}

fn is_cut(event: Event) -> bool
    ensures { result ≡ is_cut event.kind }
{
    match event.kind {
        Kind::Cut => true,
        _ => false,
    }
}

fn is_refused(row: Row) -> bool
    ensures { result ≡ is_refused row.standing }
{
    match row.standing {
        Standing::Refused => true,
        _ => false,
    }
}

fn has_entry(row: Row) -> bool
    ensures { result ≡ is_some row.entry }
{
    row.entry.is_some()
}

fn boots(events: &[Event]) -> usize
    ensures { result ≡ count_by (λ event. is_boot event.kind) events.now }
{
    events.iter().filter(|event| is_boot(**event)).count()
}

fn cuts(events: &[Event]) -> usize
    ensures { result ≡ count_by (λ event. is_cut event.kind) events.now }
{
    events.iter().filter(|event| is_cut(**event)).count()
}

fn entries(rows: &[Row]) -> usize
    ensures { result ≡ count_by (λ row. is_some row.entry) rows.now }
{
    rows.iter().filter(|row| has_entry(**row)).count()
}

fn refusals(rows: &[Row]) -> usize
    ensures { result ≡ count_by (λ row. is_refused row.standing) rows.now }
{
    rows.iter().filter(|row| is_refused(**row)).count()
}

/// The number that a line tells as the last of a report, or else the number told before.
fn told_by(line: Line, before: Option<u64>) -> Option<u64>
    ensures { result ≡ told_by line before }
{
    match line {
        Line::Last(events) => Some(events),
        Line::First | Line::Board | Line::Detail | Line::Event(_) | Line::Unread => before,
    }
}

fn told_with(told: Option<u64>, line: &[u8]) -> Option<u64>
    ensures { result ≡ told_by (line_read line.now) told }
{
    told_by(read_line(line), told)
}

/// The number that the last line of a report tells, if one does.
fn last_told(lines: &[&[u8]]) -> Option<u64>
    ensures { result ≡ last_told (map (λ line. line.now) lines.now) }
{
    let mut told = None;
    for line in lines {
        told = told_with(told, line);
    }
    told
}

fn is_title(line: Line) -> bool
    ensures { result ≡ is_title line }
{
    match line {
        Line::First => true,
        Line::Last(_) | Line::Board | Line::Detail | Line::Event(_) | Line::Unread => false,
    }
}

/// Whether the first line is a report's, or there is none.
fn titled(lines: &[&[u8]]) -> bool
    ensures { result ≡ titled (map (λ line. line.now) lines.now) }
{
    match lines {
        [] => true,
        [first, ..] => is_title(read_line(first)),
    }
}

#[tactic(auto, unfolding(crate::specs::Pages::item))]
fn put_item(out: &mut Vec<u8>, count: u64, words: &[u8]) -> Result<(), AllocError>
    ensures { OnOk result (out.new.items ≡ out.old.items ++ item count words.now) }
{
    out.extend_from_slice(b"<li>")?;
    out.extend_from_slice(words)?;
    out.extend_from_slice(b" <b>")?;
    put_number(out, count)?;
    out.extend_from_slice(ITEM_END)
}

#[tactic(auto, unfolding(crate::specs::Pages::drawn_item))]
fn put_drawn_item(out: &mut Vec<u8>, count: u64) -> Result<(), AllocError>
    ensures { OnOk result (out.new.items ≡ out.old.items ++ drawn_item count) }
{
    out.extend_from_slice(DRAWN_ITEM)?;
    put_number(out, count)?;
    out.extend_from_slice(ITEM_END)
}

fn agrees(told: u64, events: u64) -> &'static str
    ensures { result.now ≡ agrees told events }
{
    if told == events { "fine" } else { "warn" }
}

#[tactic(auto, unfolding(crate::specs::Pages::told_item))]
fn put_told_item(out: &mut Vec<u8>, told: Option<u64>, events: u64) -> Result<(), AllocError>
    ensures { OnOk result (out.new.items ≡ out.old.items ++ told_item told events) }
{
    match told {
        Some(told) => {
            out.extend_from_slice(TOLD_ITEM)?;
            out.extend_from_slice(agrees(told, events).as_bytes())?;
            out.extend_from_slice(TOLD_NUMBER)?;
            put_number(out, told)?;
            out.extend_from_slice(ITEM_END)
        }
        None => out.extend_from_slice(CUT_OFF_ITEM),
    }
}

#[tactic(auto, unfolding(crate::specs::Pages::unread_item))]
fn put_unread_item(out: &mut Vec<u8>, unread: u64) -> Result<(), AllocError>
    ensures { OnOk result (out.new.items ≡ out.old.items ++ unread_item unread) }
{
    if unread == 0 {
        return Ok(());
    }
    out.extend_from_slice(UNREAD_ITEM)?;
    put_number(out, unread)?;
    out.extend_from_slice(ITEM_END)
}

/// Puts how many boots, cuts, entries and refused requests there are behind the page.
#[tactic(auto, unfolding(crate::specs::Pages::counts))]
fn put_counts(out: &mut Vec<u8>, events: &[Event], rows: &[Row]) -> Result<(), AllocError>
    ensures { OnOk result (out.new.items ≡ out.old.items ++ counts events.now rows.now) }
{
    put_item(out, boots(events) as u64, b"boots")?;
    put_item(out, cuts(events) as u64, b"cuts")?;
    put_item(out, entries(rows) as u64, b"entries")?;
    put_item(out, refusals(rows) as u64, b"refused")
}

/// Puts how many events were drawn, and how many of what, behind the page.
#[tactic(auto, unfolding(crate::specs::Pages::tally))]
fn put_tally(
    out: &mut Vec<u8>,
    events: &[Event],
    rows: &[Row],
    told: Option<u64>,
    unread: usize,
) -> Result<(), AllocError>
    ensures { OnOk result (out.new.items ≡ out.old.items ++ tally events.now rows.now told unread) }
{
    put_drawn_item(out, events.len() as u64)?;
    put_told_item(out, told, events.len() as u64)?;
    put_unread_item(out, unread as u64)?;
    put_counts(out, events, rows)
}

fn put_stray(out: &mut Vec<u8>, lines: &[&[u8]], number: usize) -> Result<(), AllocError>
    ensures { OnOk result (out.new.items ≡ out.old.items ++ stray_item (map (λ line. line.now) lines.now) number) }
{
    out.extend_from_slice(STRAY_ITEM)?;
    put_number(out, number as u64)?;
    out.extend_from_slice(STRAY_TEXT)?;
    put_escaped(out, line_at(lines, number.saturating_sub(1)))?;
    out.extend_from_slice(STRAY_END)
}

fn put_strays(out: &mut Vec<u8>, lines: &[&[u8]], strays: &[usize]) -> Result<(), AllocError>
    ensures { OnOk result (out.new.items ≡ out.old.items ++ flat_map (stray_item (map (λ line. line.now) lines.now)) strays.now) }
{
    for number in strays {
        put_stray(out, lines, *number)?;
    }
    Ok(())
}

fn put_rest(out: &mut Vec<u8>, rest: &[u8]) -> Result<(), AllocError>
    ensures { OnOk result (out.new.items ≡ out.old.items ++ rest_item rest.now) }
{
    if rest.is_empty() {
        return Ok(());
    }
    out.extend_from_slice(REST_ITEM)?;
    put_escaped(out, rest)?;
    out.extend_from_slice(STRAY_END)
}

/// Puts all that stands before the marks behind the page.
#[tactic(auto, unfolding(crate::specs::Pages::before_marks))]
fn put_before(
    out: &mut Vec<u8>,
    events: &[Event],
    rows: &[Row],
    told: Option<u64>,
    unread: usize,
) -> Result<(), AllocError>
    ensures { OnOk result (out.new.items ≡ out.old.items ++ before_marks events.now rows.now told unread) }
{
    out.extend_from_slice(HEAD)?;
    put_tally(out, events, rows, told, unread)?;
    out.extend_from_slice(CHART)
}

#[tactic(auto, unfolding(crate::specs::Pages::lanes_part))]
fn put_lanes(
    out: &mut Vec<u8>,
    rows: &[Row],
    total: u64,
    clients: &[u64],
    names: &[&[u8]],
) -> Result<(), AllocError>
    ensures { OnOk result (out.new.items ≡ out.old.items ++ lanes_part rows.now total clients.now (map (λ name. name.now) names.now)) }
{
    put_spans(out, rows, total)?;
    out.extend_from_slice(LANES)?;
    put_client_labels(out, clients)?;
    put_board_labels(out, names)
}

#[tactic(auto, unfolding(crate::specs::Pages::rules_part))]
fn put_rules(
    out: &mut Vec<u8>,
    lines: &[&[u8]],
    rows: &[Row],
    total: u64,
    clients: &[u64],
    names: &[&[u8]],
) -> Result<(), AllocError>
    ensures { OnOk result (out.new.items ≡ out.old.items ++ rules_part (map (λ line. line.now) lines.now) rows.now total clients.now (map (λ name. name.now) names.now)) }
{
    out.extend_from_slice(RULES)?;
    put_root_rule(out, total, clients.len(), names.len())?;
    put_client_rules(out, clients)?;
    put_entry_rules(out, lines, names, clients.len(), rows)
}

#[tactic(auto, unfolding(crate::specs::Pages::table_part))]
fn put_table(out: &mut Vec<u8>, lines: &[&[u8]], rows: &[Row]) -> Result<(), AllocError>
    ensures { OnOk result (out.new.items ≡ out.old.items ++ table_part (map (λ line. line.now) lines.now) rows.now) }
{
    out.extend_from_slice(TABLE)?;
    put_rows(out, lines, rows)
}

#[tactic(auto, unfolding(crate::specs::Pages::notes_part))]
fn put_notes(
    out: &mut Vec<u8>,
    lines: &[&[u8]],
    strays: &[usize],
    rest: &[u8],
) -> Result<(), AllocError>
    ensures { OnOk result (out.new.items ≡ out.old.items ++ notes_part (map (λ line. line.now) lines.now) strays.now rest.now) }
{
    out.extend_from_slice(NOTES)?;
    put_strays(out, lines, strays)?;
    put_rest(out, rest)?;
    out.extend_from_slice(FOOT)
}

/// Puts all that stands behind the marks behind the page.
#[tactic(auto, unfolding(crate::specs::Pages::after_marks))]
fn put_after(
    out: &mut Vec<u8>,
    lines: &[&[u8]],
    rest: &[u8],
    rows: &[Row],
    total: u64,
    clients: &[u64],
    names: &[&[u8]],
    strays: &[usize],
) -> Result<(), AllocError>
    ensures { OnOk result (out.new.items ≡ out.old.items ++ after_marks (map (λ line. line.now) lines.now) rest.now rows.now total clients.now (map (λ name. name.now) names.now) strays.now) }
{
    put_lanes(out, rows, total, clients, names)?;
    put_rules(out, lines, rows, total, clients, names)?;
    put_table(out, lines, rows)?;
    put_notes(out, lines, strays, rest)
}

/// Puts the page behind the page, of what was made of its lines.
fn put_parts(
    out: &mut Vec<u8>,
    lines: &[&[u8]],
    rest: &[u8],
    events: &[Event],
    rows: &[Row],
    clients: &[u64],
    names: &[&[u8]],
    strays: &[usize],
) -> Result<(), NoMemory>
    requires events { events.now ≡ events_of (map (λ line. line.now) lines.now) }
    requires rows { rows.now ≡ rows_of (map (λ line. line.now) lines.now) (events_of (map (λ line. line.now) lines.now)) }
    requires clients { clients.now ≡ clients_of (events_of (map (λ line. line.now) lines.now)) }
    requires names { map (λ name. name.now) names.now ≡ names_of (map (λ line. line.now) lines.now) (rows_of (map (λ line. line.now) lines.now) (events_of (map (λ line. line.now) lines.now))) }
    requires strays { strays.now ≡ strays_of (map (λ line. line.now) lines.now) }
    ensures { OnOk result (out.new.items ≡ out.old.items ++ page_of (map (λ line. line.now) lines.now) rest.now) }
{
    put_before(out, events, rows, last_told(lines), strays.len())?;
    put_marks(out, lines, events)?;
    put_after(
        out,
        lines,
        rest,
        rows,
        events.len() as u64,
        clients,
        names,
        strays,
    )?;
    Ok(())
}

/// Makes rows and lanes of the events, and puts the page behind the page.
fn put_all(
    alloc: Global,
    out: &mut Vec<u8>,
    lines: &[&[u8]],
    rest: &[u8],
    events: &[Event],
    strays: &[usize],
) -> Result<(), NoMemory>
    requires events { events.now ≡ events_of (map (λ line. line.now) lines.now) }
    requires strays { strays.now ≡ strays_of (map (λ line. line.now) lines.now) }
    ensures { OnOk result (out.new.items ≡ out.old.items ++ page_of (map (λ line. line.now) lines.now) rest.now) }
{
    let rows = rows(alloc, lines, events)?;
    let clients = clients(alloc, events)?;
    let names = names(alloc, lines, &rows)?;
    put_parts(out, lines, rest, events, &rows, &clients, &names, strays)?;
    Ok(())
}

/// What the page of lines, and of what stands behind the last, shows.
fn drawn_by(lines: &[&[u8]], rest: &[u8], events: &[Event], strays: &[usize]) -> Drawn
    requires events { events.now ≡ events_of (map (λ line. line.now) lines.now) }
    requires strays { strays.now ≡ strays_of (map (λ line. line.now) lines.now) }
    ensures { result ≡ drawn_by (map (λ line. line.now) lines.now) rest.now }
{
    Drawn {
        events: events.len() as u64,
        unread: strays.len() as u64,
        told: last_told(lines),
        titled: titled(lines),
        trailing: !rest.is_empty(),
    }
}

/// Puts the page of the lines of a text, and of what stands behind the last, behind the page, and says what it shows.
fn put_lines(
    alloc: Global,
    out: &mut Vec<u8>,
    lines: &[&[u8]],
    rest: &[u8],
) -> Result<Drawn, NoMemory>
    ensures page { OnOk result (out.new.items ≡ out.old.items ++ page_of (map (λ line. line.now) lines.now) rest.now) }
    ensures drawn { IfOk result (λ drawn. drawn ≡ drawn_by (map (λ line. line.now) lines.now) rest.now) }
{
    let events = events(alloc, lines)?;
    let strays = strays(alloc, lines)?;
    put_all(alloc, out, lines, rest, &events, &strays)?;
    Ok(drawn_by(lines, rest, &events, &strays))
}

/// Puts the page of a text behind the page, and says what it shows.
pub fn put_page(alloc: Global, out: &mut Vec<u8>, text: &[u8]) -> Result<Drawn, NoMemory>
    ensures page { OnOk result (out.new.items ≡ out.old.items ++ page text.now) }
    ensures drawn { IfOk result (λ drawn. drawn ≡ drawn_of text.now) }
{
    let pieces = pieces(alloc, text)?;
    put_lines(alloc, out, whole_lines(&pieces), rest(&pieces))
}
