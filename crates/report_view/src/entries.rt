//! The rows of a report: its requests and entries, as its events make them.
ghost use Rattle.std.specs.Prelude.{◌≡◌, IfOk, OnOk, map};
ghost use Rattle.std.specs.List.{list_any};
ghost use Rattle.report_view.specs.Rows.{is_held, is_hold, is_known, is_listed_entry, is_of, plain_row, row_after, row_begun, rows_after, rows_of, said, unnamed_row, with_row};

use crate::event::{Event, line_at};
use crate::line::Kind;
use crate::row::{
    Row, Standing, answered, claimed, cut_off, finished, is_entry, judged, resumed, step_ended,
    step_started,
};
use crate::words::word;
use fw_base::NoMemory;
use std::alloc::Global;

fn is_held(standing: Standing) -> bool
    ensures { result ≡ is_held standing }
{
    match standing {
        Standing::Held => true,
        _ => false,
    }
}

/// Whether the row is the hold of this client, with the tag that the line at this place names.
fn is_hold(lines: &[&[u8]], at: usize, client: u64, row: &Row) -> bool
    ensures { result ≡ is_hold (map (λ line. line.now) lines.now) at client row.now }
{
    is_held(row.standing)
        && row.client == client
        && word(line_at(lines, row.at), 3) == word(line_at(lines, at), 3)
}

/// The row of which the line at this place told how it stands.
fn said(at: usize, row: Row) -> Row
    ensures { result ≡ said at row }
{
    Row { said: at, ..row }
}

fn give_back(tagged: bool, lines: &[&[u8]], at: usize, client: u64, row: &mut Row)
    ensures { row.new ≡ row_after (map (λ line. line.now) lines.now) 0 at (Kind.GaveBack client tagged) row.old }
{
    if tagged && is_hold(lines, at, client, row) {
        *row = Row {
            standing: Standing::GivenBack,
            said: at,
            ..*row
        };
    }
}

/// Changes a row as an event leaves it. Nearly every event leaves nearly every row as it is, so what decides is looked
/// at in its place.
fn change_row(lines: &[&[u8]], event: Event, row: &mut Row)
    ensures { row.new ≡ row_after (map (λ line. line.now) lines.now) event.number event.at event.kind row.old }
{
    let number = event.number;
    match event.kind {
        Kind::Cut => *row = cut_off(number, *row),
        Kind::Claim { client, answer } => {
            if is_hold(lines, event.at, client, row) {
                *row = said(event.at, claimed(number, answer, *row));
            }
        }
        Kind::GaveBack { client, tagged } => give_back(tagged, lines, event.at, client, row),
        Kind::Resume {
            entry,
            resumed: told,
            ..
        } => {
            if is_entry(entry, row.entry) {
                *row = said(event.at, resumed(number, told, *row));
            }
        }
        Kind::Start { entry, step } => {
            if is_entry(entry, row.entry) {
                *row = step_started(number, step, *row);
            }
        }
        Kind::End { entry, step, good } => {
            if is_entry(entry, row.entry) {
                *row = step_ended(number, step, good, *row);
            }
        }
        Kind::Finish { entry, state } => {
            if is_entry(entry, row.entry) {
                *row = said(event.at, finished(number, state, *row));
            }
        }
        Kind::Judge { entry, state } => {
            if is_entry(entry, row.entry) {
                *row = said(event.at, judged(state, *row));
            }
        }
        _ => {}
    }
}

/// Changes each row as an event leaves it.
fn change_rows(lines: &[&[u8]], event: Event, rows: &mut [Row])
    ensures { rows.new ≡ map (row_after (map (λ line. line.now) lines.now) event.number event.at event.kind) rows.old }
{
    for row in rows.iter_mut() {
        change_row(lines, event, row);
    }
}

/// A row of which nothing is known but where it was told first, and of whom.
fn plain_row(number: u64, at: usize, named: bool, client: u64) -> Row
    ensures { result ≡ plain_row number at named client }
{
    Row {
        at,
        named,
        said: at,
        client,
        entry: None,
        opened: number,
        claimed: None,
        began: None,
        ended: None,
        closed: None,
        torn: false,
        standing: Standing::Pending,
    }
}

/// The row of an entry whose request isn't in the report.
fn unnamed_row(number: u64, at: usize, entry: u64) -> Row
    ensures { result ≡ unnamed_row number at entry }
{
    Row {
        entry: Some(entry),
        ..plain_row(number, at, false, 0)
    }
}

/// The row that an event may begin: of a request, or of an entry that no row has.
fn row_begun(event: Event) -> Option<Row>
    ensures { result ≡ row_begun event.number event.at event.kind }
{
    let number = event.number;
    let at = event.at;
    match event.kind {
        Kind::Ask { client, answer } => Some(answered(
            Standing::Begun,
            answer,
            plain_row(number, at, true, client),
        )),
        Kind::Schedule { client, answer } => Some(answered(
            Standing::Pending,
            answer,
            plain_row(number, at, true, client),
        )),
        Kind::Recall { entry, .. }
        | Kind::Resume { entry, .. }
        | Kind::Start { entry, .. }
        | Kind::End { entry, .. }
        | Kind::Finish { entry, .. }
        | Kind::Judge { entry, .. } => Some(unnamed_row(number, at, entry)),
        Kind::Cut
        | Kind::Claim { .. }
        | Kind::GaveBack { .. }
        | Kind::Boot { .. }
        | Kind::Plug { .. }
        | Kind::Unplug { .. }
        | Kind::Question { .. } => None,
    }
}

fn is_entry_listed(entry: u64, rows: &[Row]) -> bool
    ensures { result ≡ list_any (is_of entry) rows.now }
{
    rows.iter().any(|row| is_entry(entry, row.entry))
}

fn is_listed(entry: Option<u64>, rows: &[Row]) -> bool
    ensures { result ≡ is_listed_entry entry rows.now }
{
    match entry {
        Some(entry) => is_entry_listed(entry, rows),
        None => false,
    }
}

fn is_known(row: Row, rows: &[Row]) -> bool
    ensures { result ≡ is_known row rows.now }
{
    !row.named && is_listed(row.entry, rows)
}

fn push_unless_known(rows: &mut Vec<Row>, row: Row) -> Result<(), NoMemory>
    ensures { OnOk result (rows.new.items ≡ with_row (Some row) rows.old.items) }
{
    if is_known(row, rows) {
        return Ok(());
    }
    rows.push(row)?;
    Ok(())
}

fn push_begun(rows: &mut Vec<Row>, begun: Option<Row>) -> Result<(), NoMemory>
    ensures { OnOk result (rows.new.items ≡ with_row begun rows.old.items) }
{
    match begun {
        Some(row) => push_unless_known(rows, row),
        None => Ok(()),
    }
}

/// The rows after an event.
fn follow(lines: &[&[u8]], event: Event, rows: &mut Vec<Row>) -> Result<(), NoMemory>
    ensures { OnOk result (rows.new.items ≡ rows_after (map (λ line. line.now) lines.now) rows.old.items event) }
{
    push_begun(rows, row_begun(event))?;
    change_rows(lines, event, rows);
    Ok(())
}

/// The rows that the events make, in the order in which they were told first.
pub fn rows(alloc: Global, lines: &[&[u8]], events: &[Event]) -> Result<Vec<Row>, NoMemory>
    ensures { IfOk result (λ rows. rows.items ≡ rows_of (map (λ line. line.now) lines.now) events.now) }
{
    let mut rows = Vec::new(alloc);
    for event in events {
        follow(lines, *event, &mut rows)?;
    }
    Ok(rows)
}
