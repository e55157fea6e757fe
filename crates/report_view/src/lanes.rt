//! The lanes of a page: its clients, and the boards that its boots and entries name.
ghost use Rattle.std.specs.Prelude.{◌≡◌, ◌==◌, [], IfOk, OnOk, map, position};
ghost use Rattle.std.specs.List.{list_any};
ghost use Rattle.std.specs.Str.{bytes_eq};
ghost use Rattle.report_view.specs.Lanes.{boards_of, client_of, clients_of, device_of, entry_of, has_entry, name_place, names_of, rank, with_board, with_client, with_client_of, with_name, with_name_of};

use crate::event::{Event, line_at};
use crate::line::{Kind, Line};
use crate::reading::read_line;
use crate::row::Row;
use crate::words::word;
use fw_base::NoMemory;
use std::alloc::Global;

/// The client in whose lane an event is drawn. The daemon is client 0.
pub fn client_of(kind: Kind) -> Option<u64>
    ensures { result ≡ client_of kind }
{
    match kind {
        Kind::Ask { client, .. }
        | Kind::Claim { client, .. }
        | Kind::Schedule { client, .. }
        | Kind::Resume { client, .. }
        | Kind::Plug { client, .. }
        | Kind::Unplug { client, .. }
        | Kind::GaveBack { client, .. }
        | Kind::Question { client } => Some(client),
        Kind::Recall { .. } => Some(0),
        Kind::Boot { .. }
        | Kind::Cut
        | Kind::Start { .. }
        | Kind::End { .. }
        | Kind::Finish { .. }
        | Kind::Judge { .. } => None,
    }
}

/// The entry in whose board's lane an event is drawn.
pub fn entry_of(kind: Kind) -> Option<u64>
    ensures { result ≡ entry_of kind }
{
    match kind {
        Kind::Start { entry, .. }
        | Kind::End { entry, .. }
        | Kind::Finish { entry, .. }
        | Kind::Judge { entry, .. } => Some(entry),
        Kind::Ask { .. }
        | Kind::Claim { .. }
        | Kind::Schedule { .. }
        | Kind::Resume { .. }
        | Kind::Plug { .. }
        | Kind::Unplug { .. }
        | Kind::GaveBack { .. }
        | Kind::Question { .. }
        | Kind::Recall { .. }
        | Kind::Boot { .. }
        | Kind::Cut => None,
    }
}

fn is_client_known(client: u64, clients: &[u64]) -> bool
    ensures { result ≡ list_any (λ known. known == client) clients.now }
{
    clients.iter().any(|known| *known == client)
}

fn push_client(clients: &mut Vec<u64>, client: u64) -> Result<(), NoMemory>
    ensures { OnOk result (clients.new.items ≡ with_client client clients.old.items) }
{
    if is_client_known(client, clients) {
        return Ok(());
    }
    clients.push(client)?;
    Ok(())
}

fn push_client_of(clients: &mut Vec<u64>, kind: Kind) -> Result<(), NoMemory>
    ensures { OnOk result (clients.new.items ≡ with_client_of (client_of kind) clients.old.items) }
{
    match client_of(kind) {
        Some(client) => push_client(clients, client),
        None => Ok(()),
    }
}

/// The clients of the events, in the order in which they come first.
pub fn clients(alloc: Global, events: &[Event]) -> Result<Vec<u64>, NoMemory>
    ensures { IfOk result (λ clients. clients.items ≡ clients_of events.now) }
{
    let mut clients = Vec::new(alloc);
    for event in events {
        push_client_of(&mut clients, event.kind)?;
    }
    Ok(clients)
}

/// How many of the clients have a lower number.
pub fn rank(client: u64, clients: &[u64]) -> usize
    ensures { result ≡ rank client clients.now }
{
    clients.iter().filter(|known| **known < client).count()
}

fn same(known: &[u8], name: &[u8]) -> bool
    ensures { result ≡ bytes_eq known.now name.now }
{
    known == name
}

fn is_name_among(name: &[u8], names: &[&[u8]]) -> bool
    ensures { result ≡ list_any (λ known. bytes_eq known.now name.now) names.now }
{
    names.iter().any(|known| same(known, name))
}

fn is_name_known(name: &[u8], names: &[&[u8]]) -> bool
    ensures { result ≡ list_any (λ known. bytes_eq known name.now) (map (λ known. known.now) names.now) }
{
    is_name_among(name, names)
}

fn push_name<'a>(names: &mut Vec<&'a [u8]>, name: &'a [u8]) -> Result<(), NoMemory>
    ensures { OnOk result (map (λ known. known.now) names.new.items ≡ with_name name.now (map (λ known. known.now) names.old.items)) }
{
    if is_name_known(name, names) {
        return Ok(());
    }
    names.push(name)?;
    Ok(())
}

fn push_board<'a>(names: &mut Vec<&'a [u8]>, line: &'a [u8]) -> Result<(), NoMemory>
    ensures { OnOk result (map (λ known. known.now) names.new.items ≡ with_board (map (λ known. known.now) names.old.items) line.now) }
{
    match read_line(line) {
        Line::Board => push_name(names, word(line, 3)),
        _ => Ok(()),
    }
}

/// Puts the boards that boots name behind the names.
fn push_boards<'a>(names: &mut Vec<&'a [u8]>, lines: &[&'a [u8]]) -> Result<(), NoMemory>
    requires { names.old.items ≡ [] }
    ensures { OnOk result (map (λ known. known.now) names.new.items ≡ boards_of (map (λ line. line.now) lines.now)) }
{
    for line in lines {
        push_board(names, line)?;
    }
    Ok(())
}

/// The device of a row, as its request names it, or `-` where no request does.
pub fn device_of<'a>(lines: &[&'a [u8]], row: Row) -> &'a [u8]
    ensures { result.now ≡ device_of (map (λ line. line.now) lines.now) row }
{
    if row.named {
        word(line_at(lines, row.at), 4)
    } else {
        b"-"
    }
}

fn has_entry(row: Row) -> bool
    ensures { result ≡ has_entry row.entry }
{
    match row.entry {
        Some(_) => true,
        None => false,
    }
}

fn push_name_of<'a>(names: &mut Vec<&'a [u8]>, lines: &[&'a [u8]], row: Row) -> Result<(), NoMemory>
    ensures { OnOk result (map (λ known. known.now) names.new.items ≡ with_name_of (map (λ line. line.now) lines.now) (map (λ known. known.now) names.old.items) row) }
{
    if has_entry(row) {
        return push_name(names, device_of(lines, row));
    }
    Ok(())
}

/// Puts the devices of entries behind the boards that boots name.
fn push_names<'a>(
    names: &mut Vec<&'a [u8]>,
    lines: &[&'a [u8]],
    rows: &[Row],
) -> Result<(), NoMemory>
    requires { map (λ known. known.now) names.old.items ≡ boards_of (map (λ line. line.now) lines.now) }
    ensures { OnOk result (map (λ known. known.now) names.new.items ≡ names_of (map (λ line. line.now) lines.now) rows.now) }
{
    for row in rows {
        push_name_of(names, lines, *row)?;
    }
    Ok(())
}

/// The names of the boards' lanes: the boards that boots name, then the devices of entries that are none of them.
pub fn names<'a>(alloc: Global, lines: &[&'a [u8]], rows: &[Row]) -> Result<Vec<&'a [u8]>, NoMemory>
    ensures { IfOk result (λ names. map (λ known. known.now) names.items ≡ names_of (map (λ line. line.now) lines.now) rows.now) }
{
    let mut names = Vec::new(alloc);
    push_boards(&mut names, lines)?;
    push_names(&mut names, lines, rows)?;
    Ok(names)
}

fn place_among(name: &[u8], names: &[&[u8]]) -> Option<usize>
    ensures { result ≡ position (λ known. bytes_eq known.now name.now) names.now }
{
    names.iter().position(|known| same(known, name))
}

/// The place of a name among the names.
pub fn name_place(name: &[u8], names: &[&[u8]]) -> usize
    ensures { result ≡ name_place name.now (map (λ known. known.now) names.now) }
{
    place_among(name, names).unwrap_or(names.len())
}
