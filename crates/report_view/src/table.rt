//! The table of requests and entries.
ghost use Rattle.std.specs.Prelude.{◌≡◌, ◌++◌, OnOk, map};
ghost use Rattle.std.specs.List.{flat_map};
ghost use Rattle.report_view.specs.Tables.{number_cell, request_cells, row_back, row_front, table_row, to_text, write_cell};

use crate::event::line_at;
use crate::pieces::{put_escaped, put_number};
use crate::row::Row;
use crate::spans::standing_word;
use crate::words::word;
use std::alloc::AllocError;

/// Puts a cell behind the page, with a number if there is one.
fn put_number_cell(out: &mut Vec<u8>, number: Option<u64>) -> Result<(), AllocError>
    ensures { OnOk result (out.new.items ≡ out.old.items ++ number_cell number) }
{
    match number {
        Some(number) => {
            out.extend_from_slice(b"<td>")?;
            put_number(out, number)
        }
        None => out.extend_from_slice(b"<td>"),
    }
}

fn put_to(out: &mut Vec<u8>, ended: Option<u64>) -> Result<(), AllocError>
    ensures { OnOk result (out.new.items ≡ out.old.items ++ to_text ended) }
{
    match ended {
        Some(end) => {
            out.extend_from_slice(b" to ")?;
            put_number(out, end)
        }
        None => Ok(()),
    }
}

/// Puts a cell with the begin and the end of a write behind the page.
fn put_write_cell(
    out: &mut Vec<u8>,
    began: Option<u64>,
    ended: Option<u64>,
) -> Result<(), AllocError>
    ensures { OnOk result (out.new.items ≡ out.old.items ++ write_cell began ended) }
{
    put_number_cell(out, began)?;
    put_to(out, ended)
}

/// Puts the tag, the device and the version behind the page, where a line names them.
fn put_request_cells(out: &mut Vec<u8>, named: bool, line: &[u8]) -> Result<(), AllocError>
    ensures { OnOk result (out.new.items ≡ out.old.items ++ request_cells named line.now) }
{
    if !named {
        return out.extend_from_slice(b"<td><td><td>");
    }
    out.extend_from_slice(b"<td>")?;
    put_escaped(out, word(line, 3))?;
    out.extend_from_slice(b"<td>")?;
    put_escaped(out, word(line, 4))?;
    out.extend_from_slice(b"<td>")?;
    put_escaped(out, word(line, 5))
}

fn put_row_front(out: &mut Vec<u8>, row: Row) -> Result<(), AllocError>
    ensures { OnOk result (out.new.items ≡ out.old.items ++ row_front row) }
{
    out.extend_from_slice(b"<tr class=")?;
    out.extend_from_slice(standing_word(row.standing).as_bytes())?;
    out.extend_from_slice(b" data-e=")?;
    put_number(out, row.opened)?;
    out.extend_from_slice(b">")?;
    put_number_cell(out, row.entry)
}

fn put_row_back(out: &mut Vec<u8>, lines: &[&[u8]], row: Row) -> Result<(), AllocError>
    ensures { OnOk result (out.new.items ≡ out.old.items ++ row_back (map (λ line. line.now) lines.now) row) }
{
    put_number_cell(out, Some(row.client))?;
    put_write_cell(out, row.began, row.ended)?;
    out.extend_from_slice(b"<td>")?;
    out.extend_from_slice(standing_word(row.standing).as_bytes())?;
    out.extend_from_slice(b"<td>")?;
    put_escaped(out, line_at(lines, row.said))?;
    out.extend_from_slice(b"\n")
}

fn put_row(out: &mut Vec<u8>, lines: &[&[u8]], row: Row) -> Result<(), AllocError>
    ensures { OnOk result (out.new.items ≡ out.old.items ++ table_row (map (λ line. line.now) lines.now) row) }
{
    put_row_front(out, row)?;
    put_request_cells(out, row.named, line_at(lines, row.at))?;
    put_row_back(out, lines, row)
}

/// Puts the row of each request and entry behind the page.
pub fn put_rows(out: &mut Vec<u8>, lines: &[&[u8]], rows: &[Row]) -> Result<(), AllocError>
    ensures { OnOk result (out.new.items ≡ out.old.items ++ flat_map (table_row (map (λ line. line.now) lines.now)) rows.now) }
{
    for row in rows {
        put_row(out, lines, *row)?;
    }
    Ok(())
}
