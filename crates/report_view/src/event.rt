//! The events of a report, in its order, and the lines that are no lines of a report.
ghost use Rattle.std.specs.Prelude.{◌≡◌, ◌++◌, IfOk, OnOk, length, map};
ghost use Rattle.report_view.specs.Events.{event_here, events, is_owner, is_stray, line_at, stray_here, strays};
ghost use Rattle.report_view.specs.Reading.{line_read};

use crate::line::{Kind, Line};
use crate::reading::read_line;
use fw_base::NoMemory;
use std::alloc::Global;

/// An event: its number from 1, the place of its line, and what happened.
#[derive(Clone, Copy, Debug, PartialEq, Eq)]
pub struct Event {
    pub number: u64,
    pub at: usize,
    pub kind: Kind,
}

/// The line at a place, or nothing behind the last.
pub fn line_at<'a>(lines: &[&'a [u8]], at: usize) -> &'a [u8]
    ensures { result.now ≡ line_at (map (λ line. line.now) lines.now) at }
{
    if at < lines.len() { lines[at] } else { &[] }
}

/// Puts the event of a line at a place behind those before it, where it tells one.
fn push_event(found: &mut Vec<Event>, at: usize, line: &[u8]) -> Result<(), NoMemory>
    ensures { OnOk result (found.new.items ≡ found.old.items ++ event_here (line_read line.now) at (length found.old.items)) }
{
    match read_line(line) {
        Line::Event(kind) => {
            let number = found.len() as u64 + 1;
            found.push(Event { number, at, kind })?;
            Ok(())
        }
        _ => Ok(()),
    }
}

/// The events of the lines, in order.
pub fn events(alloc: Global, lines: &[&[u8]]) -> Result<Vec<Event>, NoMemory>
    ensures { IfOk result (λ found. found.items ≡ events (map (λ line. line.now) lines.now)) }
{
    let mut found = Vec::new(alloc);
    for (at, line) in lines.iter().enumerate() {
        push_event(&mut found, at, line)?;
    }
    Ok(found)
}

fn is_owner(line: Line, owned: bool) -> bool
    ensures { result ≡ is_owner line owned }
{
    match line {
        Line::Event(_) => true,
        Line::Board | Line::Detail => owned,
        Line::First | Line::Last(_) | Line::Unread => false,
    }
}

fn is_stray(line: Line, owned: bool) -> bool
    ensures { result ≡ is_stray line owned }
{
    match line {
        Line::Unread => true,
        Line::Board | Line::Detail => !owned,
        Line::Event(_) | Line::First | Line::Last(_) => false,
    }
}

fn push_stray(
    found: &mut Vec<usize>,
    number: usize,
    line: Line,
    owned: bool,
) -> Result<(), NoMemory>
    ensures { OnOk result (found.new.items ≡ found.old.items ++ stray_here (is_stray line owned) number) }
{
    if is_stray(line, owned) {
        found.push(number)?;
    }
    Ok(())
}

/// The numbers, from 1, of the lines that are none of a report: those of no known form, and those that belong to no
/// event.
pub fn strays(alloc: Global, lines: &[&[u8]]) -> Result<Vec<usize>, NoMemory>
    ensures { IfOk result (λ found. found.items ≡ strays (map (λ line. line.now) lines.now)) }
{
    let mut found = Vec::new(alloc);
    let mut owned = false;
    for (at, line) in lines.iter().enumerate() {
        let told = read_line(line);
        push_stray(&mut found, at + 1, told, owned)?;
        owned = is_owner(told, owned);
    }
    Ok(found)
}
