//! What a log counts.
ghost use Rattle.std.specs.Prelude.{◌≡◌, filter, length, option_map, unwrap_or, if◌then◌else◌, false};
ghost use Rattle.std.specs.List.{list_any};
ghost use Rattle.command_outputs.specs.Summed.{begins_write, counts_of, fails, is_began, is_claimed, is_kept, is_of, succeeds};

use emulated_boards::Mark;
use history_keeper::RowState;
use update_log::{AskAnswer, ClaimAnswer, Event, Told};

/// What a log counts.
#[derive(Clone, Copy, Debug)]
pub struct Counted {
    /// Claims that took an entry.
    pub accepted: usize,
    /// Writes that began.
    pub writes: usize,
    /// Entries that were finished with success.
    pub success: usize,
    /// Entries that were finished as failed.
    pub failed: usize,
    /// Asks for what a row was there of.
    pub kept: usize,
}

/// What is counted.
#[derive(Clone, Copy)]
pub enum Kind {
    Accepted,
    Writes,
    Success,
    Failed,
    Kept,
}

/// What the events of a log count.
pub fn count(log: &[Event]) -> Counted
    ensures { result ≡ counts_of log.now }
{
    Counted {
        accepted: count_of(Kind::Accepted, log),
        writes: count_of(Kind::Writes, log),
        success: count_of(Kind::Success, log),
        failed: count_of(Kind::Failed, log),
        kept: count_of(Kind::Kept, log),
    }
}

/// How many events are of a kind.
fn count_of(kind: Kind, log: &[Event]) -> usize
    ensures { result ≡ length (filter (is_of kind) log.now) }
{
    let mut count: usize = 0;
    for event in log {
        count += one(is_of(kind, event));
    }
    count
}

fn one(yes: bool) -> usize
    ensures { result ≡ (if yes then 1 else 0) }
{
    if yes { 1 } else { 0 }
}

fn is_of(kind: Kind, event: &Event) -> bool
    ensures { result ≡ is_of kind event.now }
{
    match kind {
        Kind::Accepted => is_claimed(event),
        Kind::Writes => begins_write(event),
        Kind::Success => succeeds(event),
        Kind::Failed => fails(event),
        Kind::Kept => is_kept(event),
    }
}

fn is_claimed(event: &Event) -> bool
    ensures { result ≡ is_claimed event.now }
{
    matches!(
        event,
        Event::Claim {
            answer: ClaimAnswer::Entry(_),
            ..
        }
    )
}

fn begins_write(event: &Event) -> bool
    ensures { result ≡ begins_write event.now }
{
    match event {
        Event::End { told, .. } => has_begun(told),
        _ => false,
    }
}

/// Whether a begin is among the marks.
fn has_begun(told: &Told) -> bool
    ensures { result ≡ list_any is_began told.now }
{
    let (first, second) = told.parts();
    is_began(first) || is_began(second)
}

fn is_began(mark: Option<Mark>) -> bool
    ensures { result ≡ unwrap_or (option_map is_began mark) false }
{
    matches!(mark, Some(Mark::Began { .. }))
}

fn succeeds(event: &Event) -> bool
    ensures { result ≡ succeeds event.now }
{
    matches!(
        event,
        Event::Finish {
            state: RowState::Success,
            ..
        }
    )
}

fn fails(event: &Event) -> bool
    ensures { result ≡ fails event.now }
{
    matches!(
        event,
        Event::Finish {
            state: RowState::Failed,
            ..
        }
    )
}

fn is_kept(event: &Event) -> bool
    ensures { result ≡ is_kept event.now }
{
    matches!(
        event,
        Event::Ask {
            answer: AskAnswer::Kept { .. },
            ..
        }
    )
}
