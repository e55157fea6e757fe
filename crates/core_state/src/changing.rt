//! The change that is made at one event, and the one that is in doubt after it.
ghost use Rattle.std.specs.Prelude.{◌≡◌, ◌≤◌, ◌+◌, length};
ghost use Rattle.core_state.specs.CoreSteps.{changed_if, doubt_at, kept_by, made_at, made_by};
ghost use Rattle.update_log.specs.Known.{doubt_by, doubt_found, fate_answered, fate_stored};

use crate::clock::is_keeper_fault;
use crate::row_changes::change_rows;
use history_keeper::Change;
use row_index::IndexedRows;
use update_log::{ClaimAnswer, Event, Found, Stored};

/// The change that is made at an event, which asks for a change, where another one is in doubt.
pub fn made_at(event: &Event, change: &Option<Change>, doubt: &Option<Change>) -> Option<Change>
    ensures { result ≡ made_at event.now change.now doubt.now }
{
    match event {
        Event::Boot { found, .. } => kept_by(*found, *doubt),
        Event::Claim { answer, .. } | Event::Schedule { answer, .. } => made_answered(
            *answer, *change,
        ),
        Event::Resume { stored, .. } | Event::Finish { stored, .. } | Event::Judge { stored, .. } =>
            made_stored(*stored, *change),
        Event::Query { .. }
        | Event::Ask { .. }
        | Event::Start { .. }
        | Event::End { .. }
        | Event::Unplug { .. }
        | Event::Plug { .. }
        | Event::GiveBack { .. }
        | Event::Cut => None,
    }
}

fn kept_by(found: Found, doubt: Option<Change>) -> Option<Change>
    ensures { result ≡ kept_by found doubt }
{
    match found {
        Found::Kept => doubt,
        Found::Plain | Found::Lost | Found::Fault => None,
    }
}

fn made_answered(answer: ClaimAnswer, change: Option<Change>) -> Option<Change>
    ensures { result ≡ made_by (fate_answered answer) change }
{
    match answer {
        ClaimAnswer::Entry(_) => change,
        ClaimAnswer::Kept { .. } | ClaimAnswer::Refused(_) => None,
    }
}

fn made_stored(stored: Stored, change: Option<Change>) -> Option<Change>
    ensures { result ≡ made_by (fate_stored stored) change }
{
    match stored {
        Stored::Yes => change,
        Stored::Fault | Stored::NoMemory | Stored::Unchanged => None,
    }
}

/// The change that is in doubt after it.
pub fn doubt_at(event: &Event, change: &Option<Change>, doubt: &Option<Change>) -> Option<Change>
    ensures { result ≡ doubt_at event.now change.now doubt.now }
{
    match event {
        Event::Boot { found, .. } => doubt_found(*found, *doubt),
        Event::Claim { answer, .. } | Event::Schedule { answer, .. } => doubt_answered(
            *answer, *change, *doubt,
        ),
        Event::Resume { stored, .. } | Event::Finish { stored, .. } | Event::Judge { stored, .. } =>
            doubt_stored(*stored, *change, *doubt),
        Event::Query { .. }
        | Event::Ask { .. }
        | Event::Start { .. }
        | Event::End { .. }
        | Event::Unplug { .. }
        | Event::Plug { .. }
        | Event::GiveBack { .. }
        | Event::Cut => *doubt,
    }
}

fn doubt_found(found: Found, doubt: Option<Change>) -> Option<Change>
    ensures { result ≡ doubt_found found doubt }
{
    match found {
        Found::Kept | Found::Lost => None,
        Found::Plain | Found::Fault => doubt,
    }
}

fn doubt_answered(
    answer: ClaimAnswer,
    change: Option<Change>,
    doubt: Option<Change>,
) -> Option<Change>
    ensures { result ≡ doubt_by (fate_answered answer) change doubt }
{
    match answer {
        ClaimAnswer::Refused(refusal) => if is_keeper_fault(refusal) {
            change
        } else {
            doubt
        },
        ClaimAnswer::Entry(_) | ClaimAnswer::Kept { .. } => doubt,
    }
}

fn doubt_stored(stored: Stored, change: Option<Change>, doubt: Option<Change>) -> Option<Change>
    ensures { result ≡ doubt_by (fate_stored stored) change doubt }
{
    match stored {
        Stored::Fault => change,
        Stored::Yes | Stored::NoMemory | Stored::Unchanged => doubt,
    }
}

/// Makes the change, where there is one, for which there is room.
pub fn change_if(rows: &mut IndexedRows, change: Option<Change>)
    requires { length (changed_if change rows.old.rows) ≤ length rows.old.rows + rows.old.room }
    ensures rows { rows.new.rows ≡ changed_if change rows.old.rows }
    ensures room { rows.new.room + length rows.new.rows ≡ rows.old.room + length rows.old.rows }
{
    match change {
        Some(change) => change_rows(rows, &change),
        None => {}
    }
}
