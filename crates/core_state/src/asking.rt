//! The change that one event asks for.
ghost use Rattle.std.specs.Prelude.{◌≡◌, ◌<◌, ◌+◌, ◌^◌, true, None, Some, IsTrue, IfSome, if◌then◌else◌, length, option_map, unwrap_or, option_copied};
ghost use Rattle.fw_facts.specs.Views.{is_home};
ghost use Rattle.request_verdicts.specs.Cases.{target_with};
ghost use Rattle.core_state.specs.CoreSteps.{addition_on, advance_on, asks_row, change_on, is_taken, resumption_on};
ghost use Rattle.update_log.specs.Known.{reason_of, row_of, target};
ghost use Rattle.update_log.specs.Pasts.{is_keeper_fault};

use crate::clock::is_keeper_fault;
use crate::taking::new_row;
use device_list::Devices;
use history_keeper::{Change, Row, RowState};
use request_verdicts::{Target, target_at};
use row_index::IndexedRows;
use update_log::{ClaimAnswer, Event, Facts, Refusal, Request, ResumeAnswer};

/// What a change is made of: the facts, the devices and the rows as they stand, and the time.
#[derive(Drop)]
pub struct Asking<'a> {
    pub facts: &'a Facts,
    pub devices: &'a Devices,
    pub rows: &'a IndexedRows,
    pub time: u64,
}

/// The change that an event asks for, where a row that it asks for isn't refused.
pub fn change_on(asking: &Asking, event: &Event) -> Option<Change>
    requires few { asks_row event.now ≡ true → length asking.now.rows.now.rows + 1 < 2 ^ 32 }
    ensures { result ≡ change_on asking.now.facts.now asking.now.time asking.now.devices.now asking.now.rows.now.rows event.now }
{
    match event {
        Event::Claim {
            client,
            request,
            answer,
            ..
        } => addition_if(asking, *client, request, *answer, RowState::Begun),
        Event::Schedule {
            client,
            request,
            answer,
        } => addition_if(asking, *client, request, *answer, RowState::Pending),
        Event::Resume { entry, answer, .. } => Some(resumption_on(
            asking.rows,
            asking.time,
            *entry,
            *answer,
        )),
        Event::Finish { entry, state, .. } => Some(advance_on(
            asking.rows,
            asking.time,
            *entry,
            *state,
        )),
        Event::Judge { entry, state, .. } => Some(advance_on(
            asking.rows,
            asking.time,
            *entry,
            *state,
        )),
        Event::Boot { .. }
        | Event::Query { .. }
        | Event::Ask { .. }
        | Event::Start { .. }
        | Event::End { .. }
        | Event::Unplug { .. }
        | Event::Plug { .. }
        | Event::GiveBack { .. }
        | Event::Cut => None,
    }
}

fn addition_if(
    asking: &Asking,
    client: u32,
    request: &Request,
    answer: ClaimAnswer,
    state: RowState,
) -> Option<Change>
    requires few { is_taken answer ≡ true → length asking.now.rows.now.rows + 1 < 2 ^ 32 }
    ensures { result ≡ (if is_taken answer then addition_on asking.now.facts.now asking.now.time asking.now.devices.now asking.now.rows.now.rows client request.now state else None) }
{
    if is_taken(answer) {
        addition_on(asking, client, request, state)
    } else {
        None
    }
}

fn is_taken(answer: ClaimAnswer) -> bool
    ensures { result ≡ is_taken answer }
{
    match answer {
        ClaimAnswer::Entry(_) => true,
        ClaimAnswer::Kept { .. } => false,
        ClaimAnswer::Refused(refusal) => is_keeper_fault(refusal),
    }
}

fn addition_on(asking: &Asking, client: u32, request: &Request, state: RowState) -> Option<Change>
    requires few { length asking.now.rows.now.rows + 1 < 2 ^ 32 }
    ensures { result ≡ addition_on asking.now.facts.now asking.now.time asking.now.devices.now asking.now.rows.now.rows client request.now state }
{
    let entry = asking.rows.rows().len() as u32 + 1;
    match target_of(asking.facts, asking.devices, request) {
        Some(target) => row_added(new_row(entry, asking.time, client, request, state, &target)),
        None => None,
    }
}

fn row_added(row: Option<Row>) -> Option<Change>
    ensures { result ≡ option_map (λ r. Change.Add r) row }
{
    match row {
        Some(row) => Some(Change::Add(row)),
        None => None,
    }
}

/// The target of a request, which is present.
pub fn target_of<'a>(
    facts: &'a Facts,
    devices: &'a Devices,
    request: &Request,
) -> Option<Target<'a>>
    ensures exact { option_map (λ t. target_with t.place t.view.now t.at t.component.now t.release.now) result ≡ target facts.now devices.now request.now }
    ensures home { IfSome result (λ t. IsTrue (is_home t.view.now.seen)) }
{
    let place = devices.resolve(&request.device)?;
    target_at(facts, devices.views(), &request.version, place)
}

fn advance_on(rows: &IndexedRows, time: u64, entry: u32, state: RowState) -> Change
    ensures { result ≡ advance_on time rows.now.rows entry state }
{
    Change::Advance {
        entry,
        state,
        reason: reason_of(rows, entry),
        time,
    }
}

fn reason_of(rows: &IndexedRows, entry: u32) -> u8
    ensures { result ≡ reason_of rows.now.rows entry }
{
    match rows.row_of(entry) {
        Some(row) => row.reason,
        None => 0,
    }
}

fn resumption_on(rows: &IndexedRows, time: u64, entry: u32, answer: ResumeAnswer) -> Change
    ensures { result ≡ resumption_on time rows.now.rows entry answer }
{
    match answer {
        ResumeAnswer::Begun => advance_on(rows, time, entry, RowState::Begun),
        ResumeAnswer::Refused(refusal) => if is_by_keeper(&refusal) {
            advance_on(rows, time, entry, RowState::Begun)
        } else {
            Change::Advance {
                entry,
                state: RowState::Failed,
                reason: refusal.number(),
                time,
            }
        },
    }
}

fn is_by_keeper(refusal: &Refusal) -> bool
    ensures { result ≡ is_keeper_fault refusal.now }
{
    is_keeper_fault(*refusal)
}
