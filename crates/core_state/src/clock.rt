//! How far the boot that runs has come.
ghost use Rattle.std.specs.Prelude.{◌≡◌, ◌<◌, ◌+◌, ◌^◌, None, false};
ghost use Rattle.update_log.specs.Pasts.{boots_after, counted_after, is_boot, is_counted, is_cut, is_fault, is_found_fault, is_keeper_fault, limit_after, meets_fault, off_after, puts_off, time_after};
ghost use Rattle.core_state.specs.CoreFolds.{is_refused_by_keeper, stops_resuming};

use update_log::{ClaimAnswer, Event, Found, Refusal, ResumeAnswer, Stored};

/// The boot that runs: how many boots there were with it, its time in seconds and its limit, how many
/// of its events are counted, and whether it is off.
#[derive(Clone, Copy, Debug)]
pub struct Clock {
    pub boots: usize,
    pub time: u64,
    pub limit: Option<u32>,
    pub counted: usize,
    pub off: bool,
}

impl Clock {
    /// Before the first boot.
    pub fn new() -> Clock
        ensures { result ≡ record { boots = 0; time = 0; limit = None; counted = 0; off = false } }
    {
        Clock {
            boots: 0,
            time: 0,
            limit: None,
            counted: 0,
            off: false,
        }
    }

    /// After one more event.
    pub fn after(self, event: &Event) -> Clock
        requires boots { self.boots + 1 < 2 ^ 64 }
        requires counted { self.counted + 1 < 2 ^ 64 }
        ensures boots { result.boots ≡ boots_after event.now self.boots }
        ensures time { result.time ≡ time_after event.now self.time }
        ensures limit { result.limit ≡ limit_after event.now self.limit }
        ensures counted { result.counted ≡ counted_after event.now self.counted }
        ensures off { result.off ≡ off_after event.now self.off }
    {
        Clock {
            boots: boots_after(event, self.boots),
            time: time_after(event, self.time),
            limit: limit_after(event, self.limit),
            counted: counted_after(event, self.counted),
            off: off_after(event, self.off),
        }
    }
}

fn boots_after(event: &Event, before: usize) -> usize
    requires { before + 1 < 2 ^ 64 }
    ensures { result ≡ boots_after event.now before }
{
    if is_boot(event) { before + 1 } else { before }
}

fn counted_after(event: &Event, before: usize) -> usize
    requires { before + 1 < 2 ^ 64 }
    ensures { result ≡ counted_after event.now before }
{
    if is_boot(event) {
        0
    } else if is_counted(event) {
        before + 1
    } else {
        before
    }
}

fn off_after(event: &Event, before: bool) -> bool
    ensures { result ≡ off_after event.now before }
{
    if is_boot(event) {
        puts_off(event)
    } else {
        puts_off(event) || before
    }
}

fn time_after(event: &Event, before: u64) -> u64
    ensures { result ≡ time_after event.now before }
{
    match event {
        Event::Boot { time, .. } => *time,
        Event::Query { .. }
        | Event::Ask { .. }
        | Event::Claim { .. }
        | Event::Schedule { .. }
        | Event::Resume { .. }
        | Event::Start { .. }
        | Event::End { .. }
        | Event::Finish { .. }
        | Event::Judge { .. }
        | Event::Unplug { .. }
        | Event::Plug { .. }
        | Event::GiveBack { .. }
        | Event::Cut => before,
    }
}

fn limit_after(event: &Event, before: Option<u32>) -> Option<u32>
    ensures { result ≡ limit_after event.now before }
{
    match event {
        Event::Boot { limit, .. } => *limit,
        Event::Query { .. }
        | Event::Ask { .. }
        | Event::Claim { .. }
        | Event::Schedule { .. }
        | Event::Resume { .. }
        | Event::Start { .. }
        | Event::End { .. }
        | Event::Finish { .. }
        | Event::Judge { .. }
        | Event::Unplug { .. }
        | Event::Plug { .. }
        | Event::GiveBack { .. }
        | Event::Cut => before,
    }
}
/// Whether the event is the start of a boot.
pub fn is_boot(event: &Event) -> bool
    ensures { result ≡ is_boot event.now }
{
    match event {
        Event::Boot { .. } => true,
        Event::Query { .. }
        | Event::Ask { .. }
        | Event::Claim { .. }
        | Event::Schedule { .. }
        | Event::Resume { .. }
        | Event::Start { .. }
        | Event::End { .. }
        | Event::Finish { .. }
        | Event::Judge { .. }
        | Event::Unplug { .. }
        | Event::Plug { .. }
        | Event::GiveBack { .. }
        | Event::Cut => false,
    }
}

fn is_counted(event: &Event) -> bool
    ensures { result ≡ is_counted event.now }
{
    match event {
        Event::Boot { .. } | Event::GiveBack { .. } | Event::Cut => false,
        Event::Query { .. }
        | Event::Ask { .. }
        | Event::Claim { .. }
        | Event::Schedule { .. }
        | Event::Resume { .. }
        | Event::Start { .. }
        | Event::End { .. }
        | Event::Finish { .. }
        | Event::Judge { .. }
        | Event::Unplug { .. }
        | Event::Plug { .. } => true,
    }
}

fn puts_off(event: &Event) -> bool
    ensures { result ≡ puts_off event.now }
{
    is_cut(event) || meets_fault(event)
}

fn is_cut(event: &Event) -> bool
    ensures { result ≡ is_cut event.now }
{
    match event {
        Event::Cut => true,
        Event::Boot { .. }
        | Event::Query { .. }
        | Event::Ask { .. }
        | Event::Claim { .. }
        | Event::Schedule { .. }
        | Event::Resume { .. }
        | Event::Start { .. }
        | Event::End { .. }
        | Event::Finish { .. }
        | Event::Judge { .. }
        | Event::Unplug { .. }
        | Event::Plug { .. }
        | Event::GiveBack { .. } => false,
    }
}

/// Whether the event met a fault of the keeper.
pub fn meets_fault(event: &Event) -> bool
    ensures { result ≡ meets_fault event.now }
{
    match event {
        Event::Boot { found, .. } => is_found_fault(*found),
        Event::Claim { answer, .. } | Event::Schedule { answer, .. } => refuses_by_keeper(*answer),
        Event::Resume { answer, stored, .. } => stops_resuming(*answer, *stored),
        Event::Finish { stored, .. } | Event::Judge { stored, .. } => is_fault(*stored),
        Event::Query { .. }
        | Event::Ask { .. }
        | Event::Start { .. }
        | Event::End { .. }
        | Event::Unplug { .. }
        | Event::Plug { .. }
        | Event::GiveBack { .. }
        | Event::Cut => false,
    }
}

fn is_found_fault(found: Found) -> bool
    ensures { result ≡ is_found_fault found }
{
    match found {
        Found::Fault => true,
        Found::Plain | Found::Kept | Found::Lost => false,
    }
}

fn is_fault(stored: Stored) -> bool
    ensures { result ≡ is_fault stored }
{
    match stored {
        Stored::Fault => true,
        Stored::Yes | Stored::NoMemory | Stored::Unchanged => false,
    }
}

fn refuses_by_keeper(answer: ClaimAnswer) -> bool
    ensures { result ≡ is_refused_by_keeper answer }
{
    match answer {
        ClaimAnswer::Refused(refusal) => is_keeper_fault(refusal),
        ClaimAnswer::Entry(_) | ClaimAnswer::Kept { .. } => false,
    }
}

fn stops_resuming(answer: ResumeAnswer, stored: Stored) -> bool
    ensures { result ≡ stops_resuming answer stored }
{
    match answer {
        ResumeAnswer::Refused(refusal) => is_keeper_fault(refusal) || is_fault(stored),
        ResumeAnswer::Begun => is_fault(stored),
    }
}

/// Whether the refusal is that the history couldn't be written.
pub fn is_keeper_fault(refusal: Refusal) -> bool
    ensures { result ≡ is_keeper_fault refusal }
{
    match refusal {
        Refusal::KeeperFault => true,
        Refusal::NoDevice
        | Refusal::NoRelease
        | Refusal::Busy { .. }
        | Refusal::Unsettled { .. }
        | Refusal::NotUpdatable
        | Refusal::Locked
        | Refusal::Problem(_)
        | Refusal::SameVersion
        | Refusal::Older
        | Refusal::Unmet(_)
        | Refusal::Veto { .. }
        | Refusal::Size { .. }
        | Refusal::NoRoom { .. }
        | Refusal::Payload(_)
        | Refusal::RowsFull
        | Refusal::Retry(_) => false,
    }
}
