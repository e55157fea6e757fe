//! What a log says, by scans of it.
ghost use Rattle.std.specs.Prelude.{◌≡◌, ◌-◌, ◌+◌, ◌/◌, not, if◌then◌else◌, false};
ghost use Rattle.std.specs.List.{list_any};
ghost use Rattle.update_log.specs.Holding.{blocks_fetched, blocks_fetched_if, blocks_of, held, is_live, live};
ghost use Rattle.update_log.specs.Pasts.{past_of};
ghost use Rattle.log_stories.specs.Plain.{ends_hold, ends_live, held_in, held_since, lasts, live_in, live_said, live_since};

use update_log::{AskAnswer, Back, ClaimAnswer, Event, FetchNote, ResumeAnswer};

/// Whether an entry is live.
pub fn is_live(log: &[Event], entry: u32) -> bool
    ensures { result ≡ is_live (live (past_of log.now)) entry }
{
    let mut live = false;
    for event in log {
        live = live_after(entry, event, live);
    }
    live
}

fn live_after(entry: u32, event: &Event, before: bool) -> bool
    ensures { result ≡ live_said entry event.now before }
{
    match event {
        Event::Boot { .. } => false,
        Event::Claim {
            answer: ClaimAnswer::Entry(taken),
            ..
        } => before || *taken == entry,
        Event::Resume {
            entry: taken,
            answer: ResumeAnswer::Begun,
            ..
        } => before || *taken == entry,
        Event::Finish { entry: ended, .. } => *ended != entry && before,
        Event::GiveBack {
            what: Back::Entry(ended),
            ..
        } => *ended != entry && before,
        Event::Claim { .. }
        | Event::Resume { .. }
        | Event::GiveBack { .. }
        | Event::Query { .. }
        | Event::Ask { .. }
        | Event::Schedule { .. }
        | Event::Start { .. }
        | Event::End { .. }
        | Event::Judge { .. }
        | Event::Unplug { .. }
        | Event::Plug { .. }
        | Event::Cut => before,
    }
}

/// The blocks that a payload of so many bytes takes.
pub fn blocks_of(size: u32) -> u32
    ensures { result ≡ blocks_of size }
{
    ((size as u64 + 4095) / 4096) as u32
}

fn blocks_fetched(note: &FetchNote) -> u32
    ensures { result ≡ blocks_fetched note.now }
{
    match note {
        FetchNote::Whole { len, .. } => blocks_of(*len),
        FetchNote::Missing
        | FetchNote::Length { .. }
        | FetchNote::Mismatch { .. }
        | FetchNote::ShelfFault => 0,
    }
}

fn blocks_fetched_if(note: &Option<FetchNote>) -> u32
    ensures { result ≡ blocks_fetched_if note.now }
{
    match note {
        Some(note) => blocks_fetched(note),
        None => 0,
    }
}

#[tactic(auto, unfolding(crate::specs::Plain::ends_hold))]
fn ends_hold(event: &Event, client: u32) -> bool
    ensures { result ≡ ends_hold event.now client }
{
    match event {
        Event::Boot { .. } => true,
        Event::Ask {
            client: other,
            answer: AskAnswer::Hold { .. },
            ..
        } => client == *other,
        Event::Claim { client: other, .. } => client == *other,
        Event::Resume { client: other, .. } => client == *other,
        Event::GiveBack { client: other, .. } => client == *other,
        Event::Ask { .. }
        | Event::Query { .. }
        | Event::Schedule { .. }
        | Event::Start { .. }
        | Event::End { .. }
        | Event::Finish { .. }
        | Event::Judge { .. }
        | Event::Unplug { .. }
        | Event::Plug { .. }
        | Event::Cut => false,
    }
}

#[tactic(auto, unfolding(crate::specs::Plain::ends_live))]
fn ends_live(event: &Event, entry: u32) -> bool
    ensures { result ≡ ends_live event.now entry }
{
    match event {
        Event::Boot { .. } => true,
        Event::Finish { entry: ended, .. } => entry == *ended,
        Event::GiveBack {
            what: Back::Entry(ended),
            ..
        } => entry == *ended,
        Event::GiveBack { .. }
        | Event::Ask { .. }
        | Event::Claim { .. }
        | Event::Resume { .. }
        | Event::Query { .. }
        | Event::Schedule { .. }
        | Event::Start { .. }
        | Event::End { .. }
        | Event::Judge { .. }
        | Event::Unplug { .. }
        | Event::Plug { .. }
        | Event::Cut => false,
    }
}

fn hold_lasts(later: &[Event], client: u32) -> bool
    ensures { result ≡ lasts ends_hold later.now client }
{
    !hold_ends(later, client)
}

fn hold_ends(later: &[Event], client: u32) -> bool
    ensures { result ≡ list_any (λ event. ends_hold event client) later.now }
{
    later.iter().any(|event| ends_hold(event, client))
}

fn entry_lasts(later: &[Event], entry: u32) -> bool
    ensures { result ≡ lasts ends_live later.now entry }
{
    !entry_ends(later, entry)
}

fn entry_ends(later: &[Event], entry: u32) -> bool
    ensures { result ≡ list_any (λ event. ends_live event entry) later.now }
{
    later.iter().any(|event| ends_live(event, entry))
}

fn held_since(event: &Event, later: &[Event]) -> u32
    ensures { result ≡ held_since event.now later.now }
{
    match event {
        Event::Ask {
            client,
            answer: AskAnswer::Hold { blocks, .. },
            ..
        } => where_so(hold_lasts(later, *client), *blocks),
        Event::Boot { .. }
        | Event::Ask { .. }
        | Event::Claim { .. }
        | Event::Resume { .. }
        | Event::Query { .. }
        | Event::Schedule { .. }
        | Event::Start { .. }
        | Event::End { .. }
        | Event::Finish { .. }
        | Event::Judge { .. }
        | Event::Unplug { .. }
        | Event::Plug { .. }
        | Event::GiveBack { .. }
        | Event::Cut => 0,
    }
}

fn live_since(event: &Event, later: &[Event]) -> u32
    ensures { result ≡ live_since event.now later.now }
{
    match event {
        Event::Claim {
            fetched,
            answer: ClaimAnswer::Entry(entry),
            ..
        } => where_so(entry_lasts(later, *entry), blocks_fetched(fetched)),
        Event::Resume {
            entry,
            fetched,
            answer: ResumeAnswer::Begun,
            ..
        } => where_so(entry_lasts(later, *entry), blocks_fetched_if(fetched)),
        Event::Boot { .. }
        | Event::Ask { .. }
        | Event::Claim { .. }
        | Event::Resume { .. }
        | Event::Query { .. }
        | Event::Schedule { .. }
        | Event::Start { .. }
        | Event::End { .. }
        | Event::Finish { .. }
        | Event::Judge { .. }
        | Event::Unplug { .. }
        | Event::Plug { .. }
        | Event::GiveBack { .. }
        | Event::Cut => 0,
    }
}

fn where_so(test: bool, blocks: u32) -> u32
    ensures { result ≡ (if test then blocks else 0) }
{
    if test { blocks } else { 0 }
}

fn without_holds(pool: u32, log: &[Event]) -> u32
    ensures { result ≡ pool - held_in log.now }
{
    let mut free = pool;
    for (at, event) in log.iter().enumerate() {
        free = free.saturating_sub(held_since(event, &log[at + 1..]));
    }
    free
}

fn without_live(pool: u32, log: &[Event]) -> u32
    ensures { result ≡ pool - live_in log.now }
{
    let mut free = pool;
    for (at, event) in log.iter().enumerate() {
        free = free.saturating_sub(live_since(event, &log[at + 1..]));
    }
    free
}

/// The blocks of a pool that no hold and no live entry has.
pub fn free_blocks(pool: u32, log: &[Event]) -> u32
    ensures { result ≡ pool - held (past_of log.now) }
{
    without_live(without_holds(pool, log), log)
}
