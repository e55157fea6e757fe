//! What one event makes of what clients have out.
ghost use Rattle.std.specs.Prelude.{◌≡◌, ◌==◌, ◌||◌, ◌∷◌, ◌++◌, [], ◌<◌, ◌≤◌, ◌+◌, ℕ, not, vec_len, vec_capacity, false, if◌then◌else◌};
ghost use Rattle.std.specs.List.{list_any};
ghost use Rattle.update_log.specs.Pasts.{finished_after};
ghost use Rattle.update_log.specs.Holding.{blocks_fetched, blocks_fetched_if, holds_after, live_after, open_after, without_client, without_entry, without_steps};

use request_verdicts::blocks_of;
use update_log::{
    AskAnswer, Back, ClaimAnswer, Event, FetchNote, Held, LiveEntry, OpenStep, ResumeAnswer,
};

/// The blocks of a payload that was fetched.
pub fn blocks_fetched(note: &FetchNote) -> u32
    ensures { result ≡ blocks_fetched note.now }
{
    match note {
        FetchNote::Whole { len, .. } => blocks_of(*len),
        FetchNote::Missing
        | FetchNote::Length { .. }
        | FetchNote::Mismatch { .. }
        | FetchNote::ShelfFault => 0,
    }
}

fn blocks_fetched_if(note: &Option<FetchNote>) -> u32
    ensures { result ≡ blocks_fetched_if note.now }
{
    match note {
        Some(note) => blocks_fetched(note),
        None => 0,
    }
}

fn leave_entry(live: &mut Vec<LiveEntry>, entry: u32)
    ensures items { live.new.items ≡ without_entry entry live.old.items }
    ensures capacity { vec_capacity live.new ≡ vec_capacity live.old }
    ensures shorter { vec_len live.new ≤ vec_len live.old }
{
    live.retain(|l| l.entry != entry);
}

fn leave_client(holds: &mut Vec<Held>, client: u32)
    ensures items { holds.new.items ≡ without_client client holds.old.items }
    ensures capacity { vec_capacity holds.new ≡ vec_capacity holds.old }
    ensures shorter { vec_len holds.new ≤ vec_len holds.old }
{
    holds.retain(|h| h.client != client);
}

fn leave_steps(steps: &mut Vec<OpenStep>, entry: u32)
    ensures items { steps.new.items ≡ without_steps entry steps.old.items }
    ensures capacity { vec_capacity steps.new ≡ vec_capacity steps.old }
    ensures shorter { vec_len steps.new ≤ vec_len steps.old }
{
    steps.retain(|s| s.entry != entry);
}

/// The live entries after an event.
pub fn live_after(live: &mut Vec<LiveEntry>, event: &Event)
    requires { vec_len live.old < vec_capacity live.old }
    ensures items { live.new.items ≡ live_after event.now live.old.items }
    ensures capacity { vec_capacity live.new ≡ vec_capacity live.old }
    ensures room { vec_len live.new ≤ vec_len live.old + 1 }
{
    match event {
        Event::Boot { .. } => live.clear(),
        Event::Claim {
            client,
            fetched,
            answer: ClaimAnswer::Entry(entry),
            ..
        } => live.push_reserved(LiveEntry {
            client: *client,
            entry: *entry,
            blocks: blocks_fetched(fetched),
        }),
        Event::Resume {
            client,
            entry,
            fetched,
            answer: ResumeAnswer::Begun,
            ..
        } => live.push_reserved(LiveEntry {
            client: *client,
            entry: *entry,
            blocks: blocks_fetched_if(fetched),
        }),
        Event::Finish { entry, .. } => leave_entry(live, *entry),
        Event::GiveBack {
            what: Back::Entry(entry),
            ..
        } => leave_entry(live, *entry),
        Event::Claim { .. }
        | Event::Resume { .. }
        | Event::GiveBack { .. }
        | Event::Query { .. }
        | Event::Ask { .. }
        | Event::Schedule { .. }
        | Event::Start { .. }
        | Event::End { .. }
        | Event::Judge { .. }
        | Event::Unplug { .. }
        | Event::Plug { .. }
        | Event::Cut => {}
    }
}

/// The holds after an event.
pub fn holds_after(holds: &mut Vec<Held>, event: &Event)
    requires { vec_len holds.old < vec_capacity holds.old }
    ensures items { holds.new.items ≡ holds_after event.now holds.old.items }
    ensures capacity { vec_capacity holds.new ≡ vec_capacity holds.old }
    ensures room { vec_len holds.new ≤ vec_len holds.old + 1 }
{
    match event {
        Event::Boot { .. } => holds.clear(),
        Event::Ask {
            client,
            request,
            pending,
            answer: AskAnswer::Hold { blocks, release },
        } => {
            leave_client(holds, *client);
            holds.push_reserved(Held {
                client: *client,
                request: *request,
                pending: *pending,
                blocks: *blocks,
                release: *release,
            })
        }
        Event::Claim { client, .. } => leave_client(holds, *client),
        Event::Resume { client, .. } => leave_client(holds, *client),
        Event::GiveBack { client, .. } => leave_client(holds, *client),
        Event::Ask { .. }
        | Event::Query { .. }
        | Event::Schedule { .. }
        | Event::Start { .. }
        | Event::End { .. }
        | Event::Finish { .. }
        | Event::Judge { .. }
        | Event::Unplug { .. }
        | Event::Plug { .. }
        | Event::Cut => {}
    }
}

/// The open steps after an event.
pub fn open_after(steps: &mut Vec<OpenStep>, event: &Event)
    requires { vec_len steps.old < vec_capacity steps.old }
    ensures items { steps.new.items ≡ open_after event.now steps.old.items }
    ensures capacity { vec_capacity steps.new ≡ vec_capacity steps.old }
    ensures room { vec_len steps.new ≤ vec_len steps.old + 1 }
{
    match event {
        Event::Boot { .. } => steps.clear(),
        Event::Start { client, entry, op } => steps.push_reserved(OpenStep {
            client: *client,
            entry: *entry,
            op: *op,
        }),
        Event::End { entry, .. } => leave_steps(steps, *entry),
        Event::Query { .. }
        | Event::Ask { .. }
        | Event::Claim { .. }
        | Event::Schedule { .. }
        | Event::Resume { .. }
        | Event::Finish { .. }
        | Event::Judge { .. }
        | Event::Unplug { .. }
        | Event::Plug { .. }
        | Event::GiveBack { .. }
        | Event::Cut => {}
    }
}

/// The entries that were finished in the boot that runs, after an event.
pub fn finished_after(finished: &mut Vec<u32>, event: &Event)
    requires { vec_len finished.old < vec_capacity finished.old }
    ensures items { (entry : ℕ) → list_any (λ e. e == entry) finished.new.items ≡ finished_after entry event.now (list_any (λ e. e == entry) finished.old.items) }
    ensures capacity { vec_capacity finished.new ≡ vec_capacity finished.old }
    ensures room { vec_len finished.new ≤ vec_len finished.old + 1 }
{
    match event {
        Event::Boot { .. } => finished.clear(),
        Event::Finish { entry, .. } => finished.push_reserved(*entry),
        Event::Query { .. }
        | Event::Ask { .. }
        | Event::Claim { .. }
        | Event::Schedule { .. }
        | Event::Resume { .. }
        | Event::Start { .. }
        | Event::End { .. }
        | Event::Judge { .. }
        | Event::Unplug { .. }
        | Event::Plug { .. }
        | Event::GiveBack { .. }
        | Event::Cut => {}
    }
}
