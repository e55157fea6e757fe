//! What clients have out, looked up.
ghost use Rattle.std.specs.Prelude.{◌≡◌, ◌==◌, find, option_copied, IsSome, IfSome};
ghost use Rattle.std.specs.List.{list_any};

use update_log::{Held, LiveEntry, OpenStep, Trace, Traced};

/// The live entry of that number.
pub fn live_with(live: &[LiveEntry], entry: u32) -> Option<&LiveEntry>
    ensures { option_copied result ≡ find (λ l. l.entry == entry) live.now }
{
    live.iter().find(|l| l.entry == entry)
}

/// The hold of a client.
pub fn hold_of(holds: &[Held], client: u32) -> Option<&Held>
    ensures { option_copied result ≡ find (λ h. h.client == client) holds.now }
{
    holds.iter().find(|h| h.client == client)
}

/// The open step of an entry.
pub fn step_of(steps: &[OpenStep], entry: u32) -> Option<&OpenStep>
    ensures { option_copied result ≡ find (λ s. s.entry == entry) steps.now }
{
    steps.iter().find(|s| s.entry == entry)
}

/// Whether the entry is in the list.
pub fn has_entry(entries: &[u32], entry: u32) -> bool
    ensures { result ≡ list_any (λ e. e == entry) entries.now }
{
    entries.iter().any(|e| *e == entry)
}

/// The trace of an entry, which must be there.
pub fn trace_of(traces: &[Traced], entry: u32) -> Trace
    requires { IsSome (find (λ t. t.entry == entry) traces.now) }
    ensures { IfSome (find (λ t. t.entry == entry) traces.now) (λ t. result ≡ t.trace) }
{
    trace_with(traces, entry).unwrap().trace
}

fn trace_with(traces: &[Traced], entry: u32) -> Option<&Traced>
    ensures { option_copied result ≡ find (λ t. t.entry == entry) traces.now }
{
    traces.iter().find(|t| t.entry == entry)
}
