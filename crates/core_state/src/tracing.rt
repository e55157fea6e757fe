//! What one event makes of the traces.
ghost use Rattle.std.specs.Prelude.{◌≡◌, ◌<◌, ◌≤◌, ◌+◌, ◌++◌, Some, All, length, map, option_map, vec_len, vec_capacity};
ghost use Rattle.core_state.specs.CoreSteps.{HasPlace, stepped, taken_with, traces_on, without_trace};
ghost use Rattle.update_log.specs.Holding.{request_held};
ghost use Rattle.update_log.specs.Steps.{traced, with_step};

use crate::asking::target_of;
use crate::finding::hold_of;
use crate::taking::first_trace;
use device_list::Devices;
use update_log::{
    Back, ClaimAnswer, Event, Facts, Held, Request, ResumeAnswer, Trace, TraceStep, Traced,
};

/// The traces of the live entries after an event.
pub fn traces_after(
    traces: &mut Vec<Traced>,
    facts: &Facts,
    devices: &Devices,
    holds: &[Held],
    event: &Event,
)
    requires room { vec_len traces.old < vec_capacity traces.old }
    requires places { All (HasPlace event.now) traces.old.items }
    ensures items { traces.new.items ≡ traces_on facts.now devices.now holds.now event.now traces.old.items }
    ensures capacity { vec_capacity traces.new ≡ vec_capacity traces.old }
    ensures room { vec_len traces.new ≤ vec_len traces.old + 1 }
{
    match event {
        Event::Boot { .. } => traces.clear(),
        Event::Claim {
            request,
            answer: ClaimAnswer::Entry(entry),
            ..
        } => take_up(traces, *entry, traced(facts, devices, request)),
        Event::Resume {
            client,
            entry,
            answer: ResumeAnswer::Begun,
            ..
        } => take_up(traces, *entry, traced_held(facts, devices, holds, *client)),
        Event::End {
            entry,
            op,
            outcome,
            seen,
            ..
        } => add_step(
            traces,
            *entry,
            TraceStep {
                op: *op,
                outcome: *outcome,
                seen: *seen,
            },
        ),
        Event::Finish { entry, .. } => leave_trace(traces, *entry),
        Event::GiveBack {
            what: Back::Entry(entry),
            ..
        } => leave_trace(traces, *entry),
        Event::Claim { .. }
        | Event::Resume { .. }
        | Event::GiveBack { .. }
        | Event::Query { .. }
        | Event::Ask { .. }
        | Event::Schedule { .. }
        | Event::Start { .. }
        | Event::Judge { .. }
        | Event::Unplug { .. }
        | Event::Plug { .. }
        | Event::Cut => {}
    }
}

fn traced(facts: &Facts, devices: &Devices, request: &Request) -> Option<Trace>
    ensures { result ≡ traced facts.now devices.now (Some request.now) }
{
    match target_of(facts, devices, request) {
        Some(target) => Some(first_trace(&target)),
        None => None,
    }
}

fn traced_held(facts: &Facts, devices: &Devices, holds: &[Held], client: u32) -> Option<Trace>
    ensures { result ≡ traced facts.now devices.now (request_held holds.now client) }
{
    match hold_of(holds, client) {
        Some(held) => traced(facts, devices, &held.request),
        None => None,
    }
}

fn take_up(traces: &mut Vec<Traced>, entry: u32, trace: Option<Trace>)
    requires { vec_len traces.old < vec_capacity traces.old }
    ensures items { traces.new.items ≡ traces.old.items ++ taken_with entry trace }
    ensures capacity { vec_capacity traces.new ≡ vec_capacity traces.old }
    ensures room { vec_len traces.new ≤ vec_len traces.old + 1 }
{
    match trace {
        Some(trace) => traces.push_reserved(Traced { entry, trace }),
        None => {}
    }
}

fn leave_trace(traces: &mut Vec<Traced>, entry: u32)
    ensures items { traces.new.items ≡ without_trace entry traces.old.items }
    ensures capacity { vec_capacity traces.new ≡ vec_capacity traces.old }
    ensures shorter { vec_len traces.new ≤ vec_len traces.old }
{
    traces.retain(|t| t.entry != entry);
}

fn add_step(traces: &mut [Traced], entry: u32, step: TraceStep)
    requires { All (λ t. t.entry ≡ entry → length t.trace.steps < 6) traces.old }
    ensures { traces.new ≡ map (stepped entry step) traces.old }
{
    for traced in traces.iter_mut() {
        *traced = stepped(*traced, entry, step);
    }
}

fn stepped(traced: Traced, entry: u32, step: TraceStep) -> Traced
    requires { traced.entry ≡ entry → length traced.trace.steps < 6 }
    ensures { result ≡ stepped entry step traced }
{
    if traced.entry != entry {
        return traced;
    }
    Traced {
        entry: traced.entry,
        trace: with_step(traced.trace, step),
    }
}

fn with_step(trace: Trace, step: TraceStep) -> Trace
    requires { length trace.steps < 6 }
    ensures { result ≡ with_step step trace }
{
    let mut steps = trace.steps;
    steps.push(step);
    Trace { steps, ..trace }
}
