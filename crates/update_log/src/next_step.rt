//! The next step of a live entry.
ghost use Rattle.std.specs.Prelude.{◌≡◌, ◌<◌, ◌&&◌, ◌||◌, not, option_copied};
ghost use Rattle.std.specs.List.{list_all, list_any};
ghost use Rattle.update_log.specs.Steps.{next_step, may_be_next, is_wanted, last_number, op_number, last_seen, is_op, in_runtime, fits, went_well, was_taken, ended_well};

use crate::event::Op;
use crate::trace::{Trace, TraceStep};
use fw_facts::{DeviceFlag, Mode, Seen};

// The steps, in the order in which they are taken.
const OPS: [Op; 6] = [
    Op::Prepare,
    Op::Detach,
    Op::Write,
    Op::Attach,
    Op::Reload,
    Op::Cleanup,
];

/// The next step of an entry that has come so far: the first behind the last one that ended that is
/// wanted. There is none once cleanup has ended.
///
/// Prepare, reload and cleanup are always wanted. A detach is wanted where prepare went well, of a
/// device that needs its boot loader and was in runtime mode; a write where each step so far went
/// well and what the port shows fits the release; an attach where there was a detach, or the device
/// was in bootloader mode.
pub fn next_op(trace: &Trace) -> Option<Op>
    ensures { result ≡ next_step trace.now }
{
    OPS.iter().copied().find(|op| may_be_next(trace, *op))
}

fn may_be_next(trace: &Trace, op: Op) -> bool
    ensures { result ≡ may_be_next trace.now op }
{
    last_number(trace.steps.items()) < number(op) && is_wanted(trace, op)
}

fn is_wanted(trace: &Trace, op: Op) -> bool
    ensures { result ≡ is_wanted trace.now op }
{
    match op {
        Op::Prepare | Op::Reload | Op::Cleanup => true,
        Op::Detach => wants_detach(trace),
        Op::Write => wants_write(trace),
        Op::Attach => was_taken(Op::Detach, trace.steps.items()) || !in_runtime(trace.mode),
    }
}

fn wants_detach(trace: &Trace) -> bool
    ensures { result ≡ is_wanted trace.now Op.Detach }
{
    ended_well(Op::Prepare, trace.steps.items())
        && trace.flags.has(DeviceFlag::NeedsBootloader)
        && in_runtime(trace.mode)
}

fn wants_write(trace: &Trace) -> bool
    ensures { result ≡ is_wanted trace.now Op.Write }
{
    let steps = trace.steps.items();
    all_went_well(steps) && fits(trace, last_seen(steps))
}

fn all_went_well(steps: &[TraceStep]) -> bool
    ensures { result ≡ list_all went_well steps.now }
{
    steps.iter().all(|step| went_well(step))
}

fn number(op: Op) -> u8
    ensures { result ≡ op_number op }
{
    op as u8
}

fn is_op(a: Op, b: Op) -> bool
    ensures { result ≡ is_op a b }
{
    number(a) == number(b)
}

fn went_well(step: &TraceStep) -> bool
    ensures { result ≡ went_well step.now }
{
    step.outcome.is_ok()
}

fn was_taken(op: Op, steps: &[TraceStep]) -> bool
    ensures { result ≡ was_taken op steps.now }
{
    steps.iter().any(|step| is_op(step.op, op))
}

/// Whether a step of that kind ended well.
pub fn ended_well(op: Op, steps: &[TraceStep]) -> bool
    ensures { result ≡ ended_well op steps.now }
{
    steps
        .iter()
        .any(|step| is_op(step.op, op) && went_well(step))
}

fn last_number(steps: &[TraceStep]) -> u8
    ensures { result ≡ last_number steps.now }
{
    match steps.last() {
        Some(step) => number(step.op),
        None => 0,
    }
}

fn last_seen(steps: &[TraceStep]) -> Seen
    ensures { result ≡ last_seen steps.now }
{
    match steps.last() {
        Some(step) => step.seen,
        None => Seen::Gone,
    }
}

fn in_runtime(mode: Mode) -> bool
    ensures { result ≡ in_runtime mode }
{
    match mode {
        Mode::Runtime => true,
        Mode::Bootloader => false,
    }
}

fn fits(trace: &Trace, seen: Seen) -> bool
    ensures { result ≡ fits trace.now seen }
{
    match seen {
        Seen::Home {
            mode: Mode::Runtime,
            ..
        } => trace.runtime_fits,
        Seen::Home {
            mode: Mode::Bootloader,
            ..
        } => trace.loader_fits,
        Seen::Gone | Seen::Stranger => false,
    }
}
