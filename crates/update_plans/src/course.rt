//! How an install goes where nothing fails.
ghost use Rattle.std.specs.Prelude.{◌≡◌, ◌≤◌, ◌<◌, ◌+◌, ◌&&◌, ◌||◌, ◌++◌, ◌∷◌, [], Ok, length};
ghost use Rattle.std.specs.List.{list_any};
ghost use Rattle.std.specs.Str.{bytes_eq};
ghost use Rattle.fw_facts.specs.Views.{is_home};
ghost use Rattle.update_log.specs.Steps.{ended_well, is_op, mode_of, next_step, waits_for_boot};
ghost use Rattle.update_plans.specs.Plans.{board_after, is_next, shown_after};
ghost use Rattle.update_plans.specs.Courses.{course_of, course_step, course_with, ends_well, fits_side, shows_version, trace_begun};

use crate::raw::is_same;
use fw_facts::{Component, DeviceFlag, DeviceView, Mode, Seen};
use guid_ids::Guid;
use update_log::{Op, Trace, TraceStep, TraceSteps, is_home, next_op};
use version_formats::{Format, Version, render};

/// The trace of an entry, and what the port shows.
#[derive(Clone, Copy, Debug)]
pub struct Course {
    pub trace: Trace,
    pub seen: Seen,
}

/// Whether the install of a release with that version and raw number ends as a success, or waits for a
/// boot, on a device that stands like this.
pub fn ends_well(view: &DeviceView, component: &Component, version: &Version, raw: u32) -> bool
    ensures { result ≡ ends_well view.now component.now version.now raw }
{
    let course = course_of(first_trace(view, component), view.seen, raw);
    is_home(course.seen)
        && (waits_for_boot(&course.trace) || shows_version(view.sheet.format, version, course.seen))
}

// The whole course of an entry that begins with that trace.
fn course_of(first: Trace, seen: Seen, raw: u32) -> Course
    requires { first.steps ≡ [] }
    ensures { result ≡ course_of first seen raw }
{
    Course { trace: first, seen }
        .take(Op::Prepare, raw)
        .take(Op::Detach, raw)
        .take(Op::Write, raw)
        .take(Op::Attach, raw)
        .take(Op::Reload, raw)
        .take(Op::Cleanup, raw)
}

impl Course {
    // The course with that step, where it is the next one.
    fn take(self, op: Op, raw: u32) -> Course
        requires { length self.trace.steps < 6 }
        ensures value { result ≡ course_step raw self op }
        ensures longer { length result.trace.steps ≤ length self.trace.steps + 1 }
    {
        if is_next(next_op(&self.trace), op) {
            self.with(op, raw)
        } else {
            self
        }
    }

    fn with(&self, op: Op, raw: u32) -> Course
        requires { length self.now.trace.steps < 6 }
        ensures { result ≡ course_with raw self.now op }
    {
        let waits = self.trace.flags.has(DeviceFlag::NeedsReboot);
        let seen = shown_after(op, waits, raw, self.seen);
        Course {
            trace: Trace {
                flags: self.trace.flags,
                mode: self.trace.mode,
                runtime_fits: self.trace.runtime_fits,
                loader_fits: self.trace.loader_fits,
                steps: pushed(&self.trace.steps, op, seen),
            },
            seen,
        }
    }
}

// The steps with one more, which went well.
fn pushed(steps: &TraceSteps, op: Op, seen: Seen) -> TraceSteps
    requires { length steps.now < 6 }
    ensures { result ≡ steps.now ++ record { op = op; outcome = Ok tt; seen = seen } ∷ [] }
{
    let mut longer = *steps;
    longer.push(TraceStep {
        op,
        outcome: Ok(()),
        seen,
    });
    longer
}

/// The step is the next one.
pub fn is_next(next: Option<Op>, op: Op) -> bool
    ensures { result ≡ is_next next op }
{
    match next {
        Some(next) => is_op(next, op),
        None => false,
    }
}

fn is_op(left: Op, right: Op) -> bool
    ensures { result ≡ is_op left right }
{
    left as u8 == right as u8
}

// The device needs a boot, and was written.
fn waits_for_boot(trace: &Trace) -> bool
    ensures { result ≡ waits_for_boot trace.now }
{
    trace.flags.has(DeviceFlag::NeedsReboot) && was_written(trace.steps.items())
}

fn was_written(steps: &[TraceStep]) -> bool
    ensures { result ≡ ended_well Op.Write steps.now }
{
    steps
        .iter()
        .any(|step| is_op(step.op, Op::Write) && step.outcome.is_ok())
}

fn shows_version(format: Format, version: &Version, seen: Seen) -> bool
    ensures { result ≡ shows_version format version.now seen }
{
    match seen {
        Seen::Home { raw, .. } => is_same(&render(format, raw), version),
        Seen::Gone | Seen::Stranger => false,
    }
}

/// What the port shows at the end of a step that goes well. A device that waits for a boot shows its new
/// firmware only then.
pub fn shown_after(op: Op, waits: bool, new: u32, seen: Seen) -> Seen
    ensures { result ≡ shown_after op waits new seen }
{
    match seen {
        Seen::Home { raw, mode } => board_after(op, waits, new, raw, mode),
        Seen::Gone => Seen::Gone,
        Seen::Stranger => Seen::Stranger,
    }
}

fn board_after(op: Op, waits: bool, new: u32, raw: u32, mode: Mode) -> Seen
    ensures { result ≡ board_after op waits new raw mode }
{
    match op {
        Op::Prepare => Seen::Home { raw, mode },
        Op::Detach => Seen::Home {
            raw,
            mode: Mode::Bootloader,
        },
        Op::Write => written(waits, new, raw, mode),
        Op::Attach | Op::Reload | Op::Cleanup => Seen::Home {
            raw,
            mode: Mode::Runtime,
        },
    }
}

fn written(waits: bool, new: u32, raw: u32, mode: Mode) -> Seen
    ensures { result ≡ board_after Op.Write waits new raw mode }
{
    if waits {
        Seen::Home { raw, mode }
    } else {
        Seen::Home { raw: new, mode }
    }
}

// The trace with which an entry of the device begins, for a release of the component.
fn first_trace(view: &DeviceView, component: &Component) -> Trace
    ensures { result ≡ trace_begun view.now component.now }
{
    Trace {
        flags: view.flags(),
        mode: mode_of(view.seen),
        runtime_fits: fits_side(view.sheet.runtime_guids.items(), component, view),
        loader_fits: fits_side(view.sheet.loader_guids.items(), component, view),
        steps: TraceSteps::none(),
    }
}

// The mode that the port shows.
fn mode_of(seen: Seen) -> Mode
    ensures { result ≡ mode_of seen }
{
    match seen {
        Seen::Home { mode, .. } => mode,
        Seen::Gone | Seen::Stranger => Mode::Runtime,
    }
}

// The component provides a GUID of the side, or one of them is among the device's counterparts.
fn fits_side(side: &[Guid], component: &Component, view: &DeviceView) -> bool
    ensures { result ≡ fits_side side.now component.now view.now }
{
    has_provided(side, component.provides.items())
        || has_counterpart(side, view.sheet.counterparts.items())
}

fn has_provided(side: &[Guid], provides: &[Guid]) -> bool
    ensures { result ≡ list_any (λ own. list_any (λ guid. bytes_eq own guid) side.now) provides.now }
{
    provides.iter().any(|own| is_among(side, own))
}

fn has_counterpart(side: &[Guid], counterparts: &[Guid]) -> bool
    ensures { result ≡ list_any (λ guid. list_any (bytes_eq guid) side.now) counterparts.now }
{
    counterparts.iter().any(|guid| is_among(side, guid))
}

fn is_among(side: &[Guid], guid: &Guid) -> bool
    ensures { result ≡ list_any (bytes_eq guid.now) side.now }
{
    side.iter().any(|own| guid == own)
}
