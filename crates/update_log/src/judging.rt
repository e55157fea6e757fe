//! In which state an entry ends, and how a row is judged.
ghost use Rattle.std.specs.Prelude.{◌≡◌, ◌&&◌};
ghost use Rattle.version_formats.specs.VersionOrder.{same_version};
ghost use Rattle.fw_facts.specs.Views.{is_home, version_of};
ghost use Rattle.update_log.specs.Steps.{judge, judge_shown, closing_of, waits_for_boot};

use crate::event::Op;
use crate::next_step::ended_well;
use crate::trace::Trace;
use fw_facts::{DeviceFlag, DeviceView, Seen};
use history_keeper::{Row, RowState};
use std::cmp::Ordering;
use version_formats::{Version, compare};

/// The judgement of a row by the version that its device shows: success where the two versions are
/// equal, else failure. It looks at nothing else.
pub fn judge(shown: &Version, row: &Row) -> RowState
    ensures { result ≡ judge shown.now row.now }
{
    if same_version(shown, &row.version_new) {
        RowState::Success
    } else {
        RowState::Failed
    }
}

/// In which state an entry that has come so far ends: it stays begun where the reload didn't go well
/// or the board isn't there; else it waits for a boot where the device needs one and the write went
/// well, or else it is judged.
pub fn closing(trace: &Trace, row: &Row, view: &DeviceView) -> RowState
    ensures { result ≡ closing_of trace.now row.now view.now }
{
    if !ended_well(Op::Reload, trace.steps.items()) || !is_home(view.seen) {
        return RowState::Begun;
    }
    if waits_for_boot(trace) {
        return RowState::NeedsReboot;
    }
    judge_shown(view, row)
}

fn judge_shown(view: &DeviceView, row: &Row) -> RowState
    ensures { result ≡ judge_shown (version_of view.now) row.now }
{
    match view.version() {
        Some(shown) => judge(&shown, row),
        None => RowState::Begun,
    }
}

fn waits_for_boot(trace: &Trace) -> bool
    ensures { result ≡ waits_for_boot trace.now }
{
    trace.flags.has(DeviceFlag::NeedsReboot) && ended_well(Op::Write, trace.steps.items())
}

/// Whether two versions are equal in their order.
pub fn same_version(left: &Version, right: &Version) -> bool
    ensures { result ≡ same_version left.now right.now }
{
    match compare(left, right) {
        Ordering::Equal => true,
        Ordering::Less | Ordering::Greater => false,
    }
}

/// Whether the board is there.
pub fn is_home(seen: Seen) -> bool
    ensures { result ≡ is_home seen }
{
    match seen {
        Seen::Home { .. } => true,
        Seen::Gone | Seen::Stranger => false,
    }
}
