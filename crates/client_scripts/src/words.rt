//! Words that a client reads.
ghost use Rattle.std.specs.Prelude.{◌≡◌};
ghost use Rattle.client_scripts.specs.Words.{mode_word, order_word, problem_word, refusal_word, state_word};

use fw_facts::{Mode, Problem};
use history_keeper::RowState;
use std::cmp::Ordering;
use update_log::Refusal;

/// The word of a row's state.
pub fn state_word(state: RowState) -> &'static str
    ensures { result.now ≡ state_word state }
{
    match state {
        RowState::Pending => "pending",
        RowState::Success => "success",
        RowState::Failed => "failed",
        RowState::NeedsReboot => "needs-reboot",
        RowState::Begun => "begun",
    }
}

/// The word of a board's mode.
pub fn mode_word(mode: Mode) -> &'static str
    ensures { result.now ≡ mode_word mode }
{
    match mode {
        Mode::Runtime => "runtime",
        Mode::Bootloader => "bootloader",
    }
}

/// The word of a device problem: fwupd's own.
pub fn problem_word(problem: Problem) -> &'static str
    ensures { result.now ≡ problem_word problem }
{
    match problem {
        Problem::SystemPowerTooLow => "system-power-too-low",
        Problem::Unreachable => "unreachable",
        Problem::PowerTooLow => "power-too-low",
        Problem::UpdatePending => "update-pending",
        Problem::RequireAcPower => "require-ac-power",
        Problem::LidIsClosed => "lid-is-closed",
        Problem::UpdateInProgress => "update-in-progress",
    }
}

/// The word of a release's version beside the one that the device shows.
pub fn order_word(order: Ordering) -> &'static str
    ensures { result.now ≡ order_word order }
{
    match order {
        Ordering::Greater => "newer",
        Ordering::Equal => "same",
        Ordering::Less => "older",
    }
}

/// The word of a refusal.
pub fn refusal_word(refusal: &Refusal) -> &'static str
    ensures { result.now ≡ refusal_word refusal.now }
{
    match refusal {
        Refusal::NoDevice => "no-device",
        Refusal::NoRelease => "no-release",
        Refusal::Busy { .. } => "busy",
        Refusal::Unsettled { .. } => "unsettled",
        Refusal::NotUpdatable => "not-updatable",
        Refusal::Locked => "locked",
        Refusal::Problem(_) => "problem",
        Refusal::SameVersion => "same-version",
        Refusal::Older => "older",
        Refusal::Unmet(_) => "unmet",
        Refusal::Veto { .. } => "veto",
        Refusal::Size { .. } => "size",
        Refusal::NoRoom { .. } => "no-room",
        Refusal::Payload(_) => "payload",
        Refusal::RowsFull => "rows-full",
        Refusal::KeeperFault => "keeper-fault",
        Refusal::Retry(_) => "retry",
    }
}
