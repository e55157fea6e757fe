//! The words of the report.
ghost use Rattle.std.specs.Prelude.{◌≡◌};
ghost use Rattle.report_text.specs.Words.{op_word, outcome_word, mark_word};
ghost use Rattle.report_text.specs.Refusals.{cause_words, retry_words};

use emulated_boards::{BoardFault, Mark};
use requirements::UnmetCause;
use update_log::{Op, RetryFault};

pub fn op_word(op: Op) -> &'static str
    ensures { result.now ≡ op_word op }
{
    match op {
        Op::Prepare => "prepare",
        Op::Detach => "detach",
        Op::Write => "write",
        Op::Attach => "attach",
        Op::Reload => "reload",
        Op::Cleanup => "cleanup",
    }
}

pub fn outcome_word(outcome: &Result<(), BoardFault>) -> &'static str
    ensures { result.now ≡ outcome_word outcome.now }
{
    match outcome {
        Ok(()) => "ok",
        Err(BoardFault::Failed) => "fault-failed",
        Err(BoardFault::Torn) => "fault-torn",
        Err(BoardFault::Gone) => "fault-gone",
        Err(BoardFault::Stranger) => "fault-stranger",
    }
}

pub fn mark_word(mark: &Mark) -> &'static str
    ensures { result.now ≡ mark_word mark.now }
{
    match mark {
        Mark::Entered => "entered",
        Mark::Began { .. } => "began",
        Mark::Ended { .. } => "ended",
        Mark::Left => "left",
    }
}

pub fn cause_words(cause: UnmetCause) -> &'static str
    ensures { result.now ≡ cause_words cause }
{
    match cause {
        UnmetCause::IdMissing => "1 id-missing",
        UnmetCause::VersionCompare => "2 version-compare",
        UnmetCause::NoBootloaderVersion => "3 no-bootloader-version",
        UnmetCause::VendorMismatch => "4 vendor-mismatch",
        UnmetCause::NoSuchDevice => "5 no-such-device",
        UnmetCause::NoSuchAncestor => "6 no-such-ancestor",
        UnmetCause::DeviceInUse { .. } => "7 device-in-use",
        UnmetCause::HardwareMissing => "8 hardware-missing",
        UnmetCause::HardwareForbidden => "9 hardware-forbidden",
        UnmetCause::ClientFeatureMissing => "10 client-feature-missing",
    }
}

pub fn retry_words(fault: RetryFault) -> &'static str
    ensures { result.now ≡ retry_words fault }
{
    match fault {
        RetryFault::NoRow => "no-row",
        RetryFault::OtherDevice => "other-device",
        RetryFault::NotFailed { .. } => "not-failed",
        RetryFault::Retried { .. } => "retried",
        RetryFault::OtherRelease => "other-release",
    }
}
