//! Why a request is refused.
use fw_base::{Digest, Name};
use fw_facts::Problem;
use history_keeper::RowState;
use requirements::Unmet;

/// What the fetch of a payload found.
#[derive(Clone, Copy, Debug, PartialEq, Eq)]
pub enum FetchNote {
    /// All of the payload, with its SHA-256 digest, its length in bytes and the raw number of the
    /// version in its image, which is 0 for an image that is no good.
    Whole { digest: Digest, len: u32, raw: u32 },
    /// No payload under the digest.
    Missing,
    /// A payload of another length, in bytes.
    Length { found: u64 },
    /// A payload of another digest.
    Mismatch { found: Digest },
    /// The shelf failed.
    ShelfFault,
}

/// Why the row that a request names can't be tried again. The first of these that holds is named, in
/// this order.
#[derive(Clone, Copy, Debug, PartialEq, Eq)]
pub enum RetryFault {
    /// There is no row of that entry.
    NoRow,
    /// The row is of another device.
    OtherDevice,
    /// The row hasn't failed, but has this state.
    NotFailed { state: RowState },
    /// The row of this entry tries it again already.
    Retried { entry: u32 },
    /// The release has another payload than that of the row.
    OtherRelease,
}

/// Why a request is refused. Each refusal has its number, which counts from 1 in this order. The first
/// condition that isn't met is named: they are tested in the order of their numbers, but for `Retry`,
/// the last one here, which is tested right behind `Unsettled`.
#[derive(Clone, Copy, Debug)]
pub enum Refusal {
    /// No such device, or it isn't there.
    NoDevice,
    /// No release of that version for the device.
    NoRelease,
    /// The device is being updated by this entry.
    Busy { entry: u32 },
    /// The device has this entry, which is pending, begun or waits for a boot.
    Unsettled { entry: u32 },
    /// The device isn't updatable.
    NotUpdatable,
    /// The device is locked.
    Locked,
    /// The device has a problem.
    Problem(Problem),
    /// The device shows this version already.
    SameVersion,
    /// The device shows a newer version.
    Older,
    /// A requirement of the release doesn't hold.
    Unmet(Unmet),
    /// A plugin forbids it.
    Veto { plugin: Name },
    /// The payload's size, in bytes, is outside what the device takes.
    Size { len: u32, min: u32, max: u32 },
    /// The payload needs more blocks than are free.
    NoRoom { need: u32, free: u32 },
    /// The payload couldn't be had.
    Payload(FetchNote),
    /// The history is full.
    RowsFull,
    /// The history couldn't be written.
    KeeperFault,
    /// The row that the request names can't be tried again.
    Retry(RetryFault),
}

impl Refusal {
    ghost use Rattle.std.specs.Prelude.{◌≡◌};
    ghost use Rattle.update_log.specs.Known.{refusal_number};

    /// The refusal's number.
    pub fn number(&self) -> u8
        ensures { result ≡ refusal_number self.now }
    {
        match self {
            Refusal::NoDevice => 1,
            Refusal::NoRelease => 2,
            Refusal::Busy { .. } => 3,
            Refusal::Unsettled { .. } => 4,
            Refusal::NotUpdatable => 5,
            Refusal::Locked => 6,
            Refusal::Problem(_) => 7,
            Refusal::SameVersion => 8,
            Refusal::Older => 9,
            Refusal::Unmet(_) => 10,
            Refusal::Veto { .. } => 11,
            Refusal::Size { .. } => 12,
            Refusal::NoRoom { .. } => 13,
            Refusal::Payload(_) => 14,
            Refusal::RowsFull => 15,
            Refusal::KeeperFault => 16,
            Refusal::Retry(_) => 17,
        }
    }
}
