//! The text of each refusal.
use crate::differences::differs_at;
use fw_base::Name;
use fw_facts::Problem;
use history_keeper::RowState;
use report_text::answers::put_refused;
use requirements::{Unmet, UnmetCause};
use std::alloc::Global;
use std::test::Fail;
use update_log::{FetchNote, Refusal, RetryFault};

/// Those that need no value to be read: plain ones, retries, problems, requirements and payloads.
const REFUSALS: [(Refusal, &str); 38] = [
    (Refusal::NoDevice, "refused 1 no-device"),
    (Refusal::NoRelease, "refused 2 no-release"),
    (Refusal::Busy { entry: 3 }, "refused 3 busy 3"),
    (
        Refusal::Unsettled {
            entry: 4_294_967_295,
        },
        "refused 4 unsettled 4294967295",
    ),
    (Refusal::NotUpdatable, "refused 5 not-updatable"),
    (Refusal::Locked, "refused 6 locked"),
    (Refusal::SameVersion, "refused 8 same-version"),
    (Refusal::Older, "refused 9 older"),
    (
        Refusal::Size {
            len: 5,
            min: 6,
            max: 7,
        },
        "refused 12 size 5 6 7",
    ),
    (
        Refusal::NoRoom { need: 2, free: 1 },
        "refused 13 no-room 2 1",
    ),
    (Refusal::RowsFull, "refused 15 rows-full"),
    (Refusal::KeeperFault, "refused 16 keeper-fault"),
    (Refusal::Retry(RetryFault::NoRow), "refused 17 retry no-row"),
    (
        Refusal::Retry(RetryFault::OtherDevice),
        "refused 17 retry other-device",
    ),
    (
        Refusal::Retry(RetryFault::NotFailed {
            state: RowState::NeedsReboot,
        }),
        "refused 17 retry not-failed needs-reboot",
    ),
    (
        Refusal::Retry(RetryFault::Retried { entry: 65_536 }),
        "refused 17 retry retried 65536",
    ),
    (
        Refusal::Retry(RetryFault::OtherRelease),
        "refused 17 retry other-release",
    ),
    (
        Refusal::Problem(Problem::SystemPowerTooLow),
        "refused 7 problem system-power-too-low",
    ),
    (
        Refusal::Problem(Problem::Unreachable),
        "refused 7 problem unreachable",
    ),
    (
        Refusal::Problem(Problem::PowerTooLow),
        "refused 7 problem power-too-low",
    ),
    (
        Refusal::Problem(Problem::UpdatePending),
        "refused 7 problem update-pending",
    ),
    (
        Refusal::Problem(Problem::RequireAcPower),
        "refused 7 problem require-ac-power",
    ),
    (
        Refusal::Problem(Problem::LidIsClosed),
        "refused 7 problem lid-is-closed",
    ),
    (
        Refusal::Problem(Problem::UpdateInProgress),
        "refused 7 problem update-in-progress",
    ),
    (
        Refusal::Unmet(Unmet {
            index: 63,
            cause: UnmetCause::IdMissing,
        }),
        "refused 10 unmet 63 1 id-missing",
    ),
    (
        Refusal::Unmet(Unmet {
            index: 63,
            cause: UnmetCause::VersionCompare,
        }),
        "refused 10 unmet 63 2 version-compare",
    ),
    (
        Refusal::Unmet(Unmet {
            index: 63,
            cause: UnmetCause::NoBootloaderVersion,
        }),
        "refused 10 unmet 63 3 no-bootloader-version",
    ),
    (
        Refusal::Unmet(Unmet {
            index: 63,
            cause: UnmetCause::VendorMismatch,
        }),
        "refused 10 unmet 63 4 vendor-mismatch",
    ),
    (
        Refusal::Unmet(Unmet {
            index: 63,
            cause: UnmetCause::NoSuchDevice,
        }),
        "refused 10 unmet 63 5 no-such-device",
    ),
    (
        Refusal::Unmet(Unmet {
            index: 63,
            cause: UnmetCause::NoSuchAncestor,
        }),
        "refused 10 unmet 63 6 no-such-ancestor",
    ),
    (
        Refusal::Unmet(Unmet {
            index: 63,
            cause: UnmetCause::DeviceInUse { entry: 4 },
        }),
        "refused 10 unmet 63 7 device-in-use 4",
    ),
    (
        Refusal::Unmet(Unmet {
            index: 63,
            cause: UnmetCause::HardwareMissing,
        }),
        "refused 10 unmet 63 8 hardware-missing",
    ),
    (
        Refusal::Unmet(Unmet {
            index: 63,
            cause: UnmetCause::HardwareForbidden,
        }),
        "refused 10 unmet 63 9 hardware-forbidden",
    ),
    (
        Refusal::Unmet(Unmet {
            index: 63,
            cause: UnmetCause::ClientFeatureMissing,
        }),
        "refused 10 unmet 63 10 client-feature-missing",
    ),
    (
        Refusal::Payload(FetchNote::Missing),
        "refused 14 payload missing",
    ),
    (
        Refusal::Payload(FetchNote::Length {
            found: 18_446_744_073_709_551_615,
        }),
        "refused 14 payload length 18446744073709551615",
    ),
    (
        Refusal::Payload(FetchNote::Mismatch { found: [10; 32] }),
        "refused 14 payload mismatch 0a0a0a0a0a0a0a0a0a0a0a0a0a0a0a0a0a0a0a0a0a0a0a0a0a0a0a0a0a0a0a0a",
    ),
    (
        Refusal::Payload(FetchNote::ShelfFault),
        "refused 14 payload shelf-fault",
    ),
];

/// Whether a refusal is told so.
fn is_told(alloc: Global, refusal: &Refusal, meant: &str) -> Result<bool, Fail> {
    let mut text = Vec::new(alloc);
    put_refused(&mut text, refusal)?;
    Ok(differs_at(&text, meant.as_bytes()).is_none())
}

/// How many rows stand before the first whose text isn't told.
fn told_before(alloc: Global) -> Result<usize, Fail> {
    for (at, (refusal, meant)) in REFUSALS.iter().enumerate() {
        if !is_told(alloc, refusal, meant)? {
            return Ok(at);
        }
    }
    Ok(REFUSALS.len())
}

#[test]
fn each_refusal_is_told(rt: HostRuntime) -> Result<(), Fail> {
    assert_eq!(rt; told_before(rt.alloc())?, 38);
    Ok(())
}

#[test]
fn a_veto_names_its_plugin(rt: HostRuntime) -> Result<(), Fail> {
    let plugin = Name::read(b"power")?;
    let veto = Refusal::Veto { plugin };
    assert!(rt; is_told(rt.alloc(), &veto, "refused 11 veto power")?);
    Ok(())
}
