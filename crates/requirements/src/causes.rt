//! Why a requirement doesn't hold.
ghost use Rattle.std.specs.Prelude.{◌≡◌};
ghost use Rattle.std.specs.Option.{option_copied};
ghost use Rattle.requirements.specs.Requirements.{cause, of_device, of_found, of_test, of_version, unless};

use crate::finding::{ancestor_with, device_with, has_feature, has_hardware, version_with_id};
use crate::passing::{passes, some_vendor_passes};
use crate::unmet::UnmetCause;
use fw_base::Name;
use fw_facts::{DeviceView, MachineFacts, Requirement, Test};
use version_formats::Version;

/// Why the requirement doesn't hold of a device, on this machine, for a client with these features.
/// There is none where it holds.
pub fn cause(
    machine: &MachineFacts,
    features: &[Name],
    views: &[DeviceView],
    view: &DeviceView,
    requirement: &Requirement,
) -> Option<UnmetCause>
    ensures { result ≡ cause machine.now features.now views.now view.now requirement.now }
{
    match requirement {
        Requirement::Id { name, test } => of_version(
            test,
            UnmetCause::IdMissing,
            version_with_id(name, machine),
        ),
        Requirement::Firmware { test } => {
            of_version(test, UnmetCause::VersionCompare, view.version())
        }
        Requirement::Bootloader { test } => of_version(
            test,
            UnmetCause::NoBootloaderVersion,
            view.sheet.bootloader,
        ),
        Requirement::VendorId { test } => unless(
            some_vendor_passes(test, view.sheet.vendor_ids.items()),
            UnmetCause::VendorMismatch,
        ),
        Requirement::Device { guid, test } => of_found(
            test,
            UnmetCause::NoSuchDevice,
            device_with(views, guid),
        ),
        Requirement::Ancestor { depth, guid, test } => of_found(
            test,
            UnmetCause::NoSuchAncestor,
            ancestor_with(views, *depth, guid, view),
        ),
        Requirement::Hardware { any } => unless(
            has_hardware(machine, any.items()),
            UnmetCause::HardwareMissing,
        ),
        Requirement::NotHardware { any } => unless(
            !has_hardware(machine, any.items()),
            UnmetCause::HardwareForbidden,
        ),
        Requirement::Client { feature } => unless(
            has_feature(features, feature),
            UnmetCause::ClientFeatureMissing,
        ),
    }
}

fn unless(holds: bool, cause: UnmetCause) -> Option<UnmetCause>
    ensures { result ≡ unless holds cause }
{
    if holds { None } else { Some(cause) }
}

// A version that has to be there, and has to pass.
fn of_version(test: &Test, otherwise: UnmetCause, version: Option<Version>) -> Option<UnmetCause>
    ensures { result ≡ of_version test.now otherwise version }
{
    match version {
        None => Some(otherwise),
        Some(version) => unless(passes(test, &version), UnmetCause::VersionCompare),
    }
}

// A device that has to be there.
fn of_found(
    test: &Option<Test>,
    otherwise: UnmetCause,
    found: Option<&DeviceView>,
) -> Option<UnmetCause>
    ensures { result ≡ of_found test.now otherwise (option_copied found.entry) }
{
    match found {
        None => Some(otherwise),
        Some(view) => of_device(test, view),
    }
}

// A device that mustn't have a claim, and whose version has to pass where there is a test.
fn of_device(test: &Option<Test>, view: &DeviceView) -> Option<UnmetCause>
    ensures { result ≡ of_device test.now view.now }
{
    match view.claim {
        Some(entry) => Some(UnmetCause::DeviceInUse { entry }),
        None => of_test(test, view.version()),
    }
}

fn of_test(test: &Option<Test>, version: Option<Version>) -> Option<UnmetCause>
    ensures { result ≡ of_test test.now version }
{
    match test {
        None => None,
        Some(test) => of_version(test, UnmetCause::VersionCompare, version),
    }
}
