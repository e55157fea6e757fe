//! The first requirement that doesn't hold.

/// Why a requirement doesn't hold.
#[derive(Clone, Copy, Debug, PartialEq, Eq)]
pub enum UnmetCause {
    /// The machine has no such ID.
    IdMissing,
    /// A version fails the test.
    VersionCompare,
    /// The device states no version of its boot loader.
    NoBootloaderVersion,
    /// No vendor ID of the device passes.
    VendorMismatch,
    /// No device has the GUID.
    NoSuchDevice,
    /// The device's line of parents has no such ancestor.
    NoSuchAncestor,
    /// The device that is required is being updated by this entry.
    DeviceInUse { entry: u32 },
    /// The machine has none of the hardware IDs.
    HardwareMissing,
    /// The machine has a hardware ID that is ruled out.
    HardwareForbidden,
    /// The client hasn't the feature.
    ClientFeatureMissing,
}

/// A requirement that doesn't hold: its place in its component's list, from 0, and why.
#[derive(Clone, Copy, Debug, PartialEq, Eq)]
pub struct Unmet {
    pub index: u32,
    pub cause: UnmetCause,
}
