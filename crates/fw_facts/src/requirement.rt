//! Requirements of a component, after the metadata guide of the LVFS.
use fw_base::{Listed, Name};
use fw_patterns::Pattern;
use guid_ids::Guid;
use version_formats::Version;

/// A test of a version, which stands on the left of a comparison.
#[derive(Drop)]
pub enum Test {
    Eq(Version),
    Ne(Version),
    Lt(Version),
    Le(Version),
    Gt(Version),
    Ge(Version),
    Glob(Pattern),
    Regex(Pattern),
}

/// A test of a vendor ID.
#[derive(Drop)]
pub enum VendorTest {
    /// The ID has these bytes.
    Same(Name),
    Glob(Pattern),
    Regex(Pattern),
}

/// What has to hold for a release of the component to go onto a device.
#[derive(Drop)]
pub enum Requirement {
    /// The machine runs what has this ID, and its version passes.
    Id {
        name: Name,
        test: Test,
    },
    /// The version that the device shows passes.
    Firmware {
        test: Test,
    },
    /// The version of the device's boot loader passes.
    Bootloader {
        test: Test,
    },
    /// A vendor ID of the device passes.
    VendorId {
        test: VendorTest,
    },
    /// A device with this GUID is there, isn't being updated, and its version passes.
    Device {
        guid: Guid,
        test: Option<Test>,
    },
    /// So does the device's ancestor, which is its parent at depth 1.
    Ancestor {
        depth: u8,
        guid: Guid,
        test: Option<Test>,
    },
    /// The machine has one of these hardware IDs.
    Hardware {
        any: Listed<Guid>,
    },
    /// The machine has none of them.
    NotHardware {
        any: Listed<Guid>,
    },
    /// The client that asks has this feature.
    Client {
        feature: Name,
    },
}
