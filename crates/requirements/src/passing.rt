//! Which versions and vendor IDs pass a test.
ghost use Rattle.std.specs.Prelude.{◌≡◌};
ghost use Rattle.std.specs.List.{list_any};
ghost use Rattle.std.specs.Ordering.{is_eq, is_ge, is_gt, is_le, is_lt, is_ne};
ghost use Rattle.version_formats.specs.VersionOrder.{version_cmp};
ghost use Rattle.requirements.specs.Requirements.{passes, vendor_passes};

use fw_base::Name;
use fw_facts::{Test, VendorTest};
use version_formats::{Version, compare};

/// Whether the version passes the test: it stands on the left of the comparison, or in the pattern.
pub fn passes(test: &Test, version: &Version) -> bool
    ensures { result ≡ passes test.now version.now }
{
    match test {
        Test::Eq(other) => compare(version, other).is_eq(),
        Test::Ne(other) => compare(version, other).is_ne(),
        Test::Lt(other) => compare(version, other).is_lt(),
        Test::Le(other) => compare(version, other).is_le(),
        Test::Gt(other) => compare(version, other).is_gt(),
        Test::Ge(other) => compare(version, other).is_ge(),
        Test::Glob(pattern) | Test::Regex(pattern) => pattern.matches(version.bytes()),
    }
}

/// Whether one of the vendor IDs passes the test.
pub fn some_vendor_passes(test: &VendorTest, vendors: &[Name]) -> bool
    ensures { result ≡ list_any (vendor_passes test.now) vendors.now }
{
    vendors.iter().any(|vendor| vendor_passes(test, vendor))
}

fn vendor_passes(test: &VendorTest, vendor: &Name) -> bool
    ensures { result ≡ vendor_passes test.now vendor.now }
{
    match test {
        VendorTest::Same(other) => vendor == other,
        VendorTest::Glob(pattern) | VendorTest::Regex(pattern) => pattern.matches(vendor.bytes()),
    }
}
