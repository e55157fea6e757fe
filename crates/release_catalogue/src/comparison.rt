//! Comparisons, and the tests that they make.
ghost use Rattle.std.specs.Prelude.{◌≡◌, find};
ghost use Rattle.std.specs.Str.{bytes_eq};
ghost use Rattle.json_values.specs.Trees.{view};
ghost use Rattle.release_catalogue.specs.Reading.{Gives};
ghost use Rattle.release_catalogue.specs.Requirements.{comparison_word, comparison_at, vendor_word, vendor_comparison_at, compared_at, vendor_compared_at, test_at, vendor_test_at, maybe_test_at};

use crate::kinds::{name, text, version};
use crate::members::{member, needed};
use crate::pattern::{glob, regex};
use crate::reason::Reason;
use crate::spot::{ReadStop, Spot, fault_at};
use crate::word::Word;
use fw_facts::{Test, VendorTest};
use json_values::Value;
use std::alloc::Global;

/// How a version is compared.
#[derive(Clone, Copy, Debug, PartialEq, Eq)]
pub enum Comparison {
    Eq,
    Ne,
    Lt,
    Le,
    Gt,
    Ge,
    Glob,
    Regex,
}

impl Comparison {
    const ALL: [Comparison; 8] = [
        Comparison::Eq,
        Comparison::Ne,
        Comparison::Lt,
        Comparison::Le,
        Comparison::Gt,
        Comparison::Ge,
        Comparison::Glob,
        Comparison::Regex,
    ];

    fn word(self) -> &'static [u8]
        ensures { result.now ≡ comparison_word self }
    {
        match self {
            Comparison::Eq => b"eq",
            Comparison::Ne => b"ne",
            Comparison::Lt => b"lt",
            Comparison::Le => b"le",
            Comparison::Gt => b"gt",
            Comparison::Ge => b"ge",
            Comparison::Glob => b"glob",
            Comparison::Regex => b"regex",
        }
    }

    fn of_word(all: &[Comparison], word: &[u8]) -> Option<Comparison>
        ensures { result ≡ find (λ comparison. bytes_eq (comparison_word comparison) word.now) all.now }
    {
        all.iter()
            .copied()
            .find(|comparison| comparison.word() == word)
    }
}

/// How a vendor ID is compared.
#[derive(Clone, Copy, Debug, PartialEq, Eq)]
pub enum VendorComparison {
    Eq,
    Glob,
    Regex,
}

impl VendorComparison {
    const ALL: [VendorComparison; 3] = [
        VendorComparison::Eq,
        VendorComparison::Glob,
        VendorComparison::Regex,
    ];

    fn word(self) -> &'static [u8]
        ensures { result.now ≡ vendor_word self }
    {
        match self {
            VendorComparison::Eq => b"eq",
            VendorComparison::Glob => b"glob",
            VendorComparison::Regex => b"regex",
        }
    }

    fn of_word(all: &[VendorComparison], word: &[u8]) -> Option<VendorComparison>
        ensures { result ≡ find (λ comparison. bytes_eq (vendor_word comparison) word.now) all.now }
    {
        all.iter()
            .copied()
            .find(|comparison| comparison.word() == word)
    }
}

/// A comparison, by its word. What isn't a text is `WrongKind`, another text `BadCompare`.
pub fn read_comparison(value: &Value, spot: Spot) -> Result<Comparison, ReadStop>
    ensures { Gives (λ c. c) result (comparison_at spot (view value.now)) }
{
    let text = text(value, spot)?;
    match Comparison::of_word(&Comparison::ALL, text.as_bytes()) {
        None => Err(fault_at(spot, Reason::BadCompare)),
        Some(comparison) => Ok(comparison),
    }
}

/// A comparison of vendor IDs, by its word. What isn't a text is `WrongKind`, another text
/// `BadCompare`.
pub fn read_vendor_comparison(value: &Value, spot: Spot) -> Result<VendorComparison, ReadStop>
    ensures { Gives (λ c. c) result (vendor_comparison_at spot (view value.now)) }
{
    let text = text(value, spot)?;
    match VendorComparison::of_word(&VendorComparison::ALL, text.as_bytes()) {
        None => Err(fault_at(spot, Reason::BadCompare)),
        Some(comparison) => Ok(comparison),
    }
}

/// The test that a comparison with this value makes.
#[tactic(auto, unfolding(crate::specs::Requirements::compared_at))]
fn compared(
    alloc: Global,
    comparison: Comparison,
    value: &Value,
    spot: Spot,
) -> Result<Test, ReadStop>
    ensures { Gives (λ t. t) result (compared_at comparison spot (view value.now)) }
{
    match comparison {
        Comparison::Eq => Ok(Test::Eq(version(value, spot)?)),
        Comparison::Ne => Ok(Test::Ne(version(value, spot)?)),
        Comparison::Lt => Ok(Test::Lt(version(value, spot)?)),
        Comparison::Le => Ok(Test::Le(version(value, spot)?)),
        Comparison::Gt => Ok(Test::Gt(version(value, spot)?)),
        Comparison::Ge => Ok(Test::Ge(version(value, spot)?)),
        Comparison::Glob => Ok(Test::Glob(glob(alloc, value, spot)?)),
        Comparison::Regex => Ok(Test::Regex(regex(alloc, value, spot)?)),
    }
}

#[tactic(auto, unfolding(crate::specs::Requirements::vendor_compared_at))]
fn vendor_compared(
    alloc: Global,
    comparison: VendorComparison,
    value: &Value,
    spot: Spot,
) -> Result<VendorTest, ReadStop>
    ensures { Gives (λ t. t) result (vendor_compared_at comparison spot (view value.now)) }
{
    match comparison {
        VendorComparison::Eq => Ok(VendorTest::Same(name(value, spot)?)),
        VendorComparison::Glob => Ok(VendorTest::Glob(glob(alloc, value, spot)?)),
        VendorComparison::Regex => Ok(VendorTest::Regex(regex(alloc, value, spot)?)),
    }
}

/// The members `compare` and `version`, as a test of a version.
#[tactic(auto, unfolding(crate::specs::Requirements::test_at))]
pub fn test(alloc: Global, value: &Value, spot: Spot) -> Result<Test, ReadStop>
    ensures { Gives (λ t. t) result (test_at spot (view value.now)) }
{
    let compare = read_comparison(
        needed(value, spot, Word::Compare)?,
        spot.field(Word::Compare),
    )?;
    let version = needed(value, spot, Word::Version)?;
    compared(alloc, compare, version, spot.field(Word::Version))
}

/// The members `compare` and `version`, as a test of a vendor ID.
#[tactic(auto, unfolding(crate::specs::Requirements::vendor_test_at))]
pub fn vendor_test(alloc: Global, value: &Value, spot: Spot) -> Result<VendorTest, ReadStop>
    ensures { Gives (λ t. t) result (vendor_test_at spot (view value.now)) }
{
    let compare = read_vendor_comparison(
        needed(value, spot, Word::Compare)?,
        spot.field(Word::Compare),
    )?;
    let version = needed(value, spot, Word::Version)?;
    vendor_compared(alloc, compare, version, spot.field(Word::Version))
}

/// The members `compare` and `version`, as a test of a version, where one of them is there.
#[tactic(auto, unfolding(crate::specs::Requirements::maybe_test_at))]
pub fn maybe_test(alloc: Global, value: &Value, spot: Spot) -> Result<Option<Test>, ReadStop>
    ensures { Gives (λ t. t) result (maybe_test_at spot (view value.now)) }
{
    if member(value, Word::Compare).is_some() || member(value, Word::Version).is_some() {
        Ok(Some(test(alloc, value, spot)?))
    } else {
        Ok(None)
    }
}
