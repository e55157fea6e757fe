//! The raw number that a version stands for.
ghost use Rattle.std.specs.Prelude.{◌≡◌, ◌<◌, ◌^◌, false, Some, None, if◌then◌else◌, nat_lt};
ghost use Rattle.version_formats.specs.VersionOrder.{same_version};
ghost use Rattle.update_plans.specs.Fields.{IsLikely, is_hex, last_eight};
ghost use Rattle.update_plans.specs.RawNumbers.{raw_of};

use crate::numbers::numbers;
use crate::packing::packed;
use std::cmp::Ordering;
use version_formats::{Format, Version, compare, render};

/// The least raw number whose text in the format is equal to the version, or nothing where there is
/// none. Takes no memory.
pub fn raw_of(format: Format, version: &Version) -> Option<u32>
    ensures { result ≡ raw_of format version.now }
{
    let raw = likely_raw(format, version.bytes())?;
    if is_same(&render(format, raw), version) {
        Some(raw)
    } else {
        None
    }
}

/// Whether two versions are equal in their order.
pub fn is_same(left: &Version, right: &Version) -> bool
    ensures { result ≡ same_version left.now right.now }
{
    match compare(left, right) {
        Ordering::Equal => true,
        Ordering::Less | Ordering::Greater => false,
    }
}

// The only raw number that may be the least: where any other one writes an equal text, this one is no
// greater and writes the same text.
fn likely_raw(format: Format, version: &[u8]) -> Option<u32>
    ensures { IsLikely format version.now result }
{
    if is_hex(format) {
        hex_raw(version)
    } else {
        dotted_raw(format, version)
    }
}

fn is_hex(format: Format) -> bool
    ensures { result ≡ is_hex format }
{
    matches!(format, Format::Hex)
}

// The number that the last eight hex digits write.
fn hex_raw(version: &[u8]) -> Option<u32>
    ensures { IsLikely Format.Hex version.now result }
{
    let mut bytes = [0; 4];
    hex::decode_to_slice(last_eight(version), &mut bytes).ok()?;
    Some(u32::from_be_bytes(bytes))
}

// The last eight bytes, or all where there are fewer.
fn last_eight(text: &[u8]) -> &[u8]
    ensures { result.now ≡ last_eight text.now }
{
    &text[text.len().saturating_sub(8)..]
}

// The number whose fields the sections are.
fn dotted_raw(format: Format, version: &[u8]) -> Option<u32>
    requires { is_hex format ≡ false }
    ensures { IsLikely format version.now result }
{
    let numbers = numbers(version)?;
    of_32_bits(packed(format, numbers.as_slice()))
}

fn of_32_bits(number: u64) -> Option<u32>
    ensures { result ≡ (if nat_lt number (2 ^ 32) then Some number else None) }
{
    if number < 1 << 32 {
        Some(number as u32)
    } else {
        None
    }
}
