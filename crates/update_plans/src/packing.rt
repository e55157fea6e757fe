//! Raw numbers of their fields.
ghost use Rattle.std.specs.Prelude.{◌≡◌, ◌<◌, ◌+◌, ◌-◌, ◌*◌, ◌/◌, ◌^◌, slice_index};
ghost use Rattle.update_plans.specs.Fields.{IsLeastWith};

use version_formats::Format;

/// The least raw number that has these fields in the format, where there is one of 32 bits.
pub fn packed(format: Format, fields: &[u32]) -> u64
    ensures { IsLeastWith format fields.now result }
{
    let a = field(fields, 0);
    let b = field(fields, 1);
    let c = field(fields, 2);
    let d = field(fields, 3);
    match format {
        Format::Plain | Format::Number => a,
        Format::Pair => (a << 16) + b,
        Format::Triplet => (a << 24) + (b << 16) + c,
        Format::Quad => (a << 24) + (b << 16) + (c << 8) + d,
        Format::Bcd => {
            (decimal_byte(a) << 24)
                + (decimal_byte(b) << 16)
                + (decimal_byte(c) << 8)
                + decimal_byte(d)
        }
        Format::DellBios => (a << 16) + (b << 8) + c,
        Format::DellBiosMsb => (a << 24) + (b << 16) + (c << 8),
        Format::SurfaceLegacy => (a << 22) + (b << 10) + c,
        Format::Surface => (a << 24) + (b << 8) + c,
        Format::IntelMe => { (a.saturating_sub(11) << 29) + (b << 24) + (c << 16) + d }
        Format::IntelMe2 => (a << 28) + (b << 24) + (c << 16) + d,
        Format::Hex => 0,
    }
}

// The field at a place, and 0 behind the last one.
fn field(fields: &[u32], at: usize) -> u64
    ensures value { result ≡ slice_index fields.now at }
    ensures small { result < 2 ^ 32 }
{
    match fields.get(at) {
        Some(field) => u64::from(*field),
        None => 0,
    }
}

// The least byte whose two decimal digits write the number.
fn decimal_byte(number: u64) -> u64
    requires { number < 2 ^ 32 }
    ensures value { result ≡ number + 6 * ((number - 6) / 10) }
    ensures small { result < 2 ^ 33 }
{
    number + 6 * (number.saturating_sub(6) / 10)
}
