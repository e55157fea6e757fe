//! The text that a format writes for a raw number.
ghost use Rattle.std.specs.Prelude.{◌≡◌, ◌≤◌, ◌<◌, ◌+◌, ◌^◌, ◌==◌, ◌++◌, ◌∷◌, [], if◌then◌else◌, length, decimal, map};
ghost use Rattle.std.specs.Int.{w32, to_be_bytes};
ghost use Rattle.std.specs.List.{join_with_byte};
ghost use Rattle.hex.specs.Hex.{encode_lower};
ghost use Rattle.arrayvec.specs.ArrayVec.{array_vec_len};
ghost use Rattle.version_formats.specs.Formats.{render, dot, dotted, bits, bcd};

use crate::{Format, Version};
use arrayvec::ArrayVec;
use itoa::Buffer;

/// The version that a format writes for a raw number of 32 bits.
pub fn render(format: Format, raw: u32) -> Version
    ensures { result ≡ render format raw }
{
    match format {
        Format::Plain | Format::Number => dotted(&[raw]),
        Format::Pair => dotted(&[bits(raw, 16, 16), bits(raw, 0, 16)]),
        Format::Triplet => dotted(&[bits(raw, 24, 8), bits(raw, 16, 8), bits(raw, 0, 16)]),
        Format::Quad => dotted(&[
            bits(raw, 24, 8),
            bits(raw, 16, 8),
            bits(raw, 8, 8),
            bits(raw, 0, 8),
        ]),
        Format::Bcd => dotted(&[bcd(raw, 24), bcd(raw, 16), bcd(raw, 8), bcd(raw, 0)]),
        Format::DellBios => dotted(&[bits(raw, 16, 8), bits(raw, 8, 8), bits(raw, 0, 8)]),
        Format::DellBiosMsb => dotted(&[bits(raw, 24, 8), bits(raw, 16, 8), bits(raw, 8, 8)]),
        Format::SurfaceLegacy => dotted(&[bits(raw, 22, 10), bits(raw, 10, 12), bits(raw, 0, 10)]),
        Format::Surface => dotted(&[bits(raw, 24, 8), bits(raw, 8, 16), bits(raw, 0, 8)]),
        Format::IntelMe => dotted(&[
            bits(raw, 29, 3) + 11,
            bits(raw, 24, 5),
            bits(raw, 16, 8),
            bits(raw, 0, 16),
        ]),
        Format::IntelMe2 => dotted(&[
            bits(raw, 28, 4),
            bits(raw, 24, 4),
            bits(raw, 16, 8),
            bits(raw, 0, 16),
        ]),
        Format::Hex => hex(raw),
    }
}

/// `count` bits of a number, of which the lowest has the place `low`.
fn bits(raw: u32, low: u32, count: u32) -> u32
    requires low_place { low < 32 }
    requires few { count < 32 }
    ensures value { result ≡ bits raw low count }
    ensures small { result < 2 ^ count }
{
    (raw >> low) % (1 << count)
}

/// The byte whose lowest bit has the place `low`, read as two decimal digits.
fn bcd(raw: u32, low: u32) -> u32
    requires { low ≤ 24 }
    ensures { result ≡ bcd raw low }
{
    10 * bits(raw, low + 4, 4) + bits(raw, low, 4)
}

/// Decimal numbers with dots between them.
fn dotted(numbers: &[u32]) -> Version
    requires some { 0 < length numbers.now }
    requires few { length numbers.now ≤ 4 }
    ensures { result ≡ dotted numbers.now }
{
    let mut text = ArrayVec::new();
    for (place, number) in numbers.iter().enumerate() {
        push_number(&mut text, place, *number);
    }
    Version::keep(text.as_slice())
}

/// Appends a number in decimal, after a dot where it is not the first.
fn push_number(text: &mut ArrayVec<u8, 64>, place: usize, number: u32)
    requires { array_vec_len text.old + 11 ≤ 64 }
    ensures items { text.new.items ≡ text.old.items ++ (if place == 0 then [] else dot ∷ []) ++ decimal number }
    ensures len { array_vec_len text.new ≤ array_vec_len text.old + 11 }
{
    if place > 0 {
        text.push(b'.');
    }
    push_decimal(text, number);
}

/// Appends a number in decimal.
fn push_decimal(text: &mut ArrayVec<u8, 64>, number: u32)
    requires { array_vec_len text.old + 10 ≤ 64 }
    ensures items { text.new.items ≡ text.old.items ++ decimal number }
    ensures len { array_vec_len text.new ≤ array_vec_len text.old + 10 }
{
    let mut buffer = Buffer::new();
    let digits = buffer.format(number);
    let _ = text.try_extend_from_slice(digits.as_bytes());
}

/// `0x` and eight lower-case hex digits.
fn hex(raw: u32) -> Version
    ensures { result ≡ render Format.Hex raw }
{
    let mut text = *b"0x00000000";
    let _ = hex::encode_to_slice(raw.to_be_bytes().as_slice(), &mut text[2..]);
    Version::keep(&text)
}
