//! Which values can be read, and as what.
ghost use Rattle.std.specs.Prelude.{◌≡◌, ◌≤◌, ℕ, List, Option, length, find, true};
ghost use Rattle.std.specs.List.{list_all};
ghost use Rattle.std.specs.Str.{bytes_eq};
ghost use Rattle.std.specs.Str.Parse.{digits_value};
ghost use Rattle.version_formats.specs.Formats.{format_word};
ghost use Rattle.quirk_files.specs.Flags.{change_of};
ghost use Rattle.quirk_files.specs.Values.{name_of, line_of, format_of, is_hex, is_hex_digit, hex_number, number_of, within, guid_of_element};

use crate::changes::FlagChange;
use fw_base::{Line, Name, read_decimal};
use guid_ids::{Guid, guid_of};
use version_formats::Format;

/// How the text of a value, or of an element of a list, is read.
pub trait Reader {
    /// What is read.
    type Value: Copy + Drop;

    ghost reads: { Self → List ℕ → Option Self.Value };

    /// What the text is read as. A text that can't be read gives nothing.
    fn read(&self, text: &[u8]) -> Option<Self::Value>
        ensures { result ≡ reads self.now text.now };
}

/// Names.
#[derive(Drop)]
pub struct Names;

impl Reader for Names {
    type Value = Name;

    ghost reads = { λ _. name_of };

    fn read(&self, text: &[u8]) -> Option<Name> {
        Name::read(text).ok()
    }
}

/// Lines.
#[derive(Drop)]
pub struct Lines;

impl Reader for Lines {
    type Value = Line;

    ghost reads = { λ _. line_of };

    fn read(&self, text: &[u8]) -> Option<Line> {
        Line::read(text).ok()
    }
}

/// Words of version formats.
#[derive(Drop)]
pub struct Formats;

impl Reader for Formats {
    type Value = Format;

    ghost reads = { λ _. format_of };

    fn read(&self, text: &[u8]) -> Option<Format> {
        format_among(&Format::ALL, text)
    }
}

/// Numbers up to the greatest.
#[derive(Drop)]
pub struct Numbers {
    pub most: u32,
}

impl Reader for Numbers {
    type Value = u32;

    ghost reads = { λ numbers text. within numbers.most (number_of text) };

    fn read(&self, text: &[u8]) -> Option<u32> {
        within(self.most, number_of(text))
    }
}

/// GUIDs, and the GUIDs of instance IDs, which are lines.
#[derive(Drop)]
pub struct Guids;

impl Reader for Guids {
    type Value = Guid;

    ghost reads = { λ _. guid_of_element };

    fn read(&self, text: &[u8]) -> Option<Guid> {
        match Line::read(text) {
            Ok(_) => Some(guid_of(text)),
            Err(_) => None,
        }
    }
}

/// Changes of flags.
#[derive(Drop)]
pub struct Changes;

impl Reader for Changes {
    type Value = FlagChange;

    ghost reads = { λ _. change_of };

    fn read(&self, text: &[u8]) -> Option<FlagChange> {
        FlagChange::read(text)
    }
}

fn format_among(formats: &[Format], value: &[u8]) -> Option<Format>
    ensures { result ≡ find (λ format. bytes_eq (format_word format) value.now) formats.now }
{
    formats
        .iter()
        .copied()
        .find(|format| format.word() == value)
}

fn within(most: u32, number: Option<u64>) -> Option<u32>
    ensures { result ≡ within most number }
{
    match number {
        Some(number) if number <= u64::from(most) => Some(number as u32),
        Some(_) | None => None,
    }
}

fn number_of(value: &[u8]) -> Option<u64>
    ensures { result ≡ number_of value.now }
{
    if is_hex(value) {
        hex_number(&value[2..])
    } else {
        read_decimal(value).ok()
    }
}

fn is_hex(value: &[u8]) -> bool
    ensures { result ≡ is_hex value.now }
{
    2 <= value.len() && value[0] == b'0' && value[1] == b'x'
}

fn hex_number(digits: &[u8]) -> Option<u64>
    ensures { result ≡ hex_number digits.now }
{
    if 1 <= digits.len() && digits.len() <= 8 && are_hex_digits(digits) {
        Some(hex_value(digits))
    } else {
        None
    }
}

fn are_hex_digits(digits: &[u8]) -> bool
    ensures { result ≡ list_all is_hex_digit digits.now }
{
    digits.iter().all(|b| hex_digit(*b) < 16)
}

fn hex_value(digits: &[u8]) -> u64
    requires short { length digits.now ≤ 8 }
    requires digits { list_all is_hex_digit digits.now ≡ true }
    ensures { result ≡ digits_value 16 digits.now }
{
    let mut value = 0u64;
    for digit in digits {
        value = value.wrapping_mul(16).wrapping_add(hex_digit(*digit));
    }
    value
}

fn hex_digit(b: u8) -> u64
    ensures { result ≡ Rattle.std.specs.Char.digit_value b }
{
    match b {
        b'0'..=b'9' => u64::from(b - b'0'),
        b'a'..=b'z' => u64::from(b - b'a') + 10,
        b'A'..=b'Z' => u64::from(b - b'A') + 10,
        _ => 36,
    }
}
