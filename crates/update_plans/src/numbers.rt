//! The numbers that the sections of a version are.
ghost use Rattle.std.specs.Prelude.{◌≡◌, ◌<◌, ◌+◌, ◌*◌, ◌^◌, ◌∷◌, ◌++◌, [], ◌==◌, nat_lt, if◌then◌else◌, ℕ, List, length, position, MatchOption};
ghost use Rattle.std.specs.Bool.{OnTrue};
ghost use Rattle.std.specs.Option.{option_copied, IsSomeAnd};
ghost use Rattle.version_formats.specs.Formats.{dot};
ghost use Rattle.version_formats.specs.VersionOrder.{section_of, sections};
ghost use Rattle.update_plans.specs.Fields.{AreNumbers, digit_of, whole};

use arrayvec::ArrayVec;

/// The numbers that the sections of a version are, where there are at most four, each is a number
/// alone, and each has at most 32 bits.
pub fn numbers(version: &[u8]) -> Option<ArrayVec<u32, 4>>
    ensures { (numbers : List ℕ) → AreNumbers version.now numbers → IsSomeAnd result (λ read. read.items ≡ numbers) }
{
    let mut numbers = ArrayVec::new();
    let mut text = version;
    'sections: loop {
        let (section, more) = first_section(text);
        if !push(&mut numbers, number_of(section)?) {
            return None;
        }
        match more {
            Some(behind) => text = behind,
            None => return Some(numbers),
        }
    }
}

// The first section of a text, and the text behind its dot, where it has one.
fn first_section(text: &[u8]) -> (&[u8], Option<&[u8]>)
    ensures first { MatchOption (option_copied result.1)
        (sections text.now ≡ section_of result.0.now ∷ [])
        (λ more. sections text.now ≡ section_of result.0.now ∷ sections more) }
    ensures shorter { MatchOption (option_copied result.1) (Unit {0}) (λ more. length more < length text.now) }
{
    match first_dot(text) {
        Some(at) => (&text[..at], Some(&text[at + 1..])),
        None => (text, None),
    }
}

fn first_dot(text: &[u8]) -> Option<usize>
    ensures { result ≡ position (λ b. b == dot) text.now }
{
    text.iter().position(|b| *b == b'.')
}

// The number that a section is, where it is one alone, of at most 32 bits.
fn number_of(section: &[u8]) -> Option<u32>
    ensures { (number : ℕ) → number < 2 ^ 32 → section_of section.now ≡ whole number → result ≡ Some number }
{
    let mut number: u32 = 0;
    for byte in section {
        number = with_digit(number, digit_of(*byte)?)?;
    }
    Some(number)
}

fn digit_of(byte: u8) -> Option<u32>
    ensures { result ≡ digit_of byte }
{
    if byte.is_ascii_digit() {
        Some(u32::from(byte) - 48)
    } else {
        None
    }
}

// The number with one more digit behind it, where it still has at most 32 bits.
fn with_digit(number: u32, digit: u32) -> Option<u32>
    requires { digit < 10 }
    ensures { result ≡ (if nat_lt (number * 10 + digit) (2 ^ 32) then Some (number * 10 + digit) else None) }
{
    let longer = u64::from(number) * 10 + u64::from(digit);
    if longer < 1 << 32 {
        Some(longer as u32)
    } else {
        None
    }
}

// Puts a number behind the others, and says whether there was room for it.
fn push(numbers: &mut ArrayVec<u32, 4>, number: u32) -> bool
    ensures pushed { OnTrue result (numbers.new.items ≡ numbers.old.items ++ number ∷ []) }
    ensures full { result ≡ nat_lt (length numbers.old.items) 4 }
{
    numbers.try_push(number).is_ok()
}
