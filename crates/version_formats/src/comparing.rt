//! The order of versions.
ghost use Rattle.std.specs.Prelude.{◌≡◌, ◌==◌, ◌<◌, ◌≤◌, ◌∷◌, [], drop, length, MatchOption, nat_lt, position, take_while, slice_index, if◌then◌else◌};
ghost use Rattle.std.specs.Char.{is_ascii_digit};
ghost use Rattle.std.specs.List.{AllPass, prefix_len};
ghost use Rattle.std.specs.Option.{option_copied};
ghost use Rattle.std.specs.Ordering.{nat_cmp};
ghost use Rattle.std.specs.Str.Parse.{digits_value};
ghost use Rattle.version_formats.specs.Formats.{dot};
ghost use Rattle.version_formats.specs.VersionOrder.{version_cmp, section_cmp, section_of, sections, rest_cmp, byte_rank, end_rank};

use crate::Version;
use std::cmp::Ordering;

/// Compares two versions by their first differing section. A section is its leading decimal digits,
/// as a number without upper bound, and then its rest, in which `~` stands below the end. Two
/// different texts may be equal, as `01.0` and `1.0`.
pub fn compare(left: &Version, right: &Version) -> Ordering
    ensures { result ≡ version_cmp left.now right.now }
{
    compare_texts(left.bytes(), right.bytes())
}

fn compare_texts(left: &[u8], right: &[u8]) -> Ordering
    ensures { result ≡ version_cmp left.now right.now }
{
    let mut left = left;
    let mut right = right;
    'sections: loop {
        let (left_section, left_more) = first_section(left);
        let (right_section, right_more) = first_section(right);
        match compare_sections(left_section, right_section) {
            Ordering::Equal => {}
            differing => return differing,
        }
        match (left_more, right_more) {
            (Some(left_text), Some(right_text)) => {
                left = left_text;
                right = right_text;
            }
            (Some(_), None) => return Ordering::Greater,
            (None, Some(_)) => return Ordering::Less,
            (None, None) => return Ordering::Equal,
        }
    }
}

/// The first section of a text, and the text behind its dot, where it has one.
fn first_section(text: &[u8]) -> (&[u8], Option<&[u8]>)
    ensures first { MatchOption (option_copied result.1)
        (sections text.now ≡ section_of result.0.now ∷ [])
        (λ more. sections text.now ≡ section_of result.0.now ∷ sections more) }
    ensures shorter { MatchOption (option_copied result.1) (Unit {0}) (λ more. length more < length text.now) }
{
    match first_dot(text) {
        Some(at) => (&text[..at], Some(&text[at + 1..])),
        None => (text, None),
    }
}

fn first_dot(text: &[u8]) -> Option<usize>
    ensures { result ≡ position (λ b. b == dot) text.now }
{
    text.iter().position(|b| *b == b'.')
}

fn compare_sections(left: &[u8], right: &[u8]) -> Ordering
    ensures { result ≡ section_cmp (section_of left.now) (section_of right.now) }
{
    let (left_digits, left_rest) = split_number(left);
    let (right_digits, right_rest) = split_number(right);
    compare_numbers(left_digits, right_digits).then_with(|| compare_rests(left_rest, right_rest))
}

/// The leading digits of a section, and its rest.
fn split_number(text: &[u8]) -> (&[u8], &[u8])
    ensures number { result.0.now ≡ take_while is_ascii_digit text.now }
    ensures rest { result.1.now ≡ drop (prefix_len is_ascii_digit text.now) text.now }
    ensures digits { AllPass is_ascii_digit result.0.now }
{
    text.split_at(leading_digits(text))
}

fn leading_digits(text: &[u8]) -> usize
    ensures value { result ≡ prefix_len is_ascii_digit text.now }
    ensures within { result ≤ length text.now }
{
    text.iter().take_while(|b| b.is_ascii_digit()).count()
}

/// Compares the numbers that two runs of digits write, in place: the longer one without leading
/// zeros is the larger, and of two equally long the one whose first differing digit is.
fn compare_numbers(left: &[u8], right: &[u8]) -> Ordering
    requires left_digits { AllPass is_ascii_digit left.now }
    requires right_digits { AllPass is_ascii_digit right.now }
    ensures { result ≡ nat_cmp (digits_value 10 left.now) (digits_value 10 right.now) }
{
    let left = without_zeros(left);
    let right = without_zeros(right);
    left.len().cmp(&right.len()).then(left.cmp(right))
}

fn without_zeros(digits: &[u8]) -> &[u8]
    ensures { result.now ≡ drop (prefix_len (λ b. b == 48) digits.now) digits.now }
{
    &digits[leading_zeros(digits)..]
}

fn leading_zeros(digits: &[u8]) -> usize
    ensures value { result ≡ prefix_len (λ b. b == 48) digits.now }
    ensures within { result ≤ length digits.now }
{
    digits.iter().take_while(|b| **b == b'0').count()
}

/// Compares what follows the numbers, byte by byte and up to the ends.
fn compare_rests(left: &[u8], right: &[u8]) -> Ordering
    ensures { result ≡ rest_cmp left.now right.now }
{
    let mut at = 0;
    while at < left.len() && at < right.len() {
        if left[at] != right[at] {
            return rank(left[at]).cmp(&rank(right[at]));
        }
        at += 1;
    }
    rank_at(left, at).cmp(&rank_at(right, at))
}

fn rank_at(text: &[u8], at: usize) -> u16
    ensures { result ≡ (if nat_lt at (length text.now) then byte_rank (slice_index text.now at) else end_rank) }
{
    match text.get(at) {
        Some(byte) => rank(*byte),
        None => 1,
    }
}

fn rank(byte: u8) -> u16
    ensures { result ≡ byte_rank byte }
{
    if byte == b'~' { 0 } else { u16::from(byte) + 2 }
}
