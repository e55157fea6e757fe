//! Decimal numbers, as the document and the command line write them.
ghost use Rattle.std.specs.Prelude.{◌≡◌, ◌<◌, ◌^◌, ◌+◌, ◌*◌, ◌-◌, false, ℕ, Option, Some, None, if◌then◌else◌, nat_lt, length, position};
ghost use Rattle.std.specs.Str.Parse.{digits_value};
ghost use Rattle.fw_base.specs.Decimals.{number_read, first_bad_digit, is_no_digit};

use thiserror::Error;

/// Why bytes are no number.
#[derive(Debug, Drop, Error, PartialEq, Eq)]
pub enum NumberFault {
    #[error("a number has at least one digit")]
    Empty,
    #[error("byte {at} of the number is no digit, or a leading zero")]
    BadByte { at: usize },
    #[error("a number is at most 18446744073709551615")]
    TooLarge,
}

/// Reads one or more decimal digits, without a leading zero unless the text is `0`.
///
/// The faults stand in their order: no byte, then the first byte that is no digit (a leading zero is
/// bad at 0), then a value past 2^64 - 1.
pub fn read_decimal(bytes: &[u8]) -> Result<u64, NumberFault>
    ensures { result ≡ number_read bytes.now }
{
    if bytes.is_empty() {
        return Err(NumberFault::Empty);
    }
    match first_bad(bytes) {
        Some(at) => Err(NumberFault::BadByte { at }),
        None => value_of(bytes).ok_or(NumberFault::TooLarge),
    }
}

fn first_bad(bytes: &[u8]) -> Option<usize>
    ensures { result ≡ first_bad_digit bytes.now }
{
    if bytes.len() > 1 && bytes[0] == b'0' {
        Some(0)
    } else {
        first_no_digit(bytes)
    }
}

fn first_no_digit(bytes: &[u8]) -> Option<usize>
    ensures { result ≡ position is_no_digit bytes.now }
{
    bytes.iter().position(|b| *b < b'0' || *b > b'9')
}

/// The value of digits, where it is below 2^64.
fn value_of(digits: &[u8]) -> Option<u64>
    requires { first_bad_digit digits.now ≡ None }
    ensures { result ≡ (if nat_lt (digits_value 10 digits.now) (2 ^ 64) then Some (digits_value 10 digits.now) else None) }
{
    let mut value = 0u64;
    for digit in digits {
        match with_digit(value, *digit) {
            Some(more) => value = more,
            None => return None,
        }
    }
    Some(value)
}

/// The number with one more digit behind it, where that is below 2^64.
fn with_digit(value: u64, digit: u8) -> Option<u64>
    ensures { is_no_digit digit ≡ false → result ≡ (if nat_lt (value * 10 + (digit - 48)) (2 ^ 64) then Some (value * 10 + (digit - 48)) else None) }
{
    value
        .checked_mul(10)?
        .checked_add(u64::from(digit.wrapping_sub(b'0')))
}
