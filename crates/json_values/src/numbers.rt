//! Numerals, and the numbers that they are.
ghost use Rattle.std.specs.Prelude.{◌≡◌, ◌<◌, ◌==◌, IsTrue, false, true, is_some, length, option_and_then, slice_index};
ghost use Rattle.serde_json.specs.Find.{as_u64};
ghost use Rattle.serde_json.specs.Read.{float_of, number_from, number_of};

use fast_float::Numeral;

/// The number of 64 bits that a numeral without a sign, a point and an exponent is. Any other has none.
#[tactic(auto, using(crate::proofs::Numerals::whole_below, crate::proofs::Numerals::whole_above))]
pub(crate) fn whole(numeral: &str) -> Option<u64>
    ensures { result ≡ option_and_then as_u64 (number_of numeral.now) }
{
    let bytes = numeral.as_bytes();
    if has_minus(bytes) {
        None
    } else {
        unsigned(&Numeral::scan(bytes))
    }
}

/// The same of a numeral without a sign, by its parts.
#[tactic(auto, using(crate::proofs::Numerals::float_is_not_whole))]
fn unsigned(numeral: &Numeral) -> Option<u64>
    ensures { result ≡ option_and_then as_u64 (number_from false numeral.now) }
{
    match numeral.to_u64() {
        Some(n) => Some(n),
        None => None,
    }
}

/// Whether the number is in range: an integer of 64 bits with or without a sign, or else nearest to a finite float.
#[tactic(auto, using(crate::proofs::Numerals::fits_below, crate::proofs::Numerals::fits_above))]
pub(crate) fn is_number(numeral: &str) -> bool
    ensures { result ≡ is_some (number_of numeral.now) }
{
    let bytes = numeral.as_bytes();
    if has_minus(bytes) {
        is_below_zero(&Numeral::scan(&bytes[1..]))
    } else {
        is_above_zero(&Numeral::scan(bytes))
    }
}

fn is_above_zero(numeral: &Numeral) -> bool
    ensures { result ≡ is_some (number_from false numeral.now) }
{
    match numeral.to_u64() {
        Some(_) => true,
        None => is_finite(false, numeral),
    }
}

fn is_below_zero(numeral: &Numeral) -> bool
    ensures { result ≡ is_some (number_from true numeral.now) }
{
    if let Some(n) = numeral.to_i64(true) {
        if n < 0 {
            return true;
        }
    }
    is_finite(true, numeral)
}

fn is_finite(negative: bool, numeral: &Numeral) -> bool
    ensures { result ≡ is_some (float_of negative numeral.now) }
{
    let nearest: f64 = numeral.to_float::<f64>(negative);
    nearest.is_finite()
}

fn has_minus(bytes: &[u8]) -> bool
    ensures value { result ≡ (slice_index bytes.now 0 == 45) }
    ensures len { IsTrue result → 0 < length bytes.now }
{
    !bytes.is_empty() && bytes[0] == b'-'
}
