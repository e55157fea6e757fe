//! Signs: the bytes of a pattern, a backslash and the punctuation behind it as one.
ghost use Rattle.std.specs.Prelude.{◌≡◌, ◌==◌, ◌&&◌, IfOk, not, None};
ghost use Rattle.fw_patterns.specs.Reading.{is_plain, is_profile, pending_fault, sign, sign_step, signs};

use crate::PatternFault;
use fw_base::NoMemory;
use std::alloc::Global;

/// A byte of a pattern, its place, and whether a backslash makes it literal; the place is then that
/// of the backslash.
#[derive(Clone, Copy, Debug, PartialEq, Eq)]
pub struct Sign {
    /// The place of the sign's first byte.
    pub at: usize,
    /// Whether a backslash stands in front.
    pub escaped: bool,
    /// The byte itself.
    pub byte: u8,
}

/// Signs in order, and the fault behind them: none at the pattern's end.
#[derive(Debug, Drop)]
pub struct Signs {
    /// The signs.
    pub items: Vec<Sign>,
    /// What ends them.
    pub end: Option<PatternFault>,
}

/// What one byte more of a pattern is.
#[derive(Clone, Copy, Debug, PartialEq, Eq)]
pub enum SignStep {
    /// A backslash, which the next byte ends.
    Backslash,
    /// A whole sign.
    Whole(Sign),
    /// A byte that has no meaning there.
    Bad(PatternFault),
}

impl SignStep {
    fn whole(at: usize, escaped: bool, byte: u8) -> SignStep
        ensures { result ≡ SignStep.Whole (sign at escaped byte) }
    {
        SignStep::Whole(Sign { at, escaped, byte })
    }
}

impl Sign {
    /// Whether the sign is this byte without a backslash.
    pub fn is_plain(&self, byte: u8) -> bool
        ensures { result ≡ is_plain byte self.now }
    {
        !self.escaped && self.byte == byte
    }
}

/// The signs of a text.
pub fn signs_of(alloc: Global, text: &[u8]) -> Result<Signs, NoMemory>
    ensures items { IfOk result (λ all. all.items.items ≡ (signs None 0 text.now).items) }
    ensures end { IfOk result (λ all. all.end ≡ (signs None 0 text.now).end) }
{
    let mut items = Vec::new(alloc);
    let mut backslash = None;
    for (at, byte) in text.iter().enumerate() {
        match sign_step(backslash, at, *byte) {
            SignStep::Backslash => backslash = Some(at),
            SignStep::Whole(sign) => {
                items.push(sign)?;
                backslash = None;
            }
            SignStep::Bad(fault) => {
                let end = Some(fault);
                return Ok(Signs { items, end });
            }
        }
    }
    let end = pending_fault(backslash);
    Ok(Signs { items, end })
}

/// What a byte is behind a backslash at a place, or behind none.
fn sign_step(backslash: Option<usize>, at: usize, byte: u8) -> SignStep
    ensures { result ≡ sign_step backslash at byte }
{
    match backslash {
        Some(place) if byte.is_ascii_punctuation() => SignStep::whole(place, true, byte),
        Some(place) => SignStep::Bad(PatternFault::OutOfProfile { at: place }),
        None if byte == b'\\' => SignStep::Backslash,
        None if is_profile(byte) => SignStep::whole(at, false, byte),
        None => SignStep::Bad(PatternFault::OutOfProfile { at }),
    }
}

fn pending_fault(backslash: Option<usize>) -> Option<PatternFault>
    ensures { result ≡ pending_fault backslash }
{
    match backslash {
        None => None,
        Some(at) => Some(PatternFault::Unclosed { at }),
    }
}

/// Whether a byte is printable ASCII, as all bytes of a pattern are.
pub fn is_profile(byte: u8) -> bool
    ensures { result ≡ is_profile byte }
{
    0x20 <= byte && byte <= 0x7e
}
