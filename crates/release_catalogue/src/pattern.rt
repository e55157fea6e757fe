//! Patterns in the document.
ghost use Rattle.std.specs.Prelude.{◌≡◌};
ghost use Rattle.json_values.specs.Trees.{view};
ghost use Rattle.release_catalogue.specs.Reading.{Gives};
ghost use Rattle.release_catalogue.specs.Requirements.{pattern_stop, glob_at, regex_at};

use crate::kinds::text;
use crate::reason::Reason;
use crate::spot::{ReadStop, Spot, fault_at};
use fw_patterns::{Pattern, PatternFault};
use json_values::Value;
use std::alloc::Global;

/// A glob. What isn't a text of up to 255 bytes is `WrongKind`, another text `BadPattern` with the
/// first faulty byte.
pub fn glob(alloc: Global, value: &Value, spot: Spot) -> Result<Pattern, ReadStop>
    ensures { Gives (λ p. p) result (glob_at spot (view value.now)) }
{
    let text = text(value, spot)?;
    match Pattern::glob(alloc, text.as_bytes()) {
        Ok(pattern) => Ok(pattern),
        Err(refused) => Err(stop(spot, refused)),
    }
}

/// A regular expression. What isn't a text of up to 255 bytes is `WrongKind`, another text
/// `BadPattern` with the first faulty byte.
pub fn regex(alloc: Global, value: &Value, spot: Spot) -> Result<Pattern, ReadStop>
    ensures { Gives (λ p. p) result (regex_at spot (view value.now)) }
{
    let text = text(value, spot)?;
    match Pattern::regex(alloc, text.as_bytes()) {
        Ok(pattern) => Ok(pattern),
        Err(refused) => Err(stop(spot, refused)),
    }
}

fn stop(spot: Spot, refused: PatternFault) -> ReadStop
    ensures { result ≡ pattern_stop spot refused }
{
    match refused {
        PatternFault::OutOfProfile { at }
        | PatternFault::Unclosed { at }
        | PatternFault::BadRange { at } => fault_at(spot, Reason::BadPattern { at }),
        PatternFault::TooLong { .. } => fault_at(spot, Reason::WrongKind),
        PatternFault::NoMemory => ReadStop::NoMemory,
    }
}
