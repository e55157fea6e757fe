//! Members of an object.
ghost use Rattle.std.specs.Prelude.{◌≡◌, option_map};
ghost use Rattle.serde_json.specs.Find.{get};
ghost use Rattle.json_values.specs.Trees.{view};
ghost use Rattle.release_catalogue.specs.Words.{word_text};
ghost use Rattle.release_catalogue.specs.Reading.{Gives, needed};

use crate::reason::Reason;
use crate::spot::{ReadStop, Spot, fault_at};
use crate::word::Word;
use json_values::Value;

/// A member that may be missing. What isn't an object has none.
pub fn member<'v, 't>(value: &'v Value<'t>, word: Word) -> Option<&'v Value<'t>>
    ensures { option_map (λ v. view v.now) result ≡ get (word_text word) (view value.now) }
{
    json_values::member(value, word.text())
}

/// A member that must be there: `Missing` at the field exactly where it isn't.
pub fn needed<'v, 't>(
    value: &'v Value<'t>,
    spot: Spot,
    word: Word,
) -> Result<&'v Value<'t>, ReadStop>
    ensures { Gives (λ v. view v.now) result (needed spot word (view value.now)) }
{
    match member(value, word) {
        None => Err(fault_at(spot.field(word), Reason::Missing)),
        Some(found) => Ok(found),
    }
}
