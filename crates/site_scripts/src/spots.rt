//! Where the parts of the document stand.
ghost use Rattle.std.specs.Prelude.{◌≡◌};
ghost use Rattle.json_values.specs.Trees.{view};
ghost use Rattle.release_catalogue.specs.Reading.{Gives, or_fault};
ghost use Rattle.release_catalogue.specs.Words.{word_text};
ghost use Rattle.serde_json.specs.Find.{get};
ghost use Rattle.site_scripts.specs.Places.{spot_in, whole_spot};

use json_values::Value;
use release_catalogue::members::member;
use release_catalogue::spot::fault_at;
use release_catalogue::{ReadStop, Reason, Spot, Word};

/// A place in a section, without an index.
pub fn spot_in(section: Word, field: Word) -> Spot
    ensures { result ≡ spot_in section field }
{
    let index = [0, 0, 0];
    Spot {
        section,
        index,
        field,
    }
}

/// The place of the whole text.
pub fn whole_spot() -> Spot
    ensures { result ≡ whole_spot }
{
    spot_in(Word::Document, Word::Text)
}

/// A member that must be there, whose absence is told at the place of its object.
pub fn needed_here<'v, 't>(
    value: &'v Value<'t>,
    spot: Spot,
    word: Word,
) -> Result<&'v Value<'t>, ReadStop>
    ensures { Gives (λ v. view v.now) result (or_fault spot Reason.Missing (get (word_text word) (view value.now))) }
{
    match member(value, word) {
        None => Err(fault_at(spot, Reason::Missing)),
        Some(found) => Ok(found),
    }
}
