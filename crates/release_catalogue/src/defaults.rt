//! Fields that may be missing.
ghost use Rattle.std.specs.Prelude.{◌≡◌, []};
ghost use Rattle.json_values.specs.Trees.{view};
ghost use Rattle.release_catalogue.specs.Reading.{Gives, optional, maybe, maybe_here};
ghost use Rattle.release_catalogue.specs.Kinds.{number_at, bool_at, name_at, line_at, version_at};

use crate::kinds::{boolean, line, name, number, version};
use crate::members::member;
use crate::spot::{ReadStop, Spot};
use crate::word::Word;
use fw_base::{Line, Name};
use json_values::Value;
use version_formats::Version;

/// A line, or the empty one where it is missing.
pub fn line_or_empty(value: &Value, spot: Spot, word: Word) -> Result<Line, ReadStop>
    ensures { Gives (λ n. n) result (optional spot word line_at [] (view value.now)) }
{
    match member(value, word) {
        None => Ok(Line::empty()),
        Some(found) => line(found, spot.field(word)),
    }
}

/// A line, where it is there.
pub fn line_or_none(value: &Value, spot: Spot, word: Word) -> Result<Option<Line>, ReadStop>
    ensures { Gives (λ n. n) result (maybe spot word line_at (view value.now)) }
{
    match member(value, word) {
        None => Ok(None),
        Some(found) => Ok(Some(line(found, spot.field(word))?)),
    }
}

/// A name, where it is there.
pub fn name_or_none(value: &Value, spot: Spot, word: Word) -> Result<Option<Name>, ReadStop>
    ensures { Gives (λ n. n) result (maybe spot word name_at (view value.now)) }
{
    match member(value, word) {
        None => Ok(None),
        Some(found) => Ok(Some(name(found, spot.field(word))?)),
    }
}

/// A name, where it is there, whose fault is told at the place of its object.
pub fn name_or_none_here(value: &Value, spot: Spot, word: Word) -> Result<Option<Name>, ReadStop>
    ensures { Gives (λ n. n) result (maybe_here spot word name_at (view value.now)) }
{
    match member(value, word) {
        None => Ok(None),
        Some(found) => Ok(Some(name(found, spot)?)),
    }
}

/// A version, where it is there.
pub fn version_or_none(value: &Value, spot: Spot, word: Word) -> Result<Option<Version>, ReadStop>
    ensures { Gives (λ n. n) result (maybe spot word version_at (view value.now)) }
{
    match member(value, word) {
        None => Ok(None),
        Some(found) => Ok(Some(version(found, spot.field(word))?)),
    }
}

/// True or false, or the default where it is missing.
pub fn boolean_or(value: &Value, spot: Spot, word: Word, default: bool) -> Result<bool, ReadStop>
    ensures { Gives (λ n. n) result (optional spot word bool_at default (view value.now)) }
{
    match member(value, word) {
        None => Ok(default),
        Some(found) => boolean(found, spot.field(word)),
    }
}

/// A number from 0 to `most`, or the default where it is missing.
pub fn number_or(
    value: &Value,
    spot: Spot,
    word: Word,
    most: u32,
    default: u32,
) -> Result<u32, ReadStop>
    ensures { Gives (λ n. n) result (optional spot word (number_at 0 most) default (view value.now)) }
{
    match member(value, word) {
        None => Ok(default),
        Some(found) => Ok(number(found, spot.field(word), 0, u64::from(most))? as u32),
    }
}
