//! The kinds of single fields. Each reader answers the value or the first fault with its place and
//! reason, exactly as `specs/Kinds.antt` says of the JSON value. Those without a list take no memory.
ghost use Rattle.std.specs.Prelude.{◌≡◌, ◌≤◌, IfOk, map};
ghost use Rattle.std.specs.List.{list_any};
ghost use Rattle.std.specs.Str.{bytes_eq};
ghost use Rattle.json_values.specs.Trees.{view, items_view};
ghost use Rattle.release_catalogue.specs.Reading.{Gives};
ghost use Rattle.release_catalogue.specs.Kinds.{number_at, bool_at, text_at, name_at, name_among_at, line_at, version_at, digest_at, guid_at, items_at, object_at};

use crate::reason::Reason;
use crate::spot::{ReadStop, Spot, fault_at};
use fw_base::{Digest, Line, Name, read_digest};
use guid_ids::Guid;
use json_values::Value;
use version_formats::Version;

/// A number from `least` to `most`, with no point and no exponent, else `WrongKind`.
pub fn number(value: &Value, spot: Spot, least: u64, most: u64) -> Result<u64, ReadStop>
    ensures read { Gives (λ n. n) result (number_at least most spot (view value.now)) }
    ensures within { IfOk result (λ n. n ≤ most) }
{
    match json_values::number(value) {
        None => Err(fault_at(spot, Reason::WrongKind)),
        Some(n) => {
            if least <= n && n <= most {
                Ok(n)
            } else {
                Err(fault_at(spot, Reason::WrongKind))
            }
        }
    }
}

/// True or false, else `WrongKind`.
pub fn boolean(value: &Value, spot: Spot) -> Result<bool, ReadStop>
    ensures { Gives (λ b. b) result (bool_at spot (view value.now)) }
{
    match json_values::boolean(value) {
        None => Err(fault_at(spot, Reason::WrongKind)),
        Some(b) => Ok(b),
    }
}

/// A text, else `WrongKind`.
pub fn text<'t>(value: &Value<'t>, spot: Spot) -> Result<&'t str, ReadStop>
    ensures { Gives (λ s. s.now) result (text_at spot (view value.now)) }
{
    match json_values::text(value) {
        None => Err(fault_at(spot, Reason::WrongKind)),
        Some(s) => Ok(s),
    }
}

/// A name, else `WrongKind`.
pub fn name(value: &Value, spot: Spot) -> Result<Name, ReadStop>
    ensures { Gives (λ n. n) result (name_at spot (view value.now)) }
{
    let text = text(value, spot)?;
    match Name::read(text.as_bytes()) {
        Err(_) => Err(fault_at(spot, Reason::WrongKind)),
        Ok(name) => Ok(name),
    }
}

/// A name of the list, else `WrongKind`.
pub fn name_among(value: &Value, spot: Spot, names: &[&str]) -> Result<Name, ReadStop>
    ensures { Gives (λ n. n) result (name_among_at (map (λ s. s.now) names.now) spot (view value.now)) }
{
    let name = name(value, spot)?;
    if is_among(&name, names) {
        Ok(name)
    } else {
        Err(fault_at(spot, Reason::WrongKind))
    }
}

fn is_among(name: &Name, names: &[&str]) -> bool
    ensures { result ≡ list_any (bytes_eq name.now) (map (λ s. s.now) names.now) }
{
    some_is(names, name)
}

fn some_is(texts: &[&str], name: &Name) -> bool
    ensures { result ≡ list_any (λ s. bytes_eq name.now s.now) texts.now }
{
    texts.iter().any(|text| name.bytes() == text.as_bytes())
}

/// A line, else `WrongKind`.
pub fn line(value: &Value, spot: Spot) -> Result<Line, ReadStop>
    ensures { Gives (λ n. n) result (line_at spot (view value.now)) }
{
    let text = text(value, spot)?;
    match Line::read(text.as_bytes()) {
        Err(_) => Err(fault_at(spot, Reason::WrongKind)),
        Ok(line) => Ok(line),
    }
}

/// A version. What isn't a text is `WrongKind`, another text `BadVersion`.
pub fn version(value: &Value, spot: Spot) -> Result<Version, ReadStop>
    ensures { Gives (λ n. n) result (version_at spot (view value.now)) }
{
    let text = text(value, spot)?;
    match Version::read(text.as_bytes()) {
        Err(_) => Err(fault_at(spot, Reason::BadVersion)),
        Ok(version) => Ok(version),
    }
}

/// A digest. What isn't a text is `WrongKind`, another text `BadDigest`.
pub fn digest(value: &Value, spot: Spot) -> Result<Digest, ReadStop>
    ensures { Gives (λ n. n) result (digest_at spot (view value.now)) }
{
    let text = text(value, spot)?;
    match read_digest(text.as_bytes()) {
        None => Err(fault_at(spot, Reason::BadDigest)),
        Some(digest) => Ok(digest),
    }
}

/// A GUID. What isn't a text is `WrongKind`, another text `BadGuid`.
pub fn guid(value: &Value, spot: Spot) -> Result<Guid, ReadStop>
    ensures { Gives (λ n. n) result (guid_at spot (view value.now)) }
{
    let text = text(value, spot)?;
    match Guid::read(text.as_bytes()) {
        None => Err(fault_at(spot, Reason::BadGuid)),
        Some(guid) => Ok(guid),
    }
}

/// The entries of a list, else `WrongKind`.
pub fn items<'v, 't>(value: &'v Value<'t>, spot: Spot) -> Result<&'v [Value<'t>], ReadStop>
    ensures { Gives (λ s. items_view s.now) result (items_at spot (view value.now)) }
{
    match json_values::items(value) {
        None => Err(fault_at(spot, Reason::WrongKind)),
        Some(items) => Ok(items),
    }
}

/// Whether the value is an object: `WrongKind` where it isn't.
pub fn object(value: &Value, spot: Spot) -> Result<(), ReadStop>
    ensures { Gives (λ u. u) result (object_at spot (view value.now)) }
{
    if json_values::is_object(value) {
        Ok(())
    } else {
        Err(fault_at(spot, Reason::WrongKind))
    }
}
