//! Requirements in the document.
ghost use Rattle.std.specs.Prelude.{◌≡◌, []};
ghost use Rattle.json_values.specs.Trees.{view};
ghost use Rattle.release_catalogue.specs.Reading.{Gives, maybe, optional};
ghost use Rattle.release_catalogue.specs.Kinds.{text_at};
ghost use Rattle.release_catalogue.specs.Requirements.{depth_at, required_of, requirement_at};

use crate::comparison::{maybe_test, test, vendor_test};
use crate::entries::Entry;
use crate::kinds::{number, object, text};
use crate::members::{member, needed};
use crate::reason::Reason;
use crate::spot::{ReadStop, Spot, fault_at};
use crate::subject::{Subject, read_subject, read_tag};
use crate::word::Word;
use fw_facts::Requirement;
use guid_ids::Guid;
use json_values::Value;
use std::alloc::Global;

impl Entry for Requirement {
    ghost use Rattle.fw_facts.specs.declared.requirement.Requirement.{Requirement};
    ghost use Rattle.release_catalogue.specs.Requirements.{requirement_at};

    ghost Seen = { Requirement };

    ghost seen = { λ requirement. requirement };

    ghost reading = { λ _. requirement_at };

    fn read(
        alloc: Global,
        _earlier: &[Requirement],
        value: &Value,
        spot: Spot,
    ) -> Result<Requirement, ReadStop> {
        requirement(alloc, value, spot)
    }
}

/// A requirement: its members `tag`, `text`, `depth`, `compare` and `version`, in this order.
#[tactic(auto, unfolding(crate::specs::Requirements::requirement_at))]
pub fn requirement(alloc: Global, value: &Value, spot: Spot) -> Result<Requirement, ReadStop>
    ensures { Gives (λ r. r) result (requirement_at spot (view value.now)) }
{
    object(value, spot)?;
    let tag = read_tag(needed(value, spot, Word::Tag)?, spot.field(Word::Tag))?;
    let text = text_or_empty(value, spot)?;
    let subject = read_subject(alloc, tag, text.as_bytes(), spot.field(Word::Text))?;
    let depth = depth_or_none(value, spot, text.as_bytes())?;
    required(alloc, subject, depth, value, spot)
}

fn text_or_empty<'t>(value: &Value<'t>, spot: Spot) -> Result<&'t str, ReadStop>
    ensures { Gives (λ s. s.now) result (optional spot Word.Text text_at [] (view value.now)) }
{
    match member(value, Word::Text) {
        None => Ok(""),
        Some(found) => text(found, spot.field(Word::Text)),
    }
}

fn depth_or_none(value: &Value, spot: Spot, text: &[u8]) -> Result<Option<u8>, ReadStop>
    ensures { Gives (λ d. d) result (maybe spot Word.Depth (depth_at text.now) (view value.now)) }
{
    match member(value, Word::Depth) {
        None => Ok(None),
        Some(found) => Ok(Some(depth(found, spot.field(Word::Depth), text)?)),
    }
}

fn depth(value: &Value, spot: Spot, text: &[u8]) -> Result<u8, ReadStop>
    ensures { Gives (λ d. d) result (depth_at text.now spot (view value.now)) }
{
    let depth = number(value, spot, 1, 8)?;
    if Guid::read(text).is_none() {
        return Err(fault_at(spot, Reason::WrongKind));
    }
    Ok(depth as u8)
}

#[tactic(auto, unfolding(crate::specs::Requirements::required_of))]
fn required(
    alloc: Global,
    subject: Subject,
    depth: Option<u8>,
    value: &Value,
    spot: Spot,
) -> Result<Requirement, ReadStop>
    ensures { Gives (λ r. r) result (required_of subject depth spot (view value.now)) }
{
    match subject {
        Subject::Id(name) => {
            let test = test(alloc, value, spot)?;
            Ok(Requirement::Id { name, test })
        }
        Subject::Firmware => {
            let test = test(alloc, value, spot)?;
            Ok(Requirement::Firmware { test })
        }
        Subject::Bootloader => {
            let test = test(alloc, value, spot)?;
            Ok(Requirement::Bootloader { test })
        }
        Subject::VendorId => {
            let test = vendor_test(alloc, value, spot)?;
            Ok(Requirement::VendorId { test })
        }
        Subject::Device(guid) => device(alloc, guid, depth, value, spot),
        Subject::Hardware(any) => Ok(Requirement::Hardware { any }),
        Subject::NotHardware(any) => Ok(Requirement::NotHardware { any }),
        Subject::Client(feature) => Ok(Requirement::Client { feature }),
    }
}

#[tactic(auto, unfolding(crate::specs::Requirements::required_of))]
fn device(
    alloc: Global,
    guid: Guid,
    depth: Option<u8>,
    value: &Value,
    spot: Spot,
) -> Result<Requirement, ReadStop>
    ensures { Gives (λ r. r) result (required_of (Subject.Device guid) depth spot (view value.now)) }
{
    let test = maybe_test(alloc, value, spot)?;
    match depth {
        None => Ok(Requirement::Device { guid, test }),
        Some(depth) => Ok(Requirement::Ancestor { depth, guid, test }),
    }
}
