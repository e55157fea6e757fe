//! Instance IDs, and the lines that they are.
ghost use Rattle.std.specs.Prelude.{◌≡◌, ◌≤◌, ◌<◌, ◌^◌, [], length};
ghost use Rattle.json_values.specs.Trees.{view, items_view};
ghost use Rattle.release_catalogue.specs.declared.spot.Level.TheVariants.{Whole};
ghost use Rattle.release_catalogue.specs.Reading.{Gives, each, entry_spot, optional, the};
ghost use Rattle.release_catalogue.specs.Kinds.{plain_list_at};
ghost use Rattle.site_files.specs.Instances.{full_line_at, instance_at, instances_at};

use fw_base::{Line, Listed};
use guid_ids::{Guid, guid_of};
use json_values::Value;
use release_catalogue::entries::count;
use release_catalogue::kinds::{items, line};
use release_catalogue::members::{member, needed};
use release_catalogue::spot::fault_at;
use release_catalogue::{ReadStop, Reason, Spot, Word};
use std::alloc::Global;

/// The most entries of a list of instance IDs.
pub const INSTANCES_MAX: usize = 64;

/// A line that isn't empty, else `WrongKind`.
pub fn full_line(value: &Value, spot: Spot) -> Result<Line, ReadStop>
    ensures { Gives (λ l. l) result (full_line_at spot (view value.now)) }
{
    let line = line(value, spot)?;
    if line.bytes().is_empty() {
        return Err(fault_at(spot, Reason::WrongKind));
    }
    Ok(line)
}

/// An instance ID, as the GUID that it gives.
pub fn instance(value: &Value, spot: Spot) -> Result<Guid, ReadStop>
    ensures { Gives (λ g. g) result (instance_at spot (view value.now)) }
{
    let line = full_line(value, spot)?;
    Ok(guid_of(line.bytes()))
}

/// A list of up to 64 instance IDs.
fn instances_in(alloc: Global, value: &Value, spot: Spot) -> Result<Vec<Guid>, ReadStop>
    ensures { Gives (λ v. v.items) result (plain_list_at 64 instance_at spot (view value.now)) }
{
    let values = items(value, spot)?;
    if INSTANCES_MAX < count(values) {
        return Err(fault_at(spot, Reason::TooMany));
    }
    each_instance(alloc, values, spot)
}

fn each_instance(alloc: Global, values: &[Value], spot: Spot) -> Result<Vec<Guid>, ReadStop>
    ensures { Gives (λ v. v.items) result (each (λ _. instance_at) (entry_spot spot Whole) [] (items_view values.now)) }
{
    let mut read = Vec::new(alloc);
    for value in values {
        let guid = instance(value, spot)?;
        read.push(guid)?;
    }
    Ok(read)
}

/// A list of 1 to 64 instance IDs.
pub fn instances(alloc: Global, value: &Value, spot: Spot) -> Result<Vec<Guid>, ReadStop>
    ensures { Gives (λ v. v.items) result (instances_at spot (view value.now)) }
{
    let guids = instances_in(alloc, value, spot)?;
    if guids.is_empty() {
        return Err(fault_at(spot, Reason::WrongKind));
    }
    Ok(guids)
}

/// The instance IDs of the field, which must be there.
pub fn instances_needed(
    alloc: Global,
    value: &Value,
    spot: Spot,
    word: Word,
) -> Result<Listed<Guid>, ReadStop>
    ensures { Gives (λ l. l) result (the spot word instances_at (view value.now)) }
{
    let found = needed(value, spot, word)?;
    let guids = instances(alloc, found, spot.field(word))?;
    Ok(Listed::of(guids))
}

/// The instance IDs of the field, or others where it is missing.
pub fn instances_or(
    alloc: Global,
    value: &Value,
    spot: Spot,
    word: Word,
    others: &[Guid],
) -> Result<Listed<Guid>, ReadStop>
    ensures { Gives (λ l. l) result (optional spot word instances_at others.now (view value.now)) }
{
    match member(value, word) {
        None => Ok(Listed::of(Vec::from_slice(alloc, others)?)),
        Some(found) => {
            let guids = instances(alloc, found, spot.field(word))?;
            Ok(Listed::of(guids))
        }
    }
}

/// Up to 64 instance IDs, or none where the field is missing.
pub fn instances_or_none(
    alloc: Global,
    value: &Value,
    spot: Spot,
    word: Word,
) -> Result<Listed<Guid>, ReadStop>
    ensures { Gives (λ l. l) result (optional spot word (plain_list_at 64 instance_at) [] (view value.now)) }
{
    match member(value, word) {
        None => Ok(Listed::of(Vec::new(alloc))),
        Some(found) => {
            let guids = instances_in(alloc, found, spot.field(word))?;
            Ok(Listed::of(guids))
        }
    }
}
