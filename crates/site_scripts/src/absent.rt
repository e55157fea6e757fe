//! The boards that are absent in a boot.
ghost use Rattle.std.specs.Prelude.{◌≡◌, ◌≤◌, [], length};
ghost use Rattle.json_values.specs.Trees.{view, items_view};
ghost use Rattle.release_catalogue.specs.declared.spot.Level.TheVariants.{Whole};
ghost use Rattle.release_catalogue.specs.Reading.{Gives, each, entry_spot, optional};
ghost use Rattle.site_scripts.specs.Boots.{absent_at, absents_at};

use crate::ports::Ports;
use fw_base::Listed;
use json_values::Value;
use release_catalogue::kinds::{items, text};
use release_catalogue::members::member;
use release_catalogue::spot::fault_at;
use release_catalogue::{ReadStop, Reason, Spot, Word};
use std::alloc::Global;

/// The absent boards, by their places in the document, or none where the field is missing.
pub fn absents_or_none(
    alloc: Global,
    ports: &Ports,
    value: &Value,
    spot: Spot,
) -> Result<Listed<u32>, ReadStop>
    requires { length ports.now ≤ 256 }
    ensures { Gives (λ l. l) result (optional spot Word.Absent (absents_at ports.now) [] (view value.now)) }
{
    match member(value, Word::Absent) {
        None => Ok(Listed::of(Vec::new(alloc))),
        Some(found) => absents(alloc, ports, found, spot.field(Word::Absent)),
    }
}

fn absents(alloc: Global, ports: &Ports, value: &Value, spot: Spot) -> Result<Listed<u32>, ReadStop>
    requires { length ports.now ≤ 256 }
    ensures { Gives (λ l. l) result (absents_at ports.now spot (view value.now)) }
{
    let values = items(value, spot)?;
    let read = each_absent(alloc, ports, values, spot)?;
    Ok(Listed::of(read))
}

fn each_absent(
    alloc: Global,
    ports: &Ports,
    values: &[Value],
    spot: Spot,
) -> Result<Vec<u32>, ReadStop>
    requires { length ports.now ≤ 256 }
    ensures { Gives (λ v. v.items) result (each (λ _. absent_at ports.now) (entry_spot spot Whole) [] (items_view values.now)) }
{
    let mut read = Vec::new(alloc);
    for value in values {
        let at = absent(ports, value, spot)?;
        read.push(at)?;
    }
    Ok(read)
}

/// A board's place in the document, by its port: `BadReference` where no board has it.
pub fn absent(ports: &Ports, value: &Value, spot: Spot) -> Result<u32, ReadStop>
    requires { length ports.now ≤ 256 }
    ensures { Gives (λ n. n) result (absent_at ports.now spot (view value.now)) }
{
    let text = text(value, spot)?;
    match ports.place(text.as_bytes()) {
        None => Err(fault_at(spot, Reason::BadReference)),
        Some(at) => Ok(at as u32),
    }
}
