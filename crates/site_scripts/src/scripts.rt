//! The scripts of a boot.
ghost use Rattle.std.specs.Prelude.{◌≡◌, ◌+◌, ◌≤◌, [], IfOk, length};
ghost use Rattle.json_values.specs.Trees.{view, items_view};
ghost use Rattle.release_catalogue.specs.declared.spot.Level.TheVariants.{Second};
ghost use Rattle.release_catalogue.specs.Reading.{Gives, each, entry_spot, optional};
ghost use Rattle.site_scripts.specs.Boots.{items_in, script_at, scripts_at};

use crate::item::each_item;
use client_scripts::Item;
use fw_base::Listed;
use json_values::Value;
use release_catalogue::entries::count;
use release_catalogue::kinds::items;
use release_catalogue::members::member;
use release_catalogue::spot::fault_at;
use release_catalogue::{Level, ReadStop, Reason, Spot, Word};
use std::alloc::Global;

/// The scripts of the boot, or none where the field is missing. `taken` items were taken before.
pub fn scripts_or_none(
    alloc: Global,
    clients: usize,
    taken: usize,
    value: &Value,
    spot: Spot,
) -> Result<Vec<Listed<Item>>, ReadStop>
    requires few { clients ≤ 16 }
    requires within { taken ≤ 8192 }
    ensures read { Gives (λ v. v.items) result (optional spot Word.Scripts (scripts_at clients taken spot) [] (view value.now)) }
    ensures within { IfOk result (λ v. taken + items_in v.items ≤ 8192) }
{
    match member(value, Word::Scripts) {
        None => Ok(Vec::new(alloc)),
        Some(found) => scripts(
            alloc,
            clients,
            taken,
            found,
            spot,
            spot.field(Word::Scripts),
        ),
    }
}

#[tactic(auto, unfolding(crate::specs::Boots::scripts_at))]
fn scripts(
    alloc: Global,
    clients: usize,
    taken: usize,
    value: &Value,
    base: Spot,
    spot: Spot,
) -> Result<Vec<Listed<Item>>, ReadStop>
    requires few { clients ≤ 16 }
    requires within { taken ≤ 8192 }
    ensures read { Gives (λ v. v.items) result (scripts_at clients taken base spot (view value.now)) }
    ensures within { IfOk result (λ v. taken + items_in v.items ≤ 8192) }
{
    let values = items(value, spot)?;
    if clients < count(values) {
        return Err(fault_at(spot, Reason::TooMany));
    }
    each_script(alloc, taken, values, base)
}

fn each_script(
    alloc: Global,
    taken: usize,
    values: &[Value],
    base: Spot,
) -> Result<Vec<Listed<Item>>, ReadStop>
    requires few { length values.now ≤ 16 }
    requires within { taken ≤ 8192 }
    ensures read { Gives (λ v. v.items) result (each (λ earlier. script_at (taken + items_in earlier)) (entry_spot base Second) [] (items_view values.now)) }
    ensures within { IfOk result (λ v. taken + items_in v.items ≤ 8192) }
{
    let mut read = Vec::new(alloc);
    let mut so_far = taken;
    for (i, value) in values.iter().enumerate() {
        let script = script(alloc, so_far, value, base.entry(Level::Second, i as u32))?;
        so_far += script.items().len();
        read.push(script)?;
    }
    Ok(read)
}

/// The items of a client.
#[tactic(auto, unfolding(crate::specs::Boots::script_at))]
pub fn script(
    alloc: Global,
    taken: usize,
    value: &Value,
    spot: Spot,
) -> Result<Listed<Item>, ReadStop>
    requires { taken ≤ 8192 }
    ensures read { Gives (λ l. l) result (script_at taken spot (view value.now)) }
    ensures within { IfOk result (λ l. taken + length l ≤ 8192) }
{
    let values = items(value, spot)?;
    let read = each_item(alloc, taken, values, spot)?;
    Ok(Listed::of(read))
}
