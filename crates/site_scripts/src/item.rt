//! The items of scripts.
ghost use Rattle.std.specs.Prelude.{◌≡◌, ◌+◌, ◌≤◌, ◌<◌, [], IfErr, IfOk, OnOk, length};
ghost use Rattle.serde_json.specs.Data as json;
ghost use Rattle.json_values.specs.Trees.{view, items_view};
ghost use Rattle.release_catalogue.specs.declared.spot.Level.TheVariants.{Third};
ghost use Rattle.release_catalogue.specs.Reading.{Fails, Gives, each, entry_spot, maybe, the};
ghost use Rattle.release_catalogue.specs.Kinds.{number_at};
ghost use Rattle.site_scripts.specs.Items.{done_at, install_at, item_at, selector_at};

use crate::flags::install_flags_or_none;
use crate::verb::{Verb, read_verb};
use client_scripts::Item;
use device_list::Selector;
use guid_ids::{DeviceId, Guid};
use json_values::Value;
use release_catalogue::kinds::{name, number, object, version};
use release_catalogue::members::{member, needed};
use release_catalogue::spot::fault_at;
use release_catalogue::{Level, ReadStop, Reason, Spot, Word};
use std::alloc::Global;
use update_log::{Query, Request};

/// The most items of a document, over all its boots.
pub const ITEMS_MAX: usize = 8_192;

/// The last entry that a row may have: a history has no more rows.
pub const ENTRY_MAX: u64 = 65_536;

/// The items of a script, where `taken` were taken before it.
pub fn each_item(
    alloc: Global,
    taken: usize,
    values: &[Value],
    spot: Spot,
) -> Result<Vec<Item>, ReadStop>
    requires { taken ≤ 8192 }
    ensures read { Gives (λ v. v.items) result (each (λ earlier. item_at (taken + length earlier)) (entry_spot spot Third) [] (items_view values.now)) }
    ensures within { IfOk result (λ v. taken + length v.items ≤ 8192) }
{
    let mut read = Vec::new(alloc);
    for value in values {
        match push_item(&mut read, taken, value, spot) {
            Ok(()) => {}
            Err(stop) => return Err(stop),
        }
    }
    Ok(read)
}

/// Puts the next item of a script behind the others.
fn push_item(read: &mut Vec<Item>, taken: usize, value: &Value, spot: Spot) -> Result<(), ReadStop>
    requires { taken + length read.old.items ≤ 8192 }
    ensures read { OnOk result ((ds : json.Items) → each (λ earlier. item_at (taken + length earlier)) (entry_spot spot Third) read.old.items (json.item (view value.now) ds) ≡ each (λ earlier. item_at (taken + length earlier)) (entry_spot spot Third) read.new.items ds) }
    ensures fault { IfErr result (λ stop. (ds : json.Items) → Fails stop (each (λ earlier. item_at (taken + length earlier)) (entry_spot spot Third) read.old.items (json.item (view value.now) ds))) }
    ensures within { OnOk result (taken + length read.new.items ≤ 8192) }
{
    // The checker of borrows wants the types of an item's parts among the locals.
    let _device: Option<Selector> = None;
    let _query: Option<Query> = None;
    let _request: Option<Request> = None;
    let _retry_of: Option<u32> = None;
    let place = read.len();
    let item = item(taken + place, value, spot.entry(Level::Third, place as u32))?;
    read.push(item)?;
    Ok(())
}

/// An item, where `taken` were taken before: `TooMany` at its `do` from the 8,193rd on.
#[tactic(auto, unfolding(crate::specs::Items::item_at))]
pub fn item(taken: usize, value: &Value, spot: Spot) -> Result<Item, ReadStop>
    ensures read { Gives (λ i. i) result (item_at taken spot (view value.now)) }
    ensures within { IfOk result (λ _. taken < 8192) }
{
    object(value, spot)?;
    if ITEMS_MAX <= taken {
        return Err(fault_at(spot.field(Word::Do), Reason::TooMany));
    }
    let verb = read_verb(needed(value, spot, Word::Do)?, spot.field(Word::Do))?;
    done(verb, value, spot)
}

#[tactic(auto, unfolding(crate::specs::Items::done_at))]
fn done(verb: Verb, value: &Value, spot: Spot) -> Result<Item, ReadStop>
    ensures { Gives (λ i. i) result (done_at verb spot (view value.now)) }
{
    match verb {
        Verb::GetDevices => Ok(Item::Ask(Query::Devices)),
        Verb::GetReleases => Ok(Item::Ask(Query::Releases(device(value, spot)?))),
        Verb::GetUpgrades => Ok(Item::Ask(Query::Upgrades(device(value, spot)?))),
        Verb::Install => install(value, spot),
        Verb::GetHistory => Ok(Item::Ask(Query::History)),
        Verb::GetResults => Ok(Item::Ask(Query::Results(device(value, spot)?))),
        Verb::Settle => Ok(Item::Settle(device(value, spot)?)),
        Verb::Unplug => Ok(Item::Unplug(device(value, spot)?)),
        Verb::Plug => Ok(Item::Plug(device(value, spot)?)),
    }
}

/// The device of an item, which must be there.
fn device(value: &Value, spot: Spot) -> Result<Selector, ReadStop>
    ensures { Gives (λ s. s) result (the spot Word.Device selector_at (view value.now)) }
{
    let found = needed(value, spot, Word::Device)?;
    selector(found, spot.field(Word::Device))
}

/// A device by its ID, by a GUID, or else by the port of its board.
pub fn selector(value: &Value, spot: Spot) -> Result<Selector, ReadStop>
    ensures { Gives (λ s. s) result (selector_at spot (view value.now)) }
{
    let name = name(value, spot)?;
    if let Some(device) = DeviceId::read(name.bytes()) {
        return Ok(Selector::Id(device));
    }
    if let Some(guid) = Guid::read(name.bytes()) {
        return Ok(Selector::Guid(guid));
    }
    Ok(Selector::Port(name))
}

#[tactic(auto, unfolding(crate::specs::Items::install_at))]
fn install(value: &Value, spot: Spot) -> Result<Item, ReadStop>
    ensures { Gives (λ i. i) result (install_at spot (view value.now)) }
{
    let device = device(value, spot)?;
    let tag = name(needed(value, spot, Word::Tag)?, spot.field(Word::Tag))?;
    let version = version(
        needed(value, spot, Word::Version)?,
        spot.field(Word::Version),
    )?;
    let flags = install_flags_or_none(value, spot)?;
    let retry_of = retry_or_none(value, spot)?;
    Ok(Item::Install(Request {
        tag,
        device,
        version,
        flags,
        retry_of,
    }))
}

/// The entry of the row that an install tries again, where it names one: 1 to 65,536.
fn retry_or_none(value: &Value, spot: Spot) -> Result<Option<u32>, ReadStop>
    ensures { Gives (λ n. n) result (maybe spot Word.RetryOf (number_at 1 65536) (view value.now)) }
{
    match member(value, Word::RetryOf) {
        None => Ok(None),
        Some(found) => {
            let entry = number(found, spot.field(Word::RetryOf), 1, ENTRY_MAX)?;
            Ok(Some(entry as u32))
        }
    }
}
