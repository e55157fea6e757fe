//! The members of an object in the order of their keys.
ghost use Rattle.std.specs.Prelude.{◌≡◌, IfOk, option_map};
ghost use Rattle.json.specs.Value.{members_view as entries_view};
ghost use Rattle.serde_json.specs.Data.{no_members};
ghost use Rattle.serde_json.specs.Find.{as_object};
ghost use Rattle.json_values.specs.Trees.{view, members_of, members_view};

use crate::looking::entries;
use json::Value;
use std::alloc::{AllocError, Global};
use std::collections::BTreeMap;

/// The members of an object by their keys, of each key the last. What isn't an object has none.
#[tactic(auto, using(crate::proofs::LookUps::members_found, crate::proofs::LookUps::members_missing))]
pub fn members<'v, 't>(
    alloc: Global,
    value: &'v Value<'t>,
) -> Result<Option<BTreeMap<&'t str, &'v Value<'t>>>, AllocError>
    ensures { IfOk result (λ found. option_map (λ m. members_view m.entries) found ≡ as_object (view value.now)) }
{
    match entries(value) {
        None => Ok(None),
        Some(list) => Ok(Some(in_order(alloc, list.as_slice())?)),
    }
}

fn in_order<'v, 't>(
    alloc: Global,
    list: &'v [(&'t str, Value<'t>)],
) -> Result<BTreeMap<&'t str, &'v Value<'t>>, AllocError>
    ensures { IfOk result (λ m. members_view m.entries ≡ members_of (entries_view list.now) no_members) }
{
    let mut found = BTreeMap::new(alloc);
    for entry in list {
        drop(found.insert(entry.0, &entry.1)?);
    }
    Ok(found)
}
