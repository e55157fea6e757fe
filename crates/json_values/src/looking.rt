//! Looking into a value.
ghost use Rattle.std.specs.Prelude.{◌≡◌, is_some, option_and_then, option_map};
ghost use Rattle.json.specs.Find as json;
ghost use Rattle.json.specs.Value.{value_view, items_view as trees_view, members_view as entries_view};
ghost use Rattle.serde_json.specs.Find.{as_array, as_bool, as_number, as_object, as_str, as_u64, get};
ghost use Rattle.json_values.specs.Trees.{view, items_view};

use crate::numbers::whole;
use json::Value;

/// The last member of that name. What isn't an object has none.
#[tactic(auto, using(crate::proofs::LookUps::member_found))]
pub fn member<'v, 't>(value: &'v Value<'t>, name: &str) -> Option<&'v Value<'t>>
    ensures { option_map (λ v. view v.now) result ≡ get name.now (view value.now) }
{
    value.get(name)
}

/// A number of 64 bits without a sign, a point and an exponent. What is anything else has none.
#[tactic(auto, using(crate::proofs::LookUps::number_found, crate::proofs::LookUps::number_missing))]
pub fn number(value: &Value) -> Option<u64>
    ensures { result ≡ option_and_then as_u64 (as_number (view value.now)) }
{
    match value.as_number() {
        None => None,
        Some(numeral) => whole(numeral),
    }
}

/// True or false. What is neither has none.
#[tactic(auto, using(crate::proofs::LookUps::bool_found))]
pub fn boolean(value: &Value) -> Option<bool>
    ensures { result ≡ as_bool (view value.now) }
{
    value.as_bool()
}

/// A text, with its escapes read. What isn't a text has none.
#[tactic(auto, using(crate::proofs::LookUps::text_found))]
pub fn text<'t>(value: &Value<'t>) -> Option<&'t str>
    ensures { option_map (λ s. s.now) result ≡ as_str (view value.now) }
{
    value.as_str()
}

/// The items of an array, in order. What isn't an array has none.
#[tactic(auto, using(crate::proofs::LookUps::items_found, crate::proofs::LookUps::items_missing))]
pub fn items<'v, 't>(value: &'v Value<'t>) -> Option<&'v [Value<'t>]>
    ensures { option_map (λ s. items_view s.now) result ≡ as_array (view value.now) }
{
    match array(value) {
        None => None,
        Some(list) => Some(list.as_slice()),
    }
}

/// Whether it is an object.
#[tactic(auto, using(crate::proofs::LookUps::object_found))]
pub fn is_object(value: &Value) -> bool
    ensures { result ≡ is_some (as_object (view value.now)) }
{
    entries(value).is_some()
}

fn array<'v, 't>(value: &'v Value<'t>) -> Option<&'v Vec<Value<'t>>>
    ensures { option_map (λ v. trees_view v.now.items) result ≡ json.as_array (value_view value.now) }
{
    if let Value::Array(list) = value {
        Some(list)
    } else {
        None
    }
}

/// The members of an object, as they stand in the text: a key may come twice.
pub(crate) fn entries<'v, 't>(value: &'v Value<'t>) -> Option<&'v Vec<(&'t str, Value<'t>)>>
    ensures { option_map (λ v. entries_view v.now.items) result ≡ json.as_object (value_view value.now) }
{
    if let Value::Object(list) = value {
        Some(list)
    } else {
        None
    }
}
