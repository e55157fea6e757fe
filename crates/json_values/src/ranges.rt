//! Whether the numbers of a value are in range.
ghost use Rattle.std.specs.Prelude.{◌≡◌};
ghost use Rattle.json.specs.Value.{value_view, items_view, members_view};
ghost use Rattle.json_values.specs.Trees.{is_in_range, are_in_range, members_are_in_range};

use crate::numbers::is_number;
use json::Value;

/// Whether each number of the value is in range.
#[cycle(range)]
pub(crate) fn is_in_range(value: &Value) -> bool
    ensures { result ≡ is_in_range (value_view value.now) }
{
    match value {
        Value::Null | Value::Bool(_) | Value::String(_) => true,
        Value::Number(numeral) => is_number(*numeral),
        Value::Array(items) => are_in_range(items.as_slice()),
        Value::Object(members) => members_are_in_range(members.as_slice()),
    }
}

#[cycle(range)]
fn are_in_range(items: &[Value]) -> bool
    ensures { result ≡ are_in_range (items_view items.now) }
{
    for item in items {
        if !is_in_range(item) {
            return false;
        }
    }
    true
}

#[cycle(range)]
fn members_are_in_range(members: &[(&str, Value)]) -> bool
    ensures { result ≡ members_are_in_range (members_view members.now) }
{
    for member in members {
        if !is_in_range(&member.1) {
            return false;
        }
    }
    true
}
