//! Values of the keys of a JSON object.

ghost use Rattle.std.specs.Prelude.{◌≡◌, Some, false, option_and_then, option_map};
ghost use Rattle.serde_json.specs.Find.{as_bool, get};
ghost use Rattle.serde_json.specs.View.{view, items_view, members_view};
ghost use Rattle.serde_json.specs.Written.{has_float, items_have_float, members_have_float};
ghost use Rattle.tracing_tree_lines.specs.Lines.Spelled.{read_or, unless_null, whole_value};

use serde_json::{Map, Value};

// Returns the value itself, or `None` if it is a null, which counts as absent.
pub(super) fn unless_null(value: &Value) -> Option<&Value>
    ensures { option_map (λ found. view found.now) result ≡ unless_null (view value.now) }
{
    match value {
        Value::Null => None,
        _ => Some(value),
    }
}

// Returns the value of a key. `None` if it is missing or null.
pub(super) fn value_at<'v>(value: &'v Value, key: &str) -> Option<&'v Value>
    ensures { option_map (λ found. view found.now) result
        ≡ option_and_then unless_null (get key.now (view value.now)) }
{
    unless_null(value.get(key)?)
}

// Reads a `bool`. It is false if the key is absent. `None` if it is invalid.
pub(super) fn flag(value: &Value, key: &str) -> Option<bool>
    ensures { result ≡ read_or (Some false) as_bool key.now (view value.now) }
{
    match value_at(value, key) {
        Some(found) => found.as_bool(),
        None => Some(false),
    }
}

// Reads a whole number of 64 bits, or returns `absent` if the key is absent. `None` if it is
// invalid.
pub(super) fn whole_or(absent: u64, value: &Value, key: &str) -> Option<u64>
    ensures { result ≡ read_or (Some absent) whole_value key.now (view value.now) }
{
    match value_at(value, key) {
        Some(found) => found.as_u64(),
        None => Some(absent),
    }
}

// Returns whether the value contains a float at any depth: a number that isn't a whole number of 64
// bits.
#[cycle(has_float)]
pub(super) fn has_float(value: &Value) -> bool
    ensures { result ≡ has_float (view value.now) }
{
    match value {
        Value::Null | Value::Bool(_) | Value::String(_) => false,
        Value::Number(number) => number.is_f64(),
        Value::Array(items) => items_have_float(items),
        Value::Object(members) => members_have_float(members),
    }
}

#[cycle(has_float)]
fn items_have_float(items: &Vec<Value>) -> bool
    ensures { result ≡ items_have_float (items_view items.now.items) }
{
    for item in items {
        if has_float(item) {
            return true;
        }
    }
    false
}

#[cycle(has_float)]
fn members_have_float(members: &Map<String, Value>) -> bool
    ensures { result ≡ members_have_float (members_view members.now.entries) }
{
    for (_key, member) in members.iter() {
        if has_float(member) {
            return true;
        }
    }
    false
}
