//! An object's members as fields.

ghost use Rattle.std.specs.Prelude.{◌≡◌, ◌++◌, IfOk, OnOk, bytes_eq, map};
ghost use Rattle.std.specs.List.{list_any};
ghost use Rattle.json.specs.Value.{members_view, value_view};
ghost use Rattle.ttree_source.specs.Fields.{fields_besides, member_fields, members_fields, object_fields, value_text};

use crate::calls::shown;
use crate::json_text::json_text;
use json::Value;
use std::alloc::{AllocError, Global};
use tracing_tree_base::field::{Field, Fields};
use tracing_tree_base::text::Text;

/// Returns an object's members as the fields of an event. A value that isn't an object has no
/// fields.
///
/// # Errors
///
/// `AllocError` if an allocation fails.
pub fn event_fields(alloc: Global, value: &Value<'_>) -> Result<Fields, AllocError>
    ensures { IfOk result (λ fields. fields ≡ object_fields (value_view value.now)) }
{
    fields_besides(alloc, &[], value)
}

/// Returns an object's members as fields, except those with one of these keys. A value that isn't
/// an object has no fields.
///
/// # Errors
///
/// `AllocError` if an allocation fails.
pub fn fields_besides(alloc: Global, keys: &[&str], value: &Value<'_>) -> Result<Fields, AllocError>
    ensures { IfOk result (λ fields. fields
        ≡ fields_besides (map (λ key. key.now) keys.now) (value_view value.now)) }
{
    match value {
        Value::Object(members) => members_fields(alloc, keys, members),
        _ => Ok(Fields::new(alloc)),
    }
}

fn members_fields(
    alloc: Global,
    keys: &[&str],
    members: &Vec<(&str, Value<'_>)>,
) -> Result<Fields, AllocError>
    ensures { IfOk result (λ fields. fields
        ≡ members_fields (map (λ key. key.now) keys.now) (members_view members.now.items)) }
{
    let mut fields = Vec::new(alloc);
    for member in members {
        push_member(alloc, &mut fields, keys, member.0, &member.1)?;
    }
    Ok(Fields::from(fields))
}

// Appends a member to these fields, unless it has one of these keys.
fn push_member(
    alloc: Global,
    fields: &mut Vec<Field>,
    keys: &[&str],
    key: &str,
    value: &Value<'_>,
) -> Result<(), AllocError>
    ensures { OnOk result (fields.new.items ≡ fields.old.items
        ++ member_fields (map (λ key. key.now) keys.now) key.now (value_view value.now)) }
{
    if is_among(key, keys) {
        return Ok(());
    }
    let field = Field {
        name: shown(alloc, key)?,
        value: text_of(alloc, value)?,
    };
    Ok(fields.push(field)?)
}

// Returns whether the string is one of these.
pub(crate) fn is_among(text: &str, keys: &[&str]) -> bool
    ensures { result ≡ list_any (bytes_eq text.now) (map (λ key. key.now) keys.now) }
{
    for key in keys {
        if text == *key {
            return true;
        }
    }
    false
}

/// Returns the drawn form of a value: an array and an object as compact JSON.
///
/// # Errors
///
/// `AllocError` if an allocation fails.
pub fn text_of(alloc: Global, value: &Value<'_>) -> Result<Text, AllocError>
    ensures { IfOk result (λ text. text ≡ value_text (value_view value.now)) }
{
    match value {
        Value::String(text) => shown(alloc, text),
        Value::Number(text) => Text::from_str(alloc, text),
        Value::Bool(true) => Text::from_str(alloc, "true"),
        Value::Bool(false) => Text::from_str(alloc, "false"),
        Value::Null => Text::from_str(alloc, "null"),
        Value::Array(_) | Value::Object(_) => shown(alloc, json_text(alloc, value)?.as_str()),
    }
}
