//! An object's members as fields, and those of objects in it under both names.

ghost use Rattle.std.specs.Prelude.{◌≡◌, ◌++◌, IfOk, OnOk, string_bytes};
ghost use Rattle.json.specs.Value.{members_view, value_view};
ghost use Rattle.ttree_source.specs.Calls.{shown_text};
ghost use Rattle.ttree_source.specs.JsonText.{json_text};
ghost use Rattle.ttree_logs.specs.LogFields.{drawn_field, empty_fields, inner_fields, inner_name, member_fields, members_fields, value_fields};

use super::used::UsedKeys;
use json::Value;
use std::alloc::{AllocError, Global};
use tracing_tree_base::field::Field;
use tracing_tree_base::text::Text;
use ttree_source::calls::shown;
use ttree_source::json_text::json_text;

// Puts an object's members after these fields, but those whose keys are used.
pub(super) fn push_members(
    alloc: Global,
    fields: &mut Vec<Field>,
    used: &UsedKeys<'_>,
    members: &Vec<(&str, Value<'_>)>,
) -> Result<(), AllocError>
    ensures { OnOk result (fields.new.items ≡ fields.old.items
        ++ members_fields used.now (members_view members.now.items)) }
{
    for member in members {
        push_member(alloc, fields, used, member.0, &member.1)?;
    }
    Ok(())
}

fn push_member(
    alloc: Global,
    fields: &mut Vec<Field>,
    used: &UsedKeys<'_>,
    key: &str,
    value: &Value<'_>,
) -> Result<(), AllocError>
    ensures { OnOk result (fields.new.items ≡ fields.old.items
        ++ member_fields used.now key.now (value_view value.now)) }
{
    if used.has(key) {
        return Ok(());
    }
    push_value(alloc, fields, key, value)
}

// Puts a value of this name after these fields.
#[cycle(value)]
fn push_value(
    alloc: Global,
    fields: &mut Vec<Field>,
    name: &str,
    value: &Value<'_>,
) -> Result<(), AllocError>
    ensures { OnOk result (fields.new.items
        ≡ fields.old.items ++ value_fields name.now (value_view value.now)) }
{
    match value {
        Value::Null => push_text(alloc, fields, name, "null"),
        Value::Bool(true) => push_text(alloc, fields, name, "true"),
        Value::Bool(false) => push_text(alloc, fields, name, "false"),
        Value::Number(text) => push_text(alloc, fields, name, text),
        Value::String(text) => push_field(alloc, fields, name, shown(alloc, text)?),
        Value::Array(_) => push_array(alloc, fields, name, value),
        Value::Object(members) => {
            push_empty(alloc, fields, name, members)?;
            push_inner(alloc, fields, name, members)
        }
    }
}

// Puts the members of an object of this name after these fields.
#[cycle(value)]
fn push_inner(
    alloc: Global,
    fields: &mut Vec<Field>,
    name: &str,
    members: &Vec<(&str, Value<'_>)>,
) -> Result<(), AllocError>
    ensures { OnOk result (fields.new.items
        ≡ fields.old.items ++ inner_fields name.now (members_view members.now.items)) }
{
    for member in members {
        let inner = inner_name(alloc, name, member.0)?;
        push_value(alloc, fields, inner.as_str(), &member.1)?;
    }
    Ok(())
}

// Appends an object without members as a field.
fn push_empty(
    alloc: Global,
    fields: &mut Vec<Field>,
    name: &str,
    members: &Vec<(&str, Value<'_>)>,
) -> Result<(), AllocError>
    ensures { OnOk result (fields.new.items
        ≡ fields.old.items ++ empty_fields name.now (members_view members.now.items)) }
{
    match members.as_slice() {
        [] => push_text(alloc, fields, name, "{}"),
        [_, ..] => Ok(()),
    }
}

fn inner_name(alloc: Global, name: &str, key: &str) -> Result<String, AllocError>
    ensures { IfOk result (λ made. string_bytes made ≡ inner_name name.now key.now) }
{
    let mut inner = String::from_str(alloc, name)?;
    inner.push_str(".")?;
    inner.push_str(key)?;
    Ok(inner)
}

// Puts an array of this name after these fields, as JSON.
fn push_array(
    alloc: Global,
    fields: &mut Vec<Field>,
    name: &str,
    value: &Value<'_>,
) -> Result<(), AllocError>
    ensures { OnOk result (fields.new.items
        ≡ fields.old.items ++ drawn_field name.now
        (shown_text (json_text (value_view value.now)))) }
{
    let text = json_text(alloc, value)?;
    push_field(alloc, fields, name, shown(alloc, text.as_str())?)
}

fn push_text(
    alloc: Global,
    fields: &mut Vec<Field>,
    name: &str,
    value: &str,
) -> Result<(), AllocError>
    ensures { OnOk result (fields.new.items ≡ fields.old.items ++ drawn_field name.now value.now) }
{
    push_field(alloc, fields, name, Text::from_str(alloc, value)?)
}

fn push_field(
    alloc: Global,
    fields: &mut Vec<Field>,
    name: &str,
    value: Text,
) -> Result<(), AllocError>
    ensures { OnOk result (fields.new.items ≡ fields.old.items ++ drawn_field name.now value) }
{
    let field = Field {
        name: shown(alloc, name)?,
        value,
    };
    Ok(fields.push(field)?)
}
