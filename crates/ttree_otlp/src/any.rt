//! Shows a value of OTLP (`AnyValue`) as a string.

ghost use Rattle.std.specs.Prelude.{◌≡◌, ◌++◌, true, IfOk, OnOk, codes, option_map, string_bytes};
ghost use Rattle.json.specs.Value.{items_view, members_view, value_view};
ghost use Rattle.ttree_otlp.specs.AnyValue.{any_text, array_json, entry_json, is_scalar_key, is_text_key, items_json, key_text, list_json, quoted_char, quoted_chars, quoted_value, raw_text, scalar_text, separator, value_json, values_json, variant_json};

use json::Value;
use std::alloc::{AllocError, Global};
use ttree_source::values::text_at;

// Returns a value as text: a string unchanged, and any other value as JSON.
pub(crate) fn any_text(alloc: Global, value: &Value<'_>) -> Result<String, AllocError>
    ensures { IfOk result (λ text. string_bytes text ≡ any_text (value_view value.now)) }
{
    if let Some(text) = raw_text(value) {
        return String::from_str(alloc, text);
    }
    let mut out = String::new(alloc);
    push_value(&mut out, false, value)?;
    Ok(out)
}

// Returns a string, or bytes as base64.
fn raw_text<'v>(value: &'v Value<'_>) -> Option<&'v str>
    ensures { option_map (λ s. s.now) result ≡ raw_text (value_view value.now) }
{
    match text_at(value, "stringValue") {
        Some(text) => Some(text),
        None => text_at(value, "bytesValue"),
    }
}

// Appends a value as JSON, or an entry of a list of keys and values.
#[cycle(json)]
fn push_value(out: &mut String, with_keys: bool, value: &Value<'_>) -> Result<(), AllocError>
    ensures { OnOk result (string_bytes out.new
        ≡ string_bytes out.old ++ value_json with_keys (value_view value.now)) }
{
    match value {
        Value::Object(members) => {
            if with_keys {
                push_key(out, value)?;
                push_entry(out, members)
            } else {
                push_variant(out, members)
            }
        }
        _ => out.push_str("null"),
    }
}

// Appends the value at `value`.
#[cycle(json)]
fn push_entry(out: &mut String, members: &Vec<(&str, Value<'_>)>) -> Result<(), AllocError>
    ensures { OnOk result (string_bytes out.new
        ≡ string_bytes out.old ++ entry_json (members_view members.now.items)) }
{
    for member in members {
        if member.0 == "value" {
            return push_value(out, false, &member.1);
        }
    }
    out.push_str("null")
}

// Appends what the first member with a known key says.
#[cycle(json)]
fn push_variant(out: &mut String, members: &Vec<(&str, Value<'_>)>) -> Result<(), AllocError>
    ensures { OnOk result (string_bytes out.new
        ≡ string_bytes out.old ++ variant_json (members_view members.now.items)) }
{
    for member in members {
        if member.0 == "arrayValue" {
            out.push_str("[")?;
            push_list(out, false, &member.1)?;
            return out.push_str("]");
        }
        if member.0 == "kvlistValue" {
            out.push_str("{")?;
            push_list(out, true, &member.1)?;
            return out.push_str("}");
        }
        if is_scalar_key(member.0) {
            return push_scalar(out, is_text_key(member.0), &member.1);
        }
    }
    out.push_str("null")
}

#[cycle(json)]
fn push_list(out: &mut String, with_keys: bool, value: &Value<'_>) -> Result<(), AllocError>
    ensures { OnOk result (string_bytes out.new
        ≡ string_bytes out.old ++ list_json with_keys (value_view value.now)) }
{
    match value {
        Value::Object(members) => push_values(out, with_keys, members),
        _ => Ok(()),
    }
}

// Appends the items at `values`.
#[cycle(json)]
fn push_values(
    out: &mut String,
    with_keys: bool,
    members: &Vec<(&str, Value<'_>)>,
) -> Result<(), AllocError>
    ensures { OnOk result (string_bytes out.new
        ≡ string_bytes out.old ++ values_json with_keys (members_view members.now.items)) }
{
    for member in members {
        if member.0 == "values" {
            return push_array(out, with_keys, &member.1);
        }
    }
    Ok(())
}

#[cycle(json)]
fn push_array(out: &mut String, with_keys: bool, value: &Value<'_>) -> Result<(), AllocError>
    ensures { OnOk result (string_bytes out.new
        ≡ string_bytes out.old ++ array_json with_keys (value_view value.now)) }
{
    match value {
        Value::Array(items) => push_items(out, with_keys, items),
        _ => Ok(()),
    }
}

#[cycle(json)]
fn push_items(out: &mut String, with_keys: bool, items: &Vec<Value<'_>>) -> Result<(), AllocError>
    ensures { OnOk result (string_bytes out.new
        ≡ string_bytes out.old ++ items_json with_keys true (items_view items.now.items)) }
{
    let mut is_first = true;
    for item in items {
        push_separator(out, is_first)?;
        push_value(out, with_keys, item)?;
        is_first = false;
    }
    Ok(())
}

fn is_text_key(key: &str) -> bool
    ensures { result ≡ is_text_key key.now }
{
    key == "stringValue" || key == "bytesValue"
}

// Returns whether a value at this key isn't a list.
fn is_scalar_key(key: &str) -> bool
    ensures { result ≡ is_scalar_key key.now }
{
    is_text_key(key) || key == "boolValue" || key == "intValue" || key == "doubleValue"
}

fn push_scalar(out: &mut String, has_quotes: bool, value: &Value<'_>) -> Result<(), AllocError>
    ensures { OnOk result (string_bytes out.new
        ≡ string_bytes out.old ++ scalar_text has_quotes (value_view value.now)) }
{
    match value {
        Value::Null => out.push_str("null"),
        Value::Bool(true) => out.push_str("true"),
        Value::Bool(false) => out.push_str("false"),
        Value::Number(text) => out.push_str(text),
        Value::String(text) => {
            if has_quotes {
                push_quoted(out, text)
            } else {
                out.push_str(text)
            }
        }
        Value::Array(_) => out.push_str("[..]"),
        Value::Object(_) => out.push_str("{..}"),
    }
}

// Appends a comma, except before the first item.
fn push_separator(out: &mut String, is_first: bool) -> Result<(), AllocError>
    ensures { OnOk result (string_bytes out.new ≡ string_bytes out.old ++ separator is_first) }
{
    if is_first { Ok(()) } else { out.push_str(",") }
}

fn push_key(out: &mut String, entry: &Value<'_>) -> Result<(), AllocError>
    ensures { OnOk result (string_bytes out.new
        ≡ string_bytes out.old ++ key_text (value_view entry.now)) }
{
    push_quoted(out, text_at(entry, "key").unwrap_or(""))?;
    out.push_str(":")
}

fn push_quoted(out: &mut String, text: &str) -> Result<(), AllocError>
    ensures { OnOk result (string_bytes out.new ≡ string_bytes out.old ++ quoted_value text.now) }
{
    out.push_str("\"")?;
    push_quoted_chars(out, text)?;
    out.push_str("\"")
}

fn push_quoted_chars(out: &mut String, text: &str) -> Result<(), AllocError>
    ensures { OnOk result (string_bytes out.new ≡ string_bytes out.old ++ quoted_chars text.now) }
{
    for c in text.chars() {
        push_quoted_char(out, c)?;
    }
    Ok(())
}

fn push_quoted_char(out: &mut String, c: char) -> Result<(), AllocError>
    ensures { OnOk result (string_bytes out.new ≡ string_bytes out.old ++ quoted_char c) }
{
    match c {
        '"' => out.push_str("\\\""),
        '\\' => out.push_str("\\\\"),
        '\n' => out.push_str("\\n"),
        '\t' => out.push_str("\\t"),
        _ => out.push(c),
    }
}
