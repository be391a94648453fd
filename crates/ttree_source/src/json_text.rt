//! JSON values in the form that fields have.

ghost use Rattle.std.specs.Prelude.{◌≡◌, ◌++◌, true, IfOk, OnOk, codes, string_bytes};
ghost use Rattle.json.specs.Value.{items_view, members_view, value_view};
ghost use Rattle.ttree_source.specs.JsonText.{items_text, json_quoted, json_text, members_text, quoted_char, quoted_chars, separator};

use json::Value;
use std::alloc::{AllocError, Global};

/// Returns a value as compact JSON.
///
/// # Errors
///
/// `AllocError` if an allocation fails.
pub fn json_text(alloc: Global, value: &Value<'_>) -> Result<String, AllocError>
    ensures { IfOk result (λ text. string_bytes text ≡ json_text (value_view value.now)) }
{
    let mut out = String::new(alloc);
    push_json(&mut out, value)?;
    Ok(out)
}

#[cycle(json)]
fn push_json(out: &mut String, value: &Value<'_>) -> Result<(), AllocError>
    ensures { OnOk result
        (string_bytes out.new ≡ string_bytes out.old ++ json_text (value_view value.now)) }
{
    match value {
        Value::Null => out.push_str("null"),
        Value::Bool(true) => out.push_str("true"),
        Value::Bool(false) => out.push_str("false"),
        Value::Number(text) => out.push_str(text),
        Value::String(text) => push_quoted(out, text),
        Value::Array(items) => {
            out.push_str("[")?;
            push_items(out, items)?;
            out.push_str("]")
        }
        Value::Object(members) => {
            out.push_str("{")?;
            push_members(out, members)?;
            out.push_str("}")
        }
    }
}

#[cycle(json)]
fn push_items(out: &mut String, items: &Vec<Value<'_>>) -> Result<(), AllocError>
    ensures { OnOk result (string_bytes out.new
        ≡ string_bytes out.old ++ items_text true (items_view items.now.items)) }
{
    let mut is_first = true;
    for item in items {
        push_separator(out, is_first)?;
        push_json(out, item)?;
        is_first = false;
    }
    Ok(())
}

#[cycle(json)]
fn push_members(out: &mut String, members: &Vec<(&str, Value<'_>)>) -> Result<(), AllocError>
    ensures { OnOk result (string_bytes out.new
        ≡ string_bytes out.old ++ members_text true (members_view members.now.items)) }
{
    let mut is_first = true;
    for member in members {
        push_key(out, is_first, member.0)?;
        push_json(out, &member.1)?;
        is_first = false;
    }
    Ok(())
}

// Appends a comma, except before the first item.
fn push_separator(out: &mut String, is_first: bool) -> Result<(), AllocError>
    ensures { OnOk result (string_bytes out.new ≡ string_bytes out.old ++ separator is_first) }
{
    if is_first { Ok(()) } else { out.push_str(",") }
}

fn push_key(out: &mut String, is_first: bool, key: &str) -> Result<(), AllocError>
    ensures { OnOk result (string_bytes out.new
        ≡ string_bytes out.old ++ separator is_first ++ json_quoted key.now ++ codes ":") }
{
    push_separator(out, is_first)?;
    push_quoted(out, key)?;
    out.push_str(":")
}

fn push_quoted(out: &mut String, text: &str) -> Result<(), AllocError>
    ensures { OnOk result (string_bytes out.new ≡ string_bytes out.old ++ json_quoted text.now) }
{
    out.push_str("\"")?;
    push_quoted_chars(out, text)?;
    out.push_str("\"")
}

fn push_quoted_chars(out: &mut String, text: &str) -> Result<(), AllocError>
    ensures { OnOk result (string_bytes out.new ≡ string_bytes out.old ++ quoted_chars text.now) }
{
    for c in text.chars() {
        push_quoted_char(out, c)?;
    }
    Ok(())
}

fn push_quoted_char(out: &mut String, c: char) -> Result<(), AllocError>
    ensures { OnOk result (string_bytes out.new ≡ string_bytes out.old ++ quoted_char c) }
{
    match c {
        '"' => out.push_str("\\\""),
        '\\' => out.push_str("\\\\"),
        '\n' => out.push_str("\\n"),
        '\t' => out.push_str("\\t"),
        _ => out.push(c),
    }
}
