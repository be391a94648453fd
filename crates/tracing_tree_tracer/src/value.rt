//! Values of fields.

ghost use Rattle.std.specs.Prelude.{◌≡◌, ◌++◌, ◌∷◌, IfOk, OnOk, map, string_bytes};
ghost use Rattle.tracing_tree_tracer.specs.Values.{escaped_char, escaped_code, escaped_text, field_of, fields_of, message_field, quoted_text};

use std::alloc::{AllocError, Global};
use tracing_tree_base::field::{Field, Fields};
use tracing_tree_base::text::Text;

/// The value of a field, passed with the field's name.
#[derive(Clone, Copy, Debug, PartialEq, Eq)]
pub enum Value<'a> {
    /// A string that is drawn in quotes and with escapes.
    Quoted(&'a str),

    /// A string that is drawn unchanged.
    Plain(&'a str),

    /// A whole number.
    Whole(i128),

    /// `true` or `false`.
    Truth(bool),
}

// Returns the field with this name.
fn field(alloc: Global, name: &str, value: Value<'_>) -> Result<Field, AllocError>
    ensures { IfOk result (λ field. field ≡ field_of name.now value.entry) }
{
    match value {
        Value::Quoted(text) => Ok(Field {
            name: Text::from_str(alloc, name)?,
            value: Text::from(quoted(alloc, text)?),
        }),
        Value::Plain(text) => Field::rendered(alloc, name, text),
        Value::Whole(number) => Field::whole(alloc, name, number),
        Value::Truth(truth) => Field::truth(alloc, name, truth),
    }
}

// Returns a string in quotes.
fn quoted(alloc: Global, text: &str) -> Result<String, AllocError>
    ensures { IfOk result (λ made. string_bytes made ≡ quoted_text text.now) }
{
    let mut out = String::new(alloc);
    out.push_str("\"")?;
    push_escaped_text(&mut out, text)?;
    out.push_str("\"")?;
    Ok(out)
}

fn push_escaped_text(out: &mut String, text: &str) -> Result<(), AllocError>
    ensures { OnOk result (string_bytes out.new ≡ string_bytes out.old ++ escaped_text text.now) }
{
    for c in text.chars() {
        push_escaped(out, c)?;
    }
    Ok(())
}

// Appends a character of a quoted string. Quotes, backslashes, `\t`, `\n`, `\r` and `\0` have their
// short escapes. Other control characters are shown by their code.
fn push_escaped(out: &mut String, c: char) -> Result<(), AllocError>
    ensures { OnOk result (string_bytes out.new ≡ string_bytes out.old ++ escaped_char c) }
{
    match c {
        '"' => out.push_str("\\\""),
        '\\' => out.push_str("\\\\"),
        '\t' => out.push_str("\\t"),
        '\n' => out.push_str("\\n"),
        '\r' => out.push_str("\\r"),
        '\0' => out.push_str("\\0"),
        '\u{1}'..='\u{1f}' | '\u{7f}'..='\u{9f}' => push_code(out, u32::from(c)),
        _ => out.push(c),
    }
}

// Appends the escape of a character: its code in lowercase hexadecimal digits.
fn push_code(out: &mut String, code: u32) -> Result<(), AllocError>
    ensures { OnOk result (string_bytes out.new ≡ string_bytes out.old ++ escaped_code code) }
{
    out.push_str("\\u{")?;
    write!(out, "{code:x}")?;
    out.push_str("}")
}

// Appends the fields to a list.
fn push_fields(list: &mut Vec<Field>, fields: &[(&str, Value<'_>)]) -> Result<(), AllocError>
    ensures { OnOk result (list.new.items ≡ list.old.items ++ fields_of fields.now) }
{
    let alloc = *list.allocator();
    for (name, value) in fields {
        list.push(field(alloc, name, *value)?)?;
    }
    Ok(())
}

// Returns the fields of a span.
pub(crate) fn span_fields(alloc: Global, fields: &[(&str, Value<'_>)]) -> Result<Fields, AllocError>
    ensures { IfOk result (λ made. made ≡ fields_of fields.now) }
{
    let mut list = Vec::with_capacity(alloc, fields.len())?;
    push_fields(&mut list, fields)?;
    Ok(Fields::from(list))
}

// Returns the fields of an event, its message first.
pub(crate) fn event_fields(
    alloc: Global,
    message: &str,
    fields: &[(&str, Value<'_>)],
) -> Result<Fields, AllocError>
    ensures { IfOk result (λ made. made ≡ message_field message.now ∷ fields_of fields.now) }
{
    let mut list = Vec::new(alloc);
    list.push(Field::rendered(alloc, "message", message)?)?;
    push_fields(&mut list, fields)?;
    Ok(Fields::from(list))
}
