//! Appends the fields of spans and events to a row.

ghost use Rattle.std.specs.Prelude.{◌≡◌, ◌++◌, OnOk, OnErr, string_bytes};
ghost use Rattle.tracing_tree_base.specs.Field.{rendered_field};
ghost use Rattle.tracing_tree_drawing.specs.Format.Texts.{comma_after, event_field, named_value, shown_field};

use std::alloc::AllocError;
use tracing_tree_base::field::Field;

/// Appends a field of an event after a space, or after a comma and a space if `comma` is on. Turns
/// `comma` on for the next field. A field named `message` is appended as its value only. A field
/// whose name starts with `log.` is skipped, and changes nothing.
///
/// # Errors
///
/// `AllocError` if an allocation fails. `out` and `comma` are unchanged then.
pub fn push_event_field(out: &mut String, comma: &mut bool, field: &Field) -> Result<(), AllocError>
    ensures text { OnOk result (string_bytes out.new
        ≡ string_bytes out.old ++ event_field comma.old field.now) }
    ensures comma { OnOk result (comma.new ≡ comma_after comma.old field.now) }
    ensures err { OnErr result (string_bytes out.new ≡ string_bytes out.old) }
    ensures kept { OnErr result (comma.new ≡ comma.old) }
{
    push_event_texts(out, comma, field.name.as_str(), field.value.as_str())
}

/// Appends a field like [`push_event_field`], from a borrowed name and value.
///
/// # Errors
///
/// `AllocError` if an allocation fails. `out` and `comma` are unchanged then.
pub fn push_event_texts(
    out: &mut String,
    comma: &mut bool,
    name: &str,
    value: &str,
) -> Result<(), AllocError>
    ensures text { OnOk result (string_bytes out.new ≡ string_bytes out.old
        ++ event_field comma.old (rendered_field name.now value.now)) }
    ensures comma { OnOk result
        (comma.new ≡ comma_after comma.old (rendered_field name.now value.now)) }
    ensures err { OnErr result (string_bytes out.new ≡ string_bytes out.old) }
    ensures kept { OnErr result (comma.new ≡ comma.old) }
{
    if name.starts_with("log.") {
        return Ok(());
    }
    out.reserve(name.len().saturating_add(value.len()).saturating_add(3))?;
    out.push_str(if *comma { ", " } else { " " })?;
    *comma = true;
    if name != "message" {
        out.push_str(name)?;
        out.push_str("=")?;
    }
    out.push_str(value)
}

/// Appends a field as `name=value`. A field named `message` is appended as its value only.
///
/// # Errors
///
/// `AllocError` if an allocation fails. `out` is unchanged then.
pub fn push_shown(out: &mut String, field: &Field) -> Result<(), AllocError>
    ensures ok { OnOk result (string_bytes out.new
        ≡ string_bytes out.old ++ shown_field field.now) }
    ensures err { OnErr result (string_bytes out.new ≡ string_bytes out.old) }
{
    if field.name.as_str() == "message" {
        return out.push_str(field.value.as_str());
    }
    push_named(out, field)
}

/// Appends a field as `name=value`.
///
/// # Errors
///
/// `AllocError` if an allocation fails. `out` is unchanged then.
#[inline(always)]
pub fn push_named(out: &mut String, field: &Field) -> Result<(), AllocError>
    ensures ok { OnOk result (string_bytes out.new
        ≡ string_bytes out.old ++ named_value field.now) }
    ensures err { OnErr result (string_bytes out.new ≡ string_bytes out.old) }
{
    let name = field.name.as_str();
    let value = field.value.as_str();
    out.reserve(name.len().saturating_add(value.len()).saturating_add(1))?;
    out.push_str(name)?;
    out.push_str("=")?;
    out.push_str(value)
}
