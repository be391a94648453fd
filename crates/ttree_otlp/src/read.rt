//! What the objects of OTLP/JSON have at their keys.

ghost use Rattle.std.specs.Prelude.{◌≡◌, IfOk, option_map, string_bytes};
ghost use Rattle.std.specs.List.{list_all};
ghost use Rattle.std.specs.Str.{all_ascii_digits};
ghost use Rattle.json.specs.Value.{items_view, value_view};
ghost use Rattle.ttree_otlp.specs.Read.{attribute_at, attribute_field, attribute_fields, attribute_text, attributes_in, count_at, id_at, id_of, is_digits, is_zero, named_event_field, number_at, number_digits, service_in, service_of, span_field, string_at, whole_of};

use crate::any::any_text;
use json::Value;
use std::alloc::{AllocError, Global};
use tracing_tree_base::field::{Field, Fields};
use tracing_tree_base::text::Text;
use ttree_source::calls::{message_field, shown};
use ttree_source::values::{array_at, text_at};

// Returns a number as written, which may be in a string.
fn word_of<'v>(value: &'v Value<'_>) -> Option<&'v str>
    ensures { option_map (λ w. w.now) result ≡ number_digits (value_view value.now) }
{
    match value {
        Value::Number(text) => Some(text),
        Value::String(text) => Some(text),
        _ => None,
    }
}

pub(crate) fn number_at(value: &Value<'_>, key: &str) -> Option<u64>
    ensures { result ≡ number_at key.now (value_view value.now) }
{
    whole_of(word_of(value.get(key)?)?)
}

// Returns the count at a key, or 0 if there isn't one.
pub(crate) fn count_at(value: &Value<'_>, key: &str) -> u64
    ensures { result ≡ count_at key.now (value_view value.now) }
{
    number_at(value, key).unwrap_or(0)
}

// Returns the number that digits write, if a u64 holds it.
fn whole_of(text: &str) -> Option<u64>
    ensures { result ≡ whole_of text.now }
{
    if !is_digits(text) {
        return None;
    }
    text.parse().ok()
}

// Returns whether a string has only digits, and at least one.
fn is_digits(text: &str) -> bool
    ensures { result ≡ is_digits text.now }
{
    !text.is_empty() && all_digits(text.as_bytes())
}

fn all_digits(bytes: &[u8]) -> bool
    ensures { result ≡ all_ascii_digits bytes.now }
{
    let mut rest = bytes;
    while let [byte, others @ ..] = rest {
        if !byte.is_ascii_digit() {
            return false;
        }
        rest = others;
    }
    true
}

// Returns the string at a key. It is empty if there isn't one.
pub(crate) fn string_at<'v>(value: &'v Value<'_>, key: &str) -> &'v str
    ensures { result.now ≡ string_at key.now (value_view value.now) }
{
    match text_at(value, key) {
        Some(text) => text,
        None => "",
    }
}

// Returns the id at a key. It is empty if there isn't one.
pub(crate) fn id_at(alloc: Global, value: &Value<'_>, key: &str) -> Result<Text, AllocError>
    ensures { IfOk result (λ id. id ≡ id_at key.now (value_view value.now)) }
{
    id_of(alloc, string_at(value, key))
}

fn id_of(alloc: Global, text: &str) -> Result<Text, AllocError>
    ensures { IfOk result (λ id. id ≡ id_of text.now) }
{
    if are_zeros(text.as_bytes()) {
        return Text::from_str(alloc, "");
    }
    Ok(Text::from(text.to_ascii_lowercase(alloc)?))
}

fn are_zeros(bytes: &[u8]) -> bool
    ensures { result ≡ list_all is_zero bytes.now }
{
    bytes.iter().all(|byte| *byte == b'0')
}

// Returns an attribute's value.
fn attribute_text(alloc: Global, attribute: &Value<'_>) -> Result<String, AllocError>
    ensures { IfOk result (λ text. string_bytes text ≡ attribute_text (value_view attribute.now)) }
{
    match attribute.get("value") {
        Some(value) => any_text(alloc, value),
        None => String::from_str(alloc, "null"),
    }
}

// Returns a field of a span.
fn span_field(alloc: Global, name: &str, text: &str) -> Result<Field, AllocError>
    ensures { IfOk result (λ field. field ≡ span_field name.now text.now) }
{
    Ok(Field {
        name: shown(alloc, name)?,
        value: shown(alloc, text)?,
    })
}

// Returns a field of an event. One called `message` would be drawn without its name, so its value
// begins with it.
pub(crate) fn field_of(alloc: Global, name: &str, text: &str) -> Result<Field, AllocError>
    ensures { IfOk result (λ field. field ≡ named_event_field name.now text.now) }
{
    if name == "message" {
        let mut named = String::from_str(alloc, "message=")?;
        named.push_str(text)?;
        return message_field(alloc, named.as_str());
    }
    span_field(alloc, name, text)
}

fn attribute_field(
    alloc: Global,
    is_event: bool,
    attribute: &Value<'_>,
) -> Result<Field, AllocError>
    ensures { IfOk result (λ field. field ≡ attribute_field is_event (value_view attribute.now)) }
{
    let text = attribute_text(alloc, attribute)?;
    let key = string_at(attribute, "key");
    if is_event {
        field_of(alloc, key, text.as_str())
    } else {
        span_field(alloc, key, text.as_str())
    }
}

// Returns the attributes of an object as fields of an event, or of a span.
pub(crate) fn attributes_in(
    alloc: Global,
    is_event: bool,
    value: &Value<'_>,
) -> Result<Fields, AllocError>
    ensures { IfOk result (λ fields. fields ≡ attributes_in is_event (value_view value.now)) }
{
    match array_at(value, "attributes") {
        Some(attributes) => attribute_fields(alloc, is_event, attributes),
        None => Ok(Fields::new(alloc)),
    }
}

fn attribute_fields(
    alloc: Global,
    is_event: bool,
    attributes: &Vec<Value<'_>>,
) -> Result<Fields, AllocError>
    ensures { IfOk result (λ fields. fields
        ≡ attribute_fields is_event (items_view attributes.now.items)) }
{
    let mut fields = Vec::with_capacity(alloc, attributes.len())?;
    for attribute in attributes {
        fields.push(attribute_field(alloc, is_event, attribute)?)?;
    }
    Ok(Fields::from(fields))
}

// Returns the value of the first of these attributes with this key. It is empty if there isn't one.
fn attribute_at(alloc: Global, key: &str, attributes: &Vec<Value<'_>>) -> Result<String, AllocError>
    ensures { IfOk result (λ text. string_bytes text
        ≡ attribute_at key.now (items_view attributes.now.items)) }
{
    for attribute in attributes {
        if string_at(attribute, "key") == key {
            return attribute_text(alloc, attribute);
        }
    }
    Ok(String::new(alloc))
}

// Returns the name of the service with this resource. It is empty if there isn't one.
fn service_of(alloc: Global, resource: &Value<'_>) -> Result<Text, AllocError>
    ensures { IfOk result (λ service. service ≡ service_of (value_view resource.now)) }
{
    match array_at(resource, "attributes") {
        Some(attributes) => Ok(Text::from(attribute_at(alloc, "service.name", attributes)?)),
        None => Text::from_str(alloc, ""),
    }
}

// Returns the service whose resource an object has.
pub(crate) fn service_in(alloc: Global, value: &Value<'_>) -> Result<Text, AllocError>
    ensures { IfOk result (λ service. service ≡ service_in (value_view value.now)) }
{
    match value.get("resource") {
        Some(resource) => service_of(alloc, resource),
        None => Text::from_str(alloc, ""),
    }
}
