//! Long values of fields, cut.

ghost use Rattle.std.specs.Prelude.{◌≡◌, IfOk, bytes_eq, codes, map};
ghost use Rattle.std.specs.List.{list_any};
ghost use Rattle.ttree_adapters.specs.Short.{call_fields, has_long, is_cut_field, is_over, is_structure, short_call, short_field, short_text};

use crate::mapping::Mapping;
use json::Value;
use std::alloc::{AllocError, Global};
use tracing_tree_base::field::{Field, Fields};
use tracing_tree_base::text::Text;
use tracing_tree_layer::call::Call;
use tracing_tree_spans::registry::{Attributes, Event, Record};
use ttree_columns::{is_wider, push_fitting};

// How many columns of an array or an object are shown, the last of them `…`.
const LIMIT: usize = 200;

/// Cuts arrays and objects in fields that take more than 200 columns on a terminal: their first
/// characters are shown, as many as take fewer, and `…`. The message of an event is never cut.
#[derive(Clone, Copy, Debug, Drop)]
pub struct ShortValues;

impl Mapping for ShortValues {
    ghost use Rattle.ttree_adapters.specs.Short.{makes_short};

    ghost makes = { makes_short };

    fn reads_values(&self) -> bool {
        false
    }

    #[tactic(auto, using(crate::proofs::LongValues::unchanged))]
    fn map(
        &mut self,
        alloc: Global,
        _value: Option<&Value<'_>>,
        calls: Vec<Call>,
    ) -> Result<Vec<Call>, AllocError> {
        if has_long(calls.as_slice()) {
            all_short(alloc, calls)
        } else {
            Ok(calls)
        }
    }
}

fn all_short(alloc: Global, calls: Vec<Call>) -> Result<Vec<Call>, AllocError>
    ensures { IfOk result (λ made. made.items ≡ map short_call calls.items) }
{
    let mut made = Vec::new(alloc);
    for call in calls {
        made.push(short_call(alloc, call)?)?;
    }
    Ok(made)
}

// Returns whether a field of these calls is cut.
fn has_long(calls: &[Call]) -> bool
    ensures { result ≡ list_any has_long calls.now }
{
    let mut rest = calls;
    while let [call, others @ ..] = rest {
        if has_long_field(fields_of(call)) {
            return true;
        }
        rest = others;
    }
    false
}

fn has_long_field(fields: &[Field]) -> bool
    ensures { result ≡ list_any is_cut_field fields.now }
{
    let mut rest = fields;
    while let [field, others @ ..] = rest {
        if is_long(field) {
            return true;
        }
        rest = others;
    }
    false
}

// Returns the fields of a call.
fn fields_of(call: &Call) -> &[Field]
    ensures { result.now ≡ call_fields call.now }
{
    match call {
        Call::New(attributes, _) => attributes.fields.as_slice(),
        Call::Event(event, _) => event.fields.as_slice(),
        Call::Record(_, record) => record.fields.as_slice(),
        Call::Clone(_) | Call::Close(_, _) => &[],
    }
}

// Returns whether a field is cut: an array or an object of more than 200 columns.
fn is_long(field: &Field) -> bool
    ensures { result ≡ is_cut_field field.now }
{
    let value = field.value.as_str();
    is_structure(value) && !is_message(field.name.as_str()) && is_over(value)
}

fn is_message(name: &str) -> bool
    ensures { result ≡ bytes_eq name.now (codes "message") }
{
    name == "message"
}

// Returns whether a value takes too many columns.
fn is_over(value: &str) -> bool
    ensures { result ≡ is_over value.now }
{
    is_wider(value, LIMIT)
}

// Returns whether a value may be an array or an object.
fn is_structure(value: &str) -> bool
    ensures { result ≡ is_structure value.now }
{
    match value.as_bytes() {
        [byte, ..] => *byte == b'[' || *byte == b'{',
        [] => false,
    }
}

fn short_call(alloc: Global, call: Call) -> Result<Call, AllocError>
    ensures { IfOk result (λ made. made ≡ short_call call) }
{
    match call {
        Call::New(attributes, context) => {
            let fields = short_fields(alloc, &attributes.fields)?;
            Ok(Call::New(
                Attributes {
                    fields,
                    ..attributes
                },
                context,
            ))
        }
        Call::Event(event, context) => {
            let fields = short_fields(alloc, &event.fields)?;
            Ok(Call::Event(Event { fields, ..event }, context))
        }
        Call::Record(id, record) => {
            let fields = short_fields(alloc, &record.fields)?;
            Ok(Call::Record(id, Record { fields }))
        }
        other => Ok(other),
    }
}

fn short_fields(alloc: Global, fields: &Fields) -> Result<Fields, AllocError>
    ensures { IfOk result (λ made. made ≡ map short_field fields.now) }
{
    let mut made = Vec::new(alloc);
    let mut rest = fields.as_slice();
    while let [field, others @ ..] = rest {
        made.push(short_field(alloc, field)?)?;
        rest = others;
    }
    Ok(Fields::from(made))
}

fn short_field(alloc: Global, field: &Field) -> Result<Field, AllocError>
    ensures { IfOk result (λ made. made ≡ short_field field.now) }
{
    if !is_long(field) {
        return field.clone();
    }
    Ok(Field {
        name: field.name.clone()?,
        value: short_text(alloc, field.value.as_str())?,
    })
}

// Returns the first characters of a value, and `…`.
fn short_text(alloc: Global, value: &str) -> Result<Text, AllocError>
    ensures { IfOk result (λ text. text ≡ short_text value.now) }
{
    let mut text = String::new(alloc);
    push_fitting(&mut text, value, LIMIT)?;
    text.push_str("…")?;
    Ok(Text::from(text))
}
