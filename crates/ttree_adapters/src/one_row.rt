//! Spans in one row each.

ghost use Rattle.std.specs.Prelude.{◌≡◌, ◌++◌, IfOk, OnOk, flat_map, map, string_bytes};
ghost use Rattle.std.specs.List.{list_any};
ghost use Rattle.std.specs.Str.{chars};
ghost use Rattle.ttree_adapters.specs.OneRow.{has_line_end, has_lines, is_lined, one_row_attributes, one_row_call, one_row_char, one_row_field, one_row_text, spans_lines};

use crate::mapping::Mapping;
use json::Value;
use std::alloc::{AllocError, Global};
use std::marker::Model;
use tracing_tree_base::field::{Field, Fields};
use tracing_tree_base::text::Text;
use tracing_tree_base::{Context, Id, Refusal};
use tracing_tree_layer::call::{Call, Reply};
use tracing_tree_layer::calls::Calls;
use tracing_tree_layer::parts::EventParts;
use tracing_tree_spans::registry::{Attributes, Record};

/// Shows a line end in the name or a field of a span as `\n`, so that one span is one row. An
/// event keeps its lines.
#[derive(Clone, Copy, Debug, Drop)]
pub struct OneRow;

impl Mapping for OneRow {
    ghost use Rattle.ttree_adapters.specs.OneRow.{makes_one_row};

    ghost makes = { makes_one_row };

    fn reads_values(&self) -> bool {
        false
    }

    #[tactic(auto, using(crate::proofs::LinedSpans::unchanged))]
    fn map(
        &mut self,
        alloc: Global,
        _value: Option<&Value<'_>>,
        calls: Vec<Call>,
    ) -> Result<Vec<Call>, AllocError> {
        if has_lines_in(calls.as_slice()) {
            all_in_one_row(alloc, calls)
        } else {
            Ok(calls)
        }
    }
}

/// A receiver whose spans take one row each, as the calls of [`OneRow`] do.
#[derive(Drop)]
pub struct OneRowCalls<C> {
    alloc: Global,
    receiver: C,
}

impl<C> Model for OneRowCalls<C> {
    ghost Value = { C };

    ghost view = { λ r. r.receiver };
}

impl<C> OneRowCalls<C> {
    /// Returns a receiver that passes its calls on to this one.
    pub fn new(alloc: Global, receiver: C) -> OneRowCalls<C>
        ensures { result ≡ receiver }
    {
        OneRowCalls { alloc, receiver }
    }

    /// Returns the receiver.
    pub fn into_receiver(self) -> C
        ensures { result ≡ self }
    {
        self.receiver
    }
}

/// Calls are passed on unchanged, except those whose span would take several rows. Such a call is
/// also refused if an allocation fails before it is passed on, and nothing has changed then.
impl<C: Calls> Calls for OneRowCalls<C> {
    ghost use Rattle.ttree_adapters.specs.OneRow.{one_row_answers};

    ghost answers = { one_row_answers C.answers };

    ghost flushes = { C.flushes };

    fn call(&mut self, call: Call) -> Result<Reply, Refusal> {
        let call = if has_lines(&call) {
            one_row_call(self.alloc, call)?
        } else {
            call
        };
        self.receiver.call(call)
    }

    fn new_span(&mut self, attributes: Attributes, context: &Context) -> Result<Id, Refusal> {
        let attributes = if spans_lines(&attributes) {
            one_row_attributes(self.alloc, attributes)?
        } else {
            attributes
        };
        self.receiver.new_span(attributes, context)
    }

    fn clone_span(&mut self, id: Id) -> Result<Id, Refusal> {
        self.receiver.clone_span(id)
    }

    fn record(&mut self, id: Id, values: Record) -> Result<(), Refusal> {
        let values = if is_lined_one(values.fields.as_slice()) {
            let fields = one_row_fields(self.alloc, &values.fields)?;
            Record { fields }
        } else {
            values
        };
        self.receiver.record(id, values)
    }

    fn event<E: EventParts>(&mut self, event: &E, context: &Context) -> Result<(), Refusal> {
        self.receiver.event(event, context)
    }

    fn close(&mut self, id: Id, context: &Context) -> Result<bool, Refusal> {
        self.receiver.close(id, context)
    }

    fn flush(&mut self) {
        self.receiver.flush();
    }
}

fn all_in_one_row(alloc: Global, calls: Vec<Call>) -> Result<Vec<Call>, AllocError>
    ensures { IfOk result (λ made. made.items ≡ map one_row_call calls.items) }
{
    let mut made = Vec::new(alloc);
    for call in calls {
        made.push(one_row_call(alloc, call)?)?;
    }
    Ok(made)
}

// Returns whether a span of these calls would take several rows.
fn has_lines_in(calls: &[Call]) -> bool
    ensures { result ≡ list_any has_lines calls.now }
{
    let mut rest = calls;
    while let [call, others @ ..] = rest {
        if has_lines(call) {
            return true;
        }
        rest = others;
    }
    false
}

fn has_lines(call: &Call) -> bool
    ensures { result ≡ has_lines call.now }
{
    match call {
        Call::New(attributes, _) => spans_lines(attributes),
        Call::Record(_, record) => is_lined_one(record.fields.as_slice()),
        Call::Event(_, _) | Call::Clone(_) | Call::Close(_, _) => false,
    }
}

// Returns whether a span with these attributes would take several rows.
fn spans_lines(attributes: &Attributes) -> bool
    ensures { result ≡ spans_lines attributes.now }
{
    has_line_end(attributes.name.as_str()) || is_lined_one(attributes.fields.as_slice())
}

fn is_lined_one(fields: &[Field]) -> bool
    ensures { result ≡ list_any is_lined fields.now }
{
    let mut rest = fields;
    while let [field, others @ ..] = rest {
        if is_lined(field) {
            return true;
        }
        rest = others;
    }
    false
}

fn is_lined(field: &Field) -> bool
    ensures { result ≡ is_lined field.now }
{
    has_line_end(field.name.as_str()) || has_line_end(field.value.as_str())
}

fn has_line_end(text: &str) -> bool
    ensures { result ≡ has_line_end text.now }
{
    let mut rest = text.as_bytes();
    while let [byte, others @ ..] = rest {
        if *byte == b'\n' {
            return true;
        }
        rest = others;
    }
    false
}

fn one_row_call(alloc: Global, call: Call) -> Result<Call, AllocError>
    ensures { IfOk result (λ made. made ≡ one_row_call call) }
{
    match call {
        Call::New(attributes, context) => {
            Ok(Call::New(one_row_attributes(alloc, attributes)?, context))
        }
        Call::Record(id, record) => {
            let fields = one_row_fields(alloc, &record.fields)?;
            Ok(Call::Record(id, Record { fields }))
        }
        other => Ok(other),
    }
}

fn one_row_attributes(alloc: Global, attributes: Attributes) -> Result<Attributes, AllocError>
    ensures { IfOk result (λ made. made ≡ one_row_attributes attributes) }
{
    let name = one_row_text(alloc, attributes.name.as_str())?;
    let fields = one_row_fields(alloc, &attributes.fields)?;
    Ok(Attributes {
        name,
        fields,
        ..attributes
    })
}

fn one_row_fields(alloc: Global, fields: &Fields) -> Result<Fields, AllocError>
    ensures { IfOk result (λ made. made ≡ map one_row_field fields.now) }
{
    let mut made = Vec::new(alloc);
    let mut rest = fields.as_slice();
    while let [field, others @ ..] = rest {
        made.push(one_row_field(alloc, field)?)?;
        rest = others;
    }
    Ok(Fields::from(made))
}

fn one_row_field(alloc: Global, field: &Field) -> Result<Field, AllocError>
    ensures { IfOk result (λ made. made ≡ one_row_field field.now) }
{
    Ok(Field {
        name: one_row_text(alloc, field.name.as_str())?,
        value: one_row_text(alloc, field.value.as_str())?,
    })
}

fn one_row_text(alloc: Global, text: &str) -> Result<Text, AllocError>
    ensures { IfOk result (λ made. made ≡ one_row_text text.now) }
{
    if !has_line_end(text) {
        return Text::from_str(alloc, text);
    }
    let mut out = String::new(alloc);
    push_all_one_row(&mut out, text)?;
    Ok(Text::from(out))
}

fn push_all_one_row(out: &mut String, text: &str) -> Result<(), AllocError>
    ensures { OnOk result (string_bytes out.new
        ≡ string_bytes out.old ++ flat_map one_row_char (chars text.now)) }
{
    for c in text.chars() {
        push_one_row(out, c)?;
    }
    Ok(())
}

fn push_one_row(out: &mut String, c: char) -> Result<(), AllocError>
    ensures { OnOk result (string_bytes out.new ≡ string_bytes out.old ++ one_row_char c) }
{
    if c == '\n' {
        out.push_str("\\n")
    } else {
        out.push(c)
    }
}
