//! The lines of steps.
//!
//! After an error, each of these may have appended a prefix of its line.

ghost use Rattle.std.specs.Prelude.{◌≡◌, ◌++◌, OnOk, string_bytes, flat_map, codes, decimal};
ghost use Rattle.ttree_page.specs.Lines.{after_comma, field_parts, in_quotes, keyed_part, stamp_parts, start_text, step_end, step_line};
ghost use Rattle.ttree_page.specs.Steps.{About, End, close_step, event_step, new_step, record_step, span_number, stamp_of};
ghost use Rattle.tracing_tree_base.specs.Extended.{IsExtended};

use crate::form::{Kind, LineForm, line_end, start_text};
use crate::part::{push_fields, push_level, push_number, push_stamp, push_string};
use std::alloc::AllocError;
use tracing_tree_base::field::Field;
use tracing_tree_base::{Context, Id};
use tracing_tree_spans::registry::{Attributes, Event};

// Appends the first line, with the title.
pub(crate) fn push_about(out: &mut String, form: LineForm, title: &str) -> Result<(), AllocError>
    ensures ok { OnOk result
        (string_bytes out.new ≡ string_bytes out.old ++ step_line form (About title.now)) }
    ensures extended { IsExtended (string_bytes out.old) (string_bytes out.new) }
{
    out.push_str(start_text(form, Kind::About))?;
    push_string(out, form, "title", title)?;
    out.push_str(line_end(form))
}

// Appends the last line.
pub(crate) fn push_finish(out: &mut String, form: LineForm) -> Result<(), AllocError>
    ensures ok { OnOk result (string_bytes out.new ≡ string_bytes out.old ++ step_line form End) }
    ensures extended { IsExtended (string_bytes out.old) (string_bytes out.new) }
{
    out.push_str(start_text(form, Kind::End))?;
    out.push_str(line_end(form))
}

// Appends the line of a new span.
pub(crate) fn push_new(
    out: &mut String,
    form: LineForm,
    context: &Context,
    id: Id,
    attributes: &Attributes,
) -> Result<(), AllocError>
    ensures ok { let step = new_step context.now id attributes.now in
        OnOk result (string_bytes out.new ≡ string_bytes out.old ++ step_line form step) }
    ensures extended { IsExtended (string_bytes out.old) (string_bytes out.new) }
{
    let parent = attributes.parent.named(context.current);
    push_start(out, form, Kind::New, context)?;
    push_ids(out, form, id, parent)?;
    push_names(
        out,
        form,
        attributes.name.as_str(),
        attributes.target.as_str(),
    )?;
    push_end(out, form, attributes.fields.as_slice())
}

// Appends the line of fields that are recorded later.
pub(crate) fn push_record(
    out: &mut String,
    form: LineForm,
    id: Id,
    fields: &[Field],
) -> Result<(), AllocError>
    ensures ok { let step = record_step id fields.now in
        OnOk result (string_bytes out.new ≡ string_bytes out.old ++ step_line form step) }
    ensures extended { IsExtended (string_bytes out.old) (string_bytes out.new) }
{
    out.push_str(start_text(form, Kind::Record))?;
    push_number(out, form, "id", id.0)?;
    push_end(out, form, fields)
}

// Appends the line of an event with this parent and this current span.
pub(crate) fn push_event(
    out: &mut String,
    form: LineForm,
    context: &Context,
    parent: Option<Id>,
    current: Option<Id>,
    event: &Event,
) -> Result<(), AllocError>
    ensures ok { let step = event_step context.now parent current event.now in
        OnOk result (string_bytes out.new ≡ string_bytes out.old ++ step_line form step) }
    ensures extended { IsExtended (string_bytes out.old) (string_bytes out.new) }
{
    push_start(out, form, Kind::Event, context)?;
    push_place(out, form, parent, current)?;
    push_level(out, form, event.level)?;
    push_string(out, form, "target", event.target.as_str())?;
    push_end(out, form, event.fields.as_slice())
}

// Appends the line of a span that closes.
pub(crate) fn push_close(
    out: &mut String,
    form: LineForm,
    context: &Context,
    id: Id,
) -> Result<(), AllocError>
    ensures ok { let step = close_step context.now id in
        OnOk result (string_bytes out.new ≡ string_bytes out.old ++ step_line form step) }
    ensures extended { IsExtended (string_bytes out.old) (string_bytes out.new) }
{
    push_start(out, form, Kind::Close, context)?;
    push_number(out, form, "id", id.0)?;
    out.push_str(line_end(form))
}

// Appends the start of a line, and the moment and the thread of its call.
fn push_start(
    out: &mut String,
    form: LineForm,
    kind: Kind,
    context: &Context,
) -> Result<(), AllocError>
    ensures ok { let stamp = flat_map after_comma (stamp_parts form (stamp_of context.now)) in
        OnOk result (string_bytes out.new ≡ string_bytes out.old ++ (start_text form kind ++
        stamp)) }
    ensures extended { IsExtended (string_bytes out.old) (string_bytes out.new) }
{
    out.push_str(start_text(form, kind))?;
    push_stamp(out, form, context)
}

// Appends the id of a span and that of its parent.
fn push_ids(out: &mut String, form: LineForm, id: Id, parent: Option<Id>) -> Result<(), AllocError>
    ensures ok { let first = after_comma (keyed_part form (codes "id") (decimal id.0)) in
        let second = after_comma
        (keyed_part form (codes "parent") (decimal (span_number parent))) in
        OnOk result (string_bytes out.new ≡ string_bytes out.old ++ (first ++ second)) }
    ensures extended { IsExtended (string_bytes out.old) (string_bytes out.new) }
{
    push_number(out, form, "id", id.0)?;
    push_number(out, form, "parent", number_of(parent))
}

// Appends the name and the target of a span.
fn push_names(out: &mut String, form: LineForm, name: &str, target: &str) -> Result<(), AllocError>
    ensures ok { let first = after_comma (keyed_part form (codes "name") (in_quotes name.now)) in
        let second = after_comma (keyed_part form (codes "target") (in_quotes target.now)) in
        OnOk result (string_bytes out.new ≡ string_bytes out.old ++ (first ++ second)) }
    ensures extended { IsExtended (string_bytes out.old) (string_bytes out.new) }
{
    push_string(out, form, "name", name)?;
    push_string(out, form, "target", target)
}

// Appends the parent of an event and the current span.
fn push_place(
    out: &mut String,
    form: LineForm,
    parent: Option<Id>,
    current: Option<Id>,
) -> Result<(), AllocError>
    ensures ok { let first = after_comma
        (keyed_part form (codes "parent") (decimal (span_number parent)))
        in
        let second = after_comma
        (keyed_part form (codes "current") (decimal (span_number current))) in
        OnOk result (string_bytes out.new ≡ string_bytes out.old ++ (first ++ second)) }
    ensures extended { IsExtended (string_bytes out.old) (string_bytes out.new) }
{
    push_number(out, form, "parent", number_of(parent))?;
    push_number(out, form, "current", number_of(current))
}

// Appends the fields, which are the last parts, and the end of the line.
fn push_end(out: &mut String, form: LineForm, fields: &[Field]) -> Result<(), AllocError>
    ensures ok { let parts = flat_map after_comma (field_parts form fields.now) in
        OnOk result (string_bytes out.new ≡ string_bytes out.old ++ (parts ++ step_end form)) }
    ensures extended { IsExtended (string_bytes out.old) (string_bytes out.new) }
{
    push_fields(out, form, fields)?;
    out.push_str(line_end(form))
}

// Returns the number of a span that may be missing.
fn number_of(id: Option<Id>) -> u64
    ensures { result ≡ span_number id }
{
    match id {
        Some(id) => id.0,
        None => 0,
    }
}
