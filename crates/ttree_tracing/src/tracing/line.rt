//! Reads one line of tracing-subscriber's JSON format.

ghost use Rattle.std.specs.Prelude.{◌≡◌, ◌-◌, IfOk, length, option_map, slice_get};
ghost use Rattle.ttree_tracing.specs.declared.tracing.line.Kind.{Kind};
ghost use Rattle.json.specs.Value.{items_view, value_view};
ghost use Rattle.ttree_tracing.specs.TracingLine.{bare_thread, fields_within, is_current, is_last, is_message_with, is_timed_close, items_listed, line_kind, kind_by_message, kind_of_message, label_in, line_fields, lists_same, listed_of, may_be, names_span, object_at, other_parent, parent_in, path_in, listed_span, spans_in, thread_in, thread_label};

use json::Value;
use std::alloc::{AllocError, Global};
use tracing_tree_base::field::{Field, Fields};
use tracing_tree_base::text::Text;
use ttree_source::calls::shown;
use ttree_source::fields::{event_fields, fields_besides};
use ttree_source::marks::after_mark;
use ttree_source::values::{array_at, is_object, text_at};

// The keys of a line that aren't fields of its event.
const LINE_KEYS: [&str; 9] = [
    "timestamp",
    "level",
    "target",
    "filename",
    "line_number",
    "span",
    "spans",
    "threadId",
    "threadName",
];

// A span as a line lists it.
#[derive(Drop)]
pub(super) struct Listed {
    pub(super) name: Text,
    pub(super) fields: Fields,
}

// What a line reports.
#[derive(Clone, Copy)]
pub(super) enum Kind {
    Event,
    New,
    Enter,
    Exit,
    Close,
}

// Returns the thread of a line. It is empty if the line doesn't have one.
pub(super) fn thread_in<'v>(value: &'v Value<'_>) -> &'v str
    ensures { result.now ≡ thread_in (value_view value.now) }
{
    match text_at(value, "threadId") {
        Some(thread) => thread,
        None => match text_at(value, "threadName") {
            Some(thread) => thread,
            None => "",
        },
    }
}

// Returns how the thread of a line is shown.
pub(super) fn label_in(alloc: Global, value: &Value<'_>) -> Result<Option<Text>, AllocError>
    ensures { IfOk result (λ label. label ≡ label_in (value_view value.now)) }
{
    thread_label(
        alloc,
        text_at(value, "threadId"),
        text_at(value, "threadName"),
    )
}

// Returns how a thread is shown: its number and its name, if they are known.
fn thread_label(
    alloc: Global,
    number: Option<&str>,
    name: Option<&str>,
) -> Result<Option<Text>, AllocError>
    ensures { IfOk result (λ label. label ≡ thread_label (option_map (λ n. n.now) number.entry)
        (option_map (λ n. n.now) name.entry)) }
{
    match (number, name) {
        (Some(number), Some(name)) => {
            let mut text = String::from_str(alloc, bare_thread(number))?;
            text.push_str(":")?;
            text.push_str(name)?;
            Ok(Some(shown(alloc, text.as_str())?))
        }
        (Some(number), None) => Ok(Some(shown(alloc, bare_thread(number))?)),
        (None, Some(name)) => Ok(Some(shown(alloc, name)?)),
        (None, None) => Ok(None),
    }
}

// Returns a thread's number, without the `ThreadId(..)` that Rust writes.
fn bare_thread(text: &str) -> &str
    ensures { result.now ≡ bare_thread text.now }
{
    let Some(rest) = after_mark(text, "ThreadId(") else {
        return text;
    };
    match rest.strip_suffix(")") {
        Some(number) => number,
        None => text,
    }
}

// Returns the fields of a line's event.
pub(super) fn line_fields(alloc: Global, value: &Value<'_>) -> Result<Fields, AllocError>
    ensures { IfOk result (λ fields. fields ≡ line_fields (value_view value.now)) }
{
    match object_at(value, "fields") {
        Some(fields) => event_fields(alloc, fields),
        None => fields_besides(alloc, &LINE_KEYS, value),
    }
}

// Returns the current span of a line.
pub(super) fn span_in(alloc: Global, value: &Value<'_>) -> Result<Option<Listed>, AllocError>
    ensures { IfOk result (λ span. span ≡ listed_span (value_view value.now)) }
{
    match object_at(value, "span") {
        Some(span) => Ok(Some(listed_of(alloc, span)?)),
        None => Ok(None),
    }
}

// Returns the spans that a line lists, the root first.
fn spans_in(alloc: Global, value: &Value<'_>) -> Result<Option<Vec<Listed>>, AllocError>
    ensures { IfOk result (λ spans. option_map (λ s. s.items) spans
        ≡ spans_in (value_view value.now)) }
{
    match array_at(value, "spans") {
        Some(items) => Ok(Some(items_listed(alloc, items)?)),
        None => Ok(None),
    }
}

fn items_listed(alloc: Global, items: &Vec<Value<'_>>) -> Result<Vec<Listed>, AllocError>
    ensures { IfOk result (λ spans. spans.items ≡ items_listed (items_view items.now.items)) }
{
    let mut spans = Vec::new(alloc);
    for item in items {
        spans.push(listed_of(alloc, item)?)?;
    }
    Ok(spans)
}

fn listed_of(alloc: Global, value: &Value<'_>) -> Result<Listed, AllocError>
    ensures { IfOk result (λ span. span ≡ listed_of (value_view value.now)) }
{
    let name = match text_at(value, "name") {
        Some(name) => Text::from_str(alloc, name)?,
        None => Text::from_str(alloc, "")?,
    };
    Ok(Listed {
        name,
        fields: fields_besides(alloc, &["name"], value)?,
    })
}

// Returns the path of spans of a line, the root first.
pub(super) fn path_in(
    alloc: Global,
    kind: Kind,
    value: &Value<'_>,
) -> Result<Vec<Listed>, AllocError>
    ensures { IfOk result (λ path. path.items ≡ path_in kind (value_view value.now)) }
{
    if let Some(spans) = spans_in(alloc, value)? {
        return Ok(spans);
    }
    let mut path = Vec::new(alloc);
    if let Kind::Event | Kind::Enter = kind {
        if let Some(span) = span_in(alloc, value)? {
            path.push(span)?;
        }
    }
    Ok(path)
}

// Returns the span that an event names as its parent: the current span, if it isn't the last that
// is listed. `path` has the spans of the line.
pub(super) fn parent_in(
    alloc: Global,
    kind: Kind,
    value: &Value<'_>,
    path: &[Listed],
) -> Result<Option<Listed>, AllocError>
    requires { path.now ≡ path_in kind (value_view value.now) }
    ensures { IfOk result (λ parent. parent ≡ parent_in kind (value_view value.now)) }
{
    match kind {
        Kind::Event => other_parent(alloc, value, path),
        Kind::New | Kind::Enter | Kind::Exit | Kind::Close => Ok(None),
    }
}

fn other_parent(
    alloc: Global,
    value: &Value<'_>,
    path: &[Listed],
) -> Result<Option<Listed>, AllocError>
    requires { path.now ≡ path_in Kind.Event (value_view value.now) }
    ensures { IfOk result (λ parent. parent ≡ other_parent (value_view value.now)) }
{
    if array_at(value, "spans").is_none() {
        return Ok(None);
    }
    match span_in(alloc, value)? {
        Some(span) if !is_last(path, &span) => Ok(Some(span)),
        Some(_) | None => Ok(None),
    }
}

// Returns what a line reports, given its event's fields.
#[tactic(auto, using(crate::proofs::LoneMessages::event_anyway))]
pub(super) fn kind_in(
    alloc: Global,
    fields: &[Field],
    value: &Value<'_>,
) -> Result<Kind, AllocError>
    ensures { IfOk result (λ kind. kind ≡ line_kind fields.now (value_view value.now)) }
{
    if !names_span(value) {
        return Ok(Kind::Event);
    }
    if is_timed_close(fields) {
        return Ok(Kind::Close);
    }
    if let Kind::Event = kind_of(fields, false) {
        // Most lines are events whatever their current span is, which takes time to read.
        return Ok(Kind::Event);
    }
    let is_current = is_current(alloc, value)?;
    Ok(kind_of(fields, is_current))
}

fn names_span(value: &Value<'_>) -> bool
    ensures { result ≡ names_span (value_view value.now) }
{
    object_at(value, "span").is_some() || array_at(value, "spans").is_some()
}

// Returns whether the current span is the last of those that are listed.
fn is_current(alloc: Global, value: &Value<'_>) -> Result<bool, AllocError>
    ensures { IfOk result (λ current. current ≡ is_current (value_view value.now)) }
{
    let Some(span) = span_in(alloc, value)? else {
        return Ok(false);
    };
    let Some(spans) = spans_in(alloc, value)? else {
        return Ok(false);
    };
    Ok(is_last(spans.as_slice(), &span))
}

// Returns whether a span is the last of these.
fn is_last(spans: &[Listed], span: &Listed) -> bool
    ensures { result ≡ is_last (slice_get spans.now (length spans.now - 1)) span.now }
{
    match spans.last() {
        Some(last) => lists_same(last, span),
        None => false,
    }
}

// Returns whether two entries are equal: the same name and the same fields in the same order.
fn lists_same(one: &Listed, other: &Listed) -> bool
    ensures { result ≡ lists_same one.now other.now }
{
    one.name == other.name && one.fields == other.fields
}

// Returns whether an entry may be the span that was first listed as `first`: the name is the same,
// and no field is missing.
pub(super) fn may_be(entry: &Listed, first: &Listed) -> bool
    ensures { result ≡ may_be entry.now first.now }
{
    entry.name == first.name && fields_within(first.fields.as_slice(), entry.fields.as_slice())
}

// Returns whether each of the first fields is among the second.
fn fields_within(first: &[Field], fields: &[Field]) -> bool
    ensures { result ≡ fields_within first.now fields.now }
{
    let mut rest = first;
    while let [field, others @ ..] = rest {
        if !fields.contains(field) {
            return false;
        }
        rest = others;
    }
    true
}

// Returns whether these are the fields that report a span's close.
fn is_timed_close(fields: &[Field]) -> bool
    ensures { result ≡ is_timed_close fields.now }
{
    match fields {
        [message, busy, idle] => {
            is_message(message, "close")
                && busy.name.as_str() == "time.busy"
                && idle.name.as_str() == "time.idle"
        }
        _ => false,
    }
}

// Returns whether a field is a message with this value.
fn is_message(field: &Field, text: &str) -> bool
    ensures { result ≡ is_message_with field.now text.now }
{
    field.name.as_str() == "message" && field.value.as_str() == text
}

// Returns what a line reports that names a span and has no times.
fn kind_of(fields: &[Field], is_current: bool) -> Kind
    ensures { result ≡ kind_by_message fields.now is_current }
{
    match fields {
        [message] => kind_of_message(message, is_current),
        _ => Kind::Event,
    }
}

fn kind_of_message(message: &Field, is_current: bool) -> Kind
    ensures { result ≡ kind_of_message message.now is_current }
{
    if is_message(message, "enter") {
        Kind::Enter
    } else if is_current {
        Kind::Event
    } else if is_message(message, "new") {
        Kind::New
    } else if is_message(message, "exit") {
        Kind::Exit
    } else if is_message(message, "close") {
        Kind::Close
    } else {
        Kind::Event
    }
}

// Returns the object at this key.
fn object_at<'v, 'a>(value: &'v Value<'a>, key: &str) -> Option<&'v Value<'a>>
    ensures { option_map (λ v. value_view v.now) result ≡ object_at key.now (value_view value.now) }
{
    let value = value.get(key)?;
    if is_object(value) { Some(value) } else { None }
}
