//! The calls of a source. Each names its parent as its current span.

ghost use Rattle.std.specs.Prelude.{◌≡◌, ◌++◌, IfOk, OnOk, [], ◌∷◌, map, string_bytes};
ghost use Rattle.std.specs.List.{list_any};
ghost use Rattle.std.specs.Str.{chars};
ghost use Rattle.ttree_source.specs.Calls.{all_on_thread, close_call, context_at, event_call, is_escaped, is_unprintable, message_field, on_thread, record_call, shown_char, shown_text, span_call};

use std::alloc::{AllocError, Global};
use tracing_tree_base::field::{Field, Fields};
use tracing_tree_base::style::Level;
use tracing_tree_base::text::Text;
use tracing_tree_base::{Context, Id};
use tracing_tree_layer::call::Call;
use tracing_tree_spans::registry::{Attributes, Event, Parent, Record};
use tracing_tree_time::Moment;

// Returns the context of a call with this current span.
fn context_at(moment: Moment, current: Option<Id>) -> Context
    ensures { result ≡ context_at moment current }
{
    Context {
        current,
        thread_id: 1,
        thread_name: None,
        moment,
    }
}

// Returns whether a character is shown by its code. Tabs and line feeds aren't, since a drawing can
// have them.
fn is_escaped(c: char) -> bool
    ensures { result ≡ is_escaped c }
{
    match c {
        '\t' | '\n' => false,
        _ => c < ' ' || '\u{7f}' <= c && c <= '\u{9f}',
    }
}

// Appends a character in its drawn form.
fn push_shown(out: &mut String, c: char) -> Result<(), AllocError>
    ensures { OnOk result (string_bytes out.new ≡ string_bytes out.old ++ shown_char c) }
{
    if !is_escaped(c) {
        return out.push(c);
    }
    let code = u32::from(c);
    out.push_str("\\u{")?;
    write!(out, "{code:x}")?;
    out.push_str("}")
}

/// Returns a string with escapes for control characters, except tabs and line feeds. So no input
/// moves a terminal's cursor or changes its colour.
///
/// # Errors
///
/// `AllocError` if an allocation fails.
#[tactic(auto, using(crate::proofs::Escapes::without_escapes))]
pub fn shown(alloc: Global, text: &str) -> Result<Text, AllocError>
    ensures { IfOk result (λ made. made ≡ shown_text text.now) }
{
    if has_escaped(text) {
        with_escapes(alloc, text)
    } else {
        Text::from_str(alloc, text)
    }
}

// Returns whether a byte isn't a printable character of ASCII.
fn has_unprintable(bytes: &[u8]) -> bool
    ensures { result ≡ list_any is_unprintable bytes.now }
{
    let mut rest = bytes;
    while let [byte, others @ ..] = rest {
        if *byte < b' ' || b'~' < *byte {
            return true;
        }
        rest = others;
    }
    false
}

// Returns whether a character of a string is shown as an escape. Most strings are printable ASCII,
// and their characters aren't decoded.
#[tactic(auto, using(crate::proofs::Escapes::printable))]
fn has_escaped(text: &str) -> bool
    ensures { result ≡ list_any is_escaped (chars text.now) }
{
    if !has_unprintable(text.as_bytes()) {
        return false;
    }
    for c in text.chars() {
        if is_escaped(c) {
            return true;
        }
    }
    false
}

fn with_escapes(alloc: Global, text: &str) -> Result<Text, AllocError>
    ensures { IfOk result (λ made. made ≡ shown_text text.now) }
{
    let mut out = String::new(alloc);
    for c in text.chars() {
        push_shown(&mut out, c)?;
    }
    Ok(Text::from(out))
}

/// Returns the call for a new span in the span `parent`.
///
/// # Errors
///
/// `AllocError` if an allocation fails.
pub fn span_call(
    alloc: Global,
    moment: Moment,
    name: &str,
    fields: Fields,
    parent: Option<Id>,
) -> Result<Call, AllocError>
    ensures { IfOk result (λ call. call ≡ span_call moment name.now fields parent) }
{
    let attributes = Attributes {
        name: shown(alloc, name)?,
        target: Text::from_str(alloc, "")?,
        parent: Parent::Current,
        fields,
    };
    Ok(Call::New(attributes, context_at(moment, parent)))
}

/// Returns the field `message`, which is drawn as its value only.
///
/// # Errors
///
/// `AllocError` if an allocation fails.
pub fn message_field(alloc: Global, text: &str) -> Result<Field, AllocError>
    ensures { IfOk result (λ field. field ≡ message_field text.now) }
{
    Ok(Field {
        name: Text::from_str(alloc, "message")?,
        value: shown(alloc, text)?,
    })
}

/// Returns the call for an event with these fields in the span `parent`.
///
/// # Errors
///
/// `AllocError` if an allocation fails.
pub fn event_call(
    alloc: Global,
    moment: Moment,
    level: Level,
    fields: Fields,
    parent: Option<Id>,
) -> Result<Call, AllocError>
    ensures { IfOk result (λ call. call ≡ event_call moment level fields parent) }
{
    let event = Event {
        level,
        target: Text::from_str(alloc, "")?,
        parent: Parent::Current,
        fields,
    };
    Ok(Call::Event(event, context_at(moment, parent)))
}

/// Returns the call that closes a span, whose parent is `parent`.
pub fn close_call(moment: Moment, id: Id, parent: Option<Id>) -> Call
    ensures { result ≡ close_call moment id parent }
{
    Call::Close(id, context_at(moment, parent))
}

/// Returns the call that appends these fields to those of the span.
pub fn record_call(id: Id, fields: Fields) -> Call
    ensures { result ≡ record_call id fields }
{
    Call::Record(id, Record { fields })
}

/// Returns these calls on the thread with this name, if there is one.
///
/// # Errors
///
/// `AllocError` if an allocation fails.
pub fn all_on_thread(
    alloc: Global,
    name: &Option<Text>,
    calls: Vec<Call>,
) -> Result<Vec<Call>, AllocError>
    ensures { IfOk result (λ placed. placed.items ≡ all_on_thread name.now calls.items) }
{
    match name {
        Some(name) => named(alloc, name, calls),
        None => Ok(calls),
    }
}

fn named(alloc: Global, name: &Text, calls: Vec<Call>) -> Result<Vec<Call>, AllocError>
    ensures { IfOk result (λ placed. placed.items ≡ map (on_thread name.now) calls.items) }
{
    let mut placed = Vec::new(alloc);
    for call in calls {
        placed.push(on_thread(call, name.clone()?))?;
    }
    Ok(placed)
}

// Returns a call on the thread with this name.
fn on_thread(call: Call, name: Text) -> Call
    ensures { result ≡ on_thread name call }
{
    let thread_name = Some(name);
    match call {
        Call::New(attributes, context) => Call::New(
            attributes,
            Context {
                thread_name,
                ..context
            },
        ),
        Call::Event(event, context) => Call::Event(
            event,
            Context {
                thread_name,
                ..context
            },
        ),
        Call::Close(id, context) => Call::Close(
            id,
            Context {
                thread_name,
                ..context
            },
        ),
        Call::Clone(_) | Call::Record(_, _) => call,
    }
}
