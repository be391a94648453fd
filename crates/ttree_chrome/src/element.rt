//! Reads one element of a trace.

ghost use Rattle.std.specs.Prelude.{◌≡◌, IfOk, option_map};
ghost use Rattle.json.specs.Value.{value_view};
ghost use Rattle.ttree_chrome.specs.Element.{async_in, async_of, element_name, element_of, entry_in, fields_in, given_name, ident_at, ident_in, length_at, named_as, named_in, naming_of, owner_in, phase_of, phased, span_element, time_at, timed_in, track_id, track_in, with_id, written_text};

use crate::number::{integer_of, length_of, time_of};
use json::Value;
use std::alloc::{AllocError, Global};
use tracing_tree_base::field::{Field, Fields};
use tracing_tree_base::text::Text;
use ttree_source::calls::shown;
use ttree_source::fields::event_fields;
use ttree_source::notes::Problem;
use ttree_source::values::text_at;

// What identifies a process or a thread.
#[derive(Drop)]
pub(crate) enum Ident {
    Number(i128),
    Name(Text),
}

// The process and the thread of an element, if they are known.
#[derive(Drop)]
pub(crate) struct Owner {
    pub(crate) process: Option<Ident>,
    pub(crate) thread: Option<Ident>,
}

// The parts that most elements have.
#[derive(Drop)]
pub(crate) struct Entry {
    pub(crate) owner: Owner,
    // Nanoseconds since 2^63 ns before the zero of the trace's clock.
    pub(crate) start: u64,
    pub(crate) name: Text,
    pub(crate) fields: Fields,
}

// What one element of a trace means.
#[derive(Drop)]
pub(crate) enum Element {
    // A span, and its end.
    Span(Entry, u64),
    // A span that begins.
    Begin(Entry),
    // The end of the lane's span that began last.
    End(Entry),
    Instant(Entry),
    // An element of an asynchronous track, with the track's key.
    Async(Track, Entry, Text),
    ProcessName(Owner, Text),
    ThreadName(Owner, Text),
    // Metadata that names nothing.
    Metadata,
    // A counter, a flow, an object or another element that has no row.
    Undrawn,
}

// The phase of an element that has a time.
#[derive(Clone, Copy)]
enum Phase {
    Complete,
    Begin,
    End,
    Instant,
}

// The role of an element in its asynchronous track.
#[derive(Clone, Copy)]
pub(crate) enum Track {
    Begin,
    End,
    Instant,
}

// What an element of metadata names.
#[derive(Clone, Copy)]
enum Naming {
    Process,
    Thread,
}

// Returns what an element means, or what is missing.
pub(crate) fn element_of(
    alloc: Global,
    value: &Value<'_>,
) -> Result<Result<Element, Problem>, AllocError>
    ensures { IfOk result (λ element. element ≡ element_of (value_view value.now)) }
{
    let Some(phase) = text_at(value, "ph") else {
        return Ok(Err(Problem::Phase));
    };
    if phase == "M" {
        return named_in(alloc, value);
    }
    match phase_of(phase) {
        Some(phase) => timed_in(alloc, phase, value),
        None => match async_of(phase) {
            Some(track) => async_in(alloc, track, value),
            None => Ok(Ok(Element::Undrawn)),
        },
    }
}

// Returns the role of an element in its asynchronous track, if this phase has one. `S`, `T`, `p`
// and `F` are the phases of older traces.
fn async_of(text: &str) -> Option<Track>
    ensures { result ≡ async_of text.now }
{
    if text == "b" || text == "S" {
        Some(Track::Begin)
    } else if text == "e" || text == "F" {
        Some(Track::End)
    } else if text == "n" || text == "T" || text == "p" {
        Some(Track::Instant)
    } else {
        None
    }
}

// Reads an element of an asynchronous track.
fn async_in(
    alloc: Global,
    track: Track,
    value: &Value<'_>,
) -> Result<Result<Element, Problem>, AllocError>
    ensures { IfOk result (λ element. element ≡ async_in track (value_view value.now)) }
{
    match entry_in(alloc, value)? {
        Ok(entry) => {
            let entry = with_id(alloc, track, entry, value)?;
            Ok(Ok(Element::Async(track, entry, track_in(alloc, value)?)))
        }
        Err(problem) => Ok(Err(problem)),
    }
}

// Adds the track's id as a field to the span of an asynchronous track.
fn with_id(
    alloc: Global,
    track: Track,
    entry: Entry,
    value: &Value<'_>,
) -> Result<Entry, AllocError>
    ensures { IfOk result (λ one. one ≡ with_id track entry (value_view value.now)) }
{
    let Track::Begin = track else {
        return Ok(entry);
    };
    let id = Field {
        name: Text::from_str(alloc, "id")?,
        value: shown(alloc, id_in(value))?,
    };
    let mut entry = entry;
    let mut fields = Fields::one(alloc, id);
    fields.append(entry.fields)?;
    entry.fields = fields;
    Ok(entry)
}

// Returns the key of an element's asynchronous track: its category, its scope and its id.
fn track_in(alloc: Global, value: &Value<'_>) -> Result<Text, AllocError>
    ensures { IfOk result (λ key. key ≡ track_in (value_view value.now)) }
{
    let mut key = String::new(alloc);
    key.push_str(text_of(value.get("cat")))?;
    key.push('\0')?;
    key.push_str(text_of(value.get("scope")))?;
    key.push('\0')?;
    key.push_str(id_in(value))?;
    Ok(Text::from(key))
}

// Returns the id of an element's asynchronous track. It is empty if the element doesn't have one.
fn id_in<'v>(value: &'v Value<'_>) -> &'v str
    ensures { result.now ≡ track_id (value_view value.now) }
{
    match value.get("id2") {
        Some(id) => match id.get("local") {
            Some(local) => text_of(Some(local)),
            None => text_of(id.get("global")),
        },
        None => text_of(value.get("id")),
    }
}

// Returns a string, or a number as written. It is empty for any other value.
fn text_of<'v>(value: Option<&'v Value<'_>>) -> &'v str
    ensures { result.now ≡ written_text (option_map (λ v. value_view v.now) value.entry) }
{
    match value {
        Some(Value::String(text)) => text,
        Some(Value::Number(text)) => text,
        _ => "",
    }
}

// Returns the phase of an element that has a time.
fn phase_of(text: &str) -> Option<Phase>
    ensures { result ≡ phase_of text.now }
{
    if text == "X" {
        Some(Phase::Complete)
    } else if text == "B" {
        Some(Phase::Begin)
    } else if text == "E" {
        Some(Phase::End)
    } else if text == "i" || text == "I" {
        Some(Phase::Instant)
    } else {
        None
    }
}

// Reads an element of this phase.
fn timed_in(
    alloc: Global,
    phase: Phase,
    value: &Value<'_>,
) -> Result<Result<Element, Problem>, AllocError>
    ensures { IfOk result (λ element. element ≡ timed_in phase (value_view value.now)) }
{
    match entry_in(alloc, value)? {
        Ok(entry) => Ok(phased(phase, entry, value)),
        Err(problem) => Ok(Err(problem)),
    }
}

fn phased(phase: Phase, entry: Entry, value: &Value<'_>) -> Result<Element, Problem>
    ensures { result ≡ phased phase entry (value_view value.now) }
{
    match phase {
        Phase::Complete => span_of(entry, length_at(value, "dur")),
        Phase::Begin => Ok(Element::Begin(entry)),
        Phase::End => Ok(Element::End(entry)),
        Phase::Instant => Ok(Element::Instant(entry)),
    }
}

// Returns a span of this length in nanoseconds.
fn span_of(entry: Entry, length: Option<u64>) -> Result<Element, Problem>
    ensures { result ≡ span_element entry length }
{
    let Some(length) = length else {
        return Err(Problem::Duration);
    };
    let end = entry.start.saturating_add(length);
    Ok(Element::Span(entry, end))
}

fn entry_in(alloc: Global, value: &Value<'_>) -> Result<Result<Entry, Problem>, AllocError>
    ensures { IfOk result (λ entry. entry ≡ entry_in (value_view value.now)) }
{
    let owner = match owner_in(alloc, value)? {
        Ok(owner) => owner,
        Err(problem) => return Ok(Err(problem)),
    };
    let Some(start) = time_at(value, "ts") else {
        return Ok(Err(Problem::Start));
    };
    Ok(Ok(Entry {
        owner,
        start,
        name: Text::from_str(alloc, name_in(value))?,
        fields: fields_in(alloc, value)?,
    }))
}

// Reads an element of metadata, which may name its process or its thread.
fn named_in(alloc: Global, value: &Value<'_>) -> Result<Result<Element, Problem>, AllocError>
    ensures { IfOk result (λ element. element ≡ named_in (value_view value.now)) }
{
    let Some(naming) = naming_of(name_in(value)) else {
        return Ok(Ok(Element::Metadata));
    };
    let Some(text) = given_name(value) else {
        return Ok(Ok(Element::Metadata));
    };
    match owner_in(alloc, value)? {
        Ok(owner) => Ok(Ok(named_as(naming, owner, Text::from_str(alloc, text)?))),
        Err(problem) => Ok(Err(problem)),
    }
}

fn naming_of(name: &str) -> Option<Naming>
    ensures { result ≡ naming_of name.now }
{
    if name == "process_name" {
        Some(Naming::Process)
    } else if name == "thread_name" {
        Some(Naming::Thread)
    } else {
        None
    }
}

fn named_as(naming: Naming, owner: Owner, text: Text) -> Element
    ensures { result ≡ named_as naming owner text }
{
    match naming {
        Naming::Process => Element::ProcessName(owner, text),
        Naming::Thread => Element::ThreadName(owner, text),
    }
}

// Returns the string at `args`.`name`.
fn given_name<'v>(value: &'v Value<'_>) -> Option<&'v str>
    ensures { option_map (λ s. s.now) result ≡ given_name (value_view value.now) }
{
    text_at(value.get("args")?, "name")
}

// Returns the name of an element. It is empty if the element doesn't have one.
fn name_in<'v>(value: &'v Value<'_>) -> &'v str
    ensures { result.now ≡ element_name (value_view value.now) }
{
    match text_at(value, "name") {
        Some(name) => name,
        None => "",
    }
}

// Returns the members of the object at `args` as fields.
fn fields_in(alloc: Global, value: &Value<'_>) -> Result<Fields, AllocError>
    ensures { IfOk result (λ fields. fields ≡ fields_in (value_view value.now)) }
{
    match value.get("args") {
        Some(args) => event_fields(alloc, args),
        None => Ok(Fields::new(alloc)),
    }
}

// Returns the process and the thread of an element.
fn owner_in(alloc: Global, value: &Value<'_>) -> Result<Result<Owner, Problem>, AllocError>
    ensures { IfOk result (λ owner. owner ≡ owner_in (value_view value.now)) }
{
    let process = match ident_at(alloc, value, "pid", Problem::Process)? {
        Ok(process) => process,
        Err(problem) => return Ok(Err(problem)),
    };
    match ident_at(alloc, value, "tid", Problem::Thread)? {
        Ok(thread) => Ok(Ok(Owner { process, thread })),
        Err(problem) => Ok(Err(problem)),
    }
}

// Reads what identifies a process or a thread: a whole number or a string. `None` if the key is
// absent or its value is null.
fn ident_at(
    alloc: Global,
    value: &Value<'_>,
    key: &str,
    problem: Problem,
) -> Result<Result<Option<Ident>, Problem>, AllocError>
    ensures { IfOk result (λ ident. ident ≡ ident_at key.now problem (value_view value.now)) }
{
    match value.get(key) {
        Some(found) => ident_in(alloc, found, problem),
        None => Ok(Ok(None)),
    }
}

fn ident_in(
    alloc: Global,
    value: &Value<'_>,
    problem: Problem,
) -> Result<Result<Option<Ident>, Problem>, AllocError>
    ensures { IfOk result (λ ident. ident ≡ ident_in problem (value_view value.now)) }
{
    match value {
        Value::Null => Ok(Ok(None)),
        Value::Number(text) => match integer_of(text) {
            Some(found) => Ok(Ok(Some(Ident::Number(found)))),
            None => Ok(Err(problem)),
        },
        Value::String(text) => Ok(Ok(Some(Ident::Name(Text::from_str(alloc, text)?)))),
        _ => Ok(Err(problem)),
    }
}

// Returns the time at a key.
fn time_at(value: &Value<'_>, key: &str) -> Option<u64>
    ensures { result ≡ time_at key.now (value_view value.now) }
{
    time_of(value.get(key)?.as_number()?)
}

// Returns the length of time at a key, in nanoseconds.
fn length_at(value: &Value<'_>, key: &str) -> Option<u64>
    ensures { result ≡ length_at key.now (value_view value.now) }
{
    length_of(value.get(key)?.as_number()?)
}
