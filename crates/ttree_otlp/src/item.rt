//! What a span, its links, its events and its status, and a log say.

ghost use Rattle.std.specs.Prelude.{◌≡◌, ◌<◌, IfOk, None, OnOk, Some, codes};
ghost use Rattle.json.specs.Find.{get};
ghost use Rattle.json.specs.Value.{members_view, value_view};
ghost use Rattle.ttree_otlp.specs.Gather.{at_earliest, in_known_span};
ghost use Rattle.ttree_otlp.specs.Item.{parent_of, body_fields, digit_added, event_level, event_note, failed_note, has_body, has_members, hex_digit, id_number, link_note, log_note, log_time, reason_fields, span_read, unfinished_note};

use crate::any::any_text;
use crate::named::{kind_at, level_at};
use crate::read::{attributes_in, count_at, field_of, id_at, string_at};
use json::Value;
use std::alloc::{AllocError, Global};
use std::marker::Model;
use tracing_tree_base::field::Fields;
use tracing_tree_base::style::Level;
use tracing_tree_base::text::Text;
use ttree_source::calls::message_field;

// An event or a log.
#[derive(Drop)]
pub(crate) struct Note {
    pub(crate) level: Level,
    // What comes before the service.
    pub(crate) message: Fields,
    // That whose resource it is in.
    pub(crate) service: Text,
    pub(crate) fields: Fields,
}

#[derive(Drop)]
pub(crate) struct Span {
    pub(crate) id: Text,
    pub(crate) parent: Text,
    pub(crate) name: Text,
    pub(crate) kind: u64,
    // In nanoseconds since 1970, as each time. It is 0 if the span hasn't ended.
    pub(crate) end: u64,
    pub(crate) service: Text,
    pub(crate) fields: Fields,
}

#[derive(Drop)]
pub(crate) enum Shape {
    // The trace with this id.
    Trace(Text),
    Span(Span),
    Note(Note),
    // A row whose spans are left out, and how many these are.
    LeftOut(u64),
}

// What decides the order of items in a span. Links come first and the failure last; an event or a
// log comes before a span that starts at the same time.
#[derive(Clone, Copy)]
pub(crate) struct Place {
    pub(crate) time: u64,
    pub(crate) rank: u64,
    // That of the id.
    pub(crate) number: u64,
    // How many items were read before.
    pub(crate) index: u64,
}

// A row of the tree, and the span that it is nested in.
#[derive(Drop)]
pub(crate) struct Item {
    // Empty for traces, and for logs without a trace.
    pub(crate) trace: Text,
    // The id of the span that it is nested in. Empty at the root.
    pub(crate) parent: Text,
    pub(crate) place: Place,
    // It is 0 if it isn't known.
    pub(crate) time: u64,
    pub(crate) shape: Shape,
}

// An item, allocated by itself, so that lists of items take little space and are sorted quickly.
#[derive(Drop)]
pub(crate) struct ItemBox {
    item: Box<Item>,
}

impl Model for ItemBox {
    ghost use Rattle.ttree_otlp.specs.declared.item.Item.{Item};

    ghost Value = { Item };

    ghost view = { λ b. b.item.value };
}

impl ItemBox {
    pub(crate) fn new(alloc: Global, item: Item) -> Result<ItemBox, AllocError>
        ensures { IfOk result (λ boxed. boxed ≡ item) }
    {
        Ok(ItemBox {
            item: Box::new(alloc, item)?,
        })
    }

    pub(crate) fn get(&self) -> &Item
        ensures { result.now ≡ self.now }
    {
        &self.item
    }

    pub(crate) fn into_item(self) -> Item
        ensures { result ≡ self }
    {
        Box::into_inner(self.item)
    }

    // Moves an item to this time.
    pub(crate) fn set_time(&mut self, time: u64)
        ensures { self.new ≡ at_earliest (Some time) self.old }
    {
        self.item.time = time;
        self.item.place.time = time;
    }

    // Moves an item to the root of its trace.
    pub(crate) fn clear_parent(&mut self, alloc: Global) -> Result<(), AllocError>
        ensures { OnOk result (self.new ≡ in_known_span None self.old) }
    {
        self.item.parent = Text::from_str(alloc, "")?;
        Ok(())
    }

    pub(crate) fn set_shape(&mut self, shape: Shape)
        ensures { self.new ≡ record self.old { shape = shape } }
    {
        self.item.shape = shape;
    }
}

// Returns the time of a log: when it happened, otherwise when it was observed.
pub(crate) fn log_time(value: &Value<'_>) -> u64
    ensures { result ≡ log_time (value_view value.now) }
{
    match count_at(value, "timeUnixNano") {
        0 => count_at(value, "observedTimeUnixNano"),
        time => time,
    }
}

fn has_members(members: &Vec<(&str, Value<'_>)>) -> bool
    ensures { result ≡ has_members (members_view members.now.items) }
{
    match members.as_slice() {
        [] => false,
        [_, ..] => true,
    }
}

// Returns whether a value says something: it isn't null or an empty object.
pub(crate) fn has_body(value: &Value<'_>) -> bool
    ensures { result ≡ has_body (value_view value.now) }
{
    match value {
        Value::Null => false,
        Value::Object(members) => has_members(members),
        _ => true,
    }
}

fn body_fields(alloc: Global, value: &Value<'_>) -> Result<Fields, AllocError>
    ensures { IfOk result (λ fields. fields ≡ body_fields (Some (value_view value.now))) }
{
    if !has_body(value) {
        return Ok(Fields::new(alloc));
    }
    let text = any_text(alloc, value)?;
    Ok(Fields::one(alloc, message_field(alloc, text.as_str())?))
}

fn message_of(alloc: Global, value: &Value<'_>) -> Result<Fields, AllocError>
    ensures { IfOk result (λ fields. fields ≡ body_fields (get (codes "body") (value_view
        value.now))) }
{
    match value.get("body") {
        Some(body) => body_fields(alloc, body),
        None => Ok(Fields::new(alloc)),
    }
}

pub(crate) fn log_note(alloc: Global, service: Text, value: &Value<'_>) -> Result<Note, AllocError>
    ensures { IfOk result (λ note. note ≡ log_note service (value_view value.now)) }
{
    Ok(Note {
        level: level_at(value),
        message: message_of(alloc, value)?,
        service,
        fields: attributes_in(alloc, true, value)?,
    })
}

fn event_level(name: &str) -> Level
    ensures { result ≡ event_level name.now }
{
    if name == "exception" {
        Level::Error
    } else {
        Level::Info
    }
}

pub(crate) fn event_note(
    alloc: Global,
    service: Text,
    value: &Value<'_>,
) -> Result<Note, AllocError>
    ensures { IfOk result (λ note. note ≡ event_note service (value_view value.now)) }
{
    let name = string_at(value, "name");
    Ok(Note {
        level: event_level(name),
        message: Fields::one(alloc, message_field(alloc, name)?),
        service,
        fields: attributes_in(alloc, true, value)?,
    })
}

// Returns a link to another span.
pub(crate) fn link_note(alloc: Global, service: Text, value: &Value<'_>) -> Result<Note, AllocError>
    ensures { IfOk result (λ note. note ≡ link_note service (value_view value.now)) }
{
    let trace = id_at(alloc, value, "traceId")?;
    let span = id_at(alloc, value, "spanId")?;
    let mut message = Vec::new(alloc);
    message.push(message_field(alloc, "link")?)?;
    message.push(field_of(alloc, "trace", trace.as_str())?)?;
    message.push(field_of(alloc, "span", span.as_str())?)?;
    Ok(Note {
        level: Level::Info,
        message: Fields::from(message),
        service,
        fields: attributes_in(alloc, true, value)?,
    })
}

fn reason_fields(alloc: Global, text: &str) -> Result<Fields, AllocError>
    ensures { IfOk result (λ fields. fields ≡ reason_fields text.now) }
{
    if text.is_empty() {
        return Ok(Fields::new(alloc));
    }
    Ok(Fields::one(alloc, field_of(alloc, "message", text)?))
}

// Returns the event that ends a span whose status is an error.
pub(crate) fn failed_note(
    alloc: Global,
    service: Text,
    status: &Value<'_>,
) -> Result<Note, AllocError>
    ensures { IfOk result (λ note. note ≡ failed_note service (value_view status.now)) }
{
    Ok(Note {
        level: Level::Error,
        message: Fields::one(alloc, message_field(alloc, "failed")?),
        service,
        fields: reason_fields(alloc, string_at(status, "message"))?,
    })
}

// Returns the event that ends a span without an end.
pub(crate) fn unfinished_note(alloc: Global, service: Text) -> Result<Note, AllocError>
    ensures { IfOk result (λ note. note ≡ unfinished_note service) }
{
    Ok(Note {
        level: Level::Warn,
        message: Fields::one(alloc, message_field(alloc, "unfinished")?),
        service,
        fields: Fields::new(alloc),
    })
}

pub(crate) fn span_of(alloc: Global, service: Text, value: &Value<'_>) -> Result<Span, AllocError>
    ensures { IfOk result (λ span. span ≡ span_read service (value_view value.now)) }
{
    Ok(Span {
        id: id_at(alloc, value, "spanId")?,
        parent: id_at(alloc, value, "parentSpanId")?,
        name: Text::from_str(alloc, string_at(value, "name"))?,
        kind: kind_at(value),
        end: count_at(value, "endTimeUnixNano"),
        service,
        fields: attributes_in(alloc, false, value)?,
    })
}

// Returns the id of the span that a span is nested in. It is empty if the span is its own parent.
pub(crate) fn parent_of(alloc: Global, id: &str, recorded: &str) -> Result<Text, AllocError>
    ensures { IfOk result (λ parent. parent ≡ parent_of id.now recorded.now) }
{
    if id == recorded {
        return Text::from_str(alloc, "");
    }
    Text::from_str(alloc, recorded)
}

fn hex_digit(byte: u8) -> u64
    ensures value { result ≡ hex_digit byte }
    ensures small { result < 16 }
{
    match byte {
        b'0'..=b'9' => u64::from(byte - b'0'),
        b'a'..=b'f' => u64::from(byte - 87),
        _ => 0,
    }
}

// Adds one digit. Only the last sixteen count.
fn digit_added(number: u64, byte: u8) -> u64
    ensures { result ≡ digit_added number byte }
{
    number.wrapping_mul(16).wrapping_add(hex_digit(byte))
}

// Returns the number that an id's hexadecimal digits write.
pub(crate) fn number_of(id: &[u8]) -> u64
    ensures { result ≡ id_number id.now }
{
    let mut number = 0;
    let mut rest = id;
    while let [byte, others @ ..] = rest {
        number = digit_added(number, *byte);
        rest = others;
    }
    number
}
