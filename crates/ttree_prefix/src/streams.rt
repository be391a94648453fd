//! The streams of lines: the lines with one prefix are a separate stream.

ghost use Rattle.std.specs.Prelude.{◌≡◌, ◌++◌, ◌∷◌, [], IfOk, OnOk, map, position};
ghost use Rattle.ttree_prefix.specs.Streams.{calls_in, has_last, is_of, last_span, placed_in, stream_span, with_stream_span, without};

use std::alloc::{AllocError, Global};
use std::marker::Model;
use tracing_tree_base::Id;
use tracing_tree_base::text::Text;
use tracing_tree_layer::call::Call;

// A stream, and the span of its last event.
#[derive(Drop)]
pub(crate) struct Stream {
    pub(crate) prefix: Text,
    pub(crate) span: Option<Id>,
}

// The streams so far. That of the last object is the last.
#[derive(Drop)]
pub(crate) struct Streams {
    alloc: Global,
    all: Vec<Stream>,
}

impl Model for Streams {
    ghost use Rattle.std.specs.Prelude.{List};
    ghost use Rattle.ttree_prefix.specs.declared.streams.Stream.{Stream};

    ghost Value = { List Stream };

    ghost view = { λ s. s.all.items };
}

impl Streams {
    pub(crate) fn new(alloc: Global) -> Streams
        ensures { result ≡ [] }
    {
        Streams {
            alloc,
            all: Vec::new(alloc),
        }
    }

    // Records the calls of an object with this prefix.
    pub(crate) fn note(&mut self, prefix: &str, calls: &[Call]) -> Result<(), AllocError>
        ensures { OnOk result (self.new ≡ with_stream_span prefix.now
            (last_span (stream_span prefix.now self.old) calls.now) self.old) }
    {
        let span = last_span(span_in(self.all.as_slice(), prefix), calls);
        let prefix = Text::from_str(self.alloc, prefix)?;
        self.remove(prefix.as_str());
        Ok(self.all.push(Stream { prefix, span })?)
    }

    // Removes the stream of this prefix, if there is one.
    fn remove(&mut self, prefix: &str)
        ensures { self.new ≡ without prefix.now self.old }
    {
        match place_of(self.all.as_slice(), prefix) {
            Some(place) if place < self.all.len() => forget(self.all.remove(place)),
            _ => {}
        }
    }

    // Returns the calls of a line with this prefix that isn't an object. If the last object was of
    // another stream, its events are in the span of the last event of its own.
    pub(crate) fn calls_in(&self, prefix: &str, calls: Vec<Call>) -> Result<Vec<Call>, AllocError>
        ensures { IfOk result (λ made. made.items ≡ calls_in prefix.now self.now calls.items) }
    {
        if has_last(self.all.as_slice(), prefix) {
            return Ok(calls);
        }
        all_placed_in(self.alloc, span_in(self.all.as_slice(), prefix), calls)
    }
}

// Returns these calls, with their events in this span.
fn all_placed_in(alloc: Global, span: Option<Id>, calls: Vec<Call>) -> Result<Vec<Call>, AllocError>
    ensures { IfOk result (λ made. made.items ≡ map (placed_in span) calls.items) }
{
    let mut made = Vec::new(alloc);
    for call in calls {
        made.push(placed_in(span, call))?;
    }
    Ok(made)
}

fn forget(_stream: Stream) {}

// Returns the place of the stream of a prefix.
fn place_of(streams: &[Stream], prefix: &str) -> Option<usize>
    ensures { result ≡ position (is_of prefix.now) streams.now }
{
    streams.iter().position(|stream| {
        let stream: &Stream = stream;
        is_of(prefix, stream)
    })
}

fn is_of(prefix: &str, stream: &Stream) -> bool
    ensures { result ≡ is_of prefix.now stream.now }
{
    stream.prefix.as_str() == prefix
}

// Returns the span of the last event of a prefix.
fn span_in(streams: &[Stream], prefix: &str) -> Option<Id>
    ensures { result ≡ stream_span prefix.now streams.now }
{
    let mut rest = streams;
    while let [stream, others @ ..] = rest {
        if is_of(prefix, stream) {
            return stream.span;
        }
        rest = others;
    }
    None
}

// Returns whether the last object had this prefix.
fn has_last(streams: &[Stream], prefix: &str) -> bool
    ensures { result ≡ has_last prefix.now streams.now }
{
    let mut rest = streams;
    while let [stream, others @ ..] = rest {
        if others.is_empty() {
            return is_of(prefix, stream);
        }
        rest = others;
    }
    false
}

// Returns the span of the last event among these calls, otherwise this one.
fn last_span(before: Option<Id>, calls: &[Call]) -> Option<Id>
    ensures { result ≡ last_span before calls.now }
{
    let mut span = before;
    let mut rest = calls;
    while let [call, others @ ..] = rest {
        if let Call::Event(_, context) = call {
            span = context.current;
        }
        rest = others;
    }
    span
}

// Returns a call, in this span if it is an event.
fn placed_in(span: Option<Id>, call: Call) -> Call
    ensures { result ≡ placed_in span call }
{
    match call {
        Call::Event(event, context) => {
            let mut context = context;
            context.current = span;
            Call::Event(event, context)
        }
        other => other,
    }
}
