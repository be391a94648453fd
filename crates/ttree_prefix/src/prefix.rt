//! A source of lines with prefixes.

ghost use Rattle.std.specs.Prelude.{◌≡◌, [], IfOk, OnOk, map, option_map};
ghost use Rattle.json.specs.Json.{document};
ghost use Rattle.json.specs.Value.{value_view};
ghost use Rattle.ttree_source.specs.Source.{Emits};
ghost use Rattle.ttree_prefix.specs.Prefix.{calls_of_line, has_streams, is_object, prefix_field, prefix_parts, prefixed_step, streams_after, value_taken, with_prefix};

use crate::mark::Mark;
use crate::streams::Streams;
use json::{Scratch, Value};
use std::alloc::{AllocError, Global};
use std::marker::Model;
use tracing_tree_base::field::{Field, Fields};
use tracing_tree_base::text::Text;
use tracing_tree_layer::call::Call;
use ttree_source::calls::shown;
use ttree_source::notes::Problem;
use ttree_source::source::Source;
use ttree_source::values::{is_object, value_of};

/// A source whose lines may start with a prefix.
///
/// A line that isn't JSON and has the mark is taken without its prefix, which comes last among the
/// fields of the line's events. If the prefix names a stream, such as a service, a line that isn't
/// an object stays in it: if the last object was of another stream, it is an event in the span of
/// its stream's last event. Every other line is taken unchanged.
#[derive(Drop)]
pub struct Prefixed<S> {
    source: S,
    mark: Option<Mark>,
    streams: Streams,
}

impl<S> Model for Prefixed<S> {
    ghost use Rattle.ttree_prefix.specs.Prefix.{Marked};

    ghost Value = { Marked S };

    ghost view = { λ p. record { source = p.source; mark = p.mark; streams = p.streams } };
}

impl<S> Prefixed<S> {
    /// Returns a source for lines of `source` with prefixes that end at this mark, if there is one.
    pub fn new(alloc: Global, source: S, mark: Option<Mark>) -> Prefixed<S>
        ensures { result ≡ record { source = source; mark = mark; streams = [] } }
    {
        Prefixed {
            source,
            mark,
            streams: Streams::new(alloc),
        }
    }

    /// Returns the source.
    pub fn into_source(self) -> S
        ensures { result ≡ self.source }
    {
        self.source
    }
}

impl<S: Source> Prefixed<S> {
    // Takes a line that has this prefix, and then this rest. It isn't inlined, since its `Scratch`
    // of 16 KiB would be cleared for lines without a prefix too.
    #[inline(never)]
    fn take_rest(
        &mut self,
        alloc: Global,
        prefix: &str,
        rest: &str,
    ) -> Result<Option<Vec<Call>>, AllocError>
        ensures { IfOk result (λ emitted. Emits
            (value_taken S.takes prefix.now rest.now (document rest.now) self.old)
            self.old self.new (option_map (λ calls. calls.items) emitted)) }
    {
        let mut scratch = Scratch::new(alloc);
        let value = value_of(alloc, rest, &mut scratch)?;
        self.take_value(alloc, prefix, rest, value.as_ref())
    }

    // Takes a line that has this prefix, and then this rest with this value.
    fn take_value(
        &mut self,
        alloc: Global,
        prefix: &str,
        rest: &str,
        value: Option<&Value<'_>>,
    ) -> Result<Option<Vec<Call>>, AllocError>
        ensures { IfOk result (λ emitted. Emits
            (value_taken S.takes prefix.now rest.now
            (option_map (λ v. value_view v.now) value.entry) self.old)
            self.old self.new (option_map (λ calls. calls.items) emitted)) }
    {
        let Some(calls) = self.source.take(alloc, rest, value)? else {
            return Ok(None);
        };
        Ok(Some(self.step(alloc, prefix, has_object(value), calls)?))
    }
}

impl<S> Prefixed<S> {
    // Returns the calls of a line with this prefix, each event in its stream and with the prefix.
    fn step(
        &mut self,
        alloc: Global,
        prefix: &str,
        is_object: bool,
        calls: Vec<Call>,
    ) -> Result<Vec<Call>, AllocError>
        ensures { IfOk result (λ made. record { calls = made.items; source = self.new }
            ≡ prefixed_step self.old.mark self.old.streams prefix.now is_object
            (record { calls = calls.items; source = self.old.source })) }
    {
        let calls = self.in_stream(prefix, is_object, calls)?;
        with_prefixes(alloc, prefix, calls)
    }

    // Returns the calls of a line with this prefix, in its stream.
    fn in_stream(
        &mut self,
        prefix: &str,
        is_object: bool,
        calls: Vec<Call>,
    ) -> Result<Vec<Call>, AllocError>
        ensures calls { IfOk result (λ made. made.items
            ≡ calls_of_line self.old.mark prefix.now is_object self.old.streams calls.items) }
        ensures streams { OnOk result (self.new ≡ record self.old {
          streams =
              streams_after self.old.mark prefix.now is_object calls.items self.old.streams;
        }) }
    {
        if !has_streams(self.mark) {
            return Ok(calls);
        }
        if !is_object {
            return self.streams.calls_in(prefix, calls);
        }
        self.streams.note(prefix, calls.as_slice())?;
        Ok(calls)
    }
}

// Returns whether prefixes name streams.
fn has_streams(mark: Option<Mark>) -> bool
    ensures { result ≡ has_streams mark }
{
    match mark {
        Some(mark) => mark.names_stream(),
        None => false,
    }
}

fn has_object(value: Option<&Value<'_>>) -> bool
    ensures { result ≡ is_object (option_map (λ v. value_view v.now) value.entry) }
{
    match value {
        Some(value) => is_object(value),
        None => false,
    }
}

impl<S: Source> Source for Prefixed<S> {
    ghost use Rattle.ttree_prefix.specs.Prefix.{prefixed_ended, prefixed_ends, prefixed_takes};

    ghost takes = { prefixed_takes S.takes };

    ghost ends = { prefixed_ends S.ends };

    ghost ended = { prefixed_ended S.ended };

    ghost value_problem = { S.value_problem };

    fn reads_values(&self) -> bool {
        self.mark.is_some() || self.source.reads_values()
    }

    fn take(
        &mut self,
        alloc: Global,
        line: &str,
        value: Option<&Value<'_>>,
    ) -> Result<Option<Vec<Call>>, AllocError> {
        let Some((prefix, rest)) = parts_of(self.mark, line, value) else {
            return self.source.take(alloc, line, value);
        };
        self.take_rest(alloc, prefix, rest)
    }

    fn problem(value: Option<&Value<'_>>) -> Problem {
        S::problem(value)
    }

    fn end(&mut self, alloc: Global) -> Result<Vec<Call>, AllocError> {
        self.source.end(alloc)
    }
}

// Returns the prefix of a line, and what comes after it. None if the line is JSON, or has no
// prefix.
fn parts_of<'a>(
    mark: Option<Mark>,
    line: &'a str,
    value: Option<&Value<'_>>,
) -> Option<(&'a str, &'a str)>
    ensures { option_map (λ parts. (parts.0.now, parts.1.now)) result
        ≡ prefix_parts mark line.now (option_map (λ v. value_view v.now) value.entry) }
{
    match (mark, value) {
        (Some(mark), None) => mark.split(line),
        _ => None,
    }
}

// Returns these calls, with a prefix in each event.
fn with_prefixes(alloc: Global, prefix: &str, calls: Vec<Call>) -> Result<Vec<Call>, AllocError>
    ensures { IfOk result (λ made. made.items ≡ map (with_prefix prefix.now) calls.items) }
{
    let mut made = Vec::new(alloc);
    for call in calls {
        made.push(with_prefix(alloc, prefix, call)?)?;
    }
    Ok(made)
}

// Returns a call, with a prefix last among its fields if it is an event.
fn with_prefix(alloc: Global, prefix: &str, call: Call) -> Result<Call, AllocError>
    ensures { IfOk result (λ made. made ≡ with_prefix prefix.now call) }
{
    match call {
        Call::Event(event, context) => {
            let mut event = event;
            event.fields.append(prefix_field(alloc, prefix)?)?;
            Ok(Call::Event(event, context))
        }
        other => Ok(other),
    }
}

fn prefix_field(alloc: Global, prefix: &str) -> Result<Fields, AllocError>
    ensures { IfOk result (λ fields. fields ≡ prefix_field prefix.now) }
{
    let field = Field {
        name: Text::from_str(alloc, "prefix")?,
        value: shown(alloc, prefix)?,
    };
    Ok(Fields::one(alloc, field))
}
