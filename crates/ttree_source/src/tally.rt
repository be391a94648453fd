//! Counts of calls.

ghost use Rattle.std.specs.Prelude.{◌≡◌, ◌+◌, IfSome, MatchResult};
ghost use Rattle.tracing_tree_lines.specs.Lines.Spelled.{input_lines};
ghost use Rattle.ttree_source.specs.Source.{calls_of};
ghost use Rattle.ttree_source.specs.Tallies.{CountsCalls, nothing_counted};

use crate::notes::Notes;
use crate::run::{SourceRun, run_source};
use crate::source::Source;
use std::alloc::Global;
use tracing_tree_base::{Context, Id, Refusal};
use tracing_tree_layer::call::{Call, Reply};
use tracing_tree_layer::calls::Calls;
use tracing_tree_layer::parts::EventParts;
use tracing_tree_lines::lines::LineInput;
use tracing_tree_spans::registry::{Attributes, Record};

/// A receiver that only counts its calls by kind. Its spans get the ids 1, 2 and so on.
#[derive(Clone, Copy, Debug, Drop)]
pub struct Tally {
    /// How many spans were made.
    pub spans: u64,

    /// How many handles were cloned.
    pub clones: u64,

    /// How many records were made.
    pub records: u64,

    /// How many events were made.
    pub events: u64,

    /// How many handles were closed.
    pub closes: u64,
}

impl Tally {
    /// Returns a tally with counts of 0.
    pub fn new() -> Tally
        ensures { result ≡ nothing_counted }
    {
        Tally {
            spans: 0,
            clones: 0,
            records: 0,
            events: 0,
            closes: 0,
        }
    }
}

/// A call is refused with `TooMany` if its count is `u64::MAX`.
impl Calls for Tally {
    ghost use Rattle.ttree_source.specs.Tallies.{IsCounted};

    ghost answers = { IsCounted };

    fn call(&mut self, call: Call) -> Result<Reply, Refusal> {
        match call {
            Call::New(attributes, context) => {
                Ok(Reply::Span(self.new_span(attributes, &context)?))
            }
            Call::Clone(id) => {
                self.clone_span(id)?;
                Ok(Reply::Cloned(id))
            }
            Call::Record(id, values) => {
                self.record(id, values)?;
                Ok(Reply::Done)
            }
            Call::Event(event, context) => {
                self.event(&event, &context)?;
                Ok(Reply::Done)
            }
            Call::Close(id, context) => Ok(Reply::Closed(self.close(id, &context)?)),
        }
    }

    fn new_span(&mut self, attributes: Attributes, _context: &Context) -> Result<Id, Refusal> {
        drop(attributes);
        self.spans = one_more(self.spans)?;
        Ok(Id(self.spans))
    }

    fn clone_span(&mut self, id: Id) -> Result<Id, Refusal> {
        self.clones = one_more(self.clones)?;
        Ok(id)
    }

    fn record(&mut self, _id: Id, values: Record) -> Result<(), Refusal> {
        drop(values);
        self.records = one_more(self.records)?;
        Ok(())
    }

    fn event<E: EventParts>(&mut self, _event: &E, _context: &Context) -> Result<(), Refusal> {
        self.events = one_more(self.events)?;
        Ok(())
    }

    fn close(&mut self, _id: Id, _context: &Context) -> Result<bool, Refusal> {
        self.closes = one_more(self.closes)?;
        Ok(true)
    }

    fn flush(&mut self) {}
}

// Returns the next count, or `TooMany` after `u64::MAX`.
fn one_more(count: u64) -> Result<u64, Refusal>
    ensures { MatchResult result (λ more. more ≡ count + 1) (λ refusal. refusal ≡ Refusal.TooMany) }
{
    match count.checked_add(1) {
        Some(more) => Ok(more),
        None => Err(Refusal::TooMany),
    }
}

/// Counts the calls of a source's lines and of its end, like [`run_source`] on a [`Tally`].
pub fn count_source<S: Source, L: LineInput, N: Notes>(
    alloc: Global,
    source: &mut S,
    lines: &mut L,
    notes: &mut N,
) -> (SourceRun, Tally)
    ensures { IfSome (L.remaining lines.old) (λ input. CountsCalls result.0.fault
        (calls_of S.takes S.ends source.old (input_lines input)) result.1) }
{
    let mut tally = Tally::new();
    let run = run_source(alloc, source, lines, &mut tally, notes);
    (run, tally)
}
