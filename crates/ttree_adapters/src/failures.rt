//! Events from a level on, and the lines of what failed.

ghost use Rattle.std.specs.Prelude.{◌≡◌, ◌++◌, IfOk, OnOk};
ghost use Rattle.ttree_adapters.specs.Failures.{KeepsShown, all_kept, call_kept, event_kept, is_end, is_failure_level, lines_in, lines_of, no_lines, with_line_in, without_lines, without_lines_in};

use crate::mapping::Mapping;
use json::Value;
use std::alloc::{AllocError, Global};
use std::collections::BTreeMap;
use std::marker::Model;
use tracing_tree_base::field::Field;
use tracing_tree_base::style::Level;
use tracing_tree_base::{Context, Id};
use tracing_tree_layer::call::Call;
use tracing_tree_spans::registry::Event;
use ttree_source::level::rank;

// The lines of a span.
#[derive(Drop)]
struct Lines {
    calls: Vec<Call>,
}

impl Model for Lines {
    ghost use Rattle.std.specs.Prelude.{List};
    ghost use Rattle.tracing_tree_layer.specs.declared.call.Call.{Call};

    ghost Value = { List Call };

    ghost view = { λ l. l.calls.items };
}

/// Leaves out the events below a level, except the lines that a failed test printed.
///
/// An event below the level is held with its span. A failure, that is an event of level ERROR in
/// the same span, brings back what the span holds: these events come before it, unchanged and in
/// their order. When a span closes, what it holds is dropped. The end of a test isn't a line, so
/// that a failed package doesn't bring back the tests that passed: an event with the field
/// `elapsed` isn't held, and neither is an event without a span.
#[derive(Drop)]
pub struct FailureLines {
    alloc: Global,
    min_level: Level,
    // The lines of open spans, by their ids.
    held: BTreeMap<u64, Lines>,
}

impl Model for FailureLines {
    ghost use Rattle.ttree_adapters.specs.Failures.{FailuresState};

    ghost Value = { FailuresState };

    ghost view = { λ f. record { min_level = f.min_level; held = f.held.entries } };
}

impl Mapping for FailureLines {
    ghost use Rattle.ttree_adapters.specs.Failures.{makes_kept};

    ghost makes = { makes_kept };

    fn reads_values(&self) -> bool {
        false
    }

    fn map(
        &mut self,
        _alloc: Global,
        _value: Option<&Value<'_>>,
        calls: Vec<Call>,
    ) -> Result<Vec<Call>, AllocError> {
        self.all_kept(calls)
    }
}

impl FailureLines {
    /// Leaves out the events below this level.
    #[tactic(auto, using(crate::proofs::ShownFailures::shown))]
    pub fn new(alloc: Global, min_level: Level) -> FailureLines
        ensures empty { result ≡ no_lines min_level }
        ensures others { KeepsShown min_level }
    {
        FailureLines {
            alloc,
            min_level,
            held: BTreeMap::new(alloc),
        }
    }

    fn all_kept(&mut self, calls: Vec<Call>) -> Result<Vec<Call>, AllocError>
        ensures { IfOk result (λ made. all_kept calls.items self.old
            ≡ record { calls = made.items; mapping = self.new }) }
    {
        let mut made = Vec::new(self.alloc);
        for call in calls {
            self.keep(&mut made, call)?;
        }
        Ok(made)
    }

    // Appends what a call becomes.
    fn keep(&mut self, made: &mut Vec<Call>, call: Call) -> Result<(), AllocError>
        ensures calls { OnOk result (made.new.items
            ≡ made.old.items ++ (call_kept call self.old).calls) }
        ensures state { OnOk result (self.new ≡ (call_kept call self.old).mapping) }
    {
        match call {
            Call::Event(event, context) => self.keep_event(made, event, context),
            Call::Close(id, context) => {
                self.drop_lines(id);
                Ok(made.push(Call::Close(id, context))?)
            }
            other => Ok(made.push(other)?),
        }
    }

    fn keep_event(
        &mut self,
        made: &mut Vec<Call>,
        event: Event,
        context: Context,
    ) -> Result<(), AllocError>
        ensures calls { OnOk result (made.new.items ≡ made.old.items
            ++ (event_kept event context self.old).calls) }
        ensures state { OnOk result (self.new ≡ (event_kept event context self.old).mapping) }
    {
        if is_failure(event.level) {
            self.release(made, context.current)?;
            return Ok(made.push(Call::Event(event, context))?);
        }
        if rank(self.min_level) <= rank(event.level) {
            return Ok(made.push(Call::Event(event, context))?);
        }
        if is_end(event.fields.as_slice()) {
            return Ok(());
        }
        self.hold(context.current, Call::Event(event, context))
    }

    // Appends the lines of a span, which then holds none.
    fn release(&mut self, made: &mut Vec<Call>, span: Option<Id>) -> Result<(), AllocError>
        ensures calls { OnOk result (made.new.items ≡ made.old.items ++ lines_in span self.old) }
        ensures state { OnOk result (self.new ≡ without_lines_in span self.old) }
    {
        let Some(Id(span)) = span else {
            return Ok(());
        };
        let mut lines = self.take_lines(span);
        made.append(&mut lines)
    }

    // Holds a line with its span.
    fn hold(&mut self, span: Option<Id>, line: Call) -> Result<(), AllocError>
        ensures { OnOk result (self.new ≡ with_line_in span line self.old) }
    {
        let Some(Id(span)) = span else {
            return Ok(());
        };
        let mut calls = self.take_lines(span);
        calls.push(line)?;
        self.held.insert(span, Lines { calls })?;
        Ok(())
    }

    // Returns the lines of a span, which then holds none.
    fn take_lines(&mut self, span: u64) -> Vec<Call>
        ensures lines { result.items ≡ lines_of span self.old }
        ensures state { self.new ≡ without_lines span self.old }
    {
        match self.held.remove(&span) {
            Some(lines) => lines.calls,
            None => Vec::new(self.alloc),
        }
    }

    fn drop_lines(&mut self, span: Id)
        ensures { self.new ≡ without_lines span.0 self.old }
    {
        drop(self.take_lines(span.0));
    }
}

fn is_failure(level: Level) -> bool
    ensures { result ≡ is_failure_level level }
{
    match level {
        Level::Error => true,
        Level::Warn | Level::Info | Level::Debug | Level::Trace => false,
    }
}

// Returns whether an event with these fields is the end of a test.
fn is_end(fields: &[Field]) -> bool
    ensures { result ≡ is_end fields.now }
{
    let mut rest = fields;
    while let [field, others @ ..] = rest {
        if field.name.as_str() == "elapsed" {
            return true;
        }
        rest = others;
    }
    false
}
