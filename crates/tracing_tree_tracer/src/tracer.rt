//! A tracer: a receiver of calls, the open spans of a service, and the context of each call.

ghost use Rattle.std.specs.Prelude.{◌≡◌, [], ◌∷◌, Some, None, IfOk, MatchResult, length};
ghost use Rattle.tracing_tree_tracer.specs.Values.{fields_of, message_field};
ghost use Rattle.tracing_tree_tracer.specs.Tracers.{current_of, outer_of, context_in, AreClosedTo, IsOpened, IsEmitted, IsClosed, IsRecorded};

use crate::clock::Now;
use crate::spans::Spans;
use crate::value::{Value, event_fields, span_fields};
use std::alloc::{AllocError, Global};
use std::marker::Model;
use thiserror::Error;
use tracing_tree_base::style::Level;
use tracing_tree_base::text::Text;
use tracing_tree_base::{Context, Id, Refusal};
use tracing_tree_layer::calls::Calls;
use tracing_tree_spans::registry::{Attributes, Event, Parent, Record};
use tracing_tree_time::Moment;

/// Why a tracer's method failed. After the first three faults no call was made, and nothing has
/// changed.
#[derive(Clone, Copy, Debug, PartialEq, Eq, Error)]
pub enum TraceFault {
    /// No span is open.
    #[error("no span is open")]
    NoSpan,

    /// The clock could not be read. A `Moment` as the clock never causes this.
    #[error("no moment")]
    NoMoment,

    /// An allocation failed before the call was made.
    #[error("memory")]
    Memory,

    /// The call was refused.
    #[error("{0}")]
    Refused(Refusal),
}

impl From<Refusal> for TraceFault {
    ghost use Rattle.std.specs.Prelude.{◌≡◌};
    ghost use Rattle.tracing_tree_tracer.specs.declared.tracer.TraceFault.TheVariants.{Refused};

    ghost from_gives = { λ refusal fault. fault ≡ Refused refusal };

    fn from(refusal: Refusal) -> TraceFault {
        TraceFault::Refused(refusal)
    }
}

impl From<AllocError> for TraceFault {
    ghost use Rattle.std.specs.Prelude.{◌≡◌};
    ghost use Rattle.tracing_tree_tracer.specs.declared.tracer.TraceFault.TheVariants.{Memory};

    ghost from_gives = { λ _ fault. fault ≡ Memory };

    fn from(_error: AllocError) -> TraceFault {
        TraceFault::Memory
    }
}

/// Opens and closes spans and records events for one thread, or for a whole service. It has the
/// open spans, outermost first. The last is the current one. Its calls go to a `Layered`, or to any
/// other receiver of calls.
#[derive(Drop)]
pub struct Tracer<C: Calls, N: Now> {
    layered: C,
    clock: N,
    alloc: Global,
    target: Text,
    thread_id: u64,
    thread_name: Option<Text>,
    spans: Vec<Id>,
}

impl<C: Calls, N: Now> Model for Tracer<C, N> {
    ghost use Rattle.tracing_tree_tracer.specs.Tracers.{TracerView};

    ghost Value = { TracerView C N };

    ghost view = { λ t. record {
      layered = t.layered;
      clock = t.clock;
      emitter = record { target = t.target; thread_id = t.thread_id; thread_name = t.thread_name };
      spans = t.spans.items;
    } };
}

impl<C: Calls, N: Now> Tracer<C, N> {
    /// Returns a tracer without open spans. Its thread is 1 without a name, and its target is
    /// empty. The layer may already have spans.
    pub fn new(alloc: Global, layered: C, clock: N) -> Tracer<C, N>
        ensures { result ≡ record {
          layered = layered;
          clock = clock;
          emitter = record { target = []; thread_id = 1; thread_name = None };
          spans = [];
        } }
    {
        Tracer {
            layered,
            clock,
            alloc,
            target: Text::from(String::new(alloc)),
            thread_id: 1,
            thread_name: None,
            spans: Vec::new(alloc),
        }
    }

    /// Sets the target of all further spans and events.
    pub fn with_target(mut self, target: Text) -> Tracer<C, N>
        ensures { result ≡ record self { emitter = record self.emitter { target = target } } }
    {
        self.target = target;
        self
    }

    /// Sets the thread of all further calls.
    pub fn with_thread(mut self, id: u64, name: Option<Text>) -> Tracer<C, N>
        ensures { result ≡ record self {
          emitter = record self.emitter { thread_id = id; thread_name = name };
        } }
    {
        self.thread_id = id;
        self.thread_name = name;
        self
    }

    /// Returns the current span: the innermost open one.
    pub fn current(&self) -> Option<Id>
        ensures { result ≡ current_of self.now.spans }
    {
        self.spans.as_slice().last().copied()
    }

    /// Returns the number of open spans.
    pub fn depth(&self) -> usize
        ensures { result ≡ length self.now.spans }
    {
        self.spans.len()
    }

    /// Returns the receiver of the calls: the registry with its layer, or a thread's receiver over
    /// a shared one.
    pub fn layered(&self) -> &C
        ensures { result.now ≡ self.now.layered }
    {
        &self.layered
    }

    /// Returns the receiver of the calls. Open spans stay open.
    pub fn into_layered(self) -> C
        ensures { result ≡ self.layered }
    {
        self.layered
    }

    /// Opens a span with these fields in the current one, and returns its id. It becomes the
    /// current span.
    ///
    /// # Errors
    ///
    /// `NoMoment`, `Memory` or `Refused`. No span was opened then.
    pub fn open(&mut self, name: &str, fields: &[(&str, Value<'_>)]) -> Result<Id, TraceFault>
        ensures { IsOpened C.answers N.reads name.now (fields_of fields.now)
            result self.old self.new }
    {
        let moment = self.moment()?;
        let attributes = self.attributes(name, fields)?;
        let context = self.context(self.current(), moment)?;
        self.spans.reserve(1)?;
        let id = self.layered.new_span(attributes, &context)?;
        self.spans.push_reserved(id);
        Ok(id)
    }

    /// Closes the current span, and returns whether it was removed. It isn't removed while it has a
    /// live child. Either way its parent becomes the current span.
    ///
    /// # Errors
    ///
    /// `NoSpan` if no span is open. `NoMoment`, `Memory` or `Refused`: the span is still open
    /// then.
    pub fn close(&mut self) -> Result<bool, TraceFault>
        ensures { IsClosed C.answers N.reads result self.old self.new }
    {
        let Some(id) = self.current() else {
            return Err(TraceFault::NoSpan);
        };
        let moment = self.moment()?;
        let context = self.context(self.outer(), moment)?;
        let was_removed = self.layered.close(id, &context)?;
        self.spans.pop();
        Ok(was_removed)
    }

    /// Records an event with a message and these fields in the current span.
    ///
    /// # Errors
    ///
    /// `NoMoment`, `Memory` or `Refused`.
    pub fn event(
        &mut self,
        level: Level,
        message: &str,
        fields: &[(&str, Value<'_>)],
    ) -> Result<(), TraceFault>
        ensures { IsEmitted C.answers N.reads level message.now
            (fields_of fields.now) result self.old self.new }
    {
        let moment = self.moment()?;
        let event = self.new_event(level, message, fields)?;
        let context = self.context(self.current(), moment)?;
        self.layered.event(&event, &context)?;
        Ok(())
    }

    /// Records an event of level TRACE, like `event`.
    pub fn trace(&mut self, message: &str, fields: &[(&str, Value<'_>)]) -> Result<(), TraceFault>
        ensures { IsEmitted C.answers N.reads Level.Trace message.now
            (fields_of fields.now) result self.old self.new }
    {
        self.event(Level::Trace, message, fields)
    }

    /// Records an event of level DEBUG, like `event`.
    pub fn debug(&mut self, message: &str, fields: &[(&str, Value<'_>)]) -> Result<(), TraceFault>
        ensures { IsEmitted C.answers N.reads Level.Debug message.now
            (fields_of fields.now) result self.old self.new }
    {
        self.event(Level::Debug, message, fields)
    }

    /// Records an event of level INFO, like `event`.
    pub fn info(&mut self, message: &str, fields: &[(&str, Value<'_>)]) -> Result<(), TraceFault>
        ensures { IsEmitted C.answers N.reads Level.Info message.now
            (fields_of fields.now) result self.old self.new }
    {
        self.event(Level::Info, message, fields)
    }

    /// Records an event of level WARN, like `event`.
    pub fn warn(&mut self, message: &str, fields: &[(&str, Value<'_>)]) -> Result<(), TraceFault>
        ensures { IsEmitted C.answers N.reads Level.Warn message.now
            (fields_of fields.now) result self.old self.new }
    {
        self.event(Level::Warn, message, fields)
    }

    /// Records an event of level ERROR, like `event`.
    pub fn error(&mut self, message: &str, fields: &[(&str, Value<'_>)]) -> Result<(), TraceFault>
        ensures { IsEmitted C.answers N.reads Level.Error message.now
            (fields_of fields.now) result self.old self.new }
    {
        self.event(Level::Error, message, fields)
    }

    /// Appends these fields to those of the current span.
    ///
    /// # Errors
    ///
    /// `NoSpan` if no span is open. `Memory` or `Refused`.
    pub fn record(&mut self, fields: &[(&str, Value<'_>)]) -> Result<(), TraceFault>
        ensures { IsRecorded C.answers (fields_of fields.now) result self.old
            self.new }
    {
        let Some(id) = self.current() else {
            return Err(TraceFault::NoSpan);
        };
        let fields = span_fields(self.alloc, fields)?;
        self.layered.record(id, Record { fields })?;
        Ok(())
    }

    /// Closes spans, innermost first, until at most `depth` are open.
    ///
    /// # Errors
    ///
    /// Returns the fault of the first span that can't be closed. That span and its ancestors are
    /// still open.
    pub fn close_to(&mut self, depth: usize) -> Result<(), TraceFault>
        ensures { AreClosedTo C.answers N.reads depth result self.old self.new }
    {
        if self.depth() <= depth {
            return Ok(());
        }
        self.close()?;
        self.close_to(depth)
    }

    fn moment(&self) -> Result<Moment, TraceFault>
        ensures { MatchResult result (λ moment. N.reads self.now.clock (Some moment))
            (λ fault. (fault ≡ TraceFault.NoMoment) × N.reads self.now.clock None) }
    {
        self.clock.now().ok_or(TraceFault::NoMoment)
    }

    // Returns the attributes of a span that opens in the current one.
    fn attributes(&self, name: &str, fields: &[(&str, Value<'_>)]) -> Result<Attributes, AllocError>
        ensures { IfOk result (λ attributes. attributes ≡ record {
          name = name.now;
          target = self.now.emitter.target;
          parent = Parent.Current;
          fields = fields_of fields.now;
        }) }
    {
        Ok(Attributes {
            name: Text::from_str(self.alloc, name)?,
            target: self.target.clone()?,
            parent: Parent::Current,
            fields: span_fields(self.alloc, fields)?,
        })
    }

    // Returns an event in the current span.
    fn new_event(
        &self,
        level: Level,
        message: &str,
        fields: &[(&str, Value<'_>)],
    ) -> Result<Event, AllocError>
        ensures { IfOk result (λ event. event ≡ record {
          level = level;
          target = self.now.emitter.target;
          parent = Parent.Current;
          fields = message_field message.now ∷ fields_of fields.now;
        }) }
    {
        Ok(Event {
            level,
            target: self.target.clone()?,
            parent: Parent::Current,
            fields: event_fields(self.alloc, message, fields)?,
        })
    }

    // Returns the span that is the current one after the next close.
    fn outer(&self) -> Option<Id>
        ensures { result ≡ current_of (outer_of self.now.spans) }
    {
        let outer = self.spans.len().saturating_sub(1);
        self.spans.as_slice()[..outer].last().copied()
    }

    fn context(&self, current: Option<Id>, moment: Moment) -> Result<Context, AllocError>
        ensures { IfOk result (λ context. context ≡ context_in self.now.emitter current moment) }
    {
        let thread_name = match &self.thread_name {
            Some(name) => Some(name.clone()?),
            None => None,
        };
        Ok(Context {
            current,
            thread_id: self.thread_id,
            thread_name,
            moment,
        })
    }
}

impl<C: Calls, N: Now> Spans for Tracer<C, N> {
    ghost use Rattle.std.specs.Prelude.{length};
    ghost use Rattle.tracing_tree_tracer.specs.Tracers.{AreClosedTo, IsOpened};

    ghost depth_of = { λ tracer. length tracer.spans };

    ghost opens = { IsOpened C.answers N.reads };

    ghost closes_to = { AreClosedTo C.answers N.reads };

    fn depth(&self) -> usize {
        self.depth()
    }

    fn open(&mut self, name: &str, fields: &[(&str, Value<'_>)]) -> Result<Id, TraceFault> {
        self.open(name, fields)
    }

    fn close_to(&mut self, depth: usize) -> Result<(), TraceFault> {
        self.close_to(depth)
    }
}
