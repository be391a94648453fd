//! Receivers of calls.

use crate::call::{Call, Reply};
use crate::layered::Layered;
use crate::parts::EventParts;
use tracing_tree_base::{Context, Id, Refusal};
use tracing_tree_output::Output;
use tracing_tree_spans::registry::{Attributes, Record};
use tracing_tree_time::FormatTime;

/// A receiver of calls, which answers each of them: a [`Layered`], a thread's receiver over a
/// shared layer, a counter, or an adapter of another receiver.
///
/// Code that makes calls knows only this trait. It makes a call from its parts if it has them, so
/// no whole [`Call`] is built: the strings of an event aren't copied.
pub trait Calls {
    ghost use Rattle.std.specs.Prelude.{IfOk, Result, ◌≡◌};
    ghost use Rattle.tracing_tree_base.specs.declared.context.Refusal.{Refusal};
    ghost use Rattle.tracing_tree_layer.specs.declared.call.Call.{Call};
    ghost use Rattle.tracing_tree_layer.specs.declared.call.Reply.{Reply};
    ghost use Rattle.tracing_tree_layer.specs.Replies.{IsReplyTo, answer_as, cloned, closed, done, span};

    /// The answers that a call may get, and the effect of each.
    ghost answers: { Call → Result Reply Refusal → Self → Self → Type 0 };

    /// The effect of a flush.
    ghost flushes: { Self → Self → Type 0 } = { λ old new. new ≡ old };

    /// Makes a call. The reply to an accepted one is of the call's kind.
    ///
    /// # Errors
    ///
    /// The refusals of the receiver, for each of these methods: those of a [`Layered`] are at
    /// [`Layered::call`].
    fn call(&mut self, call: Call) -> Result<Reply, Refusal>
        ensures answered { answers call result self.old self.new }
        ensures kind { IfOk result (λ reply. IsReplyTo call reply) };

    /// Makes a span. Returns its id.
    fn new_span(&mut self, attributes: Attributes, context: &Context) -> Result<Id, Refusal>
        ensures { answers (Call.New attributes context.now) (answer_as span result)
            self.old self.new };

    /// Adds a handle to a span. Returns the span's id.
    fn clone_span(&mut self, id: Id) -> Result<Id, Refusal>
        ensures { answers (Call.Clone id) (answer_as cloned result) self.old self.new };

    /// Appends these fields to those of the span.
    fn record(&mut self, id: Id, values: Record) -> Result<(), Refusal>
        ensures { answers (Call.Record id values) (answer_as done result) self.old self.new };

    /// Records an event, without a copy of its strings.
    fn event<E: EventParts>(&mut self, event: &E, context: &Context) -> Result<(), Refusal>
        ensures { answers (Call.Event (E.whole event.now) context.now) (answer_as done result)
            self.old self.new };

    /// Drops a handle of a span. Returns whether the span was removed.
    fn close(&mut self, id: Id, context: &Context) -> Result<bool, Refusal>
        ensures { answers (Call.Close id context.now) (answer_as closed result)
            self.old self.new };

    /// Flushes the receiver. Does nothing if its buffer is empty.
    fn flush(&mut self)
        ensures { flushes self.old self.new };
}

/// A registry with a layer answers as [`Layered::call`] does.
impl<W: Output, FT: FormatTime> Calls for Layered<W, FT> {
    ghost use Rattle.tracing_tree_layer.specs.Layered.Answered.{IsAnswered};
    ghost use Rattle.tracing_tree_layer.specs.Layer.Layers.{Changes, Flushes, seen};
    ghost use Rattle.tracing_tree_output.specs.Writers.{IsShown};

    ghost answers = { λ call answer old new.
        Changes (seen FT.FormatTime W.Output) (IsAnswered call answer) old new };

    ghost flushes = { λ old new. Changes (seen FT.FormatTime W.Output) Flushes old new
        × IsShown W.Output new.layer.writer };

    fn call(&mut self, call: Call) -> Result<Reply, Refusal> {
        self.call(call)
    }

    #[inline(always)]
    fn new_span(&mut self, attributes: Attributes, context: &Context) -> Result<Id, Refusal> {
        if self.layer().failed() {
            drop(attributes);
            return Err(Refusal::Failed);
        }
        self.add_span(attributes, context)
    }

    fn clone_span(&mut self, id: Id) -> Result<Id, Refusal> {
        if self.layer().failed() {
            return Err(Refusal::Failed);
        }
        self.add_handle(id)
    }

    fn record(&mut self, id: Id, values: Record) -> Result<(), Refusal> {
        if self.layer().failed() {
            drop(values);
            return Err(Refusal::Failed);
        }
        self.add_fields(id, values.fields)
    }

    fn event<E: EventParts>(&mut self, event: &E, context: &Context) -> Result<(), Refusal> {
        if self.layer().failed() {
            return Err(Refusal::Failed);
        }
        self.draw_event(event, context, None)
    }

    fn close(&mut self, id: Id, context: &Context) -> Result<bool, Refusal> {
        if self.layer().failed() {
            return Err(Refusal::Failed);
        }
        self.close_handle(id, context)
    }

    fn flush(&mut self) {
        self.flush();
    }
}

/// A borrowed receiver answers like the receiver itself.
impl<C: Calls> Calls for &mut C {
    ghost answers = { λ call answer old new. C.answers call answer old.now new.now };

    ghost flushes = { λ old new. C.flushes old.now new.now };

    fn call(&mut self, call: Call) -> Result<Reply, Refusal> {
        (**self).call(call)
    }

    fn new_span(&mut self, attributes: Attributes, context: &Context) -> Result<Id, Refusal> {
        (**self).new_span(attributes, context)
    }

    fn clone_span(&mut self, id: Id) -> Result<Id, Refusal> {
        (**self).clone_span(id)
    }

    fn record(&mut self, id: Id, values: Record) -> Result<(), Refusal> {
        (**self).record(id, values)
    }

    fn event<E: EventParts>(&mut self, event: &E, context: &Context) -> Result<(), Refusal> {
        (**self).event(event, context)
    }

    fn close(&mut self, id: Id, context: &Context) -> Result<bool, Refusal> {
        (**self).close(id, context)
    }

    fn flush(&mut self) {
        (**self).flush();
    }
}
