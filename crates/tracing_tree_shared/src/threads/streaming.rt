//! A thread's receiver over a layer without a history.

ghost use Rattle.std.specs.Prelude.{◌≡◌};
ghost use Rattle.tracing_tree_shared.specs.Streamed.{answer_numbered};

use crate::draft::Refused;
use crate::streaming::{Numbered, StreamingLayer};
use std::alloc::Global;
use std::marker::Model;
use std::sync::Wait;
use tracing_tree_base::{Context, Id, Refusal};
use tracing_tree_layer::call::{Call, Reply, copied_context};
use tracing_tree_layer::calls::Calls;
use tracing_tree_layer::parts::EventParts;
use tracing_tree_output::Output;
use tracing_tree_spans::registry::{Attributes, Record};
use tracing_tree_time::FormatTime;

/// A receiver of one thread's calls over a [`StreamingLayer`]. It drafts each call before it waits
/// for the lock.
#[derive(Drop)]
pub struct StreamingCalls<'a, R, W: Output, FT: FormatTime> {
    rt: &'a R,
    alloc: Global,
    layer: &'a StreamingLayer<W, FT>,
}

impl<'a, R, W: Output, FT: FormatTime> Model for StreamingCalls<'a, R, W, FT> {
    ghost use Rattle.tracing_tree_shared.specs.Streamed.{StreamingView};

    ghost Value = { StreamingView };

    ghost view = { λ c. c.layer.now };
}

impl<'a, R, W: Output, FT: FormatTime> StreamingCalls<'a, R, W, FT> {
    /// Returns a receiver over this layer.
    pub fn new(
        rt: &'a R,
        alloc: Global,
        layer: &'a StreamingLayer<W, FT>,
    ) -> StreamingCalls<'a, R, W, FT>
        ensures { result ≡ layer.now }
    {
        StreamingCalls { rt, alloc, layer }
    }
}

/// If the layer refuses a call, the answer is the cause, and the draft is dropped. The number of an
/// accepted call isn't returned.
impl<'a, R: Wait, W: Output, FT: FormatTime> Calls for StreamingCalls<'a, R, W, FT> {
    ghost use Rattle.tracing_tree_shared.specs.Threads.{IsAnsweredStreaming};

    ghost answers = { IsAnsweredStreaming FT.FormatTime W.Output };

    fn call(&mut self, call: Call) -> Result<Reply, Refusal> {
        let draft = self.layer.draft(self.alloc, call)?;
        answer(self.layer.submit(self.rt, draft))
    }

    fn new_span(&mut self, attributes: Attributes, context: &Context) -> Result<Id, Refusal> {
        let context = copied_context(context)?;
        let Reply::Span(id) = self.call(Call::New(attributes, context))? else {
            unreachable!()
        };
        Ok(id)
    }

    fn clone_span(&mut self, id: Id) -> Result<Id, Refusal> {
        let Reply::Cloned(id) = self.call(Call::Clone(id))? else {
            unreachable!()
        };
        Ok(id)
    }

    fn record(&mut self, id: Id, values: Record) -> Result<(), Refusal> {
        let Reply::Done = self.call(Call::Record(id, values))? else {
            unreachable!()
        };
        Ok(())
    }

    fn event<E: EventParts>(&mut self, event: &E, context: &Context) -> Result<(), Refusal> {
        let event = event.to_event(self.alloc)?;
        let context = copied_context(context)?;
        let Reply::Done = self.call(Call::Event(event, context))? else {
            unreachable!()
        };
        Ok(())
    }

    fn close(&mut self, id: Id, context: &Context) -> Result<bool, Refusal> {
        let context = copied_context(context)?;
        let Reply::Closed(was_removed) = self.call(Call::Close(id, context))? else {
            unreachable!()
        };
        Ok(was_removed)
    }

    fn flush(&mut self) {
        self.layer.flush(self.rt);
    }
}

// Returns the reply, or the cause of the refusal.
fn answer(given: Result<Numbered, Refused>) -> Result<Reply, Refusal>
    ensures { result ≡ answer_numbered given }
{
    match given {
        Ok(numbered) => Ok(numbered.reply),
        Err(refused) => Err(refused.cause),
    }
}
