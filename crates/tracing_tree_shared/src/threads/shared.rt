//! A thread's receiver over a layer with the history of all threads.

ghost use Rattle.std.specs.Prelude.{◌≡◌};
ghost use Rattle.tracing_tree_shared.specs.Books.{answer_given};

use crate::draft::Refused;
use crate::pass::{Pass, SharedLayer};
use std::alloc::Global;
use std::marker::Model;
use std::sync::Wait;
use std::sync::ledger::Ledger;
use tracing_tree_base::{Context, Id, Refusal};
use tracing_tree_layer::call::{Call, Reply, copied_context};
use tracing_tree_layer::calls::Calls;
use tracing_tree_layer::parts::EventParts;
use tracing_tree_spans::registry::{Attributes, Record};
use tracing_tree_time::FormatTime;

/// A receiver of one thread's calls over a [`SharedLayer`], with the thread's pass. It drafts each
/// call before it waits for the lock. The pass gains the receipt of each accepted call.
#[derive(Drop)]
pub struct SharedCalls<'a, R, FT: FormatTime, L: Ledger> {
    rt: &'a R,
    alloc: Global,
    layer: &'a SharedLayer<FT, L>,
    pass: Pass<L>,
}

impl<'a, R, FT: FormatTime, L: Ledger> Model for SharedCalls<'a, R, FT, L> {
    ghost use Rattle.tracing_tree_shared.specs.Threads.{SharedCallsView};

    ghost Value = { SharedCallsView };

    ghost view = { λ c. record { layer = c.layer.now; receipts = c.pass } };
}

impl<'a, R, FT: FormatTime, L: Ledger> SharedCalls<'a, R, FT, L> {
    /// Returns the receiver of the thread that has this pass.
    pub fn new(
        rt: &'a R,
        alloc: Global,
        layer: &'a SharedLayer<FT, L>,
        pass: Pass<L>,
    ) -> SharedCalls<'a, R, FT, L>
        ensures { result ≡ record { layer = layer.now; receipts = pass } }
    {
        SharedCalls {
            rt,
            alloc,
            layer,
            pass,
        }
    }

    /// Returns the thread's pass.
    pub fn pass(&self) -> &Pass<L>
        ensures { result.now ≡ self.now.receipts }
    {
        &self.pass
    }

    /// Returns the thread's pass, for `SharedLayer::finish`.
    pub fn into_pass(self) -> Pass<L>
        ensures { result ≡ self.entry.receipts }
    {
        self.pass
    }
}

/// If the layer refuses a call, the answer is the cause, and the draft is dropped.
impl<'a, R: Wait, FT: FormatTime + Drop, L: Ledger> Calls for SharedCalls<'a, R, FT, L> {
    ghost use Rattle.tracing_tree_shared.specs.Threads.{IsAnsweredShared};

    ghost answers = { IsAnsweredShared FT.FormatTime };

    fn call(&mut self, call: Call) -> Result<Reply, Refusal> {
        let draft = self.layer.draft(self.alloc, call)?;
        answer(self.layer.submit(self.rt, &mut self.pass, draft))
    }

    fn new_span(&mut self, attributes: Attributes, context: &Context) -> Result<Id, Refusal> {
        let context = copied_context(context)?;
        let Reply::Span(id) = self.call(Call::New(attributes, context))? else {
            unreachable!()
        };
        Ok(id)
    }

    fn clone_span(&mut self, id: Id) -> Result<Id, Refusal> {
        let Reply::Cloned(id) = self.call(Call::Clone(id))? else {
            unreachable!()
        };
        Ok(id)
    }

    fn record(&mut self, id: Id, values: Record) -> Result<(), Refusal> {
        let Reply::Done = self.call(Call::Record(id, values))? else {
            unreachable!()
        };
        Ok(())
    }

    fn event<E: EventParts>(&mut self, event: &E, context: &Context) -> Result<(), Refusal> {
        let event = event.to_event(self.alloc)?;
        let context = copied_context(context)?;
        let Reply::Done = self.call(Call::Event(event, context))? else {
            unreachable!()
        };
        Ok(())
    }

    fn close(&mut self, id: Id, context: &Context) -> Result<bool, Refusal> {
        let context = copied_context(context)?;
        let Reply::Closed(was_removed) = self.call(Call::Close(id, context))? else {
            unreachable!()
        };
        Ok(was_removed)
    }

    // A tape has no buffer to flush.
    fn flush(&mut self) {}
}

// Returns the reply, or the cause of the refusal.
fn answer(given: Result<Reply, Refused>) -> Result<Reply, Refusal>
    ensures { result ≡ answer_given given }
{
    match given {
        Ok(reply) => Ok(reply),
        Err(refused) => Err(refused.cause),
    }
}
