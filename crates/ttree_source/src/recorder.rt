//! A list of calls.

ghost use Rattle.std.specs.Prelude.{◌≡◌, []};
ghost use Rattle.ttree_source.specs.Recorder.{recorded_reply};

use std::alloc::Global;
use std::marker::Model;
use tracing_tree_base::{Context, Id, Refusal};
use tracing_tree_layer::call::{Call, Reply, copied_context};
use tracing_tree_layer::calls::Calls;
use tracing_tree_layer::parts::EventParts;
use tracing_tree_spans::registry::{Attributes, Record};

/// A receiver that accepts all calls and keeps them in a list. A span's id is the number of the
/// calls before it.
#[derive(Drop)]
pub struct Recorder {
    alloc: Global,
    calls: Vec<Call>,
}

impl Model for Recorder {
    ghost use Rattle.std.specs.Prelude.{List};
    ghost use Rattle.tracing_tree_layer.specs.declared.call.Call.{Call};

    ghost Value = { List Call };

    ghost view = { λ r. r.calls.items };
}

impl Recorder {
    /// Returns an empty list.
    pub fn new(alloc: Global) -> Recorder
        ensures { result ≡ [] }
    {
        Recorder {
            alloc,
            calls: Vec::new(alloc),
        }
    }

    /// Returns the calls in their order.
    pub fn into_calls(self) -> Vec<Call>
        ensures { result.items ≡ self }
    {
        self.calls
    }

    // Returns the reply to a call.
    fn reply_to(&self, call: &Call) -> Reply
        ensures { result ≡ recorded_reply call.now self.now }
    {
        match call {
            Call::New(_, _) => Reply::Span(Id(self.calls.len() as u64)),
            Call::Clone(id) => Reply::Cloned(*id),
            Call::Record(_, _) | Call::Event(_, _) => Reply::Done,
            Call::Close(_, _) => Reply::Closed(true),
        }
    }
}

/// A call is refused only if an allocation fails. Nothing has changed then.
impl Calls for Recorder {
    ghost use Rattle.ttree_source.specs.Recorder.{IsRecorded};

    ghost answers = { IsRecorded };

    fn call(&mut self, call: Call) -> Result<Reply, Refusal> {
        let reply = self.reply_to(&call);
        self.calls.push(call)?;
        Ok(reply)
    }

    fn new_span(&mut self, attributes: Attributes, context: &Context) -> Result<Id, Refusal> {
        let id = Id(self.calls.len() as u64);
        let context = copied_context(context)?;
        self.calls.push(Call::New(attributes, context))?;
        Ok(id)
    }

    fn clone_span(&mut self, id: Id) -> Result<Id, Refusal> {
        self.calls.push(Call::Clone(id))?;
        Ok(id)
    }

    fn record(&mut self, id: Id, values: Record) -> Result<(), Refusal> {
        self.calls.push(Call::Record(id, values))?;
        Ok(())
    }

    fn event<E: EventParts>(&mut self, event: &E, context: &Context) -> Result<(), Refusal> {
        let event = event.to_event(self.alloc)?;
        let context = copied_context(context)?;
        self.calls.push(Call::Event(event, context))?;
        Ok(())
    }

    fn close(&mut self, id: Id, context: &Context) -> Result<bool, Refusal> {
        let context = copied_context(context)?;
        self.calls.push(Call::Close(id, context))?;
        Ok(true)
    }

    fn flush(&mut self) {}
}
