//! A receiver that leaves out events below a level.

ghost use Rattle.std.specs.Prelude.{◌≡◌};

use crate::level::{is_shown, rank};
use std::marker::Model;
use tracing_tree_base::style::Level;
use tracing_tree_base::{Context, Id, Refusal};
use tracing_tree_layer::call::{Call, Reply};
use tracing_tree_layer::calls::Calls;
use tracing_tree_layer::parts::EventParts;
use tracing_tree_spans::registry::{Attributes, Record};

/// A receiver that drops events below a level: such an event is accepted, and nothing happens. All
/// other calls go to the inner receiver.
#[derive(Drop)]
pub struct CallsAtLeast<C> {
    receiver: C,
    min_level: Level,
}

impl<C> Model for CallsAtLeast<C> {
    ghost use Rattle.ttree_source.specs.LeveledCalls.{LeveledCalls};

    ghost Value = { LeveledCalls C };

    ghost view = { λ l. record { receiver = l.receiver; min_level = l.min_level } };
}

impl<C> CallsAtLeast<C> {
    /// Returns a receiver that drops the events below this level.
    pub fn new(receiver: C, min_level: Level) -> CallsAtLeast<C>
        ensures { result ≡ record { receiver = receiver; min_level = min_level } }
    {
        CallsAtLeast {
            receiver,
            min_level,
        }
    }

    /// Returns the receiver.
    pub fn into_receiver(self) -> C
        ensures { result ≡ self.receiver }
    {
        self.receiver
    }
}

impl<C: Calls> Calls for CallsAtLeast<C> {
    ghost use Rattle.ttree_source.specs.LeveledCalls.{leveled_answers, leveled_flushes};

    ghost answers = { leveled_answers C.answers };

    ghost flushes = { leveled_flushes C.flushes };

    fn call(&mut self, call: Call) -> Result<Reply, Refusal> {
        if is_shown(self.min_level, &call) {
            self.receiver.call(call)
        } else {
            drop(call);
            Ok(Reply::Done)
        }
    }

    fn new_span(&mut self, attributes: Attributes, context: &Context) -> Result<Id, Refusal> {
        self.receiver.new_span(attributes, context)
    }

    fn clone_span(&mut self, id: Id) -> Result<Id, Refusal> {
        self.receiver.clone_span(id)
    }

    fn record(&mut self, id: Id, values: Record) -> Result<(), Refusal> {
        self.receiver.record(id, values)
    }

    fn event<E: EventParts>(&mut self, event: &E, context: &Context) -> Result<(), Refusal> {
        if rank(self.min_level) <= rank(event.level()) {
            self.receiver.event(event, context)
        } else {
            Ok(())
        }
    }

    fn close(&mut self, id: Id, context: &Context) -> Result<bool, Refusal> {
        self.receiver.close(id, context)
    }

    fn flush(&mut self) {
        self.receiver.flush();
    }
}
