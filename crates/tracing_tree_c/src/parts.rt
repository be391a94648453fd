//! Calls that were read from C's values. Each is made from its parts.

ghost use Rattle.tracing_tree_c.specs.Parts.{call_of_close, call_of_event, call_of_new};

use crate::foreign::EventTexts;
use tracing_tree_base::{Context, Id, Refusal};
use tracing_tree_layer::call::{Call, Reply};
use tracing_tree_layer::calls::Calls;
use tracing_tree_spans::registry::Attributes;

/// A call that was read.
pub trait ReadCall {
    ghost use Rattle.std.specs.Prelude.{◌≡◌};
    ghost use Rattle.tracing_tree_layer.specs.declared.call.Call.{Call};

    /// The call that its parts encode.
    ghost call: { Self → Call };

    /// Makes the call.
    fn make<C: Calls>(self, calls: &mut C) -> Result<Reply, Refusal>
        ensures { C.answers (call self) result calls.old calls.new };
}

impl ReadCall for Call {
    ghost call = { λ call. call };

    fn make<C: Calls>(self, calls: &mut C) -> Result<Reply, Refusal> {
        calls.call(self)
    }
}

/// A new span.
#[derive(Drop)]
pub struct NewSpan {
    pub attributes: Attributes,
    pub context: Context,
}

impl ReadCall for NewSpan {
    ghost call = { call_of_new };

    #[inline(always)]
    fn make<C: Calls>(self, calls: &mut C) -> Result<Reply, Refusal> {
        let NewSpan {
            attributes,
            context,
        } = self;
        Ok(Reply::Span(calls.new_span(attributes, &context)?))
    }
}

/// An event whose strings stay in C's memory.
#[derive(Drop)]
pub struct LentEvent<'a> {
    pub event: EventTexts<'a>,
    pub context: Context,
}

impl ReadCall for LentEvent<'_> {
    ghost call = { call_of_event };

    #[inline(always)]
    fn make<C: Calls>(self, calls: &mut C) -> Result<Reply, Refusal> {
        calls.event(&self.event, &self.context)?;
        Ok(Reply::Done)
    }
}

/// A close.
#[derive(Drop)]
pub struct Close {
    pub id: Id,
    pub context: Context,
}

impl ReadCall for Close {
    ghost call = { call_of_close };

    #[inline(always)]
    fn make<C: Calls>(self, calls: &mut C) -> Result<Reply, Refusal> {
        Ok(Reply::Closed(calls.close(self.id, &self.context)?))
    }
}
