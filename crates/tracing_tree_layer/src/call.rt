//! Calls and their replies.

ghost use Rattle.std.specs.Prelude.{◌≡◌, IfOk};

use std::alloc::AllocError;
use tracing_tree_base::{Context, Id};
use tracing_tree_spans::registry::{Attributes, Event, Record};

/// A call on a registry with a layer.
#[derive(Debug, Drop, PartialEq, Eq)]
pub enum Call {
    /// Makes a span.
    New(Attributes, Context),

    /// Adds a handle to a live span.
    Clone(Id),

    /// Appends fields to those of a span. An id that isn't live is accepted, and nothing happens.
    Record(Id, Record),

    /// Records an event.
    Event(Event, Context),

    /// Drops a handle of a span.
    Close(Id, Context),
}

impl Call {
    /// Returns a copy of the call.
    ///
    /// # Errors
    ///
    /// `AllocError` if an allocation fails.
    pub fn copied(&self) -> Result<Call, AllocError>
        ensures { IfOk result (λ copy. copy ≡ self.now) }
    {
        Ok(match self {
            Call::New(attributes, context) => Call::New(
                Attributes {
                    name: attributes.name.clone()?,
                    target: attributes.target.clone()?,
                    parent: attributes.parent,
                    fields: attributes.fields.clone()?,
                },
                copied_context(context)?,
            ),
            Call::Clone(id) => Call::Clone(*id),
            Call::Record(id, record) => Call::Record(
                *id,
                Record {
                    fields: record.fields.clone()?,
                },
            ),
            Call::Event(event, context) => Call::Event(
                Event {
                    level: event.level,
                    target: event.target.clone()?,
                    parent: event.parent,
                    fields: event.fields.clone()?,
                },
                copied_context(context)?,
            ),
            Call::Close(id, context) => Call::Close(*id, copied_context(context)?),
        })
    }
}

/// Returns a copy of a call's context.
///
/// # Errors
///
/// `AllocError` if an allocation fails.
pub fn copied_context(context: &Context) -> Result<Context, AllocError>
    ensures { IfOk result (λ copy. copy ≡ context.now) }
{
    let thread_name = match &context.thread_name {
        Some(name) => Some(name.clone()?),
        None => None,
    };
    Ok(Context {
        current: context.current,
        thread_id: context.thread_id,
        thread_name,
        moment: context.moment,
    })
}

/// The answer to an accepted call.
#[derive(Clone, Copy, Debug, PartialEq, Eq)]
pub enum Reply {
    /// The new span.
    Span(Id),

    /// The span whose handle was cloned.
    Cloned(Id),

    /// A record or an event was accepted.
    Done,

    /// Whether the span was removed.
    Closed(bool),
}
