//! Records what a worker does.

use jiff::Timestamp;
use std::alloc::{AllocError, Global};
use std::sync::Wait;
use tracing_tree::call::{Call, Reply};
use tracing_tree::field::{Field, Fields};
use tracing_tree::format::{Context, Id, Output, Refusal};
use tracing_tree::registry::{Attributes, Event, Parent};
use tracing_tree::style::Level;
use tracing_tree::text::Text;
use tracing_tree::time::Moment;
use tracing_tree_shared::StreamingLayer;

/// The results of the orders, and how many events were recorded for them.
#[derive(Clone, Copy, Default)]
pub struct Done {
    pub shipped: u64,
    pub refused: u64,
    pub events: u64,
}

/// A worker's way to the layer of all workers, and what it has done.
#[derive(Drop)]
pub struct Journal<'a, R: Wait, W: Output> {
    pub rt: &'a R,
    pub layer: &'a StreamingLayer<W, ()>,
    pub alloc: Global,
    pub worker: u64,
    pub done: Done,
}

impl<R: Wait, W: Output> Journal<'_, R, W> {
    /// Opens a span with these numbers below another.
    pub fn open(
        &self,
        name: &str,
        numbers: &[(&str, u64)],
        below: Option<Id>,
    ) -> Result<Id, Refusal> {
        let attributes = Attributes {
            name: Text::from_str(self.alloc, name)?,
            target: Text::from_str(self.alloc, "jobs")?,
            parent: Parent::Current,
            fields: Fields::from(fields(self.alloc, None, numbers)?),
        };
        match self.submit(Call::New(attributes, self.context(below)))? {
            Reply::Span(id) => Ok(id),
            _ => Err(Refusal::Failed),
        }
    }

    /// Records an event in a span, with these numbers.
    pub fn event(
        &mut self,
        level: Level,
        message: &str,
        numbers: &[(&str, u64)],
        span: Id,
    ) -> Result<(), Refusal> {
        let event = Event {
            level,
            target: Text::from_str(self.alloc, "jobs")?,
            parent: Parent::Current,
            fields: Fields::from(fields(self.alloc, Some(message), numbers)?),
        };
        self.submit(Call::Event(event, self.context(Some(span))))?;
        self.done.events = self.done.events.saturating_add(1);
        Ok(())
    }

    /// Closes a span.
    pub fn close(&self, span: Id) -> Result<(), Refusal> {
        self.submit(Call::Close(span, self.context(None)))?;
        Ok(())
    }

    // Submits a call. An event is drawn by its thread before it waits for the layer.
    fn submit(&self, call: Call) -> Result<Reply, Refusal> {
        let draft = self.layer.draft(self.alloc, call)?;
        match self.layer.submit(self.rt, draft) {
            Ok(numbered) => Ok(numbered.reply),
            Err(refused) => Err(refused.cause),
        }
    }

    // Returns the context of a call. The layer doesn't show times, so each moment is the same.
    fn context(&self, current: Option<Id>) -> Context {
        Context {
            current,
            thread_id: self.worker,
            thread_name: None,
            moment: Moment {
                mono: 0,
                wall: Timestamp::UNIX_EPOCH,
            },
        }
    }
}

// Returns a message, if there is one, and numbers.
fn fields(
    alloc: Global,
    message: Option<&str>,
    numbers: &[(&str, u64)],
) -> Result<Vec<Field>, AllocError> {
    let mut fields = Vec::new(alloc);
    if let Some(message) = message {
        fields.push(Field::rendered(alloc, "message", message)?)?;
    }
    for (name, number) in numbers {
        fields.push(Field::whole(alloc, name, i128::from(*number))?)?;
    }
    Ok(fields)
}
