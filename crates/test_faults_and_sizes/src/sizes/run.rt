//! Calls, and what they must draw.

use std::alloc::{AllocError, Global};
use test_support::at;
use tracing_tree::call::Call;
use tracing_tree::field::{Field, Fields};
use tracing_tree::registry::{Attributes, Event, Parent};
use tracing_tree::style::Level;
use tracing_tree::text::Text;

/// Calls, and what they are to draw with lines, an amount of 2, `span_retrace` and `close_retrace`.
#[derive(Drop)]
pub struct Run {
    pub alloc: Global,
    pub calls: Vec<Call>,
    pub wanted: String,
}

impl Run {
    pub fn new(alloc: Global) -> Run {
        Run {
            alloc,
            calls: Vec::new(alloc),
            wanted: String::new(alloc),
        }
    }

    /// A call that is to draw nothing.
    pub fn call(&mut self, call: Call) -> Result<(), AllocError> {
        self.calls.push(call)?;
        Ok(())
    }

    /// A new span `n` below the current one, drawn at this level.
    pub fn open(&mut self, current: Option<u64>, level: u64) -> Result<(), AllocError> {
        self.calls.push(span(self.alloc, "n", 0, current)?)?;
        self.show(level)
    }

    /// An event `x` in the current span, drawn at this level.
    pub fn emit(&mut self, current: Option<u64>, level: u64) -> Result<(), AllocError> {
        self.calls.push(event(self.alloc, "x", 0, current)?)?;
        if level == 0 {
            return self.draw(0, "INFO x\n");
        }
        self.draw(level.wrapping_sub(1), "├─ INFO x\n")
    }

    /// A row that shows a span at this level.
    pub fn show(&mut self, level: u64) -> Result<(), AllocError> {
        if level == 0 {
            return self.draw(0, "┐n \n");
        }
        self.draw(level.wrapping_sub(1), "└─┐n \n")
    }

    /// The close of a span at this level.
    pub fn end(&mut self, level: u64) -> Result<(), AllocError> {
        if level == 0 {
            return self.draw(0, "┘\n");
        }
        self.draw(level.wrapping_sub(1), "┌─┘\n")
    }

    /// A row after the spaces of `levels` levels.
    pub fn draw(&mut self, levels: u64, row: &str) -> Result<(), AllocError> {
        for _ in 0..levels {
            self.wanted.push_str("  ")?;
        }
        self.wanted.push_str(row)
    }
}

/// Returns a new span with this name and `fields` fields.
pub fn span(
    alloc: Global,
    name: &str,
    fields: u64,
    current: Option<u64>,
) -> Result<Call, AllocError> {
    let attributes = Attributes {
        name: Text::from_str(alloc, name)?,
        target: Text::from_str(alloc, "")?,
        parent: Parent::Current,
        fields: Fields::from(numbered(alloc, fields)?),
    };
    Ok(Call::New(attributes, at(current)))
}

/// Returns an event with this message and `fields` fields.
pub fn event(
    alloc: Global,
    message: &str,
    fields: u64,
    current: Option<u64>,
) -> Result<Call, AllocError> {
    let mut list = numbered(alloc, fields)?;
    list.push(Field::rendered(alloc, "message", message)?)?;
    let event = Event {
        level: Level::Info,
        target: Text::from_str(alloc, "")?,
        parent: Parent::Current,
        fields: Fields::from(list),
    };
    Ok(Call::Event(event, at(current)))
}

/// Returns `count` fields `k=v`.
pub fn numbered(alloc: Global, count: u64) -> Result<Vec<Field>, AllocError> {
    let mut fields = Vec::new(alloc);
    for _ in 0..count {
        fields.push(Field::rendered(alloc, "k", "v")?)?;
    }
    Ok(fields)
}

/// Returns how they are shown, with commas between them.
pub fn shown(alloc: Global, count: u64) -> Result<String, AllocError> {
    let mut text = String::new(alloc);
    for place in 0..count {
        if place > 0 {
            text.push_str(", ")?;
        }
        text.push_str("k=v")?;
    }
    Ok(text)
}
