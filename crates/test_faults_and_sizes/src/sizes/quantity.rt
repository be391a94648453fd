//! Runs that give one quantity a given size.

use crate::sizes::run::{Run, event, numbered, shown, span};
use std::alloc::{AllocError, Global};
use test_support::closed;
use tracing_tree::call::Call;
use tracing_tree::field::Fields;
use tracing_tree::format::Id;
use tracing_tree::registry::Record;

/// What is counted in a run.
#[derive(Clone, Copy, PartialEq, Eq, Debug)]
pub enum Quantity {
    /// Spans, each in the one before it. They close from the last on.
    Depth,

    /// Like `Depth`, but they close together with the last.
    AtOnce,

    /// Roots that live at once.
    Roots,

    /// Children of one span, which keep it alive.
    Children,

    /// Spans in each of two branches, with events in turn.
    Branches,

    /// Fields of a span and of an event.
    Fields,

    /// Fields that are recorded onto a span one by one, and then all at once.
    Recorded,

    /// Bytes of a name, a message and a value.
    Bytes,

    /// Lines of a message.
    Lines,

    /// Handles of a span.
    Handles,

    /// Events.
    Events,
}

impl Quantity {
    /// Returns a run of this size.
    pub fn run(self, alloc: Global, size: u64) -> Result<Run, AllocError> {
        let mut run = Run::new(alloc);
        self.fill(&mut run, size)?;
        Ok(run)
    }

    fn fill(self, run: &mut Run, size: u64) -> Result<(), AllocError> {
        match self {
            Quantity::Depth => depth(run, size),
            Quantity::AtOnce => at_once(run, size),
            Quantity::Roots => roots(run, size),
            Quantity::Children => children(run, size),
            Quantity::Branches => branches(run, size),
            Quantity::Fields => fields(run, size),
            Quantity::Recorded => recorded(run, size),
            Quantity::Bytes => bytes(run, size),
            Quantity::Lines => lines(run, size),
            Quantity::Handles => handles(run, size),
            Quantity::Events => events(run, size),
        }
    }
}

// Opens `size` spans. The first has this id and this parent, and each further one is nested in the
// one before it.
fn chain(
    run: &mut Run,
    size: u64,
    first: u64,
    parent: Option<u64>,
    level: u64,
) -> Result<(), AllocError> {
    let mut current = parent;
    for place in 0..size {
        run.open(current, level.wrapping_add(place))?;
        current = Some(first.wrapping_add(place));
    }
    Ok(())
}

// The closes of these spans, the last of them first, the first one at this level.
fn unwind(run: &mut Run, size: u64, first: u64, level: u64) -> Result<(), AllocError> {
    for place in (0..size).rev() {
        run.call(closed(first.wrapping_add(place)))?;
        run.end(level.wrapping_add(place))?;
    }
    Ok(())
}

// Returns the span of this number, if there is one.
fn numbered_span(number: u64) -> Option<u64> {
    if number == 0 { None } else { Some(number) }
}

fn depth(run: &mut Run, size: u64) -> Result<(), AllocError> {
    chain(run, size, 1, None, 0)?;
    run.emit(numbered_span(size), size)?;
    unwind(run, size, 1, 0)
}

fn at_once(run: &mut Run, size: u64) -> Result<(), AllocError> {
    chain(run, size, 1, None, 0)?;
    run.emit(numbered_span(size), size)?;
    for id in 1..=size {
        run.call(closed(id))?;
    }
    for level in (0..size).rev() {
        run.end(level)?;
    }
    Ok(())
}

// Only the first is shown again, since the drawing was at the last.
fn roots(run: &mut Run, size: u64) -> Result<(), AllocError> {
    for _ in 0..size {
        run.open(None, 0)?;
    }
    if size > 1 {
        run.show(0)?;
    }
    run.emit(numbered_span(size.min(1)), size.min(1))?;
    for id in 1..=size {
        run.call(closed(id))?;
        run.end(0)?;
    }
    Ok(())
}

fn children(run: &mut Run, size: u64) -> Result<(), AllocError> {
    run.open(None, 0)?;
    for _ in 0..size {
        run.open(Some(1), 1)?;
    }
    run.call(closed(1))?;
    for child in 0..size {
        run.call(closed(child.wrapping_add(2)))?;
        run.end(1)?;
    }
    run.end(0)
}

// The spans of a branch, shown again.
fn shows(run: &mut Run, size: u64) -> Result<(), AllocError> {
    for level in 1..=size {
        run.show(level)?;
    }
    Ok(())
}

fn branches(run: &mut Run, size: u64) -> Result<(), AllocError> {
    run.open(None, 0)?;
    let second = size.wrapping_add(2);
    chain(run, size, 2, Some(1), 1)?;
    chain(run, size, second, Some(1), 1)?;
    let level = size.wrapping_add(1);
    for leaf in [level, size.wrapping_add(level), level] {
        shows(run, size)?;
        run.emit(Some(leaf), level)?;
    }
    unwind_branch(run, size, second)?;
    unwind_branch(run, size, 2)?;
    unwind(run, 1, 1, 0)
}

// Closes a branch that isn't the current one. It is shown again if the parent of the last span
// shown is in it.
fn unwind_branch(run: &mut Run, size: u64, first: u64) -> Result<(), AllocError> {
    if size > 1 {
        shows(run, size)?;
    }
    unwind(run, size, first, 1)
}

fn fields(run: &mut Run, size: u64) -> Result<(), AllocError> {
    let alloc = run.alloc;
    let text = shown(alloc, size)?;
    let comma = if size == 0 { "" } else { ", " };
    run.call(span(alloc, "n", size, None)?)?;
    let row = format!(in alloc; "┐n {text}\n")?;
    run.draw(0, row.as_str())?;
    run.call(event(alloc, "x", size, Some(1))?)?;
    let row = format!(in alloc; "├─ INFO {text}{comma}x\n")?;
    run.draw(0, row.as_str())?;
    unwind(run, 1, 1, 0)
}

// A record onto the first span.
fn record(run: &mut Run, count: u64) -> Result<(), AllocError> {
    let fields = Fields::from(numbered(run.alloc, count)?);
    run.call(Call::Record(Id(1), Record { fields }))
}

fn recorded(run: &mut Run, size: u64) -> Result<(), AllocError> {
    let alloc = run.alloc;
    run.open(None, 0)?;
    run.open(None, 0)?;
    for _ in 0..size {
        record(run, 1)?;
    }
    record(run, size)?;
    let text = shown(alloc, size.wrapping_mul(2))?;
    let row = format!(in alloc; "┐n {text}\n")?;
    run.draw(0, row.as_str())?;
    run.emit(Some(1), 1)?;
    unwind(run, 1, 1, 0)?;
    unwind(run, 1, 2, 0)
}

fn bytes(run: &mut Run, size: u64) -> Result<(), AllocError> {
    let alloc = run.alloc;
    let text = "y".repeat(alloc, usize::try_from(size).unwrap_or(0))?;
    run.call(span(alloc, text.as_str(), 0, None)?)?;
    let row = format!(in alloc; "┐{text} \n")?;
    run.draw(0, row.as_str())?;
    run.call(event(alloc, text.as_str(), 1, Some(1))?)?;
    let row = format!(in alloc; "├─ INFO k=v, {text}\n")?;
    run.draw(0, row.as_str())?;
    unwind(run, 1, 1, 0)
}

fn lines(run: &mut Run, size: u64) -> Result<(), AllocError> {
    let alloc = run.alloc;
    let count = usize::try_from(size).unwrap_or(0);
    let mut message = "z\n".repeat(alloc, count)?;
    message.push_str("y")?;
    run.open(None, 0)?;
    run.call(event(alloc, message.as_str(), 0, Some(1))?)?;
    if count == 0 {
        run.draw(0, "├─ INFO y\n")?;
        return unwind(run, 1, 1, 0);
    }
    run.draw(0, "├─ INFO z\n")?;
    for _ in 1..count {
        run.draw(0, "│  z\n")?;
    }
    run.draw(0, "│  y\n")?;
    unwind(run, 1, 1, 0)
}

fn handles(run: &mut Run, size: u64) -> Result<(), AllocError> {
    run.open(None, 0)?;
    for _ in 0..size {
        run.call(Call::Clone(Id(1)))?;
    }
    for _ in 0..size {
        run.call(closed(1))?;
    }
    run.emit(Some(1), 1)?;
    unwind(run, 1, 1, 0)
}

fn events(run: &mut Run, size: u64) -> Result<(), AllocError> {
    run.open(None, 0)?;
    for _ in 0..size {
        run.emit(Some(1), 1)?;
    }
    unwind(run, 1, 1, 0)
}
