//! Short names for the values that the tests pass.
#![tactic(auto)]

pub mod tree;

ghost use Rattle.std.specs.Prelude.{◌≡◌};

use jiff::Timestamp;
use std::alloc::{AllocError, Global};
use tracing_tree::call::{Call, Reply};
use tracing_tree::field::{Field, Fields};
use tracing_tree::format::{Context, Id, Output, Refusal, Tape};
use tracing_tree::layer::HierarchicalLayer;
use tracing_tree::layered::Layered;
use tracing_tree::registry::{Attributes, Event, Parent, Record};
use tracing_tree::style::Level;
use tracing_tree::text::Text;
use tracing_tree::time::{FormatTime, Moment};

/// Returns a layered over this writer, with lines and an amount of 2. It is boxed, since each step
/// of a test is proved over everything that its values contain.
pub fn lined_over<W: Output + Drop>(
    alloc: Global,
    writer: W,
) -> Result<Box<Layered<W, ()>>, AllocError>
    requires { W.fault_count writer ≡ 0 }
{
    let layer = HierarchicalLayer::new(alloc, 2, false, writer).with_indent_lines(true);
    Ok(Box::new(alloc, Layered::new(alloc, layer))?)
}

/// Returns a layered over memory, like `lined_over`.
pub fn lined(alloc: Global) -> Result<Box<Layered<Tape, ()>>, AllocError> {
    lined_over(alloc, Tape::new(alloc))
}

/// Returns the context of thread 1 at the start of 1970, with this current span.
pub fn at(current: Option<u64>) -> Context {
    Context {
        current: match current {
            Some(id) => Some(Id(id)),
            None => None,
        },
        thread_id: 1,
        thread_name: None,
        moment: Moment {
            mono: 0,
            wall: Timestamp::UNIX_EPOCH,
        },
    }
}

/// Makes a new span below the current one.
pub fn made(alloc: Global, name: &str, current: Option<u64>) -> Result<Call, AllocError> {
    made_in(alloc, name, Parent::Current, current)
}

/// Makes a new span below this parent.
pub fn made_in(
    alloc: Global,
    name: &str,
    parent: Parent,
    current: Option<u64>,
) -> Result<Call, AllocError> {
    Ok(Call::New(
        Attributes {
            name: Text::from_str(alloc, name)?,
            target: Text::from_str(alloc, "")?,
            parent,
            fields: Fields::new(alloc),
        },
        at(current),
    ))
}

/// Returns a list of one field.
pub fn recorded(alloc: Global, name: &str, value: &str) -> Result<Fields, AllocError> {
    let mut fields = Vec::new(alloc);
    fields.push(Field::rendered(alloc, name, value)?)?;
    Ok(Fields::from(fields))
}

/// Records an event with a message in the current span.
pub fn event_call(
    alloc: Global,
    level: Level,
    message: &str,
    current: Option<u64>,
) -> Result<Call, AllocError> {
    Ok(Call::Event(
        Event {
            level,
            target: Text::from_str(alloc, "")?,
            parent: Parent::Current,
            fields: recorded(alloc, "message", message)?,
        },
        at(current),
    ))
}

/// Records an INFO event with a message in this parent.
pub fn event_call_in(
    alloc: Global,
    message: &str,
    parent: Parent,
    current: Option<u64>,
) -> Result<Call, AllocError> {
    Ok(Call::Event(
        Event {
            level: Level::Info,
            target: Text::from_str(alloc, "")?,
            parent,
            fields: recorded(alloc, "message", message)?,
        },
        at(current),
    ))
}

/// Closes a span.
pub fn closed(id: u64) -> Call {
    Call::Close(Id(id), at(None))
}

/// Returns the attributes of a new span with this name and without fields.
pub fn attributes(alloc: Global, name: &str, parent: Parent) -> Result<Attributes, AllocError> {
    Ok(Attributes {
        name: Text::from_str(alloc, name)?,
        target: Text::from_str(alloc, "t")?,
        parent,
        fields: Fields::new(alloc),
    })
}

/// A call as a line of a table.
#[derive(Clone, Copy)]
pub enum Step<'a> {
    /// A new span below the current one, if there is one.
    New(&'a str, Option<u64>),

    /// A new span below this parent, with this current span.
    NewIn(&'a str, Parent, Option<u64>),

    /// An event with a message, in the current span.
    Event(Level, &'a str, Option<u64>),

    /// An INFO event with a message, in this parent, with this current span.
    EventIn(&'a str, Parent, Option<u64>),

    /// A record of a value of the field `k`.
    Record(u64, &'a str),

    /// One more handle.
    Clone(u64),

    /// One handle less.
    Close(u64),
}

impl Step<'_> {
    /// Returns the call.
    pub fn call(self, alloc: Global) -> Result<Call, AllocError> {
        Ok(match self {
            Step::New(name, current) => made(alloc, name, current)?,
            Step::NewIn(name, parent, current) => made_in(alloc, name, parent, current)?,
            Step::Event(level, message, current) => event_call(alloc, level, message, current)?,
            Step::EventIn(message, parent, current) => event_call_in(
                alloc, message, parent, current,
            )?,
            Step::Record(id, value) => {
                let fields = recorded(alloc, "k", value)?;
                Call::Record(Id(id), Record { fields })
            }
            Step::Clone(id) => Call::Clone(Id(id)),
            Step::Close(id) => closed(id),
        })
    }
}

/// Returns the calls of these steps.
pub fn calls(alloc: Global, steps: &[Step<'_>]) -> Result<Vec<Call>, AllocError> {
    let mut calls = Vec::new(alloc);
    for step in steps {
        calls.push(step.call(alloc)?)?;
    }
    Ok(calls)
}

/// The answer to a call.
pub type Answer = Result<Reply, Refusal>;

/// Runs the calls. It has no contract, so a test that calls it is proved quickly.
pub fn run<W: Output, FT: FormatTime>(
    alloc: Global,
    layered: &mut Layered<W, FT>,
    calls: Vec<Call>,
) -> Result<Vec<Answer>, AllocError> {
    layered.run(alloc, calls)
}

/// Makes the calls up to the first whose answer isn't the expected one. Returns that call's index
/// and its answer.
pub fn first_unlike(
    alloc: Global,
    layered: &mut Layered<Tape, ()>,
    steps: &[(Step<'_>, Answer)],
) -> Result<Option<(usize, Answer)>, AllocError> {
    for (place, (step, wanted)) in steps.iter().enumerate() {
        let answer = layered.call(step.call(alloc)?);
        if answer != *wanted {
            return Ok(Some((place, answer)));
        }
    }
    Ok(None)
}
