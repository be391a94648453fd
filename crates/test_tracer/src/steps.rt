//! What is done with a tracer, by functions and as lines of a table. The functions have no clauses,
//! so that a test that calls them is soon proved.

use tracing_tree_core::format::{Id, Tape};
use tracing_tree_core::style::Level;
use tracing_tree_layer::Layered;
use tracing_tree_tracer::{Calls, Now, TraceFault, Tracer, Value};

/// A call of a tracer, without fields.
#[derive(Clone, Copy)]
pub enum Step<'a> {
    Open(&'a str),

    /// An event, by the method that is named after its level.
    Emit(Level, &'a str),

    /// An event, by the method for every level.
    Event(Level, &'a str),

    Record,
    Close,
}

/// What a call gives.
#[derive(Clone, Copy, Debug, PartialEq, Eq)]
pub enum Given {
    Span(u64),
    Done,
    Closed(bool),
}

/// What a call is answered.
pub type Answer = Result<Given, TraceFault>;

/// A call, what it is answered, and how many spans are open after it.
pub type Line<'a> = (Step<'a>, Answer, usize);

/// Opens a span.
pub fn open<C: Calls, N: Now>(
    tracer: &mut Tracer<C, N>,
    name: &str,
    fields: &[(&str, Value<'_>)],
) -> Result<Id, TraceFault> {
    tracer.open(name, fields)
}

/// Closes the current span.
pub fn close<C: Calls, N: Now>(tracer: &mut Tracer<C, N>) -> Result<bool, TraceFault> {
    tracer.close()
}

/// Records fields of the current span.
pub fn record<C: Calls, N: Now>(
    tracer: &mut Tracer<C, N>,
    fields: &[(&str, Value<'_>)],
) -> Result<(), TraceFault> {
    tracer.record(fields)
}

/// Records an event by the method that is named after its level.
pub fn emit<C: Calls, N: Now>(
    tracer: &mut Tracer<C, N>,
    level: Level,
    message: &str,
    fields: &[(&str, Value<'_>)],
) -> Result<(), TraceFault> {
    match level {
        Level::Trace => tracer.trace(message, fields),
        Level::Debug => tracer.debug(message, fields),
        Level::Info => tracer.info(message, fields),
        Level::Warn => tracer.warn(message, fields),
        Level::Error => tracer.error(message, fields),
    }
}

fn event<C: Calls, N: Now>(
    tracer: &mut Tracer<C, N>,
    level: Level,
    message: &str,
) -> Result<(), TraceFault> {
    tracer.event(level, message, &[])
}

/// Returns how many spans are open.
pub fn depth<C: Calls, N: Now>(tracer: &Tracer<C, N>) -> usize {
    tracer.depth()
}

/// Returns what was written.
pub fn text<N: Now>(tracer: &Tracer<Layered<Tape, ()>, N>) -> &[u8] {
    tracer.layered().writer().bytes()
}

fn take<C: Calls, N: Now>(tracer: &mut Tracer<C, N>, step: Step<'_>) -> Answer {
    match step {
        Step::Open(name) => open(tracer, name, &[]).map(|id| Given::Span(id.0)),
        Step::Emit(level, message) => emit(tracer, level, message, &[]).map(|()| Given::Done),
        Step::Event(level, message) => event(tracer, level, message).map(|()| Given::Done),
        Step::Record => record(tracer, &[]).map(|()| Given::Done),
        Step::Close => close(tracer).map(Given::Closed),
    }
}

/// Makes the calls up to the first that is answered, or leaves open, otherwise than its line says:
/// returns that line's place, with what it was answered and how many spans were open.
pub fn first_unlike<C: Calls, N: Now>(
    tracer: &mut Tracer<C, N>,
    lines: &[Line<'_>],
) -> Option<(usize, Answer, usize)> {
    for (place, (step, wanted, open)) in lines.iter().enumerate() {
        let answer = take(tracer, *step);
        let depth = depth(tracer);
        if answer != *wanted || depth != *open {
            return Some((place, answer, depth));
        }
    }
    None
}
