//! What a tracer draws.

use crate::lined::lined;
use crate::steps::{Given, Line, Step, emit, first_unlike, open, record, text};
use jiff::Timestamp;
use std::alloc::{AllocError, Global};
use std::test::*;
use tracing_tree_core::format::{Id, Tape};
use tracing_tree_core::style::Level;
use tracing_tree_core::text::Text;
use tracing_tree_core::time::{Moment, Uptime};
use tracing_tree_layer::{HierarchicalLayer, Layered};
use tracing_tree_tracer::Value::{Quoted, Whole};
use tracing_tree_tracer::{Now, SystemClock, TraceFault, Tracer, within};

// The start of 1970.
const START: Moment = Moment {
    mono: 0,
    wall: Timestamp::UNIX_EPOCH,
};

fn tracer(alloc: Global) -> Tracer<Layered<Tape, ()>, Moment> {
    Tracer::new(alloc, lined(alloc), START)
}

// The example of the README, line for line.
fn serve(tracer: &mut Tracer<Layered<Tape, ()>, Moment>) -> Result<(), TraceFault> {
    tracer.open("conn", &[("peer", Quoted("82.9.9.9"))])?;
    tracer.info("connected", &[])?;
    within(tracer, "query", &[("sql", Quoted("select 1"))], |tracer| {
        tracer.warn("slow", &[("ms", Whole(271))])
    })?;
    tracer.close()?;
    Ok(())
}

// Returns the registry and the layer, once the tracer is done with.
fn into_layered(tracer: Tracer<Layered<Tape, ()>, Moment>) -> Layered<Tape, ()> {
    tracer.into_layered()
}

#[test]
fn draws_a_connection(rt: HostRuntime) -> Result<(), Fail> {
    let mut tracer = tracer(rt.alloc());
    assert_eq!(rt; serve(&mut tracer), Ok(()));
    let text =
        "┐conn peer=\"82.9.9.9\"\n├─ INFO connected\n└─┐query sql=\"select 1\"\n  ├─ WARN slow, ms=271\n┌─┘\n┘\n";
    assert_eq!(rt; into_layered(tracer).writer().bytes(), text.as_bytes());
    Ok(())
}

const LEVELS: [Line<'static>; 6] = [
    (Step::Emit(Level::Trace, "a"), Ok(Given::Done), 0),
    (Step::Emit(Level::Debug, "b"), Ok(Given::Done), 0),
    (Step::Emit(Level::Info, "c"), Ok(Given::Done), 0),
    (Step::Emit(Level::Warn, "d"), Ok(Given::Done), 0),
    (Step::Emit(Level::Error, "e"), Ok(Given::Done), 0),
    (Step::Event(Level::Info, "f"), Ok(Given::Done), 0),
];

#[test]
fn draws_each_level(rt: HostRuntime) -> Result<(), Fail> {
    let mut tracer = tracer(rt.alloc());
    assert_eq!(rt; first_unlike(&mut tracer, LEVELS.as_slice()), None);
    let wanted = "TRACE a\nDEBUG b\nINFO c\nWARN d\nERROR e\nINFO f\n";
    assert_eq!(rt; text(&tracer), wanted.as_bytes());
    Ok(())
}

const OPENS: [Line<'static>; 2] = [
    (Step::Open("a"), Ok(Given::Span(1)), 1),
    (Step::Open("b"), Ok(Given::Span(2)), 2),
];

const CLOSES: [Line<'static>; 1] = [(Step::Close, Ok(Given::Closed(true)), 1)];

fn current(tracer: &Tracer<Layered<Tape, ()>, Moment>) -> Option<Id> {
    tracer.current()
}

#[test]
fn the_innermost_open_span_is_the_current_one(rt: HostRuntime) -> Result<(), Fail> {
    let mut tracer = tracer(rt.alloc());
    assert_eq!(rt; current(&tracer), None);
    assert_eq!(rt; first_unlike(&mut tracer, OPENS.as_slice()), None);
    assert_eq!(rt; current(&tracer), Some(Id(2)));
    assert_eq!(rt; first_unlike(&mut tracer, CLOSES.as_slice()), None);
    assert_eq!(rt; current(&tracer), Some(Id(1)));
    Ok(())
}

fn deferred(alloc: Global) -> Tracer<Layered<Tape, ()>, Moment> {
    let layer = HierarchicalLayer::new(alloc, 2, false, Tape::new(alloc))
        .with_indent_lines(true)
        .with_deferred_spans(true);
    Tracer::new(alloc, Layered::new(alloc, layer), START)
}

fn record_more(tracer: &mut Tracer<Layered<Tape, ()>, Moment>) -> Result<(), TraceFault> {
    open(tracer, "a", &[("k", Whole(1))])?;
    record(tracer, &[("l", Whole(2))])?;
    emit(tracer, Level::Info, "x", &[])
}

#[test]
fn a_deferred_span_shows_what_was_recorded(rt: HostRuntime) -> Result<(), Fail> {
    let mut tracer = deferred(rt.alloc());
    assert_eq!(rt; record_more(&mut tracer), Ok(()));
    assert_eq!(rt; text(&tracer), "┐a k=1, l=2\n├─ INFO x\n".as_bytes());
    Ok(())
}

// Three seconds later, by the monotonic clock.
const THIRD_SECOND: Moment = Moment {
    mono: 3_000_000_000,
    wall: Timestamp::UNIX_EPOCH,
};

// Returns a layer that shows threads, targets and the time.
fn emitting(alloc: Global) -> Layered<Tape, Uptime> {
    let layer = HierarchicalLayer::new(alloc, 2, false, Tape::new(alloc))
        .with_indent_lines(true)
        .with_thread_ids(true)
        .with_thread_names(true)
        .with_targets(true)
        .with_timer(Uptime::from(0));
    Layered::new(alloc, layer)
}

// Returns a tracer of the thread 7, main, in its third second.
fn in_thread(alloc: Global) -> Result<Tracer<Layered<Tape, Uptime>, Moment>, AllocError> {
    let target = Text::from_str(alloc, "web")?;
    let name = Text::from_str(alloc, "main")?;
    Ok(
        Tracer::new(alloc, emitting(alloc), THIRD_SECOND)
            .with_target(target)
            .with_thread(7, Some(name)),
    )
}

fn emit_timed(tracer: &mut Tracer<Layered<Tape, Uptime>, Moment>) -> Result<(), TraceFault> {
    tracer.info("x", &[])
}

#[test]
fn shows_thread_target_and_moment(rt: HostRuntime) -> Result<(), Fail> {
    let mut tracer = in_thread(rt.alloc())?;
    assert_eq!(rt; emit_timed(&mut tracer), Ok(()));
    let text = "7:main   3.000000s INFO web x\n";
    assert_eq!(rt; tracer.layered().writer().bytes(), text.as_bytes());
    Ok(())
}

// Returns two moments, one after the other, or `None` if one of them can't be read.
fn moments(clock: &impl Now) -> Option<(Moment, Moment)> {
    let first = clock.now()?;
    Some((first, clock.now()?))
}

// Records an event at a moment of this clock.
fn emit_by(alloc: Global, clock: impl Now) -> Result<(), TraceFault> {
    let mut tracer = Tracer::new(alloc, lined(alloc), clock);
    emit(&mut tracer, Level::Info, "x", &[])
}

#[test]
fn the_clock_of_the_machine_goes_forward(rt: HostRuntime) -> Result<(), Fail> {
    let clock = SystemClock::start(&rt)?;
    let (first, second) = moments(&clock).ok_or("no moment")?;
    assert!(rt; first.mono <= second.mono);
    assert!(rt; Timestamp::UNIX_EPOCH < second.wall);
    assert_eq!(rt; emit_by(rt.alloc(), clock), Ok(()));
    Ok(())
}
