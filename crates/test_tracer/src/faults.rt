//! The faults of a tracer.

use crate::lined::{lined, lined_over};
use crate::steps::{Given, Line, Step, close, depth, emit, first_unlike, open, text};
use jiff::Timestamp;
use std::alloc::Global;
use std::io;
use std::io::Write;
use std::test::*;
use tracing_tree_core::format::{Refusal, Tape, Wrap};
use tracing_tree_core::style::Level;
use tracing_tree_core::time::Moment;
use tracing_tree_layer::Layered;
use tracing_tree_tracer::{Now, TraceFault, Tracer, within};

// The start of 1970.
const START: Moment = Moment {
    mono: 0,
    wall: Timestamp::UNIX_EPOCH,
};

fn tracer(alloc: Global) -> Tracer<Layered<Tape, ()>, Moment> {
    Tracer::new(alloc, lined(alloc), START)
}

const OUTSIDE: [Line<'static>; 2] = [
    (Step::Close, Err(TraceFault::NoSpan), 0),
    (Step::Record, Err(TraceFault::NoSpan), 0),
];

#[test]
fn nothing_is_closed_outside_spans(rt: HostRuntime) -> Result<(), Fail> {
    let mut tracer = tracer(rt.alloc());
    assert_eq!(rt; first_unlike(&mut tracer, OUTSIDE.as_slice()), None);
    Ok(())
}

// A clock that always fails.
#[derive(Drop)]
struct Broken;

impl Now for Broken {
    ghost use Rattle.std.specs.Prelude.{◌≡◌, None};

    ghost reads = { λ clock moment. moment ≡ None };

    fn now(&self) -> Option<Moment> {
        None
    }
}

const TIMELESS: [Line<'static>; 2] = [
    (Step::Open("a"), Err(TraceFault::NoMoment), 0),
    (Step::Emit(Level::Info, "x"), Err(TraceFault::NoMoment), 0),
];

#[test]
fn without_a_moment_no_call_is_made(rt: HostRuntime) -> Result<(), Fail> {
    let mut tracer = Tracer::new(rt.alloc(), lined(rt.alloc()), Broken);
    assert_eq!(rt; first_unlike(&mut tracer, TIMELESS.as_slice()), None);
    assert!(rt; text(&tracer).is_empty());
    Ok(())
}

// A writer that takes `left` writes and refuses each later one.
#[derive(Drop)]
struct Halting {
    left: u64,
}

impl Write for Halting {
    fn write(&mut self, bytes: &[u8]) -> io::Result<usize> {
        if self.left == 0 {
            return Err(io::Error::from(io::ErrorKind::BrokenPipe));
        }
        self.left -= 1;
        Ok(bytes.len())
    }

    fn flush(&mut self) -> io::Result<()> {
        Ok(())
    }
}

const HALTED: [Line<'static>; 4] = [
    (Step::Open("a"), Ok(Given::Span(1)), 1),
    (Step::Open("b"), Ok(Given::Span(2)), 2),
    (Step::Close, Err(TraceFault::Refused(Refusal::Writer)), 2),
    (
        Step::Open("c"),
        Err(TraceFault::Refused(Refusal::Failed)),
        2,
    ),
];

#[test]
fn a_fault_of_the_writer_leaves_the_open_spans(rt: HostRuntime) -> Result<(), Fail> {
    let alloc = rt.alloc();
    let writer = Wrap::new(Halting { left: 2 });
    let mut tracer = Tracer::new(alloc, lined_over(alloc, writer), START);
    assert_eq!(rt; first_unlike(&mut tracer, HALTED.as_slice()), None);
    Ok(())
}

// What a service has against going on.
#[derive(Clone, Copy, Debug, PartialEq, Eq)]
enum Failure {
    Trace,
    Query,
}

impl From<TraceFault> for Failure {
    fn from(_fault: TraceFault) -> Failure {
        Failure::Trace
    }
}

fn fail(tracer: &mut Tracer<Layered<Tape, ()>, Moment>) -> Result<u8, Failure> {
    open(tracer, "b", &[])?;
    emit(tracer, Level::Info, "x", &[])?;
    Err(Failure::Query)
}

fn fails(tracer: &mut Tracer<Layered<Tape, ()>, Moment>) -> Result<u8, Failure> {
    within(tracer, "a", &[], |tracer| fail(tracer))
}

#[test]
fn a_span_closes_where_its_body_fails(rt: HostRuntime) -> Result<(), Fail> {
    let mut tracer = tracer(rt.alloc());
    assert_eq!(rt; fails(&mut tracer), Err(Failure::Query));
    assert_eq!(rt; depth(&tracer), 0);
    let wanted = "┐a \n└─┐b \n  ├─ INFO x\n┌─┘\n┘\n";
    assert_eq!(rt; text(&tracer), wanted.as_bytes());
    Ok(())
}

fn close_twice(tracer: &mut Tracer<Layered<Tape, ()>, Moment>) -> Result<u8, TraceFault> {
    close(tracer)?;
    close(tracer)?;
    Ok(7)
}

fn closes_too_much(tracer: &mut Tracer<Layered<Tape, ()>, Moment>) -> Result<u8, TraceFault> {
    open(tracer, "a", &[])?;
    within(tracer, "b", &[], |tracer| close_twice(tracer))
}

#[test]
fn a_body_may_close_what_is_around_it(rt: HostRuntime) -> Result<(), Fail> {
    let mut tracer = tracer(rt.alloc());
    assert_eq!(rt; closes_too_much(&mut tracer), Ok(7));
    assert_eq!(rt; depth(&tracer), 0);
    Ok(())
}
