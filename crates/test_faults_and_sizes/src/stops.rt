//! A run over a writer that takes pieces and refuses one write: each size of piece, and each write.

use crate::fakes::{Choppy, Failure};
use std::alloc::{AllocError, Global};
use std::io::ErrorKind;
use std::process::Abort;
use std::test::*;
use test_support::{Answer, Step, lined_over};
use tracing_tree::format::{Id, Output, Refusal, Wrap};
use tracing_tree::layered::Layered;
use tracing_tree::lines::{LineCause, LineFault, run_lines};
use tracing_tree::registry::LookupSpan;
use tracing_tree::style::Level;

// Two spans, an event, and both closed.
const STEPS: [Step<'static>; 5] = [
    Step::New("a", None),
    Step::New("b", Some(1)),
    Step::Event(Level::Warn, "x", Some(2)),
    Step::Close(2),
    Step::Close(1),
];

// The same calls, as lines.
const LINES: &[u8] = br#"{"indent_lines":true}
{"call":"new","name":"a"}
{"call":"new","name":"b","current":1}
{"call":"event","level":"WARN","fields":[["message","x"]],"current":2}
{"call":"close","id":2}
{"call":"close","id":1}
"#;

// What they draw.
const TREE: &str = "┐a \n└─┐b \n  ├─ WARN x\n┌─┘\n┘\n";

// How many bytes each of them draws.
const DRAWN: [usize; 5] = [6, 12, 16, 10, 4];

// Every kind of call, of spans that live or not.
const LATER: [Step<'static>; 7] = [
    Step::New("c", None),
    Step::Event(Level::Info, "x", None),
    Step::Record(1, "1"),
    Step::Clone(1),
    Step::Clone(9),
    Step::Close(1),
    Step::Close(9),
];

// Which spans live, and the last span.
#[derive(Clone, Copy)]
struct Left {
    first: bool,
    second: bool,
    last: Option<Id>,
}

// Before each call, and after the last.
const BEFORE: [Left; 6] = [
    Left {
        first: false,
        second: false,
        last: None,
    },
    Left {
        first: true,
        second: false,
        last: Some(Id(1)),
    },
    Left {
        first: true,
        second: true,
        last: Some(Id(2)),
    },
    Left {
        first: true,
        second: true,
        last: Some(Id(2)),
    },
    Left {
        first: true,
        second: false,
        last: Some(Id(1)),
    },
    Left {
        first: false,
        second: false,
        last: Some(Id(1)),
    },
];

// What a run came to: how many calls were accepted, and how many bytes taken.
#[derive(Clone, Copy, Debug, PartialEq, Eq)]
struct End {
    accepted: usize,
    bytes: usize,
}

// Returns where this write is refused, from the number of writes that each call needs. After all of
// them, no write is refused.
fn expected(piece: usize, stop: usize) -> End {
    let mut left = stop;
    let mut bytes = 0_usize;
    for (accepted, drawn) in DRAWN.iter().enumerate() {
        let needed = drawn.div_ceil(piece.max(1));
        if left <= needed {
            let taken = left.saturating_sub(1).saturating_mul(piece);
            let bytes = bytes.saturating_add(taken);
            return End { accepted, bytes };
        }
        left = left.saturating_sub(needed);
        bytes = bytes.saturating_add(*drawn);
    }
    End { accepted: 5, bytes }
}

// A run over a writer that stops.
type Stopping = Layered<Wrap<Choppy>, ()>;

fn stopping(alloc: Global, piece: usize, failure: Failure) -> Result<Box<Stopping>, AllocError> {
    lined_over(alloc, Wrap::new(Choppy::new(alloc, piece, failure)))
}

fn answer(alloc: Global, layered: &mut Stopping, step: Step<'_>) -> Answer {
    let call = step.call(alloc)?;
    layered.call(call)
}

fn lives(layered: &Stopping, id: u64) -> bool {
    layered.registry().span(Id(id)).is_some()
}

fn last(layered: &Stopping) -> Option<Id> {
    layered.layer().last_span()
}

// Returns whether these spans live, and this one is the last.
fn is_left(layered: &Stopping, left: Left) -> bool {
    lives(layered, 1) == left.first
        && lives(layered, 2) == left.second
        && last(layered) == left.last
}

// Returns whether the spans and the last one are those before the call at this place.
fn is_before(layered: &Stopping, place: usize) -> bool {
    match BEFORE.get(place) {
        Some(left) => is_left(layered, *left),
        None => false,
    }
}

// Makes the calls up to the first that is refused, and returns how many were accepted.
fn accepted(rt: &(impl Abort + AllocGlobal), layered: &mut Stopping) -> usize {
    for (place, step) in STEPS.into_iter().enumerate() {
        let answer = answer(rt.alloc(), layered, step);
        if answer.is_err() {
            assert!(rt; answer == Err(Refusal::Writer));
            return place;
        }
    }
    STEPS.len()
}

// Returns whether every later call is refused, whatever it is.
fn has_failed(alloc: Global, layered: &mut Stopping) -> bool {
    for step in LATER {
        if answer(alloc, layered, step) != Err(Refusal::Failed) {
            return false;
        }
    }
    true
}

fn into_taken(layered: Box<Stopping>) -> Choppy {
    let (_registry, layer) = Box::into_inner(layered).into_parts();
    layer.into_writer().into_inner()
}

// Checks the layer after a run with `accepted` accepted calls.
fn stays(rt: &(impl Abort + AllocGlobal), layered: &mut Stopping, accepted: usize) {
    assert!(rt; is_before(layered, accepted), "{accepted}");
    if accepted < STEPS.len() {
        assert!(rt; has_failed(rt.alloc(), layered), "{accepted}");
        assert!(rt; is_before(layered, accepted), "{accepted}");
    }
}

// Makes the calls over this writer, and returns their result.
fn ends(rt: &(impl Abort + AllocGlobal), piece: usize, stop: usize) -> Result<End, AllocError> {
    let failure = Failure::once(stop, ErrorKind::BrokenPipe);
    let mut layered = stopping(rt.alloc(), piece, failure)?;
    let accepted = accepted(rt, &mut layered);
    stays(rt, &mut layered, accepted);
    let bytes = beginning(rt, into_taken(layered).taken.as_slice());
    Ok(End { accepted, bytes })
}

// Returns how many bytes of the whole text these are.
fn beginning(rt: &impl Abort, taken: &[u8]) -> usize {
    assert!(rt; TREE.as_bytes().starts_with(taken), "{taken:?}");
    taken.len()
}

// Makes the calls over a writer that takes pieces and refuses this write, and checks their result.
fn stops_calls(
    rt: &(impl Abort + AllocGlobal),
    piece: usize,
    stop: usize,
) -> Result<(), AllocError> {
    let wanted = expected(piece, stop);
    assert_eq!(rt; ends(rt, piece, stop)?, wanted, "{piece} {stop}");
    Ok(())
}

// The stops continue until a run has no refused write.
#[test]
fn every_write_is_refused(rt: HostRuntime) -> Result<(), Fail> {
    for piece in 1..=12 {
        for stop in 1..=49 {
            stops_calls(&rt, piece, stop)?;
        }
    }
    Ok(())
}

// Returns how a run of lines must end after `accepted` accepted calls.
fn fault_after(accepted: u64) -> Option<LineFault> {
    let cause = LineCause::Refused(Refusal::Writer);
    let line = accepted.saturating_add(2);
    if accepted < 5 {
        Some(LineFault { line, cause })
    } else {
        None
    }
}

// The lines over such a writer: the fault, how many calls were accepted, whether the output has no
// fault, and what the writer took.
fn run_of_lines(alloc: Global, writer: Choppy) -> (Option<LineFault>, u64, bool, Vec<u8>) {
    let ran = run_lines(alloc, LINES, Wrap::new(writer));
    let (fault, accepted, whole) = (ran.fault, ran.accepted, ran.writer.faults() == 0);
    (fault, accepted, whole, ran.writer.into_inner().taken)
}

// Runs the lines, and returns their result.
fn lines_end(rt: &(impl Abort + AllocGlobal), piece: usize, stop: usize) -> End {
    let failure = Failure::once(stop, ErrorKind::BrokenPipe);
    let writer = Choppy::new(rt.alloc(), piece, failure);
    let (fault, accepted, whole, taken) = run_of_lines(rt.alloc(), writer);
    assert_eq!(rt; fault, fault_after(accepted), "{piece} {stop}");
    assert_eq!(rt; whole, fault.is_none(), "{piece} {stop}");
    let bytes = beginning(rt, taken.as_slice());
    End {
        accepted: accepted as usize,
        bytes,
    }
}

// Like `stops_calls`, for the lines.
fn stops_lines(rt: &(impl Abort + AllocGlobal), piece: usize, stop: usize) {
    let wanted = expected(piece, stop);
    assert_eq!(rt; lines_end(rt, piece, stop), wanted, "{piece} {stop}");
}

#[test]
fn every_write_of_lines_is_refused(rt: HostRuntime) {
    for piece in 1..=12 {
        for stop in 1..=49 {
            stops_lines(&rt, piece, stop);
        }
    }
}

const HELD_BY_A_CHILD: [Step<'static>; 3] = [
    Step::New("a", None),
    Step::New("b", Some(1)),
    Step::Close(1),
];

// Returns the answer to the close that removes a root and its child, if its write, the third, is
// refused.
fn closes_both(alloc: Global, layered: &mut Stopping) -> Answer {
    for step in HELD_BY_A_CHILD {
        let _ = answer(alloc, layered, step);
    }
    answer(alloc, layered, Step::Close(2))
}

// Returns whether the child has its handle, whose close would also remove the root.
fn holds_both(alloc: Global, layered: &Stopping) -> bool {
    match layered.registry().closing(alloc, Id(2)) {
        Ok(closing) => closing.as_slice() == [Id(2), Id(1)].as_slice(),
        Err(_) => false,
    }
}

#[test]
fn a_refused_close_takes_no_handle(rt: HostRuntime) -> Result<(), Fail> {
    let failure = Failure::once(3, ErrorKind::StorageFull);
    let mut layered = stopping(rt.alloc(), usize::MAX, failure)?;
    assert!(rt; closes_both(rt.alloc(), &mut layered) == Err(Refusal::Writer));
    assert!(rt; is_before(&layered, 3));
    assert!(rt; holds_both(rt.alloc(), &layered));
    Ok(())
}
