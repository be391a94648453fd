//! Outputs that take little, are interrupted, or fault.

use std::alloc::{AllocError, Global};
use std::io;
use std::io::{ErrorKind, Read, Write};
use std::process::Abort;
use std::test::*;
use test_support::{Answer, Step, lined_over};
use tracing_tree::call::Reply;
use tracing_tree::format::{Id, Output, OutputFault, Refusal, Tape, Wrap};
use tracing_tree::layered::Layered;
use tracing_tree::lines::{LineCause, LineFault, run_lines};
use tracing_tree::registry::LookupSpan;
use tracing_tree::style::Level;

// A writer that is first interrupted a number of times, and then takes at most a piece of its
// bytes. It counts its flushes.
#[derive(Drop)]
struct Halting {
    taken: Vec<u8>,
    piece: usize,
    interruptions: u32,
    flushes: u32,
}

impl Write for Halting {
    fn write(&mut self, bytes: &[u8]) -> io::Result<usize> {
        if self.interruptions > 0 {
            self.interruptions -= 1;
            return Err(io::Error::from(ErrorKind::Interrupted));
        }
        let piece = self.piece.min(bytes.len());
        self.taken.extend_from_slice(&bytes[..piece])?;
        Ok(piece)
    }

    fn flush(&mut self) -> io::Result<()> {
        self.flushes = self.flushes.wrapping_add(1);
        Ok(())
    }
}

#[test]
fn wraps_a_writer(rt: HostRuntime) -> Result<(), Fail> {
    for (piece, interruptions, wanted) in [
        (3, 0, Ok(3)),
        (9, 8, Ok(4)),
        (9, 9, Err(OutputFault)),
        (0, 0, Err(OutputFault)),
    ] {
        let mut wrap = Wrap::new(Halting {
            taken: Vec::new(rt.alloc()),
            piece,
            interruptions,
            flushes: 0,
        });
        assert_eq!(rt; wrap.write(b"abcd"), wanted);
        let faults = if wanted.is_ok() { 0 } else { 1 };
        assert_eq!(rt; wrap.faults(), faults);
        let taken = wanted.unwrap_or(0).min(4);
        let writer = wrap.into_inner();
        assert_eq!(rt; writer.taken.as_slice(), &b"abcd"[..taken]);
        assert_eq!(rt; writer.flushes, 0);
    }
    Ok(())
}

#[test]
fn tape_takes_nothing(rt: HostRuntime) {
    let mut tape = Tape::new(rt.alloc());
    assert_eq!(rt; tape.write(b""), Ok(0));
    assert_eq!(rt; tape.faults(), 0);
}

// Takes three bytes at a time, and refuses one write, counted from 1, or all writes from it on.
#[derive(Drop)]
struct Choppy {
    taken: Vec<u8>,
    writes: u32,
    stop: u32,
    broken: bool,
}

impl Write for Choppy {
    fn write(&mut self, bytes: &[u8]) -> io::Result<usize> {
        self.writes = self.writes.wrapping_add(1);
        if self.writes == self.stop || (self.broken && self.writes > self.stop) {
            return Err(io::Error::from(ErrorKind::BrokenPipe));
        }
        let piece = bytes.len().min(3);
        self.taken.extend_from_slice(&bytes[..piece])?;
        Ok(piece)
    }

    fn flush(&mut self) -> io::Result<()> {
        Ok(())
    }
}

impl Choppy {
    fn new(alloc: Global, stop: u32, broken: bool) -> Choppy {
        Choppy {
            taken: Vec::new(alloc),
            writes: 0,
            stop,
            broken,
        }
    }
}

// Two spans, the second of which is refused, and the answer to every call after it.
const REFUSED: [(Step<'static>, Answer); 2] = [
    (Step::New("a", None), Ok(Reply::Span(Id(1)))),
    (Step::New("b", Some(1)), Err(Refusal::Writer)),
];

const FAILED: [(Step<'static>, Answer); 2] = [
    (Step::Event(Level::Info, "x", None), Err(Refusal::Failed)),
    (Step::Clone(1), Err(Refusal::Failed)),
];

// Checks the answer to each of these calls.
fn answers(
    rt: &(impl Abort + AllocGlobal),
    layered: &mut Layered<Wrap<Choppy>, ()>,
    steps: &[(Step<'_>, Answer)],
) -> Result<(), AllocError> {
    for (step, wanted) in steps {
        let call = step.call(rt.alloc())?;
        assert_eq!(rt; layered.call(call), *wanted);
    }
    Ok(())
}

// Makes the calls over this writer, and returns what it took.
fn taken_until_it_fails(
    rt: &(impl Abort + AllocGlobal),
    writer: Choppy,
) -> Result<Vec<u8>, AllocError> {
    let alloc = rt.alloc();
    let mut layered = lined_over(alloc, Wrap::new(writer))?;
    answers(rt, &mut layered, REFUSED.as_slice())?;
    assert_eq!(rt; layered.layer().failed(), true);
    assert_eq!(rt; layered.layer().last_span(), Some(Id(1)));
    assert_eq!(rt; layered.registry().span(Id(2)).is_none(), true);
    answers(rt, &mut layered, FAILED.as_slice())?;
    assert_eq!(rt; layered.writer().faults(), 1);
    let (_registry, layer) = Box::into_inner(layered).into_parts();
    Ok(layer.into_writer().into_inner().taken)
}

#[test]
fn fails_with_its_writer(rt: HostRuntime) -> Result<(), Fail> {
    for (stop, broken, left) in [
        (3, false, "┐a \n"),
        (3, true, "┐a \n"),
        (4, false, "┐a \n└"),
        (4, true, "┐a \n└"),
    ] {
        let taken = taken_until_it_fails(&rt, Choppy::new(rt.alloc(), stop, broken))?;
        assert_eq!(rt; taken.as_slice(), left.as_bytes());
    }
    Ok(())
}

// Settings, and two calls that open spans.
const TWO_SPANS: &[u8] = br#"{"indent_lines": true}
{"call": "new", "name": "a"}
{"call": "new", "name": "b", "current": 1}
"#;

#[test]
fn blames_the_line_of_the_fault(rt: HostRuntime) {
    let alloc = rt.alloc();
    for (stop, broken, accepted, line, left) in [
        (1, false, 0, 2, ""),
        (2, true, 0, 2, "┐"),
        (3, false, 1, 3, "┐a \n"),
        (3, true, 1, 3, "┐a \n"),
        (4, false, 1, 3, "┐a \n└"),
        (5, true, 1, 3, "┐a \n└─"),
        (6, false, 1, 3, "┐a \n└─┐"),
    ] {
        let writer = Wrap::new(Choppy::new(alloc, stop, broken));
        let ran = run_lines(alloc, TWO_SPANS, writer);
        let cause = LineCause::Refused(Refusal::Writer);
        assert_eq!(rt; ran.fault, Some(LineFault { line, cause }));
        assert_eq!(rt; ran.accepted, accepted);
        assert_eq!(rt; ran.writer.faults(), 1);
        assert_eq!(rt; ran.writer.into_inner().taken.as_slice(), left.as_bytes());
    }
}

// Takes all, and refuses the flushes of these numbers, counted from 1, in this way.
#[derive(Drop)]
struct Withholding {
    taken: Vec<u8>,
    flushes: u32,
    from: u32,
    to: u32,
    kind: ErrorKind,
}

impl Write for Withholding {
    fn write(&mut self, bytes: &[u8]) -> io::Result<usize> {
        self.taken.extend_from_slice(bytes)?;
        Ok(bytes.len())
    }

    fn flush(&mut self) -> io::Result<()> {
        self.flushes = self.flushes.wrapping_add(1);
        if self.flushes >= self.from && self.flushes <= self.to {
            return Err(io::Error::from(self.kind));
        }
        Ok(())
    }
}

impl Withholding {
    fn new(alloc: Global, from: u32, to: u32, kind: ErrorKind) -> Withholding {
        Withholding {
            taken: Vec::new(alloc),
            flushes: 0,
            from,
            to,
            kind,
        }
    }
}

// A refused flush is reported by the next write. An interrupted flush is tried again.
#[test]
fn flushes_are_refused(rt: HostRuntime) {
    let alloc = rt.alloc();
    for (to, kind, flushes, wanted) in [
        (0, ErrorKind::BrokenPipe, 1, Ok(1)),
        (1, ErrorKind::BrokenPipe, 1, Err(OutputFault)),
        (8, ErrorKind::Interrupted, 9, Ok(1)),
        (9, ErrorKind::Interrupted, 9, Err(OutputFault)),
    ] {
        let mut wrap = Wrap::new(Withholding::new(alloc, 1, to, kind));
        assert_eq!(rt; wrap.write(b"ab"), Ok(2));
        wrap.flush();
        assert_eq!(rt; wrap.faults(), 0);
        assert_eq!(rt; wrap.is_stuck(), wanted.is_err());
        assert_eq!(rt; wrap.write(b"c"), wanted);
        let faults = if wanted.is_ok() { 0 } else { 1 };
        assert_eq!(rt; wrap.faults(), faults);
        let writer = wrap.into_inner();
        let taken = if wanted.is_ok() {
            b"abc".as_slice()
        } else {
            b"ab"
        };
        assert_eq!(rt; writer.taken.as_slice(), taken);
        assert_eq!(rt; writer.flushes, flushes);
    }
}

// A run whose flush is refused ends at the next call that draws. The last flush of a run isn't
// reported by a call.
#[test]
fn blames_the_line_after_a_refused_flush(rt: HostRuntime) {
    let alloc = rt.alloc();
    let cause = LineCause::Refused(Refusal::Writer);
    for (from, line, left) in [(1, 2, ""), (2, 3, "┐a \n")] {
        let writer = Wrap::new(Withholding::new(alloc, from, from, ErrorKind::BrokenPipe));
        let ran = run_lines(alloc, Slow { rest: TWO_SPANS }, writer);
        assert_eq!(rt; ran.fault, Some(LineFault { line, cause }));
        assert_eq!(rt; ran.accepted, line.saturating_sub(2));
        assert_eq!(rt; ran.writer.faults(), 1);
        assert_eq!(rt; ran.writer.into_inner().taken.as_slice(), left.as_bytes());
    }
    let writer = Wrap::new(Withholding::new(alloc, 3, 3, ErrorKind::BrokenPipe));
    let ran = run_lines(alloc, Slow { rest: TWO_SPANS }, writer);
    assert_eq!(rt; ran.fault, None);
    assert_eq!(rt; ran.writer.faults(), 0);
    assert_eq!(rt; ran.writer.is_stuck(), true);
    assert_eq!(rt; ran.writer.into_inner().flushes, 3);
}

// Gives a byte at a time.
#[derive(Drop)]
struct Slow {
    rest: &'static [u8],
}

impl Read for Slow {
    fn read(&mut self, buf: &mut [u8]) -> io::Result<usize> {
        let count = buf.len().min(self.rest.len()).min(1);
        let (given, rest) = self.rest.split_at(count);
        buf[..count].copy_from_slice(given);
        self.rest = rest;
        Ok(count)
    }
}
