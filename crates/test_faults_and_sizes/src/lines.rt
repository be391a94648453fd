//! Lines over readers and writers that meet trouble at any of them.

use crate::fakes::{Choppy, ERRORS, Failure, Halting};
use std::alloc::{AllocError, Global};
use std::io::ErrorKind;
use std::process::Abort;
use std::test::*;
use tracing_tree::format::{Refusal, Tape, Wrap};
use tracing_tree::lines::{LineCause, LineFault, run_lines};

// Settings and three calls, a line each.
const LINES: [&str; 4] = [
    "{\"indent_lines\":true}\n",
    "{\"call\":\"new\",\"name\":\"a\"}\n",
    "{\"call\":\"new\",\"name\":\"b\",\"current\":1}\n",
    "{\"call\":\"event\",\"level\":\"INFO\",\"current\":2}\n",
];

const INPUT: &str = concat!(
    "{\"indent_lines\":true}\n",
    "{\"call\":\"new\",\"name\":\"a\"}\n",
    "{\"call\":\"new\",\"name\":\"b\",\"current\":1}\n",
    "{\"call\":\"event\",\"level\":\"INFO\",\"current\":2}\n",
);

// What they draw, and how much of it is drawn before each line but the first, and at the end.
const TREE: &str = "┐a \n└─┐b \n  ├─ INFO\n";

const DRAWN: [usize; 4] = [0, 6, 18, 32];

// How a run ended: its fault, the calls that were accepted, and the bytes that were drawn.
type End = (Option<LineFault>, u64, usize);

fn read_by(alloc: Global, reader: Halting<'_>) -> End {
    let ran = run_lines(alloc, reader, Tape::new(alloc));
    (ran.fault, ran.accepted, ran.writer.bytes().len())
}

// Returns a run that ends at this line, from 1 on, for this cause, after all calls before it.
fn ended(line: usize, cause: LineCause) -> End {
    let calls = line.saturating_sub(2);
    let fault = LineFault {
        line: line as u64,
        cause,
    };
    let bytes = DRAWN.get(calls).copied().unwrap_or(0);
    (Some(fault), calls as u64, bytes)
}

const WHOLE: End = (None, 3, 32);

// Returns the numbers of three reads for each line: the first, one in its middle, and the one that
// finds its end. The last line is the end of the input.
fn reads(alloc: Global) -> Result<Vec<(usize, usize)>, AllocError> {
    let mut reads = Vec::new(alloc);
    let mut before = 0_usize;
    for (place, line) in LINES.iter().enumerate() {
        let number = place.saturating_add(1);
        for offset in [1, line.len() / 2, line.len()] {
            reads.push((number, before.saturating_add(offset)))?;
        }
        before = before.saturating_add(line.len());
    }
    reads.push((5, before.saturating_add(1)))?;
    Ok(reads)
}

// Over a reader that gives a byte a read, so that the reads of a line are known, and meets this
// trouble, the run ends so.
fn reads_end(rt: &(impl Abort + AllocGlobal), failure: Failure, wanted: End) {
    let end = read_by(rt.alloc(), Halting::new(INPUT.as_bytes(), 1, failure));
    assert_eq!(rt; end, wanted, "{failure:?}");
}

// One read of this line, which has this number, fails in each way.
fn reads_fail(rt: &(impl Abort + AllocGlobal), line: usize, first: usize) {
    for kind in ERRORS {
        reads_end(rt, Failure::once(first, kind), ended(line, LineCause::Read));
    }
}

#[test]
fn reads_fail_in_each_line_and_way(rt: HostRuntime) -> Result<(), Fail> {
    for (line, first) in reads(rt.alloc())? {
        reads_fail(&rt, line, first);
    }
    Ok(())
}

#[test]
fn reads_are_interrupted_in_each_line(rt: HostRuntime) -> Result<(), Fail> {
    for (line, first) in reads(rt.alloc())? {
        reads_end(&rt, Failure::interrupted(first, 8), WHOLE);
        let failed = ended(line, LineCause::Read);
        reads_end(&rt, Failure::interrupted(first, 9), failed);
    }
    Ok(())
}

// Returns this string with `spaces` spaces after it.
fn spaced(alloc: Global, text: &str, spaces: usize) -> Result<String, AllocError> {
    let mut input = String::from_str(alloc, text)?;
    input.push_str(" ".repeat(alloc, spaces)?.as_str())?;
    Ok(input)
}

// A line of spaces that is skipped, a byte a read.
#[test]
fn a_line_comes_in_many_parts(rt: HostRuntime) -> Result<(), Fail> {
    let input = spaced(rt.alloc(), "{}\n", 200_000)?;
    let end = read_by(rt.alloc(), Halting::new(input.as_bytes(), 1, Failure::NONE));
    assert_eq!(rt; end, (None, 0, 0));
    Ok(())
}

// The lines up to a call.
const BEGINNING: &str = "{\"indent_lines\":true}\n{\"call\":\"new\",\"name\":\"a\"}\n";

// Returns how much is shown at each flush of a run over this reader.
fn shown_by(alloc: Global, reader: Halting<'_>) -> Vec<usize> {
    let writer = Wrap::new(Choppy::new(alloc, usize::MAX, Failure::NONE));
    run_lines(alloc, reader, writer).writer.into_inner().shown
}

// The lines up to a call, and as many bytes of the next line, come with the first read. How much is
// shown before each read after it.
fn shown(alloc: Global, begun: usize) -> Result<Vec<usize>, AllocError> {
    let input = spaced(alloc, BEGINNING, begun.saturating_add(10))?;
    let mut reader = Halting::new(input.as_bytes(), usize::MAX, Failure::NONE);
    reader.first = BEGINNING.len().saturating_add(begun);
    Ok(shown_by(alloc, reader))
}

// One read gives the rest, and one finds the end.
#[test]
fn a_line_that_has_begun_holds_nothing_back(rt: HostRuntime) -> Result<(), Fail> {
    for begun in [0, 1, 2, 100, 4_096, 8_000, 8_192, 20_000] {
        let shown = shown(rt.alloc(), begun)?;
        assert_eq!(rt; shown.as_slice(), [6, 6].as_slice(), "{begun}");
    }
    Ok(())
}

// A call, and the line that it is.
const CALLS: [(usize, usize); 3] = [(1, 2), (2, 3), (3, 4)];

// Returns a run whose writer refuses what the call in this line draws.
fn refused(line: usize) -> End {
    ended(line, LineCause::Refused(Refusal::Writer))
}

// Runs the lines over a writer that is called once per call. Returns how the run ended, and how
// often the writer was called.
fn written_by(alloc: Global, writer: Choppy) -> (End, usize) {
    let ran = run_lines(alloc, INPUT.as_bytes(), Wrap::new(writer));
    let (fault, accepted) = (ran.fault, ran.accepted);
    let writer = ran.writer.into_inner();
    ((fault, accepted, writer.taken.len()), writer.writes)
}

// Runs the lines over a writer with this fault, and checks how the run ends and how often the
// writer is called.
fn writes_end(rt: &(impl Abort + AllocGlobal), failure: Failure, wanted: (End, usize)) {
    let writer = Choppy::new(rt.alloc(), usize::MAX, failure);
    assert_eq!(rt; written_by(rt.alloc(), writer), wanted, "{failure:?}");
}

// The write of this call fails in each way.
fn writes_fail(rt: &(impl Abort + AllocGlobal), call: usize, line: usize) {
    for kind in ERRORS {
        writes_end(rt, Failure::once(call, kind), (refused(line), call));
    }
}

#[test]
fn writes_fail_in_each_line_and_way(rt: HostRuntime) {
    for (call, line) in CALLS {
        writes_fail(&rt, call, line);
    }
}

#[test]
fn writes_are_interrupted_in_each_line(rt: HostRuntime) {
    for (call, line) in CALLS {
        writes_end(&rt, Failure::interrupted(call, 8), (WHOLE, 11));
        let failed = (refused(line), call.saturating_add(8));
        writes_end(&rt, Failure::interrupted(call, 9), failed);
    }
}

#[test]
fn no_write_takes_anything(rt: HostRuntime) {
    let writer = Choppy::new(rt.alloc(), 0, Failure::NONE);
    assert_eq!(rt; written_by(rt.alloc(), writer), (refused(2), 1));
}

// Runs the lines, one byte per read, over a writer with this fault in its flushes. Returns how the
// run ended, and whether the output is stuck.
fn flushed_by(alloc: Global, input: &[u8], failure: Failure) -> (End, bool) {
    let reader = Halting::new(input, 1, Failure::NONE);
    let ran = run_lines(alloc, reader, Wrap::new(Choppy::flushing(alloc, failure)));
    let (fault, accepted, stuck) = (ran.fault, ran.accepted, ran.writer.is_stuck());
    let bytes = ran.writer.into_inner().taken.len();
    ((fault, accepted, bytes), stuck)
}

// Runs the lines over a writer with this fault in its flushes, and checks how the run ends.
fn flushes_end(rt: &(impl Abort + AllocGlobal), failure: Failure, wanted: (End, bool)) {
    let end = flushed_by(rt.alloc(), INPUT.as_bytes(), failure);
    assert_eq!(rt; end, wanted, "{failure:?}");
}

// The flush of this number fails in each way.
fn flushes_fail(rt: &(impl Abort + AllocGlobal), flush: usize, wanted: (End, bool)) {
    for kind in ERRORS {
        flushes_end(rt, Failure::once(flush, kind), wanted);
    }
}

// The writer is flushed before each line except the first, and for the last time before the end of
// the input. A refused flush is reported by the next call that draws, even if later flushes
// succeed.
#[test]
fn flushes_fail_before_each_line_and_in_each_way(rt: HostRuntime) {
    for (flush, line) in CALLS {
        let wanted = (refused(line), true);
        flushes_fail(&rt, flush, wanted);
        flushes_end(&rt, Failure::interrupted(flush, 9), wanted);
        flushes_end(&rt, Failure::interrupted(flush, 8), (WHOLE, false));
    }
    flushes_fail(&rt, 4, (WHOLE, true));
}

// A line that is skipped, and so a second flush, comes before the first call that draws.
#[test]
fn a_refused_flush_is_reported_after_a_skipped_line(rt: HostRuntime) {
    let input = b"{}\n\n{\"call\":\"new\",\"name\":\"a\"}\n".as_slice();
    let failure = Failure::once(1, ErrorKind::BrokenPipe);
    let ((fault, accepted, _bytes), _stuck) = flushed_by(rt.alloc(), input, failure);
    let cause = LineCause::Refused(Refusal::Writer);
    assert_eq!(rt; fault, Some(LineFault { line: 3, cause }));
    assert_eq!(rt; accepted, 0);
}
