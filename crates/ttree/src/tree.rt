//! An input drawn as a tree.

use crate::document::{Document, DocumentRead, Whole, make_document};
use crate::input::Head;
use crate::options::Options;
use crate::output::{Flush, output};
use crate::report::{
    Origin, Reporter, Status, Unit, report, report_run, report_undrawn, report_unread,
};
use crate::shown::{Subject, shape, shown, summary_of};
use crate::summary::{Summary, print_summary};
use jiff::Timestamp;
use json::{Scratch, Value};
use std::alloc::{AllocError, Global};
use std::io;
use std::io::{BufReader, Read, Write};
use std::str::from_utf8;
use tracing_tree::call::Call;
use tracing_tree::format::{Config, Wrap};
use tracing_tree::layer::HierarchicalLayer;
use tracing_tree::layered::Layered;
use tracing_tree::lines::{BLOCK, LineCause, LineFault, settings_of_line};
use tracing_tree::time::Moment;
use ttree_adapters::{Mapping, OneRowCalls, RowClock};
use ttree_chrome::{Leaves, TraceCalls, trace_calls};
use ttree_source::values::value_of;
use ttree_source::{CallLines, Notes, Problem, Source, SourceRun, draw_source, run_source};
use ttree_terminal::Shaping;

// Returns the moment of the calls before a source knows one.
pub fn some_moment() -> Moment {
    Moment {
        mono: 0,
        wall: Timestamp::UNIX_EPOCH,
    }
}

// Draws the lines of a source, and returns the source afterwards. `AllocError` if the buffers can't
// be allocated.
pub fn draw_input<R: AllocGlobal + Eprint + Print, I: Read + Drop, S: Source + Drop>(
    rt: &R,
    origin: Origin<'_>,
    input: I,
    source: S,
    subject: Subject,
    options: &Options<'_>,
) -> Result<(Status, S), AllocError> {
    let alloc = rt.alloc();
    let Ok(mut lines) = BufReader::with_capacity(alloc, BLOCK, input) else {
        return Err(AllocError);
    };
    let mut shown = shown(alloc, source, subject, options);
    let writer = output(alloc, io::writer(rt), options.shaping())?;
    let mut layered = layered(alloc, options.config(), writer);
    let mut reporter = Reporter::new(rt, origin, Unit::Line, options.is_strict);
    let run = draw_source(alloc, &mut shown, &mut lines, &mut layered, &mut reporter);
    let status = report_run(&run, layered, &reporter);
    let (source, shape) = shown.into_parts();
    Ok((
        status.worse(print_summary(rt, origin, status, summary_of(shape))?),
        source,
    ))
}

// Draws lines of settings and calls. The settings say how. A line that isn't a call ends the
// drawing.
pub fn draw_calls<R: AllocGlobal + Eprint + Print, I: Read + Drop>(
    rt: &R,
    origin: Origin<'_>,
    head: &Head,
    lines: BufReader<I>,
    options: &Options<'_>,
) -> Result<Status, AllocError> {
    let alloc = rt.alloc();
    let (first, calls) = first_line(head.body());
    let lines_before = head.lines_before.saturating_add(1);
    let (config, timer) = match settings_of_line(alloc, first) {
        Ok(setup) => setup.into_parts(),
        Err(LineCause::Memory) => return Err(AllocError),
        Err(cause) => return Ok(refuse_settings(rt, origin, lines_before, cause)),
    };
    let Ok(mut lines) = BufReader::with_capacity(alloc, BLOCK, calls.chain(lines)) else {
        return Err(AllocError);
    };
    let shaping = Shaping {
        width: options.width,
        is_escaped: !has_colours(alloc, first)?,
    };
    let writer = Wrap::new(output(alloc, io::writer(rt), shaping)?);
    let layer = HierarchicalLayer::with_config(alloc, config, writer).with_timer(timer);
    let mut receiver = OneRowCalls::new(alloc, Layered::new(alloc, layer));
    let mut source = CallLines::new(alloc);
    let mut reporter = Reporter::new(rt, origin, Unit::Line, true);
    reporter.lines_before = lines_before;
    let run = run_source(alloc, &mut source, &mut lines, &mut receiver, &mut reporter);
    let fault = after_lines(run.fault, lines_before);
    let run = SourceRun { fault, ..run };
    Ok(report_run(&run, receiver.into_receiver(), &reporter))
}

// Reports that a line isn't valid settings.
pub fn refuse_settings(
    rt: &impl Eprint,
    origin: Origin<'_>,
    line: u64,
    cause: LineCause,
) -> Status {
    report(rt, origin, &Some(LineFault { line, cause }), Flush::Done)
}

// Returns whether settings switch colours on.
fn has_colours(alloc: Global, settings: &[u8]) -> Result<bool, AllocError> {
    let Ok(line) = from_utf8(settings) else {
        return Ok(false);
    };
    let mut scratch = Scratch::new(alloc);
    match value_of(alloc, line, &mut scratch)? {
        Some(settings) => Ok(is_coloured(&settings)),
        None => Ok(false),
    }
}

// Splits lines after the first.
pub fn first_line(lines: &[u8]) -> (&[u8], &[u8]) {
    match lines
        .iter()
        .position(|byte: &u8| -> bool { *byte == b'\n' })
    {
        Some(end) => (&lines[..end], &lines[end + 1..]),
        None => (lines, &[]),
    }
}

fn is_coloured(settings: &Value<'_>) -> bool {
    match settings.get("ansi") {
        Some(Value::Bool(is_on)) => *is_on,
        _ => false,
    }
}

// Returns a fault with its line in the input, if `lines_before` lines come before those of the run.
pub fn after_lines(fault: Option<LineFault>, lines_before: u64) -> Option<LineFault> {
    let fault = fault?;
    Some(LineFault {
        line: fault.line.saturating_add(lines_before),
        cause: fault.cause,
    })
}

// Draws the trace that an input has. An input that was taken for a trace and isn't one is printed
// unchanged.
pub fn draw_trace<R: AllocGlobal + Eprint + Print>(
    rt: &R,
    origin: Origin<'_>,
    input: &[u8],
    text: &str,
    options: &Options<'_>,
) -> Result<Status, AllocError> {
    let alloc = rt.alloc();
    let mut reporter = Reporter::new(rt, origin, Unit::Element, options.is_strict);
    let read = read_trace(alloc, Leaves::Rows, text, options, &mut reporter);
    if reporter.is_no_trace && options.from.is_none() {
        let _ = io::writer(rt).write_all(input);
        return Ok(Status::Failure);
    }
    let TraceCalls {
        unknown,
        calls,
        undrawn,
    } = read;
    let summary = trace_summary(alloc, text, options)?;
    let read = DocumentRead {
        document: whole(calls),
        unknown,
    };
    let status = draw_read(
        rt,
        origin,
        read,
        Subject::Trace,
        summary,
        &reporter,
        options,
    )?;
    report_undrawn(rt, origin, undrawn, status);
    Ok(status)
}

// Reads a trace. `leaves` says how a span is drawn that has nothing in it.
pub fn read_trace<N: Notes>(
    alloc: Global,
    leaves: Leaves,
    text: &str,
    options: &Options<'_>,
    notes: &mut N,
) -> TraceCalls {
    trace_calls(alloc, 1, some_moment(), options.cut, leaves, text, notes)
}

// A receiver of notes that reports nothing.
#[derive(Drop)]
struct Silent;

impl Notes for Silent {
    fn note(&mut self, _number: u64, _problem: Problem, _line: &[u8]) -> bool {
        true
    }
}

// Returns the summary of a trace under --summary. It counts each span, also those that are drawn
// as one row.
fn trace_summary(
    alloc: Global,
    text: &str,
    options: &Options<'_>,
) -> Result<Option<Summary>, AllocError> {
    if !options.has_summary {
        return Ok(None);
    }
    let read = read_trace(alloc, Leaves::Spans, text, options, &mut Silent);
    let Ok(calls) = read.calls else {
        return Ok(None);
    };
    let mut summary = Summary::new(alloc, RowClock::Trace);
    drop(summary.map(alloc, None, calls)?);
    Ok(Some(summary))
}

// Returns the document of these calls, if they were read.
pub fn whole(calls: Result<Vec<Call>, LineCause>) -> Result<Whole, LineCause> {
    match calls {
        Ok(calls) => Ok(Whole::from(calls)),
        Err(cause) => Err(cause),
    }
}

// Draws what was read of a whole document. Without a summary, it is that of the calls.
pub fn draw_read<R: AllocGlobal + Eprint + Print, D: Document>(
    rt: &R,
    origin: Origin<'_>,
    read: DocumentRead<D>,
    subject: Subject,
    summary: Option<Summary>,
    reporter: &Reporter<'_, R>,
    options: &Options<'_>,
) -> Result<Status, AllocError> {
    let alloc = rt.alloc();
    let DocumentRead { document, unknown } = read;
    let document = match document {
        Ok(document) => document,
        Err(cause) => return Ok(report_unread(cause, reporter)),
    };
    let mut shape = shape(alloc, subject, options);
    let writer = output(alloc, io::writer(rt), options.shaping())?;
    let config = options.config().with_deferred_spans(false);
    let mut layered = layered(alloc, config, writer);
    let fault = match make_document(alloc, document, &mut shape, &mut layered) {
        Ok(()) => None,
        Err(cause) => Some(fault_of_document(cause)),
    };
    let summary = summary.or(summary_of(shape));
    let status = report_run(&SourceRun { unknown, fault }, layered, reporter);
    Ok(status.worse(print_summary(rt, origin, status, summary)?))
}

// Returns the fault of a document, at its first line.
pub fn fault_of_document(cause: LineCause) -> LineFault {
    LineFault { line: 1, cause }
}

// Returns a drawing without a span.
pub fn layered<W: Write + Drop>(alloc: Global, config: Config, writer: W) -> Layered<Wrap<W>, ()> {
    Layered::new(
        alloc,
        HierarchicalLayer::with_config(alloc, config, Wrap::new(writer)),
    )
}
