//! An input written as a page, or as lines of JSON.

use crate::document::{Document, DocumentRead, make_document};
use crate::input::Head;
use crate::options::Options;
use crate::output::{Output, UNCHANGED, output};
use crate::report::{Origin, Reporter, Status, Unit, report_undrawn, report_written};
use crate::tree::{after_lines, first_line, read_trace, refuse_settings, some_moment, whole};
use std::alloc::{AllocError, Global};
use std::io;
use std::io::{BufReader, Printer, Read, Write};
use std::str::from_utf8;
use tracing_tree::format::Wrap;
use tracing_tree::lines::{BLOCK, LineCause, LineFault, is_settings};
use ttree_adapters::OneRow;
use ttree_chrome::{Leaves, TraceCalls};
use ttree_page::{LineForm, StepWriter};
use ttree_source::{AtLeast, CallLines, Plain, Source, SourceRun, run_source};
use ttree_viewer::{HEAD, TAIL};

// What writes the lines.
type Steps<W> = StepWriter<Wrap<Output<W>>>;

// Writes the lines of a source. `AllocError` if the buffers can't be allocated.
pub fn write_input<R: AllocGlobal + Eprint + Print, I: Read + Drop, S: Source>(
    rt: &R,
    origin: Origin<'_>,
    input: I,
    source: &mut S,
    form: LineForm,
    options: &Options<'_>,
) -> Result<Status, AllocError> {
    let alloc = rt.alloc();
    let Ok(mut lines) = BufReader::with_capacity(alloc, BLOCK, input) else {
        return Err(AllocError);
    };
    let writer = Wrap::new(output(alloc, io::writer(rt), UNCHANGED)?);
    let mut steps = StepWriter::new(alloc, form, writer);
    let mut reporter = Reporter::new(rt, origin, Unit::Line, options.is_strict);
    let run = match steps.begin(before_data(form), title(origin, options)) {
        Ok(()) => run_source(alloc, source, &mut lines, &mut steps, &mut reporter),
        Err(refusal) => ended(0, LineCause::Refused(refusal)),
    };
    Ok(finish(run, steps, form, &reporter))
}

// Writes lines of settings and calls, and the lines before them first. A line that isn't a call
// ends the page, as it ends the drawing.
pub fn write_call_lines<R: AllocGlobal + Eprint + Print, I: Read + Drop>(
    rt: &R,
    origin: Origin<'_>,
    head: &Head,
    lines: BufReader<I>,
    form: LineForm,
    options: &Options<'_>,
) -> Result<Status, AllocError> {
    let alloc = rt.alloc();
    let (settings, calls) = first_line(head.body());
    let lines_before = head.lines_before.saturating_add(1);
    if !are_settings(alloc, settings)? {
        return Ok(refuse_settings(rt, origin, lines_before, LineCause::Settings));
    }
    let Ok(mut lines) = BufReader::with_capacity(alloc, BLOCK, calls.chain(lines)) else {
        return Err(AllocError);
    };
    let mut reporter = Reporter::new(rt, origin, Unit::Line, true);
    reporter.lines_before = lines_before;
    let (mut steps, begun) = begin(rt, origin, head, form, options)?;
    let run = match begun {
        None => {
            let mut source = CallLines::new(alloc);
            run_source(alloc, &mut source, &mut lines, &mut steps, &mut reporter)
        }
        Some(cause) => ended(0, cause),
    };
    let fault = after_lines(run.fault, lines_before);
    Ok(finish(SourceRun { fault, ..run }, steps, form, &reporter))
}

// Returns whether this line has settings.
fn are_settings(alloc: Global, line: &[u8]) -> Result<bool, AllocError> {
    match from_utf8(line) {
        Ok(line) => is_settings(alloc, line),
        Err(_) => Ok(false),
    }
}

// Writes a trace, and the lines before it first.
pub fn write_trace<R: AllocGlobal + Eprint + Print>(
    rt: &R,
    origin: Origin<'_>,
    head: &Head,
    text: &str,
    form: LineForm,
    options: &Options<'_>,
) -> Result<Status, AllocError> {
    let mut reporter = Reporter::new(rt, origin, Unit::Element, options.is_strict);
    let read = read_trace(rt.alloc(), Leaves::Spans, text, options, &mut reporter);
    let TraceCalls {
        unknown,
        calls,
        undrawn,
    } = read;
    let read = DocumentRead {
        document: whole(calls),
        unknown,
    };
    let status = write_read(rt, origin, head, read, form, &reporter, options)?;
    report_undrawn(rt, origin, undrawn, status);
    Ok(status)
}

// Writes what was read of a whole document, and the lines before it first.
pub fn write_read<R: AllocGlobal + Eprint + Print, D: Document>(
    rt: &R,
    origin: Origin<'_>,
    head: &Head,
    read: DocumentRead<D>,
    form: LineForm,
    reporter: &Reporter<'_, R>,
    options: &Options<'_>,
) -> Result<Status, AllocError> {
    let (mut steps, begun) = begin(rt, origin, head, form, options)?;
    let run = match begun {
        None => write_document(rt.alloc(), read, &mut steps),
        Some(cause) => ended(read.unknown, cause),
    };
    Ok(finish(run, steps, form, reporter))
}

// Begins a page with the lines before those of the format. Returns what ended that early, too.
fn begin<'a, R: AllocGlobal + Eprint + Print>(
    rt: &'a R,
    origin: Origin<'_>,
    head: &Head,
    form: LineForm,
    options: &Options<'_>,
) -> Result<(Steps<Printer<'a, R>>, Option<LineCause>), AllocError> {
    let alloc = rt.alloc();
    let writer = Wrap::new(output(alloc, io::writer(rt), UNCHANGED)?);
    let mut steps = StepWriter::new(alloc, form, writer);
    let begun = match steps.begin(before_data(form), title(origin, options)) {
        Ok(()) => write_preamble(rt, origin, head, &mut steps, options)?,
        Err(refusal) => Some(LineCause::Refused(refusal)),
    };
    Ok((steps, begun))
}

// Writes the lines before a trace: each is an event at the root. Returns what ended that early.
fn write_preamble<R: AllocGlobal + Eprint, W: Write + Drop>(
    rt: &R,
    origin: Origin<'_>,
    head: &Head,
    steps: &mut Steps<W>,
    options: &Options<'_>,
) -> Result<Option<LineCause>, AllocError> {
    let alloc = rt.alloc();
    let Ok(mut lines) = BufReader::with_capacity(alloc, BLOCK, head.preamble()) else {
        return Err(AllocError);
    };
    let mut source = AtLeast::new(Plain::new(some_moment()), options.min_level());
    let mut reporter = Reporter::new(rt, origin, Unit::Line, options.is_strict);
    let run = run_source(alloc, &mut source, &mut lines, steps, &mut reporter);
    Ok(
        run.fault
            .map(|fault: LineFault| -> LineCause { fault.cause }),
    )
}

// Writes the calls of a document.
fn write_document<D: Document, W: Write + Drop>(
    alloc: Global,
    read: DocumentRead<D>,
    steps: &mut Steps<W>,
) -> SourceRun {
    let DocumentRead { document, unknown } = read;
    let document = match document {
        Ok(document) => document,
        Err(cause) => return ended(unknown, cause),
    };
    match make_document(alloc, document, &mut None::<OneRow>, steps) {
        Ok(()) => SourceRun {
            unknown,
            fault: None,
        },
        Err(cause) => ended(unknown, cause),
    }
}

// Returns the result of a run that ended with this cause.
fn ended(unknown: u64, cause: LineCause) -> SourceRun {
    SourceRun {
        unknown,
        fault: Some(LineFault { line: 1, cause }),
    }
}

// Writes the end after a complete run, and reports errors. A page without an end shows that it is
// truncated.
fn finish<R: Eprint, W: Write + Drop>(
    run: SourceRun,
    steps: Steps<W>,
    form: LineForm,
    reporter: &Reporter<'_, R>,
) -> Status {
    let mut run = run;
    let mut steps = steps;
    if run.fault.is_none() {
        if let Err(refusal) = steps.end(after_data(form)) {
            run = ended(run.unknown, LineCause::Refused(refusal));
        }
    }
    report_written(&run, steps.into_writer(), reporter)
}

// Returns what comes before the data: the beginning of a page.
fn before_data(form: LineForm) -> &'static str {
    match form {
        LineForm::Arrays => HEAD,
        LineForm::Objects => "",
    }
}

// Returns what comes after the data.
fn after_data(form: LineForm) -> &'static str {
    match form {
        LineForm::Arrays => TAIL,
        LineForm::Objects => "",
    }
}

// Returns the title: that of the command line, or the name of the file.
fn title<'a>(origin: Origin<'a>, options: &Options<'a>) -> &'a str {
    match (options.title, origin.file) {
        (Some(title), _) => title,
        (None, Some(path)) => file_name(path),
        (None, None) => "ttree",
    }
}

// Returns the part of a path after its last slash.
fn file_name(path: &str) -> &str {
    match path.rsplit_once('/') {
        Some((_, name)) => name,
        None => path,
    }
}
