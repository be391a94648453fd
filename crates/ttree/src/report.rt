//! What is reported: messages on standard error, and the exit status.

use crate::found::Found;
use crate::output::{Flush, Output, flush_output};
use std::fmt;
use std::io::Write;
use std::process::ExitCode;
use tracing_tree::format::{Refusal, Wrap};
use tracing_tree::layered::Layered;
use tracing_tree::lines::{LineCause, LineFault};
use tracing_tree::time::FormatTime;
use ttree_source::{Notes, Problem, SourceRun};

// What `ttree` says if no line determines the format.
const FORMATS: &str =
    "no line determines the format; expected the output of go test -json, TAP, JUnit XML, the JSON of Rust's tracing-subscriber, JSON logs, OTLP as JSON, a Chrome trace, or settings and calls; --from names the format";

// What a line of OTLP needs.
const EXPORT: &str =
    "expected an object with \"resourceSpans\", \"resourceLogs\" or \"resourceMetrics\", and \"traceId\" and \"spanId\" in its spans";

// How many skipped lines are reported one by one.
const NOTED: u64 = 10;

// How the drawing of an input ended.
#[derive(Clone, Copy, Debug, PartialEq, Eq)]
pub enum Status {
    Success,

    // Something was skipped, failed, or ended the drawing early.
    Failure,

    // The input, or an option, can't be used at all.
    Usage,

    // The output's reader has closed it, so nothing more can be shown.
    Closed,
}

impl Status {
    // Returns the worse of two inputs' statuses.
    pub fn worse(self, other: Status) -> Status {
        match (self, other) {
            (Status::Closed, _) | (_, Status::Closed) => Status::Closed,
            (Status::Usage, _) | (_, Status::Usage) => Status::Usage,
            (Status::Failure, _) | (_, Status::Failure) => Status::Failure,
            (Status::Success, Status::Success) => Status::Success,
        }
    }

    // Returns the program's exit status: 0, 1 or 2.
    pub fn exit_code(self) -> ExitCode {
        match self {
            Status::Success | Status::Closed => ExitCode::SUCCESS,
            Status::Failure => ExitCode::FAILURE,
            Status::Usage => ExitCode::from(2),
        }
    }
}

// What a message begins with: the program's name, and the file's if there is one.
#[derive(Clone, Copy)]
pub struct Origin<'a> {
    pub file: Option<&'a str>,
}

impl fmt::Display for Origin<'_> {
    fn fmt<W: fmt::Write>(&self, f: &mut fmt::Formatter<W>) -> fmt::Result {
        f.write_str("ttree: ")?;
        let Some(file) = self.file else {
            return Ok(());
        };
        for c in file.chars() {
            write_escaped(f, c)?;
        }
        f.write_str(": ")
    }
}

// Writes a character of a file's name, a control character as an escape.
fn write_escaped<W: fmt::Write>(f: &mut fmt::Formatter<W>, c: char) -> fmt::Result {
    if c < ' ' || '\u{7f}' <= c && c <= '\u{9f}' {
        let code = u32::from(c);
        write!(f, "\\u{{{code:x}}}")
    } else {
        f.write_char(c)
    }
}

// What ended a run, in words.
#[derive(Drop)]
struct Cause(LineCause);

impl fmt::Display for Cause {
    fn fmt<W: fmt::Write>(&self, f: &mut fmt::Formatter<W>) -> fmt::Result {
        let Cause(cause) = *self;
        match cause {
            LineCause::Settings => f.write_str("expected a JSON object with settings"),
            LineCause::NotACall => f.write_str("expected a JSON object with a call"),
            LineCause::Read => f.write_str("the input can't be read"),
            LineCause::Memory | LineCause::Refused(Refusal::Memory) => f.write_str("out of memory"),
            LineCause::Refused(Refusal::Writer) => f.write_str("the output can't be written"),
            LineCause::Refused(refusal) => write!(f, "the call is refused: {refusal}"),
        }
    }
}

// Reports that memory ran out before the first line.
pub fn out_of_memory(rt: &impl Eprint, origin: Origin<'_>) -> Status {
    let _ = eprintln!(rt; "{origin}out of memory");
    Status::Failure
}

// Reports that the input is compressed.
pub fn refuse_gzip(rt: &impl Eprint, origin: Origin<'_>) -> Status {
    let _ = eprintln!(rt; "{origin}the input is compressed with gzip; use zcat FILE | ttree");
    Status::Usage
}

// Reports that an option is given that has no meaning for something.
pub fn refuse_option(
    rt: &impl Eprint,
    origin: Origin<'_>,
    option: &str,
    something: &str,
) -> Status {
    let _ = eprintln!(rt; "{origin}--{option} has no meaning for {something}");
    Status::Usage
}

// Reports that no line determines the format of the input.
pub fn refuse_format(rt: &impl Eprint, origin: Origin<'_>) -> Status {
    let _ = eprintln!(rt; "{origin}{FORMATS}");
    Status::Usage
}

// Reports how a run over lines ended.
pub fn report(
    rt: &impl Eprint,
    origin: Origin<'_>,
    fault: &Option<LineFault>,
    flush: Flush,
) -> Status {
    let Some(fault) = fault else {
        return report_flush(rt, origin, flush);
    };
    let is_unwritten = fault.cause == LineCause::Refused(Refusal::Writer);
    if is_unwritten && flush == Flush::Closed {
        return Status::Closed;
    }
    let line = fault.line;
    let cause = Cause(fault.cause);
    let _ = eprintln!(rt; "{origin}line {line}: {cause}");
    match fault.cause {
        LineCause::Settings => Status::Usage,
        _ => Status::Failure,
    }
}

// Reports how the output of a run without a fault ended.
pub fn report_flush(rt: &impl Eprint, origin: Origin<'_>, flush: Flush) -> Status {
    match flush {
        Flush::Done => Status::Success,
        Flush::Closed => Status::Closed,
        Flush::Failed => report_unwritten(rt, origin),
    }
}

// Reports that the output can't be written.
pub fn report_unwritten(rt: &impl Eprint, origin: Origin<'_>) -> Status {
    let _ = eprintln!(rt; "{origin}the output can't be written");
    Status::Failure
}

// Reports how the run of a source or a trace ended. It succeeds only if nothing was skipped.
pub fn report_run<R: Eprint, W: Write + Drop, FT: FormatTime + Drop>(
    run: &SourceRun,
    layered: Layered<Wrap<Output<W>>, FT>,
    reporter: &Reporter<'_, R>,
) -> Status {
    let (_registry, layer) = layered.into_parts();
    report_written(run, layer.into_writer(), reporter)
}

// Reports how a run ended that wrote to this output.
pub fn report_written<R: Eprint, W: Write + Drop>(
    run: &SourceRun,
    writer: Wrap<Output<W>>,
    reporter: &Reporter<'_, R>,
) -> Status {
    reporter.report_count();
    let status = reporter.report_end(run.fault, flush_output(writer));
    if status == Status::Success && run.unknown > 0 {
        return Status::Failure;
    }
    status
}

// Reports what ended the reading of a document before its first call.
pub fn report_unread<R: Eprint>(cause: LineCause, reporter: &Reporter<'_, R>) -> Status {
    reporter.report_count();
    reporter.report_end(Some(LineFault { line: 1, cause }), Flush::Done)
}

// Reports how many elements of a trace have no row, if there are any.
pub fn report_undrawn(rt: &impl Eprint, origin: Origin<'_>, undrawn: u64, status: Status) {
    if status == Status::Closed {
        return;
    }
    let _ = match undrawn {
        0 => Ok(()),
        1 => eprintln!(rt; "{origin}1 counter, flow or other element has no row"),
        count => eprintln!(rt; "{origin}{count} counters, flows and other elements have no row"),
    };
}

// What an input consists of.
#[derive(Clone, Copy, Debug, PartialEq, Eq)]
pub enum Unit {
    Line,
    Element,

    // A line of OTLP.
    Export,
}

impl fmt::Display for Unit {
    fn fmt<W: fmt::Write>(&self, f: &mut fmt::Formatter<W>) -> fmt::Result {
        f.write_str(match self {
            Unit::Line | Unit::Export => "line",
            Unit::Element => "element",
        })
    }
}

// What a skipped line or element is or needs, and what was found in its place.
#[derive(Drop)]
struct Reason {
    unit: Unit,
    problem: Problem,
    found: Found,
}

impl fmt::Display for Reason {
    fn fmt<W: fmt::Write>(&self, f: &mut fmt::Formatter<W>) -> fmt::Result {
        match (self.unit, self.problem) {
            (Unit::Export, Problem::Object) => { f.write_str(EXPORT) }
            (_, problem) => {
                let found = &self.found;
                write!(f, "{problem}{found}")
            }
        }
    }
}

// A reporter on standard error of what is skipped. A fault of standard error itself changes
// nothing.
#[derive(Drop)]
pub struct Reporter<'a, R> {
    rt: &'a R,
    origin: Origin<'a>,
    unit: Unit,
    is_strict: bool,
    // How many lines of the input come before those that are numbered.
    pub lines_before: u64,
    // Whether the input isn't a trace at all.
    pub is_no_trace: bool,
    count: u64,
}

impl<R: AllocGlobal + Eprint> Notes for Reporter<'_, R> {
    fn note(&mut self, number: u64, problem: Problem, line: &[u8]) -> bool {
        let origin = self.origin;
        let unit = self.unit;
        if problem == Problem::Trace {
            self.is_no_trace = true;
            let _ = eprintln!(self.rt; "{origin}{problem}");
            return !self.is_strict;
        }
        let number = number.saturating_add(self.lines_before);
        let reason = Reason {
            unit,
            problem,
            found: Found::in_line(self.rt.alloc(), problem, line),
        };
        if self.is_strict {
            let _ = eprintln!(self.rt; "{origin}{unit} {number}: {reason}");
            return false;
        }
        if self.count < NOTED {
            let _ = eprintln!(self.rt; "{origin}{unit} {number}: {reason}, skipped");
        }
        self.count = self.count.saturating_add(1);
        true
    }
}

impl<'a, R: Eprint> Reporter<'a, R> {
    pub fn new(rt: &'a R, origin: Origin<'a>, unit: Unit, is_strict: bool) -> Reporter<'a, R> {
        Reporter {
            rt,
            origin,
            unit,
            is_strict,
            lines_before: 0,
            is_no_trace: false,
            count: 0,
        }
    }

    // Reports how many lines or elements were skipped, if any were.
    fn report_count(&self) {
        let origin = self.origin;
        let unit = self.unit;
        let _ = match self.count {
            0 => Ok(()),
            1 => eprintln!(self.rt; "{origin}1 {unit} skipped"),
            count => eprintln!(self.rt; "{origin}{count} {unit}s skipped"),
        };
    }

    // Reports how a run ended. A line that may not be skipped was reported before. A fault of a
    // trace has no line.
    fn report_end(&self, fault: Option<LineFault>, flush: Flush) -> Status {
        match (self.unit, fault) {
            (
                _,
                Some(
                    LineFault {
                        line: _,
                        cause: LineCause::NotACall,
                    },
                ),
            ) => Status::Failure,
            (Unit::Element | Unit::Export, Some(fault)) => self.report_cause(fault.cause, flush),
            _ => report(self.rt, self.origin, &fault, flush),
        }
    }

    // Reports what ended the run of a trace.
    fn report_cause(&self, cause: LineCause, flush: Flush) -> Status {
        if cause == LineCause::Refused(Refusal::Writer) && flush == Flush::Closed {
            return Status::Closed;
        }
        let origin = self.origin;
        let cause = Cause(cause);
        let _ = eprintln!(self.rt; "{origin}{cause}");
        Status::Failure
    }
}
