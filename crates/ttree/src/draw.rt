//! What is shown of each format: a drawing, a page or lines of JSON.

use crate::input::{Detected, Head, is_gzip, whole_characters};
use crate::junit::draw_junit;
use crate::options::{Options, name_of};
use crate::otlp::draw_otlp;
use crate::output::Flush;
use crate::page::{write_call_lines, write_input, write_trace};
use crate::report::{
    Origin, Status, out_of_memory, refuse_format, refuse_gzip, refuse_option, report,
};
use crate::shown::Subject;
use crate::tree::{draw_calls, draw_input, draw_trace, some_moment};
use std::alloc::AllocError;
use std::io;
use std::io::{BufReader, Read, Write};
use tracing_tree::lines::BLOCK;
use ttree_adapters::{CountsAtLeast, Mapped, Then};
use ttree_go_test::{Failed, GoTest};
use ttree_logs::Logs;
use ttree_prefix::{Mark, Prefixed};
use ttree_source::{AtLeast, Format, Plain, Problem, Source, is_otlp};
use ttree_tap::Tap;
use ttree_tracing::Tracing;

// Shows an input.
pub fn draw<R: AllocGlobal + Eprint + Print, I: Read + Drop>(
    rt: &R,
    origin: Origin<'_>,
    input: I,
    options: &Options<'_>,
) -> Status {
    let alloc = rt.alloc();
    let Ok(mut lines) = BufReader::with_capacity(alloc, BLOCK, input) else {
        return out_of_memory(rt, origin);
    };
    let drawn = match Head::read(alloc, &mut lines, options.from) {
        Ok(head) => draw_head(rt, origin, &head, lines, options),
        Err(AllocError) => Err(AllocError),
    };
    match drawn {
        Ok(status) => status,
        Err(AllocError) => out_of_memory(rt, origin),
    }
}

// Shows the input, from which `head` has been read.
fn draw_head<R: AllocGlobal + Eprint + Print, I: Read + Drop>(
    rt: &R,
    origin: Origin<'_>,
    head: &Head,
    lines: BufReader<I>,
    options: &Options<'_>,
) -> Result<Status, AllocError> {
    match head.detected {
        Detected::Format(format) => match refusal(rt, origin, format, options) {
            Some(status) => Ok(status),
            None => draw_format(rt, origin, format, head, lines, options),
        },
        Detected::Nothing if head.is_blank() => draw_nothing(rt, origin, options),
        Detected::Nothing => pass_on(rt, origin, head, lines),
        Detected::Gzip => Ok(refuse_gzip(rt, origin)),
        Detected::Fault(fault) => {
            let _ = io::writer(rt).write_all(head.whole());
            Ok(report(rt, origin, &Some(fault), Flush::Done))
        }
    }
}

// Shows an input without a line: nothing, or a page without rows.
fn draw_nothing<R: AllocGlobal + Eprint + Print>(
    rt: &R,
    origin: Origin<'_>,
    options: &Options<'_>,
) -> Result<Status, AllocError> {
    let mut source = Plain::new(some_moment());
    match options.form {
        None => Ok(Status::Success),
        Some(form) => write_input(rt, origin, "".as_bytes(), &mut source, form, options),
    }
}

// Reports an option that is given and has no meaning here.
fn refusal(
    rt: &impl Eprint,
    origin: Origin<'_>,
    format: Format,
    options: &Options<'_>,
) -> Option<Status> {
    if let Some(option) = options.without_meaning(format) {
        return Some(refuse_option(rt, origin, option, name_of(format)));
    }
    if options.form.is_none() {
        options.title?;
        return Some(refuse_option(rt, origin, "title", "a drawing"));
    }
    let option = options.without_drawing()?;
    Some(refuse_option(rt, origin, option, "--html and --json"))
}

// Shows the input, whose format is known. What shows a format isn't inlined, so that the stack has
// the frame of only one.
fn draw_format<R: AllocGlobal + Eprint + Print, I: Read + Drop>(
    rt: &R,
    origin: Origin<'_>,
    format: Format,
    head: &Head,
    lines: BufReader<I>,
    options: &Options<'_>,
) -> Result<Status, AllocError> {
    match format {
        Format::GoTest => draw_tests(rt, origin, head.whole().chain(lines), head.mark, options),
        Format::Tracing => draw_tracing(rt, origin, head.whole().chain(lines), head.mark, options),
        Format::Logs => draw_logs(rt, origin, head.whole().chain(lines), head.mark, options),
        Format::Tap => draw_tap(rt, origin, head.whole().chain(lines), head.mark, options),
        Format::Lines => {
            let before = draw_preamble(rt, origin, head, options)?;
            Ok(before.worse(show_calls(rt, origin, head, lines, options)?))
        }
        Format::Chrome | Format::Otlp | Format::Junit => {
            let before = draw_preamble(rt, origin, head, options)?;
            Ok(before.worse(draw_document(rt, origin, format, head, lines, options)?))
        }
    }
}

// Shows lines of settings and calls.
#[inline(never)]
fn show_calls<R: AllocGlobal + Eprint + Print, I: Read + Drop>(
    rt: &R,
    origin: Origin<'_>,
    head: &Head,
    lines: BufReader<I>,
    options: &Options<'_>,
) -> Result<Status, AllocError> {
    match options.form {
        None => draw_calls(rt, origin, head, lines, options),
        Some(form) => write_call_lines(rt, origin, head, lines, form, options),
    }
}

// Prints the input unchanged, and reports that no line determines its format.
fn pass_on<R: AllocGlobal + Eprint + Print, I: Read + Drop>(
    rt: &R,
    origin: Origin<'_>,
    head: &Head,
    lines: BufReader<I>,
) -> Result<Status, AllocError> {
    let mut lines = lines;
    let mut writer = io::writer(rt);
    let _ = writer.write_all(head.whole());
    let _ = writer.flush();
    let status = refuse_format(rt, origin);
    let mut block = vec![in rt.alloc(); 0; BLOCK]?;
    for _ in 0..u64::MAX {
        match lines.read(block.as_mut_slice()) {
            Ok(0) => break,
            Ok(count) => {
                if writer.write_all(&block.as_slice()[..count]).is_err() {
                    break;
                }
            }
            Err(error) if error.kind() == io::ErrorKind::Interrupted => {}
            Err(_) => break,
        }
    }
    let _ = writer.flush();
    Ok(status)
}

// Draws the lines before those of the format: each is an event at the root. A page has them in its
// data.
fn draw_preamble<R: AllocGlobal + Eprint + Print>(
    rt: &R,
    origin: Origin<'_>,
    head: &Head,
    options: &Options<'_>,
) -> Result<Status, AllocError> {
    if head.preamble().is_empty() || options.form.is_some() {
        return Ok(Status::Success);
    }
    let plain = Mapped::new(Plain::new(some_moment()), options.thread_columns());
    let source = AtLeast::new(plain, options.min_level());
    let (status, _source) = draw_input(
        rt,
        origin,
        head.preamble(),
        source,
        Subject::Preamble,
        options,
    )?;
    Ok(status)
}

// Shows the lines of Go's tests. The status is 1 also if one failed.
#[inline(never)]
fn draw_tests<R: AllocGlobal + Eprint + Print, I: Read + Drop>(
    rt: &R,
    origin: Origin<'_>,
    input: I,
    mark: Option<Mark>,
    options: &Options<'_>,
) -> Result<Status, AllocError> {
    if options.is_failed {
        return draw_failed(rt, origin, input, mark, options);
    }
    let tests = GoTest::new(rt.alloc(), 1, some_moment())?;
    let source = Mapped::new(
        Prefixed::new(rt.alloc(), tests, mark),
        options.failure_lines(rt.alloc()),
    );
    let (status, source) = draw_lines(rt, origin, input, source, options)?;
    let (source, _lines) = source.into_parts();
    Ok(with_tests(status, source.into_source().has_failed()))
}

// Shows what failed of Go's tests.
fn draw_failed<R: AllocGlobal + Eprint + Print, I: Read + Drop>(
    rt: &R,
    origin: Origin<'_>,
    input: I,
    mark: Option<Mark>,
    options: &Options<'_>,
) -> Result<Status, AllocError> {
    let failed = Failed::new(rt.alloc(), 1, some_moment())?;
    let source = Mapped::new(
        Prefixed::new(rt.alloc(), failed, mark),
        options.failure_lines(rt.alloc()),
    );
    let (status, source) = draw_lines(rt, origin, input, source, options)?;
    let (source, _lines) = source.into_parts();
    Ok(with_tests(status, source.into_source().has_failed()))
}

// Returns the status of a run of tests, given whether one has failed.
fn with_tests(status: Status, has_failed: bool) -> Status {
    if has_failed {
        status.worse(Status::Failure)
    } else {
        status
    }
}

// Shows the lines of Rust's tracing.
#[inline(never)]
fn draw_tracing<R: AllocGlobal + Eprint + Print, I: Read + Drop>(
    rt: &R,
    origin: Origin<'_>,
    input: I,
    mark: Option<Mark>,
    options: &Options<'_>,
) -> Result<Status, AllocError> {
    let tracing = Tracing::new(rt.alloc(), 1, some_moment());
    let columns = options.thread_columns();
    let further = Then::new(columns, options.line_fields(rt.alloc())?);
    let source = AtLeast::new(
        Prefixed::new(rt.alloc(), Mapped::new(tracing, further), mark),
        options.min_level(),
    );
    let (status, _source) = draw_lines(rt, origin, input, source, options)?;
    Ok(status)
}

// Shows the lines of a service's JSON logs.
#[inline(never)]
fn draw_logs<R: AllocGlobal + Eprint + Print, I: Read + Drop>(
    rt: &R,
    origin: Origin<'_>,
    input: I,
    mark: Option<Mark>,
    options: &Options<'_>,
) -> Result<Status, AllocError> {
    let logs = match options.group {
        Some(key) => Logs::grouped_by(rt.alloc(), key, 1, some_moment()),
        None => Logs::new(rt.alloc(), 1, some_moment()),
    };
    let source = AtLeast::new(Prefixed::new(rt.alloc(), logs, mark), options.min_level());
    let (status, _source) = draw_lines(rt, origin, input, source, options)?;
    Ok(status)
}

// Shows the lines of TAP. The status is 1 also if a test failed.
#[inline(never)]
fn draw_tap<R: AllocGlobal + Eprint + Print, I: Read + Drop>(
    rt: &R,
    origin: Origin<'_>,
    input: I,
    mark: Option<Mark>,
    options: &Options<'_>,
) -> Result<Status, AllocError> {
    if options.is_only_failed() {
        return draw_failed_tap(rt, origin, input, mark, options);
    }
    let tap = Tap::new(rt.alloc(), 1, some_moment())?;
    let source = AtLeast::new(Prefixed::new(rt.alloc(), tap, mark), options.min_level());
    let (status, source) = draw_lines(rt, origin, input, source, options)?;
    Ok(with_tests(status, source.into_source().into_source().has_failed()))
}

// Shows what failed of TAP. The lines that say why are shown whatever their level.
fn draw_failed_tap<R: AllocGlobal + Eprint + Print, I: Read + Drop>(
    rt: &R,
    origin: Origin<'_>,
    input: I,
    mark: Option<Mark>,
    options: &Options<'_>,
) -> Result<Status, AllocError> {
    let tap = Tap::only_failed(rt.alloc(), 1, some_moment())?;
    let min_level = options.min_level();
    let source = Mapped::new(
        Prefixed::new(rt.alloc(), tap, mark),
        CountsAtLeast { min_level },
    );
    let (status, source) = draw_lines(rt, origin, input, source, options)?;
    let (source, _counts) = source.into_parts();
    Ok(with_tests(status, source.into_source().has_failed()))
}

// Shows the lines of a source, and returns the source afterwards.
fn draw_lines<R: AllocGlobal + Eprint + Print, I: Read + Drop, S: Source + Drop>(
    rt: &R,
    origin: Origin<'_>,
    input: I,
    source: S,
    options: &Options<'_>,
) -> Result<(Status, S), AllocError> {
    let Some(form) = options.form else {
        return draw_input(rt, origin, input, source, Subject::Lines, options);
    };
    let mut source = source;
    let status = write_input(rt, origin, input, &mut source, form, options)?;
    Ok((status, source))
}

// Shows a document, which is read whole first.
#[inline(never)]
fn draw_document<R: AllocGlobal + Eprint + Print, I: Read + Drop>(
    rt: &R,
    origin: Origin<'_>,
    format: Format,
    head: &Head,
    lines: BufReader<I>,
    options: &Options<'_>,
) -> Result<Status, AllocError> {
    let mut input = head.body().chain(lines);
    let mut bytes = Vec::new(rt.alloc());
    if let Err(error) = input.read_to_end(&mut bytes) {
        if error.kind() == io::ErrorKind::OutOfMemory {
            return Err(AllocError);
        }
        let _ = eprintln!(rt; "{origin}the input can't be read");
        return Ok(Status::Failure);
    }
    if is_gzip(bytes.as_slice()) {
        return Ok(refuse_gzip(rt, origin));
    }
    let format = format_of_document(format, bytes.as_slice(), options);
    if format == Format::Otlp {
        return draw_otlp(rt, origin, head, bytes, options);
    }
    let Some(text) = whole_characters(bytes.as_slice()) else {
        let _ = eprintln!(rt; "{origin}{}", Problem::Utf8);
        return Ok(Status::Failure);
    };
    match (format, options.form) {
        (Format::Junit, _) => draw_junit(rt, origin, head, text, options),
        (_, None) => draw_trace(rt, origin, bytes.as_slice(), text, options),
        (_, Some(form)) => write_trace(rt, origin, head, text, form, options),
    }
}

// Returns the format of a document. What looks like a trace line by line may be an object of OTLP.
fn format_of_document(format: Format, bytes: &[u8], options: &Options<'_>) -> Format {
    match format {
        Format::Chrome if options.from.is_none() && is_otlp(bytes) => Format::Otlp,
        _ => format,
    }
}
