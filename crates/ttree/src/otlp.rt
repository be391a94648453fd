//! Traces and logs of OTLP shown.

use crate::document::DocumentRead;
use crate::input::{Head, read_through, whole_characters};
use crate::options::Options;
use crate::page::write_read;
use crate::report::{Origin, Reporter, Status, Unit};
use crate::shown::Subject;
use crate::tree::{draw_read, some_moment};
use std::alloc::{AllocError, Global};
use std::io::BufReader;
use std::str::from_utf8;
use tracing_tree::lines::{BLOCK, LineCause};
use ttree_otlp::{OtlpRead, OtlpTree, read_otlp};
use ttree_source::{Notes, Problem};

// Shows traces and logs of OTLP. Lines that aren't UTF-8 are skipped.
pub fn draw_otlp<R: AllocGlobal + Eprint + Print>(
    rt: &R,
    origin: Origin<'_>,
    head: &Head,
    bytes: Vec<u8>,
    options: &Options<'_>,
) -> Result<Status, AllocError> {
    let mut bytes = bytes;
    let mut reporter = Reporter::new(rt, origin, Unit::Export, options.is_strict);
    reporter.lines_before = head.lines_before;
    if let Some(len) = readable_len(bytes.as_slice()) {
        bytes.truncate(len);
    }
    let bytes = match String::from_utf8(bytes) {
        Ok(text) => return show(rt, origin, head, text, reporter, options),
        Err(error) => error.into_bytes(),
    };
    let Readable { text, skipped } = Readable::of(rt.alloc(), bytes.as_slice())?;
    drop(bytes);
    for line in skipped {
        if !reporter.note(line, Problem::Utf8, &[]) {
            return Ok(Status::Failure);
        }
    }
    let status = show(rt, origin, head, text, reporter, options)?;
    Ok(status.worse(Status::Failure))
}

// Returns the length of the text of these bytes, if all of them are UTF-8.
fn readable_len(bytes: &[u8]) -> Option<usize> {
    match whole_characters(bytes) {
        Some(text) => Some(text.len()),
        None => None,
    }
}

// The lines of an input that are UTF-8.
#[derive(Drop)]
struct Readable {
    // Another line is empty here.
    text: String,
    // The numbers of the other lines.
    skipped: Vec<u64>,
}

impl Readable {
    fn of(alloc: Global, bytes: &[u8]) -> Result<Readable, AllocError> {
        let Ok(mut lines) = BufReader::with_capacity(alloc, BLOCK, bytes) else {
            return Err(AllocError);
        };
        let mut readable = Readable {
            text: String::new(alloc),
            skipped: Vec::new(alloc),
        };
        let mut line = Vec::new(alloc);
        for number in 1..u64::MAX {
            line.clear();
            if read_through(&mut lines, &mut line).is_err() {
                return Err(AllocError);
            }
            if line.is_empty() {
                break;
            }
            readable.take(number, line.as_slice())?;
        }
        Ok(readable)
    }

    fn take(&mut self, number: u64, line: &[u8]) -> Result<(), AllocError> {
        match from_utf8(line) {
            Ok(line) => self.text.push_str(line),
            Err(_) => {
                self.skipped.push(number)?;
                self.text.push_str("\n")
            }
        }
    }
}

// Shows what the options select of a text.
fn show<R: AllocGlobal + Eprint + Print>(
    rt: &R,
    origin: Origin<'_>,
    head: &Head,
    text: String,
    reporter: Reporter<'_, R>,
    options: &Options<'_>,
) -> Result<Status, AllocError> {
    let alloc = rt.alloc();
    let mut reporter = reporter;
    let selection = options.selection(alloc)?;
    let read = read_otlp(alloc, 1, some_moment(), &selection, text, &mut reporter);
    let OtlpRead { tree, unknown } = read;
    if is_nothing(&tree) {
        let selecting = options.selecting(alloc)?;
        if !selecting.is_empty() {
            let _ = eprintln!(rt; "{origin}nothing is selected by {selecting}");
        }
    }
    let read = DocumentRead {
        document: tree,
        unknown,
    };
    match options.form {
        Some(form) => write_read(rt, origin, head, read, form, &reporter, options),
        None => draw_read(
            rt,
            origin,
            read,
            Subject::Document,
            None,
            &reporter,
            options,
        ),
    }
}

// Returns whether there is nothing to draw.
fn is_nothing(tree: &Result<OtlpTree, LineCause>) -> bool {
    match tree {
        Ok(tree) => tree.is_empty(),
        Err(_) => false,
    }
}
