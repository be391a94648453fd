//! Single values, calls and drawings that are far larger than any in use.

use crate::sizes::run::{event, numbered};
use std::alloc::{AllocError, Global};
use std::io;
use std::io::Write;
use std::process::Abort;
use std::test::*;
use test_support::{Answer, at, attributes, made, recorded};
use tracing_tree::call::{Call, Reply};
use tracing_tree::field::{Field, Fields};
use tracing_tree::format::{Id, Refusal, Tape};
use tracing_tree::layer::HierarchicalLayer;
use tracing_tree::layered::Layered;
use tracing_tree::lines::run_lines;
use tracing_tree::registry::{LookupSpan, Parent, Registry};
use tracing_tree::rows::{
    EventPath, ReadFault, Row, RowFault, read_paths, read_rows, rows_to_json,
};
use tracing_tree::text::Text;
use tracing_tree::time::{FormatTime, Uptime};

// Returns whether a string of `bytes` bytes is stored and copied.
fn is_kept(alloc: Global, bytes: usize) -> Result<bool, AllocError> {
    let long = "x".repeat(alloc, bytes)?;
    let text = Text::from_str(alloc, long.as_str())?;
    let copy = text.clone()?;
    Ok(text.as_str() == long.as_str() && copy == text)
}

#[test]
fn texts_are_kept_and_copied(rt: HostRuntime) -> Result<(), Fail> {
    for bytes in [0_usize, 1, 15, 16, 17, 70, 1_000, 65_537, 1_000_000] {
        assert!(rt; is_kept(rt.alloc(), bytes)?, "{bytes}");
    }
    let long = "x".repeat(rt.alloc(), 10_000_000)?;
    assert_eq!(rt;
        Text::from_str(rt.alloc(), long.as_str())?.as_str().len(),
        10_000_000
    );
    Ok(())
}

// Returns the lengths of a field that shows a string of `bytes` bytes, quoted and unchanged.
fn lengths_shown(alloc: Global, bytes: usize) -> Result<(usize, usize), AllocError> {
    let long = "x".repeat(alloc, bytes)?;
    if !long.as_str().is_ascii() {
        return Ok((0, 0));
    }
    let quoted = Field::text(alloc, "a", long.as_str())?;
    let rendered = Field::rendered(alloc, long.as_str(), long.as_str())?;
    Ok((quoted.value.as_str().len(), rendered.name.as_str().len()))
}

#[test]
fn fields_show_long_texts(rt: HostRuntime) -> Result<(), Fail> {
    for bytes in [0_usize, 1, 70, 127, 128, 129, 1_000, 1_000_000] {
        let wanted = (bytes.saturating_add(2), bytes);
        assert_eq!(rt; lengths_shown(rt.alloc(), bytes)?, wanted);
    }
    Ok(())
}

// Returns how many fields there are after `second` fields were appended to `first`.
fn appended(alloc: Global, first: u64, second: u64) -> Result<usize, AllocError> {
    let mut fields = Fields::from(numbered(alloc, first)?);
    fields.append(Fields::from(numbered(alloc, second)?))?;
    Ok(fields.as_slice().len())
}

#[test]
fn fields_are_appended(rt: HostRuntime) -> Result<(), Fail> {
    for first in [0_u64, 1, 2, 3, 70, 1_000] {
        for second in [0_u64, 1, 2, 3, 70, 1_000] {
            let count = appended(rt.alloc(), first, second)?;
            assert_eq!(rt;
                count as u64,
                first.saturating_add(second),
                "{first} {second}"
            );
        }
    }
    Ok(())
}

// Returns the length of a string of `bytes` bytes after the uptime `   0.000000s` was appended, if
// it was.
fn timed(alloc: Global, bytes: usize) -> Result<usize, AllocError> {
    let mut text = "x".repeat(alloc, bytes)?;
    match Uptime::from(0).format_time(&at(None).moment, &mut text) {
        Ok(()) => Ok(text.as_str().len()),
        Err(_) => Ok(0),
    }
}

#[test]
fn times_are_appended_to_long_texts(rt: HostRuntime) -> Result<(), Fail> {
    for bytes in [0_usize, 1, 70, 100, 128, 1_000_000] {
        assert_eq!(rt; timed(rt.alloc(), bytes)?, bytes.saturating_add(12));
    }
    Ok(())
}

// Returns a layer over memory without lines.
fn spaced(alloc: Global, amount: usize) -> Result<Box<Layered<Tape, ()>>, AllocError> {
    let layer = HierarchicalLayer::new(alloc, amount, false, Tape::new(alloc));
    Ok(Box::new(alloc, Layered::new(alloc, layer))?)
}

fn answer(layered: &mut Layered<Tape, ()>, call: Call) -> Answer {
    layered.call(call)
}

// Nests `depth` spans with this amount. Returns how many are accepted, and how many bytes they
// draw.
fn nested(alloc: Global, amount: usize, depth: u64) -> Result<(u64, usize), AllocError> {
    let mut layered = spaced(alloc, amount)?;
    let mut accepted = 0_u64;
    let mut current = None;
    for id in 1..=depth {
        if answer(&mut layered, made(alloc, "s", current)?) == Ok(Reply::Span(Id(id))) {
            accepted = accepted.saturating_add(1);
        }
        current = Some(id);
    }
    Ok((accepted, layered.writer().bytes().len()))
}

#[test]
fn spans_are_deep_or_wide(rt: HostRuntime) -> Result<(), Fail> {
    assert_eq!(rt; nested(rt.alloc(), 0, 5_000)?.0, 5_000);
    let (accepted, bytes) = nested(rt.alloc(), 100_000, 3)?;
    assert_eq!(rt; accepted, 3);
    assert!(rt; bytes > 300_000, "{bytes}");
    Ok(())
}

// Returns `count` clones of a span that isn't there.
fn clones(alloc: Global, count: u64) -> Result<Vec<Call>, AllocError> {
    let mut calls = Vec::new(alloc);
    for _ in 0..count {
        calls.push(Call::Clone(Id(1)))?;
    }
    Ok(calls)
}

// Returns how many answers a run of them has. All must be equal.
fn answered(alloc: Global, count: u64) -> Result<usize, AllocError> {
    let calls = clones(alloc, count)?;
    let answers: Vec<Answer> = spaced(alloc, 2)?.run(alloc, calls)?;
    let refused = Err(Refusal::NotHeld(Id(1)));
    Ok(answers.iter().filter(|answer| **answer == refused).count())
}

#[test]
fn runs_are_long(rt: HostRuntime) -> Result<(), Fail> {
    assert_eq!(rt; answered(rt.alloc(), 1_100_000)?, 1_100_000);
    Ok(())
}

#[test]
fn an_event_has_many_fields(rt: HostRuntime) -> Result<(), Fail> {
    let mut layered = spaced(rt.alloc(), 2)?;
    let event_call = event(rt.alloc(), "x", 100_000, None)?;
    assert!(rt; answer(&mut layered, event_call) == Ok(Reply::Done));
    Ok(())
}

// Draws settings and a line with `spaces` spaces and a call. Returns the number of bytes.
fn drawn_behind(alloc: Global, spaces: usize) -> Result<usize, AllocError> {
    let mut input = String::from_str(alloc, "{}\n")?;
    input.push_str(" ".repeat(alloc, spaces)?.as_str())?;
    input.push_str("{\"call\":\"new\",\"name\":\"a\"}\n")?;
    let ran = run_lines(alloc, input.as_bytes(), Tape::new(alloc));
    Ok(ran.writer.bytes().len())
}

#[test]
fn lines_are_long(rt: HostRuntime) -> Result<(), Fail> {
    for spaces in [0_usize, 70, 8_192, 10_000_000] {
        assert_eq!(rt; drawn_behind(rt.alloc(), spaces)?, 4, "{spaces}");
    }
    Ok(())
}

// Counts what it is given.
#[derive(Drop)]
struct Counted(usize);

impl Write for Counted {
    fn write(&mut self, bytes: &[u8]) -> io::Result<usize> {
        self.0 = self.0.wrapping_add(bytes.len());
        Ok(bytes.len())
    }

    fn flush(&mut self) -> io::Result<()> {
        Ok(())
    }
}

fn printed(alloc: Global, text: &[u8], writer: &mut Counted) -> Result<(), RowFault> {
    rows_to_json(alloc, text, writer, 2)
}

// Returns how many bytes are printed for an event of `bytes` bytes outside all spans.
fn printed_of(alloc: Global, bytes: usize) -> Result<usize, AllocError> {
    let mut text = "x".repeat(alloc, bytes)?;
    text.push_str("\n")?;
    let mut writer = Counted(0);
    match printed(alloc, text.as_bytes(), &mut writer) {
        Ok(()) => Ok(writer.0),
        Err(_) => Ok(0),
    }
}

// In addition to the event, 56 bytes are printed.
#[test]
fn rows_are_long(rt: HostRuntime) -> Result<(), Fail> {
    for bytes in [1_usize, 70, 4_096, 65_537, 1_000_000] {
        assert_eq!(rt; printed_of(rt.alloc(), bytes)?, bytes.saturating_add(56));
    }
    Ok(())
}

fn rows(alloc: Global, text: &str) -> Result<Vec<Row>, ReadFault> {
    read_rows(alloc, text, 2)
}

// Returns how many rows are read from `lines` lines.
fn rows_read(alloc: Global, lines: usize) -> Result<usize, AllocError> {
    let text = "x\n".repeat(alloc, lines)?;
    match rows(alloc, text.as_str()) {
        Ok(rows) => Ok(rows.len()),
        Err(_) => Ok(0),
    }
}

#[test]
fn drawings_are_long(rt: HostRuntime) -> Result<(), Fail> {
    for lines in [0_usize, 1, 70, 1_023, 1_024, 1_025, 100_000] {
        assert_eq!(rt; rows_read(rt.alloc(), lines)?, lines);
    }
    Ok(())
}

fn paths(alloc: Global, text: &str) -> Result<Vec<EventPath>, ReadFault> {
    read_paths(alloc, text, 2)
}

// Returns how many ancestors the one event has, if only a span at this level is shown.
fn ancestors(alloc: Global, level: usize) -> Result<usize, AllocError> {
    let indent = " ".repeat(alloc, level.saturating_sub(1).saturating_mul(2))?;
    let text = format!(in alloc; "{indent}└─┐b \n{indent}  ├─x\n")?;
    match paths(alloc, text.as_str()) {
        Ok(paths) => Ok(
            paths
                .first()
                .map_or(0, |path| path.ancestors.as_slice().len()),
        ),
        Err(_) => Ok(0),
    }
}

// One for each level up to the span's, with the root's.
#[test]
fn drawings_are_deep(rt: HostRuntime) -> Result<(), Fail> {
    for level in [1_usize, 2, 69, 70, 127, 128, 129, 2_001] {
        assert_eq!(rt; ancestors(rt.alloc(), level)?, level.saturating_add(1));
    }
    Ok(())
}

// Returns a registry of `count` spans, or of those that are accepted.
fn roots(alloc: Global, count: u64) -> Result<Registry, AllocError> {
    let mut registry = Registry::new(alloc);
    for _ in 0..count {
        let root = attributes(alloc, "s", Parent::Root)?;
        if registry.new_span(root, &at(None)).is_err() {
            break;
        }
    }
    Ok(registry)
}

#[test]
fn many_spans_live(rt: HostRuntime) -> Result<(), Fail> {
    let registry = roots(rt.alloc(), 1_000_100)?;
    for id in [1, 2, 550_000, 1_000_099, 1_000_100] {
        assert!(rt; registry.span(Id(id)).is_some(), "{id}");
    }
    assert!(rt; registry.span(Id(1_000_101)).is_none());
    Ok(())
}

// Returns how many fields a span has after `count` were recorded, one by one.
fn recorded_onto(alloc: Global, count: usize) -> Result<usize, AllocError> {
    let mut registry = roots(alloc, 1)?;
    for _ in 0..count {
        registry.record(Id(1), recorded(alloc, "k", "1")?)?;
    }
    match registry.data(Id(1)) {
        Some(data) => Ok(data.fields.as_slice().len()),
        None => Ok(0),
    }
}

#[test]
fn many_fields_are_recorded(rt: HostRuntime) -> Result<(), Fail> {
    for count in [0_usize, 1, 2, 70, 100_000] {
        assert_eq!(rt; recorded_onto(rt.alloc(), count)?, count);
    }
    Ok(())
}
