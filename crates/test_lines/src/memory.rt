//! Rows wider than any memory: which refusal a call gets, and whether the call or its line ran out
//! of memory.

use std::alloc::{AllocError, Global};
use std::test::*;
use test_support::{event_call, made};
use tracing_tree::call::Reply;
use tracing_tree::format::{Id, Refusal, Tape};
use tracing_tree::layer::HierarchicalLayer;
use tracing_tree::layered::Layered;
use tracing_tree::lines::{LineCause, LineFault, run_lines};
use tracing_tree::style::Level;

// A row at level 1 of this amount is past all memory, and one at level 4 is too wide.
const AMOUNT: usize = 1 << 62;

// Spans that are first shown with an event in them.
fn deferring(alloc: Global) -> Result<Box<Layered<Tape, ()>>, AllocError> {
    let layer = HierarchicalLayer::new(alloc, AMOUNT, false, Tape::new(alloc))
        .with_indent_lines(true)
        .with_span_retrace(true)
        .with_deferred_spans(true);
    Ok(Box::new(alloc, Layered::new(alloc, layer))?)
}

// Makes `depth` nested spans.
fn nest(layered: &mut Layered<Tape, ()>, alloc: Global, depth: u64) -> Result<(), Fail> {
    for parent in 0..depth {
        let current = if parent == 0 { None } else { Some(parent) };
        let made = made(alloc, "a", current)?;
        if layered.call(made).is_err() {
            return Err(Fail::from("refused"));
        }
    }
    Ok(())
}

// Returns the answer to an event in the innermost of `depth` spans.
fn answer_at(alloc: Global, depth: u64) -> Result<Result<Reply, Refusal>, Fail> {
    let mut layered = deferring(alloc)?;
    nest(&mut layered, alloc, depth)?;
    let event = event_call(alloc, Level::Info, "x", Some(depth))?;
    Ok(layered.call(event))
}

#[test]
fn memory_is_refused_to_a_row(rt: HostRuntime) -> Result<(), Fail> {
    let answer = answer_at(rt.alloc(), 3)?;
    assert_eq!(rt; answer, Err(Refusal::Memory));
    Ok(())
}

#[test]
fn an_event_too_wide_asks_for_no_memory(rt: HostRuntime) -> Result<(), Fail> {
    let answer = answer_at(rt.alloc(), 4)?;
    assert_eq!(rt; answer, Err(Refusal::TooWide));
    Ok(())
}

#[test]
fn memory_refused_to_a_call_is_reported_by_the_call(rt: HostRuntime) -> Result<(), Fail> {
    let alloc = rt.alloc();
    let text = concat!(
        "{\"indent_amount\":4611686018427387904,\"indent_lines\":true}\n",
        "{\"call\":\"new\",\"name\":\"a\"}\n",
        "{\"call\":\"new\",\"name\":\"b\",\"current\":1}\n",
    );
    let run = run_lines(alloc, text.as_bytes(), Tape::new(alloc));
    let fault = LineFault {
        line: 3,
        cause: LineCause::Refused(Refusal::Memory),
    };
    assert_eq!(rt; run.fault, Some(fault));
    assert_eq!(rt; run.accepted, 1);
    assert_eq!(rt; run.writer.bytes(), "┐a \n".as_bytes());
    Ok(())
}
