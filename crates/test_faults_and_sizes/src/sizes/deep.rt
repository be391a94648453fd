//! Chains of spans, rows and lines of calls that are far deeper or longer than any in use.

use crate::sizes::run::numbered;
use std::alloc::{AllocError, Global};
use std::test::*;
use test_support::tree::{LINED, Settings, Tree, drawn};
use test_support::{Step, at, attributes, lined};
use tracing_tree::call::{Call, Reply};
use tracing_tree::field::Fields;
use tracing_tree::format::{Id, Tape};
use tracing_tree::layer::HierarchicalLayer;
use tracing_tree::layered::Layered;
use tracing_tree::lines::{LineFault, run_lines};
use tracing_tree::registry::Parent;
use tracing_tree::rows::read_rows;
use tracing_tree::style::Level;

// No columns a level, so that deep drawings stay short.
const NARROW: Settings = Settings {
    amount: 0,
    lines: false,
    ..LINED
};

const RETRACED: Settings = Settings {
    span_retrace: true,
    close_retrace: true,
    ..NARROW
};

const DEFERRED: Settings = Settings {
    deferred_spans: true,
    ..RETRACED
};

// Opens spans, each the parent of the next. The first gets this id.
fn push_chain(steps: &mut Vec<Step<'static>>, first: u64, depth: u64) -> Result<(), AllocError> {
    steps.push(Step::New("s", None))?;
    for place in 1..depth {
        let parent = first.wrapping_add(place).wrapping_sub(1);
        steps.push(Step::New("s", Some(parent)))?;
    }
    Ok(())
}

// Returns how many rows are drawn when the last close of a chain closes all of it.
fn rows_closed_at_once(alloc: Global, settings: Settings, depth: u64) -> Result<usize, AllocError> {
    let mut steps = Vec::new(alloc);
    push_chain(&mut steps, 1, depth)?;
    for id in 1..=depth {
        steps.push(Step::Close(id))?;
    }
    let text = drawn(alloc, settings, steps.as_slice())?;
    Ok(text.as_str().lines().count())
}

#[test]
fn a_long_chain_closes_at_once(rt: HostRuntime) -> Result<(), Fail> {
    for settings in [NARROW, RETRACED] {
        let rows = rows_closed_at_once(rt.alloc(), settings, 1_500)?;
        assert_eq!(rt; rows, 1_500);
    }
    Ok(())
}

// Two chains, with an event in the last span of each by turns. Returns whether each call is
// accepted.
fn alternates(alloc: Global, settings: Settings, depth: u64) -> Result<bool, AllocError> {
    let mut steps = Vec::new(alloc);
    push_chain(&mut steps, 1, depth)?;
    push_chain(&mut steps, depth.wrapping_add(1), depth)?;
    for chain in [1_u64, 2, 1, 2] {
        let last = chain.wrapping_mul(depth);
        steps.push(Step::Event(Level::Info, "x", Some(last)))?;
    }
    let answers = Tree::new(alloc, settings)?.run(alloc, steps.as_slice())?;
    Ok(answers.iter().all(|answer| answer.is_ok()))
}

#[test]
fn deep_chains_are_shown_in_turn(rt: HostRuntime) -> Result<(), Fail> {
    for settings in [RETRACED, DEFERRED] {
        assert!(rt; alternates(rt.alloc(), settings, 1_500)?);
    }
    Ok(())
}

#[test]
fn a_span_has_many_fields(rt: HostRuntime) -> Result<(), Fail> {
    let alloc = rt.alloc();
    let mut root = attributes(alloc, "a", Parent::Root)?;
    root.fields = Fields::from(numbered(alloc, 20_000)?);
    let mut layered = lined(alloc)?;
    assert!(rt; layered.call(Call::New(root, at(None))) == Ok(Reply::Span(Id(1))));
    Ok(())
}

#[test]
fn an_event_has_many_long_lines(rt: HostRuntime) -> Result<(), Fail> {
    let alloc = rt.alloc();
    let mut line = "x".repeat(alloc, 4_000)?;
    line.push_str("\n")?;
    let message = line.as_str().repeat(alloc, 1_000)?;
    let steps = [Step::Event(Level::Info, message.as_str(), None)];
    let text = drawn(alloc, LINED, steps.as_slice())?;
    // A block that ends with a line end has an empty line more.
    assert_eq!(rt; text.as_str().lines().count(), 1_001);
    Ok(())
}

#[test]
fn a_row_of_many_lines_is_read(rt: HostRuntime) -> Result<(), Fail> {
    let alloc = rt.alloc();
    let mut text = String::from_str(alloc, "┐a\n├─x\n")?;
    text.push_str("│  x\n".repeat(alloc, 10_000)?.as_str())?;
    let rows = read_rows(alloc, text.as_str(), 2).map_or(0, |rows| rows.len());
    assert_eq!(rt; rows, 2);
    Ok(())
}

// A wrap mark is as wide as the row that it follows.
#[test]
fn a_wrap_mark_is_wide(rt: HostRuntime) -> Result<(), Fail> {
    let alloc = rt.alloc();
    let layer = HierarchicalLayer::new(alloc, 100_000, false, Tape::new(alloc))
        .with_indent_lines(true)
        .with_wraparound(2);
    let mut layered = Box::new(alloc, Layered::new(alloc, layer))?;
    for (step, id) in [(Step::New("a", None), 1), (Step::New("b", Some(1)), 2)] {
        assert!(rt; layered.call(step.call(alloc)?) == Ok(Reply::Span(Id(id))));
    }
    Ok(())
}

// Returns how many calls of these lines are accepted, and what ends the run.
fn ran(alloc: Global, input: &str) -> (u64, Option<LineFault>) {
    let run = run_lines(alloc, input.as_bytes(), Tape::new(alloc));
    (run.accepted, run.fault)
}

#[test]
fn lines_have_many_fields(rt: HostRuntime) -> Result<(), Fail> {
    let alloc = rt.alloc();
    let mut fields = "[\"k\",\"v\"],".repeat(alloc, 5_000)?;
    fields.push_str("[\"k\",\"v\"]")?;
    let input = format!(in alloc;
        "{{}}\n{{\"call\":\"new\",\"name\":\"a\",\"fields\":[{fields}]}}\n{{\"call\":\"record\",\"id\":1,\"fields\":[{fields}]}}\n{{\"call\":\"event\",\"level\":\"INFO\",\"fields\":[{fields}],\"current\":1}}\n"
    )?;
    assert_eq!(rt; ran(alloc, input.as_str()), (3, None));
    Ok(())
}

// Only the last value of a key counts, however long the line is.
#[test]
fn a_long_line_has_a_float_that_does_not_count(rt: HostRuntime) -> Result<(), Fail> {
    let alloc = rt.alloc();
    let long = "x".repeat(alloc, 100_000)?;
    let input = format!(in alloc;
        "{{}}\n{{\"call\":\"new\",\"name\":\"a\",\"x\":1.5,\"x\":\"{long}\"}}\n"
    )?;
    assert_eq!(rt; ran(alloc, input.as_str()), (1, None));
    Ok(())
}

#[test]
fn many_lines_are_skipped(rt: HostRuntime) -> Result<(), Fail> {
    let alloc = rt.alloc();
    let mut input = String::from_str(alloc, "{}\n")?;
    input.push_str("\n".repeat(alloc, 2_000_000)?.as_str())?;
    input.push_str("{\"call\":\"new\",\"name\":\"a\"}\n")?;
    assert_eq!(rt; ran(alloc, input.as_str()), (1, None));
    Ok(())
}
