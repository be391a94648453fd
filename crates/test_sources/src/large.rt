//! Large inputs, which memory is enough for.

use super::seen::{START, interpreted};
use std::alloc::{AllocError, Global};
use std::test::*;
use ttree_go_test::{Failed, GoTest};
use ttree_source::{Format, Source, format_of_line};
use ttree_tracing::Tracing;

// Runs a source to the input's end. Returns whether each line was known and nothing ended the run.
fn is_whole<S: Source>(alloc: Global, source: &mut S, input: &str) -> Result<bool, AllocError> {
    let run = interpreted(alloc, source, input.as_bytes())?;
    Ok(run.noted.is_empty() && run.fault.is_none())
}

// Returns a line of a test that comes in pieces, a long one, and many lines of another.
fn printed(alloc: Global) -> Result<String, AllocError> {
    let long = "x".repeat(alloc, 110_000)?;
    let part =
        "{\"Action\":\"output\",\"Package\":\"p\",\"Test\":\"A\",\"Output\":\"yyyyyyyyyyyyyyyyyyyy\"}\n".repeat(
            alloc, 500,
        )?;
    let line =
        "{\"Action\":\"output\",\"Package\":\"p\",\"Test\":\"B\",\"Output\":\"z\\n\"}\n".repeat(
            alloc, 6_000,
        )?;
    let mut input = String::from_str(
        alloc,
        "{\"Action\":\"run\",\"Package\":\"p\",\"Test\":\"A\"}\n",
    )?;
    input.push_str(part.as_str())?;
    input.push_str("{\"Action\":\"output\",\"Package\":\"p\",\"Test\":\"A\",\"Output\":\"")?;
    input.push_str(long.as_str())?;
    input.push_str("\\n\"}\n")?;
    input.push_str(line.as_str())?;
    input.push_str("{\"Action\":\"fail\",\"Package\":\"p\"}\n")?;
    Ok(input)
}

#[test]
fn tests_print_much(rt: HostRuntime) -> Result<(), Fail> {
    let input = printed(rt.alloc())?;
    let mut source = GoTest::new(rt.alloc(), 1, START)?;
    assert!(rt; is_whole(rt.alloc(), &mut source, input.as_str())?);
    Ok(())
}

#[test]
fn tests_that_fail_print_much(rt: HostRuntime) -> Result<(), Fail> {
    let input = printed(rt.alloc())?;
    let mut source = Failed::new(rt.alloc(), 1, START)?;
    assert!(rt; is_whole(rt.alloc(), &mut source, input.as_str())?);
    Ok(())
}

#[test]
fn a_first_line_is_long(rt: HostRuntime) -> Result<(), Fail> {
    let long = "x".repeat(rt.alloc(), 1_000_000)?;
    let mut line = String::from_str(rt.alloc(), "{\"Action\":\"run\",\"Package\":\"")?;
    line.push_str(long.as_str())?;
    line.push_str("\"}")?;
    assert!(rt; format_of_line(rt.alloc(), line.as_bytes())? == Some(Format::GoTest));
    Ok(())
}

// Returns a line in 1,001 spans, and 12,000 spans that stay open.
fn nested(alloc: Global) -> Result<String, AllocError> {
    let span = "{\"name\":\"s\"},".repeat(alloc, 1_000)?;
    let mut input = String::from_str(
        alloc,
        "{\"level\":\"INFO\",\"fields\":{\"message\":\"x\"},\"spans\":[",
    )?;
    input.push_str(span.as_str())?;
    input.push_str("{\"name\":\"t\"}]}\n")?;
    for number in 0..12_000_u32 {
        push_new(&mut input, number)?;
    }
    Ok(input)
}

// Appends a line that opens a span.
fn push_new(input: &mut String, number: u32) -> Result<(), AllocError> {
    input.push_str("{\"level\":\"INFO\",\"fields\":{\"message\":\"new\"},\"span\":{\"name\":\"a")?;
    let digits = number.to_string(*input.allocator())?;
    input.push_str(digits.as_str())?;
    Ok(input.push_str("\"},\"spans\":[]}\n")?)
}

#[test]
fn spans_of_tracing_are_deep_and_many(rt: HostRuntime) -> Result<(), Fail> {
    let input = nested(rt.alloc())?;
    let mut source = Tracing::new(rt.alloc(), 1, START);
    assert!(rt; is_whole(rt.alloc(), &mut source, input.as_str())?);
    Ok(())
}
