//! Runs that give one quantity each size up to 20, and those next to each power of two up to
//! 1,024.

use super::seen::{START, Skipped, drawn, interpreted};
use std::alloc::{AllocError, Global};
use std::test::*;
use ttree_chrome::{Leaves, run_trace};
use ttree_go_test::GoTest;
use ttree_source::{Cut, Source};
use ttree_tracing::Tracing;

// What an input has many of.
#[derive(Clone, Copy, Debug)]
enum Quantity {
    // Tests that run at once.
    Tests,
    // Lines that a test prints.
    Printed,
    // Strings that together are one printed line of a test.
    Parts,
    // Bytes of a line that a test prints.
    Bytes,
    // Spans around an event of tracing.
    Spans,
    // Fields of an event of tracing.
    Fields,
    // Elements of a trace, each within the one before.
    Nested,
    // Elements of a trace, one after another.
    Elements,
}

impl Quantity {
    const ALL: [Quantity; 8] = [
        Quantity::Tests,
        Quantity::Printed,
        Quantity::Parts,
        Quantity::Bytes,
        Quantity::Spans,
        Quantity::Fields,
        Quantity::Nested,
        Quantity::Elements,
    ];

    // Appends the input with this size.
    fn push(self, input: &mut String, size: u32) -> Result<(), AllocError> {
        match self {
            Quantity::Tests => push_tests(input, size),
            Quantity::Printed => push_lines(input, size, "x\\n"),
            Quantity::Parts => push_lines(input, size, "x"),
            Quantity::Bytes => push_long_line(input, size),
            Quantity::Spans => push_event(input, "message", "{\"name\":\"s\"},", size),
            Quantity::Fields => push_fields(input, size),
            Quantity::Nested => push_trace(input, size, true),
            Quantity::Elements => push_trace(input, size, false),
        }
    }

    // Returns whether a run of this input knew all of it, and came to its end.
    fn is_run(self, alloc: Global, input: &str) -> Result<bool, AllocError> {
        match self {
            Quantity::Tests | Quantity::Printed | Quantity::Parts | Quantity::Bytes => {
                is_whole(alloc, &mut GoTest::new(alloc, 1, START)?, input)
            }
            Quantity::Spans | Quantity::Fields => {
                is_whole(alloc, &mut Tracing::new(alloc, 1, START), input)
            }
            Quantity::Nested | Quantity::Elements => is_trace(alloc, input),
        }
    }
}

fn push_tests(input: &mut String, size: u32) -> Result<(), AllocError> {
    for action in ["run", "pass"] {
        for number in 0..size {
            write!(
                input,
                "{{\"Action\":\"{action}\",\"Package\":\"p\",\"Test\":\"T{number}\"}}\n"
            )?;
        }
    }
    Ok(())
}

// A test that prints this string so often.
fn push_lines(input: &mut String, size: u32, text: &str) -> Result<(), AllocError> {
    for _ in 0..size {
        write!(
            input,
            "{{\"Action\":\"output\",\"Package\":\"p\",\"Test\":\"T\",\"Output\":\"{text}\"}}\n"
        )?;
    }
    Ok(())
}

fn push_long_line(input: &mut String, size: u32) -> Result<(), AllocError> {
    let text = "x".repeat(*input.allocator(), size as usize)?;
    push_lines(input, 1, text.as_str())
}

// Appends an event with one field of this name, in `size` of these spans and one more.
fn push_event(input: &mut String, name: &str, span: &str, size: u32) -> Result<(), AllocError> {
    let spans = span.repeat(*input.allocator(), size as usize)?;
    write!(
        input,
        "{{\"level\":\"INFO\",\"fields\":{{\"{name}\":\"x\"}},\"spans\":[{spans}{{\"name\":\"t\"}}]}}\n"
    )
}

fn push_fields(input: &mut String, size: u32) -> Result<(), AllocError> {
    input.push_str("{\"level\":\"INFO\",\"fields\":{")?;
    for number in 0..size {
        write!(input, "\"k{number}\":{number},")?;
    }
    input.push_str("\"message\":\"x\"}}\n")
}

// Elements that begin one after another. Each lasts until after the end of the next if they are
// nested.
fn push_trace(input: &mut String, size: u32, nested: bool) -> Result<(), AllocError> {
    input.push_str("[")?;
    for number in 0..size {
        let left = size.wrapping_sub(number).wrapping_mul(20);
        let length = if nested { left } else { 5 };
        let start = number.wrapping_mul(10);
        write!(
            input,
            "{{\"ph\":\"X\",\"name\":\"a\",\"pid\":1,\"tid\":1,\"ts\":{start},\"dur\":{length}}},"
        )?;
    }
    input.push_str("{\"ph\":\"i\",\"name\":\"b\",\"pid\":1,\"tid\":1,\"ts\":0}]")
}

fn is_whole<S: Source>(alloc: Global, source: &mut S, input: &str) -> Result<bool, AllocError> {
    let run = interpreted(alloc, source, input.as_bytes())?;
    Ok(run.noted.is_empty() && run.fault.is_none())
}

fn is_trace(alloc: Global, text: &str) -> Result<bool, AllocError> {
    let cut = Cut {
        min_time: 0,
        depth: None,
    };
    let mut notes = Skipped::new(alloc);
    let mut layered = drawn(alloc)?;
    let made = run_trace(
        alloc,
        1,
        START,
        cut,
        Leaves::Rows,
        text,
        &mut *layered,
        &mut notes,
    );
    Ok(made.run.fault.is_none() && notes.lines.is_empty())
}

// Returns whether runs of each size reach the end of their input.
fn are_run(alloc: Global, quantity: Quantity, sizes: &[u32]) -> Result<bool, AllocError> {
    for size in sizes {
        let mut input = String::new(alloc);
        quantity.push(&mut input, *size)?;
        if !quantity.is_run(alloc, input.as_str())? {
            return Ok(false);
        }
    }
    Ok(true)
}

const SIZES: [u32; 36] = [
    0, 1, 2, 3, 4, 5, 6, 7, 8, 9, 10, 11, 12, 13, 14, 15, 16, 17, 18, 19, 20, 31, 32, 33, 63, 64,
    65, 127, 128, 129, 255, 256, 257, 1_023, 1_024, 1_025,
];

#[test]
fn sizes_do_not_matter(rt: HostRuntime) -> Result<(), Fail> {
    for quantity in Quantity::ALL {
        let run = are_run(rt.alloc(), quantity, SIZES.as_slice())?;
        assert!(rt; run, "{quantity:?}");
    }
    Ok(())
}
