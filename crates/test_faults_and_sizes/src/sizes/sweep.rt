//! Each quantity at each size: what is drawn is what it must be, over each kind of live spans, and
//! it is read back.

use crate::sizes::bare::{Keeps, make_all};
use crate::sizes::quantity::Quantity;
use crate::sizes::setting::{Settings, next};
use std::alloc::{AllocError, Global};
use std::process::Abort;
use std::str;
use std::test::*;
use tracing_tree::call::Call;
use tracing_tree::format::{Refusal, Tape};
use tracing_tree::layered::Layered;
use tracing_tree::registry::{Registry, Walked};
use tracing_tree::rows::{DrawFault, ReadFault, Row, draw_rows, read_rows};

// How the calls are made.
#[derive(Clone, Copy, Debug)]
enum Method {
    // As one run.
    Run,

    // On a layer without a registry, over a registry that stores paths.
    Registered,

    // Like `Kept`, over a registry that walks them.
    Walked,
}

// Returns what is drawn, or the first refusal.
fn text(
    alloc: Global,
    method: Method,
    settings: Settings,
    calls: Vec<Call>,
) -> Result<Tape, Option<Refusal>> {
    match method {
        Method::Run => by_run(alloc, settings, calls),
        Method::Registered => over(alloc, settings, Registry::new(alloc), calls),
        Method::Walked => over(alloc, settings, Walked::new(alloc), calls),
    }
}

fn by_run(alloc: Global, settings: Settings, calls: Vec<Call>) -> Result<Tape, Option<Refusal>> {
    let mut layered = Layered::new(alloc, settings.layer(alloc));
    let Ok(answers) = layered.run(alloc, calls) else {
        return Err(None);
    };
    for answer in answers {
        if let Err(refusal) = answer {
            return Err(Some(refusal));
        }
    }
    let (_registry, layer) = layered.into_parts();
    Ok(layer.into_writer())
}

fn over<S: Keeps + Drop>(
    alloc: Global,
    settings: Settings,
    spans: S,
    calls: Vec<Call>,
) -> Result<Tape, Option<Refusal>> {
    let mut layer = settings.layer(alloc);
    match make_all(alloc, &mut layer, spans, calls) {
        Some(refusal) => Err(Some(refusal)),
        None => Ok(layer.into_writer()),
    }
}

fn read(alloc: Global, text: &str) -> Result<Vec<Row>, ReadFault> {
    read_rows(alloc, text, 2)
}

fn draw(alloc: Global, rows: &[Row]) -> Result<String, DrawFault> {
    draw_rows(alloc, rows, 2)
}

// Returns whether a text is read, and drawn again.
fn is_read_back(alloc: Global, bytes: &[u8]) -> bool {
    let Ok(text) = str::from_utf8(bytes) else {
        return false;
    };
    let Ok(rows) = read(alloc, text) else {
        return false;
    };
    match draw(alloc, rows.as_slice()) {
        Ok(again) => again.as_str() == text,
        Err(_) => false,
    }
}

// Returns whether a run of this size draws what it must in this way.
fn is_drawn(
    alloc: Global,
    quantity: Quantity,
    size: u64,
    method: Method,
) -> Result<bool, AllocError> {
    let run = quantity.run(alloc, size)?;
    let Ok(tape) = text(alloc, method, Settings::Plain, run.calls) else {
        return Ok(false);
    };
    Ok(tape.bytes() == run.wanted.as_bytes() && is_read_back(alloc, tape.bytes()))
}

// Returns whether a run of this size draws under these settings in this way what it draws as a run.
fn is_alike(
    alloc: Global,
    quantity: Quantity,
    size: u64,
    settings: Settings,
    method: Method,
) -> Result<bool, AllocError> {
    let run = quantity.run(alloc, size)?;
    let again = quantity.run(alloc, size)?;
    let Ok(wanted) = text(alloc, Method::Run, settings, run.calls) else {
        return Ok(false);
    };
    let Ok(tape) = text(alloc, method, settings, again.calls) else {
        return Ok(false);
    };
    Ok(tape.bytes() == wanted.bytes())
}

// Tries a size in one way after another, with settings for which the text is known and with others.
fn try_size(
    rt: &(impl Abort + AllocGlobal),
    quantity: Quantity,
    size: u64,
    number: u64,
) -> Result<(), AllocError> {
    let (method, other) = match size % 3 {
        0 => (Method::Run, Method::Registered),
        1 => (Method::Registered, Method::Walked),
        _ => (Method::Walked, Method::Registered),
    };
    let drawn = is_drawn(rt.alloc(), quantity, size, method)?;
    assert!(rt; drawn, "{quantity:?} of {size}, {method:?}");
    let settings = Settings::Drawn(number);
    let alike = is_alike(rt.alloc(), quantity, size, settings, other)?;
    assert!(rt; alike, "{quantity:?} of {size}, {other:?}, {settings:?}");
    Ok(())
}

// Each size up to the first number, and those beside each power of two up to the second.
fn sizes(alloc: Global, each: u64, most: u64) -> Result<Vec<u64>, AllocError> {
    let mut sizes = Vec::new(alloc);
    for size in 0..=each {
        sizes.push(size)?;
    }
    for digit in 1..=20_u32 {
        let power = 1_u64.wrapping_shl(digit);
        for size in [power.saturating_sub(1), power, power.saturating_add(1)] {
            if size > each && power <= most {
                sizes.push(size)?;
            }
        }
    }
    Ok(sizes)
}

// All sizes of a quantity.
fn sweep(
    rt: &(impl Abort + AllocGlobal),
    quantity: Quantity,
    each: u64,
    most: u64,
) -> Result<(), AllocError> {
    let mut number = most;
    for size in sizes(rt.alloc(), each, most)? {
        number = next(number);
        try_size(rt, quantity, size, number)?;
    }
    Ok(())
}

#[test]
fn spans_are_nested(rt: HostRuntime) -> Result<(), Fail> {
    sweep(&rt, Quantity::Depth, 32, 128)?;
    Ok(())
}

#[test]
fn spans_close_at_once(rt: HostRuntime) -> Result<(), Fail> {
    sweep(&rt, Quantity::AtOnce, 32, 1_024)?;
    Ok(())
}

#[test]
fn spans_live_side_by_side(rt: HostRuntime) -> Result<(), Fail> {
    sweep(&rt, Quantity::Roots, 70, 512)?;
    sweep(&rt, Quantity::Children, 70, 512)?;
    Ok(())
}

#[test]
fn branches_are_shown_in_turn(rt: HostRuntime) -> Result<(), Fail> {
    sweep(&rt, Quantity::Branches, 20, 64)?;
    Ok(())
}

#[test]
fn fields_are_many(rt: HostRuntime) -> Result<(), Fail> {
    sweep(&rt, Quantity::Fields, 70, 2_048)?;
    sweep(&rt, Quantity::Recorded, 70, 512)?;
    Ok(())
}

#[test]
fn texts_are_long(rt: HostRuntime) -> Result<(), Fail> {
    sweep(&rt, Quantity::Bytes, 70, 65_536)?;
    sweep(&rt, Quantity::Lines, 70, 1_024)?;
    Ok(())
}

#[test]
fn calls_are_many(rt: HostRuntime) -> Result<(), Fail> {
    sweep(&rt, Quantity::Handles, 70, 1_024)?;
    sweep(&rt, Quantity::Events, 70, 1_024)?;
    Ok(())
}
