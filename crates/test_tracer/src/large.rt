//! A tracer with many open spans, and with long strings.

use crate::steps::{depth, emit, open};
use jiff::Timestamp;
use std::alloc::{AllocError, Global};
use std::test::*;
use tracing_tree_core::format::Tape;
use tracing_tree_core::style::Level;
use tracing_tree_core::time::Moment;
use tracing_tree_layer::{HierarchicalLayer, Layered};
use tracing_tree_tracer::Value::Plain;
use tracing_tree_tracer::{TraceFault, Tracer};

// Returns a tracer whose rows aren't indented.
fn flat(alloc: Global) -> Tracer<Layered<Tape, ()>, Moment> {
    let start = Moment {
        mono: 0,
        wall: Timestamp::UNIX_EPOCH,
    };
    let layer = HierarchicalLayer::new(alloc, 0, false, Tape::new(alloc));
    Tracer::new(alloc, Layered::new(alloc, layer), start)
}

// Opens this many spans, each in the one before.
fn open_all(tracer: &mut Tracer<Layered<Tape, ()>, Moment>, count: u32) -> Result<(), TraceFault> {
    for _ in 0..count {
        open(tracer, "a", &[])?;
    }
    Ok(())
}

fn close_all(tracer: &mut Tracer<Layered<Tape, ()>, Moment>) -> Result<(), TraceFault> {
    tracer.close_to(0)
}

// Records an event whose message and only field are this long.
fn emit_long(
    tracer: &mut Tracer<Layered<Tape, ()>, Moment>,
    alloc: Global,
    length: usize,
) -> Result<Result<(), TraceFault>, AllocError> {
    let long = "x".repeat(alloc, length)?;
    Ok(emit(
        tracer,
        Level::Info,
        long.as_str(),
        &[("k", Plain(long.as_str()))],
    ))
}

#[test]
fn many_spans_are_open(rt: HostRuntime) -> Result<(), Fail> {
    let mut tracer = flat(rt.alloc());
    assert_eq!(rt; open_all(&mut tracer, 5_000), Ok(()));
    assert_eq!(rt; depth(&tracer), 5_000);
    assert_eq!(rt; close_all(&mut tracer), Ok(()));
    assert_eq!(rt; depth(&tracer), 0);
    Ok(())
}

#[test]
fn a_message_is_long(rt: HostRuntime) -> Result<(), Fail> {
    let mut tracer = flat(rt.alloc());
    assert_eq!(rt; emit_long(&mut tracer, rt.alloc(), 1_000_000)?, Ok(()));
    Ok(())
}

// Each size up to 20, and those beside each power of two up to 1,024.
const SIZES: [u32; 36] = [
    0, 1, 2, 3, 4, 5, 6, 7, 8, 9, 10, 11, 12, 13, 14, 15, 16, 17, 18, 19, 20, 31, 32, 33, 63, 64,
    65, 127, 128, 129, 255, 256, 257, 1_023, 1_024, 1_025,
];

// Opens this many spans, records an event with strings of this length in the last, and closes them.
fn is_made(alloc: Global, size: u32) -> Result<bool, AllocError> {
    let mut tracer = flat(alloc);
    let opened = open_all(&mut tracer, size);
    let emitted = emit_long(&mut tracer, alloc, size as usize)?;
    let depth = depth(&tracer);
    let closed = close_all(&mut tracer);
    Ok(opened.is_ok() && emitted.is_ok() && closed.is_ok() && depth == size as usize)
}

#[test]
fn sizes_do_not_matter(rt: HostRuntime) -> Result<(), Fail> {
    for size in SIZES {
        assert!(rt; is_made(rt.alloc(), size)?, "{size}");
    }
    Ok(())
}
