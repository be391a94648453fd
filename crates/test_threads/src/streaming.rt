//! A layer for several threads that keeps no history.

use crate::opened::lined;
use crate::plain::stream;
use std::alloc::Global;
use std::io::Write;
use std::sync::Wait;
use std::test::*;
use std::{io, thread};
use test_support::{closed, event_call, made};
use tracing_tree_core::format::{Refusal, Tape, Wrap};
use tracing_tree_core::style::Level;
use tracing_tree_layer::{HierarchicalLayer, Layered};
use tracing_tree_shared::StreamingLayer;

// Submits `count` events, and returns whether their numbers rise.
fn events<R: Wait>(rt: &R, alloc: Global, layer: &StreamingLayer<Tape, ()>, count: u64) -> bool {
    let mut next = 0;
    for _ in 0..count {
        let Ok(call) = event_call(alloc, Level::Info, "x", None) else {
            return false;
        };
        let Some(number) = stream(rt, alloc, layer, call) else {
            return false;
        };
        if number < next {
            return false;
        }
        next = number.saturating_add(1);
    }
    true
}

#[test]
fn two_threads_stream(rt: HostRuntime) -> Result<(), Fail> {
    let alloc = rt.alloc();
    let layer = StreamingLayer::new(lined(alloc));
    let (one, other) = thread::join(
        &rt,
        || events(&rt, alloc, &layer, 100),
        || events(&rt, alloc, &layer, 100),
    );
    assert!(rt; one && other);
    let counted = layer.into_counted();
    assert_eq!(rt; counted.accepted(), 200);
    let text = "INFO x\n".repeat(alloc, 200)?;
    assert_eq!(rt; counted.into_layered().writer().bytes(), text.as_bytes());
    Ok(())
}

#[test]
fn a_refused_call_has_no_number(rt: HostRuntime) -> Result<(), Fail> {
    let alloc = rt.alloc();
    let layer = StreamingLayer::new(lined(alloc));
    let draft = layer.draft(alloc, closed(7));
    let draft = draft.ok().expect(&rt, "a draft");
    let Err(refused) = layer.submit(&rt, draft) else {
        return Err(Fail::from("accepted"));
    };
    assert!(rt; matches!(refused.cause, Refusal::NotHeld(_)));
    assert_eq!(rt; *refused.draft.call(), closed(7));
    assert_eq!(rt; layer.into_counted().accepted(), 0);
    Ok(())
}

// A writer that notes at each flush how many bytes it has taken.
#[derive(Drop)]
struct Noting {
    taken: usize,
    flushed: Vec<usize>,
}

impl Write for Noting {
    fn write(&mut self, bytes: &[u8]) -> io::Result<usize> {
        self.taken = self.taken.wrapping_add(bytes.len());
        Ok(bytes.len())
    }

    fn flush(&mut self) -> io::Result<()> {
        self.flushed.push(self.taken)?;
        Ok(())
    }
}

// Returns a layer without lines over such a writer.
fn over_noting(alloc: Global) -> StreamingLayer<Wrap<Noting>, ()> {
    let writer = Wrap::new(Noting {
        taken: 0,
        flushed: Vec::new(alloc),
    });
    StreamingLayer::new(Layered::new(alloc, HierarchicalLayer::new(alloc, 2, false, writer)))
}

// Opens this many roots, and flushes after each. Returns whether they are numbered from 0.
fn flush_each<R: Wait>(
    rt: &R,
    alloc: Global,
    layer: &StreamingLayer<Wrap<Noting>, ()>,
    count: u64,
) -> bool {
    for number in 0..count {
        let Ok(call) = made(alloc, "a", None) else {
            return false;
        };
        if stream(rt, alloc, layer, call) != Some(number) {
            return false;
        }
        layer.flush(rt);
    }
    true
}

// Returns the count of the accepted calls, and what the writer noted.
fn noted(layer: StreamingLayer<Wrap<Noting>, ()>) -> (u64, Vec<usize>) {
    let counted = layer.into_counted();
    let accepted = counted.accepted();
    let (_registry, layer) = counted.into_layered().into_parts();
    (accepted, layer.into_writer().into_inner().flushed)
}

#[test]
fn a_flush_reaches_the_writer(rt: HostRuntime) -> Result<(), Fail> {
    let alloc = rt.alloc();
    let layer = over_noting(alloc);
    assert!(rt; flush_each(&rt, alloc, &layer, 3));
    let (accepted, flushed) = noted(layer);
    assert_eq!(rt; accepted, 3);
    assert_eq!(rt; flushed.as_slice(), [4, 8, 12].as_slice());
    Ok(())
}
