//! Waves of calls that open and close the same spans each time, each call timed by itself.

use crate::calls::Calls;
use crate::sink::Sink;
use std::rt::Clock as MachineClock;
use std::time::Instant;
use tracing_tree::call::{Call, Reply};
use tracing_tree::format::Refusal;
use tracing_tree::layer::HierarchicalLayer;
use tracing_tree::layered::Layered;

// How many roots live at once in a wave, and how many of them are opened or closed in a row.
const ROOTS: u64 = 100_000;

const ROW: u64 = 1_000;

// How many pairs of branches a wave has, and how deep they are at most.
const PAIRS: u64 = 500;

const DEPTH: u64 = 40;

// What the calls of a wave took.
#[derive(Clone, Copy)]
struct Wave {
    calls: u64,
    nanos: u64,
    longest: u64,
    refused: u64,
}

impl Wave {
    const EMPTY: Wave = Wave {
        calls: 0,
        nanos: 0,
        longest: 0,
        refused: 0,
    };

    // One call more.
    fn with(self, nanos: u64, is_accepted: bool) -> Wave {
        Wave {
            calls: self.calls.wrapping_add(1),
            nanos: self.nanos.wrapping_add(nanos),
            longest: self.longest.max(nanos),
            refused: self.refused.wrapping_add(u64::from(!is_accepted)),
        }
    }
}

// A layer, its next calls, and what the wave took so far.
#[derive(Drop)]
struct Soak {
    layered: Layered<Sink, ()>,
    calls: Calls,
    wave: Wave,
}

// Makes waves, and prints what each took.
pub fn run<R: AllocGlobal + MachineClock + Print>(
    rt: &R,
    waves: u32,
    deferred: bool,
) -> anyhow::Result<()> {
    let layer = HierarchicalLayer::new(rt.alloc(), 2, false, Sink { bytes: 0 })
        .with_indent_lines(true)
        .with_span_retrace(true)
        .with_close_retrace(true)
        .with_deferred_spans(deferred);
    let mut soak = Soak {
        layered: Layered::new(rt.alloc(), layer),
        calls: Calls::new(rt.alloc()),
        wave: Wave::EMPTY,
    };
    for number in 1..=waves {
        make_wave(rt, &mut soak)?;
        report(rt, number, soak.wave)?;
        soak.wave = Wave::EMPTY;
    }
    Ok(())
}

fn report(rt: &impl Print, number: u32, wave: Wave) -> anyhow::Result<()> {
    let Wave {
        calls,
        nanos,
        longest,
        refused,
    } = wave;
    println!(rt;
        "wave {number}: {calls} calls, {nanos} ns, the longest {longest} ns, {refused} refused"
    )?;
    Ok(())
}

fn make_wave<R: AllocGlobal + MachineClock>(rt: &R, soak: &mut Soak) -> anyhow::Result<()> {
    roots(rt, soak)?;
    for pair in 0..PAIRS {
        branches(rt, soak, 1 + pair % DEPTH)?;
    }
    grown(rt, soak)
}

// Makes the calls that were prepared.
fn make<R: AllocGlobal + MachineClock>(rt: &R, soak: &mut Soak) -> anyhow::Result<()> {
    for call in soak.calls.take() {
        let start = Instant::now(rt)?;
        let answer = emitted(&mut soak.layered, call);
        let took = start.elapsed(rt)?;
        let nanos = u64::try_from(took.as_nanos()).unwrap_or(u64::MAX);
        soak.wave = soak.wave.with(nanos, answer.is_ok());
    }
    Ok(())
}

// What a call is answered. The contract says nothing, since only the answer is looked at here.
fn emitted(layered: &mut Layered<Sink, ()>, call: Call) -> Result<Reply, Refusal> {
    layered.call(call)
}

// Roots that are all live at once, some with an event, and close in the order of their opening.
fn roots<R: AllocGlobal + MachineClock>(rt: &R, soak: &mut Soak) -> anyhow::Result<()> {
    let first = soak.calls.next();
    for _row in 0..ROOTS / ROW {
        open_row(soak)?;
        make(rt, soak)?;
    }
    for row in 0..ROOTS / ROW {
        let from = first.wrapping_add(row.wrapping_mul(ROW));
        for id in 0..ROW {
            soak.calls.close(from.wrapping_add(id))?;
        }
        make(rt, soak)?;
    }
    Ok(())
}

// Opens roots. Each tenth has an event.
fn open_row(soak: &mut Soak) -> anyhow::Result<()> {
    for place in 0..ROW {
        let id = soak.calls.open(None)?;
        if place % 10 == 0 {
            soak.calls.emit("begun", Some(id))?;
        }
    }
    Ok(())
}

// A chain of `depth` spans below the span `parent`. Returns its last.
fn chain(soak: &mut Soak, parent: u64, depth: u64) -> anyhow::Result<u64> {
    let mut last = parent;
    for _span in 0..depth {
        last = soak.calls.open(Some(last))?;
    }
    Ok(last)
}

// Two branches below one root, with events in turn, so that each is shown again. The handles go
// from the root on, so each branch closes at once.
fn branches<R: AllocGlobal + MachineClock>(
    rt: &R,
    soak: &mut Soak,
    depth: u64,
) -> anyhow::Result<()> {
    let root = soak.calls.open(None)?;
    let left = chain(soak, root, depth)?;
    let right = chain(soak, root, depth)?;
    for _turn in 0..3 {
        soak.calls.emit("in turn", Some(left))?;
        soak.calls.emit("in turn", Some(right))?;
    }
    for id in root..=right {
        soak.calls.close(id)?;
    }
    make(rt, soak)
}

// A span whose fields and handles grow, and an event with a long message.
fn grown<R: AllocGlobal + MachineClock>(rt: &R, soak: &mut Soak) -> anyhow::Result<()> {
    let id = soak.calls.open(None)?;
    for _time in 0..ROW {
        soak.calls.record(id)?;
        soak.calls.clone_span(id)?;
    }
    let message = "x".repeat(rt.alloc(), 1 << 16)?;
    soak.calls.emit(message.as_str(), Some(id))?;
    for _time in 0..=ROW {
        soak.calls.close(id)?;
    }
    make(rt, soak)
}
