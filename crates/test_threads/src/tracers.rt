//! Threads with separate tracers over one layer: the rows of each thread are those of a thread
//! by itself.

ghost use Rattle.std.specs.Prelude.{◌≡◌, [], None, false};

use jiff::Timestamp;
use std::alloc::{AllocError, Global};
use std::marker::Brand;
use std::sync::Wait;
use std::sync::ledger::{Blank, Ledger};
use std::test::*;
use std::thread::Threads;
use std::{str, thread};
use tracing_tree::tracer::Value::{Quoted, Whole};
use tracing_tree::tracer::{Calls, SharedCalls, StreamingCalls, TraceFault, Tracer, within};
use tracing_tree_core::format::{Id, Refusal, Tape};
use tracing_tree_core::time::Moment;
use tracing_tree_layer::{HierarchicalLayer, Layered};
use tracing_tree_shared::{Finished, Pass, SharedLayer, StreamingLayer};

// The start of 1970.
const START: Moment = Moment {
    mono: 0,
    wall: Timestamp::UNIX_EPOCH,
};

// How many threads there are.
const THREADS: usize = 3;

// Threads count from 1.
fn thread_at(place: usize) -> u64 {
    (place as u64).saturating_add(1)
}

// An amount with which each row is drawn, and one with which a row at level 1 exceeds all memory.
const NARROW: usize = 2;

const WIDE: usize = 1 << 62;

// With lines and this amount; each row begins with the thread that made its call.
fn emitting(alloc: Global, amount: usize) -> Layered<Tape, ()>
    ensures spans { result.forest.spans ≡ [] }
    ensures last { result.layer.last ≡ None }
    ensures sound { result.layer.failed ≡ false }
    ensures tape { result.layer.writer.bytes ≡ [] }
{
    let layer = HierarchicalLayer::new(alloc, amount, false, Tape::new(alloc))
        .with_indent_lines(true)
        .with_thread_ids(true);
    Layered::new(alloc, layer)
}

// How many queries a connection has.
const QUERIES: u8 = 20;

// A connection with its queries.
fn serve<C: Calls>(tracer: &mut Tracer<C, Moment>) -> Result<(), TraceFault> {
    tracer.open("conn", &[("peer", Quoted("82.9.9.9"))])?;
    for at in 0..QUERIES {
        query(tracer, at)?;
    }
    tracer.record(&[("served", Whole(i128::from(QUERIES)))])?;
    tracer.close()?;
    Ok(())
}

fn query<C: Calls>(tracer: &mut Tracer<C, Moment>, at: u8) -> Result<(), TraceFault> {
    within(
        tracer,
        "query",
        &[("at", Whole(i128::from(at)))],
        |tracer| { tracer.warn("slow", &[("ms", Whole(271))]) },
    )
}

// Returns a tracer of this thread over what takes its calls.
fn tracer_of<C: Calls>(alloc: Global, thread: u64, calls: C) -> Tracer<C, Moment> {
    Tracer::new(alloc, calls, START).with_thread(thread, None)
}

// Draws as one thread over a receiver of calls, and returns the receiver. It is generic, since the
// proof over only one receiver takes far longer.
fn serve_over<C: Calls>(alloc: Global, thread: u64, calls: C) -> (Result<(), TraceFault>, C) {
    let mut tracer = tracer_of(alloc, thread, calls);
    let served = serve(&mut tracer);
    (served, tracer.into_layered())
}

// Returns what a thread draws that has the layer to itself.
fn alone(alloc: Global, thread: u64) -> Result<Layered<Tape, ()>, TraceFault> {
    let (served, layered) = serve_over(alloc, thread, emitting(alloc, NARROW));
    served?;
    Ok(layered)
}

// Returns the rows of a text that start like the first row of another, one after another.
fn rows_like(alloc: Global, text: &str, first: &str) -> Result<String, AllocError> {
    let mut rows = String::new(alloc);
    for row in text.lines() {
        if row.as_bytes().first() == first.as_bytes().first() {
            rows.push_str(row)?;
            rows.push_str("\n")?;
        }
    }
    Ok(rows)
}

// Returns whether the rows of each thread are those of a thread alone.
fn are_rows_of_each(alloc: Global, text: &str) -> Result<bool, Fail> {
    for at in 0..THREADS {
        let layered = alone(alloc, thread_at(at))?;
        let wanted = str::from_utf8(layered.writer().bytes())?;
        let rows = rows_like(alloc, text, wanted)?;
        if rows.as_str() != wanted {
            return Ok(false);
        }
    }
    Ok(true)
}

// A thread draws with its pass, and gives it back.
fn serve_with_pass<L: Ledger, R: Wait>(
    rt: &R,
    alloc: Global,
    layer: &SharedLayer<(), L>,
    thread: u64,
    pass: Pass<L>,
) -> (Result<(), TraceFault>, Pass<L>) {
    let calls = SharedCalls::new(rt, alloc, layer, pass);
    let (served, calls) = serve_over(alloc, thread, calls);
    (served, calls.into_pass())
}

type Session = Result<(bool, Option<Finished>), AllocError>;

// Draws as each thread, with separate passes. Returns whether all were served, and what the passes
// show.
fn passes_with<L: Ledger + Send + Sync, R: Threads + Wait + Sync>(
    rt: &R,
    alloc: Global,
    blank: Blank,
) -> Session
    requires name { blank.name ≡ L.name }
    requires parts { blank.parts ≡ L.parts }
    requires four { L.parts ≡ 4 }
{
    let (layer, passes) = SharedLayer::<(), L>::open(
        alloc,
        blank,
        emitting(alloc, NARROW),
        THREADS,
    )?;
    let mut jobs = Vec::new(alloc);
    for (at, pass) in passes.into_iter().enumerate() {
        jobs.push((thread_at(at), pass))?;
    }
    let all = thread::map_vec(
        rt,
        jobs,
        &|(thread, pass)| serve_with_pass(rt, alloc, &layer, thread, pass),
    )?;
    let mut passes = Vec::new(alloc);
    let mut are_served = true;
    for (served, pass) in all {
        are_served = are_served && served.is_ok();
        passes.push(pass)?;
    }
    Ok((are_served, layer.finish(passes).ok()))
}

#[test]
fn each_thread_has_a_tracer_over_its_pass(rt: HostRuntime) -> Result<(), Fail> {
    let alloc = rt.alloc();
    let (are_served, finished) = passes_with::<Brand, HostRuntime>(&rt, alloc, Blank::new(4))?;
    assert!(rt; are_served);
    let finished = finished.expect(&rt, "one history");
    assert_eq!(rt; finished.accepted, 189);
    assert!(rt; are_rows_of_each(alloc, str::from_utf8(finished.output.bytes())?)?);
    Ok(())
}

// A thread draws on a layer without a history.
fn serve_streaming<R: Wait>(
    rt: &R,
    alloc: Global,
    layer: &StreamingLayer<Tape, ()>,
    thread: u64,
) -> Result<(), TraceFault> {
    let calls = StreamingCalls::new(rt, alloc, layer);
    serve_over(alloc, thread, calls).0
}

#[test]
fn each_thread_has_a_tracer_over_a_streaming_layer(rt: HostRuntime) -> Result<(), Fail> {
    let alloc = rt.alloc();
    let layer = StreamingLayer::new(emitting(alloc, NARROW));
    let all = thread::map_indices(
        &rt,
        alloc,
        THREADS,
        &|at| serve_streaming(&rt, alloc, &layer, thread_at(at)),
    )?;
    for served in all {
        assert_eq!(rt; served, Ok(()));
    }
    let counted = layer.into_counted();
    assert_eq!(rt; counted.accepted(), 189);
    let layered = counted.into_layered();
    assert!(rt; are_rows_of_each(alloc, str::from_utf8(layered.writer().bytes())?)?);
    Ok(())
}

// What opening a span is answered, and how many spans are open then.
type Opened = (Result<Id, TraceFault>, usize);

// Opens a span and another in it, closes the first, and gives out what came of the other.
fn open_two<C: Calls>(tracer: &mut Tracer<C, Moment>) -> Result<Opened, TraceFault> {
    tracer.open("a", &[])?;
    let inner = (tracer.open("b", &[]), tracer.depth());
    tracer.close()?;
    Ok(inner)
}

// A row of the other needs more memory than there is.
const REFUSED: Opened = (Err(TraceFault::Refused(Refusal::Memory)), 1);

#[test]
fn a_refusal_of_a_streaming_layer_leaves_the_open_spans(rt: HostRuntime) -> Result<(), Fail> {
    let alloc = rt.alloc();
    let layer = StreamingLayer::new(emitting(alloc, WIDE));
    let mut tracer = tracer_of(alloc, 1, StreamingCalls::new(&rt, alloc, &layer));
    assert_eq!(rt; open_two(&mut tracer), Ok(REFUSED));
    drop(tracer);
    assert_eq!(rt; layer.into_counted().accepted(), 2);
    Ok(())
}

// Returns what `open_two` gives over a pass, and how many receipts the pass has then.
fn refused_with<L: Ledger, R: Wait>(
    rt: &R,
    alloc: Global,
    blank: Blank,
) -> Result<Option<(Result<Opened, TraceFault>, usize)>, AllocError>
    requires name { blank.name ≡ L.name }
    requires parts { blank.parts ≡ L.parts }
    requires two { L.parts ≡ 2 }
{
    let (layer, mut passes) = SharedLayer::<(), L>::open(alloc, blank, emitting(alloc, WIDE), 1)?;
    let Some(pass) = passes.pop() else {
        return Ok(None);
    };
    let mut tracer = tracer_of(alloc, 1, SharedCalls::new(rt, alloc, &layer, pass));
    let answer = open_two(&mut tracer);
    let receipts = tracer.layered().pass().receipts().len();
    Ok(Some((answer, receipts)))
}

#[test]
fn a_refusal_leaves_the_open_spans_and_the_receipts(rt: HostRuntime) -> Result<(), Fail> {
    let refused = refused_with::<Brand, HostRuntime>(&rt, rt.alloc(), Blank::new(2))?;
    assert_eq!(rt; refused, Some((Ok(REFUSED), 2)));
    Ok(())
}
