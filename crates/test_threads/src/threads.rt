//! Threads that share a layer: each call appears once in the history, and a layer of one thread
//! that runs it writes the same output.

ghost use Rattle.std.specs.Prelude.{◌≡◌};

use crate::opened::{lined, retracing};
use crate::plain::{finish, make};
use std::alloc::{AllocError, Global};
use std::marker::Brand;
use std::sync::Wait;
use std::sync::ledger::{Blank, Ledger};
use std::test::*;
use std::thread::Threads;
use std::{str, thread};
use test_support::{closed, event_call, made};
use tracing_tree::rows::{Row, read_paths, read_rows};
use tracing_tree_core::format::{Id, Refusal, Tape};
use tracing_tree_core::style::Level;
use tracing_tree_layer::Layered;
use tracing_tree_layer::call::{Call, Reply};
use tracing_tree_shared::{FinishFault, Finished, Pass, SharedLayer};

// Records `count` events outside all spans.
fn events<L: Ledger, R: Wait>(
    rt: &R,
    alloc: Global,
    layer: &SharedLayer<(), L>,
    pass: &mut Pass<L>,
    count: u64,
) {
    for _ in 0..count {
        let Ok(call) = event_call(alloc, Level::Info, "x", None) else {
            return;
        };
        make(rt, alloc, layer, pass, call);
    }
}

// A root of this name, fifty events in it with its name as their message, and its close.
fn tree<L: Ledger, R: Wait>(
    rt: &R,
    alloc: Global,
    layer: &SharedLayer<(), L>,
    pass: &mut Pass<L>,
    name: &str,
) {
    let Ok(call) = made(alloc, name, None) else {
        return;
    };
    let Some(Reply::Span(Id(root))) = make(rt, alloc, layer, pass, call) else {
        return;
    };
    for _ in 0..50 {
        let Ok(call) = event_call(alloc, Level::Info, name, Some(root)) else {
            return;
        };
        make(rt, alloc, layer, pass, call);
    }
    make(rt, alloc, layer, pass, closed(root));
}

// Returns the name of a thread's root.
fn name_of(thread: usize) -> &'static str {
    match thread {
        0 => "t1",
        1 => "t2",
        2 => "t3",
        _ => "t4",
    }
}

type Session = Result<Option<Finished>, AllocError>;

fn two_threads_with<L: Ledger + Send + Sync, R: Threads + Wait + Sync>(
    rt: &R,
    alloc: Global,
    blank: Blank,
) -> Session
    requires name { blank.name ≡ L.name }
    requires parts { blank.parts ≡ L.parts }
    requires three { L.parts ≡ 3 }
{
    let (layer, mut passes) = SharedLayer::<(), L>::open(alloc, blank, lined(alloc), 2)?;
    thread::for_each_mut(
        rt,
        passes.as_mut_slice(),
        2,
        &|_, pass| { events(rt, alloc, &layer, pass, 100) },
    );
    Ok(finish(layer, passes))
}

fn four_threads_with<L: Ledger + Send + Sync, R: Threads + Wait + Sync>(
    rt: &R,
    alloc: Global,
    blank: Blank,
) -> Session
    requires name { blank.name ≡ L.name }
    requires parts { blank.parts ≡ L.parts }
    requires five { L.parts ≡ 5 }
{
    let (layer, mut passes) = SharedLayer::<(), L>::open(alloc, blank, retracing(alloc), 4)?;
    thread::for_each_mut(
        rt,
        passes.as_mut_slice(),
        4,
        &|at, pass| { tree(rt, alloc, &layer, pass, name_of(at)) },
    );
    Ok(finish(layer, passes))
}

fn answer(layered: &mut Layered<Tape, ()>, call: Call) -> Result<Reply, Refusal> {
    layered.call(call)
}

// Makes the calls of a history, and returns whether each gets the same answer and the text is the
// same.
fn is_replayed(mut layered: Layered<Tape, ()>, finished: Finished) -> bool {
    for (call, reply) in finished.history {
        if answer(&mut layered, call) != Ok(reply) {
            return false;
        }
    }
    layered.writer().bytes() == finished.output.bytes()
}

#[test]
fn two_threads(rt: HostRuntime) -> Result<(), Fail> {
    let alloc = rt.alloc();
    let finished = two_threads_with::<Brand, HostRuntime>(&rt, alloc, Blank::new(3))?;
    let finished = finished.expect(&rt, "one history");
    assert_eq!(rt; finished.accepted, 200);
    let text = "INFO x\n".repeat(alloc, 200)?;
    assert_eq!(rt; finished.output.bytes(), text.as_bytes());
    assert!(rt; is_replayed(lined(alloc), finished));
    Ok(())
}

// Returns how many events of a text are nested in the root whose name is their message.
fn under_their_roots(alloc: Global, text: &str) -> Result<usize, Fail> {
    let rows = read_rows(alloc, text, 2)?;
    let paths = read_paths(alloc, text, 2)?;
    let mut count: usize = 0;
    for path in &paths {
        let Some(Some(root)) = path.ancestors.as_slice().first() else {
            continue;
        };
        let (Some(event), Some(root)) = (rows.get(path.event), rows.get(*root)) else {
            continue;
        };
        if is_named(event, root) {
            count = count.saturating_add(1);
        }
    }
    Ok(count)
}

// Returns whether an event's message is the name of a root.
fn is_named(event: &Row, root: &Row) -> bool {
    let (Some(message), Some(name)) = (
        event.lines().as_slice().first(),
        root.lines().as_slice().first(),
    ) else {
        return false;
    };
    match (
        message.as_str().strip_prefix(" INFO "),
        name.as_str().strip_suffix(" "),
    ) {
        (Some(message), Some(name)) => message == name,
        _ => false,
    }
}

#[test]
fn four_threads(rt: HostRuntime) -> Result<(), Fail> {
    let alloc = rt.alloc();
    let finished = four_threads_with::<Brand, HostRuntime>(&rt, alloc, Blank::new(5))?;
    let finished = finished.expect(&rt, "one history");
    assert_eq!(rt; finished.accepted, 208);
    let text = str::from_utf8(finished.output.bytes())?;
    assert_eq!(rt; under_their_roots(alloc, text)?, 200);
    assert!(rt; is_replayed(retracing(alloc), finished));
    Ok(())
}

fn no_passes_with<L: Ledger>(alloc: Global, blank: Blank) -> Session
    requires name { blank.name ≡ L.name }
    requires parts { blank.parts ≡ L.parts }
    requires one { L.parts ≡ 1 }
{
    let (layer, passes) = SharedLayer::<(), L>::open(alloc, blank, lined(alloc), 0)?;
    Ok(finish(layer, passes))
}

#[test]
fn no_passes(rt: HostRuntime) -> Result<(), Fail> {
    let finished = no_passes_with::<Brand>(rt.alloc(), Blank::new(1))?;
    let finished = finished.expect(&rt, "one history");
    assert_eq!(rt; finished.accepted, 0);
    assert_eq!(rt; finished.output.bytes(), "".as_bytes());
    assert!(rt; finished.config.indent_lines());
    Ok(())
}

fn missing_pass_with<L: Ledger>(alloc: Global, blank: Blank) -> Result<bool, AllocError>
    requires name { blank.name ≡ L.name }
    requires parts { blank.parts ≡ L.parts }
    requires three { L.parts ≡ 3 }
{
    let (layer, mut passes) = SharedLayer::<(), L>::open(alloc, blank, lined(alloc), 2)?;
    drop(passes.pop());
    Ok(matches!(layer.finish(passes), Err(FinishFault::MissingPass)))
}

#[test]
fn missing_pass(rt: HostRuntime) -> Result<(), Fail> {
    assert!(rt; missing_pass_with::<Brand>(rt.alloc(), Blank::new(3))?);
    Ok(())
}
