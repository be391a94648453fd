//! How each work is timed.

ghost use Rattle.std.specs.Prelude.{◌≡◌, ◌+◌, ◌≤◌, [], None, false};

use super::hand::{Hand, Work, event};
use super::receiver::{Alone, Locked, Nowhere, Receiver, Streamed, UnderLock, WithPass};
use std::alloc::{AllocError, Global};
use std::rt::Clock;
use std::sync::ledger::{Blank, Ledger};
use std::sync::{Mutex, Wait};
use std::thread::Threads;
use std::time::Instant;
use std::{mem, thread};
use test_support::made;
use tracing_tree::format::{Config, Tape};
use tracing_tree::{HierarchicalLayer, Layered};
use tracing_tree_shared::{Counted, SharedLayer, StreamingLayer};

// How many threads there are at most.
const MOST: usize = 64;

// The number of threads, of events of each thread, and of fields of an event.
#[derive(Clone, Copy)]
pub struct Size {
    pub threads: usize,
    pub events: usize,
    pub fields: usize,
}

// How many events were accepted, and how long that took.
#[derive(Clone, Copy)]
pub struct Timed {
    pub emitted: u64,
    pub nanos: u64,
}

// The events of one thread, their receiver, and how many were accepted.
#[derive(Drop)]
struct Worker<D: Receiver> {
    alloc: Global,
    receiver: D,
    hands: Vec<Hand>,
    emitted: u64,
}

impl<D: Receiver> Worker<D> {
    fn new(alloc: Global, receiver: D, size: Size) -> anyhow::Result<Worker<D>>
    where
        D: Drop,
    {
        let mut hands = Vec::new(alloc);
        for _ in 0..size.events {
            hands.push(receiver.hand(alloc, event(alloc, size.fields)?)?)?;
        }
        Ok(Worker {
            alloc,
            receiver,
            hands,
            emitted: 0,
        })
    }

    fn run<R: Wait>(&mut self, rt: &R) {
        for hand in mem::replace(&mut self.hands, Vec::new(self.alloc)) {
            if self.receiver.emit(rt, self.alloc, hand) {
                self.emitted = self.emitted.wrapping_add(1);
            }
        }
    }
}

// Passes each thread's events. One thread is this one.
fn time<R: Threads + Wait + Clock + Sync, D: Receiver + Send + Drop>(
    rt: &R,
    mut workers: Vec<Worker<D>>,
) -> anyhow::Result<Timed> {
    let start = Instant::now(rt)?;
    thread::for_each_mut(
        rt,
        workers.as_mut_slice(),
        MOST,
        &|_, worker| { worker.run(rt) },
    );
    let took = start.elapsed(rt)?;
    let nanos = u64::try_from(took.as_nanos()).unwrap_or(u64::MAX);
    let mut emitted = 0u64;
    for worker in &workers {
        emitted = emitted.wrapping_add(worker.emitted);
    }
    Ok(Timed { emitted, nanos })
}

// Over memory, with lines and an amount of 2.
fn fresh(alloc: Global) -> Layered<Tape, ()>
    ensures spans { result.forest.spans ≡ [] }
    ensures last { result.layer.last ≡ None }
    ensures sound { result.layer.failed ≡ false }
    ensures tape { result.layer.writer.bytes ≡ [] }
{
    let layer = HierarchicalLayer::new(alloc, 2, false, Tape::new(alloc)).with_indent_lines(true);
    Layered::new(alloc, layer)
}

// Like `fresh`, with the span of the events.
fn rooted(alloc: Global) -> Result<Layered<Tape, ()>, AllocError> {
    let mut layered = fresh(alloc);
    let root = made(alloc, "span", None)?;
    let _answer = layered.call(root);
    Ok(layered)
}

pub fn idle<R: AllocGlobal + Threads + Wait + Clock + Sync>(
    rt: &R,
    size: Size,
) -> anyhow::Result<Timed> {
    let alloc = rt.alloc();
    let worker = Worker::new(alloc, Nowhere, size)?;
    time(rt, vec![in alloc; worker]?)
}

pub fn alone<R: AllocGlobal + Threads + Wait + Clock + Sync>(
    rt: &R,
    size: Size,
) -> anyhow::Result<Timed> {
    let alloc = rt.alloc();
    let receiver = Alone {
        layered: rooted(alloc)?,
    };
    let worker = Worker::new(alloc, receiver, size)?;
    time(rt, vec![in alloc; worker]?)
}

pub fn locked<R: AllocGlobal + Threads + Wait + Clock + Sync>(
    rt: &R,
    size: Size,
) -> anyhow::Result<Timed> {
    let alloc = rt.alloc();
    let lock = Mutex::new(rooted(alloc)?);
    let mut workers = Vec::new(alloc);
    for _ in 0..size.threads {
        workers.push(Worker::new(alloc, Locked { lock: &lock }, size)?)?;
    }
    time(rt, workers)
}

pub fn shared<L: Ledger + Send + Sync, R: AllocGlobal + Threads + Wait + Clock + Sync>(
    rt: &R,
    blank: Blank,
    work: Work,
    size: Size,
) -> anyhow::Result<Timed>
    requires name { blank.name ≡ L.name }
    requires parts { blank.parts ≡ L.parts }
    requires count { L.parts ≡ size.threads + 1 }
{
    let alloc = rt.alloc();
    let (layer, passes) = SharedLayer::<(), L>::open(alloc, blank, fresh(alloc), size.threads)?;
    let mut workers = Vec::new(alloc);
    for pass in passes {
        let receiver = WithPass {
            layer: &layer,
            pass,
            drafts: work == Work::SharedDrafted,
        };
        workers.push(Worker::new(alloc, receiver, size)?)?;
    }
    let root = Hand::Call(made(alloc, "span", None)?);
    if let Some(worker) = workers.first_mut() {
        worker.receiver.emit(rt, alloc, root);
    }
    time(rt, workers)
}

pub fn streaming<R: AllocGlobal + Threads + Wait + Clock + Sync>(
    rt: &R,
    work: Work,
    size: Size,
) -> anyhow::Result<Timed> {
    let alloc = rt.alloc();
    let layer = StreamingLayer::new(rooted(alloc)?);
    let mut workers = Vec::new(alloc);
    for _ in 0..size.threads {
        let receiver = Streamed {
            layer: &layer,
            drafts: work == Work::StreamingDrafted,
        };
        workers.push(Worker::new(alloc, receiver, size)?)?;
    }
    time(rt, workers)
}

pub fn counted<R: AllocGlobal + Threads + Wait + Clock + Sync>(
    rt: &R,
    work: Work,
    size: Size,
) -> anyhow::Result<Timed> {
    let alloc = rt.alloc();
    let receiver = UnderLock {
        counted: Counted::new(rooted(alloc)?),
        // With ansi on, the layer's own settings differ, and it draws each event again.
        config: Config::new(2, work == Work::CountedAnew),
    };
    let worker = Worker::new(alloc, receiver, size)?;
    time(rt, vec![in alloc; worker]?)
}
