//! A round of each layer.

ghost use Rattle.std.specs.Prelude.{◌≡◌, ◌+◌, ◌≤◌, [], None, false};

use crate::caller::{Caller, Emitted};
use crate::receiver::{Streamed, WithPass};
use rand_core::utils::NextWord;
use rand_pcg::Pcg32;
use std::alloc::{AllocError, Global};
use std::sync::Wait;
use std::sync::ledger::{Blank, Ledger};
use std::thread;
use std::thread::Threads;
use tracing_tree::call::{Call, Reply};
use tracing_tree::format::Tape;
use tracing_tree::{HierarchicalLayer, Layered};
use tracing_tree_shared::{Pass, SharedLayer, StreamingLayer};

// How many threads a round has at most.
const MOST: usize = 8;

/// How many threads and calls there were, and how many calls were refused or couldn't be made.
#[derive(Clone, Copy, Default)]
pub struct Tally {
    pub threads: u64,
    pub calls: u64,
    pub refused: u64,
    pub unmade: u64,
}

impl Tally {
    pub fn add(&mut self, other: Tally) {
        self.threads = self.threads.saturating_add(other.threads);
        self.calls = self.calls.saturating_add(other.calls);
        self.refused = self.refused.saturating_add(other.refused);
        self.unmade = self.unmade.saturating_add(other.unmade);
    }

    fn of(callers: &[Caller]) -> Tally {
        let mut tally = Tally::default();
        for caller in callers {
            tally.add(Tally {
                threads: 1,
                calls: caller.calls,
                refused: caller.refused,
                unmade: caller.unmade,
            });
        }
        tally
    }
}

/// What follows from a seed.
#[derive(Drop)]
pub struct Plan {
    alloc: Global,
    random: Pcg32,
    settings: u32,
}

impl Plan {
    pub fn drawn(alloc: Global, seed: u64, round: u64) -> Plan {
        let mut random = Pcg32::new(seed, round);
        let settings = random.next_word();
        Plan {
            alloc,
            random,
            settings,
        }
    }

    /// How many threads the next round has.
    pub fn threads(&mut self) -> usize
        ensures { result ≤ 8 }
    {
        (self.random.next_word() % 7) as usize + 2
    }

    // Returns a layer on which no call was made yet. It is the same each time.
    fn layered(&self) -> Layered<Tape, ()>
        ensures spans { result.forest.spans ≡ [] }
        ensures last { result.layer.last ≡ None }
        ensures sound { result.layer.failed ≡ false }
        ensures tape { result.layer.writer.bytes ≡ [] }
    {
        let bits = self.settings;
        let layer = HierarchicalLayer::new(self.alloc, 2, false, Tape::new(self.alloc))
            .with_indent_lines(bits & 1 != 0)
            .with_span_retrace(bits & 2 != 0)
            .with_close_retrace(bits & 4 != 0)
            .with_deferred_spans(bits & 8 != 0);
        Layered::new(self.alloc, layer)
    }

    fn caller(&mut self, thread: u64) -> Caller {
        let seed = u64::from(self.random.next_word());
        Caller::new(self.alloc, Pcg32::new(seed, thread), thread)
    }
}

// A thread with its pass.
#[derive(Drop)]
struct Worker<L: Ledger> {
    pass: Pass<L>,
    caller: Caller,
}

impl<L: Ledger> Worker<L> {
    fn run<R: Wait>(&mut self, rt: &R, layer: &SharedLayer<(), L>) {
        let mut receiver = WithPass {
            layer,
            pass: &mut self.pass,
        };
        self.caller.run(rt, &mut receiver);
    }
}

fn workers<L: Ledger>(plan: &mut Plan, passes: Vec<Pass<L>>) -> Result<Vec<Worker<L>>, AllocError> {
    let mut workers = Vec::new(plan.alloc);
    for pass in passes {
        let caller = plan.caller(workers.len() as u64);
        workers.push(Worker { pass, caller })?;
    }
    Ok(workers)
}

// Returns the passes and the threads' accounts, if each pass has the calls of its thread.
fn vacated<L: Ledger>(
    alloc: Global,
    workers: Vec<Worker<L>>,
) -> anyhow::Result<(Vec<Pass<L>>, Vec<Caller>)> {
    let mut passes = Vec::new(alloc);
    let mut callers = Vec::new(alloc);
    for Worker { pass, caller } in workers {
        anyhow::ensure!(
            caller.has(pass.receipts()),
            "the receipts are not the thread's calls"
        );
        passes.push(pass)?;
        callers.push(caller)?;
    }
    Ok((passes, callers))
}

/// Several threads share a layer with a history.
pub fn shared_round<L: Ledger + Send + Sync, R: Threads + Wait + Sync>(
    rt: &R,
    blank: Blank,
    plan: &mut Plan,
    threads: usize,
) -> anyhow::Result<Tally>
    requires name { blank.name ≡ L.name }
    requires parts { blank.parts ≡ L.parts }
    requires count { L.parts ≡ threads + 1 }
{
    let alloc = plan.alloc;
    let (layer, passes) = SharedLayer::<(), L>::open(alloc, blank, plan.layered(), threads)?;
    let mut workers = workers(plan, passes)?;
    thread::for_each_mut(
        rt,
        workers.as_mut_slice(),
        MOST,
        &|_, worker| { worker.run(rt, &layer) },
    );
    let (passes, callers) = vacated(alloc, workers)?;
    let Ok(finished) = layer.finish(passes) else {
        anyhow::bail!("the passes are not one history");
    };
    let tally = Tally::of(callers.as_slice());
    let emitted = all_emitted(alloc, callers)?;
    anyhow::ensure!(
        emitted.len() == finished.accepted
            && is_history(finished.history.as_slice(), emitted.as_slice()),
        "the history is not what was accepted"
    );
    draw_again(plan.layered(), emitted, finished.output.bytes())?;
    Ok(tally)
}

/// Threads share a layer without a history.
pub fn streaming_round<R: Threads + Wait + Sync>(rt: &R, plan: &mut Plan) -> anyhow::Result<Tally> {
    let alloc = plan.alloc;
    let mut callers = Vec::new(alloc);
    for thread in 0..plan.threads() {
        callers.push(plan.caller(thread as u64))?;
    }
    let layer = StreamingLayer::new(plan.layered());
    thread::for_each_mut(
        rt,
        callers.as_mut_slice(),
        MOST,
        &|_, caller| { caller.run(rt, &mut Streamed { layer: &layer }) },
    );
    let tally = Tally::of(callers.as_slice());
    let emitted = all_emitted(alloc, callers)?;
    let counted = layer.into_counted();
    anyhow::ensure!(
        counted.accepted() == emitted.len() as u64,
        "the count is not that of the accepted calls"
    );
    draw_again(
        plan.layered(),
        emitted,
        counted.into_layered().writer().bytes(),
    )?;
    Ok(tally)
}

// Returns the accepted calls of all threads by their places. Each place must appear once.
fn all_emitted(alloc: Global, callers: Vec<Caller>) -> anyhow::Result<Vec<Emitted>> {
    let mut all: Vec<Emitted> = Vec::new(alloc);
    for mut caller in callers {
        anyhow::ensure!(
            caller.is_in_order(),
            "the calls of a thread are out of order"
        );
        all.append(&mut caller.emitted)?;
    }
    all.sort_by_key(|emitted| emitted.place)?;
    anyhow::ensure!(
        all.iter()
            .enumerate()
            .all(|(place, emitted)| emitted.place == place),
        "a place is missing, or there twice"
    );
    Ok(all)
}

fn is_history(history: &[(Call, Reply)], emitted: &[Emitted]) -> bool {
    history.iter().zip(emitted).all(|((call, reply), emitted)| *call == *emitted.call
        && *reply == emitted.reply)
}

// Makes the calls on a layer of one thread. It must give the same answers, and write this text.
fn draw_again(
    mut layered: Layered<Tape, ()>,
    emitted: Vec<Emitted>,
    text: &[u8],
) -> anyhow::Result<()> {
    for Emitted { place, call, reply } in emitted {
        anyhow::ensure!(
            layered.call(Box::into_inner(call)) == Ok(reply),
            "a layer of one thread answers call {place} otherwise"
        );
    }
    anyhow::ensure!(
        layered.writer().bytes() == text,
        "a layer of one thread draws another text"
    );
    Ok(())
}
