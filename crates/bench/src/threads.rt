//! Times events through the layers for several threads, compared with a layer of one thread and a
//! plain lock around it.
//!
//! The arguments are a work, the number of threads, the number of events of each thread, and the
//! number of fields of an event. It prints what an event took, by the time until all threads were
//! done.

ghost use Rattle.std.specs.Prelude.{◌≡◌, ◌<◌, ◌≤◌};

mod hand;
mod receiver;
mod works;

pub use hand::Work;
use std::marker::Brand;
use std::rt::Clock;
use std::sync::Wait;
use std::sync::ledger::Blank;
use std::thread::Threads;
use works::{Size, Timed, alone, counted, idle, locked, shared, streaming};

// How many threads there are at most.
const MOST: usize = 64;

/// Times a work with these numbers, and prints what an event took. A missing number is one.
pub fn run<R: AllocGlobal + Threads + Wait + Clock + Print + Sync>(
    rt: &R,
    work: Work,
    args: &[String],
) -> anyhow::Result<()> {
    let mut numbers = [1usize, 1, 1];
    for (number, arg) in numbers.iter_mut().zip(args.iter()) {
        *number = arg.as_str().parse::<usize>()?;
    }
    let [threads, events, fields] = numbers;
    anyhow::ensure!(1 <= threads && threads <= MOST, "one thread to sixty-four");
    let size = Size {
        threads,
        events,
        fields,
    };
    report(rt, work, size, timed(rt, work, size)?)
}

fn timed<R: AllocGlobal + Threads + Wait + Clock + Sync>(
    rt: &R,
    work: Work,
    size: Size,
) -> anyhow::Result<Timed>
    requires { size.threads ≤ 64 }
{
    match work {
        Work::Idle => idle(rt, size),
        Work::Alone => alone(rt, size),
        Work::Locked => locked(rt, size),
        Work::Shared | Work::SharedDrafted => {
            let blank = Blank::new((size.threads + 1) as u64);
            shared::<Brand, R>(rt, blank, work, size)
        }
        Work::Streaming | Work::StreamingDrafted => streaming(rt, work, size),
        Work::Counted | Work::CountedAnew => counted(rt, work, size),
    }
}

fn report(rt: &impl Print, work: Work, size: Size, timed: Timed) -> anyhow::Result<()> {
    let name = work.name();
    let threads = size.threads;
    let Timed { emitted, nanos } = timed;
    let each = nanos / emitted.max(1);
    println!(rt; "{name}: {threads} threads, {emitted} events, {each} ns an event")?;
    Ok(())
}
