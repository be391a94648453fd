//! Times the library's works.
//!
//! To time calls, the arguments are a work, the number of rounds, and optionally `idle` or
//! `marked`. With `idle` the calls are made and dropped. With `marked` a line `begin` is printed
//! before each batch of calls and a line `end` after it. It prints how many calls were timed, what
//! one took, and how many bytes they wrote. If the first argument is `retraced` or `deferred`, it
//! makes as many waves of calls as the second argument says, with these settings. It prints what
//! the calls of each wave took, and the longest of them.
//!
//! `threads` and a work time events through the layers for several threads, and `reading` times the
//! reading of a drawing. The modules of these names say how. Without arguments it prints the names
//! of the works.
#![tactic(auto)]

mod calls;
mod reading;
mod sink;
mod soak;
mod threads;
mod works;

use calls::Calls;
use sink::Sink;
use std::rt::{Clock as MachineClock, Env};
use std::sync::Wait;
use std::thread::Threads;
use std::time::Instant;
use tracing_tree::layered::Layered;
use tracing_tree::time::Clock;
use works::{Batch, Work};

// The rounds whose calls are made before they are timed. They are few, so that they stay near the
// processor.
const BATCH: u32 = 64;

fn main(rt: HostRuntime) -> anyhow::Result<()> {
    let args = args(&rt)?;
    let Some((name, args)) = args.as_slice().split_first() else {
        return list(&rt);
    };
    match name.as_str() {
        "reading" => reading::run(&rt),
        "threads" => time_threads(&rt, args),
        name => time_calls(&rt, name, args),
    }
}

// Returns the words after the program's name.
fn args<R: AllocGlobal + Env>(rt: &R) -> anyhow::Result<Vec<String>> {
    let mut args = Vec::new(rt.alloc());
    for word in std::env::args(rt)?.skip(1) {
        args.push(word)?;
    }
    Ok(args)
}

fn list(rt: &impl Print) -> anyhow::Result<()> {
    for work in Work::ALL {
        println!(rt; "{}", work.name())?;
    }
    for work in threads::Work::ALL {
        println!(rt; "threads {}", work.name())?;
    }
    println!(rt; "reading")?;
    Ok(())
}

fn time_threads<R: AllocGlobal + Threads + Wait + MachineClock + Print + Sync>(
    rt: &R,
    args: &[String],
) -> anyhow::Result<()> {
    let Some((name, numbers)) = args.split_first() else {
        anyhow::bail!("no work of threads is named");
    };
    let Some(work) = threads::Work::named(name.as_str()) else {
        anyhow::bail!("no such work of threads");
    };
    threads::run(rt, work, numbers)
}

fn time_calls<R: AllocGlobal + MachineClock + Print>(
    rt: &R,
    name: &str,
    args: &[String],
) -> anyhow::Result<()> {
    let rounds = match args.first() {
        Some(word) => word.as_str().parse::<u32>()?,
        None => BATCH,
    };
    if matches!(name, "retraced" | "deferred") {
        return soak::run(rt, rounds, name == "deferred");
    }
    let Some(work) = Work::named(name) else {
        anyhow::bail!("no such work");
    };
    let mode = match args.get(1) {
        Some(word) => Mode::named(word.as_str())?,
        None => Mode::Timed,
    };
    measure(rt, work, rounds, mode)
}

// What is done with the calls of a batch.
#[derive(Clone, Copy, PartialEq, Eq)]
enum Mode {
    // They are made and timed.
    Timed,
    // They are dropped.
    Idle,
    // They are made between two lines.
    Marked,
}

impl Mode {
    fn named(name: &str) -> anyhow::Result<Mode> {
        match name {
            "idle" => Ok(Mode::Idle),
            "marked" => Ok(Mode::Marked),
            _ => anyhow::bail!("no such way"),
        }
    }
}

// What was measured so far.
#[derive(Clone, Copy)]
struct Measured {
    calls: u64,
    nanos: u64,
    refused: u64,
}

// Makes the calls that come first, and then times batches.
fn measure<R: AllocGlobal + MachineClock + Print>(
    rt: &R,
    work: Work,
    rounds: u32,
    mode: Mode,
) -> anyhow::Result<()> {
    let mut layered = Layered::new(rt.alloc(), work.layer(rt.alloc()));
    let mut calls = Calls::new(rt.alloc());
    work.prepare(&mut calls, rounds)?;
    let _answers = layered.run(rt.alloc(), calls.take())?;
    let before = layered.writer().bytes;
    let mut measured = Measured {
        calls: 0,
        nanos: 0,
        refused: 0,
    };
    for from in (0..rounds).step_by(BATCH as usize) {
        work.fill(&mut calls, batch_at(from, rounds))?;
        time(rt, &mut layered, &mut calls, mode, &mut measured)?;
    }
    report(
        rt,
        work,
        measured,
        layered.writer().bytes.wrapping_sub(before),
    )
}

// Returns the batch that begins with this round.
fn batch_at(from: u32, of: u32) -> Batch {
    Batch {
        from,
        to: from.saturating_add(BATCH).min(of),
        of,
    }
}

// Runs the calls, unless they are only made and dropped, and adds what that took.
fn time<R: AllocGlobal + MachineClock + Print>(
    rt: &R,
    layered: &mut Layered<Sink, Clock<'static>>,
    calls: &mut Calls,
    mode: Mode,
    measured: &mut Measured,
) -> anyhow::Result<()> {
    let batch = calls.take();
    if mode == Mode::Idle {
        return Ok(());
    }
    measured.calls = measured.calls.wrapping_add(batch.len() as u64);
    let start = Instant::now(rt)?;
    mark(rt, mode, "begin")?;
    let answers = layered.run(rt.alloc(), batch)?;
    mark(rt, mode, "end")?;
    let took = start.elapsed(rt)?;
    let nanos = u64::try_from(took.as_nanos()).unwrap_or(u64::MAX);
    measured.nanos = measured.nanos.saturating_add(nanos);
    let refused = answers.iter().filter(|answer| answer.is_err()).count();
    measured.refused = measured.refused.wrapping_add(refused as u64);
    Ok(())
}

// Prints this line, if the calls are marked.
fn mark(rt: &impl Print, mode: Mode, line: &str) -> anyhow::Result<()> {
    if mode == Mode::Marked {
        println!(rt; "{line}")?;
    }
    Ok(())
}

fn report(rt: &impl Print, work: Work, measured: Measured, bytes: u64) -> anyhow::Result<()> {
    let Measured {
        calls,
        nanos,
        refused,
    } = measured;
    let name = work.name();
    let each = nanos / calls.max(1);
    println!(rt; "{name}: {calls} calls, {each} ns a call, {bytes} bytes, {refused} refused")?;
    Ok(())
}
