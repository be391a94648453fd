//! A service with four workers. They take orders from one queue and pieces from one stock, and
//! their work is drawn as one tree.
//!
//! The tree is written to standard output while they work. With the argument `check` it is kept in
//! memory instead. The program then prints the results of the orders, and whether each event of the
//! tree is nested in its own order.
#![tactic(auto)]

ghost use Rattle.std.specs.Prelude.{◌≡◌};

mod journal;
mod reading;
mod warehouse;
mod worker;

use journal::Done;
use reading::events_under_their_orders;
use std::alloc::Global;
use std::rt::Env;
use std::sync::Wait;
use std::thread::Threads;
use std::time::Clock;
use std::{io, str};
use tracing_tree::format::{Output, Tape, Wrap};
use tracing_tree::{HierarchicalLayer, Layered};
use tracing_tree_shared::StreamingLayer;
use worker::run_workers;

// How many columns a level is wide.
const AMOUNT: usize = 2;

fn main(rt: HostRuntime) -> anyhow::Result<()> {
    if is_check(&rt)? {
        check(&rt)
    } else {
        stream(&rt)
    }
}

fn is_check(rt: &(impl AllocGlobal + Env)) -> anyhow::Result<bool> {
    let mut args = std::env::args(rt)?.skip(1);
    let Some(word) = args.next() else {
        return Ok(false);
    };
    if word.as_str() != "check" {
        anyhow::bail!("the only argument is `check`");
    }
    Ok(true)
}

// Returns a layer that shows the spans of an event again if the drawing changes from one worker to
// another.
fn shared<W: Output + Drop>(alloc: Global, writer: W) -> StreamingLayer<W, ()>
    requires { W.fault_count writer ≡ 0 }
{
    let layer = HierarchicalLayer::new(alloc, AMOUNT, false, writer)
        .with_indent_lines(true)
        .with_span_retrace(true)
        .with_close_retrace(true);
    StreamingLayer::new(Layered::new(alloc, layer))
}

// Draws the tree on standard output. Each call's text is written at once.
fn stream<R: AllocGlobal + Print + Threads + Wait + Clock + Sync>(rt: &R) -> anyhow::Result<()> {
    let layer = shared(rt.alloc(), Wrap::new(io::writer(rt)));
    run_workers(rt, rt.alloc(), &layer)?;
    Ok(())
}

// Draws the tree in memory, and prints what is the same of it in each run.
fn check<R: AllocGlobal + Print + Threads + Wait + Clock + Sync>(rt: &R) -> anyhow::Result<()> {
    let alloc = rt.alloc();
    let layer = shared(alloc, Tape::new(alloc));
    let Done {
        shipped,
        refused,
        events,
    } = run_workers(rt, alloc, &layer)?;
    let layered = layer.into_counted().into_layered();
    let text = str::from_utf8(layered.writer().bytes())?;
    let under = events_under_their_orders(alloc, text, AMOUNT)?;
    println!(rt; "{shipped} orders shipped, {refused} refused")?;
    println!(rt; "{events} events, {under} of them under their own order")?;
    Ok(())
}
