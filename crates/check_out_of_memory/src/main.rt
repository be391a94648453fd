//! Does a work while any one allocation may fail. A failure must leave everything unchanged, and
//! a second attempt must be answered as with enough memory.
//!
//! The argument is the name of a work. Without one, all are done. Everything that a work needs is
//! made first. Then a line `begin NAME` is printed, and from there on `scripts/refuse.py`
//! lets one allocation after another fail. The last line of a work says how many allocations
//! failed. A work with another result ends the program with an error.
#![tactic(auto)]

mod board;
mod calls;
mod script;
mod texts;
mod threads;

use board::Board;
use calls::{OnTape, Prepared, both, trials};
use script::Script;
use std::marker::Brand;
use std::rt::Env;
use std::sync::Wait;
use std::sync::ledger::Blank;

fn main(rt: HostRuntime) -> anyhow::Result<()> {
    let mut args = std::env::args(&rt)?.skip(1);
    let asked = args.next();
    for work in Work::ALL {
        if asked
            .as_ref()
            .is_none_or(|asked| asked.as_str() == work.name())
        {
            let refused = done(&rt, work)?;
            println!(rt; "end {work}: {refused} refused", work = work.name())?;
        }
    }
    Ok(())
}

// The works.
#[derive(Clone, Copy)]
enum Work {
    // Each call of a script, of a layer over an output that takes no memory.
    Calls(Script),
    // All calls of a script as one run.
    Run,
    // Each call, if the output allocates too.
    Tape,
    // A text that is read back and drawn again.
    Rows,
    // Like `Rows`, line by line.
    Reader,
    // The ancestors of events.
    Paths,
    // Rows as lines of JSON.
    Json,
    // A run by lines.
    Lines,
    // Drafts, their submission, and the end of a layer for several threads.
    Shared,
}

impl Work {
    const ALL: [Work; 14] = [
        Work::Calls(Script::Deferred),
        Work::Calls(Script::Closes),
        Work::Calls(Script::Interleaved),
        Work::Calls(Script::Recorded),
        Work::Calls(Script::Concurrent),
        Work::Calls(Script::Deep),
        Work::Run,
        Work::Tape,
        Work::Rows,
        Work::Reader,
        Work::Paths,
        Work::Json,
        Work::Lines,
        Work::Shared,
    ];

    fn name(self) -> &'static str {
        match self {
            Work::Calls(script) => script.name(),
            Work::Run => "run",
            Work::Tape => "tape",
            Work::Rows => "rows",
            Work::Reader => "reader",
            Work::Paths => "paths",
            Work::Json => "json",
            Work::Lines => "lines",
            Work::Shared => "shared",
        }
    }
}

// Does a work, and returns how many allocations failed.
fn done<R: AllocGlobal + Print + Wait>(rt: &R, work: Work) -> anyhow::Result<u32> {
    match work {
        Work::Calls(script) => make_calls(rt, work, script),
        Work::Run => make_run(rt, work),
        Work::Tape => make_on_tape(rt, work),
        Work::Json => emit_rows(rt, work),
        Work::Lines => run_by_lines(rt, work),
        Work::Shared => share(rt, work),
        Work::Rows => {
            begin(rt, work)?;
            texts::read_and_draw(rt.alloc())
        }
        Work::Reader => read_by_lines(rt, work),
        Work::Paths => {
            begin(rt, work)?;
            texts::find_paths(rt.alloc())
        }
    }
}

// Says that all is made which the work needs.
fn begin(rt: &impl Print, work: Work) -> anyhow::Result<()> {
    println!(rt; "begin {work}", work = work.name())?;
    Ok(())
}

fn make_calls<R: AllocGlobal + Print>(rt: &R, work: Work, script: Script) -> anyhow::Result<u32> {
    let prepared = Prepared::new(rt.alloc(), script)?;
    begin(rt, work)?;
    prepared.make()
}

fn make_run<R: AllocGlobal + Print>(rt: &R, work: Work) -> anyhow::Result<u32> {
    let alloc = rt.alloc();
    let prepared = Prepared::new(alloc, Script::Concurrent)?;
    let (first, second) = both(alloc, Script::Concurrent)?;
    begin(rt, work)?;
    prepared.run(alloc, first, second)
}

fn make_on_tape<R: AllocGlobal + Print>(rt: &R, work: Work) -> anyhow::Result<u32> {
    let prepared = OnTape::new(rt.alloc(), Script::Concurrent)?;
    begin(rt, work)?;
    prepared.make()
}

fn read_by_lines<R: AllocGlobal + Print>(rt: &R, work: Work) -> anyhow::Result<u32> {
    let alloc = rt.alloc();
    let rows = Vec::with_capacity(alloc, texts::ROWS)?;
    begin(rt, work)?;
    texts::read_by_lines(alloc, rows)
}

fn emit_rows<R: AllocGlobal + Print>(rt: &R, work: Work) -> anyhow::Result<u32> {
    let alloc = rt.alloc();
    let (board, again) = (Board::new(alloc)?, Board::new(alloc)?);
    begin(rt, work)?;
    texts::emit_rows(alloc, board, again)
}

fn run_by_lines<R: AllocGlobal + Print>(rt: &R, work: Work) -> anyhow::Result<u32> {
    let alloc = rt.alloc();
    let (board, again) = (Board::new(alloc)?, Board::new(alloc)?);
    begin(rt, work)?;
    texts::run_by_lines(alloc, board, again)
}

fn share<R: AllocGlobal + Print + Wait>(rt: &R, work: Work) -> anyhow::Result<u32> {
    let alloc = rt.alloc();
    let trials = trials(alloc, Script::Concurrent)?;
    begin(rt, work)?;
    threads::hand_in::<Brand, R>(rt, alloc, Blank::new(2), trials)
}
