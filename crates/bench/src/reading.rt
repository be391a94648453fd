//! Times the reading of a drawing, which is read from standard input, whole: prints how many
//! megabytes a second `read_rows` and `read_paths` take of it, the best of five runs each.

use std::alloc::Global;
use std::io::Read;
use std::rt::Clock;
use std::time::Instant;
use tracing_tree::rows::{read_paths, read_rows};

// How often each is run.
const RUNS: u32 = 5;

// The columns a level of the drawing.
const AMOUNT: usize = 2;

// How long a run took, in microseconds, and how many rows or events it read. Zero if the text isn't
// a drawing.
#[derive(Clone, Copy)]
struct Timing {
    micros: u64,
    count: usize,
}

impl Timing {
    // Returns the shorter of both.
    fn or_shorter(self, other: Timing) -> Timing {
        if other.micros < self.micros {
            other
        } else {
            self
        }
    }
}

/// Reads a drawing from standard input, times its reading, and prints the best runs.
pub fn run<R: AllocGlobal + Clock + Input + Print>(rt: &R) -> anyhow::Result<()> {
    let mut text = String::new(rt.alloc());
    rt.reader().read_to_string(&mut text)?;
    let mut rows = time_rows(rt, text.as_str())?;
    let mut paths = time_paths(rt, text.as_str())?;
    for _run in 1..RUNS {
        rows = rows.or_shorter(time_rows(rt, text.as_str())?);
        paths = paths.or_shorter(time_paths(rt, text.as_str())?);
    }
    report(rt, "read_rows", text.len(), rows)?;
    report(rt, "read_paths", text.len(), paths)
}

fn time_rows<R: AllocGlobal + Clock>(rt: &R, text: &str) -> anyhow::Result<Timing> {
    let start = Instant::now(rt)?;
    let rows = read_rows(rt.alloc(), text, AMOUNT);
    let took = start.elapsed(rt)?;
    Ok(Timing {
        micros: u64::try_from(took.as_micros()).unwrap_or(u64::MAX),
        count: rows.map_or(0, |rows| rows.len()),
    })
}

fn time_paths<R: AllocGlobal + Clock>(rt: &R, text: &str) -> anyhow::Result<Timing> {
    let start = Instant::now(rt)?;
    let paths = read_paths(rt.alloc(), text, AMOUNT);
    let took = start.elapsed(rt)?;
    Ok(Timing {
        micros: u64::try_from(took.as_micros()).unwrap_or(u64::MAX),
        count: paths.map_or(0, |paths| paths.len()),
    })
}

fn report(rt: &impl Print, name: &str, bytes: usize, best: Timing) -> anyhow::Result<()> {
    let Timing { micros, count } = best;
    let rate = bytes as u64 / micros.max(1);
    println!(rt; "{name}: {count} in {micros} us, {rate} MB a second")?;
    Ok(())
}
