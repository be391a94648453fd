//! Runs of a source on receivers that draw nothing.

use super::seen::{START, Skipped};
use std::alloc::{AllocError, Global};
use std::io::BufReader;
use std::test::*;
use tracing_tree::style::Level;
use ttree_go_test::GoTest;
use ttree_source::{CallsAtLeast, Tally, count_source, run_source};

// Two spans open, two events fail, and there is one event at the end. Two lines are unknown.
const TESTS: &str = concat!(
    "{\"Action\":\"run\",\"Package\":\"p\",\"Test\":\"A\"}\n",
    "[1]\n",
    "{\"Action\":\"output\",\"Package\":\"p\",\"Test\":\"A\",\"Output\":\"x\\n\"}\n",
    "{\"Action\":\"run\"}\n",
    "{\"Action\":\"fail\",\"Package\":\"p\",\"Test\":\"A\"}\n",
    "{\"Action\":\"fail\",\"Package\":\"p\"}\n",
);

#[test]
fn calls_are_counted_by_kind(rt: HostRuntime) -> Result<(), Fail> {
    let (unknown, counts) = counted(rt.alloc())?;
    assert_eq!(rt; unknown, 2);
    assert_eq!(rt; counts, [2, 0, 0, 4, 2]);
    Ok(())
}

// The lines of INFO don't reach the receiver.
#[test]
fn events_below_the_level_are_left_out(rt: HostRuntime) -> Result<(), Fail> {
    assert_eq!(rt; counted_from(rt.alloc(), Level::Trace)?, [2, 0, 0, 4, 2]);
    assert_eq!(rt; counted_from(rt.alloc(), Level::Info)?, [2, 0, 0, 4, 2]);
    assert_eq!(rt; counted_from(rt.alloc(), Level::Error)?, [2, 0, 0, 3, 2]);
    Ok(())
}

fn counted(alloc: Global) -> Result<(u64, [u64; 5]), AllocError> {
    let mut source = GoTest::new(alloc, 1, START)?;
    let mut notes = Skipped::new(alloc);
    let Ok(mut lines) = BufReader::with_capacity(alloc, 4096, TESTS.as_bytes()) else {
        return Err(AllocError);
    };
    let (run, tally) = count_source(alloc, &mut source, &mut lines, &mut notes);
    Ok((run.unknown, counts_of(&tally)))
}

fn counted_from(alloc: Global, level: Level) -> Result<[u64; 5], AllocError> {
    let mut source = GoTest::new(alloc, 1, START)?;
    let mut notes = Skipped::new(alloc);
    let Ok(mut lines) = BufReader::with_capacity(alloc, 4096, TESTS.as_bytes()) else {
        return Err(AllocError);
    };
    let mut receiver = CallsAtLeast::new(Tally::new(), level);
    let _run = run_source(alloc, &mut source, &mut lines, &mut receiver, &mut notes);
    Ok(counts_of(&receiver.into_receiver()))
}

// Spans, clones, records, events and closes.
fn counts_of(tally: &Tally) -> [u64; 5] {
    [
        tally.spans,
        tally.clones,
        tally.records,
        tally.events,
        tally.closes,
    ]
}
