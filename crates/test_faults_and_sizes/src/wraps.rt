//! An output over a writer that refuses a write or a flush in each way.

use crate::fakes::{Choppy, ERRORS, Failure};
use std::alloc::Global;
use std::process::Abort;
use std::test::*;
use tracing_tree::format::{Output, OutputFault, Wrap};

// What a write is answered that may still be made.
fn written(wrap: &mut Wrap<Choppy>, bytes: &[u8]) -> Option<Result<usize, OutputFault>> {
    if wrap.faults() == u64::MAX {
        return None;
    }
    Some(wrap.write(bytes))
}

// The answers to two writes, and how often the writer was called.
type TwoWrites = (
    Option<Result<usize, OutputFault>>,
    Option<Result<usize, OutputFault>>,
    usize,
);

fn two_writes(alloc: Global, failure: Failure) -> TwoWrites {
    let mut wrap = Wrap::new(Choppy::new(alloc, 3, failure));
    let first = written(&mut wrap, b"abcd");
    let second = written(&mut wrap, b"d");
    (first, second, wrap.into_inner().writes)
}

// Two writes over a writer that meets this trouble.
fn writes_come_to(rt: &(impl Abort + AllocGlobal), failure: Failure, wanted: TwoWrites) {
    assert_eq!(rt; two_writes(rt.alloc(), failure), wanted, "{failure:?}");
}

const FIRST_FAILS: TwoWrites = (Some(Err(OutputFault)), Some(Ok(1)), 2);

const SECOND_FAILS: TwoWrites = (Some(Ok(3)), Some(Err(OutputFault)), 2);

// An error is not tried again, and the next write may be taken.
#[test]
fn writes_fail_in_each_way(rt: HostRuntime) {
    for kind in ERRORS {
        writes_come_to(&rt, Failure::once(1, kind), FIRST_FAILS);
        writes_come_to(&rt, Failure::once(2, kind), SECOND_FAILS);
    }
}

#[test]
fn writes_are_interrupted(rt: HostRuntime) {
    for times in 0..=8 {
        let wanted = (Some(Ok(3)), Some(Ok(1)), times + 2);
        writes_come_to(&rt, Failure::interrupted(1, times), wanted);
    }
    let wanted = (Some(Err(OutputFault)), Some(Ok(1)), 10);
    writes_come_to(&rt, Failure::interrupted(1, 9), wanted);
    let wanted = (Some(Ok(3)), Some(Err(OutputFault)), 10);
    writes_come_to(&rt, Failure::interrupted(2, 9), wanted);
}

// A flush that is refused, and another one. Whether the output is stuck after each, how often the
// writer was flushed, and whether the next write is taken.
type TwoFlushes = (bool, bool, usize, bool);

fn two_flushes(alloc: Global, failure: Failure) -> TwoFlushes {
    let mut wrap = Wrap::new(Choppy::flushing(alloc, failure));
    let _ = written(&mut wrap, b"ab");
    wrap.flush();
    let first = wrap.is_stuck();
    wrap.flush();
    let second = wrap.is_stuck();
    let taken = matches!(written(&mut wrap, b"c"), Some(Ok(1)));
    (first, second, wrap.into_inner().shown.len(), taken)
}

// Two flushes over a writer that meets this trouble.
fn flushes_come_to(rt: &(impl Abort + AllocGlobal), failure: Failure, wanted: TwoFlushes) {
    assert_eq!(rt; two_flushes(rt.alloc(), failure), wanted, "{failure:?}");
}

#[test]
fn a_refused_flush_is_not_forgotten(rt: HostRuntime) {
    for kind in ERRORS {
        flushes_come_to(&rt, Failure::once(1, kind), (true, true, 2, false));
        flushes_come_to(&rt, Failure::once(2, kind), (false, true, 2, false));
    }
}

#[test]
fn flushes_are_interrupted(rt: HostRuntime) {
    let eight = Failure::interrupted(1, 8);
    flushes_come_to(&rt, eight, (false, false, 10, true));
    let nine = Failure::interrupted(1, 9);
    flushes_come_to(&rt, nine, (true, true, 10, false));
    let later = Failure::interrupted(2, 9);
    flushes_come_to(&rt, later, (false, true, 10, false));
}

// Writes to a writer that takes nothing. Returns whether the write was taken, and how often the
// writer was called.
fn to_none(rt: &(impl Abort + AllocGlobal), bytes: &[u8]) -> (bool, usize) {
    let mut wrap = Wrap::new(Choppy::new(rt.alloc(), 0, Failure::NONE));
    let taken = matches!(written(&mut wrap, bytes), Some(Ok(_)));
    assert_eq!(rt; wrap.faults() == 0, taken);
    (taken, wrap.into_inner().writes)
}

// A count of 0 is a fault if there was something to take.
#[test]
fn a_count_of_nothing_is_a_fault(rt: HostRuntime) {
    assert_eq!(rt; to_none(&rt, b"a"), (false, 1));
    assert_eq!(rt; to_none(&rt, b""), (true, 1));
}
