//! Rows that are printed by writers and from readers that meet trouble at any place.

use crate::fakes::{Choppy, ERRORS, Failure, Halting};
use std::alloc::{AllocError, Global};
use std::process::Abort;
use std::test::*;
use tracing_tree::rows::{RowCause, RowFault, rows_to_json};

// Five rows, a line each.
const ROWS: [&str; 5] = ["┐a \n", "└─┐b \n", "  ├─ WARN x\n", "┌─┘\n", "┘\n"];

const TREE: &str = "┐a \n└─┐b \n  ├─ WARN x\n┌─┘\n┘\n";

// What is printed of them: lines of 47, 57, 64, 56 and 46 bytes.
const PRINTED: &str = concat!(
    "{\"shape\":\"OpenRoot\",\"level\":0,\"lines\":[\"a \"]}\n",
    "{\"shape\":\"Open\",\"verbose\":false,\"level\":1,\"lines\":[\"b \"]}\n",
    "{\"shape\":\"Event\",\"level\":2,\"lines\":[\" WARN x\"],\"ancestors\":[0,1]}\n",
    "{\"shape\":\"Close\",\"verbose\":false,\"level\":1,\"lines\":[\"\"]}\n",
    "{\"shape\":\"CloseRoot\",\"level\":0,\"lines\":[\"\"]}\n",
);

// How a reading ends.
type Ended = Result<(), RowFault>;

// Returns what this writer took of the rows that this reader gives, and how the reading ended.
fn printed(alloc: Global, reader: Halting<'_>, mut writer: Choppy) -> (Vec<u8>, Ended) {
    let ended = rows_to_json(alloc, reader, &mut writer, 2);
    (writer.taken, ended)
}

// Checks that the bytes taken are a prefix of the expected output.
fn begins(rt: &impl Abort, taken: &[u8], failure: Failure) {
    assert!(rt; PRINTED.as_bytes().starts_with(taken), "{failure:?}");
}

// Writes in pieces with this fault. Checks how many bytes are taken, and how the reading ends.
fn takes(rt: &(impl Abort + AllocGlobal), piece: usize, failure: Failure, wanted: (usize, Ended)) {
    let reader = Halting::new(TREE.as_bytes(), usize::MAX, Failure::NONE);
    let writer = Choppy::new(rt.alloc(), piece, failure);
    let (taken, ended) = printed(rt.alloc(), reader, writer);
    begins(rt, taken.as_slice(), failure);
    assert_eq!(rt; (taken.len(), ended), wanted, "{failure:?}");
}

// A byte a write: each write is interrupted, once and twice in a row.
#[test]
fn each_write_is_interrupted(rt: HostRuntime) {
    let whole = (PRINTED.len(), Ok(()));
    for first in 1..=PRINTED.len() {
        takes(&rt, 1, Failure::interrupted(first, 1), whole);
        takes(&rt, 1, Failure::interrupted(first, 2), whole);
    }
}

// A byte a write: each byte of a row is refused, and its line end. The bytes before it are taken.
fn row_is_refused(rt: &(impl Abort + AllocGlobal), place: usize, before: usize, length: usize) {
    let fault = RowFault {
        line: (place as u64).saturating_add(2),
        cause: RowCause::Writer,
    };
    for taken in before..=before.saturating_add(length) {
        let failure = Failure::once(taken.saturating_add(1), ERRORS[0]);
        takes(rt, 1, failure, (taken, Err(fault)));
    }
}

// For each byte, the fault names the line after its row. The rows before it and a first part of
// that row have been written.
#[test]
fn each_write_is_refused(rt: HostRuntime) {
    let mut before = 0_usize;
    for (place, line) in PRINTED.lines().enumerate() {
        row_is_refused(&rt, place, before, line.len());
        before = before.saturating_add(line.len()).saturating_add(1);
    }
    assert_eq!(rt; before, PRINTED.len());
}

#[test]
fn writes_fail_in_each_way(rt: HostRuntime) {
    let fault = RowFault {
        line: 2,
        cause: RowCause::Writer,
    };
    for kind in ERRORS {
        takes(&rt, 3, Failure::once(11, kind), (30, Err(fault)));
    }
}

// Returns how many lines these bytes end.
fn line_ends(bytes: &[u8]) -> usize {
    bytes.iter().filter(|byte| **byte == b'\n').count()
}

// Reads one byte at a time with this fault. Checks how many rows are printed, and how the reading
// ends.
fn gives(rt: &(impl Abort + AllocGlobal), failure: Failure, wanted: (usize, Ended)) {
    let reader = Halting::new(TREE.as_bytes(), 1, failure);
    let writer = Choppy::new(rt.alloc(), usize::MAX, Failure::NONE);
    let (taken, ended) = printed(rt.alloc(), reader, writer);
    begins(rt, taken.as_slice(), failure);
    assert_eq!(rt; (line_ends(taken.as_slice()), ended), wanted, "{failure:?}");
}

// Fails each read of a row, after the reads of the rows before it.
fn row_is_not_given(rt: &(impl Abort + AllocGlobal), place: usize, before: usize, length: usize) {
    let fault = RowFault {
        line: (place as u64).saturating_add(1),
        cause: RowCause::Read,
    };
    for past in 1..=length {
        let read = before.saturating_add(past);
        let failed = Failure::once(read, ERRORS[read % 41]);
        gives(rt, failed, (place, Err(fault)));
        gives(rt, Failure::interrupted(read, 9), (place, Err(fault)));
        gives(rt, Failure::interrupted(read, 8), (5, Ok(())));
    }
}

// Fails each read, one byte per read. The rows before its line are printed, and the fault names the
// line.
#[test]
fn each_read_fails(rt: HostRuntime) {
    let mut before = 0_usize;
    for (place, row) in ROWS.iter().enumerate() {
        row_is_not_given(&rt, place, before, row.len());
        before = before.saturating_add(row.len());
    }
}

// Returns an event of `bytes` bytes outside all spans.
fn event(alloc: Global, bytes: usize) -> Result<String, AllocError> {
    let mut text = "x".repeat(alloc, bytes)?;
    text.push_str("\n")?;
    Ok(text)
}

// Returns how many bytes of this text a writer prints that takes one byte per write.
fn printed_by_bytes(alloc: Global, text: &str) -> usize {
    let reader = Halting::new(text.as_bytes(), usize::MAX, Failure::NONE);
    let writer = Choppy::new(alloc, 1, Failure::NONE);
    match printed(alloc, reader, writer) {
        (taken, Ok(())) => taken.len(),
        (_, Err(_)) => 0,
    }
}

// In addition to the event, 56 bytes are printed.
#[test]
fn long_rows_are_written_byte_by_byte(rt: HostRuntime) -> Result<(), Fail> {
    for bytes in [1, 70, 127, 128, 129, 2_000, 10_000] {
        let event = event(rt.alloc(), bytes)?;
        let printed = printed_by_bytes(rt.alloc(), event.as_str());
        assert_eq!(rt; printed, bytes.saturating_add(56));
    }
    Ok(())
}
