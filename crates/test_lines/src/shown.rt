//! What was drawn is flushed before each read of the input, and not elsewhere.

use std::alloc::Global;
use std::cell::Cell;
use std::io;
use std::io::{ErrorKind, Read, Write};
use std::test::*;
use test_support::{Step, lined_over};
use tracing_tree::format::{Refusal, Wrap};
use tracing_tree::lines::run_lines;

// How many bytes a writer has taken and flushed, and how often it was flushed.
#[derive(Drop)]
struct Counts {
    taken: Cell<usize>,
    shown: Cell<usize>,
    flushes: Cell<usize>,
}

impl Counts {
    fn new() -> Counts {
        Counts {
            taken: Cell::new(0),
            shown: Cell::new(0),
            flushes: Cell::new(0),
        }
    }
}

// Counts there, and refuses each write once it has taken as many bytes as this.
#[derive(Drop)]
struct Counting<'a> {
    counts: &'a Counts,
    limit: usize,
}

impl Write for Counting<'_> {
    fn write(&mut self, bytes: &[u8]) -> io::Result<usize> {
        let taken = self.counts.taken.get();
        if taken >= self.limit {
            return Err(io::Error::from(ErrorKind::StorageFull));
        }
        self.counts.taken.set(taken.wrapping_add(bytes.len()));
        Ok(bytes.len())
    }

    fn flush(&mut self) -> io::Result<()> {
        let counts = self.counts;
        counts.shown.set(counts.taken.get());
        counts.flushes.set(counts.flushes.get().wrapping_add(1));
        Ok(())
    }
}

// Gives this many bytes at first, and then a line a read. Notes how many bytes were shown before
// each read.
#[derive(Drop)]
struct Looking<'a> {
    counts: &'a Counts,
    rest: &'a [u8],
    first: usize,
    shown: Vec<usize>,
}

impl Read for Looking<'_> {
    fn read(&mut self, buf: &mut [u8]) -> io::Result<usize> {
        self.shown.push(self.counts.shown.get())?;
        let line = match self.rest.iter().position(|byte| *byte == b'\n') {
            Some(at) => at.saturating_add(1),
            None => self.rest.len(),
        };
        let count = line.max(self.first).min(buf.len()).min(self.rest.len());
        self.first = 0;
        let (given, rest) = self.rest.split_at(count);
        buf[..count].copy_from_slice(given);
        self.rest = rest;
        Ok(count)
    }
}

// Returns how many bytes were shown before each read of this input, and how often the writer was
// flushed.
fn shown_before_reads(alloc: Global, input: &str, first: usize) -> (Vec<usize>, usize) {
    let counts = Counts::new();
    let mut reader = Looking {
        counts: &counts,
        rest: input.as_bytes(),
        first,
        shown: Vec::new(alloc),
    };
    let writer = Counting {
        counts: &counts,
        limit: usize::MAX,
    };
    let _run = run_lines(alloc, &mut reader, Wrap::new(writer));
    (reader.shown, counts.flushes.get())
}

const TWO_ROOTS: &str =
    "{}\n{\"call\":\"new\",\"name\":\"a\"}\n{\"call\":\"new\",\"name\":\"b\"}\n";

#[test]
fn what_is_drawn_is_shown_before_each_read(rt: HostRuntime) -> Result<(), Fail> {
    let alloc = rt.alloc();
    // The first read ends within the third line, and the last line is refused.
    let long = "x".repeat(alloc, 3_000)?;
    let within = format!(in alloc;
        "{{}}\n{{\"call\":\"new\",\"name\":\"a\"}}\n{{\"call\":\"new\",\"name\":\"{long}\"}}\n{{\"call\":\"close\",\"id\":7}}\n"
    )?;
    for (input, first, wanted, flushes) in [
        (TWO_ROOTS, 0, [0_usize, 0, 4, 8].as_slice(), 3),
        (within.as_str(), 1_500, [0, 4, 3_007].as_slice(), 2),
    ] {
        let shown = shown_before_reads(alloc, input, first);
        assert_eq!(rt; (shown.0.as_slice(), shown.1), (wanted, flushes));
    }
    Ok(())
}

// The bytes that were taken before a refused write are flushed too.
#[test]
fn a_failed_layer_is_flushed(rt: HostRuntime) -> Result<(), Fail> {
    let alloc = rt.alloc();
    let counts = Counts::new();
    let writer = Counting {
        counts: &counts,
        limit: 1,
    };
    let mut layered = lined_over(alloc, Wrap::new(writer))?;
    for (name, is_accepted) in [("a", true), ("b", false)] {
        let answer = layered.call(Step::New(name, None).call(alloc)?);
        assert_eq!(rt; answer != Err(Refusal::Writer), is_accepted);
    }
    layered.flush();
    drop(layered);
    assert_eq!(rt; counts.shown.get(), 6);
    Ok(())
}
