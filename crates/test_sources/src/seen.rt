//! Readers, writers and notes that keep what a run did with them.

use jiff::Timestamp;
use std::alloc::{AllocError, Global};
use std::io;
use std::io::{BufReader, Read, Write};
use test_support::lined_over;
use tracing_tree::format::Wrap;
use tracing_tree::layered::Layered;
use tracing_tree::lines::LineFault;
use tracing_tree::time::Moment;
use ttree_source::{Notes, Problem, Source, draw_source};

pub const START: Moment = Moment {
    mono: 0,
    wall: Timestamp::UNIX_EPOCH,
};

// Stores what is skipped, and continues.
#[derive(Drop)]
pub struct Skipped {
    pub lines: Vec<(u64, Problem)>,
}

impl Skipped {
    pub fn new(alloc: Global) -> Skipped {
        Skipped {
            lines: Vec::new(alloc),
        }
    }
}

impl Notes for Skipped {
    fn note(&mut self, number: u64, problem: Problem, _line: &[u8]) -> bool {
        self.lines.push((number, problem)).is_ok()
    }
}

// Keeps how many bytes were written before each flush.
#[derive(Drop)]
pub struct Counting {
    bytes: usize,
    pub shown: Vec<usize>,
}

impl Write for Counting {
    fn write(&mut self, bytes: &[u8]) -> io::Result<usize> {
        self.bytes = self.bytes.wrapping_add(bytes.len());
        Ok(bytes.len())
    }

    fn flush(&mut self) -> io::Result<()> {
        self.shown.push(self.bytes)?;
        Ok(())
    }
}

// Gives a line at a time.
#[derive(Drop)]
pub struct ByLine<'a> {
    pub rest: &'a [u8],
}

impl Read for ByLine<'_> {
    fn read(&mut self, buf: &mut [u8]) -> io::Result<usize> {
        let line = match self.rest.iter().position(|byte| *byte == b'\n') {
            Some(at) => at.saturating_add(1),
            None => self.rest.len(),
        };
        let (given, rest) = self.rest.split_at(line.min(buf.len()).min(self.rest.len()));
        buf[..given.len()].copy_from_slice(given);
        self.rest = rest;
        Ok(given.len())
    }
}

pub type Drawn = Layered<Wrap<Counting>, ()>;

pub fn drawn(alloc: Global) -> Result<Box<Drawn>, AllocError> {
    let counting = Counting {
        bytes: 0,
        shown: Vec::new(alloc),
    };
    lined_over(alloc, Wrap::new(counting))
}

// What a run of a source left: the skipped lines, what ended it, and how many bytes were written
// before each flush.
#[derive(Drop)]
pub struct Outcome {
    pub noted: Vec<(u64, Problem)>,
    pub fault: Option<LineFault>,
    pub shown: Vec<usize>,
}

// Runs a source over a reader with room for 64 KiB.
pub fn interpreted<S: Source, R: Read + Drop>(
    alloc: Global,
    source: &mut S,
    reader: R,
) -> Result<Box<Outcome>, AllocError> {
    let mut notes = Skipped::new(alloc);
    let mut layered = drawn(alloc)?;
    let Ok(mut lines) = BufReader::with_capacity(alloc, 64 * 1024, reader) else {
        return Err(AllocError);
    };
    let run = draw_source(alloc, source, &mut lines, &mut *layered, &mut notes);
    let outcome = Outcome {
        noted: notes.lines,
        fault: run.fault,
        shown: shown_by(layered),
    };
    Ok(Box::new(alloc, outcome)?)
}

// Returns how many bytes were written before each flush.
fn shown_by(layered: Box<Drawn>) -> Vec<usize> {
    let (_registry, layer) = Box::into_inner(layered).into_parts();
    layer.into_writer().into_inner().shown
}
