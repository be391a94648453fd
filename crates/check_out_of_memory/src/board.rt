//! An output that takes no memory, and what is seen of a layer beside it.

ghost use Rattle.std.specs.Prelude.{◌≡◌, IfOk};

use std::alloc::{AllocError, Global};
use std::io;
use std::io::{ErrorKind, Write};
use tracing_tree::Layered;
use tracing_tree::format::{Id, Output, OutputFault};
use tracing_tree::registry::{Data, LookupSpan};

// More than any of the works writes.
const ROOM: usize = 4096;

/// An output that takes bytes while its capacity lasts. The capacity is allocated beforehand.
#[derive(Drop)]
pub struct Board {
    bytes: Vec<u8>,
    faults: u64,
}

impl Board {
    pub fn new(alloc: Global) -> Result<Board, AllocError>
        ensures { IfOk result (λ board. board.faults ≡ 0) }
    {
        Ok(Board {
            bytes: Vec::with_capacity(alloc, ROOM)?,
            faults: 0,
        })
    }

    pub fn bytes(&self) -> &[u8] {
        self.bytes.as_slice()
    }

    // Takes the text and returns true, or returns false if the capacity doesn't suffice.
    fn take(&mut self, text: &[u8]) -> bool
        ensures { self.new.faults ≡ self.old.faults }
    {
        let left = self.bytes.capacity().saturating_sub(self.bytes.len());
        text.len() <= left && self.bytes.extend_from_slice(text).is_ok()
    }
}

impl Output for Board {
    ghost use Rattle.std.specs.Prelude.{None, true};

    ghost contents = { λ board. None };

    ghost fault_count = { λ board. board.faults };

    ghost WHOLE = { true };

    const WHOLE: bool = true;

    fn write(&mut self, bytes: &[u8]) -> Result<usize, OutputFault> {
        if self.take(bytes) {
            Ok(bytes.len())
        } else {
            self.faults += 1;
            Err(OutputFault)
        }
    }

    fn faults(&self) -> u64 {
        self.faults
    }

    fn flush(&mut self) {}
}

impl Write for Board {
    fn write(&mut self, bytes: &[u8]) -> io::Result<usize> {
        if self.take(bytes) {
            Ok(bytes.len())
        } else {
            Err(io::Error::from(ErrorKind::StorageFull))
        }
    }

    fn flush(&mut self) -> io::Result<()> {
        Ok(())
    }
}

// No work gives out a greater id.
const LAST: u64 = 12;

/// What can be seen of a layer without memory: the last span, whether it has failed, how many spans
/// are live, how many of them were printed, and how many fields they have together.
#[derive(Clone, Copy, PartialEq, Eq)]
pub struct Seen {
    last: Option<Id>,
    failed: bool,
    live: u32,
    printed: u32,
    fields: usize,
}

impl Seen {
    pub fn of<W: Output>(layered: &Layered<W, ()>) -> Seen {
        let mut seen = Seen {
            last: layered.layer().last_span(),
            failed: layered.layer().failed(),
            live: 0,
            printed: 0,
            fields: 0,
        };
        for id in 1..=LAST {
            seen = seen.with(layered.registry().data(Id(id)));
        }
        seen
    }

    // One span more, if it is live.
    fn with(self, data: Option<&Data>) -> Seen {
        let Some(data) = data else {
            return self;
        };
        Seen {
            live: self.live.wrapping_add(1),
            printed: self.printed.wrapping_add(u32::from(data.written)),
            fields: self.fields.wrapping_add(data.fields.as_slice().len()),
            ..self
        }
    }
}
