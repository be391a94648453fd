//! Standard output.

use std::alloc::{AllocError, Global};
use std::io;
use std::io::{BufWriter, ErrorKind, Write};
use tracing_tree::format::Wrap;
use tracing_tree::lines::BLOCK;
use ttree_terminal::{Shaped, Shaping};

// Standard output, as the drawings write to it.
pub type Output<W> = Shaped<BufWriter<Pipe<W>>>;

// What is done to the lines of a page, or of JSON: nothing.
pub const UNCHANGED: Shaping = Shaping {
    width: None,
    is_escaped: false,
};

// Returns an output whose lines are shaped.
pub fn output<W: Write + Drop>(
    alloc: Global,
    writer: W,
    shaping: Shaping,
) -> Result<Output<W>, AllocError> {
    match BufWriter::with_capacity(alloc, BLOCK, Pipe::new(writer)) {
        Ok(writer) => Ok(Shaped::new(alloc, writer, shaping)),
        Err(_) => Err(AllocError),
    }
}

// A writer whose reader may go away before all is written, as `head` does.
#[derive(Drop)]
pub struct Pipe<W> {
    writer: W,
    is_closed: bool,
}

impl<W: Write> Write for Pipe<W> {
    ghost contents = { λ pipe. W.contents pipe.writer };

    fn write(&mut self, buf: &[u8]) -> io::Result<usize> {
        let written = self.writer.write(buf);
        if let Err(error) = &written {
            self.is_closed = self.is_closed || error.kind() == ErrorKind::BrokenPipe;
        }
        written
    }

    fn flush(&mut self) -> io::Result<()> {
        self.writer.flush()
    }
}

impl<W: Write> Pipe<W> {
    pub fn new(writer: W) -> Pipe<W> {
        Pipe {
            writer,
            is_closed: false,
        }
    }
}

// How the output of a drawing ended.
#[derive(Clone, Copy, Debug, PartialEq, Eq)]
pub enum Flush {
    Done,
    Failed,

    // The output's reader has closed it.
    Closed,
}

// Flushes the writer. It has failed also if an earlier flush did.
pub fn flush_output<W: Write + Drop>(writer: Wrap<Output<W>>) -> Flush {
    let is_stuck = writer.is_stuck();
    let mut writer = writer.into_inner();
    let is_flushed = writer.flush().is_ok() && !is_stuck;
    if writer.into_inner().get_ref().is_closed {
        Flush::Closed
    } else if is_flushed {
        Flush::Done
    } else {
        Flush::Failed
    }
}
