//! A writer that shapes lines.

ghost use Rattle.std.specs.Prelude.{◌≡◌, ◌++◌, ◌<◌, ◌≤◌, [], IfOk, IsTrue, OnErr, OnOk, length, take};
ghost use Rattle.std.specs.Io.KnownBytes.{Appends, Keeps};
ghost use Rattle.ttree_terminal.specs.Lines.{held_after_bytes, is_shaping, lines_ended, shaped};
ghost use Rattle.ttree_terminal.specs.Plain.{GrowsPlain};
ghost use Rattle.ttree_terminal.specs.Writing.{EndsFirstLine, WritesOrPart};

use crate::shaping::{Shaping, shape};
use memchr::memchr;
use std::alloc::{AllocError, Global};
use std::io;
use std::io::{ErrorKind, Write};
use std::marker::Model;

// How often an interrupted write is tried.
const TRIES: u32 = 9;

/// A writer that shapes each line. It writes whole lines, so a line without a line end is written
/// by `flush`.
#[derive(Drop)]
pub struct Shaped<W: Write> {
    alloc: Global,
    writer: W,
    shaping: Shaping,
    // The line so far.
    line: Vec<u8>,
}

impl<W: Write> Model for Shaped<W> {
    ghost use Rattle.ttree_terminal.specs.Writing.{ShapedView};

    ghost Value = { ShapedView W };

    ghost view = { λ s. record { writer = s.writer; shaping = s.shaping; held = s.line.items } };
}

impl<W: Write> Write for Shaped<W> {
    ghost use Rattle.std.specs.Prelude.{None, false};
    ghost use Rattle.std.specs.Io.{WritesAtMost};
    ghost use Rattle.std.specs.Io.KnownBytes.{WriteAppends};

    fn write(&mut self, buf: &[u8]) -> io::Result<usize>
        ensures bound { WritesAtMost result buf.now }
        ensures bytes { WriteAppends None None result buf.now }
        ensures written { IsTrue (is_shaping self.old.shaping) →
            WritesOrPart (lines_ended self.old.shaping self.old.held buf.now) result
            (W.contents self.old.writer) (W.contents self.new.writer) }
        ensures held { IsTrue (is_shaping self.old.shaping) →
            OnOk result (self.new.held ≡ held_after_bytes self.old.held buf.now) }
        ensures whole { IsTrue (is_shaping self.old.shaping) →
            IfOk result (λ n. n ≡ length buf.now) }
        ensures passed { is_shaping self.old.shaping ≡ false →
            WriteAppends (W.contents self.old.writer) (W.contents self.new.writer) result buf.now }
        ensures same { self.new.shaping ≡ self.old.shaping }
        ensures plain { IsTrue self.old.shaping.is_escaped →
            GrowsPlain (W.contents self.old.writer) (W.contents self.new.writer) }
    {
        if !self.is_shaping() {
            return self.writer.write(buf);
        }
        self.take(buf)?;
        Ok(buf.len())
    }

    #[tactic(auto, using(crate::proofs::PlainLines::grows_and_stays, crate::proofs::Taken::all_and_stays))]
    fn flush(&mut self) -> io::Result<()>
        ensures bytes { Keeps None None }
        ensures written { WritesOrPart (shaped self.old.shaping self.old.held) result
            (W.contents self.old.writer) (W.contents self.new.writer) }
        ensures held { self.new.held ≡ [] }
        ensures same { self.new.shaping ≡ self.old.shaping }
        ensures plain { IsTrue self.old.shaping.is_escaped →
            GrowsPlain (W.contents self.old.writer) (W.contents self.new.writer) }
    {
        self.end_line()?;
        self.writer.flush()
    }
}

impl<W: Write> Shaped<W> {
    /// Returns a writer that shapes the lines that it passes to `writer`. Never allocates.
    pub fn new(alloc: Global, writer: W, shaping: Shaping) -> Shaped<W>
        ensures { result ≡ record { writer = writer; shaping = shaping; held = [] } }
    {
        Shaped {
            alloc,
            writer,
            shaping,
            line: Vec::new(alloc),
        }
    }

    /// Returns the writer, and drops the line so far.
    pub fn into_inner(self) -> W
        ensures { result ≡ self.writer }
    {
        self.writer
    }

    // Returns whether a line may be changed.
    fn is_shaping(&self) -> bool
        ensures { result ≡ is_shaping self.now.shaping }
    {
        self.shaping.is_escaped || self.shaping.width.is_some()
    }

    /// Takes bytes, and writes the lines that they end.
    ///
    /// # Errors
    ///
    /// The writer's error, `WriteZero` if it takes nothing, or `OutOfMemory` if an allocation
    /// fails. A first part of the lines was written then.
    #[tactic(auto, using(crate::proofs::PlainLines::ended_grows))]
    pub fn take(&mut self, bytes: &[u8]) -> io::Result<()>
        ensures written { WritesOrPart (lines_ended self.old.shaping self.old.held bytes.now) result
            (W.contents self.old.writer) (W.contents self.new.writer) }
        ensures held { OnOk result (self.new.held ≡ held_after_bytes self.old.held bytes.now) }
        ensures plain { IsTrue self.old.shaping.is_escaped →
            GrowsPlain (W.contents self.old.writer) (W.contents self.new.writer) }
        ensures same { self.new.shaping ≡ self.old.shaping }
    {
        self.take_lines(bytes)
    }

    // Takes bytes, and writes the lines that they end.
    fn take_lines(&mut self, bytes: &[u8]) -> io::Result<()>
        ensures written { WritesOrPart (lines_ended self.old.shaping self.old.held bytes.now) result
            (W.contents self.old.writer) (W.contents self.new.writer) }
        ensures held { OnOk result (self.new.held ≡ held_after_bytes self.old.held bytes.now) }
        ensures same { self.new.shaping ≡ self.old.shaping }
    {
        let mut rest = bytes;
        while let Some(length) = line_length(rest) {
            let (line, after) = rest.split_at(length);
            self.write_line(line)?;
            rest = after;
        }
        self.hold(rest)
    }

    // Holds bytes of a line without its end.
    fn hold(&mut self, bytes: &[u8]) -> io::Result<()>
        ensures held { OnOk result (self.new.held ≡ self.old.held ++ bytes.now) }
        ensures writer { self.new.writer ≡ self.old.writer }
        ensures same { self.new.shaping ≡ self.old.shaping }
    {
        match self.line.extend_from_slice(bytes) {
            Ok(()) => Ok(()),
            Err(_) => Err(io::Error::from(ErrorKind::OutOfMemory)),
        }
    }

    /// Writes the line so far.
    ///
    /// # Errors
    ///
    /// As for [`Shaped::take`].
    #[tactic(auto, using(crate::proofs::PlainLines::shaped_grows))]
    pub fn end_line(&mut self) -> io::Result<()>
        ensures written { WritesOrPart (shaped self.old.shaping self.old.held) result
            (W.contents self.old.writer) (W.contents self.new.writer) }
        ensures held { self.new.held ≡ [] }
        ensures plain { IsTrue self.old.shaping.is_escaped →
            GrowsPlain (W.contents self.old.writer) (W.contents self.new.writer) }
        ensures same { self.new.shaping ≡ self.old.shaping }
    {
        let written = write_shaped(
            self.alloc,
            self.shaping,
            self.line.as_slice(),
            &mut self.writer,
        );
        self.line.clear();
        written
    }

    // Writes the line so far and these bytes, which end it.
    fn write_line(&mut self, end: &[u8]) -> io::Result<()>
        ensures written { WritesOrPart (shaped self.old.shaping (self.old.held ++ end.now)) result
            (W.contents self.old.writer) (W.contents self.new.writer) }
        ensures held { OnOk result (self.new.held ≡ []) }
        ensures same { self.new.shaping ≡ self.old.shaping }
    {
        if self.line.is_empty() {
            return write_shaped(self.alloc, self.shaping, end, &mut self.writer);
        }
        self.hold(end)?;
        self.end_line()
    }
}

// Returns the length of the first line, its end included.
#[tactic(auto, using(crate::proofs::Taken::ends_after, crate::proofs::Taken::ends_nowhere))]
fn line_length(bytes: &[u8]) -> Option<usize>
    ensures { EndsFirstLine bytes.now result }
{
    match memchr(b'\n', bytes) {
        Some(end) => Some(end + 1),
        None => None,
    }
}

// Writes what a line becomes.
fn write_shaped<W: Write>(
    alloc: Global,
    shaping: Shaping,
    line: &[u8],
    writer: &mut W,
) -> io::Result<()>
    ensures { WritesOrPart (shaped shaping line.now) result
        (W.contents writer.old) (W.contents writer.new) }
{
    match shape(alloc, shaping, line) {
        Ok(None) => write_all(line, writer),
        Ok(Some(shaped)) => write_all(shaped.as_str().as_bytes(), writer),
        Err(AllocError) => Err(io::Error::from(ErrorKind::OutOfMemory)),
    }
}

// Writes all bytes, in as many writes as necessary.
fn write_all<W: Write>(bytes: &[u8], writer: &mut W) -> io::Result<()>
    ensures { WritesOrPart bytes.now result (W.contents writer.old) (W.contents writer.new) }
{
    let mut rest = bytes;
    while !rest.is_empty() {
        let taken = write_some(rest, writer)?;
        rest = &rest[taken..];
    }
    Ok(())
}

// Writes once, and again while it is interrupted, up to `TRIES` times in all. Returns how many
// bytes were taken, at least one if there are any.
fn write_some<W: Write>(bytes: &[u8], writer: &mut W) -> io::Result<usize>
    ensures bound { IfOk result (λ n. n ≤ length bytes.now) }
    ensures some { IfOk result (λ n. 0 < length bytes.now → 0 < n) }
    ensures ok { IfOk result
        (λ n. Appends (W.contents writer.old) (W.contents writer.new) (take n bytes.now)) }
    ensures err { OnErr result (Keeps (W.contents writer.old) (W.contents writer.new)) }
{
    for _try in 0..TRIES {
        match writer.write(bytes) {
            Ok(0) if !bytes.is_empty() => return Err(io::Error::from(ErrorKind::WriteZero)),
            Ok(taken) => return Ok(taken),
            Err(error) => {
                if error.kind() != ErrorKind::Interrupted {
                    return Err(error);
                }
            }
        }
    }
    Err(io::Error::from(ErrorKind::TimedOut))
}
