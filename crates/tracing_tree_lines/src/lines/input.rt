//! Inputs of lines, whose next line may take time to arrive.

ghost use Rattle.std.specs.Prelude.{◌≡◌};
ghost use Rattle.tracing_tree_lines.specs.Lines.Reads.{ReadsHeld};

use super::LineCause;
use super::read::{line_end, read_line};
use std::io::{BufRead, BufReader, Read};
use tracing_tree_layer::calls::Calls;
use tracing_tree_layer::flushed::Flushed;

/// A buffered input of lines. The next line may take time to arrive, as in a pipe.
///
/// A run is generic over its input, so it can read by these methods only. [`LineInput::read_line`],
/// the only method that may wait, takes a flushed receiver. So a reader of a live input's
/// drawing sees what each line drew before the next line is waited for.
pub trait LineInput {
    ghost use Rattle.std.specs.Prelude.{◌≡◌, List, ℕ, Option};
    ghost use Rattle.tracing_tree_lines.specs.Lines.Inputs.{DropsHeld, HoldsFront};
    ghost use Rattle.tracing_tree_lines.specs.Lines.Reads.{ReadsNext};

    /// The remaining bytes, if they are known.
    ghost remaining: { Self → Option (List ℕ) };

    /// The first of them, which are in the buffer.
    ghost held: { Self → List ℕ };

    /// Returns the bytes in the buffer, without waiting.
    fn held(&self) -> &[u8]
        ensures held { result.now ≡ held self.now }
        ensures front { HoldsFront (held self.now) (remaining self.now) };

    /// Removes the first `count` bytes from the buffer. The caller must ensure that it has that
    /// many.
    fn consume(&mut self, count: usize)
        ensures { DropsHeld count (held self.old) (remaining self.old) (remaining self.new) };

    /// Reads the next line without its line end, and replaces the content of `line` by it. Returns
    /// whether there was a line. What follows the last line end is a line if it isn't empty. The
    /// read may wait, so the receiver was flushed.
    ///
    /// # Errors
    ///
    /// `Read` if the input can't be read. `Memory` if an allocation fails.
    fn read_line<C: Calls>(
        &mut self,
        line: &mut Vec<u8>,
        receiver: &Flushed<'_, C>,
    ) -> Result<bool, LineCause>
        ensures { ReadsNext (remaining self.old) (remaining self.new) line.new.items result };
}

/// The bytes of a reader, read in blocks.
impl<R: Read> LineInput for BufReader<R> {
    ghost use Rattle.std.specs.Io.Buffered.{reader_buffer, reader_remaining};

    ghost remaining = { reader_remaining R.remaining };

    ghost held = { reader_buffer };

    fn held(&self) -> &[u8] {
        self.buffer()
    }

    fn consume(&mut self, count: usize) {
        BufRead::consume(self, count);
    }

    fn read_line<C: Calls>(
        &mut self,
        line: &mut Vec<u8>,
        _receiver: &Flushed<'_, C>,
    ) -> Result<bool, LineCause> {
        read_line(self, line)
    }
}

/// Reads the next line without its line end, if the buffer has it with its line end, and replaces
/// the content of `line` by it. Returns whether the buffer had such a line. Never waits.
///
/// # Errors
///
/// `Memory` if an allocation fails. The line is still in the buffer then.
pub fn read_held<L: LineInput>(lines: &mut L, line: &mut Vec<u8>) -> Result<bool, LineCause>
    ensures { ReadsHeld (L.remaining lines.old) (L.remaining lines.new) line.new.items result }
{
    let Some(end) = line_end(lines.held()) else {
        return Ok(false);
    };
    line.clear();
    line.extend_from_slice(&lines.held()[..end])?;
    lines.consume(end + 1);
    Ok(true)
}
