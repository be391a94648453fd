//! Lines of a reader.

ghost use Rattle.std.specs.Prelude.{◌≡◌, ◌==◌, position};
ghost use Rattle.tracing_tree_lines.specs.Lines.Spelled.{is_skipped};
ghost use Rattle.tracing_tree_lines.specs.Lines.Reads.{BeginsWithLines, ReadsEnded, ReadsPart, ReadsNext};

use super::LineCause;
use memchr::{memchr, memrchr};
use std::io::{BufRead, ErrorKind};
use tracing_tree_output::TRIES;

/// How many bytes are read from a reader at a time. The programs' writers buffer as many.
pub const BLOCK: usize = 64 * 1024;

// Where a part of a line ends.
enum Part {
    // At the end of the line.
    Line,
    // At the end of the input.
    Input,
    // Within the line.
    Inside,
    // Nowhere: the read was interrupted.
    Interrupted,
}

/// Reads the next line without its line end, and replaces the content of `line` by it. Returns
/// whether there was a line. What follows the last line end is a line if it isn't empty.
///
/// # Errors
///
/// `Read` if a read is interrupted for the ninth time in a row or fails with another error, or
/// after 2^64 - 1 reads of one line. `Memory` if an allocation fails.
pub fn read_line<B: BufRead>(reader: &mut B, line: &mut Vec<u8>) -> Result<bool, LineCause>
    ensures { ReadsNext (B.remaining reader.old) (B.remaining reader.new) line.new.items result }
{
    if read_ended(reader, line)? {
        return Ok(true);
    }
    Ok(!line.is_empty())
}

// Reads up to the next line end, or to the end of the input, and replaces the content of `line`.
// Returns whether there was a line end.
pub(crate) fn read_ended<B: BufRead>(reader: &mut B, line: &mut Vec<u8>) -> Result<bool, LineCause>
    ensures { ReadsEnded (B.remaining reader.old) (B.remaining reader.new) line.new.items result }
{
    line.clear();
    let mut tries = TRIES;
    for _part in 0..u64::MAX {
        match read_part(reader, line)? {
            Part::Line => return Ok(true),
            Part::Input => return Ok(false),
            Part::Inside => tries = TRIES,
            Part::Interrupted if tries > 1 => tries -= 1,
            Part::Interrupted => return Err(LineCause::Read),
        }
    }
    Err(LineCause::Read)
}

// Appends the part of the line that the reader's buffer has.
fn read_part<B: BufRead>(reader: &mut B, line: &mut Vec<u8>) -> Result<Part, LineCause>
    ensures { ReadsPart (B.remaining reader.old) (B.remaining reader.new) line.old.items
        line.new.items result }
{
    let held = match reader.fill_buf() {
        Ok(held) => held,
        Err(error) => {
            return if error.kind() == ErrorKind::Interrupted {
                Ok(Part::Interrupted)
            } else {
                Err(LineCause::Read)
            };
        }
    };
    if held.is_empty() {
        return Ok(Part::Input);
    }
    match line_end(held) {
        Some(end) => {
            line.extend_from_slice(&held[..end])?;
            reader.consume(end + 1);
            Ok(Part::Line)
        }
        None => {
            let length = held.len();
            line.extend_from_slice(held)?;
            reader.consume(length);
            Ok(Part::Inside)
        }
    }
}

// Returns the index of the first line end.
#[tactic(auto, using(crate::proofs::LineEnds::is_place))]
pub(super) fn line_end(held: &[u8]) -> Option<usize>
    ensures { result ≡ position (λ byte. byte == 10) held.now }
{
    memchr(b'\n', held)
}

// Returns the complete lines at the start of the held bytes.
pub(super) fn whole_lines(held: &[u8]) -> &[u8]
    ensures { BeginsWithLines held.now result.now }
{
    match memrchr(b'\n', held) {
        Some(last) => &held[..=last],
        None => &[],
    }
}

/// Returns whether the line has only spaces, tabs and carriage returns.
pub fn is_skipped(line: &[u8]) -> bool
    ensures { result ≡ is_skipped line.now }
{
    line.iter()
        .all(|byte| *byte == b' ' || *byte == b'\t' || *byte == b'\r')
}
