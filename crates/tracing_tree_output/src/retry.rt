//! Writes and flushes that may be interrupted.

ghost use Rattle.std.specs.Prelude.{◌≤◌, ◌<◌, IfSome, IfNone, length, take};
ghost use Rattle.std.specs.Io.KnownBytes.{Appends, Keeps};

use std::io::{ErrorKind, Write};

/// How often an interrupted write, flush or read is tried: once, and eight times again.
pub const TRIES: u32 = 9;

/// Writes once, and again while it is interrupted, up to `TRIES` times in all. Returns how many
/// bytes were taken, or `None` if the write was refused. A count of 0 is a refusal, unless there is
/// nothing to write.
pub fn write_tried<W: Write>(writer: &mut W, bytes: &[u8]) -> Option<usize>
    ensures bound { IfSome result (λ n. n ≤ length bytes.now) }
    ensures some { IfSome result (λ n. 0 < length bytes.now → 0 < n) }
    ensures ok { IfSome result
        (λ n. Appends (W.contents writer.old) (W.contents writer.new) (take n bytes.now)) }
    ensures err { IfNone result (Keeps (W.contents writer.old) (W.contents writer.new)) }
{
    for _try in 0..TRIES {
        match writer.write(bytes) {
            Ok(0) if !bytes.is_empty() => return None,
            Ok(taken) => return Some(taken),
            Err(e) => {
                if e.kind() != ErrorKind::Interrupted {
                    return None;
                }
            }
        }
    }
    None
}

// Flushes once, and again while it is interrupted, up to `TRIES` times in all. Returns whether it
// succeeded.
pub(crate) fn flush_tried<W: Write>(writer: &mut W) -> bool
    ensures { Keeps (W.contents writer.old) (W.contents writer.new) }
{
    for _try in 0..TRIES {
        match writer.flush() {
            Ok(()) => return true,
            Err(e) => {
                if e.kind() != ErrorKind::Interrupted {
                    return false;
                }
            }
        }
    }
    false
}
