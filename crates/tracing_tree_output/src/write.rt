//! Strings that are written in full.

ghost use Rattle.std.specs.Prelude.{◌≡◌, ◌<◌, string_bytes};
ghost use Rattle.tracing_tree_output.specs.Writers.{WritesWhole, emptied_when_ok, seen_writer};

use super::{Output, OutputFault};

/// Passes a string to the output, and leaves an empty one in its place. The output takes it over,
/// or it is written in full.
///
/// # Errors
///
/// `OutputFault` if a write fails. The string is unchanged then. Only a first part of it was
/// written, or nothing if the output takes each write whole.
#[inline(always)]
pub fn write_whole<O: Output>(text: &mut String, out: &mut O) -> Result<(), OutputFault>
    requires { O.fault_count out.old < u64.MAX }
    ensures written { WritesWhole (string_bytes text.old) result
        (seen_writer O.Output out.old) (seen_writer O.Output out.new) }
    ensures text { string_bytes text.new ≡ emptied_when_ok result (string_bytes text.old) }
{
    if out.keep(text) {
        return Ok(());
    }
    write_all(text.as_bytes(), out)?;
    text.clear();
    Ok(())
}

// Writes all bytes, in as many writes as necessary.
fn write_all<O: Output>(bytes: &[u8], out: &mut O) -> Result<(), OutputFault>
    requires { O.fault_count out.old < u64.MAX }
    ensures { WritesWhole bytes.now result
        (seen_writer O.Output out.old) (seen_writer O.Output out.new) }
{
    let mut rest = bytes;
    while !rest.is_empty() {
        let taken = out.write(rest)?;
        rest = &rest[taken..];
    }
    Ok(())
}
