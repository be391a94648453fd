//! Values of fields as Rust's `Debug` prints them.

ghost use Rattle.std.specs.Prelude.{◌≡◌, ◌<◌, ◌≤◌, ◌++◌, IfOk, OnOk, codes, drop, false, length};
ghost use Rattle.std.specs.Fmt.{digits, signed_decimal};
ghost use Rattle.tracing_tree_base.specs.Field.{escaped, quoted};
ghost use Rattle.tracing_tree_c.specs.Exports.{IsWritten};

use std::alloc::{AllocError, Global};

// Returns a string in quotes and with escapes. Characters that aren't ASCII stay.
fn quoted(alloc: Global, text: &[u8]) -> Result<Vec<u8>, AllocError>
    ensures { IfOk result (λ made. made.items ≡ quoted text.now) }
{
    let mut out = Vec::new(alloc);
    out.push(b'"')?;
    for byte in text {
        push_escaped(&mut out, *byte)?;
    }
    out.push(b'"')?;
    Ok(out)
}

// Appends a byte as in the debug form of a string.
fn push_escaped(out: &mut Vec<u8>, byte: u8) -> Result<(), AllocError>
    ensures { OnOk result (out.new.items ≡ out.old.items ++ escaped byte) }
{
    match byte {
        b'"' => out.extend_from_slice(b"\\\""),
        b'\\' => out.extend_from_slice(b"\\\\"),
        b'\t' => out.extend_from_slice(b"\\t"),
        b'\n' => out.extend_from_slice(b"\\n"),
        b'\r' => out.extend_from_slice(b"\\r"),
        0 => out.extend_from_slice(b"\\0"),
        1..=31 | 127 => push_code(out, byte),
        _ => Ok(out.push(byte)?),
    }
}

// Appends the escape of a byte: its code in lowercase hexadecimal digits.
fn push_code(out: &mut Vec<u8>, byte: u8) -> Result<(), AllocError>
    ensures { OnOk result
        (out.new.items ≡ out.old.items ++ codes "\\u{" ++ digits 16 false byte ++ codes "}") }
{
    let code = format!(in *out.allocator(); "{byte:x}")?;
    out.extend_from_slice(b"\\u{")?;
    out.extend_from_slice(code.as_bytes())?;
    out.extend_from_slice(b"}")
}

// Writes a string in quotes and with escapes to `room`, like `copy`. Returns 0 if memory runs out.
pub(crate) fn write_quoted(alloc: Global, text: &[u8], room: &mut [u8]) -> usize
    ensures { IsWritten (quoted text.now) result room.old room.new }
{
    match quoted(alloc, text) {
        Ok(value) => copy(&value, room),
        Err(_) => 0,
    }
}

// Writes a whole number in decimal digits to `room`, like `copy`. Returns 0 if memory runs out.
pub(crate) fn write_whole(alloc: Global, value: i128, room: &mut [u8]) -> usize
    ensures { IsWritten (signed_decimal value) result room.old room.new }
{
    match value.to_string(alloc) {
        Ok(digits) => copy(digits.as_bytes(), room),
        Err(_) => 0,
    }
}

// Copies a string if it fits, and returns its length in bytes.
pub(crate) fn copy(text: &[u8], room: &mut [u8]) -> usize
    ensures length { result ≡ length text.now }
    ensures fits { length text.now ≤ length room.old
        → room.new ≡ text.now ++ drop (length text.now) room.old }
    ensures lacks { length room.old < length text.now → room.new ≡ room.old }
{
    let length = text.len();
    if length <= room.len() {
        room[..length].copy_from_slice(text);
    }
    length
}
