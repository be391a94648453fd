//! Lines that are shaped, and writers that fail.

use crate::{Shaped, Shaping};
use std::alloc::Global;
use std::io;
use std::io::{ErrorKind, Write};
use std::test::*;

// Widths, whether controls are escaped, what is written, and what comes out after a flush.
const LINES: [(Option<usize>, bool, &[u8], &str); 31] = [
    (None, true, b"a\tb\nc\n", "a\tb\nc\n"),
    (None, true, b"", ""),
    (None, true, b"\n\n", "\n\n"),
    (
        None,
        true,
        b"\x00\x07\x08\x0d\x1b[31m\x1f\n",
        "\\u{0}\\u{7}\\u{8}\\u{d}\\u{1b}[31m\\u{1f}\n",
    ),
    (
        None,
        true,
        b"\x7f\xc2\x80\xc2\x9f\xc2\xa0",
        "\\u{7f}\\u{80}\\u{9f}\u{a0}",
    ),
    (
        None,
        true,
        b"\xc3\xa9\xe6\x97\xa5\xf0\x9f\x98\x80\n",
        "é日😀\n",
    ),
    (None, true, b"a\x1bb\nno end", "a\\u{1b}b\nno end"),
    (None, true, b"\xff\x1b", "\u{fffd}\\u{1b}"),
    (None, true, b"\x80\xc2\n\x9b", "\u{fffd}\u{fffd}\n\u{fffd}"),
    (None, true, b"\x1b\xc2", "\\u{1b}\u{fffd}"),
    (
        None,
        false,
        b"\x1b[31ma\x1b[0m\x07\n",
        "\u{1b}[31ma\u{1b}[0m\u{7}\n",
    ),
    (Some(0), true, b"abcdefgh\x1b\n", "abcdefgh\\u{1b}\n"),
    (Some(0), false, b"abcdefgh\x1b\n", "abcdefgh\u{1b}\n"),
    (Some(1), true, b"a\n", "a\n"),
    (Some(1), true, b"ab\n", "…\n"),
    (Some(1), true, b"\xe6\x97\xa5\n", "…\n"),
    (Some(5), true, b"abcde\n", "abcde\n"),
    (Some(5), true, b"abcdef\n", "abcd…\n"),
    (Some(5), true, b"abcdef", "abcd…"),
    (Some(5), true, b"abcdef\nabc\n", "abcd…\nabc\n"),
    (
        Some(5),
        true,
        b"\xe6\x97\xa5\xe6\x97\xa5\xe6\x97\xa5\n",
        "日日…\n",
    ),
    (Some(5), true, b"a\xe6\x97\xa5\xe6\x97\xa5\n", "a日日\n"),
    (Some(5), true, b"a\xe6\x97\xa5\xe6\x97\xa5b\n", "a日…\n"),
    (Some(5), true, b"abcde\xcc\x81\n", "abcde\u{301}\n"),
    (Some(5), true, b"abcd\xcc\x81ef\n", "abcd\u{301}…\n"),
    (Some(5), true, b"\tx\n", "…\n"),
    (Some(9), true, b"\tx\n", "\tx\n"),
    (Some(5), true, b"a\x1bb\n", "a\\u{…\n"),
    (
        Some(5),
        false,
        b"\x1b[31mabcde\x1b[0m\n",
        "\u{1b}[31mabcde\u{1b}[0m\n",
    ),
    (
        Some(5),
        false,
        b"\x1b[31mabcdef\x1b[0m\n",
        "\u{1b}[31mabcd…\u{1b}[0m\n",
    ),
    (Some(5), false, b"abcdef\x1b[0m\n", "abcd…\n"),
];

// A writer that takes a few bytes at once, and fails after `limit` writes.
#[derive(Drop)]
struct Halting {
    bytes: Vec<u8>,
    share: usize,
    limit: usize,
    writes: usize,
}

impl Write for Halting {
    fn write(&mut self, buf: &[u8]) -> io::Result<usize> {
        if self.writes >= self.limit {
            return Err(io::Error::from(ErrorKind::BrokenPipe));
        }
        self.writes = self.writes.saturating_add(1);
        let taken = buf.len().min(self.share);
        match self.bytes.extend_from_slice(&buf[..taken]) {
            Ok(()) => Ok(taken),
            Err(_) => Err(io::Error::from(ErrorKind::OutOfMemory)),
        }
    }

    fn flush(&mut self) -> io::Result<()> {
        Ok(())
    }
}

fn limited(alloc: Global, share: usize, limit: usize) -> Halting {
    Halting {
        bytes: Vec::new(alloc),
        share,
        limit,
        writes: 0,
    }
}

#[test]
fn lines_are_shaped(rt: HostRuntime) -> Result<(), Fail> {
    for (width, is_escaped, bytes, want) in LINES {
        let shaping = Shaping { width, is_escaped };
        let mut whole = Shaped::new(rt.alloc(), limited(rt.alloc(), 1000, 1000), shaping);
        whole.write_all(bytes)?;
        whole.flush()?;
        assert!(rt;
            whole.into_inner().bytes.as_slice() == want.as_bytes(),
            "{want}"
        );
        let mut parts = Shaped::new(rt.alloc(), limited(rt.alloc(), 1, 1000), shaping);
        for byte in bytes {
            parts.write_all(&[*byte])?;
        }
        parts.flush()?;
        assert!(rt;
            parts.into_inner().bytes.as_slice() == want.as_bytes(),
            "{want}"
        );
    }
    Ok(())
}

#[test]
fn a_writer_that_fails_has_a_first_part(rt: HostRuntime) -> Result<(), Fail> {
    for (width, is_escaped, bytes, want) in LINES {
        let shaping = Shaping { width, is_escaped };
        for limit in 0..want.len() {
            let mut writer = Shaped::new(rt.alloc(), limited(rt.alloc(), 1, limit), shaping);
            let is_written = writer.write_all(bytes).is_ok() && writer.flush().is_ok();
            assert!(rt; !is_written, "{want}");
            let written = writer.into_inner().bytes;
            assert!(rt; want.as_bytes().starts_with(written.as_slice()), "{want}");
            assert!(rt; written.len() == limit, "{want}");
        }
    }
    Ok(())
}
