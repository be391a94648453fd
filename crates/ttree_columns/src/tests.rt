//! Lines and the columns that they take.

use crate::{is_wider, push_fitting};
use std::test::*;

// A line, a width, whether the line is wider, what fits in fewer columns, and how many columns that
// takes.
const LINES: [(&str, usize, bool, &str, usize); 22] = [
    ("", 0, false, "", 0),
    ("a", 0, true, "", 0),
    ("abc", 3, false, "ab", 2),
    ("abc", 2, true, "a", 1),
    ("abc", 4, false, "abc", 3),
    ("日本語", 6, false, "日本", 4),
    ("日本語", 5, true, "日本", 4),
    ("日本語", 4, true, "日", 2),
    ("日本語", 7, false, "日本語", 6),
    ("a日", 3, false, "a", 1),
    ("e\u{301}e\u{301}", 2, false, "e\u{301}", 1),
    ("e\u{301}e\u{301}", 1, true, "", 0),
    ("ab\u{301}c", 3, false, "ab\u{301}", 2),
    ("😀😀", 4, false, "😀", 2),
    ("😀😀", 3, true, "😀", 2),
    ("👩\u{200d}💻", 4, false, "👩\u{200d}", 2),
    ("ﾊﾟ", 2, false, "ﾊ", 1),
    ("\tx", 9, false, "\t", 8),
    ("\tx", 8, true, "", 0),
    ("abc\tx", 9, false, "abc\t", 8),
    ("\u{1b}[31mab\u{1b}[0m", 2, false, "\u{1b}[31ma", 1),
    (
        "\u{1b}[31mab\u{1b}[0m",
        3,
        false,
        "\u{1b}[31mab\u{1b}[0m",
        2,
    ),
];

#[test]
fn lines_fit(rt: HostRuntime) -> Result<(), Fail> {
    for (line, width, wider, fits, column) in LINES {
        assert!(rt; is_wider(line, width) == wider, "{line} at {width}");
        let mut out = String::from_str(rt.alloc(), "> ")?;
        let reached = push_fitting(&mut out, line, width)?;
        assert!(rt; reached == column, "{line} at {width}: {reached}");
        assert!(rt;
            out.as_str().strip_prefix("> ") == Some(fits),
            "{line} at {width}: {out}"
        );
    }
    Ok(())
}
