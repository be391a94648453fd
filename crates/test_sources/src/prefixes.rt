//! Lines that begin with a prefix.

use super::seen::START;
use std::test::*;
use tracing_tree_layer::Call;
use ttree_prefix::{Mark, Prefixed};
use ttree_source::{Plain, Source};

// Marks, lines, and what they are split into.
const SPLITS: [(Mark, &str, Option<(&str, &str)>); 38] = [
    (Mark::Bar, "web-1  | up", Some(("web-1", "up"))),
    (Mark::Bar, "a|b|c", Some(("a", "b|c"))),
    (Mark::Bar, "web-1  |     at x", Some(("web-1", "    at x"))),
    (Mark::Bar, "ready", None),
    (Mark::Bracket, "[pod/web/a] up", Some(("pod/web/a", "up"))),
    (Mark::Job, "a b\tc d\t1Z e f", Some(("a b\tc d\t1Z", "e f"))),
    (
        Mark::Job,
        "a\tb\t\u{feff}1Z  e",
        Some(("a\tb\t\u{feff}1Z", " e")),
    ),
    (Mark::Job, "a\tb\t1Z ", Some(("a\tb\t1Z", ""))),
    (Mark::Job, "a\tb\tc d", None),
    (Mark::Job, "a\t1Z d", None),
    (Mark::Time, "02:31:19Z  up", Some(("02:31:19Z", " up"))),
    (Mark::Time, "Starting up", None),
    (Mark::Time, "", None),
    (Mark::Tab, "a b\tc\td", Some(("a b", "c\td"))),
    (Mark::Tab, "\tc", None),
    (Mark::Colon, "web:dev: a: b", Some(("web:dev", "a: b"))),
    (Mark::Colon, "01:23 s[1]:  up", Some(("01:23 s[1]", " up"))),
    (Mark::Colon, "web:", None),
    (Mark::Colon, ": up", None),
    (Mark::Colon, "  at: a", None),
    (Mark::Colon, "panic: up", None),
    (Mark::Colon, "java.io.IOException: up", None),
    (Mark::Colon, "a: panic: up", Some(("a", "panic: up"))),
    (
        Mark::DateTime,
        "2026/12/01 1:2 a b",
        Some(("2026/12/01 1:2", "a b")),
    ),
    (Mark::DateTime, "Starting up now", None),
    (Mark::DateTime, "2026/12/01 up", None),
    (Mark::Pod, "web-0 app.1 a b", Some(("web-0 app.1", "a b"))),
    (Mark::Pod, "Listening on port", None),
    (Mark::Pod, "web  up", None),
    (Mark::Pod, " web up", None),
    (
        Mark::Stamp,
        "Dec 01 04:18:04 up",
        Some(("Dec 01 04:18:04", "up")),
    ),
    (Mark::Stamp, "Dec 01 04:18 up", None),
    (Mark::Stamp, "The quick brown fox", None),
    (Mark::Stamp, "a up", None),
    (
        Mark::Bar,
        "\u{1b}[33mweb  | \u{1b}[0mup",
        Some(("web", "up")),
    ),
    (
        Mark::Bar,
        "\u{1b}[33;1mweb |\u{1b}[0m up",
        Some(("web", "up")),
    ),
    (
        Mark::Bar,
        "\u{1b}[33mweb | \u{1b}[0m  up",
        Some(("web", "  up")),
    ),
    (Mark::Bar, "\u{1b}[2Kam | up", Some(("\u{1b}[2Kam", "up"))),
];

// Marks, and the strings that prefixes end at.
const ENDS: [(Mark, &str); 9] = [
    (Mark::Bar, "|"),
    (Mark::Bracket, "]"),
    (Mark::Job, " "),
    (Mark::Time, " "),
    (Mark::Tab, "\t"),
    (Mark::Colon, ": "),
    (Mark::DateTime, " "),
    (Mark::Pod, " "),
    (Mark::Stamp, " "),
];

#[test]
fn prefixes_end_at_their_marks(rt: HostRuntime) {
    for (mark, line, parts) in SPLITS {
        assert!(rt; mark.split(line) == parts, "{line}");
    }
}

#[test]
fn marks_are_strings(rt: HostRuntime) {
    for (mark, end) in ENDS {
        assert!(rt; mark.as_str() == end);
    }
}

#[test]
fn a_prefix_is_the_last_field(rt: HostRuntime) -> Result<(), Fail> {
    let alloc = rt.alloc();
    let mut source = Prefixed::new(alloc, Plain::new(START), Some(Mark::Bar));
    let calls = source
        .take(alloc, "web-1  | up", None)?
        .unwrap_or(Vec::new(alloc));
    let fields = match calls.as_slice() {
        [Call::Event(event, _)] => event.fields.as_slice(),
        _ => &[],
    };
    assert!(rt; fields.len() == 2);
    for (field, (name, value)) in fields.iter().zip([("message", "up"), ("prefix", "web-1")]) {
        assert!(rt; field.name.as_str() == name && field.value.as_str() == value);
    }
    assert!(rt; source.end(alloc)?.is_empty());
    let _plain = source.into_source();
    Ok(())
}
