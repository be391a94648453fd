//! Strings, blocks, settings and single rows. The calls of the library are in functions without
//! contracts, so the tests are proved quickly.

use std::alloc::{AllocError, Global};
use std::process::Abort;
use std::test::*;
use test_support::at;
use tracing_tree::field::Field;
use tracing_tree::format::{Buffers, Config, FmtEvent, Refusal, SpanMode, Tape, write_span_mode};
use tracing_tree::style::{ColorLevel, Level, Style, styled};
use tracing_tree::text::Text;
use tracing_tree::time::{FormatTime, TimeFault};

// A string with its ansi setting and its style, and how it is painted.
const PAINTED: [(bool, Style, &str, &str); 4] = [
    (true, Style::Dimmed, "t", "\x1b[2mt\x1b[0m"),
    (true, Style::BoldWarn, "", "\x1b[1;38;2;252;234;160m\x1b[0m"),
    (true, Style::Plain, "t", "t"),
    (false, Style::BoldRed, "t", "t"),
];

// A level, and how it is painted.
const LEVELS: [(Level, &str); 5] = [
    (Level::Trace, "\x1b[1;35mTRACE\x1b[0m"),
    (Level::Debug, "\x1b[1;34mDEBUG\x1b[0m"),
    (Level::Info, "\x1b[1;32m INFO\x1b[0m"),
    (Level::Warn, "\x1b[1;38;2;252;234;160m WARN\x1b[0m"),
    (Level::Error, "\x1b[1;31mERROR\x1b[0m"),
];

fn painted(alloc: Global, ansi: bool, style: Style, text: &str) -> Result<String, AllocError> {
    styled(alloc, ansi, style, text)
}

fn painted_level(alloc: Global, level: Level) -> Result<String, AllocError> {
    ColorLevel(&level).to_string(alloc)
}

fn paints_styles(rt: &impl Abort, alloc: Global) -> Result<(), AllocError> {
    for (ansi, style, text, shown) in PAINTED {
        assert_eq!(rt; painted(alloc, ansi, style, text)?.as_str(), shown);
    }
    Ok(())
}

fn paints_levels(rt: &impl Abort, alloc: Global) -> Result<(), AllocError> {
    for (level, shown) in LEVELS {
        assert_eq!(rt; painted_level(alloc, level)?.as_str(), shown);
    }
    Ok(())
}

#[test]
fn paints_texts(rt: HostRuntime) -> Result<(), Fail> {
    paints_styles(&rt, rt.alloc())?;
    paints_levels(&rt, rt.alloc())?;
    Ok(())
}

// What a value is made of.
#[derive(Clone, Copy)]
enum Made {
    Rendered(&'static str),
    Whole(i128),
    Truth(bool),

    // A string with escapes, as in `field`, which is known to be ASCII there.
    Quoted,
}

impl Made {
    fn field(self, alloc: Global, name: &str) -> Result<Field, AllocError> {
        match self {
            Made::Rendered(text) => Field::rendered(alloc, name, text),
            Made::Whole(number) => Field::whole(alloc, name, number),
            Made::Truth(truth) => Field::truth(alloc, name, truth),
            Made::Quoted => Field::text(alloc, name, "a\"b\\c\td\ne\rf\0g\x1bh\x7fi"),
        }
    }
}

// A field's name, what its value is made of, and the value.
const VALUES: [(&str, Made, &str); 4] = [
    ("k", Made::Rendered("1"), "1"),
    ("k", Made::Whole(-8080), "-8080"),
    ("k", Made::Truth(true), "true"),
    (
        "host",
        Made::Quoted,
        "\"a\\\"b\\\\c\\td\\ne\\rf\\0g\\u{1b}h\\u{7f}i\"",
    ),
];

#[test]
fn keeps_values_of_fields(rt: HostRuntime) -> Result<(), Fail> {
    for (name, made, value) in VALUES {
        let field = made.field(rt.alloc(), name)?;
        assert_eq!(rt; field.value.as_str(), value);
        assert_eq!(rt; field.name.as_str(), name);
    }
    Ok(())
}

// Texts about the length from which on they need memory.
const TEXTS: [&str; 5] = [
    "",
    "fifteen bytes..",
    "sixteen bytes...",
    "seventeen bytes..",
    "\u{fc}ber sechzehn Bytes",
];

// Returns whether a string that is copied, one that is moved in and a clone are all equal to this
// one.
fn are_kept(alloc: Global, text: &str) -> Result<bool, AllocError> {
    let copied = Text::from_str(alloc, text)?;
    let moved = Text::from(String::from_str(alloc, text)?);
    let cloned = copied.clone()?;
    let texts = [&copied, &moved, &cloned];
    Ok(texts.iter().all(|kept| kept.as_str() == text) && copied == moved)
}

#[test]
fn keeps_short_and_long_texts_alike(rt: HostRuntime) -> Result<(), Fail> {
    for text in TEXTS {
        assert!(rt; are_kept(rt.alloc(), text)?, "{text}");
    }
    Ok(())
}

#[test]
fn labels_events(rt: HostRuntime) -> Result<(), Fail> {
    let mut out = String::new(rt.alloc());
    write_span_mode(&mut out, SpanMode::Event)?;
    assert_eq!(rt; out.as_str(), "event: ");
    Ok(())
}

// Whether thread ids and names are shown, and the prefix of a line of thread 7, main.
const PREFIXES: [(bool, bool, &str); 3] = [
    (true, false, "7"),
    (true, true, "7:main"),
    (false, true, "main"),
];

fn prefix(alloc: Global, ids: bool, names: bool) -> Result<String, AllocError> {
    let mut context = at(None);
    context.thread_id = 7;
    context.thread_name = Some(Text::from_str(alloc, "main")?);
    Config::new(2, false)
        .with_thread_ids(ids)
        .with_thread_names(names)
        .prefix(alloc, &context)
}

#[test]
fn prefixes_lines(rt: HostRuntime) -> Result<(), Fail> {
    for (ids, names, shown) in PREFIXES {
        assert_eq!(rt; prefix(rt.alloc(), ids, names)?.as_str(), shown);
    }
    Ok(())
}

// What the drawing of a block answers, and the rows after it.
#[derive(Drop)]
struct Rows {
    answer: Result<(), Refusal>,
    bufs: Buffers,
}

fn indented(
    alloc: Global,
    block: &str,
    level: usize,
    config: Config,
    mode: SpanMode,
) -> Result<Rows, AllocError> {
    let mut bufs = Buffers::new(alloc);
    bufs.current_buf.push_str(block)?;
    let answer = bufs.indent_current(level, &config, mode, &at(None));
    Ok(Rows { answer, bufs })
}

// Returns whether the rows are written, and nothing is left of them.
fn is_flushed(alloc: Global, bufs: &mut Buffers, rows: &str) -> bool {
    let mut tape = Tape::new(alloc);
    bufs.flush_current_buf(&mut tape).is_ok()
        && tape.bytes() == rows.as_bytes()
        && bufs.current_buf.is_empty()
}

#[test]
fn draws_a_row(rt: HostRuntime) -> Result<(), Fail> {
    let alloc = rt.alloc();
    let config = Config::new(2, false).with_indent_lines(true);
    let mode = SpanMode::Open { verbose: false };
    let mut drawn = indented(alloc, "b k=1\n2", 1, config, mode)?;
    assert_eq!(rt; drawn.answer, Ok(()));
    assert_eq!(rt; drawn.bufs.current_buf.as_str(), "└─┐b k=1\n  │  2\n");
    assert!(rt; is_flushed(alloc, &mut drawn.bufs, "└─┐b k=1\n  │  2\n"));
    Ok(())
}

fn moved(alloc: Global, current: &str, indent: &str) -> Result<Buffers, AllocError> {
    let mut bufs = Buffers::new(alloc);
    bufs.current_buf.push_str(current)?;
    bufs.indent_buf.push_str(indent)?;
    bufs.flush_indent_buf()?;
    Ok(bufs)
}

#[test]
fn moves_the_rows(rt: HostRuntime) -> Result<(), Fail> {
    let bufs = moved(rt.alloc(), "a", "b")?;
    assert_eq!(rt; bufs.current_buf.as_str(), "ab");
    assert_eq!(rt; bufs.indent_buf.as_str(), "");
    Ok(())
}

// Lines on or off, with a mode and a level whose rows are too wide.
const TOO_WIDE: [(bool, SpanMode, usize); 2] = [
    (false, SpanMode::Event, 2),
    (true, SpanMode::PostClose, 1),
];

#[test]
fn refuses_what_is_too_wide(rt: HostRuntime) -> Result<(), Fail> {
    for (lines, mode, level) in TOO_WIDE {
        let config = Config::new(1 << 63, false).with_indent_lines(lines);
        let drawn = indented(rt.alloc(), "x", level, config, mode)?;
        assert_eq!(rt; drawn.answer, Err(Refusal::TooWide));
        assert_eq!(rt; drawn.bufs.current_buf.as_str(), "x");
        assert_eq!(rt; drawn.bufs.indent_buf.as_str(), "");
    }
    Ok(())
}

// Returns what a timer appends at the start of 1970, and for an elapsed nanosecond.
fn texts_of_timer<F: FormatTime>(alloc: Global, timer: &F) -> Result<String, TimeFault> {
    let mut text = String::new(alloc);
    timer.format_time(&at(None).moment, &mut text)?;
    timer.style_timestamp(true, 1, &mut text)?;
    Ok(text)
}

#[test]
fn no_timer_appends_nothing(rt: HostRuntime) {
    let alloc = rt.alloc();
    assert_eq!(rt;
        texts_of_timer(alloc, &()).is_ok_and(|text| text.is_empty()),
        true
    );
    assert_eq!(rt;
        texts_of_timer(alloc, &&()).is_ok_and(|text| text.is_empty()),
        true
    );
}

// Appends a field, and returns whether a comma comes before the next one.
fn listed(
    alloc: Global,
    list: &mut FmtEvent<'_>,
    name: &str,
    value: &str,
) -> Result<bool, AllocError> {
    list.record(&Field::rendered(alloc, name, value)?)?;
    Ok(list.comma)
}

#[test]
fn records_the_fields_of_an_event(rt: HostRuntime) -> Result<(), Fail> {
    let alloc = rt.alloc();
    let mut bufs = Buffers::new(alloc);
    let mut list = FmtEvent {
        bufs: &mut bufs,
        comma: false,
    };
    assert_eq!(rt; listed(alloc, &mut list, "log.file", "f")?, false);
    listed(alloc, &mut list, "message", "m")?;
    assert_eq!(rt; listed(alloc, &mut list, "k", "1")?, true);
    assert_eq!(rt; bufs.current_buf.as_str(), " m, k=1");
    Ok(())
}
