//! Odd calls, odd strings and odd lines.

use std::alloc::{AllocError, Global};
use std::process::Abort;
use std::test::*;
use test_support::tree::{LINED, Settings, Tree, drawn};
use test_support::{Answer, Step};
use tracing_tree::call::Reply;
use tracing_tree::format::{Id, Refusal, Tape};
use tracing_tree::lines::{run_lines, status};
use tracing_tree::registry::Parent;
use tracing_tree::rows::{Row, Shape, read_rows};
use tracing_tree::style::Level;

// No lines, and an amount of 2.
const PLAIN: Settings = Settings {
    lines: false,
    ..LINED
};

// The result of calls: the first one with an unexpected answer, what they draw, and whether the
// layer has failed.
type Drawing = (Option<(usize, Answer)>, Vec<u8>, bool);

fn drawing(
    alloc: Global,
    settings: Settings,
    steps: &[(Step<'_>, Answer)],
) -> Result<Drawing, AllocError> {
    let mut tree = Tree::new(alloc, settings)?;
    let unlike = tree.first_unlike(alloc, steps)?;
    Ok((unlike, tree.text().to_vec(alloc)?, tree.failed()))
}

// Checks the answer to each of these calls, and what they draw.
fn draws(
    rt: &(impl Abort + AllocGlobal),
    settings: Settings,
    steps: &[(Step<'_>, Answer)],
    text: &str,
) -> Result<(), AllocError> {
    let (unlike, drawn, failed) = drawing(rt.alloc(), settings, steps)?;
    assert_eq!(rt; unlike, None);
    assert_eq!(rt; drawn.as_slice(), text.as_bytes());
    assert!(rt; !failed);
    Ok(())
}

const GONE: Answer = Err(Refusal::NotHeld(Id(1)));

const AFTER_A_CLOSE: [(Step<'static>, Answer); 10] = [
    (Step::New("a", None), Ok(Reply::Span(Id(1)))),
    (Step::New("b", None), Ok(Reply::Span(Id(2)))),
    (Step::Close(1), Ok(Reply::Closed(true))),
    (Step::Close(1), GONE),
    (Step::Clone(1), GONE),
    (Step::New("c", Some(1)), GONE),
    (Step::NewIn("c", Parent::Of(Id(1)), Some(2)), GONE),
    (Step::Record(1, "1"), Ok(Reply::Done)),
    (Step::Event(Level::Info, "x", Some(1)), Ok(Reply::Done)),
    (Step::EventIn("y", Parent::Of(Id(1)), None), Ok(Reply::Done)),
];

#[test]
fn a_closed_span_is_not_held(rt: HostRuntime) -> Result<(), Fail> {
    let text = "┐a \n┐b \n┘\nINFO x\nINFO y\n";
    draws(&rt, LINED, AFTER_A_CLOSE.as_slice(), text)?;
    Ok(())
}

// A root takes its name without a refused child's id being lost.
const REFUSED_PARENTS: [(Step<'static>, Answer); 4] = [
    (
        Step::New("a", Some(u64::MAX)),
        Err(Refusal::NotHeld(Id(u64::MAX))),
    ),
    (
        Step::NewIn("a", Parent::Of(Id(0)), None),
        Err(Refusal::NotHeld(Id(0))),
    ),
    (
        Step::NewIn("a", Parent::Root, Some(9)),
        Ok(Reply::Span(Id(1))),
    ),
    (
        Step::NewIn("b", Parent::Of(Id(1)), Some(9)),
        Ok(Reply::Span(Id(2))),
    ),
];

#[test]
fn a_parent_that_is_named_may_be_current_or_not(rt: HostRuntime) -> Result<(), Fail> {
    draws(&rt, LINED, REFUSED_PARENTS.as_slice(), "┐a \n└─┐b \n")?;
    Ok(())
}

// Spans that wait for their first event, and an amount of 2^63.
const WIDE: Settings = Settings {
    amount: 1 << 63,
    deferred_spans: true,
    ..LINED
};

// An event at level 3.
const TOO_WIDE: [(Step<'static>, Answer); 5] = [
    (Step::New("a", None), Ok(Reply::Span(Id(1)))),
    (Step::New("b", Some(1)), Ok(Reply::Span(Id(2)))),
    (Step::New("c", Some(2)), Ok(Reply::Span(Id(3)))),
    (
        Step::EventIn("x", Parent::Of(Id(3)), None),
        Err(Refusal::TooWide),
    ),
    (Step::Event(Level::Info, "y", None), Ok(Reply::Done)),
];

#[test]
fn a_row_with_lines_is_too_wide(rt: HostRuntime) -> Result<(), Fail> {
    draws(&rt, WIDE, TOO_WIDE.as_slice(), "INFO y\n")?;
    Ok(())
}

// An event outside every span with this message draws this.
fn emits(
    rt: &(impl Abort + AllocGlobal),
    settings: Settings,
    message: &str,
    text: &str,
) -> Result<(), AllocError> {
    let step = Step::Event(Level::Info, message, None);
    let drawn = drawn(rt.alloc(), settings, [step].as_slice())?;
    assert_eq!(rt; drawn.as_str(), text, "{message:?}");
    Ok(())
}

// Messages, each with what an event with it draws with lines, and without.
const MESSAGES: [(&str, &str, &str); 9] = [
    ("x", "INFO x\n", " INFO x\n"),
    ("", "INFO \n", " INFO \n"),
    ("x\r", "INFO x\n", " INFO x\r\n"),
    ("x\n", "INFO x\n\n", " INFO x\n"),
    ("x\r\ny", "INFO x\ny\n", " INFO x\n   y\n"),
    ("x\r\r\ny", "INFO x\r\ny\n", " INFO x\r\n   y\n"),
    ("x\ry", "INFO x\ry\n", " INFO x\ry\n"),
    ("\n\n", "INFO \n\n\n", " INFO \n   \n"),
    (
        "\u{b}\u{85}\u{2028}",
        "INFO \u{b}\u{85}\u{2028}\n",
        " INFO \u{b}\u{85}\u{2028}\n",
    ),
];

// A line end takes the carriage return right before it along. What follows the last one keeps its
// own without lines; with lines a line end is put after it.
#[test]
fn texts_with_line_ends_are_drawn(rt: HostRuntime) -> Result<(), Fail> {
    for (message, lined, plain) in MESSAGES {
        emits(&rt, LINED, message, lined)?;
        emits(&rt, PLAIN, message, plain)?;
    }
    Ok(())
}

const TWO_LINES: [(Step<'static>, Answer); 2] = [
    (Step::New("a", None), Ok(Reply::Span(Id(1)))),
    (Step::Event(Level::Info, "x\r\ny", Some(1)), Ok(Reply::Done)),
];

#[test]
fn a_carriage_return_goes_with_its_line_end(rt: HostRuntime) -> Result<(), Fail> {
    draws(&rt, LINED, TWO_LINES.as_slice(), "┐a \n├─ INFO x\n│  y\n")?;
    Ok(())
}

// A row as a line: its shape, its level, and each of its lines after a bar.
fn push_row(out: &mut String, row: &Row) -> Result<(), AllocError> {
    let (shape, level): (Shape, usize) = (row.shape(), row.level());
    write!(out, "{shape:?} {level}")?;
    for line in row.lines().as_slice() {
        write!(out, "|{line}")?;
    }
    out.push_str("\n")
}

// Returns each row of the text, or an empty string if it can't be read.
fn read(alloc: Global, text: &str) -> Result<String, AllocError> {
    let mut out = String::new(alloc);
    let Ok(rows) = read_rows(alloc, text, 2) else {
        return Ok(out);
    };
    for row in &rows {
        push_row(&mut out, row)?;
    }
    Ok(out)
}

// Checks that a root with this name draws this text, which is read as these rows.
fn is_read_back(
    rt: &(impl Abort + AllocGlobal),
    name: &str,
    text: &str,
    rows: &str,
) -> Result<(), AllocError> {
    let drawn = drawn(rt.alloc(), LINED, [Step::New(name, None)].as_slice())?;
    assert_eq!(rt; drawn.as_str(), text, "{name:?}");
    let read = read(rt.alloc(), drawn.as_str())?;
    assert_eq!(rt; read.as_str(), rows, "{name:?}");
    Ok(())
}

// Roots whose names look like corners, with what they draw and the rows that are read of it.
const NAMES: [(&str, &str, &str); 5] = [
    ("┐", "┐┐ \n", "OpenRoot 0|┐ \n"),
    ("a\n┐b", "┐a\n┐┐b \n", "OpenRoot 0|a\nOpenRoot 0|┐b \n"),
    ("┘", "┐┘ \n", "OpenRoot 0|┘ \n"),
    ("", "┐ \n", "OpenRoot 0| \n"),
    ("\u{1b}[2J", "┐\u{1b}[2J \n", "OpenRoot 0|\u{1b}[2J \n"),
];

#[test]
fn odd_names_are_read_back(rt: HostRuntime) -> Result<(), Fail> {
    for (name, text, rows) in NAMES {
        is_read_back(&rt, name, text, rows)?;
    }
    Ok(())
}

// Runs the lines over this input. Returns the fault as a string, or an empty one, and the status.
fn ends(alloc: Global, input: &[u8]) -> Result<(String, u8), AllocError> {
    let ran = run_lines(alloc, input, Tape::new(alloc));
    let status = status(&ran.fault, true);
    match ran.fault {
        Some(fault) => Ok((format!(in alloc; "{fault}")?, status)),
        None => Ok((String::new(alloc), status)),
    }
}

// Returns how a run over this input after that one ends.
fn ends_after(alloc: Global, before: &[u8], input: &[u8]) -> Result<(String, u8), AllocError> {
    let mut whole = before.to_vec(alloc)?;
    whole.extend_from_slice(input)?;
    ends(alloc, whole.as_slice())
}

// Checks how a run ends over each of these inputs after the input `before`: the fault as a string,
// or an empty one, and the status.
fn each_ends(
    rt: &(impl Abort + AllocGlobal),
    before: &[u8],
    inputs: &[&[u8]],
    (text, status): (&str, u8),
) -> Result<(), AllocError> {
    for input in inputs {
        let ended = ends_after(rt.alloc(), before, input)?;
        assert_eq!(rt; (ended.0.as_str(), ended.1), (text, status), "{input:?}");
    }
    Ok(())
}

const BAD_SETTINGS: [&[u8]; 21] = [
    b"",
    b"\n",
    b"[]",
    b"null",
    b"{",
    b"\xff",
    b"{\"wraparound\":0}",
    b"{\"wraparound\":18446744073709551616}",
    b"{\"indent_amount\":-1}",
    b"{\"indent_amount\":2.0}",
    b"{\"indent_amount\":\"2\"}",
    b"{\"indent_amount\":18446744073709551616}",
    b"{\"colour\":true}",
    b"{\"ansi\":1}",
    b"{\"timer\":\"utc\"}",
    b"{\"timer\":{}}",
    b"{\"timer\":{\"kind\":\"clock\"}}",
    b"{\"timer\":{\"kind\":\"none\",\"epoch\":0}}",
    b"{\"timer\":{\"kind\":\"local\"}}",
    b"{\"timer\":{\"kind\":\"local\",\"offset\":93600}}",
    b"{\"timer\":{\"kind\":\"uptime\",\"epoch\":-1}}",
];

const GOOD_SETTINGS: [&[u8]; 13] = [
    b"{}",
    b"{\"indent_lines\":null}",
    b"{\"colour\":null}",
    b" {\"ansi\" : true }\r\n",
    b"{\"indent_amount\":0}",
    b"{\"indent_amount\":18446744073709551615}",
    b"{\"wraparound\":18446744073709551615}",
    b"{\"timer\":null}",
    b"{\"timer\":{\"kind\":\"none\",\"epoch\":null}}",
    b"{\"timer\":{\"kind\":\"utc\",\"higher_precision\":true}}",
    b"{\"timer\":{\"kind\":\"local\",\"offset\":93599}}",
    b"{\"timer\":{\"kind\":\"local\",\"offset\":-93599}}",
    b"{\"timer\":{\"kind\":\"uptime\",\"epoch\":18446744073709551615}}",
];

#[test]
fn settings_are_taken_or_not(rt: HostRuntime) -> Result<(), Fail> {
    each_ends(&rt, b"", BAD_SETTINGS.as_slice(), ("line 1: settings", 2))?;
    each_ends(&rt, b"", GOOD_SETTINGS.as_slice(), ("", 0))?;
    Ok(())
}

const NOT_CALLS: [&[u8]; 30] = [
    b"[]",
    b"null",
    b"x",
    b"\xff",
    b"{}",
    b"{\"call\":null}",
    b"{\"call\":\"New\",\"name\":\"a\"}",
    b"{\"call\":\"new\"}",
    b"{\"call\":\"new\",\"name\":null}",
    b"{\"call\":\"new\",\"name\":1}",
    b"{\"call\":\"new\",\"name\":\"a\",\"x\":1.5}",
    b"{\"call\":\"new\",\"name\":\"a\",\"x\":[{\"y\":1.5}]}",
    b"{\"call\":\"new\",\"name\":\"a\",\"current\":-1}",
    b"{\"call\":\"new\",\"name\":\"a\",\"current\":18446744073709551616}",
    b"{\"call\":\"new\",\"name\":\"a\",\"parent\":\"Root\"}",
    b"{\"call\":\"new\",\"name\":\"a\",\"parent\":-1}",
    b"{\"call\":\"new\",\"name\":\"a\",\"fields\":{}}",
    b"{\"call\":\"new\",\"name\":\"a\",\"fields\":[[\"k\"]]}",
    b"{\"call\":\"new\",\"name\":\"a\",\"fields\":[[\"k\",\"v\",\"w\"]]}",
    b"{\"call\":\"new\",\"name\":\"a\",\"fields\":[[\"k\",1]]}",
    b"{\"call\":\"new\",\"name\":\"a\",\"thread\":-1}",
    b"{\"call\":\"new\",\"name\":\"a\",\"mono\":-1}",
    b"{\"call\":\"new\",\"name\":\"a\",\"wall\":9223372036854775808}",
    b"{\"call\":\"new\",\"name\":\"a\"}{}",
    b"{\"call\":\"event\"}",
    b"{\"call\":\"event\",\"level\":\"info\"}",
    b"{\"call\":\"clone\"}",
    b"{\"call\":\"record\",\"id\":\"1\"}",
    b"{\"call\":\"close\",\"id\":1.0}",
    b"{\"call\":\"close\",\"id\":1,\"thread_name\":1}",
];

const CALLS: [&[u8]; 12] = [
    b"{\"call\":\"new\",\"name\":\"a\",\"id\":\"z\"}",
    b"{\"call\":\"new\",\"name\":\"a\",\"target\":null,\"fields\":null,\"parent\":null}",
    b"{\"call\":\"new\",\"name\":\"a\",\"parent\":\"root\",\"current\":7}",
    b"{\"call\":\"new\",\"name\":\"a\",\"thread\":18446744073709551615,\"thread_name\":\"\"}",
    b"{\"call\":\"new\",\"name\":\"a\",\"wall\":-9223372036854775808}",
    b"{\"call\":\"new\",\"name\":\"a\",\"wall\":9223372036854775807,\"mono\":18446744073709551615}",
    b"{\"call\":\"event\",\"level\":\"TRACE\",\"parent\":7,\"current\":9}",
    b"{\"call\":\"record\",\"id\":7}",
    b" \t\r",
    b"",
    b"\n\n\t\n{\"call\":\"record\",\"id\":0,\"fields\":[]}",
    b"\t{ \"x\" : [ { } , null , \"\\u00e9\" ] , \"call\" : \"event\" , \"level\" : \"WARN\" }\r",
];

const NOT_HELD: [&[u8]; 3] = [
    b"{\"call\":\"close\",\"id\":7}",
    b"{\"call\":\"clone\",\"id\":7,\"name\":1}",
    b"{\"call\":\"new\",\"name\":\"a\",\"parent\":7}",
];

// A line that is skipped counts.
const BEFORE: &[u8] = b"{}\n\n";

#[test]
fn lines_spell_a_call_or_not(rt: HostRuntime) -> Result<(), Fail> {
    each_ends(&rt, BEFORE, NOT_CALLS.as_slice(), ("line 3: not a call", 1))?;
    each_ends(&rt, BEFORE, NOT_HELD.as_slice(), ("line 3: not held 7", 1))?;
    each_ends(&rt, BEFORE, CALLS.as_slice(), ("", 0))?;
    Ok(())
}
