//! Spans that are deferred, retraced, and retraced before they close.

use crate::checks::{answers, draws};
use std::test::*;
use test_support::tree::{LINED, Settings, Tree};
use test_support::{Answer, Step};
use tracing_tree::call::Reply;
use tracing_tree::format::{Id, Refusal};
use tracing_tree::registry::Parent;
use tracing_tree::style::Level;

/// Two roots whose events alternate.
pub const ALTERNATING: [Step<'static>; 4] = [
    Step::New("a", None),
    Step::New("b", None),
    Step::Event(Level::Info, "x", Some(1)),
    Step::Event(Level::Info, "y", Some(2)),
];

#[test]
fn retraces_to_the_current_span_of_an_event(rt: HostRuntime) -> Result<(), Fail> {
    let settings = Settings {
        span_retrace: true,
        ..LINED
    };
    let text = "┐a \n┐b \n┐a \n├─ INFO x\n┐b \n├─ INFO y\n";
    draws(&rt, rt.alloc(), settings, ALTERNATING.as_slice(), text)
}

/// A chain of three, an event in the middle one, and the close of the last.
pub const CHAIN: [Step<'static>; 5] = [
    Step::New("a", None),
    Step::New("b", Some(1)),
    Step::New("c", Some(2)),
    Step::Event(Level::Info, "x", Some(2)),
    Step::Close(3),
];

#[test]
fn defers_spans_until_an_event_happens_in_them(rt: HostRuntime) -> Result<(), Fail> {
    let settings = Settings {
        deferred_spans: true,
        ..LINED
    };
    let text = "┐a \n└─┐b \n  ├─ INFO x\n";
    draws(&rt, rt.alloc(), settings, CHAIN.as_slice(), text)
}

const SILENT: [Step<'static>; 2] = [Step::New("a", None), Step::Close(1)];

#[test]
fn draws_nothing_of_a_deferred_span_without_events(rt: HostRuntime) -> Result<(), Fail> {
    let settings = Settings {
        deferred_spans: true,
        ..LINED
    };
    let text = "";
    draws(&rt, rt.alloc(), settings, SILENT.as_slice(), text)
}

const CLOSED: [Step<'static>; 5] = [
    Step::New("a", None),
    Step::New("b", Some(1)),
    Step::Event(Level::Info, "x", Some(2)),
    Step::Close(2),
    Step::Close(1),
];

#[test]
fn closes_deferred_spans_that_were_shown(rt: HostRuntime) -> Result<(), Fail> {
    let settings = Settings {
        deferred_spans: true,
        ..LINED
    };
    let text = "┐a \n└─┐b \n  ├─ INFO x\n┌─┘\n┘\n";
    draws(&rt, rt.alloc(), settings, CLOSED.as_slice(), text)
}

const ROOT: [Step<'static>; 1] = [Step::New("a", None)];

#[test]
fn labels_the_row_of_a_new_span_that_is_retraced_to(rt: HostRuntime) -> Result<(), Fail> {
    let settings = Settings {
        span_modes: true,
        span_retrace: true,
        ..LINED
    };
    let text = "┐retrace: a \n";
    draws(&rt, rt.alloc(), settings, ROOT.as_slice(), text)
}

/// A span and its child, with an event each.
pub const LATE: [Step<'static>; 4] = [
    Step::New("a", None),
    Step::New("b", Some(1)),
    Step::Event(Level::Info, "x", Some(1)),
    Step::Event(Level::Info, "y", Some(2)),
];

#[test]
fn shows_the_parent_of_the_first_fresh_span(rt: HostRuntime) -> Result<(), Fail> {
    let settings = Settings {
        amount: 4,
        deferred_spans: true,
        verbose_entry: true,
        ..LINED
    };
    let text = "┐a \n├─── INFO x\n└─┐a \n  └─┐b \n    ├─── INFO y\n";
    draws(&rt, rt.alloc(), settings, LATE.as_slice(), text)
}

/// `a`, its child `b`, and the root `c`; `b` closes; an event in `a`.
pub const STRANGER: [Step<'static>; 5] = [
    Step::New("a", None),
    Step::New("b", Some(1)),
    Step::New("c", None),
    Step::Close(2),
    Step::Event(Level::Info, "x", Some(1)),
];

#[test]
fn closes_off_the_last_path_under_a_stranger(rt: HostRuntime) -> Result<(), Fail> {
    let settings = Settings {
        span_retrace: true,
        ..LINED
    };
    let text = "┐a \n└─┐b \n┐c \n┌─┘\n├─ INFO x\n";
    draws(&rt, rt.alloc(), settings, STRANGER.as_slice(), text)
}

#[test]
fn retraces_before_a_close_off_the_last_path(rt: HostRuntime) -> Result<(), Fail> {
    let settings = Settings {
        span_retrace: true,
        close_retrace: true,
        ..LINED
    };
    let text = "┐a \n└─┐b \n┐c \n┐a \n└─┐b \n┌─┘\n├─ INFO x\n";
    draws(&rt, rt.alloc(), settings, STRANGER.as_slice(), text)
}

#[test]
fn retraces_no_close_unless_spans_are_retraced(rt: HostRuntime) -> Result<(), Fail> {
    let settings = Settings {
        close_retrace: true,
        ..LINED
    };
    let text = "┐a \n└─┐b \n┐c \n┌─┘\n├─ INFO x\n";
    draws(&rt, rt.alloc(), settings, STRANGER.as_slice(), text)
}

const CLOSED_ROOT: [(Step<'static>, Answer); 2] = [
    (Step::New("a", None), Ok(Reply::Span(Id(1)))),
    (Step::Close(1), Ok(Reply::Closed(true))),
];

const NEXT_ROOT: [(Step<'static>, Answer); 2] = [
    (Step::New("b", None), Ok(Reply::Span(Id(2)))),
    (Step::Event(Level::Info, "x", Some(2)), Ok(Reply::Done)),
];

#[test]
fn leaves_the_last_span_after_the_close_of_a_root(rt: HostRuntime) -> Result<(), Fail> {
    let alloc = rt.alloc();
    let settings = Settings {
        span_retrace: true,
        ..LINED
    };
    let mut tree = Tree::new(alloc, settings)?;
    answers(&rt, alloc, &mut tree, CLOSED_ROOT.as_slice(), "┐a \n┘\n")?;
    assert_eq!(rt; tree.last_span(), Some(Id(1)));
    let text = "┐a \n┘\n┐b \n├─ INFO x\n";
    answers(&rt, alloc, &mut tree, NEXT_ROOT.as_slice(), text)
}

const TOO_WIDE: [(Step<'static>, Answer); 4] = [
    (Step::New("a", None), Ok(Reply::Span(Id(1)))),
    (Step::New("b", Some(1)), Ok(Reply::Span(Id(2)))),
    (Step::New("c", Some(2)), Ok(Reply::Span(Id(3)))),
    (
        Step::EventIn("x", Parent::Of(Id(3)), None),
        Err(Refusal::TooWide),
    ),
];

const NARROW: [(Step<'static>, Answer); 1] = [(
    Step::Event(Level::Info, "y", Some(1)),
    Ok(Reply::Done),
)];

// The refused call leaves the marks and the last span: the spans are shown by the next event.
#[test]
fn refuses_a_row_that_is_too_wide(rt: HostRuntime) -> Result<(), Fail> {
    let alloc = rt.alloc();
    let settings = Settings {
        amount: 9_223_372_036_854_775_808,
        lines: false,
        deferred_spans: true,
        ..LINED
    };
    let mut tree = Tree::new(alloc, settings)?;
    answers(&rt, alloc, &mut tree, TOO_WIDE.as_slice(), "")?;
    assert_eq!(rt; tree.last_span(), None);
    assert_eq!(rt; tree.failed(), false);
    answers(&rt, alloc, &mut tree, NARROW.as_slice(), " a \n  INFO y\n")
}

const GONE: [Step<'static>; 4] = [
    Step::New("a", None),
    Step::Close(1),
    Step::Event(Level::Info, "x", Some(1)),
    Step::New("b", None),
];

// An event whose current span isn't live retraces nothing, and its last span may not be live.
#[test]
fn retraces_to_no_span_that_is_gone(rt: HostRuntime) -> Result<(), Fail> {
    let settings = Settings {
        span_retrace: true,
        ..LINED
    };
    let text = "┐a \n┘\nINFO x\n┐b \n";
    draws(&rt, rt.alloc(), settings, GONE.as_slice(), text)
}

const TWO_ROOTS: [Step<'static>; 3] = [
    Step::New("a", None),
    Step::New("b", None),
    Step::Event(Level::Info, "x", Some(1)),
];

// Without retracing nothing is shown again.
#[test]
fn retraces_nothing_unless_it_is_set(rt: HostRuntime) -> Result<(), Fail> {
    let alloc = rt.alloc();
    let mut tree = Tree::new(alloc, LINED)?;
    assert_eq!(rt; tree.run(alloc, TWO_ROOTS.as_slice())?.len(), 3);
    assert_eq!(rt; tree.text(), "┐a \n┐b \n├─ INFO x\n".as_bytes());
    Ok(())
}
