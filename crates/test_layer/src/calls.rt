//! Calls on a layered, with their answers and their output.

use crate::checks::{answers, draws};
use std::alloc::{AllocError, Global};
use std::test::*;
use test_support::tree::{LINED, Tree};
use test_support::{Answer, Step};
use tracing_tree::call::Reply;
use tracing_tree::format::{Id, Refusal};
use tracing_tree::style::Level;

/// Two spans, an event, and both closed.
pub const TREE: [Step<'static>; 5] = [
    Step::New("a", None),
    Step::New("b", Some(1)),
    Step::Event(Level::Warn, "x", Some(2)),
    Step::Close(2),
    Step::Close(1),
];

const TREE_ANSWERS: [Answer; 5] = [
    Ok(Reply::Span(Id(1))),
    Ok(Reply::Span(Id(2))),
    Ok(Reply::Done),
    Ok(Reply::Closed(true)),
    Ok(Reply::Closed(true)),
];

#[test]
fn draws_a_tree(rt: HostRuntime) -> Result<(), Fail> {
    let alloc = rt.alloc();
    let mut tree = Tree::new(alloc, LINED)?;
    let answers = tree.run(alloc, TREE.as_slice())?;
    assert_eq!(rt; answers.as_slice(), TREE_ANSWERS.as_slice());
    let text = "┐a \n└─┐b \n  ├─ WARN x\n┌─┘\n┘\n";
    assert_eq!(rt; tree.text(), text.as_bytes());
    Ok(())
}

// Returns `count` roots, which are live at once, and close in the order in which they opened.
fn roots(alloc: Global, count: u64) -> Result<Vec<Step<'static>>, AllocError> {
    let mut steps = Vec::new(alloc);
    for _ in 0..count {
        steps.push(Step::New("a", None))?;
    }
    for id in 1..=count {
        steps.push(Step::Close(id))?;
    }
    Ok(steps)
}

// Returns the drawing of `count` roots that close after the last has opened.
fn roots_text(alloc: Global, count: usize) -> Result<String, AllocError> {
    let opened = "┐a \n".repeat(alloc, count)?;
    let closed = "┘\n".repeat(alloc, count)?;
    format!(in alloc; "{opened}{closed}")
}

#[test]
fn draws_many_spans(rt: HostRuntime) -> Result<(), Fail> {
    let alloc = rt.alloc();
    let steps = roots(alloc, 3_000)?;
    let text = roots_text(alloc, 3_000)?;
    draws(&rt, alloc, LINED, steps.as_slice(), text.as_str())
}

#[test]
fn runs_no_calls(rt: HostRuntime) -> Result<(), Fail> {
    let alloc = rt.alloc();
    let mut tree = Tree::new(alloc, LINED)?;
    assert_eq!(rt; tree.run(alloc, &[])?.is_empty(), true);
    Ok(())
}

const PAST_THE_LAST_ID: [(Step<'static>, Answer); 2] = [
    (Step::New("a", None), Ok(Reply::Span(Id(u64::MAX)))),
    (Step::New("b", None), Err(Refusal::TooMany)),
];

#[test]
fn gives_out_the_greatest_id(rt: HostRuntime) -> Result<(), Fail> {
    let alloc = rt.alloc();
    let mut tree = Tree::starting_at(alloc, u64::MAX, LINED)?;
    answers(&rt, alloc, &mut tree, PAST_THE_LAST_ID.as_slice(), "┐a \n")
}

const NOT_HELD: [(Step<'static>, Answer); 3] = [
    (Step::Close(7), Err(Refusal::NotHeld(Id(7)))),
    (Step::New("a", Some(7)), Err(Refusal::NotHeld(Id(7)))),
    (Step::Event(Level::Info, "x", Some(7)), Ok(Reply::Done)),
];

#[test]
fn refuses_what_is_not_held(rt: HostRuntime) -> Result<(), Fail> {
    let alloc = rt.alloc();
    let mut tree = Tree::new(alloc, LINED)?;
    answers(&rt, alloc, &mut tree, NOT_HELD.as_slice(), "INFO x\n")
}

const CLOSED_TOGETHER: [(Step<'static>, Answer); 5] = [
    (Step::New("a", None), Ok(Reply::Span(Id(1)))),
    (Step::New("b", Some(1)), Ok(Reply::Span(Id(2)))),
    (Step::Close(1), Ok(Reply::Closed(false))),
    (Step::Close(1), Err(Refusal::NotHeld(Id(1)))),
    (Step::Close(2), Ok(Reply::Closed(true))),
];

#[test]
fn closes_a_parent_with_its_child(rt: HostRuntime) -> Result<(), Fail> {
    let alloc = rt.alloc();
    let mut tree = Tree::new(alloc, LINED)?;
    let text = "┐a \n└─┐b \n┌─┘\n┘\n";
    answers(&rt, alloc, &mut tree, CLOSED_TOGETHER.as_slice(), text)?;
    assert_eq!(rt; tree.last_span(), Some(Id(1)));
    Ok(())
}
