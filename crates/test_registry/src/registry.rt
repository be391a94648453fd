//! The registry by itself, and calls with clones, records and named parents.

use std::alloc::{AllocError, Global};
use std::process::Abort;
use std::test::*;
use test_support::tree::{LINED, Settings, Tree};
use test_support::{Answer, Step, at, attributes, recorded};
use tracing_tree::call::Reply;
use tracing_tree::format::{Id, Refusal};
use tracing_tree::registry::{Data, LookupSpan, Parent, Registry};

// A root `a` and its child `b`, with the ids 1 and 2. A child of a span that isn't there is
// refused.
fn root_and_child(alloc: Global) -> Result<Registry, Fail> {
    let mut registry = Registry::new(alloc);
    for (name, parent, wanted) in [
        ("a", Parent::Root, Ok(Id(1))),
        ("b", Parent::Of(Id(1)), Ok(Id(2))),
        ("c", Parent::Of(Id(9)), Err(Refusal::NotHeld(Id(9)))),
    ] {
        let span = attributes(alloc, name, parent)?;
        if registry.new_span(span, &at(None)) != wanted {
            return Err(Fail::from("a new span is answered otherwise"));
        }
    }
    Ok(registry)
}

#[test]
fn keeps_spans(rt: HostRuntime) -> Result<(), Fail> {
    let registry = root_and_child(rt.alloc())?;
    let look = registry.span(Id(2)).ok_or("no span")?;
    assert_eq!(rt; look.id(), Id(2));
    assert_eq!(rt; look.name(), "b");
    assert_eq!(rt; look.target(), "t");
    assert_eq!(rt; look.parent(), Some(Id(1)));
    assert_eq!(rt; look.data().written, false);
    Ok(())
}

#[test]
fn lists_a_path_both_ways(rt: HostRuntime) -> Result<(), Fail> {
    let registry = root_and_child(rt.alloc())?;
    let path = registry.path(rt.alloc(), Id(2))?;
    assert_eq!(rt; path.as_slice(), [Id(1), Id(2)].as_slice());
    let scope = registry.scope(rt.alloc(), Id(2))?;
    assert_eq!(rt; scope.as_slice(), [Id(2), Id(1)].as_slice());
    Ok(())
}

#[test]
fn closes_a_parent_with_its_last_child(rt: HostRuntime) -> Result<(), Fail> {
    let mut registry = root_and_child(rt.alloc())?;
    assert_eq!(rt; registry.try_close(Id(1)), Ok(false));
    let Ok(closing) = registry.closing(rt.alloc(), Id(2)) else {
        return Err(Fail::from("refused"));
    };
    assert_eq!(rt; closing.as_slice(), [Id(2), Id(1)].as_slice());
    assert_eq!(rt; registry.try_close(Id(2)), Ok(true));
    assert_eq!(rt; registry.span(Id(1)).is_none(), true);
    assert_eq!(rt; registry.try_close(Id(2)), Err(Refusal::NotHeld(Id(2))));
    Ok(())
}

#[test]
fn takes_a_span_back(rt: HostRuntime) -> Result<(), Fail> {
    let alloc = rt.alloc();
    let mut registry = Registry::starting_at(alloc, 5);
    let first = attributes(alloc, "a", Parent::Root)?;
    let Ok(id) = registry.new_span(first, &at(None)) else {
        return Err(Fail::from("refused"));
    };
    registry.take_back(id);
    assert_eq!(rt; registry.data(Id(5)).is_none(), true);
    let again = attributes(alloc, "b", Parent::Root)?;
    assert_eq!(rt; registry.new_span(again, &at(None)), Ok(Id(5)));
    Ok(())
}

// Returns what is kept with a new span that has one field.
fn data(alloc: Global) -> Result<Data, AllocError> {
    let mut made = attributes(alloc, "a", Parent::Root)?;
    made.fields = recorded(alloc, "k", "1")?;
    Data::new(&made, 7, true)
}

#[test]
fn makes_data(rt: HostRuntime) -> Result<(), Fail> {
    let data = data(rt.alloc())?;
    assert_eq!(rt; (data.start, data.written), (7, true));
    let fields = recorded(rt.alloc(), "k", "1")?;
    assert_eq!(rt; data.fields == fields, true);
    Ok(())
}

// A run of these steps is answered so, and draws this.
fn runs(
    rt: &impl Abort,
    alloc: Global,
    settings: Settings,
    steps: &[Step<'_>],
    answers: &[Answer],
    text: &str,
) -> Result<(), Fail> {
    let mut tree = Tree::new(alloc, settings)?;
    let answered = tree.run(alloc, steps)?;
    assert_eq!(rt; answered.as_slice(), answers);
    assert_eq!(rt; tree.text(), text.as_bytes());
    Ok(())
}

// Checks the answer to each of these steps, and what they draw.
fn answers(
    rt: &impl Abort,
    alloc: Global,
    steps: &[(Step<'_>, Answer)],
    text: &str,
) -> Result<(), Fail> {
    let mut tree = Tree::new(alloc, LINED)?;
    assert_eq!(rt; tree.first_unlike(alloc, steps)?, None);
    assert_eq!(rt; tree.text(), text.as_bytes());
    Ok(())
}

const CLONED: [Step<'static>; 6] = [
    Step::New("a", None),
    Step::New("b", Some(1)),
    Step::Clone(1),
    Step::Close(1),
    Step::Close(2),
    Step::Close(1),
];

const CLONED_ANSWERS: [Answer; 6] = [
    Ok(Reply::Span(Id(1))),
    Ok(Reply::Span(Id(2))),
    Ok(Reply::Cloned(Id(1))),
    Ok(Reply::Closed(false)),
    Ok(Reply::Closed(true)),
    Ok(Reply::Closed(true)),
];

#[test]
fn a_clone_keeps_a_span(rt: HostRuntime) -> Result<(), Fail> {
    let text = "┐a \n└─┐b \n┌─┘\n┘\n";
    let answers = CLONED_ANSWERS.as_slice();
    runs(&rt, rt.alloc(), LINED, CLONED.as_slice(), answers, text)
}

const HELD_BY_A_CHILD: [(Step<'static>, Answer); 5] = [
    (Step::New("a", None), Ok(Reply::Span(Id(1)))),
    (Step::New("b", Some(1)), Ok(Reply::Span(Id(2)))),
    (Step::Close(1), Ok(Reply::Closed(false))),
    (Step::Clone(1), Ok(Reply::Cloned(Id(1)))),
    (Step::Close(2), Ok(Reply::Closed(true))),
];

#[test]
fn a_span_held_by_its_child_is_cloned(rt: HostRuntime) -> Result<(), Fail> {
    let text = "┐a \n└─┐b \n┌─┘\n";
    answers(&rt, rt.alloc(), HELD_BY_A_CHILD.as_slice(), text)
}

const NAMED_PARENTS: [(Step<'static>, Answer); 6] = [
    (Step::New("a", None), Ok(Reply::Span(Id(1)))),
    (Step::New("b", None), Ok(Reply::Span(Id(2)))),
    (
        Step::NewIn("c", Parent::Of(Id(1)), Some(2)),
        Ok(Reply::Span(Id(3))),
    ),
    (
        Step::EventIn("x", Parent::Of(Id(3)), Some(2)),
        Ok(Reply::Done),
    ),
    (Step::EventIn("x", Parent::Root, Some(2)), Ok(Reply::Done)),
    (
        Step::NewIn("d", Parent::Of(Id(9)), None),
        Err(Refusal::NotHeld(Id(9))),
    ),
];

#[test]
fn parents_are_named(rt: HostRuntime) -> Result<(), Fail> {
    let text = "┐a \n┐b \n└─┐c \n  ├─ INFO x\n INFO x\n";
    answers(&rt, rt.alloc(), NAMED_PARENTS.as_slice(), text)
}

const RECORDS: [Step<'static>; 5] = [
    Step::New("a", None),
    Step::Record(1, "1"),
    Step::Record(1, "2"),
    Step::Record(9, "3"),
    Step::Close(1),
];

const RECORDS_ANSWERS: [Answer; 5] = [
    Ok(Reply::Span(Id(1))),
    Ok(Reply::Done),
    Ok(Reply::Done),
    Ok(Reply::Done),
    Ok(Reply::Closed(true)),
];

#[test]
fn fields_are_recorded(rt: HostRuntime) -> Result<(), Fail> {
    let text = "┐a \n┘a k=1, k=2\n";
    let settings = Settings {
        verbose_exit: true,
        ..LINED
    };
    let answers = RECORDS_ANSWERS.as_slice();
    runs(&rt, rt.alloc(), settings, RECORDS.as_slice(), answers, text)
}

// Each call that needs a live span, here this one, which isn't live.
fn steps_on(id: u64) -> [(Step<'static>, Answer); 5] {
    let refused = Err(Refusal::NotHeld(Id(id)));
    [
        (Step::Clone(id), refused),
        (Step::Close(id), refused),
        (Step::New("b", Some(id)), refused),
        (Step::NewIn("b", Parent::Of(Id(id)), None), refused),
        (Step::Record(id, "1"), Ok(Reply::Done)),
    ]
}

// Returns a span that closes, calls on ids that aren't live, and another span.
fn odd_steps(alloc: Global) -> Result<Vec<(Step<'static>, Answer)>, AllocError> {
    let mut steps = Vec::new(alloc);
    steps.push((Step::New("a", None), Ok(Reply::Span(Id(1)))))?;
    steps.push((Step::Close(1), Ok(Reply::Closed(true))))?;
    for id in [0, 1, 2, u64::MAX] {
        steps.extend_from_slice(steps_on(id).as_slice())?;
    }
    steps.push((Step::New("b", None), Ok(Reply::Span(Id(2)))))?;
    Ok(steps)
}

#[test]
fn odd_ids_are_not_held(rt: HostRuntime) -> Result<(), Fail> {
    let steps = odd_steps(rt.alloc())?;
    answers(&rt, rt.alloc(), steps.as_slice(), "┐a \n┘\n┐b \n")
}
