//! A registry that lends its paths, beside a registry that walks them: the same calls get the same
//! answers.

use std::alloc::{AllocError, Global};
use std::test::*;
use test_support::{Step, at, attributes, recorded};
use tracing_tree::format::{Context, Id, Refusal};
use tracing_tree::registry::{Attributes, Data, LookupSpan, Parent, Registry, SpanRef, Walked};
use tracing_tree::style::Level;

/// Two registries that are called alike. They are boxed, since each step of a test is proved over
/// all that its own values hold.
#[derive(Drop)]
pub struct Both {
    pub lent: Box<Registry>,
    pub walked: Box<Walked>,
}

// Makes a span. Like the function below it promises nothing, so that what calls it is soon proved.
fn lent_span(
    lent: &mut Registry,
    attributes: Attributes,
    context: &Context,
) -> Result<Id, Refusal> {
    lent.new_span(attributes, context)
}

// Makes a span.
fn walked_span(
    walked: &mut Walked,
    attributes: Attributes,
    context: &Context,
) -> Result<Id, Refusal> {
    walked.new_span(attributes, context)
}

// Returns what a span of this name is made of, with a field that says its name.
fn named(alloc: Global, name: &str, parent: Parent) -> Result<Attributes, AllocError> {
    let mut made = attributes(alloc, name, parent)?;
    made.fields = recorded(alloc, "key", name)?;
    Ok(made)
}

impl Both {
    /// Without spans; the first id is this.
    pub fn starting_at(alloc: Global, first: u64) -> Result<Both, AllocError> {
        Ok(Both {
            lent: Box::new(alloc, Registry::starting_at(alloc, first))?,
            walked: Box::new(alloc, Walked::starting_at(alloc, first))?,
        })
    }

    /// Returns whether both show the same of this id.
    pub fn agree_on(&self, alloc: Global, id: Id) -> Result<bool, AllocError> {
        let path = self.walked.path(alloc, id)?;
        let scope = self.walked.scope(alloc, id)?;
        let kept = match self.lent.kept_path(id) {
            Some(kept) => kept == path.as_slice() && !kept.is_empty(),
            None => path.is_empty(),
        };
        Ok(
            kept && self.walked.kept_path(id).is_none()
                && self.lent.path(alloc, id)? == path
                && self.lent.scope(alloc, id)? == scope
                && self.lent.closing(alloc, id) == self.walked.closing(alloc, id)
                && self.lent.parent(id) == self.walked.parent(id)
                && are_alike(self.lent.span(id), self.walked.span(id)),
        )
    }

    // Returns whether both answer this step alike. An event only looks at its current span.
    fn agree(&mut self, alloc: Global, step: Step<'_>) -> Result<bool, AllocError> {
        match step {
            Step::New(name, current) => self.agree_on_new(alloc, name, Parent::Current, current),
            Step::NewIn(name, parent, current) => self.agree_on_new(alloc, name, parent, current),
            Step::Clone(id) => Ok(self.agree_on_clone(Id(id))),
            Step::Record(id, value) => {
                self.record(alloc, Id(id), value)?;
                Ok(true)
            }
            Step::Event(_, _, current) | Step::EventIn(_, _, current) => match current {
                Some(id) => self.agree_on(alloc, Id(id)),
                None => Ok(true),
            },
            Step::Close(id) => self.agree_on_close(alloc, Id(id)),
        }
    }

    // Returns whether both make this span, and give it the same id.
    fn agree_on_new(
        &mut self,
        alloc: Global,
        name: &str,
        parent: Parent,
        current: Option<u64>,
    ) -> Result<bool, AllocError> {
        let here = at(current);
        let made = lent_span(&mut self.lent, named(alloc, name, parent)?, &here);
        let again = walked_span(&mut self.walked, named(alloc, name, parent)?, &here);
        Ok(made.is_ok() && made == again)
    }

    fn agree_on_clone(&mut self, id: Id) -> bool {
        let cloned = self.lent.clone_span(id);
        cloned.is_ok() && cloned == self.walked.clone_span(id)
    }

    // Puts the same field into both.
    fn record(&mut self, alloc: Global, id: Id, value: &str) -> Result<(), AllocError> {
        self.lent.record(id, recorded(alloc, "k", value)?)?;
        self.walked.record(id, recorded(alloc, "k", value)?)
    }

    // Returns whether both show the same of this span, and let go of it alike.
    fn agree_on_close(&mut self, alloc: Global, id: Id) -> Result<bool, AllocError> {
        let same = self.agree_on(alloc, id)?;
        let closed = self.lent.try_close(id);
        Ok(same && closed.is_ok() && closed == self.walked.try_close(id))
    }
}

// Returns whether two views show the same span, or both are `None`.
fn are_alike(look: Option<SpanRef<'_>>, other: Option<SpanRef<'_>>) -> bool {
    match (look, other) {
        (Some(look), Some(other)) => {
            look.id() == other.id()
                && look.parent() == other.parent()
                && look.name() == other.name()
                && look.target() == other.target()
                && is_same(look.data(), other.data())
        }
        (None, None) => true,
        _ => false,
    }
}

fn is_same(data: &Data, other: &Data) -> bool {
    data.start == other.start && data.written == other.written && data.fields == other.fields
}

// Returns whether both registries answer these steps alike, and show the same of the first ids
// after each.
fn all_agree(alloc: Global, steps: &[Step<'_>]) -> Result<bool, AllocError> {
    let mut both = Both::starting_at(alloc, 1)?;
    for step in steps {
        if !both.agree(alloc, *step)? || !agree_on_first(alloc, &both)? {
            return Ok(false);
        }
    }
    Ok(true)
}

// Returns whether both show the same of the ids from 0 to 6.
fn agree_on_first(alloc: Global, both: &Both) -> Result<bool, AllocError> {
    for id in 0..7 {
        if !both.agree_on(alloc, Id(id))? {
            return Ok(false);
        }
    }
    Ok(true)
}

// A root, its child with an event, and their closes.
const CHILD: [Step<'static>; 5] = [
    Step::New("a", None),
    Step::New("b", Some(1)),
    Step::Event(Level::Warn, "x", Some(2)),
    Step::Close(2),
    Step::Close(1),
];

// A chain of three, an event in the middle one, and the close of the last.
const CHAIN: [Step<'static>; 5] = [
    Step::New("a", None),
    Step::New("b", Some(1)),
    Step::New("c", Some(2)),
    Step::Event(Level::Info, "x", Some(2)),
    Step::Close(3),
];

// Two roots with an event each.
const ROOTS: [Step<'static>; 4] = [
    Step::New("a", None),
    Step::New("b", None),
    Step::Event(Level::Info, "x", Some(1)),
    Step::Event(Level::Info, "y", Some(2)),
];

// A root with a child that closes after another root was made.
const STRANGER: [Step<'static>; 5] = [
    Step::New("a", None),
    Step::New("b", Some(1)),
    Step::New("c", None),
    Step::Close(2),
    Step::Event(Level::Info, "x", Some(1)),
];

// A root and its child, with an event each.
const LATE: [Step<'static>; 4] = [
    Step::New("a", None),
    Step::New("b", Some(1)),
    Step::Event(Level::Info, "x", Some(1)),
    Step::Event(Level::Info, "y", Some(2)),
];

// A handle on a parent that only its child holds, fields that come later, and the end of both.
const HELD: [Step<'static>; 7] = [
    Step::New("a", None),
    Step::New("b", Some(1)),
    Step::Close(1),
    Step::Clone(1),
    Step::Record(1, "1"),
    Step::Close(2),
    Step::Close(1),
];

// Two tasks, a span in each, which take turns, and their end.
const TURNS: [Step<'static>; 10] = [
    Step::NewIn("a", Parent::Root, None),
    Step::NewIn("b", Parent::Root, None),
    Step::NewIn("a", Parent::Of(Id(1)), None),
    Step::NewIn("b", Parent::Of(Id(2)), None),
    Step::Event(Level::Info, "a", Some(3)),
    Step::Close(3),
    Step::Event(Level::Info, "b", Some(4)),
    Step::Close(4),
    Step::Close(2),
    Step::Close(1),
];

const RUNS: [&[Step<'static>]; 7] = [&CHILD, &CHAIN, &ROOTS, &STRANGER, &LATE, &TURNS, &HELD];

#[test]
fn answers_alike(rt: HostRuntime) -> Result<(), Fail> {
    for (number, steps) in RUNS.iter().enumerate() {
        assert!(rt; all_agree(rt.alloc(), steps)?, "{number}");
    }
    Ok(())
}

// Makes a root, and a span in it, and returns their ids.
fn root_and_child(alloc: Global, walked: &mut Walked) -> Result<[Option<Id>; 2], AllocError> {
    let root = walked_span(walked, named(alloc, "a", Parent::Root)?, &at(None));
    let child = walked_span(walked, named(alloc, "b", Parent::Current)?, &at(Some(1)));
    Ok([root.ok(), child.ok()])
}

fn is_written(walked: &Walked, id: Id) -> bool {
    walked.data(id).is_some_and(|data| data.written)
}

#[test]
fn walks_its_paths(rt: HostRuntime) -> Result<(), Fail> {
    let alloc = rt.alloc();
    let mut walked = Box::new(alloc, Walked::new(alloc))?;
    let ids = [Some(Id(1)), Some(Id(2))];
    assert_eq!(rt; root_and_child(alloc, &mut walked)?, ids);
    let path = [Id(1), Id(2)];
    assert_eq!(rt; walked.path(alloc, Id(2))?.as_slice(), path.as_slice());
    assert_eq!(rt; walked.path(alloc, Id(3))?.len(), 0);
    assert!(rt; walked.kept_path(Id(2)).is_none());
    walked.set_written(Id(2));
    assert!(rt; is_written(&walked, Id(2)));
    Ok(())
}
