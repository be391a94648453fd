//! Random calls of the registries beside a plain list of the live spans.

use crate::walked::Both;
use std::alloc::{AllocError, Global};
use std::test::*;
use test_support::{at, attributes, recorded};
use tracing_tree::format::{Context, Id, Refusal};
use tracing_tree::registry::{LookupSpan, Parent};

// A span as the list keeps it.
#[derive(Drop)]
struct Listed {
    id: Id,
    parent: Option<Id>,
    handles: u64,
    fields: usize,
    written: bool,
}

// The live spans in the order of their making, and the next id.
#[derive(Drop)]
struct List {
    spans: Vec<Listed>,
    next: Option<Id>,
}

impl List {
    fn get(&self, id: Id) -> Option<&Listed> {
        self.spans.iter().find(|span| {
            let span: &Listed = span;
            span.id == id
        })
    }

    fn handles(&self, id: Id) -> u64 {
        match self.get(id) {
            Some(span) => span.handles,
            None => 0,
        }
    }

    // Returns the id that a new span below this parent has, if it may be made.
    fn next_below(&self, parent: Option<Id>) -> Result<Id, Refusal> {
        if let Some(id) = parent {
            if self.get(id).is_none() {
                return Err(Refusal::NotHeld(id));
            }
        }
        self.next.ok_or(Refusal::TooMany)
    }

    fn add(&mut self, id: Id, parent: Option<Id>) -> Result<(), AllocError> {
        self.next = id.0.checked_add(1).map(Id);
        self.spans.push(Listed {
            id,
            parent,
            handles: 1,
            fields: 0,
            written: false,
        })?;
        Ok(())
    }

    fn change<F: Fn(&mut Listed)>(&mut self, id: Id, change: F)
        requires { F.IsAlwaysCallable change }
    {
        for span in self.spans.iter_mut() {
            if span.id == id {
                change(span);
            }
        }
    }

    // Returns the span, its parent, and so on upward: a parent is older than its children.
    fn scope(&self, alloc: Global, id: Id) -> Result<Vec<Id>, AllocError> {
        let mut scope = Vec::new(alloc);
        let mut next = Some(id);
        for span in self.spans.iter().rev() {
            if next == Some(span.id) {
                scope.push(span.id)?;
                next = span.parent;
            }
        }
        Ok(scope)
    }

    // Returns a span without a handle and without a child.
    fn idle(&self) -> Option<Id> {
        for span in self.spans.iter() {
            if span.handles == 0 && self.is_childless(span.id) {
                return Some(span.id);
            }
        }
        None
    }

    fn is_childless(&self, id: Id) -> bool {
        self.spans.iter().all(|span| span.parent != Some(id))
    }

    // Takes a handle away, and then each span that nothing holds, in order.
    fn close(&mut self, alloc: Global, id: Id) -> Result<Vec<Id>, AllocError> {
        self.change(id, |span| span.handles = span.handles.wrapping_sub(1));
        let mut gone = Vec::new(alloc);
        for _ in 0..self.spans.len() {
            let Some(idle) = self.idle() else {
                break;
            };
            self.spans.retain(|span| span.id != idle);
            gone.push(idle)?;
        }
        Ok(gone)
    }
}

// The registries, the list, and the number from which the next random one comes.
#[derive(Drop)]
struct Trial {
    both: Both,
    list: List,
    seed: u64,
}

impl Trial {
    fn starting_at(alloc: Global, first: u64) -> Result<Trial, AllocError> {
        Ok(Trial {
            both: Both::starting_at(alloc, first)?,
            list: List {
                spans: Vec::new(alloc),
                next: Some(Id(first)),
            },
            seed: 1,
        })
    }

    // A random number below 2^31.
    fn random(&mut self) -> u64 {
        self.seed = self
            .seed
            .wrapping_mul(6_364_136_223_846_793_005)
            .wrapping_add(1_442_695_040_888_963_407);
        self.seed >> 33
    }

    // Mostly returns the id of a live span, otherwise one that was used recently or will be used
    // soon.
    fn any_id(&mut self) -> Id {
        let number = self.random();
        let count = self.list.spans.len() as u64;
        let place = number % count.wrapping_add(count / 8).max(1);
        match self.list.spans.get(place as usize) {
            Some(span) => span.id,
            None => match self.list.next {
                Some(next) => Id(next.0.wrapping_add(2).wrapping_sub(number % 64)),
                None => Id(u64::MAX.wrapping_sub(number % 64)),
            },
        }
    }

    // A random parent, the current span with it, and the id that is meant.
    fn any_parent(&mut self) -> (Parent, Option<Id>, Option<Id>) {
        let id = self.any_id();
        match self.random() % 4 {
            0 => (Parent::Root, Some(id), None),
            1 => (Parent::Current, None, None),
            2 => (Parent::Current, Some(id), Some(id)),
            _ => (Parent::Of(id), None, Some(id)),
        }
    }

    // Makes a span, and takes it back unless it must be kept.
    fn make(&mut self, alloc: Global, kept: bool) -> Result<bool, AllocError> {
        let (parent, current, meant) = self.any_parent();
        let context = Context {
            current,
            ..at(None)
        };
        let wanted = self.list.next_below(meant);
        let made = self
            .both
            .lent
            .new_span(attributes(alloc, "a", parent)?, &context);
        let walked = self
            .both
            .walked
            .new_span(attributes(alloc, "a", parent)?, &context);
        if let (Ok(id), Ok(other)) = (made, walked) {
            if kept {
                self.list.add(id, meant)?;
            } else {
                self.both.lent.take_back(id);
                self.both.walked.take_back(other);
            }
        }
        Ok(made == wanted && walked == wanted)
    }

    fn clone_span(&mut self, id: Id) -> bool {
        let wanted = match self.list.get(id) {
            Some(_) => Ok(id),
            None => Err(Refusal::NotHeld(id)),
        };
        self.list
            .change(id, |span| span.handles = span.handles.wrapping_add(1));
        self.both.lent.clone_span(id) == wanted && self.both.walked.clone_span(id) == wanted
    }

    fn record(&mut self, alloc: Global, id: Id) -> Result<(), AllocError> {
        self.list
            .change(id, |span| span.fields = span.fields.wrapping_add(1));
        self.both.lent.record(id, recorded(alloc, "k", "1")?)?;
        self.both.walked.record(id, recorded(alloc, "k", "1")?)
    }

    fn mark(&mut self, id: Id) {
        self.list.change(id, |span| span.written = true);
        self.both.lent.set_written(id);
        self.both.walked.set_written(id);
    }

    fn close(&mut self, alloc: Global, id: Id) -> Result<bool, AllocError> {
        let (closing, gone) = if self.list.handles(id) > 0 {
            let closing = self.list.close(alloc, id)?;
            let went = !closing.is_empty();
            (Ok(closing), Ok(went))
        } else {
            (Err(Refusal::NotHeld(id)), Err(Refusal::NotHeld(id)))
        };
        Ok(
            self.both.lent.closing(alloc, id) == closing
                && self.both.walked.closing(alloc, id) == closing
                && self.both.lent.try_close(id) == gone
                && self.both.walked.try_close(id) == gone,
        )
    }

    // A random call, with more new spans than closes while the forest is to grow. Whether all
    // answer it alike.
    fn call(&mut self, alloc: Global, grows: bool) -> Result<bool, AllocError> {
        let id = self.any_id();
        match (self.random() % 16, grows) {
            (0, _) => self.make(alloc, false),
            (1..=2, _) | (3..=6, true) => self.make(alloc, true),
            (7..=8, true) | (7, false) => Ok(self.clone_span(id)),
            (9, _) => {
                self.record(alloc, id)?;
                Ok(true)
            }
            (10, _) => {
                self.mark(id);
                Ok(true)
            }
            _ => self.close(alloc, id),
        }
    }

    // Returns whether the registries show of a span what the list has.
    fn shows(&self, alloc: Global, id: Id) -> Result<bool, AllocError> {
        let shown = match (self.both.lent.span(id), self.list.get(id)) {
            (Some(look), Some(span)) => {
                look.id() == id
                    && look.parent() == span.parent
                    && look.data().fields.as_slice().len() == span.fields
                    && look.data().written == span.written
            }
            (None, None) => true,
            _ => false,
        };
        let scope = self.list.scope(alloc, id)?;
        Ok(
            shown
                && self.both.lent.scope(alloc, id)? == scope
                && self.both.lent.kept_path(id).is_some() == self.list.get(id).is_some()
                && self.both.agree_on(alloc, id)?,
        )
    }
}

// Returns whether the registries and the list answer `count` random calls alike, and show a random
// id alike after each.
fn agrees(alloc: Global, first: u64, count: u64) -> Result<bool, AllocError> {
    let mut trial = Trial::starting_at(alloc, first)?;
    for number in 0..count {
        let same = trial.call(alloc, number / 500 % 2 == 0)?;
        let id = trial.any_id();
        if !same || !trial.shows(alloc, id)? {
            return Ok(false);
        }
    }
    Ok(true)
}

#[test]
fn answers_as_a_list_does(rt: HostRuntime) -> Result<(), Fail> {
    assert!(rt; agrees(rt.alloc(), 1, 100_000)?);
    Ok(())
}

#[test]
fn answers_as_a_list_does_to_the_last_id(rt: HostRuntime) -> Result<(), Fail> {
    assert!(rt; agrees(rt.alloc(), u64::MAX - 1_000, 10_000)?);
    Ok(())
}
