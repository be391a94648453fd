//! Live spans whose paths are walked.

ghost use Rattle.std.specs.Prelude.{◌≡◌, None, IfOk, OnErr, option_map, option_copied, reverse};
ghost use Rattle.tracing_tree_spans.specs.Registry.Ids.{id_of};
ghost use Rattle.tracing_tree_spans.specs.Registry.Forest.{IsForest, IsGrownForest, IsPathIfLive, IsClosing, empty_forest, span_at, parent_of, path_of, take_back};
ghost use Rattle.tracing_tree_spans.specs.Registry.Spans.{shown_span};
ghost use Rattle.tracing_tree_spans.specs.Registry.Lookup.{data_at};
ghost use Rattle.tracing_tree_spans.specs.Registry.Registered.{IsNewSpan, IsCloned, IsClosed, ListsClosing, AsksLastHandle, listed, IsNewest};

use super::{Attributes, Context, Data, LookupSpan, Registry, SpanRef};
use std::alloc::{AllocError, Global};
use std::marker::Model;
use tracing_tree_base::field::Fields;
use tracing_tree_base::{Id, Refusal};

/// A [`Registry`] that doesn't lend paths. It finds each path by a walk from the span up to its
/// root. It has the same calls with the same contracts.
#[derive(Drop)]
pub struct Walked {
    spans: Registry,
}

impl Model for Walked {
    ghost use Rattle.tracing_tree_spans.specs.Registry.Forest.{Forest};

    ghost Value = { Forest };

    ghost view = { λ w. w.spans };
}

impl Walked {
    /// Returns a registry without spans, whose first id is 1. Never allocates.
    pub fn new(alloc: Global) -> Walked
        ensures { result ≡ empty_forest (id_of 1) }
    {
        Walked {
            spans: Registry::new(alloc),
        }
    }

    /// Returns a registry without spans, whose first id is `first`. Never allocates.
    pub fn starting_at(alloc: Global, first: u64) -> Walked
        ensures { result ≡ empty_forest (id_of first) }
    {
        Walked {
            spans: Registry::starting_at(alloc, first),
        }
    }

    /// Makes a span, like [`Registry::new_span`].
    pub fn new_span(&mut self, attributes: Attributes, context: &Context) -> Result<Id, Refusal>
        ensures made { IsNewSpan attributes context.now result self.old self.new }
        ensures newest { IfOk result (λ id. IsNewest id self.new) }
        ensures undone { IfOk result (λ id. take_back id self.new ≡ self.old) }
    {
        self.spans.new_span(attributes, context)
    }

    /// Adds a handle, like [`Registry::clone_span`].
    pub fn clone_span(&mut self, id: Id) -> Result<Id, Refusal>
        ensures { IsCloned id result self.old self.new }
    {
        self.spans.clone_span(id)
    }

    /// Drops a handle, like [`Registry::try_close`].
    pub fn try_close(&mut self, id: Id) -> Result<bool, Refusal>
        ensures { IsClosed id result self.old self.new }
    {
        self.spans.try_close(id)
    }

    /// Returns the ids that a close would remove, like [`Registry::closing`].
    pub fn closing(&self, alloc: Global, id: Id) -> Result<Vec<Id>, Refusal>
        ensures lists { ListsClosing id result self.now }
        ensures longest { IfOk result (λ ids. IsClosing self.now id ids.items) }
        ensures last { AsksLastHandle id result self.now }
    {
        self.spans.closing(alloc, id)
    }

    /// Lists the ids that a close would remove, like [`Registry::closing_into`].
    pub fn closing_into(&self, id: Id, ids: &mut Vec<Id>) -> Result<(), Refusal>
        ensures lists { ListsClosing id (listed ids.new result) self.now }
        ensures longest { IfOk result (λ done. IsClosing self.now id ids.new.items) }
        ensures last { AsksLastHandle id (listed ids.new result) self.now }
    {
        self.spans.closing_into(id, ids)
    }

    /// Returns the span and its ancestors, like [`Registry::scope`], by a walk.
    pub fn scope(&self, alloc: Global, id: Id) -> Result<Vec<Id>, AllocError>
        ensures scope { IfOk result (λ scope. scope.items ≡ reverse (path_of self.now id)) }
        ensures whole { IfOk result (λ scope. IsPathIfLive self.now id (reverse scope.items)) }
        ensures live { OnErr result (span_at self.now id ≡ None → ⊥) }
        ensures formed { IsGrownForest self.now }
    {
        let mut scope = Vec::new(alloc);
        let mut span = self.spans.span(id);
        while let Some(shown) = span {
            scope.push(shown.id())?;
            span = match shown.parent() {
                Some(parent) => self.spans.span(parent),
                None => None,
            };
        }
        Ok(scope)
    }

    /// Removes a new span, like [`Registry::take_back`].
    pub fn take_back(&mut self, id: Id)
        requires { IsNewest id self.old }
        ensures { self.new ≡ take_back id self.old }
    {
        self.spans.take_back(id);
    }
}

impl LookupSpan for Walked {
    ghost forest = { λ w. w };

    fn span(&self, id: Id) -> Option<SpanRef<'_>>
        ensures shown { result ≡ option_map shown_span (span_at self.now id) }
        ensures formed { IsForest self.now }
        ensures grown { IsGrownForest self.now }
    {
        self.spans.span(id)
    }

    fn parent(&self, id: Id) -> Option<Id>
        ensures parent { result ≡ parent_of self.now id }
        ensures formed { IsForest self.now }
        ensures grown { IsGrownForest self.now }
    {
        self.spans.parent(id)
    }

    fn path(&self, alloc: Global, id: Id) -> Result<Vec<Id>, AllocError>
        ensures path { IfOk result (λ path. path.items ≡ path_of self.now id) }
        ensures whole { IfOk result (λ path. IsPathIfLive self.now id path.items) }
        ensures live { OnErr result (span_at self.now id ≡ None → ⊥) }
        ensures formed { IsForest self.now }
        ensures grown { IsGrownForest self.now }
    {
        let mut path = self.scope(alloc, id)?;
        path.reverse();
        Ok(path)
    }

    /// Always returns `None`.
    fn kept_path(&self, id: Id) -> Option<&[Id]>
        ensures none { result ≡ None }
        ensures formed { IsForest self.now }
        ensures grown { IsGrownForest self.now }
    {
        let _span = self.spans.span(id);
        None
    }

    fn data(&self, id: Id) -> Option<&Data>
        ensures kept { option_copied result ≡ data_at self.now id }
        ensures formed { IsForest self.now }
        ensures grown { IsGrownForest self.now }
    {
        self.spans.data(id)
    }

    fn record(&mut self, id: Id, fields: Fields) -> Result<(), AllocError> {
        self.spans.record(id, fields)
    }

    fn set_written(&mut self, id: Id) {
        self.spans.set_written(id);
    }
}
