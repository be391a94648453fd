//! API of the Rust crates that no call of the layer uses: newly made lists of spans, and a span's
//! data.

ghost use Rattle.std.specs.Prelude.{◌≡◌, None, IfOk, OnErr, reverse};
ghost use Rattle.tracing_tree_spans.specs.Registry.Forest.{IsClosing, IsGrownForest, IsPathIfLive, path_of, span_at};
ghost use Rattle.tracing_tree_spans.specs.Registry.Registered.{AsksLastHandle, ListsClosing};

use super::{Attributes, Data, Registry};
use std::alloc::{AllocError, Global};
use tracing_tree_base::{Id, Refusal};

impl Registry {
    /// Returns the ids that `try_close` would remove, as [`closing_into`](Registry::closing_into)
    /// lists them. It never allocates if nothing would be removed.
    ///
    /// # Errors
    ///
    /// `NotHeld` if the span isn't live or has no handle left. `Memory` if an allocation fails.
    pub fn closing(&self, alloc: Global, id: Id) -> Result<Vec<Id>, Refusal>
        ensures lists { ListsClosing id result self.now }
        ensures longest { IfOk result (λ ids. IsClosing self.now id ids.items) }

        // A span is removed only with its last handle, and only then is memory needed.
        ensures last { AsksLastHandle id result self.now }
    {
        let mut ids = Vec::new(alloc);
        self.closing_into(id, &mut ids)?;
        Ok(ids)
    }

    /// Returns the span, its parent, and so on up to its root. The list is empty if the id isn't
    /// live.
    ///
    /// # Errors
    ///
    /// `AllocError` if an allocation fails. An id that isn't live never allocates.
    pub fn scope(&self, alloc: Global, id: Id) -> Result<Vec<Id>, AllocError>
        ensures scope { IfOk result (λ scope. scope.items ≡ reverse (path_of self.now id)) }
        ensures whole { IfOk result (λ scope. IsPathIfLive self.now id (reverse scope.items)) }
        ensures live { OnErr result (span_at self.now id ≡ None → ⊥) }
        ensures formed { IsGrownForest self.now }
    {
        match self.nodes.get(id) {
            Some(node) => self
                .branches
                .path(node.path())
                .iter()
                .rev()
                .copied()
                .collect(alloc),
            None => Ok(Vec::new(alloc)),
        }
    }
}

impl Data {
    /// Returns the data of a new span: its start in nanoseconds, a copy of its fields, and whether
    /// it counts as printed.
    ///
    /// # Errors
    ///
    /// `AllocError` if an allocation fails.
    pub fn new(attributes: &Attributes, start: u64, written: bool) -> Result<Data, AllocError>
        ensures { IfOk result
            (λ made. made
            ≡ record { start = start; fields = attributes.now.fields; written = written }) }
    {
        Ok(Data {
            start,
            fields: attributes.fields.clone()?,
            written,
        })
    }
}
