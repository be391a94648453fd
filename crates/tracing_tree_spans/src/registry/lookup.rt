//! Access to live spans.

ghost use Rattle.std.specs.Prelude.{◌≡◌, None, option_map, option_copied, IfOk, IfSome, OnOk, OnErr};
ghost use Rattle.tracing_tree_spans.specs.Registry.Spans.{shown_span};
ghost use Rattle.tracing_tree_spans.specs.Registry.Forest.{Forest, IsForest, IsPathIfLive, span_at, parent_of, path_of, add_fields, mark_printed};
ghost use Rattle.tracing_tree_spans.specs.Registry.Lookup.{data_at};

use super::{Data, SpanRef};
use std::alloc::{AllocError, Global};
use tracing_tree_base::Id;
use tracing_tree_base::field::Fields;

/// Live spans that a layer reads and marks. (`LookupSpan` of the Rust crate's registry.)
///
/// A custom registry must ensure three things. No two live spans have the same id. The parent of
/// each live span is live. No span is its own ancestor. The order of its list of spans and its
/// choice of ids are free. ([`Registry`] lists spans in the order of their creation, and its
/// ids rise.)
///
/// [`Registry`]: crate::registry::Registry
pub trait LookupSpan {
    /// The live spans, in any order. The forest also has a next id, which no clause here mentions.
    ghost forest: { Self → Forest };

    /// Returns a view of a live span, or `None` if the id isn't live.
    fn span(&self, id: Id) -> Option<SpanRef<'_>>
        ensures shown { result ≡ option_map shown_span (span_at (forest self.now) id) }
        ensures formed { IsForest (forest self.now) };

    /// Returns the parent of a live span, if it has one.
    fn parent(&self, id: Id) -> Option<Id>
        ensures parent { result ≡ parent_of (forest self.now) id }
        ensures formed { IsForest (forest self.now) };

    /// Returns the path of a span, from its root down to it. The path is empty if the id isn't
    /// live.
    ///
    /// # Errors
    ///
    /// `AllocError` if an allocation fails. An id that isn't live never allocates.
    fn path(&self, alloc: Global, id: Id) -> Result<Vec<Id>, AllocError>
        ensures path { IfOk result (λ path. path.items ≡ path_of (forest self.now) id) }
        ensures whole { IfOk result (λ path. IsPathIfLive (forest self.now) id path.items) }
        ensures live { OnErr result (span_at (forest self.now) id ≡ None → ⊥) }
        ensures formed { IsForest (forest self.now) };

    /// Returns the path of a live span, from its root down to it, if it is stored with the span.
    /// Returns `None` if it isn't stored or the id isn't live; call `path` then. Never allocates.
    fn kept_path(&self, id: Id) -> Option<&[Id]>
        ensures kept { IfSome result (λ path. path.now ≡ path_of (forest self.now) id) }
        ensures formed { IsForest (forest self.now) };

    /// Returns the data that is stored with a live span.
    fn data(&self, id: Id) -> Option<&Data>
        ensures kept { option_copied result ≡ data_at (forest self.now) id }
        ensures formed { IsForest (forest self.now) };

    /// Appends the fields to those of the span. An id that isn't live changes nothing and never
    /// allocates.
    ///
    /// # Errors
    ///
    /// `AllocError` if an allocation fails. Nothing has changed then.
    fn record(&mut self, id: Id, fields: Fields) -> Result<(), AllocError>
        ensures ok { OnOk result (forest self.new ≡ add_fields fields id (forest self.old)) }
        ensures err { OnErr result (forest self.new ≡ forest self.old) }
        ensures live { OnErr result (span_at (forest self.old) id ≡ None → ⊥) };

    /// Marks the span as printed. An id that isn't live changes nothing. Never allocates.
    fn set_written(&mut self, id: Id)
        ensures { forest self.new ≡ mark_printed id (forest self.old) };
}
