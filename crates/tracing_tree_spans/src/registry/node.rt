//! A stored span, and a view of it.

ghost use Rattle.std.specs.Prelude.{◌≡◌, ◌<◌, ◌==◌, ◌&&◌, IfOk, OnOk, OnErr};
ghost use Rattle.tracing_tree_spans.specs.Registry.Spans.{shown_span, handle_more, handle_less, child_more, child_less, kept_printed, fields_more};

use super::path::SpanPath;
use std::alloc::AllocError;
use std::marker::Model;
use tracing_tree_base::Id;
use tracing_tree_base::field::Fields;
use tracing_tree_base::text::Text;

/// The data that the layer stores with a span.
#[derive(Debug, Drop)]
pub struct Data {
    /// When it was made, in nanoseconds on the monotonic clock.
    pub start: u64,

    /// Its fields: those that it was made with, followed by those of later records.
    pub fields: Fields,

    /// Whether a row of it was printed.
    pub written: bool,
}

// A stored span, with its path and the number of its live children. The fields that clones, records
// and closes touch come first, close together in memory.
#[derive(Drop)]
pub(crate) struct Node {
    pub(crate) id: Id,
    pub(crate) handles: u64,
    pub(crate) children: usize,
    pub(crate) parent: Option<Id>,
    pub(crate) path: SpanPath,
    pub(crate) kept: Data,
    pub(crate) name: Text,
    pub(crate) target: Text,
}

impl Model for Node {
    ghost use Rattle.tracing_tree_spans.specs.Registry.Spans.{KeptSpan};

    ghost Value = { KeptSpan };

    ghost view = { λ n. record {
      span = record {
        id = n.id;
        parent = n.parent;
        name = n.name;
        target = n.target;
        kept = n.kept;
        handles = n.handles;
      };
      path = n.path;
      children = n.children;
    } };
}

impl Node {
    pub(crate) fn id(&self) -> Id
        ensures { result ≡ self.now.span.id }
    {
        self.id
    }

    pub(crate) fn parent(&self) -> Option<Id>
        ensures { result ≡ self.now.span.parent }
    {
        self.parent
    }

    pub(crate) fn data(&self) -> &Data
        ensures { result.now ≡ self.now.span.kept }
    {
        &self.kept
    }

    pub(crate) fn handles(&self) -> u64
        ensures { result ≡ self.now.span.handles }
    {
        self.handles
    }

    // Returns whether one handle keeps the span live, and no child does.
    pub(crate) fn is_kept_by_a_handle(&self) -> bool
        ensures { result ≡ ((self.now.span.handles == 1) && (self.now.children == 0)) }
    {
        self.handles == 1 && self.children == 0
    }

    // Returns whether one child keeps the span live, and no handle does.
    pub(crate) fn is_kept_by_a_child(&self) -> bool
        ensures { result ≡ ((self.now.span.handles == 0) && (self.now.children == 1)) }
    {
        self.handles == 0 && self.children == 1
    }

    pub(crate) fn path(&self) -> &SpanPath
        ensures { result.now ≡ self.now.path }
    {
        &self.path
    }

    pub(crate) fn look(&self) -> SpanRef<'_>
        ensures { result ≡ shown_span self.now.span }
    {
        SpanRef {
            id: self.id,
            parent: self.parent,
            name: &self.name,
            target: &self.target,
            kept: &self.kept,
        }
    }

    pub(crate) fn add_handle(&mut self)
        requires { self.old.span.handles < u64.MAX }
        ensures { self.new ≡ handle_more self.old }
    {
        self.handles += 1;
    }

    pub(crate) fn take_handle(&mut self)
        requires { 0 < self.old.span.handles }
        ensures { self.new ≡ handle_less self.old }
    {
        self.handles -= 1;
    }

    pub(crate) fn add_child(&mut self)
        requires { self.old.children < usize.MAX }
        ensures { self.new ≡ child_more self.old }
    {
        self.children += 1;
    }

    pub(crate) fn count_down_children(&mut self)
        requires { 0 < self.old.children }
        ensures { self.new ≡ child_less self.old }
    {
        self.children -= 1;
    }

    pub(crate) fn set_written(&mut self)
        ensures { self.new ≡ kept_printed self.old }
    {
        self.kept.written = true;
    }

    pub(crate) fn record(&mut self, fields: Fields) -> Result<(), AllocError>
        ensures ok { OnOk result (self.new ≡ fields_more fields self.old) }
        ensures err { OnErr result (self.new ≡ self.old) }
    {
        self.kept.fields.append(fields)
    }
}

/// A view of a live span. (`SpanRef` of the Rust crate's registry.)
#[derive(Drop)]
pub struct SpanRef<'a> {
    id: Id,
    parent: Option<Id>,
    name: &'a Text,
    target: &'a Text,
    kept: &'a Data,
}

impl<'a> Model for SpanRef<'a> {
    ghost use Rattle.tracing_tree_spans.specs.Registry.Spans.{ShownSpan};

    ghost Value = { ShownSpan };

    ghost view = { λ s. record {
      id = s.id;
      parent = s.parent;
      name = s.name.now;
      target = s.target.now;
      kept = s.kept.now;
    } };
}

impl<'a> SpanRef<'a> {
    /// Returns a view of a span with these parts, for a custom registry.
    pub fn new(
        id: Id,
        parent: Option<Id>,
        name: &'a Text,
        target: &'a Text,
        kept: &'a Data,
    ) -> SpanRef<'a>
        ensures { result
            ≡ record {
              id = id;
              parent = parent;
              name = name.now;
              target = target.now;
              kept = kept.now;
            } }
    {
        SpanRef {
            id,
            parent,
            name,
            target,
            kept,
        }
    }

    /// Returns the span's id.
    pub fn id(&self) -> Id
        ensures { result ≡ self.now.id }
    {
        self.id
    }

    /// Returns the span's name.
    pub fn name(&self) -> &'a str
        ensures { result.now ≡ self.now.name }
    {
        let name = self.name;
        name.as_str()
    }

    /// Returns the span's target.
    pub fn target(&self) -> &'a str
        ensures { result.now ≡ self.now.target }
    {
        let target = self.target;
        target.as_str()
    }

    /// Returns the span's parent, or `None` for a root.
    pub fn parent(&self) -> Option<Id>
        ensures { result ≡ self.now.parent }
    {
        self.parent
    }

    /// Returns the data that is stored with the span.
    pub fn data(&self) -> &'a Data
        ensures { result.now ≡ self.now.kept }
    {
        self.kept
    }
}
