//! The path of a span, as stored with the span.

ghost use Rattle.std.specs.Prelude.{◌≡◌, ◌++◌, ◌∷◌, [], IfSome};
ghost use Rattle.tracing_tree_spans.specs.declared.registry.path.SpanPath.TheVariants.{Short};

use std::marker::Model;
use tracing_tree_base::Id;

// Paths of at most five spans are stored inline in the span's record. Few spans are nested deeper.
const SHORT: usize = 5;

// A path, root first. A long one is a prefix of a branch.
#[derive(Drop)]
pub(crate) enum SpanPath {
    Short(ShortPath),
    Long(Place),
}

// The first `length` ids of a branch.
#[derive(Clone, Copy)]
pub(crate) struct Place {
    pub(crate) branch: usize,
    pub(crate) length: usize,
}

impl SpanPath {
    // Returns the path of a root.
    pub(crate) fn root(id: Id) -> SpanPath
        ensures { result ≡ Short (id ∷ []) }
    {
        SpanPath::Short(ShortPath {
            ids: [id; SHORT],
            length: 1,
        })
    }
}

// A path of few spans.
#[derive(Drop)]
pub(crate) struct ShortPath {
    ids: [Id; SHORT],
    length: usize,
}

impl Model for ShortPath {
    ghost use Rattle.std.specs.Prelude.{◌≤◌, List, take};
    ghost use Rattle.tracing_tree_base.specs.declared.context.Id.{Id};

    ghost Value = { List Id };

    ghost view = { λ p. take p.length p.ids };

    ghost invariant = { λ p. p.length ≤ 5 };
}

impl ShortPath {
    // Returns the path of a child of the last of these, if it is short enough.
    pub(crate) fn below(parent: &[Id], id: Id) -> Option<ShortPath>
        ensures { IfSome result (λ path. path ≡ parent.now ++ id ∷ []) }
    {
        if parent.len() >= SHORT {
            return None;
        }
        let mut ids = [id; SHORT];
        ids[..parent.len()].copy_from_slice(parent);
        Some(ShortPath {
            ids,
            length: parent.len() + 1,
        })
    }

    pub(crate) fn as_slice(&self) -> &[Id]
        ensures { result.now ≡ self.now }
    {
        &self.ids[..self.length]
    }
}
