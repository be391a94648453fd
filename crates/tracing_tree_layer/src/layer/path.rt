//! Paths of spans, borrowed or walked.

ghost use Rattle.std.specs.Prelude.{◌≡◌, length};
ghost use Rattle.tracing_tree_layer.specs.Layer.Plan.{ids_of};

use tracing_tree_base::Id;

// The ids on a path, root first: as stored with the span, or found by walking up.
#[derive(Drop)]
pub(super) enum Path<'a> {
    Borrowed(&'a [Id]),
    Walked(Vec<Id>),
}

impl Path<'_> {
    pub(super) fn as_slice(&self) -> &[Id]
        ensures { result.now ≡ ids_of self.now }
    {
        match self {
            Path::Borrowed(ids) => ids,
            Path::Walked(ids) => ids.as_slice(),
        }
    }

    pub(super) fn len(&self) -> usize
        ensures { result ≡ length (ids_of self.now) }
    {
        self.as_slice().len()
    }
}
