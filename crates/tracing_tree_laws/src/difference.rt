//! The difference of two paths.

ghost use Rattle.std.specs.Prelude.{◌≡◌, IfOk, Option};
ghost use Rattle.tracing_tree_spans.specs.Registry.Ids.{same_id};
ghost use Rattle.tracing_tree_spans.specs.Registry.Forest.{Forest, IsForest, path_of, path_of_any, fresh_ids};
ghost use Rattle.tracing_tree_layer.specs.Difference.Items.{differing};

use std::alloc::{AllocError, Global};
use tracing_tree::DifferenceIter;
use tracing_tree::format::Id;

/// Returns the ids of a path that differ from those of an older one, by a `DifferenceIter`. For two
/// paths of one forest these are the spans that a retrace shows.
///
/// # Errors
///
/// `AllocError` if an allocation fails.
pub fn fresh_spans(alloc: Global, old: &[Id], new: &[Id]) -> Result<Vec<Id>, AllocError>
    ensures differ { IfOk result (λ found. found.items ≡ differing same_id old.now new.now) }
    ensures fresh { (forest : Forest) (last : Option Id) (i : Id) → IsForest forest
        → old.now ≡ path_of_any forest last → new.now ≡ path_of forest i
        → IfOk result (λ found. found.items ≡ fresh_ids forest last i) }
{
    let old = old.iter().copied();
    DifferenceIter::new(old, new.iter().copied(), |id: &Id| *id).collect(alloc)
}
