//! The common prefix of two paths.

ghost use Rattle.std.specs.Prelude.{◌≡◌};
ghost use Rattle.std.specs.List.{common_prefix_len};
ghost use Rattle.tracing_tree_spans.specs.Registry.Ids.{same_id};
ghost use Rattle.tracing_tree_spans.specs.Registry.Paths.{PartOnce, looks_back};

use super::prefix::Common;
use tracing_tree_base::Id;

/// Returns the length of the common prefix of two paths of one forest, and how many places were
/// compared. Never allocates.
///
/// It starts at the last place that both have, and steps back until they agree. So it compares as
/// many places as the shorter path has after the common prefix, and one more unless that prefix is
/// empty.
///
/// The caller must ensure that the paths part once: if two places agree, all places before them
/// agree. Paths of one forest do.
pub fn common(old: &[Id], new: &[Id]) -> Common
    requires { PartOnce old.now new.now }
    ensures length { result.length ≡ common_prefix_len same_id old.now new.now }
    ensures compared { result.compared ≡ looks_back old.now new.now result.length }
{
    let mut length = old.len().min(new.len());
    let mut compared = 0;
    while length > 0 {
        compared += 1;
        if old[length - 1] == new[length - 1] {
            break;
        }
        length -= 1;
    }
    Common { length, compared }
}
