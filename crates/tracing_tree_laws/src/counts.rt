//! Counts of a unit, as timestamps of higher precision show them.

ghost use Rattle.std.specs.Prelude.{ℕ, ◌≡◌, ◌<◌};
ghost use Rattle.tracing_tree_time.specs.Clock.{nearest_count};
ghost use Rattle.tracing_tree_laws.specs.Counts.{IsNearest};

/// `nearest_count` of a number is the nearest whole number of units. A tie is the even number. No
/// other count is nearest.
pub fn counts_are_nearest()
    ensures nearest { (unit n : ℕ) → 0 < unit → IsNearest unit n (nearest_count unit n) }
    ensures only { (unit n count : ℕ) → 0 < unit → IsNearest unit n count
        → count ≡ nearest_count unit n }
{}
