//! Two iterators in parallel.

ghost use Rattle.std.specs.Prelude.{◌≡◌, MatchBool};
ghost use Rattle.std.specs.Iterator.{MakesProgress};
ghost use Rattle.tracing_tree_layer.specs.Difference.Steps.{difference_left, difference_right, difference_compare, CanCallDifference, difference_remaining, difference_steps, both_steps, IsFresh, Matches, Differs, DifferenceRuns, YieldsDiffering};

use std::iter::Fuse;

/// An iterator over two iterators in parallel, which returns the right items that differ.
/// (`DifferenceIter` of the Rust crate.)
///
/// A right item differs if the left iterator has no item at its position, or one with an unequal
/// `compare` key. Both iterators step together. A left iterator that has ended isn't called again.
#[derive(Drop)]
pub struct DifferenceIter<L, R, C> {
    left: Fuse<L>,
    right: R,
    compare: C,
}

impl<
    T: Drop,
    U: PartialEq + Drop,
    L: Iterator<Item = T>,
    R: Iterator<Item = T>,
    C: Fn(&T) -> U,
> DifferenceIter<L, R, C> {
    /// Compares the items of two iterators by the keys that `compare` returns.
    pub fn new(left: L, right: R, compare: C) -> Self
        ensures left { IsFresh (difference_left result) left }
        ensures right { difference_right result ≡ right }
        ensures compare { difference_compare result ≡ compare }

        // For any two iterators, it returns the right items that differ.
        ensures runs { DifferenceRuns L.next_gives R.next_gives C.Fn U.eq
            left right compare result }

        // If the lists of both sides are known, it returns those that differ.
        ensures yields { YieldsDiffering L.next_gives R.next_gives C.Fn U.eq
            left right compare result }
    {
        DifferenceIter {
            left: left.fuse(),
            right,
            compare,
        }
    }

    // Steps both sides: returns the left item, if there still is one, and the right item.
    fn both(&mut self) -> Option<(Option<T>, T)>
        requires { CanCallDifference L.can_next R.can_next R.remaining (C.IsAlwaysCallable)
            self.old }
        ensures steps { both_steps L.next_gives R.next_gives self.old result self.new }
        ensures goes { MakesProgress
            (CanCallDifference L.can_next R.can_next R.remaining (C.IsAlwaysCallable))
            (difference_remaining R.remaining) self.old result self.new }
    {
        let left = self.left.next();
        let right = self.right.next()?;
        Some((left, right))
    }

    // Returns whether the left item is missing, or unequal to the right one under `compare`.
    fn differs(&self, left: &Option<T>, right: &T) -> bool
        requires { C.IsAlwaysCallable (difference_compare self.now) }
        ensures { MatchBool result
            (Differs C.Fn U.eq (difference_compare self.now) left.now right.now)
            (Matches C.Fn U.eq (difference_compare self.now) left.now right.now) }
    {
        match left {
            Some(left) => (self.compare)(left) != (self.compare)(right),
            None => true,
        }
    }
}

impl<
    T: Drop,
    U: PartialEq + Drop,
    L: Iterator<Item = T>,
    R: Iterator<Item = T>,
    C: Fn(&T) -> U,
> Iterator for DifferenceIter<L, R, C> {
    type Item = T;

    ghost can_next = { CanCallDifference L.can_next R.can_next R.remaining (C.IsAlwaysCallable) };

    ghost next_gives = { difference_steps L.next_gives R.next_gives C.Fn U.eq };

    ghost remaining = { difference_remaining R.remaining };

    fn next(&mut self) -> Option<T> {
        while let Some((left, right)) = self.both() {
            if self.differs(&left, &right) {
                return Some(right);
            }
        }
        None
    }
}
