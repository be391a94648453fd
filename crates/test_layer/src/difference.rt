//! Differences of two iterators.

ghost use Rattle.std.specs.Prelude.{◌≡◌, nat_eq, IfOk};
ghost use Rattle.tracing_tree_layer.specs.Difference.Items.{differing};

use std::alloc::{AllocError, Global};
use std::test::*;
use tracing_tree::DifferenceIter;

// Returns the items of `right` that differ from those of `left`, by their values.
fn differences<L: Iterator<Item = u32>>(
    alloc: Global,
    left: L,
    right: &[u32],
) -> Result<Vec<u32>, AllocError>
where
    requires { L.can_next left }
{
    DifferenceIter::new(left, right.iter().copied(), |x: &u32| *x).collect(alloc)
}

// Like `differences`, for two slices, whose items are then known.
fn differences_of_slices(alloc: Global, left: &[u32], right: &[u32]) -> Result<Vec<u32>, AllocError>
    ensures { IfOk result (λ found. found.items ≡ differing nat_eq left.now right.now) }
{
    let left = left.iter().copied();
    DifferenceIter::new(left, right.iter().copied(), |x: &u32| *x).collect(alloc)
}

// Like `differences_of_slices`, for references to the items.
fn differences_of_references(
    alloc: Global,
    left: &[u32],
    right: &[u32],
) -> Result<Vec<u32>, AllocError>
    ensures { IfOk result (λ found. found.items ≡ differing nat_eq left.now right.now) }
{
    DifferenceIter::new(left.iter(), right.iter(), |x: &&u32| **x)
        .copied()
        .collect(alloc)
}

#[test]
fn gives_unequal_and_missing_items(rt: HostRuntime) -> Result<(), Fail> {
    let alloc = rt.alloc();
    let left = vec![in alloc; 1, 2, 3]?;
    let found = differences(alloc, left.into_iter(), &[1, 5, 3, 4])?;
    assert!(rt;
        found.as_slice() == [5, 4].as_slice(),
        "unequal and missing items"
    );
    let found = differences_of_slices(alloc, &[1, 2, 3], &[1, 5, 3, 4])?;
    assert!(rt; found.as_slice() == [5, 4].as_slice(), "of two slices");
    let found = differences_of_references(alloc, &[1, 2, 3], &[1, 5, 3, 4])?;
    assert!(rt; found.as_slice() == [5, 4].as_slice(), "of references");
    Ok(())
}

#[test]
fn gives_all_where_the_left_is_empty(rt: HostRuntime) -> Result<(), Fail> {
    let alloc = rt.alloc();
    let found = differences(alloc, Vec::new(alloc).into_iter(), &[1, 2])?;
    assert!(rt; found.as_slice() == [1, 2].as_slice(), "no left items");
    Ok(())
}

#[test]
fn ends_with_the_right(rt: HostRuntime) -> Result<(), Fail> {
    let alloc = rt.alloc();
    let left = vec![in alloc; 1, 2, 3, 4]?;
    let found = differences(alloc, left.into_iter(), &[1, 9])?;
    assert!(rt; found.as_slice() == [9].as_slice(), "a longer left side");
    Ok(())
}

#[test]
fn compares_keys(rt: HostRuntime) -> Result<(), Fail> {
    let alloc = rt.alloc();
    let left = vec![in alloc; (1, 'a'), (2, 'b')]?;
    let right = vec![in alloc; (1, 'x'), (3, 'b'), (4, 'c')]?;
    let found: Vec<(u32, char)> = DifferenceIter::new(
        left.into_iter(),
        right.into_iter(),
        |pair: &(u32, char)| pair.0,
    )
    .collect(alloc)?;
    assert!(rt;
        found.as_slice() == [(3, 'b'), (4, 'c')].as_slice(),
        "items with a key"
    );
    Ok(())
}

// Gives a 1, ends at the second call, and would give a 1 at each later one.
#[derive(Drop)]
struct Resumes {
    asked: u32,
}

impl Iterator for Resumes {
    type Item = u32;

    fn next(&mut self) -> Option<u32> {
        self.asked = self.asked.saturating_add(1);
        if self.asked == 2 { None } else { Some(1) }
    }
}

#[test]
fn asks_no_left_again_that_has_ended(rt: HostRuntime) -> Result<(), Fail> {
    let alloc = rt.alloc();
    let found = differences(alloc, Resumes { asked: 0 }, &[1, 1, 1])?;
    assert!(rt;
        found.as_slice() == [1, 1].as_slice(),
        "a left side that would go on"
    );
    Ok(())
}
