//! What a test asserts of a tree, in functions that promise nothing: a test that is one call of
//! them is soon proved.

use std::alloc::Global;
use std::process::Abort;
use std::test::*;
use test_support::tree::{Settings, Tree, drawn};
use test_support::{Answer, Step};

/// These steps are accepted, and draw this.
pub fn draws(
    rt: &impl Abort,
    alloc: Global,
    settings: Settings,
    steps: &[Step<'_>],
    text: &str,
) -> Result<(), Fail> {
    assert_eq!(rt; drawn(alloc, settings, steps)?.as_str(), text);
    Ok(())
}

/// Checks the answer to each of these steps, and what has been drawn after them.
pub fn answers(
    rt: &impl Abort,
    alloc: Global,
    tree: &mut Tree,
    steps: &[(Step<'_>, Answer)],
    text: &str,
) -> Result<(), Fail> {
    assert_eq!(rt; tree.first_unlike(alloc, steps)?, None);
    assert_eq!(rt; tree.text(), text.as_bytes());
    Ok(())
}
