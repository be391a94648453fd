//! What paths share.

use std::alloc::{AllocError, Global};
use std::test::*;
use test_support::{at, attributes};
use tracing_tree::format::Id;
use tracing_tree::registry::{Common, LookupSpan, Parent, Registry, common};

// Makes a span below this one, or a root.
fn make(alloc: Global, spans: &mut Registry, parent: Option<u64>) -> Result<(), Fail> {
    let attributes = attributes(alloc, "a", Parent::Current)?;
    match spans.new_span(attributes, &at(parent)) {
        Ok(_) => Ok(()),
        Err(_) => Err(Fail::from("refused")),
    }
}

// Spans with these parents.
fn spans(alloc: Global, parents: &[Option<u64>]) -> Result<Registry, Fail> {
    let mut spans = Registry::new(alloc);
    for parent in parents {
        make(alloc, &mut spans, *parent)?;
    }
    Ok(spans)
}

// Returns what the paths of two spans share.
fn shared(alloc: Global, spans: &Registry, old: u64, new: u64) -> Result<Common, AllocError> {
    let old = spans.path(alloc, Id(old))?;
    let new = spans.path(alloc, Id(new))?;
    Ok(common(old.as_slice(), new.as_slice()))
}

#[test]
fn finds_what_paths_share(rt: HostRuntime) -> Result<(), Fail> {
    let alloc = rt.alloc();
    // The paths 1, 2, 3 and 1, 2, 4, 5, and of another tree 6, 7.
    let spans = spans(
        alloc,
        [None, Some(1), Some(2), Some(2), Some(4), None, Some(6)].as_slice(),
    )?;
    for (old, new, length, compared) in [
        (3, 5, 2, 2),
        (3, 1, 1, 1),
        (2, 7, 0, 2),
        (8, 1, 0, 0),
        (5, 5, 4, 1),
        (1, 3, 1, 1),
    ] {
        let wanted = Common { length, compared };
        assert_eq!(rt; shared(alloc, &spans, old, new)?, wanted, "{old} and {new}");
    }
    Ok(())
}

// Returns a chain of `count` spans, each with another child in addition to the next, and a root.
fn comb(alloc: Global, count: u64) -> Result<Registry, Fail> {
    let mut spans = Registry::new(alloc);
    let mut parent = None;
    for number in 0..count {
        make(alloc, &mut spans, parent)?;
        parent = Some(number.wrapping_mul(2).wrapping_add(1));
        make(alloc, &mut spans, parent)?;
    }
    make(alloc, &mut spans, None)?;
    Ok(spans)
}

// Returns the length of the common prefix of two lists.
fn front(old: &[Id], new: &[Id]) -> usize {
    let mut length = 0usize;
    for (id, other) in old.iter().zip(new) {
        if id != other {
            return length;
        }
        length = length.wrapping_add(1);
    }
    length
}

// Returns whether what two paths share is what their fronts share, found in at most one look more
// than the new path has past it.
fn is_found_soon(alloc: Global, spans: &Registry, old: u64, new: u64) -> Result<bool, AllocError> {
    let Common { length, compared } = shared(alloc, spans, old, new)?;
    let old = spans.path(alloc, Id(old))?;
    let new = spans.path(alloc, Id(new))?;
    let past = old.len().min(new.len()).wrapping_sub(length);
    let most = new.len().wrapping_sub(length).wrapping_add(1);
    let looks = if length == 0 {
        past
    } else {
        past.wrapping_add(1)
    };
    Ok(length == front(old.as_slice(), new.as_slice()) && compared == looks && compared <= most)
}

#[test]
fn finds_it_from_the_end(rt: HostRuntime) -> Result<(), Fail> {
    let alloc = rt.alloc();
    let spans = comb(alloc, 20)?;
    for pair in 0..43 * 43 {
        assert!(rt;
            is_found_soon(alloc, &spans, pair / 43, pair % 43)?,
            "{pair}"
        );
    }
    Ok(())
}

// Returns a chain of this many spans.
fn chain(alloc: Global, count: u64) -> Result<Registry, Fail> {
    let mut spans = Registry::new(alloc);
    let mut parent = None;
    for id in 0..count {
        make(alloc, &mut spans, parent)?;
        parent = Some(id.wrapping_add(1));
    }
    Ok(spans)
}

#[test]
fn copies_a_long_path(rt: HostRuntime) -> Result<(), Fail> {
    let alloc = rt.alloc();
    let spans = chain(alloc, 5_000)?;
    assert_eq!(rt; spans.path(alloc, Id(5_000))?.len(), 5_000);
    Ok(())
}
