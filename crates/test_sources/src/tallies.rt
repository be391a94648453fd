//! Which tests a source counts, and whether it says that they failed, after a run to the input's
//! end.

use super::seen::{START, interpreted};
use std::alloc::{AllocError, Global};
use std::test::*;
use tracing_tree::style::Level;
use ttree_go_test::{Failed, GoTest};
use ttree_source::AtLeast;

// Lines, how many tests passed, failed, were skipped and didn't finish, how many packages there
// were and how many of them failed, and whether something failed.
const ROWS: [(&str, [u64; 6], bool); 9] = [
    ("", [0, 0, 0, 0, 0, 0], false),
    (
        "{\"Action\":\"pass\",\"Package\":\"p\",\"Test\":\"A\"}\n",
        [1, 0, 0, 0, 0, 0],
        false,
    ),
    (
        "{\"Action\":\"fail\",\"Package\":\"p\",\"Test\":\"A\"}\n",
        [0, 1, 0, 0, 0, 0],
        true,
    ),
    (
        "{\"Action\":\"skip\",\"Package\":\"p\",\"Test\":\"A\"}\n",
        [0, 0, 1, 0, 0, 0],
        false,
    ),
    // The package still runs.
    (
        "{\"Action\":\"run\",\"Package\":\"p\",\"Test\":\"A\"}\n",
        [0, 0, 0, 1, 1, 1],
        true,
    ),
    // The failure of a build is reported at the package's end, which is missing here.
    (
        "{\"Action\":\"build-fail\",\"ImportPath\":\"p\"}\n",
        [0, 0, 0, 0, 0, 0],
        false,
    ),
    ("FAIL\tp [build failed]\n", [0, 0, 0, 0, 1, 1], true),
    // A benchmark without an end passes with its package.
    (
        "{\"Action\":\"run\",\"Package\":\"p\",\"Test\":\"BenchmarkA\"}\n{\"Action\":\"pass\",\"Package\":\"p\"}\n",
        [1, 0, 0, 0, 1, 0],
        false,
    ),
    // Nothing is known of this line.
    ("{\"Action\":\"fail\"}\n", [0, 0, 0, 0, 0, 0], false),
];

#[test]
fn tests_are_counted_by_how_they_ended(rt: HostRuntime) -> Result<(), Fail> {
    for (input, counts, has_failed) in ROWS {
        let source = ran(rt.alloc(), input)?;
        assert_eq!(rt; counts_of(&source), counts);
        assert_eq!(rt; source.has_failed(), has_failed);
    }
    Ok(())
}

// What is left out of the drawing fails as well.
#[test]
fn tests_fail_under_level_and_failed_as_without(rt: HostRuntime) -> Result<(), Fail> {
    for (input, _counts, has_failed) in ROWS {
        assert_eq!(rt; fail_above_all(rt.alloc(), input)?, has_failed);
        assert_eq!(rt; fail_of_failed(rt.alloc(), input)?, has_failed);
    }
    Ok(())
}

fn ran(alloc: Global, input: &str) -> Result<Box<GoTest>, AllocError> {
    let mut source = Box::new(alloc, GoTest::new(alloc, 1, START)?)?;
    let _run = interpreted(alloc, &mut *source, input.as_bytes())?;
    Ok(source)
}

fn counts_of(source: &GoTest) -> [u64; 6] {
    let tally = source.tally();
    [
        tally.passed,
        tally.failed,
        tally.skipped,
        tally.unfinished,
        tally.packages,
        tally.packages_failed,
    ]
}

fn fail_above_all(alloc: Global, input: &str) -> Result<bool, AllocError> {
    let mut source = AtLeast::new(GoTest::new(alloc, 1, START)?, Level::Error);
    let _run = interpreted(alloc, &mut source, input.as_bytes())?;
    Ok(source.into_source().has_failed())
}

fn fail_of_failed(alloc: Global, input: &str) -> Result<bool, AllocError> {
    let mut source = Failed::new(alloc, 1, START)?;
    let _run = interpreted(alloc, &mut source, input.as_bytes())?;
    Ok(source.has_failed())
}
