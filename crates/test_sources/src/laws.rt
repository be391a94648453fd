//! Calls of the laws that run something: the fresh spans of a path, the events that are read back
//! of a run, whether Go's tests have failed, and how many results of TAP and cases of JUnit
//! XML have.

use super::seen::{START, Skipped, drawn};
use std::alloc::{AllocError, Global};
use std::io::BufReader;
use std::test::*;
use test_support::{Step, calls, lined};
use tracing_tree::format::Id;
use tracing_tree::style::Level;
use tracing_tree_laws::cases::count_cases;
use tracing_tree_laws::difference::fresh_spans;
use tracing_tree_laws::failures::have_tests_failed;
use tracing_tree_laws::reading_back::{EventsRead, read_events};
use tracing_tree_laws::results::count_results;
use ttree_junit::Selection;

#[test]
fn gives_the_fresh_spans_of_a_path(rt: HostRuntime) -> Result<(), Fail> {
    let found = fresh_spans(rt.alloc(), &[Id(1), Id(2), Id(3)], &[Id(1), Id(4), Id(5)])?;
    assert_eq!(rt; found.as_slice(), [Id(4), Id(5)].as_slice());
    Ok(())
}

// Two spans. The inner one has an event and closes. One close is refused.
const STEPS: [Step<'static>; 5] = [
    Step::New("a", None),
    Step::Close(7),
    Step::New("b", Some(1)),
    Step::Event(Level::Warn, "x", Some(2)),
    Step::Close(2),
];

// Returns the events that are read back of them. It promises nothing, so that the test is soon
// proved.
fn events_read(alloc: Global) -> Result<Option<EventsRead>, AllocError> {
    let calls = calls(alloc, STEPS.as_slice())?;
    let mut layered = lined(alloc)?;
    Ok(read_events(alloc, &mut layered, calls))
}

#[test]
fn finds_the_spans_of_an_event(rt: HostRuntime) -> Result<(), Fail> {
    let Some(read) = events_read(rt.alloc())? else {
        return Err(Fail::from("the drawing isn't read"));
    };
    assert_eq!(rt; read.answers.len(), 5);
    assert_eq!(rt; read.paths.len(), 1);
    for path in read.paths.iter() {
        assert_eq!(rt; path.event, 2);
        assert_eq!(rt; path.ancestors.as_slice(), [Some(0), Some(1)].as_slice());
    }
    Ok(())
}

fn failed(alloc: Global, input: &str) -> Result<Option<bool>, AllocError> {
    let mut notes = Skipped::new(alloc);
    let mut layered = drawn(alloc)?;
    let Ok(mut lines) = BufReader::with_capacity(alloc, 64 * 1024, input.as_bytes()) else {
        return Err(AllocError);
    };
    Ok(have_tests_failed(alloc, 1, START, &mut lines, &mut *layered, &mut notes))
}

#[test]
fn tests_fail_by_a_line_or_a_package_that_runs(rt: HostRuntime) -> Result<(), Fail> {
    for (input, wanted) in [
        ("", false),
        (
            "{\"Action\":\"pass\",\"Package\":\"p\",\"Test\":\"A\"}\n",
            false,
        ),
        (
            "{\"Action\":\"fail\",\"Package\":\"p\",\"Test\":\"A\"}\n",
            true,
        ),
        (
            "{\"Action\":\"run\",\"Package\":\"p\",\"Test\":\"A\"}\n",
            true,
        ),
    ] {
        assert_eq!(rt; failed(rt.alloc(), input)?, Some(wanted));
    }
    Ok(())
}

// Returns how many results of TAP failed.
fn failed_results(alloc: Global, input: &str) -> Result<Option<u64>, AllocError> {
    let mut notes = Skipped::new(alloc);
    let mut layered = drawn(alloc)?;
    let Ok(mut lines) = BufReader::with_capacity(alloc, 64 * 1024, input.as_bytes()) else {
        return Err(AllocError);
    };
    match count_results(alloc, 1, START, &mut lines, &mut *layered, &mut notes) {
        Some(tally) => Ok(Some(tally.failed)),
        None => Ok(None),
    }
}

#[test]
fn results_fail_unless_skipped_or_todo(rt: HostRuntime) -> Result<(), Fail> {
    for (input, wanted) in [
        ("ok 1\n1..1\n", 0),
        ("not ok 1 - a\nnot ok 2 - b # TODO\n1..2\n", 1),
        ("    not ok 1 - a\nnot ok 1 - b\n1..1\n", 2),
        ("not ok 1 # SKIP\n  ---\n  not ok 2\n  ...\n", 0),
    ] {
        assert_eq!(rt; failed_results(rt.alloc(), input)?, Some(wanted));
    }
    Ok(())
}

#[test]
fn counts_the_cases_of_a_report(rt: HostRuntime) -> Result<(), Fail> {
    let report = concat!(
        "<testsuite><testcase name='a'/>",
        "<testcase name='b'><failure/></testcase>",
        "<testcase name='c'><skipped/></testcase></testsuite>",
    );
    let tally = count_cases(rt.alloc(), Selection::All, 1, START, report)?;
    assert_eq!(rt; [tally.passed, tally.failed, tally.skipped], [1, 1, 1]);
    Ok(())
}
