//! A document of JUnit XML shown.

use crate::document::{DocumentRead, Whole, make_document};
use crate::input::Head;
use crate::options::Options;
use crate::output::output;
use crate::page::write_read;
use crate::report::{Origin, Reporter, Status, Unit, report_run};
use crate::shown::{Subject, shape, summary_of};
use crate::summary::print_summary;
use crate::tree::{fault_of_document, layered, some_moment};
use std::alloc::{AllocError, Global};
use std::io;
use tracing_tree::call::Call;
use ttree_adapters::{FailureLines, Mapping};
use ttree_junit::{JunitCalls, Selection, junit_calls};
use ttree_source::SourceRun;
use ttree_source::level::is_shown;

// Shows a document of JUnit XML. The status is 1 also if a case failed, if the document ends early,
// or if there is no report.
pub fn draw_junit<R: AllocGlobal + Eprint + Print>(
    rt: &R,
    origin: Origin<'_>,
    head: &Head,
    text: &str,
    options: &Options<'_>,
) -> Result<Status, AllocError> {
    let junit = junit_calls(rt.alloc(), selection(options), 1, some_moment(), text)?;
    let mut status = if junit.has_failed() {
        Status::Failure
    } else {
        Status::Success
    };
    if let Some(fault) = fault_of(&junit) {
        let _ = eprintln!(rt; "{origin}{fault}");
        status = Status::Failure;
        if options.is_strict {
            return Ok(status);
        }
    }
    Ok(status.worse(show(rt, origin, head, junit, options)?))
}

// Returns which cases and suites are shown.
fn selection(options: &Options<'_>) -> Selection {
    if options.is_only_failed() {
        Selection::Failures
    } else {
        Selection::All
    }
}

// Returns what is wrong with a document.
fn fault_of(junit: &JunitCalls) -> Option<&'static str> {
    if junit.is_cut {
        Some("the document ends early")
    } else if !junit.is_report {
        Some("expected an element testsuites, testsuite or testcase")
    } else {
        None
    }
}

// Returns the calls that --level shows. Those of failures are shown with the lines that say why.
fn calls_shown(
    alloc: Global,
    junit: JunitCalls,
    options: &Options<'_>,
) -> Result<Vec<Call>, AllocError> {
    let JunitCalls {
        mut calls,
        tally: _,
        is_cut: _,
        is_report: _,
    } = junit;
    if options.is_only_failed() {
        let mut lines = FailureLines::new(alloc, options.min_level());
        return lines.map(alloc, None, calls);
    }
    calls.retain(|call| is_shown(options.min_level(), call));
    Ok(calls)
}

fn show<R: AllocGlobal + Eprint + Print>(
    rt: &R,
    origin: Origin<'_>,
    head: &Head,
    junit: JunitCalls,
    options: &Options<'_>,
) -> Result<Status, AllocError> {
    let calls = calls_shown(rt.alloc(), junit, options)?;
    let reporter = Reporter::new(rt, origin, Unit::Element, options.is_strict);
    if let Some(form) = options.form {
        let read = DocumentRead {
            document: Ok(Whole::from(calls)),
            unknown: 0,
        };
        return write_read(rt, origin, head, read, form, &reporter, options);
    }
    let alloc = rt.alloc();
    let mut shape = shape(alloc, Subject::Report, options);
    let writer = output(alloc, io::writer(rt), options.shaping())?;
    let config = options.config().with_deferred_spans(true);
    let mut layered = layered(alloc, config, writer);
    let fault = match make_document(alloc, Whole::from(calls), &mut shape, &mut layered) {
        Ok(()) => None,
        Err(cause) => Some(fault_of_document(cause)),
    };
    let run = SourceRun { unknown: 0, fault };
    let status = report_run(&run, layered, &reporter);
    Ok(status.worse(print_summary(rt, origin, status, summary_of(shape))?))
}
