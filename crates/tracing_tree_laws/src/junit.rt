//! What the counts of JUnit XML count, and when a report has failed.

ghost use Rattle.std.specs.Prelude.{◌≡◌, ◌==◌, ℕ, List, IfOk, not};
ghost use Rattle.tracing_tree_base.specs.declared.context.Moment.{Moment};
ghost use Rattle.ttree_junit.specs.Document.{document_state};
ghost use Rattle.ttree_junit.specs.Outcomes.{counted_all, outcomes_of, some_failed};
ghost use Rattle.ttree_junit.specs.declared.reading.Selection.{Selection};

use std::alloc::{AllocError, Global};
use tracing_tree_time::Moment;
use ttree_junit::{Selection, junit_calls};

/// Over any document, the counts are those of the cases that ended and of the failures of suites:
/// each is counted once, in their order.
pub fn each_case_counts_once()
    ensures { (selection : Selection) (next : ℕ) (moment : Moment) (text : List ℕ) →
        (document_state selection next moment text).tally
        ≡ counted_all (outcomes_of selection next moment text)
        (record { passed = 0; failed = 0; skipped = 0 }) }
{}

/// Over any document, a report has failed exactly if a case that ended or a suite of it has.
pub fn reports_fail_by_a_case_or_a_suite()
    ensures { (selection : Selection) (next : ℕ) (moment : Moment) (text : List ℕ) →
        not ((document_state selection next moment text).tally.failed == 0)
        ≡ some_failed (outcomes_of selection next moment text) }
{}

/// Reads a report. Returns whether a case that ended or a suite of it has failed.
///
/// # Errors
///
/// `AllocError` if an allocation fails.
#[tactic(auto, using(ttree_junit::proofs::Failing::failed_by_an_outcome))]
pub fn has_report_failed(
    alloc: Global,
    selection: Selection,
    next: u64,
    moment: Moment,
    text: &str,
) -> Result<bool, AllocError>
    ensures { IfOk result (λ failed. failed
        ≡ some_failed (outcomes_of selection next moment text.now)) }
{
    let junit = junit_calls(alloc, selection, next, moment, text)?;
    Ok(junit.has_failed())
}
