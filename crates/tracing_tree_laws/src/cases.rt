//! Each case of JUnit XML is shown once, and counted once.

ghost use Rattle.std.specs.Prelude.{◌≡◌, ◌==◌, ℕ, List, IfOk, not};
ghost use Rattle.tracing_tree_base.specs.declared.context.Moment.{Moment};
ghost use Rattle.tracing_tree_laws.specs.Results.{EachCaseIsShownOnce};
ghost use Rattle.ttree_junit.specs.Document.{document_calls, document_state};
ghost use Rattle.ttree_junit.specs.Outcomes.{counted_all, some_failed};
ghost use Rattle.ttree_junit.specs.Said.{outcomes_said};
ghost use Rattle.ttree_junit.specs.declared.reading.Selection.{Selection};
ghost use Rattle.ttree_junit.specs.declared.reading.Selection.TheVariants.{All};

use std::alloc::{AllocError, Global};
use tracing_tree_time::Moment;
use ttree_junit::{Selection, Tally, junit_calls};

/// Over any document, each `testcase` is shown once, in the order of their ends: as one event
/// with its outcome and its name, or as one span of its name, with the events of its parts and its
/// outcome last. This also holds for failures and output outside of cases, and for characters
/// around the document.
pub fn each_case_of_junit_is_shown_once()
    ensures { (next : ℕ) (moment : Moment) (text : List ℕ) →
        EachCaseIsShownOnce moment text (document_calls All next moment text) }
{}

/// Over any document, the counts are those of its cases, by outcome, and of its failures outside of
/// cases. They are the same if only failures are shown. A case that the document ends in isn't
/// counted.
pub fn the_counts_of_junit_are_those_of_its_cases()
    ensures { (selection : Selection) (next : ℕ) (moment : Moment) (text : List ℕ) →
        (document_state selection next moment text).tally
        ≡ counted_all (outcomes_said text) (record { passed = 0; failed = 0; skipped = 0 }) }
{}

/// Over any document, a report has failed exactly if a case of it has, or something outside of its
/// cases has.
pub fn reports_fail_by_what_they_say()
    ensures { (selection : Selection) (next : ℕ) (moment : Moment) (text : List ℕ) →
        not ((document_state selection next moment text).tally.failed == 0)
        ≡ some_failed (outcomes_said text) }
{}

/// Reads a report. Returns how many cases ended how.
///
/// # Errors
///
/// `AllocError` if an allocation fails.
#[tactic(auto, using(ttree_junit::proofs::ShownCounts::counts_of_cases))]
pub fn count_cases(
    alloc: Global,
    selection: Selection,
    next: u64,
    moment: Moment,
    text: &str,
) -> Result<Tally, AllocError>
    ensures { IfOk result (λ tally. tally
        ≡ counted_all (outcomes_said text.now) (record { passed = 0; failed = 0; skipped = 0 })) }
{
    let junit = junit_calls(alloc, selection, next, moment, text)?;
    Ok(junit.tally)
}
