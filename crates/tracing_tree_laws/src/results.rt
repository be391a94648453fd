//! Each result of TAP is shown once, and counted once.

ghost use Rattle.std.specs.Prelude.{◌≡◌, ◌||◌, ℕ, Bool, List, IfSome, false};
ghost use Rattle.tracing_tree_base.specs.declared.context.Moment.{Moment};
ghost use Rattle.tracing_tree_lines.specs.Lines.Spelled.{input_lines};
ghost use Rattle.tracing_tree_laws.specs.Results.{EachResultIsShownOnce};
ghost use Rattle.ttree_tap.specs.Failures.{after_all, calls_before_counts};
ghost use Rattle.ttree_tap.specs.Said.{counted, has_braces, no_outcomes, outcomes_in, results_of, some_failed};
ghost use Rattle.ttree_tap.specs.Tally.{tally_has_failure};
ghost use Rattle.ttree_tap.specs.Tap.{nothing_run};

use std::alloc::Global;
use tracing_tree_layer::layered::Layered;
use tracing_tree_lines::lines::LineInput;
use tracing_tree_output::Output;
use tracing_tree_time::{FormatTime, Moment};
use ttree_source::{Notes, draw_source};
use ttree_tap::{Tally, Tap};

/// Over any lines of TAP, each result is exactly one event, in order, with its outcome and its
/// description. This also holds for comments, lines of blocks, printed lines and what prove says
/// of files. Each other event is an error, and doesn't look like a result. No result may end with
/// ` {`, which opens a subtest in TAP of Perl.
pub fn each_result_of_tap_is_shown_once()
    ensures { (next : ℕ) (moment : Moment) (lines : List (List ℕ)) → has_braces lines ≡ false →
        EachResultIsShownOnce next lines
        (calls_before_counts (nothing_run false next moment) lines) }
{}

/// After any such lines, the counts are those of the results, by outcome. So they are if only what
/// failed is shown.
pub fn the_counts_of_tap_are_those_of_its_results()
    ensures { (is_failed_only : Bool) (next : ℕ) (moment : Moment) (lines : List (List ℕ)) →
        has_braces lines ≡ false →
        outcomes_in (after_all (nothing_run is_failed_only next moment) lines).tally
        ≡ counted (results_of lines) no_outcomes }
{}

/// After any such lines, the tests have failed exactly if a result is `not ok` and isn't skipped or
/// TODO, or if something else failed: a plan, a missing number, a subtest without a result,
/// `Bail out!`, or a verdict of prove.
pub fn tap_fails_by_a_result()
    ensures { (is_failed_only : Bool) (next : ℕ) (moment : Moment) (lines : List (List ℕ)) →
        has_braces lines ≡ false →
        let tally = (after_all (nothing_run is_failed_only next moment) lines).tally in
        tally_has_failure tally ≡ (tally.is_broken || some_failed (results_of lines)) }
{}

/// Draws lines of TAP. Returns how many results came to which end. Returns `None` if the run ended
/// early.
pub fn count_results<L: LineInput, W: Output, FT: FormatTime, N: Notes>(
    alloc: Global,
    next: u64,
    moment: Moment,
    lines: &mut L,
    layered: &mut Layered<W, FT>,
    notes: &mut N,
) -> Option<Tally>
    ensures { IfSome (L.remaining lines.old) (λ input. IfSome result (λ tally.
        has_braces (input_lines input) ≡ false →
        outcomes_in tally ≡ counted (results_of (input_lines input)) no_outcomes)) }
{
    let Ok(mut source) = Tap::new(alloc, next, moment) else {
        return None;
    };
    let run = draw_source(alloc, &mut source, lines, layered, notes);
    match run.fault {
        None => Some(source.tally()),
        Some(_) => None,
    }
}
