//! When lines of TAP have failed.

ghost use Rattle.std.specs.Prelude.{◌≡◌, ◌∷◌, ◌++◌, [], ℕ, Bool, List, IfSome, false};
ghost use Rattle.tracing_tree_base.specs.declared.context.Moment.{Moment};
ghost use Rattle.tracing_tree_lines.specs.Lines.Spelled.{input_lines};
ghost use Rattle.ttree_source.specs.Source.{calls_of, source_after};
ghost use Rattle.ttree_tap.specs.Failures.{after_all, calls_before_counts, has_error};
ghost use Rattle.ttree_tap.specs.Tally.{tally_has_failure};
ghost use Rattle.ttree_tap.specs.Tap.{nothing_run, tally_call, tap_ended, tap_ends, tap_takes};

use std::alloc::Global;
use tracing_tree_layer::layered::Layered;
use tracing_tree_lines::lines::LineInput;
use tracing_tree_output::Output;
use tracing_tree_time::{FormatTime, Moment};
use ttree_source::{Notes, draw_source};
use ttree_tap::Tap;

/// After any lines of TAP and their end, the tests have failed exactly if a row before the last is
/// an ERROR. So it is if only what failed is shown.
pub fn tap_fails_by_a_row()
    ensures { (is_failed_only : Bool) (next : ℕ) (moment : Moment) (lines : List (List ℕ)) →
        tally_has_failure
        (source_after tap_takes tap_ended (nothing_run is_failed_only next moment) lines).tally
        ≡ has_error (calls_before_counts (nothing_run is_failed_only next moment) lines) }
{}

/// The last call is the row with the counts after all lines. It is an ERROR exactly if the tests
/// have failed, also if only what failed is shown.
pub fn the_last_row_of_tap_counts()
    ensures { (is_failed_only : Bool) (next : ℕ) (moment : Moment) (lines : List (List ℕ)) →
        calls_of tap_takes tap_ends (nothing_run is_failed_only next moment) lines
        ≡ calls_before_counts (nothing_run is_failed_only next moment) lines
        ++ tally_call (after_all (nothing_run is_failed_only next moment) lines) ∷ [] }
{}

/// Draws lines of TAP. Returns whether a row of a test, a plan, a subtest or anything else is an
/// ERROR. Returns `None` if the run ended early.
pub fn has_tap_failed<L: LineInput, W: Output, FT: FormatTime, N: Notes>(
    alloc: Global,
    next: u64,
    moment: Moment,
    lines: &mut L,
    layered: &mut Layered<W, FT>,
    notes: &mut N,
) -> Option<bool>
    ensures { IfSome (L.remaining lines.old) (λ input. IfSome result (λ failed. failed
        ≡ has_error (calls_before_counts (nothing_run false next moment) (input_lines input)))) }
{
    let Ok(mut source) = Tap::new(alloc, next, moment) else {
        return None;
    };
    let run = draw_source(alloc, &mut source, lines, layered, notes);
    match run.fault {
        None => Some(source.has_failed()),
        Some(_) => None,
    }
}
