//! When Go's tests have failed.

ghost use Rattle.std.specs.Prelude.{◌≡◌, ◌==◌, ◌||◌, ◌++◌, [], ℕ, List, Option, IfSome, codes, false, not};
ghost use Rattle.tracing_tree_base.specs.declared.context.Moment.{Moment};
ghost use Rattle.tracing_tree_lines.specs.Lines.Spelled.{input_lines};
ghost use Rattle.ttree_source.specs.Source.{interpret, source_after};
ghost use Rattle.ttree_go_test.specs.Failures.{some_failed};
ghost use Rattle.ttree_go_test.specs.GoTest.{GoState, any_failed, go_ended, go_takes, moved, nothing_run};
ghost use Rattle.ttree_go_test.specs.Texts.{own_name};
ghost use Rattle.ttree_source.specs.Marks.{is_empty};

use std::alloc::Global;
use tracing_tree_layer::layered::Layered;
use tracing_tree_lines::lines::LineInput;
use tracing_tree_output::Output;
use tracing_tree_time::{FormatTime, Moment};
use ttree_go_test::GoTest;
use ttree_source::{Notes, draw_source};

/// After lines and their end, tests have failed exactly if a line says that a test or a package
/// failed, or a package was still running after the last line. A package runs from its first
/// `start`, `run` or `output`.
pub fn tests_fail_by_a_line_or_a_package_that_runs()
    ensures { (next : ℕ) (moment : Moment) (lines : List (List ℕ)) →
        any_failed (source_after go_takes go_ended (nothing_run next moment) lines)
        ≡ some_failed lines (interpret go_takes (nothing_run next moment) lines).source }
{}

/// The counts say whether tests have failed: a test or a package failed, or a package didn't end.
pub fn failures_agree_with_the_counts()
    ensures { (s : GoState) → any_failed s
        ≡ (not (s.tally.failed == 0) || not (s.tally.packages_failed == 0)) }
{}

/// When a package passes, no test of it is counted as unfinished: each test that is still running
/// has passed.
pub fn packages_that_pass_leave_nothing_unfinished()
    ensures { (path : List ℕ) (elapsed : Option (List ℕ)) (s : GoState) →
        (moved (codes "pass") path [] elapsed s).tally.unfinished ≡ s.tally.unfinished }
{}

/// In the span of a parent test, a test's name is what follows the parent's name and a `/`. So the
/// names on a path, joined by `/`, are the whole name.
pub fn own_names_make_the_whole_name()
    ensures { (outer name : List ℕ) → is_empty outer ≡ false →
        own_name outer (outer ++ codes "/" ++ name) ≡ name }
{}

/// Runs Go's tests over an input. Returns whether a test or a package failed or didn't end. Returns
/// `None` if the run ended early.
pub fn have_tests_failed<L: LineInput, W: Output, FT: FormatTime, N: Notes>(
    alloc: Global,
    next: u64,
    moment: Moment,
    lines: &mut L,
    layered: &mut Layered<W, FT>,
    notes: &mut N,
) -> Option<bool>
    ensures { IfSome (L.remaining lines.old) (λ input. IfSome result (λ failed. failed
        ≡ some_failed (input_lines input)
        (interpret go_takes (nothing_run next moment) (input_lines input)).source)) }
{
    let Ok(mut source) = GoTest::new(alloc, next, moment) else {
        return None;
    };
    let run = draw_source(alloc, &mut source, lines, layered, notes);
    match run.fault {
        None => Some(source.has_failed()),
        Some(_) => None,
    }
}
