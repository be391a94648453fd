//! Finds the ancestors of events in the drawing of a run.

ghost use Rattle.std.specs.Prelude.{◌≤◌, IfOk, IfErr};
ghost use Rattle.tracing_tree_lines.specs.Laws.Ancestry.{FindsInRuns};
ghost use Rattle.tracing_tree_drawing.specs.Rows.Paths.{AreEventPaths};
ghost use Rattle.tracing_tree_drawing.specs.Rows.Texts.{ReportsFault};
ghost use Rattle.tracing_tree_drawing.specs.Rows.Readable.{ReadsNoDrawing};

use std::alloc::Global;
use tracing_tree_drawing::rows::{EventPath, ReadFault};

/// Returns the events of a drawing in order. Each has the indices of its ancestors in the rows that
/// `read_rows` returns, one entry for each level below the event's. An entry is the last row before
/// the event that opens this level, if there is one. The caller must ensure that `amount` is 2 or
/// more.
///
/// # Errors
///
/// `Line` and `Memory`, as for `read_rows`.
pub fn read_paths(alloc: Global, text: &str, amount: usize) -> Result<Vec<EventPath>, ReadFault>
    requires { 2 ≤ amount }
    ensures paths { IfOk result (λ paths. AreEventPaths amount text.now paths.items) }
    ensures fault { IfErr result (λ fault. ReportsFault amount text.now fault) }
    ensures found { IfOk result (λ paths. FindsInRuns amount text.now paths.items) }
    ensures drawn_fault { IfErr result (λ fault. ReadsNoDrawing amount text.now fault) }
{
    tracing_tree_drawing::rows::read_event_paths(alloc, text, amount)
}
