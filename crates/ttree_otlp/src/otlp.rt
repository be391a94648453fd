//! Traces and logs in OTLP/JSON.

ghost use Rattle.std.specs.Prelude.{◌≡◌, ◌<◌, IfErr, IfOk, MatchOption, MatchResult, OnOk, Some, length, string_bytes, ⊤};
ghost use Rattle.tracing_tree_layer.specs.Layer.Layers.{seen, Changes};
ghost use Rattle.ttree_otlp.specs.Gather.{gathered_in};
ghost use Rattle.ttree_otlp.specs.Otlp.{AreCallsOf, AreRowsOf, DrawsOrEnds, EndsReading, RunsOtlp, notes_of};
ghost use Rattle.ttree_otlp.specs.Tree.{calls_of_tree};
ghost use Rattle.ttree_source.specs.Noted.{AddsNotes};

use crate::draw::calls_of_rows;
use crate::gather::{Gathered, gathered_in, in_order};
use crate::keyed::Rows;
use crate::select::{Selection, shown};
use crate::tree::OtlpTree;
use crate::walk::rows_in_order;
use std::alloc::{AllocError, Global};
use tracing_tree_layer::call::Call;
use tracing_tree_layer::layered::Layered;
use tracing_tree_lines::lines::{LineCause, LineFault};
use tracing_tree_output::Output;
use tracing_tree_time::{FormatTime, Moment};
use ttree_source::notes::{Notes, Problem};
use ttree_source::run::{SourceRun, draw_calls, skip};

/// Draws traces and logs in OTLP/JSON: one object, which may have several lines, or one object in
/// each line, as the Collector's file exporter writes them.
///
/// Each trace is a span `trace`, at its earliest time. A span is nested in its parent, wherever
/// that is in the input. If its parent is missing, it is nested in its trace. Logs and events are
/// in their spans, and logs without a trace are at the root. All are ordered by time. Spans that
/// are nested in each other come last, in a separate `trace`. Only what `selection` shows is drawn.
/// The first span gets the id `next`. Calls are made at the times in the input, or at `moment` if a
/// moment can't have that time.
///
/// A line that isn't an object of OTLP is counted, noted with its number from 1, and skipped. So is
/// a span without an id or a trace id.
///
/// # Errors
///
/// The fault is at line 1. Its cause is `Memory` if an allocation fails before the first call, and
/// `NotACall` if the notes end the run. Nothing is drawn then. It is `Refused` if a call is
/// refused. The drawing ends at that call.
pub fn run_otlp<W: Output, FT: FormatTime, N: Notes>(
    alloc: Global,
    next: u64,
    moment: Moment,
    selection: &Selection,
    text: &str,
    layered: &mut Layered<W, FT>,
    notes: &mut N,
) -> SourceRun
    ensures run { Changes (seen FT.FormatTime W.Output) (RunsOtlp next moment selection.now
        text.now result)
        layered.old layered.new }
    ensures noted { MatchOption result.fault
        (AddsNotes (notes_of (gathered_in text.now).problems) (N.noted notes.old) (N.noted
        notes.new))
        (λ _. ⊤) }
{
    let Ok(gathered) = gathered_in(alloc, text) else {
        return ended(0, LineCause::Memory);
    };
    let unknown = gathered.problems.len() as u64;
    if let Err(cause) = note_all(gathered.problems.as_slice(), notes) {
        return ended(unknown, cause);
    }
    match draw(alloc, next, moment, selection, gathered, layered) {
        Ok(()) => SourceRun {
            unknown,
            fault: None,
        },
        Err(cause) => ended(unknown, cause),
    }
}

/// What was read of an input.
#[derive(Drop)]
pub struct OtlpRead {
    /// What will be drawn, or what ended the reading.
    pub tree: Result<OtlpTree, LineCause>,

    /// How many of its lines and spans were skipped.
    pub unknown: u64,
}

/// Reads an input, and returns what [`run_otlp`] draws of it. The arguments are those of
/// `run_otlp`, and so are the notes. The input is dropped before the rows are nested, since both
/// together would take much memory.
pub fn read_otlp<N: Notes>(
    alloc: Global,
    next: u64,
    moment: Moment,
    selection: &Selection,
    text: String,
    notes: &mut N,
) -> OtlpRead
    ensures read { MatchResult result.tree
        (λ tree. AreCallsOf next moment selection.now (gathered_in (string_bytes text))
        (calls_of_tree tree)
        × (result.unknown ≡ length (gathered_in (string_bytes text)).problems))
        (λ cause. EndsReading cause (gathered_in (string_bytes text))) }
    ensures noted { OnOk result.tree
        (AddsNotes (notes_of (gathered_in (string_bytes text)).problems) (N.noted notes.old)
        (N.noted notes.new)) }
{
    let Ok(gathered) = gathered_in(alloc, text.as_str()) else {
        return OtlpRead {
            tree: Err(LineCause::Memory),
            unknown: 0,
        };
    };
    drop(text);
    let unknown = gathered.problems.len() as u64;
    if let Err(cause) = note_all(gathered.problems.as_slice(), notes) {
        return OtlpRead {
            tree: Err(cause),
            unknown,
        };
    }
    let tree = match tree_of(alloc, next, moment, selection, gathered) {
        Ok(tree) => Ok(tree),
        Err(AllocError) => Err(LineCause::Memory),
    };
    OtlpRead { tree, unknown }
}

fn ended(unknown: u64, cause: LineCause) -> SourceRun
    ensures { result ≡ record {
      unknown = unknown;
      fault = Some (record {
        line = 1;
        cause = cause;
      });
    } }
{
    SourceRun {
        unknown,
        fault: Some(LineFault { line: 1, cause }),
    }
}

// Has each of these lines noted. An error ends the run.
fn note_all<N: Notes>(problems: &[u64], notes: &mut N) -> Result<(), LineCause>
    ensures noted { OnOk result
        (AddsNotes (notes_of problems.now) (N.noted notes.old) (N.noted notes.new)) }
    ensures ended { IfErr result (λ cause. (cause ≡ LineCause.NotACall) × (0 < length
        problems.now)) }
{
    for line in problems {
        skip(notes, *line, Ok(Problem::Object), &[])?;
    }
    Ok(())
}

// Draws what was gathered.
fn draw<W: Output, FT: FormatTime>(
    alloc: Global,
    next: u64,
    moment: Moment,
    selection: &Selection,
    gathered: Gathered,
    layered: &mut Layered<W, FT>,
) -> Result<(), LineCause>
    ensures { Changes (seen FT.FormatTime W.Output) (DrawsOrEnds next moment selection.now gathered
        result)
        layered.old layered.new }
{
    let Ok(calls) = calls_of(alloc, next, moment, selection, gathered) else {
        return Err(LineCause::Memory);
    };
    match draw_calls(calls, layered) {
        Ok(()) => Ok(()),
        Err(refusal) => Err(LineCause::Refused(refusal)),
    }
}

// Returns the calls that draw what was gathered.
fn calls_of(
    alloc: Global,
    next: u64,
    moment: Moment,
    selection: &Selection,
    gathered: Gathered,
) -> Result<Vec<Call>, AllocError>
    ensures { IfOk result (λ calls. AreCallsOf next moment selection.now gathered calls.items) }
{
    calls_of_rows(alloc, next, moment, rows_of(alloc, selection, gathered)?)
}

// Returns what is drawn of what was gathered.
fn tree_of(
    alloc: Global,
    next: u64,
    moment: Moment,
    selection: &Selection,
    gathered: Gathered,
) -> Result<OtlpTree, AllocError>
    ensures { IfOk result
        (λ tree. AreCallsOf next moment selection.now gathered (calls_of_tree tree)) }
{
    let rows = rows_of(alloc, selection, gathered)?;
    Ok(OtlpTree::new(alloc, next, moment, rows))
}

// Returns the rows that are drawn of what was gathered.
fn rows_of(alloc: Global, selection: &Selection, gathered: Gathered) -> Result<Rows, AllocError>
    ensures { IfOk result (λ rows. AreRowsOf selection.now gathered rows) }
{
    let (items, known) = gathered.into_rows();
    let ordered = in_order(alloc, &known, items)?;
    drop(known);
    shown(alloc, selection, rows_in_order(alloc, ordered)?)
}
