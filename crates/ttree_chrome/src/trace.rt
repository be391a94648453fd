//! Traces in Chrome's trace event format.

ghost use Rattle.std.specs.Prelude.{◌≡◌, [], ◌∷◌, IfErr, IfOk, IsSome, MatchResult, OnOk, Some, is_none, is_ok, option_and_then, true};
ghost use Rattle.json.specs.Find.{InItems};
ghost use Rattle.json.specs.Json.{Items, document};
ghost use Rattle.json.specs.Value.{value_view};
ghost use Rattle.tracing_tree_layer.specs.Layer.Layers.{seen, Changes};
ghost use Rattle.ttree_chrome.specs.Trace.{AreCallsOf, DrawsOrEnds, EndsInterpreting, EndsReading, RunsTrace, ended_run, interpreted_all, interpreted_as, interpreted_cut, interpreted_from, interpreted_in, interpreted_mended, interpreted_unknown, interpreted_value_or, nothing_interpreted_of};
ghost use Rattle.ttree_chrome.specs.Element.{element_of};
ghost use Rattle.ttree_chrome.specs.Text.{elements_in};
ghost use Rattle.ttree_chrome.specs.Notes.{IsNoted, cut_notes, element_note, element_notes, item_count, mended_notes, notes_in, trace_notes};
ghost use Rattle.ttree_source.specs.Noted.{Note};

use crate::element::element_of;
use crate::gather::{Gathered, in_order};
use crate::leaves::Leaves;
use crate::text::{elements_of, mended};
use crate::tree::{Names, Tree, clock_start};
use json::{MAX_DEPTH, Reader, Scratch, Value, is_valid};
use std::alloc::{AllocError, Global};
use tracing_tree_layer::call::Call;
use tracing_tree_layer::layered::Layered;
use tracing_tree_lines::lines::{LineCause, LineFault};
use tracing_tree_output::Output;
use tracing_tree_time::{FormatTime, Moment};
use ttree_source::cut::Cut;
use ttree_source::notes::{Notes, Problem};
use ttree_source::run::{SourceRun, draw_calls, skip};

// What was read of a trace so far.
#[derive(Drop)]
struct Interpreted {
    gathered: Gathered,
    // The number of unknown elements.
    unknown: u64,
}

/// The result of drawing a trace.
#[derive(Clone, Copy, Debug)]
pub struct TraceRun {
    /// The number of unknown elements, and what ended the run.
    pub run: SourceRun,

    /// The number of elements that have no row, such as counters and flows. Metadata doesn't count.
    /// It is 0 if nothing is drawn because of a fault.
    pub undrawn: u64,
}

/// Draws a trace: a JSON array of elements, or an object with such an array at `traceEvents`. A
/// truncated trace is drawn up to its last complete element.
///
/// Each process is a span, and each of its threads is a span in it. In a thread, spans are nested
/// by time, and an event is in the innermost span that hasn't ended. A span shows how long it took.
/// A span that has nothing in it is drawn as `leaves` says. A span records how many spans were left
/// out in it, before it closes. Times are nanoseconds on the trace's clock. If an event or a span
/// begins before the zero of that clock, they are nanoseconds since the first of them. The first
/// span gets the id `next`. The moment of a call is `moment` with the element's time.
///
/// An unknown element is counted and left out, and what is missing is noted with its number from 1.
/// A truncated element, or an input that isn't a trace, is counted and noted too.
///
/// # Errors
///
/// The fault is at line 1. Its cause is `Memory` if an allocation fails before the first call, and
/// `NotACall` if the notes end the run. Nothing is drawn then. It is `Refused` if a call is
/// refused. The drawing ends at that call.
#[tactic(auto, using(crate::proofs::Noting::noted_less))]
pub fn run_trace<W: Output, FT: FormatTime, N: Notes>(
    alloc: Global,
    next: u64,
    moment: Moment,
    cut: Cut,
    leaves: Leaves,
    text: &str,
    layered: &mut Layered<W, FT>,
    notes: &mut N,
) -> TraceRun
    ensures run { Changes (seen FT.FormatTime W.Output)
        (RunsTrace next moment cut leaves text.now result) layered.old layered.new }
    ensures noted { IsNoted (notes_in text.now) (is_none result.run.fault) 0 result.run.unknown
        (N.noted notes.old) (N.noted notes.new) }
{
    let mut interpreted = Interpreted::new(alloc);
    if let Err(cause) = interpret(alloc, text, &mut interpreted, notes) {
        return ended(interpreted.unknown, cause, 0);
    }
    let Interpreted { gathered, unknown } = interpreted;
    let undrawn = gathered.undrawn;
    match draw(alloc, next, moment, cut, leaves, gathered, layered) {
        Ok(()) => TraceRun {
            run: SourceRun {
                unknown,
                fault: None,
            },
            undrawn,
        },
        Err(LineCause::Memory) => ended(unknown, LineCause::Memory, 0),
        Err(cause) => ended(unknown, cause, undrawn),
    }
}

/// The result of reading a trace.
#[derive(Drop)]
pub struct TraceCalls {
    /// The calls that draw it, or why the reading ended.
    pub calls: Result<Vec<Call>, LineCause>,

    /// The number of unknown elements.
    pub unknown: u64,

    /// The number of elements that have no row, such as counters and flows. Metadata doesn't count.
    /// It is 0 if the reading ended early.
    pub undrawn: u64,
}

/// Reads a trace, and returns the calls that [`run_trace`] makes on its receiver. The arguments and
/// the notes are those of `run_trace`.
#[tactic(auto, using(crate::proofs::Noting::noted_less))]
pub fn trace_calls<N: Notes>(
    alloc: Global,
    next: u64,
    moment: Moment,
    cut: Cut,
    leaves: Leaves,
    text: &str,
    notes: &mut N,
) -> TraceCalls
    ensures read { MatchResult result.calls
        (λ calls. AreCallsOf next moment cut leaves (interpreted_in text.now).gathered calls.items
        × (result.unknown ≡ (interpreted_in text.now).unknown)
        × (result.undrawn ≡ (interpreted_in text.now).gathered.undrawn))
        (λ cause. EndsReading cause result.unknown (interpreted_in text.now) × (result.undrawn ≡ 0)) }
    ensures noted { IsNoted (notes_in text.now) (is_ok result.calls) 0 result.unknown
        (N.noted notes.old) (N.noted notes.new) }
{
    let mut read = Interpreted::new(alloc);
    if let Err(cause) = interpret(alloc, text, &mut read, notes) {
        return TraceCalls {
            calls: Err(cause),
            unknown: read.unknown,
            undrawn: 0,
        };
    }
    let Interpreted {
        gathered,
        unknown: count,
    } = read;
    let undrawn = gathered.undrawn;
    match calls_of(alloc, next, moment, cut, leaves, gathered) {
        Ok(calls) => TraceCalls {
            calls: Ok(calls),
            unknown: count,
            undrawn,
        },
        Err(AllocError) => TraceCalls {
            calls: Err(LineCause::Memory),
            unknown: count,
            undrawn: 0,
        },
    }
}

fn ended(unknown: u64, cause: LineCause, undrawn: u64) -> TraceRun
    ensures { result ≡ ended_run unknown cause undrawn }
{
    TraceRun {
        run: SourceRun {
            unknown,
            fault: Some(LineFault { line: 1, cause }),
        },
        undrawn,
    }
}

// Draws what was gathered.
fn draw<W: Output, FT: FormatTime>(
    alloc: Global,
    next: u64,
    moment: Moment,
    cut: Cut,
    leaves: Leaves,
    gathered: Gathered,
    layered: &mut Layered<W, FT>,
) -> Result<(), LineCause>
    ensures { Changes (seen FT.FormatTime W.Output)
        (DrawsOrEnds next moment cut leaves gathered result) layered.old layered.new }
{
    let Ok(calls) = calls_of(alloc, next, moment, cut, leaves, gathered) else {
        return Err(LineCause::Memory);
    };
    match draw_calls(calls, layered) {
        Ok(()) => Ok(()),
        Err(refusal) => Err(LineCause::Refused(refusal)),
    }
}

// Returns the calls that draw what was gathered.
fn calls_of(
    alloc: Global,
    next: u64,
    moment: Moment,
    cut: Cut,
    leaves: Leaves,
    gathered: Gathered,
) -> Result<Vec<Call>, AllocError>
    ensures { IfOk result (λ calls. AreCallsOf next moment cut leaves gathered calls.items) }
{
    let Gathered {
        items,
        begun,
        processes,
        threads,
        strings,
        tracks: _,
        count: _,
        undrawn: _,
    } = gathered;
    let names = Names {
        processes,
        threads,
        strings: strings.into_texts(),
    };
    let ordered = in_order(items, begun)?;
    let origin = clock_start(ordered.as_slice());
    let mut tree = Tree::new(alloc, next, moment, origin, cut, leaves, names)?;
    tree.draw(ordered)?;
    Ok(tree.into_calls())
}

// Reads the elements of a trace.
#[tactic(auto, using(crate::proofs::Noting::noted_not_yet))]
fn interpret<N: Notes>(
    alloc: Global,
    text: &str,
    interpreted: &mut Interpreted,
    notes: &mut N,
) -> Result<(), LineCause>
    ensures interpreted { OnOk result (interpreted.new ≡ interpreted_from text.now interpreted.old) }
    ensures ended { IfErr result (λ cause. EndsInterpreting cause interpreted.new (interpreted_from text.now
        interpreted.old)) }
    ensures noted { IsNoted (notes_in text.now) (is_ok result) interpreted.old.unknown interpreted.new.unknown
        (N.noted notes.old) (N.noted notes.new) }
{
    let mut scratch = Scratch::new(alloc);
    if is_valid(text, &mut scratch)? {
        return interpreted.take_text(alloc, text, &mut scratch, false, notes);
    }
    drop(scratch);
    interpret_mended(alloc, text, interpreted, notes)
}

// Reads the elements of a truncated trace.
#[tactic(auto, using(crate::proofs::Noting::noted_less, crate::proofs::Noting::noted_not_yet))]
fn interpret_mended<N: Notes>(
    alloc: Global,
    text: &str,
    interpreted: &mut Interpreted,
    notes: &mut N,
) -> Result<(), LineCause>
    ensures interpreted { OnOk result (interpreted.new ≡ interpreted_mended text.now interpreted.old) }
    ensures ended { IfErr result (λ cause. EndsInterpreting cause interpreted.new (interpreted_mended text.now
        interpreted.old)) }
    ensures noted { IsNoted (mended_notes text.now) (is_ok result) interpreted.old.unknown
        interpreted.new.unknown (N.noted notes.old) (N.noted notes.new) }
{
    let mended = mended(alloc, text)?;
    let text = mended.text.as_str();
    let mut scratch = Scratch::new(alloc);
    if !is_valid(text, &mut scratch)? {
        return interpreted.lose(1, Problem::Trace, notes);
    }
    interpreted.take_text(alloc, text, &mut scratch, mended.is_cut, notes)
}

impl Interpreted {
    fn new(alloc: Global) -> Interpreted
        ensures { result ≡ nothing_interpreted_of }
    {
        Interpreted {
            gathered: Gathered::new(alloc),
            unknown: 0,
        }
    }

    // Reads the elements of a JSON value, one at a time. If it was truncated, one more element is
    // lost.
    #[tactic(auto, using(crate::proofs::Interpreting::ends_before_cut, crate::proofs::Noting::noted_among, crate::proofs::Noting::noted_one, crate::proofs::Noting::noted_then))]
    fn take_text<N: Notes>(
        &mut self,
        alloc: Global,
        text: &str,
        scratch: &mut Scratch,
        is_cut: bool,
        notes: &mut N,
    ) -> Result<(), LineCause>
        requires valid { IsSome (document text.now) }
        ensures interpreted { OnOk result (self.new ≡ interpreted_value_or is_cut (document text.now) self.old) }
        ensures ended { IfErr result (λ cause. EndsInterpreting cause self.new
            (interpreted_value_or is_cut (document text.now) self.old)) }
        ensures noted { IsNoted (trace_notes is_cut (option_and_then elements_in (document text.now)))
            (is_ok result) self.old.unknown self.new.unknown (N.noted notes.old)
            (N.noted notes.new) }
    {
        let Ok(found) = elements_of(text, scratch) else {
            return Err(LineCause::Memory);
        };
        let Some(mut elements) = found else {
            return self.lose(1, Problem::Trace, notes);
        };
        let count = self.take_all(alloc, &mut elements, notes)?;
        self.lose_cut(is_cut, count, notes)
    }

    // Reads the elements up to the end of their array, and returns how many there are.
    fn take_all<N: Notes>(
        &mut self,
        alloc: Global,
        elements: &mut Reader<'_>,
        notes: &mut N,
    ) -> Result<u64, LineCause>
        ensures interpreted { (all : Items) → InItems elements.old all
            → OnOk result (self.new ≡ interpreted_all all self.old) }
        ensures ended { (all : Items) → InItems elements.old all
            → IfErr result (λ cause. EndsInterpreting cause self.new (interpreted_all all self.old)) }
        ensures noted { (all : Items) → InItems elements.old all
            → IsNoted (element_notes 1 all) (is_ok result) self.old.unknown self.new.unknown
            (N.noted notes.old) (N.noted notes.new) }
        ensures count { (all : Items) → InItems elements.old all
            → IfOk result (λ count. count ≡ item_count all) }
    {
        for number in 1..u64::MAX {
            if elements.take_end_array() {
                return Ok(number - 1);
            }
            let Ok(element) = Value::read(alloc, elements, MAX_DEPTH) else {
                return Err(LineCause::Memory);
            };
            self.take(alloc, &element, number, notes)?;
        }
        Err(LineCause::Memory)
    }

    // Reads one element.
    #[tactic(auto, using(crate::proofs::Noting::noted_less, crate::proofs::Noting::noted_none, crate::proofs::Noting::noted_not_yet))]
    fn take<N: Notes>(
        &mut self,
        alloc: Global,
        element: &Value<'_>,
        number: u64,
        notes: &mut N,
    ) -> Result<(), LineCause>
        ensures interpreted { OnOk result (self.new ≡ interpreted_as (element_of (value_view element.now))
            self.old) }
        ensures ended { IfErr result (λ cause. EndsInterpreting cause self.new
            (interpreted_as (element_of (value_view element.now)) self.old)) }
        ensures noted { IsNoted (element_note number (element_of (value_view element.now)))
            (is_ok result) self.old.unknown self.new.unknown (N.noted notes.old)
            (N.noted notes.new) }
    {
        match element_of(alloc, element)? {
            Ok(element) => Ok(self.gathered.take(element)?),
            Err(problem) => self.lose(number, problem, notes),
        }
    }

    // Counts the truncated element, after `count` complete ones.
    #[tactic(auto, using(crate::proofs::Noting::noted_less, crate::proofs::Noting::noted_none))]
    fn lose_cut<N: Notes>(
        &mut self,
        is_cut: bool,
        count: u64,
        notes: &mut N,
    ) -> Result<(), LineCause>
        ensures interpreted { OnOk result (self.new ≡ interpreted_cut is_cut self.old) }
        ensures ended { IfErr result (λ cause. EndsInterpreting cause self.new (interpreted_cut is_cut
            self.old)) }
        ensures noted { IsNoted (cut_notes is_cut count) (is_ok result) self.old.unknown
            self.new.unknown (N.noted notes.old) (N.noted notes.new) }
    {
        if !is_cut {
            return Ok(());
        }
        let last = count.saturating_add(1);
        self.lose(last, Problem::Object, notes)
    }

    // Counts and notes an unknown element. An error ends the run.
    #[tactic(auto, using(crate::proofs::Interpreting::ends_unknown, crate::proofs::Noting::noted_one))]
    fn lose<N: Notes>(
        &mut self,
        number: u64,
        problem: Problem,
        notes: &mut N,
    ) -> Result<(), LineCause>
        ensures interpreted { self.new ≡ interpreted_unknown self.old }
        ensures ended { IfErr result (λ cause. EndsInterpreting cause self.new (interpreted_unknown self.old)) }
        ensures noted { IsNoted ((number, problem) ∷ []) true self.old.unknown self.new.unknown
            (N.noted notes.old) (N.noted notes.new) }
    {
        self.unknown = self.unknown.saturating_add(1);
        skip(notes, number, Ok(problem), &[])
    }
}
