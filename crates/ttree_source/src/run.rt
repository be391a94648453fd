//! Runs a source over an input.

ghost use Rattle.std.specs.Prelude.{◌≡◌, [], List, ℕ, Option, true, Err, IfErr, IfOk, IfSome, OnOk, MatchResult, option_map};
ghost use Rattle.json.specs.Json.{document};
ghost use Rattle.json.specs.Value.{value_view};
ghost use Rattle.tracing_tree_layer.specs.Layer.Layers.{seen, Changes};
ghost use Rattle.tracing_tree_layer.specs.Layered.Answered.{IsAnswered};
ghost use Rattle.ttree_source.specs.Source.{Accepts, InterpretsAs, InterpretsLine, InterpretsNext, Makes, MakesAll, MakesEach, RunsSource, MayEnd, interpreted_step, is_quiet, problem_of, noted_lines, notes_of};
ghost use Rattle.ttree_source.specs.Noted.{AddsNotes, note_if};
ghost use Rattle.tracing_tree_lines.specs.Lines.Reads.{ReadsNext, is_from_outside};
ghost use Rattle.tracing_tree_lines.specs.Lines.Spelled.{input_lines};

use crate::notes::{Notes, Problem};
use crate::source::Source;
use crate::values::value_of;
use json::{Error, Scratch, Value};
use simdutf8::basic::from_utf8;
use std::alloc::{AllocError, Global};
use tracing_tree_base::Refusal;
use tracing_tree_layer::call::Call;
use tracing_tree_layer::calls::Calls;
use tracing_tree_layer::flushed::Flushed;
use tracing_tree_layer::layered::Layered;
use tracing_tree_lines::lines::{LineCause, LineFault, LineInput, read_held};
use tracing_tree_output::Output;
use tracing_tree_time::FormatTime;

/// The result of a run over a source.
#[derive(Clone, Copy, Debug)]
pub struct SourceRun {
    /// The number of unknown lines.
    pub unknown: u64,

    /// The line that ended the run, or `None` if the run reached the end of the input.
    pub fault: Option<LineFault>,
}

/// Makes the calls of a source's lines on a receiver, and then those of its end.
///
/// An unknown line is counted and skipped, and what is missing in it is noted. The input is read
/// only by the methods of [`LineInput`], so the receiver is flushed before each wait for a line.
///
/// # Errors
///
/// The fault is the line that ended the run. Its cause is `Read` if the input can't be read,
/// `Memory` if an allocation fails, and `Refused` if a call is refused. It is `NotACall` exactly if
/// the notes end the run at a skipped line.
#[tactic(auto, using(crate::proofs::Ended::ends_line, crate::proofs::Ended::ends_noted))]
pub fn run_source<S: Source, L: LineInput, C: Calls, N: Notes>(
    alloc: Global,
    source: &mut S,
    lines: &mut L,
    receiver: &mut C,
    notes: &mut N,
) -> SourceRun
    ensures run { RunsSource (Accepts C.answers C.flushes) C.answers S.takes S.ends S.ended
        (L.remaining lines.old) source.old source.new result
        receiver.old receiver.new }
    ensures cause { IfSome result.fault (λ fault. MayEnd fault.cause result.unknown) }
    ensures noted { IfSome (L.remaining lines.old) (λ input. AddsNotes
        (notes_of S.takes S.value_problem 1 source.old (noted_lines result (input_lines input)))
        (N.noted notes.old) (N.noted notes.new)) }
{
    let mut line = Vec::new(alloc);
    let mut scratch = Scratch::new(alloc);
    let mut unknown = 0;
    for number in 1..u64::MAX {
        let read = read_next(lines, &mut line, receiver);
        match run_read(alloc, source, read, line.as_slice(), &mut scratch, receiver) {
            Ok(Judged::End) => {
                return SourceRun {
                    unknown,
                    fault: None,
                };
            }
            Ok(Judged::Known) => {}
            Ok(Judged::Unknown) => {
                unknown += 1;
                let problem = problem_of::<S>(alloc, line.as_slice(), &mut scratch);
                if let Err(cause) = skip(notes, number, problem, line.as_slice()) {
                    let fault = Some(LineFault {
                        line: number,
                        cause,
                    });
                    return SourceRun { unknown, fault };
                }
            }
            Err(cause) => {
                let fault = Some(LineFault {
                    line: number,
                    cause,
                });
                return SourceRun { unknown, fault };
            }
        }
    }
    let fault = Some(LineFault {
        line: u64::MAX,
        cause: LineCause::Read,
    });
    SourceRun { unknown, fault }
}

/// Draws a source's lines, like [`run_source`] on a [`Layered`].
pub fn draw_source<S: Source, L: LineInput, W: Output, FT: FormatTime, N: Notes>(
    alloc: Global,
    source: &mut S,
    lines: &mut L,
    layered: &mut Layered<W, FT>,
    notes: &mut N,
) -> SourceRun
    ensures run { Changes (seen FT.FormatTime W.Output)
        (RunsSource Makes IsAnswered S.takes S.ends S.ended (L.remaining lines.old)
        source.old source.new result) layered.old layered.new }
    ensures cause { IfSome result.fault (λ fault. MayEnd fault.cause result.unknown) }
    ensures noted { IfSome (L.remaining lines.old) (λ input. AddsNotes
        (notes_of S.takes S.value_problem 1 source.old (noted_lines result (input_lines input)))
        (N.noted notes.old) (N.noted notes.new)) }
{
    run_source(alloc, source, lines, layered, notes)
}

/// Reports a skipped line, numbered from 1, with its bytes, which may be left out. Returns an error
/// if the run has to stop.
///
/// # Errors
///
/// `NotACall` if the notes end the run. `Memory` if `problem` is an `AllocError`. Nothing is noted
/// then.
#[tactic(auto, using(crate::proofs::Noted::adds_none))]
pub fn skip<N: Notes>(
    notes: &mut N,
    number: u64,
    problem: Result<Problem, AllocError>,
    line: &[u8],
) -> Result<(), LineCause>
    ensures quiet { IfErr result (λ cause. is_quiet cause ≡ true) }
    ensures ended { MatchResult problem (λ _. IfErr result (λ cause. cause ≡ LineCause.NotACall))
        (λ _. result ≡ Err LineCause.Memory) }
    ensures noted { AddsNotes (note_if number problem) (N.noted notes.old) (N.noted notes.new) }
{
    match problem {
        Ok(problem) => {
            if notes.note(number, problem, line) {
                Ok(())
            } else {
                Err(LineCause::NotACall)
            }
        }
        Err(AllocError) => Err(LineCause::Memory),
    }
}

// Returns what is missing in an unknown line.
fn problem_of<S: Source>(
    alloc: Global,
    line: &[u8],
    scratch: &mut Scratch,
) -> Result<Problem, AllocError>
    ensures { IfOk result (λ problem. problem ≡ problem_of S.value_problem line.now) }
{
    match from_utf8(line) {
        Ok(text) => problem_of_text::<S>(alloc, text, scratch),
        Err(_) => Ok(Problem::Utf8),
    }
}

fn problem_of_text<S: Source>(
    alloc: Global,
    text: &str,
    scratch: &mut Scratch,
) -> Result<Problem, AllocError>
    ensures { IfOk result (λ problem. problem ≡ S.value_problem (document text.now)) }
{
    let value = value_of(alloc, text, scratch)?;
    Ok(S::problem(value.as_ref()))
}

// The result of a line.
enum Judged {
    // The input ended, and the calls of its end were made.
    End,
    Known,
    Unknown,
}

// Reads the next line. If the read may wait, the receiver is flushed first.
fn read_next<L: LineInput, C: Calls>(
    lines: &mut L,
    line: &mut Vec<u8>,
    receiver: &mut C,
) -> Result<bool, LineCause>
    ensures flushed { Accepts C.answers C.flushes [] receiver.old receiver.new }
    ensures read { ReadsNext (L.remaining lines.old) (L.remaining lines.new) line.new.items result }
    ensures outside { IfErr result (λ cause. is_from_outside cause ≡ true) }
{
    if !read_held(lines, line)? {
        let flushed = Flushed::new(receiver);
        return lines.read_line(line, &flushed);
    }
    Ok(true)
}

// Makes the calls of the line that was read, or those of the input's end.
#[tactic(auto, using(crate::proofs::Ended::ends_outside))]
fn run_read<S: Source, C: Calls>(
    alloc: Global,
    source: &mut S,
    read: Result<bool, LineCause>,
    line: &[u8],
    scratch: &mut Scratch,
    receiver: &mut C,
) -> Result<Judged, LineCause>
    requires outside { IfErr read (λ cause. is_from_outside cause ≡ true) }
    ensures next { (known left : Option (List ℕ)) → ReadsNext known left line.now read
        → InterpretsNext (Accepts C.answers C.flushes) C.answers S.takes S.ends S.ended
        known left line.now source.old source.new result receiver.old receiver.new }
    ensures cause { IfErr result (λ cause. MayEnd cause 0) }
{
    match read {
        Ok(true) => match run_line(alloc, source, line, scratch, receiver) {
            Ok(true) => Ok(Judged::Known),
            Ok(false) => Ok(Judged::Unknown),
            Err(cause) => Err(cause),
        },
        Ok(false) => match run_end(alloc, source, receiver) {
            Ok(()) => Ok(Judged::End),
            Err(cause) => Err(cause),
        },
        Err(cause) => Err(cause),
    }
}

// Makes the calls of a line. Returns whether the line is known.
fn run_line<S: Source, C: Calls>(
    alloc: Global,
    source: &mut S,
    line: &[u8],
    scratch: &mut Scratch,
    receiver: &mut C,
) -> Result<bool, LineCause>
    ensures line { InterpretsLine (Accepts C.answers C.flushes) C.answers S.takes line.now
        source.old source.new result receiver.old receiver.new }
    ensures cause { IfErr result (λ cause. MayEnd cause 0) }
{
    let Ok(text) = from_utf8(line) else {
        return Ok(false);
    };
    run_text(alloc, source, text, scratch, receiver)
}

// Makes the calls of a line. It is parsed only if the source reads its value.
#[tactic(auto, using(crate::proofs::Interpreted::interprets_anyway, crate::proofs::Interpreted::interprets_lacking))]
fn run_text<S: Source, C: Calls>(
    alloc: Global,
    source: &mut S,
    text: &str,
    scratch: &mut Scratch,
    receiver: &mut C,
) -> Result<bool, LineCause>
    ensures text { InterpretsAs (Accepts C.answers C.flushes) C.answers
        (interpreted_step source.old (S.takes source.old text.now (document text.now)))
        source.new result receiver.old receiver.new }
    ensures cause { IfErr result (λ cause. MayEnd cause 0) }
{
    if !source.reads_values() {
        return source.make_calls(alloc, text, None, receiver);
    }
    let Ok(value) = value_of(alloc, text, scratch) else {
        return Err(LineCause::Memory);
    };
    source.make_calls(alloc, text, value.as_ref(), receiver)
}

// Makes the calls of the input's end.
fn run_end<S: Source, C: Calls>(
    alloc: Global,
    source: &mut S,
    receiver: &mut C,
) -> Result<(), LineCause>
    ensures end { MakesAll (Accepts C.answers C.flushes) C.answers (S.ends source.old) result
        receiver.old receiver.new }
    ensures after { OnOk result (source.new ≡ S.ended source.old) }
    ensures cause { IfErr result (λ cause. MayEnd cause 0) }
{
    let Ok(calls) = source.end(alloc) else {
        return Err(LineCause::Memory);
    };
    match make(calls, receiver) {
        Ok(()) => Ok(()),
        Err(refusal) => Err(LineCause::Refused(refusal)),
    }
}

/// Draws these calls, like [`make`] on a [`Layered`].
///
/// # Errors
///
/// Returns the refusal of the first call that is refused.
pub fn draw_calls<W: Output, FT: FormatTime>(
    calls: Vec<Call>,
    layered: &mut Layered<W, FT>,
) -> Result<(), Refusal>
    ensures { Changes (seen FT.FormatTime W.Output) (MakesEach Makes IsAnswered calls.items result)
        layered.old layered.new }
{
    make(calls, layered)
}

/// Makes these calls one after another, up to the first that is refused.
///
/// # Errors
///
/// Returns the refusal of that call.
pub fn make<C: Calls>(calls: Vec<Call>, receiver: &mut C) -> Result<(), Refusal>
    ensures { MakesEach (Accepts C.answers C.flushes) C.answers calls.items result
        receiver.old receiver.new }
{
    for call in calls {
        receiver.call(call)?;
    }
    Ok(())
}
