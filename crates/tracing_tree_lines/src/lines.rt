//! The program's input lines: the first has the settings, each further one a call.

mod call;
mod context;
mod field_list;
mod input;
mod number;
mod pair;
mod part;
mod parts;
pub(crate) mod read;
mod settings;
mod skip;
mod value;

ghost use Rattle.std.specs.Prelude.{◌≡◌, ℕ, ◌+◌, ◌<◌, ◌≤◌, List, length, slice_range, Option, IfErr, IfOk, IfSome, IsTrue, MatchResult, option_map};
ghost use Rattle.std.specs.Str.{IsCharBoundary};
ghost use Rattle.std.specs.Io.Buffered.{reader_remaining};
ghost use Rattle.tracing_tree_layer.specs.Layer.Layers.{seen, Changes, Flushes};
ghost use Rattle.tracing_tree_lines.specs.Lines.Reads.{IsBeforeCalls, OpensWith, ReadsNext, TakesLine};
ghost use Rattle.tracing_tree_lines.specs.Lines.Runs.{CountsEnd, EndsAtFirst, LeavesRun, last_number, status_of};
ghost use Rattle.tracing_tree_lines.specs.Lines.SoFar.{counted, IsTextOf, RunsHeld, RunsSome};
ghost use Rattle.tracing_tree_lines.specs.declared.lines.Judged.TheVariants.{End};
ghost use Rattle.tracing_tree_lines.specs.Lines.Steps.{EndsLines, JudgesLine, ShowsAndJudges};

pub use call::make_call;
pub use input::{LineInput, read_held};
use json::{Invalid, Scratch};
use read::{line_end, whole_lines};
pub use read::{BLOCK, is_skipped, read_line};
pub use settings::{Setup, is_settings, settings_of_line};
use simdutf8::basic::from_utf8;
use std::alloc::{AllocError, AllocFailed, Global};
use std::fmt;
use std::io::{BufReader, Read};
use thiserror::Error;
use tracing_tree_base::Refusal;
use tracing_tree_layer::flushed::Flushed;
use tracing_tree_layer::layer::HierarchicalLayer;
use tracing_tree_layer::layered::Layered;
use tracing_tree_output::Output;
use tracing_tree_time::FormatTime;

/// Why a line ended the run.
#[derive(Clone, Copy, Debug, PartialEq, Eq, Error)]
pub enum LineCause {
    /// The first line is missing or isn't valid settings.
    #[error("settings")]
    Settings,

    /// A further line isn't a call.
    #[error("not a call")]
    NotACall,

    /// The input could not be read.
    #[error("read")]
    Read,

    /// An allocation failed before the line's call was made.
    #[error("memory")]
    Memory,

    /// The line's call was refused.
    #[error(transparent)]
    Refused(Refusal),
}

impl From<Refusal> for LineCause {
    ghost use Rattle.std.specs.Prelude.{◌≡◌};
    ghost use Rattle.tracing_tree_lines.specs.declared.lines.LineCause.TheVariants.{Refused};

    ghost from_gives = { λ refusal cause. cause ≡ Refused refusal };

    fn from(refusal: Refusal) -> LineCause {
        LineCause::Refused(refusal)
    }
}

impl From<AllocError> for LineCause {
    ghost use Rattle.std.specs.Prelude.{◌≡◌};
    ghost use Rattle.tracing_tree_lines.specs.declared.lines.LineCause.TheVariants.{Memory};

    ghost from_gives = { λ _ cause. cause ≡ Memory };

    fn from(_error: AllocError) -> LineCause {
        LineCause::Memory
    }
}

impl From<Invalid> for LineCause {
    ghost use Rattle.std.specs.Prelude.{◌≡◌};
    ghost use Rattle.tracing_tree_lines.specs.declared.lines.LineCause.TheVariants.{NotACall};

    ghost from_gives = { λ _ cause. cause ≡ NotACall };

    fn from(_invalid: Invalid) -> LineCause {
        LineCause::NotACall
    }
}

impl From<json::Error> for LineCause {
    ghost use Rattle.std.specs.Prelude.{◌≡◌};
    ghost use Rattle.json.specs.declared.error.Error.TheVariants.{OutOfMemory};
    ghost use Rattle.tracing_tree_lines.specs.Lines.Parts.{cause_of};

    ghost from_gives = { λ error cause. cause ≡ cause_of error };

    fn from(error: json::Error) -> LineCause {
        match error {
            json::Error::OutOfMemory => LineCause::Memory,
            _ => LineCause::NotACall,
        }
    }
}

impl<T: Drop> From<AllocFailed<T>> for LineCause {
    ghost use Rattle.std.specs.Prelude.{◌≡◌};
    ghost use Rattle.tracing_tree_lines.specs.declared.lines.LineCause.TheVariants.{Memory};

    ghost from_gives = { λ _ cause. cause ≡ Memory };

    fn from(_error: AllocFailed<T>) -> LineCause {
        LineCause::Memory
    }
}

/// The line that ended the run, and why. It is displayed as `line N: CAUSE`.
#[derive(Clone, Copy, Debug, PartialEq, Eq)]
pub struct LineFault {
    /// The line's number, from 1.
    pub line: u64,

    /// Why the run ended there.
    pub cause: LineCause,
}

impl fmt::Display for LineFault {
    fn fmt<W: fmt::Write>(&self, f: &mut fmt::Formatter<W>) -> fmt::Result {
        let line = self.line;
        let cause = self.cause;
        write!(f, "line {line}: {cause}")
    }
}

/// The result of a run over lines.
#[derive(Drop)]
pub struct LinesRun<W: Output> {
    /// The writer, with everything that was written.
    pub writer: W,

    /// How many calls were accepted.
    pub accepted: u64,

    /// The line that ended the run, or `None` if the run reached the end of the input. Even then
    /// the last flush may have failed. No later call reports that, but `Wrap::is_stuck` does.
    pub fault: Option<LineFault>,
}

/// Runs the calls of the input's lines with the settings of its first line, and draws them into the
/// writer. The caller must ensure that the writer has no faults.
///
/// From line 2 on, a line that has only spaces, tabs and carriage returns is counted and skipped.
/// The run ends after the first line that isn't a call or whose call is refused. The writer is
/// flushed before each read of the input from line 2 on, and not elsewhere. After a fault the
/// caller must flush what was drawn last.
///
/// # Errors
///
/// `LinesRun::fault` has the line's number and the cause:
///
/// - `Settings` at line 1 if it isn't valid settings, or is missing.
/// - `NotACall` if a further line isn't a call.
/// - `Refused` if a line's call is refused. If an allocation fails in a call, it is
///   `Refused(Memory)`.
/// - `Memory` if an allocation fails before a line's call is made. If the buffer of the input can't
///   be allocated, this is at line 1.
/// - `Read` if a read is interrupted for the ninth time in a row, or fails with another error. It
///   is also the cause after 2^64 - 1 reads of a line that doesn't end, and at line 2^64 - 1, which
///   isn't judged.
///
/// If a contract can name the reader's bytes, as for a slice, it states what was run and written.
/// For any reader it states that the cause is `Refused(Writer)` exactly if the writer counted a
/// fault.
pub fn run_lines<R: Read, W: Output>(alloc: Global, reader: R, writer: W) -> LinesRun<W>
where
    R: Drop,
    W: Drop,
    requires { W.fault_count writer ≡ 0 }
    ensures ran { IfSome (R.remaining reader) (λ input.
        LeavesRun W.Output input result.accepted result.fault writer result.writer) }
    ensures counted { CountsEnd (option_map (λ fault. fault.cause) result.fault)
        (W.fault_count writer) (W.fault_count result.writer) }
{
    let opened = open(alloc, reader);
    let (mut lines, setup) = match opened {
        Ok(opened) => opened,
        Err(cause) => {
            let fault = Some(LineFault { line: 1, cause });
            return LinesRun {
                writer,
                accepted: 0,
                fault,
            };
        }
    };
    let (config, timer) = setup.into_parts();
    let layer = HierarchicalLayer::with_config(alloc, config, writer).with_timer(timer);
    let mut layered = Layered::new(alloc, layer);
    let (accepted, fault) = draw_lines(alloc, &mut lines, &mut layered);
    let (_registry, layer) = layered.into_parts();
    LinesRun {
        writer: layer.into_writer(),
        accepted,
        fault,
    }
}

// Opens the input: returns the lines after the first, and the settings of the first.
fn open<R: Read>(alloc: Global, reader: R) -> Result<(BufReader<R>, Setup), LineCause>
where
    R: Drop,
    ensures opened { MatchResult result
        (λ opened. OpensWith (R.remaining reader) (reader_remaining R.remaining opened.0) opened.1)
        (λ cause. IfSome (R.remaining reader) (λ input. EndsAtFirst input cause)) }
    ensures early { IfErr result IsBeforeCalls }
{
    let Ok(mut lines) = BufReader::with_capacity(alloc, BLOCK, reader) else {
        return Err(LineCause::Memory);
    };
    let mut line = Vec::new(alloc);
    if !read_line(&mut lines, &mut line)? {
        return Err(LineCause::Settings);
    }
    let setup = settings_of_line(alloc, line.as_slice())?;
    Ok((lines, setup))
}

/// Draws the calls of lines, as [`run_lines`] does from the second line on. Returns how many calls
/// were accepted, and the line that ended the run. The first of these lines is line 2.
///
/// It reads only by the methods of [`LineInput`], so everything drawn is shown before each wait for
/// a line.
pub fn draw_lines<L: LineInput, W: Output, FT: FormatTime>(
    alloc: Global,
    lines: &mut L,
    layered: &mut Layered<W, FT>,
) -> (u64, Option<LineFault>)
    ensures { EndsLines (seen FT.FormatTime W.Output) (L.remaining lines.old) result.0 result.1
        layered.old layered.new }
{
    let mut line = Vec::new(alloc);
    let mut scratch = Scratch::new(alloc);
    let mut run = Progress {
        number: 2,
        accepted: 0,
    };
    while run.number < u64::MAX {
        match run_some(alloc, lines, &mut line, &mut scratch, layered, &mut run) {
            Ok(true) => {}
            Ok(false) => return (run.accepted, None),
            Err(cause) => {
                let fault = LineFault {
                    line: run.number,
                    cause,
                };
                return (run.accepted, Some(fault));
            }
        }
    }
    let fault = LineFault {
        line: u64::MAX,
        cause: LineCause::Read,
    };
    (run.accepted, Some(fault))
}

// The state of a run.
#[derive(Drop)]
struct Progress {
    // The number of the next line.
    number: u64,
    // How many calls were accepted.
    accepted: u64,
}

impl Progress {
    // Counts a line that was judged.
    fn count(&mut self, judged: Judged)
        requires room { self.old.accepted + 2 ≤ self.old.number }
        requires below { self.old.number < last_number }
        ensures { self.new ≡ counted judged self.old }
    {
        match judged {
            Judged::Accepted => self.accepted += 1,
            Judged::End | Judged::Skipped => {}
        }
        self.number += 1;
    }
}

// The result of a line.
enum Judged {
    // The input ended.
    End,
    Skipped,
    // Its call was accepted.
    Accepted,
}

// Makes the calls of all complete lines in the reader's buffer. Without a complete line, makes the
// call of the next line. Returns whether there was a line. A line that ends the run isn't counted:
// its number is that of the next line.
fn run_some<L: LineInput, W: Output, FT: FormatTime>(
    alloc: Global,
    lines: &mut L,
    line: &mut Vec<u8>,
    scratch: &mut Scratch,
    layered: &mut Layered<W, FT>,
    run: &mut Progress,
) -> Result<bool, LineCause>
    requires room { run.old.accepted + 2 ≤ run.old.number }
    requires below { run.old.number < last_number }
    ensures room { (run.new.accepted + 2 ≤ run.new.number) × (run.new.number ≤ last_number) }
    ensures onward { IfOk result (λ more. IsTrue more → run.old.number < run.new.number) }
    ensures ran { RunsSome (seen FT.FormatTime W.Output) (L.remaining lines.old)
        (L.remaining lines.new) run.old run.new result layered.old layered.new }
{
    let judged = run_held(alloc, whole_lines(lines.held()), scratch, layered, run)?;
    if judged > 0 {
        lines.consume(judged);
        return Ok(true);
    }
    match run_line(alloc, lines, line, scratch, layered)? {
        Judged::End => Ok(false),
        judged => {
            run.count(judged);
            Ok(true)
        }
    }
}

// Makes the calls of the complete lines in the reader's buffer. Returns how many bytes were judged.
// The lines are checked for UTF-8 together, which costs less than one check per line.
fn run_held<W: Output, FT: FormatTime>(
    alloc: Global,
    held: &[u8],
    scratch: &mut Scratch,
    layered: &mut Layered<W, FT>,
    run: &mut Progress,
) -> Result<usize, LineCause>
    requires room { run.old.accepted + 2 ≤ run.old.number }
    requires below { run.old.number < last_number }
    ensures room { (run.new.accepted + 2 ≤ run.new.number) × (run.new.number ≤ last_number) }
    ensures within { IfOk result (λ judged. judged ≤ length held.now) }
    ensures onward { IfOk result (λ judged. 0 < judged → run.old.number < run.new.number) }
    ensures none { IfOk result (λ judged. judged ≡ 0 → run.new.number ≡ run.old.number) }
    ensures ran { RunsHeld (seen FT.FormatTime W.Output) held.now run.old run.new result
        layered.old layered.new }
{
    let whole = from_utf8(held).ok();
    let mut start = 0;
    while let Some(length) = line_end(&held[start..]) {
        if run.number == u64::MAX {
            break;
        }
        let end = start + length;
        let text = line_text(held, whole, start, end);
        let judged = judge(alloc, &held[start..end], text, scratch, layered)?;
        run.count(judged);
        start = end + 1;
    }
    Ok(start)
}

// Returns the string of a line, as a part of all held lines. If those aren't UTF-8, this line is
// checked separately, since another one may be invalid.
fn line_text<'a>(
    held: &'a [u8],
    whole: Option<&'a str>,
    start: usize,
    end: usize,
) -> Option<&'a str>
    requires within { (start ≤ end) × (end ≤ length held.now) }
    requires cut { IfSome whole (λ text. (text.now ≡ held.now)
        × IsCharBoundary held.now start × IsCharBoundary held.now end) }
    ensures { IsTextOf (slice_range held.now start end) (option_map (λ text. text.now) result) }
{
    match whole {
        Some(text) => Some(&text[start..end]),
        None => from_utf8(&held[start..end]).ok(),
    }
}

// Makes the call of the next line.
fn run_line<L: LineInput, W: Output, FT: FormatTime>(
    alloc: Global,
    lines: &mut L,
    line: &mut Vec<u8>,
    scratch: &mut Scratch,
    layered: &mut Layered<W, FT>,
) -> Result<Judged, LineCause>
    ensures { ShowsAndJudges (seen FT.FormatTime W.Output) (L.remaining lines.old)
        (L.remaining lines.new) result layered.old layered.new }
{
    if !read_next(lines, line, layered)? {
        return Ok(Judged::End);
    }
    let text = from_utf8(line.as_slice()).ok();
    judge(alloc, line.as_slice(), text, scratch, layered)
}

// Reads the next line. Flushes what was drawn first, since the read may wait.
fn read_next<L: LineInput, W: Output, FT: FormatTime>(
    lines: &mut L,
    line: &mut Vec<u8>,
    layered: &mut Layered<W, FT>,
) -> Result<bool, LineCause>
    ensures shown { Changes (seen FT.FormatTime W.Output) Flushes layered.old layered.new }
    ensures read { ReadsNext (L.remaining lines.old) (L.remaining lines.new) line.new.items result }
{
    let flushed = Flushed::new(layered);
    lines.read_line(line, &flushed)
}

// Judges a line: skips it, or makes its call.
fn judge<W: Output, FT: FormatTime>(
    alloc: Global,
    line: &[u8],
    text: Option<&str>,
    scratch: &mut Scratch,
    layered: &mut Layered<W, FT>,
) -> Result<Judged, LineCause>
    requires { IsTextOf line.now (option_map (λ text. text.now) text) }
    ensures there { IfOk result (λ judged. judged ≡ End → ⊥) }
    ensures judged { (known left : Option (List ℕ)) → TakesLine known left line.now
        → Changes (seen FT.FormatTime W.Output) (JudgesLine known left result)
        layered.old layered.new }
{
    if is_skipped(line) {
        return Ok(Judged::Skipped);
    }
    let text = text.ok_or(LineCause::NotACall)?;
    make_call(alloc, text, scratch, layered)?;
    Ok(Judged::Accepted)
}

/// Returns the exit status of the program after a run: 2 for `Settings` and 1 for any other fault.
/// Without a fault it is 0 if the last output was flushed, otherwise 1.
pub fn status(fault: &Option<LineFault>, flushed: bool) -> u8
    ensures { result ≡ status_of fault.now flushed }
{
    match fault {
        None if flushed => 0,
        None => 1,
        Some(fault) => match fault.cause {
            LineCause::Settings => 2,
            _ => 1,
        },
    }
}
