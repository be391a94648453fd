//! Parses rows from a drawing.

ghost use Rattle.std.specs.Prelude.{◌≡◌, ℕ, ◌+◌, ◌≤◌, ◌<◌, ◌^◌, List, None, Some, Ok, false, IfOk, IfErr, IsTrue, MatchOption};
ghost use Rattle.tracing_tree_drawing.specs.Rows.Line.{after_run, one_line_row, read_corners, read_event, read_first, read_later, read_root};
ghost use Rattle.tracing_tree_drawing.specs.Rows.Texts.{TakesTextLine, ReportsFault, TriesLater, IsReadTo, TakesNext, LeavesLess, all_left};
ghost use Rattle.tracing_tree_drawing.specs.Rows.Readable.{ReadsDrawing, ReadsNoDrawing};
ghost use Rattle.tracing_tree_drawing.specs.Rows.RowText.{TextRow, IsOnlyReading, is_unbroken, mode_of};
ghost use Rattle.tracing_tree_drawing.specs.Format.Picture.{continuation_shift, shift_of};

use super::row::{Row, Shape};
use super::text::{after_character, after_repeated, has_line_end, is_bare_text, without_spaces};
use std::alloc::{AllocError, AllocFailed, Global};
use std::marker::Model;
use thiserror::Error;

// A row's first line.
#[derive(Clone, Copy)]
struct FirstLine<'a> {
    shape: Shape,
    level: usize,
    text: &'a str,
}

// The second of two corners, and the shapes whose rows start with both.
#[derive(Clone, Copy)]
struct Corners {
    corner: char,
    plain: Shape,
    parent: Shape,
    verbose: Shape,
}

// Returns what follows `count` `─` and the corner.
fn after_run(text: &str, count: usize, corner: char) -> Option<&str>
    ensures { MatchOption result (after_run count corner text.now ≡ None)
        (λ x. after_run count corner text.now ≡ Some x.now) }
{
    after_character(after_repeated(text, "─", count)?, corner)
}

// Parses a line after the first of two corners. The number of `─` before the second corner shows
// whether it is the row of a span or of a parent. Half an amount of extra spaces shows that it is
// verbose.
fn read_corners(corners: Corners, amount: usize, spaces: usize, text: &str) -> Option<FirstLine<'_>>
    requires amount { 2 ≤ amount }
    requires fits { spaces + 1 < 2 ^ 64 }
    ensures { let wanted = read_corners corners.corner corners.plain corners.parent corners.verbose
        amount spaces text.now in
        MatchOption result (wanted ≡ None)
        (λ x. wanted ≡ Some (one_line_row x.shape x.level x.text.now)) }
{
    let level = spaces / amount;
    if spaces % amount == 0 {
        if let Some(text) = after_run(text, amount - 1, corners.corner) {
            return Some(FirstLine {
                shape: corners.plain,
                level: level + 1,
                text,
            });
        }
        let text = after_run(text, amount / 2 - 1, corners.corner)?;
        return Some(FirstLine {
            shape: corners.parent,
            level,
            text,
        });
    }
    if spaces % amount != amount / 2 {
        return None;
    }
    let text = after_run(text, amount - 1 - amount / 2, corners.corner)?;
    Some(FirstLine {
        shape: corners.verbose,
        level: level + 1,
        text,
    })
}

// Parses a line after a corner at the left edge.
fn read_root(shape: Shape, spaces: usize, text: &str) -> Option<FirstLine<'_>>
    ensures { MatchOption result (read_root shape spaces text.now ≡ None)
        (λ x. read_root shape spaces text.now ≡ Some (one_line_row x.shape x.level x.text.now)) }
{
    if spaces > 0 {
        return None;
    }
    Some(FirstLine {
        shape,
        level: 0,
        text,
    })
}

// Parses a line after a branch.
fn read_event(amount: usize, spaces: usize, text: &str) -> Option<FirstLine<'_>>
    requires amount { 2 ≤ amount }
    requires fits { spaces + 1 < 2 ^ 64 }
    ensures { MatchOption result (read_event amount spaces text.now ≡ None)
        (λ x. read_event amount spaces text.now ≡ Some (one_line_row x.shape x.level x.text.now)) }
{
    if spaces % amount != 0 {
        return None;
    }
    let text = after_repeated(text, "─", amount - 1)?;
    Some(FirstLine {
        shape: Shape::Event,
        level: spaces / amount + 1,
        text,
    })
}

// Parses the first line of a row.
fn read_first(line: &str, amount: usize) -> Option<FirstLine<'_>>
    requires { 2 ≤ amount }
    ensures { MatchOption result (read_first amount line.now ≡ None)
        (λ x. read_first amount line.now ≡ Some (one_line_row x.shape x.level x.text.now)) }
{
    let rest = without_spaces(line);
    let spaces = line.len() - rest.len();
    if let Some(text) = after_character(rest, '┐') {
        return read_root(Shape::OpenRoot, spaces, text);
    }
    if let Some(text) = after_character(rest, '┘') {
        return read_root(Shape::CloseRoot, spaces, text);
    }
    if let Some(text) = after_character(rest, '└') {
        let corners = Corners {
            corner: '┐',
            plain: Shape::Open(false),
            parent: Shape::PreOpen,
            verbose: Shape::Open(true),
        };
        return read_corners(corners, amount, spaces, text);
    }
    if let Some(text) = after_character(rest, '┌') {
        let corners = Corners {
            corner: '┘',
            plain: Shape::Close(false),
            parent: Shape::PostClose,
            verbose: Shape::Close(true),
        };
        return read_corners(corners, amount, spaces, text);
    }
    if let Some(text) = after_character(rest, '├') {
        return read_event(amount, spaces, text);
    }
    if !is_bare_text(line) {
        return None;
    }
    Some(FirstLine {
        shape: Shape::Event,
        level: 0,
        text: line,
    })
}

// Returns by how many levels the rows of this shape are drawn further right.
fn shift(shape: Shape) -> usize
    ensures { result ≡ shift_of (mode_of shape) }
{
    match shape {
        Shape::PreOpen | Shape::PostClose => 1,
        _ => 0,
    }
}

// Returns how many columns right of the branch the bar of a later line is.
fn bar_shift(shape: Shape) -> usize
    ensures { result ≡ continuation_shift (mode_of shape) }
{
    match shape {
        Shape::OpenRoot | Shape::Open(_) => 2,
        Shape::CloseRoot | Shape::Close(_) => 1,
        Shape::PreOpen | Shape::PostClose | Shape::Event => 0,
    }
}

// Returns the text of a later line of a row of this shape and level.
fn read_later(line: &str, amount: usize, shape: Shape, level: usize) -> Option<&str>
    requires { 2 ≤ amount }
    ensures { MatchOption result (read_later amount shape level line.now ≡ None)
        (λ x. read_later amount shape level line.now ≡ Some x.now) }
{
    let rest = without_spaces(line);
    let spaces = line.len() - rest.len();
    let text = after_character(rest, '│')?;
    let before = (level.checked_add(shift(shape))?.checked_sub(1)?).checked_mul(amount)?;
    if spaces != before.checked_add(bar_shift(shape))? {
        return None;
    }
    after_repeated(text, " ", amount)
}

/// The kind of a line, given the rows before it.
#[derive(Drop)]
pub enum Taken {
    /// The first line of a row. Has the row before it, if there is one, which is now complete.
    First(Option<Row>),

    /// A later line of the current row.
    Later,

    /// Not a line of a row.
    Neither,
}

/// A reader of rows, line by line. It holds the last row, which may get more lines.
#[derive(Drop)]
pub struct Reader {
    amount: usize,
    last: Option<Row>,
}

impl Model for Reader {
    ghost use Rattle.std.specs.Prelude.{◌≤◌};
    ghost use Rattle.tracing_tree_drawing.specs.Rows.Texts.{ReaderView};

    ghost Value = { ReaderView };

    ghost view = { λ r. record { amount = r.amount; last = r.last } };

    ghost invariant = { λ r. 2 ≤ r.amount };
}

impl Reader {
    /// Returns a reader of rows that were drawn with this amount. The caller must ensure that it is
    /// 2 or more.
    pub fn new(amount: usize) -> Reader
        requires { 2 ≤ amount }
        ensures { result ≡ record { amount = amount; last = None } }
    {
        Reader { amount, last: None }
    }

    /// Takes the next line, without its line end. A line that contains a line end is `Neither`. The
    /// reader is unchanged after `Neither`.
    ///
    /// # Errors
    ///
    /// `AllocError` if an allocation fails. The reader is unchanged then.
    pub fn take(&mut self, alloc: Global, line: &str) -> Result<Taken, AllocError>
        ensures taken { IsTrue (is_unbroken line.now) →
            TakesTextLine self.old line.now result self.new }
        ensures broken { is_unbroken line.now ≡ false →
            (result ≡ Ok Taken.Neither) × (self.new ≡ self.old) }
    {
        if has_line_end(line) {
            return Ok(Taken::Neither);
        }
        self.take_unbroken(alloc, line)
    }

    // Like `take`, for a line that contains no line end.
    fn take_unbroken(&mut self, alloc: Global, line: &str) -> Result<Taken, AllocError>
        requires { IsTrue (is_unbroken line.now) }
        ensures { TakesTextLine self.old line.now result self.new }
    {
        if self.take_later(alloc, line)? {
            return Ok(Taken::Later);
        }
        let Some(first) = read_first(line, self.amount) else {
            return Ok(Taken::Neither);
        };
        let row = Row::of_line(alloc, first.shape, first.level, first.text)?;
        Ok(Taken::First(self.last.replace(row)))
    }

    // Takes the line if it is a later line of the last row, and returns whether it is.
    fn take_later(&mut self, alloc: Global, line: &str) -> Result<bool, AllocError>
        requires { IsTrue (is_unbroken line.now) }
        ensures { TriesLater self.old line.now result self.new }
    {
        let Some(row) = &mut self.last else {
            return Ok(false);
        };
        let Some(text) = read_later(line, self.amount, row.shape(), row.level()) else {
            return Ok(false);
        };
        row.push(alloc, text)?;
        Ok(true)
    }

    /// Returns the last row, if there is one.
    pub fn finish(self) -> Option<Row>
        ensures { result ≡ self.last }
    {
        let Reader { amount: _, last } = self;
        last
    }
}

/// Why a drawing could not be read.
#[derive(Clone, Copy, Debug, PartialEq, Eq, Error)]
pub enum ReadFault {
    /// The number (from 1) of the first line that isn't a line of a row or has no line end.
    #[error("line {0}: not a row")]
    Line(u64),

    /// An allocation failed.
    #[error("memory")]
    Memory,
}

impl From<AllocError> for ReadFault {
    ghost use Rattle.std.specs.Prelude.{◌≡◌};
    ghost use Rattle.tracing_tree_drawing.specs.declared.rows.read.ReadFault.TheVariants as Fault;

    ghost from_gives = { λ error fault. fault ≡ Fault.Memory };

    fn from(_error: AllocError) -> ReadFault {
        ReadFault::Memory
    }
}

impl<T: Drop> From<AllocFailed<T>> for ReadFault {
    ghost use Rattle.std.specs.Prelude.{◌≡◌};
    ghost use Rattle.tracing_tree_drawing.specs.declared.rows.read.ReadFault.TheVariants as Fault;

    ghost from_gives = { λ error fault. fault ≡ Fault.Memory };

    fn from(_error: AllocFailed<T>) -> ReadFault {
        ReadFault::Memory
    }
}

// A text that is being read.
#[derive(Drop)]
pub(super) struct TextReader<'a> {
    reader: Reader,
    rest: &'a str,
    lines: u64,
}

impl<'a> Model for TextReader<'a> {
    ghost use Rattle.std.specs.Prelude.{◌+◌, ◌<◌, ◌≤◌, ◌^◌, length};
    ghost use Rattle.tracing_tree_drawing.specs.Rows.Texts.{TextLeft};

    ghost Value = { TextLeft };

    ghost view = { λ t. record { reader = t.reader; rest = t.rest.now; lines = t.lines } };

    ghost invariant = { λ t. (2 ≤ t.reader.amount) × (t.lines + length t.rest.now < 2 ^ 64) };
}

impl<'a> TextReader<'a> {
    // Returns a reader before the first line.
    pub(super) fn new(text: &'a str, amount: usize) -> TextReader<'a>
        requires { 2 ≤ amount }
        ensures { result ≡ all_left amount text.now }
    {
        TextReader {
            reader: Reader::new(amount),
            rest: text,
            lines: 0,
        }
    }

    // Takes the next line, if there is one. Never returns `Neither`.
    pub(super) fn take_line(&mut self, alloc: Global) -> Result<Option<Taken>, ReadFault>
        ensures next { (text : List ℕ) (rows : List TextRow) → IsReadTo text rows self.old →
            TakesNext text rows self.old result self.new }
        ensures less { LeavesLess self.old result self.new }
    {
        let Some((line, rest)) = self.rest.split_once('\n') else {
            if self.rest.is_empty() {
                return Ok(None);
            }
            return Err(ReadFault::Line(self.lines + 1));
        };
        let taken = self.reader.take_unbroken(alloc, line)?;
        self.lines += 1;
        self.rest = rest;
        match taken {
            Taken::Neither => Err(ReadFault::Line(self.lines)),
            taken => Ok(Some(taken)),
        }
    }

    // Returns the last row, if there is one.
    pub(super) fn finish(self) -> Option<Row>
        ensures { result ≡ self.entry.reader.last }
    {
        let TextReader {
            reader,
            rest: _,
            lines: _,
        } = self;
        reader.finish()
    }
}

/// Parses a drawing. Drawing the rows yields the same bytes, and no other rows do. The
/// caller must ensure that `amount` is 2 or more.
///
/// ```rust
/// read_rows(alloc, "┐a\n├─ INFO x\n┘\n", 2) // `OpenRoot`, `Event` of level 1, `CloseRoot`
/// ```
///
/// # Errors
///
/// `Line(n)` if line `n` (from 1) is the first that isn't a line of a row or has no line end.
/// `Memory` if an allocation fails.
///
/// A drawing that isn't readable (docs/reference/formats.md, 'Rows and their reader') may be read
/// as other rows than were drawn. Examples are drawings with prefixes, with wrap marks or with
/// another amount.
pub fn read_rows(alloc: Global, text: &str, amount: usize) -> Result<Vec<Row>, ReadFault>
    requires { 2 ≤ amount }
    ensures rows { IfOk result (λ rows. IsOnlyReading amount text.now rows.items) }
    ensures fault { IfErr result (λ fault. ReportsFault amount text.now fault) }
    ensures drawn { IfOk result (λ rows. ReadsDrawing amount text.now rows.items) }
    ensures drawn_fault { IfErr result (λ fault. ReadsNoDrawing amount text.now fault) }
{
    let mut lines = TextReader::new(text, amount);
    let mut rows = Vec::new(alloc);
    while let Some(taken) = lines.take_line(alloc)? {
        if let Taken::First(Some(row)) = taken {
            rows.push(row)?;
        }
    }
    if let Some(row) = lines.finish() {
        rows.push(row)?;
    }
    Ok(rows)
}
