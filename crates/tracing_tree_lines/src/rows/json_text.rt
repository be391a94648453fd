//! Reads the rows of a drawing and writes them as lines of JSON, row by row.

ghost use Rattle.std.specs.Prelude.{◌≡◌, ◌≤◌, ◌<◌, ◌+◌, ◌++◌, ◌∷◌, ◌^◌, ℕ, List, [], Option, Some, OnOk, IfSome, map, false, string_bytes, length};
ghost use Rattle.serde_json.specs.Data.{string};
ghost use Rattle.serde_json.specs.Written.{compact_text, items_text};
ghost use Rattle.tracing_tree_lines.specs.Lines.Reads.{HasNoLineEnd};
ghost use Rattle.tracing_tree_lines.specs.Rows.Json.{WritesDrawing, WritesRows, place_items, place_value, row_json, shape_name, text_items};
ghost use Rattle.tracing_tree_lines.specs.Rows.JsonSteps.{HasWritten, ReadsRowLine, ReadsRowLines, SoFar, TakesRowLine, WritesNext, WritesText, ancestors_text, drops_last, fault_at, level_json, shape_text};
ghost use Rattle.tracing_tree_drawing.specs.Rows.RowText.{TextRow};

use crate::lines::read::read_ended;
use crate::lines::{BLOCK, LineCause};
use std::alloc::{AllocError, AllocFailed, Global};
use std::io::{BufRead, BufReader, Read, Write};
use std::{fmt, str};
use thiserror::Error;
use tracing_tree_drawing::rows::{Ancestry, EventPath, Places, Reader, Row, Shape, Taken};
use tracing_tree_output::write_tried;

/// Why the reading of a drawing ended.
#[derive(Clone, Copy, Debug, PartialEq, Eq, Error)]
pub enum RowCause {
    /// The line isn't a line of a row, isn't UTF-8, or has no line end.
    #[error("not a row")]
    NotARow,

    /// The input could not be read.
    #[error("read")]
    Read,

    /// An allocation failed.
    #[error("memory")]
    Memory,

    /// The rows could not be written.
    #[error("writer")]
    Writer,
}

impl From<AllocError> for RowCause {
    ghost use Rattle.std.specs.Prelude.{◌≡◌};
    ghost use Rattle.tracing_tree_lines.specs.declared.rows.json_text.RowCause.TheVariants as Cause;

    ghost from_gives = { λ _ cause. cause ≡ Cause.Memory };

    fn from(_error: AllocError) -> RowCause {
        RowCause::Memory
    }
}

impl<T: Drop> From<AllocFailed<T>> for RowCause {
    ghost use Rattle.std.specs.Prelude.{◌≡◌};
    ghost use Rattle.tracing_tree_lines.specs.declared.rows.json_text.RowCause.TheVariants as Cause;

    ghost from_gives = { λ _ cause. cause ≡ Cause.Memory };

    fn from(_error: AllocFailed<T>) -> RowCause {
        RowCause::Memory
    }
}

/// The line that ended the reading of a drawing, and why. It is displayed as `line N: CAUSE`.
#[derive(Clone, Copy, Debug, PartialEq, Eq)]
pub struct RowFault {
    /// The line's number, from 1.
    pub line: u64,

    /// Why it ended there.
    pub cause: RowCause,
}

impl fmt::Display for RowFault {
    fn fmt<W: fmt::Write>(&self, f: &mut fmt::Formatter<W>) -> fmt::Result {
        let line = self.line;
        let cause = self.cause;
        write!(f, "line {line}: {cause}")
    }
}

/// Reads a drawing and writes one line of JSON for each row: what `read_rows` returns, and for
/// events the places that `read_paths` returns. It keeps one row, one line and the places of the
/// open levels. The caller must ensure that `amount` is 2 or more.
///
/// A read or a write that is interrupted is tried again at most eight times in a row.
///
/// # Errors
///
/// - `NotARow` at the first line that isn't a line of a row, isn't UTF-8 or has no line end. All
///   rows before that line have been written.
/// - `Read` if a read fails or is interrupted for the ninth time. It is also the cause after 2^64 -
///   1 reads of a line that doesn't end, and at line number 2^64 - 1, which isn't judged. All rows
///   before the line have been written.
/// - `Writer` if a write fails. The last row before the line isn't written then, but a first part
///   of its JSON may be.
/// - `Memory` if an allocation fails. The last row before the line isn't written then. If the
///   buffer of the input can't be allocated, this is at line 1.
pub fn rows_to_json<R: Read, W: Write>(
    alloc: Global,
    reader: R,
    writer: &mut W,
    amount: usize,
) -> Result<(), RowFault>
where
    R: Drop,
    requires { 2 ≤ amount }
    ensures rows { IfSome (R.remaining reader) (λ input.
        WritesRows amount input result (W.contents writer.old) (W.contents writer.new)) }
    ensures drawn { IfSome (R.remaining reader) (λ input.
        WritesDrawing amount input result (W.contents writer.old) (W.contents writer.new)) }
{
    let Ok(mut input) = BufReader::with_capacity(alloc, BLOCK, reader) else {
        return Err(RowFault {
            line: 1,
            cause: RowCause::Memory,
        });
    };
    let mut rows = RowsRead {
        alloc,
        reader: Reader::new(amount),
        json: JsonRows {
            ancestry: Ancestry::new(alloc),
            place: 0,
            text: String::new(alloc),
        },
    };
    let ended = rows.read_lines(&mut input, writer);
    rows.finish(ended, writer)
}

// Where the reading of lines ended: at the end of the input, or at this line with a cause.
struct Ended {
    line: u64,
    cause: Option<RowCause>,
}

// A drawing that is being read, and the rows that are written.
#[derive(Drop)]
struct RowsRead {
    alloc: Global,
    reader: Reader,
    json: JsonRows,
}

impl RowsRead {
    // Reads the lines, and writes each complete row.
    fn read_lines<B: BufRead, W: Write>(&mut self, input: &mut B, writer: &mut W) -> Ended
        ensures { (amount : ℕ) (text rest : List ℕ) (start : Option (List ℕ)) →
            B.remaining input.old ≡ Some rest →
            SoFar amount text start 0 rest self.old (W.contents writer.old) →
            ReadsRowLines amount text start result self.new (W.contents writer.new) }
    {
        let mut line = Vec::new(self.alloc);
        for number in 1..u64::MAX {
            match self.read_line(input, &mut line, writer) {
                Ok(true) => {}
                Ok(false) => {
                    return Ended {
                        line: number,
                        cause: None,
                    };
                }
                Err(cause) => {
                    return Ended {
                        line: number,
                        cause: Some(cause),
                    };
                }
            }
        }
        Ended {
            line: u64::MAX,
            cause: Some(RowCause::Read),
        }
    }

    // Reads a line, and writes the row before it if that is complete. Returns whether there was a
    // line.
    fn read_line<B: BufRead, W: Write>(
        &mut self,
        input: &mut B,
        line: &mut Vec<u8>,
        writer: &mut W,
    ) -> Result<bool, RowCause>
        ensures { (amount : ℕ) (text rest : List ℕ) (start : Option (List ℕ)) (count : ℕ) →
            count + 1 < 2 ^ 64 → B.remaining input.old ≡ Some rest →
            SoFar amount text start count rest self.old (W.contents writer.old) →
            ReadsRowLine amount text start count (B.remaining input.new) result
            self.new (W.contents writer.new) }
    {
        let ended = match read_ended(input, line) {
            Ok(ended) => ended,
            Err(LineCause::Memory) => return Err(RowCause::Memory),
            Err(_) => return Err(RowCause::Read),
        };
        if ended {
            self.take_line(line.as_slice(), writer)?;
            return Ok(true);
        }
        if line.is_empty() {
            return Ok(false);
        }
        Err(RowCause::NotARow)
    }

    // Takes a line that had a line end, and writes the row before it if that is complete.
    fn take_line<W: Write>(&mut self, line: &[u8], writer: &mut W) -> Result<(), RowCause>
        ensures { (amount : ℕ) (text after : List ℕ) (start : Option (List ℕ)) (count : ℕ) →
            count + 1 < 2 ^ 64 → HasNoLineEnd line.now →
            SoFar amount text start count (line.now ++ 10 ∷ after)
            self.old (W.contents writer.old) →
            TakesRowLine amount text start count after result
            self.new (W.contents writer.new) }
    {
        let Ok(text) = str::from_utf8(line) else {
            return Err(RowCause::NotARow);
        };
        match self.reader.take(self.alloc, text)? {
            Taken::Neither => Err(RowCause::NotARow),
            Taken::First(Some(row)) => self.json.write(self.alloc, &row, writer),
            Taken::First(None) => Ok(()),
            Taken::Later => Ok(()),
        }
    }

    // Writes the last row, unless the rows before it could not be written.
    fn finish<W: Write>(self, ended: Ended, writer: &mut W) -> Result<(), RowFault>
        ensures { (amount : ℕ) (text : List ℕ) (start : Option (List ℕ)) →
            ReadsRowLines amount text start ended self (W.contents writer.old) →
            WritesRows amount text result start (W.contents writer.new) }
    {
        let RowsRead {
            alloc,
            reader,
            mut json,
        } = self;
        let Ended { line, cause } = ended;
        if drops_last(cause) {
            return fault_at(line, cause);
        }
        let Some(row) = reader.finish() else {
            return fault_at(line, cause);
        };
        match json.write(alloc, &row, writer) {
            Ok(()) => fault_at(line, cause),
            Err(cause) => Err(RowFault { line, cause }),
        }
    }
}

// Returns whether the last row isn't written after this cause.
fn drops_last(cause: Option<RowCause>) -> bool
    ensures { result ≡ drops_last cause }
{
    match cause {
        Some(RowCause::Memory | RowCause::Writer) => true,
        Some(RowCause::NotARow | RowCause::Read) | None => false,
    }
}

// Returns the fault of this cause at this line, if there is one.
fn fault_at(line: u64, cause: Option<RowCause>) -> Result<(), RowFault>
    ensures { result ≡ fault_at line cause }
{
    match cause {
        Some(cause) => Err(RowFault { line, cause }),
        None => Ok(()),
    }
}

// Rows that are written as lines of JSON.
#[derive(Drop)]
struct JsonRows {
    ancestry: Ancestry,
    place: usize,
    text: String,
}

impl JsonRows {
    // Writes the next row.
    fn write<W: Write>(&mut self, alloc: Global, row: &Row, writer: &mut W) -> Result<(), RowCause>
        ensures { (start : Option (List ℕ)) (rows : List TextRow) → length rows + 1 < 2 ^ 64 →
            HasWritten start rows self.old (W.contents writer.old) →
            WritesNext start rows row.now result self.new (W.contents writer.new) }
    {
        let path = self.ancestry.take(alloc, self.place, row)?;
        // Each row is read from at least one line, and there are fewer than 2^64 lines.
        self.place = self.place.saturating_add(1);
        self.text.clear();
        push_row_json(alloc, &mut self.text, row, &path)?;
        write_text(writer, self.text.as_bytes())
    }
}

// Writes a string in as many writes as necessary.
fn write_text<W: Write>(writer: &mut W, text: &[u8]) -> Result<(), RowCause>
    ensures { WritesText text.now result (W.contents writer.old) (W.contents writer.new) }
{
    let mut rest = text;
    while !rest.is_empty() {
        let Some(taken) = write_tried(writer, rest) else {
            return Err(RowCause::Writer);
        };
        rest = &rest[taken..];
    }
    Ok(())
}

// Appends the line of a row, with the path of its event.
fn push_row_json(
    alloc: Global,
    out: &mut String,
    row: &Row,
    path: &Option<EventPath>,
) -> Result<(), AllocError>
    ensures { OnOk result
        (string_bytes out.new ≡ string_bytes out.old ++ (row_json row.now path.now ++ 10 ∷ [])) }
{
    push_shape(out, row.shape())?;
    push_level_json(out, row.level())?;
    push_texts(alloc, out, row.lines().as_slice())?;
    push_ancestors(out, path)?;
    out.push_str("}\n")
}

// Appends the first part of a row's object: the shape, and whether the row is verbose if its shape
// says so.
fn push_shape(out: &mut String, shape: Shape) -> Result<(), AllocError>
    ensures { OnOk result (string_bytes out.new ≡ string_bytes out.old ++ shape_text shape) }
{
    let name = shape_name(shape);
    write!(out, "{{\"shape\":\"{name}\"")?;
    if let Shape::Open(verbose) | Shape::Close(verbose) = shape {
        write!(out, ",\"verbose\":{verbose}")?;
    }
    Ok(())
}

// Appends the level, and the start of the array of lines.
fn push_level_json(out: &mut String, level: usize) -> Result<(), AllocError>
    ensures { OnOk result (string_bytes out.new ≡ string_bytes out.old ++ level_json level) }
{
    write!(out, ",\"level\":{level},\"lines\":[")
}

// Appends the items of an array of strings, and its end.
fn push_texts(alloc: Global, out: &mut String, texts: &[String]) -> Result<(), AllocError>
    ensures { OnOk result (string_bytes out.new
        ≡ string_bytes out.old
        ++ items_text false (text_items (map (λ s. string_bytes s) texts.now))) }
{
    let mut first = true;
    for text in texts {
        if !first {
            out.push_str(",")?;
        }
        first = false;
        push_text(alloc, out, text.as_str())?;
    }
    out.push_str("]")
}

// Appends a string in quotes.
fn push_text(alloc: Global, out: &mut String, text: &str) -> Result<(), AllocError>
    ensures { OnOk result
        (string_bytes out.new ≡ string_bytes out.old ++ compact_text (string text.now)) }
{
    let Ok(quoted) = serde_json::to_string(alloc, &text) else {
        return Err(AllocError);
    };
    out.push_str(quoted.as_str())
}

// Appends the ancestors of an event, if there is one.
fn push_ancestors(out: &mut String, path: &Option<EventPath>) -> Result<(), AllocError>
    ensures { OnOk result
        (string_bytes out.new ≡ string_bytes out.old ++ ancestors_text path.now) }
{
    if let Some(path) = path {
        out.push_str(",\"ancestors\":[")?;
        push_places(out, &path.ancestors)?;
    }
    Ok(())
}

// Appends the items of an array of places, and its end.
fn push_places(out: &mut String, places: &Places) -> Result<(), AllocError>
    ensures { OnOk result (string_bytes out.new
        ≡ string_bytes out.old ++ items_text false (place_items places.now)) }
{
    let mut first = true;
    for place in places.as_slice() {
        if !first {
            out.push_str(",")?;
        }
        first = false;
        push_place(out, *place)?;
    }
    out.push_str("]")
}

// Appends a place, or `null`.
fn push_place(out: &mut String, place: Option<usize>) -> Result<(), AllocError>
    ensures { OnOk result (string_bytes out.new
        ≡ string_bytes out.old ++ compact_text (place_value place)) }
{
    match place {
        Some(place) => write!(out, "{place}"),
        None => out.push_str("null"),
    }
}

// Returns the name of a shape, without its `bool`.
fn shape_name(shape: Shape) -> &'static str
    ensures { result.now ≡ shape_name shape }
{
    match shape {
        Shape::PreOpen => "PreOpen",
        Shape::OpenRoot => "OpenRoot",
        Shape::Open(_) => "Open",
        Shape::CloseRoot => "CloseRoot",
        Shape::Close(_) => "Close",
        Shape::PostClose => "PostClose",
        Shape::Event => "Event",
    }
}
