//! One row of a drawing.

ghost use Rattle.std.specs.List.{list_all};
ghost use Rattle.std.specs.Prelude.{◌≡◌, ◌++◌, ◌∷◌, [], true, map, string_bytes, IfOk, OnErr, IsTrue};
ghost use Rattle.tracing_tree_drawing.specs.Rows.Line.{one_line_row, with_line};
ghost use Rattle.tracing_tree_drawing.specs.Rows.RowText.{fits_shape, is_bare_line, is_text_row, is_unbroken, made_row};

use super::text::{has_line_end, is_bare_text};
use std::alloc::{AllocError, Global};
use std::marker::Model;

/// A row's shape. The `bool` says whether the row is verbose. Open and retrace rows have one shape.
#[derive(Clone, Copy, Debug, PartialEq, Eq)]
pub enum Shape {
    /// The parent of a span that opens, shown again.
    PreOpen,

    /// A root that opens.
    OpenRoot,

    /// Another span that opens.
    Open(bool),

    /// A root that closes.
    CloseRoot,

    /// Another span that closes.
    Close(bool),

    /// The parent of a span that closed, shown again.
    PostClose,

    /// An event.
    Event,
}

/// The strings of a row's lines, without frames and line ends. Contracts see them as a list.
#[derive(Drop)]
pub struct Lines {
    inner: Vec<String>,
}

impl Model for Lines {
    ghost use Rattle.std.specs.Prelude.{List, ℕ, map, string_bytes};

    ghost Value = { List (List ℕ) };

    ghost view = { λ l. map (λ s. string_bytes s) l.inner.items };
}

impl Lines {
    /// Returns the strings, in order.
    pub fn as_slice(&self) -> &[String]
        ensures { map (λ s. string_bytes s) result.now ≡ self.now }
    {
        self.inner.as_slice()
    }

    // Appends a line.
    fn push(&mut self, alloc: Global, text: &str) -> Result<(), AllocError>
        ensures ok { IfOk result (λ done. self.new ≡ self.old ++ text.now ∷ []) }
        ensures err { OnErr result (self.new ≡ self.old) }
    {
        let line = String::from_str(alloc, text)?;
        self.inner.push(line)?;
        Ok(())
    }
}

/// Never allocates.
impl From<Vec<String>> for Lines {
    ghost use Rattle.std.specs.Prelude.{◌≡◌, map, string_bytes};

    ghost from_gives = { λ texts lines. lines ≡ map (λ s. string_bytes s) texts.items };

    fn from(inner: Vec<String>) -> Lines {
        Lines { inner }
    }
}

/// Never allocates.
impl From<Lines> for Vec<String> {
    ghost use Rattle.std.specs.Prelude.{◌≡◌, map, string_bytes};

    ghost from_gives = { λ lines texts. map (λ s. string_bytes s) texts.items ≡ lines };

    fn from(lines: Lines) -> Vec<String> {
        let Lines { inner } = lines;
        inner
    }
}

/// A row: its shape, its level and its lines. It has at least one line, and no line contains a line
/// end.
#[derive(Drop)]
pub struct Row {
    shape: Shape,
    level: usize,
    lines: Lines,
}

impl Model for Row {
    ghost use Rattle.std.specs.Prelude.{IsTrue};
    ghost use Rattle.tracing_tree_drawing.specs.Rows.RowText.{TextRow, is_text_row};

    ghost Value = { TextRow };

    ghost view = { λ r. record { shape = r.shape; level = r.level; lines = r.lines } };

    ghost invariant = { λ r. IsTrue (is_text_row (record {
      shape = r.shape;
      level = r.level;
      lines = r.lines;
    })) };
}

impl Row {
    /// Returns the row of this shape and level with these lines, or `None` if they don't fit.
    /// Never allocates.
    ///
    /// A row has at least one line, and no line contains a line end. `OpenRoot` and `CloseRoot`
    /// have level 0 and one line. `Open` and `Close` have level 1 or more. An `Event` at level 0
    /// has one line. It contains a character other than a space, and the first one isn't any of
    /// `┐┘└┌├│`.
    pub fn new(shape: Shape, level: usize, lines: Vec<String>) -> Option<Row>
        ensures { result ≡ made_row (record {
          shape = shape;
          level = level;
          lines = map (λ s. string_bytes s) lines.items;
        }) }
    {
        if !is_row(shape, level, lines.as_slice()) {
            return None;
        }
        Some(Row {
            shape,
            level,
            lines: Lines::from(lines),
        })
    }

    /// Returns the row's shape.
    pub fn shape(&self) -> Shape
        ensures shape { result ≡ self.now.shape }
        ensures proper { IsTrue (is_text_row self.now) }
    {
        self.shape
    }

    /// Returns the row's level: that of the span that it shows, or the number of spans that an
    /// event is nested in.
    pub fn level(&self) -> usize
        ensures { result ≡ self.now.level }
    {
        self.level
    }

    /// Returns the strings of the row's lines.
    pub fn lines(&self) -> &Lines
        ensures lines { result.now ≡ self.now.lines }
        ensures proper { IsTrue (is_text_row self.now) }
    {
        &self.lines
    }

    // Makes a row of one line.
    pub(super) fn of_line(
        alloc: Global,
        shape: Shape,
        level: usize,
        text: &str,
    ) -> Result<Row, AllocError>
        requires { IsTrue (is_text_row (one_line_row shape level text.now)) }
        ensures { IfOk result (λ row. row ≡ one_line_row shape level text.now) }
    {
        let line = String::from_str(alloc, text)?;
        let mut lines = Vec::with_capacity(alloc, 1)?;
        lines.push(line)?;
        Ok(Row {
            shape,
            level,
            lines: Lines::from(lines),
        })
    }

    // Appends a line.
    pub(super) fn push(&mut self, alloc: Global, text: &str) -> Result<(), AllocError>
        requires { IsTrue (is_text_row (with_line self.old text.now)) }
        ensures ok { IfOk result (λ done. self.new ≡ with_line self.old text.now) }
        ensures err { OnErr result (self.new ≡ self.old) }
    {
        self.lines.push(alloc, text)
    }
}

// Returns whether a row may have this shape, this level and these lines.
fn is_row(shape: Shape, level: usize, lines: &[String]) -> bool
    ensures { result ≡ is_text_row (record {
      shape = shape;
      level = level;
      lines = map (λ s. string_bytes s) lines.now;
    }) }
{
    if lines.is_empty() || !are_unbroken(lines) {
        return false;
    }
    fits_shape(shape, level, lines)
}

// Returns whether no line contains a line end.
fn are_unbroken(lines: &[String]) -> bool
    ensures { result ≡ list_all (λ s. is_unbroken (string_bytes s)) lines.now }
{
    lines.iter().all(|line| !has_line_end(line.as_str()))
}

// Returns whether a row of this shape may have this level and these lines.
fn fits_shape(shape: Shape, level: usize, lines: &[String]) -> bool
    ensures { result ≡ fits_shape shape level (map (λ s. string_bytes s) lines.now) }
{
    match shape {
        Shape::PreOpen | Shape::PostClose => true,
        Shape::OpenRoot | Shape::CloseRoot => level == 0 && lines.len() == 1,
        Shape::Open(_) | Shape::Close(_) => level >= 1,
        Shape::Event => level >= 1 || is_bare_line(lines),
    }
}

// Returns whether there is one line, and it is an event's at level 0.
fn is_bare_line(lines: &[String]) -> bool
    ensures { result ≡ is_bare_line (map (λ s. string_bytes s) lines.now) }
{
    match lines {
        [line] => is_bare_text(line.as_str()),
        _ => false,
    }
}
