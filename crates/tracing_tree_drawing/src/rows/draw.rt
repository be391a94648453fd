//! Draws rows from their lines.

ghost use Rattle.std.specs.Prelude.{◌≡◌, ◌++◌, ◌≤◌, false, OnOk, IsTrue, string_bytes};
ghost use Rattle.tracing_tree_drawing.specs.Rows.RowText.{is_row_too_wide, is_text_row, mode_of, row_text};
ghost use Rattle.tracing_tree_drawing.specs.Rows.DrawRows.{AnswersText, are_too_wide};

use super::row::{Row, Shape};
use crate::format::{SpanMode, push_frame};
use std::alloc::{AllocError, Global};
use thiserror::Error;

/// Why rows could not be drawn.
#[derive(Clone, Copy, Debug, PartialEq, Eq, Error)]
pub enum DrawFault {
    /// A row is too far right: its level, or one more for a parent's row, or that number times the
    /// amount exceeds `usize::MAX`.
    #[error("too wide")]
    TooWide,

    /// An allocation failed.
    #[error("memory")]
    Memory,
}

impl From<AllocError> for DrawFault {
    ghost use Rattle.std.specs.Prelude.{◌≡◌};
    ghost use Rattle.tracing_tree_drawing.specs.declared.rows.draw.DrawFault.TheVariants as Fault;

    ghost from_gives = { λ error fault. fault ≡ Fault.Memory };

    fn from(_error: AllocError) -> DrawFault {
        DrawFault::Memory
    }
}

/// Returns the drawing of rows, with `amount` columns per level. The caller must ensure that
/// `amount` is 2 or more.
///
/// # Errors
///
/// `TooWide` if any row is too wide. `Memory` if an allocation fails.
pub fn draw_rows(alloc: Global, rows: &[Row], amount: usize) -> Result<String, DrawFault>
    requires { 2 ≤ amount }
    ensures { AnswersText amount rows.now result }
{
    if are_too_wide(rows, amount) {
        return Err(DrawFault::TooWide);
    }
    let mut text = String::new(alloc);
    for row in rows {
        draw_row(&mut text, row, amount)?;
    }
    Ok(text)
}

// Returns whether one of the rows is too wide.
fn are_too_wide(rows: &[Row], amount: usize) -> bool
    ensures { result ≡ are_too_wide amount rows.now }
{
    rows.iter().any(|row| is_too_wide(row, amount))
}

// Returns whether a row's level or its width exceeds `usize::MAX`.
fn is_too_wide(row: &Row, amount: usize) -> bool
    ensures { result ≡ is_row_too_wide amount row.now }
{
    let used = match row.shape() {
        Shape::PreOpen | Shape::PostClose => row.level().checked_add(1),
        _ => Some(row.level()),
    };
    used.and_then(|used| used.checked_mul(amount)).is_none()
}

// Appends the lines of a row.
fn draw_row(out: &mut String, row: &Row, amount: usize) -> Result<(), AllocError>
    requires { is_row_too_wide amount row.now ≡ false }
    ensures text { OnOk result (string_bytes out.new
        ≡ string_bytes out.old ++ row_text amount row.now) }
    ensures proper { IsTrue (is_text_row row.now) }
{
    let mode = mode_of(row.shape());
    let level = row.level();
    let mut first = true;
    for line in row.lines().as_slice() {
        push_frame(out, mode, level, amount, first)?;
        out.push_str(line.as_str())?;
        out.push_str("\n")?;
        first = false;
    }
    Ok(())
}

// Returns the mode of the rows of this shape. Open and retrace rows have one shape.
fn mode_of(shape: Shape) -> SpanMode
    ensures { result ≡ mode_of shape }
{
    match shape {
        Shape::PreOpen => SpanMode::PreOpen,
        Shape::OpenRoot => SpanMode::Open { verbose: false },
        Shape::Open(verbose) => SpanMode::Open { verbose },
        Shape::CloseRoot => SpanMode::Close { verbose: false },
        Shape::Close(verbose) => SpanMode::Close { verbose },
        Shape::PostClose => SpanMode::PostClose,
        Shape::Event => SpanMode::Event,
    }
}
