//! The frames of lines.

ghost use Rattle.std.specs.Prelude.{ℕ, ◌≡◌};
ghost use Rattle.tracing_tree_drawing.specs.Format.Picture.{lined_frame};
ghost use Rattle.tracing_tree_drawing.specs.declared.format.SpanMode.{SpanMode};
ghost use Rattle.tracing_tree_laws.specs.Columns.{columns_text, lined_columns};

/// If rows are drawn with lines, the frame of a line is its columns joined. `lined_columns`
/// says how many there are, and which character each of them has.
pub fn frames_are_their_columns()
    ensures { (mode : SpanMode) (amount wrapped place : ℕ) →
        lined_frame mode amount wrapped place
        ≡ columns_text (lined_columns mode amount wrapped place) }
{}
