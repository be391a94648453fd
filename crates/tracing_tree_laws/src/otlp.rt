//! OTLP in JSON: the order of an input's lines.

ghost use Rattle.std.specs.Prelude.{◌≡◌, ℕ, IsPermutation, List, None};
ghost use Rattle.std.specs.Str.Lines.{lines};
ghost use Rattle.json.specs.Json.{document};
ghost use Rattle.tracing_tree_base.specs.declared.context.Moment.{Moment};
ghost use Rattle.tracing_tree_layer.specs.declared.call.Call.{Call};
ghost use Rattle.ttree_otlp.specs.Gather.{gathered_in};
ghost use Rattle.ttree_otlp.specs.Otlp.{AreCallsOf};
ghost use Rattle.ttree_otlp.specs.Ties.{HaveNoSpaces, HaveNoTies};
ghost use Rattle.ttree_otlp.specs.declared.select.Selection.{Selection};

/// The order of an input's lines doesn't matter: two inputs with the same lines, in any order, are
/// drawn by the same calls. Neither input as a whole is one value, so each line is one or is
/// skipped.
///
/// Rows of different lines may not tie, unless they are the same row. Two rows of one span tie if
/// they have one time and both are events or logs, or both are spans whose ids end in one number.
/// Rows of one line may tie, and keep their order. No trace's id has a space.
pub fn lines_can_be_in_any_order()
    ensures { (next : ℕ) (moment : Moment) (selection : Selection) (one other : List ℕ)
        (calls other_calls : List Call) → document one ≡ None → document other ≡ None →
        IsPermutation (lines one) (lines other) → HaveNoSpaces (lines one) →
        HaveNoTies (lines one) → AreCallsOf next moment selection (gathered_in one) calls →
        AreCallsOf next moment selection (gathered_in other) other_calls → calls ≡ other_calls }
{}
