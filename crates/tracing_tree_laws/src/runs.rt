//! Runs of calls.

ghost use Rattle.std.specs.Prelude.{◌||◌, IsTrue, List, Ok, Option};
ghost use Rattle.tracing_tree_base.specs.declared.context.Id.{Id};
ghost use Rattle.tracing_tree_drawing.specs.Format.Settings.{Settings, retraces};
ghost use Rattle.tracing_tree_layer.specs.declared.call.Call.{Call};
ghost use Rattle.tracing_tree_layer.specs.declared.call.Reply.{Reply};
ghost use Rattle.tracing_tree_layer.specs.Laws.Ancestors.{AncestorsLaw};
ghost use Rattle.tracing_tree_layer.specs.Laws.Reading.{run_is_on_path};
ghost use Rattle.tracing_tree_layer.specs.Layered.Answered.{IsAnswered};
ghost use Rattle.tracing_tree_layer.specs.Layered.Headline.{Continues};
ghost use Rattle.tracing_tree_layer.specs.Layered.Seen.{Seen};
ghost use Rattle.tracing_tree_layer.specs.Layered.State.{opening_state};
ghost use Rattle.tracing_tree_time.specs.Clock.{Timer};

/// An accepted call extends any run that led to the state before it. With the call, the run leads
/// to the state after it, with its rows and its reply, and the output grows by the drawing of its
/// rows.
pub fn an_accepted_call_makes_runs_longer()
    ensures { (call : Call) (reply : Reply) (old new : Seen) → IsAnswered call (Ok reply) old new
        → Continues call reply old new }
{}

/// The drawing of a run that began empty shows for each event in its current span the place of a
/// row that opens each span on its path. This needs `span_retrace` or `deferred_spans`. It also
/// needs `close_retrace`, or that each close is on the current branch.
pub fn a_drawing_shows_ancestors()
    ensures { (settings : Settings) (timer : Timer) (first : Option Id) (calls : List Call) →
        IsTrue (retraces settings) →
        IsTrue (settings.close_retrace || run_is_on_path settings timer (opening_state first) calls)
        → AncestorsLaw settings timer first calls }
{}
