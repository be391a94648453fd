//! Tracers over a registry with a layer.

ghost use Rattle.tracing_tree_layer.specs.Layered.Answered.{IsAnswered};
ghost use Rattle.tracing_tree_layer.specs.Layer.Layers.{Changes, seen};
ghost use Rattle.tracing_tree_tracer.specs.Tracers.{IsOpened};
ghost use Rattle.tracing_tree_tracer.specs.Values.{fields_of};

use tracing_tree::Layered;
use tracing_tree::format::{Id, Output};
use tracing_tree::time::FormatTime;
use tracing_tree::tracer::{Now, TraceFault, Tracer, Value};

/// Opens a span by a tracer over a registry with a layer. Its call is answered like
/// `Layered::call`. So are the calls of the tracer's other methods, since each of their contracts
/// says what `Calls` says of a `Layered`.
pub fn open_on_layered<W: Output, FT: FormatTime, N: Now>(
    tracer: &mut Tracer<Layered<W, FT>, N>,
    name: &str,
    fields: &[(&str, Value<'_>)],
) -> Result<Id, TraceFault>
    ensures { IsOpened (λ call answer old new. Changes (seen FT.FormatTime W.Output) (IsAnswered
        call answer) old new) N.reads name.now (fields_of fields.now) result tracer.old tracer.new }
{
    tracer.open(name, fields)
}
