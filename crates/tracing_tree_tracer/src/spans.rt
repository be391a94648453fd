//! Values with open spans.

ghost use Rattle.std.specs.Prelude.{◌≡◌};
ghost use Rattle.tracing_tree_tracer.specs.Values.{fields_of};

use crate::tracer::TraceFault;
use crate::value::Value;
use tracing_tree_base::Id;

/// A value whose spans open and close, such as a `Tracer`.
pub trait Spans {
    ghost use Rattle.std.specs.Prelude.{ℕ, List, Result};
    ghost use Rattle.tracing_tree_base.specs.declared.context.Id.{Id};
    ghost use Rattle.tracing_tree_base.specs.declared.field.Field.{Field};
    ghost use Rattle.tracing_tree_tracer.specs.declared.tracer.TraceFault.{TraceFault};

    /// The number of open spans.
    ghost depth_of: { Self → ℕ };

    /// The result and the effect of opening a span with this name and these fields.
    ghost opens: { List ℕ → List Field → Result Id TraceFault → Self → Self → Type 0 };

    /// The result and the effect of closing all open spans except this number of them.
    ghost closes_to: { ℕ → Result (Unit {0}) TraceFault → Self → Self → Type 0 };

    /// Returns the number of open spans.
    fn depth(&self) -> usize
        ensures { result ≡ depth_of self.now };

    /// Opens a span in the current one, and returns its id.
    fn open(&mut self, name: &str, fields: &[(&str, Value<'_>)]) -> Result<Id, TraceFault>
        ensures { opens name.now (fields_of fields.now) result self.old self.new };

    /// Closes spans, innermost first, until at most `depth` are open.
    fn close_to(&mut self, depth: usize) -> Result<(), TraceFault>
        ensures { closes_to depth result self.old self.new };
}
