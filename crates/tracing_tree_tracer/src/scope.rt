//! Runs a closure in a span, which always closes.

ghost use Rattle.std.specs.Fn.{FnOnceReturnsAtMut};
ghost use Rattle.tracing_tree_tracer.specs.Values.{fields_of};
ghost use Rattle.tracing_tree_tracer.specs.Within.{IsDoneWithin};

use crate::spans::Spans;
use crate::tracer::TraceFault;
use crate::value::Value;

/// Opens a span, calls `body` in it, and closes the span when `body` returns, even on an error.
/// Spans that `body` left open are closed first.
///
/// # Errors
///
/// Returns the error of `body` if it failed, otherwise the fault of the open or of the closes. If
/// the span can't be opened, `body` isn't called.
pub fn within<S: Spans, T: Drop, E: From<TraceFault>, F: FnOnce(&mut S) -> Result<T, E>>(
    spans: &mut S,
    name: &str,
    fields: &[(&str, Value<'_>)],
    body: F,
) -> Result<T, E>
    requires { F.IsAlwaysCallable body }
    ensures { IsDoneWithin E.from_gives S.Spans (FnOnceReturnsAtMut F.FnOnce body) name.now
        (fields_of fields.now) result spans.old spans.new }
{
    let depth = spans.depth();
    spans.open(name, fields)?;
    let answer = body(spans);
    let closed = spans.close_to(depth);
    match (answer, closed) {
        (Ok(value), Ok(())) => Ok(value),
        (Ok(_), Err(fault)) => Err(E::from(fault)),
        (Err(error), _) => Err(error),
    }
}
