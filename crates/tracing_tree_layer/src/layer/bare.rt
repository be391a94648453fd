//! Calls on a layer without a registry, over live spans that are stored elsewhere.

ghost use Rattle.std.specs.Prelude.{◌≡◌, IfOk, length};
ghost use Rattle.tracing_tree_spans.specs.Registry.Forest.{unless_live, if_live, path_of_any};
ghost use Rattle.tracing_tree_layer.specs.Layer.Layers.{seen, Changes};
ghost use Rattle.tracing_tree_layer.specs.Layer.Bare.{on_new_span, on_record, on_event, on_close, IsBareAnswered, IsChecked};

use super::HierarchicalLayer;
use std::alloc::{AllocError, Global};
use tracing_tree_base::{Context, Id, Refusal};
use tracing_tree_output::Output;
use tracing_tree_spans::registry::{Event, LookupSpan, Record};
use tracing_tree_time::FormatTime;

/// A layer can be called without a [`Layered`](crate::Layered), over any [`LookupSpan`]. The caller
/// then makes and removes the spans.
///
/// # Errors
///
/// After a call was refused for the timer or the writer, each call is refused with `Failed`. After
/// every other refusal the spans, their marks and the last span are unchanged, and nothing was
/// written. After `Writer` a first part of the call's output may have been written.
impl<W: Output, FT: FormatTime> HierarchicalLayer<W, FT> {
    /// Draws a span that was just made. (`on_new_span` of the Rust crate.)
    ///
    /// # Errors
    ///
    /// `NotHeld` if the span isn't live. `TooWide`, `Memory`, `Writer` and `Failed`, as for
    /// [`Layered::call`](crate::Layered::call).
    pub fn on_new_span<S: LookupSpan>(
        &mut self,
        id: Id,
        spans: &mut S,
        context: &Context,
    ) -> Result<(), Refusal>
        ensures { Changes (seen FT.FormatTime W.Output)
            (IsBareAnswered (on_new_span id context.now) result)
            (record { forest = S.forest spans.old; layer = self.old })
            (record { forest = S.forest spans.new; layer = self.new }) }
    {
        self.check(id, spans)?;
        self.write_new_span(id, spans, context)
    }

    /// Appends the fields to those of the span, and draws nothing. An id that isn't live is
    /// accepted, and nothing happens. (`on_record` of the Rust crate.)
    ///
    /// # Errors
    ///
    /// `Memory` if an allocation fails. `Failed` after a fault.
    pub fn on_record<S: LookupSpan>(
        &mut self,
        id: Id,
        values: &Record,
        spans: &mut S,
    ) -> Result<(), Refusal>
        ensures { Changes (seen FT.FormatTime W.Output)
            (IsBareAnswered (on_record id values.now) result)
            (record { forest = S.forest spans.old; layer = self.old })
            (record { forest = S.forest spans.new; layer = self.new }) }
    {
        if self.failed {
            return Err(Refusal::Failed);
        }
        if spans.span(id).is_none() {
            return Ok(());
        }
        spans.record(id, values.fields.clone()?)?;
        Ok(())
    }

    /// Draws an event. (`on_event` of the Rust crate.)
    ///
    /// # Errors
    ///
    /// `TooWide`, `Timer`, `Memory`, `Writer` and `Failed`, as for
    /// [`Layered::call`](crate::Layered::call).
    pub fn on_event<S: LookupSpan>(
        &mut self,
        event: &Event,
        spans: &mut S,
        context: &Context,
    ) -> Result<(), Refusal>
        ensures { Changes (seen FT.FormatTime W.Output)
            (IsBareAnswered (on_event event.now context.now) result)
            (record { forest = S.forest spans.old; layer = self.old })
            (record { forest = S.forest spans.new; layer = self.new }) }
    {
        if self.failed {
            return Err(Refusal::Failed);
        }
        let parent = event.parent.named(context.current);
        let depth = depth(*self.page.allocator(), spans, parent)?;
        self.write_event(event, None, depth, spans, context)
    }

    /// Draws the close of this span. The span stays live: the caller removes it afterwards.
    /// (`on_close` of the Rust crate.)
    ///
    /// # Errors
    ///
    /// `NotHeld` if the span isn't live. `TooWide`, `Memory`, `Writer` and `Failed`, as for
    /// [`Layered::call`](crate::Layered::call).
    pub fn on_close<S: LookupSpan>(
        &mut self,
        id: Id,
        spans: &mut S,
        context: &Context,
    ) -> Result<(), Refusal>
        ensures { Changes (seen FT.FormatTime W.Output)
            (IsBareAnswered (on_close id context.now) result)
            (record { forest = S.forest spans.old; layer = self.old })
            (record { forest = S.forest spans.new; layer = self.new }) }
    {
        self.check(id, spans)?;
        self.write_closes(&[id], spans, context)
    }

    // Checks that the layer may draw, and that the span is live.
    fn check<S: LookupSpan>(&self, id: Id, spans: &S) -> Result<(), Refusal>
        ensures { IsChecked self.now.failed (unless_live (S.forest spans.now) id) result }
    {
        if self.failed {
            return Err(Refusal::Failed);
        }
        spans.span(id).ok_or(Refusal::NotHeld(id))?;
        Ok(())
    }
}

// Returns the length of the path down to the span, including it. It is 0 if the id is missing or
// isn't live. Allocates only for a path that isn't stored.
fn depth<S: LookupSpan>(alloc: Global, spans: &S, id: Option<Id>) -> Result<usize, AllocError>
    ensures { let forest = S.forest spans.now in
        IfOk result (λ depth. depth ≡ length (path_of_any forest (if_live forest id))) }
{
    let Some(id) = id else {
        return Ok(0);
    };
    match spans.kept_path(id) {
        Some(path) => Ok(path.len()),
        None => Ok(spans.path(alloc, id)?.len()),
    }
}
