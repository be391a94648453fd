//! A registry with a layer. Each call is accepted as a whole, or refused with a cause.

ghost use Rattle.std.specs.Prelude.{◌≡◌, ◌≢◌, ◌<◌, [], false, None, OnErr, IfOk, IfSome, length};
ghost use Rattle.tracing_tree_spans.specs.Registry.Ids.{id_of};
ghost use Rattle.tracing_tree_spans.specs.Registry.Forest.{empty_forest, if_live, path_of_any};
ghost use Rattle.tracing_tree_layer.specs.Layer.Layers.{seen, Changes, Flushes};
ghost use Rattle.tracing_tree_layer.specs.Layered.Answered.{IsAnswered};
ghost use Rattle.tracing_tree_layer.specs.Layered.Headline.{AreAnswered, IsRunOf};
ghost use Rattle.tracing_tree_layer.specs.Layer.Block.{event_tail};
ghost use Rattle.tracing_tree_layer.specs.Replies.{answer_as, cloned, closed, done, span};
ghost use Rattle.tracing_tree_output.specs.Writers.{IsShown};

use crate::call::{Call, Reply};
use crate::layer::HierarchicalLayer;
use crate::parts::EventParts;
use std::alloc::{AllocError, Global};
use std::marker::Model;
use std::mem;
use tracing_tree_base::field::Fields;
use tracing_tree_base::text::Text;
use tracing_tree_base::{Context, Id, Refusal};
use tracing_tree_output::Output;
use tracing_tree_spans::registry::{Attributes, Event, LookupSpan, Parent, Record, Registry};
use tracing_tree_time::FormatTime;

/// A registry with a layer. An accepted call changes both, and writes its output.
///
/// After a refused call the spans, their marks and the last span are unchanged. After `Timer` and
/// `Writer` the layer has also failed. After `Writer` a first part of the output may have been
/// written.
///
/// A root span that opens and closes. Its attributes and the contexts come from the caller:
/// ```rust
/// let layer = HierarchicalLayer::new(alloc, 2, false, Tape::new(alloc)).with_indent_lines(true);
/// let mut layered = Layered::new(alloc, layer);
/// if let Reply::Span(id) = layered.call(Call::New(root, here))? {
///     layered.call(Call::Close(id, later))?;
/// }
/// ```
#[derive(Drop)]
pub struct Layered<W: Output, FT: FormatTime> {
    registry: Registry,
    layer: HierarchicalLayer<W, FT>,
    // The ids that a close removes. The list is reused, so it grows only once.
    closing: Vec<Id>,
}

impl<W: Output, FT: FormatTime> Model for Layered<W, FT> {
    ghost use Rattle.tracing_tree_layer.specs.Layer.Layers.{LayeredView};

    ghost Value = { LayeredView W FT };

    ghost view = { λ l. record { forest = l.registry; layer = l.layer } };
}

impl<W: Output, FT: FormatTime> Layered<W, FT> {
    /// Returns a registry without spans and this layer. The first id is 1. The caller must ensure
    /// that the layer is fresh: it has no last span and hasn't failed.
    pub fn new(alloc: Global, layer: HierarchicalLayer<W, FT>) -> Layered<W, FT>
        requires last { layer.last ≡ None }
        requires sound { layer.failed ≡ false }
        ensures { result ≡ record { forest = empty_forest (id_of 1); layer = layer } }
    {
        Layered::starting_at(alloc, 1, layer)
    }

    /// Returns a registry without spans and this layer. The first id is `first`. The caller must
    /// ensure that the layer is fresh, as for `new`.
    pub fn starting_at(alloc: Global, first: u64, layer: HierarchicalLayer<W, FT>) -> Layered<W, FT>
        requires last { layer.last ≡ None }
        requires sound { layer.failed ≡ false }
        ensures { result ≡ record { forest = empty_forest (id_of first); layer = layer } }
    {
        Layered {
            registry: Registry::starting_at(alloc, first),
            layer,
            closing: Vec::new(alloc),
        }
    }

    /// Returns the writer, with everything that was written.
    pub fn writer(&self) -> &W
        ensures { result.now ≡ self.now.layer.writer }
    {
        self.layer.writer()
    }

    /// Returns the live spans.
    pub fn registry(&self) -> &Registry
        ensures { result.now ≡ self.now.forest }
    {
        &self.registry
    }

    /// Returns the layer.
    pub fn layer(&self) -> &HierarchicalLayer<W, FT>
        ensures { result.now ≡ self.now.layer }
    {
        &self.layer
    }

    /// Splits this value into its registry and its layer.
    pub fn into_parts(self) -> (Registry, HierarchicalLayer<W, FT>)
        ensures registry { result.0 ≡ self.forest }
        ensures layer { result.1 ≡ self.layer }
    {
        (self.registry, self.layer)
    }

    /// Replaces the writer, and returns the previous one. The caller must ensure that the new
    /// writer has no faults.
    pub fn replace_writer(&mut self, writer: W) -> W
        requires { W.fault_count writer ≡ 0 }
        ensures before { result ≡ self.old.layer.writer }
        ensures layer { self.new ≡ record self.old {
          layer = record self.old.layer { writer = writer };
        } }
    {
        self.layer.replace_writer(writer)
    }

    /// Replaces the timer, and returns the previous one.
    pub fn replace_timer(&mut self, timer: FT) -> FT
        ensures before { result ≡ self.old.layer.timer }
        ensures layer { self.new ≡ record self.old {
          layer = record self.old.layer { timer = timer };
        } }
    {
        self.layer.replace_timer(timer)
    }

    /// Replaces the writer, and returns the previous one. After `Timer` or `Writer` the layer
    /// continues, as if the refused call had not been made. The caller must ensure that the new
    /// writer has no faults.
    pub fn recover(&mut self, writer: W) -> W
        requires { W.fault_count writer ≡ 0 }
        ensures before { result ≡ self.old.layer.writer }
        ensures layer { self.new ≡ record self.old {
          layer = record self.old.layer { writer = writer; failed = false; unwritten = [] };
        } }
    {
        self.layer.recover(writer)
    }

    /// Flushes the writer (`Output::flush`). Changes nothing else.
    pub fn flush(&mut self)
        ensures flushed { Changes (seen FT.FormatTime W.Output) Flushes self.old self.new }
        ensures shown { IsShown W.Output self.new.layer.writer }
    {
        self.layer.flush();
    }

    /// Makes a call on the registry, draws its rows, and returns the reply.
    ///
    /// # Errors
    ///
    /// The first of these causes that applies:
    ///
    /// - `Failed` after a call was refused for the timer or the writer, until `recover`.
    /// - `NotHeld` if a new span's parent or a span to clone isn't live, or a span to close has no
    ///   handle.
    /// - `TooMany` if all ids are used, or a span can't have more handles.
    /// - `TooWide` if the width of a row, its level used times the amount, exceeds `usize::MAX`
    ///   columns.
    /// - `Timer` and `Writer` if the timer or the writer faults.
    ///
    /// `Memory` if an allocation fails, possibly instead of another cause. After a refusal the
    /// spans, their marks and the last span are unchanged.
    pub fn call(&mut self, call: Call) -> Result<Reply, Refusal>
        ensures answered { Changes (seen FT.FormatTime W.Output) (IsAnswered call result)
            self.old self.new }
    {
        let mut call = call;
        self.take_call(&mut call)
    }

    /// Records an event, like `call`, without taking it. The level, target and fields may already
    /// be drawn, by `push_event_tail` with the same ansi and targets. The caller must ensure that
    /// such a tail is this event's.
    ///
    /// # Errors
    ///
    /// Those of `call`.
    pub fn call_event(
        &mut self,
        event: &Event,
        context: &Context,
        tail: Option<&str>,
    ) -> Result<Reply, Refusal>
        requires { IfSome tail (λ t. t.now ≡ event_tail self.old.layer.settings event.now) }
        ensures { Changes (seen FT.FormatTime W.Output)
            (IsAnswered (Call.Event event.now context.now) result) self.old self.new }
    {
        let failed = self.layer.failed();
        if failed {
            Err(Refusal::Failed)
        } else {
            self.draw_event(event, context, tail)?;
            Ok(Reply::Done)
        }
    }

    /// Makes calls one after another, and returns their answers in order. Memory for the answers is
    /// allocated first.
    ///
    /// # Errors
    ///
    /// `AllocError` if that allocation fails. Nothing has changed then. Without calls it can't
    /// fail.
    pub fn run(
        &mut self,
        alloc: Global,
        calls: Vec<Call>,
    ) -> Result<Vec<Result<Reply, Refusal>>, AllocError>
        ensures run { IfOk result (λ answers. Changes (seen FT.FormatTime W.Output)
            (IsRunOf calls.items answers.items) self.old self.new) }
        ensures answered { IfOk result (λ answers. AreAnswered (seen FT.FormatTime W.Output)
            calls.items answers.items self.old self.new) }
        ensures err { OnErr result (self.new ≡ self.old) }
        ensures room { OnErr result (calls.items ≢ []) }
    {
        let mut calls = calls;
        let mut answers = Vec::with_capacity(alloc, calls.len())?;
        for call in calls.iter_mut() {
            let answer = self.take_call(call);
            answers.push_reserved(answer);
        }
        Ok(answers)
    }

    // Makes a call in place, since a call is large and each move of it costs. What a span stores is
    // moved out of it.
    fn take_call(&mut self, call: &mut Call) -> Result<Reply, Refusal>
        ensures { Changes (seen FT.FormatTime W.Output) (IsAnswered call.old result)
            self.old self.new }
    {
        if self.layer.failed() {
            return Err(Refusal::Failed);
        }
        let alloc = *self.closing.allocator();
        match call {
            Call::New(attributes, context) => {
                let attributes = mem::replace(attributes, no_attributes(alloc));
                Ok(Reply::Span(self.add_span(attributes, context)?))
            }
            Call::Clone(id) => Ok(Reply::Cloned(self.add_handle(*id)?)),
            Call::Record(id, Record { fields }) => {
                let fields = mem::replace(fields, Fields::new(alloc));
                self.add_fields(*id, fields)?;
                Ok(Reply::Done)
            }
            Call::Event(event, context) => {
                self.draw_event(&*event, context, None)?;
                Ok(Reply::Done)
            }
            Call::Close(id, context) => Ok(Reply::Closed(self.close_handle(*id, context)?)),
        }
    }

    // Makes a span. If the layer refuses, the span and its id are taken back.
    pub(crate) fn add_span(
        &mut self,
        attributes: Attributes,
        context: &Context,
    ) -> Result<Id, Refusal>
        requires { self.old.layer.failed ≡ false }
        ensures { Changes (seen FT.FormatTime W.Output)
            (IsAnswered (Call.New attributes context.now) (answer_as span result))
            self.old self.new }
    {
        let id = self.registry.new_span(attributes, context)?;
        if let Err(refusal) = self.layer.write_new_span(id, &mut self.registry, context) {
            self.registry.take_back(id);
            return Err(refusal);
        }
        Ok(id)
    }

    // Drops a handle. The rows of all spans that close are written before any span is removed.
    pub(crate) fn close_handle(&mut self, id: Id, context: &Context) -> Result<bool, Refusal>
        requires { self.old.layer.failed ≡ false }
        ensures { Changes (seen FT.FormatTime W.Output)
            (IsAnswered (Call.Close id context.now) (answer_as closed result)) self.old self.new }
    {
        self.registry.closing_into(id, &mut self.closing)?;
        let ids = self.closing.as_slice();
        self.layer.write_closes(ids, &mut self.registry, context)?;
        Ok(self.registry.close_listed(id, ids))
    }

    // Adds a handle. Nothing is drawn.
    pub(crate) fn add_handle(&mut self, id: Id) -> Result<Id, Refusal>
        requires { self.old.layer.failed ≡ false }
        ensures { Changes (seen FT.FormatTime W.Output)
            (IsAnswered (Call.Clone id) (answer_as cloned result)) self.old self.new }
    {
        self.registry.clone_span(id)
    }

    // Records fields. Nothing is drawn.
    pub(crate) fn add_fields(&mut self, id: Id, fields: Fields) -> Result<(), Refusal>
        requires { self.old.layer.failed ≡ false }
        ensures { Changes (seen FT.FormatTime W.Output)
            (IsAnswered (Call.Record id (record { fields = fields })) (answer_as done result))
            self.old self.new }
    {
        self.registry.record(id, fields)?;
        Ok(())
    }

    // Draws an event. No span is added or removed. Retracing may mark spans as printed and change
    // the last span.
    pub(crate) fn draw_event<E: EventParts>(
        &mut self,
        event: &E,
        context: &Context,
        tail: Option<&str>,
    ) -> Result<(), Refusal>
        requires sound { self.old.layer.failed ≡ false }
        requires tail { IfSome tail (λ t. t.now ≡ event_tail self.old.layer.settings (E.whole event.now)) }
        ensures { Changes (seen FT.FormatTime W.Output)
            (IsAnswered (Call.Event (E.whole event.now) context.now) (answer_as done result))
            self.old self.new }
    {
        let depth = depth(&self.registry, event.parent().named(context.current));
        let spans = &mut self.registry;
        self.layer.write_event(event, tail, depth, spans, context)?;
        Ok(())
    }
}

// Returns empty attributes, to replace those that were taken. Never allocates.
fn no_attributes(alloc: Global) -> Attributes {
    Attributes {
        name: Text::from(String::new(alloc)),
        target: Text::from(String::new(alloc)),
        parent: Parent::Root,
        fields: Fields::new(alloc),
    }
}

// Returns the length of the path down to the span, including it. It is 0 if the id is missing or
// isn't live. Never allocates, since the registry stores all paths.
fn depth(registry: &Registry, id: Option<Id>) -> usize
    ensures { result ≡ length (path_of_any registry.now (if_live registry.now id)) }
{
    let path = id.and_then(|id| registry.kept_path(id));
    path.map_or(0, |path| path.len())
}
