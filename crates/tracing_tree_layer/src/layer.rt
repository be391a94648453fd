//! The layer, which draws each call.

mod bare;
mod block;
mod builders;
mod drawing;
mod path;
mod plan;

ghost use Rattle.std.specs.Prelude.{◌≡◌, ◌<◌, [], false, None, IfSome, string_bytes};
ghost use Rattle.tracing_tree_drawing.specs.Format.Settings.{default_settings};
ghost use Rattle.tracing_tree_spans.specs.Registry.Forest.{mark_all};
ghost use Rattle.tracing_tree_layer.specs.Layer.Block.{event_tail};
ghost use Rattle.tracing_tree_layer.specs.Layer.Turns.{event_depth, turn_of_new, turn_of_event, turn_of_closes};
ghost use Rattle.tracing_tree_layer.specs.Layered.Refused.{timer_faults_at};
ghost use Rattle.tracing_tree_layer.specs.Layer.Layers.{is_fresh, IsFlushed};
ghost use Rattle.tracing_tree_output.specs.Writers.{seen_writer};
ghost use Rattle.tracing_tree_layer.specs.Layer.Drawn.{failed_by, has_no_id, DoesTurn, Sends, is_event_too_wide};

use crate::parts::EventParts;
pub use block::push_event_tail;
use drawing::CallDrawing;
use plan::Plan;
use std::alloc::Global;
use std::marker::Model;
use std::mem;
use tracing_tree_base::{Context, Id, Refusal};
use tracing_tree_drawing::format::Config;
use tracing_tree_output::{Output, write_whole};
use tracing_tree_spans::registry::LookupSpan;
use tracing_tree_time::FormatTime;

/// A layer that draws spans and events as a tree into a writer. (`HierarchicalLayer` of the Rust
/// crate.)
///
/// A call's output is built whole and then written. After a fault of the timer or the writer,
/// the layer has failed. It refuses every further call until `recover`.
///
/// A service that stores its spans itself calls only the layer. A `Layered` makes these calls for
/// it:
/// ```rust
/// let layer = HierarchicalLayer::new(alloc, 2, false, Tape::new(alloc));
/// let mut layer = layer.with_indent_lines(true);
/// let mut spans = Registry::new(alloc);
/// let id = spans.new_span(root, here)?;
/// layer.on_new_span(id, &mut spans, here)?;
/// layer.on_close(id, &mut spans, here)?;
/// spans.try_close(id)?;
/// ```
#[derive(Drop)]
pub struct HierarchicalLayer<W: Output, FT: FormatTime> {
    page: String,
    plan: Plan,
    config: Config,
    writer: W,
    timer: FT,
    last: Option<Id>,
    failed: bool,
}

impl<W: Output, FT: FormatTime> Model for HierarchicalLayer<W, FT> {
    ghost use Rattle.std.specs.Prelude.{◌≡◌, [], false, string_bytes};
    ghost use Rattle.tracing_tree_layer.specs.Layer.Layers.{LayerView};

    ghost Value = { LayerView W FT };

    ghost view = { λ l. record {
      settings = l.config;
      writer = l.writer;
      timer = l.timer;
      last = l.last;
      failed = l.failed;
      unwritten = string_bytes l.page;
    } };

    // A layer that has not failed has written all that it built, and its writer has never refused a
    // write.
    ghost invariant = { λ l. l.failed ≡ false
        → (string_bytes l.page ≡ []) × (W.fault_count l.writer ≡ 0) };
}

impl<W: Output> HierarchicalLayer<W, ()> {
    /// Makes a layer without a timer, with the default settings except for the amount (columns per
    /// level) and ansi. Never allocates. The caller must ensure that the writer has no faults.
    pub fn new(
        alloc: Global,
        indent_amount: usize,
        ansi: bool,
        writer: W,
    ) -> HierarchicalLayer<W, ()>
        requires { W.fault_count writer ≡ 0 }
        ensures { result ≡ record {
          settings = record default_settings { indent_amount = indent_amount; ansi = ansi };
          writer = writer;
          timer = tt;
          last = None;
          failed = false;
          unwritten = [];
        } }
    {
        HierarchicalLayer::with_config(alloc, Config::new(indent_amount, ansi), writer)
    }

    /// Makes a layer with these settings, without a timer. Never allocates. The caller must ensure
    /// that the writer has no faults.
    pub fn with_config(alloc: Global, config: Config, writer: W) -> HierarchicalLayer<W, ()>
        requires { W.fault_count writer ≡ 0 }
        ensures { result ≡ record {
          settings = config;
          writer = writer;
          timer = tt;
          last = None;
          failed = false;
          unwritten = [];
        } }
    {
        HierarchicalLayer {
            page: String::new(alloc),
            plan: Plan::new(alloc),
            config,
            writer,
            timer: (),
            last: None,
            failed: false,
        }
    }
}

impl<W: Output, FT: FormatTime> HierarchicalLayer<W, FT> {
    /// Returns the settings.
    pub fn config(&self) -> &Config
        ensures { result.now ≡ self.now.settings }
    {
        &self.config
    }

    /// Returns the writer.
    pub fn writer(&self) -> &W
        ensures { result.now ≡ self.now.writer }
    {
        &self.writer
    }

    /// Returns the last span shown: a span that opened, a span that an event or a close was
    /// retraced to, or the parent of a span that closed. It may have closed since.
    pub fn last_span(&self) -> Option<Id>
        ensures { result ≡ self.now.last }
    {
        self.last
    }

    /// Returns whether a call was refused for the timer or the writer. A layer that has not failed
    /// has written all that it built, and its writer has no faults.
    pub fn failed(&self) -> bool
        ensures failed { result ≡ self.now.failed }
        ensures calm { result ≡ false → W.fault_count self.now.writer ≡ 0 }
        ensures written { result ≡ false → self.now.unwritten ≡ [] }
    {
        self.failed
    }

    /// Returns whether the layer has no last span and hasn't failed, like a new one.
    pub fn is_fresh(&self) -> bool
        ensures { result ≡ is_fresh self.now }
    {
        !self.failed && self.last.is_none()
    }

    /// Returns the writer, with everything that was written.
    pub fn into_writer(self) -> W
    where
        FT: Drop,
        ensures { result ≡ self.writer }
    {
        self.writer
    }

    /// Splits this value into the settings and the writer, with everything that was written.
    pub fn into_parts(self) -> (Config, W)
    where
        FT: Drop,
        ensures settings { result.0 ≡ self.settings }
        ensures writer { result.1 ≡ self.writer }
    {
        (self.config, self.writer)
    }

    /// Replaces the writer, and returns the previous one. The caller must ensure that the new
    /// writer has no faults.
    pub fn replace_writer(&mut self, writer: W) -> W
        requires { W.fault_count writer ≡ 0 }
        ensures before { result ≡ self.old.writer }
        ensures layer { self.new ≡ record self.old { writer = writer } }
    {
        mem::replace(&mut self.writer, writer)
    }

    /// Replaces the timer, and returns the previous one.
    pub fn replace_timer(&mut self, timer: FT) -> FT
        ensures before { result ≡ self.old.timer }
        ensures layer { self.new ≡ record self.old { timer = timer } }
    {
        mem::replace(&mut self.timer, timer)
    }

    /// Replaces the writer, and returns the previous one. A layer that has failed continues, as if
    /// the failed call had not been made. The caller must ensure that the new writer has no faults.
    pub fn recover(&mut self, writer: W) -> W
        requires { W.fault_count writer ≡ 0 }
        ensures before { result ≡ self.old.writer }
        ensures layer { self.new ≡ record self.old {
          writer = writer;
          failed = false;
          unwritten = [];
        } }
    {
        let before = self.replace_writer(writer);
        self.page.clear();
        self.failed = false;
        before
    }

    // Flushes the writer.
    pub(crate) fn flush(&mut self)
        ensures { IsFlushed W.Output self.old self.new }
    {
        self.writer.flush();
    }

    // Draws a new span, which is live.
    pub(crate) fn write_new_span<S: LookupSpan>(
        &mut self,
        id: Id,
        spans: &mut S,
        context: &Context,
    ) -> Result<(), Refusal>
        requires { self.old.failed ≡ false }
        ensures { let old = self.old in
            let forest = S.forest spans.old in
            let turn = turn_of_new old.settings context.now forest old.last id in
            DoesTurn (seen_writer W.Output) turn false false result old self.new
            forest (S.forest spans.new) }
    {
        let drawing = CallDrawing::new(&self.config, &*spans, self.last, context);
        let drawn = drawing.new_span(&mut self.page, &mut self.plan, id);
        let sent = send(drawn, &mut self.page, &mut self.writer, &mut self.failed);
        if sent.is_ok() {
            commit(&self.plan, &mut self.last, spans);
        }
        sent
    }

    // Draws an event that is nested in `depth` spans. Uses the tail, if it was drawn before.
    pub(crate) fn write_event<S: LookupSpan, E: EventParts>(
        &mut self,
        event: &E,
        tail: Option<&str>,
        depth: usize,
        spans: &mut S,
        context: &Context,
    ) -> Result<(), Refusal>
        requires sound { self.old.failed ≡ false }
        requires depth { depth ≡ event_depth (S.forest spans.old) (E.whole event.now) context.now }
        requires tail { IfSome tail (λ t. t.now ≡ event_tail self.old.settings (E.whole event.now)) }
        ensures { let old = self.old in
            let forest = S.forest spans.old in
            let timer = FT.timer old.timer in
            let turn = turn_of_event old.settings timer context.now forest old.last (E.whole event.now) in
            let faults = timer_faults_at old.settings timer forest context.now in
            let wide = is_event_too_wide old.settings timer forest (E.whole event.now) context.now in
            DoesTurn (seen_writer W.Output) turn faults wide result old self.new
            forest (S.forest spans.new) }
    {
        let drawing = CallDrawing::new(&self.config, &*spans, self.last, context);
        let drawn = drawing.event(
            &mut self.page,
            &mut self.plan,
            &self.timer,
            event,
            tail,
            depth,
        );
        let sent = send(drawn, &mut self.page, &mut self.writer, &mut self.failed);
        if sent.is_ok() {
            commit(&self.plan, &mut self.last, spans);
        }
        sent
    }

    // Draws spans that close one after another. If `ids` is empty, it never allocates.
    pub(crate) fn write_closes<S: LookupSpan>(
        &mut self,
        ids: &[Id],
        spans: &mut S,
        context: &Context,
    ) -> Result<(), Refusal>
        requires { self.old.failed ≡ false }
        ensures { let old = self.old in
            let forest = S.forest spans.old in
            let turn = turn_of_closes old.settings context.now ids.now forest old.last in
            DoesTurn (seen_writer W.Output) turn false (has_no_id ids.now) result old self.new
            forest (S.forest spans.new) }
    {
        let drawing = CallDrawing::new(&self.config, &*spans, self.last, context);
        let drawn = drawing.closes(&mut self.page, &mut self.plan, ids);
        let sent = send(drawn, &mut self.page, &mut self.writer, &mut self.failed);
        if sent.is_ok() {
            commit(&self.plan, &mut self.last, spans);
        }
        sent
    }
}

// Applies the rest of a plan after its rows were written: marks the fresh spans, and sets the last
// span. Never allocates.
fn commit<S: LookupSpan>(plan: &Plan, last: &mut Option<Id>, spans: &mut S)
    ensures last { last.new ≡ plan.now.last }
    ensures forest { S.forest spans.new ≡ mark_all plan.now.fresh (S.forest spans.old) }
{
    for id in plan.fresh() {
        spans.set_written(*id);
    }
    *last = plan.last();
}

// Writes what was drawn in one piece, or discards it. Only a fault of the writer leaves a text on
// the page.
#[inline(always)]
fn send<W: Output>(
    drawn: Result<(), Refusal>,
    page: &mut String,
    writer: &mut W,
    failed: &mut bool,
) -> Result<(), Refusal>
    requires room { W.fault_count writer.old < u64.MAX }
    ensures sends { Sends drawn result (string_bytes page.old) (string_bytes page.new)
        (seen_writer W.Output writer.old) (seen_writer W.Output writer.new) }
    ensures failed { failed.new ≡ failed_by result }
{
    let sent = match drawn {
        Ok(()) => write_whole(page, writer).map_err(|_| Refusal::Writer),
        Err(refusal) => {
            page.clear();
            Err(refusal)
        }
    };
    *failed = matches!(sent, Err(Refusal::Timer | Refusal::Writer));
    sent
}
