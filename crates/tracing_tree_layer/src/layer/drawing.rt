//! Plans the rows of a call, and then draws them one after another.

ghost use Rattle.std.specs.Prelude.{◌≡◌, ◌++◌, ◌∷◌, ◌-◌, [], false, if◌then◌else◌, OnOk, IfOk, IfErr, IfSome, is_none, length, string_bytes, unwrap_or};
ghost use Rattle.tracing_tree_spans.specs.Registry.Forest.{if_live, path_of_any};
ghost use Rattle.tracing_tree_layer.specs.Layer.Block.{elapsed_part, event_block, event_tail, spaced};
ghost use Rattle.tracing_tree_layer.specs.Layer.Turns.{block_of, event_row, event_depth, event_level, event_parent, time_in_current, turn_of_new, turn_of_event, turn_of_closes};
ghost use Rattle.tracing_tree_layer.specs.Layer.Plan.{row_of_planned, rows_of_planned};
ghost use Rattle.tracing_tree_layer.specs.Layered.Refused.{timer_faults_at};
ghost use Rattle.tracing_tree_layer.specs.Layer.Drawn.{DrawsRows, Drafts, IsUntimed, has_no_id, is_event_too_wide, lacks_elapsed};

use super::block::{push_event_tail, push_span_block};
use super::plan::{Plan, PlannedRow, Planner};
use crate::parts::EventParts;
use std::alloc::{AllocError, Global};
use tracing_tree_base::{Context, Id, Refusal};
use tracing_tree_drawing::format::{Config, RowDrawing, SpanMode};
use tracing_tree_spans::registry::LookupSpan;
use tracing_tree_time::FormatTime;

// A call that is being drawn: the settings, the live spans, the last span, and the call's context.
#[derive(Drop)]
pub(super) struct CallDrawing<'a, S: LookupSpan> {
    config: &'a Config,
    spans: &'a S,
    last: Option<Id>,
    context: &'a Context,
}

impl<'a, S: LookupSpan> CallDrawing<'a, S> {
    pub(super) fn new(
        config: &'a Config,
        spans: &'a S,
        last: Option<Id>,
        context: &'a Context,
    ) -> CallDrawing<'a, S>
        ensures { result ≡ record {
          config = config.entry;
          spans = spans.entry;
          last = last;
          context = context.entry;
        } }
    {
        CallDrawing {
            config,
            spans,
            last,
            context,
        }
    }

    // Draws a new span.
    pub(super) fn new_span(&self, page: &mut String, plan: &mut Plan, id: Id) -> Result<(), Refusal>
        ensures { let settings = self.now.config.now in
            let forest = S.forest self.now.spans.now in
            let turn = turn_of_new settings self.now.context.now forest self.now.last id in
            Drafts settings forest turn false false result (string_bytes page.old)
            (string_bytes page.new) plan.new }
    {
        plan.begin(self.last);
        self.planner().new_span(plan, id)?;
        self.rows(page, plan.rows())
    }

    // Draws spans that close one after another.
    pub(super) fn closes(
        &self,
        page: &mut String,
        plan: &mut Plan,
        ids: &[Id],
    ) -> Result<(), Refusal>
        ensures { let settings = self.now.config.now in
            let forest = S.forest self.now.spans.now in
            let turn = turn_of_closes settings self.now.context.now ids.now forest self.now.last in
            Drafts settings forest turn false (has_no_id ids.now) result (string_bytes page.old)
            (string_bytes page.new) plan.new }
    {
        plan.begin(self.last);
        self.planner().closes(plan, ids)?;
        self.rows(page, plan.rows())
    }

    // Draws an event that is nested in `depth` spans, after the rows of the spans that it shows.
    // Its own width is checked before any allocation. Uses the tail, if it was drawn before.
    pub(super) fn event<FT: FormatTime, E: EventParts>(
        &self,
        page: &mut String,
        plan: &mut Plan,
        timer: &FT,
        event: &E,
        tail: Option<&str>,
        depth: usize,
    ) -> Result<(), Refusal>
        requires tail { IfSome tail (λ t. t.now ≡ event_tail self.now.config.now (E.whole event.now)) }
        requires depth { depth ≡ event_depth (S.forest self.now.spans.now) (E.whole event.now)
            self.now.context.now }
        ensures { let settings = self.now.config.now in
            let context = self.now.context.now in
            let forest = S.forest self.now.spans.now in
            let timer = FT.timer timer.now in
            let last = self.now.last in
            let turn = turn_of_event settings timer context forest last (E.whole event.now) in
            let faults = timer_faults_at settings timer forest context in
            let wide = is_event_too_wide settings timer forest (E.whole event.now) context in
            Drafts settings forest turn faults wide result (string_bytes page.old)
            (string_bytes page.new) plan.new }
    {
        let level = self.event_level(depth);
        self.config.check_width(SpanMode::Event, level)?;
        plan.begin(self.last);
        self.planner().event(plan, self.context)?;
        self.rows(page, plan.rows())?;
        self.event_row(page, timer, event, tail, level)
    }

    fn planner(&self) -> Planner<'_, S>
        ensures { result ≡ record { config = self.now.config; spans = self.now.spans } }
    {
        Planner {
            config: self.config,
            spans: self.spans,
        }
    }

    // Draws planned rows, one after another.
    #[inline(always)]
    fn rows(&self, page: &mut String, rows: &[PlannedRow]) -> Result<(), Refusal>
        ensures { let settings = self.now.config.now in
            let forest = S.forest self.now.spans.now in
            let rows = rows_of_planned settings self.now.context.now forest rows.now in
            DrawsRows settings rows false result (string_bytes page.old)
            (string_bytes page.new) }
    {
        for row in rows {
            self.row(page, *row)?;
        }
        Ok(())
    }

    // Draws a planned row. It is a separate function, so that a call without planned rows does
    // little.
    #[inline(never)]
    fn row(&self, page: &mut String, row: PlannedRow) -> Result<(), Refusal>
        ensures { let settings = self.now.config.now in
            let forest = S.forest self.now.spans.now in
            let row = row_of_planned settings self.now.context.now forest row in
            DrawsRows settings (row ∷ []) false result (string_bytes page.old)
            (string_bytes page.new) }
    {
        let drawing = self.drawing(row.mode, row.level);
        let place = drawing.begin(page)?;
        self.block(page, row.mode, row.id)?;
        drawing.end(page, place)?;
        Ok(())
    }

    // Returns a row of the call.
    fn drawing(&self, mode: SpanMode, level: usize) -> RowDrawing<'_>
        ensures { result ≡ record {
          config = self.now.config;
          context = self.now.context;
          mode = mode;
          level = level;
        } }
    {
        RowDrawing {
            config: self.config,
            context: self.context,
            mode,
            level,
        }
    }

    // Appends the block of a span's row.
    fn block(&self, out: &mut String, mode: SpanMode, id: Id) -> Result<(), AllocError>
        ensures { let forest = S.forest self.now.spans.now in
            let block = block_of self.now.config.now forest mode id in
            OnOk result (string_bytes out.new ≡ string_bytes out.old ++ block) }
    {
        // A plain close without labels doesn't show its span.
        if mode == (SpanMode::Close { verbose: false }) && !self.config.span_modes() {
            return Ok(());
        }
        match self.spans.span(id) {
            Some(span) => push_span_block(out, self.config, mode, &span),
            None => Ok(()),
        }
    }

    // Draws the row of an event at this level, which isn't too wide.
    fn event_row<FT: FormatTime, E: EventParts>(
        &self,
        page: &mut String,
        timer: &FT,
        event: &E,
        tail: Option<&str>,
        level: usize,
    ) -> Result<(), Refusal>
        requires tail { IfSome tail (λ t. t.now ≡ event_tail self.now.config.now (E.whole event.now)) }
        requires level { let forest = S.forest self.now.spans.now in
            let parent = event_parent forest (E.whole event.now) self.now.context.now in
            level ≡ event_level self.now.config.now (path_of_any forest parent) }
        requires fits { is_event_too_wide self.now.config.now (FT.timer timer.now)
            (S.forest self.now.spans.now) (E.whole event.now) self.now.context.now ≡ false }
        ensures { let settings = self.now.config.now in
            let context = self.now.context.now in
            let forest = S.forest self.now.spans.now in
            let timer = FT.timer timer.now in
            let row = event_row settings timer forest (E.whole event.now) context in
            let faults = timer_faults_at settings timer forest context in
            DrawsRows settings (row ∷ []) faults result (string_bytes page.old)
            (string_bytes page.new) }
    {
        let drawing = self.drawing(SpanMode::Event, level);
        let place = drawing.begin(page)?;
        self.event_block(page, timer, event, tail)?;
        drawing.end(page, place)?;
        Ok(())
    }

    // Returns an event's level. With lines it is one below its parent's, otherwise it is the
    // parent's.
    fn event_level(&self, depth: usize) -> usize
        ensures { let indent_lines = self.now.config.now.indent_lines in
            result ≡ (if indent_lines then depth else depth - 1) }
    {
        if self.config.indent_lines() {
            depth
        } else {
            depth.saturating_sub(1)
        }
    }

    // Appends the block of an event's row: the timer's texts, the level, the target and the fields.
    fn event_block<FT: FormatTime, E: EventParts>(
        &self,
        out: &mut String,
        timer: &FT,
        event: &E,
        tail: Option<&str>,
    ) -> Result<(), Refusal>
        requires { IfSome tail (λ t. t.now ≡ event_tail self.now.config.now (E.whole event.now)) }
        ensures ok { let settings = self.now.config.now in
            let context = self.now.context.now in
            let since = time_in_current (S.forest self.now.spans.now) context in
            let block = event_block settings (FT.timer timer.now) context.moment since (E.whole event.now) in
            OnOk result (string_bytes out.new ≡ string_bytes out.old ++ block) }
        ensures has { let forest = S.forest self.now.spans.now in
            let timer = FT.timer timer.now in
            let faults = timer_faults_at self.now.config.now timer forest self.now.context.now in
            OnOk result (faults ≡ false) }
        ensures refusal { let forest = S.forest self.now.spans.now in
            let timer = FT.timer timer.now in
            let faults = timer_faults_at self.now.config.now timer forest self.now.context.now in
            IfErr result (IsUntimed faults) }
    {
        self.moment(out, timer)?;
        self.elapsed(out, timer)?;
        match tail {
            Some(tail) => out.push_str(tail)?,
            None => push_event_tail(out, self.config, event)?,
        }
        Ok(())
    }

    // Appends the timer's text of the moment, and a space if the text isn't empty.
    fn moment<FT: FormatTime>(&self, out: &mut String, timer: &FT) -> Result<(), Refusal>
        ensures ok { let shown = (FT.timer timer.now).moment_text self.now.context.now.moment in
            OnOk result
            (string_bytes out.new ≡ string_bytes out.old ++ spaced (unwrap_or shown [])) }
        ensures has { let moment = self.now.context.now.moment in
            OnOk result (is_none ((FT.timer timer.now).moment_text moment) ≡ false) }
        ensures refusal { let moment = self.now.context.now.moment in
            IfErr result (IsUntimed (is_none ((FT.timer timer.now).moment_text moment))) }
    {
        let before = out.len();
        timer.format_time(&self.context.moment, out)?;
        if out.len() > before {
            out.push_str(" ")?;
        }
        Ok(())
    }

    // Appends the timer's text of the time since the current span was made, if that span is live,
    // and a space.
    fn elapsed<FT: FormatTime>(&self, out: &mut String, timer: &FT) -> Result<(), Refusal>
        ensures ok { let forest = S.forest self.now.spans.now in
            let since = time_in_current forest self.now.context.now in
            let text = elapsed_part self.now.config.now (FT.timer timer.now) since in
            OnOk result (string_bytes out.new ≡ string_bytes out.old ++ text) }
        ensures has { let forest = S.forest self.now.spans.now in
            let since = time_in_current forest self.now.context.now in
            OnOk result (lacks_elapsed self.now.config.now (FT.timer timer.now) since ≡ false) }
        ensures refusal { let context = self.now.context.now in
            let since = time_in_current (S.forest self.now.spans.now) context in
            IfErr result
            (IsUntimed (lacks_elapsed self.now.config.now (FT.timer timer.now) since)) }
    {
        let Some(current) = self.context.current else {
            return Ok(());
        };
        let Some(data) = self.spans.data(current) else {
            return Ok(());
        };
        let elapsed = self.context.moment.mono.saturating_sub(data.start);
        timer.style_timestamp(self.config.ansi(), elapsed, out)?;
        out.push_str(" ")?;
        Ok(())
    }
}
