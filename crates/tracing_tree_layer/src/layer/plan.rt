//! Plans a call before any of it is done: its rows about spans, the spans that become printed, and
//! the last span afterwards.

ghost use Rattle.std.specs.Prelude.{◌≡◌, ◌≢◌, ◌≤◌, ◌-◌, ◌++◌, ◌∷◌, [], true, Some, None, OnOk, OnErr, IfOk, drop, length};
ghost use Rattle.std.specs.List.{common_prefix_len, list_any};
ghost use Rattle.tracing_tree_drawing.specs.Format.Settings.{retraces};
ghost use Rattle.tracing_tree_spans.specs.Registry.Ids.{same_id};
ghost use Rattle.tracing_tree_spans.specs.Registry.Paths.{PartOnce};
ghost use Rattle.tracing_tree_spans.specs.Registry.Forest.{IsForest, is_printed, path_of, path_of_any};
ghost use Rattle.tracing_tree_layer.specs.Layer.CloseRetrace.{retraces_before_close};
ghost use Rattle.tracing_tree_layer.specs.Layer.Turns.{current_of};
ghost use Rattle.tracing_tree_layer.specs.Layer.Plan.{ids_of, empty_plan, with_rows, marked_by, planned_row, planned_parent, planned_fresh, planned_fresh_rows, retraced_plan, closed_plan, fresh_after, plan_of_new, plan_before_event, plan_of_close, plan_of_closes};

use super::path::Path;
use std::alloc::{AllocError, Global};
use std::marker::Model;
use tracing_tree_base::{Context, Id};
use tracing_tree_drawing::format::{Config, SpanMode};
use tracing_tree_spans::registry::{LookupSpan, common};

// A row about a live span, to be drawn.
#[derive(Clone, Copy)]
pub(super) struct PlannedRow {
    pub(super) mode: SpanMode,
    pub(super) id: Id,
    pub(super) level: usize,
}

// The rows about spans, the spans that become printed, and the last span afterwards. The layer
// reuses one for all its calls, so its lists grow only once.
#[derive(Drop)]
pub(super) struct Plan {
    rows: Vec<PlannedRow>,
    fresh: Vec<Id>,
    last: Option<Id>,
}

impl Model for Plan {
    ghost use Rattle.tracing_tree_layer.specs.Layer.Plan.{PlanView};

    ghost Value = { PlanView };

    ghost view = { λ p. record { rows = p.rows.items; fresh = p.fresh.items; last = p.last } };
}

impl Plan {
    pub(super) fn new(alloc: Global) -> Plan
        ensures { result ≡ empty_plan None }
    {
        Plan {
            rows: Vec::new(alloc),
            fresh: Vec::new(alloc),
            last: None,
        }
    }

    // Clears the plan for the next call, and keeps its capacity.
    pub(super) fn begin(&mut self, last: Option<Id>)
        ensures { self.new ≡ empty_plan last }
    {
        self.rows.clear();
        self.fresh.clear();
        self.last = last;
    }

    pub(super) fn rows(&self) -> &[PlannedRow]
        ensures { result.now ≡ self.now.rows }
    {
        self.rows.as_slice()
    }

    pub(super) fn fresh(&self) -> &[Id]
        ensures { result.now ≡ self.now.fresh }
    {
        self.fresh.as_slice()
    }

    pub(super) fn last(&self) -> Option<Id>
        ensures { result ≡ self.now.last }
    {
        self.last
    }

    fn allocator(&self) -> Global {
        *self.rows.allocator()
    }

    fn push(&mut self, row: PlannedRow) -> Result<(), AllocError>
        ensures { OnOk result (self.new ≡ with_rows (row ∷ []) self.old) }
    {
        self.rows.push(row)?;
        Ok(())
    }

    // Plans that the spans become printed.
    fn print(&mut self, ids: &[Id]) -> Result<(), AllocError>
        ensures { OnOk result (self.new ≡ record self.old { fresh = self.old.fresh ++ ids.now }) }
    {
        self.fresh.extend_from_slice(ids)
    }

    // Plans that the span becomes printed.
    fn print_one(&mut self, id: Id) -> Result<(), AllocError>
        ensures { OnOk result (self.new ≡ record self.old { fresh = self.old.fresh ++ id ∷ [] }) }
    {
        self.fresh.push(id)?;
        Ok(())
    }

    // Plans that the span becomes the last one.
    fn reach(&mut self, id: Id)
        ensures { self.new ≡ record self.old { last = Some id } }
    {
        self.last = Some(id);
    }
}

// A planner of calls, from the settings and the live spans. After an error only `begin` may be
// called on the plan.
#[derive(Drop)]
pub(super) struct Planner<'a, S: LookupSpan> {
    pub(super) config: &'a Config,
    pub(super) spans: &'a S,
}

impl<S: LookupSpan> Planner<'_, S> {
    // Plans a new span. It becomes printed at once unless spans are deferred.
    pub(super) fn new_span(&self, plan: &mut Plan, id: Id) -> Result<(), AllocError>
        ensures { let forest = S.forest self.now.spans.now in
            OnOk result (plan.new ≡ plan_of_new self.now.config.now forest id plan.old) }
    {
        if self.config.deferred_spans() {
            return Ok(());
        }
        plan.print_one(id)?;
        if self.config.span_retrace() {
            return self.retrace_to(plan, id);
        }
        let verbose = self.config.verbose_entry();
        self.parent(plan, verbose, SpanMode::PreOpen, id)?;
        self.row(plan, SpanMode::Open { verbose }, id)?;
        plan.reach(id);
        Ok(())
    }

    // Plans what comes before an event's row: its current span is retraced to, if it is live.
    pub(super) fn event(&self, plan: &mut Plan, context: &Context) -> Result<(), AllocError>
        ensures { let forest = S.forest self.now.spans.now in
            let current = current_of forest context.now in
            OnOk result (plan.new ≡ plan_before_event self.now.config.now forest current plan.old) }
    {
        let Some(current) = context.current else {
            return Ok(());
        };
        if self.retraces() && self.spans.span(current).is_some() {
            return self.retrace_to(plan, current);
        }
        Ok(())
    }

    // Plans spans that close one after another.
    pub(super) fn closes(&self, plan: &mut Plan, ids: &[Id]) -> Result<(), AllocError>
        ensures ok { let forest = S.forest self.now.spans.now in
            OnOk result (plan.new ≡ plan_of_closes self.now.config.now forest ids.now plan.old) }
        ensures some { OnErr result (ids.now ≢ []) }
    {
        for id in ids {
            self.close(plan, *id)?;
        }
        Ok(())
    }

    // Plans a span that closes: nothing if it was deferred and never printed.
    fn close(&self, plan: &mut Plan, id: Id) -> Result<(), AllocError>
        ensures { let forest = S.forest self.now.spans.now in
            OnOk result (plan.new ≡ plan_of_close self.now.config.now forest id plan.old) }
    {
        if self.config.deferred_spans() && !self.is_printed(plan, id) {
            return Ok(());
        }
        if self.retraces_before_close(plan, id)? {
            self.retrace_to(plan, id)?;
        }
        self.close_rows(plan, id)
    }

    // Plans the rows of a close. The parent then becomes the last span.
    fn close_rows(&self, plan: &mut Plan, id: Id) -> Result<(), AllocError>
        ensures { let forest = S.forest self.now.spans.now in
            OnOk result (plan.new ≡ closed_plan self.now.config.now forest id plan.old) }
    {
        let verbose = self.config.verbose_exit();
        self.row(plan, SpanMode::Close { verbose }, id)?;
        self.parent(plan, verbose, SpanMode::PostClose, id)?;
        if let Some(parent) = self.spans.parent(id) {
            plan.reach(parent);
        }
        Ok(())
    }

    // Returns whether a close retraces first: the span is printed, and its parent isn't on the path
    // of the last span.
    fn retraces_before_close(&self, plan: &Plan, id: Id) -> Result<bool, AllocError>
        ensures { let marked = marked_by plan.now (S.forest self.now.spans.now) in
            let last = plan.now.last in
            IfOk result (λ retraces.
            retraces ≡ retraces_before_close self.now.config.now marked last id) }
    {
        if !self.config.close_retrace() || !self.retraces() || !self.is_printed(plan, id) {
            return Ok(false);
        }
        let Some(parent) = self.spans.parent(id) else {
            return Ok(false);
        };
        let path = self.path(plan.allocator(), plan.last())?;
        Ok(!contains(path.as_slice(), parent))
    }

    // Returns whether any spans are shown again.
    fn retraces(&self) -> bool
        ensures { result ≡ retraces self.now.config.now }
    {
        self.config.span_retrace() || self.config.deferred_spans()
    }

    // Shows the spans on the path of this one after its common prefix with the path of the last
    // span. They become printed, and this span becomes the last one.
    fn retrace_to(&self, plan: &mut Plan, id: Id) -> Result<(), AllocError>
        ensures { let forest = S.forest self.now.spans.now in
            OnOk result (plan.new ≡ retraced_plan self.now.config.now forest id plan.old) }
    {
        if plan.last() == Some(id) {
            return Ok(());
        }
        if self.follows_last(plan, id) {
            return self.show_alone(plan, id);
        }
        self.retrace_apart(plan, id)
    }

    // Like `retrace_to`, if the paths have to be compared. It is a separate function, since this is
    // rare and needs space for two paths.
    #[inline(never)]
    fn retrace_apart(&self, plan: &mut Plan, id: Id) -> Result<(), AllocError>
        ensures { let forest = S.forest self.now.spans.now in
            OnOk result (plan.new ≡ retraced_plan self.now.config.now forest id plan.old) }
    {
        let old = self.path(plan.allocator(), plan.last())?;
        let new = self.path(plan.allocator(), Some(id))?;
        let fresh = beyond(old.as_slice(), new.as_slice());
        self.show(plan, fresh, id)
    }

    // Returns whether the span is a child of the last span, or is a root and the last span isn't
    // live. Then only this span is fresh.
    fn follows_last(&self, plan: &Plan, id: Id) -> bool
        ensures { let fresh = fresh_after (S.forest self.now.spans.now) id plan.now in
            result ≡ true → fresh ≡ id ∷ [] }
    {
        let Some(span) = self.spans.span(id) else {
            return false;
        };
        match (span.parent(), plan.last()) {
            (Some(parent), Some(last)) => parent == last,
            (None, Some(last)) => self.spans.span(last).is_none(),
            (None, None) => true,
            (Some(_), None) => false,
        }
    }

    // Shows a span that is the only fresh one. It becomes printed, and the last one.
    fn show_alone(&self, plan: &mut Plan, fresh: Id) -> Result<(), AllocError>
        ensures { let forest = S.forest self.now.spans.now in
            let marked = marked_by plan.old forest in
            let rows = planned_fresh_rows self.now.config.now marked forest (fresh ∷ []) in
            OnOk result (plan.new ≡ record {
              rows = plan.old.rows ++ rows;
              fresh = plan.old.fresh ++ fresh ∷ [];
              last = Some fresh;
            }) }
    {
        self.first_fresh_row(plan, fresh)?;
        plan.print_one(fresh)?;
        plan.reach(fresh);
        Ok(())
    }

    // Shows these fresh spans on the path to a span. They become printed, and the span becomes the
    // last one.
    fn show(&self, plan: &mut Plan, fresh: &[Id], id: Id) -> Result<(), AllocError>
        ensures { let forest = S.forest self.now.spans.now in
            let marked = marked_by plan.old forest in
            let rows = planned_fresh_rows self.now.config.now marked forest fresh.now in
            OnOk result (plan.new ≡ record {
              rows = plan.old.rows ++ rows;
              fresh = plan.old.fresh ++ fresh.now;
              last = Some id;
            }) }
    {
        self.fresh_rows(plan, fresh)?;
        plan.print(fresh)?;
        plan.reach(id);
        Ok(())
    }

    // Plans the rows of fresh spans.
    fn fresh_rows(&self, plan: &mut Plan, ids: &[Id]) -> Result<(), AllocError>
        ensures { let forest = S.forest self.now.spans.now in
            let marked = marked_by plan.old forest in
            let rows = planned_fresh_rows self.now.config.now marked forest ids.now in
            OnOk result (plan.new ≡ with_rows rows plan.old) }
    {
        let Some((first, others)) = ids.split_first() else {
            return Ok(());
        };
        self.first_fresh_row(plan, *first)?;
        for id in others {
            self.fresh_row(plan, false, *id)?;
        }
        Ok(())
    }

    // Plans the row of the first fresh span, and before it that of its parent, if entries are
    // verbose.
    #[inline(always)]
    fn first_fresh_row(&self, plan: &mut Plan, id: Id) -> Result<(), AllocError>
        ensures { let forest = S.forest self.now.spans.now in
            let marked = marked_by plan.old forest in
            let rows = planned_fresh_rows self.now.config.now marked forest (id ∷ []) in
            OnOk result (plan.new ≡ with_rows rows plan.old) }
    {
        let verbose = self.config.verbose_entry();
        self.parent(plan, verbose, SpanMode::PreOpen, id)?;
        let shown = verbose && self.spans.parent(id).is_some();
        self.fresh_row(plan, shown, id)
    }

    // Plans the row of a fresh span. A span that was printed before is retraced, and another opens.
    #[inline(always)]
    fn fresh_row(&self, plan: &mut Plan, verbose: bool, id: Id) -> Result<(), AllocError>
        ensures { let forest = S.forest self.now.spans.now in
            let row = planned_fresh (marked_by plan.old forest) forest verbose id in
            OnOk result (plan.new ≡ with_rows (row ∷ []) plan.old) }
    {
        let mode = if self.is_printed(plan, id) {
            SpanMode::Retrace { verbose }
        } else {
            SpanMode::Open { verbose }
        };
        self.row(plan, mode, id)
    }

    // Plans the row of a span's parent, if `shown` is on and there is one.
    #[inline(always)]
    fn parent(&self, plan: &mut Plan, shown: bool, mode: SpanMode, id: Id) -> Result<(), AllocError>
        ensures { let rows = planned_parent shown (S.forest self.now.spans.now) mode id in
            OnOk result (plan.new ≡ with_rows rows plan.old) }
    {
        if !shown {
            return Ok(());
        }
        match self.spans.parent(id) {
            Some(parent) => self.row(plan, mode, parent),
            None => Ok(()),
        }
    }

    // Plans a row about a span.
    #[inline(always)]
    fn row(&self, plan: &mut Plan, mode: SpanMode, id: Id) -> Result<(), AllocError>
        ensures { let row = planned_row (S.forest self.now.spans.now) mode id in
            OnOk result (plan.new ≡ with_rows (row ∷ []) plan.old) }
    {
        let level = self.level(plan.allocator(), id)?;
        plan.push(PlannedRow { mode, id, level })
    }

    // Returns the number of the span's ancestors.
    #[inline(always)]
    fn level(&self, alloc: Global, id: Id) -> Result<usize, AllocError>
        ensures { let path = path_of (S.forest self.now.spans.now) id in
            IfOk result (λ level. level ≡ length path - 1) }
    {
        let length = match self.spans.kept_path(id) {
            Some(ids) => ids.len(),
            None => self.spans.path(alloc, id)?.len(),
        };
        Ok(length.saturating_sub(1))
    }

    // Returns whether the span is already printed, or becomes printed by the plan so far.
    fn is_printed(&self, plan: &Plan, id: Id) -> bool
        ensures { result ≡ is_printed (marked_by plan.now (S.forest self.now.spans.now)) id }
    {
        match self.spans.data(id) {
            Some(data) => data.written || contains(plan.fresh(), id),
            None => false,
        }
    }

    // Returns the path of a span. It is empty if there isn't one.
    fn path(&self, alloc: Global, id: Option<Id>) -> Result<Path<'_>, AllocError>
        ensures path { let forest = S.forest self.now.spans.now in
            IfOk result (λ path. ids_of path ≡ path_of_any forest id) }
        ensures formed { id ≢ None → IsForest (S.forest self.now.spans.now) }
    {
        let Some(id) = id else {
            return Ok(Path::Walked(Vec::new(alloc)));
        };
        match self.spans.kept_path(id) {
            Some(ids) => Ok(Path::Borrowed(ids)),
            None => Ok(Path::Walked(self.spans.path(alloc, id)?)),
        }
    }
}

// Returns whether the id is among these.
fn contains(ids: &[Id], id: Id) -> bool
    ensures { result ≡ list_any (same_id id) ids.now }
{
    ids.iter().any(|other| id == *other)
}

#[tactic(auto, using(crate::proofs::Plans::common_within))]
// Returns the part of the new path after its common prefix with the old one.
fn beyond<'a>(old: &[Id], new: &'a [Id]) -> &'a [Id]
    requires { PartOnce old.now new.now }
    ensures { result.now ≡ drop (common_prefix_len same_id old.now new.now) new.now }
{
    &new[common(old, new).length..]
}
