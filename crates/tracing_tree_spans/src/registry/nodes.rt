//! The live spans in the order of their ids, each found by its id.

ghost use Rattle.std.specs.Prelude.{◌≡◌, ◌<◌, ◌^◌, ◌++◌, [], ◌∷◌, None, Some, IfSome, MatchOption, OnOk, OnErr, find, length, set, slice_get, option_copied, false};
ghost use Rattle.std.specs.Fn.{FnOnceReturnsAtMut};
ghost use Rattle.std.specs.Option.{option_map_or};
ghost use Rattle.tracing_tree_spans.specs.Registry.Spans.{KeptSpan, handle_more, handle_less, child_more, child_less, kept_printed, fields_more};
ghost use Rattle.tracing_tree_spans.specs.Registry.Nodes.{node_at, change_node, leave_out, AreBelow};
ghost use Rattle.tracing_tree_spans.specs.declared.registry.slot.Slot.TheVariants.{Gone};
ghost use Rattle.tracing_tree_spans.specs.Registry.Slots.{slot_has, slot_ids, present, ends_in_gap, AreRising, IsLaidOut};

use super::node::Node;
use super::slot::Slot;
use std::alloc::{AllocError, Global};
use std::marker::Model;
use tracing_tree_base::Id;
use tracing_tree_base::field::Fields;

// The live spans. A removed span leaves a gap, so nothing moves. Gaps at the end are removed at
// once. The others are removed when the list would have to grow and more than half of it are gaps.
// The records are stored in the list itself: a pointer to each would be one more block of memory to
// free.
#[derive(Drop)]
pub(crate) struct Nodes {
    slots: Vec<Slot>,
    live: usize,
}

impl Model for Nodes {
    ghost use Rattle.std.specs.Prelude.{List};
    ghost use Rattle.tracing_tree_spans.specs.Registry.Spans.{KeptSpan};
    ghost use Rattle.tracing_tree_spans.specs.Registry.Slots.{present, IsLaidOut};

    ghost Value = { List KeptSpan };

    ghost view = { λ n. present n.slots.items };

    ghost invariant = { λ n. IsLaidOut n.slots.items n.live };
}

impl Nodes {
    pub(crate) fn new(alloc: Global) -> Nodes
        ensures { result ≡ [] }
    {
        Nodes {
            slots: Vec::new(alloc),
            live: 0,
        }
    }

    // Returns the span with this id.
    pub(crate) fn get(&self, id: Id) -> Option<&Node>
        ensures { option_copied result ≡ node_at self.now id }
    {
        let at = position(self.slots.as_slice(), id)?;
        self.slots[at].node()
    }

    // Reserves space for one more span. If an allocation fails, nothing has changed.
    pub(crate) fn reserve(&mut self) -> Result<(), AllocError>
        ensures { self.new ≡ self.old }
    {
        make_room(&mut self.slots, self.live);
        self.slots.reserve(1)
    }

    // Appends a span with the greatest id. If an allocation fails, nothing has changed.
    pub(crate) fn push(&mut self, node: Node) -> Result<(), AllocError>
        requires { AreBelow node.span.id.0 self.old }
        ensures ok { OnOk result (self.new ≡ self.old ++ node ∷ []) }
        ensures few { OnOk result (length self.new < 2 ^ 63) }
        ensures err { OnErr result (self.new ≡ self.old) }
    {
        self.slots.push(Slot::Live(node))?;
        self.live += 1;
        Ok(())
    }

    // Removes the span with this id.
    pub(crate) fn remove(&mut self, id: Id)
        ensures { self.new ≡ leave_out id self.old }
    {
        if let Some(at) = position(self.slots.as_slice(), id) {
            if let Slot::Live(_) = &self.slots[at] {
                vacate(&mut self.slots, at, id);
                self.live -= 1;
                trim(&mut self.slots);
            }
        }
    }

    pub(crate) fn add_handle(&mut self, id: Id)
        requires { IfSome (node_at self.old id) (λ node. node.span.handles < u64.MAX) }
        ensures { self.new ≡ change_node handle_more id self.old }
    {
        self.update(id, |node| node.add_handle());
    }

    pub(crate) fn take_handle(&mut self, id: Id)
        requires { IfSome (node_at self.old id) (λ node. 0 < node.span.handles) }
        ensures { self.new ≡ change_node handle_less id self.old }
    {
        self.update(id, |node| node.take_handle());
    }

    pub(crate) fn add_child(&mut self, id: Id)
        requires { IfSome (node_at self.old id) (λ node. node.children < usize.MAX) }
        ensures { self.new ≡ change_node child_more id self.old }
    {
        self.update(id, |node| node.add_child());
    }

    pub(crate) fn count_down_children(&mut self, id: Id)
        requires { IfSome (node_at self.old id) (λ node. 0 < node.children) }
        ensures { self.new ≡ change_node child_less id self.old }
    {
        self.update(id, |node| node.count_down_children());
    }

    pub(crate) fn set_written(&mut self, id: Id)
        ensures { self.new ≡ change_node kept_printed id self.old }
    {
        self.update(id, |node| node.set_written());
    }

    // Changes the span with this id, if it is live.
    fn update<F: FnOnce(&mut Node)>(&mut self, id: Id, change: F)
        requires callable { (node : KeptSpan) → node_at self.old id ≡ Some node
            → (x : _) → x.now ≡ node → F.pre change x }
        requires same_id { (node new : KeptSpan) → FnOnceReturnsAtMut F.FnOnce change node tt new
            → new.span.id ≡ node.span.id }
        ensures { (f : KeptSpan → KeptSpan)
            → ((node new : KeptSpan) → FnOnceReturnsAtMut F.FnOnce change node tt new
            → new ≡ f node)
            → self.new ≡ change_node f id self.old }
    {
        if let Some(at) = position(self.slots.as_slice(), id) {
            if let Slot::Live(node) = &mut self.slots[at] {
                change(node);
            }
        }
    }

    // Appends fields to those of a span. If an allocation fails, nothing has changed. An id that
    // isn't live never allocates.
    pub(crate) fn record(&mut self, id: Id, fields: Fields) -> Result<(), AllocError>
        ensures ok { OnOk result (self.new ≡ change_node (fields_more fields) id self.old) }
        ensures err { OnErr result (self.new ≡ self.old) }
        ensures live { OnErr result (node_at self.old id ≡ None → ⊥) }
    {
        if let Some(at) = position(self.slots.as_slice(), id) {
            if let Slot::Live(node) = &mut self.slots[at] {
                return node.record(fields);
            }
        }
        Ok(())
    }
}

// Returns the place of the span with this id, or of its gap. If no gap between it and the newest
// span was removed, this takes one look. Each further look is a wait for memory when there are many
// spans.
fn position(slots: &[Slot], id: Id) -> Option<usize>
    requires { AreRising (slot_ids slots.now) }
    ensures { MatchOption result (find (slot_has id) slots.now ≡ None) (λ at.
        (at < length slots.now) × (find (slot_has id) slots.now ≡ slice_get slots.now at)) }
{
    let place = likely_place(slots, id);
    if is_at(slots, place, id) {
        return Some(place);
    }
    search(slots, id)
}

// Returns the place of the span with this id if no gap between it and the newest span was removed.
fn likely_place(slots: &[Slot], id: Id) -> usize {
    match slots.last() {
        Some(newest) => {
            let newer = newest.id().0.wrapping_sub(id.0) as usize;
            slots.len().wrapping_sub(1).wrapping_sub(newer)
        }
        None => 0,
    }
}

// Returns whether the span with this id, or its gap, is at this place.
fn is_at(slots: &[Slot], place: usize, id: Id) -> bool
    ensures { result ≡ option_map_or (slot_has id) (slice_get slots.now place) false }
{
    match slots.get(place) {
        Some(slot) => slot.id() == id,
        None => false,
    }
}

// Like `position`, by a search in the whole list. It looks in turn at the place that the id has if
// gaps were removed evenly, and in the middle. So it takes few looks if the gaps are evenly spread,
// and never more than twice as many as a binary search.
fn search(slots: &[Slot], id: Id) -> Option<usize>
    requires { AreRising (slot_ids slots.now) }
    ensures { MatchOption result (find (slot_has id) slots.now ≡ None) (λ at.
        (at < length slots.now) × (find (slot_has id) slots.now ≡ slice_get slots.now at)) }
{
    let mut from = 0;
    let mut to = slots.len();
    let (mut low, mut high) = ends(slots);
    let mut evenly = true;
    while from < to {
        let left = to - from;
        let ahead = if evenly {
            share(left, id.0.wrapping_sub(low), high.wrapping_sub(low))
        } else {
            left / 2
        };
        let at = from + ahead.min(left - 1);
        let here = slots[at].id().0;
        if here == id.0 {
            return Some(at);
        }
        if here < id.0 {
            from = at + 1;
            low = here;
        } else {
            to = at;
            high = here;
        }
        evenly = !evenly;
    }
    None
}

// Returns the lowest and the highest id.
fn ends(slots: &[Slot]) -> (u64, u64) {
    match (slots.first(), slots.last()) {
        (Some(oldest), Some(newest)) => (oldest.id().0, newest.id().0),
        _ => (0, 0),
    }
}

// Returns `places * ids / all`. The product can wrap if ids are far apart, and the result is then a
// bad guess.
fn share(places: usize, ids: u64, all: u64) -> usize {
    let scaled = ids.wrapping_mul(places as u64);
    scaled.checked_div(all).unwrap_or(0) as usize
}

// Removes all gaps of a full list if they are more than half of it. The list then has capacity for
// as many spans as it had gaps, so this costs little overall.
fn make_room(slots: &mut Vec<Slot>, live: usize)
    requires { IsLaidOut slots.old.items live }
    ensures spans { present slots.new.items ≡ present slots.old.items }
    ensures laid { IsLaidOut slots.new.items live }
{
    if slots.len() == slots.capacity() && live < slots.len() / 2 {
        slots.retain(|slot| !slot.is_gone());
    }
}

// Removes a span: truncates the list if it is the last one, otherwise leaves a gap.
fn vacate(slots: &mut Vec<Slot>, at: usize, id: Id)
    requires inside { at < length slots.old.items }
    requires rising { AreRising (slot_ids (set slots.old.items at (Gone id))) }
    ensures spans { present slots.new.items ≡ present (set slots.old.items at (Gone id)) }
    ensures rising { AreRising (slot_ids slots.new.items) }
{
    if at == slots.len() - 1 {
        slots.truncate(at);
    } else {
        slots[at] = Slot::Gone(id);
    }
}

// Removes the gaps at the end.
fn trim(slots: &mut Vec<Slot>)
    requires { AreRising (slot_ids slots.old.items) }
    ensures spans { present slots.new.items ≡ present slots.old.items }
    ensures rising { AreRising (slot_ids slots.new.items) }
    ensures ends { ends_in_gap slots.new.items ≡ false }
{
    while ends_in_gap(slots.as_slice()) {
        slots.truncate(slots.len() - 1);
    }
}

// Returns whether the last place is a gap.
fn ends_in_gap(slots: &[Slot]) -> bool
    ensures { result ≡ ends_in_gap slots.now }
{
    match slots.last() {
        Some(slot) => slot.is_gone(),
        None => false,
    }
}
