//! The live spans.

mod surface;

ghost use Rattle.std.specs.Prelude.{◌≡◌, ◌<◌, ◌++◌, [], ◌∷◌, None, Some, Ok, IfOk, IfSome, IsSome, OnOk, OnErr, Option, option_map, option_copied, reverse, length, false, IsTrue, ◌↔◌};
ghost use Rattle.std.specs.List.{list_any};
ghost use Rattle.tracing_tree_spans.specs.Registry.Ids.{id_of};
ghost use Rattle.tracing_tree_spans.specs.Registry.Forest.{IsForest, IsGrownForest, IsPathIfLive, IsClosing, empty_forest, span_at, is_live, is_child_of, parent_of, any_unless_live, path_of, path_of_any, id_after, closing_of, going_up, without_spans, take_back, unless_handle};
ghost use Rattle.tracing_tree_spans.specs.Registry.Spans.{shown_span};
ghost use Rattle.tracing_tree_spans.specs.Registry.Lookup.{data_at};
ghost use Rattle.tracing_tree_spans.specs.Registry.Branches.{path_at, KeepsPaths};
ghost use Rattle.tracing_tree_spans.specs.Registry.Registered.{IsNewSpan, IsCloned, IsClosed, ListsClosing, AsksLastHandle, listed, IsNewest, IsKept, alone};
ghost use Rattle.tracing_tree_spans.specs.Registry.Nodes.{spans_of, node_at, with_child, without_span, AreBelow, CountsChildren, IsTied};

use super::branches::Branches;
use super::node::Node;
use super::nodes::Nodes;
use super::path::SpanPath;
use super::{Attributes, Context, Data, LookupSpan, SpanRef};
use std::alloc::{AllocError, Global};
use std::marker::Model;
use tracing_tree_base::field::Fields;
use tracing_tree_base::{Id, Refusal};

/// The live spans and the next id. A span is live while it has a handle or a live child.
///
/// Each span is stored with its path and the number of its children. So a path is available at
/// once, and a close visits only spans on the path of the span that closes.
///
/// A path of at most five spans is stored in the span's record, which takes 256 bytes. Longer
/// paths share lists of ids. A span's first child adds eight bytes to the list of its parent.
/// Another child that is live at the same time copies its parent's path: 80 bytes at depth 10, 800
/// at depth 100. The lists double when they grow, and so does the list of records. So 100,000 live
/// spans take 34 MB up to depth 5, 35 MB as one chain, and 121 MB as children of one span at depth
/// 100.
///
/// A child keeps its parent live:
/// ```rust
/// let mut spans = Registry::new(alloc);
/// let parent = spans.new_span(root, here)?;
/// let id = spans.new_span(child, here)?; // below `Parent::Of(parent)`
/// spans.try_close(parent)?; // false: the child is live
/// spans.try_close(id)?; // true: both are removed
/// ```
#[derive(Drop)]
pub struct Registry {
    nodes: Nodes,
    branches: Branches,
    next: Option<Id>,
}

impl Model for Registry {
    ghost use Rattle.tracing_tree_spans.specs.Registry.Forest.{Forest};
    ghost use Rattle.tracing_tree_spans.specs.Registry.Registered.{IsKept};
    ghost use Rattle.tracing_tree_spans.specs.Registry.Nodes.{spans_of, IsTied};

    ghost Value = { Forest };

    ghost view = { λ r. record { spans = spans_of r.nodes; next = r.next } };

    ghost invariant = { λ r. IsKept (spans_of r.nodes) r.next × IsTied r.branches.branches.items r.nodes };
}

impl Registry {
    /// Returns a registry without spans, whose first id is 1. Never allocates.
    pub fn new(alloc: Global) -> Registry
        ensures { result ≡ empty_forest (id_of 1) }
    {
        Registry::starting_at(alloc, 1)
    }

    /// Returns a registry without spans, whose first id is `first`. Never allocates.
    pub fn starting_at(alloc: Global, first: u64) -> Registry
        ensures { result ≡ empty_forest (id_of first) }
    {
        Registry {
            nodes: Nodes::new(alloc),
            branches: Branches::new(alloc),
            next: Some(Id(first)),
        }
    }

    /// Returns the id of the next new span, or `None` after `u64::MAX` was used.
    pub fn next_id(&self) -> Option<Id>
        ensures { result ≡ self.now.next }
    {
        self.next
    }

    /// Makes a span with one handle, and returns its id. It starts at the context's moment, and
    /// isn't printed yet.
    ///
    /// # Errors
    ///
    /// `NotHeld` if the parent isn't live. `TooMany` after the id `u64::MAX` was used. `Memory` if
    /// an allocation fails. The registry is unchanged then, and the attributes are dropped.
    pub fn new_span(&mut self, attributes: Attributes, context: &Context) -> Result<Id, Refusal>
        ensures made { IsNewSpan attributes context.now result self.old self.new }

        // It is the newest span, and `take_back` undoes this call.
        ensures newest { IfOk result (λ id. IsNewest id self.new) }
        ensures undone { IfOk result (λ id. take_back id self.new ≡ self.old) }
    {
        let parent = attributes.parent.named(context.current);
        if let Some(id) = missing(&self.nodes, parent) {
            return Err(Refusal::NotHeld(id));
        }
        let id = self.next.ok_or(Refusal::TooMany)?;

        // Space for the span is reserved first. So no path is stored for a span that isn't made.
        self.nodes.reserve()?;
        let path = add_path(&self.nodes, &mut self.branches, parent, id)?;
        let Attributes {
            name,
            target,
            parent: _,
            fields,
        } = attributes;
        let node = Node {
            id,
            handles: 1,
            children: 0,
            parent,
            path,
            kept: Data {
                start: context.moment.mono,
                fields,
                written: false,
            },
            name,
            target,
        };
        push_below(&mut self.nodes, parent, node)?;
        self.next = following(id);
        Ok(id)
    }

    /// Adds one handle to a live span, even if only a child keeps it live. Returns its id. Never
    /// allocates.
    ///
    /// # Errors
    ///
    /// `NotHeld` if the span isn't live. `TooMany` if it has `u64::MAX` handles. Nothing has
    /// changed then.
    pub fn clone_span(&mut self, id: Id) -> Result<Id, Refusal>
        ensures { IsCloned id result self.old self.new }
    {
        let Some(node) = self.nodes.get(id) else {
            return Err(Refusal::NotHeld(id));
        };
        if node.handles() == u64::MAX {
            return Err(Refusal::TooMany);
        }
        self.nodes.add_handle(id);
        Ok(id)
    }

    /// Drops one handle of a span. Removes the span if it has no handles and no children left, then
    /// its parent likewise, and so on upward. Returns whether the span was removed. Never
    /// allocates.
    ///
    /// # Errors
    ///
    /// `NotHeld` if the span isn't live or has no handle left. Nothing has changed then.
    pub fn try_close(&mut self, id: Id) -> Result<bool, Refusal>
        ensures { IsClosed id result self.old self.new }
    {
        let Some(node) = self.nodes.get(id) else {
            return Err(Refusal::NotHeld(id));
        };
        if node.handles() == 0 {
            return Err(Refusal::NotHeld(id));
        }
        let path = self.branches.path(node.path());
        let count = closing_part(&self.nodes, node, path).len();
        Ok(self.close(id, count))
    }

    /// Closes a span like `try_close`, given the ids that `closing_into` listed. Since then only
    /// marks may have changed. Returns whether the span was removed. The caller must ensure that
    /// the span has a handle left, and that `ids` are the spans that will be removed. Never
    /// allocates.
    pub fn close_listed(&mut self, id: Id, ids: &[Id]) -> bool
        requires held { unless_handle self.old id ≡ None }
        requires listed { ids.now ≡ closing_of self.old id }
        ensures { IsClosed id (Ok result) self.old self.new }
    {
        self.close(id, ids.len())
    }

    // Drops a handle, and removes the `count` spans that close with it.
    fn close(&mut self, id: Id, count: usize) -> bool
        requires held { unless_handle self.old id ≡ None }
        requires counted { count ≡ length (closing_of self.old id) }
        ensures { IsClosed id (Ok result) self.old self.new }
    {
        self.nodes.take_handle(id);
        remove_upward(&mut self.nodes, &mut self.branches, id, count);
        count > 0
    }

    /// Replaces the content of the list by the ids that `try_close` would remove, in order. They
    /// are the span, its parent, and so on upward, as long as each has no other handle and no other
    /// child. The list is empty if the span keeps a handle or a child. It allocates only if the
    /// list's capacity is too small.
    ///
    /// # Errors
    ///
    /// `NotHeld` if the span isn't live or has no handle left. `Memory` if an allocation fails.
    /// Don't use the list after an error.
    pub fn closing_into(&self, id: Id, ids: &mut Vec<Id>) -> Result<(), Refusal>
        ensures lists { ListsClosing id (listed ids.new result) self.now }
        ensures longest { IfOk result (λ done. IsClosing self.now id ids.new.items) }
        ensures last { AsksLastHandle id (listed ids.new result) self.now }
    {
        ids.clear();
        let Some(node) = self.nodes.get(id) else {
            return Err(Refusal::NotHeld(id));
        };
        if node.handles() == 0 {
            return Err(Refusal::NotHeld(id));
        }
        let path = self.branches.path(node.path());
        let part = closing_part(&self.nodes, node, path);
        if part.is_empty() {
            return Ok(());
        }
        ids.extend_from_slice(part)?;
        ids.reverse();
        Ok(())
    }

    /// Removes a new span, so that its id is the next one again. Never allocates. The caller must
    /// ensure that the span is the newest, is live, and has one handle and no child.
    pub fn take_back(&mut self, id: Id)
        requires { IsNewest id self.old }
        ensures { self.new ≡ take_back id self.old }
    {
        remove_leaf(&mut self.nodes, &mut self.branches, id);
        self.next = Some(id);
    }
}

// Returns the id, if there is one that isn't live.
fn missing(nodes: &Nodes, id: Option<Id>) -> Option<Id>
    ensures { result ≡ any_unless_live (alone (spans_of nodes.now)) id }
{
    let id = id?;
    nodes.get(id).is_none().then_some(id)
}

// Returns the id after this one, if there is one.
fn following(id: Id) -> Option<Id>
    ensures { result ≡ id_after id }
{
    id.0.checked_add(1).map(Id)
}

// Stores the path of a new span. If an allocation fails, each stored path is unchanged.
fn add_path(
    nodes: &Nodes,
    branches: &mut Branches,
    parent: Option<Id>,
    id: Id,
) -> Result<SpanPath, AllocError>
    requires tied { IsTied branches.old.branches.items nodes.now }
    ensures paths { KeepsPaths branches.old.branches.items branches.new.branches.items }
    ensures path { IfOk result (λ path. path_at branches.new.branches.items path ≡
        Some (path_of_any (alone (spans_of nodes.now)) parent ++ id ∷ [])) }
{
    match parent.and_then(|parent| nodes.get(parent)) {
        Some(node) => branches.add(node.path(), id),
        None => Ok(SpanPath::root(id)),
    }
}

// Appends a new span, and counts it among its parent's children. If an allocation fails, nothing
// has changed.
fn push_below(nodes: &mut Nodes, parent: Option<Id>, node: Node) -> Result<(), AllocError>
    requires below { AreBelow node.span.id.0 nodes.old }
    requires counted { CountsChildren nodes.old }
    requires childless { node.children ≡ 0 }
    ensures ok { OnOk result (nodes.new ≡ with_child parent (nodes.old ++ node ∷ [])) }
    ensures err { OnErr result (nodes.new ≡ nodes.old) }
{
    nodes.push(node)?;
    if let Some(parent) = parent {
        nodes.add_child(parent);
    }
    Ok(())
}

// Returns the end of a span's path that closes when a handle of the span is dropped. It has the
// span, its parent, and so on upward, as long as each has no other handle and no other child.
fn closing_part<'a>(nodes: &Nodes, node: &Node, path: &'a [Id]) -> &'a [Id]
    requires kept { IsKept (spans_of nodes.now) None }
    requires counted { CountsChildren nodes.now }
    requires there { node_at nodes.now node.now.span.id ≡ Some node.now }
    requires held { 0 < node.now.span.handles }
    requires path { path.now ≡ path_of (alone (spans_of nodes.now)) node.now.span.id }
    ensures { reverse result.now ≡ closing_of (alone (spans_of nodes.now)) node.now.span.id }
{
    if !node.is_kept_by_a_handle() {
        return &path[path.len()..];
    }
    let mut count = 1;
    let mut next = node.parent();
    while let Some(id) = next {
        let Some(parent) = nodes.get(id) else {
            break;
        };
        if !parent.is_kept_by_a_child() {
            break;
        }
        count += 1;
        next = parent.parent();
    }
    &path[path.len() - count..]
}

// Removes a span without children, and counts it out of its parent's children. Returns the parent.
fn remove_leaf(nodes: &mut Nodes, branches: &mut Branches, id: Id) -> Option<Id>
    requires kept { IsKept (spans_of nodes.old) None }
    requires tied { IsTied branches.old.branches.items nodes.old }
    requires childless { list_any (is_child_of id) (spans_of nodes.old) ≡ false }
    ensures parent { result ≡ parent_of (alone (spans_of nodes.old)) id }
    ensures spans { spans_of nodes.new ≡ without_span id (spans_of nodes.old) }
    ensures tied { IsTied branches.new.branches.items nodes.new }
{
    let node = nodes.get(id)?;
    let parent = node.parent();
    branches.remove(node.path());
    nodes.remove(id);
    let parent = parent?;
    nodes.count_down_children(parent);
    Some(parent)
}

// Removes `count` spans: the span with this id, its parent, and so on upward.
fn remove_upward(nodes: &mut Nodes, branches: &mut Branches, id: Id, count: usize)
    requires kept { IsKept (spans_of nodes.old) None }
    requires tied { IsTied branches.old.branches.items nodes.old }
    requires all { count ≡ length (going_up (alone (spans_of nodes.old)) id) }
    ensures spans { spans_of nodes.new ≡
        (without_spans (going_up (alone (spans_of nodes.old)) id)
        (alone (spans_of nodes.old))).spans }
    ensures kept { (next : Option Id) → IsKept (spans_of nodes.old) next
        → IsKept (spans_of nodes.new) next }
    ensures tied { IsTied branches.new.branches.items nodes.new }
{
    let mut next = Some(id);
    for _ in 0..count {
        let Some(id) = next else {
            break;
        };
        next = remove_leaf(nodes, branches, id);
    }
}

impl LookupSpan for Registry {
    ghost forest = { λ r. r };

    fn span(&self, id: Id) -> Option<SpanRef<'_>>
        ensures shown { result ≡ option_map shown_span (span_at self.now id) }
        ensures formed { IsForest self.now }
        ensures grown { IsGrownForest self.now }
    {
        Some(self.nodes.get(id)?.look())
    }

    fn parent(&self, id: Id) -> Option<Id>
        ensures parent { result ≡ parent_of self.now id }
        ensures formed { IsForest self.now }
        ensures grown { IsGrownForest self.now }
    {
        self.nodes.get(id)?.parent()
    }

    fn path(&self, alloc: Global, id: Id) -> Result<Vec<Id>, AllocError>
        ensures path { IfOk result (λ path. path.items ≡ path_of self.now id) }
        ensures whole { IfOk result (λ path. IsPathIfLive self.now id path.items) }
        ensures live { OnErr result (span_at self.now id ≡ None → ⊥) }
        ensures formed { IsForest self.now }
        ensures grown { IsGrownForest self.now }
    {
        match self.nodes.get(id) {
            Some(node) => self.branches.path(node.path()).to_vec(alloc),
            None => Ok(Vec::new(alloc)),
        }
    }

    /// Returns the path of a span, or `None` exactly if the id isn't live.
    fn kept_path(&self, id: Id) -> Option<&[Id]>
        ensures kept { IfSome result (λ path. path.now ≡ path_of self.now id) }
        ensures live { IsSome result ↔ IsTrue (is_live self.now id) }
        ensures formed { IsForest self.now }
        ensures grown { IsGrownForest self.now }
    {
        Some(self.branches.path(self.nodes.get(id)?.path()))
    }

    fn data(&self, id: Id) -> Option<&Data>
        ensures kept { option_copied result ≡ data_at self.now id }
        ensures formed { IsForest self.now }
        ensures grown { IsGrownForest self.now }
    {
        Some(self.nodes.get(id)?.data())
    }

    fn record(&mut self, id: Id, fields: Fields) -> Result<(), AllocError> {
        self.nodes.record(id, fields)
    }

    fn set_written(&mut self, id: Id) {
        self.nodes.set_written(id);
    }
}
