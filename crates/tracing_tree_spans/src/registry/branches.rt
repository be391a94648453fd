//! The paths of deeply nested spans.

ghost use Rattle.std.specs.Prelude.{◌≡◌, ◌<◌, ◌+◌, ◌++◌, ◌∷◌, [], IfOk, IfSome, OnOk, Some, List, length, slice_get, option_copied};
ghost use Rattle.tracing_tree_base.specs.declared.context.Id.{Id};
ghost use Rattle.tracing_tree_spans.specs.Registry.Branches.{part_of, path_at, KeepsParts, KeepsShorterParts, KeepsPaths, KeepsOthers, IsFreeAt};
ghost use Rattle.tracing_tree_spans.specs.declared.registry.path.SpanPath.TheVariants.{Long};

use super::path::{Place, ShortPath, SpanPath};
use std::alloc::{AllocError, Global};
use std::mem;
use tracing_tree_base::Id;

// The most ids that a buffer has space for if it is kept for the next branch.
const LONGEST_SPARE: usize = 128;

// A list of ids, each the parent of the next, from a root down. Each prefix longer than `shared` is
// the path of a span that is stored here. A free branch has no ids.
#[derive(Drop)]
pub(crate) struct Branch {
    ids: Vec<Id>,
    shared: usize,
    next_free: Option<usize>,
}

impl Branch {
    fn len(&self) -> usize
        ensures { result ≡ length self.now.ids.items }
    {
        self.ids.len()
    }

    // Returns the first `count` ids, if they can be the path of a span that is stored here.
    fn part(&self, count: usize) -> Option<&[Id]>
        ensures { option_copied result ≡ part_of self.now count }
    {
        if count <= self.shared {
            return None;
        }
        if count > self.ids.len() {
            return None;
        }
        Some(&self.ids[..count])
    }

    // Appends an id. If an allocation fails, nothing has changed.
    fn push(&mut self, id: Id) -> Result<(), AllocError>
        ensures parts { KeepsParts self.old self.new }
        ensures longest { OnOk result
            ((ids : List Id) → part_of self.old (length self.old.ids.items) ≡ Some ids
            → part_of self.new (length self.old.ids.items + 1) ≡ Some (ids ++ id ∷ [])) }
    {
        self.ids.push(id)?;
        Ok(())
    }

    // Removes the last id. If no other path is stored here, frees the branch and returns its
    // buffer. `next_free` is the branch that was freed before it.
    fn pop(&mut self, alloc: Global, next_free: Option<usize>) -> Option<Vec<Id>>
        ensures { KeepsShorterParts self.old self.new }
    {
        self.ids.pop();
        if self.ids.len() > self.shared {
            return None;
        }
        self.next_free = next_free;
        Some(mem::replace(&mut self.ids, Vec::new(alloc)))
    }
}

// The paths that don't fit in a span's record. The first child of the last span of a branch extends
// the branch. Every other child starts a branch with a copy of its parent's path.
#[derive(Drop)]
pub(crate) struct Branches {
    branches: Vec<Branch>,

    // The branch that was freed last among those that are free.
    free: Option<usize>,

    // The buffer of a freed branch.
    spare: Vec<Id>,
}

impl Branches {
    pub(crate) fn new(alloc: Global) -> Branches {
        Branches {
            branches: Vec::new(alloc),
            free: None,
            spare: Vec::new(alloc),
        }
    }

    // Returns a stored path.
    pub(crate) fn path<'a>(&'a self, path: &'a SpanPath) -> &'a [Id]
        ensures { (ids : List Id) → path_at self.now.branches.items path.now ≡ Some ids
            → result.now ≡ ids }
    {
        match path {
            SpanPath::Short(path) => path.as_slice(),
            SpanPath::Long(place) => self.long(*place),
        }
    }

    fn long(&self, place: Place) -> &[Id]
        ensures { (ids : List Id) → path_at self.now.branches.items (Long place) ≡ Some ids
            → result.now ≡ ids }
    {
        let Some(branch) = self.branches.get(place.branch) else {
            return &[];
        };
        match branch.part(place.length) {
            Some(ids) => ids,
            None => &[],
        }
    }

    // Stores the path of a new child of the span with this path. If an allocation fails, each
    // stored path is unchanged.
    pub(crate) fn add(&mut self, parent: &SpanPath, id: Id) -> Result<SpanPath, AllocError>
        ensures paths { KeepsPaths self.old.branches.items self.new.branches.items }
        ensures path { IfOk result
            (λ path. (ids : List Id) → path_at self.old.branches.items parent.now ≡ Some ids
            → path_at self.new.branches.items path ≡ Some (ids ++ id ∷ [])) }
    {
        match parent {
            SpanPath::Short(path) => self.add_below_short(path.as_slice(), id),
            SpanPath::Long(place) => self.add_below_long(*place, id),
        }
    }

    fn add_below_short(&mut self, parent: &[Id], id: Id) -> Result<SpanPath, AllocError>
        ensures paths { KeepsPaths self.old.branches.items self.new.branches.items }
        ensures path { IfOk result
            (λ path. path_at self.new.branches.items path ≡ Some (parent.now ++ id ∷ [])) }
    {
        if let Some(short) = ShortPath::below(parent, id) {
            return Ok(SpanPath::Short(short));
        }
        let ids = joined(self.take_spare(), parent, id)?;
        self.start(ids)
    }

    fn add_below_long(&mut self, parent: Place, id: Id) -> Result<SpanPath, AllocError>
        ensures paths { KeepsPaths self.old.branches.items self.new.branches.items }
        ensures path { IfOk result
            (λ path. (ids : List Id) → path_at self.old.branches.items (Long parent) ≡ Some ids
            → path_at self.new.branches.items path ≡ Some (ids ++ id ∷ [])) }
    {
        if let Some(path) = self.extend(parent, id)? {
            return Ok(path);
        }
        let spare = self.take_spare();
        let ids = joined(spare, self.long(parent), id)?;
        self.start(ids)
    }

    // Appends an id to a branch that ends with its parent. Returns `None` if it ends otherwise.
    fn extend(&mut self, parent: Place, id: Id) -> Result<Option<SpanPath>, AllocError>
        ensures paths { KeepsPaths self.old.branches.items self.new.branches.items }
        ensures path { IfOk result
            (λ extended. IfSome extended
            (λ path. (ids : List Id) → path_at self.old.branches.items (Long parent) ≡ Some ids
            → path_at self.new.branches.items path ≡ Some (ids ++ id ∷ []))) }
    {
        if parent.branch >= self.branches.len() {
            return Ok(None);
        }
        let branch = &mut self.branches[parent.branch];
        if branch.len() != parent.length {
            return Ok(None);
        }
        branch.push(id)?;
        Ok(Some(SpanPath::Long(Place {
            branch: parent.branch,
            length: parent.length + 1,
        })))
    }

    // Starts a branch with these ids.
    fn start(&mut self, ids: Vec<Id>) -> Result<SpanPath, AllocError>
        requires { 0 < length ids.items }
        ensures paths { KeepsPaths self.old.branches.items self.new.branches.items }
        ensures path { IfOk result
            (λ path. path_at self.new.branches.items path ≡ Some ids.items) }
    {
        let length = ids.len();
        let branch = self.store(Branch {
            ids,
            shared: length - 1,
            next_free: None,
        })?;
        Ok(SpanPath::Long(Place { branch, length }))
    }

    // Stores a branch, and returns its index.
    fn store(&mut self, branch: Branch) -> Result<usize, AllocError>
        ensures paths { KeepsPaths self.old.branches.items self.new.branches.items }
        ensures branch { IfOk result
            (λ at. slice_get self.new.branches.items at ≡ Some branch) }
    {
        if let Some(at) = self.take_free() {
            self.branches[at] = branch;
            return Ok(at);
        }
        let at = self.branches.len();
        self.branches.push(branch)?;
        Ok(at)
    }

    // Returns the index of a free branch, which is no longer listed as free.
    fn take_free(&mut self) -> Option<usize>
        ensures branches { self.new.branches ≡ self.old.branches }
        ensures free { IfSome result (λ at. IsFreeAt self.new.branches.items at) }
    {
        let at = self.free?;
        if at >= self.branches.len() {
            return None;
        }
        let branch = &self.branches[at];
        if branch.len() > 0 {
            return None;
        }
        self.free = branch.next_free;
        Some(at)
    }

    fn take_spare(&mut self) -> Vec<Id>
        ensures { self.new.branches ≡ self.old.branches }
    {
        let alloc = *self.branches.allocator();
        mem::replace(&mut self.spare, Vec::new(alloc))
    }

    // Removes the path of a span that has no child.
    pub(crate) fn remove(&mut self, path: &SpanPath)
        ensures { KeepsOthers path.now self.old.branches.items self.new.branches.items }
    {
        if let SpanPath::Long(place) = path {
            self.cut(*place);
        }
    }

    fn cut(&mut self, place: Place)
        ensures { KeepsOthers (Long place) self.old.branches.items self.new.branches.items }
    {
        if place.branch >= self.branches.len() {
            return;
        }
        let alloc = *self.branches.allocator();
        let branch = &mut self.branches[place.branch];
        if branch.len() != place.length {
            return;
        }
        if let Some(buffer) = branch.pop(alloc, self.free) {
            self.free = Some(place.branch);
            self.keep(buffer);
        }
    }

    // Keeps the buffer of a freed branch for the next one, unless it is long.
    fn keep(&mut self, buffer: Vec<Id>)
        ensures { self.new.branches ≡ self.old.branches }
    {
        if buffer.capacity() <= LONGEST_SPARE {
            self.spare = buffer;
        }
    }
}

// Returns the ids and one more, in this buffer.
fn joined(buffer: Vec<Id>, parent: &[Id], id: Id) -> Result<Vec<Id>, AllocError>
    ensures { IfOk result (λ ids. ids.items ≡ parent.now ++ id ∷ []) }
{
    let mut ids = buffer;
    ids.clear();
    ids.reserve_exact(parent.len() + 1)?;
    ids.extend_from_slice(parent)?;
    ids.push(id)?;
    Ok(ids)
}
