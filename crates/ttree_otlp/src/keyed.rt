//! What is kept by trace and span: the earliest time of each, and the rows nested in each.

ghost use Rattle.std.specs.Prelude.{◌≡◌, ◌∷◌, [], IfOk, OnOk, is_some, unwrap_or};
ghost use Rattle.ttree_otlp.specs.Cut.{count_with};
ghost use Rattle.ttree_otlp.specs.Nested.{begins_deeper, without_nested};
ghost use Rattle.ttree_otlp.specs.Keyed.{after_first, first_kept, first_time, has_none, head_of, kept_at, key_of, lowered, tail_of, trace_of, with_kept, without_kept};

use crate::cut::{count_as, sum_of};
use crate::item::ItemBox;
use crate::walk::Row;
use std::alloc::{AllocError, Global};
use std::collections::BTreeMap;
use std::marker::Model;

// Returns a span and its trace; without a span it is the trace, and without either the root. The
// span comes first, since the ids of spans differ early, and those of a trace's spans share its id.
pub(crate) fn key_of(alloc: Global, trace: &str, span: &str) -> Result<Vec<u8>, AllocError>
    ensures { IfOk result (λ key. key.items ≡ key_of trace.now span.now) }
{
    let length = span.len().saturating_add(1).saturating_add(trace.len());
    let mut key = Vec::with_capacity(alloc, length)?;
    key.extend_from_slice(span.as_bytes())?;
    key.extend_from_slice(" ".as_bytes())?;
    key.extend_from_slice(trace.as_bytes())?;
    Ok(key)
}

// Frees the space of elements that were taken, once it is most of it.
pub(crate) fn trim<T>(items: &mut Vec<T>)
    ensures { items.new.items ≡ items.old.items }
{
    if items.len() < items.capacity() / 2 {
        items.shrink_to_fit();
    }
}

// The traces and spans that there are. A trace has its earliest time.
#[derive(Drop)]
pub(crate) struct Known {
    entries: BTreeMap<Vec<u8>, u64>,
}

impl Model for Known {
    ghost use Rattle.std.specs.Prelude.{ℕ, List};
    ghost use Rattle.ttree_otlp.specs.Keyed.{by_bytes};

    ghost Value = { List (List ℕ × ℕ) };

    ghost view = { λ k. by_bytes k.entries.entries };
}

impl Known {
    pub(crate) fn new(alloc: Global) -> Known
        ensures { result ≡ [] }
    {
        Known {
            entries: BTreeMap::new(alloc),
        }
    }

    pub(crate) fn time_at(&self, key: &[u8]) -> Option<u64>
        ensures { result ≡ kept_at key.now self.now }
    {
        self.entries.get(key).copied()
    }

    pub(crate) fn put(&mut self, key: Vec<u8>, time: u64) -> Result<(), AllocError>
        ensures { OnOk result (self.new ≡ with_kept key.items time self.old) }
    {
        self.entries.insert(key, time)?;
        Ok(())
    }

    // Puts the earlier one of this time and the one at a key there. Returns whether there was one.
    pub(crate) fn lower(&mut self, key: &[u8], time: u64) -> bool
        ensures found { result ≡ is_some (kept_at key.now self.old) }
        ensures lowered { self.new ≡ lowered key.now time self.old }
    {
        match self.entries.get_mut(key) {
            Some(earliest) => {
                *earliest = (*earliest).min(time);
                true
            }
            None => false,
        }
    }
}

// The rows nested in one span, the first first.
#[derive(Drop)]
pub(crate) struct Group {
    // The first one last.
    items: Vec<ItemBox>,
}

impl Model for Group {
    ghost use Rattle.std.specs.Prelude.{List, reverse};
    ghost use Rattle.ttree_otlp.specs.declared.item.Item.{Item};

    ghost Value = { List Item };

    ghost view = { λ g. reverse g.items.items };
}

impl Group {
    pub(crate) fn new(alloc: Global) -> Group
        ensures { result ≡ [] }
    {
        Group {
            items: Vec::new(alloc),
        }
    }

    fn one(alloc: Global, item: ItemBox) -> Result<Group, AllocError>
        ensures { IfOk result (λ group. group ≡ item ∷ []) }
    {
        let mut group = Group::new(alloc);
        group.put(item)?;
        Ok(group)
    }

    // Puts a row before the others. Most spans have few, so little space is kept for more.
    pub(crate) fn put(&mut self, item: ItemBox) -> Result<(), AllocError>
        ensures { OnOk result (self.new ≡ item ∷ self.old) }
    {
        if self.items.len() == self.items.capacity() {
            self.items.reserve_exact(self.items.len() / 2 + 1)?;
        }
        Ok(self.items.push(item)?)
    }

    // Takes the first row.
    pub(crate) fn take(&mut self) -> Option<ItemBox>
        ensures item { result ≡ head_of self.old }
        ensures rest { self.new ≡ tail_of self.old }
    {
        self.items.pop()
    }

    // Returns the trace of the first row.
    pub(crate) fn trace(&self) -> &str
        ensures { result.now ≡ trace_of self.now }
    {
        match self.items.as_slice().last() {
            Some(item) => item.get().trace.as_str(),
            None => "",
        }
    }

    // Returns the time of the first row.
    pub(crate) fn time(&self) -> u64
        ensures { result ≡ first_time self.now }
    {
        match self.items.as_slice().last() {
            Some(item) => item.get().time,
            None => 0,
        }
    }
}

// Rows in drawing order, the first first.
#[derive(Drop)]
pub(crate) struct Rows {
    // The first one last.
    rows: Vec<Row>,
}

impl Model for Rows {
    ghost use Rattle.std.specs.Prelude.{List, reverse};
    ghost use Rattle.ttree_otlp.specs.declared.walk.Row.{Row};

    ghost Value = { List Row };

    ghost view = { λ r. reverse r.rows.items };
}

impl Rows {
    pub(crate) fn new(alloc: Global) -> Rows
        ensures { result ≡ [] }
    {
        Rows {
            rows: Vec::new(alloc),
        }
    }

    pub(crate) fn is_empty(&self) -> bool
        ensures { result ≡ has_none self.now }
    {
        self.rows.is_empty()
    }

    // Puts a row before the others.
    pub(crate) fn put(&mut self, row: Row) -> Result<(), AllocError>
        ensures { OnOk result (self.new ≡ row ∷ self.old) }
    {
        Ok(self.rows.push(row)?)
    }

    // Drops the first rows that are deeper than this.
    pub(crate) fn drop_nested(&mut self, depth: usize)
        ensures { self.new ≡ without_nested depth self.old }
    {
        while self.begins_deeper(depth) {
            drop(self.rows.pop());
        }
    }

    // Drops the first rows that are deeper than this. Adds how many spans are left out with them.
    pub(crate) fn count_nested(&mut self, depth: usize, count: u64) -> u64
        ensures count { result ≡ count_with depth count self.old }
        ensures rest { self.new ≡ without_nested depth self.old }
    {
        let mut count = count;
        while self.begins_deeper(depth) {
            if let Some(row) = self.rows.pop() {
                count = sum_of(count, count_as(&row.item.get().shape));
            }
        }
        count
    }

    // Returns the rows, the first first.
    pub(crate) fn into_rows(self) -> Vec<Row>
        ensures { result.items ≡ self }
    {
        let mut rows = self.rows;
        rows.reverse();
        rows
    }

    fn begins_deeper(&self, depth: usize) -> bool
        ensures { result ≡ begins_deeper depth self.now }
    {
        match self.rows.as_slice().last() {
            Some(row) => depth < row.depth,
            None => false,
        }
    }

    // Takes the first row.
    pub(crate) fn take(&mut self) -> Option<Row>
        ensures row { result ≡ head_of self.old }
        ensures rest { self.new ≡ tail_of self.old }
    {
        let row = self.rows.pop();
        trim(&mut self.rows);
        row
    }
}

// The rows nested in each trace and span.
#[derive(Drop)]
pub(crate) struct Groups {
    entries: BTreeMap<Vec<u8>, Group>,
}

impl Model for Groups {
    ghost use Rattle.std.specs.Prelude.{ℕ, List};
    ghost use Rattle.ttree_otlp.specs.Keyed.{by_bytes};
    ghost use Rattle.ttree_otlp.specs.declared.item.Item.{Item};

    ghost Value = { List (List ℕ × List Item) };

    ghost view = { λ g. by_bytes g.entries.entries };
}

impl Groups {
    pub(crate) fn new(alloc: Global) -> Groups
        ensures { result ≡ [] }
    {
        Groups {
            entries: BTreeMap::new(alloc),
        }
    }

    // Takes the rows at a key.
    pub(crate) fn take(&mut self, key: &[u8]) -> Option<Group>
        ensures group { result ≡ kept_at key.now self.old }
        ensures rest { self.new ≡ without_kept key.now self.old }
    {
        self.entries.remove(key)
    }

    // Puts a row before those at a key.
    pub(crate) fn put_first(
        &mut self,
        alloc: Global,
        key: Vec<u8>,
        item: ItemBox,
    ) -> Result<(), AllocError>
        ensures { OnOk result (self.new
            ≡ with_kept key.items (item ∷ unwrap_or (kept_at key.items self.old) []) self.old) }
    {
        if let Some(group) = self.entries.get_mut(key.as_slice()) {
            return group.put(item);
        }
        self.entries.insert(key, Group::one(alloc, item)?)?;
        Ok(())
    }

    // Takes the rows at the first key.
    pub(crate) fn take_first(&mut self) -> Option<Group>
        ensures group { result ≡ first_kept self.old }
        ensures rest { self.new ≡ after_first self.old }
    {
        match self.entries.pop_first() {
            Some((_, group)) => Some(group),
            None => None,
        }
    }
}
