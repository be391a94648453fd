//! The rows of an input nested by their ids, in drawing order.

ghost use Rattle.std.specs.Prelude.{◌≡◌, ◌∷◌, IfOk, OnOk, option_map};
ghost use Rattle.ttree_otlp.specs.Keyed.{key_of};
ghost use Rattle.ttree_otlp.specs.Walk.{after_item, begun_walk, entered_at, grouped, innermost_left, is_trace, item_entered, key_in, left_over, next_item, own_key, put_first, row_added, row_opened, rows_in_order, step_count, stepped_times, trace_item, walk_stepped};

use crate::item::{Item, ItemBox, Place, Shape};
use crate::keyed::{Group, Groups, key_of, trim};
use std::alloc::{AllocError, Global};
use std::marker::Model;
use tracing_tree_base::text::Text;

// A row of the tree, and how many spans it is nested in.
#[derive(Drop)]
pub(crate) struct Row {
    pub(crate) depth: usize,
    pub(crate) item: ItemBox,
}

// The rows so far, and what is open.
#[derive(Drop)]
struct Walk {
    alloc: Global,
    // The rows that are nested in no open span.
    groups: Groups,
    // The rows that are left at the root and in each open span.
    frames: Vec<Group>,
    rows: Vec<Row>,
}

impl Model for Walk {
    ghost use Rattle.std.specs.Prelude.{reverse};
    ghost use Rattle.ttree_otlp.specs.Walk.{WalkState};

    ghost Value = { WalkState };

    ghost view = { λ w. record {
      groups = w.groups;
      frames = reverse w.frames.items;
      rows = w.rows.items;
    } };
}

// Returns rows, sorted by their places, in drawing order.
pub(crate) fn rows_in_order(alloc: Global, items: Vec<ItemBox>) -> Result<Vec<Row>, AllocError>
    ensures { IfOk result (λ rows. rows.items ≡ rows_in_order items.items) }
{
    let count = items.len();
    let steps = step_count(count);
    let groups = grouped(alloc, items)?;
    let mut walk = Walk::new(alloc, count, groups)?;
    walk.step_times(steps)?;
    Ok(walk.into_rows())
}

fn step_count(rows: usize) -> u64
    ensures { result ≡ step_count rows }
{
    (rows as u64).saturating_mul(4)
}

// Returns rows grouped by the span that they are nested in.
fn grouped(alloc: Global, items: Vec<ItemBox>) -> Result<Groups, AllocError>
    ensures { IfOk result (λ groups. groups ≡ grouped items.items) }
{
    let mut groups = Groups::new(alloc);
    let mut items = items;
    while let Some(item) = items.pop() {
        put_first(alloc, &mut groups, item)?;
        trim(&mut items);
    }
    Ok(groups)
}

fn key_in(alloc: Global, item: &Item) -> Result<Vec<u8>, AllocError>
    ensures { IfOk result (λ key. key.items ≡ key_in item.now) }
{
    key_of(alloc, item.trace.as_str(), item.parent.as_str())
}

// Puts a row before those of its span that are there.
fn put_first(alloc: Global, groups: &mut Groups, item: ItemBox) -> Result<(), AllocError>
    ensures { OnOk result (groups.new ≡ put_first item groups.old) }
{
    let key = key_in(alloc, item.get())?;
    groups.put_first(alloc, key, item)
}

fn is_trace(item: &Item) -> bool
    ensures { result ≡ is_trace item.now.shape }
{
    match &item.shape {
        Shape::Trace(_) => true,
        Shape::Span(_) | Shape::Note(_) | Shape::LeftOut(_) => false,
    }
}

// Returns the key of the rows that are nested in a row. An event and a log have none.
fn own_key(alloc: Global, item: &Item) -> Result<Option<Vec<u8>>, AllocError>
    ensures { IfOk result (λ key. option_map (λ k. k.items) key ≡ own_key item.now) }
{
    match &item.shape {
        Shape::Trace(id) => Ok(Some(key_of(alloc, id.as_str(), "")?)),
        Shape::Span(span) => Ok(Some(key_of(alloc, item.trace.as_str(), span.id.as_str())?)),
        Shape::Note(_) | Shape::LeftOut(_) => Ok(None),
    }
}

// Returns the row of a trace at this time.
fn trace_item(alloc: Global, id: &str, time: u64) -> Result<ItemBox, AllocError>
    ensures { IfOk result (λ item. item ≡ trace_item id.now time) }
{
    let item = Item {
        trace: Text::from_str(alloc, "")?,
        parent: Text::from_str(alloc, "")?,
        place: Place {
            time,
            rank: 1,
            number: 0,
            index: 0,
        },
        time,
        shape: Shape::Trace(Text::from_str(alloc, id)?),
    };
    ItemBox::new(alloc, item)
}

impl Walk {
    fn new(alloc: Global, count: usize, groups: Groups) -> Result<Walk, AllocError>
        ensures { IfOk result (λ walk. walk ≡ begun_walk groups) }
    {
        let mut groups = groups;
        let key = key_of(alloc, "", "")?;
        let root = groups.take(key.as_slice()).unwrap_or(Group::new(alloc));
        let mut frames = Vec::new(alloc);
        frames.push(root)?;
        Ok(Walk {
            alloc,
            groups,
            frames,
            rows: Vec::with_capacity(alloc, count)?,
        })
    }

    fn into_rows(self) -> Vec<Row>
        ensures { result.items ≡ self.rows }
    {
        self.rows
    }

    fn step_times(&mut self, count: u64) -> Result<(), AllocError>
        ensures { OnOk result (self.new ≡ stepped_times count self.old) }
    {
        for _done in 0..count {
            self.step()?;
        }
        Ok(())
    }

    // Enters the next row of the innermost span, or leaves the span after its last row.
    fn step(&mut self) -> Result<(), AllocError>
        ensures { OnOk result (self.new ≡ walk_stepped self.old) }
    {
        match self.next_item() {
            Some(item) => self.enter(item),
            None => self.leave(),
        }
    }

    // Takes the next row of the innermost span.
    fn next_item(&mut self) -> Option<ItemBox>
        ensures item { result ≡ next_item self.old.frames }
        ensures rest { self.new ≡ record self.old { frames = after_item self.old.frames } }
    {
        match self.frames.as_mut_slice().last_mut() {
            Some(group) => group.take(),
            None => None,
        }
    }

    // Adds a row, and opens it if rows may be nested in it.
    fn enter(&mut self, item: ItemBox) -> Result<(), AllocError>
        ensures { OnOk result (self.new ≡ item_entered item self.old) }
    {
        match own_key(self.alloc, item.get())? {
            Some(key) => self.enter_key(key.as_slice(), item),
            None => self.add(item),
        }
    }

    // Opens a row with the rows nested in it. A trace whose rows were all taken isn't shown.
    fn enter_key(&mut self, key: &[u8], item: ItemBox) -> Result<(), AllocError>
        ensures { OnOk result (self.new ≡ entered_at key.now item self.old) }
    {
        match self.groups.take(key) {
            Some(group) => self.open(item, group),
            None if is_trace(item.get()) => Ok(()),
            None => self.open(item, Group::new(self.alloc)),
        }
    }

    fn open(&mut self, item: ItemBox, group: Group) -> Result<(), AllocError>
        ensures { OnOk result (self.new ≡ row_opened item group self.old) }
    {
        self.add(item)?;
        Ok(self.frames.push(group)?)
    }

    fn add(&mut self, item: ItemBox) -> Result<(), AllocError>
        ensures { OnOk result (self.new ≡ row_added item self.old) }
    {
        let depth = self.frames.len().saturating_sub(1);
        Ok(self.rows.push(Row { depth, item })?)
    }

    // Leaves the innermost span. The root stays open.
    fn leave(&mut self) -> Result<(), AllocError>
        ensures { OnOk result (self.new ≡ innermost_left self.old) }
    {
        if self.frames.len() > 1 {
            drop(self.frames.pop());
            return Ok(());
        }
        self.open_left_over()
    }

    // Opens a trace with rows that no root leads to.
    fn open_left_over(&mut self) -> Result<(), AllocError>
        ensures { OnOk result (self.new ≡ left_over self.old) }
    {
        match self.groups.take_first() {
            Some(group) => {
                let item = trace_item(self.alloc, group.trace(), group.time())?;
                self.open(item, group)
            }
            None => Ok(()),
        }
    }
}
