//! Which items of a trace are drawn, and whether others of their thread and their process follow.

ghost use Rattle.std.specs.Prelude.{◌≡◌, IfOk, reverse};
ghost use Rattle.ttree_chrome.specs.Later.{first_of, is_long_item, later_by, marked, with_later};

use crate::gather::{Item, Later, Shape, none_later, same_lane, take_last};
use std::alloc::{AllocError, Global};

// Returns whether an item is drawn, given the shortest span that is drawn.
pub(crate) fn is_long(item: &Item, min_duration: u64) -> bool
    ensures { result ≡ is_long_item item.now min_duration }
{
    match item.shape {
        Shape::Whole => item.end.time.saturating_sub(item.start.time) >= min_duration,
        Shape::Event | Shape::Unended => true,
    }
}

// Sets in each item whether one of those after it is drawn. Returns the items in reverse order.
pub(crate) fn marked(
    alloc: Global,
    items: Vec<Item>,
    min_duration: u64,
) -> Result<Vec<Item>, AllocError>
    ensures { IfOk result (λ all. reverse all.items ≡ marked min_duration items.items) }
{
    let mut items = items;
    let mut all = Vec::with_capacity(alloc, items.len())?;
    while let Some(item) = take_last(&mut items) {
        let later = later_by(&item, all.as_slice(), min_duration);
        all.push(noted(item, later))?;
    }
    Ok(all)
}

fn noted(item: Item, later: Later) -> Item
    ensures { result ≡ with_later later item }
{
    let mut item = item;
    item.later = later;
    item
}

// Returns what comes after an item, given those after it in reverse order.
fn later_by(item: &Item, all: &[Item], min_duration: u64) -> Later
    ensures { result ≡ later_by min_duration item.now (first_of (reverse all.now)) }
{
    let Some(next) = all.last() else {
        return none_later();
    };
    let is_drawn = is_long(next, min_duration);
    Later {
        in_thread: same_lane(next.lane, item.lane) && (is_drawn || next.later.in_thread),
        in_process: next.lane.process == item.lane.process && (is_drawn || next.later.in_process),
    }
}
