//! What --min and --depth leave out of rows.

ghost use Rattle.std.specs.Prelude.{◌≡◌, IfOk, OnOk};
ghost use Rattle.ttree_otlp.specs.Cut.{count_as, cut_from, drawn, drawn_with, is_drawn_by, is_long_span, is_note, is_within, lasts, leaves_out, left_out_row, no_cut, sum_of};
ghost use Rattle.ttree_otlp.specs.Nested.{reach_with};

use crate::item::Shape;
use crate::keyed::{Rows, trim};
use crate::walk::Row;
use std::alloc::{AllocError, Global};
use ttree_source::cut::Cut;

// Returns the cut that leaves nothing out.
pub(crate) fn no_cut() -> Cut
    ensures { result ≡ no_cut }
{
    Cut {
        min_time: 0,
        depth: None,
    }
}

fn leaves_out(cut: Cut) -> bool
    ensures { result ≡ leaves_out cut }
{
    cut.min_time > 0 || cut.depth.is_some()
}

// Returns whether what is nested in this many spans isn't too deep.
fn is_within(levels: usize, depth: Option<usize>) -> bool
    ensures { result ≡ is_within levels depth }
{
    match depth {
        Some(depth) => levels < depth,
        None => true,
    }
}

// Returns whether a span took at least this long. One that hasn't ended isn't known to be short.
fn is_long(min_time: u64, start: u64, end: u64) -> bool
    ensures { result ≡ is_long_span min_time start end }
{
    end == 0 || end.saturating_sub(start) >= min_time
}

// Returns whether a row is a span that is long enough, or an event or a log in no input span.
fn lasts(min_time: u64, row: &Row) -> bool
    ensures { result ≡ lasts min_time row.now }
{
    let item = row.item.get();
    match &item.shape {
        Shape::Trace(_) | Shape::LeftOut(_) => false,
        Shape::Span(span) => is_long(min_time, item.time, span.end),
        Shape::Note(_) => row.depth < 2,
    }
}

fn is_note(shape: &Shape) -> bool
    ensures { result ≡ is_note shape.now }
{
    match shape {
        Shape::Note(_) => true,
        Shape::Trace(_) | Shape::Span(_) | Shape::LeftOut(_) => false,
    }
}

// Returns the depth from which on a row before these has no such row in it, after one more row.
pub(crate) fn reach_with(is_picked: bool, depth: usize, reach: usize) -> usize
    ensures { result ≡ reach_with is_picked depth reach }
{
    if is_picked { depth } else { depth.min(reach) }
}

// Returns whether a row is drawn, given the reach of the rows after it.
fn is_drawn_by(cut: Cut, row: &Row, is_lasting: bool, reach: usize) -> bool
    ensures { result ≡ is_drawn_by cut row.now is_lasting reach }
{
    is_within(row.depth, cut.depth) && (is_lasting || row.depth < reach)
        || is_note(&row.item.get().shape)
}

// Adds up counts, up to the largest.
pub(crate) fn sum_of(a: u64, b: u64) -> u64
    ensures { result ≡ sum_of a b }
{
    a.saturating_add(b)
}

// Returns how many spans are left out with a row.
pub(crate) fn count_as(shape: &Shape) -> u64
    ensures { result ≡ count_as shape.now }
{
    match shape {
        Shape::Span(_) => 1,
        Shape::LeftOut(count) => *count,
        Shape::Trace(_) | Shape::Note(_) => 0,
    }
}

// Puts this count in the place of a row.
fn left_out(count: u64, row: Row) -> Row
    ensures { result ≡ left_out_row count row }
{
    let mut row = row;
    row.item.set_shape(Shape::LeftOut(count));
    row
}

// Puts a row before those after it, or the count of the spans in it.
fn draw(rows: &mut Rows, is_drawn: bool, row: Row) -> Result<(), AllocError>
    ensures { OnOk result (rows.new ≡ drawn_with is_drawn row rows.old) }
{
    if is_drawn {
        return rows.put(row);
    }
    let count = rows.count_nested(row.depth, count_as(&row.item.get().shape));
    rows.put(left_out(count, row))
}

// Returns what a cut leaves of rows, the first first.
pub(crate) fn cut_from(alloc: Global, cut: Cut, rows: Rows) -> Result<Rows, AllocError>
    ensures { IfOk result (λ left. left ≡ cut_from cut rows) }
{
    if leaves_out(cut) {
        drawn(alloc, cut, rows.into_rows())
    } else {
        Ok(rows)
    }
}

fn drawn(alloc: Global, cut: Cut, rows: Vec<Row>) -> Result<Rows, AllocError>
    ensures { IfOk result (λ left. left ≡ drawn cut rows.items) }
{
    let mut left = Rows::new(alloc);
    let mut reach = 0;
    let mut rows = rows;
    while let Some(row) = rows.pop() {
        let is_lasting = lasts(cut.min_time, &row);
        let depth = row.depth;
        let is_drawn = is_drawn_by(cut, &row, is_lasting, reach);
        draw(&mut left, is_drawn, row)?;
        reach = reach_with(is_lasting, depth, reach);
        trim(&mut rows);
    }
    Ok(left)
}
