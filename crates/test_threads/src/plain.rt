//! Calls of the crate in functions that promise nothing, so that a test that makes them is soon
//! proved.

use std::alloc::{AllocError, Global};
use std::sync::Wait;
use std::sync::ledger::Ledger;
use tracing_tree_core::format::{Config, Output};
use tracing_tree_core::time::FormatTime;
use tracing_tree_layer::call::{Call, Reply};
use tracing_tree_shared::{
    Book, Draft, Finished, Pass, Receipt, Refused, SharedLayer, StreamingLayer,
};

/// Returns a draft of a call, under settings with an amount of 2 and no colours.
pub fn drafted(alloc: Global, call: Call) -> Result<Draft, AllocError> {
    Draft::new(alloc, &Config::new(2, false), call)
}

pub fn apply(book: &mut Book<()>, draft: Draft) -> Result<Receipt, Refused> {
    book.apply(draft)
}

/// Returns what was written.
pub fn text(book: &Book<()>) -> &[u8] {
    book.output().bytes()
}

/// Returns a draft by a layer with a history, or `None` if memory runs out.
pub fn draft<FT: FormatTime + Drop, L: Ledger>(
    alloc: Global,
    layer: &SharedLayer<FT, L>,
    call: Call,
) -> Option<Draft> {
    layer.draft(alloc, call).ok()
}

pub fn submit<FT: FormatTime + Drop, L: Ledger, R: Wait>(
    rt: &R,
    layer: &SharedLayer<FT, L>,
    pass: &mut Pass<L>,
    draft: Draft,
) -> Result<Reply, Refused> {
    layer.submit(rt, pass, draft)
}

/// Drafts and submits a call. Returns `None` if either is refused.
pub fn make<FT: FormatTime + Drop, L: Ledger, R: Wait>(
    rt: &R,
    alloc: Global,
    layer: &SharedLayer<FT, L>,
    pass: &mut Pass<L>,
    call: Call,
) -> Option<Reply> {
    let draft = draft(alloc, layer, call)?;
    submit(rt, layer, pass, draft).ok()
}

/// Returns what all passes show, or `None` if one is missing or strange.
pub fn finish<FT: FormatTime + Drop, L: Ledger>(
    layer: SharedLayer<FT, L>,
    passes: Vec<Pass<L>>,
) -> Option<Finished> {
    layer.finish(passes).ok()
}

/// Drafts and submits a call to a layer without a history, and returns its number. Returns `None`
/// if either is refused.
pub fn stream<W: Output, R: Wait>(
    rt: &R,
    alloc: Global,
    layer: &StreamingLayer<W, ()>,
    call: Call,
) -> Option<u64> {
    let draft = layer.draft(alloc, call).ok()?;
    let numbered = layer.submit(rt, draft).ok()?;
    Some(numbered.number)
}
