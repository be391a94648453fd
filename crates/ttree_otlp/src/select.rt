//! The rows that are shown.

ghost use Rattle.std.specs.Prelude.{◌≡◌, IfOk, OnOk};
ghost use Rattle.ttree_otlp.specs.Select.{everything, fits_selection, is_around, is_at_least, is_error, is_of_service, is_of_trace, is_selected, is_with_selected_by, kept_with, note_fits, note_is_selected, selected_of, selected_shown, selects_events};

use crate::cut::{cut_from, no_cut, reach_with};
use crate::item::{Note, Shape};
use crate::keyed::{Rows, trim};
use crate::walk::Row;
use std::alloc::{AllocError, Global};
use tracing_tree_base::style::Level;
use tracing_tree_base::text::Text;
use ttree_source::cut::Cut;
use ttree_source::level::rank;
use ttree_source::marks::after_mark;

/// What is shown of an input. A span is shown if it is selected, or if something in it is, at any
/// depth. An event or a log is shown if it is selected.
#[derive(Debug, Drop)]
pub struct Selection {
    /// Only spans, events and logs of this service are selected. `None` selects those of all.
    pub service: Option<Text>,

    /// Only what is in a trace whose id begins with this, in lower case, is selected. The empty
    /// string selects all, also logs without a trace.
    pub trace: Text,

    /// Only events and logs of this level and above are selected, and no spans. `None` selects
    /// those of all levels, and spans.
    pub min_level: Option<Level>,

    /// Only errors are selected: events and logs of the level ERROR, and failures. Other events
    /// and logs are shown if their span is.
    pub is_failed: bool,

    /// Which of the selected spans are left out, with their events and logs. A span counts
    /// the spans in it that are left out. A span with one in it that isn't left out is shown.
    pub cut: Cut,
}

impl Selection {
    /// Returns the selection of everything.
    ///
    /// # Errors
    ///
    /// `AllocError` if an allocation fails.
    pub fn all(alloc: Global) -> Result<Selection, AllocError>
        ensures { IfOk result (λ selection. selection ≡ everything) }
    {
        Ok(Selection {
            service: None,
            trace: Text::from_str(alloc, "")?,
            min_level: None,
            is_failed: false,
            cut: no_cut(),
        })
    }
}

fn is_of_service(wanted: &Option<Text>, service: &str) -> bool
    ensures { result ≡ is_of_service wanted.now service.now }
{
    match wanted {
        Some(wanted) => wanted.as_str() == service,
        None => true,
    }
}

fn is_of_trace(front: &str, trace: &str) -> bool
    ensures { result ≡ is_of_trace front.now trace.now }
{
    after_mark(trace, front).is_some()
}

fn fits(selection: &Selection, trace: &str, service: &str) -> bool
    ensures { result ≡ fits_selection selection.now trace.now service.now }
{
    is_of_trace(selection.trace.as_str(), trace) && is_of_service(&selection.service, service)
}

fn is_at_least(min_level: Option<Level>, level: Level) -> bool
    ensures { result ≡ is_at_least min_level level }
{
    match min_level {
        Some(min_level) => rank(min_level) <= rank(level),
        None => true,
    }
}

fn is_error(level: Level) -> bool
    ensures { result ≡ is_error level }
{
    match level {
        Level::Error => true,
        Level::Trace | Level::Debug | Level::Info | Level::Warn => false,
    }
}

fn note_fits(selection: &Selection, trace: &str, note: &Note) -> bool
    ensures { result ≡ note_fits selection.now trace.now note.now }
{
    fits(selection, trace, note.service.as_str()) && is_at_least(selection.min_level, note.level)
}

fn note_is_selected(selection: &Selection, trace: &str, note: &Note) -> bool
    ensures { result ≡ note_is_selected selection.now trace.now note.now }
{
    note_fits(selection, trace, note) && (!selection.is_failed || is_error(note.level))
}

fn selects_events(selection: &Selection) -> bool
    ensures { result ≡ selects_events selection.now }
{
    selection.is_failed || selection.min_level.is_some()
}

fn is_selected(selection: &Selection, row: &Row) -> bool
    ensures { result ≡ is_selected selection.now row.now }
{
    let item = row.item.get();
    let trace = item.trace.as_str();
    match &item.shape {
        Shape::Trace(_) => false,
        Shape::Span(span) => {
            !selects_events(selection) && fits(selection, trace, span.service.as_str())
        }
        Shape::Note(note) => note_is_selected(selection, trace, note),
        Shape::LeftOut(_) => false,
    }
}

// Returns whether a row is an event or a log that is shown if its span is.
fn is_around(selection: &Selection, row: &Row) -> bool
    ensures { result ≡ is_around selection.now row.now }
{
    let item = row.item.get();
    match &item.shape {
        Shape::Trace(_) | Shape::Span(_) | Shape::LeftOut(_) => false,
        Shape::Note(note) => {
            selection.is_failed && row.depth > 0 && note_fits(selection, item.trace.as_str(), note)
        }
    }
}

// Returns whether a row is with the selected ones, given the reach of the rows after it.
fn is_with_selected_by(selection: &Selection, row: &Row, selected: bool, reach: usize) -> bool
    ensures { result ≡ is_with_selected_by selection.now row.now selected reach }
{
    selected || row.depth < reach || is_around(selection, row)
}

// Puts a row before those after it, or drops what is nested in it.
fn keep(kept: &mut Rows, is_kept: bool, row: Row) -> Result<(), AllocError>
    ensures { OnOk result (kept.new ≡ kept_with is_kept row kept.old) }
{
    if is_kept {
        return kept.put(row);
    }
    kept.drop_nested(row.depth);
    Ok(())
}

// Returns the rows that are shown, the first first.
pub(crate) fn shown(
    alloc: Global,
    selection: &Selection,
    rows: Vec<Row>,
) -> Result<Rows, AllocError>
    ensures { IfOk result (λ kept. kept ≡ selected_shown selection.now rows.items) }
{
    cut_from(alloc, selection.cut, selected_of(alloc, selection, rows)?)
}

// Returns the selected rows, each with those that it is nested in.
fn selected_of(alloc: Global, selection: &Selection, rows: Vec<Row>) -> Result<Rows, AllocError>
    ensures { IfOk result (λ kept. kept ≡ selected_of selection.now rows.items) }
{
    let mut kept = Rows::new(alloc);
    let mut reach = 0;
    let mut rows = rows;
    while let Some(row) = rows.pop() {
        let selected = is_selected(selection, &row);
        let depth = row.depth;
        let is_kept = is_with_selected_by(selection, &row, selected, reach);
        keep(&mut kept, is_kept, row)?;
        reach = reach_with(selected, depth, reach);
        trim(&mut rows);
    }
    Ok(kept)
}
