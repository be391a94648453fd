//! Collects the lines of an input: rows, and the span that each is nested in.

ghost use Rattle.std.specs.Prelude.{◌≡◌, IfOk, OnOk, IsPermutation, IsSorted, codes, is_some, map, option_map};
ghost use Rattle.std.specs.Str.Lines.{lines};
ghost use Rattle.json.specs.Json.{document};
ghost use Rattle.json.specs.Value.{value_view};
ghost use Rattle.ttree_otlp.specs.Gather.{at_earliest, end_taken, event_taken, events_taken, gathered_in, has_key, in_known_span, is_export, item_cmp, lines_taken, links_taken, log_added, log_taken, logs_taken, lost, next_line, note_known, notes_taken, nothing_gathered, number_in, object_taken, of_service, otlp_line_taken, rank_of, resolved, resource_taken, resources_taken, row_gathered, row_place, scope_taken, scopes_taken, span_added, span_taken, spans_taken, status_taken, trace_seen, value_taken, whole_taken};
ghost use Rattle.ttree_otlp.specs.Keyed.{key_of};
ghost use Rattle.ttree_otlp.specs.Read.{items_at};

use crate::item::{
    Item, ItemBox, Place, Shape, event_note, failed_note, has_body, link_note, log_note, log_time,
    number_of, parent_of, span_of, unfinished_note,
};
use crate::keyed::{Known, key_of};
use crate::named::has_failed;
use crate::read::{count_at, id_at, service_in};
use json::{Scratch, Value};
use std::alloc::{AllocError, Global};
use std::marker::Model;
use tracing_tree_base::text::Text;
use ttree_source::blanks::first_byte;
use ttree_source::values::{array_at, is_object, value_of};

// What lines said so far.
#[derive(Drop)]
pub(crate) struct Gathered {
    alloc: Global,
    // The number of the last line.
    line: u64,
    // That whose resource was read last.
    service: Text,
    pub(crate) items: Vec<ItemBox>,
    pub(crate) known: Known,
    // The lines of what was skipped.
    pub(crate) problems: Vec<u64>,
}

impl Model for Gathered {
    ghost use Rattle.ttree_otlp.specs.Gather.{GatheredState};

    ghost Value = { GatheredState };

    ghost view = { λ g. record {
      line = g.line;
      service = g.service;
      items = g.items.items;
      known = g.known;
      problems = g.problems.items;
    } };
}

// Collects the rows of an input.
#[tactic(auto, using(crate::proofs::Texts::one_value, crate::proofs::Texts::many_lines))]
pub(crate) fn gathered_in(alloc: Global, text: &str) -> Result<Gathered, AllocError>
    ensures { IfOk result (λ gathered. gathered ≡ gathered_in text.now) }
{
    let mut gathered = Gathered::new(alloc)?;
    if !gathered.take_whole(text)? {
        gathered.take_lines(text)?;
    }
    Ok(gathered)
}

fn lines_of(alloc: Global, text: &str) -> Result<Vec<&str>, AllocError>
    ensures { IfOk result (λ found. map (λ line. line.now) found.items ≡ lines text.now) }
{
    text.lines().collect(alloc)
}

impl Gathered {
    fn new(alloc: Global) -> Result<Gathered, AllocError>
        ensures { IfOk result (λ gathered. gathered ≡ nothing_gathered) }
    {
        Ok(Gathered {
            alloc,
            line: 0,
            service: Text::from_str(alloc, "")?,
            items: Vec::new(alloc),
            known: Known::new(alloc),
            problems: Vec::new(alloc),
        })
    }

    // Returns the rows, and the traces and spans that there are.
    pub(crate) fn into_rows(self) -> (Vec<ItemBox>, Known)
        ensures items { result.0.items ≡ self.items }
        ensures known { result.1 ≡ self.known }
    {
        (self.items, self.known)
    }

    fn next_line(&mut self)
        ensures { self.new ≡ next_line self.old }
    {
        self.line = self.line.saturating_add(1);
    }

    // Takes a text that is one value. Returns whether it is one. The space for parsing is freed
    // here, since it grows with the text.
    fn take_whole(&mut self, text: &str) -> Result<bool, AllocError>
        ensures whole { IfOk result (λ whole. whole ≡ is_some (document text.now)) }
        ensures taken { OnOk result (self.new ≡ whole_taken (document text.now) self.old) }
    {
        let mut scratch = Scratch::new(self.alloc);
        match value_of(self.alloc, text, &mut scratch)? {
            Some(value) => {
                self.next_line();
                self.take_value(Some(&value))?;
                Ok(true)
            }
            None => Ok(false),
        }
    }

    fn take_lines(&mut self, text: &str) -> Result<(), AllocError>
        ensures { OnOk result (self.new ≡ lines_taken (lines text.now) self.old) }
    {
        let found = lines_of(self.alloc, text)?;
        self.take_each_line(found.as_slice())
    }

    fn take_each_line(&mut self, found: &[&str]) -> Result<(), AllocError>
        ensures { OnOk result (self.new ≡ lines_taken (map (λ line. line.now) found.now) self.old) }
    {
        for line in found {
            self.take_line(line)?;
        }
        Ok(())
    }

    fn take_line(&mut self, line: &str) -> Result<(), AllocError>
        ensures { OnOk result (self.new ≡ otlp_line_taken line.now self.old) }
    {
        self.next_line();
        if first_byte(line.as_bytes()).is_none() {
            return Ok(());
        }
        let mut scratch = Scratch::new(self.alloc);
        let value = value_of(self.alloc, line, &mut scratch)?;
        self.take_value(value.as_ref())
    }

    // Counts what says nothing that is known.
    fn lose(&mut self) -> Result<(), AllocError>
        ensures { OnOk result (self.new ≡ lost self.old) }
    {
        Ok(self.problems.push(self.line)?)
    }

    fn take_value(&mut self, value: Option<&Value<'_>>) -> Result<(), AllocError>
        ensures { OnOk result (self.new
            ≡ value_taken (option_map (λ v. value_view v.now) value.entry) self.old) }
    {
        match value {
            Some(value) if is_export(value) => self.take_object(value),
            _ => self.lose(),
        }
    }

    fn take_object(&mut self, value: &Value<'_>) -> Result<(), AllocError>
        ensures { OnOk result (self.new ≡ object_taken (value_view value.now) self.old) }
    {
        self.take_resources(value, "resourceSpans")?;
        self.take_resources(value, "resourceLogs")
    }

    fn take_resources(&mut self, value: &Value<'_>, key: &str) -> Result<(), AllocError>
        ensures { OnOk result (self.new
            ≡ resources_taken (items_at key.now (value_view value.now)) self.old) }
    {
        let Some(resources) = array_at(value, key) else {
            return Ok(());
        };
        for resource in resources {
            self.take_resource(resource)?;
        }
        Ok(())
    }

    // Takes a resource's scopes, at the keys of today and of older writers.
    fn take_resource(&mut self, value: &Value<'_>) -> Result<(), AllocError>
        ensures { OnOk result (self.new ≡ resource_taken (value_view value.now) self.old) }
    {
        let service = service_in(self.alloc, value)?;
        self.go_to(service);
        self.take_scopes(value, "scopeSpans")?;
        self.take_scopes(value, "instrumentationLibrarySpans")?;
        self.take_scopes(value, "scopeLogs")?;
        self.take_scopes(value, "instrumentationLibraryLogs")
    }

    fn go_to(&mut self, service: Text)
        ensures { self.new ≡ of_service service self.old }
    {
        self.service = service;
    }

    fn take_scopes(&mut self, value: &Value<'_>, key: &str) -> Result<(), AllocError>
        ensures { OnOk result (self.new
            ≡ scopes_taken (items_at key.now (value_view value.now)) self.old) }
    {
        let Some(scopes) = array_at(value, key) else {
            return Ok(());
        };
        for scope in scopes {
            self.take_scope(scope)?;
        }
        Ok(())
    }

    fn take_scope(&mut self, value: &Value<'_>) -> Result<(), AllocError>
        ensures { OnOk result (self.new ≡ scope_taken (value_view value.now) self.old) }
    {
        self.take_spans(value)?;
        self.take_logs(value)
    }

    fn take_spans(&mut self, value: &Value<'_>) -> Result<(), AllocError>
        ensures { OnOk result (self.new
            ≡ spans_taken (items_at (codes "spans") (value_view value.now)) self.old) }
    {
        let Some(spans) = array_at(value, "spans") else {
            return Ok(());
        };
        for span in spans {
            self.take_span(span)?;
        }
        Ok(())
    }

    fn take_logs(&mut self, value: &Value<'_>) -> Result<(), AllocError>
        ensures { OnOk result (self.new
            ≡ logs_taken (items_at (codes "logRecords") (value_view value.now)) self.old) }
    {
        let Some(logs) = array_at(value, "logRecords") else {
            return Ok(());
        };
        for log in logs {
            self.take_log(log)?;
        }
        Ok(())
    }

    // Takes a span, unless its id or the id of its trace is missing.
    fn take_span(&mut self, value: &Value<'_>) -> Result<(), AllocError>
        ensures { OnOk result (self.new ≡ span_taken (value_view value.now) self.old) }
    {
        let trace = id_at(self.alloc, value, "traceId")?;
        let id = id_at(self.alloc, value, "spanId")?;
        if trace.as_str().is_empty() || id.as_str().is_empty() {
            return self.lose();
        }
        self.add_span(trace.as_str(), id.as_str(), value)
    }

    // Adds a span of this id and trace, and what is in it.
    fn add_span(&mut self, trace: &str, id: &str, value: &Value<'_>) -> Result<(), AllocError>
        ensures { OnOk result (self.new
            ≡ span_added trace.now id.now (value_view value.now) self.old) }
    {
        let start = count_at(value, "startTimeUnixNano");
        let span = span_of(self.alloc, self.service.clone()?, value)?;
        let recorded = id_at(self.alloc, value, "parentSpanId")?;
        let parent = parent_of(self.alloc, id, recorded.as_str())?;
        self.see_trace(trace, start)?;
        self.note_known(key_of(self.alloc, trace, id)?, start)?;
        self.take_notes(trace, id, value)?;
        self.add(trace, parent.as_str(), start, start, Shape::Span(span))
    }

    // Records that something happened in a trace at this time.
    fn see_trace(&mut self, trace: &str, time: u64) -> Result<(), AllocError>
        ensures { OnOk result (self.new ≡ trace_seen trace.now time self.old) }
    {
        let key = key_of(self.alloc, trace, "")?;
        if self.known.lower(key.as_slice(), time) {
            return Ok(());
        }
        self.note_known(key, time)?;
        let shape = Shape::Trace(Text::from_str(self.alloc, trace)?);
        self.add("", "", time, time, shape)
    }

    fn note_known(&mut self, key: Vec<u8>, time: u64) -> Result<(), AllocError>
        ensures { OnOk result (self.new ≡ note_known key.items time self.old) }
    {
        self.known.put(key, time)
    }

    // Takes a span's links, events, end and failure.
    fn take_notes(&mut self, trace: &str, span: &str, value: &Value<'_>) -> Result<(), AllocError>
        ensures { OnOk result (self.new
            ≡ notes_taken trace.now span.now (value_view value.now) self.old) }
    {
        let start = count_at(value, "startTimeUnixNano");
        let end = count_at(value, "endTimeUnixNano");
        self.take_links(trace, span, start, value)?;
        self.take_events(trace, span, value)?;
        self.take_end(trace, span, end)?;
        self.take_status(trace, span, end, value.get("status"))
    }

    // Links come before all else in a span.
    fn take_links(
        &mut self,
        trace: &str,
        span: &str,
        time: u64,
        value: &Value<'_>,
    ) -> Result<(), AllocError>
        ensures { OnOk result (self.new ≡ links_taken trace.now span.now time
            (items_at (codes "links") (value_view value.now)) self.old) }
    {
        let Some(links) = array_at(value, "links") else {
            return Ok(());
        };
        for link in links {
            let note = link_note(self.alloc, self.service.clone()?, link)?;
            self.add(trace, span, 0, time, Shape::Note(note))?;
        }
        Ok(())
    }

    fn take_events(&mut self, trace: &str, span: &str, value: &Value<'_>) -> Result<(), AllocError>
        ensures { OnOk result (self.new ≡ events_taken trace.now span.now
            (items_at (codes "events") (value_view value.now)) self.old) }
    {
        let Some(events) = array_at(value, "events") else {
            return Ok(());
        };
        for event in events {
            self.take_event(trace, span, event)?;
        }
        Ok(())
    }

    fn take_event(&mut self, trace: &str, span: &str, value: &Value<'_>) -> Result<(), AllocError>
        ensures { OnOk result (self.new
            ≡ event_taken trace.now span.now (value_view value.now) self.old) }
    {
        let time = count_at(value, "timeUnixNano");
        let note = event_note(self.alloc, self.service.clone()?, value)?;
        self.add(trace, span, time, time, Shape::Note(note))
    }

    // Takes the end of a span. If it is missing, the span is unfinished, which is said after
    // everything else but a failure.
    fn take_end(&mut self, trace: &str, span: &str, end: u64) -> Result<(), AllocError>
        ensures { OnOk result (self.new ≡ end_taken trace.now span.now end self.old) }
    {
        if end != 0 {
            return Ok(());
        }
        let note = unfinished_note(self.alloc, self.service.clone()?)?;
        self.add(trace, span, u64::MAX, 0, Shape::Note(note))
    }

    // Takes a failure, which comes after everything else in a span.
    fn take_status(
        &mut self,
        trace: &str,
        span: &str,
        end: u64,
        status: Option<&Value<'_>>,
    ) -> Result<(), AllocError>
        ensures { OnOk result (self.new ≡ status_taken trace.now span.now end
            (option_map (λ v. value_view v.now) status.entry) self.old) }
    {
        match status {
            Some(status) if has_failed(status) => {
                let note = failed_note(self.alloc, self.service.clone()?, status)?;
                self.add(trace, span, u64::MAX, end, Shape::Note(note))
            }
            _ => Ok(()),
        }
    }

    // Takes a log. One without a trace is at the root.
    fn take_log(&mut self, value: &Value<'_>) -> Result<(), AllocError>
        ensures { OnOk result (self.new ≡ log_taken (value_view value.now) self.old) }
    {
        let trace = id_at(self.alloc, value, "traceId")?;
        if trace.as_str().is_empty() {
            return self.add_log("", "", value);
        }
        let span = id_at(self.alloc, value, "spanId")?;
        self.see_trace(trace.as_str(), log_time(value))?;
        self.add_log(trace.as_str(), span.as_str(), value)
    }

    fn add_log(&mut self, trace: &str, span: &str, value: &Value<'_>) -> Result<(), AllocError>
        ensures { OnOk result (self.new
            ≡ log_added trace.now span.now (value_view value.now) self.old) }
    {
        let time = log_time(value);
        let note = log_note(self.alloc, self.service.clone()?, value)?;
        self.add(trace, span, time, time, Shape::Note(note))
    }

    // Adds a row, nested in this span of this trace.
    fn add(
        &mut self,
        trace: &str,
        parent: &str,
        order: u64,
        time: u64,
        shape: Shape,
    ) -> Result<(), AllocError>
        ensures { OnOk result (self.new
            ≡ row_gathered trace.now parent.now order time shape self.old) }
    {
        let item = Item {
            trace: Text::from_str(self.alloc, trace)?,
            parent: Text::from_str(self.alloc, parent)?,
            place: place_of(order, &shape, self.items.len()),
            time,
            shape,
        };
        Ok(self.items.push(ItemBox::new(self.alloc, item)?)?)
    }
}

// Returns whether a value is an object of OTLP: it has one of the keys, or none at all.
fn is_export(value: &Value<'_>) -> bool
    ensures { result ≡ is_export (value_view value.now) }
{
    is_object(value)
        && (!has_body(value)
            || has_key(value, "resourceSpans")
            || has_key(value, "resourceLogs")
            || has_key(value, "resourceMetrics")
            || has_key(value, "resourceProfiles"))
}

fn has_key(value: &Value<'_>, key: &str) -> bool
    ensures { result ≡ has_key key.now (value_view value.now) }
{
    value.get(key).is_some()
}

fn rank_of(shape: &Shape) -> u64
    ensures { result ≡ rank_of shape.now }
{
    match shape {
        Shape::Trace(_) | Shape::Span(_) => 1,
        Shape::Note(_) | Shape::LeftOut(_) => 0,
    }
}

fn number_in(shape: &Shape) -> u64
    ensures { result ≡ number_in shape.now }
{
    match shape {
        Shape::Trace(id) => number_of(id.as_str().as_bytes()),
        Shape::Span(span) => number_of(span.id.as_str().as_bytes()),
        Shape::Note(_) | Shape::LeftOut(_) => 0,
    }
}

fn place_of(order: u64, shape: &Shape, index: usize) -> Place
    ensures { result ≡ row_place order shape.now index }
{
    Place {
        time: order,
        rank: rank_of(shape),
        number: number_in(shape),
        index: index as u64,
    }
}

// Returns a trace at its earliest time, and any other row in its span, or in its trace if the span
// is unknown.
fn resolved(alloc: Global, known: &Known, item: ItemBox) -> Result<ItemBox, AllocError>
    ensures { IfOk result (λ row. row ≡ resolved known.now item) }
{
    let found = item.get();
    match &found.shape {
        Shape::Trace(id) => {
            let key = key_of(alloc, id.as_str(), "")?;
            Ok(timed(known.time_at(key.as_slice()), item))
        }
        Shape::Span(_) | Shape::Note(_) | Shape::LeftOut(_) => {
            let key = key_of(alloc, found.trace.as_str(), found.parent.as_str())?;
            held(alloc, known.time_at(key.as_slice()), item)
        }
    }
}

// Returns a row at this time, if it is known.
fn timed(time: Option<u64>, item: ItemBox) -> ItemBox
    ensures { result ≡ at_earliest time item }
{
    let mut item = item;
    if let Some(time) = time {
        item.set_time(time);
    }
    item
}

// Returns a row in its span if that is known, otherwise in its trace.
fn held(alloc: Global, known: Option<u64>, item: ItemBox) -> Result<ItemBox, AllocError>
    ensures { IfOk result (λ row. row ≡ in_known_span known item) }
{
    let mut item = item;
    if known.is_none() {
        item.clear_parent(alloc)?;
    }
    Ok(item)
}

fn resolved_all(
    alloc: Global,
    known: &Known,
    items: Vec<ItemBox>,
) -> Result<Vec<ItemBox>, AllocError>
    ensures { IfOk result (λ rows. rows.items ≡ map (resolved known.now) items.items) }
{
    let mut rows = Vec::with_capacity(alloc, items.len())?;
    for item in items {
        rows.push(resolved(alloc, known, item)?)?;
    }
    Ok(rows)
}

// Returns all rows in their order: by time, events and logs first, then by id, then in the order of
// the input.
pub(crate) fn in_order(
    alloc: Global,
    known: &Known,
    items: Vec<ItemBox>,
) -> Result<Vec<ItemBox>, AllocError>
    ensures same { IfOk result (λ ordered.
        IsPermutation (map (resolved known.now) items.items) ordered.items) }
    ensures sorted { IfOk result (λ ordered. IsSorted item_cmp ordered.items) }
{
    let mut rows = resolved_all(alloc, known, items)?;
    sort(&mut rows)?;
    Ok(rows)
}

fn sort(items: &mut Vec<ItemBox>) -> Result<(), AllocError>
    ensures same { IsPermutation items.old.items items.new.items }
    ensures sorted { OnOk result (IsSorted item_cmp items.new.items) }
{
    items.sort_by_key(|item| {
        let place = item.get().place;
        (place.time, place.rank, place.number, place.index)
    })?;
    Ok(())
}
