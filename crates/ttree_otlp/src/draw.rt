//! Rows in drawing order, as calls.

ghost use Rattle.std.specs.Prelude.{◌≡◌, ◌∷◌, ◌++◌, [], ◌-◌, IfOk, OnOk, Some, length, pos};
ghost use Rattle.ttree_otlp.specs.Draw.{at_time, begun_tree, calls_of_rows, closed_one, closed_times, closed_to, field_if, frame_closed, frame_opened, id_on_top, input_span_shown, kind_text, leading_fields, left_counted, left_emitted, note_fields, note_shown, parent_fields, row_drawn, row_shown, rows_drawn, rows_finished, service_fields, service_on_top, time_field, time_fields, trace_shown};
ghost use Rattle.ttree_source.specs.Moments.{moment_at};

use crate::cut::sum_of;
use crate::item::{Item, ItemBox, Note, Shape, Span};
use crate::keyed::Rows;
use crate::read::field_of;
use crate::walk::Row;
use jiff::Timestamp;
use std::alloc::{AllocError, Global};
use std::marker::Model;
use std::mem::replace;
use tracing_tree_base::Id;
use tracing_tree_base::field::{Field, Fields};
use tracing_tree_base::style::Level;
use tracing_tree_base::text::Text;
use tracing_tree_layer::call::Call;
use tracing_tree_time::Moment;
use ttree_source::calls::{close_call, event_call, message_field, span_call};
use ttree_source::length::length_text;

// An open span.
#[derive(Drop)]
pub(crate) struct Frame {
    id: Id,
    parent: Option<Id>,
    // When it closes. It is 0 if it closes when its last row does.
    end: u64,
    service: Text,
    // How many spans were left out in it.
    left: u64,
}

// The calls so far, and what is open.
#[derive(Drop)]
pub(crate) struct Tree {
    alloc: Global,
    // The id that the next span gets.
    next: u64,
    moment: Moment,
    // The outermost span first.
    frames: Vec<Frame>,
    // How many spans were left out at the root.
    left: u64,
    calls: Vec<Call>,
}

impl Model for Tree {
    ghost use Rattle.std.specs.Prelude.{reverse};
    ghost use Rattle.ttree_otlp.specs.Draw.{TreeState};

    ghost Value = { TreeState };

    ghost view = { λ t. record {
      next = t.next;
      moment = t.moment;
      frames = reverse t.frames.items;
      left = t.left;
      calls = t.calls.items;
    } };
}

// Returns the calls that draw rows.
pub(crate) fn calls_of_rows(
    alloc: Global,
    next: u64,
    moment: Moment,
    rows: Rows,
) -> Result<Vec<Call>, AllocError>
    ensures { IfOk result (λ calls. calls.items ≡ calls_of_rows next moment rows) }
{
    let mut tree = Tree::new(alloc, next, moment);
    tree.draw(rows)?;
    tree.finish()?;
    Ok(tree.into_calls())
}

impl Tree {
    pub(crate) fn new(alloc: Global, next: u64, moment: Moment) -> Tree
        ensures { result ≡ begun_tree next moment }
    {
        Tree {
            alloc,
            next,
            moment,
            frames: Vec::new(alloc),
            left: 0,
            calls: Vec::new(alloc),
        }
    }

    fn into_calls(self) -> Vec<Call>
        ensures { result.items ≡ self.calls }
    {
        self.calls
    }

    fn draw(&mut self, rows: Rows) -> Result<(), AllocError>
        ensures { OnOk result (self.new ≡ rows_drawn rows self.old) }
    {
        let mut rows = rows;
        while let Some(row) = rows.take() {
            self.draw_row(row)?;
        }
        Ok(())
    }

    // Takes the calls so far.
    pub(crate) fn take_calls(&mut self) -> Vec<Call>
        ensures calls { result.items ≡ self.old.calls }
        ensures rest { self.new ≡ record self.old { calls = [] } }
    {
        replace(&mut self.calls, Vec::new(self.alloc))
    }

    // Closes all that is open, and records how many spans were left out at the root.
    pub(crate) fn finish(&mut self) -> Result<(), AllocError>
        ensures { OnOk result (self.new ≡ rows_finished self.old) }
    {
        self.close_to(0)?;
        self.emit_left(self.left, None)
    }

    // Closes the spans that a row isn't nested in, and shows the row.
    pub(crate) fn draw_row(&mut self, row: Row) -> Result<(), AllocError>
        ensures { OnOk result (self.new ≡ row_drawn row self.old) }
    {
        self.close_to(row.depth)?;
        self.show_row(row.item)
    }

    // Closes spans until this many are open.
    fn close_to(&mut self, depth: usize) -> Result<(), AllocError>
        ensures { OnOk result (self.new ≡ closed_to depth self.old) }
    {
        let open = self.frames.len();
        self.close_times(open.saturating_sub(depth))
    }

    fn close_times(&mut self, count: usize) -> Result<(), AllocError>
        ensures { OnOk result (self.new ≡ closed_times count self.old) }
    {
        for _done in 0..count {
            self.close_one()?;
        }
        Ok(())
    }

    // Closes the innermost span.
    fn close_one(&mut self) -> Result<(), AllocError>
        ensures { OnOk result (self.new ≡ closed_one self.old) }
    {
        match self.frames.pop() {
            Some(frame) => self.close(frame),
            None => Ok(()),
        }
    }

    fn close(&mut self, frame: Frame) -> Result<(), AllocError>
        ensures { OnOk result (self.new ≡ frame_closed frame self.old) }
    {
        self.go_to(frame.end);
        self.emit_left(frame.left, Some(frame.id))?;
        Ok(
            self.calls
                .push(close_call(self.moment, frame.id, frame.parent))?,
        )
    }

    // Records how many spans were left out, if any.
    fn emit_left(&mut self, count: u64, parent: Option<Id>) -> Result<(), AllocError>
        ensures { OnOk result (self.new ≡ left_emitted count parent self.old) }
    {
        if count == 0 {
            return Ok(());
        }
        let mut fields = Vec::with_capacity(self.alloc, 2)?;
        fields.push(message_field(self.alloc, "left out")?)?;
        fields.push(Field::whole(self.alloc, "spans", i128::from(count))?)?;
        let fields = Fields::from(fields);
        let call = event_call(self.alloc, self.moment, Level::Info, fields, parent)?;
        Ok(self.calls.push(call)?)
    }

    // Counts spans as left out in the innermost one.
    fn count_left(&mut self, count: u64)
        ensures { self.new ≡ left_counted count self.old }
    {
        match self.frames.as_mut_slice().last_mut() {
            Some(frame) => frame.left = sum_of(frame.left, count),
            None => self.left = sum_of(self.left, count),
        }
    }

    // Goes on to a time, if it is known.
    fn go_to(&mut self, time: u64)
        ensures { self.new ≡ at_time time self.old }
    {
        if time != 0 {
            self.moment = moment_at(time, self.moment);
        }
    }

    fn show_row(&mut self, item: ItemBox) -> Result<(), AllocError>
        ensures { OnOk result (self.new ≡ row_shown item self.old) }
    {
        let item = item.into_item();
        self.go_to(item.time);
        let Item {
            trace: _,
            parent,
            place: _,
            time,
            shape,
        } = item;
        match shape {
            Shape::Trace(id) => self.show_trace(id.as_str()),
            Shape::Span(span) => self.show_span(parent.as_str(), time, span),
            Shape::Note(note) => self.show_note(note),
            Shape::LeftOut(count) => {
                self.count_left(count);
                Ok(())
            }
        }
    }

    // Returns the innermost span that is open.
    fn current(&self) -> Option<Id>
        ensures { result ≡ id_on_top self.now.frames }
    {
        match self.frames.as_slice().last() {
            Some(frame) => Some(frame.id),
            None => None,
        }
    }

    // Returns the service of the innermost span.
    fn service(&self) -> &str
        ensures { result.now ≡ service_on_top self.now.frames }
    {
        match self.frames.as_slice().last() {
            Some(frame) => frame.service.as_str(),
            None => "",
        }
    }

    fn show_note(&mut self, note: Note) -> Result<(), AllocError>
        ensures { OnOk result (self.new ≡ note_shown note self.old) }
    {
        let level = note.level;
        let parent = self.current();
        let fields = note_fields(self.alloc, note, self.service())?;
        let call = event_call(self.alloc, self.moment, level, fields, parent)?;
        Ok(self.calls.push(call)?)
    }

    fn show_trace(&mut self, id: &str) -> Result<(), AllocError>
        ensures { OnOk result (self.new ≡ trace_shown id.now self.old) }
    {
        let fields = Fields::one(self.alloc, field_of(self.alloc, "id", id)?);
        let service = Text::from_str(self.alloc, "")?;
        self.open("trace", fields, 0, service)
    }

    fn show_span(&mut self, nested_in: &str, start: u64, span: Span) -> Result<(), AllocError>
        ensures { OnOk result (self.new ≡ input_span_shown nested_in.now start span self.old) }
    {
        let Span {
            id: _,
            parent,
            name,
            kind,
            end,
            service,
            fields,
        } = span;
        let mut shown = span_fields(
            self.alloc,
            service_fields(self.alloc, self.service(), service.as_str())?,
            time_fields(self.alloc, start, end)?,
            parent_fields(self.alloc, nested_in, parent.as_str())?,
            kind,
        )?;
        shown.append(fields)?;
        self.open(name.as_str(), shown, end, service)
    }

    // Opens a span in the innermost one.
    fn open(
        &mut self,
        name: &str,
        fields: Fields,
        end: u64,
        service: Text,
    ) -> Result<(), AllocError>
        ensures { OnOk result (self.new ≡ frame_opened name.now fields end service self.old) }
    {
        let parent = self.current();
        let call = span_call(self.alloc, self.moment, name, fields, parent)?;
        self.calls.push(call)?;
        let id = Id(self.next);
        self.next = self.next.saturating_add(1);
        Ok(
            self.frames.push(Frame {
                id,
                parent,
                end,
                service,
                left: 0,
            })?,
        )
    }
}

// Returns the moment this many nanoseconds after 1970.
fn moment_at(nanosecond: u64, before: Moment) -> Moment
    ensures { result ≡ moment_at (pos nanosecond) }
{
    match Timestamp::from_nanosecond(i128::from(nanosecond)) {
        Ok(wall) => Moment {
            mono: nanosecond,
            wall,
        },
        Err(_) => before,
    }
}

// Returns the field with the service, if it isn't that of the parent.
fn service_fields(alloc: Global, current: &str, service: &str) -> Result<Fields, AllocError>
    ensures { IfOk result (λ fields. fields ≡ service_fields current.now service.now) }
{
    if service.is_empty() || service == current {
        return Ok(Fields::new(alloc));
    }
    Ok(Fields::one(alloc, field_of(alloc, "service", service)?))
}

fn note_fields(alloc: Global, note: Note, service: &str) -> Result<Fields, AllocError>
    ensures { IfOk result (λ fields. fields ≡ note_fields note service.now) }
{
    let mut fields = note.message;
    fields.append(service_fields(alloc, service, note.service.as_str())?)?;
    fields.append(note.fields)?;
    Ok(fields)
}

fn kind_text(kind: u64) -> &'static str
    ensures { result.now ≡ kind_text kind }
{
    match kind {
        2 => "server",
        3 => "client",
        4 => "producer",
        5 => "consumer",
        _ => "",
    }
}

// Returns a field, unless it is empty.
fn field_if(alloc: Global, name: &str, text: &str) -> Result<Fields, AllocError>
    ensures { IfOk result (λ fields. fields ≡ field_if name.now text.now) }
{
    if text.is_empty() {
        return Ok(Fields::new(alloc));
    }
    Ok(Fields::one(alloc, field_of(alloc, name, text)?))
}

// Returns the parent of a span that isn't nested in one.
fn parent_fields(alloc: Global, nested_in: &str, parent: &str) -> Result<Fields, AllocError>
    ensures { IfOk result (λ fields. fields ≡ parent_fields nested_in.now parent.now) }
{
    if nested_in.is_empty() {
        field_if(alloc, "parent", parent)
    } else {
        Ok(Fields::new(alloc))
    }
}

fn time_field(alloc: Global, nanoseconds: u64) -> Result<Field, AllocError>
    ensures { IfOk result (λ field. field ≡ time_field nanoseconds) }
{
    Ok(Field {
        name: Text::from_str(alloc, "time")?,
        value: length_text(alloc, nanoseconds)?,
    })
}

// Returns how long a span took, if it has ended.
fn time_fields(alloc: Global, start: u64, end: u64) -> Result<Fields, AllocError>
    ensures { IfOk result (λ fields. fields ≡ time_fields start end) }
{
    if end == 0 {
        return Ok(Fields::new(alloc));
    }
    Ok(Fields::one(alloc, time_field(alloc, end.saturating_sub(start))?))
}

// Returns what the row of a span shows before its attributes: its service, how long it took, its
// parent and its kind.
fn span_fields(
    alloc: Global,
    service: Fields,
    time: Fields,
    parent: Fields,
    kind: u64,
) -> Result<Fields, AllocError>
    ensures { IfOk result (λ fields. fields ≡ leading_fields service time parent kind) }
{
    let mut fields = service;
    fields.append(time)?;
    fields.append(parent)?;
    fields.append(field_if(alloc, "kind", kind_text(kind))?)?;
    Ok(fields)
}
