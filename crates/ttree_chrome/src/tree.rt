//! Turns the spans of a trace, nested by time, and its events into calls.

ghost use Rattle.std.specs.Prelude.{◌≡◌, ◌∷◌, [], drop, IfOk, None, OnOk, option_map, reverse};
ghost use Rattle.ttree_source.specs.Calls.{message_field};
ghost use Rattle.ttree_chrome.specs.Later.{marked};
ghost use Rattle.ttree_chrome.specs.Tree.{with_left_out, at_moment, begun_tree, clock_start, closed_or_leaf, counted_until, current, current_end, lane_entered, entered_process, entered_thread, event_shown, trace_event_emitted, extent, trace_finished, fits_depth, frame_of, is_by, is_in_process, is_lane, is_left, is_of_lane, lane_opened, leaf_call, leaving, leaving_count, frame_left, span_left_out, left_out_emitted, left_while, length_field, may_be_leaf, moment_at, lane_name, span_opened, passed_over, item_placed, process_depth, process_opened, put, settled, shown_lane, span_end, duration_fields, span_placed, span_put, item_span_shown, item_stepped, stepped_all, trace_call_emitted, emitted_name, within};

use crate::gather::{Item, Lane, Name, Point, Shape, process_of, same_lane, take_last};
use crate::later::{is_long, marked};
use crate::leaves::Leaves;
use crate::number::ZERO;
use crate::strings::label_field;
use std::alloc::{AllocError, Global};
use std::marker::Model;
use tracing_tree_base::Id;
use tracing_tree_base::field::{Field, Fields};
use tracing_tree_base::style::Level;
use tracing_tree_base::text::Text;
use tracing_tree_layer::call::Call;
use tracing_tree_time::Moment;
use ttree_source::calls::{close_call, event_call, message_field, span_call};
use ttree_source::cut::Cut;
use ttree_source::length::length_text;

// How many spans were left out in a span, and how long they took together, in nanoseconds.
#[derive(Clone, Copy)]
struct Left {
    spans: u64,
    time: u64,
    // The thread of the last one, and the time up to which it is counted.
    lane: Option<Lane>,
    until: u64,
}

// An open span, or the root that contains all of them.
#[derive(Clone, Copy)]
struct Frame {
    id: Option<Id>,
    parent: Option<Id>,
    // `None` if it lasts as long as its thread or its process.
    end: Option<Point>,
    left: Left,
}

// The innermost span, if nothing was drawn in it yet and it may be a leaf.
#[derive(Drop)]
struct Waiting {
    start: u64,
    name: Text,
    fields: Fields,
    parent: Option<Id>,
}

// The names of processes and threads, and the strings that identify them.
#[derive(Drop)]
pub(crate) struct Names {
    pub(crate) processes: Vec<Name>,
    pub(crate) threads: Vec<Name>,
    pub(crate) strings: Vec<Text>,
}

// Which open spans to close.
#[derive(Clone, Copy)]
enum Until {
    // Those with at least this many frames before them.
    Depth(usize),
    // Those that have ended by then.
    Ended(Point),
}

// The calls so far, and the open spans.
#[derive(Drop)]
pub(crate) struct Tree {
    alloc: Global,
    // The id of the next span.
    next: u64,
    moment: Moment,
    // The start of the drawing's clock.
    origin: u64,
    cut: Cut,
    leaves: Leaves,
    // The lane of the last item.
    lane: Option<Lane>,
    // The open spans, root first.
    frames: Vec<Frame>,
    waiting: Option<Waiting>,
    names: Names,
    calls: Vec<Call>,
}

impl Model for Tree {
    ghost use Rattle.std.specs.Prelude.{reverse};
    ghost use Rattle.ttree_chrome.specs.Tree.{TreeState};

    ghost Value = { TreeState };

    ghost view = { λ t. record {
      next = t.next;
      moment = t.moment;
      origin = t.origin;
      cut = t.cut;
      leaves = t.leaves;
      lane = t.lane;
      frames = reverse t.frames.items;
      waiting = t.waiting;
      processes = t.names.processes.items;
      threads = t.names.threads.items;
      strings = t.names.strings.items;
      calls = t.calls.items;
    } };
}

impl Tree {
    // Returns a tree with only the root open.
    pub(crate) fn new(
        alloc: Global,
        next: u64,
        moment: Moment,
        origin: u64,
        cut: Cut,
        leaves: Leaves,
        names: Names,
    ) -> Result<Tree, AllocError>
        ensures { IfOk result (λ tree. tree ≡ begun_tree next moment origin cut leaves
            names.processes.items names.threads.items names.strings.items) }
    {
        let mut frames = Vec::new(alloc);
        frames.push(frame_of(None, None, None))?;
        Ok(Tree {
            alloc,
            next,
            moment,
            origin,
            cut,
            leaves,
            lane: None,
            frames,
            waiting: None,
            names,
            calls: Vec::new(alloc),
        })
    }

    // Draws these items one after another, then closes all open spans.
    pub(crate) fn draw(&mut self, items: Vec<Item>) -> Result<(), AllocError>
        ensures { OnOk result (self.new
            ≡ trace_finished (stepped_all (marked self.old.cut.min_time items.items) self.old)) }
    {
        let items = marked(self.alloc, items, self.cut.min_time)?;
        self.step_all(items)?;
        self.leave_while(Until::Depth(0))
    }

    // Draws these items, the last first.
    fn step_all(&mut self, items: Vec<Item>) -> Result<(), AllocError>
        ensures { OnOk result (self.new ≡ stepped_all (reverse items.items) self.old) }
    {
        let mut items = items;
        while let Some(item) = take_last(&mut items) {
            self.step(item)?;
        }
        Ok(())
    }

    // Returns the calls.
    pub(crate) fn into_calls(self) -> Vec<Call>
        ensures { result.items ≡ self.calls }
    {
        self.calls
    }

    // Draws an item in the innermost span of its thread that hasn't ended, or counts a span that is
    // too short.
    fn step(&mut self, item: Item) -> Result<(), AllocError>
        ensures { OnOk result (self.new ≡ item_stepped item self.old) }
    {
        if !is_long(&item, self.cut.min_time) {
            return self.pass_over(&item);
        }
        self.enter(item.lane, item.start.time)?;
        self.leave_while(Until::Ended(item.start))?;
        self.go_to(item.start.time);
        self.place(item)
    }

    // Counts a span that is too short.
    fn pass_over(&mut self, item: &Item) -> Result<(), AllocError>
        ensures { OnOk result (self.new ≡ passed_over item.now self.old) }
    {
        let lane = self.shown_lane(item);
        self.enter(lane, item.start.time)?;
        self.leave_while(Until::Ended(item.start))?;
        self.leave_out(item);
        Ok(())
    }

    // Returns the lane that counts a span that is too short. This is its thread if that is drawn,
    // otherwise its process if that is drawn, otherwise the root.
    fn shown_lane(&self, item: &Item) -> Lane
        ensures { result ≡ shown_lane item.now self.now }
    {
        if is_lane(item.lane, self.lane) || item.later.in_thread {
            item.lane
        } else if is_in_process(item.lane, self.lane) || item.later.in_process {
            process_of(item.lane)
        } else {
            Lane {
                process: None,
                thread: None,
                track: None,
            }
        }
    }

    fn go_to(&mut self, time: u64)
        ensures { self.new ≡ at_moment time self.old }
    {
        self.moment = self.moment_at(time);
    }

    // Returns the moment of a time.
    fn moment_at(&self, time: u64) -> Moment
        ensures { result ≡ moment_at time self.now }
    {
        Moment {
            mono: time.saturating_sub(self.origin),
            ..self.moment
        }
    }

    // Leaves the current thread for this one.
    fn enter(&mut self, lane: Lane, time: u64) -> Result<(), AllocError>
        ensures { OnOk result (self.new ≡ lane_entered lane time self.old) }
    {
        if is_lane(lane, self.lane) {
            return Ok(());
        }
        self.enter_process(lane, time)?;
        self.enter_thread(lane, time)?;
        self.lane = Some(lane);
        Ok(())
    }

    fn enter_process(&mut self, lane: Lane, time: u64) -> Result<(), AllocError>
        ensures { OnOk result (self.new ≡ entered_process lane time self.old) }
    {
        if is_in_process(lane, self.lane) {
            return self.leave_while(Until::Depth(process_depth(lane)));
        }
        self.leave_while(Until::Depth(1))?;
        self.go_to(time);
        self.open_process(lane, time)
    }

    fn open_process(&mut self, lane: Lane, time: u64) -> Result<(), AllocError>
        ensures { OnOk result (self.new ≡ process_opened lane time self.old) }
    {
        let Some(process) = lane.process else {
            return Ok(());
        };
        let names = &self.names;
        let field = label_field(self.alloc, "pid", process, names.strings.as_slice())?;
        let name = name_in(names.processes.as_slice(), process_of(lane), "process");
        let name = Text::from_str(self.alloc, name)?;
        self.open_lane(name, field, time)
    }

    fn enter_thread(&mut self, lane: Lane, time: u64) -> Result<(), AllocError>
        ensures { OnOk result (self.new ≡ entered_thread lane time self.old) }
    {
        self.go_to(time);
        let Some(thread) = lane.thread else {
            return Ok(());
        };
        let names = &self.names;
        let field = label_field(self.alloc, "tid", thread, names.strings.as_slice())?;
        let name = name_in(names.threads.as_slice(), lane, "thread");
        let name = Text::from_str(self.alloc, name)?;
        self.open_lane(name, field, time)
    }

    // Opens the span of a process or a thread, unless it would be too deep.
    fn open_lane(&mut self, name: Text, field: Field, time: u64) -> Result<(), AllocError>
        ensures { OnOk result (self.new ≡ lane_opened name field time self.old) }
    {
        if !self.fits() {
            return Ok(());
        }
        self.put(name, Fields::one(self.alloc, field), time, None)?;
        self.settle()
    }

    // Puts a span in the innermost one. It may be a leaf.
    fn put(
        &mut self,
        name: Text,
        fields: Fields,
        start: u64,
        end: Option<Point>,
    ) -> Result<(), AllocError>
        ensures { OnOk result (self.new ≡ put name fields start end self.old) }
    {
        let parent = self.current();
        self.settle()?;
        self.push(frame_of(Some(Id(self.next)), parent, end))?;
        self.waiting = Some(Waiting {
            start,
            name,
            fields,
            parent,
        });
        Ok(())
    }

    // Opens the innermost span, if that waits for something to be drawn in it.
    fn settle(&mut self) -> Result<(), AllocError>
        ensures { OnOk result (self.new ≡ settled self.old) }
    {
        match self.waiting.take() {
            Some(span) => self.open(span),
            None => Ok(()),
        }
    }

    fn open(&mut self, span: Waiting) -> Result<(), AllocError>
        ensures { OnOk result (self.new ≡ span_opened span self.old) }
    {
        let Waiting {
            start,
            name,
            fields,
            parent,
        } = span;
        let moment = self.moment_at(start);
        let call = span_call(self.alloc, moment, name.as_str(), fields, parent)?;
        self.calls.push(call)?;
        self.next = self.next.saturating_add(1);
        Ok(())
    }

    fn push(&mut self, frame: Frame) -> Result<(), AllocError>
        ensures { OnOk result (self.new ≡ record self.old { frames = frame ∷ self.old.frames }) }
    {
        Ok(self.frames.push(frame)?)
    }

    // Returns the innermost open span.
    fn current(&self) -> Option<Id>
        ensures { result ≡ current self.now }
    {
        self.frames.as_slice().last()?.id
    }

    // Returns the end of the innermost span.
    fn current_end(&self) -> Option<Point>
        ensures { result ≡ current_end self.now }
    {
        self.frames.as_slice().last()?.end
    }

    // Closes spans from the innermost on.
    fn leave_while(&mut self, until: Until) -> Result<(), AllocError>
        ensures { OnOk result (self.new ≡ left_while until self.old.frames self.old) }
    {
        while let Some(frame) = self.leaving(until) {
            self.leave(frame)?;
        }
        Ok(())
    }

    // Removes the innermost span, if it is to close.
    fn leaving(&mut self, until: Until) -> Option<Frame>
        ensures frame { result ≡ leaving until self.old.frames }
        ensures rest { self.new ≡ record self.old {
          frames = drop (leaving_count until self.old.frames) self.old.frames;
        } }
    {
        let below = self.frames.len().saturating_sub(1);
        let frame = *self.frames.as_slice().last()?;
        if !is_left(until, &frame, below) {
            return None;
        }
        self.frames.pop()
    }

    // Closes a span that was removed, and records what was left out in it.
    fn leave(&mut self, frame: Frame) -> Result<(), AllocError>
        ensures { OnOk result (self.new ≡ frame_left frame self.old) }
    {
        if let Some(end) = frame.end {
            self.go_to(end.time);
        }
        self.emit_left_out(&frame)?;
        self.close(&frame)
    }

    // Closes a span, or draws it as a leaf if nothing was drawn in it.
    fn close(&mut self, frame: &Frame) -> Result<(), AllocError>
        ensures { OnOk result (self.new ≡ closed_or_leaf frame.now self.old) }
    {
        if let Some(span) = self.waiting.take() {
            return self.show_leaf(span);
        }
        if let Some(id) = frame.id {
            self.calls.push(close_call(self.moment, id, frame.parent))?;
        }
        Ok(())
    }

    // Draws a leaf as an event at its start.
    fn show_leaf(&mut self, span: Waiting) -> Result<(), AllocError>
        ensures { OnOk result (self.new ≡ trace_call_emitted (leaf_call span self.old) self.old) }
    {
        let Waiting {
            start,
            name,
            fields,
            parent,
        } = span;
        let moment = self.moment_at(start);
        let fields = with_message(self.alloc, name.as_str(), fields)?;
        let call = event_call(self.alloc, moment, Level::Info, fields, parent)?;
        Ok(self.calls.push(call)?)
    }

    // Records how many spans were left out, if there are any.
    fn emit_left_out(&mut self, frame: &Frame) -> Result<(), AllocError>
        ensures { OnOk result (self.new ≡ left_out_emitted frame.now self.old) }
    {
        if frame.left.spans == 0 {
            return Ok(());
        }
        let mut fields = Vec::with_capacity(self.alloc, 3)?;
        fields.push(message_field(self.alloc, "left out")?)?;
        fields.push(Field::whole(self.alloc, "spans", i128::from(frame.left.spans))?)?;
        fields.push(length_field(self.alloc, frame.left.time)?)?;
        self.push_event(Fields::from(fields), frame.id)
    }

    fn push_event(&mut self, fields: Fields, parent: Option<Id>) -> Result<(), AllocError>
        ensures { OnOk result (self.new ≡ trace_event_emitted fields parent self.old) }
    {
        self.settle()?;
        let call = event_call(self.alloc, self.moment, Level::Info, fields, parent)?;
        Ok(self.calls.push(call)?)
    }

    // Draws an item in the innermost span.
    fn place(&mut self, item: Item) -> Result<(), AllocError>
        ensures { OnOk result (self.new ≡ item_placed item self.old) }
    {
        match item.shape {
            Shape::Event => self.show_event(item),
            Shape::Whole | Shape::Unended => self.place_span(item),
        }
    }

    fn show_event(&mut self, item: Item) -> Result<(), AllocError>
        ensures { OnOk result (self.new ≡ event_shown item self.old) }
    {
        let Item {
            lane: _,
            start: _,
            end: _,
            name,
            fields,
            shape: _,
            later: _,
        } = item;
        let fields = with_message(self.alloc, name.as_str(), fields)?;
        let parent = self.current();
        self.push_event(fields, parent)
    }

    // Draws a span, or leaves it out.
    fn place_span(&mut self, item: Item) -> Result<(), AllocError>
        ensures { OnOk result (self.new ≡ span_placed item self.old) }
    {
        if self.fits() {
            return self.show_span(item);
        }
        self.leave_out(&item);
        Ok(())
    }

    // Returns whether one more span isn't too deep.
    fn fits(&self) -> bool
        ensures { result ≡ fits_depth self.now }
    {
        match self.cut.depth {
            Some(depth) => self.frames.len() <= depth,
            None => true,
        }
    }

    fn show_span(&mut self, item: Item) -> Result<(), AllocError>
        ensures { OnOk result (self.new ≡ item_span_shown item self.old) }
    {
        let waits = may_be_leaf(self.leaves, item.shape);
        self.put_span(item)?;
        if waits {
            return Ok(());
        }
        self.settle()
    }

    fn put_span(&mut self, item: Item) -> Result<(), AllocError>
        ensures { OnOk result (self.new ≡ span_put item self.old) }
    {
        let end = span_end(&item, self.current_end());
        let mut fields = span_fields(self.alloc, &item)?;
        fields.append(item.fields)?;
        self.put(item.name, fields, item.start.time, end)
    }

    // Counts a span as left out in the innermost one.
    fn leave_out(&mut self, item: &Item)
        ensures { self.new ≡ span_left_out item.now self.old }
    {
        if let Some(frame) = self.frames.as_mut_slice().last_mut() {
            frame.left = added(item, frame.left);
        }
    }
}

fn frame_of(id: Option<Id>, parent: Option<Id>, end: Option<Point>) -> Frame
    ensures { result ≡ frame_of id parent end }
{
    Frame {
        id,
        parent,
        end,
        left: Left {
            spans: 0,
            time: 0,
            lane: None,
            until: 0,
        },
    }
}

// Returns where the clock of the drawing starts: at the trace's zero, or at the first of these
// items if that is earlier.
pub(crate) fn clock_start(items: &[Item]) -> u64
    ensures { result ≡ clock_start items.now }
{
    let mut start = ZERO;
    for item in items {
        start = start.min(item.start.time);
    }
    start
}

// Returns whether a span of this shape may be a leaf that is drawn as an event.
fn may_be_leaf(leaves: Leaves, shape: Shape) -> bool
    ensures { result ≡ may_be_leaf leaves shape }
{
    match (leaves, shape) {
        (Leaves::Rows, Shape::Whole) => true,
        (Leaves::Rows, Shape::Event | Shape::Unended) | (Leaves::Spans, _) => false,
    }
}

// Returns the fields of an event with this message.
fn with_message(alloc: Global, text: &str, fields: Fields) -> Result<Fields, AllocError>
    ensures { IfOk result (λ all. all ≡ message_field text.now ∷ fields) }
{
    let mut all = Fields::one(alloc, message_field(alloc, text)?);
    all.append(fields)?;
    Ok(all)
}

// Returns whether to close an open span that has `below` frames before it.
fn is_left(until: Until, frame: &Frame, below: usize) -> bool
    ensures { result ≡ is_left until frame.now below }
{
    match until {
        Until::Depth(depth) => depth <= below,
        Until::Ended(point) => match frame.end {
            Some(end) => is_by(end, point),
            None => false,
        },
    }
}

// Returns whether a point comes before another, or is equal.
fn is_by(point: Point, other: Point) -> bool
    ensures { result ≡ is_by point other }
{
    if point.time == other.time {
        point.index <= other.index
    } else {
        point.time <= other.time
    }
}

fn is_lane(lane: Lane, before: Option<Lane>) -> bool
    ensures { result ≡ is_lane lane before }
{
    match before {
        Some(before) => same_lane(lane, before),
        None => false,
    }
}

fn is_in_process(lane: Lane, before: Option<Lane>) -> bool
    ensures { result ≡ is_in_process lane before }
{
    match before {
        Some(before) => lane.process == before.process,
        None => false,
    }
}

// Returns how many frames come before the threads of a process.
fn process_depth(lane: Lane) -> usize
    ensures { result ≡ process_depth lane }
{
    match lane.process {
        Some(_) => 2,
        None => 1,
    }
}

// Returns the name of a process or a thread, from the last element that has it.
fn name_in<'n>(names: &'n [Name], lane: Lane, unnamed: &'n str) -> &'n str
    ensures { result.now ≡ lane_name names.now lane unnamed.now }
{
    match emitted_name(names, lane) {
        Some(name) => name,
        None => unnamed,
    }
}

fn emitted_name<'n>(names: &'n [Name], lane: Lane) -> Option<&'n str>
    ensures { option_map (λ t. t.now) result ≡ emitted_name names.now lane }
{
    let found = names.iter().rev().find(|name| {
        let name: &Name = name;
        is_of_lane(name, lane)
    })?;
    Some(found.text.as_str())
}

fn is_of_lane(name: &Name, lane: Lane) -> bool
    ensures { result ≡ is_of_lane lane name.now }
{
    same_lane(name.lane, lane)
}

// Returns the end of a span, which is never after its parent's.
fn span_end(item: &Item, parent: Option<Point>) -> Option<Point>
    ensures { result ≡ span_end item.now parent }
{
    match item.shape {
        Shape::Whole => Some(within(item.end, parent)),
        Shape::Event | Shape::Unended => parent,
    }
}

fn within(end: Point, parent: Option<Point>) -> Point
    ensures { result ≡ within end parent }
{
    match parent {
        Some(parent) => { if is_by(end, parent) { end } else { parent } }
        None => end,
    }
}

// Returns how long a span took, if known, as a field.
fn span_fields(alloc: Global, item: &Item) -> Result<Fields, AllocError>
    ensures { IfOk result (λ fields. fields ≡ duration_fields item.now) }
{
    let mut fields = Vec::new(alloc);
    if let Shape::Whole = item.shape {
        let length = item.end.time.saturating_sub(item.start.time);
        fields.push(length_field(alloc, length)?)?;
    }
    Ok(Fields::from(fields))
}

fn length_field(alloc: Global, nanoseconds: u64) -> Result<Field, AllocError>
    ensures { IfOk result (λ field. field ≡ length_field nanoseconds) }
{
    Ok(Field {
        name: Text::from_str(alloc, "time")?,
        value: length_text(alloc, nanoseconds)?,
    })
}

// Adds a span to those left out. Time in which another span of its thread was left out isn't
// counted again.
fn added(item: &Item, left: Left) -> Left
    ensures { result ≡ with_left_out item.now left }
{
    let until = counted_until(item, &left);
    let end = extent(item);
    Left {
        spans: left.spans.saturating_add(1),
        time: left
            .time
            .saturating_add(end.saturating_sub(item.start.time.max(until))),
        lane: Some(item.lane),
        until: until.max(end),
    }
}

// Returns the time up to which left-out spans are counted in the thread of this span.
fn counted_until(item: &Item, left: &Left) -> u64
    ensures { result ≡ counted_until item.now left.now }
{
    if is_lane(item.lane, left.lane) {
        left.until
    } else {
        0
    }
}

// Returns the time up to which a span is known to last.
fn extent(item: &Item) -> u64
    ensures { result ≡ extent item.now }
{
    match item.shape {
        Shape::Whole => item.end.time,
        Shape::Event | Shape::Unended => item.start.time,
    }
}
