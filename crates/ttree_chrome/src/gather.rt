//! Collects the elements of a trace.

ghost use Rattle.std.specs.Prelude.{◌≡◌, ◌∷◌, ◌++◌, [], ◌<◌, length, IfNone, IfOk, IfSome, OnOk, IsPermutation, IsSorted, option_to_list};
ghost use Rattle.ttree_chrome.specs.Gather.{began, drawn, entry_placed, gathered_one, happened, item_cmp, item_of, lane_of, lane_span_ended, last_in, none_later, nothing_gathered, on_track, owned, process_named, process_of, same_lane, thread_named, tracked, tracked_as, undrawn_one, whole};

use crate::element::{Element, Entry, Owner, Track};
use crate::keys::Keys;
use crate::strings::{Label, Strings};
use std::alloc::{AllocError, Global};
use std::cmp::Reverse;
use std::marker::Model;
use tracing_tree_base::field::Fields;
use tracing_tree_base::text::Text;

// A process and a thread, or a process and the number of an asynchronous track.
#[derive(Clone, Copy, PartialEq, Eq, PartialOrd, Ord)]
pub(crate) struct Lane {
    pub(crate) process: Option<Label>,
    pub(crate) thread: Option<Label>,
    pub(crate) track: Option<u64>,
}

// The kind of an item of the drawing.
#[derive(Clone, Copy)]
pub(crate) enum Shape {
    Event,
    // A span with a known end.
    Whole,
    // A span that began, and has no end.
    Unended,
}

// A point of a trace: its time, and how many elements came before. A time is in nanoseconds since
// 2^63 ns before the zero of the trace's clock.
#[derive(Clone, Copy)]
pub(crate) struct Point {
    pub(crate) time: u64,
    pub(crate) index: u64,
}

// Whether one of the items after an item is drawn.
#[derive(Clone, Copy)]
pub(crate) struct Later {
    // One of the same thread.
    pub(crate) in_thread: bool,
    // One of the same process.
    pub(crate) in_process: bool,
}

// An entry in its lane.
#[derive(Drop)]
pub(crate) struct Placed {
    pub(crate) lane: Lane,
    pub(crate) start: u64,
    pub(crate) name: Text,
    pub(crate) fields: Fields,
}

// An event or a span.
#[derive(Drop)]
pub(crate) struct Item {
    pub(crate) lane: Lane,
    pub(crate) start: Point,
    // The end of an `X` comes before all elements at its time. A span without an end has the
    // greatest possible time.
    pub(crate) end: Point,
    pub(crate) name: Text,
    pub(crate) fields: Fields,
    pub(crate) shape: Shape,
    pub(crate) later: Later,
}

// The name of a process or a thread.
#[derive(Drop)]
pub(crate) struct Name {
    pub(crate) lane: Lane,
    pub(crate) text: Text,
}

// The elements so far.
#[derive(Drop)]
pub(crate) struct Gathered {
    // The items to draw, without the spans that began and haven't ended.
    pub(crate) items: Vec<Item>,
    // The spans that began and haven't ended, the newest last.
    pub(crate) begun: Vec<Item>,
    pub(crate) processes: Vec<Name>,
    pub(crate) threads: Vec<Name>,
    // The strings that identify processes and threads.
    pub(crate) strings: Strings,
    // The asynchronous tracks by their keys.
    pub(crate) tracks: Keys,
    // The number of elements.
    pub(crate) count: u64,
    // The number of those that have no row.
    pub(crate) undrawn: u64,
}

impl Model for Gathered {
    ghost use Rattle.ttree_chrome.specs.Gather.{GatheredState};

    ghost Value = { GatheredState };

    ghost view = { λ g. record {
      items = g.items.items;
      begun = g.begun.items;
      processes = g.processes.items;
      threads = g.threads.items;
      strings = g.strings;
      tracks = g.tracks;
      count = g.count;
      undrawn = g.undrawn;
    } };
}

impl Gathered {
    pub(crate) fn new(alloc: Global) -> Gathered
        ensures { result ≡ nothing_gathered }
    {
        Gathered {
            items: Vec::new(alloc),
            begun: Vec::new(alloc),
            processes: Vec::new(alloc),
            threads: Vec::new(alloc),
            strings: Strings::new(alloc),
            tracks: Keys::new(alloc),
            count: 0,
            undrawn: 0,
        }
    }

    // Adds an element.
    pub(crate) fn take(&mut self, element: Element) -> Result<(), AllocError>
        ensures { OnOk result (self.new ≡ gathered_one element self.old) }
    {
        let index = self.count;
        self.count = self.count.saturating_add(1);
        match element {
            Element::Span(entry, end) => {
                let one = self.place(entry)?;
                self.draw(item_of(one, end, Shape::Whole, index))
            }
            Element::Begin(entry) => {
                let one = self.place(entry)?;
                self.begin(one, index)
            }
            Element::End(entry) => {
                let one = self.place(entry)?;
                self.end(one, index)
            }
            Element::Instant(entry) => {
                let one = self.place(entry)?;
                self.happen(one, index)
            }
            Element::Async(track, entry, key) => {
                let one = self.place(entry)?;
                self.take_tracked(track, one, key.as_str(), index)
            }
            Element::ProcessName(owner, text) => self.name_process(owner, text),
            Element::ThreadName(owner, text) => self.name_thread(owner, text),
            Element::Metadata => Ok(()),
            Element::Undrawn => {
                self.count_undrawn();
                Ok(())
            }
        }
    }

    // Returns an entry in its lane.
    fn place(&mut self, entry: Entry) -> Result<Placed, AllocError>
        ensures place { IfOk result (λ one. one ≡ entry_placed entry self.old.strings) }
        ensures strings { OnOk result (self.new ≡ owned entry.owner self.old) }
    {
        let Entry {
            owner,
            start,
            name,
            fields,
        } = entry;
        let lane = self.lane_of(owner)?;
        Ok(Placed {
            lane,
            start,
            name,
            fields,
        })
    }

    // Returns the lane of a process and a thread.
    fn lane_of(&mut self, owner: Owner) -> Result<Lane, AllocError>
        ensures lane { IfOk result (λ lane. lane ≡ lane_of owner self.old.strings) }
        ensures strings { OnOk result (self.new ≡ owned owner self.old) }
    {
        let Owner { process, thread } = owner;
        let process = self.strings.take(process)?;
        let thread = self.strings.take(thread)?;
        Ok(Lane {
            process,
            thread,
            track: None,
        })
    }

    fn name_process(&mut self, owner: Owner, text: Text) -> Result<(), AllocError>
        ensures { OnOk result (self.new
            ≡ process_named (lane_of owner self.old.strings) text (owned owner self.old)) }
    {
        let lane = process_of(self.lane_of(owner)?);
        Ok(self.processes.push(Name { lane, text })?)
    }

    fn name_thread(&mut self, owner: Owner, text: Text) -> Result<(), AllocError>
        ensures { OnOk result (self.new
            ≡ thread_named (lane_of owner self.old.strings) text (owned owner self.old)) }
    {
        let lane = self.lane_of(owner)?;
        Ok(self.threads.push(Name { lane, text })?)
    }

    // Adds an entry of the asynchronous track with this key.
    fn take_tracked(
        &mut self,
        track: Track,
        one: Placed,
        key: &str,
        index: u64,
    ) -> Result<(), AllocError>
        ensures { OnOk result (self.new ≡ tracked track one key.now index self.old) }
    {
        let number = self.tracks.take(key)?;
        self.take_on_track(track, on_track(one, number), index)
    }

    fn take_on_track(&mut self, track: Track, one: Placed, index: u64) -> Result<(), AllocError>
        ensures { OnOk result (self.new ≡ tracked_as track one index self.old) }
    {
        match track {
            Track::Begin => self.begin(one, index),
            Track::End => self.end(one, index),
            Track::Instant => self.happen(one, index),
        }
    }

    fn draw(&mut self, item: Item) -> Result<(), AllocError>
        ensures { OnOk result (self.new ≡ drawn item self.old) }
    {
        Ok(self.items.push(item)?)
    }

    // Begins a span.
    fn begin(&mut self, one: Placed, index: u64) -> Result<(), AllocError>
        ensures { OnOk result (self.new ≡ began one index self.old) }
    {
        let item = item_of(one, u64::MAX, Shape::Unended, index);
        Ok(self.begun.push(item)?)
    }

    // Ends the lane's span that began last, with the element at `index`. If the lane has no open
    // span, the element has no row.
    fn end(&mut self, one: Placed, index: u64) -> Result<(), AllocError>
        ensures { OnOk result (self.new ≡ lane_span_ended one index self.old) }
    {
        match last_in(self.begun.as_slice(), one.lane) {
            Some(at) => {
                let begun = self.begun.remove(at);
                Ok(self.items.push(whole(begun, one, index)?)?)
            }
            None => {
                self.count_undrawn();
                Ok(())
            }
        }
    }

    // Counts an element that has no row.
    fn count_undrawn(&mut self)
        ensures { self.new ≡ undrawn_one self.old }
    {
        self.undrawn = self.undrawn.saturating_add(1);
    }

    // Adds an event.
    fn happen(&mut self, one: Placed, index: u64) -> Result<(), AllocError>
        ensures { OnOk result (self.new ≡ happened one index self.old) }
    {
        let start = one.start;
        self.draw(item_of(one, start, Shape::Event, index))
    }
}

// Returns all items to draw, in order: by process, thread and track, then by start, the longer
// first, then in the order of the elements. Spans without an end are included.
pub(crate) fn in_order(items: Vec<Item>, begun: Vec<Item>) -> Result<Vec<Item>, AllocError>
    ensures same { IfOk result (λ ordered. IsPermutation (items.items ++ begun.items)
        ordered.items) }
    ensures sorted { IfOk result (λ ordered. IsSorted item_cmp ordered.items) }
{
    let mut items = items;
    let mut begun = begun;
    items.append(&mut begun)?;
    sort(&mut items)?;
    Ok(items)
}

// Takes the last of these items. Frees the space of those that were taken, once it is most of it.
pub(crate) fn take_last(items: &mut Vec<Item>) -> Option<Item>
    ensures rest { items.old.items ≡ items.new.items ++ option_to_list result }
    ensures none { IfNone result (items.old.items ≡ []) }
{
    let last = items.pop();
    if items.len() < items.capacity() / 2 {
        items.shrink_to_fit();
    }
    last
}

fn sort(items: &mut Vec<Item>) -> Result<(), AllocError>
    ensures same { IsPermutation items.old.items items.new.items }
    ensures sorted { OnOk result (IsSorted item_cmp items.new.items) }
{
    items.sort_by_key(|item| {
        (
            item.lane,
            item.start.time,
            Reverse(item.end.time),
            item.start.index,
        )
    })?;
    Ok(())
}

fn item_of(one: Placed, end: u64, shape: Shape, index: u64) -> Item
    ensures { result ≡ item_of one end shape index }
{
    Item {
        lane: one.lane,
        start: Point {
            time: one.start,
            index,
        },
        end: Point {
            time: end,
            index: 0,
        },
        name: one.name,
        fields: one.fields,
        shape,
        later: none_later(),
    }
}

// Returns a span that began, with the time and the fields of its end at `index`.
fn whole(one: Item, end: Placed, index: u64) -> Result<Item, AllocError>
    ensures { IfOk result (λ item. item ≡ whole one end index) }
{
    let mut one = one;
    one.fields.append(end.fields)?;
    one.end = Point {
        time: one.start.time.max(end.start),
        index,
    };
    one.shape = Shape::Whole;
    Ok(one)
}

// Returns the index of the last of these in the lane.
fn last_in(begun: &[Item], lane: Lane) -> Option<usize>
    ensures last { result ≡ last_in begun.now lane }
    ensures within { IfSome result (λ at. at < length begun.now) }
{
    let mut at = begun.len();
    while at > 0 {
        at -= 1;
        if same_lane(begun[at].lane, lane) {
            return Some(at);
        }
    }
    None
}

pub(crate) fn same_lane(one: Lane, other: Lane) -> bool
    ensures { result ≡ same_lane one other }
{
    one.process == other.process && one.thread == other.thread && one.track == other.track
}

// Returns an entry in the asynchronous track with this number.
fn on_track(one: Placed, number: u64) -> Placed
    ensures { result ≡ on_track number one }
{
    let lane = Lane {
        process: one.lane.process,
        thread: None,
        track: Some(number),
    };
    Placed { lane, ..one }
}

// Returns the lane of a process, for items without a thread.
pub(crate) fn process_of(lane: Lane) -> Lane
    ensures { result ≡ process_of lane }
{
    Lane {
        process: lane.process,
        thread: None,
        track: None,
    }
}

pub(crate) fn none_later() -> Later
    ensures { result ≡ none_later }
{
    Later {
        in_thread: false,
        in_process: false,
    }
}
