//! Lines of Rust's tracing, in tracing-subscriber's JSON format.

ghost use Rattle.std.specs.Prelude.{◌≡◌, ◌++◌, ◌∷◌, [], IfOk, None, OnOk, Some, length, map, option_map, position};
ghost use Rattle.json.specs.Value.{value_view};
ghost use Rattle.std.specs.List.{list_any};
ghost use Rattle.tracing_tree_spans.specs.Registry.Ids.{same_id};
ghost use Rattle.ttree_tracing.specs.Tracing.{acted, anywhere, unreported_opened, child, child_of_thread, close_emitted, live_span_closed, closing, live_span_ended, tracing_event_emitted, found, goes_with, if_live, if_unknown, is_child, is_child_of_thread, is_in, is_known, is_pending, late_in, late_of, learned, located, met, new_emitted, nothing_open, live_span_opened, parent_found, parted, parted_one, at_line_place, plain_emitted, reached, recorded_in, recorded_of, same_above, live_span, spared, entry_stepped, unknown_in, pending_from, with_late, with_pending};

mod line;

use json::Value;
use line::{
    Kind, Listed, kind_in, label_in, line_fields, may_be, parent_in, path_in, span_in, thread_in,
};
use std::alloc::{AllocError, Global};
use std::marker::Model;
use std::mem;
use tracing_tree_base::Id;
use tracing_tree_base::field::{Field, Fields};
use tracing_tree_base::style::Level;
use tracing_tree_base::text::Text;
use tracing_tree_layer::call::Call;
use tracing_tree_lines::lines::is_skipped;
use tracing_tree_time::Moment;
use ttree_source::calls::{all_on_thread, close_call, event_call, record_call, span_call};
use ttree_source::level::level_in;
use ttree_source::moments::moment_after;
use ttree_source::notes::Problem;
use ttree_source::source::Source;
use ttree_source::traces::plain_event;
use ttree_source::values::{is_object, text_at};

// A live span.
#[derive(Drop)]
struct Live {
    id: Id,
    // The parent's span, when it opened.
    parent: Option<Id>,
    // The span as first listed.
    first: Listed,
    // The fields that were recorded later, in the order of the lines that listed them.
    late: Fields,
    // The thread of the line that opened it. Empty if the line doesn't have one.
    thread: Text,
    // Whether a `new` reported it.
    is_emitted: bool,
}

// At most this many spans that weren't reported by a `new` are remembered, in addition to those of
// a line. A span that appears again after that opens again.
const KNOWN: usize = 64;

/// The live spans in the lines of tracing-subscriber. A span is identified by its position in the
/// list of spans, its name and its fields. Later lines may list more fields of it.
#[derive(Drop)]
pub struct Tracing {
    alloc: Global,
    // The id of the next span.
    next: u64,
    // The moment of the last line.
    moment: Moment,
    // How the thread of the last line is shown.
    thread_shown: Option<Text>,
    // The live spans, oldest first.
    live: Vec<Live>,
    // The last span of the last line.
    at: Option<Id>,
    calls: Vec<Call>,
}

impl Model for Tracing {
    ghost use Rattle.ttree_tracing.specs.Tracing.{TracingState};

    ghost Value = { TracingState };

    ghost view = { λ t. record {
      next = t.next;
      moment = t.moment;
      thread_shown = t.thread_shown;
      live = t.live.items;
      at = t.at;
      calls = t.calls.items;
    } };
}

impl Tracing {
    /// Returns the state before the first line. The next span gets the id `next`, and calls are
    /// made at `moment` until a line has a time.
    pub fn new(alloc: Global, next: u64, moment: Moment) -> Tracing
        ensures { result ≡ nothing_open next moment }
    {
        Tracing {
            alloc,
            next,
            moment,
            thread_shown: None,
            live: Vec::new(alloc),
            at: None,
            calls: Vec::new(alloc),
        }
    }

    // Advances to the moment and the thread of a line.
    fn place(&mut self, value: &Value<'_>) -> Result<(), AllocError>
        ensures { OnOk result (self.new ≡ at_line_place (value_view value.now) self.old) }
    {
        self.moment = moment_after(text_at(value, "timestamp"), &self.moment);
        self.thread_shown = label_in(self.alloc, value)?;
        Ok(())
    }

    // Returns the calls, and empties the list.
    fn take_calls(&mut self) -> Vec<Call>
        ensures calls { result.items ≡ self.old.calls }
        ensures rest { self.new ≡ record self.old { calls = [] } }
    {
        mem::replace(&mut self.calls, Vec::new(self.alloc))
    }

    // Takes a line of this level.
    fn act(&mut self, level: Level, value: &Value<'_>) -> Result<(), AllocError>
        ensures { OnOk result (self.new ≡ acted level (value_view value.now) self.old) }
    {
        let fields = line_fields(self.alloc, value)?;
        let kind = kind_in(self.alloc, fields.as_slice(), value)?;
        let at = self.locate(kind, value)?;
        self.at = at;
        match kind {
            Kind::Event => self.emit_event(level, fields, at),
            Kind::Enter | Kind::Exit => Ok(()),
            Kind::New => self.open_named(value, at),
            Kind::Close => self.close_emitted(level, fields, value, at),
        }
    }

    // Finds the span of a line: its parent, if it names one, otherwise the last of its spans. Opens
    // spans that aren't live.
    fn locate(&mut self, kind: Kind, value: &Value<'_>) -> Result<Option<Id>, AllocError>
        ensures { IfOk result (λ at. located kind (value_view value.now) self.old ≡ record {
          at =
              at;
          state = self.new;
        }) }
    {
        let path = path_in(self.alloc, kind, value)?;
        let parent = parent_in(self.alloc, kind, value, path.as_slice())?;
        let at = self.reach(path, thread_in(value))?;
        match parent {
            Some(parent) => Ok(Some(self.find_parent(parent, thread_in(value))?)),
            None => Ok(at),
        }
    }

    // Returns the newest span that may be the one of this entry. Opens a root if there isn't one.
    fn find_parent(&mut self, listed: Listed, thread: &str) -> Result<Id, AllocError>
        ensures { IfOk result (λ id. parent_found thread.now listed self.old ≡ record {
          at = Some
              id;
          state = self.new;
        }) }
    {
        let id = anywhere(self.live.as_slice(), &listed);
        self.meet(id, &listed)?;
        match id {
            Some(id) => Ok(id),
            None => self.begin(1, listed, thread, None),
        }
    }

    // Returns the last of these spans, following them from the root on. Opens those that aren't
    // live.
    fn reach(&mut self, path: Vec<Listed>, thread: &str) -> Result<Option<Id>, AllocError>
        ensures { IfOk result (λ at. reached (length path.items) thread.now path.items None
            self.old ≡ record { at = at; state = self.new }) }
    {
        let depth = path.len();
        let mut at = None;
        for listed in path {
            at = Some(self.step(depth, listed, thread, at)?);
        }
        Ok(at)
    }

    // Returns the span of this entry in the parent `parent`. Opens it unless it is live.
    fn step(
        &mut self,
        depth: usize,
        listed: Listed,
        thread: &str,
        parent: Option<Id>,
    ) -> Result<Id, AllocError>
        ensures { IfOk result (λ id. entry_stepped depth thread.now listed parent
            self.old ≡ record {
              at =
                  Some id;
              state = self.new;
            }) }
    {
        let id = child(self.live.as_slice(), parent, &listed);
        self.meet(id, &listed)?;
        match id {
            Some(id) => Ok(id),
            None => self.begin(depth, listed, thread, parent),
        }
    }

    // Records the fields of this entry that are new for the span.
    fn meet(&mut self, id: Option<Id>, listed: &Listed) -> Result<(), AllocError>
        ensures { OnOk result (self.new ≡ met id listed.now self.old) }
    {
        match id {
            Some(id) => {
                let late = late_in(self.alloc, id, listed, self.live.as_slice())?;
                self.learn(id, late)
            }
            None => Ok(()),
        }
    }

    // Records these fields of a span, after those that it has.
    fn learn(&mut self, id: Id, late: Fields) -> Result<(), AllocError>
        ensures { OnOk result (self.new ≡ learned id late self.old) }
    {
        if late.as_slice().is_empty() {
            return Ok(());
        }
        self.calls.push(record_call(id, late.clone()?))?;
        let live = self.take_live();
        self.live = with_late_all(self.alloc, id, &late, live)?;
        Ok(())
    }

    // Opens a span that wasn't reported by a `new`, for a line that lists `depth` spans.
    fn begin(
        &mut self,
        depth: usize,
        listed: Listed,
        thread: &str,
        parent: Option<Id>,
    ) -> Result<Id, AllocError>
        ensures { IfOk result (λ id. unreported_opened depth thread.now listed parent
            self.old ≡ record {
              at =
                  Some id;
              state = self.new;
            }) }
    {
        self.spare(depth);
        self.open(false, listed, thread, parent)
    }

    // Forgets the oldest span that wasn't reported by a `new`, if there are too many of them.
    fn spare(&mut self, depth: usize)
        ensures { self.new ≡ spared depth self.old }
    {
        if pending_count(self.live.as_slice()).saturating_sub(KNOWN) < depth {
            return;
        }
        match oldest_pending(self.live.as_slice()) {
            Some(place) if place < self.live.len() => forget(self.live.remove(place)),
            _ => {}
        }
    }

    // Opens a span.
    fn open(
        &mut self,
        is_emitted: bool,
        listed: Listed,
        thread: &str,
        parent: Option<Id>,
    ) -> Result<Id, AllocError>
        ensures { IfOk result (λ id. live_span_opened is_emitted thread.now listed parent
            self.old ≡ record {
              at
                  = Some id;
              state = self.new;
            }) }
    {
        let fields = listed.fields.clone()?;
        let call = span_call(
            self.alloc,
            self.moment,
            listed.name.as_str(),
            fields,
            parent,
        )?;
        self.calls.push(call)?;
        let id = Id(self.next);
        let thread = Text::from_str(self.alloc, thread)?;
        self.live.push(Live {
            id,
            parent,
            first: listed,
            late: Fields::new(self.alloc),
            thread,
            is_emitted,
        })?;
        self.next = self.next.saturating_add(1);
        Ok(id)
    }

    // Records the event of a line in its span. What the line records of that span comes last among
    // its fields.
    fn emit_event(&mut self, level: Level, fields: Fields, at: Option<Id>) -> Result<(), AllocError>
        ensures { OnOk result (self.new
            ≡ tracing_event_emitted level (fields ++ recorded_in at self.old.calls) at self.old) }
    {
        let mut fields = fields;
        fields.append(recorded_in(self.alloc, at, self.calls.as_slice())?)?;
        self.push_event(level, fields, at)
    }

    // Records an event in this span.
    fn push_event(
        &mut self,
        level: Level,
        fields: Fields,
        parent: Option<Id>,
    ) -> Result<(), AllocError>
        ensures { OnOk result (self.new ≡ tracing_event_emitted level fields parent self.old) }
    {
        let call = event_call(self.alloc, self.moment, level, fields, parent)?;
        Ok(self.calls.push(call)?)
    }

    // Opens the span that a line names.
    fn open_named(&mut self, value: &Value<'_>, parent: Option<Id>) -> Result<(), AllocError>
        ensures { OnOk result (self.new ≡ new_emitted (value_view value.now) parent self.old) }
    {
        if let Some(listed) = span_in(self.alloc, value)? {
            self.open(true, listed, thread_in(value), parent)?;
        }
        Ok(())
    }

    // Closes the span whose close a line reports.
    fn close_emitted(
        &mut self,
        level: Level,
        fields: Fields,
        value: &Value<'_>,
        parent: Option<Id>,
    ) -> Result<(), AllocError>
        ensures { OnOk result (self.new ≡ close_emitted level fields (value_view value.now) parent
            self.old) }
    {
        match span_in(self.alloc, value)? {
            Some(listed) => {
                let id = self.closing(listed, thread_in(value), parent)?;
                self.end(level, fields, id)
            }
            None => match child_of_thread(self.live.as_slice(), parent, thread_in(value)) {
                Some(id) => self.end(level, fields, id),
                None => Ok(()),
            },
        }
    }

    // Returns the span of this entry, whose close is reported: the one in the parent `parent`,
    // otherwise one elsewhere. Opens it if it isn't live.
    fn closing(
        &mut self,
        listed: Listed,
        thread: &str,
        parent: Option<Id>,
    ) -> Result<Id, AllocError>
        ensures { IfOk result (λ id. closing thread.now listed parent self.old ≡ record {
          at = Some
              id;
          state = self.new;
        }) }
    {
        let id = found(self.live.as_slice(), parent, &listed);
        self.meet(id, &listed)?;
        match id {
            Some(id) => Ok(id),
            None => self.open(false, listed, thread, parent),
        }
    }

    // Ends a span: records an event with its times and its late fields, if it has any, and closes
    // it.
    fn end(&mut self, level: Level, fields: Fields, id: Id) -> Result<(), AllocError>
        ensures { OnOk result (self.new ≡ live_span_ended level fields id self.old) }
    {
        let mut fields = fields;
        fields.append(late_of(self.alloc, id, self.live.as_slice())?)?;
        if fields.as_slice().len() > 1 {
            self.push_event(level, fields, Some(id))?;
        }
        self.close(id)
    }

    // Takes a line that isn't a JSON object, as an event in the last span of the line before it. A
    // blank one means nothing.
    fn take_plain(&mut self, line: &str) -> Result<(), AllocError>
        ensures { OnOk result (self.new ≡ plain_emitted line.now self.old) }
    {
        if is_skipped(line.as_bytes()) {
            return Ok(());
        }
        let at = if_live(self.at, self.live.as_slice());
        let call = plain_event(self.alloc, self.moment, line, at)?;
        Ok(self.calls.push(call)?)
    }

    // Closes a span and all live spans in it.
    fn close(&mut self, id: Id) -> Result<(), AllocError>
        ensures { OnOk result (self.new ≡ live_span_closed id self.old) }
    {
        let live = self.take_live();
        self.part(live, id)
    }

    fn take_live(&mut self) -> Vec<Live>
        ensures live { result.items ≡ self.old.live }
        ensures rest { self.new ≡ record self.old { live = [] } }
    {
        mem::replace(&mut self.live, Vec::new(self.alloc))
    }

    // Closes a span and those of `live` in it, and keeps the others.
    fn part(&mut self, live: Vec<Live>, id: Id) -> Result<(), AllocError>
        ensures { OnOk result (self.new ≡ parted live.items (id ∷ []) self.old) }
    {
        let mut gone = Vec::new(self.alloc);
        gone.push(id)?;
        for one in live {
            self.part_one(one, &mut gone)?;
        }
        Ok(())
    }

    // Closes a span if it is one of these or nested in one. Otherwise keeps it.
    fn part_one(&mut self, one: Live, gone: &mut Vec<Id>) -> Result<(), AllocError>
        ensures { OnOk result (parted_one one gone.old.items self.old ≡ record {
          gone =
              gone.new.items;
          state = self.new;
        }) }
    {
        if !goes_with(&one, gone.as_slice()) {
            return Ok(self.live.push(one)?);
        }
        self.calls
            .push(close_call(self.moment, one.id, one.parent))?;
        Ok(gone.push(one.id)?)
    }
}

// Returns whether a span is one of these or a child of one.
fn goes_with(one: &Live, gone: &[Id]) -> bool
    ensures { result ≡ goes_with one.now gone.now }
{
    contains(gone, one.id) || is_in(one.parent, gone)
}

fn is_in(parent: Option<Id>, gone: &[Id]) -> bool
    ensures { result ≡ is_in parent gone.now }
{
    match parent {
        Some(parent) => contains(gone, parent),
        None => false,
    }
}

// Returns whether the id is among these.
fn contains(ids: &[Id], id: Id) -> bool
    ensures { result ≡ list_any (same_id id) ids.now }
{
    ids.iter().any(|other| id == *other)
}

// Returns the newest child of `parent` that may be the span of an entry.
fn child(live: &[Live], parent: Option<Id>, listed: &Listed) -> Option<Id>
    ensures { result ≡ child live.now parent listed.now }
{
    let found = live.iter().rev().find(|one| {
        let one: &Live = one;
        is_child(one, parent, listed)
    })?;
    Some(found.id)
}

// Returns the newest span that may be the one of an entry.
fn anywhere(live: &[Live], listed: &Listed) -> Option<Id>
    ensures { result ≡ anywhere live.now listed.now }
{
    let found = live.iter().rev().find(|one| {
        let one: &Live = one;
        may_be(listed, &one.first)
    })?;
    Some(found.id)
}

// Returns the newest child of `parent` that opened on this thread.
fn child_of_thread(live: &[Live], parent: Option<Id>, thread: &str) -> Option<Id>
    ensures { result ≡ child_of_thread live.now parent thread.now }
{
    let found = live.iter().rev().find(|one| {
        let one: &Live = one;
        is_child_of_thread(one, parent, thread)
    })?;
    Some(found.id)
}

// Returns the span of an entry in the parent `parent`, otherwise one anywhere.
fn found(live: &[Live], parent: Option<Id>, listed: &Listed) -> Option<Id>
    ensures { result ≡ found live.now parent listed.now }
{
    match child(live, parent, listed) {
        Some(id) => Some(id),
        None => anywhere(live, listed),
    }
}

fn is_child(one: &Live, parent: Option<Id>, listed: &Listed) -> bool
    ensures { result ≡ is_child parent listed.now one.now }
{
    same_above(one.parent, parent) && may_be(listed, &one.first)
}

fn is_child_of_thread(one: &Live, parent: Option<Id>, thread: &str) -> bool
    ensures { result ≡ is_child_of_thread parent thread.now one.now }
{
    same_above(one.parent, parent) && one.thread.as_str() == thread
}

fn same_above(one: Option<Id>, other: Option<Id>) -> bool
    ensures { result ≡ same_above one other }
{
    match (one, other) {
        (Some(one), Some(other)) => one == other,
        (None, None) => true,
        _ => false,
    }
}

impl Source for Tracing {
    ghost use Rattle.ttree_tracing.specs.Tracing.{tracing_takes, tracing_problem, tracing_ended, tracing_ends};

    ghost takes = { tracing_takes };

    ghost ends = { tracing_ends };

    ghost ended = { tracing_ended };

    ghost value_problem = { tracing_problem };

    fn take(
        &mut self,
        alloc: Global,
        line: &str,
        value: Option<&Value<'_>>,
    ) -> Result<Option<Vec<Call>>, AllocError> {
        match value {
            Some(value) if is_object(value) => {
                let Some(level) = level_in(value) else {
                    return Ok(None);
                };
                self.place(value)?;
                self.act(level, value)?;
            }
            _ => self.take_plain(line)?,
        }
        let calls = self.take_calls();
        Ok(Some(all_on_thread(alloc, &self.thread_shown, calls)?))
    }

    fn problem(value: Option<&Value<'_>>) -> Problem {
        match value {
            Some(_) => Problem::Level,
            None => Problem::Object,
        }
    }

    fn end(&mut self, alloc: Global) -> Result<Vec<Call>, AllocError> {
        Ok(Vec::new(alloc))
    }
}

// Returns the span with this id, if it is live.
fn span_of(live: &[Live], id: Id) -> Option<&Live>
    ensures { option_map (λ one. one.now) result ≡ live_span live.now id }
{
    live.iter().find(|one| {
        let one: &Live = one;
        one.id == id
    })
}

// Returns this id if its span is live.
fn if_live(id: Option<Id>, live: &[Live]) -> Option<Id>
    ensures { result ≡ if_live id live.now }
{
    let id = id?;
    let one = span_of(live, id)?;
    Some(one.id)
}

// Returns the fields of an entry that are new for the span with this id.
fn late_in(alloc: Global, id: Id, listed: &Listed, live: &[Live]) -> Result<Fields, AllocError>
    ensures { IfOk result (λ late. late ≡ late_in id listed.now live.now) }
{
    match span_of(live, id) {
        Some(one) => unknown_in(alloc, listed.fields.as_slice(), one),
        None => Ok(Fields::new(alloc)),
    }
}

fn unknown_in(alloc: Global, fields: &[Field], one: &Live) -> Result<Fields, AllocError>
    ensures { IfOk result (λ unknown. unknown ≡ unknown_in one.now fields.now) }
{
    let mut unknown = Vec::new(alloc);
    for field in fields {
        push_unknown(&mut unknown, field, one)?;
    }
    Ok(Fields::from(unknown))
}

fn push_unknown(unknown: &mut Vec<Field>, field: &Field, one: &Live) -> Result<(), AllocError>
    ensures { OnOk result (unknown.new.items ≡ unknown.old.items ++ if_unknown one.now field.now) }
{
    if is_known(one, field) {
        return Ok(());
    }
    Ok(unknown.push(field.clone()?)?)
}

fn is_known(one: &Live, field: &Field) -> bool
    ensures { result ≡ is_known one.now field.now }
{
    one.first.fields.as_slice().contains(field) || one.late.as_slice().contains(field)
}

// Returns the fields that these calls record of this span.
fn recorded_in(alloc: Global, at: Option<Id>, calls: &[Call]) -> Result<Fields, AllocError>
    ensures { IfOk result (λ fields. fields ≡ recorded_in at calls.now) }
{
    let mut fields = Fields::new(alloc);
    let mut rest = calls;
    while let [call, others @ ..] = rest {
        append_recorded(&mut fields, at, call)?;
        rest = others;
    }
    Ok(fields)
}

fn append_recorded(fields: &mut Fields, at: Option<Id>, call: &Call) -> Result<(), AllocError>
    ensures { OnOk result (fields.new ≡ fields.old ++ recorded_of at call.now) }
{
    match (at, call) {
        (Some(at), Call::Record(id, record)) if *id == at => fields.append(record.fields.clone()?),
        _ => Ok(()),
    }
}

// Returns the fields of a span that were recorded late.
fn late_of(alloc: Global, id: Id, live: &[Live]) -> Result<Fields, AllocError>
    ensures { IfOk result (λ late. late ≡ late_of id live.now) }
{
    match span_of(live, id) {
        Some(one) => one.late.clone(),
        None => Ok(Fields::new(alloc)),
    }
}

// Returns these spans, with these fields appended to the one with this id.
fn with_late_all(
    alloc: Global,
    id: Id,
    late: &Fields,
    live: Vec<Live>,
) -> Result<Vec<Live>, AllocError>
    ensures { IfOk result (λ all. all.items ≡ map (with_late id late.now) live.items) }
{
    let mut all = Vec::new(alloc);
    for one in live {
        all.push(with_late(id, late, one)?)?;
    }
    Ok(all)
}

fn with_late(id: Id, late: &Fields, one: Live) -> Result<Live, AllocError>
    ensures { IfOk result (λ made. made ≡ with_late id late.now one) }
{
    let mut one = one;
    if one.id == id {
        one.late.append(late.clone()?)?;
    }
    Ok(one)
}

// Drops a span.
fn forget(_one: Live) {}

// Returns the index of the oldest span that wasn't reported by a `new`.
fn oldest_pending(live: &[Live]) -> Option<usize>
    ensures { result ≡ position is_pending live.now }
{
    live.iter().position(|one| {
        let one: &Live = one;
        is_pending(one)
    })
}

fn is_pending(one: &Live) -> bool
    ensures { result ≡ is_pending one.now }
{
    !one.is_emitted
}

// Returns how many spans weren't reported by a `new`.
fn pending_count(live: &[Live]) -> usize
    ensures { result ≡ pending_from 0 live.now }
{
    let mut count = 0;
    let mut rest = live;
    while let [one, others @ ..] = rest {
        count = with_pending(one, count);
        rest = others;
    }
    count
}

fn with_pending(one: &Live, count: usize) -> usize
    ensures { result ≡ with_pending one.now count }
{
    if one.is_emitted {
        count
    } else {
        count.saturating_add(1)
    }
}
