//! Lines of a service's log, each a JSON object.

ghost use Rattle.std.specs.Prelude.{◌≡◌, [], IfOk, OnOk, option_map};
ghost use Rattle.json.specs.Value.{value_view};
ghost use Rattle.ttree_logs.specs.Logs.{logs_problem, arrived, close_of, group_entered, log_event_emitted, group_fields, grouped_by, id_field, log_line_emitted, located, no_group, object_emitted, group_opened, at_line_time, plain_emitted, process_fields};
ghost use Rattle.ttree_logs.specs.LogLine.{group_in, group_key};

mod fields;
mod level;
mod line;
mod time;
mod used;

use crate::groups::Groups;
use json::Value;
use line::{Group, event_fields, group_in, group_key, level_in, moment_in};
use std::alloc::{AllocError, Global};
use std::marker::Model;
use std::mem;
use tracing_tree_base::Id;
use tracing_tree_base::field::{Field, Fields};
use tracing_tree_base::text::Text;
use tracing_tree_layer::call::Call;
use tracing_tree_lines::lines::is_skipped;
use tracing_tree_time::Moment;
use ttree_source::calls::{close_call, event_call, shown, span_call};
use ttree_source::notes::Problem;
use ttree_source::source::Source;
use ttree_source::traces::plain_event;
use ttree_source::values::is_object;

/// The groups of a log: its traces and its requests, the units of journald, or the values at a key.
///
/// A line that is an object is an event in the span of its group, or at the root without a group.
/// Any other line is an event in the same span as the last object.
#[derive(Drop)]
pub struct Logs<'k> {
    alloc: Global,
    // The key that groups events, in place of their traces and requests.
    asked: Option<&'k str>,
    // The id that the next span gets.
    next: u64,
    // That of the last line.
    moment: Moment,
    groups: Groups,
    // The span of the last object's group.
    at: Option<Id>,
    calls: Vec<Call>,
}

impl<'k> Model for Logs<'k> {
    ghost use Rattle.std.specs.Prelude.{option_map};
    ghost use Rattle.ttree_logs.specs.Logs.{LogsState};

    ghost Value = { LogsState };

    ghost view = { λ l. record {
      asked = option_map (λ k. k.now) l.asked;
      next = l.next;
      moment = l.moment;
      groups = l.groups;
      at = l.at;
      calls = l.calls.items;
    } };
}

impl<'k> Logs<'k> {
    /// Creates a source that knows no group. Its first span gets the id `next`, and calls are made
    /// at `moment` until a line says when it happened.
    pub fn new(alloc: Global, next: u64, moment: Moment) -> Logs<'k>
        ensures { result ≡ no_group next moment }
    {
        Logs {
            alloc,
            asked: None,
            next,
            moment,
            groups: Groups::new(alloc),
            at: None,
            calls: Vec::new(alloc),
        }
    }

    /// Creates a source that groups events by the value at this key, in place of their traces,
    /// requests and units. The spans of the groups have the key as their name.
    pub fn grouped_by(alloc: Global, key: &'k str, next: u64, moment: Moment) -> Logs<'k>
        ensures { result ≡ grouped_by key.now (no_group next moment) }
    {
        Logs {
            alloc,
            asked: Some(key),
            next,
            moment,
            groups: Groups::new(alloc),
            at: None,
            calls: Vec::new(alloc),
        }
    }

    // Hands out the calls.
    fn take_calls(&mut self) -> Vec<Call>
        ensures calls { result.items ≡ self.old.calls }
        ensures rest { self.new ≡ record self.old { calls = [] } }
    {
        mem::replace(&mut self.calls, Vec::new(self.alloc))
    }

    // Takes a line that is this value, if it is JSON.
    fn take_line(&mut self, line: &str, value: Option<&Value<'_>>) -> Result<(), AllocError>
        ensures { OnOk result (self.new
            ≡ log_line_emitted line.now (option_map (λ v. value_view v.now) value.entry) self.old) }
    {
        match value {
            Some(value) if is_object(value) => self.take_object(value),
            _ => self.take_plain(line),
        }
    }

    fn take_object(&mut self, value: &Value<'_>) -> Result<(), AllocError>
        ensures { OnOk result (self.new ≡ object_emitted (value_view value.now) self.old) }
    {
        self.place(value);
        self.locate(value)?;
        self.push_event(value)
    }

    // Goes on to the moment of a line.
    fn place(&mut self, value: &Value<'_>)
        ensures { self.new ≡ at_line_time (value_view value.now) self.old }
    {
        self.moment = moment_in(value, &self.moment);
    }

    // Comes to this span, or to the root.
    fn arrive(&mut self, at: Option<Id>)
        ensures { self.new ≡ arrived at self.old }
    {
        self.at = at;
    }

    // Comes to the span of a line's group, or to the root.
    fn locate(&mut self, value: &Value<'_>) -> Result<(), AllocError>
        ensures { OnOk result (self.new
            ≡ located (group_in self.old.asked (value_view value.now)) self.old) }
    {
        match group_in(self.asked, value) {
            Some(group) => self.enter(&group),
            None => {
                self.arrive(None);
                Ok(())
            }
        }
    }

    // Comes to the span of a group, which opens unless it is open.
    fn enter(&mut self, group: &Group<'_>) -> Result<(), AllocError>
        ensures { OnOk result (self.new ≡ group_entered group.now self.old) }
    {
        let key = group_key(self.alloc, group)?;
        match self.groups.find(key) {
            Ok(span) => {
                self.arrive(Some(span));
                Ok(())
            }
            Err(key) => self.open(key, group),
        }
    }

    // Opens the span of a group.
    fn open(&mut self, key: Vec<u8>, group: &Group<'_>) -> Result<(), AllocError>
        requires { key.items ≡ group_key group.now }
        ensures { OnOk result (self.new ≡ group_opened group.now self.old) }
    {
        let fields = group_fields(self.alloc, group)?;
        let call = span_call(self.alloc, self.moment, group.name, fields, None)?;
        self.calls.push(call)?;
        let span = Id(self.next);
        self.groups.put(key, span)?;
        self.next = self.next.saturating_add(1);
        self.at = Some(span);
        Ok(())
    }

    fn push_event(&mut self, value: &Value<'_>) -> Result<(), AllocError>
        ensures { OnOk result (self.new ≡ log_event_emitted (value_view value.now) self.old) }
    {
        let fields = event_fields(self.alloc, self.asked, value)?;
        let call = event_call(self.alloc, self.moment, level_in(value), fields, self.at)?;
        Ok(self.calls.push(call)?)
    }

    // Takes a line that isn't an object. A blank one means nothing.
    fn take_plain(&mut self, line: &str) -> Result<(), AllocError>
        ensures { OnOk result (self.new ≡ plain_emitted line.now self.old) }
    {
        if is_skipped(line.as_bytes()) {
            return Ok(());
        }
        let call = plain_event(self.alloc, self.moment, line, self.at)?;
        Ok(self.calls.push(call)?)
    }
}

// Returns the fields of a group's span.
fn group_fields(alloc: Global, group: &Group<'_>) -> Result<Fields, AllocError>
    ensures { IfOk result (λ fields. fields ≡ group_fields group.now) }
{
    let mut fields = Fields::one(alloc, id_field(alloc, group.id)?);
    fields.append(process_fields(alloc, group.process)?)?;
    Ok(fields)
}

fn process_fields(alloc: Global, process: Option<&str>) -> Result<Fields, AllocError>
    ensures { IfOk result (λ fields.
        fields ≡ process_fields (option_map (λ p. p.now) process.entry)) }
{
    match process {
        Some(process) => {
            let field = Field {
                name: Text::from_str(alloc, "pid")?,
                value: shown(alloc, process)?,
            };
            Ok(Fields::one(alloc, field))
        }
        None => Ok(Fields::new(alloc)),
    }
}

fn id_field(alloc: Global, id: &str) -> Result<Field, AllocError>
    ensures { IfOk result (λ field. field ≡ id_field id.now) }
{
    Ok(Field {
        name: Text::from_str(alloc, "id")?,
        value: shown(alloc, id)?,
    })
}

impl Source for Logs<'_> {
    ghost use Rattle.ttree_logs.specs.Logs.{logs_ended, logs_ends, logs_problem, logs_takes};

    ghost takes = { logs_takes };

    ghost ends = { logs_ends };

    ghost ended = { logs_ended };

    ghost value_problem = { logs_problem };

    fn take(
        &mut self,
        _alloc: Global,
        line: &str,
        value: Option<&Value<'_>>,
    ) -> Result<Option<Vec<Call>>, AllocError> {
        self.take_line(line, value)?;
        Ok(Some(self.take_calls()))
    }

    fn problem(_value: Option<&Value<'_>>) -> Problem
        ensures { result ≡ logs_problem (option_map (λ v. value_view v.now) _value.entry) }
    {
        Problem::Object
    }

    fn end(&mut self, alloc: Global) -> Result<Vec<Call>, AllocError> {
        close_of(alloc, self.moment, self.at)
    }
}

// Returns the close of the last line's group.
fn close_of(alloc: Global, moment: Moment, at: Option<Id>) -> Result<Vec<Call>, AllocError>
    ensures { IfOk result (λ calls. calls.items ≡ close_of moment at) }
{
    let mut calls = Vec::new(alloc);
    if let Some(span) = at {
        calls.push(close_call(moment, span, None))?;
    }
    Ok(calls)
}
