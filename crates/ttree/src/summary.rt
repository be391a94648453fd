//! What happened in a drawing: counts, the slowest spans and the first errors.

use crate::output::{Flush, flush_output, output};
use crate::report::{Origin, Status, report_flush};
use json::Value;
use std::alloc::{AllocError, Global};
use std::collections::BTreeMap;
use std::io::Write;
use std::marker::Model;
use std::{fmt, io};
use tracing_tree::call::Call;
use tracing_tree::field::Field;
use tracing_tree::format::Wrap;
use tracing_tree::registry::Event;
use tracing_tree::style::Level;
use tracing_tree::text::Text;
use tracing_tree::time::Moment;
use tracing_tree_base::{Context, Id};
use ttree_adapters::{Mapping, RowClock};
use ttree_source::length::length_text;
use ttree_source::traces::begins_trace;
use ttree_terminal::Shaping;

// How many of the slowest spans are listed.
const SLOWEST: usize = 10;

// How many spans with errors are listed.
const LISTED: usize = 100;

// The columns of a length of time, with the indent before it.
const COLUMNS: usize = 12;

// The message at the end of a failed test.
const FAIL: &str = "fail";

// What is between the names of a path.
const BETWEEN: &str = " > ";

// The names of the sums that clang adds at the end of a trace begin with this.
const SUMS: &str = "Total ";

// How well a line says why a test failed.
#[derive(Clone, Copy, Debug, PartialEq, Eq, PartialOrd, Ord)]
enum Hint {
    // Any line.
    Line,
    // An error's message, or a line of a test's own report.
    Report,
    // The start of a panic or of a stack trace.
    Panic,
}

// A line that says why a test failed.
#[derive(Drop)]
struct Reason {
    hint: Hint,
    text: Text,
}

// A live span.
#[derive(Drop)]
struct Live {
    name: Text,
    parent: Option<u64>,
    // The first known time in it, in nanoseconds.
    start: Option<u64>,
    // How long its children took together, in nanoseconds.
    children: u64,
    // The first of the lines in it that say best why it may fail.
    said: Option<Reason>,
    // Whether the message of an error begins with the next line.
    is_block: bool,
    // The message of its first error.
    reason: Option<Text>,
    // Whether a span in it, or a test without a span, has an error.
    has_inner: bool,
}

// A span that has closed.
#[derive(Drop)]
struct Slow {
    // Its time less that of its children, in nanoseconds.
    own: u64,
    // How that is shown.
    shown: Text,
    path: String,
}

// Counts calls and looks for the slowest spans and for those with errors. It changes no call.
#[derive(Drop)]
pub struct Summary {
    alloc: Global,
    clock: RowClock,
    // The id of the next span.
    next: u64,
    live: BTreeMap<u64, Live>,
    spans: u64,
    events: u64,
    errors: u64,
    warnings: u64,
    // The first and the last known time, in nanoseconds.
    span: Option<(u64, u64)>,
    // How long all took, once all calls were taken.
    time: Option<Text>,
    // The slowest spans by their own time, the slowest first.
    slowest: Vec<Slow>,
    // The paths of spans with errors, and the first of them.
    failed: Vec<(String, Text)>,
    // How many spans with errors aren't listed.
    unlisted: u64,
}

impl Model for Summary {
    ghost use Rattle.std.specs.Prelude.{⊤};

    ghost Value = { ⊤ };

    ghost view = { λ _. tt };
}

impl Mapping for Summary {
    ghost use Rattle.ttree_adapters.specs.Mapping.{unchanged};

    ghost makes = { unchanged };

    fn reads_values(&self) -> bool {
        false
    }

    fn map(
        &mut self,
        _alloc: Global,
        _value: Option<&Value<'_>>,
        calls: Vec<Call>,
    ) -> Result<Vec<Call>, AllocError> {
        for call in calls.as_slice() {
            self.take(call)?;
        }
        Ok(calls)
    }
}

impl Summary {
    pub fn new(alloc: Global, clock: RowClock) -> Summary {
        Summary {
            alloc,
            clock,
            next: 1,
            live: BTreeMap::new(alloc),
            spans: 0,
            events: 0,
            errors: 0,
            warnings: 0,
            span: None,
            time: None,
            slowest: Vec::new(alloc),
            failed: Vec::new(alloc),
            unlisted: 0,
        }
    }

    fn take(&mut self, call: &Call) -> Result<(), AllocError> {
        match call {
            Call::New(attributes, context) => self.open(&attributes.name, context),
            Call::Event(event, context) => {
                self.pass(context);
                self.happen(event, context.current)
            }
            Call::Close(id, context) => {
                self.pass(context);
                self.close(id.0, self.time_of(&context.moment))
            }
            Call::Clone(_) | Call::Record(_, _) => Ok(()),
        }
    }

    // Returns the time of a moment in nanoseconds, if it is known.
    fn time_of(&self, moment: &Moment) -> Option<u64> {
        match self.clock {
            RowClock::Utc if moment.wall.as_nanosecond() == 0 => None,
            _ => Some(moment.mono),
        }
    }

    // Takes the time of a call.
    fn pass(&mut self, context: &Context) {
        let Some(time) = self.time_of(&context.moment) else {
            return;
        };
        let (first, last) = self.span.unwrap_or((time, time));
        self.span = Some((first.min(time), last.max(time)));
        if let Some(Id(span)) = context.current {
            if let Some(live) = self.live.get_mut(&span) {
                live.start = Some(live.start.unwrap_or(time));
            }
        }
    }

    fn open(&mut self, name: &Text, context: &Context) -> Result<(), AllocError> {
        self.pass(context);
        let live = Live {
            name: name.clone()?,
            parent: context.current.map(|id: Id| -> u64 { id.0 }),
            start: self.time_of(&context.moment),
            children: 0,
            said: None,
            is_block: false,
            reason: None,
            has_inner: false,
        };
        self.live.insert(self.next, live)?;
        self.next = self.next.saturating_add(1);
        self.spans = self.spans.saturating_add(1);
        Ok(())
    }

    // Takes an event. An event without a message, such as the counts of tests, isn't an error.
    fn happen(&mut self, event: &Event, span: Option<Id>) -> Result<(), AllocError> {
        self.events = self.events.saturating_add(1);
        let Some(message) = message_of(event.fields.as_slice()) else {
            return Ok(());
        };
        match event.level {
            Level::Error => self.fail(message, span)?,
            Level::Warn => self.warnings = self.warnings.saturating_add(1),
            Level::Info | Level::Debug | Level::Trace => {}
        }
        self.say(message, span)
    }

    // Takes the message of an event in a span.
    fn say(&mut self, message: &Text, span: Option<Id>) -> Result<(), AllocError> {
        let line = message.as_str().trim_start();
        let Some(live) = span.and_then(|id: Id| -> Option<&mut Live> { self.live.get_mut(&id.0) })
        else {
            return Ok(());
        };
        let hint = if live.is_block {
            Hint::Report
        } else {
            hint_of(line)
        };
        live.is_block = begins_block(line);
        let is_better = match &live.said {
            Some(said) => hint > said.hint,
            None => true,
        };
        if is_better {
            live.said = Some(Reason {
                hint,
                text: message.clone()?,
            });
        }
        Ok(())
    }

    // Takes an error. The reason why a test failed is among the events before, if there are any. A
    // test without a span has the name in the message.
    fn fail(&mut self, message: &Text, span: Option<Id>) -> Result<(), AllocError> {
        self.errors = self.errors.saturating_add(1);
        let Some(Id(span)) = span else {
            return self.list_at_root(message);
        };
        if let Some(name) = quiet_test(message.as_str()) {
            return self.list_quiet(name, span);
        }
        if let Some(live) = self.live.get_mut(&span) {
            if live.reason.is_none() {
                let reason = match &live.said {
                    Some(said) if message.as_str() == FAIL => &said.text,
                    _ => message,
                };
                live.reason = Some(reason.clone()?);
            }
        }
        Ok(())
    }

    fn close(&mut self, id: u64, time: Option<u64>) -> Result<(), AllocError> {
        let Some(live) = self.live.remove(&id) else {
            return Ok(());
        };
        let taken = match (live.start, time) {
            (Some(start), Some(time)) => Some(time.saturating_sub(start)),
            _ => None,
        };
        self.leave(&live, taken)
    }

    // Takes a span that was removed, which took this many nanoseconds, if that is known.
    fn leave(&mut self, live: &Live, taken: Option<u64>) -> Result<(), AllocError> {
        let has_error = live.reason.is_some();
        if let Some(outer) = live
            .parent
            .and_then(|id: u64| -> Option<&mut Live> { self.live.get_mut(&id) })
        {
            outer.children = outer.children.saturating_add(taken.unwrap_or(0));
            outer.has_inner = outer.has_inner || live.has_inner || has_error;
        }
        if has_error && !live.has_inner {
            self.list(live)?;
        }
        let own = taken.unwrap_or(0).saturating_sub(live.children);
        if own > 0 && !live.name.as_str().starts_with(SUMS) {
            self.rank(own, live)?;
        }
        Ok(())
    }

    // Takes the end of all calls. A span that is still live may have an error, too.
    fn finish(&mut self) -> Result<(), AllocError> {
        for _ in 0..self.live.len() {
            let Some((_, live)) = self.live.pop_last() else {
                break;
            };
            self.leave(&live, None)?;
        }
        if let Some((first, last)) = self.span {
            self.time = Some(length_text(self.alloc, last.saturating_sub(first))?);
        }
        Ok(())
    }
}

impl Summary {
    // Returns the path of a span: the names of the spans that it is in, and its own.
    fn path(&self, live: &Live) -> Result<String, AllocError> {
        let mut names = Vec::new(self.alloc);
        names.push(live.name.as_str())?;
        let mut parent = live.parent;
        for _ in 0..self.live.len() {
            let Some(outer) = parent.and_then(|id: u64| -> Option<&Live> { self.live.get(&id) })
            else {
                break;
            };
            names.push(outer.name.as_str())?;
            parent = outer.parent;
        }
        let mut path = String::new(self.alloc);
        for name in names.iter().rev() {
            if !path.is_empty() {
                path.push_str(BETWEEN)?;
            }
            path.push_str(first_line(name))?;
        }
        Ok(path)
    }

    // Lists a span with its first error.
    fn list(&mut self, live: &Live) -> Result<(), AllocError> {
        match &live.reason {
            Some(reason) if self.failed.len() < LISTED => {
                let path = self.path(live)?;
                Ok(self.failed.push((path, reason.clone()?))?)
            }
            _ => {
                self.unlisted = self.unlisted.saturating_add(1);
                Ok(())
            }
        }
    }

    // Lists a failed test without a span, which is in the span with this id.
    fn list_quiet(&mut self, name: &str, id: u64) -> Result<(), AllocError> {
        let Some(live) = self.live.remove(&id) else {
            return Ok(());
        };
        let mut live = live;
        live.has_inner = true;
        self.list_in(&live, name)?;
        self.live.insert(id, live)?;
        Ok(())
    }

    // Lists a failed test of this name, which is in this span.
    fn list_in(&mut self, live: &Live, name: &str) -> Result<(), AllocError> {
        if self.failed.len() >= LISTED {
            self.unlisted = self.unlisted.saturating_add(1);
            return Ok(());
        }
        let mut path = self.path(live)?;
        path.push_str(BETWEEN)?;
        path.push_str(name)?;
        let reason = Text::from_str(self.alloc, FAIL)?;
        Ok(self.failed.push((path, reason))?)
    }

    // Lists an error that is in no span.
    fn list_at_root(&mut self, message: &Text) -> Result<(), AllocError> {
        if self.failed.len() < LISTED {
            return Ok(
                self.failed
                    .push((String::new(self.alloc), message.clone()?))?,
            );
        }
        self.unlisted = self.unlisted.saturating_add(1);
        Ok(())
    }

    // Lists a span with its own time, if it is among the slowest.
    fn rank(&mut self, own: u64, live: &Live) -> Result<(), AllocError> {
        let place = self
            .slowest
            .iter()
            .position(|slow: &Slow| -> bool { slow.own < own })
            .unwrap_or(self.slowest.len());
        if place < SLOWEST {
            let shown = length_text(self.alloc, own)?;
            let path = self.path(live)?;
            self.slowest.insert(place, Slow { own, shown, path })?;
            self.slowest.truncate(SLOWEST);
        }
        Ok(())
    }
}

impl fmt::Display for Summary {
    fn fmt<W: fmt::Write>(&self, f: &mut fmt::Formatter<W>) -> fmt::Result {
        write!(
            f,
            "\nspans {}, events {}, errors {}, warnings {}",
            self.spans, self.events, self.errors, self.warnings
        )?;
        if let Some(time) = &self.time {
            let time = time.as_str();
            write!(f, ", time {time}")?;
        }
        f.write_str("\n")?;
        self.fmt_slowest(f)?;
        self.fmt_failed(f)
    }
}

impl Summary {
    fn fmt_slowest<W: fmt::Write>(&self, f: &mut fmt::Formatter<W>) -> fmt::Result {
        if !self.slowest.is_empty() {
            f.write_str("slowest spans by own time:\n")?;
        }
        for slow in self.slowest.iter() {
            let shown = slow.shown.as_str();
            for _ in shown.chars().count()..COLUMNS {
                f.write_str(" ")?;
            }
            let path = slow.path.as_str();
            write!(f, "{shown} {path}\n")?;
        }
        Ok(())
    }

    fn fmt_failed<W: fmt::Write>(&self, f: &mut fmt::Formatter<W>) -> fmt::Result {
        if !self.failed.is_empty() {
            f.write_str("first errors:\n")?;
        }
        for (path, reason) in self.failed.iter() {
            let mark = if path.is_empty() { "" } else { ": " };
            let path = path.as_str();
            let reason = first_line(reason.as_str());
            write!(f, "  {path}{mark}{reason}\n")?;
        }
        match self.unlisted {
            0 => Ok(()),
            count => write!(f, "  and {count} more\n"),
        }
    }
}

// Prints a summary after a drawing that ended with this status. Returns whether that failed.
pub fn print_summary<R: AllocGlobal + Eprint + Print>(
    rt: &R,
    origin: Origin<'_>,
    status: Status,
    summary: Option<Summary>,
) -> Result<Status, AllocError> {
    let Some(mut summary) = summary else {
        return Ok(Status::Success);
    };
    if status == Status::Closed {
        return Ok(Status::Success);
    }
    summary.finish()?;
    let flush = write_summary(rt, &summary)?;
    Ok(report_flush(rt, origin, flush))
}

// Writes a summary. It has no colours, and its lines aren't cut.
fn write_summary<R: AllocGlobal + Print>(rt: &R, summary: &Summary) -> Result<Flush, AllocError> {
    let shaping = Shaping {
        width: None,
        is_escaped: true,
    };
    let mut writer = output(rt.alloc(), io::writer(rt), shaping)?;
    let is_written = write!(writer, "{summary}").is_ok();
    match flush_output(Wrap::new(writer)) {
        Flush::Done if !is_written => Ok(Flush::Failed),
        flush => Ok(flush),
    }
}

// Returns the message of an event, if it has one.
fn message_of(fields: &[Field]) -> Option<&Text> {
    let field = fields
        .iter()
        .find(|field| field.name.as_str() == "message")?;
    Some(&field.value)
}

// Returns the name in the message of a failed test that printed nothing.
fn quiet_test(message: &str) -> Option<&str> {
    let name = message.strip_prefix("fail ")?;
    if name.contains(' ') { None } else { Some(name) }
}

fn hint_of(line: &str) -> Hint {
    if begins_trace(line) {
        Hint::Panic
    } else if is_message(line) || is_report(line) {
        Hint::Report
    } else {
        Hint::Line
    }
}

// Returns what comes after the key of an error's message, in a YAML block or an assertion.
fn after_key(line: &str) -> Option<&str> {
    match line.split_once(':') {
        Some(("error" | "Error" | "message", rest)) => Some(rest.trim()),
        _ => None,
    }
}

// Returns whether the message of an error begins with the next line.
fn begins_block(line: &str) -> bool {
    match after_key(line) {
        Some(rest) => rest.is_empty() || rest.starts_with('|') || rest.starts_with('>'),
        None => false,
    }
}

fn is_message(line: &str) -> bool {
    after_key(line).is_some() && !begins_block(line)
}

// Returns whether a line is one of Go's testing, with its file and number.
fn is_report(line: &str) -> bool {
    let Some((file, rest)) = line.split_once(':') else {
        return false;
    };
    let Some((number, text)) = rest.split_once(": ") else {
        return false;
    };
    file.ends_with(".go")
        && !file.contains(' ')
        && number.as_bytes().iter().all(|byte| byte.is_ascii_digit())
        && !text.trim().is_empty()
}

fn first_line(text: &str) -> &str {
    match text.split_once('\n') {
        Some((line, _)) => line.trim(),
        None => text.trim(),
    }
}
