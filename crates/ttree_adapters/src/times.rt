//! Times as columns of a fixed width.

ghost use Rattle.std.specs.Prelude.{◌≡◌, ◌++◌, [], IfOk, OnOk, option_map, string_bytes};
ghost use Rattle.ttree_adapters.specs.Column.{pair};
ghost use Rattle.ttree_adapters.specs.Times.{all_timed, call_timed, civil_time_text, clock_text, closing_in_column, date_column, date_of, date_text, digit_count, elapsed_column, fraction, happened, in_column, in_span_column, is_known, minutes_text, moment_column, no_times, opening_in_column, seconds_text, shown_at, since, started, uptime_column, utc_column, with_date};

use crate::column::{columns_left, push_pair, push_spaces, push_three};
use crate::mapping::Mapping;
use jiff::civil::{Date, Time};
use jiff::tz::Offset;
use json::Value;
use std::alloc::{AllocError, Global};
use std::collections::BTreeMap;
use std::marker::Model;
use tracing_tree_base::text::Text;
use tracing_tree_base::{Context, Id};
use tracing_tree_layer::call::Call;
use tracing_tree_time::Moment;
use ttree_source::length::length_text;

/// How many digits of a second are shown.
#[derive(Clone, Copy, Debug, PartialEq, Eq)]
pub enum Precision {
    /// Three digits.
    Milliseconds,

    /// Six digits.
    Microseconds,

    /// Nine digits.
    Nanoseconds,
}

/// The clock of the calls' times.
#[derive(Clone, Copy, Debug, PartialEq, Eq)]
pub enum RowClock {
    /// Date and time at offset zero. A call at the start of 1970 has no known time.
    Utc,

    /// Seconds on a trace's own clock.
    Trace,
}

/// How times are shown.
#[derive(Clone, Copy, Debug, PartialEq, Eq)]
pub struct TimeStyle {
    /// How many digits of a second.
    pub precision: Precision,

    /// The clock of the calls' times.
    pub clock: RowClock,

    /// Whether the names of threads are shown too.
    pub has_threads: bool,

    /// Whether a span is drawn only once an event happens in it. Then the date of an event counts
    /// as shown, and that of an open or a close doesn't.
    pub is_deferred: bool,
}

/// Begins each row with its time: when its call happened, and how long after the first known time
/// of its span.
///
/// The columns have a fixed width, so the tree stays aligned. The date is shown in the first row
/// that has one, and when it changes. A row without a known time has empty columns. The columns
/// come before the name of the call's thread, so they are drawn if names of threads are.
#[derive(Drop)]
pub struct TimeColumns {
    alloc: Global,
    style: TimeStyle,
    // The date that was shown last, or an empty string.
    date: Text,
    // The id of the next span.
    next: u64,
    // The first known times of open spans, in nanoseconds.
    starts: BTreeMap<u64, u64>,
}

impl Model for TimeColumns {
    ghost use Rattle.ttree_adapters.specs.Times.{TimesState};

    ghost Value = { TimesState };

    ghost view = { λ t. record {
      style = t.style;
      date = t.date;
      next = t.next;
      starts = t.starts.entries;
    } };
}

impl Mapping for TimeColumns {
    ghost use Rattle.ttree_adapters.specs.Times.{makes_timed};

    ghost makes = { makes_timed };

    fn reads_values(&self) -> bool {
        false
    }

    fn map(
        &mut self,
        _alloc: Global,
        _value: Option<&Value<'_>>,
        calls: Vec<Call>,
    ) -> Result<Vec<Call>, AllocError> {
        self.all_timed(calls)
    }
}

impl TimeColumns {
    /// Returns columns for calls whose first span gets the id `next`.
    pub fn new(alloc: Global, style: TimeStyle, next: u64) -> TimeColumns
        ensures { result ≡ no_times style next }
    {
        TimeColumns {
            alloc,
            style,
            date: Text::from(String::new(alloc)),
            next,
            starts: BTreeMap::new(alloc),
        }
    }

    fn all_timed(&mut self, calls: Vec<Call>) -> Result<Vec<Call>, AllocError>
        ensures { IfOk result (λ made. all_timed calls.items self.old
            ≡ record { calls = made.items; mapping = self.new }) }
    {
        let mut made = Vec::new(self.alloc);
        for call in calls {
            made.push(self.timed(call)?)?;
        }
        Ok(made)
    }

    // Returns a call with columns for its time.
    fn timed(&mut self, call: Call) -> Result<Call, AllocError>
        ensures { IfOk result (λ made. call_timed call self.old ≡ record {
          call = made;
          state = self.new;
        }) }
    {
        match call {
            Call::New(attributes, context) => Ok(Call::New(attributes, self.opened(context)?)),
            Call::Event(event, context) => Ok(Call::Event(event, self.happened(context)?)),
            Call::Close(id, context) => Ok(Call::Close(id, self.closed(id, context)?)),
            other => Ok(other),
        }
    }

    fn opened(&mut self, context: Context) -> Result<Context, AllocError>
        ensures { IfOk result (λ made. opening_in_column context self.old ≡ record {
          context = made;
          state =
              self.new;
        }) }
    {
        let moment = context.moment;
        self.start(self.next, &moment)?;
        self.next = self.next.saturating_add(1);
        self.in_span_column(None, context)
    }

    fn happened(&mut self, context: Context) -> Result<Context, AllocError>
        ensures { IfOk result (λ made. happened context self.old ≡ record {
          context = made;
          state =
              self.new;
        }) }
    {
        let moment = context.moment;
        let elapsed = match context.current {
            Some(Id(span)) => self.since(span, &moment)?,
            None => None,
        };
        self.in_column(elapsed, context)
    }

    fn closed(&mut self, id: Id, context: Context) -> Result<Context, AllocError>
        ensures { IfOk result (λ made. closing_in_column id context self.old ≡ record {
          context = made;
          state
              = self.new;
        }) }
    {
        let moment = context.moment;
        let elapsed = self.since(id.0, &moment)?;
        self.starts.remove(&id.0);
        self.in_span_column(elapsed, context)
    }

    // Returns the nanoseconds since the first known time of a span.
    fn since(&mut self, span: u64, moment: &Moment) -> Result<Option<u64>, AllocError>
        ensures elapsed { IfOk result (λ elapsed. elapsed ≡ since span moment.now self.old) }
        ensures started { OnOk result (self.new ≡ started span moment.now self.old) }
    {
        self.start(span, moment)?;
        if !self.is_known(moment) {
            return Ok(None);
        }
        let start = self.starts.get(&span).copied();
        Ok(start.map(|start: u64| -> u64 { moment.mono.saturating_sub(start) }))
    }

    // Records a known moment as the first of a span, unless it has one.
    fn start(&mut self, span: u64, moment: &Moment) -> Result<(), AllocError>
        ensures { OnOk result (self.new ≡ started span moment.now self.old) }
    {
        if self.is_known(moment) && !self.starts.contains_key(&span) {
            self.starts.insert(span, moment.mono)?;
        }
        Ok(())
    }

    // Returns whether a moment is known.
    fn is_known(&self, moment: &Moment) -> bool
        ensures { result ≡ is_known self.now.style.clock moment.now }
    {
        match self.style.clock {
            RowClock::Utc => moment.wall.as_nanosecond() != 0,
            RowClock::Trace => true,
        }
    }

    // Like `in_column`, for an open or a close.
    fn in_span_column(
        &mut self,
        elapsed: Option<u64>,
        context: Context,
    ) -> Result<Context, AllocError>
        ensures { IfOk result (λ made. in_span_column elapsed context self.old
            ≡ record { context = made; state = self.new }) }
    {
        let date = self.date.clone()?;
        let context = self.in_column(elapsed, context)?;
        if self.style.is_deferred {
            self.date = date;
        }
        Ok(context)
    }

    // Puts columns before the name of the thread.
    fn in_column(&mut self, elapsed: Option<u64>, context: Context) -> Result<Context, AllocError>
        ensures { IfOk result (λ made. in_column elapsed context self.old
            ≡ record { context = made; state = self.new }) }
    {
        let mut column = String::new(self.alloc);
        self.push_moment(&mut column, &context.moment)?;
        push_elapsed(self.alloc, &mut column, elapsed)?;
        match &context.thread_name {
            Some(name) if self.style.has_threads => column.push_str(name.as_str())?,
            _ => {}
        }
        Ok(Context {
            thread_name: Some(Text::from(column)),
            ..context
        })
    }

    fn push_moment(&mut self, out: &mut String, moment: &Moment) -> Result<(), AllocError>
        ensures text { OnOk result (string_bytes out.new
            ≡ string_bytes out.old ++ moment_column moment.now self.old) }
        ensures date { OnOk result (self.new ≡ with_date moment.now self.old) }
    {
        match self.style.clock {
            RowClock::Trace => push_uptime(self.alloc, out, self.style.precision, moment.mono),
            RowClock::Utc if self.is_known(moment) => self.push_utc(out, moment),
            RowClock::Utc => push_spaces(out, 20 + digit_count(self.style.precision)),
        }
    }

    fn push_utc(&mut self, out: &mut String, moment: &Moment) -> Result<(), AllocError>
        ensures text { OnOk result (string_bytes out.new
            ≡ string_bytes out.old ++ utc_column moment.now self.old) }
        ensures date { OnOk result (self.new ≡ record self.old {
          date = date_of (shown_at moment.now);
        }) }
    {
        let date = date_at(self.alloc, moment)?;
        push_date(out, &date, &self.date)?;
        self.date = date;
        push_time(out, self.style.precision, moment)
    }
}

// Returns the date of a moment.
fn date_at(alloc: Global, moment: &Moment) -> Result<Text, AllocError>
    ensures { IfOk result (λ date. date ≡ date_of (shown_at moment.now)) }
{
    let shown = Offset::UTC.to_datetime(moment.wall);
    date_text(alloc, shown.date())
}

// Appends the time of day of a moment.
fn push_time(out: &mut String, precision: Precision, moment: &Moment) -> Result<(), AllocError>
    ensures { OnOk result (string_bytes out.new
        ≡ string_bytes out.old ++ civil_time_text precision (shown_at moment.now)) }
{
    let shown = Offset::UTC.to_datetime(moment.wall);
    push_clock(out, precision, shown.time())
}

// Returns how many digits of a second are shown.
fn digit_count(precision: Precision) -> usize
    ensures { result ≡ digit_count precision }
{
    match precision {
        Precision::Milliseconds => 3,
        Precision::Microseconds => 6,
        Precision::Nanoseconds => 9,
    }
}

// Appends a date, or spaces if it was the last one.
fn push_date(out: &mut String, date: &Text, last: &Text) -> Result<(), AllocError>
    ensures { OnOk result (string_bytes out.new ≡ string_bytes out.old ++ date_column date.now
        last.now) }
{
    if date == last {
        return push_spaces(out, 11);
    }
    out.push_str(date.as_str())?;
    out.push_str(" ")
}

// Returns a date, as 2000-02-29.
fn date_text(alloc: Global, date: Date) -> Result<Text, AllocError>
    ensures { IfOk result (λ text. text ≡ date_text date.year date.month date.day) }
{
    let mut text = String::new(alloc);
    let year = u64::from(date.year().unsigned_abs());
    push_pair(&mut text, year / 100)?;
    push_pair(&mut text, year % 100)?;
    text.push_str("-")?;
    push_pair(&mut text, date.month().unsigned_abs() as u64)?;
    text.push_str("-")?;
    push_pair(&mut text, date.day().unsigned_abs() as u64)?;
    Ok(Text::from(text))
}

// Appends a time of day, as 12:34:56.050.
fn push_clock(out: &mut String, precision: Precision, time: Time) -> Result<(), AllocError>
    ensures { OnOk result (string_bytes out.new ≡ string_bytes out.old
        ++ clock_text precision time.hour time.minute time.second time.subsec_nanosecond) }
{
    let hour = time.hour().unsigned_abs() as u64;
    let minute = time.minute().unsigned_abs() as u64;
    push_minutes(out, hour, minute)?;
    let second = time.second().unsigned_abs() as u64;
    let nanosecond = time.subsec_nanosecond().unsigned_abs() as u64;
    push_seconds(out, precision, second, nanosecond)
}

// Appends an hour and a minute, as 12:34:.
fn push_minutes(out: &mut String, hour: u64, minute: u64) -> Result<(), AllocError>
    ensures { OnOk result (string_bytes out.new ≡ string_bytes out.old ++ minutes_text hour minute) }
{
    push_pair(out, hour)?;
    out.push_str(":")?;
    push_pair(out, minute)?;
    out.push_str(":")
}

// Appends a second with a part of it, as 56.050.
fn push_seconds(
    out: &mut String,
    precision: Precision,
    second: u64,
    nanosecond: u64,
) -> Result<(), AllocError>
    ensures { OnOk result (string_bytes out.new
        ≡ string_bytes out.old ++ seconds_text precision second nanosecond) }
{
    push_pair(out, second)?;
    out.push_str(".")?;
    push_fraction(out, precision, nanosecond)
}

// Appends the digits of a part of a second.
fn push_fraction(out: &mut String, precision: Precision, nanosecond: u64) -> Result<(), AllocError>
    ensures { OnOk result (string_bytes out.new ≡ string_bytes out.old ++ fraction precision
        nanosecond) }
{
    push_three(out, nanosecond / 1_000_000)?;
    match precision {
        Precision::Milliseconds => Ok(()),
        Precision::Microseconds => push_three(out, nanosecond / 1000 % 1000),
        Precision::Nanoseconds => {
            push_three(out, nanosecond / 1000 % 1000)?;
            push_three(out, nanosecond % 1000)
        }
    }
}

// Appends a time on a trace's clock in seconds, right-aligned.
fn push_uptime(
    alloc: Global,
    out: &mut String,
    precision: Precision,
    nanoseconds: u64,
) -> Result<(), AllocError>
    ensures { OnOk result (string_bytes out.new ≡ string_bytes out.old ++ uptime_column precision
        nanoseconds) }
{
    let mut seconds = String::new(alloc);
    let whole = nanoseconds / 1_000_000_000;
    write!(seconds, "{whole}")?;
    push_spaces(out, 6usize.saturating_sub(seconds.len()))?;
    out.push_str(seconds.as_str())?;
    out.push_str(".")?;
    push_fraction(out, precision, nanoseconds % 1_000_000_000)
}

// Appends the column of an elapsed time in nanoseconds, which is empty without one.
fn push_elapsed(alloc: Global, out: &mut String, elapsed: Option<u64>) -> Result<(), AllocError>
    ensures { OnOk result (string_bytes out.new ≡ string_bytes out.old ++ elapsed_column elapsed) }
{
    let Some(elapsed) = elapsed else {
        return push_spaces(out, 12);
    };
    let text = length_text(alloc, elapsed)?;
    out.push_str(" ")?;
    push_spaces(out, columns_left(10, text.as_str()))?;
    out.push_str(text.as_str())?;
    out.push_str(" ")
}
