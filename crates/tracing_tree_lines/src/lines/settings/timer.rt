//! The timer of a settings line.

ghost use Rattle.std.specs.Prelude.{◌≡◌, map, option_map, bytes_eq, codes};
ghost use Rattle.std.specs.Option.{option_flatten};
ghost use Rattle.std.specs.List.{list_any, list_all};
ghost use Rattle.serde_json.specs.View.{view, members_view};
ghost use Rattle.tracing_tree_time.specs.Clock.{clock_timer};
ghost use Rattle.tracing_tree_lines.specs.Lines.Values.{asked_timer};
ghost use Rattle.tracing_tree_lines.specs.Lines.Spelled.{chosen, has_only_keys, offset_value, present_keys, timer_value, timers_in};

use crate::lines::value::{flag, unless_null, value_at, whole_or};
use jiff::tz::Offset;
use serde_json::{Map, Value};
use tracing_tree_time::{Clock, LocalDateTime, Uptime, UtcDateTime};

// The timer of a settings line. A line can't name a zone, so it borrows nothing.
#[derive(Clone, Copy)]
pub(super) enum Timer {
    None,
    Utc(UtcDateTime),
    Local {
        offset: Offset,
        higher_precision: bool,
    },
    Uptime(Uptime),
}

impl Timer {
    // Returns the clock.
    pub(super) fn clock(self) -> Clock<'static>
        ensures { clock_timer result ≡ asked_timer self }
    {
        match self {
            Timer::None => Clock::None,
            Timer::Utc(clock) => Clock::Utc(clock),
            Timer::Local {
                offset,
                higher_precision,
            } => Clock::Local(LocalDateTime::with_offset(offset, higher_precision)),
            Timer::Uptime(clock) => Clock::Uptime(clock),
        }
    }
}

// Reads the timer of an object. `None` if it is invalid.
pub(super) fn timer_value(value: &Value) -> Option<Timer>
    ensures { option_map asked_timer result ≡ timer_value (view value.now) }
{
    match value_at(value, "kind")?.as_str()? {
        "none" => none_value(value),
        "utc" => utc_value(value),
        "local" => local_value(value),
        "uptime" => uptime_value(value),
        _ => None,
    }
}

fn none_value(value: &Value) -> Option<Timer>
    ensures { option_map asked_timer result
        ≡ option_flatten (chosen (timers_in (view value.now)) (codes "none")) }
{
    if !has_only_keys(value, &["kind"]) {
        return None;
    }
    Some(Timer::None)
}

fn utc_value(value: &Value) -> Option<Timer>
    ensures { option_map asked_timer result
        ≡ option_flatten (chosen (timers_in (view value.now)) (codes "utc")) }
{
    if !has_only_keys(value, &["kind", "higher_precision"]) {
        return None;
    }
    let higher_precision = flag(value, "higher_precision")?;
    Some(Timer::Utc(UtcDateTime { higher_precision }))
}

fn local_value(value: &Value) -> Option<Timer>
    ensures { option_map asked_timer result
        ≡ option_flatten (chosen (timers_in (view value.now)) (codes "local")) }
{
    if !has_only_keys(value, &["kind", "higher_precision", "offset"]) {
        return None;
    }
    let offset = offset_value(value_at(value, "offset")?)?;
    let higher_precision = flag(value, "higher_precision")?;
    Some(Timer::Local {
        offset,
        higher_precision,
    })
}

fn uptime_value(value: &Value) -> Option<Timer>
    ensures { option_map asked_timer result
        ≡ option_flatten (chosen (timers_in (view value.now)) (codes "uptime")) }
{
    if !has_only_keys(value, &["kind", "higher_precision", "epoch"]) {
        return None;
    }
    let mut clock = Uptime::from(whole_or(0, value, "epoch")?);
    clock.higher_precision = flag(value, "higher_precision")?;
    Some(Timer::Uptime(clock))
}

// Reads an offset in whole seconds. `None` if the value isn't a whole number or is out of range.
fn offset_value(value: &Value) -> Option<Offset>
    ensures { option_map (λ offset. offset.seconds) result ≡ offset_value (view value.now) }
{
    let seconds = i32::try_from(value.as_i64()?).ok()?;
    Offset::from_seconds(seconds).ok()
}

// Returns whether the value is an object with only these keys. Members that are null don't count.
fn has_only_keys(value: &Value, keys: &[&str]) -> bool
    ensures { result ≡ has_only_keys (map (λ key. key.now) keys.now) (view value.now) }
{
    match value.as_object() {
        Some(members) => are_among(members, keys),
        None => false,
    }
}

// Returns whether all members that aren't null have one of these keys.
fn are_among(members: &Map<String, Value>, keys: &[&str]) -> bool
    ensures { result ≡ list_all (λ key. list_any (bytes_eq key) (map (λ key. key.now) keys.now))
        (present_keys (members_view members.now.entries)) }
{
    for (key, member) in members.iter() {
        if unless_null(member).is_some() && !is_among(key.as_str(), keys) {
            return false;
        }
    }
    true
}

// Returns whether the string is one of these.
fn is_among(text: &str, keys: &[&str]) -> bool
    ensures { result ≡ list_any (bytes_eq text.now) (map (λ key. key.now) keys.now) }
{
    for key in keys {
        if text == *key {
            return true;
        }
    }
    false
}
