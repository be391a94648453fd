//! What an object of a service's log says.

ghost use Rattle.std.specs.Prelude.{◌≡◌, ◌++◌, IfOk, OnOk, map, option_map};
ghost use Rattle.json.specs.Value.{value_view};
ghost use Rattle.ttree_logs.specs.LogLine.{first_key, first_word, group_at, group_in, group_key, group_name, group_of, inner_of, is_of_journal, is_time_at, keys_of_groups, level_at, level_key, line_level, log_event_fields, log_word, moment_in, process_key, time_key, unit_in, used_keys, word_along, word_at, word_within};

use super::fields::push_members;
use super::level::level_named;
use super::time::{is_time, moment_of_word};
use super::used::{UsedKeys, is_among};
use json::Value;
use std::alloc::{AllocError, Global};
use std::marker::Model;
use tracing_tree_base::field::Fields;
use tracing_tree_base::style::Level;
use tracing_tree_time::Moment;
use ttree_source::calls::message_field;

const LEVEL_KEYS: [&str; 5] = ["level", "severity", "lvl", "log.level", "PRIORITY"];

const TIME_KEYS: [&str; 5] = [
    "time",
    "ts",
    "timestamp",
    "@timestamp",
    "__REALTIME_TIMESTAMP",
];

const MESSAGE_KEYS: [&str; 4] = ["msg", "message", "event", "MESSAGE"];

const TRACE_KEYS: [&str; 3] = ["trace_id", "traceId", "trace.id"];

// A trace counts before a request.
const GROUP_KEYS: [&str; 8] = [
    "trace_id",
    "traceId",
    "trace.id",
    "request_id",
    "requestId",
    "req_id",
    "reqId",
    "correlation_id",
];

// Returns a string that isn't empty, or a number as written.
fn word_of<'v>(value: &'v Value<'_>) -> Option<&'v str>
    ensures { option_map (λ w. w.now) result ≡ log_word (value_view value.now) }
{
    match value {
        Value::Number(text) => Some(text),
        Value::String(text) if !text.is_empty() => Some(text),
        _ => None,
    }
}

// Returns the word at a key.
fn word_at<'v>(value: &'v Value<'_>, key: &str) -> Option<&'v str>
    ensures { option_map (λ w. w.now) result ≡ word_at key.now (value_view value.now) }
{
    word_of(value.get(key)?)
}

// Returns the first of these keys that has a word.
fn first_key(keys: &[&'static str], value: &Value<'_>) -> Option<&'static str>
    ensures { option_map (λ k. k.now) result
        ≡ first_key (map (λ k. k.now) keys.now) (value_view value.now) }
{
    let mut rest = keys;
    while let [key, others @ ..] = rest {
        if word_at(value, key).is_some() {
            return Some(*key);
        }
        rest = others;
    }
    None
}

// Returns the word at the first of these keys that has one.
fn first_word<'v>(keys: &[&'static str], value: &'v Value<'_>) -> Option<&'v str>
    ensures { option_map (λ w. w.now) result
        ≡ first_word (map (λ k. k.now) keys.now) (value_view value.now) }
{
    word_at(value, first_key(keys, value)?)
}

fn level_at(value: &Value<'_>, key: &str) -> Option<Level>
    ensures { result ≡ level_at key.now (value_view value.now) }
{
    level_named(word_at(value, key)?)
}

// Returns the key of a line's level.
fn level_key(value: &Value<'_>) -> Option<&'static str>
    ensures { option_map (λ k. k.now) result ≡ level_key (value_view value.now) }
{
    let key = first_key(&LEVEL_KEYS, value)?;
    if level_at(value, key).is_some() {
        Some(key)
    } else {
        None
    }
}

// Returns the level of a line, or INFO if the line doesn't name one.
pub(super) fn level_in(value: &Value<'_>) -> Level
    ensures { result ≡ line_level (value_view value.now) }
{
    match first_key(&LEVEL_KEYS, value) {
        Some(key) => level_at(value, key).unwrap_or(Level::Info),
        None => Level::Info,
    }
}

// Returns the key of a line's time.
fn time_key(value: &Value<'_>) -> Option<&'static str>
    ensures { option_map (λ k. k.now) result ≡ time_key (value_view value.now) }
{
    let key = first_key(&TIME_KEYS, value)?;
    if is_time_at(value, key) {
        Some(key)
    } else {
        None
    }
}

fn is_time_at(value: &Value<'_>, key: &str) -> bool
    ensures { result ≡ is_time_at key.now (value_view value.now) }
{
    match word_at(value, key) {
        Some(word) => is_time(word),
        None => false,
    }
}

// Returns the moment of a line. Without a valid time, it is the moment of the line before.
pub(super) fn moment_in(value: &Value<'_>, before: &Moment) -> Moment
    ensures { result ≡ moment_in (value_view value.now) before.now }
{
    moment_of_word(first_word(&TIME_KEYS, value), before)
}

// A group: the name of its span, its id, and the process of a unit.
#[derive(Drop)]
pub(super) struct Group<'v> {
    pub(super) name: &'v str,
    pub(super) id: &'v str,
    pub(super) process: Option<&'v str>,
}

impl<'v> Model for Group<'v> {
    ghost use Rattle.std.specs.Prelude.{option_map};
    ghost use Rattle.ttree_logs.specs.LogLine.{Group as GroupView};

    ghost Value = { GroupView };

    ghost view = { λ g. record {
      name = g.name.now;
      id = g.id.now;
      process = option_map (λ p. p.now) g.process;
    } };
}

// Returns the group of a line: that of the given key, otherwise its trace or its
// request, otherwise its unit.
pub(super) fn group_in<'v>(asked: Option<&'v str>, value: &'v Value<'_>) -> Option<Group<'v>>
    ensures { result ≡ group_in (option_map (λ k. k.now) asked.entry) (value_view value.now) }
{
    match asked {
        Some(asked) => group_of(asked, word_along(asked, value), None),
        None => group_at(first_key(&GROUP_KEYS, value), value),
    }
}

// Returns the group at this key, or the unit.
fn group_at<'v>(key: Option<&'static str>, value: &'v Value<'_>) -> Option<Group<'v>>
    ensures { result ≡ group_at (option_map (λ k. k.now) key.entry) (value_view value.now) }
{
    match key {
        Some(key) => named_group(key, value),
        None => unit_in(value),
    }
}

// Returns the trace or the request at this key.
fn named_group<'v>(key: &'static str, value: &'v Value<'_>) -> Option<Group<'v>>
    ensures { result ≡ group_of (group_name key.now) (word_at key.now (value_view value.now)) None }
{
    group_of(group_name(key), word_at(value, key), None)
}

// Returns the word at a key. A key with points is also a path through objects.
fn word_along<'v>(path: &str, value: &'v Value<'_>) -> Option<&'v str>
    ensures { option_map (λ w. w.now) result ≡ word_along path.now (value_view value.now) }
{
    word_within(path.len(), path, value)
}

// Returns the word at a path of at most this many keys.
fn word_within<'v>(keys: usize, path: &str, value: &'v Value<'_>) -> Option<&'v str>
    ensures { option_map (λ w. w.now) result ≡ word_within keys path.now (value_view value.now) }
{
    if keys == 0 {
        return None;
    }
    if let Some(word) = word_at(value, path) {
        return Some(word);
    }
    let (rest, inner) = inner_of(path, value)?;
    word_within(keys - 1, rest, inner)
}

// Returns the rest of a path after its first key, and what the object has at that key.
fn inner_of<'p, 'v, 't>(path: &'p str, value: &'v Value<'t>) -> Option<(&'p str, &'v Value<'t>)>
    ensures { option_map (λ i. (i.0.now, value_view i.1.now)) result
        ≡ inner_of path.now (value_view value.now) }
{
    let (key, rest) = path.split_once('.')?;
    let inner = value.get(key)?;
    Some((rest, inner))
}

// Returns the key of a line's group.
fn group_key_in<'v>(asked: Option<&'v str>, value: &Value<'_>) -> Option<&'v str>
    ensures { option_map (λ k. k.now) result
        ≡ first_key (keys_of_groups (option_map (λ k. k.now) asked.entry)) (value_view value.now) }
{
    match asked {
        Some(asked) if word_at(value, asked).is_some() => Some(asked),
        Some(_) => None,
        None => first_key(&GROUP_KEYS, value),
    }
}

// Returns the name of a group's span by the key of its id.
fn group_name(key: &str) -> &'static str
    ensures { result.now ≡ group_name key.now }
{
    if is_among(key, &TRACE_KEYS) {
        "trace"
    } else {
        "request"
    }
}

fn group_of<'v>(name: &'v str, id: Option<&'v str>, process: Option<&'v str>) -> Option<Group<'v>>
    ensures { result ≡ group_of name.now (option_map (λ i. i.now) id.entry)
        (option_map (λ p. p.now) process.entry) }
{
    match id {
        Some(id) => Some(Group { name, id, process }),
        None => None,
    }
}

// Returns the group of a line of journald.
fn unit_in<'v>(value: &'v Value<'_>) -> Option<Group<'v>>
    ensures { result ≡ unit_in (value_view value.now) }
{
    if is_of_journal(value) {
        group_of(
            "unit",
            word_at(value, "_SYSTEMD_UNIT"),
            word_at(value, "_PID"),
        )
    } else {
        None
    }
}

// Returns whether journald wrote a line.
fn is_of_journal(value: &Value<'_>) -> bool
    ensures { result ≡ is_of_journal (value_view value.now) }
{
    word_at(value, "__REALTIME_TIMESTAMP").is_some()
}

// Returns what identifies a group.
pub(super) fn group_key(alloc: Global, group: &Group<'_>) -> Result<Vec<u8>, AllocError>
    ensures { IfOk result (λ key. key.items ≡ group_key group.now) }
{
    let mut key = Vec::from_slice(alloc, group.name.as_bytes())?;
    key.extend_from_slice(" ".as_bytes())?;
    key.extend_from_slice(group.id.as_bytes())?;
    push_process(&mut key, group.process)?;
    Ok(key)
}

fn push_process(key: &mut Vec<u8>, process: Option<&str>) -> Result<(), AllocError>
    ensures { OnOk result (key.new.items
        ≡ key.old.items ++ process_key (option_map (λ p. p.now) process.entry)) }
{
    if let Some(process) = process {
        key.extend_from_slice(" ".as_bytes())?;
        key.extend_from_slice(process.as_bytes())?;
    }
    Ok(())
}

// Returns the keys that aren't fields: those of the level, the time, the message and the group.
fn used_keys<'v>(asked: Option<&'v str>, value: &Value<'_>) -> UsedKeys<'v>
    ensures { result ≡ used_keys (option_map (λ k. k.now) asked.entry) (value_view value.now) }
{
    UsedKeys {
        level: level_key(value),
        time: time_key(value),
        message: first_key(&MESSAGE_KEYS, value),
        group: group_key_in(asked, value),
        is_of_journal: is_of_journal(value),
    }
}

// Returns the fields of a line's event: its message, and what else it has.
pub(super) fn event_fields(
    alloc: Global,
    asked: Option<&str>,
    value: &Value<'_>,
) -> Result<Fields, AllocError>
    ensures { IfOk result (λ fields.
        fields ≡ log_event_fields (option_map (λ k. k.now) asked.entry) (value_view value.now)) }
{
    let used = used_keys(asked, value);
    let mut fields = Vec::new(alloc);
    if let Some(text) = first_word(&MESSAGE_KEYS, value) {
        fields.push(message_field(alloc, text)?)?;
    }
    if let Value::Object(members) = value {
        push_members(alloc, &mut fields, &used, members)?;
    }
    Ok(Fields::from(fields))
}
