//! Detection of the format of an input by its lines.

ghost use Rattle.std.specs.Prelude.{◌≡◌, IfOk, option_map};
ghost use Rattle.json.specs.Json.{document};
ghost use Rattle.json.specs.Value.{members_view, value_view};
ghost use Rattle.ttree_source.specs.First.{are_settings, begins_list, begins_object, detects, ends_object, format_by, format_of, format_of_json, format_of_line, format_of_value, has_event_of_tracing, has_key_of_level, has_key_of_message, has_settings, holding, is_empty_object, is_full, is_log, is_of_otlp, is_of_tracing, is_setting, may_be_key, spells_call, spells_settings, without_mark};

use crate::blanks::{after_blanks, first_byte};
use crate::fields::is_among;
use crate::level::level_in;
use crate::markers::{begins_line_key, format_marked};
use crate::values::{array_at, text_at, value_of};
use json::{Scratch, Value};
use simdutf8::basic::from_utf8;
use std::alloc::{AllocError, Global};

// The keys of settings.
const SETTING_KEYS: [&str; 15] = [
    "indent_amount",
    "wraparound",
    "ansi",
    "indent_lines",
    "targets",
    "thread_ids",
    "thread_names",
    "verbose_entry",
    "verbose_exit",
    "span_retrace",
    "deferred_spans",
    "close_retrace",
    "span_modes",
    "bracketed_fields",
    "timer",
];

// The names of calls.
pub(crate) const CALL_WORDS: [&str; 5] = ["new", "clone", "record", "event", "close"];

// At most this many lines are held, and this many bytes.
const MAX_LINES: usize = 1000;

const MAX_BYTES: usize = 1024 * 1024;

/// The format of an input.
#[derive(Clone, Copy, Debug, PartialEq, Eq)]
pub enum Format {
    /// Lines of settings and calls.
    Lines,

    /// `go test -json`.
    GoTest,

    /// The JSON format of Rust's tracing-subscriber.
    Tracing,

    /// Chrome's trace event format.
    Chrome,

    /// JSON logs of services.
    Logs,

    /// OpenTelemetry's OTLP as JSON.
    Otlp,

    /// JUnit XML.
    Junit,

    /// The Test Anything Protocol.
    Tap,
}

/// The result of a line for the detection.
#[derive(Clone, Copy, Debug, PartialEq, Eq)]
pub enum Detection {
    /// The line determines the format.
    Determined(Format),

    /// The line determines nothing, and the next may be read.
    Held,

    /// The line determines nothing, and no more lines are held.
    Full,
}

/// A detector of an input's format, from its lines one after another.
///
/// The first line that determines a format counts. At most 1,000 lines, or 1 MiB with their line
/// ends, are held before it.
#[derive(Clone, Copy, Debug, PartialEq, Eq)]
pub struct Detector {
    /// How many lines were held.
    pub lines: usize,

    /// How many bytes these lines have, with their line ends.
    pub bytes: usize,
}

impl Detector {
    /// Returns a detector before the first line.
    pub fn new() -> Detector
        ensures { result ≡ record { lines = 0; bytes = 0 } }
    {
        Detector { lines: 0, bytes: 0 }
    }

    /// Takes the next line and returns its result.
    ///
    /// # Errors
    ///
    /// `AllocError` if an allocation fails.
    pub fn take(&mut self, alloc: Global, line: &[u8]) -> Result<Detection, AllocError>
        ensures detection { IfOk result (λ detection. detection ≡ detects line.now self.old) }
        ensures held { self.new ≡ holding line.now self.old }
    {
        self.lines = self.lines.saturating_add(1);
        self.bytes = self.bytes.saturating_add(line.len()).saturating_add(1);
        match format_of_line(alloc, line)? {
            Some(format) => Ok(Detection::Determined(format)),
            None if self.is_full() => Ok(Detection::Full),
            None => Ok(Detection::Held),
        }
    }

    fn is_full(&self) -> bool
        ensures { result ≡ is_full self.now }
    {
        self.lines >= MAX_LINES || self.bytes >= MAX_BYTES
    }
}

/// Returns a line without the byte order mark at its start.
pub fn without_mark(line: &[u8]) -> &[u8]
    ensures { result.now ≡ without_mark line.now }
{
    match line.strip_prefix(&[0xef, 0xbb, 0xbf][..]) {
        Some(rest) => rest,
        None => line,
    }
}

/// Returns the format that a line determines, if it determines one.
///
/// The first of these rules that applies counts:
///
/// - A line that starts with `[` after its blanks is Chrome's if nothing, `{` or `]` follows.
/// - A line that only OTLP, JUnit XML or TAP has is theirs ([`markers`](crate::markers)).
/// - A line that starts with `{` after its blanks, followed by `"` or nothing, and isn't a complete
///   JSON value is Chrome's, unless its first key is one of logs, Go's tests or calls.
/// - An object with a string at `Action` is Go's.
/// - An object with an array at `traceEvents` is Chrome's.
/// - An object with an array at `resourceSpans`, `resourceLogs` or `resourceMetrics` is OTLP's.
/// - An object that has a key, and only keys of settings, is a line of settings and calls. So is
///   an object that names a call at `call`.
/// - An object with one of the five levels at `level`, in capitals, and a value at `fields` or
///   `target` is tracing's, unless it has a `msg`, or a `message` beside `fields`.
/// - An object with a key of levels (`level`, `severity`, `lvl`, `log.level`, `PRIORITY`) and a key
///   of messages (`msg`, `message`, `event`, `MESSAGE`) is a log.
/// - Every other line determines nothing.
///
/// # Errors
///
/// `AllocError` if an allocation fails.
pub fn format_of_line(alloc: Global, line: &[u8]) -> Result<Option<Format>, AllocError>
    ensures { IfOk result (λ format. format ≡ format_of_line line.now) }
{
    if begins_list(line) {
        return Ok(Some(Format::Chrome));
    }
    match format_marked(line) {
        Some(format) => Ok(Some(format)),
        None => format_of_json(alloc, line),
    }
}

fn format_of_json(alloc: Global, line: &[u8]) -> Result<Option<Format>, AllocError>
    ensures { IfOk result (λ format. format ≡ format_of_json line.now) }
{
    let is_object = begins_object(line);
    match from_utf8(line) {
        Ok(text) => format_of_text(alloc, is_object, text),
        Err(_) => Ok(format_by(is_object, None)),
    }
}

// Returns whether the line starts a list of objects, or only a list.
fn begins_list(line: &[u8]) -> bool
    ensures { result ≡ begins_list line.now }
{
    match after_blanks(line) {
        [b'[', rest @ ..] => match first_byte(rest) {
            Some(byte) => byte == b'{' || byte == b']',
            None => true,
        },
        _ => false,
    }
}

/// Returns whether a line is an object without a key, which may be settings or not.
pub fn is_empty_object(line: &[u8]) -> bool
    ensures { result ≡ is_empty_object line.now }
{
    match after_blanks(line) {
        [b'{', rest @ ..] => ends_object(after_blanks(rest)),
        _ => false,
    }
}

fn ends_object(text: &[u8]) -> bool
    ensures { result ≡ ends_object text.now }
{
    match text {
        [b'}', rest @ ..] => first_byte(rest).is_none(),
        _ => false,
    }
}

// Returns whether the line starts an object with a key that a trace may have, or only an object.
fn begins_object(line: &[u8]) -> bool
    ensures { result ≡ begins_object line.now }
{
    match after_blanks(line) {
        [b'{', rest @ ..] => may_be_key(first_byte(rest)) && !begins_line_key(after_blanks(rest)),
        _ => false,
    }
}

fn may_be_key(first: Option<u8>) -> bool
    ensures { result ≡ may_be_key first }
{
    match first {
        Some(byte) => byte == b'"',
        None => true,
    }
}

fn format_of_text(
    alloc: Global,
    begins_object: bool,
    text: &str,
) -> Result<Option<Format>, AllocError>
    ensures { IfOk result (λ format. format ≡ format_by begins_object (document text.now)) }
{
    let mut scratch = Scratch::new(alloc);
    let value = value_of(alloc, text, &mut scratch)?;
    Ok(format_by(begins_object, value.as_ref()))
}

fn format_by(begins_object: bool, value: Option<&Value<'_>>) -> Option<Format>
    ensures { result ≡ format_by begins_object (option_map (λ v. value_view v.now) value.entry) }
{
    if begins_object && value.is_none() {
        return Some(Format::Chrome);
    }
    format_of(value)
}

fn format_of(value: Option<&Value<'_>>) -> Option<Format>
    ensures { result ≡ format_of (option_map (λ v. value_view v.now) value.entry) }
{
    match value {
        Some(value) => format_of_value(value),
        None => None,
    }
}

fn format_of_value(value: &Value<'_>) -> Option<Format>
    ensures { result ≡ format_of_value (value_view value.now) }
{
    if text_at(value, "Action").is_some() {
        Some(Format::GoTest)
    } else if array_at(value, "traceEvents").is_some() {
        Some(Format::Chrome)
    } else if is_of_otlp(value) {
        Some(Format::Otlp)
    } else if spells_settings(value) || spells_call(value) {
        Some(Format::Lines)
    } else if is_of_tracing(value) {
        Some(Format::Tracing)
    } else if is_log(value) {
        Some(Format::Logs)
    } else {
        None
    }
}

// Returns whether a value has an array at one of OTLP's keys.
fn is_of_otlp(value: &Value<'_>) -> bool
    ensures { result ≡ is_of_otlp (value_view value.now) }
{
    array_at(value, "resourceSpans").is_some()
        || array_at(value, "resourceLogs").is_some()
        || array_at(value, "resourceMetrics").is_some()
}

// Returns whether an object has a key, and only keys of settings.
fn spells_settings(value: &Value<'_>) -> bool
    ensures { result ≡ spells_settings (value_view value.now) }
{
    match value {
        Value::Object(members) => has_settings(members),
        _ => false,
    }
}

fn has_settings(members: &Vec<(&str, Value<'_>)>) -> bool
    ensures { result ≡ has_settings (members_view members.now.items) }
{
    match members.as_slice() {
        [member, others @ ..] => is_setting(member.0) && are_settings(others),
        [] => false,
    }
}

fn is_setting(key: &str) -> bool
    ensures { result ≡ is_setting key.now }
{
    is_among(key, &SETTING_KEYS)
}

fn are_settings(members: &[(&str, Value<'_>)]) -> bool
    ensures { result ≡ are_settings (members_view members.now) }
{
    let mut rest = members;
    while let [member, others @ ..] = rest {
        if !is_setting(member.0) {
            return false;
        }
        rest = others;
    }
    true
}

// Returns whether an object names a call.
fn spells_call(value: &Value<'_>) -> bool
    ensures { result ≡ spells_call (value_view value.now) }
{
    match text_at(value, "call") {
        Some(word) => is_among(word, &CALL_WORDS),
        None => false,
    }
}

// Returns whether a value has the keys of a line of tracing.
fn is_of_tracing(value: &Value<'_>) -> bool
    ensures { result ≡ is_of_tracing (value_view value.now) }
{
    level_in(value).is_some() && value.get("msg").is_none() && has_event_of_tracing(value)
}

// Returns whether a value has an event's fields, or a target and its fields beside it.
fn has_event_of_tracing(value: &Value<'_>) -> bool
    ensures { result ≡ has_event_of_tracing (value_view value.now) }
{
    if value.get("fields").is_some() {
        value.get("message").is_none()
    } else {
        value.get("target").is_some()
    }
}

// Returns whether a value has a key of levels and a key of messages, as the logs of services have.
fn is_log(value: &Value<'_>) -> bool
    ensures { result ≡ is_log (value_view value.now) }
{
    has_key_of_level(value) && has_key_of_message(value)
}

fn has_key_of_level(value: &Value<'_>) -> bool
    ensures { result ≡ has_key_of_level (value_view value.now) }
{
    value.get("level").is_some()
        || value.get("severity").is_some()
        || value.get("lvl").is_some()
        || value.get("log.level").is_some()
        || value.get("PRIORITY").is_some()
}

fn has_key_of_message(value: &Value<'_>) -> bool
    ensures { result ≡ has_key_of_message (value_view value.now) }
{
    value.get("msg").is_some()
        || value.get("message").is_some()
        || value.get("event").is_some()
        || value.get("MESSAGE").is_some()
}
