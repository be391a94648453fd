//! What enumerations say, by number or by name, as protobuf's JSON mapping allows both.

ghost use Rattle.std.specs.Prelude.{◌≡◌};
ghost use Rattle.json.specs.Value.{value_view};
ghost use Rattle.ttree_otlp.specs.Named.{has_grade, is_debug, is_fatal, is_info, is_trace, is_warn, kind_at, kind_named, level_at, level_at_name, level_by_name, level_of_severity, names_error, same_word, severity_named, status_is_error};

use crate::read::{count_at, number_at, string_at};
use json::Value;
use tracing_tree_base::style::Level;
use ttree_source::marks::after_mark;

fn kind_named(name: &str) -> u64
    ensures { result ≡ kind_named name.now }
{
    if name == "SPAN_KIND_SERVER" {
        2
    } else if name == "SPAN_KIND_CLIENT" {
        3
    } else if name == "SPAN_KIND_PRODUCER" {
        4
    } else if name == "SPAN_KIND_CONSUMER" {
        5
    } else {
        0
    }
}

// Returns the kind of a span. It is 0 or 1 if nothing is shown of it.
pub(crate) fn kind_at(value: &Value<'_>) -> u64
    ensures { result ≡ kind_at (value_view value.now) }
{
    match number_at(value, "kind") {
        Some(kind) => kind,
        None => kind_named(string_at(value, "kind")),
    }
}

// Returns whether a status is an error.
pub(crate) fn has_failed(status: &Value<'_>) -> bool
    ensures { result ≡ status_is_error (value_view status.now) }
{
    count_at(status, "code") == 2 || string_at(status, "code") == "STATUS_CODE_ERROR"
}

// Returns the level of a log's severity number, or INFO without one.
fn level_of(severity: u64) -> Level
    ensures { result ≡ level_of_severity severity }
{
    if severity >= 17 {
        Level::Error
    } else if severity >= 13 {
        Level::Warn
    } else if severity >= 9 {
        Level::Info
    } else if severity >= 5 {
        Level::Debug
    } else if severity >= 1 {
        Level::Trace
    } else {
        Level::Info
    }
}

// Returns whether two words are equal, except for the case of their letters.
fn same_word(word: &str, other: &str) -> bool
    ensures { result ≡ same_word word.now other.now }
{
    word.eq_ignore_ascii_case(other)
}

// Returns whether a word is one of the four grades of a level.
fn has_grade(word: &str, first: &str, second: &str, third: &str, fourth: &str) -> bool
    ensures { result ≡ has_grade word.now first.now second.now third.now fourth.now }
{
    same_word(word, first)
        || same_word(word, second)
        || same_word(word, third)
        || same_word(word, fourth)
}

fn is_trace(word: &str) -> bool
    ensures { result ≡ is_trace word.now }
{
    has_grade(word, "trace", "trace2", "trace3", "trace4")
}

fn is_debug(word: &str) -> bool
    ensures { result ≡ is_debug word.now }
{
    has_grade(word, "debug", "debug2", "debug3", "debug4")
}

fn is_info(word: &str) -> bool
    ensures { result ≡ is_info word.now }
{
    has_grade(word, "info", "info2", "info3", "info4")
        || has_grade(word, "information", "informational", "notice", "default")
}

fn is_warn(word: &str) -> bool
    ensures { result ≡ is_warn word.now }
{
    has_grade(word, "warn", "warn2", "warn3", "warn4") || same_word(word, "warning")
}

fn is_error(word: &str) -> bool
    ensures { result ≡ names_error word.now }
{
    has_grade(word, "error", "error2", "error3", "error4")
        || has_grade(word, "err", "critical", "crit", "severe")
}

fn is_fatal(word: &str) -> bool
    ensures { result ≡ is_fatal word.now }
{
    has_grade(word, "fatal", "fatal2", "fatal3", "fatal4")
        || has_grade(word, "panic", "alert", "emerg", "emergency")
}

// Returns the level of this name, in any case.
fn level_named(word: &str) -> Option<Level>
    ensures { result ≡ level_by_name word.now }
{
    if is_info(word) {
        Some(Level::Info)
    } else if is_error(word) || is_fatal(word) {
        Some(Level::Error)
    } else if is_warn(word) {
        Some(Level::Warn)
    } else if is_debug(word) {
        Some(Level::Debug)
    } else if is_trace(word) {
        Some(Level::Trace)
    } else {
        None
    }
}

// Returns the level of a severity number's name.
fn severity_named(name: &str) -> Option<Level>
    ensures { result ≡ severity_named name.now }
{
    level_named(after_mark(name, "SEVERITY_NUMBER_")?)
}

// Returns the level of a log: that of its severity number, otherwise of its severity's text,
// otherwise INFO.
pub(crate) fn level_at(value: &Value<'_>) -> Level
    ensures { result ≡ level_at (value_view value.now) }
{
    match count_at(value, "severityNumber") {
        0 => level_at_name(value),
        severity => level_of(severity),
    }
}

fn level_at_name(value: &Value<'_>) -> Level
    ensures { result ≡ level_at_name (value_view value.now) }
{
    match severity_named(string_at(value, "severityNumber")) {
        Some(level) => level,
        None => level_named(string_at(value, "severityText")).unwrap_or(Level::Info),
    }
}
