//! Lines that only one format has: of TAP, of JUnit XML, and of OTLP.

ghost use Rattle.std.specs.Prelude.{◌≡◌, option_map};
ghost use Rattle.ttree_source.specs.Marks.{after_mark};
ghost use Rattle.ttree_source.specs.Markers.{after_declaration, begins_call_key, begins_digit, begins_level_key, begins_line_key, begins_message_key, begins_otlp_key, begins_time_key, begins_suite, counts, declares_suite, describes, ends_line, format_marked, has_otlp_key, is_junit, is_numbered, is_otlp, is_plan, is_result, is_tap, is_version};

use crate::blanks::after_blanks;
use crate::first::Format;
use crate::traces::{after_digits, is_digit};
use tracing_tree_lines::lines::is_skipped;

/// Returns the format that has this line, if only one format has such lines.
///
/// OTLP's are objects whose first key is `resourceSpans`, `resourceLogs` or `resourceMetrics`.
/// JUnit XML's start with `<testsuite`, also after an XML declaration. TAP's have its version, a
/// plan (`1..5`), a result (`ok 1`, `not ok - name`) or the name of a subtest (`# Subtest: name`).
pub(crate) fn format_marked(line: &[u8]) -> Option<Format>
    ensures { result ≡ format_marked line.now }
{
    if is_otlp(line) {
        Some(Format::Otlp)
    } else if is_junit(line) {
        Some(Format::Junit)
    } else if is_tap(line) {
        Some(Format::Tap)
    } else {
        None
    }
}

/// Returns whether an object starts here whose first key is one of OTLP's.
pub fn is_otlp(text: &[u8]) -> bool
    ensures { result ≡ is_otlp text.now }
{
    match after_bytes(after_blanks(text), "{".as_bytes()) {
        Some(rest) => has_otlp_key(rest),
        None => false,
    }
}

fn has_otlp_key(text: &[u8]) -> bool
    ensures { result ≡ has_otlp_key text.now }
{
    begins_otlp_key(after_blanks(text))
}

fn begins_otlp_key(text: &[u8]) -> bool
    ensures { result ≡ begins_otlp_key text.now }
{
    text.starts_with("\"resourceSpans\"".as_bytes())
        || text.starts_with("\"resourceLogs\"".as_bytes())
        || text.starts_with("\"resourceMetrics\"".as_bytes())
}

/// Returns whether a key starts here that is the first key of a line of logs, of Go's tests or of
/// calls. A trace never begins with such a key.
pub(crate) fn begins_line_key(text: &[u8]) -> bool
    ensures { result ≡ begins_line_key text.now }
{
    begins_level_key(text)
        || begins_time_key(text)
        || begins_message_key(text)
        || begins_call_key(text)
}

#[tactic(auto, unfolding(crate::specs::Markers::begins_call_key))]
fn begins_call_key(text: &[u8]) -> bool
    ensures { result ≡ begins_call_key text.now }
{
    text.starts_with("\"Action\"".as_bytes()) || text.starts_with("\"call\"".as_bytes())
}

#[tactic(auto, unfolding(crate::specs::Markers::begins_level_key))]
fn begins_level_key(text: &[u8]) -> bool
    ensures { result ≡ begins_level_key text.now }
{
    text.starts_with("\"level\"".as_bytes())
        || text.starts_with("\"severity\"".as_bytes())
        || text.starts_with("\"lvl\"".as_bytes())
        || text.starts_with("\"log.level\"".as_bytes())
        || text.starts_with("\"PRIORITY\"".as_bytes())
}

#[tactic(auto, unfolding(crate::specs::Markers::begins_time_key))]
fn begins_time_key(text: &[u8]) -> bool
    ensures { result ≡ begins_time_key text.now }
{
    text.starts_with("\"time\"".as_bytes())
        || text.starts_with("\"ts\"".as_bytes())
        || text.starts_with("\"timestamp\"".as_bytes())
        || text.starts_with("\"@timestamp\"".as_bytes())
        || text.starts_with("\"Time\"".as_bytes())
}

#[tactic(auto, unfolding(crate::specs::Markers::begins_message_key))]
fn begins_message_key(text: &[u8]) -> bool
    ensures { result ≡ begins_message_key text.now }
{
    text.starts_with("\"msg\"".as_bytes())
        || text.starts_with("\"message\"".as_bytes())
        || text.starts_with("\"event\"".as_bytes())
        || text.starts_with("\"MESSAGE\"".as_bytes())
}

fn is_junit(line: &[u8]) -> bool
    ensures { result ≡ is_junit line.now }
{
    begins_suite(line) || declares_suite(after_blanks(line))
}

fn begins_suite(text: &[u8]) -> bool
    ensures { result ≡ begins_suite text.now }
{
    after_blanks(text).starts_with("<testsuite".as_bytes())
}

fn declares_suite(text: &[u8]) -> bool
    ensures { result ≡ declares_suite text.now }
{
    text.starts_with("<?xml".as_bytes()) && begins_suite(after_declaration(text))
}

// Returns what follows the first `?>`.
fn after_declaration(text: &[u8]) -> &[u8]
    ensures { result.now ≡ after_declaration text.now }
{
    let mut rest = text;
    while let [_, others @ ..] = rest {
        if let Some(after) = after_bytes(rest, "?>".as_bytes()) {
            return after;
        }
        rest = others;
    }
    rest
}

fn is_tap(line: &[u8]) -> bool
    ensures { result ≡ is_tap line.now }
{
    is_version("TAP version ", line)
        || is_version("KTAP version ", line)
        || is_plan(line)
        || is_result("ok ", line)
        || is_result("not ok ", line)
        || line.starts_with("# Subtest: ".as_bytes())
}

fn is_version(mark: &str, line: &[u8]) -> bool
    ensures { result ≡ is_version mark.now line.now }
{
    match after_bytes(line, mark.as_bytes()) {
        Some(rest) => begins_digit(rest),
        None => false,
    }
}

fn is_plan(line: &[u8]) -> bool
    ensures { result ≡ is_plan line.now }
{
    match after_bytes(line, "1..".as_bytes()) {
        Some(rest) => counts(rest),
        None => false,
    }
}

fn is_result(mark: &str, line: &[u8]) -> bool
    ensures { result ≡ is_result mark.now line.now }
{
    match after_bytes(line, mark.as_bytes()) {
        Some(rest) => is_numbered(rest),
        None => false,
    }
}

// Returns whether a number starts here that ends the line.
fn counts(text: &[u8]) -> bool
    ensures { result ≡ counts text.now }
{
    begins_digit(text) && ends_line(after_digits(text))
}

// Returns whether a result's number or its description starts here. After a number other than 1 a
// description needs a dash, so that `ok 3 files` isn't taken for a result.
fn is_numbered(text: &[u8]) -> bool
    ensures { result ≡ is_numbered text.now }
{
    text.starts_with("- ".as_bytes())
        || text.starts_with("1 ".as_bytes())
        || begins_digit(text) && describes(after_digits(text))
}

fn describes(text: &[u8]) -> bool
    ensures { result ≡ describes text.now }
{
    text.starts_with(" - ".as_bytes()) || ends_line(text)
}

// Returns whether nothing follows but a directive.
fn ends_line(text: &[u8]) -> bool
    ensures { result ≡ ends_line text.now }
{
    is_skipped(text) || text.starts_with(" #".as_bytes())
}

fn begins_digit(text: &[u8]) -> bool
    ensures { result ≡ begins_digit text.now }
{
    match text {
        [byte, ..] => is_digit(*byte),
        [] => false,
    }
}

// Returns what follows this prefix, if it is there.
fn after_bytes<'a>(text: &'a [u8], mark: &[u8]) -> Option<&'a [u8]>
    ensures { option_map (λ s. s.now) result ≡ after_mark mark.now text.now }
{
    match text.strip_prefix(mark) {
        Some(rest) => Some(rest),
        None => None,
    }
}
