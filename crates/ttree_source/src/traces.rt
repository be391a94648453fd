//! Plain lines, and the first line of a panic or of a stack trace.

ghost use Rattle.std.specs.Prelude.{◌≡◌, IfOk};
ghost use Rattle.ttree_source.specs.Marks.{begins};
ghost use Rattle.ttree_source.specs.Traces.{after_digits, after_name, begins_exception, begins_goroutine, begins_rust_panic, begins_trace, begins_with_words, describes_goroutine, holds_mark, is_digit, is_of_name, names_exception, plain_event, plain_level, without_return};

use crate::calls::{event_call, message_field};
use crate::marks::after_mark;
use std::alloc::{AllocError, Global};
use tracing_tree_base::Id;
use tracing_tree_base::field::Fields;
use tracing_tree_base::style::Level;
use tracing_tree_layer::call::Call;
use tracing_tree_time::Moment;

/// Returns the event of a line that isn't a JSON object, in the span `parent`.
///
/// Its level is `Error` if the line starts a panic or a stack trace ([`begins_trace`]), otherwise
/// `Info`. The message is the line without the carriage return at its end.
///
/// # Errors
///
/// `AllocError` if an allocation fails.
pub fn plain_event(
    alloc: Global,
    moment: Moment,
    line: &str,
    parent: Option<Id>,
) -> Result<Call, AllocError>
    ensures { IfOk result (λ call. call ≡ plain_event moment line.now parent) }
{
    let message = message_field(alloc, without_return(line))?;
    event_call(
        alloc,
        moment,
        plain_level(line),
        Fields::one(alloc, message),
        parent,
    )
}

fn plain_level(line: &str) -> Level
    ensures { result ≡ plain_level line.now }
{
    if begins_trace(line) {
        Level::Error
    } else {
        Level::Info
    }
}

// Removes the carriage return at a line's end.
fn without_return(line: &str) -> &str
    ensures { result.now ≡ without_return line.now }
{
    match line.strip_suffix("\r") {
        Some(text) => text,
        None => line,
    }
}

/// Returns whether a panic or a stack trace of Rust, Go, Python or Java starts with this line.
pub fn begins_trace(line: &str) -> bool
    ensures { result ≡ begins_trace line.now }
{
    begins_rust_panic(line)
        || begins_goroutine(line)
        || begins_exception(line.as_bytes())
        || begins_with_words(line)
}

// Returns whether a line starts with the words before a panic, a fault or a stack trace.
fn begins_with_words(line: &str) -> bool
    ensures { result ≡ begins_with_words line.now }
{
    begins("panic: ", line)
        || begins("fatal error: ", line)
        || begins("SIGSEGV: ", line)
        || begins("stack backtrace:", line)
        || begins("Traceback (most recent call last):", line)
        || begins("Exception in thread \"", line)
}

fn begins(mark: &str, line: &str) -> bool
    ensures { result ≡ begins mark.now line.now }
{
    after_mark(line, mark).is_some()
}

// Rust: thread 'main' panicked at src/main.rs:2:5:
fn begins_rust_panic(line: &str) -> bool
    ensures { result ≡ begins_rust_panic line.now }
{
    match after_mark(line, "thread '") {
        Some(rest) => holds_mark(" panicked at".as_bytes(), rest.as_bytes()),
        None => false,
    }
}

// Go: goroutine 1 [running]:
fn begins_goroutine(line: &str) -> bool
    ensures { result ≡ begins_goroutine line.now }
{
    match after_mark(line, "goroutine ") {
        Some(rest) => describes_goroutine(after_digits(rest.as_bytes())),
        None => false,
    }
}

// Returns whether the state of a goroutine follows, or first its addresses.
fn describes_goroutine(rest: &[u8]) -> bool
    ensures { result ≡ describes_goroutine rest.now }
{
    rest.starts_with(" [".as_bytes()) || rest.starts_with(" gp=0x".as_bytes())
}

// Java: java.lang.IllegalStateException: closed
fn begins_exception(line: &[u8]) -> bool
    ensures { result ≡ begins_exception line.now }
{
    let rest = after_name(line);
    let name = &line[..line.len().saturating_sub(rest.len())];
    names_exception(name) && (rest.is_empty() || rest.starts_with(":".as_bytes()))
}

// Returns whether a name is an exception's in a package.
fn names_exception(name: &[u8]) -> bool
    ensures { result ≡ names_exception name.now }
{
    holds_mark(".".as_bytes(), name)
        && (name.ends_with("Exception".as_bytes()) || name.ends_with("Error".as_bytes()))
}

// Returns what follows the name at the start.
fn after_name(text: &[u8]) -> &[u8]
    ensures { result.now ≡ after_name text.now }
{
    let mut rest = text;
    while let [byte, others @ ..] = rest {
        if !is_of_name(*byte) {
            break;
        }
        rest = others;
    }
    rest
}

// Returns whether a byte may be part of a class's name with its package.
fn is_of_name(byte: u8) -> bool
    ensures { result ≡ is_of_name byte }
{
    matches!(byte, b'0'..=b'9' | b'A'..=b'Z' | b'a'..=b'z' | b'.' | b'_' | b'$')
}

// Returns what follows the decimal digits at the start.
pub(crate) fn after_digits(text: &[u8]) -> &[u8]
    ensures { result.now ≡ after_digits text.now }
{
    let mut rest = text;
    while let [byte, others @ ..] = rest {
        if !is_digit(*byte) {
            break;
        }
        rest = others;
    }
    rest
}

pub(crate) fn is_digit(byte: u8) -> bool
    ensures { result ≡ is_digit byte }
{
    matches!(byte, b'0'..=b'9')
}

// Returns whether a string contains this mark.
fn holds_mark(mark: &[u8], text: &[u8]) -> bool
    ensures { result ≡ holds_mark mark.now text.now }
{
    let mut rest = text;
    while let [_, others @ ..] = rest {
        if rest.starts_with(mark) {
            return true;
        }
        rest = others;
    }
    false
}
