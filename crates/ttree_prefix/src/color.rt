//! Colours around a prefix, as `docker compose logs` writes them on a terminal.

ghost use Rattle.std.specs.Prelude.{◌≡◌, option_map};
ghost use Rattle.ttree_source.specs.Traces.{is_digit};
ghost use Rattle.ttree_prefix.specs.Color.{after_color, after_numbers, after_reset, are_numbers, at_letter, uncolored, without_color};

use crate::mark::Mark;
use ttree_source::marks::after_mark;

// Returns a prefix without the colour at its start, and what comes after the mark and its blank. If
// the prefix has a colour, the one that resets it is removed there.
pub(crate) fn uncolored<'a>(mark: Mark, prefix: &'a str, rest: &'a str) -> (&'a str, &'a str)
    ensures { (result.0.now, result.1.now) ≡ uncolored mark (prefix.now, rest.now) }
{
    match after_color(prefix) {
        Some(prefix) => (prefix, after_reset(mark, rest)),
        None => (prefix, mark.without_blank(rest)),
    }
}

// Returns what comes after the colour and the blank of a mark, in either order.
fn after_reset(mark: Mark, rest: &str) -> &str
    ensures { result.now ≡ after_reset mark rest.now }
{
    match after_color(rest) {
        Some(rest) => mark.without_blank(rest),
        None => without_color(mark.without_blank(rest)),
    }
}

fn without_color(text: &str) -> &str
    ensures { result.now ≡ without_color text.now }
{
    match after_color(text) {
        Some(rest) => rest,
        None => text,
    }
}

// Returns what comes after the colour at the start: ESC, `[`, numbers with `;` between, and `m`.
fn after_color(text: &str) -> Option<&str>
    ensures { option_map (λ s. s.now) result ≡ after_color text.now }
{
    match after_mark(text, "\u{1b}[") {
        Some(rest) => after_numbers(rest),
        None => None,
    }
}

fn after_numbers(text: &str) -> Option<&str>
    ensures { option_map (λ s. s.now) result ≡ after_numbers text.now }
{
    match at_letter(text) {
        Some((numbers, rest)) if are_numbers(numbers.as_bytes()) => Some(rest),
        _ => None,
    }
}

// Returns a string at its first `m`: what comes before it and after it.
fn at_letter(text: &str) -> Option<(&str, &str)>
    ensures { option_map (λ parts. (parts.0.now, parts.1.now)) result ≡ at_letter text.now }
{
    text.split_once('m')
}

// Returns whether these are digits and `;`.
fn are_numbers(text: &[u8]) -> bool
    ensures { result ≡ are_numbers text.now }
{
    let mut rest = text;
    while let [byte, others @ ..] = rest {
        if !matches!(*byte, b'0'..=b'9' | b';') {
            return false;
        }
        rest = others;
    }
    true
}
