//! Parts of strings.

ghost use Rattle.std.specs.Prelude.{◌≡◌, ◌++◌, ◌-◌, ◌<◌, IfOk, OnOk, length, option_map, string_bytes};
ghost use Rattle.std.specs.Str.{all_ascii_digits};
ghost use Rattle.ttree_source.specs.Marks.{after_mark, begins};
ghost use Rattle.ttree_tap.specs.Strings.{after_word, before_mark, dashless, end_of_escape, first_part, first_word, has_backslash, is_digits, is_escape, last_escape, past_escape, rest_after, same_word, unescaped, unescaped_char, whole_of, without_end, without_leading, without_margin};

use std::alloc::{AllocError, Global};
use tracing_tree_base::text::Text;
use ttree_source::marks::after_mark;

// Returns whether a string starts with this prefix.
pub(crate) fn begins(mark: &str, text: &str) -> bool
    ensures { result ≡ begins mark.now text.now }
{
    after_mark(text, mark).is_some()
}

// Returns what follows this mark at the front, or nothing.
pub(crate) fn rest_after<'a>(mark: &str, text: &'a str) -> &'a str
    ensures { result.now ≡ rest_after mark.now text.now }
{
    match after_mark(text, mark) {
        Some(rest) => rest,
        None => "",
    }
}

// Returns what comes before this mark at the end.
pub(crate) fn before_mark<'a>(mark: &str, text: &'a str) -> Option<&'a str>
    ensures { option_map (λ s. s.now) result ≡ before_mark mark.now text.now }
{
    text.strip_suffix(mark)
}

// Removes this suffix from a string.
pub(crate) fn without_end<'a>(mark: &str, text: &'a str) -> &'a str
    ensures { result.now ≡ without_end mark.now text.now }
{
    match before_mark(mark, text) {
        Some(rest) => rest,
        None => text,
    }
}

// Removes the characters at the start that are equal to `mark`.
pub(crate) fn without_leading(mark: char, text: &str) -> &str
    requires { mark < 128 }
    ensures { result.now ≡ without_leading mark text.now }
{
    let mut rest = text;
    while let Some(more) = rest.strip_prefix(mark) {
        rest = more;
    }
    rest
}

// Removes the first spaces of a string, at most `limit`.
pub(crate) fn without_margin(limit: usize, text: &str) -> &str
    ensures { result.now ≡ without_margin limit text.now }
{
    let mut rest = text;
    let mut place = 0;
    while place < limit {
        let Some(more) = rest.strip_prefix(' ') else {
            return rest;
        };
        rest = more;
        place += 1;
    }
    rest
}

// Returns what comes before the first space.
pub(crate) fn first_word(text: &str) -> &str
    ensures { result.now ≡ first_word text.now }
{
    match text.split_once(' ') {
        Some((word, _)) => word,
        None => text,
    }
}

// Returns what comes after the first space and those that follow it.
pub(crate) fn after_word(text: &str) -> &str
    ensures { result.now ≡ after_word text.now }
{
    match text.split_once(' ') {
        Some((_, rest)) => without_leading(' ', rest),
        None => "",
    }
}

// Returns whether two words are equal without regard to case.
pub(crate) fn same_word(word: &str, other: &str) -> bool
    ensures { result ≡ same_word word.now other.now }
{
    word.eq_ignore_ascii_case(other)
}

// Returns the number that digits write, if a u64 holds it.
pub(crate) fn whole_of(text: &str) -> Option<u64>
    ensures { result ≡ whole_of text.now }
{
    if !is_digits(text) {
        return None;
    }
    text.parse().ok()
}

// Returns whether a string has only digits, and at least one.
pub(crate) fn is_digits(text: &str) -> bool
    ensures { result ≡ is_digits text.now }
{
    !text.is_empty() && all_digits(text.as_bytes())
}

fn all_digits(bytes: &[u8]) -> bool
    ensures { result ≡ all_ascii_digits bytes.now }
{
    let mut rest = bytes;
    while let [byte, others @ ..] = rest {
        if !byte.is_ascii_digit() {
            return false;
        }
        rest = others;
    }
    true
}

// Returns a string with `\#` replaced by `#`, and `\\` by `\`.
#[tactic(auto, using(crate::proofs::Unescaped::without_backslash))]
pub(crate) fn unescaped(alloc: Global, text: &str) -> Result<Text, AllocError>
    ensures { IfOk result (λ made. made ≡ unescaped text.now) }
{
    if !has_backslash(text) {
        return Text::from_str(alloc, text);
    }
    let mut out = String::new(alloc);
    push_unescaped(&mut out, text)?;
    Ok(Text::from(out))
}

fn has_backslash(text: &str) -> bool
    ensures { result ≡ has_backslash text.now }
{
    text.as_bytes().contains(&b'\\')
}

fn push_unescaped(out: &mut String, text: &str) -> Result<(), AllocError>
    ensures { OnOk result (string_bytes out.new ≡ string_bytes out.old ++ unescaped text.now) }
{
    let mut is_escaped = false;
    for c in text.chars() {
        push_char(out, is_escaped, c)?;
        is_escaped = past_escape(is_escaped, c);
    }
    push_last(out, is_escaped)
}

// Appends a backslash at the end of a string, which escapes nothing.
fn push_last(out: &mut String, is_escaped: bool) -> Result<(), AllocError>
    ensures { OnOk result (string_bytes out.new ≡ string_bytes out.old ++ last_escape is_escaped) }
{
    if is_escaped {
        out.push_str("\\")
    } else {
        Ok(())
    }
}

// Returns whether the next character is behind a backslash that may escape it.
fn past_escape(is_escaped: bool, c: char) -> bool
    ensures { result ≡ past_escape is_escaped c }
{
    !is_escaped && c == '\\'
}

fn push_char(out: &mut String, is_escaped: bool, c: char) -> Result<(), AllocError>
    ensures { OnOk result (string_bytes out.new ≡ string_bytes out.old ++ unescaped_char is_escaped
        c) }
{
    if is_escaped {
        return push_escaped(out, c);
    }
    if c == '\\' { Ok(()) } else { out.push(c) }
}

// Appends a character after a backslash.
fn push_escaped(out: &mut String, c: char) -> Result<(), AllocError>
    ensures { OnOk result (string_bytes out.new ≡ string_bytes out.old ++ end_of_escape c) }
{
    if !is_escape(c) {
        out.push_str("\\")?;
    }
    out.push(c)
}

fn is_escape(c: char) -> bool
    ensures { result ≡ is_escape c }
{
    c == '#' || c == '\\'
}

// Returns a description without the dash before it.
pub(crate) fn dashless(text: &str) -> &str
    ensures { result.now ≡ dashless text.now }
{
    match after_mark(text, "- ") {
        Some(rest) => without_leading(' ', rest),
        None => text,
    }
}

// Returns how many bytes come before the rest of a string.
pub(crate) fn column_of(text: &str, rest: &str) -> usize
    ensures { result ≡ length text.now - length rest.now }
{
    text.len().saturating_sub(rest.len())
}

// Returns what comes before the first of these characters.
pub(crate) fn first_part(mark: char, text: &str) -> &str
    requires { mark < 128 }
    ensures { result.now ≡ first_part mark text.now }
{
    match text.split_once(mark) {
        Some((part, _)) => part,
        None => text,
    }
}
