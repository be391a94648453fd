//! Strings of a document decoded.

ghost use Rattle.std.specs.Prelude.{◌≡◌, ◌++◌, ◌<◌, ◌≤◌, IfOk, OnOk, string_bytes};
ghost use Rattle.xml.specs.Decoded.{attribute_decoded, cdata_decoded, char_of, decoded, digit_of, entity, line_end, number_of, numbered, reference, special, text_decoded};

use crate::cut::{Until, after_mark, cut};
use std::alloc::AllocError;

/// Appends a run of content, decoded: its references are replaced, and its lines end with `\n`.
///
/// A reference is unchanged if XML doesn't define its entity, or if its number isn't that of a
/// character.
///
/// # Errors
///
/// `AllocError` if an allocation fails.
pub fn push_text(out: &mut String, run: &str) -> Result<(), AllocError>
    ensures { OnOk result
        (string_bytes out.new ≡ string_bytes out.old ++ text_decoded run.now) }
{
    push_decoded(out, Until::Content, run)
}

/// Appends the value of an attribute, decoded like content. A tab or a line end is a space.
///
/// # Errors
///
/// `AllocError` if an allocation fails.
pub fn push_attribute(out: &mut String, value: &str) -> Result<(), AllocError>
    ensures { OnOk result
        (string_bytes out.new ≡ string_bytes out.old ++ attribute_decoded value.now) }
{
    push_decoded(out, Until::Value, value)
}

/// Appends a part of a CDATA section: its lines end with `\n`.
///
/// # Errors
///
/// `AllocError` if an allocation fails.
pub fn push_cdata(out: &mut String, part: &str) -> Result<(), AllocError>
    ensures { OnOk result
        (string_bytes out.new ≡ string_bytes out.old ++ cdata_decoded part.now) }
{
    push_decoded(out, Until::Verbatim, part)
}

// Appends a string, decoded. Each turn reads at least one byte, so as many turns as bytes are
// enough.
fn push_decoded(out: &mut String, until: Until, text: &str) -> Result<(), AllocError>
    ensures { OnOk result
        (string_bytes out.new ≡ string_bytes out.old ++ decoded until text.now) }
{
    let mut rest = text;
    for _turn in 0..text.len() {
        if rest.is_empty() {
            return Ok(());
        }
        let (plain, mark) = cut(rest, until);
        out.push_str(plain)?;
        rest = push_special(out, until, mark)?;
    }
    Ok(())
}

// Appends what the special characters at the start mean, and returns what follows them.
fn push_special<'a>(out: &mut String, until: Until, text: &'a str) -> Result<&'a str, AllocError>
    ensures pushed { OnOk result
        (string_bytes out.new ≡ string_bytes out.old ++ (special until text.now).0) }
    ensures rest { IfOk result (λ rest. rest.now ≡ (special until text.now).1) }
{
    if let Some(rest) = after_mark(text, "&") {
        push_reference(out, rest)
    } else if let Some(rest) = after_mark(text, "\r\n") {
        out.push_str(line_end(until))?;
        Ok(rest)
    } else if let Some(rest) = after_mark(text, "\r") {
        out.push_str(line_end(until))?;
        Ok(rest)
    } else if let Some(rest) = after_mark(text, "\n") {
        out.push_str(line_end(until))?;
        Ok(rest)
    } else if let Some(rest) = after_mark(text, "\t") {
        out.push_str(" ")?;
        Ok(rest)
    } else {
        Ok("")
    }
}

// Returns what a line end is read as.
fn line_end(until: Until) -> &'static str
    ensures { result.now ≡ line_end until }
{
    match until {
        Until::Value => " ",
        _ => "\n",
    }
}

// Appends what a reference means, whose `&` comes before this string.
fn push_reference<'a>(out: &mut String, text: &'a str) -> Result<&'a str, AllocError>
    ensures pushed { OnOk result
        (string_bytes out.new ≡ string_bytes out.old ++ (reference text.now).0) }
    ensures rest { IfOk result (λ rest. rest.now ≡ (reference text.now).1) }
{
    let (name, end) = cut(text, Until::Reference);
    let Some(rest) = after_mark(end, ";") else {
        out.push_str("&")?;
        return Ok(text);
    };
    match entity(name) {
        Some(character) => {
            out.push(character)?;
            Ok(rest)
        }
        None => {
            out.push_str("&")?;
            Ok(text)
        }
    }
}

// Returns the character of a reference with this name.
fn entity(name: &str) -> Option<char>
    ensures { result ≡ entity name.now }
{
    match name {
        "lt" => Some('<'),
        "gt" => Some('>'),
        "amp" => Some('&'),
        "quot" => Some('"'),
        "apos" => Some('\''),
        _ => numbered(name),
    }
}

// Returns the character of a number, as `#65` or `#x41`.
fn numbered(name: &str) -> Option<char>
    ensures { result ≡ numbered name.now }
{
    if let Some(digits) = after_mark(name, "#x") {
        char_of(number_of(16, digits.as_bytes())?)
    } else if let Some(digits) = after_mark(name, "#") {
        char_of(number_of(10, digits.as_bytes())?)
    } else {
        None
    }
}

fn char_of(number: u32) -> Option<char>
    ensures { result ≡ char_of number }
{
    char::from_u32(number)
}

// Returns the number that digits write, if a character may have it.
fn number_of(radix: u32, digits: &[u8]) -> Option<u32>
    requires { radix ≤ 16 }
    ensures { result ≡ number_of radix digits.now }
{
    if digits.is_empty() {
        return None;
    }
    let mut number = 0;
    let mut rest = digits;
    while let [digit, others @ ..] = rest {
        let digit = digit_of(*digit);
        if digit >= radix || number > 0x10_FFFF {
            return None;
        }
        number = number * radix + digit;
        rest = others;
    }
    Some(number)
}

// Returns the value of a digit, or 16 if it isn't one.
fn digit_of(byte: u8) -> u32
    ensures value { result ≡ digit_of byte }
    ensures small { result ≤ 16 }
{
    match byte {
        b'0'..=b'9' => u32::from(byte - b'0'),
        b'a'..=b'f' => u32::from(byte - b'a') + 10,
        b'A'..=b'F' => u32::from(byte - b'A') + 10,
        _ => 16,
    }
}
