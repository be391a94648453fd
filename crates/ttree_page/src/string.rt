//! Strings in quotes.

ghost use Rattle.std.specs.Prelude.{◌≡◌, ◌++◌, ◌∷◌, [], ◌<◌, false, codes, OnOk, string_bytes, encode_utf8, flat_map};
ghost use Rattle.std.specs.Fmt.{digit_glyph};
ghost use Rattle.std.specs.List.{list_any};
ghost use Rattle.ttree_page.specs.Lines.{escaped_byte, hex_pair, in_quotes, is_escaped};
ghost use Rattle.tracing_tree_base.specs.Extended.{IsExtended};

use std::alloc::AllocError;

// Appends a string in quotes. After an error, a prefix of it may have been appended.
pub(crate) fn push_quoted(out: &mut String, text: &str) -> Result<(), AllocError>
    ensures ok { OnOk result (string_bytes out.new ≡ string_bytes out.old ++ in_quotes text.now) }
    ensures extended { IsExtended (string_bytes out.old) (string_bytes out.new) }
{
    out.push_str("\"")?;
    push_escaped(out, text)?;
    out.push_str("\"")
}

// Appends a string as it appears between quotes.
#[tactic(auto, using(crate::proofs::Unescaped::unescaped))]
pub(crate) fn push_escaped(out: &mut String, text: &str) -> Result<(), AllocError>
    ensures ok { OnOk result
        (string_bytes out.new ≡ string_bytes out.old ++ flat_map escaped_byte text.now) }
    ensures extended { IsExtended (string_bytes out.old) (string_bytes out.new) }
{
    if has_escaped(text) {
        push_with_escapes(out, text)
    } else {
        out.push_str(text)
    }
}

// Returns whether a byte of a string is escaped between quotes.
fn has_escaped(text: &str) -> bool
    ensures { result ≡ list_any is_escaped text.now }
{
    let mut rest = text.as_bytes();
    while let [byte, others @ ..] = rest {
        if is_escaped(*byte) {
            return true;
        }
        rest = others;
    }
    false
}

fn is_escaped(byte: u8) -> bool
    ensures { result ≡ is_escaped byte }
{
    byte == b'"' || byte == b'\\' || byte == b'<' || byte < b' '
}

fn push_with_escapes(out: &mut String, text: &str) -> Result<(), AllocError>
    ensures ok { OnOk result
        (string_bytes out.new ≡ string_bytes out.old ++ flat_map escaped_byte text.now) }
    ensures extended { IsExtended (string_bytes out.old) (string_bytes out.new) }
{
    for c in text.chars() {
        push_char(out, c)?;
    }
    Ok(())
}

// Appends a character as it appears between quotes.
fn push_char(out: &mut String, c: char) -> Result<(), AllocError>
    ensures ok { OnOk result
        (string_bytes out.new ≡ string_bytes out.old ++ flat_map escaped_byte (encode_utf8 c)) }
    ensures extended { IsExtended (string_bytes out.old) (string_bytes out.new) }
{
    match c {
        '"' => out.push_str("\\\""),
        '\\' => out.push_str("\\\\"),
        '\0'..='\u{1f}' | '<' => push_code(out, c as u8),
        _ => out.push(c),
    }
}

// Appends a character by its code.
fn push_code(out: &mut String, byte: u8) -> Result<(), AllocError>
    ensures ok { OnOk result
        (string_bytes out.new ≡ string_bytes out.old ++ codes "\\u00" ++ hex_pair byte) }
    ensures extended { IsExtended (string_bytes out.old) (string_bytes out.new) }
{
    out.push_str("\\u00")?;
    push_digit(out, byte / 16)?;
    push_digit(out, byte % 16)
}

// Appends a hexadecimal digit.
fn push_digit(out: &mut String, digit: u8) -> Result<(), AllocError>
    requires { digit < 16 }
    ensures ok { OnOk result
        (string_bytes out.new ≡ string_bytes out.old ++ digit_glyph false digit ∷ []) }
    ensures extended { IsExtended (string_bytes out.old) (string_bytes out.new) }
{
    out.push(char::from(if digit < 10 {
        b'0' + digit
    } else {
        b'a' - 10 + digit
    }))
}
