//! Pieces of a document.

ghost use Rattle.std.specs.Prelude.{◌≡◌, take, drop, option_map};
ghost use Rattle.std.specs.List.{position_or_len};
ghost use Rattle.xml.specs.Cut.{after_blanks, after_mark, blank_count, ends_at, is_blank, without_end};

// What a piece of a document ends at.
#[derive(Clone, Copy, Debug, PartialEq, Eq)]
pub(crate) enum Until {
    // `<`
    Markup,

    // `>`
    Greater,

    // What may come after an element's name.
    Name,

    // What may come after an attribute's name.
    AttributeName,

    DoubleQuote,

    SingleQuote,

    // What counts in a document type declaration.
    Doctype,

    // What counts in its internal subset.
    Subset,

    // What may come after a reference.
    Reference,

    // Bytes that aren't read unchanged: a carriage return, and in content and in attributes also a
    // reference.
    Verbatim,

    Content,

    // In attributes tabs and line ends too.
    Value,
}

// Returns whether such a piece ends at this byte.
fn ends_at(until: Until, byte: u8) -> bool
    ensures value { result ≡ ends_at until byte }
{
    match until {
        Until::Markup => byte == b'<',
        Until::Greater => byte == b'>',
        Until::Name => byte == b'>' || byte == b'/' || is_blank(byte),
        Until::AttributeName => byte == b'>' || byte == b'=' || is_blank(byte),
        Until::DoubleQuote => byte == b'"',
        Until::SingleQuote => byte == b'\'',
        Until::Doctype => byte == b'>' || byte == b'[' || byte == b'"' || byte == b'\'',
        Until::Subset => byte == b'<' || byte == b']' || byte == b'"' || byte == b'\'',
        Until::Reference => byte == b';' || byte == b'&' || is_blank(byte),
        Until::Verbatim => byte == b'\r',
        Until::Content => byte == b'&' || byte == b'\r',
        Until::Value => byte == b'&' || byte == b'\r' || byte == b'\n' || byte == b'\t',
    }
}

// Returns whether XML has a byte as a blank.
fn is_blank(byte: u8) -> bool
    ensures { result ≡ is_blank byte }
{
    byte == b' ' || byte == b'\t' || byte == b'\n' || byte == b'\r'
}

// Returns where the first piece of this kind ends.
fn length_until(bytes: &[u8], until: Until) -> usize
    ensures { result ≡ position_or_len (ends_at until) bytes.now }
{
    let mut count = 0;
    let mut rest = bytes;
    while let [byte, others @ ..] = rest {
        if ends_at(until, *byte) {
            break;
        }
        count += 1;
        rest = others;
    }
    count
}

// Splits a string where its first piece of this kind ends.
pub(crate) fn cut(text: &str, until: Until) -> (&str, &str)
    ensures before { result.0.now ≡ take (position_or_len (ends_at until) text.now) text.now }
    ensures after { result.1.now ≡ drop (position_or_len (ends_at until) text.now) text.now }
{
    text.split_at(length_until(text.as_bytes(), until))
}

// Returns how many blanks come first.
fn blank_count(bytes: &[u8]) -> usize
    ensures { result ≡ blank_count bytes.now }
{
    let mut count = 0;
    let mut rest = bytes;
    while let [byte, others @ ..] = rest {
        if !is_blank(*byte) {
            break;
        }
        count += 1;
        rest = others;
    }
    count
}

// Returns what comes after the blanks at the front.
pub(crate) fn after_blanks(text: &str) -> &str
    ensures { result.now ≡ after_blanks text.now }
{
    let (_, rest) = text.split_at(blank_count(text.as_bytes()));
    rest
}

// Returns what follows this prefix of a string.
pub(crate) fn after_mark<'a>(text: &'a str, mark: &str) -> Option<&'a str>
    ensures { option_map (λ s. s.now) result ≡ after_mark mark.now text.now }
{
    text.strip_prefix(mark)
}

// Removes this suffix from a string.
pub(crate) fn without_end<'a>(text: &'a str, mark: &str) -> Option<&'a str>
    ensures { option_map (λ s. s.now) result ≡ without_end mark.now text.now }
{
    text.strip_suffix(mark)
}
