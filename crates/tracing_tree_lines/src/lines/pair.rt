//! Pairs of strings, which are fields.

ghost use Rattle.std.specs.Prelude.{◌≡◌, None, MatchResult, option_map};
ghost use Rattle.json.specs.Json as json;
ghost use Rattle.json.specs.Reads.{skip_items};
ghost use Rattle.serde_json.specs.Data.{Data, Items, item, no_items};
ghost use Rattle.serde_json.specs.Find.{as_str};
ghost use Rattle.tracing_tree_lines.specs.Lines.Taken.{pair_with, IsItemTaken, IsPairTaken, IsTextTaken};

use super::skip::{ITEM_DEPTH, skip_rest};
use json::{Invalid, Reader, Token};
use tracing_tree_layer::parts::FieldTexts;

// The items of an array so far, as long as it may be a pair of strings.
#[derive(Clone, Copy)]
enum Texts<'a> {
    None,
    One(&'a str),
    Two(&'a str, &'a str),
    // The items aren't the start of a pair.
    Other,
}

impl<'a> Texts<'a> {
    // Adds one more item: its string, or `None` if it is another value.
    fn with(self, text: Option<&'a str>) -> Texts<'a>
        ensures { (value : Data) (rest : Items) → option_map (λ t. t.now) text.entry ≡ as_str value
            → pair_with result rest ≡ pair_with self.entry (item value rest) }
    {
        match (self, text) {
            (Texts::None, Some(name)) => Texts::One(name),
            (Texts::One(name), Some(value)) => Texts::Two(name, value),
            _ => Texts::Other,
        }
    }

    // Returns the pair, if these are all items.
    fn pair(self) -> Option<FieldTexts<'a>>
        ensures { result ≡ pair_with self.entry no_items }
    {
        match self {
            Texts::Two(name, value) => Some(FieldTexts { name, value }),
            _ => None,
        }
    }
}

// Reads the next value, and returns its strings if it is an array of two strings. `is_whole`
// becomes false if a number in it isn't a whole number of 64 bits, also in `read_texts` and
// `read_text`.
pub(super) fn read_pair<'a>(
    reader: &mut Reader<'a>,
    is_whole: &mut bool,
) -> Result<Option<FieldTexts<'a>>, Invalid>
    ensures { MatchResult result
        (IsItemTaken reader.old reader.new is_whole.old is_whole.new)
        (λ _. json.value 125 reader.old ≡ None) }
{
    match reader.next().ok_or(Invalid)? {
        Token::BeginArray => read_texts(reader, is_whole),
        first => {
            skip_rest(reader, first, ITEM_DEPTH, is_whole)?;
            Ok(None)
        }
    }
}

// Reads the rest of an array after its `[`, and returns its strings. `None` if it isn't an array of
// two strings.
fn read_texts<'a>(
    reader: &mut Reader<'a>,
    is_whole: &mut bool,
) -> Result<Option<FieldTexts<'a>>, Invalid>
    ensures { MatchResult result
        (IsPairTaken reader.old reader.new is_whole.old is_whole.new)
        (λ _. skip_items 124 reader.old ≡ None) }
{
    let mut texts = Texts::None;
    while !reader.take_end_array() {
        texts = texts.with(read_text(reader, is_whole)?);
    }
    Ok(texts.pair())
}

// Reads the next value, and returns its string. `None` if it is another value.
fn read_text<'a>(reader: &mut Reader<'a>, is_whole: &mut bool) -> Result<Option<&'a str>, Invalid>
    ensures { MatchResult result
        (λ text. IsTextTaken reader.old reader.new is_whole.old is_whole.new
        (option_map (λ s. s.now) text))
        (λ _. json.value 124 reader.old ≡ None) }
{
    match reader.next().ok_or(Invalid)? {
        Token::String(text) => Ok(Some(text)),
        first => {
            skip_rest(reader, first, ITEM_DEPTH - 1, is_whole)?;
            Ok(None)
        }
    }
}
