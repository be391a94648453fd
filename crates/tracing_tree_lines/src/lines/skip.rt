//! Skips values.

ghost use Rattle.std.specs.Prelude.{◌≡◌, ◌∷◌, None, MatchResult};
ghost use Rattle.json.specs.Json as json;
ghost use Rattle.json.specs.Reads.{token_of};
ghost use Rattle.json.specs.Token.{begin_array, begin_object};
ghost use Rattle.tracing_tree_lines.specs.Lines.Taken.{IsValueTaken};

use super::number::number_part;
use json::{Invalid, Reader, Token};

// How deep arrays and objects may be nested in the value at a key. A line may be nested 127 deep.
pub(super) const MEMBER_DEPTH: usize = 126;

// How deep they may be nested in an item of an array at a key.
pub(super) const ITEM_DEPTH: usize = 125;

// Skips the rest of a value whose first token was read. Arrays and objects may be nested `depth`
// deep in it, counting the value itself. `is_whole` becomes false if a number in it isn't a whole
// number of 64 bits.
#[cycle(skip)]
pub(super) fn skip_rest(
    reader: &mut Reader<'_>,
    first: Token<'_>,
    depth: usize,
    is_whole: &mut bool,
) -> Result<(), Invalid>
    ensures { MatchResult result
        (λ _. IsValueTaken depth (token_of first.entry ∷ reader.old) reader.new is_whole.old
        is_whole.new)
        (λ _. json.value depth (token_of first.entry ∷ reader.old) ≡ None) }
{
    match first {
        Token::Null | Token::String(_) | Token::Bool(_) => Ok(()),
        Token::Number(text) => {
            if number_part(text).is_none() {
                *is_whole = false;
            }
            Ok(())
        }
        Token::BeginArray => skip_items(reader, depth, is_whole),
        Token::BeginObject => skip_members(reader, depth, is_whole),
        Token::EndObject | Token::EndArray | Token::Key(_) | Token::Bad => Err(Invalid),
    }
}

// Like `skip_rest`, for an array whose `[` was read.
#[cycle(skip)]
fn skip_items(reader: &mut Reader<'_>, depth: usize, is_whole: &mut bool) -> Result<(), Invalid>
    ensures { MatchResult result
        (λ _. IsValueTaken depth (begin_array ∷ reader.old) reader.new is_whole.old is_whole.new)
        (λ _. json.value depth (begin_array ∷ reader.old) ≡ None) }
{
    let inner = depth.checked_sub(1).ok_or(Invalid)?;
    while !reader.take_end_array() {
        let first = reader.next().ok_or(Invalid)?;
        skip_rest(reader, first, inner, is_whole)?;
    }
    Ok(())
}

// Like `skip_rest`, for an object whose `{` was read.
#[cycle(skip)]
fn skip_members(reader: &mut Reader<'_>, depth: usize, is_whole: &mut bool) -> Result<(), Invalid>
    ensures { MatchResult result
        (λ _. IsValueTaken depth (begin_object ∷ reader.old) reader.new is_whole.old is_whole.new)
        (λ _. json.value depth (begin_object ∷ reader.old) ≡ None) }
{
    let inner = depth.checked_sub(1).ok_or(Invalid)?;
    while let Some(_) = reader.next_key()? {
        let first = reader.next().ok_or(Invalid)?;
        skip_rest(reader, first, inner, is_whole)?;
    }
    Ok(())
}
