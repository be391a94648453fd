//! Prefixes of strings.

ghost use Rattle.std.specs.Char.{encode_utf8};
ghost use Rattle.std.specs.List.{repeat, starts_with};
ghost use Rattle.std.specs.Prelude.{◌≡◌, ◌==◌, ◌+◌, ◌∷◌, [], None, Some, encode_utf8_all, length, MatchOption};
ghost use Rattle.tracing_tree_drawing.specs.Rows.Line.{after_front, start_spaces};
ghost use Rattle.tracing_tree_drawing.specs.Rows.RowText.{begins_with_any, drawing_marks, is_bare_text, without_start_spaces};
ghost use Rattle.tracing_tree_drawing.specs.Format.Picture.{has_line_end};

// Returns what follows this prefix, if the string has it.
pub(super) fn strip_prefix<'a>(text: &'a str, front: &str) -> Option<&'a str>
    ensures { MatchOption result (after_front front.now text.now ≡ None)
        (λ x. after_front front.now text.now ≡ Some x.now) }
{
    text.strip_prefix(front)
}

// Returns what follows `count` copies of the piece, if the string starts with them.
pub(super) fn after_repeated<'a>(text: &'a str, piece: &str, count: usize) -> Option<&'a str>
    ensures { MatchOption result (after_front (repeat count piece.now) text.now ≡ None)
        (λ x. after_front (repeat count piece.now) text.now ≡ Some x.now) }
{
    let mut rest = text;
    for done in 0..count {
        rest = strip_prefix(rest, piece)?;
    }
    Some(rest)
}

// Returns what follows this character, if the string starts with it.
pub(super) fn after_character(text: &str, character: char) -> Option<&str>
    ensures { MatchOption result (after_front (encode_utf8 character) text.now ≡ None)
        (λ x. after_front (encode_utf8 character) text.now ≡ Some x.now) }
{
    text.strip_prefix(character)
}

// Removes the spaces at the start.
pub(super) fn without_spaces(text: &str) -> &str
    ensures rest { result.now ≡ without_start_spaces text.now }
    ensures count { length text.now ≡ start_spaces text.now + length result.now }
{
    text.trim_start_matches(" ")
}

// Returns whether the string contains a line end.
pub(super) fn has_line_end(text: &str) -> bool
    ensures { result ≡ has_line_end text.now }
{
    text.as_bytes().contains(&b'\n')
}

// Returns whether the string has a first character other than a space, and no row with a frame
// starts with it.
pub(super) fn is_bare_text(text: &str) -> bool
    ensures { result ≡ is_bare_text text.now }
{
    let rest = without_spaces(text);
    !rest.is_empty() && !begins_with_mark(rest)
}

// Returns whether the string starts with a character that frames start with.
fn begins_with_mark(text: &str) -> bool
    ensures { result ≡ begins_with_any drawing_marks text.now }
{
    ['┐', '┘', '└', '┌', '├', '│']
        .iter()
        .any(|mark| begins_with(text, *mark))
}

// Returns whether the string starts with this character.
fn begins_with(text: &str, character: char) -> bool
    ensures { result ≡ starts_with (λ x y. x == y) text.now (encode_utf8_all (character ∷ [])) }
{
    after_character(text, character).is_some()
}
