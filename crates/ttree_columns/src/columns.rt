//! The first characters of a line, as many as fit in some columns.

ghost use Rattle.std.specs.Prelude.{◌≡◌, ◌+◌, ◌++◌, ◌≤◌, IfOk, OnOk, string_bytes};
ghost use Rattle.std.specs.Str.{chars, encode_utf8_all};
ghost use Rattle.ttree_columns.specs.Columns.{column_after, columns, fitting, is_wider, past, start};

use std::alloc::AllocError;
use unicode_width::UnicodeWidthChar;

const ESCAPE: char = '\u{1b}';

// A place in a line.
#[derive(Clone, Copy)]
struct Place {
    column: usize,
    // Whether it is in a sequence that switches colours.
    is_in_escape: bool,
}

const START: Place = Place {
    column: 0,
    is_in_escape: false,
};

/// Returns whether a line takes more than this many columns.
pub fn is_wider(line: &str, width: usize) -> bool
    ensures { result ≡ is_wider width start (chars line.now) }
{
    let mut place = START;
    for c in line.chars() {
        let taken = columns(place, c);
        if taken > width - place.column {
            return true;
        }
        place = past(place, c, taken);
    }
    false
}

/// Appends the first characters of a line, as many as take fewer columns than `width`. Returns how
/// many columns they take.
///
/// # Errors
///
/// `AllocError` if an allocation fails. Then some of the characters may have been appended.
pub fn push_fitting(out: &mut String, line: &str, width: usize) -> Result<usize, AllocError>
    ensures text { OnOk result (string_bytes out.new
        ≡ string_bytes out.old ++ encode_utf8_all (fitting width start (chars line.now))) }
    ensures column { IfOk result
        (λ column. column ≡ column_after start (fitting width start (chars line.now))) }
{
    let mut place = START;
    for c in line.chars() {
        let taken = columns(place, c);
        if taken >= width - place.column {
            return Ok(place.column);
        }
        out.push(c)?;
        place = past(place, c, taken);
    }
    Ok(place.column)
}

// Returns how many columns a character takes at this place.
fn columns(place: Place, c: char) -> usize
    ensures { result ≡ columns place c }
{
    match c {
        _ if place.is_in_escape => 0,
        ESCAPE => 0,
        '\t' => 8 - place.column % 8,
        _ => c.width().unwrap_or(0),
    }
}

// Returns the place after a character that takes `taken` columns.
fn past(place: Place, c: char, taken: usize) -> Place
    requires taken { taken ≡ columns place c }
    requires fits { place.column + taken ≤ usize.MAX }
    ensures { result ≡ past place c }
{
    Place {
        column: place.column + taken,
        is_in_escape: if place.is_in_escape {
            c != 'm'
        } else {
            c == ESCAPE
        },
    }
}
