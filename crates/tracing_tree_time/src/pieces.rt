//! Texts of timers, made from pieces. They are appended whole or not at all, and allocate only for
//! the output.

ghost use Rattle.std.specs.Prelude.{◌≡◌, ◌<◌, ◌++◌, Some, OnOk, replicate, decimal, string_bytes};
ghost use Rattle.tracing_tree_time.specs.Timers.{AppendsStated};
ghost use Rattle.tracing_tree_base.specs.Extended.{IsExtended};
ghost use Rattle.tracing_tree_time.specs.Numbers.{digits_in, right_in};
ghost use Rattle.tracing_tree_time.specs.Pieces.{filled_in, piece_text, pieces_text, groups_text};

use super::TimeFault;
use std::alloc::AllocError;

/// A piece of a timer's string.
#[derive(Clone, Copy)]
pub(super) enum Piece {
    // A string, unchanged.
    Text(&'static str),

    // A number in at least `places` digits.
    Digits { number: u64, places: usize },

    // A number, right-aligned in `places` places.
    Right { number: u64, places: usize },
}

impl Piece {
    /// Returns a number in at least `places` digits, with leading zeros.
    pub(super) fn digits(places: usize, number: u64) -> Piece
        ensures { piece_text result ≡ digits_in places number }
    {
        Piece::Digits { number, places }
    }

    /// Returns a number, right-aligned with spaces in `places` places.
    pub(super) fn right(places: usize, number: u64) -> Piece
        ensures { piece_text result ≡ right_in places (decimal number) }
    {
        Piece::Right { number, places }
    }

    /// Returns a number.
    #[tactic(auto, using(crate::proofs::Numbers::digits_in_one))]
    pub(super) fn number(number: u64) -> Piece
        ensures { piece_text result ≡ decimal number }
    {
        Piece::Digits { number, places: 1 }
    }
}

/// Appends the pieces of all groups.
///
/// # Errors
///
/// `Memory` if an allocation fails. `out` is unchanged then.
#[tactic(auto, using(tracing_tree_base::proofs::Extended::cuts_back))]
pub(super) fn append(out: &mut String, groups: &[&[Piece]]) -> Result<(), TimeFault>
    ensures { AppendsStated (Some (groups_text groups.now))
        (string_bytes out.old) (string_bytes out.new) result }
{
    let length = out.len();
    match push_groups(out, groups) {
        Ok(()) => Ok(()),
        Err(_) => {
            out.truncate(length);
            Err(TimeFault::Memory)
        }
    }
}

// Appends the pieces of all groups. If an allocation fails, a part of them may be appended.
fn push_groups(out: &mut String, groups: &[&[Piece]]) -> Result<(), AllocError>
    ensures ok { OnOk result
        (string_bytes out.new ≡ string_bytes out.old ++ groups_text groups.now) }
    ensures extended { IsExtended (string_bytes out.old) (string_bytes out.new) }
{
    for pieces in groups {
        push_pieces(out, pieces)?;
    }
    Ok(())
}

// Appends the pieces. If an allocation fails, a part of them may be appended.
fn push_pieces(out: &mut String, pieces: &[Piece]) -> Result<(), AllocError>
    ensures ok { OnOk result
        (string_bytes out.new ≡ string_bytes out.old ++ pieces_text pieces.now) }
    ensures extended { IsExtended (string_bytes out.old) (string_bytes out.new) }
{
    for piece in pieces {
        push_piece(out, *piece)?;
    }
    Ok(())
}

// Appends the piece. If an allocation fails, a part of it may be appended.
fn push_piece(out: &mut String, piece: Piece) -> Result<(), AllocError>
    ensures ok { OnOk result (string_bytes out.new ≡ string_bytes out.old ++ piece_text piece) }
    ensures extended { IsExtended (string_bytes out.old) (string_bytes out.new) }
{
    match piece {
        Piece::Text(text) => out.push_str(text),
        Piece::Digits { number, places } => push_number(out, '0', places, number),
        Piece::Right { number, places } => push_number(out, ' ', places, number),
    }
}

// Appends a number, right-aligned in `places` places with the character `fill`. If an allocation
// fails, a part of it may be appended.
fn push_number(out: &mut String, fill: char, places: usize, number: u64) -> Result<(), AllocError>
    requires { fill < 128 }
    ensures ok { OnOk result (string_bytes out.new
        ≡ string_bytes out.old ++ filled_in fill places (decimal number)) }
    ensures extended { IsExtended (string_bytes out.old) (string_bytes out.new) }
{
    let before = places.saturating_sub(1);
    if number < 10 {
        push_fill(out, fill, before)?;
    } else {
        push_number(out, fill, before, number / 10)?;
    }
    out.push(char::from(b'0' + (number % 10) as u8))
}

// Appends the character `times` times. If an allocation fails, fewer may be appended.
fn push_fill(out: &mut String, fill: char, times: usize) -> Result<(), AllocError>
    requires { fill < 128 }
    ensures ok { OnOk result (string_bytes out.new ≡ string_bytes out.old ++ replicate times fill) }
    ensures extended { IsExtended (string_bytes out.old) (string_bytes out.new) }
{
    for _ in 0..times {
        out.push(fill)?;
    }
    Ok(())
}
