//! Appends elapsed times.

ghost use Rattle.std.specs.Prelude.{◌≡◌, ◌≤◌, Some, string_bytes};
ghost use Rattle.tracing_tree_time.specs.Clock.{dimmed_pair, elapsed_text, hundredths_text, nearest_count};
ghost use Rattle.tracing_tree_time.specs.Timers.{AppendsStated, AsksForText};
ghost use Rattle.tracing_tree_time.specs.Pieces.{pieces_text, ShowsWhole, ShowsHundredths};

use super::TimeFault;
use super::pieces::{Piece, append};

/// Appends an elapsed time in nanoseconds, dimmed if `ansi` is on. It has two decimals in higher
/// precision, otherwise whole units.
///
/// # Errors
///
/// `Memory` if an allocation fails. `out` is unchanged then.
pub(super) fn style_timestamp(
    ansi: bool,
    higher_precision: bool,
    elapsed_ns: u64,
    out: &mut String,
) -> Result<(), TimeFault>
    ensures stated { AppendsStated (Some (elapsed_text higher_precision ansi elapsed_ns))
        (string_bytes out.old) (string_bytes out.new) result }
    ensures memory { AsksForText (Some (elapsed_text higher_precision ansi elapsed_ns)) result }
{
    if higher_precision {
        let (hundredths, unit) = hundredths_in_unit(elapsed_ns);
        append_dimmed(out, ansi, &decimal_pieces(hundredths), unit)
    } else {
        let (whole, unit) = whole_in_unit(elapsed_ns);
        append_dimmed(out, ansi, &[Piece::right(3, whole)], unit)
    }
}

// Appends a number and a unit. If `ansi` is on, each is dimmed separately. If an allocation fails,
// `out` is unchanged.
fn append_dimmed(
    out: &mut String,
    ansi: bool,
    number: &[Piece],
    unit: &'static str,
) -> Result<(), TimeFault>
    ensures { AppendsStated (Some (dimmed_pair ansi (pieces_text number.now) unit.now))
        (string_bytes out.old) (string_bytes out.new) result }
{
    let unit = Piece::Text(unit);
    if !ansi {
        return append(out, &[number, &[unit]]);
    }
    let start = Piece::Text("\x1b[2m");
    let between = Piece::Text("\x1b[0m\x1b[2m");
    let end = Piece::Text("\x1b[0m");
    append(out, &[&[start], number, &[between, unit, end]])
}

// Returns the time with its unit: whole milliseconds below a second, whole seconds below a minute,
// otherwise whole minutes.
fn whole_in_unit(elapsed_ns: u64) -> (u64, &'static str)
    ensures { ShowsWhole elapsed_ns result.0 result.1.now }
{
    let milliseconds = elapsed_ns / 1_000_000;
    let seconds = elapsed_ns / 1_000_000_000;
    if milliseconds < 1000 {
        (milliseconds, "ms")
    } else if seconds < 60 {
        (seconds, "s ")
    } else {
        (seconds / 60, "m ")
    }
}

// Returns the time in hundredths, with its unit: of a microsecond below a millisecond, of a
// millisecond below a second, otherwise of a second.
fn hundredths_in_unit(elapsed_ns: u64) -> (u64, &'static str)
    ensures { ShowsHundredths elapsed_ns result.0 result.1.now }
{
    if elapsed_ns < 1_000_000 {
        (nearest_count(10, elapsed_ns), "μs")
    } else if elapsed_ns < 1_000_000_000 {
        (nearest_count(10_000, elapsed_ns), "ms")
    } else {
        (nearest_count(10_000_000, elapsed_ns), "s ")
    }
}

// Returns the nearest whole number of units. Of two equally near, it is the even one.
fn nearest_count(unit: u64, elapsed_ns: u64) -> u64
    requires low { 2 ≤ unit }
    requires high { unit ≤ 10_000_000 }
    ensures { result ≡ nearest_count unit elapsed_ns }
{
    let count = elapsed_ns / unit;
    let twice_rest = elapsed_ns % unit * 2;
    if twice_rest < unit || (twice_rest == unit && count % 2 == 0) {
        count
    } else {
        count + 1
    }
}

// Returns a space, and a number with two decimals.
fn decimal_pieces(hundredths: u64) -> [Piece; 4]
    ensures { pieces_text result ≡ hundredths_text hundredths }
{
    [
        Piece::Text(" "),
        Piece::number(hundredths / 100),
        Piece::Text("."),
        Piece::digits(2, hundredths % 100),
    ]
}
