//! Numbers of 64 bits.

ghost use Rattle.std.specs.Prelude.{◌≡◌, ◌==◌, ◌<◌, length, slice_index, true, false, IsTrue, option_and_then};
ghost use Rattle.serde_json.specs.Find.{as_i64, as_u64};
ghost use Rattle.serde_json.specs.Read.{number_from};
ghost use Rattle.tracing_tree_lines.specs.Lines.Parts.{IsNumberPart};

use super::part::Part;
use fast_float::Numeral;

// Returns the part for a number in this form. `None` if it isn't a whole number of 64 bits.
#[inline(always)]
pub(super) fn number_part<'a>(text: &str) -> Option<Part<'a>>
    ensures { IsNumberPart text.now result }
{
    let bytes = text.as_bytes();
    if has_minus(bytes) {
        let number = negative_number(&Numeral::scan(&bytes[1..]))?;
        return Some(Part::Negative(number));
    }
    let number = whole_number(&Numeral::scan(bytes))?;
    Some(Part::Whole(number))
}

// Returns the number after a minus. `None` if it isn't whole or is out of range. `-0` is a float.
fn negative_number(numeral: &Numeral<'_>) -> Option<i64>
    ensures { result ≡ option_and_then as_i64 (number_from true numeral.now) }
{
    match numeral.to_i64(true)? {
        0 => None,
        number => Some(number),
    }
}

// Returns the number without a minus. `None` if it isn't whole or is out of range.
fn whole_number(numeral: &Numeral<'_>) -> Option<u64>
    ensures { result ≡ option_and_then as_u64 (number_from false numeral.now) }
{
    numeral.to_u64()
}

// Returns whether a minus comes first.
fn has_minus(bytes: &[u8]) -> bool
    ensures value { result ≡ (slice_index bytes.now 0 == 45) }
    ensures some { IsTrue result → 0 < length bytes.now }
{
    !bytes.is_empty() && bytes[0] == b'-'
}
