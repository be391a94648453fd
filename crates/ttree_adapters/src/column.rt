//! The parts of a column of a fixed width.

ghost use Rattle.std.specs.Prelude.{◌≡◌, ◌++◌, OnOk, replicate, string_bytes};
ghost use Rattle.std.specs.Str.{chars};
ghost use Rattle.ttree_adapters.specs.Column.{columns_left, pair, three};

use std::alloc::AllocError;

// Appends this many spaces.
pub(crate) fn push_spaces(out: &mut String, count: usize) -> Result<(), AllocError>
    ensures { OnOk result (string_bytes out.new ≡ string_bytes out.old ++ replicate count 32) }
{
    for _ in 0..count {
        out.push(' ')?;
    }
    Ok(())
}

// Appends a number below 100 in two digits.
pub(crate) fn push_pair(out: &mut String, number: u64) -> Result<(), AllocError>
    ensures { OnOk result (string_bytes out.new ≡ string_bytes out.old ++ pair number) }
{
    let tens = number / 10;
    let ones = number % 10;
    write!(out, "{tens}{ones}")
}

// Appends a number below 1000 in three digits.
pub(crate) fn push_three(out: &mut String, number: u64) -> Result<(), AllocError>
    ensures { OnOk result (string_bytes out.new ≡ string_bytes out.old ++ three number) }
{
    let hundreds = number / 100;
    let tens = number / 10 % 10;
    let ones = number % 10;
    write!(out, "{hundreds}{tens}{ones}")
}

// Returns how many of these columns a string leaves.
pub(crate) fn columns_left(columns: usize, text: &str) -> usize
    ensures { result ≡ columns_left columns (chars text.now) }
{
    let mut left = columns;
    for _c in text.chars() {
        left = left.saturating_sub(1);
    }
    left
}
