//! Lengths of time.

ghost use Rattle.std.specs.Prelude.{◌≡◌, ◌≤◌};
ghost use Rattle.ttree_tap.specs.Length.{after_three, decimal_milliseconds, digit_in, milliseconds, millionths, nanoseconds, thousandths};

use crate::strings::{is_digits, whole_of};

// Returns the nanoseconds of a number of milliseconds, without a sign or an exponent.
pub(crate) fn milliseconds(text: &str) -> Option<u64>
    ensures { result ≡ milliseconds text.now }
{
    match text.split_once('.') {
        Some((whole, part)) => decimal_milliseconds(whole, part),
        None => nanoseconds(whole_of(text)?, 0),
    }
}

// Like `milliseconds`, for a number with a point, given its parts before and after the point.
fn decimal_milliseconds(whole: &str, part: &str) -> Option<u64>
    ensures { result ≡ decimal_milliseconds whole.now part.now }
{
    if !is_digits(part) {
        return None;
    }
    nanoseconds(whole_of(whole)?, millionths(part.as_bytes()))
}

// Returns the nanoseconds of milliseconds and of millionths of one, if a u64 holds them.
fn nanoseconds(whole: u64, part: u64) -> Option<u64>
    ensures { result ≡ nanoseconds whole part }
{
    whole.checked_mul(1_000_000)?.checked_add(part)
}

// Returns the millionths that the digits after a point write; those after the sixth are cut off.
fn millionths(digits: &[u8]) -> u64
    ensures value { result ≡ millionths digits.now }
    ensures small { result ≤ 40_000_000 }
{
    thousandths(digits) * 1000 + thousandths(after_three(digits))
}

// Returns the thousandths that the first three digits after a point write.
fn thousandths(digits: &[u8]) -> u64
    ensures value { result ≡ thousandths digits.now }
    ensures small { result ≤ 30_000 }
{
    match digits {
        [] => 0,
        [a] => digit_in(*a) * 100,
        [a, b] => digit_in(*a) * 100 + digit_in(*b) * 10,
        [a, b, c, ..] => digit_in(*a) * 100 + digit_in(*b) * 10 + digit_in(*c),
    }
}

// Returns the digits after the first three.
fn after_three(digits: &[u8]) -> &[u8]
    ensures { result.now ≡ after_three digits.now }
{
    match digits {
        [_, _, _, rest @ ..] => rest,
        _ => &[],
    }
}

// Returns what a digit counts.
fn digit_in(byte: u8) -> u64
    ensures value { result ≡ digit_in byte }
    ensures small { result ≤ 255 }
{
    u64::from(byte.saturating_sub(b'0'))
}
