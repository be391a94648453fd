//! Reads the numbers of an element: whole numbers, and times in microseconds.

ghost use Rattle.std.specs.Prelude.{◌≡◌, ◌*◌, ◌^◌, ◌<◌, IfSome};
ghost use Rattle.std.specs.Str.{all_ascii_digits};
ghost use Rattle.ttree_chrome.specs.Number.{digit_in, digits_after, exponent_of, if_fits, integer_of, is_digits, length_of, microseconds_time, moved, moved_left, moved_right, scaled_decimal, scaled_of, small_nanoseconds, unsigned_of};

use ttree_source::marks::after_mark;

// The zero of a trace's clock. Times count from 2^63 ns before it, so that none is negative.
pub(crate) const ZERO: u64 = 1 << 63;

// Returns the time of a number of microseconds.
pub(crate) fn time_of(text: &str) -> Option<u64>
    ensures { result ≡ microseconds_time text.now }
{
    match after_mark(text, "-") {
        Some(size) => Some(ZERO - nanoseconds_of(size)?),
        None => Some(ZERO + nanoseconds_of(text)?),
    }
}

// Returns the nanoseconds for a number of microseconds, or 0 if it is negative.
pub(crate) fn length_of(text: &str) -> Option<u64>
    ensures { result ≡ length_of text.now }
{
    match after_mark(text, "-") {
        Some(size) => {
            nanoseconds_of(size)?;
            Some(0)
        }
        None => nanoseconds_of(text),
    }
}

// Returns the nanoseconds for a number of microseconds without a sign, if they are less than 2^63.
fn nanoseconds_of(text: &str) -> Option<u64>
    ensures value { result ≡ small_nanoseconds text.now }
    ensures small { IfSome result (λ n. n < 2 ^ 63) }
{
    let nanoseconds = unsigned_of(text)?;
    if nanoseconds < ZERO {
        Some(nanoseconds)
    } else {
        None
    }
}

// Returns the same, if they fit `u64`. Digits below a nanosecond are cut off.
fn unsigned_of(text: &str) -> Option<u64>
    ensures { result ≡ unsigned_of text.now }
{
    if let Some((number, exponent)) = text.split_once('e') {
        return scaled_of(number, exponent_of(exponent)?);
    }
    if let Some((number, exponent)) = text.split_once('E') {
        return scaled_of(number, exponent_of(exponent)?);
    }
    scaled_of(text, 0)
}

// Returns a whole number, if it fits `i128`.
pub(crate) fn integer_of(text: &str) -> Option<i128>
    ensures { result ≡ integer_of text.now }
{
    text.parse().ok()
}

fn exponent_of(text: &str) -> Option<i32>
    ensures { result ≡ exponent_of text.now }
{
    text.parse().ok()
}

// Returns the nanoseconds for a number of microseconds times a power of ten.
fn scaled_of(text: &str, exponent: i32) -> Option<u64>
    ensures { result ≡ scaled_of text.now exponent }
{
    let places = i64::from(exponent) + 3;
    match text.split_once('.') {
        Some((before, after)) => decimal_of(places, before, after),
        None => decimal_of(places, text, "0"),
    }
}

// Returns the number that the digits before and after a point encode, if the point moves by this
// many places to the right. Digits after it are cut off. `None` if it doesn't fit `u64`.
fn decimal_of(places: i64, before: &str, after: &str) -> Option<u64>
    ensures { result ≡ scaled_decimal places before.now after.now }
{
    if is_digits(before) && is_digits(after) {
        moved(places, before.as_bytes(), after.as_bytes())
    } else {
        None
    }
}

fn moved(places: i64, before: &[u8], after: &[u8]) -> Option<u64>
    ensures { result ≡ if_fits (moved places before.now after.now) }
{
    let count = places.unsigned_abs() as usize;
    if places < 0 {
        moved_left(count, before)
    } else {
        moved_right(count, before, after)
    }
}

// Returns the number that digits encode without the last `count`, if it fits `u64`.
fn moved_left(count: usize, digits: &[u8]) -> Option<u64>
    ensures { result ≡ if_fits (moved_left count digits.now) }
{
    let kept = digits.len().saturating_sub(count);
    digits_from(0, &digits[..kept])
}

// Returns the number that digits encode with `count` of those after the point, if it fits `u64`.
// Zeros take the place of those that are missing.
fn moved_right(count: usize, before: &[u8], after: &[u8]) -> Option<u64>
    ensures { result ≡ if_fits (moved_right count before.now after.now) }
{
    let taken = count.min(after.len());
    let number = digits_from(digits_from(0, before)?, &after[..taken])?;
    with_zeros(number, count - taken)
}

// Returns the number that digits encode after those of this number, if it fits `u64`.
fn digits_from(number: u64, digits: &[u8]) -> Option<u64>
    ensures { result ≡ if_fits (digits_after number digits.now) }
{
    let mut number = number;
    let mut rest = digits;
    while let [digit, others @ ..] = rest {
        number = number.checked_mul(10)?.checked_add(digit_in(*digit))?;
        rest = others;
    }
    Some(number)
}

// Returns a number with this many zeros after it, if it fits `u64`.
fn with_zeros(number: u64, count: usize) -> Option<u64>
    ensures { result ≡ if_fits (number * 10 ^ count) }
{
    if number == 0 {
        return Some(0);
    }
    let mut number = number;
    for _zero in 0..count {
        number = number.checked_mul(10)?;
    }
    Some(number)
}

// Returns the value of a digit.
fn digit_in(byte: u8) -> u64
    ensures { result ≡ digit_in byte }
{
    u64::from(byte.saturating_sub(b'0'))
}

// Returns whether a string has only digits, and at least one.
fn is_digits(text: &str) -> bool
    ensures { result ≡ is_digits text.now }
{
    !text.is_empty() && all_digits(text.as_bytes())
}

fn all_digits(bytes: &[u8]) -> bool
    ensures { result ≡ all_ascii_digits bytes.now }
{
    let mut rest = bytes;
    while let [byte, others @ ..] = rest {
        if !byte.is_ascii_digit() {
            return false;
        }
        rest = others;
    }
    true
}
