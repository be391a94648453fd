//! When an object of a service's log happened.

ghost use Rattle.std.specs.Prelude.{◌≡◌, ◌≤◌, Some, is_some, option_map, pos};
ghost use Rattle.std.specs.Str.{all_ascii_digits};
ghost use Rattle.ttree_source.specs.Moments.{moment_at, moment_of};
ghost use Rattle.ttree_logs.specs.LogTime.{after_three, billionths, decimal_nanoseconds, digit_in, epoch_nanoseconds, is_digits, is_time, moment_of_number, moment_of_word, nanoseconds, thousandths, whole_of};

use jiff::Timestamp;
use tracing_tree_time::Moment;
use ttree_source::moments::moment_after;

// Returns the moment of a time. If it is missing or invalid, this is the moment of the line before.
pub(super) fn moment_of_word(word: Option<&str>, before: &Moment) -> Moment
    ensures { result ≡ moment_of_word (option_map (λ w. w.now) word.entry) before.now }
{
    let Some(word) = word else {
        return *before;
    };
    match moment_of_number(word) {
        Some(moment) => moment,
        None => moment_after(Some(word), before),
    }
}

// Returns whether a word is a valid time.
pub(super) fn is_time(word: &str) -> bool
    ensures { result ≡ is_time word.now }
{
    nanoseconds_of(word).is_some() || is_instant(word)
}

// Returns whether a string is an instant in RFC 3339.
fn is_instant(text: &str) -> bool
    ensures { result ≡ is_some (moment_of text.now) }
{
    text.parse::<Timestamp>().is_ok()
}

// Returns the moment of a number.
fn moment_of_number(text: &str) -> Option<Moment>
    ensures { result ≡ moment_of_number text.now }
{
    moment_at(nanoseconds_of(text)?)
}

// Returns the moment this many nanoseconds after 1970.
fn moment_at(nanosecond: u64) -> Option<Moment>
    ensures { result ≡ Some (moment_at (pos nanosecond)) }
{
    match Timestamp::from_nanosecond(i128::from(nanosecond)) {
        Ok(wall) => Some(Moment {
            mono: nanosecond,
            wall,
        }),
        Err(_) => None,
    }
}

// Returns the nanoseconds since 1970 of a number, without a sign or an exponent.
fn nanoseconds_of(text: &str) -> Option<u64>
    ensures { result ≡ epoch_nanoseconds text.now }
{
    match text.split_once('.') {
        Some((before, after)) => decimal_of(before, after),
        None => nanoseconds(whole_of(text)?, 0),
    }
}

// Like `nanoseconds_of`, for a number with a point, given its parts before and after the point.
fn decimal_of(before: &str, after: &str) -> Option<u64>
    ensures { result ≡ decimal_nanoseconds before.now after.now }
{
    if !is_digits(after) {
        return None;
    }
    nanoseconds(whole_of(before)?, billionths(after.as_bytes()))
}

// Returns the nanoseconds of a number and this many billionths, if a u64 holds them: the number's
// size says whether it counts seconds, milliseconds, microseconds or nanoseconds.
fn nanoseconds(whole: u64, part: u64) -> Option<u64>
    ensures { result ≡ nanoseconds whole part }
{
    if whole < 100_000_000_000 {
        whole.checked_mul(1_000_000_000)?.checked_add(part)
    } else if whole < 100_000_000_000_000 {
        whole.checked_mul(1_000_000)?.checked_add(part / 1000)
    } else if whole < 100_000_000_000_000_000 {
        whole.checked_mul(1000)?.checked_add(part / 1_000_000)
    } else {
        Some(whole)
    }
}

// Returns the number that digits write, if a u64 holds it.
fn whole_of(text: &str) -> Option<u64>
    ensures { result ≡ whole_of text.now }
{
    if !is_digits(text) {
        return None;
    }
    text.parse().ok()
}

// Returns the billionths that the digits after a point write.
fn billionths(digits: &[u8]) -> u64
    ensures { result ≡ billionths digits.now }
{
    let more = after_three(digits);
    thousandths(digits) * 1_000_000 + thousandths(more) * 1000 + thousandths(after_three(more))
}

// Returns the thousandths that the first three digits after a point write.
fn thousandths(digits: &[u8]) -> u64
    ensures value { result ≡ thousandths digits.now }
    ensures small { result ≤ 30_000 }
{
    match digits {
        [] => 0,
        [a] => digit_in(*a) * 100,
        [a, b] => digit_in(*a) * 100 + digit_in(*b) * 10,
        [a, b, c, ..] => digit_in(*a) * 100 + digit_in(*b) * 10 + digit_in(*c),
    }
}

// Returns the digits after the first three.
fn after_three(digits: &[u8]) -> &[u8]
    ensures { result.now ≡ after_three digits.now }
{
    match digits {
        [_, _, _, rest @ ..] => rest,
        _ => &[],
    }
}

// Returns what a digit counts.
fn digit_in(byte: u8) -> u64
    ensures value { result ≡ digit_in byte }
    ensures small { result ≤ 255 }
{
    u64::from(byte.saturating_sub(b'0'))
}

// Returns whether a string has only digits, and at least one.
fn is_digits(text: &str) -> bool
    ensures { result ≡ is_digits text.now }
{
    !text.is_empty() && all_digits(text.as_bytes())
}

fn all_digits(bytes: &[u8]) -> bool
    ensures { result ≡ all_ascii_digits bytes.now }
{
    let mut rest = bytes;
    while let [byte, others @ ..] = rest {
        if !byte.is_ascii_digit() {
            return false;
        }
        rest = others;
    }
    true
}
