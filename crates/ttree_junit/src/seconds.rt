//! How long a case or a suite took.

ghost use Rattle.std.specs.Prelude.{◌≡◌, ◌≤◌};
ghost use Rattle.ttree_junit.specs.Seconds.{after_three, all_digits, billionths, decimal, digit_in, over_ten, plain, scaled, seconds_as_nanoseconds, thousandths, unsigned_of, whole_from, whole_of};

use ttree_source::marks::after_mark;

// Returns the nanoseconds of a number of seconds, as `0.25`, `1,234.5` or `6.2e-05`. A number below
// zero counts as zero.
pub(crate) fn nanoseconds_of(text: &str) -> Option<u64>
    ensures { result ≡ seconds_as_nanoseconds text.now }
{
    match after_mark(text, "-") {
        Some(_) => Some(0),
        None => unsigned_of(text),
    }
}

fn unsigned_of(text: &str) -> Option<u64>
    ensures { result ≡ unsigned_of text.now }
{
    match text.split_once('e') {
        Some((number, power)) => scaled(number, power),
        None => plain(text),
    }
}

// Returns the nanoseconds of a number over a power of ten, as `6.2e-05`.
fn scaled(number: &str, power: &str) -> Option<u64>
    ensures { result ≡ scaled number.now power.now }
{
    let digits = after_mark(power, "-")?;
    Some(over_ten(plain(number)?, whole_of(digits.as_bytes())?.min(20)))
}

// Returns a number over this power of ten.
fn over_ten(number: u64, power: u64) -> u64
    ensures { result ≡ over_ten power number }
{
    let mut rest = number;
    for _turn in 0..power {
        rest /= 10;
    }
    rest
}

fn plain(text: &str) -> Option<u64>
    ensures { result ≡ plain text.now }
{
    if text.is_empty() {
        return None;
    }
    match text.split_once('.') {
        Some((whole, part)) => decimal(whole, part),
        None => decimal(text, ""),
    }
}

// Returns the nanoseconds of these digits before and after the point.
fn decimal(whole: &str, part: &str) -> Option<u64>
    ensures { result ≡ decimal whole.now part.now }
{
    if !all_digits(part.as_bytes()) {
        return None;
    }
    whole_of(whole.as_bytes())?
        .checked_mul(1_000_000_000)?
        .checked_add(billionths(part.as_bytes()))
}

// Returns the number that digits write, with commas between them, if a u64 holds it.
fn whole_of(digits: &[u8]) -> Option<u64>
    ensures { result ≡ whole_of digits.now }
{
    let mut number: u64 = 0;
    let mut rest = digits;
    while let [byte, others @ ..] = rest {
        if byte.is_ascii_digit() {
            number = number.checked_mul(10)?.checked_add(digit_in(*byte))?;
        } else if *byte != b',' {
            return None;
        }
        rest = others;
    }
    Some(number)
}

fn all_digits(bytes: &[u8]) -> bool
    ensures { result ≡ all_digits bytes.now }
{
    let mut rest = bytes;
    while let [byte, others @ ..] = rest {
        if !byte.is_ascii_digit() {
            return false;
        }
        rest = others;
    }
    true
}

// Returns the billionths that the digits after a point write.
fn billionths(digits: &[u8]) -> u64
    ensures { result ≡ billionths digits.now }
{
    let more = after_three(digits);
    thousandths(digits) * 1_000_000 + thousandths(more) * 1000 + thousandths(after_three(more))
}

// Returns the thousandths that the first three digits after a point write.
fn thousandths(digits: &[u8]) -> u64
    ensures value { result ≡ thousandths digits.now }
    ensures small { result ≤ 30_000 }
{
    match digits {
        [] => 0,
        [a] => digit_in(*a) * 100,
        [a, b] => digit_in(*a) * 100 + digit_in(*b) * 10,
        [a, b, c, ..] => digit_in(*a) * 100 + digit_in(*b) * 10 + digit_in(*c),
    }
}

// Returns the digits after the first three.
fn after_three(digits: &[u8]) -> &[u8]
    ensures { result.now ≡ after_three digits.now }
{
    match digits {
        [_, _, _, rest @ ..] => rest,
        _ => &[],
    }
}

// Returns what a digit counts.
fn digit_in(byte: u8) -> u64
    ensures value { result ≡ digit_in byte }
    ensures small { result ≤ 255 }
{
    u64::from(byte.saturating_sub(b'0'))
}
