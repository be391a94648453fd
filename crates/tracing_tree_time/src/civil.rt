//! Appends dates, times and offsets.

ghost use Rattle.std.specs.Prelude.{◌≡◌, ◌+◌, ◌^◌, ◌<◌, ◌≤◌, ◌++◌, ◌∷◌, decimal, length};
ghost use Rattle.tracing_tree_time.specs.Clock.{date_text, time_text, fraction_text, offset_text};

use super::short::ShortText;
use jiff::civil::{Date, Time};
use jiff::tz::Offset;

/// Appends a date, as `2000-02-29`.
pub(super) fn push_date(text: &mut ShortText, date: Date)
    requires { length text.old + 11 ≤ 40 }
    ensures text { text.new ≡ text.old ++ date_text date.year date.month date.day }
    ensures len { length text.new ≤ length text.old + 11 }
{
    if date.year() < 0 {
        text.push(b'-');
    }
    text.push_digits(4, date.year().unsigned_abs() as u64);
    text.push(b'-');
    text.push_pair(date.month().unsigned_abs() as u64);
    text.push(b'-');
    text.push_pair(date.day().unsigned_abs() as u64);
}

/// Appends a space and a time, as `12:34:56.05`.
pub(super) fn push_time(text: &mut ShortText, time: Time)
    requires { length text.old + 19 ≤ 40 }
    ensures text { text.new ≡ text.old
        ++ 32 ∷ time_text time.hour time.minute time.second time.subsec_nanosecond }
    ensures len { length text.new ≤ length text.old + 19 }
{
    text.push(b' ');
    push_hour(text, time.hour().unsigned_abs() as u64);
    text.push(b':');
    text.push_pair(time.minute().unsigned_abs() as u64);
    text.push(b':');
    text.push_pair(time.second().unsigned_abs() as u64);
    text.push(b'.');
    push_fraction(text, time.subsec_nanosecond().unsigned_abs());
}

// Appends an hour in one digit or two.
fn push_hour(text: &mut ShortText, hour: u64)
    requires below { hour < 100 }
    requires room { length text.old + 2 ≤ 40 }
    ensures text { text.new ≡ text.old ++ decimal hour }
    ensures len { length text.new ≤ length text.old + 2 }
{
    if hour < 10 {
        text.push(b'0' + hour as u8);
    } else {
        text.push_pair(hour);
    }
}

/// Appends a space and an offset, as `+05:30:00`.
pub(super) fn push_offset(text: &mut ShortText, offset: Offset)
    requires { length text.old + 10 ≤ 40 }
    ensures { text.new ≡ text.old ++ 32 ∷ offset_text offset.seconds }
{
    let seconds = offset.seconds().unsigned_abs() as u64;
    text.push(b' ');
    text.push(if offset.is_negative() { b'-' } else { b'+' });
    text.push_pair(seconds / 3600);
    text.push(b':');
    text.push_pair(seconds / 60 % 60);
    text.push(b':');
    text.push_pair(seconds % 60);
}

// Appends the nine digits of a fraction, without the zeros at its end. One digit stays.
fn push_fraction(text: &mut ShortText, nanosecond: u32)
    requires below { nanosecond < 1_000_000_000 }
    requires room { length text.old + 9 ≤ 40 }
    ensures text { text.new ≡ text.old ++ fraction_text nanosecond }
    ensures len { length text.new ≤ length text.old + 9 }
{
    let mut number = nanosecond as u64;
    let mut places = 9;
    while places > 1 && number % 10 == 0 {
        number /= 10;
        places -= 1;
    }
    text.push_digits(places, number);
}
