//! Dates and times that clocks show, beside those that `jiff` prints.

use jiff::Timestamp;
use jiff::tz::{Offset, TimeZone};
use std::alloc::{AllocError, Global};
use std::process::Abort;
use std::test::*;
use tracing_tree::time::{
    Clock, FormatTime, LocalDateTime, Moment, TimeFault, Uptime, UtcDateTime,
};

// Returns what a timer shows of an instant.
fn shown<F: FormatTime>(alloc: Global, timer: &F, wall: Timestamp) -> Result<String, TimeFault> {
    let mut text = String::new(alloc);
    timer.format_time(&Moment { mono: 0, wall }, &mut text)?;
    Ok(text)
}

// Returns a date and a time as printed by `jiff` in the form that a clock shows. `jiff` writes a
// negative year in six digits, an hour in two, and no fraction if it is zero.
fn as_shown(alloc: Global, printed: &str) -> Result<String, AllocError> {
    let (date, time) = printed.split_once('T').unwrap_or(("", ""));
    let (sign, date) = match date.strip_prefix("-00") {
        Some(date) => ("-", date),
        None => ("", date),
    };
    let time = time.strip_prefix('0').unwrap_or(time);
    let fraction = if time.contains('.') { "" } else { ".0" };
    format!(in alloc; "{sign}{date} {time}{fraction}")
}

// Returns the instant of this number among 10,000 from the first of `jiff` to the last.
fn instant(number: i64) -> Result<Timestamp, jiff::Error> {
    let second = number
        .wrapping_mul(63_110_723)
        .wrapping_sub(377_705_023_201);
    let nanosecond = match number % 4 {
        0 => 0,
        1 => 50_000_000,
        2 => 999_999_999,
        _ => number.wrapping_mul(7_001) % 1_000_000_000,
    };
    Timestamp::new(second, nanosecond as i32)
}

// Returns whether the clock at offset zero shows what `jiff` prints of this instant, from which
// `jiff` reads the instant again.
fn is_shown_in_utc(alloc: Global, wall: Timestamp) -> Result<bool, Fail> {
    let printed = wall.to_string(alloc)?;
    let read: Timestamp = printed.as_str().parse()?;
    let wanted = as_shown(alloc, printed.as_str().strip_suffix('Z').unwrap_or(""))?;
    let text = shown(alloc, &UtcDateTime::default(), wall)?;
    Ok(read == wall && text.as_str() == wanted.as_str())
}

// Returns whether the clock at this offset shows what `jiff` prints of this instant there, and then
// the offset, which `jiff` prints in six characters.
fn is_shown_at(alloc: Global, wall: Timestamp, offset: Offset, name: &str) -> Result<bool, Fail> {
    let printed = wall.display_with_offset(offset);
    let length = printed.as_str().len().saturating_sub(6);
    let date_time = as_shown(alloc, printed.as_str().get(..length).unwrap_or(""))?;
    let wanted = format!(in alloc; "{date_time} {name}")?;
    let text = shown(alloc, &LocalDateTime::with_offset(offset, false), wall)?;
    Ok(text.as_str() == wanted.as_str())
}

#[test]
fn shows_what_jiff_prints(rt: HostRuntime) -> Result<(), Fail> {
    let alloc = rt.alloc();
    for number in 0..10_000 {
        assert!(rt; is_shown_in_utc(alloc, instant(number)?)?, "{number}");
    }
    assert!(rt; is_shown_in_utc(alloc, Timestamp::MIN)?);
    assert!(rt; is_shown_in_utc(alloc, Timestamp::MAX)?);
    Ok(())
}

// Returns whether the clock at this offset shows these instants as `jiff` does.
fn are_shown_at(alloc: Global, seconds: i32, name: &str) -> Result<bool, Fail> {
    let offset = Offset::from_seconds(seconds)?;
    for number in 0..10_000 {
        if !is_shown_at(alloc, instant(number)?, offset, name)? {
            return Ok(false);
        }
    }
    Ok(
        is_shown_at(alloc, Timestamp::MIN, offset, name)?
            && is_shown_at(alloc, Timestamp::MAX, offset, name)?,
    )
}

#[test]
fn shows_what_jiff_prints_at_offsets(rt: HostRuntime) -> Result<(), Fail> {
    for (seconds, name) in [
        (-93_599, "-25:59:59"),
        (-3_600, "-01:00:00"),
        (-3_599, "-00:59:59"),
        (-1, "-00:00:01"),
        (0, "+00:00:00"),
        (59, "+00:00:59"),
        (19_800, "+05:30:00"),
        (93_599, "+25:59:59"),
    ] {
        assert!(rt; are_shown_at(rt.alloc(), seconds, name)?, "{name}");
    }
    Ok(())
}

// Checks what the clock at this offset shows for this instant.
fn shows_at(
    rt: &impl Abort,
    alloc: Global,
    (second, nanosecond): (i64, i32),
    seconds: i32,
    wanted: &str,
) -> Result<(), Fail> {
    let wall = Timestamp::new(second, nanosecond)?;
    let clock = LocalDateTime::with_offset(Offset::from_seconds(seconds)?, false);
    assert_eq!(rt; shown(alloc, &clock, wall)?.as_str(), wanted);
    Ok(())
}

// The first and the last instant of `jiff`; instants at which a year, a century, the era or a leap
// day turns; and an instant of a leap day. Each has the second, the nanosecond, the offset, and the
// text.
const TURNS: [(i64, i32, i32, &str); 14] = [
    (
        -377_705_023_201,
        0,
        -93_599,
        "-9999-01-01 0:00:00.0 -25:59:59",
    ),
    (-377_705_023_201, 0, 0, "-9999-01-02 1:59:59.0 +00:00:00"),
    (
        253_402_207_200,
        999_999_999,
        0,
        "9999-12-30 22:00:00.999999999 +00:00:00",
    ),
    (
        253_402_207_200,
        999_999_999,
        93_599,
        "9999-12-31 23:59:59.999999999 +25:59:59",
    ),
    (-62_167_219_201, 0, 0, "-0001-12-31 23:59:59.0 +00:00:00"),
    (-62_167_219_200, 0, 0, "0000-01-01 0:00:00.0 +00:00:00"),
    (-2_203_891_201, 0, 0, "1900-02-28 23:59:59.0 +00:00:00"),
    (-2_203_891_200, 0, 0, "1900-03-01 0:00:00.0 +00:00:00"),
    (
        946_684_799,
        999_000_000,
        0,
        "1999-12-31 23:59:59.999 +00:00:00",
    ),
    (946_684_800, 0, 0, "2000-01-01 0:00:00.0 +00:00:00"),
    (951_782_400, 0, -1, "2000-02-28 23:59:59.0 -00:00:01"),
    (951_868_799, 0, 1, "2000-03-01 0:00:00.0 +00:00:01"),
    (
        951_827_696,
        50_000_000,
        -30,
        "2000-02-29 12:34:26.05 -00:00:30",
    ),
    (
        951_827_696,
        50_000_000,
        19_800,
        "2000-02-29 18:04:56.05 +05:30:00",
    ),
];

#[test]
fn shows_dates_and_times(rt: HostRuntime) -> Result<(), Fail> {
    for (second, nanosecond, offset, wanted) in TURNS {
        shows_at(&rt, rt.alloc(), (second, nanosecond), offset, wanted)?;
    }
    Ok(())
}

// New York's clocks were put forward in March 2024, and back in November.
#[test]
fn shows_the_offset_of_a_zone_at_each_instant(rt: HostRuntime) -> Result<(), Fail> {
    let zone = TimeZone::posix("EST5EDT,M3.2.0,M11.1.0")?;
    let clock = LocalDateTime::with_zone(zone, false);
    for (second, wanted) in [
        (1_710_053_999, "2024-03-10 1:59:59.0 -05:00:00"),
        (1_710_054_000, "2024-03-10 3:00:00.0 -04:00:00"),
        (1_730_613_599, "2024-11-03 1:59:59.0 -04:00:00"),
        (1_730_613_600, "2024-11-03 1:00:00.0 -05:00:00"),
    ] {
        let text = shown(rt.alloc(), &clock, Timestamp::from_second(second)?)?;
        assert_eq!(rt; text.as_str(), wanted);
    }
    Ok(())
}

#[test]
fn shows_what_the_chosen_clock_shows(rt: HostRuntime) -> Result<(), Fail> {
    let local = LocalDateTime::with_offset(Offset::from_seconds(19_800)?, false);
    for (clock, wanted) in [
        (Clock::None, ""),
        (Clock::Utc(UtcDateTime::default()), "1970-01-01 0:00:00.0"),
        (Clock::Local(local), "1970-01-01 5:30:00.0 +05:30:00"),
        (Clock::Uptime(Uptime::from(0)), "   0.000000s"),
    ] {
        let text = shown(rt.alloc(), &&clock, Timestamp::UNIX_EPOCH)?;
        assert_eq!(rt; text.as_str(), wanted);
    }
    Ok(())
}
