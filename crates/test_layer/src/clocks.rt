//! The output of clocks.

use jiff::Timestamp;
use std::alloc::{AllocError, Global};
use std::test::*;
use tracing_tree::time::{FormatTime, Moment, TimeFault, Uptime, UtcDateTime};

// Returns what a timer shows of a moment.
fn moment_text<F: FormatTime>(
    alloc: Global,
    timer: &F,
    mono: u64,
    wall: Timestamp,
) -> Result<String, TimeFault> {
    let mut text = String::new(alloc);
    timer.format_time(&Moment { mono, wall }, &mut text)?;
    Ok(text)
}

// Returns what a clock shows of an elapsed time.
fn elapsed_text(alloc: Global, higher: bool, ansi: bool, nanos: u64) -> Result<String, TimeFault> {
    let mut text = String::new(alloc);
    let clock = UtcDateTime {
        higher_precision: higher,
    };
    clock.style_timestamp(ansi, nanos, &mut text)?;
    Ok(text)
}

// Returns the instant `nanosecond` after the start of 1970, or that start if the instant is out of
// range.
fn instant(nanosecond: i128) -> Timestamp {
    Timestamp::from_nanosecond(nanosecond).unwrap_or(Timestamp::UNIX_EPOCH)
}

#[test]
fn shows_elapsed_times(rt: HostRuntime) -> Result<(), TimeFault> {
    for (higher, nanos, wanted) in [
        (false, 0, "  0ms"),
        (false, 999_999_999, "999ms"),
        (false, 1_000_000_000, "  1s "),
        (false, 59_999_999_999, " 59s "),
        (false, 60_000_000_000, "  1m "),
        (false, 59_999_999_999_999, "999m "),
        (false, 60_000_000_000_000, "1000m "),
        (false, u64::MAX, "307445734m "),
        (true, 0, " 0.00μs"),
        (true, 5, " 0.00μs"),
        (true, 15, " 0.02μs"),
        (true, 999_994, " 999.99μs"),
        (true, 999_999, " 1000.00μs"),
        (true, 1_000_000, " 1.00ms"),
        (true, 1_500_000, " 1.50ms"),
        (true, 999_999_999, " 1000.00ms"),
        (true, 1_000_000_000, " 1.00s "),
        (true, 59_999_999_999, " 60.00s "),
        (true, u64::MAX, " 18446744073.71s "),
    ] {
        assert_eq!(rt;
            elapsed_text(rt.alloc(), higher, false, nanos)?.as_str(),
            wanted
        );
    }
    assert_eq!(rt;
        elapsed_text(rt.alloc(), false, true, 999_000_000)?.as_str(),
        "\x1b[2m999\x1b[0m\x1b[2mms\x1b[0m"
    );
    assert_eq!(rt;
        elapsed_text(rt.alloc(), true, true, 15)?.as_str(),
        "\x1b[2m 0.02\x1b[0m\x1b[2mμs\x1b[0m"
    );
    Ok(())
}

// Returns a count of hundredths of a unit.
fn hundredths(alloc: Global, count: u64, unit: &str) -> Result<String, AllocError> {
    let whole = count / 100;
    let cents = count % 100;
    format!(in alloc; " {whole}.{cents:02}{unit}")
}

// Returns whether the tie after this count is rounded to the even count, and its neighbours to the
// nearest.
fn is_tie_even(alloc: Global, size: u64, unit: &str, count: u64) -> Result<bool, TimeFault> {
    let tie = count.wrapping_mul(size).wrapping_add(size / 2);
    let more = count.wrapping_add(1);
    let even = if count % 2 == 0 { count } else { more };
    for (nanos, count) in [
        (tie.wrapping_sub(1), count),
        (tie, even),
        (tie.wrapping_add(1), more),
    ] {
        let Ok(wanted) = hundredths(alloc, count, unit) else {
            return Err(TimeFault::Memory);
        };
        if elapsed_text(alloc, true, false, nanos)?.as_str() != wanted.as_str() {
            return Ok(false);
        }
    }
    Ok(true)
}

// Returns whether it does so after each of these counts.
fn are_ties_even(
    alloc: Global,
    size: u64,
    unit: &str,
    first: u64,
    last: u64,
) -> Result<bool, TimeFault> {
    for count in first..=last {
        if !is_tie_even(alloc, size, unit, count)? {
            return Ok(false);
        }
    }
    Ok(true)
}

// The thousand ties at each end of each unit: 10 ns, 10 μs and 10 ms are a hundredth.
#[test]
fn ties_go_to_the_even_count(rt: HostRuntime) -> Result<(), TimeFault> {
    for (size, unit, first, last) in [
        (10, "μs", 0, 999),
        (10, "μs", 99_000, 99_999),
        (10_000, "ms", 100, 1_099),
        (10_000, "ms", 99_000, 99_999),
        (10_000_000, "s ", 100, 1_099),
        (10_000_000, "s ", 1_844_674_406_371, 1_844_674_407_370),
    ] {
        assert!(rt; are_ties_even(rt.alloc(), size, unit, first, last)?);
    }
    Ok(())
}

#[test]
fn shows_uptimes(rt: HostRuntime) -> Result<(), TimeFault> {
    let alloc = rt.alloc();
    for (epoch, mono, wanted) in [
        (0, 3_000_042_000, "   3.000042s"),
        (0, 12_345_000_000_000, "12345.000000s"),
        (5, 3, "   0.000000s"),
        (5, 5, "   0.000000s"),
        (5, 1005, "   0.000001s"),
        (0, 999, "   0.000000s"),
        (0, u64::MAX, "18446744073.709551s"),
        (u64::MAX, 0, "   0.000000s"),
    ] {
        let text = moment_text(alloc, &Uptime::from(epoch), mono, instant(0))?;
        assert_eq!(rt; text.as_str(), wanted);
    }
    Ok(())
}
