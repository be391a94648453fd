//! Layers with timers.

use crate::timers::{Asked, Seconds, StopAt};
use jiff::Timestamp;
use std::alloc::{AllocError, Global};
use std::cell::Cell;
use std::test::*;
use test_support::{Answer, Step, event_call, run};
use tracing_tree::call::{Call, Reply};
use tracing_tree::format::{Id, Refusal, Tape};
use tracing_tree::layer::HierarchicalLayer;
use tracing_tree::layered::Layered;
use tracing_tree::style::Level;
use tracing_tree::time::{FormatTime, Moment, Uptime, UtcDateTime};

// Returns a layered over memory, with lines and this timer.
fn timed<FT: FormatTime + Drop>(
    alloc: Global,
    timer: FT,
) -> Result<Box<Layered<Tape, FT>>, AllocError> {
    let layer = HierarchicalLayer::new(alloc, 2, false, Tape::new(alloc))
        .with_indent_lines(true)
        .with_timer(timer);
    Ok(Box::new(alloc, Layered::new(alloc, layer))?)
}

// Returns the call at another moment.
fn then(mut call: Call, mono: u64, nanosecond: i128) -> Call {
    let wall = Timestamp::from_nanosecond(nanosecond).unwrap_or(Timestamp::UNIX_EPOCH);
    let moment = Moment { mono, wall };
    match &mut call {
        Call::New(_, context) => context.moment = moment,
        Call::Event(_, context) => context.moment = moment,
        Call::Close(_, context) => context.moment = moment,
        Call::Clone(_) => {}
        Call::Record(_, _) => {}
    }
    call
}

// Returns whether a layered with this timer accepts the calls and draws this.
fn draws<FT: FormatTime + Drop>(
    alloc: Global,
    timer: FT,
    calls: Vec<Call>,
    wanted: &str,
) -> Result<bool, AllocError> {
    let mut layered = timed(alloc, timer)?;
    let answers = run(alloc, &mut layered, calls)?;
    let accepted = answers.iter().all(|answer| answer.is_ok());
    Ok(accepted && layered.writer().bytes() == wanted.as_bytes())
}

// Returns these calls, each at a moment of the monotonic clock.
fn calls_at(alloc: Global, steps: &[(Step<'_>, u64)]) -> Result<Vec<Call>, AllocError> {
    let mut calls = Vec::new(alloc);
    for (step, mono) in steps {
        calls.push(then(step.call(alloc)?, *mono, 0))?;
    }
    Ok(calls)
}

// Returns an INFO event outside every span, at an instant of a leap day.
fn dated(alloc: Global) -> Result<Vec<Call>, AllocError> {
    let call = then(
        event_call(alloc, Level::Info, "x", None)?,
        0,
        951_827_696_050_000_000,
    );
    Ok(vec![in alloc; call]?)
}

#[test]
fn dates_an_event(rt: HostRuntime) -> Result<(), Fail> {
    let alloc = rt.alloc();
    let text = "2000-02-29 12:34:56.05 INFO x\n";
    assert!(rt; draws(alloc, UtcDateTime::default(), dated(alloc)?, text)?);
    assert!(rt; draws(alloc, (), dated(alloc)?, "INFO x\n")?);
    Ok(())
}

// A root, and an event in it two seconds later.
const TWO_SECONDS: [(Step<'static>, u64); 2] = [
    (Step::New("a", None), 1_000_000_000),
    (Step::Event(Level::Info, "x", Some(1)), 3_000_042_000),
];

// Whether the elapsed time is shown with a higher precision, and what is drawn then.
const PRECISIONS: [(bool, &str); 2] = [
    (false, "┐a \n├─   3.000042s   2s  INFO x\n"),
    (true, "┐a \n├─   3.000042s  2.00s  INFO x\n"),
];

#[test]
fn times_an_event_in_a_span(rt: HostRuntime) -> Result<(), Fail> {
    let alloc = rt.alloc();
    for (higher_precision, text) in PRECISIONS {
        let mut uptime = Uptime::from(0);
        uptime.higher_precision = higher_precision;
        let calls = calls_at(alloc, TWO_SECONDS.as_slice())?;
        assert!(rt; draws(alloc, uptime, calls, text)?, "{text}");
    }
    Ok(())
}

// A root, its child, which begins after the event in it, and an event of a current span that isn't
// live.
const EARLY_EVENT: [(Step<'static>, u64); 4] = [
    (Step::New("a", None), 1_000_000_000),
    (Step::New("b", Some(1)), 5_000_000_000),
    (Step::Event(Level::Info, "x", Some(2)), 4_000_000_000),
    (Step::Event(Level::Info, "y", Some(9)), 4_000_000_000),
];

#[test]
fn takes_the_elapsed_time_of_the_current_span(rt: HostRuntime) -> Result<(), Fail> {
    let alloc = rt.alloc();
    let text = "┐a \n└─┐b \n  ├─   4.000000s   0ms INFO x\n   4.000000s INFO y\n";
    let calls = calls_at(alloc, EARLY_EVENT.as_slice())?;
    assert!(rt; draws(alloc, Uptime::from(0), calls, text)?);
    Ok(())
}

#[test]
fn takes_a_timer_of_ones_own(rt: HostRuntime) -> Result<(), Fail> {
    let alloc = rt.alloc();
    let call = then(event_call(alloc, Level::Info, "x", None)?, 7_900_000_000, 0);
    assert!(rt; draws(alloc, Seconds, vec![in alloc; call]?, "7 INFO x\n")?);
    Ok(())
}

// Calls, and how often a timer has been called after each.
const ASKING: [(Step<'static>, u32); 14] = [
    (Step::New("a", None), 0),
    (Step::Event(Level::Info, "x", Some(1)), 1),
    (Step::Event(Level::Info, "x", Some(1)), 2),
    (Step::New("b", Some(1)), 2),
    (Step::Event(Level::Info, "x", Some(2)), 3),
    (Step::Event(Level::Info, "x", Some(2)), 4),
    (Step::Close(2), 4),
    (Step::New("c", Some(1)), 4),
    (Step::Event(Level::Info, "x", Some(3)), 5),
    (Step::New("d", Some(3)), 5),
    (Step::Event(Level::Info, "x", Some(4)), 6),
    (Step::Close(4), 6),
    (Step::Close(3), 6),
    (Step::Event(Level::Info, "x", Some(1)), 7),
];

// Returns a layered with this timer, under the settings of the Rust crate's test
// `format_time_num_calls`.
fn asking(alloc: Global, asked: &Asked) -> Result<Box<Layered<Tape, &Asked>>, AllocError> {
    let layer = HierarchicalLayer::new(alloc, 2, false, Tape::new(alloc))
        .with_indent_lines(true)
        .with_thread_ids(true)
        .with_thread_names(true)
        .with_verbose_entry(true)
        .with_verbose_exit(true)
        .with_targets(true)
        .with_timer(asked);
    Ok(Box::new(alloc, Layered::new(alloc, layer))?)
}

// Makes this call.
fn make(
    alloc: Global,
    layered: &mut Layered<Tape, &Asked>,
    step: Step<'_>,
) -> Result<(), AllocError> {
    let calls = vec![in alloc; step.call(alloc)?]?;
    run(alloc, layered, calls)?;
    Ok(())
}

#[test]
fn asks_the_timer_once_an_event(rt: HostRuntime) -> Result<(), Fail> {
    let alloc = rt.alloc();
    let asked = Asked {
        times: Cell::new(0),
    };
    let mut layered = asking(alloc, &asked)?;
    for (step, times) in ASKING {
        make(alloc, &mut layered, step)?;
        assert_eq!(rt; asked.times.get(), times);
    }
    Ok(())
}

const TIMED_OUT: [(Step<'static>, u64); 3] = [
    (Step::New("a", None), 2),
    (Step::Event(Level::Info, "x", Some(1)), 7),
    (Step::New("b", None), 0),
];

const TIMED_OUT_ANSWERS: [Answer; 3] = [
    Ok(Reply::Span(Id(1))),
    Err(Refusal::Timer),
    Err(Refusal::Failed),
];

// Returns whether an event at 7 in a span that began at 2 is the fault of this timer, which leaves
// nothing but a failed layer.
fn fails(alloc: Global, timer: StopAt) -> Result<bool, AllocError> {
    let mut layered = timed(alloc, timer)?;
    let calls = calls_at(alloc, TIMED_OUT.as_slice())?;
    let answers = run(alloc, &mut layered, calls)?;
    let layer = layered.layer();
    Ok(
        answers.as_slice() == TIMED_OUT_ANSWERS.as_slice()
            && layer.writer().bytes() == "┐a \n".as_bytes()
            && layer.last_span() == Some(Id(1))
            && layer.failed(),
    )
}

// A moment and an elapsed time at which a timer faults.
const FAULTS: [(u64, u64); 2] = [(7, 100), (100, 5)];

#[test]
fn fails_with_its_timer(rt: HostRuntime) -> Result<(), Fail> {
    for (moment, elapsed) in FAULTS {
        let timer = StopAt { moment, elapsed };
        assert!(rt; fails(rt.alloc(), timer)?, "{moment}, {elapsed}");
    }
    Ok(())
}
