//! Timers that fault at one moment.

use std::alloc::{AllocError, Global};
use std::process::Abort;
use std::test::*;
use test_support::{Answer, Step};
use tracing_tree::call::{Call, Reply};
use tracing_tree::format::{Id, Refusal, Tape};
use tracing_tree::layer::HierarchicalLayer;
use tracing_tree::layered::Layered;
use tracing_tree::registry::LookupSpan;
use tracing_tree::style::Level;
use tracing_tree::time::{FormatTime, Moment, TimeFault};

// A timer that shows nothing, and faults at this moment of the monotonic clock.
#[derive(Drop)]
struct StopAt(u64);

impl FormatTime for StopAt {
    ghost use Rattle.std.specs.Prelude.{◌==◌, [], None, Some, if◌then◌else◌};

    ghost timer = { λ stop. record {
      moment_text = λ moment. if moment.mono == stop.0 then None else Some [];
      elapsed_text = λ ansi nanos. Some [];
    } };

    fn format_time(&self, moment: &Moment, _out: &mut String) -> Result<(), TimeFault> {
        if moment.mono == self.0 {
            return Err(TimeFault::Fault);
        }
        Ok(())
    }

    fn style_timestamp(
        &self,
        _ansi: bool,
        _elapsed_ns: u64,
        _out: &mut String,
    ) -> Result<(), TimeFault> {
        Ok(())
    }
}

// The moment of the timer's fault.
const STOP: u64 = 7;

type Stopping = Layered<Tape, StopAt>;

// Spans that wait for their first event, over this timer.
fn deferring(alloc: Global, lines: bool, amount: usize) -> Result<Box<Stopping>, AllocError> {
    let layer = HierarchicalLayer::new(alloc, amount, false, Tape::new(alloc))
        .with_indent_lines(lines)
        .with_deferred_spans(true)
        .with_timer(StopAt(STOP));
    Ok(Box::new(alloc, Layered::new(alloc, layer))?)
}

// What a call at this moment is answered.
fn answer(alloc: Global, layered: &mut Stopping, step: Step<'_>, mono: u64) -> Answer {
    let mut call = step.call(alloc)?;
    match &mut call {
        Call::New(_, context) | Call::Event(_, context) | Call::Close(_, context) => {
            context.moment.mono = mono;
        }
        Call::Clone(_) | Call::Record(_, _) => {}
    }
    layered.call(call)
}

// Returns whether a span lives that wasn't printed.
fn is_unprinted(layered: &Stopping, id: u64) -> bool {
    match layered.registry().data(Id(id)) {
        Some(data) => !data.written,
        None => false,
    }
}

// Makes `depth` nested spans, and returns whether all were made.
fn nests(alloc: Global, layered: &mut Stopping, depth: u64) -> bool {
    let mut current = None;
    for id in 1..=depth {
        let made = answer(alloc, layered, Step::New("a", current), STOP);
        if made != Ok(Reply::Span(Id(id))) {
            return false;
        }
        current = Some(id);
    }
    true
}

// Returns whether nothing was written or printed, and there is no last span.
fn is_blank(layered: &Stopping, depth: u64) -> bool {
    for id in 1..=depth {
        if !is_unprinted(layered, id) {
            return false;
        }
    }
    layered.layer().last_span().is_none() && layered.writer().bytes().is_empty()
}

// A call at this moment is answered so.
fn answers(
    rt: &(impl Abort + AllocGlobal),
    layered: &mut Stopping,
    (step, mono): (Step<'_>, u64),
    wanted: Answer,
) {
    let answer = answer(rt.alloc(), layered, step, mono);
    assert!(rt; answer == wanted, "at {mono}: {answer:?}");
}

const TOLD: Step<'static> = Step::Event(Level::Info, "x", Some(2));

#[test]
fn a_fault_of_the_timer_prints_no_span(rt: HostRuntime) -> Result<(), Fail> {
    let mut layered = deferring(rt.alloc(), true, 2)?;
    assert!(rt; nests(rt.alloc(), &mut layered, 2));
    answers(&rt, &mut layered, (TOLD, STOP), Err(Refusal::Timer));
    assert!(rt; is_blank(&layered, 2));
    for step in [TOLD, Step::Clone(1), Step::Record(1, "1"), Step::Close(2)] {
        answers(&rt, &mut layered, (step, 0), Err(Refusal::Failed));
    }
    assert!(rt; is_blank(&layered, 2));
    Ok(())
}

const WIDE: Step<'static> = Step::Event(Level::Info, "x", Some(3));

const NARROW: Step<'static> = Step::Event(Level::Info, "y", Some(1));

// All widths are checked before the timer is called.
#[test]
fn a_row_too_wide_asks_no_timer(rt: HostRuntime) -> Result<(), Fail> {
    let mut layered = deferring(rt.alloc(), false, 1 << 63)?;
    assert!(rt; nests(rt.alloc(), &mut layered, 3));
    answers(&rt, &mut layered, (WIDE, STOP), Err(Refusal::TooWide));
    assert!(rt; is_blank(&layered, 3));
    answers(&rt, &mut layered, (NARROW, 0), Ok(Reply::Done));
    assert!(rt; layered.writer().bytes() == b" a \n  INFO y\n".as_slice());
    Ok(())
}
