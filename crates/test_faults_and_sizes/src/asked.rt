//! How often a writer and a timer are called.

use crate::fakes::{Choppy, Failure};
use std::alloc::{AllocError, Global};
use std::cell::Cell;
use std::process::Abort;
use std::test::*;
use test_support::Step;
use tracing_tree::format::{Tape, Wrap};
use tracing_tree::layer::HierarchicalLayer;
use tracing_tree::layered::Layered;
use tracing_tree::style::Level;
use tracing_tree::time::{FormatTime, Moment, TimeFault};

type Counted = Layered<Wrap<Choppy>, ()>;

// Returns a layer that shows all that it can, over a writer that takes all.
fn counted(alloc: Global, retrace: bool) -> Result<Box<Counted>, AllocError> {
    let writer = Wrap::new(Choppy::new(alloc, usize::MAX, Failure::NONE));
    let layer = HierarchicalLayer::new(alloc, 2, false, writer)
        .with_indent_lines(true)
        .with_verbose_entry(true)
        .with_verbose_exit(true)
        .with_span_retrace(retrace)
        .with_close_retrace(retrace);
    Ok(Box::new(alloc, Layered::new(alloc, layer))?)
}

// Makes these calls, and returns whether each is accepted.
fn accepts(alloc: Global, layered: &mut Counted, steps: &[Step<'_>]) -> Result<bool, AllocError> {
    for step in steps {
        let call = step.call(alloc)?;
        if layered.call(call).is_err() {
            return Ok(false);
        }
    }
    Ok(true)
}

fn into_writes(layered: Box<Counted>) -> usize {
    let (_registry, layer) = Box::into_inner(layered).into_parts();
    layer.into_writer().into_inner().writes
}

// Returns how many writes these calls need. Each call must be accepted.
fn writes(
    rt: &(impl Abort + AllocGlobal),
    retrace: bool,
    steps: &[Step<'_>],
) -> Result<usize, AllocError> {
    let mut layered = counted(rt.alloc(), retrace)?;
    let accepted = accepts(rt.alloc(), &mut layered, steps)?;
    assert!(rt; accepted, "a call is refused");
    Ok(into_writes(layered))
}

// Two branches, events in both in turn, a record and clones, which draw nothing, and closes. The
// last one draws four spans.
const STEPS: [Step<'static>; 15] = [
    Step::New("a", None),
    Step::New("b", Some(1)),
    Step::New("c", Some(2)),
    Step::New("d", Some(3)),
    Step::New("e", None),
    Step::Event(Level::Info, "x\ny", Some(4)),
    Step::Event(Level::Info, "x", Some(5)),
    Step::Record(4, "1"),
    Step::Clone(5),
    Step::Event(Level::Info, "x", Some(4)),
    Step::Close(5),
    Step::Close(1),
    Step::Close(2),
    Step::Close(3),
    Step::Close(4),
];

// Five spans that open, three events, and one close.
#[test]
fn a_call_is_one_write_or_none(rt: HostRuntime) -> Result<(), Fail> {
    for retrace in [false, true] {
        let writes = writes(&rt, retrace, STEPS.as_slice())?;
        assert_eq!(rt; writes, 9, "retrace {retrace}");
    }
    Ok(())
}

// Returns how many writes a root with a name of `bytes` bytes needs.
fn writes_of(rt: &(impl Abort + AllocGlobal), bytes: usize) -> Result<usize, AllocError> {
    let name = "n".repeat(rt.alloc(), bytes)?;
    writes(rt, false, [Step::New(name.as_str(), None)].as_slice())
}

#[test]
fn a_text_is_one_write(rt: HostRuntime) -> Result<(), Fail> {
    for bytes in [
        0, 1, 70, 127, 128, 129, 4_095, 4_096, 4_097, 10_000, 65_537, 1_000_000,
    ] {
        let writes = writes_of(&rt, bytes)?;
        assert_eq!(rt; writes, 1, "{bytes}");
    }
    Ok(())
}

// A timer that shows nothing, and counts how often it is called for a moment and for an elapsed
// time.
#[derive(Drop)]
struct Asked {
    moments: Cell<u32>,
    elapsed: Cell<u32>,
}

impl FormatTime for Asked {
    ghost use Rattle.tracing_tree_time.specs.Clock.{no_timer};

    ghost timer = { λ _. no_timer };

    fn format_time(&self, _moment: &Moment, _out: &mut String) -> Result<(), TimeFault> {
        self.moments.set(self.moments.get().wrapping_add(1));
        Ok(())
    }

    fn style_timestamp(
        &self,
        _ansi: bool,
        _elapsed_ns: u64,
        _out: &mut String,
    ) -> Result<(), TimeFault> {
        self.elapsed.set(self.elapsed.get().wrapping_add(1));
        Ok(())
    }
}

// Returns a layer that calls this timer.
fn asking(alloc: Global, asked: &Asked) -> Result<Box<Layered<Tape, &Asked>>, AllocError> {
    let layer = HierarchicalLayer::new(alloc, 2, false, Tape::new(alloc))
        .with_indent_lines(true)
        .with_span_retrace(true)
        .with_timer(asked);
    Ok(Box::new(alloc, Layered::new(alloc, layer))?)
}

// Makes these calls, whatever they are answered.
fn make(
    alloc: Global,
    mut layered: Box<Layered<Tape, &Asked>>,
    steps: &[Step<'_>],
) -> Result<(), AllocError> {
    for step in steps {
        let _ = layered.call(step.call(alloc)?);
    }
    Ok(())
}

// Returns how often a timer is called for a moment and for an elapsed time by these calls.
fn times_asked(alloc: Global, steps: &[Step<'_>]) -> Result<(u32, u32), AllocError> {
    let asked = Asked {
        moments: Cell::new(0),
        elapsed: Cell::new(0),
    };
    make(alloc, asking(alloc, &asked)?, steps)?;
    Ok((asked.moments.get(), asked.elapsed.get()))
}

// Checks how often these calls call a timer.
fn asks(
    rt: &(impl Abort + AllocGlobal),
    steps: &[Step<'_>],
    wanted: (u32, u32),
) -> Result<(), AllocError> {
    let asked = times_asked(rt.alloc(), steps)?;
    assert_eq!(rt; asked, wanted, "{} calls", steps.len());
    Ok(())
}

// An event outside all spans has no elapsed time. Neither has one whose current span isn't live.
const OUTSIDE: [Step<'static>; 4] = [
    Step::New("a", None),
    Step::Close(1),
    Step::Event(Level::Info, "x", Some(1)),
    Step::Event(Level::Info, "x", None),
];

#[test]
fn a_timer_is_asked_once_an_event(rt: HostRuntime) -> Result<(), Fail> {
    asks(&rt, STEPS.as_slice(), (3, 3))?;
    asks(&rt, OUTSIDE.as_slice(), (2, 0))?;
    asks(&rt, [].as_slice(), (0, 0))?;
    Ok(())
}
