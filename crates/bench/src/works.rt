//! The works: settings, and lists of calls.

ghost use Rattle.std.specs.Prelude.{◌≡◌, None, false};

use crate::calls::Calls;
use crate::sink::Sink;
use jiff::tz::Offset;
use std::alloc::{AllocError, Global};
use tracing_tree::layer::HierarchicalLayer;
use tracing_tree::time::{Clock, LocalDateTime, Uptime, UtcDateTime};

// The rounds of a batch: the first, the one after the last, and how many there are in all.
#[derive(Clone, Copy)]
pub struct Batch {
    pub from: u32,
    pub to: u32,
    pub of: u32,
}

#[derive(Clone, Copy, PartialEq, Eq)]
pub enum Work {
    // Spans five deep with an event in the lowest, closed again: eleven calls a round.
    Nested,

    // Like `Nested`, with every setting except those that retrace.
    NestedStyled,

    // Like `Nested`, with every setting.
    NestedRetraced,

    // Events in two leaves in turn, ten deep.
    Alternating10,

    // Like `Alternating10`, a hundred deep.
    Alternating100,

    // Like `Alternating10`, a thousand deep.
    Alternating1000,

    // Roots that all live at once, and close oldest first: the closes.
    CloseOldest,

    // Like `CloseOldest`, newest first.
    CloseNewest,

    // Like `CloseOldest`, in a shuffled order.
    CloseShuffled,

    // A span and its close, below ten others.
    Below10,

    // A chain that closes at once with its last span: its closes.
    Chain,

    // Clones and records in turn, spread over a thousand live spans.
    Spread1000,

    // Like `Spread1000`, over a million.
    Spread1000000,

    // Events in one span.
    Event,

    // Like `Event`, with each of the clocks.
    EventUtc,
    EventLocal,
    EventUptime,

    // Closes of leaves below one live span.
    CloseLeaf,

    // Events with a message of a megabyte.
    LongText,

    // Records onto one span.
    Records,

    // A thousand roots. Four hundred of them close, oldest first, and then new roots open.
    Gaps,

    // Clones spread over ten live spans.
    Clone10,

    // Like `Clone10`, over a hundred thousand.
    Clone100000,

    // Clones spread over the oldest spans. Of a thousand one in ten was left, and enough new ones
    // open to close the gaps.
    CloneOld1000,

    // Like `CloneOld1000`, over a hundred thousand.
    CloneOld100000,
}

impl Work {
    pub const ALL: [Work; 25] = [
        Work::Nested,
        Work::NestedStyled,
        Work::NestedRetraced,
        Work::Alternating10,
        Work::Alternating100,
        Work::Alternating1000,
        Work::CloseOldest,
        Work::CloseNewest,
        Work::CloseShuffled,
        Work::Below10,
        Work::Chain,
        Work::Spread1000,
        Work::Spread1000000,
        Work::Event,
        Work::EventUtc,
        Work::EventLocal,
        Work::EventUptime,
        Work::CloseLeaf,
        Work::LongText,
        Work::Records,
        Work::Gaps,
        Work::Clone10,
        Work::Clone100000,
        Work::CloneOld1000,
        Work::CloneOld100000,
    ];

    pub fn name(self) -> &'static str {
        match self {
            Work::Nested => "nested",
            Work::NestedStyled => "nested-styled",
            Work::NestedRetraced => "nested-retraced",
            Work::Alternating10 => "alternating-10",
            Work::Alternating100 => "alternating-100",
            Work::Alternating1000 => "alternating-1000",
            Work::CloseOldest => "close-oldest",
            Work::CloseNewest => "close-newest",
            Work::CloseShuffled => "close-shuffled",
            Work::Below10 => "below-10",
            Work::Chain => "chain",
            Work::Spread1000 => "spread-1000",
            Work::Spread1000000 => "spread-1000000",
            Work::Event => "event",
            Work::EventUtc => "event-utc",
            Work::EventLocal => "event-local",
            Work::EventUptime => "event-uptime",
            Work::CloseLeaf => "close-leaf",
            Work::LongText => "long-text",
            Work::Records => "records",
            Work::Gaps => "gaps",
            Work::Clone10 => "clone-10",
            Work::Clone100000 => "clone-100000",
            Work::CloneOld1000 => "clone-old-1000",
            Work::CloneOld100000 => "clone-old-100000",
        }
    }

    pub fn named(name: &str) -> Option<Work> {
        Work::ALL.iter().copied().find(|work| work.name() == name)
    }

    // Returns a layer with the work's settings, over memory.
    pub fn layer(self, alloc: Global) -> HierarchicalLayer<Sink, Clock<'static>>
        ensures last { result.last ≡ None }
        ensures sound { result.failed ≡ false }
    {
        let layer = HierarchicalLayer::new(alloc, 2, false, Sink { bytes: 0 })
            .with_indent_lines(true)
            .with_timer(self.clock());
        match self {
            Work::NestedStyled => styled(layer),
            Work::NestedRetraced => styled(layer)
                .with_span_retrace(true)
                .with_deferred_spans(true)
                .with_close_retrace(true),
            Work::Alternating10 | Work::Alternating100 | Work::Alternating1000 => {
                layer.with_span_retrace(true).with_wraparound(8)
            }
            _ => layer,
        }
    }

    fn clock(self) -> Clock<'static> {
        match self {
            Work::EventUtc => Clock::Utc(UtcDateTime::default()),
            Work::EventLocal => Clock::Local(LocalDateTime::with_offset(Offset::UTC, false)),
            Work::EventUptime => Clock::Uptime(Uptime::from(0)),
            _ => Clock::None,
        }
    }

    // Makes the calls that come before these rounds.
    pub fn prepare(self, calls: &mut Calls, rounds: u32) -> Result<(), AllocError> {
        match self {
            Work::Alternating10 => leaves(calls, 10),
            Work::Alternating100 => leaves(calls, 100),
            Work::Alternating1000 => leaves(calls, 1_000),
            Work::CloseOldest | Work::CloseNewest | Work::CloseShuffled => roots(calls, rounds),
            Work::Below10 => chain(calls, 10),
            Work::Chain => chain(calls, rounds),
            Work::Spread1000 | Work::Gaps => roots(calls, 1_000),
            Work::Spread1000000 => roots(calls, 1_000_000),
            Work::Clone10 => roots(calls, 10),
            Work::Clone100000 => roots(calls, 100_000),
            Work::CloneOld1000 => few_old(calls, 1_000),
            Work::CloneOld100000 => few_old(calls, 100_000),
            Work::Event
            | Work::EventUtc
            | Work::EventLocal
            | Work::EventUptime
            | Work::LongText
            | Work::Records => roots(calls, 1),
            Work::CloseLeaf => leaves_of_one(calls, rounds),
            Work::Nested | Work::NestedStyled | Work::NestedRetraced => Ok(()),
        }
    }

    // The calls of a batch.
    pub fn fill(self, calls: &mut Calls, batch: Batch) -> Result<(), AllocError> {
        for round in batch.from..batch.to {
            self.round(calls, u64::from(round), u64::from(batch.of))?;
        }
        Ok(())
    }

    // Makes the calls of one of `of` rounds.
    fn round(self, calls: &mut Calls, round: u64, of: u64) -> Result<(), AllocError> {
        match self {
            Work::Nested | Work::NestedStyled | Work::NestedRetraced => nested(calls),
            Work::Alternating10 => alternating(calls, 10),
            Work::Alternating100 => alternating(calls, 100),
            Work::Alternating1000 => alternating(calls, 1_000),
            Work::CloseOldest | Work::Chain => calls.close(round.wrapping_add(1)),
            Work::CloseNewest => calls.close(of.wrapping_sub(round)),
            Work::CloseShuffled => calls.close(shuffled(round, of)),
            Work::Below10 => open_and_close(calls),
            Work::Spread1000 => spread(calls, shuffled(round, 1_000)),
            Work::Spread1000000 => spread(calls, shuffled(round, 1_000_000)),
            Work::Event | Work::EventUtc | Work::EventLocal | Work::EventUptime => {
                calls.emit("something happened", Some(1))
            }
            Work::CloseLeaf => calls.close(round.wrapping_add(2)),
            Work::LongText => long_event(calls),
            Work::Records => calls.record(1),
            Work::Gaps => open_after_closes(calls, round),
            Work::Clone10 => calls.clone_span(shuffled(round, 10)),
            Work::Clone100000 => calls.clone_span(shuffled(round, 100_000)),
            Work::CloneOld1000 => calls.clone_span(old(shuffled(round, 100))),
            Work::CloneOld100000 => calls.clone_span(old(shuffled(round, 10_000))),
        }
    }
}

// Every setting but the lines and those that retrace.
fn styled(layer: HierarchicalLayer<Sink, Clock<'static>>) -> HierarchicalLayer<Sink, Clock<'static>>
    ensures last { result.last ≡ layer.entry.last }
    ensures failed { result.failed ≡ layer.entry.failed }
{
    layer
        .with_ansi(true)
        .with_targets(true)
        .with_span_modes(true)
        .with_verbose_entry(true)
        .with_verbose_exit(true)
        .with_bracketed_fields(true)
        .with_thread_ids(true)
        .with_thread_names(true)
        .with_wraparound(8)
}

fn nested(calls: &mut Calls) -> Result<(), AllocError> {
    let root = calls.open(None)?;
    let second = calls.open(Some(root))?;
    let third = calls.open(Some(second))?;
    let fourth = calls.open(Some(third))?;
    let leaf = calls.open(Some(fourth))?;
    calls.emit("something happened", Some(leaf))?;
    for id in [leaf, fourth, third, second, root] {
        calls.close(id)?;
    }
    Ok(())
}

fn roots(calls: &mut Calls, spans: u32) -> Result<(), AllocError> {
    for _span in 0..spans {
        calls.open(None)?;
    }
    Ok(())
}

// Opens roots, closes all but one in ten, and opens half as many again. Meanwhile the list of spans
// is full once, which removes the gaps.
fn few_old(calls: &mut Calls, spans: u32) -> Result<(), AllocError> {
    roots(calls, spans)?;
    for id in 1..=u64::from(spans) {
        if id % 10 != 0 {
            calls.close(id)?;
        }
    }
    roots(calls, spans / 2)
}

// Returns the oldest spans that stay there, from 1.
fn old(place: u64) -> u64 {
    place.wrapping_mul(10)
}

fn leaves_of_one(calls: &mut Calls, spans: u32) -> Result<(), AllocError> {
    let root = calls.open(None)?;
    for _span in 0..spans {
        calls.open(Some(root))?;
    }
    Ok(())
}

// A chain of spans, each the parent of the next.
fn chain(calls: &mut Calls, spans: u32) -> Result<(), AllocError> {
    let mut parent = None;
    for _span in 0..spans {
        parent = Some(calls.open(parent)?);
    }
    Ok(())
}

// A chain of spans, and a second leaf beside its last.
fn leaves(calls: &mut Calls, depth: u32) -> Result<(), AllocError> {
    let mut parent = None;
    let mut last = None;
    for _span in 0..depth {
        parent = last;
        last = Some(calls.open(last)?);
    }
    calls.open(parent)?;
    Ok(())
}

fn alternating(calls: &mut Calls, depth: u64) -> Result<(), AllocError> {
    calls.emit("something happened", Some(depth))?;
    calls.emit("something happened", Some(depth.wrapping_add(1)))
}

// Each id up to this number once, by steps of a prime.
fn shuffled(round: u64, of: u64) -> u64 {
    let place = round.wrapping_mul(7_919).checked_rem(of).unwrap_or(0);
    place.wrapping_add(1)
}

fn open_and_close(calls: &mut Calls) -> Result<(), AllocError> {
    let id = calls.open(Some(10))?;
    calls.close(id)
}

// The close of one of the four hundred oldest roots, and after these a new root.
fn open_after_closes(calls: &mut Calls, round: u64) -> Result<(), AllocError> {
    if round < 400 {
        return calls.close(round.wrapping_add(1));
    }
    calls.open(None)?;
    Ok(())
}

fn spread(calls: &mut Calls, id: u64) -> Result<(), AllocError> {
    calls.clone_span(id)?;
    calls.record(id)
}

fn long_event(calls: &mut Calls) -> Result<(), AllocError> {
    let message = "x".repeat(calls.allocator(), 1 << 20)?;
    calls.emit(message.as_str(), Some(1))
}
