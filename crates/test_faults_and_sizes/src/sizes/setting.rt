//! Settings of a layer: some for which a run's output is known, and others by numbers.

ghost use Rattle.std.specs.Prelude.{◌≡◌, None, false};

use std::alloc::Global;
use tracing_tree::format::Tape;
use tracing_tree::layer::HierarchicalLayer;

/// Settings of a layer.
#[derive(Clone, Copy, Debug)]
pub enum Settings {
    /// Lines, an amount of 2, and all that is shown again.
    Plain,

    /// Each setting by some digits of this number.
    Drawn(u64),
}

impl Settings {
    /// Returns a layer over memory with these settings.
    pub fn layer(self, alloc: Global) -> HierarchicalLayer<Tape, ()>
        ensures last { result.last ≡ None }
        ensures sound { result.failed ≡ false }
    {
        match self {
            Settings::Plain => plain(alloc),
            Settings::Drawn(number) => drawn(alloc, number),
        }
    }
}

fn plain(alloc: Global) -> HierarchicalLayer<Tape, ()>
    ensures last { result.last ≡ None }
    ensures sound { result.failed ≡ false }
{
    HierarchicalLayer::new(alloc, 2, false, Tape::new(alloc))
        .with_indent_lines(true)
        .with_span_retrace(true)
        .with_close_retrace(true)
}

fn drawn(alloc: Global, number: u64) -> HierarchicalLayer<Tape, ()>
    ensures last { result.last ≡ None }
    ensures sound { result.failed ≡ false }
{
    let [lines, retrace, deferred, close, entry, exit, modes, ansi] = digits(number);
    let amount = usize::try_from(number % 71).unwrap_or(0);
    let around = usize::try_from(number / 71 % 70).unwrap_or(0);
    HierarchicalLayer::new(alloc, amount, ansi, Tape::new(alloc))
        .with_indent_lines(lines)
        .with_span_retrace(retrace)
        .with_deferred_spans(deferred)
        .with_close_retrace(close)
        .with_verbose_entry(entry)
        .with_verbose_exit(exit)
        .with_span_modes(modes)
        .with_bracketed_fields(modes != ansi)
        .with_wraparound(around.saturating_add(1))
}

// Returns the eight digits that decide most.
fn digits(number: u64) -> [bool; 8] {
    let [_, _, _, _, _, _, _, byte] = number.to_be_bytes();
    [1, 2, 4, 8, 16, 32, 64, 128].map(|digit: u8| byte & digit != 0)
}

/// Returns the number after this one, as if drawn by chance.
pub fn next(number: u64) -> u64 {
    number
        .wrapping_mul(6_364_136_223_846_793_005)
        .wrapping_add(1_442_695_040_888_963_407)
}
