//! Layers on which no call was made yet.

ghost use Rattle.std.specs.Prelude.{◌≡◌, [], None, false};

use std::alloc::Global;
use tracing_tree_core::format::Tape;
use tracing_tree_core::time::FormatTime;
use tracing_tree_layer::{HierarchicalLayer, Layered};

/// Over memory, with lines and an amount of 2.
pub fn lined(alloc: Global) -> Layered<Tape, ()>
    ensures spans { result.forest.spans ≡ [] }
    ensures last { result.layer.last ≡ None }
    ensures sound { result.layer.failed ≡ false }
    ensures tape { result.layer.writer.bytes ≡ [] }
{
    let layer = HierarchicalLayer::new(alloc, 2, false, Tape::new(alloc)).with_indent_lines(true);
    Layered::new(alloc, layer)
}

/// Like `lined`, but a row at level 1 exceeds all memory.
pub fn wide(alloc: Global) -> Layered<Tape, ()>
    ensures spans { result.forest.spans ≡ [] }
    ensures last { result.layer.last ≡ None }
    ensures sound { result.layer.failed ≡ false }
    ensures tape { result.layer.writer.bytes ≡ [] }
{
    let layer = HierarchicalLayer::new(alloc, 1 << 62, false, Tape::new(alloc)).with_indent_lines(
        true,
    );
    Layered::new(alloc, layer)
}

/// With lines and an amount of 2, which retraces, at closes too.
pub fn retracing(alloc: Global) -> Layered<Tape, ()>
    ensures spans { result.forest.spans ≡ [] }
    ensures last { result.layer.last ≡ None }
    ensures sound { result.layer.failed ≡ false }
    ensures tape { result.layer.writer.bytes ≡ [] }
{
    let layer = HierarchicalLayer::new(alloc, 2, false, Tape::new(alloc))
        .with_indent_lines(true)
        .with_span_retrace(true)
        .with_close_retrace(true);
    Layered::new(alloc, layer)
}

/// With lines and this timer.
pub fn timed<FT: FormatTime + Drop>(alloc: Global, timer: FT) -> Layered<Tape, FT>
    ensures spans { result.forest.spans ≡ [] }
    ensures last { result.layer.last ≡ None }
    ensures sound { result.layer.failed ≡ false }
    ensures tape { result.layer.writer.bytes ≡ [] }
{
    let layer = HierarchicalLayer::new(alloc, 2, false, Tape::new(alloc))
        .with_indent_lines(true)
        .with_timer(timer);
    Layered::new(alloc, layer)
}
