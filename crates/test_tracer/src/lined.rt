//! Layers that draw with lines, over nothing yet.

ghost use Rattle.std.specs.Prelude.{◌≡◌};

use std::alloc::Global;
use tracing_tree_core::format::{Output, Tape};
use tracing_tree_layer::{HierarchicalLayer, Layered};

/// Over memory.
pub fn lined(alloc: Global) -> Layered<Tape, ()> {
    lined_over(alloc, Tape::new(alloc))
}

/// Over this writer.
pub fn lined_over<W: Output + Drop>(alloc: Global, writer: W) -> Layered<W, ()>
    requires { W.fault_count writer ≡ 0 }
{
    let layer = HierarchicalLayer::new(alloc, 2, false, writer).with_indent_lines(true);
    Layered::new(alloc, layer)
}
