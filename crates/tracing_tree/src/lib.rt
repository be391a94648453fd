//! Spans and events drawn as a tree.
//!
//! Which type to pick:
//!
//! - [`tracer::Tracer`] for a service that opens spans and records events in them. It knows the
//!   current span, the thread, the clock and the target.
//! - [`Layered`] for calls by hand. Each names its span and its moment, and is drawn whole or
//!   refused with a reason.
//! - [`shared::StreamingLayer`] for several threads that write one tree, and
//!   [`shared::SharedLayer`] if their history is needed too. Each thread has its own tracer over
//!   [`tracer::StreamingCalls`] or [`tracer::SharedCalls`], its receiver over the layer.
//! - [`HierarchicalLayer`] without a registry for a service that stores its spans itself, over any
//!   [`registry::LookupSpan`].
//! - [`run_lines`] for calls in lines of JSON, and [`rows::read_rows`] for a drawing.
//!
//! [`format::Tape`] keeps the drawing in memory, and [`format::Wrap`] writes it to any
//! `std::io::Write`.
#![tactic(auto)]

pub mod rows;
pub mod shared;
pub mod tracer;

pub use tracing_tree_core::{field, format, registry, style, text, time};
pub use tracing_tree_layer::{
    Call, Calls, DifferenceIter, HierarchicalLayer, Layered, Reply, call, calls, difference, layer,
    layered, parts,
};
pub use tracing_tree_lines::{LineCause, LineFault, LinesRun, lines, run_lines, status};
