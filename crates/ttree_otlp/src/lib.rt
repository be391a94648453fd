//! OpenTelemetry's OTLP/JSON, as the Collector's file exporter writes it, drawn as a tree.
//!
//! [`run_otlp`] draws the traces and logs of a whole input: each trace is a span, its spans are
//! nested by their ids, and logs and span events are in their spans. [`read_otlp`] returns a tree
//! whose calls can be made on any receiver.
#![tactic(auto)]

mod any;
mod cut;
mod draw;
mod gather;
mod item;
mod keyed;
mod named;
pub mod otlp;
mod read;
pub mod select;
pub mod tree;
mod walk;

pub use otlp::{OtlpRead, read_otlp, run_otlp};
pub use select::Selection;
pub use tree::OtlpTree;
