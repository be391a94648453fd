//! Live spans, the parts of a call, and the drawing of a row: the base of `tracing_tree`, with the
//! module names of the Rust crate.
//!
//! [`registry::Registry`] stores each span with its path, so a path is available at once.
//! [`registry::Walked`] is a registry that doesn't lend paths: a layer over it walks up to the root
//! for each one. Both have the same calls and results. A layer without a `Layered` works over any
//! other [`registry::LookupSpan`] too.
#![tactic(auto)]

pub mod context;
pub mod format;
pub mod time;

pub use tracing_tree_base::{field, style, text};
pub use tracing_tree_spans::registry;
