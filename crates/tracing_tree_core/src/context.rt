//! The context of a call, and why a call may be refused.

pub use tracing_tree_base::{Context, Id, Moment, Refusal};
