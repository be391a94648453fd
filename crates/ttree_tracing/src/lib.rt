//! Draws the JSON lines of Rust's tracing-subscriber as a tree.
//!
//! [`Tracing`] turns the lines into calls, and `ttree_source::draw_source` draws it.
#![tactic(auto)]

pub mod tracing;

pub use tracing::Tracing;
