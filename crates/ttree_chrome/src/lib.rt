//! Draws traces in Chrome's trace event format as a tree.
//!
//! [`run_trace`] draws a whole trace: its processes and threads are spans, and each thread's spans
//! are nested by time. [`trace_calls`] returns the calls that it makes. `Cut` of
//! `ttree_source` says which spans are left out, and [`Leaves`] how a span that has nothing
//! in it is drawn.
#![tactic(auto)]

mod element;
mod gather;
mod keys;
mod later;
pub mod leaves;
mod number;
mod strings;
mod text;
pub mod trace;
mod tree;

pub use leaves::Leaves;
pub use trace::{TraceCalls, TraceRun, run_trace, trace_calls};
