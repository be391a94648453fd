//! JUnit XML, drawn as a tree.
//!
//! [`junit_calls`] returns the calls of a document: a span for each suite, and an event or a span
//! for each case.
#![tactic(auto)]

mod case;
pub mod document;
mod element;
mod failure;
mod lines;
mod plain;
mod reading;
mod seconds;
mod tag;

pub use document::{JunitCalls, Selection, Tally, junit_calls};
