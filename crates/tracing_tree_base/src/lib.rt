//! What a call records, and why a call may be refused: strings, fields, styles and levels, ids of
//! spans, moments, contexts and refusals.
#![tactic(auto)]

mod context;
pub mod field;
pub mod style;
pub mod text;

pub use context::{Context, Id, Moment, Refusal};
