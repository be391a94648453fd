//! Lines of JSON: the calls that they encode, and the rows of a drawing written as such lines.
//!
//! [`run_lines`] draws the calls of its input lines. [`rows::rows_to_json`] writes the rows of a
//! drawing, and [`rows::read_paths`] returns the ancestors of its events.
#![tactic(auto)]

pub mod lines;
pub mod rows;

pub use lines::{LineCause, LineFault, LinesRun, run_lines, status};
