//! The Test Anything Protocol (TAP 12, 13 and 14), drawn as a tree.
//!
//! [`Tap`] says what the lines mean, and `ttree_source::draw_source` draws them.
#![tactic(auto)]

mod length;
mod line;
mod queue;
mod strings;
pub mod tally;
pub mod tap;

pub use tally::Tally;
pub use tap::Tap;
