//! The columns that characters take on a terminal.
//!
//! A wide character takes two columns, and a mark that combines takes no column. A tab reaches the
//! next multiple of 8. A sequence that switches colours, from ESC to `m`, takes no column either. A
//! character that is joined to others, as in some emoji, takes the columns that it takes by itself.
#![tactic(auto)]

mod columns;
#[cfg(test)]
mod tests;

pub use columns::{is_wider, push_fitting};
