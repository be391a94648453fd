//! Lines for a terminal: without control characters, and cut at its width.
#![tactic(auto)]

mod columns;
mod plain;
mod shaping;
#[cfg(test)]
mod tests;
mod writer;

pub use shaping::Shaping;
pub use writer::Shaped;
