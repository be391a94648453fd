//! Draws the output of `go test -json` as a tree.
//!
//! [`GoTest`] reports all tests, and [`Failed`] only those that failed.
//! `ttree_source::draw_source` draws either.
#![tactic(auto)]

pub mod failed;
pub mod go_test;
mod names;

pub use failed::Failed;
pub use go_test::GoTest;
