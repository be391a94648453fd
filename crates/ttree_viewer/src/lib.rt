//! The viewer of a page: the fixed strings before and after its data.
#![tactic(auto)]

mod fixed;

pub use fixed::{HEAD, TAIL};
