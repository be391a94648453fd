//! The JSON logs of services, drawn as a tree.
//!
//! [`Logs`] says what the lines mean, and `ttree_source::draw_source` draws them.
#![tactic(auto)]

mod groups;
pub mod logs;

pub use logs::Logs;
