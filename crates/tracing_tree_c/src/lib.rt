//! The functions that C calls: a tree behind a handle, with one function for each call.
//!
//! The header `tracing_tree.h` says what a caller must ensure. The contracts here say what each
//! function returns and changes.
#![tactic(auto)]

pub mod act;
pub mod calls;
pub mod drawing;
pub mod entered;
pub mod foreign;
mod layout;
pub mod lent;
pub mod outcome;
pub mod parts;
mod raw;
pub mod settings;
pub mod timer;
pub mod tree;
mod value;
