//! Lines that begin with a prefix, such as the name of a service or a time.
//!
//! A [`Mark`] says what a prefix is. [`Prefixed`] is a source over the source of what comes after
//! the prefixes.
#![tactic(auto)]

mod color;
pub mod mark;
pub mod prefix;
mod streams;

pub use mark::Mark;
pub use prefix::Prefixed;
