//! Timers: what a layer shows of the moment of an event, and of the time since a span started.
//!
//! [`UtcDateTime`], [`LocalDateTime`] and [`Uptime`] are timers, and `()` is a timer that shows
//! nothing. [`Clock`] is any of these, chosen at run time. To show time differently, implement
//! [`FormatTime`].
#![tactic(auto)]

mod civil;
pub mod clocks;
mod elapsed;
pub mod local;
mod pieces;
mod short;
mod timer;
pub mod uptime;
pub mod utc;

pub use clocks::Clock;
pub use local::LocalDateTime;
pub use timer::{FormatTime, TimeFault};
pub use tracing_tree_base::Moment;
pub use uptime::Uptime;
pub use utc::UtcDateTime;
