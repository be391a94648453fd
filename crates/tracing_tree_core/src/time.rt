//! Moments and timers.

pub use tracing_tree_time::{
    Clock, FormatTime, LocalDateTime, Moment, TimeFault, Uptime, UtcDateTime, clocks, local,
    uptime, utc,
};
