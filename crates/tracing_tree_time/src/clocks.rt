//! A timer that is chosen at run time.

use super::local::LocalDateTime;
use super::uptime::Uptime;
use super::utc::UtcDateTime;
use super::{FormatTime, Moment, TimeFault};

/// A timer that is chosen at run time. It shows what the chosen timer shows.
#[derive(Drop)]
pub enum Clock<'a> {
    /// Shows nothing, like `()`.
    None,

    /// Date and time at offset zero.
    Utc(UtcDateTime),

    /// Date and time at an offset or in a zone.
    Local(LocalDateTime<'a>),

    /// The time since an epoch.
    Uptime(Uptime),
}

impl FormatTime for Clock<'_> {
    ghost use Rattle.tracing_tree_time.specs.Clock.{clock_timer};

    ghost timer = { clock_timer };

    fn format_time(&self, moment: &Moment, out: &mut String) -> Result<(), TimeFault> {
        match self {
            Clock::None => ().format_time(moment, out),
            Clock::Utc(clock) => clock.format_time(moment, out),
            Clock::Local(clock) => clock.format_time(moment, out),
            Clock::Uptime(clock) => clock.format_time(moment, out),
        }
    }

    fn style_timestamp(
        &self,
        ansi: bool,
        elapsed_ns: u64,
        out: &mut String,
    ) -> Result<(), TimeFault> {
        match self {
            Clock::None => ().style_timestamp(ansi, elapsed_ns, out),
            Clock::Utc(clock) => clock.style_timestamp(ansi, elapsed_ns, out),
            Clock::Local(clock) => clock.style_timestamp(ansi, elapsed_ns, out),
            Clock::Uptime(clock) => clock.style_timestamp(ansi, elapsed_ns, out),
        }
    }
}
