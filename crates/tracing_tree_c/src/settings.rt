//! Settings, as C passes them.

ghost use Rattle.std.specs.Prelude.{◌≡◌, ◌<◌, option_map};
ghost use Rattle.tracing_tree_time.specs.Clock.{clock_timer};
ghost use Rattle.tracing_tree_c.specs.Settings.{settings_of, timer_of, offset_of, offset_timer};

use jiff::tz::Offset;
use tracing_tree_drawing::format::Config;
use tracing_tree_time::{Clock, LocalDateTime, Uptime, UtcDateTime};

/// The size of `SettingsRef` in bytes.
pub const SIZE: u64 = 56;

/// Settings, and the timer that shows the time.
#[repr(C)]
#[derive(Clone, Copy)]
pub struct SettingsRef {
    /// The size of this struct in bytes.
    pub size: u64,
    pub indent_amount: u64,
    pub wraparound: u64,

    /// The start of the uptime, in nanoseconds on the monotonic clock.
    pub epoch: u64,

    /// 0: no timer, 1: uptime, 2: UTC, 3: local.
    pub timer: u32,

    /// The offset of a local timer, in seconds east.
    pub offset: i32,
    pub higher_precision: bool,
    pub ansi: bool,
    pub indent_lines: bool,
    pub targets: bool,
    pub thread_ids: bool,
    pub thread_names: bool,
    pub verbose_entry: bool,
    pub verbose_exit: bool,
    pub span_retrace: bool,
    pub deferred_spans: bool,
    pub close_retrace: bool,
    pub span_modes: bool,
    pub bracketed_fields: bool,
}

impl SettingsRef {
    // Returns the settings of a layer. The caller must ensure that the wraparound isn't 0.
    pub(crate) fn config(&self) -> Config
        requires { 0 < self.now.wraparound }
        ensures { result ≡ settings_of self.now }
    {
        Config::new(self.indent_amount as usize, self.ansi)
            .with_wraparound(self.wraparound as usize)
            .with_indent_lines(self.indent_lines)
            .with_targets(self.targets)
            .with_thread_ids(self.thread_ids)
            .with_thread_names(self.thread_names)
            .with_verbose_entry(self.verbose_entry)
            .with_verbose_exit(self.verbose_exit)
            .with_span_retrace(self.span_retrace)
            .with_deferred_spans(self.deferred_spans)
            .with_close_retrace(self.close_retrace)
            .with_span_modes(self.span_modes)
            .with_bracketed_fields(self.bracketed_fields)
    }

    // Returns the timer, or `None` if it is invalid.
    pub(crate) fn clock(&self) -> Option<Clock<'static>>
        ensures { option_map clock_timer result ≡ timer_of self.now }
    {
        let higher_precision = self.higher_precision;
        match self.timer {
            0 => Some(Clock::None),
            1 => {
                let mut clock = Uptime::from(self.epoch);
                clock.higher_precision = higher_precision;
                Some(Clock::Uptime(clock))
            }
            2 => Some(Clock::Utc(UtcDateTime { higher_precision })),
            3 => local_clock(self.offset, higher_precision),
            _ => None,
        }
    }
}

// Returns an offset in seconds, or `None` if it is invalid.
fn offset_in(seconds: i32) -> Option<Offset>
    ensures { option_map (λ offset. offset.seconds) result ≡ offset_of seconds }
{
    Offset::from_seconds(seconds).ok()
}

fn local_clock(seconds: i32, higher_precision: bool) -> Option<Clock<'static>>
    ensures { option_map clock_timer result ≡ offset_timer higher_precision seconds }
{
    let offset = offset_in(seconds)?;
    Some(Clock::Local(LocalDateTime::with_offset(offset, higher_precision)))
}
