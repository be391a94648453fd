//! Custom timers: each is one impl.

use std::alloc::AllocError;
use std::cell::Cell;
use tracing_tree::time::{FormatTime, Moment, TimeFault};

/// Shows the whole seconds of a moment, and nothing of an elapsed time.
#[derive(Drop)]
pub struct Seconds;

impl FormatTime for Seconds {
    ghost use Rattle.std.specs.Prelude.{◌/◌, [], Some, decimal};

    ghost timer = { λ _. record {
      moment_text = λ moment. Some (decimal (moment.mono / 1_000_000_000));
      elapsed_text = λ ansi nanos. Some [];
    } };

    fn format_time(&self, moment: &Moment, out: &mut String) -> Result<(), TimeFault> {
        let seconds = moment.mono / 1_000_000_000;
        let Ok(text) = seconds.to_string(*out.allocator()) else {
            return Err(TimeFault::Memory);
        };
        out.push_str(text.as_str())
            .map_err(|_: AllocError| TimeFault::Memory)
    }

    fn style_timestamp(
        &self,
        _ansi: bool,
        _elapsed_ns: u64,
        _out: &mut String,
    ) -> Result<(), TimeFault> {
        Ok(())
    }
}

/// A timer that shows nothing, and counts how often it is called for a moment.
#[derive(Drop)]
pub struct Asked {
    pub times: Cell<u32>,
}

impl FormatTime for Asked {
    ghost use Rattle.tracing_tree_time.specs.Clock.{no_timer};

    ghost timer = { λ _. no_timer };

    fn format_time(&self, _moment: &Moment, _out: &mut String) -> Result<(), TimeFault> {
        self.times.set(self.times.get().wrapping_add(1));
        Ok(())
    }

    fn style_timestamp(
        &self,
        _ansi: bool,
        _elapsed_ns: u64,
        _out: &mut String,
    ) -> Result<(), TimeFault> {
        Ok(())
    }
}

/// A timer that shows nothing, and faults at one moment of the monotonic clock, and at one elapsed
/// time.
#[derive(Drop)]
pub struct StopAt {
    pub moment: u64,
    pub elapsed: u64,
}

impl FormatTime for StopAt {
    ghost use Rattle.std.specs.Prelude.{◌==◌, [], None, Some, if◌then◌else◌};

    ghost timer = { λ stop. record {
      moment_text = λ moment. if moment.mono == stop.moment then None else Some [];
      elapsed_text = λ ansi nanos. if nanos == stop.elapsed then None else Some [];
    } };

    fn format_time(&self, moment: &Moment, _out: &mut String) -> Result<(), TimeFault> {
        if moment.mono == self.moment {
            return Err(TimeFault::Fault);
        }
        Ok(())
    }

    fn style_timestamp(
        &self,
        _ansi: bool,
        elapsed_ns: u64,
        _out: &mut String,
    ) -> Result<(), TimeFault> {
        if elapsed_ns == self.elapsed {
            return Err(TimeFault::Fault);
        }
        Ok(())
    }
}
