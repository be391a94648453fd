//! Clocks, which return the moment of each call.

ghost use Rattle.std.specs.Prelude.{◌≡◌, Some};

use jiff::Timestamp;
use std::io;
use std::time::{Clock, Instant};
use tracing_tree_time::Moment;

/// A clock of a tracer.
pub trait Now: Drop {
    ghost use Rattle.std.specs.Prelude.{Option};
    ghost use Rattle.tracing_tree_base.specs.declared.context.Moment.{Moment};

    /// The possible results: a moment, or `None`.
    ghost reads: { Self → Option Moment → Type 0 };

    /// Returns the current moment, or `None` if the clock can't be read.
    fn now(&self) -> Option<Moment>
        ensures { reads self.now result };
}

/// A clock that always returns this moment, for tests and for layers that don't show times.
impl Now for Moment {
    ghost use Rattle.std.specs.Prelude.{◌≡◌, Some};

    ghost reads = { λ still moment_read. moment_read ≡ Some still };

    fn now(&self) -> Option<Moment>
        ensures { result ≡ Some self.now }
    {
        Some(*self)
    }
}

/// The system's clocks. The monotonic clock counts from the start of this value.
#[derive(Drop)]
pub struct SystemClock<'a, R: Clock> {
    rt: &'a R,
    started: Instant,
}

impl<'a, R: Clock> SystemClock<'a, R> {
    /// Starts the clock now.
    ///
    /// # Errors
    ///
    /// `io::Error` if the clock can't be read.
    pub fn start(rt: &'a R) -> io::Result<SystemClock<'a, R>> {
        let started = Instant::now(rt)?;
        Ok(SystemClock { rt, started })
    }
}

/// `now` returns `None` if one of the clocks can't be read.
impl<R: Clock> Now for SystemClock<'_, R> {
    ghost use Rattle.std.specs.Prelude.{⊤};

    ghost reads = { λ clock moment_read. ⊤ };

    fn now(&self) -> Option<Moment> {
        let since = self.started.elapsed(self.rt).ok()?;
        let mono = u64::try_from(since.as_nanos()).ok()?;
        let wall = Timestamp::now(self.rt).ok()?;
        Some(Moment { mono, wall })
    }
}
