//! The trait of timers, and their faults.

ghost use Rattle.std.specs.Prelude.{string_bytes};
ghost use Rattle.tracing_tree_time.specs.Clock.{Timer, no_timer};
ghost use Rattle.tracing_tree_time.specs.Timers.{AppendsStated, AsksForText};

use tracing_tree_base::{Moment, Refusal};

/// Why a timer wrote nothing.
#[derive(Clone, Copy, Debug, PartialEq, Eq)]
pub enum TimeFault {
    /// An allocation failed.
    Memory,

    /// The timer can't show this moment or elapsed time.
    Fault,
}

impl From<TimeFault> for Refusal {
    ghost use Rattle.tracing_tree_time.specs.Timers.{RefusesFault};

    ghost from_gives = { RefusesFault };

    fn from(fault: TimeFault) -> Refusal {
        match fault {
            TimeFault::Memory => Refusal::Memory,
            TimeFault::Fault => Refusal::Timer,
        }
    }
}

/// A timer: shows a moment and an elapsed time. (`FormatTime` of the Rust crate.)
///
/// A timer that shows a star before each event:
/// ```rust
/// impl FormatTime for Star {
///     ghost use Rattle.std.specs.Prelude.{[], Some, codes};
///
///     ghost timer = { λ _. record {
///       moment_text = λ moment. Some (codes "*");
///       elapsed_text = λ ansi nanos. Some [];
///     } };
///
///     fn format_time(&self, _moment: &Moment, out: &mut String) -> Result<(), TimeFault> {
///         out.push_str("*").map_err(|_: AllocError| TimeFault::Memory)
///     }
///
///     fn style_timestamp(
///         &self,
///         _ansi: bool,
///         _nanos: u64,
///         _out: &mut String,
///     ) -> Result<(), TimeFault> {
///         Ok(())
///     }
/// }
/// ```
pub trait FormatTime {
    /// What it shows of each moment and each elapsed time. `None` is a fault.
    ghost timer: { Self → Timer };

    /// Appends the moment.
    ///
    /// # Errors
    ///
    /// `Fault` exactly if the timer can't show this moment. `Memory` if an allocation fails, which
    /// can't happen if the timer shows nothing. `out` is unchanged after both.
    fn format_time(&self, moment: &Moment, out: &mut String) -> Result<(), TimeFault>
        ensures stated { AppendsStated ((timer self.now).moment_text moment.now)
            (string_bytes out.old) (string_bytes out.new) result }
        ensures memory { AsksForText ((timer self.now).moment_text moment.now) result };

    /// Appends an elapsed time in nanoseconds, dimmed if `ansi` is on. The errors are those of
    /// `format_time`.
    fn style_timestamp(
        &self,
        ansi: bool,
        elapsed_ns: u64,
        out: &mut String,
    ) -> Result<(), TimeFault>
        ensures stated { AppendsStated ((timer self.now).elapsed_text ansi elapsed_ns)
            (string_bytes out.old) (string_bytes out.new) result }
        ensures memory { AsksForText ((timer self.now).elapsed_text ansi elapsed_ns) result };
}

/// Appends nothing.
impl FormatTime for () {
    ghost timer = { λ _. no_timer };

    fn format_time(&self, _moment: &Moment, _out: &mut String) -> Result<(), TimeFault> {
        Ok(())
    }

    fn style_timestamp(
        &self,
        _ansi: bool,
        _elapsed_ns: u64,
        _out: &mut String,
    ) -> Result<(), TimeFault> {
        Ok(())
    }
}

impl<F: FormatTime> FormatTime for &F {
    ghost timer = { λ f. F.timer f.now };

    fn format_time(&self, moment: &Moment, out: &mut String) -> Result<(), TimeFault> {
        (**self).format_time(moment, out)
    }

    fn style_timestamp(
        &self,
        ansi: bool,
        elapsed_ns: u64,
        out: &mut String,
    ) -> Result<(), TimeFault> {
        (**self).style_timestamp(ansi, elapsed_ns, out)
    }
}
