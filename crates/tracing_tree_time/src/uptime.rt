//! The time since an epoch.

ghost use Rattle.std.specs.Prelude.{◌≡◌, false};

use super::elapsed::style_timestamp;
use super::pieces::{Piece, append};
use super::{FormatTime, Moment, TimeFault};

/// A timer that shows the time since an epoch, as `   3.000042s`: seconds in four places with six
/// decimals, and zero before the epoch. It never returns `Fault`.
#[derive(Clone, Copy, PartialEq, Eq)]
pub struct Uptime {
    /// Whether an elapsed time is shown with two decimals.
    pub higher_precision: bool,
    epoch: u64,
}

/// Starts at an epoch in nanoseconds on the clock of `Moment::mono`, with lower precision.
impl From<u64> for Uptime {
    ghost use Rattle.std.specs.Prelude.{◌≡◌};
    ghost use Rattle.tracing_tree_time.specs.Clock.{uptime_from};

    ghost from_gives = { λ epoch clock. clock ≡ uptime_from epoch };

    fn from(epoch: u64) -> Uptime {
        Uptime {
            higher_precision: false,
            epoch,
        }
    }
}

impl FormatTime for Uptime {
    ghost use Rattle.tracing_tree_time.specs.Clock.{uptime_clock_timer};

    ghost timer = { uptime_clock_timer };

    #[tactic(auto, using(crate::proofs::TimerTexts::uptime_asks))]
    fn format_time(&self, moment: &Moment, out: &mut String) -> Result<(), TimeFault> {
        let elapsed = moment.mono.saturating_sub(self.epoch);
        let seconds = Piece::right(4, elapsed / 1_000_000_000);
        let microseconds = Piece::digits(6, elapsed / 1000 % 1_000_000);
        append(
            out,
            &[&[seconds, Piece::Text("."), microseconds, Piece::Text("s")]],
        )
    }

    fn style_timestamp(
        &self,
        ansi: bool,
        elapsed_ns: u64,
        out: &mut String,
    ) -> Result<(), TimeFault> {
        style_timestamp(ansi, self.higher_precision, elapsed_ns, out)
    }
}
