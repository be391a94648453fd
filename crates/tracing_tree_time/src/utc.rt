//! Date and time at offset zero.

use super::civil::{push_date, push_time};
use super::elapsed::style_timestamp;
use super::short::ShortText;
use super::{FormatTime, Moment, TimeFault};
use jiff::tz::Offset;

/// A timer that shows the date and the time at offset zero, as `2000-02-29 12:34:56.05`. It never
/// returns `Fault`.
#[derive(Clone, Copy, PartialEq, Eq)]
pub struct UtcDateTime {
    /// Whether an elapsed time is shown with two decimals.
    pub higher_precision: bool,
}

/// Lower precision.
impl Default for UtcDateTime {
    ghost use Rattle.std.specs.Prelude.{◌≡◌, false};

    ghost is_default = { λ clock. clock ≡ record { higher_precision = false } };

    fn default() -> UtcDateTime {
        UtcDateTime {
            higher_precision: false,
        }
    }
}

impl FormatTime for UtcDateTime {
    ghost use Rattle.tracing_tree_time.specs.Clock.{utc_clock_timer};

    ghost timer = { utc_clock_timer };

    #[tactic(auto, using(crate::proofs::TimerTexts::utc_asks))]
    fn format_time(&self, moment: &Moment, out: &mut String) -> Result<(), TimeFault> {
        let shown = Offset::UTC.to_datetime(moment.wall);
        let mut text = ShortText::new();
        push_date(&mut text, shown.date());
        push_time(&mut text, shown.time());
        text.append_to(out)
    }

    fn style_timestamp(
        &self,
        ansi: bool,
        elapsed_ns: u64,
        out: &mut String,
    ) -> Result<(), TimeFault> {
        style_timestamp(ansi, self.higher_precision, elapsed_ns, out)
    }
}
