//! Date and time at an offset or in a zone.

ghost use Rattle.std.specs.Prelude.{◌≡◌};
ghost use Rattle.tracing_tree_time.specs.Clock.{local_clock_timer, local_in_zone, local_timer};

use super::civil::{push_date, push_offset, push_time};
use super::elapsed::style_timestamp;
use super::short::ShortText;
use super::{FormatTime, Moment, TimeFault};
use jiff::tz::{Offset, TimeZone};

/// A timer that shows the date and the time at an offset or in a zone, and the offset, as
/// `2000-02-29 18:04:56.05 +05:30:00`.
///
/// `jiff` has a date and a time for each of its instants at each of its offsets, so it never
/// returns `Fault`.
#[derive(Drop)]
pub struct LocalDateTime<'a> {
    /// Whether an elapsed time is shown with two decimals.
    pub higher_precision: bool,
    zone: TimeZone<'a>,
}

impl<'a> LocalDateTime<'a> {
    /// Returns a timer at this offset.
    pub fn with_offset(offset: Offset, higher_precision: bool) -> LocalDateTime<'a>
        ensures timer { local_clock_timer result
            ≡ local_timer higher_precision (λ instant. offset.seconds) }
        ensures precision { result.higher_precision ≡ higher_precision }
    {
        LocalDateTime {
            higher_precision,
            zone: TimeZone::fixed(offset),
        }
    }

    /// Returns a timer at the zone's offset at each instant.
    pub fn with_zone(zone: TimeZone<'a>, higher_precision: bool) -> LocalDateTime<'a>
        ensures { result ≡ local_in_zone zone.entry higher_precision }
    {
        LocalDateTime {
            higher_precision,
            zone,
        }
    }
}

impl FormatTime for LocalDateTime<'_> {
    ghost use Rattle.tracing_tree_time.specs.Clock.{local_clock_timer};

    ghost timer = { local_clock_timer };

    #[tactic(auto, using(crate::proofs::TimerTexts::local_asks))]
    fn format_time(&self, moment: &Moment, out: &mut String) -> Result<(), TimeFault> {
        let offset = self.zone.to_offset(moment.wall);
        let shown = offset.to_datetime(moment.wall);
        let mut text = ShortText::new();
        push_date(&mut text, shown.date());
        push_time(&mut text, shown.time());
        push_offset(&mut text, offset);
        text.append_to(out)
    }

    fn style_timestamp(
        &self,
        ansi: bool,
        elapsed_ns: u64,
        out: &mut String,
    ) -> Result<(), TimeFault> {
        style_timestamp(ansi, self.higher_precision, elapsed_ns, out)
    }
}
