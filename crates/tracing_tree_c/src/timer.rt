//! The timer of a tree: one of the library's, or strings that the caller's own timer wrote.

ghost use Rattle.std.specs.Prelude.{Some, string_bytes};
ghost use Rattle.tracing_tree_time.specs.Timers.{AppendsStated, AsksForText};

use std::alloc::AllocError;
use tracing_tree_base::text::Text;
use tracing_tree_time::{Clock, FormatTime, Moment, TimeFault};

/// The strings of the next events' time.
#[derive(Drop)]
pub struct Written {
    /// The moment.
    pub moment: Text,

    /// How long the current span has been open.
    pub elapsed: Text,
}

/// The timer of a tree.
#[derive(Drop)]
pub enum TreeTimer {
    /// One of the library's timers.
    Library(Clock<'static>),

    /// The strings that the caller's own timer wrote.
    Own(Written),
}

// Appends a string.
fn append(text: &str, out: &mut String) -> Result<(), TimeFault>
    ensures stated { AppendsStated (Some text.now) (string_bytes out.old) (string_bytes out.new)
        result }
    ensures memory { AsksForText (Some text.now) result }
{
    if text.is_empty() {
        return Ok(());
    }
    out.push_str(text)
        .map_err(|_: AllocError| TimeFault::Memory)
}

impl FormatTime for TreeTimer {
    ghost use Rattle.tracing_tree_c.specs.Timers.{tree_timer};

    ghost timer = { tree_timer };

    fn format_time(&self, moment: &Moment, out: &mut String) -> Result<(), TimeFault> {
        match self {
            TreeTimer::Library(clock) => clock.format_time(moment, out),
            TreeTimer::Own(written) => append(written.moment.as_str(), out),
        }
    }

    fn style_timestamp(
        &self,
        ansi: bool,
        elapsed_ns: u64,
        out: &mut String,
    ) -> Result<(), TimeFault> {
        match self {
            TreeTimer::Library(clock) => clock.style_timestamp(ansi, elapsed_ns, out),
            TreeTimer::Own(written) => append(written.elapsed.as_str(), out),
        }
    }
}
