//! Durations, as shown.

ghost use Rattle.std.specs.Prelude.{◌≡◌, ◌++◌, IfOk, OnOk, string_bytes};
ghost use Rattle.ttree_source.specs.Length.{length_text, thousandths_text};

use std::alloc::{AllocError, Global};
use tracing_tree_base::text::Text;

/// Returns a duration in nanoseconds as a string: in seconds or milliseconds if it has at least one
/// of them, otherwise in microseconds, with three digits after the point. Further ones are cut off.
///
/// # Errors
///
/// `AllocError` if an allocation fails.
pub fn length_text(alloc: Global, nanoseconds: u64) -> Result<Text, AllocError>
    ensures { IfOk result (λ text. text ≡ length_text nanoseconds) }
{
    if nanoseconds >= 1_000_000_000 {
        unit_text(alloc, nanoseconds / 1_000_000, "s")
    } else if nanoseconds >= 1_000_000 {
        unit_text(alloc, nanoseconds / 1000, "ms")
    } else {
        unit_text(alloc, nanoseconds, "μs")
    }
}

fn unit_text(alloc: Global, count: u64, unit: &str) -> Result<Text, AllocError>
    ensures { IfOk result (λ text. text ≡ thousandths_text count ++ unit.now) }
{
    let mut out = String::new(alloc);
    push_thousandths(&mut out, count)?;
    out.push_str(unit)?;
    Ok(Text::from(out))
}

// Appends `count` thousandths of a unit.
fn push_thousandths(out: &mut String, count: u64) -> Result<(), AllocError>
    ensures { OnOk result (string_bytes out.new ≡ string_bytes out.old ++ thousandths_text count) }
{
    let whole = count / 1000;
    let hundreds = count / 100 % 10;
    let tens = count / 10 % 10;
    let ones = count % 10;
    write!(out, "{whole}.{hundreds}{tens}{ones}")
}
