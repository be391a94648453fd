//! Whether the drawing shows what the workers did.

ghost use Rattle.std.specs.Prelude.{◌≤◌};

use std::alloc::Global;
use tracing_tree::rows::{EventPath, ReadFault, Row, read_paths, read_rows};

/// Returns how many events of a drawing are nested in the order that they name.
pub fn events_under_their_orders(
    alloc: Global,
    text: &str,
    amount: usize,
) -> Result<usize, ReadFault>
    requires { 2 ≤ amount }
{
    let rows = read_rows(alloc, text, amount)?;
    let paths = read_paths(alloc, text, amount)?;
    let all = rows.as_slice();
    Ok(
        paths
            .iter()
            .filter(|path| is_under_its_order(all, path))
            .count(),
    )
}

// Returns whether an ancestor of an event is the span of the order that the event names.
fn is_under_its_order(rows: &[Row], path: &EventPath) -> bool {
    let named = number_in(rows, Some(path.event), ", order=");
    named.is_some()
        && path
            .ancestors
            .as_slice()
            .iter()
            .any(|place| number_in(rows, *place, "order id=") == named)
}

// Returns the number that comes after this mark in the first line of a row.
fn number_in(rows: &[Row], place: Option<usize>, mark: &str) -> Option<u64> {
    let line = rows.get(place?)?.lines().as_slice().first()?;
    let (_, rest) = line.as_str().split_once(mark)?;
    let number = match rest.split_once(',') {
        Some((number, _)) => number,
        None => rest,
    };
    number.parse::<u64>().ok()
}
