//! The lines around a document.

ghost use Rattle.std.specs.Prelude.{◌≡◌, ◌++◌, OnOk};
ghost use Rattle.ttree_junit.specs.Plain.{plain_calls, plain_line};

use crate::lines::{first_line, is_blank_text};
use std::alloc::{AllocError, Global};
use tracing_tree_layer::call::Call;
use tracing_tree_time::Moment;
use ttree_source::traces::plain_event;

// Appends the events of the lines of a string that isn't part of a document. Each turn reads at
// least one byte.
pub(crate) fn push_plain(
    alloc: Global,
    calls: &mut Vec<Call>,
    moment: &Moment,
    text: &str,
) -> Result<(), AllocError>
    ensures { OnOk result (calls.new.items ≡ calls.old.items ++ plain_calls moment.now text.now) }
{
    let mut rest = text;
    for _turn in 0..text.len() {
        if rest.is_empty() {
            return Ok(());
        }
        let (line, others) = first_line(rest);
        push_plain_line(alloc, calls, moment, line)?;
        rest = others;
    }
    Ok(())
}

// Appends the event of a line, unless it is blank.
fn push_plain_line(
    alloc: Global,
    calls: &mut Vec<Call>,
    moment: &Moment,
    line: &str,
) -> Result<(), AllocError>
    ensures { OnOk result (calls.new.items ≡ calls.old.items ++ plain_line moment.now line.now) }
{
    if is_blank_text(line) {
        return Ok(());
    }
    Ok(calls.push(plain_event(alloc, *moment, line, None)?)?)
}
