//! What a failure is drawn as.

ghost use Rattle.std.specs.Prelude.{◌≡◌, ◌++◌, OnOk, option_map};
ghost use Rattle.ttree_source.specs.Marks.{after_mark};
ghost use Rattle.ttree_junit.specs.Failure.{after_found, after_line_in, failure_rows, has_lines, message_rows};

use crate::lines::{Row, first_line, head_of, is_blank_text, push_lines, push_row};
use crate::tag::Part;
use std::alloc::{AllocError, Global};
use tracing_tree_base::style::Level;

// Appends the rows of a failure: the first line of its message, its other lines unless the body has
// them, and the body.
pub(crate) fn push_failure(
    alloc: Global,
    rows: &mut Vec<Row>,
    level: Level,
    part: &Part,
) -> Result<(), AllocError>
    ensures { OnOk result (rows.new.items ≡ rows.old.items ++ failure_rows level part.now) }
{
    push_row(alloc, rows, level, head_of(part.message(), part.name()))?;
    push_message(alloc, rows, part)?;
    push_lines(alloc, rows, part.body())
}

// Appends the lines of a message after its first, unless the body has them.
fn push_message(alloc: Global, rows: &mut Vec<Row>, part: &Part) -> Result<(), AllocError>
    ensures { OnOk result (rows.new.items ≡ rows.old.items ++ message_rows part.now) }
{
    let (_, others) = first_line(part.message());
    if has_lines(others, part.body()) {
        Ok(())
    } else {
        push_lines(alloc, rows, others)
    }
}

// Returns whether a body has the lines of a string, one after another. Each turn reads at least one
// byte.
fn has_lines(text: &str, body: &str) -> bool
    ensures { result ≡ has_lines text.now body.now }
{
    let mut rest = text;
    let mut left = body.as_bytes();
    for _turn in 0..text.len() {
        if rest.is_empty() {
            return true;
        }
        let (line, others) = first_line(rest);
        let Some(after) = after_line_in(line, left) else {
            return false;
        };
        left = after;
        rest = others;
    }
    true
}

// Returns what follows a line in a body. Blanks around the line don't count.
fn after_line_in<'a>(line: &str, body: &'a [u8]) -> Option<&'a [u8]>
    ensures { option_map (λ r. r.now) result ≡ after_line_in line.now body.now }
{
    if is_blank_text(line) {
        Some(body)
    } else {
        after_found(line.trim().as_bytes(), body)
    }
}

// Returns what follows the first place at which a string has this mark.
fn after_found<'a>(mark: &[u8], text: &'a [u8]) -> Option<&'a [u8]>
    ensures { option_map (λ r. r.now) result ≡ after_found mark.now text.now }
{
    let mut rest = text;
    while let [_, others @ ..] = rest {
        match after_bytes(rest, mark) {
            Some(found) => return Some(found),
            None => rest = others,
        }
    }
    None
}

// Returns what follows this mark at the front of a string.
fn after_bytes<'a>(text: &'a [u8], mark: &[u8]) -> Option<&'a [u8]>
    ensures { option_map (λ s. s.now) result ≡ after_mark mark.now text.now }
{
    match text.strip_prefix(mark) {
        Some(rest) => Some(rest),
        None => None,
    }
}
