//! Printed lines as rows.

ghost use Rattle.std.specs.Prelude.{◌≡◌, ◌++◌, ◌∷◌, [], IfOk, OnOk, option_map};
ghost use Rattle.ttree_junit.specs.Lines.{after_line, head_of, is_blank_text, is_separator, kept_after, line_rows, printed_rows, reason_of, text_first_line};

use std::alloc::{AllocError, Global};
use tracing_tree_base::style::Level;
use tracing_tree_base::text::Text;
use ttree_source::blanks::first_byte;

// An event of a case: its level and its message.
#[derive(Debug, Drop)]
pub(crate) struct Row {
    pub(crate) level: Level,
    pub(crate) text: Text,
}

pub(crate) fn push_row(
    alloc: Global,
    rows: &mut Vec<Row>,
    level: Level,
    text: &str,
) -> Result<(), AllocError>
    ensures { OnOk result
        (rows.new.items ≡ rows.old.items ++ (record { level = level; text = text.now }) ∷ []) }
{
    let text = Text::from_str(alloc, text)?;
    Ok(rows.push(Row { level, text })?)
}

// Appends the lines of a string that are shown. Each turn reads at least one byte.
pub(crate) fn push_lines(alloc: Global, rows: &mut Vec<Row>, text: &str) -> Result<(), AllocError>
    ensures { OnOk result (rows.new.items ≡ rows.old.items ++ printed_rows text.now) }
{
    let mut kept: Option<&str> = None;
    let mut rest = text;
    for _turn in 0..text.len() {
        if rest.is_empty() {
            return Ok(());
        }
        let (line, others) = first_line(rest);
        kept = push_line(alloc, rows, kept, line)?;
        rest = others;
    }
    Ok(())
}

// Appends a line that is shown, after the separator that waits for it. Returns the separator that
// waits now.
fn push_line<'a>(
    alloc: Global,
    rows: &mut Vec<Row>,
    kept: Option<&'a str>,
    line: &'a str,
) -> Result<Option<&'a str>, AllocError>
    ensures pushed { OnOk result (rows.new.items
        ≡ rows.old.items ++ line_rows (option_map (λ k. k.now) kept.entry) line.now) }
    ensures kept { IfOk result (λ now. option_map (λ k. k.now) now
        ≡ kept_after (option_map (λ k. k.now) kept.entry) line.now) }
{
    if is_blank_text(line) {
        return Ok(kept);
    }
    if is_separator(line) {
        return Ok(Some(line));
    }
    if let Some(separator) = kept {
        push_row(alloc, rows, Level::Info, separator)?;
    }
    push_row(alloc, rows, Level::Info, line)?;
    Ok(None)
}

// Returns the first line of a string, and what follows it.
pub(crate) fn first_line(text: &str) -> (&str, &str)
    ensures line { result.0.now ≡ text_first_line text.now }
    ensures others { result.1.now ≡ after_line text.now }
{
    match text.split_once('\n') {
        Some((line, others)) => (line, others),
        None => (text, ""),
    }
}

pub(crate) fn is_blank_text(text: &str) -> bool
    ensures { result ≡ is_blank_text text.now }
{
    first_byte(text.as_bytes()).is_none()
}

// Returns whether pytest writes this line before what it captured.
fn is_separator(line: &str) -> bool
    ensures { result ≡ is_separator line.now }
{
    line == "--------------------------------- Captured Log ---------------------------------"
        || line
            == "--------------------------------- Captured Out ---------------------------------"
        || line
            == "--------------------------------- Captured Err ---------------------------------"
}

// Returns what a failure is drawn as: the first line of its message, or the name of its element.
pub(crate) fn head_of<'a>(message: &'a str, name: &'a str) -> &'a str
    ensures { result.now ≡ head_of message.now name.now }
{
    let (line, _) = first_line(message);
    if is_blank_text(line) { name } else { line }
}

// Returns why a case was skipped: the message, or otherwise the element's content.
pub(crate) fn reason_of<'a>(message: &'a str, body: &'a str) -> &'a str
    ensures { result.now ≡ reason_of message.now body.now }
{
    if is_blank_text(message) {
        body.trim()
    } else {
        message
    }
}
