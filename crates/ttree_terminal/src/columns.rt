//! Lines cut at a terminal's width.

ghost use Rattle.std.specs.Prelude.{◌≡◌, ◌++◌, IfOk, OnOk, string_bytes};
ghost use Rattle.std.specs.Option.{option_map_or};
ghost use Rattle.ttree_terminal.specs.Columns.{cut_at, cut_mark, kept_line_end, reset};

use std::alloc::{AllocError, Global};
use std::str::from_utf8;
use tracing_tree_base::text::Text;
use ttree_columns::{is_wider, push_fitting};

// What a line that was cut ends with. It takes one column.
const CUT: &str = "…";

// Switches off the colours that were cut off.
const RESET: &str = "\u{1b}[0m";

// Returns a line that is cut at this many columns, or `None` if it is to be unchanged.
#[tactic(auto, using(crate::proofs::Fitted::uncut))]
pub(crate) fn cut(alloc: Global, line: &[u8], width: usize) -> Result<Option<Text>, AllocError>
    ensures { IfOk result
        (λ made. option_map_or (λ text. text) made line.now ≡ cut_at width line.now) }
{
    match from_utf8(line) {
        Ok(line) => cut_text(alloc, line, width),
        Err(_) => Ok(None),
    }
}

#[tactic(auto, using(crate::proofs::Fitted::unchanged, crate::proofs::Fitted::cut_made))]
fn cut_text(alloc: Global, line: &str, width: usize) -> Result<Option<Text>, AllocError>
    ensures { IfOk result
        (λ made. option_map_or (λ text. text) made line.now ≡ cut_at width line.now) }
{
    if !is_wider(line, width) {
        return Ok(None);
    }
    let mut out = String::new(alloc);
    push_fitting(&mut out, line, width)?;
    push_mark(&mut out)?;
    push_line_end(&mut out, line)?;
    Ok(Some(Text::from(out)))
}

// Appends the mark of a line that was cut, and switches off the colours that are on.
fn push_mark(out: &mut String) -> Result<(), AllocError>
    ensures { OnOk result (string_bytes out.new
        ≡ string_bytes out.old ++ (cut_mark ++ reset (string_bytes out.old))) }
{
    let has_colours = out.as_bytes().contains(&b'\x1b');
    out.push_str(CUT)?;
    if has_colours {
        out.push_str(RESET)
    } else {
        Ok(())
    }
}

// Appends the line end of a line, if it has one.
fn push_line_end(out: &mut String, line: &str) -> Result<(), AllocError>
    ensures { OnOk result (string_bytes out.new ≡ string_bytes out.old ++ kept_line_end line.now) }
{
    if line.as_bytes().contains(&b'\n') {
        out.push_str("\n")
    } else {
        Ok(())
    }
}
