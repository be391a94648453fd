//! What is done to each line.

ghost use Rattle.std.specs.Prelude.{◌≡◌, IfOk};
ghost use Rattle.std.specs.Option.{option_map_or};
ghost use Rattle.ttree_terminal.specs.Lines.{cut_to, shaped};

use crate::columns::cut;
use crate::plain::is_plain;
use std::alloc::{AllocError, Global};
use tracing_tree_base::text::Text;
use ttree_source::calls::shown;

/// What is done to each line.
#[derive(Clone, Copy, Debug, PartialEq, Eq)]
pub struct Shaping {
    /// Lines are cut at this many columns, unless it is 0. Without it, no line is cut.
    pub width: Option<usize>,

    /// Whether control characters, except tabs, are shown as escapes. Then a line has no colours.
    pub is_escaped: bool,
}

// Returns what a line becomes, or `None` if it is unchanged.
pub(crate) fn shape(
    alloc: Global,
    shaping: Shaping,
    line: &[u8],
) -> Result<Option<Text>, AllocError>
    ensures { IfOk result
        (λ made. option_map_or (λ text. text) made line.now ≡ shaped shaping line.now) }
{
    if !shaping.is_escaped || is_plain(line) {
        return cut_to(alloc, shaping.width, line);
    }
    let lossy = String::from_utf8_lossy(alloc, line)?;
    let escaped = shown(alloc, lossy.as_str())?;
    match cut_to(alloc, shaping.width, escaped.as_str().as_bytes())? {
        Some(cut) => Ok(Some(cut)),
        None => Ok(Some(escaped)),
    }
}

// Returns a line that is cut, or `None` if it is unchanged.
fn cut_to(alloc: Global, width: Option<usize>, line: &[u8]) -> Result<Option<Text>, AllocError>
    ensures { IfOk result
        (λ made. option_map_or (λ text. text) made line.now ≡ cut_to width line.now) }
{
    match width {
        None | Some(0) => Ok(None),
        Some(width) => cut(alloc, line, width),
    }
}
