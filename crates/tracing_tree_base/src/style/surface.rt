//! API of the Rust crate that no call of the layer uses.

use super::{Level, painted};
use std::fmt;

/// A level that is displayed in its colour, right-aligned in five columns. (`ColorLevel` of the
/// Rust crate.)
#[derive(Drop)]
pub struct ColorLevel<'a>(pub &'a Level);

impl fmt::Display for ColorLevel<'_> {
    ghost use Rattle.std.specs.Prelude.{Some};
    ghost use Rattle.tracing_tree_base.specs.Style.{color_level_text};

    ghost output = { λ level. Some (color_level_text level.0.now) };

    fn fmt<W: fmt::Write>(&self, f: &mut fmt::Formatter<W>) -> fmt::Result {
        f.write_str(painted(self.0))
    }
}
