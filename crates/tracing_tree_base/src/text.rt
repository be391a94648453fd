//! Strings, which contracts see as their bytes.

ghost use Rattle.std.specs.Prelude.{◌≡◌, ◌≤◌, IfOk, IsOk, length};

use arrayvec::ArrayString;
use std::alloc::{AllocError, Global};
use std::marker::Model;

// Names, targets and most values have at most 16 bytes, and are stored inline.
const SHORT: usize = 16;

/// A string, which contracts see as its bytes.
///
/// A string of at most 16 bytes is stored inline and never allocates. Contracts don't distinguish
/// the two forms, so equal strings are equal values.
#[derive(Debug, Drop)]
pub struct Text {
    kept: Storage,
}

// How a string is stored.
#[derive(Debug, Drop)]
enum Storage {
    Short(ArrayString<SHORT>),
    Long(String),
}

impl Model for Text {
    ghost use Rattle.std.specs.Prelude.{List, ℕ};
    ghost use Rattle.tracing_tree_base.specs.Text.{kept_bytes};

    ghost Value = { List ℕ };

    ghost view = { λ t. kept_bytes t.kept };
}

impl Text {
    /// Returns a copy of a string.
    ///
    /// # Errors
    ///
    /// `AllocError` if an allocation fails. A string of at most 16 bytes never allocates.
    pub fn from_str(alloc: Global, text: &str) -> Result<Text, AllocError>
        ensures copy { IfOk result (λ copy. copy ≡ text.now) }
        ensures short { length text.now ≤ 16 → IsOk result }
    {
        let kept = match ArrayString::from(text) {
            Ok(short) => Storage::Short(short),
            Err(_) => Storage::Long(String::from_str(alloc, text)?),
        };
        Ok(Text { kept })
    }

    /// Returns the string.
    pub fn as_str(&self) -> &str
        ensures { result.now ≡ self.now }
    {
        match &self.kept {
            Storage::Short(text) => text.as_str(),
            Storage::Long(text) => text.as_str(),
        }
    }
}

/// Never allocates.
impl From<String> for Text {
    ghost use Rattle.std.specs.Prelude.{◌≡◌, string_bytes};

    ghost from_gives = { λ string text. text ≡ string_bytes string };

    fn from(text: String) -> Text {
        let kept = match ArrayString::from(text.as_str()) {
            Ok(short) => Storage::Short(short),
            Err(_) => Storage::Long(text),
        };
        Text { kept }
    }
}

impl Clone for Text {
    ghost is_clone = { λ source copy. copy ≡ source };

    fn clone(&self) -> Result<Text, AllocError> {
        let kept = match &self.kept {
            Storage::Short(text) => Storage::Short(*text),
            Storage::Long(text) => Storage::Long(text.clone()?),
        };
        Ok(Text { kept })
    }
}

impl PartialEq for Text {
    ghost use Rattle.std.specs.Str.{bytes_eq};
    ghost use Rattle.std.specs.Cmp.Rules.{comparing};
    ghost use Rattle.std.proofs.Common.{rules};

    ghost eq = { bytes_eq };

    ghost laws = { Prim.search (comparing, rules) };

    fn eq(&self, other: &Text) -> bool {
        self.as_str() == other.as_str()
    }
}

impl Eq for Text {
    ghost use Rattle.std.specs.Cmp.Rules.{comparing};
    ghost use Rattle.std.proofs.Common.{rules};

    ghost laws = { Prim.search (comparing, rules) };
}
