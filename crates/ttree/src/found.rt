//! What a skipped line has in place of what it needs.

use json::Scratch;
use std::alloc::{AllocError, Global};
use std::fmt;
use std::str::from_utf8;
use tracing_tree::text::Text;
use ttree_source::Problem;
use ttree_source::calls::shown;
use ttree_source::json_text::json_text;
use ttree_source::values::value_of;

// How many characters of a value a message shows.
const LONGEST: usize = 60;

// The value that a skipped line has at the key that a message names, as JSON.
#[derive(Drop)]
pub struct Found {
    value: Option<Text>,
}

impl Found {
    // Looks for the value in a line. Without memory for it, the message doesn't show it.
    pub fn in_line(alloc: Global, problem: Problem, line: &[u8]) -> Found {
        let value = match key_of(problem) {
            Some(key) => value_at(alloc, key, line),
            None => Ok(None),
        };
        match value {
            Ok(value) => Found { value },
            Err(AllocError) => Found { value: None },
        }
    }
}

impl fmt::Display for Found {
    fn fmt<W: fmt::Write>(&self, f: &mut fmt::Formatter<W>) -> fmt::Result {
        let Some(value) = &self.value else {
            return Ok(());
        };
        f.write_str(", found ")?;
        let mut left = LONGEST;
        for c in value.as_str().chars() {
            if left == 0 {
                return f.write_str("…");
            }
            f.write_char(c)?;
            left -= 1;
        }
        Ok(())
    }
}

// Returns the key whose value isn't what the line needs.
fn key_of(problem: Problem) -> Option<&'static str> {
    match problem {
        Problem::Action => Some("Action"),
        Problem::Package => Some("Package"),
        Problem::Output => Some("Output"),
        Problem::Level => Some("level"),
        Problem::CallName => Some("call"),
        _ => None,
    }
}

// Returns what an object has at a key, as JSON without control characters.
fn value_at(alloc: Global, key: &str, line: &[u8]) -> Result<Option<Text>, AllocError> {
    let Ok(line) = from_utf8(line) else {
        return Ok(None);
    };
    let mut scratch = Scratch::new(alloc);
    let Some(object) = value_of(alloc, line, &mut scratch)? else {
        return Ok(None);
    };
    let Some(value) = object.get(key) else {
        return Ok(None);
    };
    let text = json_text(alloc, value)?;
    Ok(Some(shown(alloc, text.as_str())?))
}
