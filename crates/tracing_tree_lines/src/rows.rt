//! Rows of a drawing as lines of JSON, and the paths of its events.

mod json_text;
mod paths;

pub use json_text::{RowCause, RowFault, rows_to_json};
pub use paths::read_paths;
