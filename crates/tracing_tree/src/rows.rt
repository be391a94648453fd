//! Rows of a drawing, the paths of its events, and its rows as lines of JSON.

pub use tracing_tree_drawing::rows::{
    Ancestry, DrawFault, EventPath, Lines, Places, ReadFault, Reader, Row, Shape, Taken, draw_rows,
    read_rows,
};
pub use tracing_tree_lines::rows::{RowCause, RowFault, read_paths, rows_to_json};
