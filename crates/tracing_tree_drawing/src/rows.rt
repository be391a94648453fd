//! Makes the rows of a drawing one by one, draws them, and parses them from a drawing.
//!
//! docs/reference/formats.md, 'Rows and their reader', says which rows exist, how they are drawn
//! and how a line is read. If `read_rows` returns rows, drawing them yields the same bytes, and no
//! other rows have that drawing.

pub mod draw;
pub mod paths;
pub mod read;
pub mod row;
mod text;

pub use draw::{DrawFault, draw_rows};
pub use paths::{Ancestry, EventPath, Places, read_event_paths};
pub use read::{ReadFault, Reader, Taken, read_rows};
pub use row::{Lines, Row, Shape};
