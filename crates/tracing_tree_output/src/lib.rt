//! Outputs of a drawing: in memory, or to a file, a pipe or a terminal.
#![tactic(auto)]

mod output;
mod retry;
mod write;

pub use output::{Output, OutputFault, Tape, Wrap};
pub use retry::{TRIES, write_tried};
pub use write::write_whole;
