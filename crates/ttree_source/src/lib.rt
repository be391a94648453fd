//! Draws the output of other tools as a tree.
//!
//! [`run_source`] makes the calls of any [`Source`]'s lines on any receiver, and [`draw_source`]
//! draws them. Each tool's lines are read in a separate crate. [`count_source`] counts the calls.
//! [`AtLeast`] is a source, and [`CallsAtLeast`] a receiver, with only the events of a level and
//! above. A [`Recorder`] keeps calls in a list. A [`Detector`] detects the format of an input from
//! its lines.
#![tactic(auto)]

pub mod blanks;
pub mod call_lines;
pub mod calls;
pub mod calls_at_least;
pub mod cut;
pub mod fields;
pub mod first;
pub mod json_text;
pub mod length;
pub mod level;
pub mod markers;
pub mod marks;
pub mod moments;
pub mod notes;
pub mod plain;
pub mod recorder;
pub mod run;
pub mod source;
pub mod tally;
pub mod traces;
pub mod values;

pub use call_lines::CallLines;
pub use calls_at_least::CallsAtLeast;
pub use cut::Cut;
pub use first::{Detection, Detector, Format, format_of_line, is_empty_object, without_mark};
pub use level::AtLeast;
pub use markers::is_otlp;
pub use notes::{Notes, Problem};
pub use plain::Plain;
pub use recorder::Recorder;
pub use run::{SourceRun, draw_source, run_source};
pub use source::Source;
pub use tally::{Tally, count_source};
