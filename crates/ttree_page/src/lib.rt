//! Writes calls down as lines: the data of an HTML page, or JSON objects.
#![tactic(auto)]

mod form;
mod line;
mod part;
mod string;
mod writer;

pub use form::LineForm;
pub use writer::StepWriter;
