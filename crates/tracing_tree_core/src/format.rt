//! Settings, the drawing of a row, and outputs.

pub use tracing_tree_base::field::{Field, Fields};
pub use tracing_tree_base::{Context, Id, Refusal};
pub use tracing_tree_drawing::format::{
    Buffers, Config, FmtEvent, SpanMode, push_event_field, push_event_texts, push_frame,
    push_named, push_row, push_shown, write_span_mode,
};
pub use tracing_tree_output::{Output, OutputFault, Tape, Wrap};
