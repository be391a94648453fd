//! How a span that has nothing in it is drawn.

/// How a span that has nothing in it is drawn, if its end is known. The spans of processes and
/// threads are always drawn as spans.
#[derive(Clone, Copy, Debug, PartialEq, Eq)]
pub enum Leaves {
    /// As an event at the span's start. Its message is the span's name, and its fields are the
    /// span's.
    Rows,

    /// As a span.
    Spans,
}
