//! Writes the tree of a service: spans that it opens and closes, and events in them. Each of
//! several threads has a tracer.

pub use tracing_tree_shared::{SharedCalls, StreamingCalls};
pub use tracing_tree_tracer::{Calls, Now, Spans, SystemClock, TraceFault, Tracer, Value, within};
