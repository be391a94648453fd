//! Writes the tree of a service: opens and closes spans, and records events in them. A `Tracer`
//! adds the rest of each call: the current span, the thread, the moment and the target. Its calls
//! go to a `Layered`, or to any other `Calls`.
#![tactic(auto)]

pub mod clock;
pub mod scope;
pub mod spans;
pub mod tracer;
pub mod value;

pub use clock::{Now, SystemClock};
pub use scope::within;
pub use spans::Spans;
pub use tracer::{TraceFault, Tracer};
pub use tracing_tree_layer::calls::Calls;
pub use value::Value;
