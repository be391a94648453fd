//! Receivers of calls for the threads of a service. Each thread has one, with a `Tracer` over it.

pub mod shared;
pub mod streaming;

pub use shared::SharedCalls;
pub use streaming::StreamingCalls;
