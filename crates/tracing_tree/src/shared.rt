//! One layer for several threads: `SharedLayer` with its whole history, and `StreamingLayer` for
//! services that run for months.

pub use tracing_tree_shared::{
    Book, Counted, Draft, FinishFault, Finished, Numbered, Pass, Receipt, Refused, SharedLayer,
    StreamingLayer,
};
