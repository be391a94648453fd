//! One layer for several threads.
//!
//! [`StreamingLayer`] only stores the live spans, and suits a service that runs for months.
//! [`SharedLayer`] also stores the history of all calls, and `finish` checks that it is one history
//! of all threads. It suits tests and tools that end. A thread makes a [`Draft`] of its call before
//! it takes the lock.
#![tactic(auto)]

pub mod book;
pub mod draft;
pub mod finish;
pub mod pass;
pub mod streaming;
pub mod threads;

pub use book::{Book, Receipt};
pub use draft::{Draft, Refused};
pub use finish::{FinishFault, Finished};
pub use pass::{Pass, SharedLayer};
pub use streaming::{Counted, Numbered, StreamingLayer};
pub use threads::{SharedCalls, StreamingCalls};
