//! Calls, the layer that draws them, and a registry with such a layer.
//!
//! [`Layered`] accepts or refuses a [`Call`] as a whole, and answers with a [`Reply`]. It is a
//! registry with a [`HierarchicalLayer`]. The layer can also be called directly, over spans that
//! are stored elsewhere. [`DifferenceIter`] is here because the Rust crate has it. No call uses it.
#![tactic(auto)]

pub mod call;
pub mod calls;
pub mod difference;
pub mod flushed;
pub mod layer;
pub mod layered;
pub mod parts;

pub use call::{Call, Reply};
pub use calls::Calls;
pub use difference::DifferenceIter;
pub use flushed::Flushed;
pub use layer::HierarchicalLayer;
pub use layered::Layered;
