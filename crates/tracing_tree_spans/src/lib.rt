//! Live spans and their paths.
//!
//! [`registry::Registry`] stores each span with its path, so a path is available at once.
//! [`registry::Walked`] is a registry that doesn't lend paths: a layer over it walks up to the root
//! for each one. Both have the same calls and results. A layer without a `Layered` works over any
//! other [`registry::LookupSpan`] too.
#![tactic(auto)]

pub mod registry;
