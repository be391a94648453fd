//! Draws rows and reads them back. Every rule about columns is in this crate.
//!
//! [`format`] has the settings and draws the row of a span or an event. [`rows`] makes rows without
//! a layer, draws them, parses them from a drawing, and finds each event's ancestors in
//! it.
#![tactic(auto)]

pub mod format;
pub mod rows;
