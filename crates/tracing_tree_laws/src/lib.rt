//! The meaning of the definitions: laws that the contracts of other crates rest on. Each is the
//! contract of a public function.
//!
//! A law about definitions only is the contract of a function with an empty body. `equal`,
//! `difference`, `reading_back` and `tracers` have calls as their bodies, and their contracts are
//! about those calls.
#![tactic(auto)]

pub mod cases;
pub mod counts;
pub mod dates;
pub mod difference;
pub mod equal;
pub mod failures;
pub mod frames;
pub mod go_tests;
pub mod junit;
pub mod lines;
pub mod otlp;
pub mod reading_back;
pub mod results;
pub mod runs;
pub mod tap;
pub mod tracers;
