//! Tests of hostile use: writers, readers and timers that fault in every way and at every place;
//! odd calls, strings and lines; how often a writer, a reader and a timer are called; and each
//! quantity at each size.
#![tactic(auto)]

#[cfg(test)]
mod asked;
#[cfg(test)]
mod fakes;
#[cfg(test)]
mod lines;
#[cfg(test)]
mod odd;
#[cfg(test)]
mod printing;
#[cfg(test)]
mod sizes;
#[cfg(test)]
mod stops;
#[cfg(test)]
mod timers;
#[cfg(test)]
mod wraps;
