//! Tests of calls on a layer and of the clocks: each public call once on its happy path, the clocks
//! against `jiff`'s own printing, and what no proof shows.
#![tactic(auto)]

#[cfg(test)]
mod bare;
#[cfg(test)]
mod calls;
#[cfg(test)]
mod checks;
#[cfg(test)]
mod clocks;
#[cfg(test)]
mod difference;
#[cfg(test)]
mod examples;
#[cfg(test)]
mod instants;
#[cfg(test)]
mod lent;
#[cfg(test)]
mod levels;
#[cfg(test)]
mod lone;
#[cfg(test)]
mod readme;
#[cfg(test)]
mod retracing;
#[cfg(test)]
mod texts;
#[cfg(test)]
mod timed;
#[cfg(test)]
mod timers;
#[cfg(test)]
mod turned;
