//! Tests of the sources and of their runs: when output is shown, what is noted, each size, large
//! inputs, and calls of the laws that run something.
#![tactic(auto)]

#[cfg(test)]
mod large;
#[cfg(test)]
mod laws;
#[cfg(test)]
mod prefixes;
#[cfg(test)]
mod receivers;
#[cfg(test)]
mod runs;
#[cfg(test)]
mod seen;
#[cfg(test)]
mod sizes;
#[cfg(test)]
mod tallies;
#[cfg(test)]
mod traces;
