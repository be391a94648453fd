//! Tests of the tracer: each public call once on its happy path, and what no proof shows.
#![tactic(auto)]

#[cfg(test)]
mod clock;
#[cfg(test)]
mod drawn;
#[cfg(test)]
mod faults;
#[cfg(test)]
mod large;
#[cfg(test)]
mod lined;
#[cfg(test)]
mod steps;
#[cfg(test)]
mod values;
