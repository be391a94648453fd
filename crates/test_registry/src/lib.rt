//! Tests of the registry: its calls, its paths, and 110,000 random calls against a plain list.
#![tactic(auto)]

#[cfg(test)]
mod model;
#[cfg(test)]
mod paths;
#[cfg(test)]
mod registry;
#[cfg(test)]
mod walked;
