//! Tests of one layer for several threads, and of their tracers over it: what no proof shows.
#![tactic(auto)]

#[cfg(test)]
mod drafts;
#[cfg(test)]
mod opened;
#[cfg(test)]
mod plain;
#[cfg(test)]
mod refusals;
#[cfg(test)]
mod streaming;
#[cfg(test)]
mod threads;
#[cfg(test)]
mod tracers;
