//! Tests of the program's lines, of outputs, of the faults of both, and of reading a drawing back.
#![tactic(auto)]

#[cfg(test)]
mod faults;
#[cfg(test)]
mod large;
#[cfg(test)]
mod lines;
#[cfg(test)]
mod memory;
#[cfg(test)]
mod outputs;
#[cfg(test)]
mod readback;
#[cfg(test)]
mod rows;
#[cfg(test)]
mod shown;
