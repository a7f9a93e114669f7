//! The system as whoever drives it meets it: steps go in, and what each came to is looked at.
//!
//! A script is a text of lines `STEPS => ANSWERS`, and a test follows it line by line. The answers that the scripts
//! want follow from the rules alone: how groups agree on stamps, which requests a layer has, and what the commands
//! answer.
#![tactic(auto)]

#[cfg(test)]
mod answers;
#[cfg(test)]
mod front_alone;
#[cfg(test)]
mod histories;
#[cfg(test)]
mod large_layers;
#[cfg(test)]
mod many_requests;
#[cfg(test)]
mod many_shards;
#[cfg(test)]
mod memory;
#[cfg(test)]
mod refusals;
#[cfg(test)]
mod rows;
#[cfg(test)]
mod steps;
#[cfg(test)]
mod tables;
#[cfg(test)]
mod transactions;
#[cfg(test)]
mod trouble;
#[cfg(test)]
mod wording;

/// Nothing is built on a crate of tests, so it is a program, which does nothing.
fn main() {}
