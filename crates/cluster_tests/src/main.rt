//! A shared cluster, its desks, and a cluster beside its store, as those meet them who use them.
#![tactic(auto)]

#[cfg(test)]
mod beside;
#[cfg(test)]
mod closings;
#[cfg(test)]
mod crowd;
#[cfg(test)]
mod faults;
#[cfg(test)]
mod large;
#[cfg(test)]
mod naming;
#[cfg(test)]
mod passing;
#[cfg(test)]
mod replaying;
#[cfg(test)]
mod rows;
#[cfg(test)]
mod scene;
#[cfg(test)]
mod traces;
#[cfg(test)]
mod transactions;
#[cfg(test)]
mod turns;
#[cfg(test)]
mod visit;
#[cfg(test)]
mod words;

/// Nothing is built on a crate of tests, so it is a program, which does nothing.
fn main() {}
