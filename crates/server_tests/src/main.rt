//! The server as those meet it who use it: connections over sockets, and the words that it is started with.
#![tactic(auto)]

#[cfg(test)]
mod clients;
#[cfg(test)]
mod counting;
#[cfg(test)]
mod ends;
#[cfg(test)]
mod hosting;
#[cfg(test)]
mod limits;
#[cfg(test)]
mod lists;
#[cfg(test)]
mod sockets;
#[cfg(test)]
mod trouble;
#[cfg(test)]
mod words;

/// Nothing is built on a crate of tests, so it is a program, which does nothing.
fn main() {}
