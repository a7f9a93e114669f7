//! The dump of a map of keys: its text, line by line.
//!
//! A dump has a line for each key, ascending by bytes, so two maps are the same where their dumps are. The entries come
//! from one keyspace or from several that share no key, in any order; a `Dump` puts them in order and writes them.
#![tactic(auto)]

mod dump;
mod line;

pub use dump::Dump;
