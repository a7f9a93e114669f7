//! One store on one map, which does one command after another.
//!
//! It is what the whole system is compared with: the same commands in the same order leave the same keys and get the
//! same replies. The program `shardkv_solo` serves standard input by it, and a replay runs what a system has run.
#![tactic(auto)]

mod client;
mod connection;
mod fault;
mod reading_ahead;
mod store;

pub use fault::ConnectionFault;
pub use store::Solo;
