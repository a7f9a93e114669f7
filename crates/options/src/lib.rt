//! The words of the programs' command lines, read by `clap`: those of `shardkv-server`, of `shardkv-replay` and of
//! `shardkv-picture`.
#![tactic(auto)]

mod command_line;
mod fault;
mod option_row;
pub mod picture;
pub mod reading_traces;
pub mod replay;
pub mod server;

pub use fault::{OptionsFault, status_of};

/// The project's version, which each of its programs tells by `--version`.
pub const VERSION: &str = "0.1.0";
