//! What a request executes, and how: the words by which all crates above speak of it.
//!
//! A task is a batch: one command, or the members of an EXEC. `execute` runs a command over any keyspace that covers its keys: it
//! takes the part of the map at the command's keys, does there what the Redis command reference says of the command, and puts the
//! part back; so a server of one map and one of many shards run the same bodies. The members of an EXEC are run in turn, each on
//! the map that those before it left. A task's groups, its effect on the map of all keys, and whether there may be no memory for it
//! are those of its commands together. Nothing above looks into a task, so that only here it is said what one is made of.
#![tactic(auto)]

mod addressing;
mod answered_members;
mod answering;
mod appending;
mod at_once;
mod batches;
mod command_answers;
mod commands;
mod local_commands;
mod members;
mod wants;

pub use addressing::task_groups;
pub use answering::answer_batch;
pub use appending::{answer_into, append_short};
pub use at_once::answer_at_once;
pub use batches::execute_batch;
pub use command_answers::answer;
pub use commands::{commands_commute, execute};
pub use local_commands::local;
pub use wants::is_want_reply;
