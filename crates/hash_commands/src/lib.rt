//! The bodies of the commands on hashes.
//!
//! What each does is the Redis command reference's: <https://redis.io/docs/latest/commands/?group=hash>.
//! `command_bodies` runs them.
#![tactic(auto)]

mod arrays;
mod changes;
mod looks;
mod numbers;
mod text_plan;

ghost use Rattle.std.specs.Prelude.{◌≡◌, All, IsTrue, OnErr};
ghost use Rattle.command_cases.specs.Case.{Does};
ghost use Rattle.command_table.specs.HashCommands.{hash_command_keys};
ghost use Rattle.hash_commands.specs.HashCommand.{hash_command_case, HashCommandTakesMemory};

use arrays::{hgetall, hkeys, hmget, hvals};
use changes::{hdel, hmset, hset, hsetnx};
use command_cases::{Starved, body_rows};
use command_table::{HashCommand, command_rows};
use keyspace::Keyspace;
use looks::{hexists, hget, hlen, hstrlen};
use numbers::hincrby;
use resp::Reply;
use std::alloc::Global;
pub use text_plan::hash_text_plan;

/// Runs a command on hashes, by the body that its row names.
pub fn run_hash_command<K: Keyspace>(
    alloc: Global,
    keyspace: &mut K,
    command: HashCommand,
) -> Result<Reply, Starved>
    requires { All (λ key. IsTrue (K.covered key)) (hash_command_keys command) }
    ensures done { Does (hash_command_case command)
        (K.contents keyspace.old) (K.contents keyspace.new) result }
    ensures starves { OnErr result (HashCommandTakesMemory command (K.contents keyspace.old)) }
{
    command_rows!(hashes, body_rows, HashCommand, alloc, keyspace, command)
}
