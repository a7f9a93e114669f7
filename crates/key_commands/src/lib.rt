//! The bodies of the commands on keys of any type.
//!
//! What each does is the Redis command reference's: <https://redis.io/docs/latest/commands/?group=generic>.
//! `command_bodies` runs them.
#![tactic(auto)]

mod bodies;
mod looks;
mod rename_absent;
mod whole;

ghost use Rattle.std.specs.Prelude.{◌≡◌, All, IsTrue, OnErr};
ghost use Rattle.command_cases.specs.Case.{Does};
ghost use Rattle.command_table.specs.KeyCommands.{key_command_keys};
ghost use Rattle.key_commands.specs.KeyCommand.{key_command_case, KeyCommandTakesMemory};

use bodies::{del, rename};
use command_cases::{Starved, body_rows};
use command_table::{KeyCommand, command_rows};
use keyspace::Keyspace;
use looks::{exists, type_of};
use rename_absent::renamenx;
use resp::Reply;
use std::alloc::Global;
use whole::{dbsize, flushall};

/// Runs a command on keys, by the body that its row names.
pub fn run_key_command<K: Keyspace>(
    alloc: Global,
    keyspace: &mut K,
    command: KeyCommand,
) -> Result<Reply, Starved>
    requires { All (λ key. IsTrue (K.covered key)) (key_command_keys command) }
    ensures done { Does (key_command_case command)
        (K.contents keyspace.old) (K.contents keyspace.new) result }
    ensures starves { OnErr result (KeyCommandTakesMemory command (K.contents keyspace.old)) }
{
    command_rows!(keys, body_rows, KeyCommand, alloc, keyspace, command)
}
